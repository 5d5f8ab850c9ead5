//! The log of a document: operations, each of which fits those before it.
#![tactic(auto)]

mod check;
mod clones;
mod encode;
mod front;
mod index;
mod log;
mod log_position;

pub use check::{MAX_OPERATIONS, MAX_REPLICAS};
pub use clones::clone_all;
pub use front::counter_of;
pub use log::{OpLog, keeps_good};
