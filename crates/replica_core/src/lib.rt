//! A replica of a document: its log, the tree that the log makes, and the operations that wait.
#![tactic(auto)]

mod body;
mod deliver;
mod drain;
mod limits;
mod log_op;
mod outcome;
mod outcome_reply;
mod own;
mod read;
mod replica;
mod restore;

pub use outcome::{Applied, Delivered};
pub use replica::Replica;
pub use restore::Misfit;
