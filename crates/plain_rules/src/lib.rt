//! The rules of the document run as they stand: slow, over nested lists of pairs and explicit sets
//! of ids. A reference for tests: what it answers is the definitions' own, place by place.
#![tactic(auto)]

mod context;
mod copy;
mod order;
mod query;
mod replay;

pub use context::{PlainContext, plain_step};
pub use replay::plain_replay;
