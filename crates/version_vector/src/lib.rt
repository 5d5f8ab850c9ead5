//! Version vectors: fronts, which say up to which counter the ids of each replica are known.
#![tactic(auto)]

mod chunks;
mod counters;
mod front;

pub use counters::Counters;
pub use front::{Front, id_of};
