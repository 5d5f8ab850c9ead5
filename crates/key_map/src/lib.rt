//! A map by the keys of a document's maps and lists, in the order of the keys.
#![tactic(auto)]

mod blocks;
mod map;

pub use blocks::{EachEntry, SearchHint};
pub use map::KeyMap;
