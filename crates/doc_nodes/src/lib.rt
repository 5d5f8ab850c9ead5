//! The numbered nodes of a document's tree: how they are found, made,
//! made present, written and cleared.
#![tactic(auto)]

mod clear;
mod counter;
mod finding;
mod growth;
mod list_presence;
mod node;
mod presence;
mod write;

pub use clear::{clear_under, clear_way};
pub use counter::Counter;
pub use finding::{find, find_list, find_list_below, keys};
pub use growth::{prepare_way, reserve_order, reserve_value};
pub use key_map::SearchHint;
pub use node::{Children, EachChild, Node, NodeNumber, PlaceNodes, ROOT, Register, element_in};
pub use presence::add_presence_along;
pub use write::{count, enter, link};
