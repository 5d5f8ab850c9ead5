//! Reads of a document's tree: where cursors lead, and what is there.
#![tactic(auto)]

mod arrays;
mod branches;
mod cursors;
mod elements;
mod indexes;
mod json_parts;
mod known_node;
mod maps;
mod node_reader;
mod registers;
mod roles;

pub use arrays::{items_text, keys_text};
pub use branches::show;
pub use cursors::resolve;
pub use elements::items;
pub use indexes::index;
pub use maps::keys;
pub use registers::{sum, values};
pub use roles::{conflicts, conflicts_text};
