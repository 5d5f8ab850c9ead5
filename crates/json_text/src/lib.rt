//! JSON text, written part by part, without a tree of values in between.
#![tactic(auto)]

mod as_json;
mod text;
mod wires;

pub use as_json::AsJson;
pub use text::JsonText;
