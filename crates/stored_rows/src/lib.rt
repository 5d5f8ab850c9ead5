//! The tables of a stored log in SQLite, and their rows.
//!
//! The schema of the two tables, `meta` and `entry`, and what the texts of their statements mean;
//! the statements that make, read and write them; and documents read back from rows.
#![tactic(auto)]

mod load;
mod parse;
mod schema;
mod store;

pub use load::read_docs;
pub use parse::{FORMAT, Meta, OLD_FORMAT, meta_in};
pub use schema::{Found, find_tables, is_bare, is_copy};
pub use store::{make_tables, put_entries, read_meta, roll_back, set_epoch, set_format};
