//! Counters in two halves that agree for ever, one pair for each number of a table, and counts of
//! calls that take no bytes.
//!
//! `Book` is the authoritative half of a counter, which its document keeps; `Share` is the
//! session's half, which a seat keeps. Only `Book::credit`, `Book::acknowledge` and `Book::follow`
//! change them, both at once. So they agree on a count and on a list of ids, which takes no bytes,
//! whatever other seats do in between. A `Blank` is a new table of counters before a marker names
//! it.
//!
//! `StoreBook` and `StoreShare` are two halves of the same kind, one pair for each document: the ids
//! of its first operations, those that the stored log has. Only `StoreBook::grow` changes them.
//!
//! Proved by hand are the tokens of `halves`: seven empty functions over one ghost name, and three
//! `unsafe impl`, each with a proof of its own (`Send` for both tokens, `Sync` for a half). All
//! else is safe code over them.
//!
//! `Calls` and `Stamp` tie an answer to the call that it answers: a seat counts its calls by the
//! one, and what it is given for a call carries the other, which nobody can make for another call.
#![tactic(auto)]

mod calls;
mod counters;
mod halves;
mod stores;

pub use calls::{Calls, Stamp};
pub use counters::{Blank, Book, Marker, Share, Table};
pub use stores::{StoreBook, StoreShare};
