//! A run over good names: one session over new documents, in a ledger of one seat each.
#![tactic(auto)]

mod documents;
mod names;
mod run;

pub use documents::{NewDocuments, Seated};
pub use names::{MAX_DOCUMENTS, MAX_NAME_BYTES, first_replica, is_among, is_good, is_name};
pub use run::{Maker, run_over};
