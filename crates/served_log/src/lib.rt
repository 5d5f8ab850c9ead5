//! A server over a stored log: it starts a new epoch, restores its documents from the log, and
//! stores what its sessions log while it serves them.
//!
//! Its background task, the `Copier`, writes what sessions log to the stored log in batches, and
//! then notes in each document how many of its entries are written. After a fault of the store it
//! opens that again, and goes on.
#![tactic(auto)]

mod batch;
mod copier_seats;
mod document_to_copy;
mod failure;
mod file_state;
mod host;
mod notes;
mod observer;
mod output;
mod recovery;
mod replica_name;
mod restarts;
mod restore;
mod rows;
mod serve;
mod serving;
mod side;
mod stored;

pub use batch::{copy_each, copy_some};
pub use copier_seats::CopierSeats;
pub use document_to_copy::DocumentToCopy;
pub use failure::{Failure, Step};
pub use file_state::{FileReport, FileState};
pub use host::Host;
pub use observer::CopyObserver;
pub use output::{report_fault, write_totals};
pub use recovery::Recovery;
pub use replica_name::next_replica_name;
pub use restarts::names_differ;
pub use restore::{RestoredDocuments, Restoring, restore_documents, share_documents};
pub use serving::Serving;
pub use side::{Copier, keep_up};
pub use stored::{Ended, serve_over, serve_stored};
