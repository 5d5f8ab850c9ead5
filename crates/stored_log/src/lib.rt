//! The stored log: what a server needs of the store of its operations, whatever it is.
//!
//! It holds documents, each with a name and a valid log, and the texts of their operations.
#![tactic(auto)]

mod batch;
mod doc;
mod docs;
mod fault;
mod in_order;
mod list_image;
mod list_log;
mod open;
mod port;
mod reason;
mod report;
mod same;
mod stored_fault;
mod text;

pub use batch::may_add;
pub use doc::StoredDoc;
pub use docs::{MAX_BATCH, batches_append, is_doc_name, names};
pub use fault::Fault;
pub use in_order::{add, add_one, count, entries, find, front, has_made, log_clone, may_follow};
pub use list_image::ListImage;
pub use list_log::{FailingUse, ListLog, ListStore};
pub use open::OpenLog;
pub use port::StoredLog;
pub use reason::reason_of;
pub use report::{CheckFailure, REFUSED_LINE, check_opened, check_over};
pub use same::{are_fronts, are_same};
pub use stored_fault::StoredFault;
pub use text::{operation_of, text_of, texts_of};

/// The last epoch that may be given out.
pub const LAST_EPOCH: u32 = 9_999_999;
