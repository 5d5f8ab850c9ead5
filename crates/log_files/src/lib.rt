//! Stored logs in SQLite's files, which are opened again after a fault.
#![tactic(auto)]

mod causes;
mod files;
mod paths;
mod place;
mod sqlite_log;
mod write_ahead;

pub use causes::Cause;
pub use files::{SqliteFile, SqliteFiles, adopted};
pub use sqlite_log::{ClosedFile, SqliteLog};
