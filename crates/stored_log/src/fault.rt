//! Why a call of the stored log fails.
use thiserror::Error;

/// The errors of a stored log.
#[derive(Clone, Copy, Debug, PartialEq, Eq, Error)]
pub enum Fault {
    /// What the store holds is no stored log, or what it is asked to hold would make none. It is as
    /// it was.
    #[error("copy-refused")]
    Refused,
    /// Any error of the store, its out of memory included. Every later call has this error, until
    /// the stored log is opened again.
    #[error("store")]
    Store,
    /// Out of memory. All is as it was.
    #[error("no-memory")]
    Memory,
}
