//! Why a stored log failed.
use thiserror::Error;

/// Why a stored log failed, as a message for who runs a server.
#[derive(Clone, Copy, Debug, PartialEq, Eq, Error)]
pub enum StoredFault {
    /// There is no room for more.
    #[error("the disk is full")]
    DiskFull,
    /// A device answered an error.
    #[error("an I/O error")]
    Io,
    /// The store ran out of memory.
    #[error("out of memory")]
    NoMemory,
    /// Another program has it locked.
    #[error("another program uses it")]
    Busy,
    /// What is stored can't be read.
    #[error("what is stored is damaged")]
    Damaged,
    /// Its file was removed or replaced, or got a second name.
    #[error("the file was removed or replaced, or has a second name")]
    Moved,
    /// It has something else than what was stored before.
    #[error("the file has something else than what was stored before")]
    Changed,
    /// It refuses an operation.
    #[error("the file refuses an operation")]
    Refused,
    /// It is closed, since it failed before.
    #[error("an earlier error has closed the file")]
    Closed,
    /// Any other error of the store.
    #[error("an error of the store")]
    Other,
}
