//! Places where a log is stored. Each start opens one, and leaves it.
use super::disks::connected;
use log_copy::{Foldable, LogCopy};
use sqlite::{Alter, Connection, FileStore};
use sqlite_disk::Disk;
use std::alloc::{AllocError, Global};
use stored_log::{Fault, ListLog, ListStore, OpenLog, StoredFault, StoredLog};

/// The stored log over this connection, or, as if out of memory, none.
pub fn adopted<S: Alter + Drop>(
    alloc: Global,
    conn: Connection<S>,
) -> Result<LogCopy<S>, AllocError> {
    match LogCopy::adopt(alloc, conn) {
        Ok(copy) => Ok(copy),
        Err(_) => Err(AllocError),
    }
}

/// An empty log in memory.
pub fn new_list(alloc: Global) -> ListLog {
    ListLog::open(alloc, ListStore::new(alloc), None)
}

/// Opens an empty log in memory under each name, or fails.
#[derive(Clone, Copy)]
pub struct NewLists {
    pub alloc: Global,
    pub fault: Option<Fault>,
}

impl OpenLog for NewLists {
    type Opened = ListLog;

    ghost use Rattle.std.specs.Prelude.{◌≡◌, [], true, false};

    // An empty log.
    ghost finds = { λ it found. found ≡ record { epoch = 0; docs = []; is_alone = true; has_failed = false } };

    fn open(&self, _name: &str) -> Result<ListLog, Fault> {
        match self.fault {
            Some(fault) => Err(fault),
            None => Ok(ListLog::open(self.alloc, ListStore::new(self.alloc), None)),
        }
    }
}

/// A stored log that can be opened again.
pub trait Reopens: StoredLog {
    /// The log that is stored at this place. If it can't be had, as if out of memory, none.
    fn reopen(alloc: Global, left: Self::Left) -> Result<Self, AllocError>;
}

impl Reopens for ListLog {
    fn reopen(alloc: Global, left: ListStore) -> Result<ListLog, AllocError> {
        Ok(ListLog::open(alloc, left, None))
    }
}

/// A store that can be opened again. A log over any of these can be, so that the logs in files
/// need no proof of their own.
pub trait Restarts: Foldable {
    /// The database of the store. If it can't be had, as if out of memory, none.
    fn restart(alloc: Global, left: Self) -> Result<Connection<Self>, AllocError>;
}

impl<D: Disk + Drop> Restarts for FileStore<D> {
    fn restart(alloc: Global, left: FileStore<D>) -> Result<Connection<FileStore<D>>, AllocError> {
        match connected(alloc, left.close()) {
            Ok(conn) => Ok(conn),
            Err(_) => Err(AllocError),
        }
    }
}

impl<S: Restarts + Drop> Reopens for LogCopy<S> {
    fn reopen(alloc: Global, left: S) -> Result<LogCopy<S>, AllocError> {
        adopted(alloc, S::restart(alloc, left)?)
    }
}

/// What is left of a log that was closed, whether that failed or not.
pub fn left_of<T>(closed: Result<T, (StoredFault, T)>) -> T {
    match closed {
        Ok(left) => left,
        Err((_, left)) => left,
    }
}
