//! Databases in two files in memory, the log and the database itself. Each of the two stops after
//! so many calls.
use sqlite::{Connection, FileStore, Options};
use sqlite_disk::{Crash, Disk, Files, Fuse, Memory};
use std::alloc::Global;

pub type Stopping = Fuse<Memory>;

/// Two files with nothing in them.
pub fn new_files(alloc: Global, log_calls: u64, db_calls: u64) -> Files<Stopping> {
    Files {
        log: Fuse::new(Memory::new(alloc), log_calls),
        db: Fuse::new(Memory::new(alloc), db_calls),
    }
}

/// The database in the files, which come back where they can't be opened.
pub fn connected<D: Disk + Drop>(
    alloc: Global,
    files: Files<D>,
) -> Result<Connection<FileStore<D>>, Files<D>> {
    if !files.may_be_used() {
        return Err(files);
    }
    match Connection::open_files(alloc, files, Options::new(1)) {
        Ok(conn) => Ok(conn),
        Err((_, left)) => Err(left.into_files()),
    }
}

/// The machine stops, and comes back with disks that stop no more.
pub fn crash(files: &mut Files<Stopping>) {
    files.log.crash();
    files.db.crash();
}

/// The database file alone: the log is lost, and an empty one takes its place.
pub fn without_log(alloc: Global, files: Files<Stopping>) -> Files<Stopping> {
    let Files { log: _, db } = files;
    Files {
        log: Fuse::new(Memory::new(alloc), u64::MAX),
        db,
    }
}
