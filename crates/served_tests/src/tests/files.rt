//! Stored logs in two files, the log of commits and the database itself. A call that names a store
//! in files is dear to prove, and at disks of one kind three times as dear. So one function names
//! it, over any disks.
use super::deeds::{Case, Deed, all_done};
use super::disks::connected;
use super::places::{Restarts, adopted};
use log::Log;
use sqlite::{Connection, Error, FileStore};
use sqlite_disk::{Crash, Disk, Files};
use std::alloc::{AllocError, Global};
use std::process::Abort;
use std::sync::Wait;
use std::thread::Threads;
use std::time::Clock;

// Does all of it with the log in the database, and gives back its store.
fn done_with<R: Threads + Wait + Abort + Sync + Log + Clock, S: Restarts + Drop>(
    rt: &R,
    alloc: Global,
    case: &Case<'_>,
    conn: Connection<S>,
) -> Result<S, AllocError> {
    all_done(rt, alloc, case, adopted(alloc, conn)?)
}

// The same over two files, which are then left as they are.
fn done_between<R: Threads + Wait + Abort + Sync + Log + Clock, D: Disk + Drop>(
    rt: &R,
    alloc: Global,
    case: &Case<'_>,
    conn: Connection<FileStore<D>>,
) -> Result<Files<D>, AllocError> {
    let store = done_with(rt, alloc, case, conn)?;
    Ok(store.close())
}

/// Does all of it with the log in the files, and then leaves them as they are.
pub fn done_in_files<R: Threads + Wait + Abort + Sync + Log + Clock, D: Disk + Drop>(
    rt: &R,
    alloc: Global,
    case: &Case<'_>,
    files: Files<D>,
) -> Result<Files<D>, AllocError> {
    match connected(alloc, files) {
        Ok(conn) => done_between(rt, alloc, case, conn),
        Err(_) => Err(AllocError),
    }
}

/// Does all of it with a log in the files, and then these deeds with what the files hold when the
/// machine has stopped and come back.
pub fn done_around_a_crash<R: Threads + Wait + Abort + Sync + Log + Clock, D: Crash + Drop>(
    rt: &R,
    alloc: Global,
    case: &Case<'_>,
    after: &[Deed<'_>],
    files: Files<D>,
) -> Result<(), AllocError> {
    let mut files = done_in_files(rt, alloc, case, files)?;
    files.log.crash();
    files.db.crash();
    let again = Case {
        name: case.name,
        documents: case.documents,
        deeds: after,
    };
    let _left = done_in_files(rt, alloc, &again, files)?;
    Ok(())
}

/// Does all of it with the database that was opened, or, as if out of memory, with none.
pub fn done_over<R: Threads + Wait + Abort + Sync + Log + Clock, D: Disk + Drop>(
    rt: &R,
    alloc: Global,
    case: &Case<'_>,
    opened: Result<Connection<FileStore<D>>, Error>,
) -> Result<(), AllocError> {
    let Ok(conn) = opened else {
        return Err(AllocError);
    };
    let _files = done_between(rt, alloc, case, conn)?;
    Ok(())
}
