//! Steps over databases in two files in memory.
use super::super::disks::{Stopping, connected, new_files};
use super::steps::{Step, StepAnswer, walked};
use op_core::Operation;
use sqlite_disk::{Disk, Files};
use std::alloc::Global;

// Takes the steps over the database in the files. This is over any disks, and here alone, since
// each call that names a store in files is dear to prove.
fn walked_in<D: Disk + Drop>(
    alloc: Global,
    files: Files<D>,
    log: &[Operation],
    steps: &[(Step<'_>, StepAnswer)],
) -> (Files<D>, Option<(usize, StepAnswer)>) {
    match connected(alloc, files) {
        Ok(conn) => {
            let (store, other) = walked(alloc, conn, log, steps);
            (store.close(), other)
        }
        Err(files) => (files, Some((0, StepAnswer::NoSql))),
    }
}

/// Takes the steps over the database in the files, and then leaves the files as they are.
pub fn walked_over(
    alloc: Global,
    files: Files<Stopping>,
    log: &[Operation],
    steps: &[(Step<'_>, StepAnswer)],
) -> (Files<Stopping>, Option<(usize, StepAnswer)>) {
    walked_in(alloc, files, log, steps)
}

/// The files of a new database over which these steps have their answers.
pub fn made(alloc: Global, steps: &[(Step<'_>, StepAnswer)]) -> Option<Files<Stopping>> {
    let files = new_files(alloc, u64::MAX, u64::MAX);
    let (files, other) = walked_over(alloc, files, &[], steps);
    if other.is_none() { Some(files) } else { None }
}
