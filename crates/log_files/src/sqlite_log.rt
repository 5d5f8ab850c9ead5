//! The stored log of a SQLite file, as a type without parameters:
//! `main` picks it in a few steps then.
//!
//! A call at the file's store is dear to prove, and twice as dear where the callee asks for
//! `Foldable`. So `LogCopy`'s own methods are called, which ask for less, and what makes several
//! calls is over any store.
ghost use Rattle.std.specs.Prelude.{◌≡◌, IfOk, IfErr, IfSome, MatchOption, Some, None, true, false};
ghost use Rattle.std.specs.Prelude.{option_map, unwrap_or};
ghost use Rattle.stored_log.specs.Log.{HasBatchAgain, HasSame, LeavesOne};
ghost use Rattle.log_copy.specs.Again.{no_log, parts_log};
ghost use Rattle.log_copy.specs.Kept.{IsStorable};
ghost use Rattle.log_copy.specs.Port.{CrashLeaves, copied_log};

use crate::files::SqliteFile;
use crate::place::Place;
use lamport_id::ReplicaName;
use log_copy::{Failed, LogCopy, Parts, append_there, resumed, stored_fault_of};
use op_core::{Front, Operation};
use op_log::OpLog;
use sqlite::{Alter, Connection, Error, ErrorCode, File, Files, Options};
use std::alloc::Global;
use std::hash::{BuildHasher, RandomState};
use std::mem;
use stored_log::{Fault, StoredFault, StoredLog, count, has_made, log_clone, names};

/// What a stored log had whose files can't be used now, and the files, which stay locked. They are
/// missing where a sync failed: then they are opened anew by their path.
#[derive(Drop)]
pub(crate) struct ShutLog {
    parts: Parts,
    files: Option<Files<File>>,
    cause: StoredFault,
}

/// The stored log of a SQLite file. After a fault it may be shut, until it is opened again.
#[derive(Drop)]
pub struct SqliteLog {
    place: Place,
    // The log, unless it is shut.
    log: Option<LogCopy<SqliteFile>>,
    shut: Option<ShutLog>,
}

impl SqliteLog {
    // The log of the file at this place.
    pub(crate) fn new(place: Place, log: LogCopy<SqliteFile>) -> SqliteLog
        ensures { result.log ≡ Some log }
    {
        SqliteLog {
            place,
            log: Some(log),
            shut: None,
        }
    }
}

/// The SQLite file of a stored log that was closed. Its drop closes the file.
#[derive(Drop)]
pub struct ClosedFile {
    // None where it wasn't open.
    pub(crate) file: Option<SqliteFile>,
}

// The error of the database as one of a stored log.
fn fault_of(error: &Error) -> StoredFault {
    match error {
        Error::SqliteFailure(ErrorCode::CannotOpen) => StoredFault::Io,
        Error::SqliteFailure(code) => stored_fault_of(*code),
        _ => StoredFault::Io,
    }
}

// What a log had, why it failed, and its store.
fn taken_apart<S: Alter + Drop>(log: LogCopy<S>) -> (Parts, StoredFault, S)
    ensures { parts_log result.0 ≡ record (copied_log log) { has_failed = true } }
{
    let cause = log.cause().unwrap_or(StoredFault::Other);
    let (conn, parts) = log.into_parts();
    (parts, cause, conn.into_store())
}

// What a log had, with its files.
fn shut_down(log: LogCopy<SqliteFile>) -> ShutLog
    ensures { parts_log result.parts ≡ record (copied_log log) { has_failed = true } }
{
    let (parts, cause, store) = taken_apart(log);
    ShutLog {
        parts,
        files: Some(store.close()),
        cause,
    }
}

// What a log that has failed had, with its files.
fn shut_of(log: Option<LogCopy<SqliteFile>>, shut: Option<ShutLog>) -> Option<ShutLog>
    requires failed { (unwrap_or (option_map copied_log log)
        (unwrap_or (option_map (λ s. parts_log s.parts) shut) no_log)).has_failed ≡ true }
    ensures some { IfSome result (λ it. parts_log it.parts ≡ unwrap_or (option_map copied_log log)
        (unwrap_or (option_map (λ s. parts_log s.parts) shut) no_log)) }
    ensures none { result ≡ None → (log ≡ None) × (shut ≡ None) }
{
    match log {
        Some(log) => Some(shut_down(log)),
        None => shut,
    }
}

// Opens the file at the path, which is there.
fn open_path(place: &Place) -> Result<Connection<SqliteFile>, (StoredFault, Option<Files<File>>)> {
    match Connection::open(place.rt(), place.path()) {
        Ok(conn) => Ok(conn),
        Err(error) => Err((fault_of(&error), None)),
    }
}

// Opens the files, which stay locked; by their path where a sync of them failed, since what the
// system shows of them may not be what the disk has.
fn open_files(
    place: &Place,
    files: Option<Files<File>>,
) -> Result<Connection<SqliteFile>, (StoredFault, Option<Files<File>>)> {
    let Some(files) = files else {
        return open_path(place);
    };
    if !files.may_be_used() {
        drop(files);
        return open_path(place);
    }
    let Ok(random) = RandomState::new(place.rt()) else {
        return Err((StoredFault::Io, Some(files)));
    };
    let options = Options::new(random.hash_one(&0u8));
    match Connection::open_files(place.rt().alloc(), files, options) {
        Ok(conn) => Ok(conn),
        Err((error, left)) => Err((fault_of(&error), Some(left.into_files()))),
    }
}

// Why a log is shut.
fn cause_of_shut(shut: &Option<ShutLog>) -> StoredFault {
    match shut {
        Some(shut) => shut.cause,
        None => StoredFault::Other,
    }
}

// Why a log can't be opened again that met this fault.
fn cause_again(fault: Fault, cause: Option<StoredFault>) -> StoredFault {
    match fault {
        Fault::Refused => StoredFault::Changed,
        Fault::Memory => StoredFault::NoMemory,
        Fault::Store => cause.unwrap_or(StoredFault::Other),
    }
}

// The log over this connection, or why there is none, and the store.
fn resumed_over<S: Alter + Drop>(
    alloc: Global,
    conn: Connection<S>,
    kept: &Parts,
    failed: &Failed<'_>,
) -> Result<LogCopy<S>, (Fault, StoredFault, S)>
    ensures again { IfOk result (λ c. HasBatchAgain failed.now.doc.now failed.now.from failed.now.entries.now
        (parts_log kept.now) (copied_log c)) }
    ensures alone { IfOk result (λ c. c.is_alone ≡ kept.now.is_alone) }
    ensures stays { IfOk result (λ c. CrashLeaves S.Store c (HasSame (copied_log c))) }
{
    match resumed(alloc, conn, kept, failed) {
        Ok(log) => Ok(log),
        Err((fault, why, conn)) => Err((fault, cause_again(fault, why), conn.into_store())),
    }
}

// Opens the files again.
fn opened_again(
    place: &Place,
    shut: ShutLog,
    failed: &Failed<'_>,
) -> Result<LogCopy<SqliteFile>, (Fault, ShutLog)>
    ensures again { IfOk result (λ c. HasBatchAgain failed.now.doc.now failed.now.from failed.now.entries.now
        (parts_log shut.parts) (copied_log c)) }
    ensures alone { IfOk result (λ c. c.is_alone ≡ shut.parts.is_alone) }
    ensures stays { IfOk result (λ c. ⟦<LogCopy<SqliteFile> as StoredLog>⟧.survives c (HasSame (copied_log c))) }
    ensures err { IfErr result (λ e. parts_log e.1.parts ≡ parts_log shut.parts) }
{
    let ShutLog {
        parts,
        files,
        cause,
    } = shut;
    if !place.has_file() {
        let cause = StoredFault::Moved;
        return Err((
            Fault::Store,
            ShutLog {
                parts,
                files,
                cause,
            },
        ));
    }
    let conn = match open_files(place, files) {
        Ok(conn) => conn,
        Err((cause, files)) => return Err((
            Fault::Store,
            ShutLog {
                parts,
                files,
                cause,
            },
        )),
    };
    match resumed_over(place.rt().alloc(), conn, &parts, failed) {
        Ok(log) => Ok(log),
        Err((fault, cause, store)) => {
            let files = Some(store.close());
            Err((
                fault,
                ShutLog {
                    parts,
                    files,
                    cause,
                },
            ))
        }
    }
}

// Folds the log.
fn fold_log(place: Place, log: LogCopy<SqliteFile>) -> Result<SqliteLog, (StoredFault, ClosedFile)>
    ensures same { IfOk result (λ it. unwrap_or (option_map copied_log it.log)
        (unwrap_or (option_map (λ s. parts_log s.parts) it.shut) no_log) ≡ copied_log log) }
    ensures folded { IfOk result (λ it. log.has_failed ≡ false → MatchOption it.log ⊥
        (λ d. ⟦<LogCopy<SqliteFile> as StoredLog>⟧.was_alone log d)) }
    ensures left { IfErr result (λ e. log.has_failed ≡ false → MatchOption e.1.file ⊥
        (λ f. ⟦<LogCopy<SqliteFile> as StoredLog>⟧.is_in_store log f)) }
    ensures sure { IfErr result (λ e. MatchOption e.1.file ⊥
        (λ f. ⟦<LogCopy<SqliteFile> as StoredLog>⟧.is_left_sure f) → LeavesOne (λ such. MatchOption e.1.file ⊥
        (λ f. ⟦<LogCopy<SqliteFile> as StoredLog>⟧.left_survives f such))) }
{
    match StoredLog::fold(log) {
        Ok(log) => Ok(SqliteLog::new(place, log)),
        Err((fault, file)) => Err((fault, ClosedFile { file: Some(file) })),
    }
}

// Closes the log.
fn close_log(log: LogCopy<SqliteFile>) -> Result<ClosedFile, (StoredFault, ClosedFile)>
    ensures folded { IfOk result (λ last. log.has_failed ≡ false → MatchOption last.file ⊥
        (λ f. ⟦<LogCopy<SqliteFile> as StoredLog>⟧.is_in_file log f)) }
    ensures copied { IfOk result (λ last. MatchOption last.file ⊥
        (λ f. ⟦<LogCopy<SqliteFile> as StoredLog>⟧.has_moved log f)) }
    ensures left { IfErr result (λ e. log.has_failed ≡ false → MatchOption e.1.file ⊥
        (λ f. ⟦<LogCopy<SqliteFile> as StoredLog>⟧.is_in_store log f)) }
    ensures one { IfOk result (λ last. MatchOption last.file ⊥
        (λ f. ⟦<LogCopy<SqliteFile> as StoredLog>⟧.is_left_sure f) → LeavesOne (λ such. MatchOption last.file ⊥
        (λ f. ⟦<LogCopy<SqliteFile> as StoredLog>⟧.left_survives f such))) }
    ensures sure { IfErr result (λ e. MatchOption e.1.file ⊥
        (λ f. ⟦<LogCopy<SqliteFile> as StoredLog>⟧.is_left_sure f) → LeavesOne (λ such. MatchOption e.1.file ⊥
        (λ f. ⟦<LogCopy<SqliteFile> as StoredLog>⟧.left_survives f such))) }
{
    match StoredLog::close(log) {
        Ok(file) => Ok(ClosedFile { file: Some(file) }),
        Err((fault, file)) => Err((fault, ClosedFile { file: Some(file) })),
    }
}

// A law: what it had in memory is storable. It does nothing.
fn keeps_storable(shut: &Option<ShutLog>)
    ensures { IfSome shut.now (λ s. IsStorable s.parts.epoch s.parts.docs) }
{
    if let Some(shut) = shut {
        let _docs = shut.parts.docs();
    }
}

impl StoredLog for SqliteLog {
    type Left = ClosedFile;

    ghost use Rattle.log_copy.specs.Again.{parts_log, no_log};
    ghost use Rattle.log_copy.specs.Port.{all_there, copied_log, if_there, keeps_such, leaves_there};
    ghost use Rattle.log_copy.specs.Port.{left_there, same_such, same_there, still_there};
    ghost use Rattle.stored_log.specs.Log.{IsAddedOrNot, IsRaisedOrNot, KeepsAll};

    ghost log = { λ it. unwrap_or (option_map copied_log it.log)
        (unwrap_or (option_map (λ s. parts_log s.parts) it.shut) no_log) };

    ghost is_sure = { λ it. MatchOption it.log ⊥ (λ c. ⟦<LogCopy<SqliteFile> as StoredLog>⟧.is_sure c) };

    ghost survives = { λ it such. MatchOption it.log ⊥ (λ c. ⟦<LogCopy<SqliteFile> as StoredLog>⟧.survives c such) };

    ghost was_alone = { λ old new. MatchOption old.log ⊥ (λ c. MatchOption new.log ⊥
        (λ d. ⟦<LogCopy<SqliteFile> as StoredLog>⟧.was_alone c d)) };

    ghost is_in_file = { λ it last. MatchOption it.log ⊥ (λ c. MatchOption last.file ⊥
        (λ f. ⟦<LogCopy<SqliteFile> as StoredLog>⟧.is_in_file c f)) };

    ghost is_in_store = { λ it last. MatchOption it.log ⊥ (λ c. MatchOption last.file ⊥
        (λ f. ⟦<LogCopy<SqliteFile> as StoredLog>⟧.is_in_store c f)) };

    ghost has_moved = { λ it last. MatchOption it.log ⊥ (λ c. MatchOption last.file ⊥
        (λ f. ⟦<LogCopy<SqliteFile> as StoredLog>⟧.has_moved c f)) };

    ghost is_left_sure = { λ last. MatchOption last.file ⊥
        (λ f. ⟦<LogCopy<SqliteFile> as StoredLog>⟧.is_left_sure f) };

    ghost left_survives = { λ last such. MatchOption last.file ⊥
        (λ f. ⟦<LogCopy<SqliteFile> as StoredLog>⟧.left_survives f such) };

    ghost still_keeps = { λ it first last kept left. if_there
        {P = λ c. ⟦<LogCopy<SqliteFile> as StoredLog>⟧.survives c (IsRaisedOrNot last)}
        {Q = λ c. ⟦<LogCopy<SqliteFile> as StoredLog>⟧.survives c (KeepsAll first)} it.log
        (λ c was alone clean db may. keeps_such first last kept db (was alone clean db may)) left };

    ghost is_left = { λ it last both. if_there
        {P = λ c. MatchOption last.file ⊥ (λ f. ⟦<LogCopy<SqliteFile> as StoredLog>⟧.is_in_file c f)}
        {Q = λ c. MatchOption last.file ⊥ (λ f. ⟦<LogCopy<SqliteFile> as StoredLog>⟧.is_in_store c f)} it.log
        (λ c is. if_there
        {P = λ f. ⟦<LogCopy<SqliteFile> as StoredLog>⟧.is_in_file c f}
        {Q = λ f. ⟦<LogCopy<SqliteFile> as StoredLog>⟧.is_in_store c f} last.file
        (λ f has alone. (has alone).1) is) both };

    ghost is_kept = { λ it last. same_there
        (λ c f. ⟦<LogCopy<SqliteFile> as StoredLog>⟧.is_in_store c f)
        (λ f such. ⟦<LogCopy<SqliteFile> as StoredLog>⟧.left_survives f such) it.log last.file
        (unwrap_or (option_map (λ s. parts_log s.parts) it.shut) no_log)
        (λ c f is alone clean db may. same_such c (is alone clean db may)) };

    ghost has_all = { λ it last. all_there _ _ it.log last.file
        (unwrap_or (option_map (λ s. parts_log s.parts) it.shut) no_log) };

    ghost moved_same = { λ it last kept. leaves_there _ _ (HasSame kept) it.log last.file
        (unwrap_or (option_map (λ s. parts_log s.parts) it.shut) no_log) };

    ghost moved_epoch = { λ it last old. leaves_there _ _ (IsRaisedOrNot old) it.log last.file
        (unwrap_or (option_map (λ s. parts_log s.parts) it.shut) no_log) };

    ghost moved_batch = { λ it last name ops old. leaves_there _ _ (IsAddedOrNot name ops old) it.log last.file
        (unwrap_or (option_map (λ s. parts_log s.parts) it.shut) no_log) };

    ghost still_same = { λ old new. still_there _ _ old.log new.log
        (unwrap_or (option_map (λ s. parts_log s.parts) old.shut) no_log)
        (unwrap_or (option_map (λ s. parts_log s.parts) new.shut) no_log) };

    ghost was_left = { λ old new was sure. let found = left_there _ _ old.log new.log was sure in
        (record { file = Some found.0 }, found.1, found.2) };

    fn cause(&self) -> Option<StoredFault> {
        match (&self.log, &self.shut) {
            (Some(log), _) => log.cause(),
            (None, Some(shut)) => Some(shut.cause),
            (None, None) => None,
        }
    }

    fn epoch(&self) -> Result<u64, Fault> {
        match &self.log {
            Some(log) => StoredLog::epoch(log),
            None => {
                keeps_storable(&self.shut);
                Err(Fault::Store)
            }
        }
    }

    fn epoch_up(&mut self) -> Result<u64, Fault> {
        match &mut self.log {
            Some(log) => StoredLog::epoch_up(log),
            None => Err(Fault::Store),
        }
    }

    fn rows(&self, doc: &str) -> Result<usize, Fault> {
        match &self.log {
            Some(log) => Ok(count(log.docs()?, doc)),
            None => Err(Fault::Store),
        }
    }

    fn has_made(&self, doc: &str, replica: &ReplicaName) -> Result<bool, Fault> {
        match &self.log {
            Some(log) => Ok(has_made(log.docs()?, doc, replica)),
            None => Err(Fault::Store),
        }
    }

    fn front(&self, doc: &str) -> Result<Front, Fault> {
        match &self.log {
            Some(log) => log.front(doc),
            None => Err(Fault::Store),
        }
    }

    fn names(&self, alloc: Global) -> Result<Vec<String>, Fault> {
        match &self.log {
            Some(log) => names(log.docs()?, alloc),
            None => Err(Fault::Store),
        }
    }

    fn load(&self, alloc: Global, doc: &str) -> Result<OpLog, Fault> {
        match &self.log {
            Some(log) => log_clone(log.docs()?, alloc, doc),
            None => Err(Fault::Store),
        }
    }

    /// Before each batch it looks once whether the file is still at its path, under no other name.
    /// Otherwise it fails.
    fn append(&mut self, doc: &str, from: usize, entries: &[Operation]) -> Result<(), Fault> {
        match &mut self.log {
            Some(log) => {
                let is_there = self.place.has_file();
                append_there(log, is_there, doc, from, entries)
            }
            None => Err(Fault::Store),
        }
    }

    fn resume(&mut self, doc: &str, from: usize, entries: &[Operation]) -> Result<(), Fault> {
        let log = mem::replace(&mut self.log, None);
        let shut = mem::replace(&mut self.shut, None);
        let Some(shut) = shut_of(log, shut) else {
            return Err(Fault::Store);
        };
        let failed = Failed { doc, from, entries };
        match opened_again(&self.place, shut, &failed) {
            Ok(log) => {
                self.log = Some(log);
                Ok(())
            }
            Err((fault, shut)) => {
                self.shut = Some(shut);
                Err(fault)
            }
        }
    }

    fn fold(self) -> Result<SqliteLog, (StoredFault, ClosedFile)> {
        let SqliteLog { place, log, shut } = self;
        match log {
            Some(log) => fold_log(place, log),
            None => Err((cause_of_shut(&shut), ClosedFile { file: None })),
        }
    }

    fn close(self) -> Result<ClosedFile, (StoredFault, ClosedFile)> {
        let SqliteLog {
            place: _,
            log,
            shut,
        } = self;
        match log {
            Some(log) => close_log(log),
            None => Err((cause_of_shut(&shut), ClosedFile { file: None })),
        }
    }
}
