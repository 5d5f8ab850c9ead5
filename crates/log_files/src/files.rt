//! Stored logs in SQLite's files: opening one, by its path.
//!
//! No clause can say what a real file holds. So all that clauses say of a stored log is said of
//! `LogCopy`, over any store; and a start finds what the tables of a connection held that was just
//! opened.

ghost use Rattle.std.specs.Prelude.{◌≡◌, ◌⊎◌, ◌↔◌, false, IfOk};
ghost use Rattle.sqlite.specs.Files.{over_files};
ghost use Rattle.stored_log.specs.Log.{HasSame};
ghost use Rattle.log_copy.specs.Port.{CrashLeaves, copied_log};
ghost use Rattle.log_files.specs.Found.{IsFound, IsFoundIn};
ghost use Rattle.log_files.specs.Refusal.{IsRefusal};

use crate::causes::Cause;
use crate::paths::{
    Before, Leftover, look_at, make, real_path, why, why_absent, why_alone, why_no_database,
    why_not_opened,
};
use crate::place::Place;
use crate::sqlite_log::SqliteLog;
use log::Log;
use log_copy::{LogCopy, stored_fault_of, wrong_of};
use server_notes::{Plain, note_log_unread, note_made, note_took_over};
use sqlite::{Alter, Connection, Error, ErrorCode, File, FileStore};
use std::alloc::Global;
use std::rt::HostRuntime;
use std::time::Clock;
use stored_log::{Fault, OpenLog, StoredFault};

/// The stored log over a connection, or why there is none.
pub fn adopted<S: Alter + Drop>(alloc: Global, conn: Connection<S>) -> Result<LogCopy<S>, Cause>
    ensures works { IfOk result (λ c. c.has_failed ≡ false) }
    // It holds what the tables had, or has made them.
    ensures found { IfOk result (λ c. IsFoundIn S.Store conn c c.epoch c.docs) }
    ensures stays { IfOk result (λ c. CrashLeaves S.Store c (HasSame (copied_log c))) }
{
    match LogCopy::adopt(alloc, conn) {
        Ok(copy) => Ok(copy),
        Err((fault, conn, code)) => Err(adopt_cause(alloc, fault, conn, code)),
    }
}

// Why the connection gives no stored log. A refused database is read once more to find out.
fn adopt_cause<S: Alter + Drop>(
    alloc: Global,
    fault: Fault,
    conn: Connection<S>,
    code: Option<ErrorCode>,
) -> Cause
    ensures { IsRefusal result ↔ (fault ≡ Fault.Refused) }
{
    match fault {
        Fault::Refused => {
            let mut conn = conn;
            Cause::NoLog(wrong_of(alloc, &mut conn))
        }
        Fault::Memory => Cause::Database(StoredFault::NoMemory),
        Fault::Store => Cause::Database(match code {
            Some(code) => stored_fault_of(code),
            None => StoredFault::Io,
        }),
    }
}

// Why a file can't be opened. One that is no database, or a damaged one, is refused.
fn open_cause(rt: &HostRuntime, path: &str, error: Error) -> Cause
    ensures { IsRefusal result ↔ ((error ≡ Error.SqliteFailure ErrorCode.NotADatabase)
        ⊎ (error ≡ Error.SqliteFailure ErrorCode.DatabaseCorrupt)) }
{
    match error {
        Error::SqliteFailure(ErrorCode::NotADatabase | ErrorCode::DatabaseCorrupt) => {
            why_no_database(rt, path)
        }
        Error::SqliteFailure(ErrorCode::CannotOpen) => why_not_opened(rt, path),
        Error::SqliteFailure(code) => Cause::Database(stored_fault_of(code)),
        _ => Cause::Database(StoredFault::Io),
    }
}

// Opens the file, or creates it. A file that is no database, or a damaged one, is refused.
fn open_file(rt: &HostRuntime, path: &str) -> Result<LogCopy<FileStore<File>>, Cause>
    ensures works { IfOk result (λ c. c.has_failed ≡ false) }
    ensures found { IfOk result (λ c. IsFound over_files c c.epoch c.docs) }
    ensures stays { IfOk result (λ c. CrashLeaves over_files c (HasSame (copied_log c))) }
{
    match Connection::open(rt, path) {
        Ok(conn) => adopted(rt.alloc(), conn),
        Err(error) => Err(open_cause(rt, path, error)),
    }
}

// Opens the file, or creates it for its owner alone. A file whose write-ahead log has pages, or
// whose rollback journal is there, is not created: these hold what a file that is missing lacks.
fn open_looked_at(
    rt: &HostRuntime,
    path: &str,
    before: &Before,
) -> Result<LogCopy<FileStore<File>>, Cause>
    ensures works { IfOk result (λ c. c.has_failed ≡ false) }
    ensures found { IfOk result (λ c. IsFound over_files c c.epoch c.docs) }
    ensures stays { IfOk result (λ c. CrashLeaves over_files c (HasSame (copied_log c))) }
{
    if let Some(cause) = why_alone(rt, path, before) {
        return Err(cause);
    }
    if before.is_new {
        make(rt, path)?;
    }
    open_file(rt, path)
}

// Notes that the file was created, or what became of a write-ahead log beside it.
fn note_opened<R: Log + Clock>(notes: &R, path: &str, before: &Before) {
    if before.is_new {
        note_made(notes, path);
    }
    match before.log {
        Leftover::Nothing => {}
        Leftover::Pages => note_took_over(notes, path),
        Leftover::Noise => note_log_unread(notes, path),
    }
}

// Notes it under the path that links lead to.
fn note_really_opened<R: Log + Clock>(rt: &HostRuntime, notes: &R, path: &str, before: &Before) {
    match real_path(rt, path) {
        Ok(real) => note_opened(notes, real.as_str(), before),
        Err(_) => note_opened(notes, path, before),
    }
}

// Reports on standard error why a file can't be opened. An error there changes nothing.
fn report_open_failure(rt: &HostRuntime, path: &str, cause: &Cause) {
    let _ = rt.eprintln(format_args!("jcrdt: cannot open {}: {cause}", Plain(path)));
}

// Opens the file, or creates it, readable and writable by its owner alone. A note says so where it
// was created, and what became of a write-ahead log that was not empty.
fn open_noted<R: Log + Clock>(
    rt: &HostRuntime,
    notes: &R,
    path: &str,
) -> Result<LogCopy<FileStore<File>>, Fault>
    ensures works { IfOk result (λ c. c.has_failed ≡ false) }
    ensures found { IfOk result (λ c. IsFound over_files c c.epoch c.docs) }
    ensures stays { IfOk result (λ c. CrashLeaves over_files c (HasSame (copied_log c))) }
{
    let before = look_at(rt, path);
    match open_looked_at(rt, path, &before) {
        Ok(copy) => {
            note_really_opened(rt, notes, path, &before);
            Ok(copy)
        }
        Err(cause) => {
            report_open_failure(rt, path, &cause);
            Err(cause.fault())
        }
    }
}

/// The files of a stored log in SQLite.
pub type SqliteFile = FileStore<File>;

/// Stored logs in SQLite's files, by their paths. Notes of what was opened go to the second host.
#[derive(Drop)]
pub struct SqliteFiles<'a, R> {
    rt: &'a HostRuntime,
    notes: &'a R,
    creates: bool,
}

impl<'a, R: Log + Clock> SqliteFiles<'a, R> {
    /// Files that are created where there are none.
    pub fn new(rt: &'a HostRuntime, notes: &'a R) -> SqliteFiles<'a, R> {
        SqliteFiles {
            rt,
            notes,
            creates: true,
        }
    }

    /// Files that are there: none is created.
    pub fn present(rt: &'a HostRuntime, notes: &'a R) -> SqliteFiles<'a, R> {
        SqliteFiles {
            rt,
            notes,
            creates: false,
        }
    }
}

impl<R: Log + Clock> OpenLog for SqliteFiles<'_, R> {
    type Opened = SqliteLog;

    ghost use Rattle.std.specs.Prelude.{MatchOption};
    ghost use Rattle.sqlite.specs.Files.{over_files};
    ghost use Rattle.log_files.specs.Found.{IsFound};

    // A connection that was just opened showed it.
    ghost finds = { λ it found. MatchOption it.log ⊥ (λ c. IsFound over_files c found.epoch found.docs) };

    /// Opens the file, or creates it, readable and writable by its owner alone, unless only files
    /// that are there are asked for. A note says so where it was created, and what became of a
    /// write-ahead log that was not empty.
    ///
    /// Where that fails standard error says why. An error of standard error changes nothing. A file
    /// is not created where its write-ahead log has pages, where its rollback journal is there, or
    /// where its path is a link that leads nowhere.
    fn open(&self, path: &str) -> Result<SqliteLog, Fault> {
        if !self.creates && look_at(self.rt, path).is_new {
            report_open_failure(self.rt, path, &why_absent(self.rt, path));
            return Err(Fault::Store);
        }
        let log = open_noted(self.rt, self.notes, path)?;
        match Place::of(self.rt, path) {
            Ok(place) => Ok(SqliteLog::new(place, log)),
            Err(error) => {
                report_open_failure(self.rt, path, &why(&error));
                Err(Fault::Store)
            }
        }
    }
}
