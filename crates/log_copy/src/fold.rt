//! Stores whose log of commits can be copied into their database file, and connections over them.
ghost use Rattle.std.specs.Prelude.{◌≡◌, true, IsTrue, IfOk, IfErr, OnOk};
ghost use Rattle.sqlite_trees.specs.Tree.{Trees};
ghost use Rattle.sqlite_trees.specs.View.{IsClean, IsQuiet, IsRolledBack};
ghost use Rattle.sqlite.specs.Held.{AreDatabases, state};
ghost use Rattle.stored_rows.specs.Tables.{copy_schema};
ghost use Rattle.log_copy.specs.Folded.{HasFolded, Reopens, KeepsCommit};

use crate::port::stored_fault_of;
use sqlite::{Alter, Connection, Error, ErrorCode, FileStore};
use sqlite_disk::Disk;
use sqlite_trees::error::StoreError;
use sqlite_trees::store::Store;
use std::alloc::Global;
use stored_log::StoredFault;
use stored_rows::is_copy;

/// A store of two files, a database and the log of its commits, that can copy the log into the
/// database file.
pub trait Foldable: Alter {
    // The database file without its log holds these trees, as it reads now and after a crash.
    ghost holds_alone: { Self → Trees → Type 0 };

    /// Rolls back, and copies the log into the database file. What was committed is then in that
    /// file alone.
    fn fold(&mut self) -> Result<(), StoreError>
        ensures open { OnOk result (IsClean (Self.Store.view self.new)
            → IsTrue (Self.Store.view self.new).is_open) }
        ensures undone { OnOk result (IsClean (Self.Store.view self.new)
            → IsRolledBack (Self.Store.view self.old) (Self.Store.view self.new)) }
        ensures folded { OnOk result (IsClean (Self.Store.view self.new)
            → IsTrue (Self.Store.view self.old).is_numbered
            → AreDatabases (Self.Store.recovers self.old)
            → holds_alone self.new (Self.Store.view self.new).committed) }
        // A crash leaves nothing that it did not leave before, whether this is answered or not.
        ensures quiet { IsQuiet Self.Store.view Self.Store.faults Self.Store.recovers Self.Store.is_shielded
            self.old self.new };
}

impl<D: Disk + Drop> Foldable for FileStore<D> {
    ghost use Rattle.log_copy.specs.Folded.{IsInFileAlone};

    ghost holds_alone = { IsInFileAlone };

    fn fold(&mut self) -> Result<(), StoreError> {
        self.rollback();
        self.checkpoint()
    }
}

/// The code of an error of the database.
pub(crate) fn code_of(error: &Error) -> ErrorCode {
    match error {
        Error::SqliteFailure(code) => *code,
        _ => ErrorCode::SystemIoFailure,
    }
}

/// Why the database didn't do it, as a fault of a stored log.
pub(crate) fn fault_of<T>(answer: &Result<T, Error>) -> Option<StoredFault> {
    match answer {
        Ok(_) => None,
        Err(error) => Some(stored_fault_of(code_of(error))),
    }
}

/// What the database answered in place of doing it.
pub(crate) fn cause_of<T>(answer: &Result<T, Error>) -> Option<ErrorCode> {
    match answer {
        Ok(_) => None,
        Err(error) => Some(code_of(error)),
    }
}

// The code of an error of a store.
fn store_code(error: &StoreError) -> ErrorCode {
    match error {
        StoreError::OutOfMemory => ErrorCode::OutOfMemory,
        StoreError::Io => ErrorCode::SystemIoFailure,
        StoreError::Corrupt => ErrorCode::DatabaseCorrupt,
        StoreError::Full => ErrorCode::DiskFull,
        StoreError::Broken => ErrorCode::Closed,
        StoreError::Unstorable => ErrorCode::TooBig,
    }
}

/// The connection's store, with its log copied into its database file. A fault hands it back too.
pub(crate) fn folded<S: Foldable + Drop>(conn: Connection<S>) -> Result<S, (ErrorCode, S)>
    ensures ok { IfOk result (HasFolded S.Store S.Foldable.holds_alone conn) }
    ensures err { IfErr result (λ e. KeepsCommit S.Store conn e.1) }
{
    let mut store = conn.into_store();
    match store.fold() {
        Ok(()) => Ok(store),
        Err(error) => Err((store_code(&error), store)),
    }
}

// Whether the database has the tables of a stored log, and no further ones, if it should.
fn is_as_before<S: Alter>(conn: &Connection<S>, is_alone: bool) -> bool
    ensures { IsTrue result → is_alone ≡ true → (state S.Store conn.now).now.schema ≡ copy_schema }
{
    !is_alone || is_copy(conn.schema())
}

/// A connection over the same store, with its log copied into its database file meanwhile. A fault
/// hands the store back.
pub(crate) fn refolded<S: Foldable + Drop>(
    alloc: Global,
    conn: Connection<S>,
    is_alone: bool,
) -> Result<Connection<S>, (ErrorCode, S)>
    ensures ok { IfOk result (Reopens S.Store S.Foldable.holds_alone conn) }
    ensures schema { IfOk result
        (λ c. is_alone ≡ true → (state S.Store c).now.schema ≡ copy_schema) }
    ensures err { IfErr result (λ e. KeepsCommit S.Store conn e.1) }
{
    let store = folded(conn)?;
    match Connection::over(alloc, store) {
        Ok(again) => if is_as_before(&again, is_alone) {
            Ok(again)
        } else {
            Err((ErrorCode::DatabaseCorrupt, again.into_store()))
        },
        Err((error, store)) => Err((code_of(&error), store)),
    }
}
