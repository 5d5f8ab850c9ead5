//! Why a file can't be opened as a stored log.
ghost use Rattle.std.specs.Prelude.{◌≡◌, ◌⊎◌, ◌↔◌};
ghost use Rattle.log_files.specs.Refusal.{IsRefusal};

use log_copy::Wrong;
use std::fmt;
use stored_log::{Fault, StoredFault};

/// Why a file can't be opened as a stored log.
#[derive(Clone, Copy, Debug)]
pub enum Cause {
    /// Its folder is not there.
    NoFolder,
    /// It is a folder.
    Folder,
    /// It is a device, a pipe, or the like.
    NoRegularFile,
    /// It has a second name, under which another program might change it.
    SecondName,
    /// It may not be read and written.
    Forbidden,
    /// It is not there, and may not be made in its folder.
    FolderForbidden,
    /// Its file system takes no changes.
    ReadOnly,
    /// The path names no file here.
    NoPath,
    /// The `-wal` beside it can't be used.
    Log,
    /// A rollback journal lies beside it.
    Journal,
    /// It is a link to a file that is not there.
    Dangling,
    /// It is not there or is empty, and its write-ahead log has pages.
    LogAlone,
    /// It is not there, and its rollback journal is.
    JournalAlone,
    /// It is not there, and is only to be read.
    Missing,
    /// It does not begin as a SQLite database.
    NoDatabase,
    /// It begins as one, and can't be read as one.
    Damaged,
    /// It is one, and holds no stored log.
    NoLog(Wrong),
    /// The system opens no more files for this process, or for any.
    Descriptors,
    /// The database failed.
    Database(StoredFault),
}

impl Cause {
    // The fault that a start or a check then reports.
    pub(crate) fn fault(&self) -> Fault
        ensures refused { (result ≡ Fault.Refused) ↔ IsRefusal self.now }
        ensures else_store { (result ≡ Fault.Refused) ⊎ (result ≡ Fault.Store) }
    {
        match self {
            Cause::NoDatabase | Cause::Damaged | Cause::NoLog(_) => Fault::Refused,
            _ => Fault::Store,
        }
    }

    fn message(&self) -> &'static str {
        match self {
            Cause::NoDatabase => "it is no SQLite database",
            Cause::Damaged =>
                "it is a SQLite database that is damaged, or that this program does not understand",
            Cause::NoFolder => "there is no such folder",
            Cause::Folder => "it is a folder",
            Cause::NoRegularFile => "it is no regular file",
            Cause::SecondName => "it has a second name in the file system",
            Cause::Forbidden => "it may not be read and written",
            Cause::FolderForbidden => "a file may not be made in its folder",
            Cause::ReadOnly => "its file system is read-only",
            Cause::NoPath => "its path is empty, or :memory:, or begins with file:",
            Cause::Log => "the -wal beside it may not be read and written",
            Cause::Journal => "a rollback journal lies beside it: open it with sqlite3 first",
            Cause::Dangling => "it is a symbolic link to a file that is not there",
            Cause::LogAlone =>
                "it is missing or empty, and the -wal beside it has pages: put the file back, or move the -wal away",
            Cause::JournalAlone =>
                "it is missing, and a -journal of it is there: put the file back, or move the -journal away",
            Cause::Missing => "it is not there",
            Cause::NoLog(_) => "it is no stored log",
            Cause::Descriptors => "too many files are open: see ulimit -n",
            Cause::Database(_) => "an error of the database",
        }
    }
}

impl fmt::Display for Cause {
    fn fmt<W: fmt::Write>(&self, f: &mut fmt::Formatter<W>) -> fmt::Result {
        match self {
            Cause::NoLog(wrong) => write!(f, "it is no stored log: {wrong}"),
            Cause::Database(why) => write!(f, "{why}"),
            other => f.write_str(other.message()),
        }
    }
}
