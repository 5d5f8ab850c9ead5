//! What is at a path, as far as the file system says. No clause says anything of it.
ghost use Rattle.std.specs.Prelude.{IfSome};
ghost use Rattle.log_files.specs.Refusal.{IsRefusal};

use crate::causes::Cause;
use crate::write_ahead::has_page;
use std::fs::{self, OpenOptions};
use std::io::{self, ErrorKind, Read};
use std::os::unix::fs::{MetadataExt, OpenOptionsExt};
use std::path::{Path, PathBuf};
use std::rt::HostRuntime;
use stored_log::StoredFault;

// What a SQLite database begins with.
const BEGINNING: &[u8; 16] = b"SQLite format 3\0";

// The bytes of a write-ahead log without a page: its header, and that of a first page.
const NO_PAGE: u64 = 32 + 24;

// A write-ahead log beside a file.
#[derive(Clone, Copy)]
pub(crate) enum Leftover {
    // There is none, or it has no page.
    Nothing,
    // It begins with a page that a start reads.
    Pages,
    // It has something else.
    Noise,
}

// What was at a path before it was opened.
#[derive(Clone, Copy)]
pub(crate) struct Before {
    // Nothing was.
    pub(crate) is_new: bool,
    // The write-ahead log beside it.
    pub(crate) log: Leftover,
}

// What is at the path.
pub(crate) fn look_at(rt: &HostRuntime, path: &str) -> Before {
    Before {
        is_new: matches!(fs::exists(rt, path), Ok(false)),
        log: log_beside(rt, path),
    }
}

// The write-ahead log beside the file. One that was folded into the file is only a header.
fn log_beside(rt: &HostRuntime, path: &str) -> Leftover {
    let Ok(mut log) = open_beside(rt, path, "-wal") else {
        return Leftover::Nothing;
    };
    match has_page(&mut log) {
        Ok(true) => Leftover::Pages,
        Ok(false) => Leftover::Noise,
        // It ends before its first page.
        Err(_) => Leftover::Nothing,
    }
}

/// The path without links, of a file that is there.
pub(crate) fn real_path(rt: &HostRuntime, path: &str) -> io::Result<PathBuf> {
    fs::canonicalize(rt, path)
}

// The path of what is beside the file that links lead to, under its name with this ending.
fn path_beside(rt: &HostRuntime, path: &str, ending: &str) -> io::Result<String> {
    let real = real_path(rt, path)?;
    Ok(format!(in rt.alloc(); "{}{ending}", real.as_str())?)
}

fn open_beside(rt: &HostRuntime, path: &str, ending: &str) -> io::Result<fs::File> {
    let name = path_beside(rt, path, ending)?;
    fs::File::open(rt, name.as_str())
}

fn beside(rt: &HostRuntime, path: &str, ending: &str) -> io::Result<fs::Metadata> {
    let name = path_beside(rt, path, ending)?;
    fs::metadata(rt, name.as_str())
}

// How many bytes there are beside a file that is not there, under its name with this ending.
fn bytes_without(rt: &HostRuntime, path: &str, ending: &str) -> io::Result<u64> {
    let name = format!(in rt.alloc(); "{path}{ending}")?;
    Ok(fs::metadata(rt, name.as_str())?.len())
}

/// Why a file that would be made, or is empty, is not to be used: what belongs to it is there, or
/// its path is a link that leads nowhere.
pub(crate) fn why_alone(rt: &HostRuntime, path: &str, before: &Before) -> Option<Cause>
    ensures { IfSome result (λ cause. ¬ IsRefusal cause) }
{
    if before.is_new {
        why_not_new(rt, path)
    } else if is_empty(rt, path) && has_pages(&beside(rt, path, "-wal")) {
        Some(Cause::LogAlone)
    } else {
        None
    }
}

fn why_not_new(rt: &HostRuntime, path: &str) -> Option<Cause>
    ensures { IfSome result (λ cause. ¬ IsRefusal cause) }
{
    if fs::symlink_metadata(rt, path).is_ok() {
        return Some(Cause::Dangling);
    }
    if matches!(bytes_without(rt, path, "-wal"), Ok(length) if length > NO_PAGE) {
        return Some(Cause::LogAlone);
    }
    if matches!(bytes_without(rt, path, "-journal"), Ok(length) if length > 0) {
        return Some(Cause::JournalAlone);
    }
    None
}

/// Why nothing can be read at a path where no file is.
pub(crate) fn why_absent(rt: &HostRuntime, path: &str) -> Cause
    ensures { ¬ IsRefusal result }
{
    if is_no_path(path) {
        return Cause::NoPath;
    }
    match why_not_new(rt, path) {
        Some(cause) => cause,
        None => if is_in_folder(rt, path) {
            Cause::Missing
        } else {
            Cause::NoFolder
        },
    }
}

// Whether the folder that the path names is there.
fn is_in_folder(rt: &HostRuntime, path: &str) -> bool {
    match Path::new(path).parent() {
        Some(folder) => folder.as_str().is_empty() || fs::exists(rt, folder).unwrap_or(true),
        None => true,
    }
}

fn is_empty(rt: &HostRuntime, path: &str) -> bool {
    matches!(fs::metadata(rt, path), Ok(found) if found.is_file() && found.len() == 0)
}

fn has_pages(log: &io::Result<fs::Metadata>) -> bool {
    matches!(log, Ok(found) if found.len() > NO_PAGE)
}

/// Makes a file for its owner alone, unless another program made it meanwhile. Nothing is made at a
/// path that no database can be at: the opening says so.
pub(crate) fn make(rt: &HostRuntime, path: &str) -> Result<(), Cause> {
    if is_no_path(path) {
        return Ok(());
    }
    match OpenOptions::new()
        .write(true)
        .create_new(true)
        .mode(0o600)
        .open(rt, path)
    {
        Ok(_) => Ok(()),
        Err(error) => match error.kind() {
            ErrorKind::AlreadyExists => Ok(()),
            ErrorKind::NotFound => Err(Cause::NoFolder),
            ErrorKind::PermissionDenied => Err(Cause::FolderForbidden),
            _ => Err(why(&error)),
        },
    }
}

// Whether the path is none that a database can be at.
fn is_no_path(path: &str) -> bool {
    path.is_empty() || path == ":memory:" || path.starts_with("file:")
}

// The system's numbers of two errors: it opens no more files, for any process or for this one.
const ENFILE: i32 = 23;

const EMFILE: i32 = 24;

// Whether a file can't be opened since too many are open.
fn is_of_descriptors<T>(opened: &io::Result<T>) -> bool {
    match opened {
        Ok(_) => false,
        Err(error) => matches!(error.raw_os_error(), Some(ENFILE | EMFILE)),
    }
}

// Whether a file, its log and its folder can't be opened since too many files are open.
fn lacks_descriptors(rt: &HostRuntime) -> bool {
    let file = fs::File::open(rt, "/");
    let log = fs::File::open(rt, "/");
    let folder = fs::File::open(rt, "/");
    is_of_descriptors(&file) || is_of_descriptors(&log) || is_of_descriptors(&folder)
}

/// Why a file that the system refused to open can't be opened.
pub(crate) fn why_not_opened(rt: &HostRuntime, path: &str) -> Cause
    ensures { ¬ IsRefusal result }
{
    if is_no_path(path) {
        return Cause::NoPath;
    }
    if lacks_descriptors(rt) {
        return Cause::Descriptors;
    }
    match fs::metadata(rt, path) {
        Ok(found) => why_not_used(rt, path, &found),
        Err(error) => if error.kind() == ErrorKind::NotFound {
            why_absent(rt, path)
        } else {
            why(&error)
        },
    }
}

// Why a file that is there can't be used.
fn why_not_used(rt: &HostRuntime, path: &str, found: &fs::Metadata) -> Cause
    ensures { ¬ IsRefusal result }
{
    if found.is_dir() {
        return Cause::Folder;
    }
    if !found.is_file() {
        return Cause::NoRegularFile;
    }
    if found.nlink() > 1 {
        return Cause::SecondName;
    }
    match OpenOptions::new().read(true).write(true).open(rt, path) {
        Ok(_) => why_not_beside(rt, path),
        Err(error) => why(&error),
    }
}

// Why what is beside the file can't be used.
fn why_not_beside(rt: &HostRuntime, path: &str) -> Cause
    ensures { ¬ IsRefusal result }
{
    if beside(rt, path, "-journal").is_ok() {
        return Cause::Journal;
    }
    match beside(rt, path, "-wal") {
        Ok(_) => Cause::Log,
        Err(_) => Cause::FolderForbidden,
    }
}

/// The cause of a system's error.
pub(crate) fn why(error: &io::Error) -> Cause
    ensures { ¬ IsRefusal result }
{
    match error.kind() {
        ErrorKind::PermissionDenied => Cause::Forbidden,
        ErrorKind::NotADirectory => Cause::NoFolder,
        ErrorKind::ReadOnlyFilesystem => Cause::ReadOnly,
        ErrorKind::StorageFull => Cause::Database(StoredFault::DiskFull),
        ErrorKind::OutOfMemory => Cause::Database(StoredFault::NoMemory),
        _ => Cause::Database(StoredFault::Io),
    }
}

/// Why a file that was opened is no database that can be read.
pub(crate) fn why_no_database(rt: &HostRuntime, path: &str) -> Cause
    ensures { IsRefusal result }
{
    match beginning(rt, path) {
        Ok(bytes) => if bytes == *BEGINNING {
            Cause::Damaged
        } else {
            Cause::NoDatabase
        },
        Err(_) => Cause::NoDatabase,
    }
}

fn beginning(rt: &HostRuntime, path: &str) -> io::Result<[u8; 16]> {
    let mut bytes = [0; 16];
    let mut file = fs::File::open(rt, path)?;
    file.read_exact(&mut bytes)?;
    Ok(bytes)
}
