//! What the program starts with: its descriptors, and the limit of a file's size.
use libc::types::rlimit;
use log::Log;
use server_notes::note_file_limit;
use std::fs::OpenOptions;
use std::io;
use std::os::fd::{AsRawFd, IntoRawFd};
use std::rt::HostRuntime;
use std::time::Clock;

// The limit of a file's size, as getrlimit numbers it.
const RLIMIT_FSIZE: i32 = 1;

// Opens the null device. The system gives the lowest number that is free.
fn open_null(rt: &HostRuntime) -> io::Result<bool> {
    let null = OpenOptions::new()
        .read(true)
        .write(true)
        .open(rt, "/dev/null")?;
    if null.as_raw_fd() > libc::STDERR_FILENO {
        return Ok(false);
    }
    null.into_raw_fd();
    Ok(true)
}

/// Opens standard input, output and error on the null device where they are closed, so that no
/// file or connection becomes one of them. Where that can't be done they stay closed.
pub(crate) fn open_standard_ones(rt: &HostRuntime) {
    for _ in 0..3 {
        match open_null(rt) {
            Ok(true) => {}
            _ => return,
        }
    }
}

// The most bytes that a file may have, if there is a limit.
fn file_limit() -> Option<u64> {
    let mut limit = rlimit {
        rlim_cur: u64::MAX,
        rlim_max: u64::MAX,
    };
    let answer = libc::getrlimit(RLIMIT_FSIZE, &mut limit);
    if answer == 0 && limit.rlim_cur != u64::MAX {
        Some(limit.rlim_cur)
    } else {
        None
    }
}

/// Warns where a file's size has a limit.
pub(crate) fn warn_of_file_limit<R: Log + Clock>(notes: &R) {
    if let Some(bytes) = file_limit() {
        note_file_limit(notes, bytes);
    }
}
