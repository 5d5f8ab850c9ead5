//! Standard error, for notes: what it doesn't take at once is lost.
//!
//! No clause says that a write doesn't wait: no contract can say what a device does.

use libc::net::{MSG_DONTWAIT, MSG_NOSIGNAL, POLLOUT};
use libc::types::pollfd;
use std::fs::{self, OpenOptions};
use std::io;
use std::os::fd::{AsRawFd, IntoRawFd, RawFd};
use std::os::unix::fs::FileTypeExt;
use std::rt::HostRuntime;
use std::sync::atomic::{AtomicBool, Ordering};

// What standard error is, as a file of this process.
const PATH: &str = "/proc/self/fd/2";

// How a descriptor is written without waiting.
#[derive(Clone, Copy)]
enum Way {
    // A socket, by a call that doesn't wait.
    Socket,
    // A file, or a pipe or a terminal that was opened anew and doesn't wait.
    Descriptor,
    // A pipe or a terminal that can't be opened anew: it is asked first whether it has room.
    Polled,
}

/// Standard error, without waiting. A pipe or a terminal is opened anew, since the setting not to
/// wait would hold for each process that shares the open file.
#[derive(Drop)]
pub struct StandardError {
    descriptor: RawFd,
    way: Way,
    // Whether a thread asks and writes: in between another one may not take the room.
    is_asking: AtomicBool,
}

// A pipe that was opened anew for writing. To open one that nobody reads would wait, so it is
// opened for reading too meanwhile.
fn open_pipe(rt: &HostRuntime) -> io::Result<fs::File> {
    let _reader = OpenOptions::new().read(true).write(true).open(rt, PATH)?;
    OpenOptions::new().write(true).open(rt, PATH)
}

// The descriptor of a pipe or a terminal that was opened anew and doesn't wait.
fn open_anew(rt: &HostRuntime, is_pipe: bool) -> io::Result<RawFd> {
    let file = if is_pipe {
        open_pipe(rt)?
    } else {
        OpenOptions::new().write(true).open(rt, PATH)?
    };
    if os::set_nonblocking(file.as_raw_fd(), true) != 0 {
        return Err(io::ErrorKind::Unsupported.into());
    }
    Ok(file.into_raw_fd())
}

impl StandardError {
    fn new(descriptor: RawFd, way: Way) -> StandardError {
        StandardError {
            descriptor,
            way,
            is_asking: AtomicBool::new(false),
        }
    }

    /// The standard error of this process.
    pub fn open(rt: &HostRuntime) -> StandardError {
        let Ok(found) = fs::metadata(rt, PATH) else {
            return StandardError::new(libc::STDERR_FILENO, Way::Polled);
        };
        let kind = found.file_type();
        if kind.is_socket() {
            return StandardError::new(libc::STDERR_FILENO, Way::Socket);
        }
        if kind.is_file() {
            return StandardError::new(libc::STDERR_FILENO, Way::Descriptor);
        }
        match open_anew(rt, kind.is_fifo()) {
            Ok(descriptor) => StandardError::new(descriptor, Way::Descriptor),
            Err(_) => StandardError::new(libc::STDERR_FILENO, Way::Polled),
        }
    }

    // Whether a pipe or a terminal has room for 4,096 bytes.
    fn has_room(&self) -> bool {
        let mut asked = [pollfd {
            fd: self.descriptor,
            events: POLLOUT,
            revents: 0,
        }];
        libc::net::poll(&mut asked, 0) == 1 && asked[0].revents & POLLOUT != 0
    }

    // Writes if there is room, unless another thread does so now.
    fn write_if_room(&self, bytes: &[u8]) -> isize {
        if self.is_asking.swap(true, Ordering::SeqCst) {
            return -1;
        }
        let taken = if self.has_room() {
            libc::write(self.descriptor, bytes)
        } else {
            -1
        };
        self.is_asking.store(false, Ordering::SeqCst);
        taken
    }

    /// How many of the bytes, at most 4,096, it takes at once: none where it would have to wait, or
    /// where it fails.
    pub fn write(&self, bytes: &[u8]) -> usize {
        let taken = match self.way {
            Way::Socket => unsafe {
                libc::net::send(self.descriptor, bytes, MSG_DONTWAIT | MSG_NOSIGNAL)
            },
            Way::Descriptor => libc::write(self.descriptor, bytes),
            Way::Polled => self.write_if_room(bytes),
        };
        usize::try_from(taken).unwrap_or(0)
    }
}
