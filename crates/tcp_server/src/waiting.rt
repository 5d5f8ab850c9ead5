//! Waiting for a connection and for the listener at once.
use libc::net as c;
use libc::types::pollfd;
use std::os::fd::RawFd;

/// What has come of a wait.
#[derive(Clone, Copy, PartialEq, Eq)]
pub(crate) enum Found {
    /// The connection has bytes, or has ended.
    Bytes,
    /// The listener is shut down: the server drains.
    Drain,
    /// Nothing yet.
    Nothing,
}

// A descriptor and what is wanted of it.
fn asked(fd: RawFd, events: i16) -> pollfd {
    pollfd {
        fd,
        events,
        revents: 0,
    }
}

/// Waits until the connection can be read, or the listener is shut down, for at most so many
/// milliseconds; with no limit at a negative number. A signal ends it with nothing.
pub(crate) fn wait_for_bytes(connection: RawFd, listener: RawFd, millis: i32) -> Found {
    let mut both = [asked(connection, c::POLLIN), asked(listener, 0)];
    let _ = c::poll(&mut both, millis);
    if both[1].revents != 0 {
        Found::Drain
    } else if both[0].revents != 0 {
        Found::Bytes
    } else {
        Found::Nothing
    }
}

/// Whether a connection waits to be accepted.
pub(crate) fn has_waiting(listener: RawFd) -> bool {
    let mut one = [asked(listener, c::POLLIN)];
    let _ = c::poll(&mut one, 0);
    one[0].revents & c::POLLIN != 0
}

/// Whether the listener is shut down.
pub(crate) fn is_shut_down(listener: RawFd) -> bool {
    let mut one = [asked(listener, 0)];
    let _ = c::poll(&mut one, 0);
    one[0].revents != 0
}

/// Ends accepting: whoever waits for a connection is woken, and each later wait finds the drain.
pub(crate) fn shut_down(listener: RawFd) {
    let _ = c::shutdown(listener, c::SHUT_RDWR);
}

// Reads once from standard input, and says whether there may be more.
fn read_input() -> bool {
    let mut bytes = [0; 4096];
    libc::read(libc::STDIN_FILENO, &mut bytes) > 0
}

/// Waits until standard input ends, and reads away what it gives; then it shuts the listener down.
/// It returns, too, once the listener is shut down.
pub(crate) fn drain_at_end_of_input(listener: RawFd) {
    for _ in 0..u64::MAX {
        match wait_for_bytes(libc::STDIN_FILENO, listener, -1) {
            Found::Drain => return,
            Found::Nothing => {}
            Found::Bytes => if !read_input() {
                shut_down(listener);
                return;
            },
        }
    }
}
