//! TCP keep-alive: a connection whose other end is gone ends, though nothing is sent.
use libc::net as c;
use std::os::fd::{AsRawFd, RawFd};

// After how many quiet seconds the other end is asked whether it is there.
const IDLE_SECONDS: u32 = 60;

// How many seconds it has for an answer, before it is asked again.
const INTERVAL_SECONDS: u32 = 10;

// How many questions without an answer end the connection.
const PROBES: u32 = 6;

// A number as the system reads the value of an option.
fn value_of(number: u32) -> [u8; 16] {
    let mut value = [0; 16];
    value[..4].copy_from_slice(&number.to_ne_bytes());
    value
}

// Keep-alive for this socket.
fn turn_on(socket: RawFd) -> i32 {
    unsafe { c::setsockopt(socket, c::SOL_SOCKET, c::SO_KEEPALIVE, &value_of(1), 4) }
}

fn set_idle(socket: RawFd) -> i32 {
    let value = value_of(IDLE_SECONDS);
    unsafe { c::setsockopt(socket, c::IPPROTO_TCP, c::TCP_KEEPIDLE, &value, 4) }
}

fn set_interval(socket: RawFd) -> i32 {
    let value = value_of(INTERVAL_SECONDS);
    unsafe { c::setsockopt(socket, c::IPPROTO_TCP, c::TCP_KEEPINTVL, &value, 4) }
}

fn set_probes(socket: RawFd) -> i32 {
    let value = value_of(PROBES);
    unsafe { c::setsockopt(socket, c::IPPROTO_TCP, c::TCP_KEEPCNT, &value, 4) }
}

/// Turns TCP keep-alive on: a connection ends about two minutes after its other end is gone. If the
/// system refuses an option its own times stay.
pub(crate) fn keep_alive<S: AsRawFd>(stream: &S) {
    let socket = stream.as_raw_fd();
    let _ = turn_on(socket);
    let _ = set_idle(socket);
    let _ = set_interval(socket);
    let _ = set_probes(socket);
}
