//! What a session reads from its client, and what it writes to it.
use crate::entrance::Entrance;
use crate::waiting::{Found, wait_for_bytes};
use log::Log;
use std::io;
use std::io::{ErrorKind, Read, Write};
use std::net::{Shutdown, TcpStream};
use std::os::fd::AsRawFd;
use std::sync::Wait;
use std::time::Clock;

// How often at most a connection is read when it is dropped.
const LAST_READS: u16 = 256;

// How many bytes are looked at for HTTP.
const PEEKED: usize = 8;

// The methods of HTTP, each with the space behind it.
const METHODS: [&str; 9] = [
    "GET ", "POST ", "PUT ", "HEAD ", "PATCH ", "TRACE ", "DELETE ", "OPTIONS ", "CONNECT ",
];

// Discards what has arrived, without waiting: at most 1 MiB.
fn read_away(mut stream: &TcpStream) {
    let mut unread = [0; 4096];
    for _ in 0..LAST_READS {
        match stream.read(&mut unread) {
            Ok(n) if n > 0 => {}
            _ => return,
        }
    }
}

// Whether the bytes begin as a request of HTTP does.
fn is_http(bytes: &[u8]) -> bool {
    METHODS
        .iter()
        .any(|method: &&str| bytes.starts_with(method.as_bytes()))
}

/// Whether the first bytes that have arrived are those of HTTP: a method and a space. They stay for
/// the session.
pub(crate) fn speaks_http(stream: &TcpStream) -> bool {
    let mut first = [0; PEEKED];
    match stream.peek(&mut first) {
        Ok(count) => is_http(&first[..count]),
        Err(_) => false,
    }
}

// Whether there are bytes to look at.
fn has_bytes(stream: &TcpStream) -> bool {
    let mut first = [0; 1];
    match stream.peek(&mut first) {
        Ok(count) => count > 0,
        Err(_) => false,
    }
}

/// Waits for the first byte of a connection. False where it ends before, where the server drains,
/// or where the client is silent for longer than it may be.
pub(crate) fn waits_for_first<R: Log + Clock + Wait>(
    entrance: &Entrance<'_, R>,
    stream: &TcpStream,
) -> bool {
    let since = entrance.now();
    for _ in entrance.rt.forever() {
        let silent = entrance.now().saturating_sub(since);
        if entrance.patience().is_some_and(|most: u64| silent >= most) {
            return false;
        }
        let millis = entrance.next_wait(silent);
        match wait_for_bytes(stream.as_raw_fd(), entrance.descriptor(), millis) {
            Found::Bytes => return has_bytes(stream),
            Found::Drain => return false,
            Found::Nothing => {}
        }
    }
    false
}

/// What a client sends. Its drop ends what the client reads, and then discards what it has sent: a
/// system that closes a connection with unread bytes resets it, and the client may lose the last
/// replies by that.
///
/// A read fails where the server drains, and where the client is silent for longer than it may be:
/// before its first whole line and within a line, and between lines while others wait.
pub struct Received<'a, R> {
    entrance: &'a Entrance<'a, R>,
    stream: TcpStream,
    // When the line began that isn't whole yet. None between lines.
    began: Option<u64>,
}

impl<R> Drop for Received<'_, R> {
    fn drop(self) {
        // The connection is closed even if these fail.
        let _ = self.stream.shutdown(Shutdown::Write);
        if self.stream.set_nonblocking(true).is_ok() {
            read_away(&self.stream);
        }
        self.entrance.end_reading();
        let Received {
            entrance: _,
            stream: _,
            began: _,
        } = self;
    }
}

impl<'a, R: Log + Clock + Wait> Received<'a, R> {
    /// What the client of a new connection sends.
    pub(crate) fn new(entrance: &'a Entrance<'a, R>, stream: TcpStream) -> Received<'a, R> {
        let began = Some(entrance.now());
        entrance.begin_reading();
        Received {
            entrance,
            stream,
            began,
        }
    }

    // Whether a client that has been silent for so many milliseconds has been so for too long.
    fn is_over(&self, silent: u64) -> bool {
        match self.entrance.patience() {
            Some(most) if silent >= most => self.began.is_some() || self.entrance.is_wanted(),
            _ => false,
        }
    }

    // Whether there is something to read already.
    fn has_more(&self) -> bool {
        wait_for_bytes(self.stream.as_raw_fd(), self.entrance.descriptor(), 0) == Found::Bytes
    }

    // Waits until there is something to read. What has arrived while the session was at work isn't
    // held against the client.
    fn wait(&self) -> io::Result<()> {
        if self.began.is_some() && self.has_more() {
            return Ok(());
        }
        let since = self.began.unwrap_or(self.entrance.now());
        for _ in self.entrance.rt.forever() {
            let silent = self.entrance.now().saturating_sub(since);
            if self.is_over(silent) {
                return Err(io::Error::from(ErrorKind::TimedOut));
            }
            let millis = self.entrance.next_wait(silent);
            match wait_for_bytes(self.stream.as_raw_fd(), self.entrance.descriptor(), millis) {
                Found::Bytes => return Ok(()),
                // An end of input would carry out half a line.
                Found::Drain => return Err(io::Error::from(ErrorKind::TimedOut)),
                Found::Nothing => {}
            }
        }
        Ok(())
    }

    // Notes where the lines stand after these bytes.
    fn note(&mut self, bytes: &[u8]) {
        if bytes.last() == Some(&10) {
            self.began = None;
        } else if self.began.is_none() || bytes.contains(&10) {
            self.began = Some(self.entrance.now());
        }
    }
}

impl<R: Log + Clock + Wait> Read for Received<'_, R> {
    fn read(&mut self, buf: &mut [u8]) -> io::Result<usize> {
        self.wait()?;
        let count = self.stream.read(buf)?;
        self.note(&buf[..count]);
        Ok(count)
    }
}

/// What is written to a client. A write that gets nowhere fails once the server has drained for as
/// long as sessions have, or where others wait and the client takes nothing for longer than it may.
#[derive(Drop)]
pub struct Sent<'a, R> {
    entrance: &'a Entrance<'a, R>,
    stream: TcpStream,
}

impl<'a, R: Log + Clock + Wait> Sent<'a, R> {
    /// What is written to the client of a new connection.
    pub(crate) fn new(entrance: &'a Entrance<'a, R>, stream: TcpStream) -> Sent<'a, R> {
        Sent { entrance, stream }
    }

    // Whether a write that got nowhere for so many milliseconds has done so for too long.
    fn is_over(&self, stuck: u64) -> bool {
        if self.entrance.is_draining() {
            return stuck >= u64::from(self.entrance.admission.drain) * 1000;
        }
        match self.entrance.patience() {
            Some(most) => stuck >= most && self.entrance.is_wanted(),
            None => false,
        }
    }
}

impl<R: Log + Clock + Wait> Write for Sent<'_, R> {
    fn write(&mut self, buf: &[u8]) -> io::Result<usize> {
        let since = self.entrance.now();
        for _ in self.entrance.rt.forever() {
            match self.stream.write(buf) {
                Err(error) if error.kind() == ErrorKind::WouldBlock => {
                    if self.is_over(self.entrance.now().saturating_sub(since)) {
                        return Err(error);
                    }
                }
                other => return other,
            }
        }
        Ok(0)
    }

    fn flush(&mut self) -> io::Result<()> {
        self.stream.flush()
    }
}
