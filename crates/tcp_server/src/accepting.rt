//! Accepting connections.
ghost use Rattle.std.specs.Prelude.{◌≡◌, true, length, IfOk, IsTrue};
ghost use Rattle.std.specs.List.{All};

use crate::entrance::Entrance;
use crate::keep_alive::keep_alive;
use crate::talking::{Received, Sent, speaks_http, waits_for_first};
use line_feed::{DeviceFault, Reader, Writer};
use log::Log;
use server_core::{Connect, Deadline};
use std::alloc::{AllocError, Global};
use std::net::TcpStream;
use std::sync::Wait;
use std::sync::atomic::{AtomicBool, Ordering};
use std::time::{Clock, Duration};

// After how many seconds of a write that gets nowhere it is looked whether the session goes on.
const WRITE_SECONDS: u64 = 1;

/// The next connection of a listener that sessions share. One that is dropped before it is opened
/// counts as a thread that could not be started.
pub struct Accepting<'a, R: Log + Clock + Wait> {
    entrance: &'a Entrance<'a, R>,
    opened: AtomicBool,
}

impl<R: Log + Clock + Wait> Drop for Accepting<'_, R> {
    fn drop(self) {
        if !self.opened.load(Ordering::SeqCst) {
            self.entrance.count_without_thread();
        }
        let Accepting {
            entrance: _,
            opened: _,
        } = self;
    }
}

impl<'a, R: Log + Clock + Wait> Accepting<'a, R> {
    // The next connection on which a client speaks first, and no HTTP, at a server that stays.
    // Others use up no session. None once the server drains.
    fn next_client(&self) -> Option<TcpStream> {
        for _ in self.entrance.rt.forever() {
            if self.entrance.is_draining() {
                return None;
            }
            match self.entrance.accept() {
                Ok((stream, from)) => if self.is_client(&stream) {
                    self.entrance.begin_staying(&from);
                    return Some(stream);
                },
                Err(error) => self.entrance.fail_staying(&error),
            }
        }
        None
    }

    // Whether bytes come in time, which aren't HTTP.
    fn is_client(&self, stream: &TcpStream) -> bool {
        waits_for_first(self.entrance, stream) && !self.is_http(stream)
    }

    // Whether the first bytes are HTTP's. A note says so.
    fn is_http(&self, stream: &TcpStream) -> bool {
        let is_http = speaks_http(stream);
        if is_http {
            self.entrance.tell_http();
        }
        is_http
    }

    // The next connection, at a server that doesn't stay. It uses up a session, whatever comes.
    fn next_counted(&self) -> Option<TcpStream> {
        match self.entrance.accept() {
            Ok((stream, from)) => {
                self.entrance.begin_counted(&from);
                if waits_for_first(self.entrance, &stream) && self.is_http(&stream) {
                    return None;
                }
                Some(stream)
            }
            Err(error) => {
                self.entrance.fail_counted(&error);
                None
            }
        }
    }
}

/// The end of the time that sessions have while the server drains.
#[derive(Drop)]
pub struct DrainEnd<'a, R> {
    entrance: &'a Entrance<'a, R>,
}

impl<R: Log + Clock + Wait> Deadline for DrainEnd<'_, R> {
    fn has_passed(&self) -> bool {
        self.entrance.is_drain_over()
    }
}

impl<'a, R: Log + Clock + Wait + Sync> Connect for Accepting<'a, R> {
    type Deadline = DrainEnd<'a, R>;

    type Source = Reader<Received<'a, R>>;

    type Sink = Writer<Sent<'a, R>>;

    ghost follows = { λ a b. IsTrue a.entrance.now.admission.stays
        × (b.entrance.now.admission ≡ a.entrance.now.admission) };

    fn open(&self) -> Result<(Reader<Received<'a, R>>, Writer<Sent<'a, R>>), DeviceFault> {
        self.opened.store(true, Ordering::SeqCst);
        let next = if self.entrance.admission.stays {
            self.next_client()
        } else {
            self.next_counted()
        };
        let Some(stream) = next else {
            return Err(DeviceFault);
        };
        keep_alive(&stream);
        // Flushed replies go out at once. If this fails the system may delay them, and nothing is
        // lost.
        let _ = stream.set_nodelay(true);
        let _ = stream.set_write_timeout(Some(Duration::from_secs(WRITE_SECONDS)));
        let Ok(other) = stream.try_clone() else {
            return Err(DeviceFault);
        };
        Ok((
            Reader::new(Received::new(self.entrance, stream)),
            Writer::new(Sent::new(self.entrance, other)),
        ))
    }

    fn deadline(&self) -> DrainEnd<'a, R> {
        DrainEnd {
            entrance: self.entrance,
        }
    }

    fn next(self) -> Option<Self> {
        let entrance = self.entrance;
        if entrance.takes_more() {
            Some(Accepting {
                entrance,
                opened: AtomicBool::new(true),
            })
        } else {
            None
        }
    }
}

/// One connection for each thread.
pub fn connections<'a, R: Log + Clock + Wait>(
    alloc: Global,
    entrance: &'a Entrance<'a, R>,
    sessions: u16,
) -> Result<Vec<Accepting<'a, R>>, AllocError>
    ensures count { IfOk result (λ all. length all.items ≡ sessions) }
    ensures same { IfOk result (λ all. All (λ a. a.entrance.now.admission ≡ entrance.now.admission) all.items) }
{
    // All room at once: none is dropped for want of memory when others are made already.
    let mut all = Vec::with_capacity(alloc, usize::from(sessions))?;
    for _ in 0..sessions {
        all.push(Accepting {
            entrance,
            opened: AtomicBool::new(false),
        })?;
    }
    Ok(all)
}
