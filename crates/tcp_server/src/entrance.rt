//! The way in: where all sessions of a server get their connections from.
use crate::waiting::{has_waiting, is_shut_down, shut_down};
use log::Log;
use server_notes::{
    note_begun, note_draining, note_first, note_http, note_nearly_used, note_no_thread,
    note_unaccepted, note_unconnected,
};
use std::fmt::Display;
use std::net::{SocketAddr, TcpListener, TcpStream};
use std::os::fd::{AsRawFd, RawFd};
use std::sync::Wait;
use std::sync::atomic::{AtomicBool, AtomicU64, Ordering};
use std::time::{Clock, Duration};
use std::{io, thread};

/// How many sessions one start serves at most: as many as a document has seats. It drains before,
/// at the first session after which each thread may still begin one.
pub const MOST_SESSIONS: u16 = 65_535;

// At how many sessions a start that stays begins to drain. The others may each have one more.
const LAST_SESSIONS: u64 = 65_535 - 256;

// At how many a note says that the start will drain.
const NEARLY_ALL: u64 = LAST_SESSIONS - LAST_SESSIONS / 10;

// After how many milliseconds a session that waits looks again whether others wait.
const LOOK_MILLIS: u64 = 1000;

// How many milliseconds no connection is accepted after one that failed.
const PAUSE_MILLIS: u64 = 100;

// How often at most a note tells of the same thing, in milliseconds.
const NOTE_MILLIS: u64 = 60_000;

/// On which terms a server has sessions.
#[derive(Clone, Copy)]
pub struct Admission {
    /// How many sessions there are, or how many at once.
    pub sessions: u16,
    /// Whether others follow one that has ended.
    pub stays: bool,
    /// Where others follow: for how many seconds a client may be silent before its first whole
    /// line, within a line, and between lines while others wait.
    pub patience: u16,
    /// How many seconds sessions have to end while the server drains.
    pub drain: u16,
}

/// How many sessions a start has had so far.
#[derive(Clone, Copy)]
pub struct SessionCount {
    /// How many there are now.
    pub open: u64,
    /// How many there may be at once.
    pub most_at_once: u64,
    /// How many have begun.
    pub begun: u64,
    /// At how many the start ends, or begins to drain.
    pub most: u64,
    /// Whether the server drains.
    pub drains: bool,
}

/// A listener that sessions share, and what they share of each other: how many have begun, how many
/// threads wait for a connection, and whether the server drains.
#[derive(Drop)]
pub struct Entrance<'a, R> {
    pub(crate) rt: &'a R,
    listener: &'a TcpListener,
    pub(crate) admission: Admission,
    begun: AtomicU64,
    // How many have not ended.
    open: AtomicU64,
    // How many threads wait for a connection.
    free: AtomicU64,
    drains: AtomicBool,
    // When it was found that it drains; 0 for not yet.
    drains_since: AtomicU64,
    // How many threads could not be started, and how many of these a note has reported.
    without_thread: AtomicU64,
    told: AtomicU64,
    // When a note last told of HTTP, and of a failure; 0 for never.
    http_told: AtomicU64,
    failure_told: AtomicU64,
}

impl<R> Entrance<'_, R> {
    // A connection is read from now on.
    pub(crate) fn begin_reading(&self) {
        self.open.fetch_add(1, Ordering::SeqCst);
    }

    // It is read no more.
    pub(crate) fn end_reading(&self) {
        self.open.fetch_sub(1, Ordering::SeqCst);
    }
}

impl<'a, R: Log + Clock + Wait> Entrance<'a, R> {
    ghost use Rattle.std.specs.Prelude.{◌≡◌, IsTrue};

    /// One on these terms, where no session has begun.
    pub fn new(rt: &'a R, listener: &'a TcpListener, admission: Admission) -> Entrance<'a, R>
        ensures { result.admission ≡ admission }
    {
        Entrance {
            rt,
            listener,
            admission,
            begun: AtomicU64::new(0),
            open: AtomicU64::new(0),
            free: AtomicU64::new(0),
            drains: AtomicBool::new(false),
            drains_since: AtomicU64::new(0),
            without_thread: AtomicU64::new(0),
            told: AtomicU64::new(0),
            http_told: AtomicU64::new(0),
            failure_told: AtomicU64::new(0),
        }
    }

    // Its listener's descriptor.
    pub(crate) fn descriptor(&self) -> RawFd {
        self.listener.as_raw_fd()
    }

    // The milliseconds of a clock that never goes back; 0 where it can't be read.
    pub(crate) fn now(&self) -> u64 {
        match self.rt.monotonic() {
            Ok(since) => u64::try_from(since.as_millis()).unwrap_or(u64::MAX),
            Err(_) => 0,
        }
    }

    /// Lets no more connections in: the server drains. Sessions end behind the reply to the last
    /// whole line that they have read.
    pub fn drain(&self) {
        if self.drains_since.load(Ordering::SeqCst) == 0 {
            self.drains_since.store(self.now(), Ordering::SeqCst);
        }
        if !self.drains.swap(true, Ordering::SeqCst) {
            shut_down(self.descriptor());
            note_draining(self.rt, self.begun.load(Ordering::SeqCst));
        }
    }

    // Whether the server drains: the listener is shut down, by whomever.
    pub(crate) fn is_draining(&self) -> bool {
        if !self.drains.load(Ordering::SeqCst) && is_shut_down(self.descriptor()) {
            self.drain();
        }
        self.drains.load(Ordering::SeqCst)
    }

    // For how many milliseconds it has drained.
    fn drained(&self) -> u64 {
        let since = self.drains_since.load(Ordering::SeqCst);
        self.now().saturating_sub(since)
    }

    // Whether the server has drained for as long as sessions have.
    pub(crate) fn is_drain_over(&self) -> bool {
        self.is_draining() && self.drained() >= u64::from(self.admission.drain) * 1000
    }

    // Whether somebody waits for a session, and no thread is free for it.
    pub(crate) fn is_wanted(&self) -> bool {
        self.free.load(Ordering::SeqCst) == 0 && has_waiting(self.descriptor())
    }

    // For how many milliseconds a client may be silent. None where it may for ever.
    pub(crate) fn patience(&self) -> Option<u64> {
        if self.admission.stays {
            Some(u64::from(self.admission.patience) * 1000)
        } else {
            None
        }
    }

    // For how many milliseconds to wait for bytes, after a silence of so many. A negative number is
    // for ever.
    pub(crate) fn next_wait(&self, silent: u64) -> i32 {
        match self.patience() {
            None => -1,
            Some(most) if silent < most => i32::try_from(most - silent).unwrap_or(i32::MAX),
            Some(_) => LOOK_MILLIS as i32,
        }
    }

    // Whether one more note of a thing may be written, which was last told at this time.
    fn may_tell(&self, told: &AtomicU64) -> bool {
        let now = self.now().saturating_add(1);
        let before = told.load(Ordering::SeqCst);
        if before != 0 && now < before.saturating_add(NOTE_MILLIS) {
            return false;
        }
        told.swap(now, Ordering::SeqCst) == before
    }

    // Notes, once a minute, that a connection spoke HTTP.
    pub(crate) fn tell_http(&self) {
        if self.may_tell(&self.http_told) {
            note_http(self.rt);
        }
    }

    // Counts a thread that could not be started. A note reports the first at once: threads are
    // started one after the other, so most that follow have none either.
    pub(crate) fn count_without_thread(&self) {
        if self.without_thread.fetch_add(1, Ordering::SeqCst) == 0 {
            self.tell_without_thread();
        }
    }

    // Notes how many threads could not be started, if they are more than a note has reported.
    fn tell_without_thread(&self) {
        let without = self.without_thread.load(Ordering::SeqCst);
        if self.told.swap(without, Ordering::SeqCst) != without {
            note_no_thread(self.rt, without, self.admission.sessions);
        }
    }

    /// How many sessions there were so far.
    pub fn count(&self) -> SessionCount {
        let most_at_once = u64::from(self.admission.sessions);
        SessionCount {
            open: self.open.load(Ordering::SeqCst),
            most_at_once,
            begun: self.begun.load(Ordering::SeqCst),
            most: if self.admission.stays {
                LAST_SESSIONS
            } else {
                most_at_once
            },
            drains: self.is_draining(),
        }
    }

    // Counts a session that begins, and returns how many have begun.
    fn begin(&self) -> u64 {
        self.begun.fetch_add(1, Ordering::SeqCst).saturating_add(1)
    }

    // Counts a session of a server that stays. One start has as many as a document has seats.
    pub(crate) fn begin_staying<A: Display>(&self, from: &A) {
        let begun = self.begin();
        if begun == 1 {
            note_first(self.rt, from);
        }
        if begun == NEARLY_ALL {
            note_nearly_used(self.rt, begun, LAST_SESSIONS);
        }
        if begun >= LAST_SESSIONS {
            self.drain();
        }
    }

    // Counts a session of a server that doesn't stay.
    pub(crate) fn begin_counted<A: Display>(&self, from: &A) {
        note_begun(self.rt, self.begin(), self.admission.sessions, from);
    }

    // Waits for the next connection, as one of the threads that are free.
    pub(crate) fn accept(&self) -> io::Result<(TcpStream, SocketAddr)> {
        self.free.fetch_add(1, Ordering::SeqCst);
        let accepted = self.listener.accept();
        self.free.fetch_sub(1, Ordering::SeqCst);
        self.tell_without_thread();
        accepted
    }

    // A connection could not be accepted. It pauses, so that it isn't tried at once again.
    pub(crate) fn fail_staying(&self, error: &io::Error) {
        if self.is_draining() {
            return;
        }
        if self.may_tell(&self.failure_told) {
            note_unaccepted(self.rt, error);
        }
        thread::sleep(self.rt, Duration::from_millis(PAUSE_MILLIS));
    }

    // A connection of a server that doesn't stay could not be accepted: a session has none.
    pub(crate) fn fail_counted(&self, error: &io::Error) {
        if !self.is_draining() {
            note_unconnected(self.rt, self.begin(), self.admission.sessions, error);
        }
    }

    /// Whether a thread that has served a session waits for another connection.
    pub(crate) fn takes_more(&self) -> bool
        ensures { IsTrue result → IsTrue self.now.admission.stays }
    {
        self.admission.stays && !self.is_draining()
    }
}
