//! Notes of a server on standard error: one line each, with the time.
//!
//! A lost note changes nothing: no call here answers anything, and none allocates. `Notes` never
//! waits for standard error.
#![tactic(auto)]

mod notes;
mod plain;
mod standard_error;

use jiff::Timestamp;
use log::{Level, Log, log};
pub use notes::Notes;
pub use plain::{Plain, PlainLines};
pub use standard_error::StandardError;
use std::fmt::Display;
use std::time::Clock;

// The time of a clock in whole seconds, if it has one.
pub(crate) fn time_of<R: Clock>(rt: &R) -> Option<Timestamp> {
    let now = Timestamp::now(rt).ok()?;
    Timestamp::from_second(now.as_second()).ok()
}

// Writes a note behind the time. A clock without a time loses it.
fn note<R: Log + Clock, W: Display>(rt: &R, level: Level, what: &W) {
    if let Some(at) = time_of(rt) {
        log!(rt; target: "jcrdt", level, "{at} {what}");
    }
}

/// Notes that a file was made, since there was none.
pub fn note_made<R: Log + Clock>(rt: &R, path: &str) {
    note(
        rt,
        Level::Info,
        &format_args!("made a new file {}", Plain(path)),
    );
}

/// Notes that a start has folded what another run left in the write-ahead log of the file at this
/// path.
pub fn note_took_over<R: Log + Clock>(rt: &R, path: &str) {
    note(
        rt,
        Level::Info,
        &format_args!("took over {}-wal", Plain(path)),
    );
}

/// Warns that the write-ahead log beside the file at this path held nothing that could be read: the
/// start has not read it, and writes over it.
pub fn note_log_unread<R: Log + Clock>(rt: &R, path: &str) {
    let what = format_args!(
        "{}-wal held no changes of the file: it was not read",
        Plain(path)
    );
    note(rt, Level::Warn, &what);
}

/// Warns of the most bytes that a file may have. The system ends a process that writes more, unless
/// it ignores the signal SIGXFSZ.
pub fn note_file_limit<R: Log + Clock>(rt: &R, bytes: u64) {
    let what = format_args!(
        "a file may have at most {bytes} bytes here (ulimit -f): the system ends a server that writes more"
    );
    note(rt, Level::Warn, &what);
}

/// Notes where the server listens.
pub fn note_listening<R: Log + Clock, A: Display>(rt: &R, address: &A) {
    note(rt, Level::Info, &format_args!("listening at {address}"));
}

/// Notes the name of the replica that the server is.
pub fn note_serving<R: Log + Clock>(rt: &R, replica: &str) {
    note(rt, Level::Info, &format_args!("serving as {replica}"));
}

/// A count of a document, and its limit.
#[derive(Clone, Copy)]
pub struct Fill {
    /// How many there are.
    pub count: usize,
    /// The most that there may be.
    pub limit: usize,
}

impl Fill {
    /// Whether nine tenths of the limit are reached.
    pub fn is_nearly_full(&self) -> bool {
        self.count >= self.limit - self.limit / 10
    }
}

/// Notes a document that was restored, with its operations and the replicas that made them.
pub fn note_restored<R: Log + Clock>(rt: &R, document: &str, operations: Fill, replicas: Fill) {
    let (count, limit) = (operations.count, operations.limit);
    let (makers, most) = (replicas.count, replicas.limit);
    let what = format_args!(
        "restored {document}: {count} of {limit} operations, {makers} of {most} replicas"
    );
    note(rt, Level::Info, &what);
}

/// Warns that a document is nearly full of what is counted: of operations, or of replicas.
pub fn note_nearly_full<R: Log + Clock>(rt: &R, document: &str, fill: Fill, counted: &str) {
    let (count, limit) = (fill.count, fill.limit);
    let what = format_args!("{document} is nearly full: {count} of {limit} {counted}");
    note(rt, Level::Warn, &what);
}

/// Notes that a session begins: how many have begun, of how many, and from where its client
/// connects.
pub fn note_begun<R: Log + Clock, A: Display>(rt: &R, begun: u64, sessions: u16, from: &A) {
    let what = format_args!("session {begun} of {sessions} begins, from {from}");
    note(rt, Level::Info, &what);
}

/// Warns that a session has no connection, and why. It counts as one that has ended.
pub fn note_unconnected<R: Log + Clock, E: Display>(rt: &R, begun: u64, sessions: u16, why: &E) {
    let what = format_args!("session {begun} of {sessions} has no connection: {why}");
    note(rt, Level::Warn, &what);
}

/// Notes the first session of a server that stays, and from where its client connects.
pub fn note_first<R: Log + Clock, A: Display>(rt: &R, from: &A) {
    note(
        rt,
        Level::Info,
        &format_args!("the first session begins, from {from}"),
    );
}

/// Warns that a start has nearly as many sessions as it serves: then it drains, and the next start
/// goes on.
pub fn note_nearly_used<R: Log + Clock>(rt: &R, begun: u64, most: u64) {
    let what = format_args!(
        "{begun} of {most} sessions of this start have begun: then it drains and ends"
    );
    note(rt, Level::Warn, &what);
}

/// Notes that the server lets no more connections in, and how many sessions have begun.
pub fn note_draining<R: Log + Clock>(rt: &R, begun: u64) {
    let what = format_args!(
        "draining: sessions end behind their last whole line; {begun} have begun"
    );
    note(rt, Level::Info, &what);
}

/// Warns that a connection spoke HTTP. No line of it was carried out.
pub fn note_http<R: Log + Clock>(rt: &R) {
    note(
        rt,
        Level::Warn,
        &"a connection spoke HTTP, and was closed: no line of it was carried out",
    );
}

/// Warns that a connection could not be accepted, and why. It is tried again.
pub fn note_unaccepted<R: Log + Clock, E: Display>(rt: &R, why: &E) {
    note(
        rt,
        Level::Warn,
        &format_args!("a connection could not be accepted: {why}"),
    );
}

/// Warns that so many sessions have no thread, of how many. They count as ones that have ended.
pub fn note_no_thread<R: Log + Clock>(rt: &R, without: u64, sessions: u16) {
    let what = format_args!(
        "{without} of {sessions} sessions have no thread: memory or the limit of threads is used up"
    );
    note(rt, Level::Warn, &what);
}

/// Warns that a server has not started, and why.
pub fn note_unstarted<R: Log + Clock, F: Display>(rt: &R, why: &F) {
    note(rt, Level::Warn, &format_args!("the start fails: {why}"));
}

/// Warns that the file failed, and why. Sessions go on, and changes wait once this many operations of
/// their document aren't in it.
pub fn note_failed<R: Log + Clock, F: Display>(rt: &R, why: &F, most: u64) {
    let what = format_args!(
        "the file failed: {why}; it is tried again. Until then changes are in memory only, and behind {most} of a document they wait"
    );
    note(rt, Level::Warn, &what);
}

/// Warns that the file failed, and why, where no change is answered that isn't in the file.
pub fn note_failed_durably<R: Log + Clock, F: Display>(rt: &R, why: &F) {
    let what = format_args!(
        "the file failed: {why}; it is tried again. Until then a session with --durable ends at its next change, which is not answered"
    );
    note(rt, Level::Warn, &what);
}

/// Warns that the file still can't be used, and how many operations aren't in it.
pub fn note_still_failing<R: Log + Clock>(rt: &R, unstored: u64) {
    let what = format_args!("the file still fails: {unstored} operations are in memory only");
    note(rt, Level::Warn, &what);
}

/// Notes that the file was opened again after a fault.
pub fn note_recovered<R: Log + Clock>(rt: &R) {
    note(rt, Level::Info, &"the file works again: copying goes on");
}

/// Notes that all operations are in the file, after a fault that it got over.
pub fn note_all_stored<R: Log + Clock>(rt: &R) {
    note(rt, Level::Info, &"all is in the file");
}

/// Warns that copying has stopped, and why. Sessions go on.
pub fn note_stopped<R: Log + Clock, F: Display>(rt: &R, why: &F) {
    let what = format_args!(
        "copying stopped: {why}; what is accepted from now on is in memory only: exchange with a peer before you stop"
    );
    note(rt, Level::Warn, &what);
}

/// Warns that copying has stopped, and why, where no change is answered that isn't in the file.
pub fn note_ending<R: Log + Clock, F: Display>(rt: &R, why: &F) {
    let what = format_args!(
        "copying stopped: {why}; a session with --durable ends at its next change, which is not answered"
    );
    note(rt, Level::Warn, &what);
}

/// Warns that copying pauses for lack of memory, and is tried again.
pub fn note_lacking<R: Log + Clock>(rt: &R) {
    note(
        rt,
        Level::Warn,
        &"copying pauses: out of memory; it is tried again",
    );
}

/// Notes that copying goes on after such a pause.
pub fn note_going_on<R: Log + Clock>(rt: &R) {
    note(rt, Level::Info, &"copying goes on");
}

/// Notes that all sessions have ended.
pub fn note_ended<R: Log + Clock>(rt: &R) {
    note(rt, Level::Info, &"all sessions have ended");
}
