//! Notes as they stand on standard error.
use log::sink::Memory;
use log::{Level, Log, Logged};
use server_notes::{
    Fill, Plain, PlainLines, note_all_stored, note_begun, note_ended, note_ending, note_failed,
    note_failed_durably, note_file_limit, note_going_on, note_lacking, note_listening,
    note_log_unread, note_made, note_nearly_full, note_no_thread, note_recovered, note_restored,
    note_serving, note_still_failing, note_stopped, note_took_over, note_unconnected,
    note_unstarted,
};
use std::alloc::{Alloc, AllocError};
use std::io;
use std::process::Abort;
use std::rt::HostRuntime;
use std::time::{Clock, Duration};

fn fill(count: usize, limit: usize) -> Fill {
    Fill { count, limit }
}

// A clock that stands still.
#[derive(Drop)]
struct Stopped;

impl Clock for Stopped {
    fn monotonic(&self) -> io::Result<Duration> {
        Ok(Duration::from_secs(0))
    }

    fn since_1970(&self) -> io::Result<Duration> {
        Ok(Duration::from_millis(1_764_000_000_999))
    }
}

// What each note says, in the order in which they are written below.
const NOTES: [&str; 23] = [
    "[INFO  jcrdt] 2025-11-24T16:00:00Z made a new file a.db",
    "[INFO  jcrdt] 2025-11-24T16:00:00Z took over a\\u{1b}.db-wal",
    "[WARN  jcrdt] 2025-11-24T16:00:00Z a.db-wal held no changes of the file: it was not read",
    "[WARN  jcrdt] 2025-11-24T16:00:00Z a file may have at most 4096 bytes here (ulimit -f): the system ends a server that writes more",
    "[INFO  jcrdt] 2025-11-24T16:00:00Z listening at 127.0.0.1:7001",
    "[INFO  jcrdt] 2025-11-24T16:00:00Z serving as srv-2",
    "[INFO  jcrdt] 2025-11-24T16:00:00Z restored d: 12 of 100000 operations, 3 of 256 replicas",
    "[WARN  jcrdt] 2025-11-24T16:00:00Z d is nearly full: 90000 of 100000 operations",
    "[WARN  jcrdt] 2025-11-24T16:00:00Z d is nearly full: 231 of 256 replicas",
    "[INFO  jcrdt] 2025-11-24T16:00:00Z session 3 of 16 begins, from 127.0.0.1:50123",
    "[WARN  jcrdt] 2025-11-24T16:00:00Z session 4 of 16 has no connection: too many open files",
    "[WARN  jcrdt] 2025-11-24T16:00:00Z 5 of 16 sessions have no thread: memory or the limit of threads is used up",
    "[WARN  jcrdt] 2025-11-24T16:00:00Z the start fails: the disk is full",
    "[WARN  jcrdt] 2025-11-24T16:00:00Z the file failed: the disk is full; it is tried again. Until then changes are in memory only, and behind 4096 of a document they wait",
    "[WARN  jcrdt] 2025-11-24T16:00:00Z the file failed: the disk is full; it is tried again. Until then a session with --durable ends at its next change, which is not answered",
    "[WARN  jcrdt] 2025-11-24T16:00:00Z the file still fails: 17 operations are in memory only",
    "[INFO  jcrdt] 2025-11-24T16:00:00Z the file works again: copying goes on",
    "[INFO  jcrdt] 2025-11-24T16:00:00Z all is in the file",
    "[WARN  jcrdt] 2025-11-24T16:00:00Z copying stopped: the disk is full; what is accepted from now on is in memory only: exchange with a peer before you stop",
    "[WARN  jcrdt] 2025-11-24T16:00:00Z copying stopped: the disk is full; a session with --durable ends at its next change, which is not answered",
    "[WARN  jcrdt] 2025-11-24T16:00:00Z copying pauses: out of memory; it is tried again",
    "[INFO  jcrdt] 2025-11-24T16:00:00Z copying goes on",
    "[INFO  jcrdt] 2025-11-24T16:00:00Z all sessions have ended",
];

// Notes of a start.
fn note_start<R: Log + Clock>(rt: &R) {
    note_made(rt, "a.db");
    note_took_over(rt, "a\u{1b}.db");
    note_log_unread(rt, "a.db");
    note_file_limit(rt, 4096);
    note_listening(rt, &"127.0.0.1:7001");
    note_serving(rt, "srv-2");
    note_restored(rt, "d", fill(12, 100_000), fill(3, 256));
    note_nearly_full(rt, "d", fill(90_000, 100_000), "operations");
    note_nearly_full(rt, "d", fill(231, 256), "replicas");
}

// Notes of sessions.
fn note_sessions<R: Log + Clock>(rt: &R) {
    note_begun(rt, 3, 16, &"127.0.0.1:50123");
    note_unconnected(rt, 4, 16, &"too many open files");
    note_no_thread(rt, 5, 16);
    note_unstarted(rt, &"the disk is full");
    note_failed(rt, &"the disk is full", 4096);
    note_failed_durably(rt, &"the disk is full");
    note_still_failing(rt, 17);
    note_recovered(rt);
    note_all_stored(rt);
    note_stopped(rt, &"the disk is full");
    note_ending(rt, &"the disk is full");
    note_lacking(rt);
    note_going_on(rt);
    note_ended(rt);
}

#[test]
fn notes_have_the_time(rt: HostRuntime) -> Result<(), AllocError> {
    let notes = Logged::new(Stopped, Level::Info, Memory::new(rt.alloc()));
    note_start(&notes);
    note_sessions(&notes);
    let (_clock, sink) = notes.into_parts();
    let lines = sink.into_lines().into_vec();
    assert_eq!(rt; lines.len(), NOTES.len());
    for (line, want) in lines.iter().zip(NOTES.iter()) {
        assert_eq!(rt; line.as_str(), *want);
    }
    Ok(())
}

#[test]
fn control_characters_are_escaped(rt: HostRuntime) -> Result<(), AllocError> {
    let text = "a\u{1b}[2J\n\u{9b}é";
    let line = format!(in rt.alloc(); "{}", Plain(text))?;
    assert_eq!(rt; line.as_str(), "a\\u{1b}[2J\\n\\u{9b}é");
    let lines = format!(in rt.alloc(); "{}", PlainLines(text))?;
    assert_eq!(rt; lines.as_str(), "a\\u{1b}[2J\n\\u{9b}é");
    Ok(())
}

#[test]
fn nearly_full_from_nine_tenths_on(rt: HostRuntime) {
    for (count, limit, is) in [
        (89_999, 100_000, false),
        (90_000, 100_000, true),
        (100_000, 100_000, true),
        (230, 256, false),
        (231, 256, true),
        (0, 256, false),
    ] {
        assert_eq!(rt; fill(count, limit).is_nearly_full(), is);
    }
}

// A clock that gives no time.
#[derive(Drop)]
struct Broken;

impl Clock for Broken {
    fn monotonic(&self) -> io::Result<Duration> {
        Err(io::ErrorKind::Other.into())
    }

    fn since_1970(&self) -> io::Result<Duration> {
        Err(io::ErrorKind::Other.into())
    }
}

#[test]
fn no_note_without_a_time(rt: HostRuntime) -> Result<(), AllocError> {
    let notes = Logged::new(Broken, Level::Info, Memory::new(rt.alloc()));
    note_ended(&notes);
    let (_clock, sink) = notes.into_parts();
    assert_eq!(rt; sink.into_lines().len(), 0);
    Ok(())
}
