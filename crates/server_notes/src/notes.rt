//! Where notes go: to standard error, without waiting for it.
use crate::standard_error::StandardError;
use crate::time_of;
use arrayvec::ArrayString;
use log::kv::Source;
use log::span::Spans;
use log::{Line, Log, Metadata, Record};
use std::fmt::{Display, Write};
use std::sync::atomic::{AtomicBool, AtomicU64, Ordering};
use std::time::Clock;

// The most bytes of a note. With those that report lost ones they are at most 4,096, which a pipe
// takes as a whole or not at all.
const MAX_NOTE_BYTES: usize = 3840;

/// A sink of notes that never waits. What standard error doesn't take at once is lost, and counted:
/// the next note that goes out says before it how many were lost.
#[derive(Drop)]
pub struct Notes<'a, R> {
    clock: &'a R,
    standard_error: &'a StandardError,
    lost: AtomicU64,
    // Whether the last note stopped part way, so that its line has no end.
    is_torn: AtomicBool,
}

impl<'a, R: Clock> Notes<'a, R> {
    /// A sink that has lost none.
    pub fn new(clock: &'a R, standard_error: &'a StandardError) -> Notes<'a, R> {
        Notes {
            clock,
            standard_error,
            lost: AtomicU64::new(0),
            is_torn: AtomicBool::new(false),
        }
    }

    // What goes before a note: the end of a line that stopped part way, and how many were lost.
    fn before(&self, lost: u64) -> ArrayString<256> {
        let mut text = ArrayString::new();
        if self.is_torn.load(Ordering::SeqCst) {
            let _ = text.try_push('\n');
        }
        if lost > 0 {
            if let Some(at) = time_of(self.clock) {
                let _ = writeln!(
                    text,
                    "[WARN  jcrdt] {at} lost {lost} notes, which standard error did not take"
                );
            }
        }
        text
    }

    // Writes a line behind what goes before it. Where that isn't taken whole, the line is lost too.
    fn write(&self, line: &str) {
        let lost = self.lost.swap(0, Ordering::SeqCst);
        let before = self.before(lost);
        let mut text: ArrayString<4096> = ArrayString::new();
        let _ = writeln!(text, "{}{line}", before.as_str());
        let taken = self.standard_error.write(text.as_bytes());
        if taken == text.len() {
            self.is_torn.store(false, Ordering::SeqCst);
            return;
        }
        if taken > 0 {
            self.is_torn.store(true, Ordering::SeqCst);
        }
        self.lost
            .fetch_add(lost.saturating_add(1), Ordering::SeqCst);
    }
}

impl<R: Clock> Log for Notes<'_, R> {
    fn enabled(&self, _metadata: &Metadata<'_>) -> bool {
        true
    }

    fn log<D: Display, K: Source, S: Spans>(&self, record: &Record<'_, D, K, S>) {
        let mut line: ArrayString<MAX_NOTE_BYTES> = ArrayString::new();
        // One that is too long ends where the next part of it no longer fits.
        let _ = write!(line, "{}", Line::new(record));
        self.write(line.as_str());
    }

    fn flush(&self) {}

    fn target(&self) -> &str {
        ""
    }
}
