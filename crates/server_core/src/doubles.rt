//! Connections for tests.
ghost use Rattle.std.specs.Prelude.{◌≡◌, ◌<◌, None, Some};
ghost use Rattle.server_core.specs.Attended.{Bytes};

use crate::sessions::{Connect, Deadline};
use line_feed::doubles::FailAfter;
use line_feed::{DeviceFault, Reader, Sink};
use std::sync::{Mutex, Wait};

/// A sink that keeps its bytes behind a lock, for tests to read after the session.
#[derive(Drop)]
pub struct Kept<'a, R: Wait> {
    rt: &'a R,
    bytes: &'a Mutex<Vec<u8>>,
    failed: bool,
}

impl<R: Wait> Sink for Kept<'_, R> {
    ghost contents = { λ s. None };

    ghost has_failed = { λ s. s.failed };

    ghost covers_none = { λ _ _. tt };

    fn owe(&mut self, _document: usize, _count: u64) {}

    fn write_some(&mut self, bytes: &[u8]) -> Result<usize, DeviceFault> {
        let mut kept = self.bytes.lock(self.rt);
        let grown = kept.extend_from_slice(bytes);
        // `self` is changed next.
        drop(kept);
        if grown.is_err() {
            self.failed = true;
            return Err(DeviceFault);
        }
        Ok(bytes.len())
    }

    fn flush(&mut self) -> Result<(), DeviceFault> {
        Ok(())
    }

    fn failed(&self) -> bool {
        self.failed
    }
}

/// A connection over bytes in memory, for tests.
#[derive(Drop)]
pub struct Script<'a, R: Wait> {
    /// Waits for locks.
    pub rt: &'a R,
    /// The lines of the session.
    pub input: &'a [u8],
    /// Where its replies go.
    pub replies: &'a Mutex<Vec<u8>>,
    /// After so many bytes the source fails.
    pub read_after: usize,
    /// After so many bytes the sink fails.
    pub write_after: usize,
    /// Whether it can be opened.
    pub opens: bool,
    /// How many more sessions of the same lines follow on its thread.
    pub again: u32,
}

impl<'a, R: Wait> Script<'a, R> {
    /// A connection that opens and never fails.
    pub fn new(rt: &'a R, input: &'a [u8], replies: &'a Mutex<Vec<u8>>) -> Script<'a, R> {
        Script {
            rt,
            input,
            replies,
            read_after: usize::MAX,
            write_after: usize::MAX,
            opens: true,
            again: 0,
        }
    }
}

/// A deadline that never passes.
#[derive(Drop)]
pub struct Never;

impl Deadline for Never {
    fn has_passed(&self) -> bool {
        false
    }
}

impl<'a, R: Wait + Sync> Connect for Script<'a, R> {
    type Deadline = Never;

    type Source = FailAfter<Reader<&'a [u8]>>;

    type Sink = FailAfter<Kept<'a, R>>;

    ghost bytes = { λ s. let known : Bytes = record { source = Some s.input.now; sink = None } in
        known };

    ghost follows = { λ a b. (0 < a.again) × (b.input.now ≡ a.input.now) };

    fn open(&self) -> Result<(FailAfter<Reader<&'a [u8]>>, FailAfter<Kept<'a, R>>), DeviceFault> {
        if !self.opens {
            return Err(DeviceFault);
        }
        let source = FailAfter::new(Reader::new(self.input), self.read_after);
        let kept = Kept {
            rt: self.rt,
            bytes: self.replies,
            failed: false,
        };
        Ok((source, FailAfter::new(kept, self.write_after)))
    }

    fn deadline(&self) -> Never {
        Never
    }

    fn next(self) -> Option<Self> {
        if self.again == 0 {
            return None;
        }
        let Script {
            rt,
            input,
            replies,
            read_after,
            write_after,
            opens,
            again,
        } = self;
        Some(Script {
            rt,
            input,
            replies,
            read_after,
            write_after,
            opens,
            again: again - 1,
        })
    }
}
