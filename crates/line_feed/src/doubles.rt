//! Devices for tests: some fail after a number of bytes, some give or take few bytes at once.
ghost use Rattle.std.specs.Prelude.{◌≡◌, ◌<◌, ◌||◌, ◌+◌, ℕ, true, false};

use crate::DeviceFault;
use crate::sink::Sink;
use crate::source::Source;

/// A source or a sink over another one that fails once so many bytes have passed.
#[derive(Debug, Drop)]
pub struct FailAfter<D> {
    /// What the bytes are read from or written to.
    pub device: D,
    left: usize,
    failed: bool,
}

impl<D> FailAfter<D> {
    /// Lets `after` bytes pass, and fails at the call that asks for more.
    pub fn new(device: D, after: usize) -> Self
        ensures device { result.device ≡ device }
        ensures left { result.left ≡ after }
        ensures works { result.failed ≡ false }
    {
        FailAfter {
            device,
            left: after,
            failed: false,
        }
    }
}

impl<R: Source> Source for FailAfter<R> {
    ghost remaining = { λ s. R.remaining s.device };

    ghost has_failed = { λ s. s.failed || R.has_failed s.device };

    ghost reads = { λ s. R.reads s.device };

    fn read_some(&mut self, buf: &mut [u8]) -> Result<usize, DeviceFault> {
        let room = buf.len().min(self.left);
        if room == 0 {
            self.failed = true;
            return Err(DeviceFault);
        }
        let n = self.device.read_some(&mut buf[..room])?;
        self.left -= n;
        Ok(n)
    }

    fn failed(&self) -> bool {
        self.failed || Source::failed(&self.device)
    }
}

impl<W: Sink> Sink for FailAfter<W> {
    ghost contents = { λ s. W.contents s.device };

    ghost has_failed = { λ s. s.failed || W.has_failed s.device };

    ghost unflushed = { λ s. W.unflushed s.device };

    ghost covers = { λ s. W.covers s.device };

    ghost covers_none = { λ s. W.covers_none s.device };

    fn owe(&mut self, document: usize, count: u64) {
        self.device.owe(document, count);
    }

    fn write_some(&mut self, bytes: &[u8]) -> Result<usize, DeviceFault> {
        let room = bytes.len().min(self.left);
        if room == 0 {
            self.failed = true;
            return Err(DeviceFault);
        }
        let n = self.device.write_some(&bytes[..room])?;
        self.left -= n;
        Ok(n)
    }

    fn flush(&mut self) -> Result<(), DeviceFault> {
        self.device.flush()
    }

    fn failed(&self) -> bool {
        self.failed || Sink::failed(&self.device)
    }
}

/// A source or a sink over another one that gives or takes at most so many bytes
/// at once, and counts its reads.
#[derive(Debug, Drop)]
pub struct InPieces<D> {
    /// What the bytes are read from or written to.
    pub device: D,
    /// How often it was read, at most `u64::MAX`.
    pub reads: u64,
    most: usize,
    ghost some: { 0 < most },
}

impl<D> InPieces<D> {
    /// Lets at most `most` bytes pass in a call, and hasn't been read.
    pub fn new(device: D, most: usize) -> Self
        requires { 0 < most }
        ensures device { result.device ≡ device }
        ensures most { result.most ≡ most }
        ensures unread { result.reads ≡ 0 }
    {
        InPieces {
            device,
            reads: 0,
            most,
        }
    }
}

impl<R: Source> Source for InPieces<R> {
    ghost remaining = { λ s. R.remaining s.device };

    ghost has_failed = { λ s. R.has_failed s.device };

    ghost reads = { λ s. s.reads };

    fn read_some(&mut self, buf: &mut [u8]) -> Result<usize, DeviceFault> {
        self.reads = self.reads.saturating_add(1);
        let room = buf.len().min(self.most);
        self.device.read_some(&mut buf[..room])
    }

    fn failed(&self) -> bool {
        Source::failed(&self.device)
    }
}

impl<W: Sink> Sink for InPieces<W> {
    ghost contents = { λ s. W.contents s.device };

    ghost has_failed = { λ s. W.has_failed s.device };

    ghost unflushed = { λ s. W.unflushed s.device };

    ghost covers = { λ s. W.covers s.device };

    ghost covers_none = { λ s. W.covers_none s.device };

    fn owe(&mut self, document: usize, count: u64) {
        self.device.owe(document, count);
    }

    fn write_some(&mut self, bytes: &[u8]) -> Result<usize, DeviceFault> {
        let room = bytes.len().min(self.most);
        self.device.write_some(&bytes[..room])
    }

    fn flush(&mut self) -> Result<(), DeviceFault> {
        self.device.flush()
    }

    fn failed(&self) -> bool {
        Sink::failed(&self.device)
    }
}
