//! Sources: devices that give bytes.
ghost use Rattle.std.specs.Prelude.{◌≡◌, ℕ, Bool, false, List, Option, ◌+◌, ◌<◌, ◌≤◌, length};
ghost use Rattle.std.specs.Prelude.{is_err};
ghost use Rattle.std.specs.Io.{ReadsAtMost};
ghost use Rattle.std.specs.Io.KnownBytes.{ReadConsumes};

use crate::DeviceFault;
use crate::counted::Counted;
use std::io::Read;

/// A device that gives bytes.
pub trait Source {
    /// The bytes that it has left, where they are known.
    ghost remaining: { Self → Option (List ℕ) };

    /// Whether it has failed. It isn't read from then on.
    ghost has_failed: { Self → Bool };

    /// How often it was read, for a source that counts.
    ghost reads: { Self → ℕ } = { λ _. 0 };

    /// Puts some bytes at the start of `buf`, and returns how many: 0 only at the end. It calls the
    /// device once, and doesn't try again. `DeviceFault` if that call fails; then no byte is taken
    /// from the device, and the source has failed.
    fn read_some(&mut self, buf: &mut [u8]) -> Result<usize, DeviceFault>
        requires works { has_failed self.old ≡ false }
        requires room { 0 < length buf.old }
        ensures bound { ReadsAtMost result buf.new }
        ensures bytes { ReadConsumes (remaining self.old) (remaining self.new) result buf.new }
        ensures failed { has_failed self.new ≡ is_err result }
        ensures once { reads self.new ≤ reads self.old + 1 };

    /// Whether a call has failed, after which the device isn't read again.
    fn failed(&self) -> bool
        ensures { result ≡ has_failed self.now };
}

/// A source over any reader of std. An interrupted read is a failure.
#[derive(Debug, Drop)]
pub struct Reader<R> {
    reader: Counted<R>,
    failed: bool,
}

impl<R: Read> Reader<R> {
    /// A source of what the reader gives, which hasn't failed.
    pub fn new(reader: R) -> Self
        ensures reader { result.reader.reader ≡ reader }
        ensures works { result.failed ≡ false }
    {
        Reader {
            reader: Counted::new(reader),
            failed: false,
        }
    }
}

impl<R: Read> Source for Reader<R> {
    ghost remaining = { λ s. R.remaining s.reader.reader };

    ghost has_failed = { λ s. s.failed };

    ghost reads = { λ s. s.reader.reads };

    fn read_some(&mut self, buf: &mut [u8]) -> Result<usize, DeviceFault> {
        match self.reader.read(buf) {
            Ok(n) => Ok(n),
            Err(_) => {
                self.failed = true;
                Err(DeviceFault)
            }
        }
    }

    fn failed(&self) -> bool {
        self.failed
    }
}
