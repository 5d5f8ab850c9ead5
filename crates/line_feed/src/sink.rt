//! Sinks: devices that take bytes.
ghost use Rattle.std.specs.Prelude.{◌≡◌, ℕ, Bool, false, List, [], Option, ◌<◌, ◌||◌, length};
ghost use Rattle.std.specs.Prelude.{is_err, if◌then◌else◌};
ghost use Rattle.std.specs.Prelude.{IfOk, OnOk, OnErr};
ghost use Rattle.std.specs.Io.{WritesAtMost};
ghost use Rattle.std.specs.Io.KnownBytes.{Appends, Keeps, WriteAppends};
ghost use Rattle.std.specs.Option.{unwrap_or};
ghost use Rattle.line_feed.specs.Covered.{StaysCovered};
ghost use Rattle.line_feed.specs.Cut.{AppendsCut, LosesLast, taken};

use crate::DeviceFault;
use std::io::Write;

/// A device that takes bytes.
pub trait Sink {
    /// The bytes that it has taken, where they are known.
    ghost contents: { Self → Option (List ℕ) };

    /// Whether it has failed. It isn't written to from then on.
    ghost has_failed: { Self → Bool };

    /// What it has taken and its device may not have yet: nothing after a flush.
    ghost unflushed: { Self → List ℕ } = { λ _. [] };

    /// It lets no byte out before the document of this number has so many operations stored. A sink
    /// that isn't over a stored log need not wait: it covers any.
    ghost covers: { Self → ℕ → ℕ → Type 0 } = { λ _ _ _. Unit {0} };

    /// Waits, before it lets the next byte out, until the document of this number has so many
    /// operations stored. It doesn't call the device.
    fn owe(&mut self, document: usize, count: u64)
        ensures covers { covers self.new document count }
        ensures covered { StaysCovered (covers self.old) (covers self.new) }
        ensures bytes { contents self.new ≡ contents self.old }
        ensures unflushed { unflushed self.new ≡ unflushed self.old }
        ensures failed { has_failed self.new ≡ has_failed self.old };

    /// Takes a prefix of `bytes`, of at least one byte, and returns its length. It calls the device
    /// once, and doesn't try again. `DeviceFault` if that call fails; then the device has taken
    /// none, and the sink has failed.
    fn write_some(&mut self, bytes: &[u8]) -> Result<usize, DeviceFault>
        requires works { has_failed self.old ≡ false }
        requires some { 0 < length bytes.now }
        ensures at_least { IfOk result (λ n. 0 < n) }
        ensures bound { WritesAtMost result bytes.now }
        ensures bytes { WriteAppends (contents self.old) (contents self.new) result bytes.now }
        ensures covered { StaysCovered (covers self.old) (covers self.new) }
        ensures failed { has_failed self.new ≡ is_err result };

    /// Writes to the device what the sink and all below it have not flushed. `DeviceFault` if the
    /// device fails before it has taken all of that; then at least the last byte counts as not
    /// taken, and the sink has failed.
    fn flush(&mut self) -> Result<(), DeviceFault>
        requires works { has_failed self.old ≡ false }
        ensures bytes { OnOk result (Keeps (contents self.old) (contents self.new)) }
        ensures lost { OnErr result (LosesLast (contents self.old) (contents self.new)) }
        ensures empty { OnOk result (unflushed self.new ≡ []) }
        ensures covered { StaysCovered (covers self.old) (covers self.new) }
        ensures failed { has_failed self.new ≡ is_err result };

    /// Whether a call has failed, after which the device isn't written to again.
    fn failed(&self) -> bool
        ensures { result ≡ has_failed self.now };

    /// The law that no operation is waited for where none is owed.
    ghost covers_none: { (sink : Self) (number : ℕ) → covers sink number 0 };
}

/// A sink over any writer of std. A write of 0 bytes and an interrupted write are failures.
#[derive(Debug, Drop)]
pub struct Writer<W> {
    writer: W,
    // it took bytes since it was flushed last
    is_dirty: bool,
    write_failed: bool,
    flush_failed: bool,
}

impl<W: Write> Writer<W> {
    /// A sink that writes to the writer, and hasn't failed.
    pub fn new(writer: W) -> Self
        ensures writer { result.writer ≡ writer }
        ensures flushed { result.is_dirty ≡ false }
        ensures flushes { result.flush_failed ≡ false }
        ensures works { (result.write_failed || result.flush_failed) ≡ false }
    {
        Writer {
            writer,
            is_dirty: false,
            write_failed: false,
            flush_failed: false,
        }
    }

    /// The writer, with what it has taken.
    pub fn into_inner(self) -> W
        ensures writer { result ≡ self.writer }
        // Where no call has failed, it has all that counts as taken.
        ensures bytes { (self.write_failed || self.flush_failed) ≡ false
            → Keeps (taken (W.contents self.writer) self.is_dirty self.flush_failed) (W.contents result) }
    {
        let Writer { writer, .. } = self;
        writer
    }
}

impl<W: Write> Sink for Writer<W> {
    ghost contents = { λ s. taken (W.contents s.writer) s.is_dirty s.flush_failed };

    ghost has_failed = { λ s. s.write_failed || s.flush_failed };

    ghost unflushed = { λ s. if s.is_dirty then unwrap_or (W.contents s.writer) [] else [] };

    ghost covers_none = { λ _ _. tt };

    // Nothing here is stored.
    fn owe(&mut self, _document: usize, _count: u64) {}

    fn write_some(&mut self, bytes: &[u8]) -> Result<usize, DeviceFault> {
        match self.writer.write(bytes) {
            Ok(n) if n > 0 => {
                self.is_dirty = true;
                Ok(n)
            }
            _ => {
                self.write_failed = true;
                Err(DeviceFault)
            }
        }
    }

    fn flush(&mut self) -> Result<(), DeviceFault> {
        if self.is_dirty && self.writer.flush().is_err() {
            self.flush_failed = true;
            return Err(DeviceFault);
        }
        self.is_dirty = false;
        Ok(())
    }

    fn failed(&self) -> bool {
        self.write_failed || self.flush_failed
    }
}

/// Writes all the bytes, in as many calls of the device as it needs. `DeviceFault` if the sink
/// fails before it has taken them all; then it has taken a proper prefix of them.
pub fn write_all<W: Sink>(sink: &mut W, bytes: &[u8]) -> Result<(), DeviceFault>
    requires { W.has_failed sink.old ≡ false }
    ensures ok { OnOk result (Appends (W.contents sink.old) (W.contents sink.new) bytes.now) }
    ensures cut { OnErr result (AppendsCut (W.contents sink.old) (W.contents sink.new) bytes.now) }
    ensures covered { StaysCovered (W.covers sink.old) (W.covers sink.new) }
    ensures failed { W.has_failed sink.new ≡ is_err result }
{
    let mut rest = bytes;
    while !rest.is_empty() {
        let taken = sink.write_some(rest)?;
        rest = &rest[taken..];
    }
    Ok(())
}
