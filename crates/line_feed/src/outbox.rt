//! A sink that writes in larger pieces.
ghost use Rattle.std.specs.Prelude.{◌≡◌, ◌≤◌, ◌<◌, ◌++◌, [], false, length, drop, slice_range};
ghost use Rattle.std.specs.Prelude.{is_err, if◌then◌else◌};
ghost use Rattle.std.specs.Prelude.{OnOk, OnErr};
ghost use Rattle.std.specs.Io.KnownBytes.{Appends};
ghost use Rattle.std.specs.Option.{option_map};
ghost use Rattle.line_feed.specs.Covered.{StaysCovered};

use crate::DeviceFault;
use crate::sink::Sink;
use std::alloc::Global;

// Bytes for which an outbox has room.
const OUTBOX_ROOM: usize = 16_384;

/// A buffered sink over another one: it buffers what it takes, as far as it has room, until it is
/// flushed. Bytes for which it has no room are written at once, after those that it has buffered.
#[derive(Drop)]
pub struct Outbox<W> {
    sink: W,
    buffer: Vec<u8>,
    // how many of the buffered bytes the inner sink has taken
    sent: usize,
    ghost within: { sent ≤ length buffer.items },
}

impl<W: Sink> Outbox<W> {
    /// An empty outbox over the sink. If there is no memory for its 16 KB,
    /// it writes at once what it takes.
    pub fn new(alloc: Global, sink: W) -> Self
        ensures sink { result.sink ≡ sink }
        ensures empty { drop result.sent result.buffer.items ≡ [] }
    {
        let buffer = match Vec::with_capacity(alloc, OUTBOX_ROOM) {
            Ok(room) => room,
            Err(_) => Vec::new(alloc),
        };
        Outbox {
            sink,
            buffer,
            sent: 0,
        }
    }
}

// Writes the bytes after the first `sent`, and adds to `sent` what the sink takes.
fn send<W: Sink>(sink: &mut W, bytes: &[u8], sent: &mut usize) -> Result<(), DeviceFault>
    requires works { W.has_failed sink.old ≡ false }
    requires within { sent.old ≤ length bytes.now }
    ensures from { sent.old ≤ sent.new }
    ensures to { sent.new ≤ length bytes.now }
    ensures bytes { Appends (W.contents sink.old) (W.contents sink.new) (slice_range bytes.now sent.old sent.new) }
    ensures all { OnOk result (sent.new ≡ length bytes.now) }
    ensures part { OnErr result (sent.new < length bytes.now) }
    ensures covered { StaysCovered (W.covers sink.old) (W.covers sink.new) }
    ensures failed { W.has_failed sink.new ≡ is_err result }
{
    while *sent < bytes.len() {
        *sent += sink.write_some(&bytes[*sent..])?;
    }
    Ok(())
}

impl<W: Sink> Outbox<W> {
    // Buffers the bytes if there is room for them all, and returns whether there was.
    fn keep(&mut self, bytes: &[u8]) -> bool
        ensures sink { self.new.sink ≡ self.old.sink }
        ensures sent { self.new.sent ≡ self.old.sent }
        ensures buffer { self.new.buffer.items
            ≡ (if result then self.old.buffer.items ++ bytes.now else self.old.buffer.items) }
    {
        if bytes.len() > self.buffer.capacity() - self.buffer.len() {
            return false;
        }
        self.buffer.extend_from_slice(bytes).unwrap();
        true
    }

    // Has the inner sink take all that is buffered.
    fn send_buffer(&mut self) -> Result<(), DeviceFault>
        requires works { W.has_failed self.old.sink ≡ false }
        ensures ok { OnOk result ((self.new.buffer.items ≡ []) × (self.new.sent ≡ 0)
            × Appends (W.contents self.old.sink) (W.contents self.new.sink) (drop self.old.sent self.old.buffer.items)) }
        ensures err { OnErr result ((self.new.buffer.items ≡ self.old.buffer.items)
            × (self.old.sent ≤ self.new.sent) × (self.new.sent < length self.old.buffer.items)
            × Appends (W.contents self.old.sink) (W.contents self.new.sink)
            (slice_range self.old.buffer.items self.old.sent self.new.sent)) }
        ensures covered { StaysCovered (W.covers self.old.sink) (W.covers self.new.sink) }
        ensures failed { W.has_failed self.new.sink ≡ is_err result }
    {
        send(&mut self.sink, self.buffer.as_slice(), &mut self.sent)?;
        self.buffer.clear();
        self.sent = 0;
        Ok(())
    }
}

impl<W: Sink> Sink for Outbox<W> {
    ghost contents = { λ s. option_map
        (λ taken. taken ++ drop s.sent s.buffer.items) (W.contents s.sink) };

    ghost has_failed = { λ s. W.has_failed s.sink };

    ghost unflushed = { λ s. W.unflushed s.sink ++ drop s.sent s.buffer.items };

    ghost covers = { λ s. W.covers s.sink };

    ghost covers_none = { λ s. W.covers_none s.sink };

    fn owe(&mut self, document: usize, count: u64) {
        self.sink.owe(document, count);
    }

    fn write_some(&mut self, bytes: &[u8]) -> Result<usize, DeviceFault> {
        if self.keep(bytes) {
            return Ok(bytes.len());
        }
        self.send_buffer()?;
        self.sink.write_some(bytes)
    }

    fn flush(&mut self) -> Result<(), DeviceFault> {
        match self.send_buffer() {
            Ok(()) => self.sink.flush(),
            Err(fault) => {
                // At least the last byte counts as not taken.
                let _lost = self.buffer.pop();
                Err(fault)
            }
        }
    }

    fn failed(&self) -> bool {
        Sink::failed(&self.sink)
    }
}
