//! Tests of lines from a source in pieces, of devices that fail, and of what an outbox flushes.
//! The helpers are generic over the device and ensure nothing, so that the proof of a test
//! carries none of a device's clauses.
ghost use Rattle.std.specs.Prelude.{◌≡◌, false};

use line_feed::doubles::{FailAfter, InPieces};
use line_feed::{DeviceFault, LineFeed, Outbox, Outcome, Reader, Sink, Source, Writer, write_all};
use std::alloc::{AllocError, Global};
use std::io;
use std::io::{BufWriter, ErrorKind, Read, Write};
use std::test::Fail;

// ---- sources

// Whether a read of the source fails, and `failed` says so.
fn fails_to_read<R: Source>(source: &mut R) -> bool
    requires { R.has_failed source.old ≡ false }
{
    source.read_some(&mut [0; 4]).is_err() && source.failed()
}

// The first lines of a source, a bar after each, and the outcome after them.
fn lines_of<R: Source>(alloc: Global, source: &mut R) -> Result<(Vec<u8>, Outcome), AllocError>
    requires { R.has_failed source.old ≡ false }
{
    let mut feed = LineFeed::new(alloc)?;
    let mut lines = Vec::new(alloc);
    for _ in 0..4 {
        if source.failed() {
            break;
        }
        let outcome = feed.next(source);
        if outcome != Outcome::Line {
            return Ok((lines, outcome));
        }
        lines.extend_from_slice(feed.line())?;
        lines.push(b'|')?;
    }
    Ok((lines, Outcome::Line))
}

// Whether these are the lines of the source, and this is the outcome after them.
fn gives<R: Source>(
    alloc: Global,
    source: &mut R,
    expected: &[u8],
    end: Outcome,
) -> Result<bool, AllocError>
    requires { R.has_failed source.old ≡ false }
{
    let (lines, outcome) = lines_of(alloc, source)?;
    Ok(*lines.as_slice() == *expected && outcome == end)
}

#[test]
fn reads_as_much_as_there_is(rt: HostRuntime) -> Result<(), Fail> {
    let mut source = InPieces::new(Reader::new(b"a\nb\nc".as_slice()), 64);
    assert!(rt; gives(rt.alloc(), &mut source, b"a|b|c|", Outcome::End)?);
    assert_eq!(rt; source.reads, 2);
    Ok(())
}

#[test]
fn a_source_that_fails_within_a_line_gives_a_fault(rt: HostRuntime) -> Result<(), Fail> {
    let mut source = FailAfter::new(Reader::new(b"ab\ncd\n".as_slice()), 4);
    assert!(rt; gives(rt.alloc(), &mut source, b"ab|", Outcome::Fault)?);
    assert!(rt; source.failed());
    Ok(())
}

// A reader that counts its calls, and gives one byte a call.
#[derive(Drop)]
struct OneByOne {
    calls: u8,
}

impl Read for OneByOne {
    fn read(&mut self, buf: &mut [u8]) -> io::Result<usize> {
        self.calls = self.calls.saturating_add(1);
        if buf.is_empty() {
            return Ok(0);
        }
        buf[0] = b'a';
        Ok(1)
    }
}

// How many bytes one read of the source gives. None if it fails.
fn read_once<R: Source>(source: &mut R) -> Option<usize>
    requires { R.has_failed source.old ≡ false }
{
    source.read_some(&mut [0; 4]).ok()
}

#[test]
fn a_source_reads_its_reader_once_a_call(rt: HostRuntime) {
    let mut device = OneByOne { calls: 0 };
    assert_eq!(rt; read_once(&mut Reader::new(&mut device)), Some(1));
    assert_eq!(rt; device.calls, 1);
}

// ---- sinks

// Whether writing the bytes to the sink fails, and `failed` says so.
fn fails_to_write<W: Sink>(sink: &mut W, bytes: &[u8]) -> bool
    requires { W.has_failed sink.old ≡ false }
{
    write_all(sink, bytes).is_err() && sink.failed()
}

#[test]
fn a_sink_that_fails_within_the_bytes_has_their_prefix(rt: HostRuntime) {
    let mut out = Vec::<u8>::new(rt.alloc());
    assert!(rt; fails_to_write(&mut FailAfter::new(Writer::new(&mut out), 3), b"abcd"));
    assert!(rt; out.as_slice() == b"abc".as_slice());
}

// A reader and writer that a signal interrupts at the first call.
#[derive(Drop)]
struct Interrupted {
    calls: u8,
}

impl Read for Interrupted {
    fn read(&mut self, _buf: &mut [u8]) -> io::Result<usize> {
        self.calls = self.calls.saturating_add(1);
        if self.calls == 1 {
            Err(io::Error::from(ErrorKind::Interrupted))
        } else {
            Ok(0)
        }
    }
}

impl Write for Interrupted {
    fn write(&mut self, _buf: &[u8]) -> io::Result<usize> {
        self.calls = self.calls.saturating_add(1);
        if self.calls == 1 {
            Err(io::Error::from(ErrorKind::Interrupted))
        } else {
            Ok(0)
        }
    }

    fn flush(&mut self) -> io::Result<()> {
        Ok(())
    }
}

#[test]
fn an_interrupted_call_is_a_failure(rt: HostRuntime) {
    assert!(rt; fails_to_read(&mut Reader::new(Interrupted { calls: 0 })));
    assert!(rt; fails_to_write(&mut Writer::new(Interrupted { calls: 0 }), b"a"));
}

#[test]
fn a_write_of_no_bytes_is_a_failure(rt: HostRuntime) {
    assert!(rt; fails_to_write(&mut Writer::new(Interrupted { calls: 1 }), b"a"));
}

// Whether the bytes are taken and flushed.
fn flushes<W: Sink>(sink: &mut W, bytes: &[u8]) -> bool
    requires { W.has_failed sink.old ≡ false }
{
    write_all(sink, bytes).is_ok() && sink.flush().is_ok()
}

#[test]
fn a_flush_goes_through_a_buffered_writer(rt: HostRuntime) -> Result<(), Fail> {
    let mut buffered = BufWriter::new(rt.alloc(), Vec::<u8>::new(rt.alloc()))?;
    assert!(rt; flushes(&mut Writer::new(&mut buffered), b"reply\n"));
    assert!(rt; buffered.get_ref().as_slice() == b"reply\n".as_slice());
    Ok(())
}

// A writer that takes all and can't be flushed.
#[derive(Drop)]
struct Clogged;

impl Write for Clogged {
    fn write(&mut self, buf: &[u8]) -> io::Result<usize> {
        Ok(buf.len())
    }

    fn flush(&mut self) -> io::Result<()> {
        Err(io::Error::from(ErrorKind::BrokenPipe))
    }
}

// Whether only the flush fails, and `failed` says so.
fn fails_to_flush<W: Sink>(sink: &mut W, bytes: &[u8]) -> bool
    requires { W.has_failed sink.old ≡ false }
{
    write_all(sink, bytes).is_ok() && sink.flush().is_err() && sink.failed()
}

#[test]
fn a_flush_that_fails_is_a_failure(rt: HostRuntime) {
    assert!(rt; fails_to_flush(&mut Writer::new(Clogged), b"a"));
    assert!(rt; fails_to_flush(&mut Outbox::new(rt.alloc(), Writer::new(Clogged)), b"a"));
}

// ---- an outbox

// Three short lines through an outbox, which is flushed then.
fn three_lines<W: Sink + Drop>(alloc: Global, sink: W) -> Result<(), DeviceFault>
    requires { W.has_failed sink ≡ false }
{
    let mut outbox = Outbox::new(alloc, sink);
    write_all(&mut outbox, b"ab\n")?;
    write_all(&mut outbox, b"cd\n")?;
    write_all(&mut outbox, b"ef\n")?;
    outbox.flush()
}

// Writes the bytes to an outbox.
fn write_through<W: Sink + Drop>(alloc: Global, sink: W, bytes: &[u8]) -> Result<(), DeviceFault>
    requires { W.has_failed sink ≡ false }
{
    write_all(&mut Outbox::new(alloc, sink), bytes)
}

// A writer that counts its calls.
#[derive(Drop)]
struct Counted {
    calls: u8,
    bytes: Vec<u8>,
}

impl Write for Counted {
    fn write(&mut self, buf: &[u8]) -> io::Result<usize> {
        self.calls = self.calls.saturating_add(1);
        self.bytes.write(buf)
    }

    fn flush(&mut self) -> io::Result<()> {
        Ok(())
    }
}

#[test]
fn an_outbox_flushes_with_one_write(rt: HostRuntime) {
    let mut device = Counted {
        calls: 0,
        bytes: Vec::new(rt.alloc()),
    };
    let flushed = three_lines(rt.alloc(), Writer::new(&mut device));
    assert!(rt; flushed.is_ok() && device.calls == 1);
    assert!(rt; device.bytes.as_slice() == b"ab\ncd\nef\n".as_slice());
}

#[test]
fn an_outbox_flushes_the_writer_below_it(rt: HostRuntime) -> Result<(), Fail> {
    let mut buffered = BufWriter::new(rt.alloc(), Vec::<u8>::new(rt.alloc()))?;
    assert!(rt; three_lines(rt.alloc(), Writer::new(&mut buffered)).is_ok());
    assert!(rt; buffered.get_ref().as_slice() == b"ab\ncd\nef\n".as_slice());
    Ok(())
}

#[test]
fn an_outbox_over_a_sink_that_fails_has_written_a_prefix(rt: HostRuntime) {
    let mut out = Vec::<u8>::new(rt.alloc());
    let flushed = three_lines(rt.alloc(), FailAfter::new(Writer::new(&mut out), 4));
    assert!(rt; flushed.is_err() && out.as_slice() == b"ab\nc".as_slice());
}

#[test]
fn an_outbox_writes_at_once_what_it_has_no_room_for(rt: HostRuntime) -> Result<(), Fail> {
    let long = vec![in rt.alloc(); b'x'; 20_000]?;
    let mut out = Vec::<u8>::new(rt.alloc());
    let written = write_through(rt.alloc(), Writer::new(&mut out), long.as_slice());
    assert!(rt; written.is_ok() && *out.as_slice() == *long.as_slice());
    Ok(())
}
