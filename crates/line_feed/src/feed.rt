//! The lines of a source, one at a time.
ghost use Rattle.std.specs.Prelude.{◌≡◌, ◌≢◌, ◌-◌, ℕ, Bool, true, false, List, [], ◌++◌, ◌+◌, ◌<◌};
ghost use Rattle.std.specs.Prelude.{◌≤◌, ◌↔◌, length};
ghost use Rattle.std.specs.Prelude.{take, IsTrue, IfOk, MatchResult, is_err, position, slice_range};
ghost use Rattle.std.specs.Prelude.{vec_len};
ghost use Rattle.std.specs.List.{list_any};
ghost use Rattle.std.specs.Io.KnownBytes.{Consumes, IsAtEnd, Keeps};
ghost use Rattle.line_feed.specs.Lines.{is_newline, HasNoNewline};
ghost use Rattle.line_feed.specs.Feed.{Advances, Gives, IsFirstNewline, Stops};
ghost use Rattle.line_feed.specs.Limits.{line_room, longest_line};

use crate::DeviceFault;
use crate::source::Source;
use memchr::memchr;
use std::alloc::{AllocError, Global};
use std::marker::Model;

/// The most bytes of a line, without its newline.
pub const MAX_LINE_BYTES: usize = 65_536;

/// Room for the longest line and its newline. At most so many reads fill it.
pub const LINE_ROOM: usize = 65_537;

/// The law that these limits are those of the definitions.
pub fn limits_as_defined()
    ensures line { MAX_LINE_BYTES ≡ longest_line }
    ensures room { LINE_ROOM ≡ line_room }
{}

/// What the next line is.
#[derive(Clone, Copy, Debug, PartialEq, Eq)]
pub enum Outcome {
    /// A line, which `line` gives.
    Line,
    /// There is none.
    End,
    /// It has more than `MAX_LINE_BYTES` bytes.
    TooLong,
    /// The source failed before the line's end.
    Fault,
}

// Why reading stopped.
enum Stop {
    // A newline is at this index.
    Newline(usize),
    Full,
    End,
    Fault,
}

// How much of the buffer is filled, and why no more.
struct Filled {
    len: usize,
    stop: Stop,
}

// Where reading stopped at a newline, its index.
fn newline_of(stop: &Stop) -> Option<usize>
    ensures { (bytes : List ℕ) (room : ℕ) → Stops bytes room stop.now
        → IsFirstNewline bytes result }
{
    match stop {
        Stop::Newline(at) => Some(*at),
        Stop::Full => None,
        Stop::End => None,
        Stop::Fault => None,
    }
}

// The index of the first newline byte.
fn newline_at(bytes: &[u8]) -> Option<usize>
    ensures place { result ≡ position is_newline bytes.now }
    ensures first { IsFirstNewline bytes.now result }
{
    memchr(b'\n', bytes)
}

// Moves the bytes from `start` up to `end` to the start of the buffer.
fn move_to_start(buffer: &mut Vec<u8>, start: usize, end: usize)
    requires ordered { start ≤ end }
    requires within { end ≤ length buffer.old.items }
    ensures len { vec_len buffer.new ≡ vec_len buffer.old }
    ensures prefix { take (end - start) buffer.new.items ≡ slice_range buffer.old.items start end }
{
    buffer.copy_within(start..end, 0);
}

// One read into the buffer after its first `len` bytes.
fn read_behind<R: Source>(
    source: &mut R,
    buffer: &mut [u8],
    len: usize,
) -> Result<usize, DeviceFault>
    requires works { R.has_failed source.old ≡ false }
    requires room { len < length buffer.old }
    ensures bound { IfOk result (λ n. len + n ≤ length buffer.new) }
    ensures prefix { take len buffer.new ≡ take len buffer.old }
    ensures bytes { MatchResult result
        (λ n. Consumes (R.remaining source.old) (R.remaining source.new) (slice_range buffer.new len (len + n)))
        (λ _. Keeps (R.remaining source.old) (R.remaining source.new)) }
    ensures at_end { result ≡ Ok 0 → IsAtEnd (R.remaining source.new) }
    ensures failed { R.has_failed source.new ≡ is_err result }
    ensures once { R.reads source.new ≤ R.reads source.old + 1 }
{
    source.read_some(&mut buffer[len..])
}

// Reads after the first `buffered` bytes until a newline comes, the buffer
// is full, or nothing more comes.
fn fill<R: Source>(source: &mut R, buffer: &mut [u8], buffered: usize) -> Filled
    requires works { R.has_failed source.old ≡ false }
    requires within { buffered ≤ length buffer.old }
    requires unended { HasNoNewline (take buffered buffer.old) }

    ensures within { result.len ≤ length buffer.new }
    ensures bytes { (read : List ℕ)
        × Consumes (R.remaining source.old) (R.remaining source.new) read
        × (take result.len buffer.new ≡ take buffered buffer.old ++ read) }
    ensures stop { Stops (take result.len buffer.new) (length buffer.new) result.stop }
    ensures at_end { result.stop ≡ Stop.End → IsAtEnd (R.remaining source.new) }
    ensures failed { IsTrue (R.has_failed source.new) ↔ (result.stop ≡ Stop.Fault) }
    ensures reads { R.reads source.new ≤ R.reads source.old + length buffer.new }
{
    let mut len = buffered;
    while len < buffer.len() {
        match read_behind(source, buffer, len) {
            Err(_) => {
                return Filled {
                    len,
                    stop: Stop::Fault,
                };
            }
            Ok(0) => {
                return Filled {
                    len,
                    stop: Stop::End,
                };
            }
            Ok(n) => {
                let found = newline_at(&buffer[len..len + n]);
                if let Some(at) = found {
                    return Filled {
                        len: len + n,
                        stop: Stop::Newline(len + at),
                    };
                }
                len += n;
            }
        }
    }
    Filled {
        len,
        stop: Stop::Full,
    }
}

/// Cuts the bytes of one source into lines.
#[derive(Drop)]
pub struct LineFeed {
    buffer: Vec<u8>,
    // the line that was returned last
    line_start: usize,
    line_end: usize,
    // what was read after it
    start: usize,
    end: usize,
    // where the first newline is in that
    newline: Option<usize>,
    ended: bool,
}

impl Model for LineFeed {
    ghost use Rattle.std.specs.Prelude.{◌≡◌, ◌-◌, ◌≤◌, true, slice_range, vec_len};
    ghost use Rattle.line_feed.specs.Feed.{Feed, IsFirstNewline, IsSpan};
    ghost use Rattle.line_feed.specs.Limits.{line_room};

    ghost Value = { Feed };

    ghost view = { λ f. record {
      line = slice_range f.buffer.items f.line_start f.line_end;
      buffered = slice_range f.buffer.items f.start f.end;
      ended = f.ended;
    } };

    ghost invariant = { λ f. (vec_len f.buffer ≡ line_room)
        × IsSpan f.line_start f.line_end × IsSpan f.start f.end × (f.ended ≡ true → f.start ≡ f.end)
        × IsFirstNewline (slice_range f.buffer.items f.start f.end) f.newline };
}

impl LineFeed {
    /// Allocates its buffer of 65,537 bytes; no later call allocates.
    /// `AllocError` if there is no memory for it.
    pub fn new(alloc: Global) -> Result<Self, AllocError>
        ensures { IfOk result (λ feed. (feed.buffered ≡ []) × (feed.ended ≡ false)) }
    {
        Ok(LineFeed {
            buffer: vec![in alloc; 0; LINE_ROOM]?,
            line_start: 0,
            line_end: 0,
            start: 0,
            end: 0,
            newline: None,
            ended: false,
        })
    }

    /// The line that `next` found last, without its newline: at most 65,536 bytes. It is empty
    /// before the first, and unspecified after an outcome other than `Line`.
    pub fn line(&self) -> &[u8]
        ensures { result.now ≡ self.now.line }
    {
        &self.buffer[self.line_start..self.line_end]
    }

    /// Whether a whole line is buffered already, so that `next` won't read.
    pub fn has_line(&self) -> bool
        ensures { result ≡ list_any is_newline self.now.buffered }
    {
        self.newline.is_some()
    }

    /// Looks for the next line, with at most 65,537 reads, each of as much as the source gives.
    /// Once the source has come to its end, it isn't read again. A last piece without a newline is
    /// a line too, if it isn't empty.
    ///
    /// - `Line`: there is one, and `line` returns it.
    /// - `End`: the source came to its end with nothing after the last line.
    /// - `TooLong`: the line has more than 65,536 bytes. They stay buffered.
    /// - `Fault`: the source failed before the line's end. What it gave before stays buffered.
    ///
    /// Where there is no line, all that was read and not returned is still buffered (`stays`).
    pub fn next<R: Source>(&mut self, source: &mut R) -> Outcome
        requires works { R.has_failed source.old ≡ false }
        ensures gives { (read : List ℕ)
            × Consumes (R.remaining source.old) (R.remaining source.new) read
            × Gives self.old read result self.new }
        ensures stays { result ≢ Outcome.Line → (read : List ℕ)
            × Consumes (R.remaining source.old) (R.remaining source.new) read
            × (self.new.buffered ≡ self.old.buffered ++ read) }
        ensures buffered { list_any is_newline self.old.buffered ≡ true → result ≡ Outcome.Line }
        ensures stays_ended { self.old.ended ≡ true → result ≡ Outcome.End }
        ensures at_end { (self.old.ended ≡ true → IsAtEnd (R.remaining source.old))
            → self.new.ended ≡ true → IsAtEnd (R.remaining source.new) }
        ensures failed { IsTrue (R.has_failed source.new) ↔ (result ≡ Outcome.Fault) }
        ensures reads { R.reads source.new ≤ R.reads source.old + line_room }
    {
        if self.ended {
            return Outcome::End;
        }
        let stop = self.find_end(source);
        self.give(stop)
    }

    // Where the first buffered line ends. It reads on if no newline is buffered.
    fn find_end<R: Source>(&mut self, source: &mut R) -> Stop
        requires works { R.has_failed source.old ≡ false }
        requires open { self.old.ended ≡ false }
        ensures open { self.new.ended ≡ false }
        ensures bytes { (read : List ℕ)
            × Consumes (R.remaining source.old) (R.remaining source.new) read
            × (self.new.buffered ≡ self.old.buffered ++ read) }
        ensures stop { Stops self.new.buffered line_room result }
        ensures at_end { result ≡ Stop.End → IsAtEnd (R.remaining source.new) }
        ensures failed { IsTrue (R.has_failed source.new) ↔ (result ≡ Stop.Fault) }
        ensures reads { R.reads source.new ≤ R.reads source.old + line_room }
    {
        if let Some(at) = self.newline {
            return Stop::Newline(at);
        }
        move_to_start(&mut self.buffer, self.start, self.end);
        let Filled { len, stop } = fill(source, &mut self.buffer, self.end - self.start);
        self.start = 0;
        self.end = len;
        self.newline = newline_of(&stop);
        stop
    }

    // Takes the line out of what is buffered, and returns the outcome, given why reading stopped.
    fn give(&mut self, stop: Stop) -> Outcome
        requires open { self.old.ended ≡ false }
        requires stops { Stops self.old.buffered line_room stop }
        ensures advances { Advances self.old.buffered result self.new }
        ensures stays { result ≢ Outcome.Line → self.new.buffered ≡ self.old.buffered }
        ensures ended { self.new.ended ≡ true → stop ≡ Stop.End }
        ensures fault { (result ≡ Outcome.Fault) ↔ (stop ≡ Stop.Fault) }
    {
        match stop {
            Stop::Newline(at) => {
                self.line_start = self.start;
                self.line_end = self.start + at;
                self.start = self.line_end + 1;
                self.newline = newline_at(&self.buffer[self.start..self.end]);
                Outcome::Line
            }
            Stop::Full => Outcome::TooLong,
            Stop::End => {
                self.ended = true;
                self.line_start = self.start;
                self.line_end = self.end;
                self.start = self.end;
                self.newline = None;
                if self.line_start == self.line_end {
                    Outcome::End
                } else {
                    Outcome::Line
                }
            }
            Stop::Fault => Outcome::Fault,
        }
    }
}
