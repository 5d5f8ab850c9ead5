//! A reader of std whose reads are counted.
ghost use Rattle.std.specs.Prelude.{◌≡◌, ◌+◌, ◌≤◌};
ghost use Rattle.std.specs.Io.{ReadsAtMost};
ghost use Rattle.std.specs.Io.KnownBytes.{ReadConsumes};

use std::io;
use std::io::Read;

// Only `read` reads it, so who calls that once has read it once.
#[derive(Debug, Drop)]
pub(crate) struct Counted<R> {
    reader: R,
    // at most `u64::MAX`
    reads: u64,
}

impl<R: Read> Counted<R> {
    // A reader that hasn't been read.
    pub(crate) fn new(reader: R) -> Self
        ensures reader { result.reader ≡ reader }
        ensures unread { result.reads ≡ 0 }
    {
        Counted { reader, reads: 0 }
    }

    // One read.
    pub(crate) fn read(&mut self, buf: &mut [u8]) -> io::Result<usize>
        ensures bound { ReadsAtMost result buf.new }
        ensures bytes { ReadConsumes (R.remaining self.old.reader) (R.remaining self.new.reader) result buf.new }
        ensures once { self.new.reads ≤ self.old.reads + 1 }
    {
        self.reads = self.reads.saturating_add(1);
        self.reader.read(buf)
    }
}
