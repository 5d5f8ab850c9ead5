//! The beginning of a write-ahead log in SQLite's format. No clause says anything of it.
ghost use Rattle.std.specs.Prelude.{◌≤◌};

use std::io::{self, Read};

// The bytes of a log's header, and of the header of the first page in it.
const HEADERS: usize = 32 + 24;

// What a log begins with whose checksums are of big-endian numbers. Others begin with one less.
const BIG_ENDIAN: u32 = 0x377f_0683;

// The number of four bytes from here on.
fn number_at(bytes: &[u8; HEADERS], at: usize, is_big: bool) -> u32
    requires { at ≤ 52 }
{
    let four = [bytes[at], bytes[at + 1], bytes[at + 2], bytes[at + 3]];
    if is_big {
        u32::from_be_bytes(four)
    } else {
        u32::from_le_bytes(four)
    }
}

// The two checksums of the first 24 bytes, which the log's header has behind them.
fn checksums(bytes: &[u8; HEADERS], is_big: bool) -> (u32, u32) {
    let mut first: u32 = 0;
    let mut second: u32 = 0;
    for pair in 0..3 {
        first = first
            .wrapping_add(number_at(bytes, 8 * pair, is_big))
            .wrapping_add(second);
        second = second
            .wrapping_add(number_at(bytes, 8 * pair + 4, is_big))
            .wrapping_add(first);
    }
    (first, second)
}

// Whether these bytes begin with a log's header.
fn is_header(bytes: &[u8; HEADERS]) -> bool {
    let beginning = number_at(bytes, 0, true);
    if beginning != BIG_ENDIAN && beginning != BIG_ENDIAN - 1 {
        return false;
    }
    let stored = (number_at(bytes, 24, true), number_at(bytes, 28, true));
    checksums(bytes, beginning == BIG_ENDIAN) == stored
}

// Whether the first page has the two numbers of the header, which is anew each time that a log
// begins again. One of before is not read.
fn is_of_header(bytes: &[u8; HEADERS]) -> bool {
    number_at(bytes, 16, true) == number_at(bytes, 40, true)
        && number_at(bytes, 20, true) == number_at(bytes, 44, true)
}

/// Whether the log begins with a page that a start reads. It fails where the log ends before that.
pub(crate) fn has_page<R: Read>(log: &mut R) -> io::Result<bool> {
    let mut bytes = [0; HEADERS];
    log.read_exact(&mut bytes)?;
    Ok(is_header(&bytes) && is_of_header(&bytes))
}
