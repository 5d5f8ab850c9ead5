//! One place where replies are compared: each place of its own would be proved again, for all that
//! is dropped there.
use std::fmt::Display;
use std::process::Abort;
use std::str;

// The line that begins at this byte.
fn line_from(text: &[u8], start: usize) -> Option<&str> {
    let line = text.get(start..)?.split(|byte| *byte == b'\n').next()?;
    str::from_utf8(line).ok()
}

// Where the first line begins that differs.
fn first_difference(replies: &[u8], expected: &[u8]) -> usize {
    let mut start: usize = 0;
    for (place, (reply, byte)) in replies.iter().zip(expected.iter()).enumerate() {
        if *reply != *byte {
            return start;
        }
        if *reply == b'\n' {
            start = place.saturating_add(1);
        }
    }
    start
}

/// Stops unless this holds, saying in which case.
pub fn holds<R: Abort>(rt: &R, is: bool, case: &str) {
    assert!(rt; is, "{case}");
}

/// Stops unless these are a session's replies, saying in which case, and which line came in place
/// of which.
pub fn replies_are<R: Abort, C: Display>(rt: &R, case: &C, replies: &[u8], expected: &[u8]) {
    let start = first_difference(replies, expected);
    assert!(rt;
        replies == expected,
        "{case}: {:?} in place of {:?}, at byte {start}",
        line_from(replies, start),
        line_from(expected, start)
    );
}
