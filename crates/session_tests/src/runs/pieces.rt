//! The shopping list by devices that take pieces, and that fail or end after each byte.
ghost use Rattle.std.specs.Prelude.{◌<◌};

use super::{Run, run_of, writes};
use crate::checks::holds;
use crate::shopping::{SHOPPED, SHOPPING};
use std::alloc::{AllocError, Global};
use std::process::Abort;

// The first bytes of a text, so many of them.
fn prefix(text: &[u8], count: usize) -> &[u8] {
    text.get(..count).unwrap_or(text)
}

// The first lines of a text, so many of them.
fn first_lines(text: &[u8], count: usize) -> &[u8] {
    let mut ended: usize = 0;
    for (place, byte) in text.iter().enumerate() {
        if ended == count {
            return prefix(text, place);
        }
        if *byte == b'\n' {
            ended = ended.saturating_add(1);
        }
    }
    text
}

// How many lines of a text have ended.
fn lines_ended(text: &[u8]) -> usize {
    text.iter().filter(|byte| **byte == b'\n').count()
}

// What the shopping list's input gives where it ends after so many bytes: each whole line has its
// reply, with its newline or without, and a line that was cut is no JSON.
fn shopped_after(alloc: Global, after: usize) -> Result<Vec<u8>, AllocError> {
    let read = prefix(SHOPPING.as_bytes(), after);
    let ended = lines_ended(read);
    let is_between = matches!(read.last(), None | Some(b'\n'));
    let is_whole = SHOPPING.as_bytes().get(after) == Some(&b'\n');
    let (replies, refusal): (usize, &[u8]) = if is_between {
        (ended, b"")
    } else if is_whole {
        (ended.saturating_add(1), b"")
    } else {
        (ended, b"[\"no\",1,\"not-json\"]\n")
    };
    [first_lines(SHOPPED.as_bytes(), replies), refusal].concat(alloc)
}

fn input_cut_after<R: Abort>(rt: &R, alloc: Global, after: usize) -> Result<(), AllocError> {
    let due = shopped_after(alloc, after)?;
    let run = run_of(prefix(SHOPPING.as_bytes(), after));
    let name = "input_cut_after_every_byte";
    writes(rt, alloc, name, run, 0, due.as_slice());
    Ok(())
}

fn output_cut_after<R: Abort>(rt: &R, alloc: Global, after: usize) {
    let run = Run {
        write_after: after,
        ..run_of(SHOPPING.as_bytes())
    };
    let name = "cut_after_every_byte";
    writes(rt, alloc, name, run, 1, prefix(SHOPPED.as_bytes(), after));
}

// The source fails after so many bytes: the lines that had ended by then have their replies, and
// no more.
fn read_fault_after<R: Abort>(rt: &R, alloc: Global, after: usize) {
    let run = Run {
        read_after: after,
        ..run_of(SHOPPING.as_bytes())
    };
    let due = first_lines(
        SHOPPED.as_bytes(),
        lines_ended(prefix(SHOPPING.as_bytes(), after)),
    );
    writes(rt, alloc, "read_fault_after_every_byte", run, 1, due);
}

#[test]
fn read_fault_after_every_byte(rt: HostRuntime) {
    for after in 0..=SHOPPING.len() {
        read_fault_after(&rt, rt.alloc(), after);
    }
}

#[test]
fn cut_after_every_byte(rt: HostRuntime) {
    for after in 0..SHOPPED.len() {
        output_cut_after(&rt, rt.alloc(), after);
    }
}

#[test]
fn input_cut_after_every_byte(rt: HostRuntime) {
    for after in 0..SHOPPING.len() {
        let is_cut = input_cut_after(&rt, rt.alloc(), after).is_ok();
        holds(&rt, is_cut, "input_cut_after_every_byte");
    }
}

fn shopping_list_in_pieces<R: Abort>(rt: &R, alloc: Global, piece: usize)
    requires { 0 < piece }
{
    let run = Run {
        piece,
        ..run_of(SHOPPING.as_bytes())
    };
    writes(
        rt,
        alloc,
        "shopping_list_in_pieces",
        run,
        0,
        SHOPPED.as_bytes(),
    );
}

fn a_line_that_was_not_read_whole_is_none<R: Abort>(
    rt: &R,
    alloc: Global,
    after: usize,
    output: &[u8],
) {
    let run = Run {
        piece: 5,
        read_after: after,
        ..run_of(b"[\"open\",\"d\"]\n[\"account\",\"d\"]\n")
    };
    let name = "a_line_that_was_not_read_whole_is_none";
    writes(rt, alloc, name, run, 1, output);
}

#[test]
fn pieces(rt: HostRuntime) {
    let alloc = rt.alloc();
    shopping_list_in_pieces(&rt, alloc, 1);
    shopping_list_in_pieces(&rt, alloc, 7);
    shopping_list_in_pieces(&rt, alloc, 4096);
    a_line_that_was_not_read_whole_is_none(&rt, alloc, 12, b"");
    a_line_that_was_not_read_whole_is_none(&rt, alloc, 13, b"[\"opened\",1]\n");
    a_line_that_was_not_read_whole_is_none(&rt, alloc, 20, b"[\"opened\",1]\n");
}
