//! Two sessions at one document, whose lines come to it in a given order: the replies to each, from
//! the first line to the last.
use super::samples::{NO_FAULT, THREE, TWO, first_did, run_two};
use crate::checks::{holds, replies_are};
use json_scalar::Refusal;
use server_core::Gate;
use std::alloc::Global;
use std::process::Abort;
use std::sync::Wait;
use std::sync::atomic::{AtomicU64, AtomicUsize, Ordering};
use std::thread;
use std::thread::Threads;

// Lets the lines of two sessions come to the document in a given order. Each of these lines asks
// it once.
#[derive(Drop)]
struct Turns {
    /// Whose line is next, one after the other.
    order: [u64; 9],
    /// How many lines have come.
    came: AtomicUsize,
    missed: AtomicU64,
}

impl Turns {
    // Waits until it is this session's turn, for 1,000,000 turns of its own at most, and says
    // whether it was in vain.
    fn waits_in_vain(&self, session: u64) -> bool {
        for _ in 0..1_000_000u32 {
            if self.order.get(self.came.load(Ordering::SeqCst)) == Some(&session) {
                return false;
            }
            thread::yield_now();
        }
        true
    }
}

impl Gate for Turns {
    fn before(&self, session: u64, _line: u32) {
        if self.waits_in_vain(session) {
            self.missed.store(1, Ordering::SeqCst);
        }
    }

    fn inside(&self, _session: u64, _document: usize) {
        self.came.fetch_add(1, Ordering::SeqCst);
    }
}

// Whose line is next, one after the other, and the sessions' replies.
struct Row {
    name: &'static str,
    order: [u64; 9],
    first: &'static str,
    second: &'static str,
}

static ROWS: [Row; 2] = [
    Row {
        name: "one_after_the_other",
        order: [1, 1, 1, 1, 1, 2, 2, 2, 2],
        first: r#"["opened",1]
["applied",1,0,[1,"srv-1"]]
["applied",1,0,[2,"srv-1"]]
["applied",1,0,[3,"srv-1"]]
["values",[3]]
"#,
        second: r#"["opened",2]
["applied",1,0,[4,"srv-1"]]
["applied",1,0,[5,"srv-1"]]
["values",[2]]
"#,
    },
    Row {
        name: "line_by_line",
        order: [1, 2, 1, 2, 1, 2, 1, 2, 1],
        first: r#"["opened",1]
["applied",1,0,[1,"srv-1"]]
["applied",1,0,[3,"srv-1"]]
["applied",1,0,[5,"srv-1"]]
["values",[3]]
"#,
        second: r#"["opened",2]
["applied",1,0,[2,"srv-1"]]
["applied",1,0,[4,"srv-1"]]
["values",[2]]
"#,
    },
];

// In this order the sessions have these replies, and they add up.
fn replies_in_order<R: Threads + Wait + Abort + Sync>(
    rt: &R,
    alloc: Global,
    row: &Row,
) -> Result<(), Refusal> {
    let gate = Turns {
        order: row.order,
        came: AtomicUsize::new(0),
        missed: AtomicU64::new(0),
    };
    let ran = run_two(rt, alloc, &gate, [THREE, TWO], NO_FAULT)?;
    replies_are(rt, &row.name, ran.first.as_slice(), row.first.as_bytes());
    replies_are(rt, &row.name, ran.second.as_slice(), row.second.as_bytes());
    holds(rt, gate.missed.load(Ordering::SeqCst) == 0, row.name);
    first_did(rt, row.name, &ran.gathered, 5, &[3, 2]);
    Ok(())
}

/// In each of these rows both sessions get their replies, and no turn is missed.
pub fn replies_in_each_order<R: Threads + Wait + Abort + Sync>(
    rt: &R,
    alloc: Global,
) -> Result<(), Refusal> {
    for row in &ROWS {
        replies_in_order(rt, alloc, row)?;
    }
    Ok(())
}
