//! A gate that is passed only where sessions at two documents run at the same time.
use super::samples::{NO_FAULT, run_two, waits_in_vain};
use crate::checks::{holds, replies_are};
use json_scalar::Refusal;
use server_core::Gate;
use std::alloc::Global;
use std::process::Abort;
use std::sync::Wait;
use std::sync::atomic::{AtomicU64, Ordering};
use std::thread::Threads;

// Holds session 2 back before its first line until session 1 is inside, and session 1 inside until
// session 2 comes to its second line.
#[derive(Drop)]
struct Meeting {
    first_inside: AtomicU64,
    second_came: AtomicU64,
    missed: AtomicU64,
}

impl Meeting {
    fn meet(&self, flag: &AtomicU64) {
        if waits_in_vain(flag, 1) {
            self.missed.store(1, Ordering::SeqCst);
        }
    }
}

impl Gate for Meeting {
    fn before(&self, session: u64, line: u32) {
        if session == 2 && line == 1 {
            self.meet(&self.first_inside);
        }
        if session == 2 && line == 2 {
            self.second_came.store(1, Ordering::SeqCst);
        }
    }

    fn inside(&self, session: u64, _document: usize) {
        if session == 1 {
            self.first_inside.store(1, Ordering::SeqCst);
            self.meet(&self.second_came);
        }
    }
}

const FIRST: &[u8] = b"[\"open\",\"a\"]\n";

const SECOND: &[u8] = b"[\"open\",\"b\"]\n[\"quit\"]\n";

/// Two sessions that meet at the gate, each at its own document.
pub fn meets<R: Threads + Wait + Abort + Sync>(rt: &R, alloc: Global) -> Result<(), Refusal> {
    let gate = Meeting {
        first_inside: AtomicU64::new(0),
        second_came: AtomicU64::new(0),
        missed: AtomicU64::new(0),
    };
    let ran = run_two(rt, alloc, &gate, [FIRST, SECOND], NO_FAULT)?;
    replies_are(rt, &"first", ran.first.as_slice(), b"[\"opened\",1]\n");
    replies_are(
        rt,
        &"second",
        ran.second.as_slice(),
        b"[\"opened\",1]\n[\"bye\"]\n",
    );
    let met = (
        ran.gathered.totals.len(),
        gate.missed.load(Ordering::SeqCst),
        gate.first_inside.load(Ordering::SeqCst),
        gate.second_came.load(Ordering::SeqCst),
    );
    holds(rt, met == (2, 0, 1, 1), "gate_two_documents");
    Ok(())
}
