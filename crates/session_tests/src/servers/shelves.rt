//! Shelves of three and of sixteen documents: each document has what was written to it, and none of
//! what was written to another.
ghost use Rattle.std.specs.Prelude.{◌≤◌, length};
ghost use Rattle.locked_doc.specs.Numbers.{greatest_number};

use super::samples::{did, run_alone};
use crate::checks::{holds, replies_are};
use crate::texts::{push_each, push_numbered};
use json_scalar::Refusal;
use locked_doc::Totals;
use std::alloc::Global;
use std::process::Abort;
use std::sync::Wait;
use std::thread::Threads;

// The names of as many documents as a server may have.
const SIXTEEN: [&str; 16] = [
    "d1", "d2", "d3", "d4", "d5", "d6", "d7", "d8", "d9", "d10", "d11", "d12", "d13", "d14", "d15",
    "d16",
];

// A session that opens so many documents, assigns to them in turn, so that each has as many
// operations as its number says, and then reads them all.
fn lines_over(alloc: Global, count: u32) -> Result<String, Refusal> {
    let mut text = String::new(alloc);
    push_each(&mut text, "[\"open\",\"d#\"]\n", 1, count)?;
    for first in 1..=count {
        push_each(&mut text, "[\"assign\",\"d#\",[0,\"k\"],#]\n", first, count)?;
    }
    push_each(&mut text, "[\"values\",\"d#\",[0,\"k\"]]\n", 1, count)?;
    Ok(text)
}

// Its replies.
fn replies_over(alloc: Global, count: u32) -> Result<String, Refusal> {
    let mut text = String::new(alloc);
    push_each(&mut text, "[\"opened\",1]\n", 1, count)?;
    for first in 1..=count {
        for _ in first..=count {
            push_numbered(&mut text, "[\"applied\",1,0,[#,\"srv-1\"]]\n", first)?;
        }
    }
    push_each(&mut text, "[\"values\",[#]]\n", 1, count)?;
    Ok(text)
}

// Whether the documents have as many operations as their numbers say, by one seat each.
fn rise_by_one(totals: &[Totals]) -> bool {
    let mut due: u64 = 0;
    for sums in totals {
        due = due.saturating_add(1);
        if !did(sums, due, &[due]) {
            return false;
        }
    }
    true
}

// Each of these documents, which are named by their numbers, has what was written to it.
fn each_has_its_own<R: Threads + Wait + Abort + Sync>(
    rt: &R,
    alloc: Global,
    name: &str,
    documents: &[&str],
) -> Result<(), Refusal>
    requires { length documents.now ≤ greatest_number }
{
    let count = documents.len() as u32;
    let lines = lines_over(alloc, count)?;
    let expected = replies_over(alloc, count)?;
    let (gathered, replies) = run_alone(rt, alloc, documents, lines.as_bytes())?;
    replies_are(rt, &name, replies.as_slice(), expected.as_bytes());
    let totals = gathered.totals.as_slice();
    let is = totals.len() == documents.len() && rise_by_one(totals);
    holds(rt, is, name);
    Ok(())
}

/// Three documents.
pub fn three_have_their_own<R: Threads + Wait + Abort + Sync>(
    rt: &R,
    alloc: Global,
) -> Result<(), Refusal> {
    each_has_its_own(rt, alloc, "three_documents", &["d1", "d2", "d3"])
}

/// Sixteen documents.
pub fn sixteen_have_their_own<R: Threads + Wait + Abort + Sync>(
    rt: &R,
    alloc: Global,
) -> Result<(), Refusal> {
    each_has_its_own(rt, alloc, "sixteen_documents", &SIXTEEN)
}
