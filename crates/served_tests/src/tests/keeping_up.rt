//! A copier writes what a session logged while the session runs.
ghost use Rattle.std.specs.Prelude.{◌≡◌, ◌≤◌, length, map};
ghost use Rattle.locked_doc.specs.Numbers.{greatest_number};
ghost use Rattle.served_log.specs.Restored.{origin_at};

use super::checks::{counts, holds};
use super::places::new_list;
use super::serving::THREE;
use super::watched::{replica_read, shared_documents};
use lamport_id::ReplicaName;
use op_core::Operation;
use served_log::{Copier, CopyObserver};
use server_core::doubles::Script;
use server_core::{Gate, run_sessions};
use share_ledger::{Blank, Marker};
use std::alloc::{AllocError, Global};
use std::marker::Brand;
use std::process::Abort;
use std::sync::atomic::{AtomicU64, Ordering};
use std::sync::{Mutex, Wait};
use std::thread;
use std::thread::Threads;
use stored_log::{StoredFault, StoredLog};

// Counts the rows that were written.
#[derive(Drop)]
struct CountsRows<'a> {
    rows: &'a AtomicU64,
}

impl CopyObserver for CountsRows<'_> {
    fn added<L: StoredLog>(&self, _stored: &L, _name: &str, _rows: usize, entries: &[Operation]) {
        self.rows.fetch_add(entries.len() as u64, Ordering::SeqCst);
    }

    fn lacks_memory(&self) {}

    fn goes_on(&self) {}

    fn failed(&self, _why: StoredFault) {}

    fn is_awaited_no_more(&self) -> bool {
        false
    }

    fn still_fails(&self, _unstored: u64) {}

    fn recovered(&self) {}

    fn stopped(&self, _why: StoredFault) {}
}

// Keeps a session open until the file has what it logged: each line waits for a row of each line
// before it, of which the first one opened the document.
#[derive(Drop)]
struct UntilWritten<'a> {
    rows: &'a AtomicU64,
    missed: AtomicU64,
}

// Waits for 1,000,000 turns at most until there are so many rows, and
// returns whether there are not.
fn waits_in_vain(rows: &AtomicU64, expected: u64) -> bool {
    for _ in 0..1_000_000u32 {
        if rows.load(Ordering::SeqCst) >= expected {
            return false;
        }
        thread::yield_now();
    }
    true
}

impl Gate for UntilWritten<'_> {
    fn before(&self, _session: u64, line: u32) {
        if waits_in_vain(self.rows, u64::from(line.saturating_sub(2))) {
            self.missed.store(1, Ordering::SeqCst);
        }
    }

    fn inside(&self, _session: u64, _document: usize) {}
}

// Whether a session of three changes ran beside a copier that no fault ended.
fn runs_beside<M: Marker + Send + Sync, R: Threads + Wait + Sync, L: StoredLog>(
    rt: &R,
    alloc: Global,
    blank: Blank,
    replica: &ReplicaName,
    documents: &[&str],
    gate: &UntilWritten<'_>,
    copy: &mut L,
) -> Result<bool, AllocError>
    requires blank { blank ≡ M.name }
    requires begun { M.origin
        ≡ origin_at replica.now (L.log copy.old).docs (map (λ s. s.now) documents.now) }
    requires few { length documents.now ≤ greatest_number }
{
    let (shared, mut seats) = shared_documents::<M, L>(alloc, blank, copy, replica, documents)?;
    let replies = Mutex::new(Vec::new(alloc));
    let scripts = vec![in alloc; Script::new(rt, THREE, &replies)]?;
    let observer = CountsRows { rows: gate.rows };
    let copier = Copier::new(copy, &mut seats, &observer);
    let (gathered, copier) = run_sessions(rt, alloc, shared, scripts, gate, copier);
    let fault = copier.end();
    Ok(gathered.is_ok() && fault.is_none())
}

fn keeps_up<R: Threads + Wait + Abort + Sync>(rt: &R, alloc: Global) -> Result<(), AllocError> {
    let rows = AtomicU64::new(0);
    let gate = UntilWritten {
        rows: &rows,
        missed: AtomicU64::new(0),
    };
    let mut copy = new_list(alloc);
    let replica = replica_read()?;
    let ran = runs_beside::<Brand, _, _>(
        rt,
        alloc,
        Blank::new(),
        &replica,
        &["d"],
        &gate,
        &mut copy,
    )?;
    holds(rt, ran, "keeps_up_with_an_open_session");
    let missed = gate.missed.load(Ordering::SeqCst);
    counts(
        rt,
        "keeps_up_with_an_open_session",
        "lines in vain",
        missed,
        0,
    );
    let written = rows.load(Ordering::SeqCst);
    counts(rt, "keeps_up_with_an_open_session", "rows", written, 3);
    Ok(())
}

#[test]
fn keeps_up_with_an_open_session(rt: HostRuntime) {
    let kept = keeps_up(&rt, rt.alloc());
    holds(&rt, kept.is_ok(), "keeps_up_with_an_open_session");
}
