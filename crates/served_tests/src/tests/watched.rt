//! A copier's observer is notified of a fault as soon as the copier has met it, and of nothing
//! else.
ghost use Rattle.std.specs.Prelude.{◌≡◌, ◌≤◌, length, map};
ghost use Rattle.locked_doc.specs.Numbers.{greatest_number};
ghost use Rattle.served_log.specs.Restored.{origin_at};

use super::deeds::{Case, Deed, all_in_memory};
use super::places::new_list;
use super::serving::{Start, THREE_WHOLE, started};
use lamport_id::ReplicaName;
use locked_doc::Ledger;
use log::Log;
use op_core::Operation;
use served_log::{
    Copier, CopierSeats, CopyObserver, Restoring, restore_documents, share_documents,
};
use server_core::{Pace, SharedDocuments, Side};
use share_ledger::{Blank, Marker};
use std::alloc::{AllocError, Global};
use std::marker::Brand;
use std::process::Abort;
use std::sync::{Mutex, Wait};
use std::thread::Threads;
use std::time::Clock;
use stored_log::{ListLog, StoredFault, StoredLog};

// Counts how often it is notified of a fault.
#[derive(Drop)]
struct Counting<'a, R: Wait> {
    rt: &'a R,
    times: &'a Mutex<u32>,
}

impl<R: Wait> CopyObserver for Counting<'_, R> {
    fn added<L: StoredLog>(&self, _stored: &L, _name: &str, _rows: usize, _entries: &[Operation]) {}

    fn lacks_memory(&self) {}

    fn goes_on(&self) {}

    fn failed(&self, _why: StoredFault) {}

    fn is_awaited_no_more(&self) -> bool {
        false
    }

    fn still_fails(&self, _unstored: u64) {}

    fn recovered(&self) {}

    fn stopped(&self, _why: StoredFault) {
        let mut times = self.times.lock(self.rt);
        *times = times.saturating_add(1);
    }
}

static LOGS_THREE: Start<'static> = Start {
    server: "srv",
    sessions: &[THREE_WHOLE],
    status: 0,
    totals: b"[\"total\",\"d\",3,3,3]\n",
    replies: None,
};

// A log with the three operations of the document d that a server logged, none of which is in
// another log.
fn with_three<R: Threads + Wait + Abort + Sync + Log + Clock>(
    rt: &R,
    alloc: Global,
) -> Result<ListLog, AllocError> {
    let logs = &LOGS_THREE;
    let place = started(rt, alloc, "three operations", &["d"], logs, new_list(alloc))?;
    Ok(ListLog::open(alloc, place, None))
}

/// The replica that the documents are restored for. If its name can't be had, as if out of memory.
pub fn replica_read() -> Result<ReplicaName, AllocError> {
    ReplicaName::read(b"srv-2").ok_or(AllocError)
}

/// The documents of these names of a stored log behind locks, for this replica, and the copier's
/// seats in them. If they can't be had, as if out of memory.
pub fn shared_documents<M: Marker, L: StoredLog>(
    alloc: Global,
    blank: Blank,
    copy: &L,
    replica: &ReplicaName,
    documents: &[&str],
) -> Result<(SharedDocuments<M>, CopierSeats<M>), AllocError>
    requires blank { blank ≡ M.name }
    requires begun { M.origin
        ≡ origin_at replica.now (L.log copy.now).docs (map (λ s. s.now) documents.now) }
    requires few { length documents.now ≤ greatest_number }
{
    let mut ledger = Ledger::<M>::new(blank);
    let from = Restoring {
        stored: copy,
        replica,
        seats: 1,
    };
    let Ok(restored) = restore_documents(alloc, &mut ledger, &from, documents) else {
        return Err(AllocError);
    };
    match share_documents(alloc, restored, Pace::Behind(1)) {
        Ok(made) => Ok(made),
        Err(_) => Err(AllocError),
    }
}

// Copies the library's documents beside so many sessions, none of which ends, and gives how often
// the observer was notified of a fault.
fn faults_of<M: Marker, R: Wait, L: StoredLog>(
    rt: &R,
    shared: &SharedDocuments<M>,
    seats: &mut CopierSeats<M>,
    sessions: u64,
    copy: &mut L,
) -> u32 {
    let times = Mutex::new(0);
    let counting = Counting { rt, times: &times };
    let mut copier = Copier::new(copy, seats, &counting);
    copier.run(rt, shared, sessions);
    let _why = copier.end();
    times.into_inner()
}

// How often the observer was notified where the documents are those of a full
// log, with a table of their own.
fn faults_beside<M: Marker, R: Wait, F: StoredLog, L: StoredLog>(
    rt: &R,
    alloc: Global,
    blank: Blank,
    full: &F,
    replica: &ReplicaName,
    documents: &[&str],
    sessions: u64,
    copy: &mut L,
) -> Result<u32, AllocError>
    requires blank { blank ≡ M.name }
    requires begun { M.origin
        ≡ origin_at replica.now (F.log full.now).docs (map (λ s. s.now) documents.now) }
    requires few { length documents.now ≤ greatest_number }
{
    let (shared, mut seats) = shared_documents::<M, F>(alloc, blank, full, replica, documents)?;
    Ok(faults_of::<M, R, L>(rt, &shared, &mut seats, sessions, copy))
}

/// Copies a document with three operations to the log beside so many sessions, none of which ends,
/// and gives how often the observer was notified of a fault.
pub fn faults_seen<R: Threads + Wait + Abort + Sync + Log + Clock, L: StoredLog>(
    rt: &R,
    alloc: Global,
    sessions: u64,
    copy: &mut L,
) -> Result<u32, AllocError> {
    let full = with_three(rt, alloc)?;
    let replica = replica_read()?;
    faults_beside::<Brand, _, _, _>(
        rt,
        alloc,
        Blank::new(),
        &full,
        &replica,
        &["d"],
        sessions,
        copy,
    )
}

static NO_FAULT: [Case<'static>; 1] = [Case {
    name: "nothing_is_reported_without_a_fault",
    documents: &["d"],
    deeds: &[
        Deed::Serves(Start {
            server: "srv",
            sessions: &[THREE_WHOLE],
            status: 0,
            totals: b"[\"total\",\"d\",3,3,3]\n",
            replies: None,
        }),
        Deed::Copies(0, 0),
    ],
}];

#[test]
fn no_fault(rt: HostRuntime) {
    all_in_memory(&rt, rt.alloc(), &NO_FAULT);
}
