//! A server over a log in memory that fails at each use of its store in turn, for once or from
//! then on as at a crash. What it leaves is opened again, as a restart does: as a crash leaves
//! it, and as the file alone holds it.
use super::checks::{counts, holds};
use super::serving::{Done, QUITS, Served, Start, THREE_WHOLE, serve_start, started};
use log::Log;
use server_core::Pace;
use std::alloc::{AllocError, Global};
use std::process::Abort;
use std::str;
use std::sync::Wait;
use std::thread::Threads;
use std::time::Clock;
use stored_log::{FailingUse, ListLog, ListStore, StoredFault, StoredLog};

// A start whose three changes are written in one batch or in several.
static CHANGES: Start<'static> = Start {
    server: "srv",
    sessions: &[THREE_WHOLE],
    status: 0,
    totals: b"[\"total\",\"d\",3,3,3]\n",
    replies: None,
};

// The uses of its store: the epoch, the fold, a batch at least and one a change at most, the close.
const LEAST_USES: u32 = 4;

const MOST_USES: u32 = 6;

// What a log has: rows of the document, and an epoch.
#[derive(Clone, Copy)]
struct Kept {
    rows: usize,
    epoch: u64,
}

fn kept_in(log: &ListLog) -> Kept {
    Kept {
        rows: log.rows("d").unwrap_or(0),
        epoch: log.epoch().unwrap_or(0),
    }
}

// A place whose file alone holds what this one's does, and after a crash too.
fn file_alone(alloc: Global, place: &ListStore) -> Result<ListStore, AllocError> {
    let Ok(kept) = place.alone.try_clone(alloc) else {
        return Err(AllocError);
    };
    let Ok(alone) = place.alone.try_clone(alloc) else {
        return Err(AllocError);
    };
    Ok(ListStore { kept, alone })
}

// Starts a server over what is left, under a new epoch, which has just the rows that are left; and
// gives what was left.
fn restarts<R: Threads + Wait + Abort + Sync + Log + Clock>(
    rt: &R,
    alloc: Global,
    case: &str,
    place: ListStore,
) -> Result<Kept, AllocError> {
    let log = ListLog::open(alloc, place, None);
    let kept = kept_in(&log);
    let rows = kept.rows;
    let totals = format!(in alloc; "[\"total\",\"d\",0,{rows},{rows}]\n")?;
    let start = Start {
        server: "srv",
        sessions: &[QUITS],
        status: 0,
        totals: totals.as_bytes(),
        replies: Some(b"[\"bye\"]\n"),
    };
    let left = started(rt, alloc, case, &["d"], &start, log)?;
    let after = kept_in(&ListLog::open(alloc, left, None));
    counts(rt, case, "epoch", after.epoch, kept.epoch.wrapping_add(1));
    counts(rt, case, "rows", after.rows as u64, rows as u64);
    Ok(kept)
}

// How many changes these replies answer.
fn answered(replies: &[u8]) -> usize {
    let text = str::from_utf8(replies).unwrap_or("");
    text.lines()
        .filter(|line| line.starts_with("[\"applied\""))
        .count()
}

// What a server left that fails at a use: all that it answered, since it was durable, and the file
// alone has the epoch under which it answered.
fn is_left<R: Threads + Wait + Abort + Sync + Log + Clock>(
    rt: &R,
    alloc: Global,
    case: &str,
    answers: usize,
    place: ListStore,
) -> Result<Kept, AllocError> {
    let file = file_alone(alloc, &place)?;
    let kept = restarts(rt, alloc, case, place)?;
    holds(rt, answers <= kept.rows && kept.rows <= 3, case);
    let alone = restarts(rt, alloc, case, file)?;
    holds(rt, answers == 0 || alone.epoch == 1, case);
    holds(rt, alone.rows <= kept.rows, case);
    Ok(kept)
}

// The status of a server that fails so, which left what it should.
fn ends<R: Threads + Wait + Abort + Sync + Log + Clock>(
    rt: &R,
    alloc: Global,
    case: &str,
    fails: FailingUse,
) -> Result<u8, AllocError> {
    let log = ListLog::open(alloc, ListStore::new(alloc), Some(fails));
    let done = serve_start(rt, alloc, &["d"], &CHANGES, Pace::Durable, log)?;
    let Done { served, replies } = done;
    let Served {
        status,
        totals: _,
        left,
    } = served;
    let kept = is_left(rt, alloc, case, answered(replies.as_slice()), left)?;
    holds(rt, status == 1 || kept.rows == 3, case);
    Ok(status)
}

// How many uses a start makes that fails at none, where each of them fails as this says.
fn uses_of<R: Threads + Wait + Abort + Sync + Log + Clock>(
    rt: &R,
    alloc: Global,
    case: &str,
    stays: bool,
    lasts: bool,
) -> Result<u32, AllocError> {
    for after in 0..MOST_USES + 1 {
        let fails = FailingUse {
            after,
            fault: StoredFault::Io,
            stays,
            lasts,
        };
        if ends(rt, alloc, case, fails)? == 0 {
            return Ok(after);
        }
    }
    Ok(0)
}

fn each_use<R: Threads + Wait + Abort + Sync + Log + Clock>(
    rt: &R,
    alloc: Global,
    case: &str,
    stays: bool,
    lasts: bool,
) {
    let uses = uses_of(rt, alloc, case, stays, lasts).unwrap_or(0);
    holds(rt, LEAST_USES <= uses && uses <= MOST_USES, case);
}

#[test]
fn a_fault_at_each_use(rt: HostRuntime) {
    each_use(&rt, rt.alloc(), "a_fault_at_each_use", false, false);
}

#[test]
fn a_fault_behind_each_use(rt: HostRuntime) {
    each_use(&rt, rt.alloc(), "a_fault_behind_each_use", true, false);
}

#[test]
fn a_crash_before_each_use(rt: HostRuntime) {
    each_use(&rt, rt.alloc(), "a_crash_before_each_use", false, true);
}

#[test]
fn a_crash_behind_each_use(rt: HostRuntime) {
    each_use(&rt, rt.alloc(), "a_crash_behind_each_use", true, true);
}
