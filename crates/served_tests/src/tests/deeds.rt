//! What is done with a stored log, one deed after another, and its expected result. It is
//! opened again between two deeds. All of it is over any log, since each call that names a
//! store in files is dear to prove.
use super::checks::{bytes_are, counts, holds};
use super::disks::new_files;
use super::files::done_in_files;
use super::places::{Reopens, left_of, new_list};
use super::serving::{Start, started, started_at};
use super::watched::faults_seen;
use line_feed::Writer;
use log::Log;
use server_core::Pace;
use std::alloc::{AllocError, Global};
use std::process::Abort;
use std::sync::Wait;
use std::thread::Threads;
use std::time::Clock;
use stored_log::{StoredLog, check_over};

/// What is done with a stored log.
#[derive(Clone, Copy)]
pub enum Deed<'a> {
    /// A server starts, serves, and ends.
    Serves(Start<'a>),
    /// A server starts, serves, and ends, and answers a change once it is stored.
    ServesDurably(Start<'a>),
    /// A check of it prints this.
    Holds(&'a [u8]),
    /// A copier copies a document to it beside so many sessions, none of which ends, and reports
    /// so many faults.
    Copies(u64, u32),
}

/// What is done with one stored log, over documents of these names.
#[derive(Clone, Copy)]
pub struct Case<'a> {
    pub name: &'a str,
    pub documents: &'a [&'a str],
    pub deeds: &'a [Deed<'a>],
}

/// What a check of the log prints.
pub fn checked<L: StoredLog>(alloc: Global, log: &L) -> Vec<u8> {
    let mut out = Vec::<u8>::new(alloc);
    let _status = check_over(alloc, log, &mut Writer::new(&mut out));
    out
}

// A check of the log prints this. It is closed then.
fn prints<R: Abort, L: StoredLog>(
    rt: &R,
    alloc: Global,
    case: &str,
    log: L,
    report: &[u8],
) -> L::Left {
    bytes_are(rt, case, "report", checked(alloc, &log).as_slice(), report);
    left_of(log.close())
}

// Copies a document to the log, which reports so many faults. It is closed then.
fn copies<R: Threads + Wait + Abort + Sync + Log + Clock, L: StoredLog>(
    rt: &R,
    alloc: Global,
    case: &str,
    sessions: u64,
    faults: u32,
    mut log: L,
) -> Result<L::Left, AllocError> {
    let found = faults_seen(rt, alloc, sessions, &mut log)?;
    counts(rt, case, "faults", u64::from(found), u64::from(faults));
    Ok(left_of(log.close()))
}

fn done<R: Threads + Wait + Abort + Sync + Log + Clock, L: StoredLog>(
    rt: &R,
    alloc: Global,
    case: &Case<'_>,
    deed: &Deed<'_>,
    log: L,
) -> Result<L::Left, AllocError> {
    let (name, documents) = (case.name, case.documents);
    match deed {
        Deed::Serves(start) => started(rt, alloc, name, documents, start, log),
        Deed::ServesDurably(start) => {
            started_at(rt, alloc, name, documents, start, Pace::Durable, log)
        }
        Deed::Holds(report) => Ok(prints(rt, alloc, name, log, report)),
        Deed::Copies(sessions, faults) => copies(rt, alloc, name, *sessions, *faults, log),
    }
}

/// Does all of it with this log, which is opened again between two deeds, and gives back what is
/// left.
pub fn all_done<R: Threads + Wait + Abort + Sync + Log + Clock, L: Reopens>(
    rt: &R,
    alloc: Global,
    case: &Case<'_>,
    log: L,
) -> Result<L::Left, AllocError> {
    let Some((first, rest)) = case.deeds.split_first() else {
        return Ok(left_of(log.close()));
    };
    let mut left = done(rt, alloc, case, first, log)?;
    for deed in rest {
        let log = L::reopen(alloc, left)?;
        left = done(rt, alloc, case, deed, log)?;
    }
    Ok(left)
}

/// Does each of these cases over an empty log: a list, and a database in files in memory.
pub fn all_in_memory<R: Threads + Wait + Abort + Sync + Log + Clock>(
    rt: &R,
    alloc: Global,
    cases: &[Case<'_>],
) {
    for case in cases {
        let listed = all_done(rt, alloc, case, new_list(alloc));
        holds(rt, listed.is_ok(), case.name);
        let done = done_in_files(rt, alloc, case, new_files(alloc, u64::MAX, u64::MAX));
        holds(rt, done.is_ok(), case.name);
    }
}
