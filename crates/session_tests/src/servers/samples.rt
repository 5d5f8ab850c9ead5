//! New documents, and sessions over them.
ghost use Rattle.std.specs.Prelude.{◌≡◌, ◌≤◌, IfOk, length};
ghost use Rattle.locked_doc.specs.Numbers.{greatest_number};
ghost use Rattle.share_ledger.specs.Begun.{BeginEmpty};

use crate::checks::holds;
use json_scalar::Refusal;
use lamport_id::ReplicaName;
use line_proto::Name;
use locked_doc::{Ledger, Shelf, Totals};
use server_core::doubles::Script;
use server_core::{
    Gate, Gathered, Idle, OpenGate, Progress, SharedDocuments, Side, Signal, run_sessions,
};
use session_rules::Ending;
use share_ledger::{Blank, Marker};
use std::alloc::Global;
use std::marker::Brand;
use std::process::Abort;
use std::sync::atomic::{AtomicU64, Ordering};
use std::sync::{Mutex, Wait};
use std::thread;
use std::thread::Threads;

/// A session of three changes of `a`.
pub const THREE: &[u8] = br#"["open","a"]
["assign","a",[0,"a"],1]
["assign","a",[0,"a"],2]
["assign","a",[0,"a"],3]
["values","a",[0,"a"]]
"#;

/// A session of two changes of `a`, whose last line has no newline.
pub const TWO: &[u8] = br#"["open","a"]
["assign","a",[0,"b"],1]
["assign","a",[0,"b"],2]
["values","a",[0,"b"]]"#;

/// The names of documents.
pub fn names_of(alloc: Global, documents: &[&str]) -> Result<Vec<Name>, Refusal>
    ensures { IfOk result (λ names. length names.items ≡ length documents.now) }
{
    let mut names = Vec::new(alloc);
    for document in documents {
        names.push(Name::new(alloc, document)?)?;
    }
    Ok(names)
}

// So many new documents, with so many seats each.
fn shelf_of<M: Marker>(
    alloc: Global,
    blank: Blank,
    documents: usize,
    seats: u16,
) -> Result<Shelf<M>, Refusal>
    requires blank { blank ≡ M.name }
    requires begun { BeginEmpty M.origin }
    requires few { documents ≤ greatest_number }
    ensures { IfOk result (λ shelf. shelf ≡ documents) }
{
    let replica = ReplicaName::read(b"srv-1").ok_or(Refusal::BadRequest)?;
    let mut ledger = Ledger::<M>::new(blank);
    let mut shelf = Shelf::new(alloc);
    for _ in 0..documents {
        if shelf.put(ledger.locked(alloc, &replica, seats)?).is_err() {
            return Err(Refusal::NoMemory);
        }
    }
    Ok(shelf)
}

/// New documents of these names, with so many seats each.
pub fn shared_documents<M: Marker>(
    alloc: Global,
    blank: Blank,
    documents: &[&str],
    seats: u16,
) -> Result<SharedDocuments<M>, Refusal>
    requires blank { blank ≡ M.name }
    requires begun { BeginEmpty M.origin }
    requires few { length documents.now ≤ greatest_number }
    ensures { IfOk result (λ shared. length shared.names.items ≡ length documents.now) }
{
    let names = names_of(alloc, documents)?;
    let shelf = shelf_of::<M>(alloc, blank, documents.len(), seats)?;
    Ok(SharedDocuments {
        names,
        shelf,
        signal: Signal::new(),
        progress: Progress::none(alloc),
    })
}

/// What sessions did, without what a copier reads.
#[derive(Drop)]
pub struct Served {
    pub endings: Vec<Vec<Option<Ending>>>,
    pub totals: Vec<Totals>,
}

impl Served {
    /// What was gathered, of which the copiers' books are dropped.
    pub fn of<M: Marker>(gathered: Gathered<M>) -> Served {
        let Gathered {
            endings,
            totals,
            followed: _,
        } = gathered;
        Served { endings, totals }
    }
}

/// What the sessions of these connections did at new documents, of so many seats each, and what the
/// side that ran beside them became.
pub fn serve_beside<M: Marker + Send + Sync, R: Threads + Wait + Sync, G: Gate + Sync, S: Side<M>>(
    rt: &R,
    alloc: Global,
    blank: Blank,
    documents: &[&str],
    seats: u16,
    scripts: Vec<Script<'_, R>>,
    gate: &G,
    side: S,
) -> Result<(Served, S), Refusal>
    requires blank { blank ≡ M.name }
    requires begun { BeginEmpty M.origin }
    requires few { length documents.now ≤ greatest_number }
{
    let shared = shared_documents::<M>(alloc, blank, documents, seats)?;
    let (gathered, side) = run_sessions(rt, alloc, shared, scripts, gate, side);
    match gathered {
        Ok(gathered) => Ok((Served::of(gathered), side)),
        Err(ungathered) => Err(ungathered.refusal),
    }
}

// Serves the scripts over a table with this blank, with nothing beside the sessions.
fn serve<M: Marker + Send + Sync, R: Threads + Wait + Sync, G: Gate + Sync>(
    rt: &R,
    alloc: Global,
    blank: Blank,
    documents: &[&str],
    seats: u16,
    scripts: Vec<Script<'_, R>>,
    gate: &G,
) -> Result<Served, Refusal>
    requires blank { blank ≡ M.name }
    requires begun { BeginEmpty M.origin }
    requires few { length documents.now ≤ greatest_number }
{
    let ran = serve_beside::<M, _, _, _>(rt, alloc, blank, documents, seats, scripts, gate, Idle)?;
    Ok(ran.0)
}

/// Serves the scripts over a table of its own.
pub fn serve_all<R: Threads + Wait + Sync, G: Gate + Sync>(
    rt: &R,
    alloc: Global,
    documents: &[&str],
    seats: u16,
    scripts: Vec<Script<'_, R>>,
    gate: &G,
) -> Result<Served, Refusal>
    requires { length documents.now ≤ greatest_number }
{
    serve::<Brand, R, G>(rt, alloc, Blank::new(), documents, seats, scripts, gate)
}

/// What the one session of a server of these documents did, and its replies.
pub fn run_alone<R: Threads + Wait + Sync>(
    rt: &R,
    alloc: Global,
    documents: &[&str],
    input: &[u8],
) -> Result<(Served, Vec<u8>), Refusal>
    requires { length documents.now ≤ greatest_number }
{
    let replies = Mutex::new(Vec::new(alloc));
    let scripts = vec![in alloc; Script::new(rt, input, &replies)]?;
    let gathered = serve_all(rt, alloc, documents, 1, scripts, &OpenGate)?;
    Ok((gathered, replies.into_inner()))
}

/// Its replies.
pub fn replies_alone<R: Threads + Wait + Sync>(
    rt: &R,
    alloc: Global,
    documents: &[&str],
    input: &[u8],
) -> Result<Vec<u8>, Refusal>
    requires { length documents.now ≤ greatest_number }
{
    Ok(run_alone(rt, alloc, documents, input)?.1)
}

/// Whether each thread served one session, and these are the endings.
pub fn ended_so(gathered: &Served, endings: &[Option<Ending>]) -> bool {
    gathered.endings.len() == endings.len()
        && gathered
            .endings
            .iter()
            .zip(endings.iter())
            .all(|(line, ending)| line.as_slice() == [*ending].as_slice())
}

/// What two sessions at new documents `a` and `b` did, and the replies to each.
#[derive(Drop)]
pub struct Ran {
    pub gathered: Served,
    pub first: Vec<u8>,
    pub second: Vec<u8>,
}

/// Where the connection of a session fails.
#[derive(Clone, Copy)]
pub struct Fault {
    pub read_after: usize,
    pub write_after: usize,
    pub opens: bool,
}

pub const NO_FAULT: Fault = Fault {
    read_after: usize::MAX,
    write_after: usize::MAX,
    opens: true,
};

/// Runs two sessions of these lines, the first over a connection with this fault.
pub fn run_two<'x, R: Threads + Wait + Sync, G: Gate + Sync>(
    rt: &'x R,
    alloc: Global,
    gate: &G,
    lines: [&'x [u8]; 2],
    fault: Fault,
) -> Result<Ran, Refusal> {
    let one = Mutex::new(Vec::new(alloc));
    let two = Mutex::new(Vec::new(alloc));
    let mut first = Script::new(rt, lines[0], &one);
    first.read_after = fault.read_after;
    first.write_after = fault.write_after;
    first.opens = fault.opens;
    let scripts = vec![in alloc; first, Script::new(rt, lines[1], &two)]?;
    let gathered = serve_all(rt, alloc, &["a", "b"], 2, scripts, gate)?;
    Ok(Ran {
        gathered,
        first: one.into_inner(),
        second: two.into_inner(),
    })
}

/// The totals of the first of two documents are these, and those of the second are zeros.
pub fn first_did<R: Abort>(rt: &R, case: &str, gathered: &Served, all: u64, shares: &[u64]) {
    let is = match gathered.totals.as_slice() {
        [first, second] => did(first, all, shares) && second.logged == 0,
        _ => false,
    };
    holds(rt, is, case);
}

/// Waits for 1,000,000 turns at most until the count has come so far, and says whether it was in
/// vain.
pub fn waits_in_vain(count: &AtomicU64, due: u64) -> bool {
    for _ in 0..1_000_000u32 {
        if count.load(Ordering::SeqCst) >= due {
            return false;
        }
        thread::yield_now();
    }
    true
}

/// Whether so many operations were done at a document, and these by each of its seats.
pub fn did(totals: &Totals, all: u64, shares: &[u64]) -> bool {
    totals.accepted == all && totals.logged == all && totals.by_seat.as_slice() == shares
}
