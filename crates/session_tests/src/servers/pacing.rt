//! Replies that wait until a side says that the file has what they say.
ghost use Rattle.std.specs.Prelude.{◌≡◌, ◌<◌, length};
ghost use Rattle.share_ledger.specs.Begun.{BeginEmpty};

use super::samples::{Served, THREE, ended_so, shared_documents};
use super::sessions::logged_first;
use crate::checks::{holds, replies_are};
use json_scalar::Refusal;
use locked_doc::CopierSeat;
use server_core::doubles::Script;
use server_core::{
    OpenGate, Pace, Progress, SharedDocuments, Side, Signalled, lock_document, run_sessions,
};
use session_rules::Ending;
use share_ledger::{Blank, Marker};
use std::alloc::Global;
use std::marker::Brand;
use std::process::Abort;
use std::sync::{Mutex, Wait};
use std::thread::Threads;

const THREE_REPLIES: &str = r#"["opened",1]
["applied",1,0,[1,"srv-1"]]
["applied",1,0,[2,"srv-1"]]
["applied",1,0,[3,"srv-1"]]
["values",[3]]
"#;

// A session of three changes at this pace, beside a side that says once all are logged that the
// file has so many. Whether the session goes on by that, and whether it does once nothing copies.
struct Row {
    name: &'static str,
    pace: Pace,
    stored: usize,
    goes: bool,
    goes_at_last: bool,
}

static ROWS: [Row; 5] = [
    Row {
        name: "durable: two of three are stored",
        pace: Pace::Durable,
        stored: 2,
        goes: false,
        goes_at_last: false,
    },
    Row {
        name: "durable: all are stored",
        pace: Pace::Durable,
        stored: 3,
        goes: true,
        goes_at_last: true,
    },
    Row {
        name: "behind by one: one of three is stored",
        pace: Pace::Behind(1),
        stored: 1,
        goes: false,
        goes_at_last: true,
    },
    Row {
        name: "behind by one: two of three are stored",
        pace: Pace::Behind(1),
        stored: 2,
        goes: true,
        goes_at_last: true,
    },
    Row {
        name: "behind by three: none is stored",
        pace: Pace::Behind(3),
        stored: 0,
        goes: true,
        goes_at_last: true,
    },
];

// Says how many are stored once three are logged, and at last that nothing copies. It keeps whether
// there were replies before it said the latter, though the session wasn't to go on.
#[derive(Drop)]
struct Late<'a, M: Marker> {
    replies: &'a Mutex<Vec<u8>>,
    seat: CopierSeat<M>,
    stored: usize,
    goes: bool,
    early: bool,
}

impl<M: Marker> Side<M> for Late<'_, M> {
    fn run<R: Wait>(&mut self, rt: &R, shared: &SharedDocuments<M>, sessions: u64) {
        let mut seen = Signalled {
            notified: 0,
            ended: 0,
        };
        for _ in rt.forever() {
            if seen.ended >= sessions || logged_first(rt, shared) == Some(3) {
                break;
            }
            seen = shared.signal.wait(rt, seen);
        }
        publish_first(rt, shared, &mut self.seat, self.stored);
        for _ in rt.forever() {
            if seen.ended >= sessions || !self.goes {
                break;
            }
            seen = shared.signal.wait(rt, seen);
        }
        if !self.goes {
            let _ = shared.signal.pause_longer(rt, seen);
            self.early = !self.replies.lock(rt).is_empty();
        }
        shared.progress.stop(rt);
    }
}

// Says that the file has the first ones of what is logged, so many.
fn publish_first<M: Marker, R: Wait>(
    rt: &R,
    shared: &SharedDocuments<M>,
    seat: &mut CopierSeat<M>,
    count: usize,
) {
    if shared.names.is_empty() || shared.progress.documents() == 0 || seat.number() != 0 {
        return;
    }
    if let Ok(logged) = lock_document(rt, shared, 0, 0).tail_for(seat, 0, 3) {
        if count <= logged.as_slice().len() && seat.stored() == 0 {
            shared
                .progress
                .publish(rt, seat, &logged.as_slice()[..count]);
        }
    }
}

// Lets sessions wait for the file at this pace. It returns the copier's seat.
fn copied<M: Marker, R: Wait>(
    rt: &R,
    alloc: Global,
    shared: &mut SharedDocuments<M>,
    pace: Pace,
) -> Result<CopierSeat<M>, Refusal>
    requires { 0 < length shared.old.names.items }
{
    let opened = lock_document(rt, shared, 0, 0).open_copier();
    let (seat, share) = opened.ok_or(Refusal::SeatsFull)?;
    let mut shares = Vec::new(alloc);
    shares.push(share)?;
    shared.progress = Progress::new(alloc, shares, pace)?;
    Ok(seat)
}

// What the session did, and whether it replied too early.
fn paced<M: Marker + Send + Sync, R: Threads + Wait + Sync>(
    rt: &R,
    alloc: Global,
    blank: Blank,
    row: &Row,
    replies: &Mutex<Vec<u8>>,
) -> Result<(Served, bool), Refusal>
    requires blank { blank ≡ M.name }
    requires begun { BeginEmpty M.origin }
{
    let mut shared = shared_documents::<M>(alloc, blank, &["a"], 1)?;
    let seat = copied(rt, alloc, &mut shared, row.pace)?;
    let scripts = vec![in alloc; Script::new(rt, THREE, replies)]?;
    let side = Late {
        replies,
        seat,
        stored: row.stored,
        goes: row.goes,
        early: false,
    };
    let (gathered, side) = run_sessions(rt, alloc, shared, scripts, &OpenGate, side);
    match gathered {
        Ok(gathered) => Ok((Served::of(gathered), side.early)),
        Err(ungathered) => Err(ungathered.refusal),
    }
}

// It replied when it should, and ended as it should.
fn is_paced<R: Threads + Wait + Abort + Sync>(
    rt: &R,
    alloc: Global,
    row: &Row,
) -> Result<(), Refusal> {
    let replies = Mutex::new(Vec::new(alloc));
    let (gathered, early) = paced::<Brand, R>(rt, alloc, Blank::new(), row, &replies)?;
    let (why, expected) = if row.goes_at_last {
        (Ending::End, THREE_REPLIES)
    } else {
        (Ending::WriteFault, "")
    };
    let is = !early && ended_so(&gathered, &[Some(why)]);
    holds(rt, is, row.name);
    replies_are(
        rt,
        &row.name,
        replies.into_inner().as_slice(),
        expected.as_bytes(),
    );
    Ok(())
}

/// A session replies to its changes once the file has them, as far as its pace says.
pub fn replies_wait<R: Threads + Wait + Abort + Sync>(
    rt: &R,
    alloc: Global,
) -> Result<(), Refusal> {
    for row in &ROWS {
        is_paced(rt, alloc, row)?;
    }
    Ok(())
}
