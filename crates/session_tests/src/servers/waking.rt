//! A side that sessions wake while they run, as they do a copier.
ghost use Rattle.std.specs.Prelude.{◌≡◌};
ghost use Rattle.share_ledger.specs.Begun.{BeginEmpty};

use super::samples::{Served, THREE, first_did, serve_beside, waits_in_vain};
use super::sessions::logged_first;
use crate::checks::holds;
use json_scalar::Refusal;
use server_core::doubles::Script;
use server_core::{Gate, SharedDocuments, Side, Signalled};
use share_ledger::{Blank, Marker};
use std::alloc::Global;
use std::marker::Brand;
use std::process::Abort;
use std::sync::atomic::{AtomicU64, Ordering};
use std::sync::{Mutex, Wait};
use std::thread::Threads;

// Sleeps until it is woken, and then looks how much is logged at the first document.
#[derive(Drop)]
struct Woken<'a> {
    logged: &'a AtomicU64,
}

impl<M: Marker> Side<M> for Woken<'_> {
    fn run<R: Wait>(&mut self, rt: &R, shared: &SharedDocuments<M>, sessions: u64) {
        let mut seen = Signalled {
            notified: 0,
            ended: 0,
        };
        for _ in rt.forever() {
            if let Some(logged) = logged_first(rt, shared) {
                self.logged.store(logged as u64, Ordering::SeqCst);
            }
            if seen.ended >= sessions {
                break;
            }
            seen = shared.signal.wait(rt, seen);
        }
    }
}

// Holds a session open until the side has seen what it logged: the line of this number is held
// back until it has seen each operation of the lines before it, of which the first one opened the
// document.
#[derive(Drop)]
struct UntilSeen<'a> {
    logged: &'a AtomicU64,
    missed: AtomicU64,
}

impl Gate for UntilSeen<'_> {
    fn before(&self, _session: u64, line: u32) {
        if waits_in_vain(self.logged, u64::from(line.saturating_sub(2))) {
            self.missed.store(1, Ordering::SeqCst);
        }
    }

    fn inside(&self, _session: u64, _document: usize) {}
}

// What one session did that passes this gate, beside this side.
fn did_beside<M: Marker + Send + Sync, R: Threads + Wait + Sync>(
    rt: &R,
    alloc: Global,
    blank: Blank,
    gate: &UntilSeen<'_>,
    side: Woken<'_>,
) -> Result<Served, Refusal>
    requires blank { blank ≡ M.name }
    requires begun { BeginEmpty M.origin }
{
    let documents = &["a", "b"];
    let replies = Mutex::new(Vec::new(alloc));
    let scripts = vec![in alloc; Script::new(rt, THREE, &replies)]?;
    let ran = serve_beside::<M, _, _, _>(rt, alloc, blank, documents, 1, scripts, gate, side)?;
    Ok(ran.0)
}

/// The side sees each operation of a session that stays open until it does.
pub fn side_sees_each_operation<R: Threads + Wait + Abort + Sync>(
    rt: &R,
    alloc: Global,
) -> Result<(), Refusal> {
    let logged = AtomicU64::new(0);
    let gate = UntilSeen {
        logged: &logged,
        missed: AtomicU64::new(0),
    };
    let side = Woken { logged: &logged };
    let gathered = did_beside::<Brand, R>(rt, alloc, Blank::new(), &gate, side)?;
    first_did(rt, "side_sees_each_operation", &gathered, 3, &[3]);
    let missed = gate.missed.load(Ordering::SeqCst);
    holds(rt, missed == 0, "side_sees_each_operation");
    Ok(())
}
