//! A server over a stored log, from the start of an epoch to the closed log.
ghost use Rattle.std.specs.Prelude.{◌≡◌, ◌≤◌, true, false, length, map, IfErr, OnOk, OnErr};
ghost use Rattle.locked_doc.specs.Numbers.{greatest_number};
ghost use Rattle.served_log.specs.Named.{replica_name};
ghost use Rattle.served_log.specs.Stored.{LeavesStored, ServesFolded, ServesStored};
ghost use Rattle.served_log.specs.Unwritten.{IsUnwritten};

use crate::Host;
use crate::failure::{Failure, Step};
use crate::output::report_fault;
use crate::replica_name::next_replica_name;
use crate::serve::restore_and_serve;
use crate::serving::{Begun, Serving};
use server_core::{Connect, Gate};
use server_notes::note_unstarted;
use share_ledger::Blank;
use std::alloc::Global;
use std::io;
use std::marker::Brand;
use stored_log::{StoredFault, StoredLog};

/// How a server over a stored log has ended.
#[derive(Drop)]
pub struct Ended<T> {
    /// Ok where it served to its end, or why it did not.
    pub served: Result<(), Failure>,
    /// Ok where the log was closed, so that the place that is left alone has all of it; or why it
    /// was not.
    pub closed: Result<(), StoredFault>,
    /// Whether the stored log failed while it served.
    pub has_failed: bool,
    /// What is left of the stored log. Its drop closes the files.
    pub store: T,
}

impl<T> Ended<T> {
    /// The status of a program that ends so: 0 where it served and closed its log, 1 otherwise.
    pub fn status(&self) -> u8
        ensures bound { result ≤ 1 }
        ensures well { result ≡ 0 → OnErr self.now.served ⊥ × OnErr self.now.closed ⊥ }
    {
        match (&self.served, &self.closed) {
            (Ok(()), Ok(())) => 0,
            _ => 1,
        }
    }
}

// Whether the stored log has failed.
fn has_failed<L: StoredLog>(stored: &L) -> bool
    ensures { result ≡ (L.log stored.now).has_failed }
{
    stored.epoch().is_err()
}

// Closes the stored log of a server that has ended.
fn end<L: StoredLog>(served: Result<(), Failure>, stored: L) -> Ended<L::Left>
    ensures served { result.served ≡ served }
    ensures failed { result.has_failed ≡ (L.log stored).has_failed }
    ensures held { OnOk result.closed ((L.log stored).has_failed ≡ false
        → L.is_in_file stored result.store) }
    ensures left { OnErr result.closed ((L.log stored).has_failed ≡ false
        → L.is_in_store stored result.store) }
{
    let has_failed = has_failed(&stored);
    match stored.close() {
        Ok(store) => Ended {
            served,
            closed: Ok(()),
            has_failed,
            store,
        },
        Err((fault, store)) => Ended {
            served,
            closed: Err(fault),
            has_failed,
            store,
        },
    }
}

// Folds the stored log, whose epoch is the start's. Then it serves, as `restore_and_serve`, with a
// new table of counters, and closes the log.
fn fold_and_serve<R: Host, C: Connect, G: Gate + Sync, L: StoredLog, W: io::Write>(
    rt: &R,
    alloc: Global,
    begun: Begun<'_, C, G>,
    stored: L,
    out: &mut W,
) -> Ended<L::Left>
    requires few { length begun.serving.documents.now ≤ greatest_number }
    requires named { begun.replica ≡ replica_name begun.serving.name.now (L.log stored).epoch }
    requires works { (L.log stored).has_failed ≡ false }
    ensures served { OnOk result.served (ServesFolded L.StoredLog C.bytes C.follows begun.entry.replica
        (map (λ s. s.now) begun.entry.serving.documents.now) begun.entry.serving.connections.items
        stored result.closed result.store (W.contents out.old) (W.contents out.new)) }
    ensures unwritten { IfErr result.served (λ why. IsUnwritten why → out.new ≡ out.old) }
    ensures left { LeavesStored L.StoredLog (map (λ s. s.now) begun.entry.serving.documents.now)
        stored result.has_failed result.closed result.store }
{
    match stored.fold() {
        Ok(folded) => {
            let mut stored = folded;
            let served = restore_and_serve::<Brand, R, C, G, L, W>(
                rt,
                alloc,
                Blank::new(),
                begun,
                &mut stored,
                out,
            );
            end(served, stored)
        }
        Err((why, store)) => {
            let failure = Failure::Store(Step::Fold, why);
            // The connections are dropped behind it.
            note_unstarted(rt, &failure);
            Ended {
                served: Err(failure),
                closed: Err(why),
                has_failed: false,
                store,
            }
        }
    }
}

/// Starts a new epoch of the stored log and folds it, so that the place where it stays for good has
/// the epoch before anything is served. Then it restores the documents, serves the connections over
/// them, stores what they log meanwhile, and writes the totals at the end. However it ends, it
/// closes the log, so that the place that is left has all of it.
///
/// The failure says why it did not serve to its end. If the log was refused (no epoch is left, or
/// the name is too long), it also writes the refusal. If the log fails while sessions run, they go
/// on, and the failure is `Stopped` at the end.
pub fn serve_stored<R: Host, C: Connect, G: Gate + Sync, L: StoredLog, W: io::Write>(
    rt: &R,
    alloc: Global,
    serving: Serving<'_, C, G>,
    stored: L,
    out: &mut W,
) -> Ended<L::Left>
    requires few { length serving.documents.now ≤ greatest_number }
    ensures served { OnOk result.served (ServesStored L.StoredLog C.bytes C.follows serving.entry.name.now
        (map (λ s. s.now) serving.entry.documents.now) serving.entry.connections.items
        stored result.closed result.store (W.contents out.old) (W.contents out.new)) }
    ensures unwritten { IfErr result.served (λ why. IsUnwritten why → out.new ≡ out.old) }
    ensures left { LeavesStored L.StoredLog (map (λ s. s.now) serving.entry.documents.now)
        stored result.has_failed result.closed result.store }
{
    let mut stored = stored;
    match next_replica_name(alloc, &mut stored, serving.name, serving.documents) {
        Ok(replica) => fold_and_serve(rt, alloc, Begun { replica, serving }, stored, out),
        Err(fault) => {
            // Where the writer fails nothing more can be written.
            let _ = report_fault(fault, out);
            let failure = Failure::of_epoch(fault, &stored);
            // The connections are dropped behind it.
            note_unstarted(rt, &failure);
            end(Err(failure), stored)
        }
    }
}

/// `serve_stored`, with the status of a program that ends so: 0, or 1 where it failed. What is left
/// of the log can be opened again, as a restart does.
pub fn serve_over<R: Host, C: Connect, G: Gate + Sync, L: StoredLog, W: io::Write>(
    rt: &R,
    alloc: Global,
    serving: Serving<'_, C, G>,
    stored: L,
    out: &mut W,
) -> (u8, Ended<L::Left>)
    requires few { length serving.documents.now ≤ greatest_number }
    ensures status { result.0 ≤ 1 }
    ensures served { result.0 ≡ 0 → ServesStored L.StoredLog C.bytes C.follows
        serving.entry.name.now (map (λ s. s.now) serving.entry.documents.now) serving.entry.connections.items
        stored result.1.closed result.1.store (W.contents out.old) (W.contents out.new) }
    ensures closed { result.0 ≡ 0 → OnErr result.1.closed ⊥ }
    // However it ends, no row is lost.
    ensures left { LeavesStored L.StoredLog (map (λ s. s.now) serving.entry.documents.now)
        stored result.1.has_failed result.1.closed result.1.store }
{
    let ended = serve_stored(rt, alloc, serving, stored, out);
    (ended.status(), ended)
}
