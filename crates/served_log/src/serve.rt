//! The stages of a server over a stored log, from its replica name to the totals.
ghost use Rattle.std.specs.Prelude.{◌≡◌, ◌⊎◌, ◌≤◌, List, Option, None, false, length, map};
ghost use Rattle.std.specs.Prelude.{IfOk, IfErr, OnOk, vec_len};
ghost use Rattle.doc_rules.specs.Seats.{Seat};
ghost use Rattle.locked_doc.specs.Numbers.{greatest_number};
ghost use Rattle.server_core.specs.Attended.{AreServed};
ghost use Rattle.server_core.specs.Sums.{AreBooksFrom, AreTotalsFrom, ids_read};
ghost use Rattle.served_log.specs.Batches.{AddsBatches, HasCopied};
ghost use Rattle.served_log.specs.Known.{AreKnown};
ghost use Rattle.served_log.specs.Named.{replica_name};
ghost use Rattle.served_log.specs.Restored.{origin_at};
ghost use Rattle.served_log.specs.Totals.{AreStored, ServesSessions};
ghost use Rattle.served_log.specs.Unwritten.{IsUnwritten};

use crate::copier_seats::agree_each;
use crate::failure::{Failure, Step};
use crate::notes::{CopyLogger, note_documents};
use crate::output::write_totals;
use crate::restore::{RestoredDocuments, Restoring, restore_documents, share_documents};
use crate::rows::has_all;
use crate::serving::{Begun, Serving};
use crate::{Copier, CopierSeats, CopyObserver, FileState, Host};
use locked_doc::{Ledger, Totals};
use log::Log;
use server_core::{Connect, Gate, Gathered, SharedDocuments, run_sessions};
use server_notes::{note_all_stored, note_ended, note_serving};
use share_ledger::{Blank, Marker};
use std::alloc::Global;
use std::io;
use std::sync::Wait;
use std::thread::Threads;
use std::time::Clock;
use stored_log::{Fault, StoredFault, StoredLog};

// What a server serves.
#[derive(Drop)]
struct Sessions<'a, M: Marker, C, G> {
    // The names of the documents, in their order.
    names: &'a [&'a str],
    shared: SharedDocuments<M>,
    // The connections, one for each thread.
    connections: Vec<C>,
    // Who looks on.
    gate: &'a G,
    file: &'a FileState,
}

// Serves the connections while the copier runs, and returns the copier. `ran` gets what the
// sessions did, or why it could not be gathered: clauses follow a copier, which borrows, only where
// it is returned alone.
fn run_beside_copier<
    'a,
    M: Marker + Send + Sync,
    R: Threads + Wait + Sync,
    C: Connect,
    G: Gate + Sync,
    L: StoredLog,
    T: CopyObserver,
>(
    rt: &R,
    alloc: Global,
    sessions: Sessions<'_, M, C, G>,
    copier: Copier<'a, M, L, T>,
    ran: &mut Result<Gathered<M>, Failure>,
) -> Copier<'a, M, L, T>
    ensures sessions { IfOk ran.new (λ g. (given : List (List (Option Seat)))
        × AreServed M.origin sessions.entry.shared.names.items C.bytes C.follows sessions.entry.connections.items
        (map (λ t. t.items) g.endings.items) given
        × AreTotalsFrom M.origin 0 given (ids_read g.followed.items) g.totals.items) }
    ensures books { IfOk ran.new (λ g. AreBooksFrom 0 g.followed.items) }
    ensures each { IfOk ran.new (λ g. vec_len g.totals ≡ length sessions.entry.shared.names.items) }
    ensures same_reference { result.stored.ghost_name ≡ copier.entry.stored.ghost_name }
    ensures same_seats { result.seats.ghost_name ≡ copier.entry.seats.ghost_name }
    // The copier has run, or memory ran out before the first session.
    ensures left { (OnOk ran.new ⊥ × (result.stored.now ≡ copier.entry.stored.now)
        × (result.seats.now ≡ copier.entry.seats.now))
        ⊎ HasCopied M.origin sessions.entry.shared.names.items (L.log copier.entry.stored.now) (L.log result.stored.now)
        copier.entry.seats.now result.seats.now result.fault }
{
    let Sessions {
        names: _,
        shared,
        connections,
        gate,
        file: _,
    } = sessions;
    let (gathered, copier) = run_sessions(rt, alloc, shared, connections, gate, copier);
    match gathered {
        Ok(gathered) => {
            *ran = Ok(gathered);
            copier
        }
        Err(left) => {
            *ran = Err(Failure::of_gathering(&left));
            copier
        }
    }
}

// How the copying ended.
#[derive(Clone, Copy)]
struct CopyEnd {
    // The fault that ended it before all was copied, if one did.
    fault: Option<Fault>,
    // The last fault of the store, if there was one. The copying may have gone on after it.
    met: Option<StoredFault>,
}

// Serves the connections while a copier with these seats runs. It returns what the sessions did, or
// why that could not be gathered, and how the copying ended.
fn serve_with_copier<M: Marker + Send + Sync, R: Host, C: Connect, G: Gate + Sync, L: StoredLog>(
    rt: &R,
    alloc: Global,
    sessions: Sessions<'_, M, C, G>,
    seats: &mut CopierSeats<M>,
    stored: &mut L,
) -> (Result<Gathered<M>, Failure>, CopyEnd)
    ensures sessions { IfOk result.0 (λ g. (given : List (List (Option Seat)))
        × AreServed M.origin sessions.entry.shared.names.items C.bytes C.follows sessions.entry.connections.items
        (map (λ t. t.items) g.endings.items) given
        × AreTotalsFrom M.origin 0 given (ids_read g.followed.items) g.totals.items) }
    ensures books { IfOk result.0 (λ g. AreBooksFrom 0 g.followed.items) }
    ensures each { IfOk result.0
        (λ g. vec_len g.totals ≡ length sessions.entry.shared.names.items) }
    ensures left { (OnOk result.0 ⊥ × (stored.new ≡ stored.old) × (seats.new ≡ seats.old))
        ⊎ HasCopied M.origin sessions.entry.shared.names.items (L.log stored.old) (L.log stored.new)
        seats.old seats.new result.1.fault }
{
    let pace = sessions.shared.progress.pace();
    let deadline = match sessions.connections.first() {
        Some(connection) => Some(connection.deadline()),
        None => None,
    };
    let logger = CopyLogger {
        rt,
        file: sessions.file,
        names: sessions.names,
        pace,
        deadline,
    };
    let copier = Copier::new(stored, seats, &logger);
    let mut ran = Err(Failure::Memory(Step::Begin));
    let copier = run_beside_copier(rt, alloc, sessions, copier, &mut ran);
    let met = copier.met();
    let fault = copier.end();
    note_ended(rt);
    (ran, CopyEnd { fault, met })
}

// The outcome once the totals are written: a failure where the copying ended before all was copied,
// where the stored log lacks operations that the totals count, or where its store failed meanwhile.
fn outcome_of<R: Log + Clock, L: StoredLog>(
    rt: &R,
    copied: CopyEnd,
    stored: &L,
    names: &[&str],
    totals: &[Totals],
) -> Result<(), Failure>
    requires { length totals.now ≡ length names.now }
    ensures copied { OnOk result (copied.fault ≡ None) }
    // After a fault the status stays 1.
    ensures met { OnOk result (copied.met ≡ None) }
    ensures stored { OnOk result (AreStored (L.log stored.now).docs (map (λ s. s.now) names.now) totals.now) }
    ensures written { IfErr result (λ why. ¬ IsUnwritten why) }
{
    if let Some(why) = copied.fault {
        return Err(Failure::of_copying(why, stored));
    }
    if !has_all(stored, names, totals) {
        return Err(Failure::Unstored);
    }
    match copied.met {
        Some(why) => {
            note_all_stored(rt);
            Err(Failure::Recovered(why))
        }
        None => Ok(()),
    }
}

// Serves these sessions while a copier with these seats runs, and writes the totals at the end. It
// fails where memory runs out, where the writer fails, or where not all that the sessions logged is
// stored.
fn serve_sessions<
    M: Marker + Send + Sync,
    R: Host,
    C: Connect,
    G: Gate + Sync,
    L: StoredLog,
    W: io::Write,
>(
    rt: &R,
    alloc: Global,
    sessions: Sessions<'_, M, C, G>,
    seats: CopierSeats<M>,
    stored: &mut L,
    out: &mut W,
) -> Result<(), Failure>
    requires named { sessions.shared.names.items ≡ map (λ s. s.now) sessions.names.now }
    requires known { AreKnown (L.log stored.old).docs (map (λ s. s.now) sessions.names.now) seats }
    ensures served { OnOk result (ServesSessions C.bytes C.follows M.origin (L.log stored.new).docs (map (λ s. s.now) sessions.entry.names.now)
        sessions.entry.connections.items (W.contents out.old) (W.contents out.new)) }
    ensures unwritten { IfErr result (λ why. IsUnwritten why → out.new ≡ out.old) }
    ensures copied { OnOk result (AddsBatches M.origin (map (λ s. s.now) sessions.entry.names.now) (L.log stored.old) (L.log stored.new)) }
    ensures works { OnOk result ((L.log stored.old).has_failed ≡ false
        → (L.log stored.new).has_failed ≡ false) }
    ensures grown { (L.log stored.new).has_failed ≡ false
        → AddsBatches M.origin (map
        (λ s. s.now) sessions.entry.names.now) (L.log stored.old) (L.log stored.new) }
    ensures alone { (L.log stored.new).is_alone ≡ (L.log stored.old).is_alone }
{
    let names = sessions.names;
    let mut seats = seats;
    let (ran, copied) = serve_with_copier(rt, alloc, sessions, &mut seats, stored);
    let gathered = ran?;
    agree_each(gathered.followed.as_slice(), &seats);
    let totals = gathered.totals.as_slice();
    match write_totals(alloc, names, totals, out) {
        Ok(()) => outcome_of(rt, copied, stored, names, totals),
        Err(error) => Err(Failure::Output(error)),
    }
}

// Restores the documents of a start from the stored log. The counters are of a new table, `blank`.
fn restore<M: Marker, C, G, L: StoredLog>(
    alloc: Global,
    blank: Blank,
    begun: &Begun<'_, C, G>,
    stored: &L,
) -> Result<RestoredDocuments<M>, Fault>
    requires blank { blank ≡ M.name }
    requires begun { M.origin
        ≡ origin_at begun.now.replica (L.log stored.now).docs (map
        (λ s. s.now) begun.now.serving.documents.now) }
    requires few { length begun.now.serving.documents.now ≤ greatest_number }
    ensures names { IfOk result
        (λ made. made.names.items ≡ map (λ s. s.now) begun.now.serving.documents.now) }
    ensures known { IfOk result (λ made. AreKnown (L.log stored.now).docs
        (map (λ s. s.now) begun.now.serving.documents.now) made.seats) }
{
    let mut ledger = Ledger::<M>::new(blank);
    let from = Restoring {
        stored,
        replica: &begun.replica,
        seats: begun.serving.seats,
    };
    restore_documents(alloc, &mut ledger, &from, begun.serving.documents)
}

// Restores the documents of a start from the stored log, and serves its connections over
// them, and those that follow. The counters are of a new table, `blank`.
pub(crate) fn restore_and_serve<
    M: Marker + Send + Sync,
    R: Host,
    C: Connect,
    G: Gate + Sync,
    L: StoredLog,
    W: io::Write,
>(
    rt: &R,
    alloc: Global,
    blank: Blank,
    begun: Begun<'_, C, G>,
    stored: &mut L,
    out: &mut W,
) -> Result<(), Failure>
    requires blank { blank ≡ M.name }
    requires named { begun.replica ≡ replica_name begun.serving.name.now (L.log stored.old).epoch }
    requires begun { M.origin
        ≡ origin_at begun.replica (L.log stored.old).docs (map
        (λ s. s.now) begun.serving.documents.now) }
    requires few { length begun.serving.documents.now ≤ greatest_number }
    ensures served { OnOk result (ServesSessions C.bytes C.follows M.origin (L.log stored.new).docs (map (λ s. s.now) begun.entry.serving.documents.now)
        begun.entry.serving.connections.items (W.contents out.old) (W.contents out.new)) }
    ensures unwritten { IfErr result (λ why. IsUnwritten why → out.new ≡ out.old) }
    ensures copied { OnOk result
        (AddsBatches M.origin (map
        (λ s. s.now) begun.entry.serving.documents.now) (L.log stored.old) (L.log stored.new)) }
    ensures works { OnOk result ((L.log stored.old).has_failed ≡ false
        → (L.log stored.new).has_failed ≡ false) }
    ensures grown { (L.log stored.new).has_failed ≡ false
        → AddsBatches M.origin (map
        (λ s. s.now) begun.entry.serving.documents.now) (L.log stored.old) (L.log stored.new) }
    ensures alone { (L.log stored.new).is_alone ≡ (L.log stored.old).is_alone }
{
    note_serving(rt, begun.replica.as_str());
    let restored = match restore::<M, C, G, L>(alloc, blank, &begun, stored) {
        Ok(restored) => restored,
        Err(fault) => return Err(Failure::of_restoring(fault, stored)),
    };
    let Serving {
        name: _,
        documents,
        pace,
        seats: _,
        connections,
        gate,
        file,
    } = begun.serving;
    note_documents(rt, file, stored, documents);
    let Ok((shared, seats)) = share_documents(alloc, restored, pace) else {
        return Err(Failure::Memory(Step::Restore));
    };
    let sessions = Sessions {
        names: documents,
        shared,
        connections,
        gate,
        file,
    };
    serve_sessions(rt, alloc, sessions, seats, stored, out)
}
