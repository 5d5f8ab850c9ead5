//! Restoring the documents of a server from the stored log.
ghost use Rattle.std.specs.Prelude.{◌≡◌, ◌⊎◌, ◌-◌, ◌+◌, ◌≤◌, ◌++◌, ◌∷◌, [], true, length, map};
ghost use Rattle.std.specs.Prelude.{IfOk, IfErr, OnOk, Err};
ghost use Rattle.share_ledger.specs.Begun.{MayBeNamed};
ghost use Rattle.share_ledger.specs.Counters.{stored_ids};
ghost use Rattle.doc_rules.specs.Document.{new_document};
ghost use Rattle.locked_doc.specs.Numbers.{greatest_number};
ghost use Rattle.stored_log.specs.Docs.{log_of};
ghost use Rattle.doc_rules.specs.Seats.{operation_ids};
ghost use Rattle.served_log.specs.Known.{AreKnown};
ghost use Rattle.served_log.specs.Restored.{origin_at, restored};

use crate::copier_seats::CopierSeats;
use json_scalar::Refusal;
use lamport_id::ReplicaName;
use line_proto::Name;
use locked_doc::{CopierSeat, Ledger, LockedDoc, Shelf};
use server_core::{Pace, Progress, SharedDocuments, Signal};
use share_ledger::{Marker, StoreShare};
use std::alloc::Global;
use stored_log::{Fault, StoredLog};

/// Named documents before sessions share them. Contracts know each of them; once they are behind
/// locks, they can't.
#[derive(Drop)]
pub struct RestoredDocuments<M: Marker> {
    /// The names, in the order of the documents.
    pub names: Vec<Name>,
    /// The documents, as many as there are names.
    pub docs: Vec<LockedDoc<M>>,
    /// The copier's seats in them, in order.
    pub seats: CopierSeats<M>,
    /// The sessions' halves of what is stored of them, in order.
    pub shares: Vec<StoreShare<M>>,
    ghost as_many: { length names.items ≡ length docs.items },
}

// Clones of the names, in order. The one error is `NoMemory`.
fn copy_names(alloc: Global, names: &[&str]) -> Result<Vec<Name>, Refusal>
    ensures names { IfOk result (λ made. made.items ≡ map (λ s. s.now) names.now) }
{
    let mut made = Vec::new(alloc);
    for name in names {
        made.push(Name::new(alloc, name)?)?;
    }
    Ok(made)
}

/// What documents are restored from, and for whom.
#[derive(Drop)]
pub struct Restoring<'a, L> {
    /// The stored log.
    pub stored: &'a L,
    /// The replica that has the documents.
    pub replica: &'a ReplicaName,
    /// How many seats each has.
    pub seats: u16,
}

// Restores the document of this name, and opens the copier's seat there. What is stored counts as
// stored, at the seat and at the sessions' half.
fn restore_one<M: Marker, L: StoredLog>(
    alloc: Global,
    ledger: &mut Ledger<M>,
    from: &Restoring<'_, L>,
    name: &str,
) -> Result<(LockedDoc<M>, CopierSeat<M>, StoreShare<M>), Fault>
    requires number { 1 ≤ greatest_number - ledger.old }
    requires begun { log_of name.now (L.log from.now.stored.now).docs ≡ (M.origin ledger.old).log }
    requires named { MayBeNamed (M.origin ledger.old) from.now.replica.now }
    ensures made { IfOk result (λ made. made.0.document
        ≡ new_document from.now.replica.now (log_of name.now (L.log from.now.stored.now).docs) from.now.seats) }
    ensures seat { IfOk result (λ made. (made.1.number ≡ ledger.old)
        × (made.1.ids ≡ operation_ids (log_of name.now (L.log from.now.stored.now).docs))) }
    ensures stored { IfOk result
        (λ made. made.1.stored ≡ operation_ids (log_of name.now (L.log from.now.stored.now).docs)) }
    ensures share { IfOk result (λ made. made.2
        ≡ stored_ids ledger.old (operation_ids (log_of name.now (L.log from.now.stored.now).docs))) }
    ensures next { OnOk result (ledger.new ≡ ledger.old + 1) }
    ensures never_refused { IfErr result (λ e. (e ≡ Fault.Store) ⊎ (e ≡ Fault.Memory)) }
    ensures failed { result ≡ Err Fault.Store → (L.log from.now.stored.now).has_failed ≡ true }
{
    let log = from.stored.load(alloc, name)?;
    let Ok(mut doc) = ledger.of_log(alloc, from.replica, log, from.seats) else {
        return Err(Fault::Memory);
    };
    let Some((seat, share)) = doc.open_copier() else {
        unreachable!();
    };
    Ok((doc, seat, share))
}

// Pushes the document.
fn push_doc<M: Marker>(docs: &mut Vec<LockedDoc<M>>, doc: LockedDoc<M>) -> Result<(), Fault>
    ensures ok { OnOk result (docs.new.items ≡ docs.old.items ++ doc ∷ []) }
    ensures err { IfErr result (λ e. e ≡ Fault.Memory) }
{
    match docs.push(doc) {
        Ok(()) => Ok(()),
        Err(_) => Err(Fault::Memory),
    }
}

// Pushes the sessions' half of what is stored of a document.
fn push_share<M: Marker>(shares: &mut Vec<StoreShare<M>>, share: StoreShare<M>) -> Result<(), Fault>
    ensures ok { OnOk result (shares.new.items ≡ shares.old.items ++ share ∷ []) }
    ensures err { IfErr result (λ e. e ≡ Fault.Memory) }
{
    match shares.push(share) {
        Ok(()) => Ok(()),
        Err(_) => Err(Fault::Memory),
    }
}

// Restores the documents of these names, and opens the copier's seats there. They are the first of a
// ledger.
fn restore_all<M: Marker, L: StoredLog>(
    alloc: Global,
    ledger: &mut Ledger<M>,
    from: &Restoring<'_, L>,
    names: &[&str],
) -> Result<(Vec<LockedDoc<M>>, CopierSeats<M>, Vec<StoreShare<M>>), Fault>
    requires few { length names.now ≤ greatest_number }
    requires first { ledger.old ≡ 0 }
    requires begun { M.origin
        ≡ origin_at from.now.replica.now (L.log from.now.stored.now).docs (map
        (λ s. s.now) names.now) }
    ensures documents { IfOk result (λ made. map (λ d. d.document) made.0.items
        ≡ map (λ n. new_document from.now.replica.now (log_of n (L.log from.now.stored.now).docs) from.now.seats)
        (map (λ s. s.now) names.now)) }
    ensures each { IfOk result (λ made. length made.0.items ≡ length names.now) }
    ensures known { IfOk result
        (λ made. AreKnown (L.log from.now.stored.now).docs (map (λ s. s.now) names.now) made.1) }
    ensures never_refused { IfErr result (λ e. (e ≡ Fault.Store) ⊎ (e ≡ Fault.Memory)) }
    ensures failed { result ≡ Err Fault.Store → (L.log from.now.stored.now).has_failed ≡ true }
{
    let mut docs = Vec::new(alloc);
    let mut seats = CopierSeats::new(alloc);
    let mut shares = Vec::new(alloc);
    for name in names {
        let (doc, seat, share) = restore_one(alloc, ledger, from, name)?;
        push_doc(&mut docs, doc)?;
        seats.push(seat)?;
        push_share(&mut shares, share)?;
    }
    Ok((docs, seats, shares))
}

/// Restores the documents of these names from the stored log. Their entries belong to seat 0, and
/// are noted as copied. The copier has a seat in each, and has read what is stored; just that counts
/// as stored. They are the first documents of the ledger. The error is `Memory`, or `Store` once the stored log has failed;
/// never `Refused`.
pub fn restore_documents<M: Marker, L: StoredLog>(
    alloc: Global,
    ledger: &mut Ledger<M>,
    from: &Restoring<'_, L>,
    names: &[&str],
) -> Result<RestoredDocuments<M>, Fault>
    requires few { length names.now ≤ greatest_number }
    requires first { ledger.old ≡ 0 }
    requires begun { M.origin
        ≡ origin_at from.now.replica.now (L.log from.now.stored.now).docs (map
        (λ s. s.now) names.now) }
    ensures names { IfOk result (λ made. made.names.items ≡ map (λ s. s.now) names.now) }
    ensures documents { IfOk result (λ made. map (λ d. d.document) made.docs.items
        ≡ restored from.now.replica.now (L.log from.now.stored.now).docs from.now.seats (map
        (λ s. s.now) names.now)) }
    ensures known { IfOk result
        (λ made. AreKnown (L.log from.now.stored.now).docs (map (λ s. s.now) names.now) made.seats) }
    ensures never_refused { IfErr result (λ e. (e ≡ Fault.Store) ⊎ (e ≡ Fault.Memory)) }
    ensures failed { result ≡ Err Fault.Store → (L.log from.now.stored.now).has_failed ≡ true }
{
    let Ok(made) = copy_names(alloc, names) else {
        return Err(Fault::Memory);
    };
    let (docs, seats, shares) = restore_all(alloc, ledger, from, names)?;
    Ok(RestoredDocuments {
        names: made,
        docs,
        seats,
        shares,
    })
}

/// Puts the documents behind locks, in order, and returns the copier's seats beside. Replies to
/// changes of them go out at this pace. The one error is `NoMemory`.
pub fn share_documents<M: Marker>(
    alloc: Global,
    restored: RestoredDocuments<M>,
    pace: Pace,
) -> Result<(SharedDocuments<M>, CopierSeats<M>), Refusal>
    ensures names { IfOk result (λ made. made.0.names.items ≡ restored.names.items) }
    ensures seats { IfOk result (λ made. made.1 ≡ restored.seats) }
    ensures pace { IfOk result (λ made. made.0.progress.pace ≡ pace) }
    ensures memory { IfErr result (λ cause. cause ≡ Refusal.NoMemory) }
{
    let RestoredDocuments {
        names,
        docs,
        seats,
        shares,
    } = restored;
    let Ok(progress) = Progress::new(alloc, shares, pace) else {
        return Err(Refusal::NoMemory);
    };
    let mut shelf = Shelf::new(alloc);
    for doc in docs {
        if shelf.put(doc).is_err() {
            return Err(Refusal::NoMemory);
        }
    }
    let shared = SharedDocuments {
        names,
        shelf,
        signal: Signal::new(),
        progress,
    };
    Ok((shared, seats))
}
