//! Batches: the next entries of a document, from its log into the stored log.
ghost use Rattle.std.specs.Prelude.{◌≡◌, ◌≢◌, ◌⊎◌, ◌↔◌, ◌<◌, ◌≤◌, ltb, List, [], length};
ghost use Rattle.std.specs.Prelude.{◌+◌, ◌^◌, ◌++◌, true, false, IsTrue, IfOk, IfErr, OnOk, OnErr, Ok, Err};
ghost use Rattle.json_scalar.specs.Refusal.{UnlessMemory};
ghost use Rattle.doc_api.specs.Words.{Op};
ghost use Rattle.doc_rules.specs.Document.{copied_to, tail};
ghost use Rattle.doc_rules.specs.Seats.{operation_ids};
ghost use Rattle.locked_doc.specs.Followed.{IsPrefix, copying};
ghost use Rattle.stored_log.specs.Docs.{IsBatch, add_batch, log_of};
ghost use Rattle.stored_log.specs.Log.{IsAddedOrNot, ShowsBatchOrNot};
ghost use Rattle.served_log.specs.Batches.{AddsMany, AddsOf, AreAdded, AreAddedUpTo, AddsBatches};
ghost use Rattle.served_log.specs.Batches.{IsNextOf};
ghost use Rattle.served_log.specs.Known.{AreReadFrom, EndsWith, KnowsRows, StaysKnown};
ghost use Rattle.served_log.specs.Kept.{IsKept, StaysKept};

use crate::copier_seats::CopierSeats;
use crate::document_to_copy::DocumentToCopy;
use crate::observer::CopyObserver;
use crate::recovery::{Recovery, recover};
use doc_api::Operations;
use json_scalar::Refusal;
use locked_doc::{CopierSeat, LockedDoc};
use op_core::Operation;
use server_core::{SharedDocuments, lock_document};
use share_ledger::Marker;
use std::sync::Wait;
use stored_log::{Fault, MAX_BATCH, StoredLog};

// The entries from this index on of the document, which has this number: at most a batch of them.
// Its copier then has read all that is logged.
fn next_of<M: Marker>(
    doc: &mut LockedDoc<M>,
    _doc_index: usize,
    seat: &mut CopierSeat<M>,
    from: usize,
) -> Result<Operations, Refusal>
    requires number { doc.old.number ≡ _doc_index }
    requires seat { seat.old.number ≡ _doc_index }
    ensures tail { UnlessMemory result (Ok (tail from MAX_BATCH doc.old.document)) }
    ensures next { IfOk result (IsNextOf M.origin _doc_index from) }
    ensures read { IfOk result (λ entries. AreReadFrom from entries seat.new.ids) }
    ensures grows { IsPrefix seat.old.ids seat.new.ids }
    ensures stays { (seat.new.number ≡ seat.old.number) × (seat.new.stored ≡ seat.old.stored) }
{
    doc.keeps_sound();
    doc.tail_for(seat, from, MAX_BATCH)
}

// The next entries of the document. Its lock is held while they are read.
fn next_at<M: Marker, R: Wait>(
    rt: &R,
    document: &DocumentToCopy<'_, M>,
    seat: &mut CopierSeat<M>,
    from: usize,
) -> Result<Operations, Refusal>
    requires { seat.old.number ≡ document.now.doc_index }
    ensures next { IfOk result (IsNextOf M.origin document.now.doc_index from) }
    ensures read { IfOk result (λ entries. AreReadFrom from entries seat.new.ids) }
    ensures grows { IsPrefix seat.old.ids seat.new.ids }
    ensures stays { (seat.new.number ≡ seat.old.number) × (seat.new.stored ≡ seat.old.stored) }
{
    let mut doc = lock_document(rt, document.shared, document.doc_index, 0);
    next_of(&mut doc, document.doc_index, seat, from)
}

// Notes in the document how many of its entries the stored log has: so many.
fn note_rows<M: Marker, L: StoredLog>(doc: &mut LockedDoc<M>, _stored: &L, _name: &str, rows: usize)
    requires { rows ≡ length (log_of _name.now (L.log _stored.now).docs) }
    ensures { (doc.new.number ≡ doc.old.number)
        × (doc.new.document
        ≡ copied_to (length (log_of _name.now (L.log _stored.now).docs)) doc.old.document) }
{
    doc.note_copied(rows as u64);
}

// Notes in the document how many of its entries the stored log has: so many. Its lock is held
// meanwhile.
fn note_at<M: Marker, R: Wait, L: StoredLog>(
    rt: &R,
    document: &DocumentToCopy<'_, M>,
    stored: &L,
    rows: usize,
)
    requires { rows ≡ length (log_of document.now.name.now (L.log stored.now).docs) }
{
    let mut doc = lock_document(rt, document.shared, document.doc_index, 0);
    note_rows(&mut doc, stored, document.name, rows);
}

// Notifies the observer of these entries, which were just added to the document of this name.
fn notify_added<L: StoredLog, T: CopyObserver>(
    observer: &T,
    stored: &L,
    name: &str,
    entries: &[Operation],
) {
    if let Ok(rows) = stored.rows(name) {
        observer.added(stored, name, rows, entries);
    }
}

// Adds these entries to the stored log, behind the `from` entries of the document.
fn add_next<L: StoredLog>(
    stored: &mut L,
    name: &str,
    from: usize,
    entries: &[Operation],
) -> Result<(), Fault>
    requires some { entries.now ≢ [] }
    requires behind { from ≡ length (log_of name.now (L.log stored.old).docs) }
    ensures some { OnOk result ((adds : AddsMany name.now (length entries.now)
        (L.log stored.old).docs (L.log stored.new).docs) × (adds.next.ops ≡ entries.now)) }
    ensures works { OnOk result (((L.log stored.new).epoch ≡ (L.log stored.old).epoch)
        × ((L.log stored.new).has_failed ≡ false)) }
    ensures err { IfErr result (λ e. (e ≡ Fault.Store) ⊎ (stored.new ≡ stored.old)) }
    ensures failed { (result ≡ Err Fault.Store) ↔ ((L.log stored.new).has_failed ≡ true) }
    ensures alone { (L.log stored.new).is_alone ≡ (L.log stored.old).is_alone }
    // A crash leaves what was there, or all of them besides.
    ensures crash { (L.log stored.old).has_failed ≡ false
        → L.survives stored.new (IsAddedOrNot name.now entries.now (L.log stored.old)) }
    ensures kept { OnOk result (IsKept L.StoredLog stored.new) }
    ensures shows { result ≡ Err Fault.Store → (L.log stored.old).has_failed ≡ false
        → ShowsBatchOrNot name.now from entries.now (L.log stored.old) (L.log stored.new) }
{
    stored.append(name, from, entries)
}

// Adds these entries to the stored log, as `add_next`. Where that fails, the store is opened again
// until they are in it.
fn add_through<M: Marker, R: Wait, L: StoredLog, T: CopyObserver>(
    rt: &R,
    document: &DocumentToCopy<'_, M>,
    stored: &mut L,
    observer: &T,
    recovery: &mut Recovery,
    from: usize,
    entries: &[Operation],
) -> Result<(), Fault>
    requires some { entries.now ≢ [] }
    requires behind { from ≡ length (log_of document.now.name.now (L.log stored.old).docs) }
    requires works { (L.log stored.old).has_failed ≡ false }
    ensures some { OnOk result ((adds : AddsMany document.now.name.now (length entries.now)
        (L.log stored.old).docs (L.log stored.new).docs) × (adds.next.ops ≡ entries.now)) }
    ensures works { OnOk result (((L.log stored.new).epoch ≡ (L.log stored.old).epoch)
        × ((L.log stored.new).has_failed ≡ false)) }
    ensures kept { OnOk result (IsKept L.StoredLog stored.new) }
    ensures err { IfErr result (λ e. (e ≡ Fault.Store) ⊎ (stored.new ≡ stored.old)) }
    ensures failed { (result ≡ Err Fault.Store) ↔ ((L.log stored.new).has_failed ≡ true) }
    ensures alone { (L.log stored.new).is_alone ≡ (L.log stored.old).is_alone }
{
    observer.adds();
    match add_next(stored, document.name, from, entries) {
        Err(Fault::Store) => recover(rt, document, stored, observer, recovery, from, entries),
        answer => answer,
    }
}

// Whether the sessions know just so many entries of the document to be stored, and are told by this
// seat.
fn is_published<M: Marker>(
    document: &DocumentToCopy<'_, M>,
    seat: &CopierSeat<M>,
    rows: usize,
) -> bool
    ensures { IsTrue result
        → (document.now.doc_index < length document.now.shared.now.progress.counters.counters.items)
        × (length seat.now.stored ≡ rows) }
{
    document.doc_index < document.shared.progress.documents() && seat.stored() == rows as u64
}

// Tells waiting sessions that these entries of the document are stored, behind those that they know
// of: the stored log has them, as the last ones, and a crash leaves them.
fn publish<M: Marker, R: Wait, L: StoredLog>(
    rt: &R,
    document: &DocumentToCopy<'_, M>,
    seat: &mut CopierSeat<M>,
    _stored: &L,
    entries: &[Operation],
)
    requires of { seat.old.number ≡ document.now.doc_index }
    requires there { document.now.doc_index
        < length document.now.shared.now.progress.counters.counters.items }
    requires fits { length seat.old.stored + length entries.now < 2 ^ 64 }
    requires has { EndsWith (L.log _stored.now).docs document.now.name.now entries.now }
    requires kept { IsKept L.StoredLog _stored.now }
    ensures { seat.new ≡ copying seat.old.number seat.old.ids
        (seat.old.stored ++ operation_ids entries.now) }
{
    document.shared.progress.publish(rt, seat, entries);
}

// Notes in the document how many of its entries the stored log has, and tells waiting sessions of
// these, which were just added.
fn note_written<M: Marker, R: Wait, L: StoredLog>(
    rt: &R,
    document: &DocumentToCopy<'_, M>,
    seat: &mut CopierSeat<M>,
    stored: &L,
    entries: &[Operation],
) -> Result<(), Fault>
    requires of { seat.old.number ≡ document.now.doc_index }
    requires there { document.now.doc_index
        < length document.now.shared.now.progress.counters.counters.items }
    requires behind { length seat.old.stored + length entries.now
        ≡ length (log_of document.now.name.now (L.log stored.now).docs) }
    requires has { EndsWith (L.log stored.now).docs document.now.name.now entries.now }
    requires kept { IsKept L.StoredLog stored.now }
    ensures told { OnOk result (seat.new ≡ copying seat.old.number seat.old.ids
        (seat.old.stored ++ operation_ids entries.now)) }
    ensures untold { OnErr result (seat.new ≡ seat.old) }
    ensures failed { (result ≡ Err Fault.Store) ↔ ((L.log stored.now).has_failed ≡ true) }
    ensures never_else { IfErr result (λ e. e ≡ Fault.Store) }
{
    let rows = stored.rows(document.name)?;
    note_at(rt, document, stored, rows);
    publish(rt, document, seat, stored, entries);
    Ok(())
}

/// Copies the next entries of the document, at most 256, which it reads by the copier's seat there.
/// So what the stored log has of the document stays a prefix of what was read of it. Then it notes
/// in the document how many of its entries the stored log has, and notifies the sessions that wait
/// for them and the observer: just what the log has then counts as stored, and a crash leaves it. It
/// returns how many it copied. The document's lock isn't held while they are written. If the store
/// fails it is opened again until they are in it; `recovery` has the fault then. The error is
/// `Memory`, or `Refused` for a batch that doesn't follow, or where sessions don't know the entries
/// before it to be stored, with the stored log unchanged; or `Store` once that has failed and can't
/// be opened again. Then nothing is noted.
pub fn copy_some<M: Marker, R: Wait, L: StoredLog, T: CopyObserver>(
    rt: &R,
    document: &DocumentToCopy<'_, M>,
    seat: &mut CopierSeat<M>,
    stored: &mut L,
    observer: &T,
    recovery: &mut Recovery,
) -> Result<usize, Fault>
    requires { seat.old.number ≡ document.now.doc_index }
    ensures some { IfOk result (λ count. 0 < count
        → AddsOf M.origin document.now.doc_index document.now.name.now count (L.log stored.old).docs (L.log stored.new).docs) }
    ensures none { result ≡ Ok 0 → stored.new ≡ stored.old }
    ensures known { (result ≡ Err Fault.Store)
        ⊎ (KnowsRows (L.log stored.old).docs document.now.name.now seat.old
        → KnowsRows (L.log stored.new).docs document.now.name.now seat.new) }
    // What counts as stored is behind a crash, too.
    ensures kept { (result ≡ Err Fault.Store) ⊎ StaysKept L.StoredLog stored.old stored.new }
    ensures durable { IfOk result (λ count. 0 < count → IsKept L.StoredLog stored.new) }
    ensures untold { OnErr result (seat.new.stored ≡ seat.old.stored) }
    ensures stays { seat.new.number ≡ seat.old.number }
    ensures works { OnOk result (((L.log stored.new).epoch ≡ (L.log stored.old).epoch)
        × ((L.log stored.new).has_failed ≡ false)) }
    ensures err { IfErr result (λ e. (e ≡ Fault.Store) ⊎ (stored.new ≡ stored.old)) }
    ensures failed { (result ≡ Err Fault.Store) ↔ ((L.log stored.new).has_failed ≡ true) }
    ensures alone { (L.log stored.new).is_alone ≡ (L.log stored.old).is_alone }
{
    let from = stored.rows(document.name)?;
    if !is_published(document, seat, from) {
        return Err(Fault::Refused);
    }
    let Ok(next) = next_at(rt, document, seat, from) else {
        return Err(Fault::Memory);
    };
    if next.as_slice().is_empty() {
        return Ok(0);
    }
    add_through(
        rt,
        document,
        stored,
        observer,
        recovery,
        from,
        next.as_slice(),
    )?;
    note_written(rt, document, seat, stored, next.as_slice())?;
    notify_added(observer, stored, document.name, next.as_slice());
    Ok(next.as_slice().len())
}

// Copies the next entries of the document by the copier's seat there, as `copy_some`. Where the
// copier has no seat there it is refused.
fn copy_seated<M: Marker, R: Wait, L: StoredLog, T: CopyObserver>(
    rt: &R,
    document: &DocumentToCopy<'_, M>,
    seats: &mut CopierSeats<M>,
    stored: &mut L,
    observer: &T,
    recovery: &mut Recovery,
) -> Result<usize, Fault>
    ensures some { IfOk result (λ count. 0 < count
        → AddsOf M.origin document.now.doc_index document.now.name.now count (L.log stored.old).docs (L.log stored.new).docs) }
    ensures none { result ≡ Ok 0 → stored.new ≡ stored.old }
    ensures known { (result ≡ Err Fault.Store) ⊎ StaysKnown document.now.shared.now.names.items
        (L.log stored.old).docs seats.old (L.log stored.new).docs seats.new }
    ensures kept { (result ≡ Err Fault.Store) ⊎ StaysKept L.StoredLog stored.old stored.new }
    ensures works { OnOk result (((L.log stored.new).epoch ≡ (L.log stored.old).epoch)
        × ((L.log stored.old).has_failed ≡ false → (L.log stored.new).has_failed ≡ false)) }
    ensures err { IfErr result (λ e. (e ≡ Fault.Store) ⊎ (stored.new ≡ stored.old)) }
    ensures failed { result ≡ Err Fault.Store → (L.log stored.new).has_failed ≡ true }
    ensures works_on { (result ≡ Err Fault.Store)
        ⊎ ((L.log stored.old).has_failed ≡ false → (L.log stored.new).has_failed ≡ false) }
    ensures alone { (L.log stored.new).is_alone ≡ (L.log stored.old).is_alone }
{
    if document.doc_index >= seats.seats.len() {
        return Err(Fault::Refused);
    }
    let seat = &mut seats.seats[document.doc_index];
    copy_some(rt, document, seat, stored, observer, recovery)
}

/// Copies the next entries of each document, at most 256 of each, and returns how many it copied of
/// the document of which it copied most. It reads each document by the copier's seat there. The
/// errors are those of `copy_some`, and `Refused` where the copier has no seat in a document: what
/// was copied before the error stays.
pub fn copy_each<M: Marker, R: Wait, L: StoredLog, T: CopyObserver>(
    rt: &R,
    shared: &SharedDocuments<M>,
    seats: &mut CopierSeats<M>,
    stored: &mut L,
    observer: &T,
    recovery: &mut Recovery,
) -> Result<usize, Fault>
    ensures ok { IfOk result (λ most. AreAdded M.origin shared.now.names.items
        (L.log stored.old).docs (ltb 0 most) (L.log stored.new).docs) }
    ensures most { IfOk result (λ most. AreAddedUpTo M.origin shared.now.names.items
        (L.log stored.old).docs most (L.log stored.new).docs) }
    ensures none { result ≡ Ok 0 → (L.log stored.new).docs ≡ (L.log stored.old).docs }
    // What the stored log has of each document stays a prefix of what was read of it, and just that
    // counts as stored.
    ensures known { (result ≡ Err Fault.Store) ⊎ StaysKnown shared.now.names.items
        (L.log stored.old).docs seats.old (L.log stored.new).docs seats.new }
    ensures kept { (result ≡ Err Fault.Store) ⊎ StaysKept L.StoredLog stored.old stored.new }
    ensures works { OnOk result (((L.log stored.new).epoch ≡ (L.log stored.old).epoch)
        × ((L.log stored.old).has_failed ≡ false → (L.log stored.new).has_failed ≡ false)) }
    ensures err { IfErr result (λ e. (e ≡ Fault.Store)
        ⊎ AddsBatches M.origin shared.now.names.items (L.log stored.old) (L.log stored.new)) }
    ensures failed { result ≡ Err Fault.Store → (L.log stored.new).has_failed ≡ true }
    ensures works_on { (result ≡ Err Fault.Store)
        ⊎ ((L.log stored.old).has_failed ≡ false → (L.log stored.new).has_failed ≡ false) }
    ensures alone { (L.log stored.new).is_alone ≡ (L.log stored.old).is_alone }
{
    let mut most: usize = 0;
    for doc_index in 0..shared.names.len() {
        let document = DocumentToCopy::at(shared, doc_index);
        let count = copy_seated(rt, &document, seats, stored, observer, recovery)?;
        most = most.max(count);
    }
    Ok(most)
}
