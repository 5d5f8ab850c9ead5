//! How a copier gets over a fault of the store: it opens the store again, and goes on with the batch
//! that failed.
ghost use Rattle.std.specs.Prelude.{◌≡◌, ◌≢◌, OnOk, IfErr, Some, None, true};
ghost use Rattle.stored_log.specs.Log.{HasBatchAgain};
ghost use Rattle.served_log.specs.Kept.{IsKept};

use crate::document_to_copy::DocumentToCopy;
use crate::observer::CopyObserver;
use op_core::Operation;
use server_core::{Pace, SharedDocuments, lock_document};
use share_ledger::Marker;
use std::sync::Wait;
use std::sync::atomic::AtomicU64;
use std::time::Duration;
use stored_log::{Fault, StoredFault, StoredLog, reason_of};

/// What a copier needs to get over faults, and what it met.
#[derive(Clone, Copy)]
pub struct Recovery {
    /// How many sessions there are.
    pub sessions: u64,
    /// The last fault of the store, if there was one.
    pub met: Option<StoredFault>,
}

impl Recovery {
    /// Beside so many sessions, with no fault so far.
    pub fn new(sessions: u64) -> Recovery
        ensures { result ≡ record { sessions = sessions; met = None } }
    {
        Recovery {
            sessions,
            met: None,
        }
    }
}

// Times are in tenths of a second. The store is opened again after a second, and then after twice as
// long each time, up to half a minute.
const FIRST_PAUSE: u32 = 10;

const LONGEST_PAUSE: u32 = 300;

// How often it is noted that the store is still not opened.
const BETWEEN_NOTES: u32 = 600;

// How often it is opened again, a second apart, once all sessions have ended.
const LAST_TRIES: u32 = 5;

// The tries to open the store again.
#[derive(Clone, Copy)]
struct Tries {
    // How long the next pause is.
    pause: u32,
    // How long ago the last note was.
    since_note: u32,
    // How often it was tried since all sessions have ended.
    last: u32,
}

impl Tries {
    fn new() -> Tries {
        Tries {
            pause: FIRST_PAUSE,
            since_note: 0,
            last: 0,
        }
    }

    // Counts one that failed. Whether there is to be no other.
    fn is_last(&mut self, all_ended: bool) -> bool {
        self.pause = self.pause.saturating_mul(2).min(LONGEST_PAUSE);
        if all_ended {
            self.last = self.last.saturating_add(1);
        }
        self.last >= LAST_TRIES
    }

    // Counts a tenth of a second. Whether a note is due.
    fn is_note_due(&mut self) -> bool {
        self.since_note = self.since_note.saturating_add(1);
        if self.since_note < BETWEEN_NOTES {
            return false;
        }
        self.since_note = 0;
        true
    }
}

// Sleeps for a tenth of a second. Nothing wakes it.
fn rest<R: Wait>(rt: &R) {
    AtomicU64::new(0).park_timeout(rt, 0, Duration::from_millis(100));
}

// How many operations of the documents aren't stored.
fn unstored<M: Marker, R: Wait>(rt: &R, shared: &SharedDocuments<M>) -> u64 {
    let mut count: u64 = 0;
    for doc_index in 0..shared.names.len() {
        let logged = lock_document(rt, shared, doc_index, 0).logged();
        count = count.saturating_add(logged.saturating_sub(shared.progress.noted(doc_index)));
    }
    count
}

// Pauses before the store is opened again, and notifies the observer each minute. Whether all
// sessions have ended; then it pauses for a second at most.
fn pause<M: Marker, R: Wait, T: CopyObserver>(
    rt: &R,
    shared: &SharedDocuments<M>,
    observer: &T,
    sessions: u64,
    tries: &mut Tries,
) -> bool {
    for tenth in 0..tries.pause {
        let all_ended = shared.signal.so_far().ended >= sessions;
        if all_ended && tenth >= FIRST_PAUSE {
            break;
        }
        rest(rt);
        release_if_due(rt, shared, observer);
        if tries.is_note_due() {
            observer.still_fails(unstored(rt, shared));
        }
    }
    shared.signal.so_far().ended >= sessions
}

// Ends the waiting of sessions, where they wait no longer for a store that fails.
fn release_if_due<M: Marker, R: Wait, T: CopyObserver>(
    rt: &R,
    shared: &SharedDocuments<M>,
    observer: &T,
) {
    if observer.is_awaited_no_more() {
        shared.progress.stop(rt);
    }
}

// Ends the sessions that wait for what isn't stored, where a reply means that it is. Others wait on
// once there are too many operations that aren't stored.
fn hold<M: Marker, R: Wait>(rt: &R, shared: &SharedDocuments<M>) {
    if shared.progress.pace() == Pace::Durable {
        shared.progress.stop(rt);
    }
}

// Opens the store again, until the batch that failed is in it: these entries, behind the `from`
// entries of the document. The error is `Store` where it is found to have something else, or where
// all sessions have ended and it still can't be opened. The log is as it was then, and has failed.
fn open_again<M: Marker, R: Wait, L: StoredLog, T: CopyObserver>(
    rt: &R,
    document: &DocumentToCopy<'_, M>,
    stored: &mut L,
    observer: &T,
    sessions: u64,
    from: usize,
    entries: &[Operation],
) -> Result<(), Fault>
    requires failed { (L.log stored.old).has_failed ≡ true }
    ensures ok { OnOk result
        (HasBatchAgain document.now.name.now from entries.now (L.log stored.old) (L.log stored.new)) }
    ensures kept { OnOk result (IsKept L.StoredLog stored.new) }
    ensures err { IfErr result (λ e. (e ≡ Fault.Store) × (L.log stored.new ≡ L.log stored.old)) }
    ensures alone { (L.log stored.new).is_alone ≡ (L.log stored.old).is_alone }
{
    let mut tries = Tries::new();
    for _ in rt.forever() {
        let all_ended = pause(rt, document.shared, observer, sessions, &mut tries);
        match stored.resume(document.name, from, entries) {
            Ok(()) => return Ok(()),
            Err(Fault::Refused) => return Err(Fault::Store),
            Err(Fault::Store | Fault::Memory) => {}
        }
        if tries.is_last(all_ended) {
            return Err(Fault::Store);
        }
    }
    Err(Fault::Store)
}

/// After a batch that failed, of these entries behind the `from` entries of the document: notifies
/// the observer, and opens the store again until the batch is in it. Sessions go on meanwhile; with
/// `Pace::Durable` one ends that waits for a reply. The error is `Store` where the store never can
/// be opened. The log is as it was then, and has failed.
pub(crate) fn recover<M: Marker, R: Wait, L: StoredLog, T: CopyObserver>(
    rt: &R,
    document: &DocumentToCopy<'_, M>,
    stored: &mut L,
    observer: &T,
    recovery: &mut Recovery,
    from: usize,
    entries: &[Operation],
) -> Result<(), Fault>
    requires failed { (L.log stored.old).has_failed ≡ true }
    ensures ok { OnOk result
        (HasBatchAgain document.now.name.now from entries.now (L.log stored.old) (L.log stored.new)) }
    ensures kept { OnOk result (IsKept L.StoredLog stored.new) }
    ensures err { IfErr result (λ e. (e ≡ Fault.Store) × (L.log stored.new ≡ L.log stored.old)) }
    ensures alone { (L.log stored.new).is_alone ≡ (L.log stored.old).is_alone }
    // That there was a fault is not forgotten.
    ensures met { recovery.new.met ≢ None }
{
    let why = reason_of(Fault::Store, stored);
    recovery.met = Some(why);
    observer.failed(why);
    hold(rt, document.shared);
    open_again(
        rt,
        document,
        stored,
        observer,
        recovery.sessions,
        from,
        entries,
    )?;
    document.shared.progress.go_on(rt);
    observer.recovered();
    Ok(())
}
