//! The copier: the background task that stores what sessions log.
ghost use Rattle.std.specs.Prelude.{◌≡◌, ◌≢◌, ◌⊎◌, OnOk, IfErr, Err, true, false, Some, None};
ghost use Rattle.served_log.specs.Batches.{AddsBatches, HasCopied};
ghost use Rattle.served_log.specs.Known.{StaysKnown};
ghost use Rattle.served_log.specs.Kept.{StaysKept};

use crate::batch::copy_each;
use crate::copier_seats::CopierSeats;
use crate::observer::CopyObserver;
use crate::recovery::Recovery;
use server_core::{Pace, SharedDocuments, Side, Signalled};
use share_ledger::Marker;
use std::sync::Wait;
use stored_log::{Fault, MAX_BATCH, StoredFault, StoredLog, reason_of};

// How far a copier is.
#[derive(Clone, Copy)]
struct Watch {
    // How many sessions there are.
    sessions: u64,
    // What the signal had counted before the last look.
    seen: Signalled,
    // How often memory has lacked since all sessions ended and anything was found.
    tries: u32,
}

impl Watch {
    // Whether all sessions had ended before the last look.
    fn all_ended(&self) -> bool {
        self.seen.ended >= self.sessions
    }
}

// Waits until the copier should look again, after a look at which it copied at most so many entries
// of a document. It returns what the signal has counted by then.
fn next_look<M: Marker, R: Wait, T: CopyObserver>(
    rt: &R,
    shared: &SharedDocuments<M>,
    observer: &T,
    watch: &Watch,
    most: usize,
) -> Signalled {
    // A full batch may have left some. Once all have ended, no batch grows.
    if most >= MAX_BATCH || watch.all_ended() {
        return watch.seen;
    }
    // Where sessions wait for each batch, it grows until they all wait again.
    if shared.progress.pace() == Pace::Durable {
        shared.progress.gather(rt, observer.took());
        return watch.seen;
    }
    shared.signal.pause(rt, watch.seen)
}

// How often it is tried once all sessions have ended and memory lacks each
// time, a tenth of a second apart.
const LAST_TRIES: u32 = 50;

// What was there for a copier at its last look.
#[derive(Clone, Copy)]
enum Found {
    // At most so many entries of a document, which were copied.
    Some(usize),
    // Memory ran out.
    NoMemory,
}

// Whether memory ran out.
fn lacks(found: Found) -> bool {
    match found {
        Found::Some(_) => false,
        Found::NoMemory => true,
    }
}

// How often memory has lacked since all sessions ended and anything was found, after this one more.
fn tries_after(watch: &Watch, found: Found) -> u32 {
    if watch.all_ended() && lacks(found) {
        watch.tries.saturating_add(1)
    } else {
        0
    }
}

// Waits until the copier should look again, after it found this. It returns what
// the signal has counted by then, or none where nothing will come, and all is
// copied or memory has lacked too often.
fn wait_after<M: Marker, R: Wait, T: CopyObserver>(
    rt: &R,
    shared: &SharedDocuments<M>,
    observer: &T,
    watch: &Watch,
    found: Found,
) -> Option<Signalled> {
    match found {
        Found::Some(0) => {
            // What was logged before all had ended was just copied.
            if watch.all_ended() {
                return None;
            }
            Some(shared.signal.wait(rt, watch.seen))
        }
        Found::Some(most) => Some(next_look(rt, shared, observer, watch, most)),
        Found::NoMemory => {
            if watch.tries >= LAST_TRIES {
                return None;
            }
            Some(shared.signal.pause_longer(rt, watch.seen))
        }
    }
}

// Before a try, where memory lacked at the last look: sessions wait for the copier again. So none
// is ended whose document's turn only comes later.
fn wait_again<M: Marker, R: Wait>(rt: &R, shared: &SharedDocuments<M>, lacked: bool) {
    if lacked {
        shared.progress.go_on(rt);
    }
}

// Notifies the observer that the copier goes on, where memory lacked at its last look.
fn notify_going_on<T: CopyObserver>(observer: &T, lacked: bool) {
    if lacked {
        observer.goes_on();
    }
}

// Notifies the observer that memory lacks, where it did not at the last look.
fn notify_lack<T: CopyObserver>(observer: &T, lacked: bool) {
    if !lacked {
        observer.lacks_memory();
    }
}

// Looks once, and copies what is there. Where memory runs out nobody waits for the file until the
// next look. The observer is notified where memory runs out and did not at the last look, and where
// it does no more. The error is any but `Memory`.
fn look<M: Marker, R: Wait, L: StoredLog, T: CopyObserver>(
    rt: &R,
    shared: &SharedDocuments<M>,
    lacked: bool,
    seats: &mut CopierSeats<M>,
    stored: &mut L,
    observer: &T,
    recovery: &mut Recovery,
) -> Result<Found, Fault>
    ensures ok { OnOk result (AddsBatches M.origin shared.now.names.items (L.log stored.old) (L.log stored.new)) }
    ensures err { IfErr result (λ e. (e ≡ Fault.Store)
        ⊎ AddsBatches M.origin shared.now.names.items (L.log stored.old) (L.log stored.new)) }
    ensures known { (result ≡ Err Fault.Store) ⊎ StaysKnown shared.now.names.items
        (L.log stored.old).docs seats.old (L.log stored.new).docs seats.new }
    ensures kept { (result ≡ Err Fault.Store) ⊎ StaysKept L.StoredLog stored.old stored.new }
    ensures memory { result ≢ Err Fault.Memory }
    ensures works { OnOk result ((L.log stored.old).has_failed ≡ false
        → (L.log stored.new).has_failed ≡ false) }
    ensures failed { result ≡ Err Fault.Store → (L.log stored.new).has_failed ≡ true }
    ensures alone { (L.log stored.new).is_alone ≡ (L.log stored.old).is_alone }
{
    wait_again(rt, shared, lacked);
    match copy_each(rt, shared, seats, stored, observer, recovery) {
        Ok(most) => {
            notify_going_on(observer, lacked);
            Ok(Found::Some(most))
        }
        Err(Fault::Memory) => {
            shared.progress.stop(rt);
            notify_lack(observer, lacked);
            Ok(Found::NoMemory)
        }
        Err(fault) => Err(fault),
    }
}

/// Copies what sessions log while they run, and what is left once they have ended. It
/// sleeps while there is nothing to copy, and holds no lock while it writes. It pauses for some
/// milliseconds unless a batch was full, so that batches grow: each costs an fsync. Where replies
/// wait for the file it doesn't pause. It notifies the observer of each batch. Where memory runs
/// out nobody waits for the file, and it pauses longer and tries again. Once all sessions have
/// ended it does so 50 times in a row, and then ends with some operations that aren't copied. If
/// the store fails it is opened again, and `recovery` has the fault. It ends where that can't be,
/// or at another fault of the stored log.
pub fn keep_up<M: Marker, R: Wait, L: StoredLog, T: CopyObserver>(
    rt: &R,
    shared: &SharedDocuments<M>,
    seats: &mut CopierSeats<M>,
    stored: &mut L,
    observer: &T,
    recovery: &mut Recovery,
) -> Result<(), Fault>
    ensures ok { OnOk result (AddsBatches M.origin shared.now.names.items (L.log stored.old) (L.log stored.new)) }
    ensures err { IfErr result (λ e. (e ≡ Fault.Store)
        ⊎ AddsBatches M.origin shared.now.names.items (L.log stored.old) (L.log stored.new)) }
    ensures works { OnOk result ((L.log stored.old).has_failed ≡ false
        → (L.log stored.new).has_failed ≡ false) }
    ensures known { (result ≡ Err Fault.Store) ⊎ StaysKnown shared.now.names.items
        (L.log stored.old).docs seats.old (L.log stored.new).docs seats.new }
    ensures kept { (result ≡ Err Fault.Store) ⊎ StaysKept L.StoredLog stored.old stored.new }
    ensures memory { result ≢ Err Fault.Memory }
    ensures failed { result ≡ Err Fault.Store → (L.log stored.new).has_failed ≡ true }
    ensures alone { (L.log stored.new).is_alone ≡ (L.log stored.old).is_alone }
{
    let mut watch = Watch {
        sessions: recovery.sessions,
        seen: Signalled {
            notified: 0,
            ended: 0,
        },
        tries: 0,
    };
    let mut lacked = false;
    for _ in rt.forever() {
        match look(rt, shared, lacked, seats, stored, observer, recovery) {
            Ok(found) => {
                lacked = lacks(found);
                watch.tries = tries_after(&watch, found);
                match wait_after(rt, shared, observer, &watch, found) {
                    Some(next) => watch.seen = next,
                    None => return Ok(()),
                }
            }
            Err(fault) => return Err(fault),
        }
    }
    Ok(())
}

// Notifies the observer if a fault ended the copying.
fn notify_stopped<T: CopyObserver, L: StoredLog>(observer: &T, fault: &Option<Fault>, stored: &L) {
    if let Some(fault) = fault {
        observer.stopped(reason_of(*fault, stored));
    }
}

/// Stores what sessions log, as `keep_up`. A fault ends at most the copying. The observer is
/// notified at once, and the fault is kept.
#[derive(Drop)]
pub struct Copier<'a, M: Marker, L: StoredLog, T: CopyObserver> {
    /// The stored log.
    pub stored: &'a mut L,
    /// By these it reads the documents.
    pub seats: &'a mut CopierSeats<M>,
    /// Is notified of each batch and of a fault.
    pub observer: &'a T,
    /// The fault that ended the copying, if one did. Without one all is copied, or memory lacked to
    /// the end.
    pub fault: Option<Fault>,
    /// The last fault of the store, if there was one. The copying may have gone on after it.
    pub met: Option<StoredFault>,
}

impl<'a, M: Marker, L: StoredLog, T: CopyObserver> Copier<'a, M, L, T> {
    /// A copier that has copied nothing yet, with its seats in the documents.
    pub fn new(
        stored: &'a mut L,
        seats: &'a mut CopierSeats<M>,
        observer: &'a T,
    ) -> Copier<'a, M, L, T>
        ensures same_reference { result.stored.ghost_name ≡ stored.entry.ghost_name }
        ensures same_seats { result.seats.ghost_name ≡ seats.entry.ghost_name }
        ensures stored { result.stored.now ≡ stored.old }
        ensures seats { result.seats.now ≡ seats.old }
        ensures fault { result.fault ≡ None }
    {
        Copier {
            stored,
            seats,
            observer,
            fault: None,
            met: None,
        }
    }

    /// The last fault of the store, if there was one.
    pub fn met(&self) -> Option<StoredFault>
        ensures { result ≡ self.now.met }
    {
        self.met
    }

    /// Returns the fault that ended the copying, if one did.
    pub fn end(self) -> Option<Fault>
        ensures left { self.exit.0.now ≡ self.entry.stored.now }
        ensures read { self.exit.1.0.now ≡ self.entry.seats.now }
        ensures fault { result ≡ self.entry.fault }
    {
        let Copier {
            stored: _,
            seats: _,
            observer: _,
            fault,
            met: _,
        } = self;
        fault
    }
}

impl<M: Marker, L: StoredLog, T: CopyObserver> Side<M> for Copier<'_, M, L, T> {
    ghost use Rattle.stored_log.specs.declared.fault.Fault.TheVariants.{Store};

    ghost becomes = { λ names old new. (new.stored.ghost_name ≡ old.stored.ghost_name)
        × (new.seats.ghost_name ≡ old.seats.ghost_name)
        × HasCopied M.origin names (L.log old.stored.now) (L.log new.stored.now)
        old.seats.now new.seats.now new.fault
        × ((new.fault ≡ Some Store) ⊎ StaysKept L.StoredLog old.stored.now new.stored.now) };

    fn run<R: Wait>(&mut self, rt: &R, shared: &SharedDocuments<M>, sessions: u64) {
        let mut recovery = Recovery::new(sessions);
        self.fault = keep_up(
            rt,
            shared,
            self.seats,
            self.stored,
            self.observer,
            &mut recovery,
        )
        .err();
        self.met = recovery.met;
        // Nothing is copied from now on, so nobody waits for it.
        shared.progress.stop(rt);
        notify_stopped(self.observer, &self.fault, self.stored);
    }
}
