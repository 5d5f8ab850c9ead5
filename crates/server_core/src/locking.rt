//! How the lock of a document is taken.
ghost use Rattle.std.specs.Prelude.{◌≡◌, ◌<◌, ◌≤◌, length};
ghost use Rattle.std.specs.Sync.Mutex.{mutex_guard_value};

use crate::shared_documents::SharedDocuments;
use locked_doc::LockedDoc;
use share_ledger::Marker;
use std::hint::spin_loop;
use std::sync::{Mutex, MutexGuard, Wait};

// How many turns a thread waits for a lock before it sleeps: some 20 microseconds.
const TURNS: u32 = 2000;

// After how many of them it looks again. A look disturbs the thread that holds the lock.
const TURNS_A_LOOK: u32 = 16;

/// Takes a lock that others hold for microseconds. A thread that sleeps is woken later than
/// that, so it first looks again and again whether the lock is free. The type says all of the
/// result: it is this lock, taken.
pub(crate) fn spin_then_lock<'a, T, R: Wait>(rt: &R, mutex: &'a Mutex<T>) -> MutexGuard<'a, T> {
    for turn in 0..TURNS {
        if turn % TURNS_A_LOOK == 0 {
            if let Some(guard) = mutex.try_lock() {
                return guard;
            }
        }
        spin_loop();
    }
    mutex.lock(rt)
}

/// Takes the lock of the document of this number, at which so many seats are opened. No clause
/// can say what a lock holds, so it looks: the document whose index in the shelf is the number
/// has that number, and its seats stay opened, so the first look finds it so. In a shelf of
/// another order it would look forever.
pub fn lock_document<'a, M: Marker, R: Wait>(
    rt: &R,
    shared: &'a SharedDocuments<M>,
    number: usize,
    opened: u16,
) -> MutexGuard<'a, LockedDoc<M>>
    requires { number < length shared.now.names.items }
    ensures number { (mutex_guard_value result).number ≡ number }
    ensures opened { opened ≤ (mutex_guard_value result).document.opened }
{
    for _ in rt.forever() {
        let doc = spin_then_lock(rt, shared.shelf.doc(number));
        if doc.number() as usize == number && opened <= doc.opened() {
            return doc;
        }
    }
    unreachable!()
}
