//! Of each document, which of its operations the file has: the sessions' half of what is stored,
//! under a lock.
ghost use Rattle.std.specs.Prelude.{◌≡◌, ◌+◌, ◌<◌, ◌^◌, ◌++◌, length};
ghost use Rattle.std.specs.Sync.Mutex.{mutex_guard_value};
ghost use Rattle.doc_rules.specs.Seats.{operation_ids};
ghost use Rattle.locked_doc.specs.Followed.{copying};

use crate::locking::spin_then_lock;
use crate::reading::Reading;
use locked_doc::CopierSeat;
use op_core::Operation;
use share_ledger::{Marker, StoreShare};
use std::alloc::{AllocError, Global};
use std::sync::atomic::{AtomicU64, Ordering};
use std::sync::{Mutex, MutexGuard, Wait};
use std::time::Duration;

// What a count is where nothing copies.
const NOBODY: u64 = u64::MAX;

// After how many seconds of sleep a count is read again, if nothing wakes the session.
const LONGEST_SLEEP: u64 = 1;

// What sessions know of a document: what the file has of it, and whether a copier runs.
#[derive(Drop)]
struct Known<M: Marker> {
    share: StoreShare<M>,
    copies: bool,
}

// Which operations of a document the file has.
#[derive(Drop)]
struct Counter<M: Marker> {
    known: Mutex<Known<M>>,
    // How many they are, for a look without the lock; `NOBODY` where nothing copies. Sessions sleep
    // on it. It decides nothing but whether they take the lock.
    hint: AtomicU64,
    // How many they are, whether a copier runs or not.
    noted: AtomicU64,
}

impl<M: Marker> Counter<M> {
    // Of a document that will be copied.
    fn new(share: StoreShare<M>) -> Counter<M> {
        let count = share.count();
        Counter {
            known: Mutex::new(Known {
                share,
                copies: true,
            }),
            hint: AtomicU64::new(count),
            noted: AtomicU64::new(count),
        }
    }

    // Shows what is known to sessions that look without the lock, which is held meanwhile.
    fn show(&self, known: &Known<M>) {
        let count = known.share.count();
        self.noted.store(count, Ordering::SeqCst);
        let hint = if known.copies { count } else { NOBODY };
        self.hint.store(hint, Ordering::SeqCst);
    }

    // Takes the lock, of the document of this number. No clause can say what a lock holds, so it
    // looks: the share has the number of its place, so the first look finds it so.
    fn lock<R: Wait>(&self, rt: &R, document: usize) -> MutexGuard<'_, Known<M>>
        ensures { (mutex_guard_value result).share.number ≡ document }
    {
        for _ in rt.forever() {
            let known = spin_then_lock(rt, &self.known);
            if known.share.number() as usize == document {
                return known;
            }
        }
        unreachable!()
    }

    // Says whether a copier runs.
    fn set_copies<R: Wait>(&self, rt: &R, copies: bool) {
        let mut known = spin_then_lock(rt, &self.known);
        known.copies = copies;
        self.show(&known);
    }
}

/// Which operations of some documents the file has.
#[derive(Drop)]
pub(crate) struct Counters<M: Marker> {
    // One for each document, in order.
    counters: Vec<Counter<M>>,
}

impl<M: Marker> Counters<M> {
    // Of the documents of these halves, which are in the order of the documents.
    pub(crate) fn new(
        alloc: Global,
        shares: Vec<StoreShare<M>>,
    ) -> Result<Counters<M>, AllocError> {
        let mut counters = Vec::new(alloc);
        for share in shares {
            counters.push(Counter::new(share))?;
        }
        Ok(Counters { counters })
    }

    // Of no document. It takes no memory.
    pub(crate) fn none(alloc: Global) -> Counters<M> {
        Counters {
            counters: Vec::new(alloc),
        }
    }

    // How many documents there are.
    pub(crate) fn len(&self) -> usize
        ensures { result ≡ length self.now.counters.items }
    {
        self.counters.len()
    }

    // How many operations of a document the file has, as it was shown last; none where nothing
    // copies.
    pub(crate) fn hint(&self, document: usize) -> Option<u64> {
        let counter = self.counters.get(document)?;
        let hint = counter.hint.load(Ordering::SeqCst);
        if hint == NOBODY { None } else { Some(hint) }
    }

    // Reads what the file has of a document, under its lock. Where it has none, nothing copies.
    pub(crate) fn read<R: Wait>(&self, rt: &R, document: usize) -> Reading
        ensures { result.document ≡ document }
    {
        match self.counters.get(document) {
            Some(counter) => {
                let known = counter.lock(rt, document);
                Reading::of(&known.share, known.copies)
            }
            None => Reading::nobody(document),
        }
    }

    // Says that the file has these operations of the seat's document, behind the others: adds them
    // to both halves of what is stored.
    pub(crate) fn publish<R: Wait>(
        &self,
        rt: &R,
        seat: &mut CopierSeat<M>,
        operations: &[Operation],
    )
        requires there { seat.old.number < length self.now.counters.items }
        requires fits { length seat.old.stored + length operations.now < 2 ^ 64 }
        ensures { seat.new ≡ copying seat.old.number seat.old.ids
            (seat.old.stored ++ operation_ids operations.now) }
    {
        let document = seat.number() as usize;
        let counter = &self.counters[document];
        let mut known = counter.lock(rt, document);
        seat.grow(&mut known.share, operations);
        counter.show(&known);
    }

    // How many operations of a document the file has, whether a copier runs or not.
    pub(crate) fn noted(&self, document: usize) -> u64 {
        match self.counters.get(document) {
            Some(counter) => counter.noted.load(Ordering::SeqCst),
            None => 0,
        }
    }

    // Wakes who waits for a document.
    pub(crate) fn wake(&self, document: usize) {
        if let Some(counter) = self.counters.get(document) {
            counter.hint.wake_all();
        }
    }

    // Says of all documents that nothing copies. Who waits is woken.
    pub(crate) fn stop<R: Wait>(&self, rt: &R) {
        for counter in &self.counters {
            counter.set_copies(rt, false);
            counter.hint.wake_all();
        }
    }

    // Says of all documents that a copier runs.
    pub(crate) fn go_on<R: Wait>(&self, rt: &R) {
        for counter in &self.counters {
            counter.set_copies(rt, true);
        }
    }

    // Sleeps until another count of the document is shown than this one, or for a second.
    pub(crate) fn sleep<R: Wait>(&self, rt: &R, document: usize, hint: Option<u64>) {
        if let Some(counter) = self.counters.get(document) {
            let low = (hint.unwrap_or(0) & 0xffff_ffff) as u32;
            counter
                .hint
                .park_timeout(rt, low, Duration::from_secs(LONGEST_SLEEP));
        }
    }
}
