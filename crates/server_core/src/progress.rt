//! How far the file is, for sessions that wait for it before they reply.
ghost use Rattle.std.specs.Prelude.{◌≡◌, ◌≤◌, ◌<◌, ◌+◌, ◌^◌, ◌++◌, None, MatchOption, IfOk, IfSome};
ghost use Rattle.std.specs.Prelude.{IsTrue, false, length};
ghost use Rattle.doc_rules.specs.Seats.{operation_ids};
ghost use Rattle.locked_doc.specs.Followed.{copying};
ghost use Rattle.server_core.specs.Pacing.{MayGo, allowed};

use crate::counters::Counters;
use crate::reading::Reading;
use crate::signal::Signal;
use locked_doc::CopierSeat;
use op_core::Operation;
use share_ledger::{Marker, StoreShare};
use std::alloc::{AllocError, Global};
use std::sync::Wait;
use std::sync::atomic::{AtomicU64, Ordering};
use std::time::Duration;

/// When the reply to a change may go out.
#[derive(Clone, Copy, PartialEq, Eq)]
pub enum Pace {
    /// Once all but so many of the document's operations are in the file. Where nothing copies, at
    /// once.
    Behind(u64),
    /// Once the operation is in the file. Where nothing copies, never.
    Durable,
}

// What a session does that has a reply to a change.
#[derive(Clone, Copy)]
enum Turn {
    // It sends the reply.
    Goes,
    // It waits for the copier.
    Waits,
    // It ends without the reply.
    Ends,
}

// Whether the file has all but the allowed ones of so many operations.
pub(crate) fn has_enough(pace: Pace, stored: u64, count: u64) -> bool
    ensures yes { IsTrue result → count ≤ stored + allowed pace }
    ensures no { result ≡ false → stored + allowed pace < count }
{
    match pace {
        Pace::Behind(most) => count <= stored || count - stored <= most,
        Pace::Durable => count <= stored,
    }
}

// What a session does whose reply is to a change after which the log has so many operations, where
// the file has so many of them, or nothing copies.
fn next_step(pace: Pace, stored: Option<u64>, count: u64) -> Turn
    ensures goes { result ≡ Turn.Goes → MayGo pace stored count }
    ensures waits { result ≡ Turn.Waits → MatchOption stored ⊥ (λ n. n + allowed pace < count) }
    ensures ends { result ≡ Turn.Ends → (pace ≡ Pace.Durable) × (stored ≡ None) }
{
    match stored {
        Some(stored) => if has_enough(pace, stored, count) {
            Turn::Goes
        } else {
            Turn::Waits
        },
        None => match pace {
            Pace::Durable => Turn::Ends,
            Pace::Behind(_) => Turn::Goes,
        },
    }
}

// For how many sessions at most `Progress::gather` waits.
const MOST_GATHERED: u64 = 256;

// How often `Progress::gather` may sleep behind a batch that took no time, and behind one that took
// long, and for how many microseconds each time.
const LEAST_SLEEPS: u64 = 3;

const MOST_SLEEPS: u64 = 100;

const SHORT_SLEEP: u64 = 100;

// How often `Progress::gather` may sleep behind a batch that took so many milliseconds.
fn sleeps_after(took: u64) -> u64 {
    took.saturating_mul(1000 / SHORT_SLEEP)
        .min(MOST_SLEEPS)
        .max(LEAST_SLEEPS)
}

/// Of each document, which of its operations the file has. A copier says so, and sessions wait
/// for it. They hold no lock meanwhile.
#[derive(Drop)]
pub struct Progress<M: Marker> {
    pace: Pace,
    counters: Counters<M>,
    // How many sessions wait.
    waiting: AtomicU64,
    // How often a session began to wait, modulo 2^64.
    waits: AtomicU64,
    // How many sessions waited when the copier last gathered them.
    gathered: AtomicU64,
    // The count of `waits` at which the copier is woken; 0 where it isn't to be.
    wanted: AtomicU64,
}

impl<M: Marker> Progress<M> {
    /// Of the documents of these halves, in the order of the documents. Of each a copier will say
    /// what the file has.
    pub fn new(
        alloc: Global,
        shares: Vec<StoreShare<M>>,
        pace: Pace,
    ) -> Result<Progress<M>, AllocError>
        ensures pace { IfOk result (λ p. p.pace ≡ pace) }
    {
        let counters = Counters::new(alloc, shares)?;
        Ok(Progress::over(pace, counters))
    }

    // Over these counts, with nobody who waits.
    fn over(pace: Pace, counters: Counters<M>) -> Progress<M>
        ensures pace { result.pace ≡ pace }
    {
        Progress {
            pace,
            counters,
            waiting: AtomicU64::new(0),
            waits: AtomicU64::new(0),
            gathered: AtomicU64::new(0),
            wanted: AtomicU64::new(0),
        }
    }

    /// Where nothing copies, and nobody waits. It takes no memory.
    pub fn none(alloc: Global) -> Progress<M>
        ensures { result.pace ≡ Pace.Behind 0 }
    {
        Progress::over(Pace::Behind(0), Counters::none(alloc))
    }

    /// When the reply to a change may go out.
    pub fn pace(&self) -> Pace
        ensures { result ≡ self.now.pace }
    {
        self.pace
    }

    /// How many documents it has.
    pub fn documents(&self) -> usize
        ensures { result ≡ length self.now.counters.counters.items }
    {
        self.counters.len()
    }

    /// Says that the file has these operations of the document of the copier's seat, behind those
    /// that it had. They are fewer than 2^64 together, and the document is one of these.
    pub fn publish<R: Wait>(&self, rt: &R, seat: &mut CopierSeat<M>, operations: &[Operation])
        requires there { seat.old.number < length self.now.counters.counters.items }
        requires fits { length seat.old.stored + length operations.now < 2 ^ 64 }
        ensures { seat.new ≡ copying seat.old.number seat.old.ids
            (seat.old.stored ++ operation_ids operations.now) }
    {
        // First: a session that goes on may soon wait again.
        let waits = self.waits.load(Ordering::SeqCst);
        self.counters.publish(rt, seat, operations);
        if !operations.is_empty() && self.waiting.load(Ordering::SeqCst) > 0 {
            self.want(waits);
            self.counters.wake(seat.number() as usize);
        }
    }

    /// How many operations of the document of this number the file has, as it was last published.
    pub fn noted(&self, document: usize) -> u64 {
        self.counters.noted(document)
    }

    // Where some sessions were gathered before the last batch, the copier is woken once so many
    // have begun to wait behind this count of them. The first document of a look counts.
    fn want(&self, waits: u64) {
        let gathered = self.gathered.load(Ordering::SeqCst);
        if gathered > 1 && gathered <= MOST_GATHERED && self.wanted.load(Ordering::SeqCst) == 0 {
            self.wanted
                .store(waits.wrapping_add(gathered), Ordering::SeqCst);
        }
    }

    // Whether sessions are missing that the copier waits for, at this count of `waits`.
    fn misses(&self, waits: u64) -> bool {
        let wanted = self.wanted.load(Ordering::SeqCst);
        let missing = wanted.wrapping_sub(waits);
        wanted != 0 && missing > 0 && missing <= MOST_GATHERED
    }

    // Sleeps shortly, unless the count of `waits` isn't this one, and less where the last session
    // comes that the copier waits for. Returns whether none came.
    fn sleep_shortly<R: Wait>(&self, rt: &R, waits: u64) -> bool {
        let low = (waits & 0xffff_ffff) as u32;
        self.waits
            .park_timeout(rt, low, Duration::from_micros(SHORT_SLEEP));
        self.waits.load(Ordering::SeqCst) == waits
    }

    /// After a batch that took so many milliseconds, waits for the sessions that it let go, so that
    /// the next batch is of all of them: until as many wait again as waited before it, at most for as
    /// long as it took, and no more than a quarter of that while none comes. It waits for 10 ms at
    /// most, and for 0.3 ms where the batch took less. It waits for no more than 256 sessions, and
    /// not for one alone.
    pub fn gather<R: Wait>(&self, rt: &R, took: u64) {
        let most = sleeps_after(took);
        let mut silent: u64 = 0;
        for _ in 0..most {
            let waits = self.waits.load(Ordering::SeqCst);
            if !self.misses(waits) || silent > most / 4 {
                break;
            }
            silent = if self.sleep_shortly(rt, waits) {
                silent.saturating_add(1)
            } else {
                0
            };
        }
        self.wanted.store(0, Ordering::SeqCst);
        let waiting = self.waiting.load(Ordering::SeqCst);
        self.gathered.store(waiting, Ordering::SeqCst);
    }

    // Tells the copier of one more session that waits. One that pauses looks at once, and one that
    // gathers once this is the last that it waits for.
    fn begin(&self, signal: &Signal) {
        self.waiting.fetch_add(1, Ordering::SeqCst);
        match self.pace {
            Pace::Behind(_) => signal.hurry(),
            Pace::Durable => {
                let waits = self.waits.fetch_add(1, Ordering::SeqCst).wrapping_add(1);
                if waits == self.wanted.load(Ordering::SeqCst) {
                    self.waits.wake_all();
                }
            }
        }
    }

    /// Says that nothing copies from now on. Who waits is woken.
    pub fn stop<R: Wait>(&self, rt: &R) {
        self.counters.stop(rt);
    }

    /// Says that a copier runs, after `stop`: sessions wait for it again.
    pub fn go_on<R: Wait>(&self, rt: &R) {
        self.counters.go_on(rt);
    }

    // Whether a session waits, as far as can be seen without the lock: for the document's log to
    // have so many operations in the file, of which it has this many, or nothing copies.
    fn waits(&self, hint: Option<u64>, count: u64) -> bool {
        match next_step(self.pace, hint, count) {
            Turn::Waits => true,
            Turn::Goes | Turn::Ends => false,
        }
    }

    // `wait_for`, once the session counts as one that waits.
    fn wait_counted<R: Wait>(&self, rt: &R, document: usize, count: u64) -> Option<Reading>
        ensures goes { IfSome result (λ read. (read.document ≡ document) × MayGo self.now.pace read.stored count) }
        ensures ends { result ≡ None → self.now.pace ≡ Pace.Durable }
    {
        for _ in rt.forever() {
            let hint = self.counters.hint(document);
            if self.waits(hint, count) {
                self.counters.sleep(rt, document, hint);
            } else {
                let read = self.counters.read(rt, document);
                match next_step(self.pace, read.stored(), count) {
                    Turn::Goes => return Some(read),
                    Turn::Waits => {}
                    Turn::Ends => return None,
                }
            }
        }
        unreachable!()
    }

    // `wait_for`, where the session begins to wait.
    fn wait_more<R: Wait>(
        &self,
        rt: &R,
        signal: &Signal,
        document: usize,
        count: u64,
    ) -> Option<Reading>
        ensures goes { IfSome result (λ read. (read.document ≡ document) × MayGo self.now.pace read.stored count) }
        ensures ends { result ≡ None → self.now.pace ≡ Pace.Durable }
    {
        self.begin(signal);
        let goes = self.wait_counted(rt, document, count);
        self.waiting.fetch_sub(1, Ordering::SeqCst);
        goes
    }

    /// Waits until the reply to a change may go out after which the document's log has so many
    /// operations. It returns what it last read of the document, by which the reply may go out. None
    /// where it never may: the file has the operation not, nothing copies, and the pace is durable.
    pub fn wait_for<R: Wait>(
        &self,
        rt: &R,
        signal: &Signal,
        document: usize,
        count: u64,
    ) -> Option<Reading>
        ensures document { IfSome result (λ read. read.document ≡ document) }
        ensures goes { IfSome result (λ read. MayGo self.now.pace read.stored count) }
        ensures ends { result ≡ None → self.now.pace ≡ Pace.Durable }
    {
        if self.waits(self.counters.hint(document), count) {
            return self.wait_more(rt, signal, document, count);
        }
        let read = self.counters.read(rt, document);
        match next_step(self.pace, read.stored(), count) {
            Turn::Goes => Some(read),
            Turn::Ends => None,
            Turn::Waits => self.wait_more(rt, signal, document, count),
        }
    }
}
