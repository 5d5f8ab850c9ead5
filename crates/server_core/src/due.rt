//! What is due of one document: how many operations of it must be stored.
ghost use Rattle.std.specs.Prelude.{◌≡◌, ◌≢◌, ◌⊎◌, None, IfSome};
ghost use Rattle.std.specs.Option.{ForSome};

use crate::progress::{Pace, Progress, has_enough};
use crate::reading::Reading;
use crate::signal::Signal;
use share_ledger::Marker;
use std::sync::Wait;

/// How many operations of a document must be stored before the next byte goes out, and what was read
/// of it last.
#[derive(Drop)]
pub(crate) struct Due {
    document: usize,
    count: u64,
    last: Option<Reading>,
    ghost of_it: { ForSome last (λ read. read.document ≡ document) },
}

// What counts as read once more operations are due: not that nothing copied.
fn still_read(last: Option<Reading>) -> Option<Reading>
    ensures read { (result ≡ last) ⊎ (result ≡ None) }
    ensures copied { IfSome result (λ read. read.stored ≢ None) }
{
    let read = last?;
    if read.stored().is_some() {
        Some(read)
    } else {
        None
    }
}

impl Due {
    ghost use Rattle.std.specs.Prelude.{◌<◌, false, max, IsTrue};
    ghost use Rattle.server_core.specs.declared.progress.Pace.TheVariants.{Durable};
    ghost use Rattle.server_core.specs.Pacing.{IsPaid, MayGo};

    /// Of the document of this number nothing is due.
    pub(crate) fn none_of(document: usize) -> Due {
        Due {
            document,
            count: 0,
            last: None,
        }
    }

    /// The number of the document.
    pub(crate) fn document(&self) -> usize
        ensures { result ≡ self.now.document }
    {
        self.document
    }

    /// At least so many operations are due.
    pub(crate) fn raise(&mut self, count: u64)
        ensures document { self.new.document ≡ self.old.document }
        ensures count { self.new.count ≡ max count self.old.count }
        // That nothing copied when it was read last pays for no more.
        ensures copied { self.old.count < self.new.count
            → IfSome self.new.last (λ read. read.stored ≢ None) }
    {
        if count > self.count {
            self.count = count;
            self.last = still_read(self.last);
        }
    }

    // Whether a reply may go out to a change after which the log has so many operations, where the
    // file has so many of them, or nothing copies.
    fn may_go(pace: Pace, stored: Option<u64>, count: u64) -> bool
        ensures { IsTrue result → MayGo pace stored count }
    {
        match stored {
            Some(stored) => has_enough(pace, stored, count),
            None => match pace {
                Pace::Durable => false,
                Pace::Behind(_) => true,
            },
        }
    }

    // Whether it may go out by what was read last.
    fn is_paid(&self, pace: Pace) -> bool
        ensures { IsTrue result → IsPaid pace self.now }
    {
        match &self.last {
            Some(read) => Due::may_go(pace, read.stored(), self.count),
            None => self.count == 0,
        }
    }

    /// Waits until the replies may go out for which it is due. False where they never may.
    pub(crate) fn pay<M: Marker, R: Wait>(
        &mut self,
        rt: &R,
        signal: &Signal,
        progress: &Progress<M>,
    ) -> bool
        ensures document { self.new.document ≡ self.old.document }
        ensures count { self.new.count ≡ self.old.count }
        ensures paid { IsTrue result → IsPaid progress.now.pace self.new }
        ensures gives_up { result ≡ false → progress.now.pace ≡ Durable }
    {
        if self.is_paid(progress.pace()) {
            return true;
        }
        match progress.wait_for(rt, signal, self.document, self.count) {
            Some(read) => {
                self.last = Some(read);
                true
            }
            None => false,
        }
    }
}
