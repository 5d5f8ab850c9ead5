//! Notes on standard error about the stored log.
use crate::{CopyObserver, FileState};
use lamport_id::Id;
use log::Log;
use op_core::Operation;
use op_log::{MAX_OPERATIONS, MAX_REPLICAS};
use server_core::{Deadline, Pace};
use server_notes::{
    Fill, note_ending, note_failed, note_failed_durably, note_going_on, note_lacking,
    note_nearly_full, note_recovered, note_restored, note_still_failing, note_stopped,
};
use std::time::Clock;
use stored_log::{StoredFault, StoredLog};

// So many operations of those that a document may have.
fn operations(count: usize) -> Fill {
    Fill {
        count,
        limit: MAX_OPERATIONS,
    }
}

// So many replicas of those whose operations a document may have.
fn replicas(count: usize) -> Fill {
    Fill {
        count,
        limit: MAX_REPLICAS,
    }
}

// Warns where the document is nearly full.
fn warn_if_full<R: Log + Clock>(rt: &R, name: &str, fill: Fill, counted: &str) {
    if fill.is_nearly_full() {
        note_nearly_full(rt, name, fill, counted);
    }
}

// Warns where the document has become nearly full by as many more.
fn warn_if_crossed<R: Log + Clock>(rt: &R, name: &str, fill: Fill, more: usize, counted: &str) {
    let before = Fill {
        count: fill.count.saturating_sub(more),
        limit: fill.limit,
    };
    if !before.is_nearly_full() {
        warn_if_full(rt, name, fill, counted);
    }
}

// Notes the document of this name at this place as it is stored. Without memory for its front the
// note is lost.
fn note_document<R: Log + Clock, L: StoredLog>(
    rt: &R,
    file: &FileState,
    stored: &L,
    place: usize,
    name: &str,
) {
    let (Ok(rows), Ok(front)) = (stored.rows(name), stored.front(name)) else {
        return;
    };
    file.note_replicas(place, front.len());
    let (logged, makers) = (operations(rows), replicas(front.len()));
    note_restored(rt, name, logged, makers);
    warn_if_full(rt, name, logged, "operations");
    warn_if_full(rt, name, makers, "replicas");
}

// Notes each of these documents as it is stored, in this order.
pub(crate) fn note_documents<R: Log + Clock, L: StoredLog>(
    rt: &R,
    file: &FileState,
    stored: &L,
    names: &[&str],
) {
    for place in 0..names.len() {
        note_document(rt, file, stored, place, names[place]);
    }
}

// Whether the operation is the first of its replica: each later one depends on the one before it.
fn is_first(operation: &Operation) -> bool {
    let first = Id {
        counter: 1,
        replica: operation.id().replica,
    };
    !operation.front().covers(first)
}

// Writes notes about the copying: documents that become nearly full, pauses for lack of memory, and
// why it stopped. It keeps the file's state.
#[derive(Drop)]
pub(crate) struct CopyLogger<'a, R, D: Drop> {
    pub(crate) rt: &'a R,
    pub(crate) file: &'a FileState,
    // The names of the documents, in their order.
    pub(crate) names: &'a [&'a str],
    pub(crate) pace: Pace,
    // When sessions wait no longer for a store that fails, if they ever do.
    pub(crate) deadline: Option<D>,
}

impl<R: Log + Clock, D: Drop> CopyLogger<'_, R, D> {
    // Notes that so many replicas made the stored operations of the document of this name.
    fn note_replicas(&self, name: &str, count: usize) {
        for place in 0..self.names.len() {
            if self.names[place] == name {
                self.file.note_replicas(place, count);
            }
        }
    }
}

impl<R: Log + Clock, D: Deadline> CopyObserver for CopyLogger<'_, R, D> {
    fn adds(&self) {
        self.file.begin(self.rt);
    }

    fn took(&self) -> u64 {
        self.file.took()
    }

    fn added<L: StoredLog>(&self, stored: &L, name: &str, rows: usize, entries: &[Operation]) {
        self.file.end(self.rt);
        let logged = operations(rows);
        warn_if_crossed(self.rt, name, logged, entries.len(), "operations");
        let makers = entries.iter().filter(|entry| is_first(entry)).count();
        if makers == 0 {
            return;
        }
        if let Ok(front) = stored.front(name) {
            self.note_replicas(name, front.len());
            let all = replicas(front.len());
            warn_if_crossed(self.rt, name, all, makers, "replicas");
        }
    }

    fn lacks_memory(&self) {
        self.file.note_lack(true);
        note_lacking(self.rt);
    }

    fn goes_on(&self) {
        self.file.note_lack(false);
        note_going_on(self.rt);
    }

    fn failed(&self, why: StoredFault) {
        self.file.fail(why);
        match self.pace {
            Pace::Behind(most) => note_failed(self.rt, &why, most),
            Pace::Durable => note_failed_durably(self.rt, &why),
        }
    }

    fn is_awaited_no_more(&self) -> bool {
        match &self.deadline {
            Some(deadline) => deadline.has_passed(),
            None => false,
        }
    }

    fn still_fails(&self, unstored: u64) {
        note_still_failing(self.rt, unstored);
    }

    fn recovered(&self) {
        self.file.recover();
        note_recovered(self.rt);
    }

    fn stopped(&self, why: StoredFault) {
        self.file.stop(why);
        match self.pace {
            Pace::Behind(_) => note_stopped(self.rt, &why),
            Pace::Durable => note_ending(self.rt, &why),
        }
    }
}
