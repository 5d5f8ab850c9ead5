//! A stored log in memory, of which a use can be made to fail.
ghost use Rattle.std.specs.Prelude.{◌≡◌, false, IfOk, IfErr, OnOk, OnErr};
ghost use Rattle.std.specs.Option.{is_some};
ghost use Rattle.stored_log.specs.Docs.{IsBatch, add_batch};
ghost use Rattle.stored_log.specs.Image.{IsEmpty};
ghost use Rattle.stored_log.specs.Listed.{AreBoth};

use crate::batch::may_add;
use crate::list_image::ListImage;
use crate::port::StoredLog;
use crate::stored_fault::StoredFault;
use crate::{Fault, LAST_EPOCH};
use lamport_id::ReplicaName;
use op_core::{Front, Operation};
use op_log::OpLog;
use std::alloc::Global;
use std::marker::Model;

/// The store of a stored log in memory.
#[derive(Drop)]
pub struct ListStore {
    /// What a crash leaves.
    pub kept: ListImage,
    /// What the file alone holds, without a log of commits beside it.
    pub alone: ListImage,
}

impl ListStore {
    /// A store where nothing is stored.
    pub fn new(alloc: Global) -> ListStore
        ensures kept { IsEmpty result.kept }
        ensures alone { IsEmpty result.alone }
    {
        ListStore {
            kept: ListImage::new(alloc),
            alone: ListImage::new(alloc),
        }
    }

    /// The store with its file alone. The only error is out of memory.
    pub fn without_log(self, alloc: Global) -> Result<ListStore, Fault>
        ensures { IfOk result (AreBoth self.alone) }
    {
        let ListStore { kept: _, alone } = self;
        let kept = alone.try_clone(alloc)?;
        Ok(ListStore { kept, alone })
    }
}

/// The use of its store at which a stored log in memory fails. A use is an `epoch_up` that isn't
/// refused, an `append` of entries that may be added, a `fold` and a `close`.
#[derive(Clone, Copy, Debug)]
pub struct FailingUse {
    /// How many uses come before it.
    pub after: u32,
    /// What it fails with.
    pub fault: StoredFault,
    /// Whether what it was to store is stored nevertheless.
    pub stays: bool,
    /// Whether each later use fails too. What it was to store is not stored.
    pub lasts: bool,
}

// Counts a use. It fails if this is some.
fn next_use(fails: &mut Option<FailingUse>) -> Option<FailingUse> {
    let mut failing = (*fails)?;
    if failing.after > 0 {
        failing.after -= 1;
        *fails = Some(failing);
        return None;
    }
    let FailingUse {
        after,
        fault,
        stays: _,
        lasts,
    } = failing;
    *fails = lasts.then_some(FailingUse {
        after,
        fault,
        stays: false,
        lasts,
    });
    Some(failing)
}

// Stores in the file alone what a crash leaves. A fault leaves of a crash what it left before.
fn folded(
    alloc: Global,
    store: ListStore,
    fails: &mut Option<FailingUse>,
) -> Result<ListStore, (StoredFault, ListStore)>
    ensures ok { IfOk result (AreBoth store.kept) }
    ensures err { IfErr result (λ e. e.1.kept ≡ store.kept) }
{
    let ListStore { kept, alone } = store;
    let Ok(file) = kept.try_clone(alloc) else {
        return Err((StoredFault::NoMemory, ListStore { kept, alone }));
    };
    match next_use(fails) {
        None => Ok(ListStore { kept, alone: file }),
        Some(failing) => {
            let alone = if failing.stays { file } else { alone };
            Err((failing.fault, ListStore { kept, alone }))
        }
    }
}

// Adds a batch that is missing, if it may be added.
fn add_missing(
    kept: &mut ListImage,
    alloc: Global,
    doc: &str,
    from: usize,
    entries: &[Operation],
) -> Result<(), Fault>
    ensures ok { OnOk result (IsBatch doc.now from entries.now kept.old.docs
        × (kept.new.docs ≡ add_batch doc.now entries.now kept.old.docs)) }
    ensures epoch { kept.new.epoch ≡ kept.old.epoch }
    ensures err { OnErr result (kept.new.docs ≡ kept.old.docs) }
{
    if entries.is_empty() || !may_add(kept.docs(), doc, from, entries) {
        return Err(Fault::Refused);
    }
    kept.add(alloc, doc, entries)
}

/// A stored log in memory. What is stored is in a store, which is opened
/// again after a fault or a crash.
pub struct ListLog {
    store: ListStore,
    fails: Option<FailingUse>,
    // What it failed with.
    failure: Option<StoredFault>,
    alloc: Global,
}

impl Model for ListLog {
    ghost use Rattle.std.specs.Option.{is_some};
    ghost use Rattle.stored_log.specs.Listed.{Listed};

    ghost Value = { Listed };

    ghost view = { λ l. record { kept = l.store.kept; alone = l.store.alone; has_failed = is_some l.failure } };
}

// By hand, so that it is called and not written out where a log is dropped.
impl Drop for ListLog {
    fn drop(self) {
        let ListLog {
            store: _,
            fails: _,
            failure: _,
            alloc: _,
        } = self;
    }
}

impl ListLog {
    /// Opens a store. `fails` says at which use of it it fails, if at one.
    pub fn open(alloc: Global, store: ListStore, fails: Option<FailingUse>) -> ListLog
        ensures { result ≡ record { kept = store.kept; alone = store.alone; has_failed = false } }
    {
        ListLog {
            store,
            fails,
            failure: None,
            alloc,
        }
    }

    /// The store as a crash leaves it now.
    pub fn crash(self) -> ListStore
        ensures kept { result.kept ≡ self.kept }
        ensures alone { result.alone ≡ self.alone }
    {
        let ListLog {
            store,
            fails: _,
            failure: _,
            alloc: _,
        } = self;
        store
    }
}

impl StoredLog for ListLog {
    type Left = ListStore;

    ghost use Rattle.std.specs.Prelude.{⊤};
    ghost use Rattle.std.proofs.Common.{refl};
    ghost use Rattle.stored_log.specs.Listed.{AreBoth, WasListedAlone, kept_alike, listed_log};
    ghost use Rattle.stored_log.specs.Log.{HasSame, IsAddedOrNot, IsRaisedOrNot, raised_keeps};

    ghost log = { listed_log };

    ghost is_sure = { λ it. ⊤ };

    ghost survives = { λ it may. may it.kept.epoch it.kept.docs };

    ghost was_alone = { WasListedAlone };

    ghost is_in_file = { λ it last. AreBoth it.kept last };

    ghost has_moved = { λ it last. AreBoth it.kept last };

    ghost is_in_store = { λ it last. last.kept ≡ it.kept };

    ghost is_left_sure = { λ last. ⊤ };

    ghost left_survives = { λ last may. may last.kept.epoch last.kept.docs };

    ghost still_keeps = { λ it first last kept. raised_keeps first last kept it.kept.epoch it.kept.docs };

    ghost is_left = { λ it last both. both.as_kept };

    ghost is_kept = { λ it last kept alone. kept_alike (HasSame (listed_log it)) it.kept last.kept kept
        (record { same_epoch = refl; same_docs = refl }) };

    ghost has_all = { λ it last moved works. moved.as_kept };

    ghost moved_same = { λ it last kept moved alone. kept_alike (HasSame kept) it.kept last.kept moved.as_kept };

    ghost moved_epoch = { λ it last old moved alone. kept_alike (IsRaisedOrNot old) it.kept last.kept moved.as_kept };

    ghost moved_batch = { λ it last name ops old moved alone.
        kept_alike (IsAddedOrNot name ops old) it.kept last.kept moved.as_kept };

    ghost still_same = { λ old new was. was.same };

    ghost was_left = { λ old new was sure. (
      record { kept = old.kept; alone = old.kept },
      record { as_kept = refl; as_alone = refl },
      record { as_kept = refl; as_alone = refl },
    ) };

    fn cause(&self) -> Option<StoredFault> {
        self.failure
    }

    fn epoch(&self) -> Result<u64, Fault> {
        let epoch = self.store.kept.epoch();
        if self.failure.is_some() {
            return Err(Fault::Store);
        }
        Ok(u64::from(epoch))
    }

    fn epoch_up(&mut self) -> Result<u64, Fault> {
        if self.failure.is_some() {
            return Err(Fault::Store);
        }
        if self.store.kept.epoch() >= LAST_EPOCH {
            return Err(Fault::Refused);
        }
        match next_use(&mut self.fails) {
            None => {
                self.store.kept.raise();
                Ok(u64::from(self.store.kept.epoch()))
            }
            Some(failing) => {
                if failing.stays {
                    self.store.kept.raise();
                }
                self.failure = Some(failing.fault);
                Err(Fault::Store)
            }
        }
    }

    fn rows(&self, doc: &str) -> Result<usize, Fault> {
        if self.failure.is_some() {
            return Err(Fault::Store);
        }
        Ok(crate::count(self.store.kept.docs(), doc))
    }

    fn has_made(&self, doc: &str, replica: &ReplicaName) -> Result<bool, Fault> {
        if self.failure.is_some() {
            return Err(Fault::Store);
        }
        Ok(crate::has_made(self.store.kept.docs(), doc, replica))
    }

    fn front(&self, doc: &str) -> Result<Front, Fault> {
        if self.failure.is_some() {
            return Err(Fault::Store);
        }
        crate::front(self.store.kept.docs(), self.alloc, doc)
    }

    fn names(&self, alloc: Global) -> Result<Vec<String>, Fault> {
        if self.failure.is_some() {
            return Err(Fault::Store);
        }
        crate::names(self.store.kept.docs(), alloc)
    }

    fn load(&self, alloc: Global, doc: &str) -> Result<OpLog, Fault> {
        if self.failure.is_some() {
            return Err(Fault::Store);
        }
        crate::log_clone(self.store.kept.docs(), alloc, doc)
    }

    fn append(&mut self, doc: &str, from: usize, entries: &[Operation]) -> Result<(), Fault> {
        if self.failure.is_some() {
            return Err(Fault::Store);
        }
        if !may_add(self.store.kept.docs(), doc, from, entries) {
            return Err(Fault::Refused);
        }
        if entries.is_empty() {
            return Ok(());
        }
        match next_use(&mut self.fails) {
            None => self.store.kept.add(self.alloc, doc, entries),
            Some(failing) => {
                if failing.stays {
                    self.store.kept.add(self.alloc, doc, entries)?;
                }
                self.failure = Some(failing.fault);
                Err(Fault::Store)
            }
        }
    }

    fn resume(&mut self, doc: &str, from: usize, entries: &[Operation]) -> Result<(), Fault> {
        if matches!(self.fails, Some(failing) if failing.lasts) {
            return Err(Fault::Refused);
        }
        let rows = crate::count(self.store.kept.docs(), doc);
        if rows.checked_sub(from) != Some(entries.len()) {
            add_missing(&mut self.store.kept, self.alloc, doc, from, entries)?;
        }
        self.failure = None;
        Ok(())
    }

    fn fold(self) -> Result<ListLog, (StoredFault, ListStore)> {
        let ListLog {
            store,
            mut fails,
            failure,
            alloc,
        } = self;
        match folded(alloc, store, &mut fails) {
            Ok(store) => Ok(ListLog {
                store,
                fails,
                failure,
                alloc,
            }),
            Err(fault) => Err(fault),
        }
    }

    fn close(self) -> Result<ListStore, (StoredFault, ListStore)> {
        let ListLog {
            store,
            mut fails,
            failure: _,
            alloc,
        } = self;
        folded(alloc, store, &mut fails)
    }
}
