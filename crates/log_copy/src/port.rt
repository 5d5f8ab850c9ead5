//! `LogCopy` as a `StoredLog`.
ghost use Rattle.std.specs.Prelude.{◌≡◌, ◌⊎◌, ◌↔◌, [], true, false, Err, OnOk};
ghost use Rattle.stored_log.specs.Docs.{IsBatch, add_batch};
ghost use Rattle.stored_log.specs.Log.{HasSame, IsAddedOrNot, ShowsBatchOrNot};
ghost use Rattle.log_copy.specs.Port.{CrashLeaves, copied_log};

use crate::copy::LogCopy;
use crate::fold::Foldable;
use lamport_id::ReplicaName;
use op_core::{Front, Operation};
use op_log::OpLog;
use sqlite::{Alter, ErrorCode};
use std::alloc::Global;
use stored_log::{Fault, StoredFault, StoredLog};

/// The error of the database as one of a stored log.
pub fn stored_fault_of(code: ErrorCode) -> StoredFault {
    match code {
        ErrorCode::DiskFull => StoredFault::DiskFull,
        ErrorCode::SystemIoFailure => StoredFault::Io,
        ErrorCode::OutOfMemory => StoredFault::NoMemory,
        ErrorCode::DatabaseBusy => StoredFault::Busy,
        ErrorCode::DatabaseCorrupt | ErrorCode::NotADatabase => StoredFault::Damaged,
        ErrorCode::Closed => StoredFault::Closed,
        _ => StoredFault::Other,
    }
}

/// As `append`, where the file that the database is in is still at its path. Otherwise the log
/// fails, and is as it was.
pub fn append_there<S: Alter + Drop>(
    copy: &mut LogCopy<S>,
    is_there: bool,
    doc: &str,
    from: usize,
    entries: &[Operation],
) -> Result<(), Fault>
    ensures ok { OnOk result ((copy.new.docs ≡ add_batch doc.now entries.now copy.old.docs)
        × (copy.new.epoch ≡ copy.old.epoch) × (copy.new.has_failed ≡ false)) }
    ensures batch { OnOk result (IsBatch doc.now from entries.now copy.old.docs) }
    ensures empty { entries.now ≡ [] → copy.new ≡ copy.old }
    ensures alone { copy.new.is_alone ≡ copy.old.is_alone }
    ensures refused { result ≡ Err Fault.Refused
        → ¬ IsBatch doc.now from entries.now copy.old.docs }
    ensures unchanged { (result ≡ Err Fault.Refused) ⊎ (result ≡ Err Fault.Memory)
        → copy.new ≡ copy.old }
    ensures failed { (result ≡ Err Fault.Store) ↔ (copy.new.has_failed ≡ true) }
    ensures shut { copy.old.has_failed ≡ true → (result ≡ Err Fault.Store) × (copy.new ≡ copy.old) }
    ensures crash { copy.old.has_failed ≡ false
        → CrashLeaves S.Store copy.new (IsAddedOrNot doc.now entries.now (copied_log copy.old)) }
    ensures stays { OnOk result (CrashLeaves S.Store copy.new (HasSame (copied_log copy.new))) }
    ensures shows { result ≡ Err Fault.Store → copy.old.has_failed ≡ false
        → ShowsBatchOrNot doc.now from entries.now (copied_log copy.old) (copied_log copy.new) }
{
    copy.add_batch_there(is_there, doc, from, entries)
}

impl<S: Foldable + Drop> StoredLog for LogCopy<S> {
    type Left = S;

    ghost use Rattle.sqlite_trees.specs.View.{IsClean};
    ghost use Rattle.stored_log.specs.Log.{IsRaisedOrNot};
    ghost use Rattle.log_copy.specs.Port.{CrashLeaves, HasMoved, IsInFile, IsInStore, IsSure};
    ghost use Rattle.log_copy.specs.Port.{StoreLeaves, WasInFile, leaves_moved, same_such, was_in};
    ghost use Rattle.log_copy.specs.Port.{copied_log, keeps_such};

    ghost log = { copied_log };

    ghost is_sure = { IsSure S.Store };

    ghost survives = { CrashLeaves S.Store };

    ghost was_alone = { WasInFile S.Store S.Foldable.holds_alone };

    ghost is_in_file = { IsInFile S.Store S.Foldable.holds_alone };

    ghost is_in_store = { IsInStore S.Store };

    ghost has_moved = { HasMoved S.Store S.Foldable.holds_alone };

    ghost is_left_sure = { λ last. IsClean (S.Store.view last) };

    ghost left_survives = { StoreLeaves S.Store };

    ghost still_keeps = { λ it first last kept left alone clean db may. keeps_such first last kept db (left alone clean db may) };

    ghost is_left = { λ it last both alone. (both alone).1 };

    ghost is_kept = { λ it last is alone clean db may. same_such it (is alone clean db may) };

    ghost has_all = { λ it last moved. moved.has_all };

    ghost moved_same = { λ it last kept moved. leaves_moved (HasSame kept) it last moved };

    ghost moved_epoch = { λ it last old moved. leaves_moved (IsRaisedOrNot old) it last moved };

    ghost moved_batch = { λ it last name ops old moved.
        leaves_moved (IsAddedOrNot name ops old) it last moved };

    ghost still_same = { λ old new was. was.same };

    ghost was_left = { λ old new was sure. was_in old new was sure };

    fn cause(&self) -> Option<StoredFault> {
        LogCopy::cause(self)
    }

    fn epoch(&self) -> Result<u64, Fault> {
        LogCopy::epoch(self)
    }

    fn epoch_up(&mut self) -> Result<u64, Fault> {
        LogCopy::epoch_up(self)
    }

    fn rows(&self, doc: &str) -> Result<usize, Fault> {
        let docs = LogCopy::docs(self)?;
        Ok(stored_log::count(docs, doc))
    }

    fn has_made(&self, doc: &str, replica: &ReplicaName) -> Result<bool, Fault> {
        let docs = LogCopy::docs(self)?;
        Ok(stored_log::has_made(docs, doc, replica))
    }

    fn front(&self, doc: &str) -> Result<Front, Fault> {
        LogCopy::front(self, doc)
    }

    fn names(&self, alloc: Global) -> Result<Vec<String>, Fault> {
        let docs = LogCopy::docs(self)?;
        stored_log::names(docs, alloc)
    }

    fn load(&self, alloc: Global, doc: &str) -> Result<OpLog, Fault> {
        let docs = LogCopy::docs(self)?;
        stored_log::log_clone(docs, alloc, doc)
    }

    fn append(&mut self, doc: &str, from: usize, entries: &[Operation]) -> Result<(), Fault> {
        self.add_batch(doc, from, entries)
    }

    /// Its store can't be opened again: only `SqliteLog` knows its files.
    fn resume(&mut self, _doc: &str, _from: usize, _entries: &[Operation]) -> Result<(), Fault> {
        Err(Fault::Refused)
    }

    fn fold(self) -> Result<LogCopy<S>, (StoredFault, S)> {
        match LogCopy::fold(self) {
            Ok(copy) => Ok(copy),
            Err((code, store)) => Err((stored_fault_of(code), store)),
        }
    }

    fn close(self) -> Result<S, (StoredFault, S)> {
        match LogCopy::close(self) {
            Ok(store) => Ok(store),
            Err((code, store)) => Err((stored_fault_of(code), store)),
        }
    }
}
