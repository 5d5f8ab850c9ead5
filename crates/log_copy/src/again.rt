//! A stored log over a database that was opened again, after a fault.
ghost use Rattle.std.specs.Prelude.{◌≡◌, ◌+◌, IsTrue, false, length, IfOk, OnOk};
ghost use Rattle.stored_log.specs.Docs.{IsBatch, add_batch, log_of};
ghost use Rattle.stored_log.specs.Log.{HasBatchAgain, HasSame};
ghost use Rattle.log_copy.specs.Again.{parts_log};
ghost use Rattle.log_copy.specs.Kept.{IsSoundCopy};
ghost use Rattle.log_copy.specs.Port.{CrashLeaves, copied_log};

use crate::copy::{LogCopy, Parts};
use crate::port::stored_fault_of;
use op_core::Operation;
use sqlite::{Alter, Connection};
use std::alloc::Global;
use stored_log::{Fault, StoredFault, are_fronts, are_same, count};

/// A batch that failed: entries of a document, behind so many.
#[derive(Clone, Copy)]
pub struct Failed<'a> {
    pub doc: &'a str,
    pub from: usize,
    pub entries: &'a [Operation],
}

// Whether what was found has the epoch and the tables of what was stored.
fn has_same_epoch<S: Alter + Drop>(found: &LogCopy<S>, kept: &Parts) -> bool
    ensures { IsTrue result → (found.now.epoch ≡ kept.now.epoch) × (found.now.is_alone ≡ kept.now.is_alone) }
{
    match found.epoch() {
        Ok(epoch) => epoch == u64::from(kept.epoch()) && found.is_alone() == kept.is_alone(),
        Err(_) => false,
    }
}

// Adds the batch to what was found, which is what was stored without it.
fn add_to_same<S: Alter + Drop>(
    found: &mut LogCopy<S>,
    kept: &Parts,
    failed: &Failed<'_>,
) -> Result<(), Fault>
    ensures same { OnOk result ((found.new.epoch ≡ found.old.epoch) × (found.new.is_alone ≡ found.old.is_alone)
        × (found.new.has_failed ≡ false)) }
    ensures added { OnOk result (IsBatch failed.now.doc.now failed.now.from failed.now.entries.now kept.now.docs
        × (found.new.docs ≡ add_batch failed.now.doc.now failed.now.entries.now kept.now.docs)) }
    ensures sound { OnOk result (IsSoundCopy S.Store found.new) }
{
    let docs = found.docs()?;
    if !are_same(docs, kept.docs()) {
        return Err(Fault::Refused);
    }
    found.add_batch(failed.doc, failed.from, failed.entries)
}

// Adds the batch to what was found, unless it has it, where what was stored has it too.
fn add_if_missing<S: Alter + Drop>(found: &mut LogCopy<S>, failed: &Failed<'_>) -> Result<(), Fault>
    ensures same { OnOk result ((found.new.epoch ≡ found.old.epoch) × (found.new.is_alone ≡ found.old.is_alone)) }
    ensures works { OnOk result (found.new.has_failed ≡ false) }
{
    if count(found.docs()?, failed.doc) != failed.from {
        return Ok(());
    }
    found.add_batch(failed.doc, failed.from, failed.entries)
}

// Makes of what was found what was stored, with the batch.
fn complete<S: Alter + Drop>(
    found: &mut LogCopy<S>,
    kept: &Parts,
    failed: &Failed<'_>,
) -> Result<(), Fault>
    ensures same { OnOk result ((found.new.epoch ≡ found.old.epoch) × (found.new.is_alone ≡ found.old.is_alone)
        × (found.new.has_failed ≡ false)) }
    ensures docs { OnOk result (found.new.docs ≡ kept.now.docs) }
    ensures sound { OnOk result (IsSoundCopy S.Store found.new) }
{
    if !are_fronts(found.docs()?, kept.docs()) {
        return Err(Fault::Refused);
    }
    add_if_missing(found, failed)?;
    if !are_same(found.docs()?, kept.docs()) {
        return Err(Fault::Refused);
    }
    Ok(())
}

// Adds the batch to what was found, if it isn't there. `Refused` where that isn't what was stored.
fn go_on<S: Alter + Drop>(
    found: &mut LogCopy<S>,
    kept: &Parts,
    failed: &Failed<'_>,
) -> Result<(), Fault>
    ensures again { OnOk result (HasBatchAgain failed.now.doc.now failed.now.from failed.now.entries.now
        (parts_log kept.now) (copied_log found.new)) }
    ensures alone { OnOk result (found.new.is_alone ≡ kept.now.is_alone) }
    ensures sound { OnOk result (IsSoundCopy S.Store found.new) }
{
    if !has_same_epoch(found, kept) {
        return Err(Fault::Refused);
    }
    let rows = count(kept.docs(), failed.doc);
    if rows.checked_sub(failed.from) == Some(failed.entries.len()) {
        complete(found, kept, failed)
    } else {
        add_to_same(found, kept, failed)
    }
}

/// A stored log over the connection, if it has what was stored before, perhaps without the batch that
/// failed. That is added then. Otherwise the connection comes back: `Refused` where it has something
/// else.
pub fn resumed<S: Alter + Drop>(
    alloc: Global,
    conn: Connection<S>,
    kept: &Parts,
    failed: &Failed<'_>,
) -> Result<LogCopy<S>, (Fault, Option<StoredFault>, Connection<S>)>
    ensures sound { IfOk result (IsSoundCopy S.Store) }
    ensures again { IfOk result (λ c. HasBatchAgain failed.now.doc.now failed.now.from failed.now.entries.now
        (parts_log kept.now) (copied_log c)) }
    ensures alone { IfOk result (λ c. c.is_alone ≡ kept.now.is_alone) }
    ensures stays { IfOk result (λ c. CrashLeaves S.Store c (HasSame (copied_log c))) }
{
    let mut found = match LogCopy::adopt(alloc, conn) {
        Ok(found) => found,
        Err((fault, conn, code)) => return Err((fault, code.map(stored_fault_of), conn)),
    };
    match go_on(&mut found, kept, failed) {
        Ok(()) => Ok(found),
        Err(fault) => {
            let cause = found.cause();
            let (conn, _) = found.into_parts();
            Err((fault, cause, conn))
        }
    }
}
