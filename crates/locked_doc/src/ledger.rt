//! A table of counters, and the documents made from it.
ghost use Rattle.std.specs.Prelude.{◌≡◌, ◌⊎◌, ◌-◌, ◌+◌, ◌≤◌, ℕ, [], length, replicate, IfOk, IfErr};
ghost use Rattle.std.specs.Prelude.{OnOk, false};
ghost use Rattle.crdt_rules.specs.Log.{IsGood};
ghost use Rattle.doc_rules.specs.Cause.{IsFirstMisfit};
ghost use Rattle.doc_rules.specs.Document.{new_document};
ghost use Rattle.share_ledger.specs.Begun.{MayBeNamed};
ghost use Rattle.locked_doc.specs.Locked.{document_of};
ghost use Rattle.replica_core.specs.Whole.{replica_of};
ghost use Rattle.locked_doc.specs.Numbers.{greatest_number};

use crate::{Ledgers, LockedDoc};
use json_scalar::Refusal;
use lamport_id::ReplicaName;
use op_core::Operation;
use op_log::OpLog;
use replica_core::{Misfit, Replica};
use share_ledger::{Blank, Marker, Table};
use std::alloc::Global;
use std::marker::Model;

/// A table of counters from which documents of rising numbers are made, the first of number 0.
/// Contracts see it as the number of the next one. (`Ledgers` are the counters of one document.)
#[derive(Drop)]
pub struct Ledger<M: Marker> {
    table: Table<M>,
    next: u16,
}

impl<M: Marker> Model for Ledger<M> {
    ghost use Rattle.std.specs.Prelude.{ℕ, ◌≤◌};
    ghost use Rattle.share_ledger.specs.Counters.{counter_number};

    ghost Value = { ℕ };

    ghost view = { λ l. l.next };

    ghost invariant = { λ l. l.table ≤ counter_number l.next 0 };
}

// The document of the replica, which has the counters.
fn with_counters<M: Marker>(
    alloc: Global,
    replica: Replica,
    ledgers: Ledgers<M>,
) -> Result<LockedDoc<M>, Refusal>
    requires begun { replica.log ≡ (M.origin ledgers.number).log }
    requires named { MayBeNamed (M.origin ledgers.number) replica.name }
    ensures made { IfOk result (λ doc. (doc.number ≡ ledgers.number)
        × (doc.document ≡ document_of replica (replicate (length replica.log) 0) ledgers.seats 0
        (length replica.log)) × (doc.followed ≡ false)) }
    ensures memory { IfErr result (λ cause. cause ≡ Refusal.NoMemory) }
{
    match LockedDoc::new(alloc, replica, ledgers) {
        Ok(doc) => Ok(doc),
        Err(_) => Err(Refusal::NoMemory),
    }
}

// The replica of this name whose log is these operations.
fn replica_of(
    alloc: Global,
    name: &ReplicaName,
    operations: &[Operation],
) -> Result<Replica, Refusal>
    ensures made { IfOk result (λ replica. replica ≡ replica_of name.now operations.now []) }
    ensures good { OnOk result (IsGood operations.now) }
    ensures err { IfErr result (λ cause. (cause ≡ Refusal.NoMemory)
        ⊎ ((place : ℕ) × IsFirstMisfit operations.now place cause)) }
    ensures memory { IfErr result (λ cause. IsGood operations.now → cause ≡ Refusal.NoMemory) }
{
    match Replica::restore(alloc, *name, operations) {
        Ok(replica) => Ok(replica),
        Err(Misfit::At { place: _, cause }) => Err(cause),
        Err(Misfit::NoMemory) => Err(Refusal::NoMemory),
    }
}

impl<M: Marker> Ledger<M> {
    /// A table of which nothing is opened.
    pub fn new(blank: Blank) -> Ledger<M>
        requires { blank ≡ M.name }
        ensures { result ≡ 0 }
    {
        Ledger {
            table: blank.named::<M>(),
            next: 0,
        }
    }

    // The counters of the next document, one for each of so many seats.
    fn counters(&mut self, alloc: Global, seats: u16) -> Result<Ledgers<M>, Refusal>
        requires { 1 ≤ greatest_number - self.old }
        ensures made { IfOk result
            (λ l. (l.number ≡ self.old) × (l.seats ≡ seats) × (self.new ≡ self.old + 1)) }
        ensures memory { IfErr result
            (λ cause. (cause ≡ Refusal.NoMemory) × (self.new ≡ self.old)) }
    {
        let ledgers = Ledgers::make(alloc, &mut self.table, self.next, seats)?;
        self.next += 1;
        Ok(ledgers)
    }

    /// A new document with so many seats, for the replica of this name, which the document of the
    /// next number may have; and that begins with nothing. The one error is `NoMemory`.
    pub fn locked(
        &mut self,
        alloc: Global,
        name: &ReplicaName,
        seats: u16,
    ) -> Result<LockedDoc<M>, Refusal>
        requires number { 1 ≤ greatest_number - self.old }
        requires begun { (M.origin self.old).log ≡ [] }
        requires named { MayBeNamed (M.origin self.old) name.now }
        ensures made { IfOk result
            (λ doc. (doc.number ≡ self.old) × (doc.document ≡ new_document name.now [] seats)
            × (doc.followed ≡ false)) }
        ensures memory { IfErr result (λ cause. cause ≡ Refusal.NoMemory) }
        ensures next { IfOk result (λ doc. self.new ≡ self.old + 1) }
        ensures room { greatest_number - self.old ≤ (greatest_number - self.new) + 1 }
    {
        let ledgers = self.counters(alloc, seats)?;
        with_counters(alloc, Replica::new(alloc, *name)?, ledgers)
    }

    /// A document of these operations with so many seats, for the replica of this name, which the
    /// document of the next number may have. The operations are what that document begins with, of
    /// seat 0, and noted as copied. An error is `NoMemory`, or the cause against the first that
    /// does not fit those before it.
    pub fn restored(
        &mut self,
        alloc: Global,
        name: &ReplicaName,
        operations: &[Operation],
        seats: u16,
    ) -> Result<LockedDoc<M>, Refusal>
        requires number { 1 ≤ greatest_number - self.old }
        requires begun { operations.now ≡ (M.origin self.old).log }
        requires named { MayBeNamed (M.origin self.old) name.now }
        ensures made { IfOk result (λ doc. (doc.number ≡ self.old)
            × (doc.document ≡ new_document name.now operations.now seats)
            × (doc.followed ≡ false)) }
        ensures good { OnOk result (IsGood operations.now) }
        ensures err { IfErr result (λ cause. (cause ≡ Refusal.NoMemory)
            ⊎ ((place : ℕ) × IsFirstMisfit operations.now place cause)) }
        ensures memory { IfErr result (λ cause. IsGood operations.now → cause ≡ Refusal.NoMemory) }
        ensures next { IfOk result (λ doc. self.new ≡ self.old + 1) }
        ensures room { greatest_number - self.old ≤ (greatest_number - self.new) + 1 }
    {
        let ledgers = self.counters(alloc, seats)?;
        with_counters(alloc, replica_of(alloc, name, operations)?, ledgers)
    }

    /// A document of this log with so many seats, for the replica of this name, which the document
    /// of the next number may have. The log's operations are what that document begins with, of
    /// seat 0, and noted as copied. None is checked again. The one error is `NoMemory`.
    pub fn of_log(
        &mut self,
        alloc: Global,
        name: &ReplicaName,
        log: OpLog,
        seats: u16,
    ) -> Result<LockedDoc<M>, Refusal>
        requires number { 1 ≤ greatest_number - self.old }
        requires begun { log.operations ≡ (M.origin self.old).log }
        requires named { MayBeNamed (M.origin self.old) name.now }
        ensures made { IfOk result (λ doc. (doc.number ≡ self.old)
            × (doc.document ≡ new_document name.now log.operations seats)
            × (doc.followed ≡ false)) }
        ensures memory { IfErr result (λ cause. cause ≡ Refusal.NoMemory) }
        ensures next { IfOk result (λ doc. self.new ≡ self.old + 1) }
        ensures room { greatest_number - self.old ≤ (greatest_number - self.new) + 1 }
    {
        let ledgers = self.counters(alloc, seats)?;
        with_counters(alloc, Replica::of_log(alloc, *name, log)?, ledgers)
    }
}
