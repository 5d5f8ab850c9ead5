//! One document of a stored log.
ghost use Rattle.std.specs.Prelude.{◌≡◌, ◌≢◌, ◌+◌, ◌≤◌, ◌<◌, ◌++◌, ◌∷◌, [], length, take};
ghost use Rattle.std.specs.Prelude.{string_bytes, IfOk, IfErr};
ghost use Rattle.std.specs.Prelude.{OnOk, Ok, Err};
ghost use Rattle.std.specs.List.{list_any};
ghost use Rattle.json_scalar.specs.Refusal.{UnlessMemory};
ghost use Rattle.crdt_rules.specs.Fits.{Fits};
ghost use Rattle.crdt_rules.specs.Log.{IsGood};
ghost use Rattle.crdt_rules.specs.Pull.{front_of};
ghost use Rattle.stored_log.specs.Docs.{Doc, is_by, longer_by};

use crate::fault::Fault;
use json_scalar::Refusal;
use lamport_id::ReplicaName;
use op_core::{Front, Operation};
use op_log::{OpLog, keeps_good};
use std::alloc::Global;
use std::marker::Model;

/// A document with rows: its name, and its entries in the order of the log.
pub struct StoredDoc {
    name: String,
    log: OpLog,
    // How many operations of the log are rows. A batch that was refused may have left more.
    rows: usize,
    alloc: Global,
}

impl Model for StoredDoc {
    ghost use Rattle.std.specs.Prelude.{◌≤◌, length, take, string_bytes};
    ghost use Rattle.stored_log.specs.Docs.{Doc};

    ghost Value = { Doc };

    ghost view = { λ d. record { name = string_bytes d.name; log = take d.rows d.log.operations } };

    ghost invariant = { λ d. d.rows ≤ length d.log.operations };
}

// By hand, so that it is called and not written out where a document is dropped.
impl Drop for StoredDoc {
    fn drop(self) {
        let StoredDoc {
            name: _,
            log: _,
            rows: _,
            alloc: _,
        } = self;
    }
}

impl StoredDoc {
    /// The name.
    pub fn name(&self) -> &str
        ensures { result.now ≡ self.now.name }
    {
        self.name.as_str()
    }

    /// How many rows it has.
    pub fn len(&self) -> usize
        ensures { result ≡ length self.now.log }
    {
        self.rows
    }

    /// The front of its entries: each replica with its last counter.
    /// The only error is out of memory.
    pub fn front(&self) -> Result<Front, Refusal>
        ensures { UnlessMemory result (Ok (front_of self.now.log)) }
    {
        if self.rows == self.log.len() {
            return self.log.front();
        }
        trimmed(self.alloc, &self.log, self.rows)?.front()
    }

    /// Whether the replica has made one of its entries, by one search among its replicas.
    pub fn is_maker(&self, replica: &ReplicaName) -> bool
        ensures { result ≡ list_any (is_by replica.now) self.now.log }
    {
        if self.log.len() == self.rows {
            return has_made(&self.log, replica);
        }
        self.entries().iter().any(|op| is_by(op, replica))
    }

    /// Its entries, in the order of the log.
    pub fn entries(&self) -> &[Operation]
        ensures { result.now ≡ self.now.log }
    {
        &self.log.as_slice()[..self.rows]
    }

    /// The log of its entries, as a clone that shares their parts. The only error is out of memory.
    pub fn log(&self, alloc: Global) -> Result<OpLog, Fault>
        ensures ok { IfOk result (λ l. l.operations ≡ self.now.log) }
        ensures err { IfErr result (λ e. e ≡ Fault.Memory) }
    {
        match first_of(alloc, &self.log, self.rows) {
            Ok(log) => Ok(log),
            Err(_) => Err(Fault::Memory),
        }
    }

    /// The document of this name with no entry.
    pub fn new(alloc: Global, name: &str) -> Result<StoredDoc, Fault>
        ensures ok { IfOk result (λ d. d ≡ record { name = name.now; log = [] }) }
        ensures err { IfErr result (λ e. e ≡ Fault.Memory) }
    {
        let Ok(name) = String::from_str(alloc, name) else {
            return Err(Fault::Memory);
        };
        Ok(StoredDoc {
            name,
            log: OpLog::new(alloc),
            rows: 0,
            alloc,
        })
    }

    /// The operation, unchanged. Where it has no clones, it shares the names of its
    /// front with an entry whose front has those names: `add` clones it, and those
    /// clones share then. Allocates nothing.
    pub fn sharing(&self, op: Operation) -> Operation
        ensures { result ≡ op }
    {
        self.log.sharing(op)
    }

    /// Adds clones of these entries, if each fits those before it. Otherwise all is as it was.
    pub fn add(&mut self, entries: &[Operation]) -> Result<(), Fault>
        ensures ok { OnOk result ((self.new ≡ longer_by entries.now self.old)
            × IsGood (self.old.log ++ entries.now)) }
        ensures err { IfErr result (λ e. (self.new ≡ self.old) × (e ≢ Fault.Store)) }
        ensures refused { result ≡ Err Fault.Refused → ¬ IsGood (self.old.log ++ entries.now) }
    {
        if self.rows != self.log.len() {
            match trimmed(self.alloc, &self.log, self.rows) {
                Ok(log) => self.log = log,
                Err(_) => return Err(Fault::Memory),
            }
        }
        if self.log.reserve(entries.len()).is_err() {
            return Err(Fault::Memory);
        }
        append_all(&mut self.log, entries)?;
        self.rows = self.log.len();
        Ok(())
    }
}

// Whether the replica made the operation.
fn is_by(op: &Operation, replica: &ReplicaName) -> bool
    ensures { result ≡ is_by replica.now op.now }
{
    op.id().replica == *replica
}

// Whether the replica made one of the operations of the log.
fn has_made(log: &OpLog, replica: &ReplicaName) -> bool
    ensures { result ≡ list_any (is_by replica.now) log.now.operations }
{
    log.last_counter(*replica).is_some()
}

// A log of the first of these operations, which is copied with its index where they are all.
fn first_of(alloc: Global, log: &OpLog, rows: usize) -> Result<OpLog, Refusal>
    requires { rows ≤ length log.now.operations }
    ensures ok { IfOk result (λ first. first.operations ≡ take rows log.now.operations) }
    ensures err { IfErr result (λ e. e ≡ Refusal.NoMemory) }
{
    if rows < log.len() {
        trimmed(alloc, log, rows)
    } else {
        log.try_clone(alloc)
    }
}

// A log of the first of these operations.
fn trimmed(alloc: Global, log: &OpLog, rows: usize) -> Result<OpLog, Refusal>
    requires { rows ≤ length log.now.operations }
    ensures ok { IfOk result (λ first. first.operations ≡ take rows log.now.operations) }
    ensures err { IfErr result (λ e. e ≡ Refusal.NoMemory) }
{
    let mut first = OpLog::new(alloc);
    first.reserve(rows)?;
    keeps_good(log);
    for at in 0..rows {
        let clone = log.as_slice()[at].try_clone()?;
        first.append(clone);
    }
    Ok(first)
}

// Appends clones of these entries, up to the first that does not fit.
fn append_all(log: &mut OpLog, entries: &[Operation]) -> Result<(), Fault>
    requires { length entries.now ≤ log.old.room }
    ensures ok { OnOk result ((log.new.operations ≡ log.old.operations ++ entries.now)
        × IsGood (log.old.operations ++ entries.now)) }
    ensures err { IfErr result (λ e. e ≢ Fault.Store) }
    ensures refused { result ≡ Err Fault.Refused → ¬ IsGood (log.old.operations ++ entries.now) }
    ensures begins { take (length log.old.operations) log.new.operations ≡ log.old.operations }
    ensures longer { length log.old.operations ≤ length log.new.operations }
{
    for at in 0..entries.len() {
        append_one(log, &entries[at])?;
    }
    keeps_good(log);
    Ok(())
}

// Appends a clone of an entry that fits.
fn append_one(log: &mut OpLog, entry: &Operation) -> Result<(), Fault>
    requires { 1 ≤ log.old.room }
    ensures ok { OnOk result ((log.new.operations ≡ log.old.operations ++ entry.now ∷ [])
        × (log.old.room ≤ log.new.room + 1)) }
    ensures err { IfErr result (λ e. (log.new ≡ log.old) × (e ≢ Fault.Store)) }
    ensures refused { result ≡ Err Fault.Refused → ¬ Fits entry.now log.old.operations }
{
    if log.check(entry).is_err() {
        return Err(Fault::Refused);
    }
    let Ok(clone) = entry.try_clone() else {
        return Err(Fault::Memory);
    };
    log.append(clone);
    Ok(())
}
