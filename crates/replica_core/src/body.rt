//! A replica without its name.
ghost use Rattle.std.specs.Prelude.{◌≡◌, ◌+◌, ◌<◌, ◌≤◌, [], length, find, OnOk, OnErr, OnSome};
ghost use Rattle.std.specs.Prelude.{IfErr, IfSome};
ghost use Rattle.std.specs.Option.{option_map};
ghost use Rattle.op_core.specs.Limits.{most_held};
ghost use Rattle.crdt_rules.specs.Dependencies as deps;
ghost use Rattle.crdt_rules.specs.Dependencies.{is_ready};
ghost use Rattle.crdt_rules.specs.Fits.{Fits};
ghost use Rattle.crdt_rules.specs.Log.{IsGood};
ghost use Rattle.doc_rules.specs.Replica.{find_id};
ghost use Rattle.hold_buffer.specs.Held.{IsCurrent};
ghost use Rattle.replica_core.specs.AgreesWith.{AgreesWith};
ghost use Rattle.replica_core.specs.Whole.{with_logged, with_held, with_removed};

use crate::log_op::log_op;
use doc_api::Ids;
use doc_tree::Tree;
use hold_buffer::HoldBuffer;
use json_scalar::Refusal;
use lamport_id::Id;
use op_core::Operation;
use op_log::{OpLog, keeps_good};
use std::alloc::Global;
use std::marker::Model;

/// What a replica has beside its name. A contract sees its log, and the held operations in the
/// order of their ids. The tree has the facts of the log's replay, each held operation waits for
/// the ids of its front that are not logged, and at most 256 are held.
pub struct Body {
    tree: Tree,
    log: OpLog,
    held: HoldBuffer,
}

impl Model for Body {
    ghost use Rattle.replica_core.specs.Whole.{Contents, IsBody};

    ghost Value = { Contents };

    ghost view = { λ b. record { log = b.log.operations; held = b.held.held } };

    ghost invariant = { λ b. IsBody b.tree b.log.operations b.held };
}

impl Body {
    /// The body of a log with its tree, which holds no operation. It keeps the allocator.
    pub fn new(alloc: Global, tree: Tree, log: OpLog) -> Body
        requires { AgreesWith tree log.operations }
        ensures log { result.log ≡ log.operations }
        ensures held { result.held ≡ [] }
    {
        Body {
            tree,
            log,
            held: HoldBuffer::new(alloc),
        }
    }

    /// Its log.
    pub fn log(&self) -> &OpLog
        ensures log { result.now.operations ≡ self.now.log }
        ensures good { IsGood self.now.log }
    {
        keeps_good(&self.log);
        &self.log
    }

    /// The tree of its log.
    pub fn tree(&self) -> &Tree
        ensures agrees { AgreesWith result.now self.now.log }
        ensures good { IsGood self.now.log }
    {
        keeps_good(&self.log);
        &self.tree
    }

    /// The operations that it holds.
    pub fn held(&self) -> &HoldBuffer
        ensures held { result.now.held ≡ self.now.held }
        ensures current { IsCurrent result.now self.now.log }
        ensures few { length self.now.held ≤ most_held }
    {
        &self.held
    }

    /// The least id of the held operations that are ready.
    pub fn next_ready(&self) -> Option<Id>
        ensures least { result
            ≡ option_map (λ o. o.id) (find (λ o. is_ready o self.now.log) self.now.held) }
        ensures operation { IfSome result (λ id.
            find_id self.now.held id ≡ find (λ o. is_ready o self.now.log) self.now.held) }
    {
        self.held.next_ready(&self.log)
    }

    /// Logs an operation that fits. The only error is out of memory, which changes nothing.
    pub fn append(&mut self, op: Operation) -> Result<(), Refusal>
        requires { Fits op self.old.log }
        ensures ok { OnOk result (self.new ≡ with_logged op self.old) }
        ensures err { IfErr result (λ e. e ≡ Refusal.NoMemory) }
        ensures same { OnErr result (self.new ≡ self.old) }
    {
        let id = op.id();
        log_op(&mut self.tree, &mut self.log, op)?;
        self.held.logged(id);
        Ok(())
    }

    /// Holds an operation for which there is room, with the ids that it waits for. The only error
    /// is out of memory, which changes nothing.
    pub fn hold(&mut self, op: Operation, missing: &Ids) -> Result<(), Refusal>
        requires room { length self.old.held < most_held }
        requires missed { missing.now ≡ deps.missing op self.old.log }
        ensures ok { OnOk result (self.new ≡ with_held op self.old) }
        ensures err { IfErr result (λ e. e ≡ Refusal.NoMemory) }
        ensures same { OnErr result (self.new ≡ self.old) }
    {
        match self.held.hold_with_missing(op, missing) {
            Ok(()) => Ok(()),
            Err(_) => Err(Refusal::NoMemory),
        }
    }

    /// Takes the held operation of this id out.
    pub fn remove(&mut self, id: Id) -> Option<Operation>
        ensures value { result ≡ find_id self.old.held id }
        ensures rest { self.new ≡ with_removed id self.old }
        ensures len { OnSome result (length self.new.held + 1 ≡ length self.old.held) }
    {
        self.held.remove(id)
    }
}

// By hand, so that it is called and not written out where a body is dropped.
impl Drop for Body {
    fn drop(self) {
        let Body {
            tree: _,
            log: _,
            held: _,
        } = self;
    }
}
