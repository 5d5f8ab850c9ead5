//! The buffer.
ghost use Rattle.std.specs.Prelude.{◌≡◌, ◌↔◌, List, [], ◌∷◌, ◌++◌, ◌+◌, length, ◌==◌, map, filter};
ghost use Rattle.std.specs.Prelude.{find, not, true};
ghost use Rattle.std.specs.Prelude.{false, IsTrue, OnOk, OnErr, OnSome, Some, IfSome, Ok, Contains};
ghost use Rattle.std.specs.Option.{option_map, option_copied};
ghost use Rattle.doc_api.specs.Words.{id_cmp, UnlessMemory, Op};
ghost use Rattle.crdt_rules.specs.Same.{id_eq};
ghost use Rattle.doc_rules.specs.Sorted.{IsRising};
ghost use Rattle.doc_rules.specs.Replica.{find_id};
ghost use Rattle.crdt_rules.specs.Dependencies as deps;
ghost use Rattle.crdt_rules.specs.Dependencies.{is_logged, is_ready, missing};
ghost use Rattle.hold_buffer.specs.Held.{IsCurrent, hold_cause};
ghost use Rattle.doc_rules.specs.Replica.{put_among};

use crate::entry::Entry;
use crate::order::{admit, forget_waits, ids_of, search, store, take_at, waiting_of};
use crate::ready::{announce, drop_id, least};
use crate::release::release;
use crate::waiters::Waiters;
use doc_api::{Ids, Waiting};
use json_scalar::Refusal;
use lamport_id::Id;
use op_core::Operation;
use op_log::OpLog;
use slab::Slab;
use std::alloc::Global;
use std::collections::VecDeque;
use std::marker::Model;

/// Operations that wait for others to be logged (a causal buffer). A contract sees the held
/// operations, by rising id (`held`), and which of them waits for which id (`waits`): `IsCurrent`
/// says that they wait for exactly the ids of their fronts that are not in a log.
#[derive(Debug)]
pub struct HoldBuffer {
    slots: Slab<Operation>,
    // by rising id; a queue, since most come and go at its front
    order: VecDeque<Entry>,
    // the ids of those that wait for nothing, by rising id
    ready: Vec<Id>,
    waiters: Waiters,
}

impl Model for HoldBuffer {
    ghost use Rattle.hold_buffer.specs.Held.{Buffer};
    ghost use Rattle.hold_buffer.specs.Order.{operations_of, waits_of, HasWaits};

    ghost Value = { Buffer };

    ghost view = { λ b. record { held = operations_of b.slots b.order.items; waits = waits_of b.order.items } };

    ghost invariant = { λ b. HasWaits b.slots b.order.items b.ready b.waiters };
}

impl HoldBuffer {
    /// The buffer that holds nothing.
    pub fn new(alloc: Global) -> HoldBuffer
        ensures held { result.held ≡ [] }
        ensures current { (log : List Op) → IsCurrent result log }
    {
        HoldBuffer {
            slots: Slab::new(alloc),
            order: VecDeque::new(alloc),
            ready: Vec::new(alloc),
            waiters: Waiters::new(alloc),
        }
    }

    /// How many operations are held.
    pub fn len(&self) -> usize
        ensures len { result ≡ length self.now.held }
        ensures rising { IsRising id_cmp (λ o. o.id) self.now.held }
    {
        self.order.len()
    }

    /// Whether none is held. The program itself doesn't call it.
    pub fn is_empty(&self) -> bool
        ensures { result ≡ (length self.now.held == 0) }
    {
        self.len() == 0
    }

    /// The ids of the held operations, in their order. The only error is out of memory. The
    /// program itself calls `waiting`.
    pub fn ids(&self) -> Result<Ids, Refusal>
        ensures { UnlessMemory result (Ok (map (λ o. o.id) self.now.held)) }
    {
        Ok(Ids::from(ids_of(*self.order.allocator(), &self.order)?))
    }

    /// The ids of the held operations, in their order, each with those that it waits for, in the
    /// order of its front. The only error is out of memory.
    pub fn waiting(&self, log: &OpLog) -> Result<Waiting, Refusal>
        requires { IsCurrent self.now log.now.operations }
        ensures { UnlessMemory result (Ok (map (λ o. (o.id, missing o log.now.operations)) self.now.held)) }
    {
        let alloc = *self.order.allocator();
        waiting_of(alloc, &self.order)
    }

    /// The held operation of this id.
    pub fn get(&self, id: Id) -> Option<&Operation>
        ensures found { option_copied result ≡ find_id self.now.held id }
        ensures rising { IsRising id_cmp (λ o. o.id) self.now.held }
    {
        match search(&self.order, &id) {
            Ok(at) => self.slots.get(self.order[at].key),
            Err(_) => None,
        }
    }

    /// Whether an operation is held under this id. The program itself doesn't call it.
    pub fn contains(&self, id: Id) -> bool
        ensures { result ≡ is_logged self.now.held id }
    {
        self.get(id).is_some()
    }

    /// Whether an equal operation is held. The program itself doesn't call it.
    pub fn same(&self, op: &Operation) -> bool
        ensures { IsTrue result ↔ Contains self.now.held op.now }
    {
        match self.get(op.id()) {
            Some(held) => *held == *op,
            None => false,
        }
    }

    /// Holds an operation that is not ready, unless another one is held under its id (id-conflict),
    /// or 256 are held (held-full), or out of memory. An error leaves the buffer as it was. The
    /// program itself calls `hold_with_missing`.
    pub fn hold(&mut self, log: &OpLog, op: Operation) -> Result<(), Refusal>
        requires waits { is_ready op log.now.operations ≡ false }
        requires new_id { is_logged log.now.operations op.id ≡ false }
        requires other { ¬ (Contains self.old.held op) }
        requires current { IsCurrent self.old log.now.operations }
        ensures cause { UnlessMemory result (hold_cause op.id self.old.held) }
        ensures ok { OnOk result (self.new.held ≡ put_among op self.old.held) }
        ensures err { OnErr result (self.new ≡ self.old) }
        ensures current { IsCurrent self.new log.now.operations }
    {
        match log.missing(&op) {
            Ok(missing) => self.hold_with_missing(op, &missing),
            Err(_) => Err(Refusal::NoMemory),
        }
    }

    /// `hold`, of an operation that waits for these ids.
    pub fn hold_with_missing(&mut self, op: Operation, missing: &Ids) -> Result<(), Refusal>
        requires missed { (log : List Op) × (missing.now ≡ deps.missing op log) }
        ensures cause { UnlessMemory result (hold_cause op.id self.old.held) }
        ensures ok { OnOk result (self.new.held ≡ put_among op self.old.held) }
        ensures err { OnErr result (self.new ≡ self.old) }
        ensures current { (log : List Op) → missing.now ≡ deps.missing op log
            → IsCurrent self.old log → IsCurrent self.new log }
    {
        match admit(
            &op,
            missing,
            &mut self.slots,
            &mut self.order,
            &mut self.ready,
            &mut self.waiters,
        ) {
            Ok((at, awaited)) => {
                let id = op.id();
                let is_free = awaited.is_empty();
                store(&mut self.slots, &mut self.order, at, op, awaited);
                announce(&mut self.ready, &id, is_free);
                Ok(())
            }
            Err(refusal) => {
                // in this arm, for a shorter proof
                drop(op);
                Err(refusal)
            }
        }
    }

    /// Notes that the operation of this id was logged: no held one waits for it any longer.
    pub fn logged(&mut self, id: Id)
        ensures held { self.new.held ≡ self.old.held }
        ensures current { (log : List Op) (op : Op) → op.id ≡ id
            → IsCurrent self.old log → IsCurrent self.new (log ++ op ∷ []) }
    {
        // Usually no operation is held. Then the id isn't hashed.
        if !self.order.is_empty() {
            let keys = self.waiters.of(&id);
            release(&self.slots, &mut self.order, &mut self.ready, keys, &id);
        }
    }

    /// The least id of the ready operations.
    pub fn next_ready(&self, log: &OpLog) -> Option<Id>
        requires { IsCurrent self.now log.now.operations }
        ensures least { result
            ≡ option_map (λ o. o.id) (find (λ o. is_ready o log.now.operations) self.now.held) }
        ensures operation { IfSome result (λ id.
            find_id self.now.held id ≡ find (λ o. is_ready o log.now.operations) self.now.held) }
    {
        least(&self.ready)
    }

    /// The ids that a held operation waits for, in the order of its front. The only error is out of
    /// memory. The program itself calls `waiting`.
    pub fn missing(&self, log: &OpLog, id: Id) -> Result<Ids, Refusal>
        requires held { is_logged self.now.held id ≡ true }
        requires current { IsCurrent self.now log.now.operations }
        ensures { (op : Op) → find_id self.now.held id ≡ Some op
            → UnlessMemory result (Ok (missing op log.now.operations)) }
    {
        let alloc = *self.order.allocator();
        match search(&self.order, &id) {
            Ok(at) => self.order[at].missing.ids(alloc),
            Err(_) => unreachable!(),
        }
    }

    /// Takes the operation of this id out.
    pub fn remove(&mut self, id: Id) -> Option<Operation>
        ensures value { result ≡ find_id self.old.held id }
        ensures len { OnSome result (length self.new.held + 1 ≡ length self.old.held) }
        ensures held { self.new.held ≡ filter (λ o. not (id_eq o.id id)) self.old.held }
        ensures current { (log : List Op) → IsCurrent self.old log → IsCurrent self.new log }
    {
        match search(&self.order, &id) {
            Ok(at) => {
                forget_waits(&self.order, &mut self.waiters, at);
                drop_id(&mut self.ready, &id);
                take_at(&mut self.slots, &mut self.order, at)
            }
            Err(_) => None,
        }
    }
}

// By hand, so that it is called and not written out where a buffer is dropped.
impl Drop for HoldBuffer {
    fn drop(self) {
        let HoldBuffer {
            slots: _,
            order: _,
            ready: _,
            waiters: _,
        } = self;
    }
}
