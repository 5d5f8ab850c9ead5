//! The delivery of operations that were made elsewhere.
ghost use Rattle.std.specs.Prelude.{◌≡◌, ◌<◌, ℕ, List, length, nat_le, bytes_eq, None};
ghost use Rattle.std.specs.Prelude.{if◌then◌else◌};
ghost use Rattle.op_core.specs.Limits.{most_held};
ghost use Rattle.std.specs.Option.{option_map};
ghost use Rattle.op_core.specs.Equality.{operation_eq};
ghost use Rattle.crdt_rules.specs.Dependencies as deps;
ghost use Rattle.crdt_rules.specs.Dependencies.{missing};
ghost use Rattle.doc_rules.specs.Cause.{cause_of};
ghost use Rattle.doc_rules.specs.Events as expected;
ghost use Rattle.doc_rules.specs.Events.{expected_by_cause, expected_of_delivery};
ghost use Rattle.doc_rules.specs.Replica.{Replica, find_id};
ghost use Rattle.replica_core.specs.Memory.{is_to_log};
ghost use Rattle.replica_core.specs.Outcomes.{Meets, reply_of_delivered};
ghost use Rattle.replica_core.specs.Whole.{replica_with};

use crate::body::Body;
use crate::outcome::Delivered;
use doc_api::{Ids, Reply};
use hold_buffer::MAX_HELD;
use json_scalar::Refusal;
use lamport_id::ReplicaName;
use op_core::Operation;
use op_log::OpLog;

impl Body {
    /// Delivers an operation that was made elsewhere. The answer is that it is known, or the first
    /// cause against it: id-conflict with one that is logged or held under its id, own-name,
    /// held-full, and those of `OpLog::check`. Otherwise it is logged and the held ones drained, or
    /// it is held. Out of memory, it is refused, and nothing changes.
    pub fn deliver(&mut self, name: ReplicaName, op: Operation) -> Result<Delivered, Refusal>
        ensures { let r = replica_with name self.old in
            Meets r (expected_of_delivery r op) (reply_of_delivered result) (replica_with name self.new) }
    {
        match self.is_same_logged(&op) {
            Some(is_same) => known_or_conflict(is_same),
            None => self.deliver_unlogged(name, op),
        }
    }

    /// Whether a delivery of the operation would log it, if memory suffices. Allocates nothing.
    pub fn would_log(&self, name: &ReplicaName, op: &Operation) -> bool
        ensures { result ≡ is_to_log (replica_with name.now self.now) op.now }
    {
        !self.log().contains(op.id())
            && !self.held().contains(op.id())
            && !is_by(op, name)
            && self.log().is_ready(op)
            && self.log().check(op).is_ok()
    }

    // Whether the logged operation of its id is the operation, if there is one.
    fn is_same_logged(&self, op: &Operation) -> Option<bool>
        ensures { result
            ≡ option_map (λ o. operation_eq o op.now) (find_id self.now.log op.now.id) }
    {
        match self.log().get(op.id()) {
            Some(logged) => Some(*logged == *op),
            None => None,
        }
    }

    fn deliver_unlogged(&mut self, name: ReplicaName, op: Operation) -> Result<Delivered, Refusal>
        requires { find_id self.old.log op.id ≡ None }
        ensures { let r = replica_with name self.old in
            Meets r (expected_of_delivery r op) (reply_of_delivered result) (replica_with name self.new) }
    {
        match self.is_same_held(&op) {
            Some(is_same) => held_or_conflict(self.log(), &op, is_same),
            None => self.deliver_new(name, op),
        }
    }

    // Whether the held operation of its id is the operation, if there is one.
    fn is_same_held(&self, op: &Operation) -> Option<bool>
        ensures { result
            ≡ option_map (λ o. operation_eq o op.now) (find_id self.now.held op.now.id) }
    {
        match self.held().get(op.id()) {
            Some(other) => Some(*other == *op),
            None => None,
        }
    }

    fn deliver_new(&mut self, name: ReplicaName, op: Operation) -> Result<Delivered, Refusal>
        requires new { find_id self.old.log op.id ≡ None }
        requires unheld { find_id self.old.held op.id ≡ None }
        ensures { let r = replica_with name self.old in
            Meets r (expected_of_delivery r op) (reply_of_delivered result) (replica_with name self.new) }
    {
        if is_by(&op, &name) {
            return Err(Refusal::OwnName);
        }
        if self.log().is_ready(&op) {
            self.deliver_ready(op)
        } else {
            self.deliver_waiting(op)
        }
    }

    fn deliver_ready(&mut self, op: Operation) -> Result<Delivered, Refusal>
        ensures { (name : List ℕ) → Meets (replica_with name self.old)
            (expected_by_cause (cause_of op self.old.log) op)
            (reply_of_delivered result) (replica_with name self.new) }
    {
        match self.log().check(&op) {
            Ok(()) => match self.log_and_drain(op) {
                Ok(applied) => Ok(Delivered::Applied(applied)),
                Err(refusal) => Err(refusal),
            },
            Err(cause) => Err(cause),
        }
    }

    fn deliver_waiting(&mut self, op: Operation) -> Result<Delivered, Refusal>
        ensures { (name : List ℕ) → Meets (replica_with name self.old)
            (if nat_le most_held (length self.old.held) then expected.no Refusal.HeldFull else expected.held op)
            (reply_of_delivered result) (replica_with name self.new) }
    {
        if self.held().len() >= MAX_HELD {
            return Err(Refusal::HeldFull);
        }
        match self.log().missing(&op) {
            Ok(missing) => self.hold_until(op, missing),
            Err(_) => Err(Refusal::NoMemory),
        }
    }

    // Holds an operation for which there is room, until these ids are logged.
    fn hold_until(&mut self, op: Operation, missing: Ids) -> Result<Delivered, Refusal>
        requires room { length self.old.held < most_held }
        requires missed { missing ≡ deps.missing op self.old.log }
        ensures { (name : List ℕ) → Meets (replica_with name self.old) (expected.held op)
            (reply_of_delivered result) (replica_with name self.new) }
    {
        match self.hold(op, &missing) {
            Ok(()) => Ok(Delivered::Held(missing)),
            Err(refusal) => Err(refusal),
        }
    }
}

fn known_or_conflict(is_same: bool) -> Result<Delivered, Refusal>
    ensures { (r : Replica) →
        Meets r (if is_same then expected.replied Reply.Known else expected.no Refusal.IdConflict)
        (reply_of_delivered result) r }
{
    if is_same {
        Ok(Delivered::Known)
    } else {
        Err(Refusal::IdConflict)
    }
}

fn held_or_conflict(log: &OpLog, op: &Operation, is_same: bool) -> Result<Delivered, Refusal>
    ensures { (r : Replica) →
        Meets r (if is_same then expected.replied (Reply.Held (missing op.now log.now.operations))
        else expected.no Refusal.IdConflict) (reply_of_delivered result) r }
{
    if !is_same {
        return Err(Refusal::IdConflict);
    }
    match log.missing(op) {
        Ok(missing) => Ok(Delivered::Held(missing)),
        Err(_) => Err(Refusal::NoMemory),
    }
}

// Whether the replica of this name made the operation.
fn is_by(op: &Operation, name: &ReplicaName) -> bool
    ensures { result ≡ bytes_eq op.now.id.replica name.now }
{
    op.id().replica == *name
}
