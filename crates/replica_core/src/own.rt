//! Changes of one's own.
ghost use Rattle.std.specs.Prelude.{◌≡◌, ◌+◌, ◌<◌, [], Ok, Err, true, not, ◌&&◌, if◌then◌else◌};
ghost use Rattle.lamport_id.specs.Limits.{greatest_counter};
ghost use Rattle.lamport_id.specs.Name.{is_name};
ghost use Rattle.doc_api.specs.Words.{UnlessMemory};
ghost use Rattle.version_vector.specs.Front.{max_counter};
ghost use Rattle.op_core.specs.Shape as shape;
ghost use Rattle.crdt_rules.specs.Effect.{is_insertion};
ghost use Rattle.crdt_rules.specs.Fits.{Fits};
ghost use Rattle.doc_rules.specs.Events as expected;
ghost use Rattle.doc_rules.specs.Events.{expected_by_cause, expected_of_change, expected_at_place};
ghost use Rattle.doc_rules.specs.Replica.{own_op};
ghost use Rattle.replica_core.specs.Resolved.{IsPlaceOf};
ghost use Rattle.replica_core.specs.Outcomes.{Meets, first_place_cause, reply_of_applied};
ghost use Rattle.replica_core.specs.Whole.{replica_of, replica_with};

use crate::body::Body;
use crate::limits::keeps_limits;
use crate::outcome::Applied;
use json_scalar::Refusal;
use lamport_id::{Id, ReplicaName};
use op_core::{Cursor, Front, Key, Mutation, Operation};
use op_log::{OpLog, keeps_good};
use std::alloc::Global;

impl Body {
    /// Makes a change where the steps of its place led. The error is why they led nowhere, or the
    /// first cause against the change.
    pub fn change(
        &mut self,
        alloc: Global,
        name: ReplicaName,
        resolved: Result<Cursor, Refusal>,
        mutation: Mutation,
    ) -> Result<Applied, Refusal>
        requires named { is_name name ≡ true }
        requires place { IsPlaceOf self.old.log resolved }
        ensures { let r = replica_with name self.old in
            Meets r (expected_at_place r resolved mutation) (reply_of_applied result) (replica_with name self.new) }
    {
        match resolved {
            Ok(cursor) => match self.own_cause(&name, &cursor, &mutation) {
                Ok(()) => self.log_own(alloc, name, cursor, mutation),
                Err(cause) => Err(cause),
            },
            Err(cause) => Err(cause),
        }
    }

    // The first cause against one's own change at a place.
    fn own_cause(
        &self,
        name: &ReplicaName,
        cursor: &Cursor,
        mutation: &Mutation,
    ) -> Result<(), Refusal>
        ensures { let r = replica_with name.now self.now in
            expected_of_change r cursor.now mutation.now
            ≡ expected_by_cause result (own_op r cursor.now mutation.now) }
    {
        match place_cause(cursor, mutation) {
            Ok(()) => self.log().check_room(*name),
            Err(cause) => Err(cause),
        }
    }

    // Logs one's own operation, against which there is no cause.
    fn log_own(
        &mut self,
        alloc: Global,
        name: ReplicaName,
        cursor: Cursor,
        mutation: Mutation,
    ) -> Result<Applied, Refusal>
        requires named { is_name name ≡ true }
        requires place { IsPlaceOf self.old.log (Ok cursor) }
        requires unopposed { let r = replica_with name self.old in
            expected_of_change r cursor mutation ≡ expected.logged (own_op r cursor mutation) }
        ensures { let r = replica_with name self.old in
            Meets r (expected.logged (own_op r cursor mutation)) (reply_of_applied result)
            (replica_with name self.new) }
    {
        keeps_limits(&mutation);
        match own_operation(alloc, name, self.log(), cursor, mutation) {
            Ok(op) => self.log_and_drain(op),
            Err(_) => Err(Refusal::NoMemory),
        }
    }
}

// An insertion is in a list, and nothing else is at a head.
fn place_cause(cursor: &Cursor, mutation: &Mutation) -> Result<(), Refusal>
    ensures { result ≡ first_place_cause
        (is_insertion mutation.now && not (shape.ends_in_list cursor.now.path))
        (not (is_insertion mutation.now) && shape.is_head cursor.now.key) }
{
    match mutation {
        Mutation::Insert(_) => {
            if cursor.path.ends_in_list() {
                Ok(())
            } else {
                Err(Refusal::NotInList)
            }
        }
        Mutation::Assign(_) | Mutation::Delete | Mutation::Add(_) => no_head(&cursor.key),
    }
}

fn no_head(key: &Key) -> Result<(), Refusal>
    ensures { result ≡ (if shape.is_head key.now then Err Refusal.AtHead else Ok tt) }
{
    if key.is_head() {
        return Err(Refusal::AtHead);
    }
    Ok(())
}

// One's own next operation, which fits. The only error is out of memory.
fn own_operation(
    alloc: Global,
    name: ReplicaName,
    log: &OpLog,
    cursor: Cursor,
    mutation: Mutation,
) -> Result<Operation, Refusal>
    requires { Fits (own_op (replica_of name log.now.operations []) cursor mutation) log.now.operations }
    ensures { UnlessMemory result (Ok (own_op (replica_of name log.now.operations []) cursor mutation)) }
{
    keeps_good(log);
    let front = log.front()?;
    let id = next_id(&front, name);
    Operation::new(alloc, id, front, cursor, mutation)
}

// One's own next id: greater than all that a front covers, of whatever replica.
fn next_id(front: &Front, name: ReplicaName) -> Id
    requires { max_counter front.now < greatest_counter }
    ensures { (result.counter ≡ max_counter front.now + 1) × (result.replica ≡ name) }
{
    Id::successor(front.max_counter(), name).unwrap()
}
