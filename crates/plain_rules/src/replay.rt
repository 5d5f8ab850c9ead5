//! What a list of operations makes, one step after another.
ghost use Rattle.std.specs.Prelude.{◌≡◌, IfOk, IfErr, filter, map};
ghost use Rattle.json_scalar.specs.declared.refusal.Refusal.TheVariants.{NoMemory};
ghost use Rattle.version_vector.specs.Front.{covers};
ghost use Rattle.crdt_rules.specs.Facts.{facts};
ghost use Rattle.crdt_rules.specs.Log.{replay};
ghost use Rattle.plain_rules.specs.Plain.{context_of};

use crate::context::{PlainContext, plain_step};
use json_scalar::Refusal;
use lamport_id::Id;
use op_core::Operation;
use std::alloc::Global;

// The ids of the operations before it that an operation depends on.
fn dependencies(alloc: Global, op: &Operation, before: &[Operation]) -> Result<Vec<Id>, Refusal>
    ensures done { IfOk result
        (λ ids. ids.items ≡ filter (covers op.now.front) (map (λ o. o.id) before.now)) }
    ensures memory { IfErr result (λ e. e ≡ NoMemory) }
{
    let mut ids = Vec::new(alloc);
    for earlier in before {
        if op.front().covers(earlier.id()) {
            ids.push(earlier.id())?;
        }
    }
    Ok(ids)
}

/// The context that a list of operations makes, each with its dependencies among those
/// before it. It asks nothing of the list; for a good one it has the facts of every
/// replay of the same operations.
///
/// The only refusal is out of memory (22).
pub fn plain_replay(alloc: Global, ops: &[Operation]) -> Result<PlainContext, Refusal>
    ensures done { IfOk result (λ context. facts (context_of context) ≡ facts (replay ops.now)) }
    ensures memory { IfErr result (λ e. e ≡ NoMemory) }
{
    let mut context = PlainContext::new(alloc);
    for i in 0..ops.len() {
        let op = &ops[i];
        let dependencies = dependencies(alloc, op, &ops[..i])?;
        context = plain_step(alloc, context, op, dependencies.as_slice())?;
    }
    Ok(context)
}
