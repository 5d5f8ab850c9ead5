//! Clones of what a log keeps.
ghost use Rattle.std.specs.Prelude.{◌≡◌, ◌++◌, ◌∷◌, [], take, IfOk, IfErr, OnOk};
ghost use Rattle.doc_rules.specs.Answers.{since};

use crate::index::Lacks;
use crate::log::OpLog;
use json_scalar::Refusal;
use op_core::{Front, Operation};
use std::alloc::Global;

/// Clones of these operations, in their order. The only error is out of memory.
pub fn clone_all(alloc: Global, operations: &[Operation]) -> Result<Vec<Operation>, Refusal>
    ensures ok { IfOk result (λ cloned. cloned.items ≡ operations.now) }
    ensures err { IfErr result (λ e. e ≡ Refusal.NoMemory) }
{
    let mut cloned = Vec::with_capacity(alloc, operations.len())?;
    for op in operations {
        push_clone(&mut cloned, op)?;
    }
    Ok(cloned)
}

/// Clones of the first operations of a log that the front does not cover, at most `limit` of them,
/// in their order. The only error is out of memory.
pub fn first_uncovered(
    alloc: Global,
    log: &OpLog,
    front: &Front,
    limit: usize,
) -> Result<Vec<Operation>, Refusal>
    ensures ok { IfOk result
        (λ found. found.items ≡ take limit (since front.now log.now.operations)) }
    ensures err { IfErr result (λ e. e ≡ Refusal.NoMemory) }
{
    let mut found = Vec::with_capacity(alloc, limit.min(log.len()))?;
    let mut lacks = Lacks::new(alloc);
    let mut from = 0;
    for _ in 0..limit {
        let at = log.next_uncovered(front, from, &mut lacks)?;
        if at == log.len() {
            return Ok(found);
        }
        push_clone(&mut found, &log.as_slice()[at])?;
        from = at + 1;
    }
    Ok(found)
}

fn push_clone(clones: &mut Vec<Operation>, op: &Operation) -> Result<(), Refusal>
    ensures ok { OnOk result (clones.new.items ≡ clones.old.items ++ op.now ∷ []) }
    ensures err { IfErr result (λ e. e ≡ Refusal.NoMemory) }
{
    clones.push(op.try_clone()?)?;
    Ok(())
}
