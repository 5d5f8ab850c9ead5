//! Two lists of the same operations.
ghost use Rattle.std.specs.Prelude.{◌≡◌, ◌≢◌, ◌↔◌, None, IsTrue, IsOk, IfOk, IfErr, MatchOption};
ghost use Rattle.std.specs.List.{list_all};
ghost use Rattle.json_scalar.specs.declared.refusal.Refusal.TheVariants.{NoMemory};
ghost use Rattle.crdt_rules.specs.Facts.{facts};
ghost use Rattle.crdt_rules.specs.Log.{IsGood, replay};
ghost use Rattle.converge_laws.specs.Replayed.{Agree, holds};

use crate::replay::log_of;
use json_scalar::Refusal;
use op_core::Operation;
use op_log::OpLog;
use std::alloc::Global;

/// Whether each operation of both lists fits those before it, and both hold the same set of
/// operations. Then both make the same facts. The only error is out of memory (22).
pub fn orders_agree(alloc: Global, ops: &[Operation], others: &[Operation]) -> Result<bool, Refusal>
    ensures agree { IfOk result (λ agree. IsTrue agree ↔ Agree ops.now others.now) }
    ensures facts { IfOk result
        (λ agree. IsTrue agree → facts (replay ops.now) ≡ facts (replay others.now)) }
    ensures memory { IfErr result (λ cause. cause ≡ NoMemory) }
{
    match good_log(alloc, ops)? {
        Some(log) => agrees_with(alloc, &log, others),
        None => Ok(false),
    }
}

// Whether a list is good and holds the operations of a log.
fn agrees_with(alloc: Global, log: &OpLog, others: &[Operation]) -> Result<bool, Refusal>
    ensures agree { IfOk result (λ agree. IsTrue agree ↔ Agree log.now.operations others.now) }
    ensures memory { IfErr result (λ cause. cause ≡ NoMemory) }
{
    match good_log(alloc, others)? {
        Some(other) => Ok(have_same(log, &other)),
        None => Ok(false),
    }
}

// The log of a list, if each of its operations fits those before it.
fn good_log(alloc: Global, ops: &[Operation]) -> Result<Option<OpLog>, Refusal>
    ensures ok { IfOk result
        (λ found. MatchOption found (¬ (IsGood ops.now)) (λ log. log.operations ≡ ops.now)) }
    ensures memory { IfErr result (λ cause. cause ≡ NoMemory) }
{
    match log_of(alloc, ops) {
        Ok(log) => Ok(Some(log)),
        Err(cause) => no_log(cause),
    }
}

// No log for a cause against an operation.
fn no_log(cause: Refusal) -> Result<Option<OpLog>, Refusal>
    ensures none { IfOk result (λ found. found ≡ None) }
    ensures misfit { IsOk result → cause ≢ NoMemory }
    ensures memory { IfErr result (λ cause. cause ≡ NoMemory) }
{
    if cause == Refusal::NoMemory {
        Err(cause)
    } else {
        Ok(None)
    }
}

// Whether two logs hold the same operations: as many, and each of the one is in the other.
fn have_same(log: &OpLog, other: &OpLog) -> bool
    ensures { IsTrue result ↔ Agree log.now.operations other.now.operations }
{
    log.len() == other.len() && hold_all(other, log.as_slice())
}

fn hold_all(log: &OpLog, ops: &[Operation]) -> bool
    ensures { result ≡ list_all (holds log.now.operations) ops.now }
{
    ops.iter().all(|op| holds(log, op))
}

fn holds(log: &OpLog, op: &Operation) -> bool
    ensures { result ≡ holds log.now.operations op.now }
{
    match log.get(op.id()) {
        Some(found) => *found == *op,
        None => false,
    }
}
