//! Logs made of lists of operations, and the trees of logs.
ghost use Rattle.std.specs.Prelude.{◌≡◌, ◌+◌, ◌<◌, [], ◌∷◌, ◌++◌, length, take, None, Err, OnOk};
ghost use Rattle.std.specs.Prelude.{IfOk, IfErr, IfSome};
ghost use Rattle.crdt_rules.specs.Fits.{Fits};
ghost use Rattle.crdt_rules.specs.Log.{IsGood};
ghost use Rattle.doc_rules.specs.Cause.{misfit_of};
ghost use Rattle.replica_core.specs.Misfits.{IsMisfitOf};
ghost use Rattle.replica_core.specs.AgreesWith.{AgreesWith};

use crate::log_op::log_op;
use doc_tree::Tree;
use json_scalar::Refusal;
use op_core::Operation;
use op_log::{OpLog, keeps_good};
use std::alloc::Global;

/// Why a list of operations makes no log.
#[derive(Debug, Drop)]
pub enum Misfit {
    /// The first operation that does not fit those before it: its place, from 0 on, and the cause,
    /// which is id-conflict where an operation before it has its id.
    At { place: usize, cause: Refusal },
    /// Out of memory.
    NoMemory,
}

/// The log of these operations, with its tree; or the first that does not fit.
pub fn logged(alloc: Global, operations: &[Operation]) -> Result<(Tree, OpLog), Misfit>
    ensures agrees { IfOk result (λ parts. AgreesWith parts.0 operations.now) }
    ensures log { IfOk result (λ parts. parts.1.operations ≡ operations.now) }
    ensures good { OnOk result (IsGood operations.now) }
    ensures err { IfErr result (IsMisfitOf operations.now) }
{
    let Ok(mut tree) = Tree::new(alloc) else {
        return Err(Misfit::NoMemory);
    };
    let mut log = OpLog::new(alloc);
    match log_all(&mut tree, &mut log, operations) {
        Ok(()) => {
            keeps_good(&log);
            Ok((tree, log))
        }
        Err(misfit) => Err(misfit),
    }
}

// Logs these operations, one after another, in an empty log and its tree. The error is the first
// that does not fit; what was logged by then stays.
fn log_all(tree: &mut Tree, log: &mut OpLog, operations: &[Operation]) -> Result<(), Misfit>
    requires empty { log.old.operations ≡ [] }
    requires agrees { AgreesWith tree.old log.old.operations }
    ensures ok { OnOk result (log.new.operations ≡ operations.now) }
    ensures err { IfErr result (IsMisfitOf operations.now) }
    ensures agrees { AgreesWith tree.new log.new.operations }
{
    for place in 0..operations.len() {
        match log_next(tree, log, &operations[place]) {
            Ok(()) => {}
            Err(Some(cause)) => return Err(Misfit::At { place, cause }),
            Err(None) => return Err(Misfit::NoMemory),
        }
    }
    Ok(())
}

// Logs a clone of an operation if it fits and its id is new. The error is the cause against it, or
// `None` for out of memory.
fn log_next(tree: &mut Tree, log: &mut OpLog, op: &Operation) -> Result<(), Option<Refusal>>
    requires agrees { AgreesWith tree.old log.old.operations }
    ensures good { IsGood log.old.operations }
    ensures ok { OnOk result (log.new.operations ≡ log.old.operations ++ op.now ∷ []) }
    ensures err { IfErr result
        (λ e. IfSome e (λ cause. misfit_of op.now log.old.operations ≡ Err cause)) }
    ensures agrees { AgreesWith tree.new log.new.operations }
{
    keeps_good(log);
    match log.check_next(op) {
        Ok(()) => log_clone(tree, log, op),
        Err(cause) => Err(Some(cause)),
    }
}

// Logs a clone of an operation that fits. The error is `None`, for out of memory.
fn log_clone(tree: &mut Tree, log: &mut OpLog, op: &Operation) -> Result<(), Option<Refusal>>
    requires fits { Fits op.now log.old.operations }
    requires agrees { AgreesWith tree.old log.old.operations }
    ensures ok { OnOk result (log.new.operations ≡ log.old.operations ++ op.now ∷ []) }
    ensures err { IfErr result (λ e. e ≡ None) }
    ensures agrees { AgreesWith tree.new log.new.operations }
{
    let Ok(clone) = op.try_clone() else {
        return Err(None);
    };
    match log_op(tree, log, clone) {
        Ok(()) => Ok(()),
        Err(_) => Err(None),
    }
}

/// The tree of a log. The log's operations are applied one after another, and none is checked.
/// The only error is out of memory.
pub fn tree_of(alloc: Global, log: &OpLog) -> Result<Tree, Refusal>
    ensures ok { IfOk result (λ tree. AgreesWith tree log.now.operations) }
    ensures err { IfErr result (λ e. e ≡ Refusal.NoMemory) }
{
    let mut tree = Tree::new(alloc)?;
    keeps_good(log);
    for place in 0..log.len() {
        apply_at(&mut tree, log.as_slice(), place)?;
    }
    Ok(tree)
}

// Applies the operation at this place of a valid log to the tree of those before it.
fn apply_at(tree: &mut Tree, operations: &[Operation], place: usize) -> Result<(), Refusal>
    requires good { IsGood operations.now }
    requires within { place < length operations.now }
    requires agrees { AgreesWith tree.old (take place operations.now) }
    ensures ok { OnOk result (AgreesWith tree.new (take (place + 1) operations.now)) }
    ensures err { IfErr result (λ e. e ≡ Refusal.NoMemory) }
{
    let op = &operations[place];
    tree.prepare(op)?;
    tree.commit(op);
    Ok(())
}
