//! Lists of operations, replayed.
ghost use Rattle.std.specs.Prelude.{◌≡◌, ◌≢◌, ℕ, [], ◌∷◌, ◌++◌, IsOk, OnOk, IfOk, IfErr};
ghost use Rattle.json_scalar.specs.declared.refusal.Refusal.TheVariants.{NoMemory};
ghost use Rattle.crdt_rules.specs.Fits.{Fits};
ghost use Rattle.crdt_rules.specs.Log.{IsGood};
ghost use Rattle.doc_rules.specs.Cause.{misfit_of, IsFirstMisfit};
ghost use Rattle.doc_rules.specs.Role.{AreOf};
ghost use Rattle.doc_tree.specs.Nodes.{tree_facts, tree_role};
ghost use Rattle.converge_laws.specs.Replayed.{AreFactsOfEach, AreRolesOfEach};

use doc_tree::Tree;
use json_scalar::Refusal;
use op_core::Operation;
use op_log::OpLog;
use std::alloc::Global;

/// The tree of a list each of whose operations fits those before it. Its facts are those of every
/// causal order of the operations, and those that the set of them has without any order. Each id
/// that makes a place present has the role there that its operation gives it, in every causal
/// order: so `{}` differs from `[]`.
///
/// For another list the error is the cause against the first operation that doesn't fit: its id is
/// logged before (15), a front id isn't logged before or that operation's front isn't at most this
/// one (13), its replica's chain forks (14), its cursor names an element that it doesn't know (7),
/// or the list has passed 100,000 operations (18) or 256 replicas (19). Whose name the operations
/// bear isn't looked at. 22 is out of memory.
pub fn replay_all(alloc: Global, ops: &[Operation]) -> Result<Tree, Refusal>
    ensures replayed { IfOk result (λ tree. AreFactsOfEach ops.now (tree_facts tree)) }
    ensures roles { IfOk result (λ tree. AreRolesOfEach ops.now (tree_role tree)) }
    ensures misfit { IfErr result
        (λ cause. cause ≢ NoMemory → (place : ℕ) × IsFirstMisfit ops.now place cause) }
{
    // frees the log before the tree grows
    drop(log_of(alloc, ops)?);
    grown(alloc, ops)
}

/// The log of a list each of whose operations fits those before it, or the cause
/// against the first that doesn't.
pub fn log_of(alloc: Global, ops: &[Operation]) -> Result<OpLog, Refusal>
    ensures ok { IfOk result (λ log. log.operations ≡ ops.now) }
    ensures good { IsOk result → IsGood ops.now }
    ensures misfit { IfErr result
        (λ cause. cause ≢ NoMemory → (place : ℕ) × IsFirstMisfit ops.now place cause) }
{
    let mut log = OpLog::new(alloc);
    for i in 0..ops.len() {
        log_next(&mut log, &ops[i])?;
    }
    Ok(log)
}

// Logs an operation if it fits.
fn log_next(log: &mut OpLog, op: &Operation) -> Result<(), Refusal>
    ensures ok { OnOk result (log.new.operations ≡ log.old.operations ++ op.now ∷ []) }
    ensures fits { IsOk result → Fits op.now log.old.operations }
    ensures misfit { IfErr result
        (λ cause. cause ≢ NoMemory → misfit_of op.now log.old.operations ≡ Err cause) }
{
    log.check_next(op)?;
    let clone = op.try_clone()?;
    log.reserve(1)?;
    log.append(clone);
    Ok(())
}

// The tree that a good list makes.
fn grown(alloc: Global, ops: &[Operation]) -> Result<Tree, Refusal>
    requires { IsGood ops.now }
    ensures ok { IfOk result (λ tree. AreOf ops.now (tree_facts tree) (tree_role tree)) }
    ensures memory { IfErr result (λ cause. cause ≡ NoMemory) }
{
    let mut tree = Tree::new(alloc)?;
    for i in 0..ops.len() {
        grow(&mut tree, &ops[..i], &ops[i])?;
    }
    Ok(tree)
}

// Takes an operation into the tree that those before it made.
fn grow(tree: &mut Tree, before: &[Operation], op: &Operation) -> Result<(), Refusal>
    requires good { IsGood before.now }
    requires fits { Fits op.now before.now }
    requires same { AreOf before.now (tree_facts tree.old) (tree_role tree.old) }
    ensures ok { OnOk result (AreOf (before.now ++ op.now ∷ []) (tree_facts tree.new) (tree_role tree.new)) }
    ensures memory { IfErr result (λ cause. cause ≡ NoMemory) }
{
    tree.prepare(op)?;
    tree.commit(op);
    Ok(())
}
