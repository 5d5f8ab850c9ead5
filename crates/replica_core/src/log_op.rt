//! One more operation of a log, in its tree too.
ghost use Rattle.std.specs.Prelude.{◌≡◌, [], ◌∷◌, ◌++◌, OnOk, OnErr, IfErr};
ghost use Rattle.crdt_rules.specs.Fits.{Fits};
ghost use Rattle.replica_core.specs.AgreesWith.{AgreesWith};

use doc_tree::Tree;
use json_scalar::Refusal;
use op_core::Operation;
use op_log::{OpLog, keeps_good};

/// Logs an operation that fits, and applies it to the tree of the log. The only error is out of
/// memory, which leaves the log as it was, and the facts of the tree.
pub fn log_op(tree: &mut Tree, log: &mut OpLog, op: Operation) -> Result<(), Refusal>
    requires fits { Fits op log.old.operations }
    requires agrees { AgreesWith tree.old log.old.operations }
    ensures ok { OnOk result (log.new.operations ≡ log.old.operations ++ op ∷ []) }
    ensures err { IfErr result (λ e. e ≡ Refusal.NoMemory) }
    ensures kept { OnErr result (log.new.operations ≡ log.old.operations) }
    ensures agrees { AgreesWith tree.new log.new.operations }
{
    keeps_good(log);
    if tree.prepare(&op).is_err() || log.reserve(1).is_err() {
        return Err(Refusal::NoMemory);
    }
    tree.commit(&op);
    log.append(op);
    Ok(())
}
