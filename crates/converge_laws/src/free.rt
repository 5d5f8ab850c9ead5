//! Presence by the set of the operations alone.
ghost use Rattle.std.specs.Prelude.{◌≡◌};
ghost use Rattle.crdt_rules.specs.Facts.{facts};
ghost use Rattle.crdt_rules.specs.Free.{free_present};
ghost use Rattle.crdt_rules.specs.Log.{IsGood, replay};

use lamport_id::Id;
use op_core::{Cursor, Operation};

/// Whether the operation of an id makes the element at a cursor present, by the set of the
/// operations and not by their order: it passes the element or ends there, is no delete, and no
/// assignment or delete at the element or above it depends on it. For the operations of a good log
/// the result is that of their replay; the caller gives a good one. It goes twice over the list,
/// replays nothing and allocates nothing.
pub fn free_present(ops: &[Operation], at: &Cursor, id: Id) -> bool
    ensures free { result ≡ free_present ops.now at.now.path at.now.key id }
    ensures good { IsGood ops.now
        → result ≡ (facts (replay ops.now)).present at.now.path at.now.key id }
{
    crdt_rules::free_present(ops, at.path.as_slice(), &at.key, &id)
}
