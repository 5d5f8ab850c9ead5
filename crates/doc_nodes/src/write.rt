//! Writes to one node.
ghost use Rattle.std.specs.Prelude.{◌≡◌, ◌<◌, length, slice_set, true, Contains};
ghost use Rattle.std.specs.Option.{ForSome};
ghost use Rattle.list_order.specs.Entries.{ids_of};
ghost use Rattle.doc_nodes.specs.Nodes.{node_of};
ghost use Rattle.doc_nodes.specs.Writes.{with_scalar, with_number, with_entry};

use crate::node::{Node, NodeNumber};
use json_scalar::Scalar;
use lamport_id::Id;

/// Enters a number into the counter of a node.
pub fn count(nodes: &mut [Node], at: NodeNumber, id: &Id, n: i64)
    requires known { at.0 < length nodes.old }
    requires room { (node_of nodes.old at).counter.1 ≡ true }
    ensures { nodes.new ≡ slice_set nodes.old at.0 (with_number id.now n (node_of nodes.old at)) }
{
    let node = &mut nodes[at.0];
    node.counter.put(*id, n);
}

/// Enters a scalar into the register of a node.
pub fn enter(nodes: &mut [Node], at: NodeNumber, id: &Id, scalar: Scalar)
    requires known { at.0 < length nodes.old }
    requires room { length (node_of nodes.old at).register.0 < (node_of nodes.old at).register.1 }
    ensures { nodes.new
        ≡ slice_set nodes.old at.0 (with_scalar id.now scalar (node_of nodes.old at)) }
{
    let node = &mut nodes[at.0];
    node.register.put(*id, scalar);
}

/// Inserts an id into the list of a node.
pub fn link(nodes: &mut [Node], at: NodeNumber, after: Option<Id>, id: &Id)
    requires known { at.0 < length nodes.old }
    requires room { length (node_of nodes.old at).order.0 < (node_of nodes.old at).order.1 }
    requires reference { ForSome after (Contains (ids_of (node_of nodes.old at).order.0)) }
    requires new { ¬ (Contains (ids_of (node_of nodes.old at).order.0) id.now) }
    ensures { nodes.new
        ≡ slice_set nodes.old at.0 (with_entry after id.now (node_of nodes.old at)) }
{
    let node = &mut nodes[at.0];
    node.order.insert_by_rule(after, *id);
}
