//! Each list stores with each of its elements whether the element is present, and each node which
//! blocks of its children are gone.
ghost use Rattle.std.specs.Prelude.{◌≡◌, ◌<◌, length, Some, Contains, false};
ghost use Rattle.op_core.specs.declared.cursor.Key.{Key};
ghost use Rattle.lamport_id.specs.declared.id.Id.{Id};
ghost use Rattle.doc_nodes.specs.declared.node.NodeNumber.{NodeNumber};
ghost use Rattle.std.specs.Prelude.{slice_index_or, []};
ghost use Rattle.doc_nodes.specs.Nodes.{AreTree, node_of};
ghost use Rattle.doc_nodes.specs.ListPresence.{with_list_presence, plain, ShowsPresence};
ghost use Rattle.doc_nodes.specs.ListPresence.{HaveCandidates};
ghost use Rattle.doc_nodes.specs.ListPresence.{KeepsBlocks, MayDropBlock};
ghost use Rattle.doc_nodes.specs.ListPresence as Spec;

use crate::node::{Node, NodeNumber};
use lamport_id::Id;
use op_core::Key;

/// Stores in the list of a node whether the child at an element is present.
/// Without an element, nothing changes.
pub fn update_list_presence(
    nodes: &mut [Node],
    at: NodeNumber,
    element: Option<Id>,
    child: NodeNumber,
)
    requires known { at.0 < length nodes.old }
    requires child { child.0 < length nodes.old }
    ensures { nodes.new ≡ with_list_presence nodes.old at element child }
{
    if let Some(id) = element {
        let present = is_present(nodes, child);
        let node = &mut nodes[at.0];
        node.order.set_present(id, present);
    }
}

/// Whether something makes a node present.
pub fn is_present(nodes: &[Node], at: NodeNumber) -> bool
    requires { at.0 < length nodes.now }
    ensures { result ≡ Spec.is_node_present nodes.now (Some at) }
{
    !nodes[at.0].presence.is_empty()
}

/// Whether a child of a node may be present. If this is false, none is.
pub fn may_have_present_child(nodes: &[Node], at: NodeNumber) -> bool
    requires { at.0 < length nodes.now }
    ensures { result ≡ (node_of nodes.now at).may_have_present_child }
{
    nodes[at.0].may_have_present_child
}

/// Notes in a node that its child at a key may be present.
pub fn note_present_child(nodes: &mut [Node], at: NodeNumber, key: &Key)
    requires known { at.0 < length nodes.old }
    ensures { KeepsBlocks nodes.old nodes.new at key.now }
{
    let node = &mut nodes[at.0];
    node.children.note_present(key);
}

/// Notes in a node that the block of one of its children is gone, if none in it is present.
pub fn note_gone_child(nodes: &mut [Node], at: NodeNumber, key: &Key, child: NodeNumber)
    requires tree { AreTree nodes.old }
    requires known { at.0 < length nodes.old }
    requires child { child.0 < length nodes.old }
    ensures facts { plain nodes.new ≡ plain nodes.old }
    ensures list_presence { (n : NodeNumber) (i : Id) → ShowsPresence nodes.old n i
        → ShowsPresence nodes.new n i }
    ensures candidates { HaveCandidates nodes.old → HaveCandidates nodes.new }
{
    if is_present(nodes, child) {
        return;
    }
    let block = nodes[at.0].children.block_with(key);
    note_gone_block(nodes, at, block);
}

/// Notes in a node that a block of its children is gone, if none in it is present.
pub fn note_gone_block(nodes: &mut [Node], at: NodeNumber, block: usize)
    requires tree { AreTree nodes.old }
    requires known { at.0 < length nodes.old }
    ensures { MayDropBlock nodes.old nodes.new at block }
{
    if has_present_child(nodes, at, block) {
        return;
    }
    let node = &mut nodes[at.0];
    node.children.note_gone(block);
}

// Whether a child in a block is present.
fn has_present_child(nodes: &[Node], at: NodeNumber, block: usize) -> bool
    requires tree { AreTree nodes.now }
    requires known { at.0 < length nodes.now }
    ensures { result ≡ false → (e : Key × NodeNumber)
        → Contains (slice_index_or (node_of nodes.now at).children.1 block []) e
        → Spec.is_node_present nodes.now (Some e.1) ≡ false }
{
    let children = nodes[at.0].children.block(block);
    // Who deletes one after another, from either end, finds one soon at the other.
    is_first_present(nodes, children) || is_any_present(nodes, children)
}

// Whether the first of these children is present.
fn is_first_present(nodes: &[Node], children: &[(Key, NodeNumber)]) -> bool
    requires { (e : Key × NodeNumber) → Contains children.now e → e.1.0 < length nodes.now }
{
    match children.split_first() {
        None => false,
        Some((first, _)) => is_present(nodes, first.1),
    }
}

// Whether one of these children is present. It looks from the last one on.
fn is_any_present(nodes: &[Node], children: &[(Key, NodeNumber)]) -> bool
    requires { (e : Key × NodeNumber) → Contains children.now e → e.1.0 < length nodes.now }
    ensures { result ≡ false → (e : Key × NodeNumber) → Contains children.now e
        → Spec.is_node_present nodes.now (Some e.1) ≡ false }
{
    let Some((last, rest)) = children.split_last() else {
        return false;
    };
    if is_present(nodes, last.1) {
        return true;
    }
    is_any_present(nodes, rest)
}
