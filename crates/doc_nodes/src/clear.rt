//! Clearing a node and those below it.
ghost use Rattle.std.specs.Prelude.{◌≡◌, ◌≢◌, ◌<◌, ◌+◌, ◌++◌, ℕ, List, [], length, Some, IsSome};
ghost use Rattle.std.specs.Prelude.{slice_index_or};
ghost use Rattle.doc_nodes.specs.declared.node.Node.{Node};
ghost use Rattle.lamport_id.specs.declared.id.Id.{Id};
ghost use Rattle.op_core.specs.declared.cursor.Key.{Key};
ghost use Rattle.doc_nodes.specs.declared.node.NodeNumber.{NodeNumber};
ghost use Rattle.doc_nodes.specs.Walk.{walk, root};
ghost use Rattle.crdt_rules.specs.Context.{reference};
ghost use Rattle.doc_nodes.specs.Nodes.{AreTree, ClearsUnder, ClearsFirst, node_of, child_of};
ghost use Rattle.doc_nodes.specs.PresenceAlong.{keys_below, keys_to};
ghost use Rattle.doc_nodes.specs.HasPresence.{HavePresence, HavePresenceFrom};
ghost use Rattle.doc_nodes.specs.ListPresence.{plain, ListsShowPresence, ShowsPresence};
ghost use Rattle.doc_nodes.specs.ListPresence.{ShowsPresenceBut};
ghost use Rattle.doc_nodes.specs.ListPresence.{HaveCandidates};

use crate::list_presence::{
    is_present, may_have_present_child, note_gone_block, note_gone_child, update_list_presence,
};
use crate::node::{Node, NodeNumber, ROOT, element_in};
use crate::presence::known_child;
use lamport_id::Id;
use op_core::{Front, Key, Tagged};

/// Clears a node and those below it. The caller updates the list that this node is an element of.
/// A node that isn't present holds nothing, nor does any below it, so it goes no further there;
/// nor where no child is present.
#[cycle(clearing)]
pub fn clear_under(nodes: &mut [Node], at: NodeNumber, front: &Front)
    requires tree { AreTree nodes.old }
    requires known { at.0 < length nodes.old }
    requires has_presence { HavePresenceFrom nodes.old at.0 }
    requires candidates { HaveCandidates nodes.old }
    ensures clears { ClearsUnder front.now (plain nodes.old) (plain nodes.new) at }
    ensures list_presence { (n : NodeNumber) (i : Id)
        → ShowsPresence nodes.old n i → ShowsPresenceBut nodes.new at n i }
    ensures candidates { HaveCandidates nodes.new }
    ensures above { (n : NodeNumber) → n.0 < at.0
        → (node_of nodes.new n).children ≡ (node_of nodes.old n).children }
{
    if !is_present(nodes, at) {
        return;
    }
    let node = &mut nodes[at.0];
    node.clear(front);
    if !may_have_present_child(nodes, at) {
        return;
    }
    let blocks = nodes[at.0].children.block_count();
    for block in 0..blocks {
        clear_block(nodes, at, block, front);
    }
}

// Clears the children of a node in a block and those below them. If none is
// present then, the block is gone.
#[cycle(clearing)]
fn clear_block(nodes: &mut [Node], at: NodeNumber, block: usize, front: &Front)
    requires tree { AreTree nodes.old }
    requires known { at.0 < length nodes.old }
    requires has_presence { HavePresenceFrom nodes.old (at.0 + 1) }
    requires candidates { HaveCandidates nodes.old }
    ensures clears { (old : List Node) (done : List (Key × NodeNumber))
        → ClearsFirst front.now old (plain nodes.old) at done
        → ClearsFirst front.now old (plain nodes.new) at
        (done ++ slice_index_or (node_of nodes.old at).children.1 block []) }
    ensures list_presence { (n : NodeNumber) (i : Id)
        → ShowsPresenceBut nodes.old at n i → ShowsPresenceBut nodes.new at n i }
    ensures has_presence { HavePresenceFrom nodes.new (at.0 + 1) }
    ensures candidates { HaveCandidates nodes.new }
    ensures above { (n : NodeNumber) → n.0 < at.0
        → (node_of nodes.new n).children ≡ (node_of nodes.old n).children }
    ensures others { (m : ℕ) → m ≢ block → slice_index_or (node_of nodes.new at).children.1 m []
        ≡ slice_index_or (node_of nodes.old at).children.1 m [] }
{
    let count = nodes[at.0].children.block(block).len();
    for i in 0..count {
        let (child, element) = child_at(nodes, at, block, i);
        clear_under(nodes, child, front);
        update_list_presence(nodes, at, element, child);
    }
    note_gone_block(nodes, at, block);
}

// A child of a node in a block that isn't gone, and its element if its key is one.
fn child_at(nodes: &[Node], at: NodeNumber, block: usize, place: usize) -> (NodeNumber, Option<Id>)
    requires known { at.0 < length nodes.now }
    requires within { place < length (slice_index_or (node_of nodes.now at).children.1 block []) }
    ensures number { (d : Key × NodeNumber)
        → (slice_index_or (slice_index_or (node_of nodes.now at).children.1 block []) place d).1
        ≡ result.0 }
    ensures found { (d : Key × NodeNumber)
        → child_of nodes.now at (slice_index_or (slice_index_or (node_of nodes.now at).children.1 block []) place d).0
        ≡ Some result.0 }
    ensures element { (d : Key × NodeNumber)
        → result.1
        ≡ reference (slice_index_or (slice_index_or (node_of nodes.now at).children.1 block []) place d).0 }
{
    let child = &nodes[at.0].children.block(block)[place];
    (child.1, element_in(&child.0))
}

/// Clears a place and what is below it.
pub fn clear_way(nodes: &mut [Node], path: &[Tagged], key: &Key, front: &Front)
    requires tree { AreTree nodes.old }
    requires has_presence { HavePresence nodes.old }
    requires candidates { HaveCandidates nodes.old }
    requires reached { IsSome (walk (child_of nodes.old) root (keys_to path.now key.now)) }
    ensures clears { (m : NodeNumber)
        → walk (child_of nodes.old) root (keys_to path.now key.now) ≡ Some m
        → ClearsUnder front.now (plain nodes.old) (plain nodes.new) m }
    ensures list_presence { ListsShowPresence nodes.old → ListsShowPresence nodes.new }
{
    match path.split_first() {
        None => clear_under(nodes, ROOT, front),
        Some((_, way)) => clear_below(nodes, ROOT, way, key, front),
    }
}

// Clears a place below a node and what is below the place.
fn clear_below(nodes: &mut [Node], at: NodeNumber, way: &[Tagged], key: &Key, front: &Front)
    requires tree { AreTree nodes.old }
    requires known { at.0 < length nodes.old }
    requires has_presence { HavePresence nodes.old }
    requires candidates { HaveCandidates nodes.old }
    requires reached { IsSome (walk (child_of nodes.old) at (keys_below way.now key.now)) }
    ensures clears { (m : NodeNumber)
        → walk (child_of nodes.old) at (keys_below way.now key.now) ≡ Some m
        → ClearsUnder front.now (plain nodes.old) (plain nodes.new) m }
    ensures list_presence { (n : NodeNumber) (i : Id) → ShowsPresence nodes.old n i
        → ShowsPresence nodes.new n i }
    ensures candidates { HaveCandidates nodes.new }
{
    match way.split_first() {
        None => {
            let end = known_child(nodes, at, key);
            clear_under(nodes, end, front);
            update_list_presence(nodes, at, element_in(key), end);
            note_gone_child(nodes, at, key, end);
        }
        Some((next, rest)) => {
            let below = known_child(nodes, at, next.key());
            clear_below(nodes, below, rest, key, front);
        }
    }
}
