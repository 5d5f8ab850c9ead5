//! An operation makes the node where it ends present, and those above it.
ghost use Rattle.std.specs.Prelude.{◌≡◌, ◌<◌, length, Some, IsSome, slice_set, true};
ghost use Rattle.lamport_id.specs.declared.id.Id.{Id};
ghost use Rattle.doc_nodes.specs.declared.node.NodeNumber.{NodeNumber};
ghost use Rattle.doc_nodes.specs.Walk.{walk, root};
ghost use Rattle.doc_nodes.specs.Nodes.{AreTree, node_of, child_of};
ghost use Rattle.doc_nodes.specs.PresenceAlong.{made_present, keys_below, keys_to};
ghost use Rattle.doc_nodes.specs.PresenceAlong.{HasRoomAlong, IsReady, AddsPresenceAlong};
ghost use Rattle.doc_nodes.specs.PresenceAlong as Spec;
ghost use Rattle.doc_nodes.specs.ListPresence.{plain, ListsShowPresence, ListsShowPresenceBut};
ghost use Rattle.doc_nodes.specs.ListPresence.{ShowsPresenceBut};
ghost use Rattle.doc_nodes.specs.ListPresence.{IsCandidate, IsCandidateBut};
ghost use Rattle.op_core.specs.declared.cursor.Key.{Key};

use crate::list_presence::{note_present_child, update_list_presence};
use crate::node::{Node, NodeNumber, ROOT, element_in};
use lamport_id::Id;
use op_core::{Key, Tagged};
use presence_set::Role;

/// Makes the nodes on the way from the root down to a place present, and
/// updates the list presence of each.
pub fn add_presence_along(nodes: &mut [Node], path: &[Tagged], key: &Key, id: &Id, role: Role)
    requires { IsReady nodes.old root (keys_to path.now key.now) }
    ensures added { AddsPresenceAlong id.now role (plain nodes.old) (plain nodes.new) root (keys_to path.now key.now) }
    ensures list_presence { (m : NodeNumber)
        → walk (child_of nodes.old) root (keys_to path.now key.now) ≡ Some m
        → ListsShowPresenceBut nodes.old m → ListsShowPresence nodes.new }
{
    match path.split_first() {
        None => add_presence(nodes, ROOT, id, role),
        Some((_, way)) => add_presence_below(nodes, ROOT, way, key, id, role),
    }
}

/// Makes the nodes on the way from a node down to a place present.
fn add_presence_below(
    nodes: &mut [Node],
    at: NodeNumber,
    way: &[Tagged],
    key: &Key,
    id: &Id,
    role: Role,
)
    requires tree { AreTree nodes.old }
    requires known { at.0 < length nodes.old }
    requires reached { IsSome (walk (child_of nodes.old) at (keys_below way.now key.now)) }
    requires room { HasRoomAlong nodes.old at (keys_below way.now key.now) }
    ensures added { AddsPresenceAlong id.now role (plain nodes.old) (plain nodes.new) at (keys_below way.now key.now) }
    ensures list_presence { (m : NodeNumber)
        → walk (child_of nodes.old) at (keys_below way.now key.now) ≡ Some m
        → (n : NodeNumber) (i : Id) → ShowsPresenceBut nodes.old m n i
        → ShowsPresenceBut nodes.new at n i }
    ensures candidates { (n : NodeNumber) (k : Key) → IsCandidate nodes.old n k
        → IsCandidateBut nodes.new at n k }
{
    add_presence(nodes, at, id, Role::Through);
    match way.split_first() {
        None => {
            let end = known_child(nodes, at, key);
            add_presence(nodes, end, id, role);
            update_list_presence(nodes, at, element_in(key), end);
            note_present_child(nodes, at, key);
        }
        Some((next, rest)) => {
            let below = known_child(nodes, at, next.key());
            add_presence_below(nodes, below, rest, key, id, role);
            update_list_presence(nodes, at, element_in(next.key()), below);
            note_present_child(nodes, at, next.key());
        }
    }
}

/// Makes one node present.
fn add_presence(nodes: &mut [Node], at: NodeNumber, id: &Id, role: Role)
    requires known { at.0 < length nodes.old }
    requires room { (node_of nodes.old at).presence.1 ≡ true }
    ensures { nodes.new
        ≡ slice_set nodes.old at.0 (made_present id.now role (node_of nodes.old at)) }
{
    let node = &mut nodes[at.0];
    node.may_have_present_child = may_have_present_child_after(node, role);
    node.presence.put(*id, role);
}

// Whether a child of a node may be present after an operation in a role. A node that
// isn't present has no present child.
fn may_have_present_child_after(node: &Node, role: Role) -> bool
    ensures { result ≡ Spec.may_have_present_child_after role node.now }
{
    match role {
        Role::Through => true,
        Role::Map | Role::List | Role::Scalar | Role::Counter => {
            node.may_have_present_child && !node.presence.is_empty()
        }
    }
}

/// The child of a node at a key that has one.
pub fn known_child(nodes: &[Node], at: NodeNumber, key: &Key) -> NodeNumber
    requires known { at.0 < length nodes.now }
    requires child { IsSome (child_of nodes.now at key.now) }
    ensures { child_of nodes.now at key.now ≡ Some result }
{
    nodes[at.0].children.find(key).unwrap()
}
