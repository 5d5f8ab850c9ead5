//! Growth that changes no fact.
ghost use Rattle.std.specs.Prelude.{◌≡◌, ◌<◌, ◌≤◌, ◌+◌, ◌++◌, ◌∷◌, [], length, map, slice_set};
ghost use Rattle.std.specs.Prelude.{true, false};
ghost use Rattle.std.specs.Prelude.{Some, None, IsSome, OnOk, OnErr, IfOk, IfErr};
ghost use Rattle.json_scalar.specs.declared.refusal.Refusal.TheVariants.{NoMemory};
ghost use Rattle.doc_nodes.specs.Nodes.{AreTree, node_of, child_of};
ghost use Rattle.op_core.specs.Shape.{key_of};
ghost use Rattle.doc_nodes.specs.PresenceAlong.{keys_above, keys_below, keys_to};
ghost use Rattle.doc_nodes.specs.Walk.{root, walk};
ghost use Rattle.doc_nodes.specs.Growth.{Grows, IsMade, AddsChild, ChangesBlocksOnly};
ghost use Rattle.doc_nodes.specs.Growth.{missing_along};

use crate::node::{Node, NodeNumber, PlaceNodes, ROOT};
use json_scalar::Refusal;
use op_core::{Key, Tagged};

/// Makes the nodes on the way from the root down to a place, with room for one more
/// id in each, and returns the last two. There is at most one new node for each key
/// on the way that leads to none yet.
pub fn prepare_way(nodes: &mut Vec<Node>, path: &[Tagged], key: &Key) -> Result<PlaceNodes, Refusal>
    requires tree { AreTree nodes.old.items }
    ensures tree { AreTree nodes.new.items }
    ensures grows { Grows nodes.old.items nodes.new.items }
    ensures few { length nodes.new.items ≤ length nodes.old.items + length path.now }
    ensures missing { length nodes.new.items
        ≤ length nodes.old.items + missing_along nodes.old.items root (keys_to path.now key.now) }
    ensures ok { OnOk result (IsMade nodes.new.items root (keys_to path.now key.now)) }
    ensures node { IfOk result
        (λ place. walk (child_of nodes.new.items) root (keys_to path.now key.now)
        ≡ Some place.node) }
    ensures above { IfOk result
        (λ place. walk (child_of nodes.new.items) root (keys_above path.now) ≡ Some place.above) }
    ensures memory { IfErr result (λ cause. cause ≡ NoMemory) }
{
    reserve_presence(nodes, ROOT)?;
    match path.split_first() {
        None => Ok(PlaceNodes {
            node: ROOT,
            above: ROOT,
        }),
        Some((_, way)) => prepare_below(nodes, ROOT, way, key),
    }
}

// Makes the nodes on the way from a node that has room down to a place,
// with room for one more id in each.
fn prepare_below(
    nodes: &mut Vec<Node>,
    at: NodeNumber,
    way: &[Tagged],
    key: &Key,
) -> Result<PlaceNodes, Refusal>
    requires tree { AreTree nodes.old.items }
    requires known { at.0 < length nodes.old.items }
    requires room { (node_of nodes.old.items at).presence.1 ≡ true }
    ensures tree { AreTree nodes.new.items }
    ensures grows { Grows nodes.old.items nodes.new.items }
    ensures few { length nodes.new.items ≤ length nodes.old.items + length way.now + 1 }
    ensures missing { length nodes.new.items
        ≤ length nodes.old.items + missing_along nodes.old.items at (keys_below way.now key.now) }
    ensures ok { OnOk result (IsMade nodes.new.items at (keys_below way.now key.now)) }
    ensures node { IfOk result
        (λ place. walk (child_of nodes.new.items) at (keys_below way.now key.now)
        ≡ Some place.node) }
    ensures above { IfOk result
        (λ place. walk (child_of nodes.new.items) at (map key_of way.now) ≡ Some place.above) }
    ensures memory { IfErr result (λ cause. cause ≡ NoMemory) }
{
    match way.split_first() {
        None => {
            let node = ready_child(nodes, at, key)?;
            Ok(PlaceNodes { node, above: at })
        }
        Some((next, rest)) => {
            let below = ready_child(nodes, at, next.key())?;
            prepare_below(nodes, below, rest, key)
        }
    }
}

// The child of a node at a key, made if there is none, with room for one more id.
fn ready_child(nodes: &mut Vec<Node>, at: NodeNumber, key: &Key) -> Result<NodeNumber, Refusal>
    requires tree { AreTree nodes.old.items }
    requires known { at.0 < length nodes.old.items }
    ensures tree { AreTree nodes.new.items }
    ensures grows { Grows nodes.old.items nodes.new.items }
    ensures few { length nodes.new.items ≤ length nodes.old.items + 1 }
    ensures there { IsSome (child_of nodes.old.items at key.now)
        → length nodes.new.items ≡ length nodes.old.items }
    ensures child { IfOk result (λ c. child_of nodes.new.items at key.now ≡ Some c) }
    ensures room { IfOk result (λ c. (node_of nodes.new.items c).presence.1 ≡ true) }
    ensures memory { IfErr result (λ cause. cause ≡ NoMemory) }
{
    let child = grown_child(nodes, at, key)?;
    reserve_presence(nodes, child)?;
    Ok(child)
}

/// Makes room for one more number in a node, or for one more scalar.
pub fn reserve_value(nodes: &mut Vec<Node>, at: NodeNumber, adds: bool) -> Result<(), Refusal>
    requires tree { AreTree nodes.old.items }
    requires known { at.0 < length nodes.old.items }
    ensures tree { AreTree nodes.new.items }
    ensures grows { Grows nodes.old.items nodes.new.items }
    ensures none { length nodes.new.items ≡ length nodes.old.items }
    ensures register { adds ≡ false
        → OnOk result (length (node_of nodes.new.items at).register.0 < (node_of nodes.new.items at).register.1) }
    ensures counter { adds ≡ true → OnOk result ((node_of nodes.new.items at).counter.1 ≡ true) }
    ensures memory { IfErr result (λ cause. cause ≡ NoMemory) }
{
    let node = &mut nodes[at.0];
    if adds {
        Ok(node.counter.reserve_one()?)
    } else {
        Ok(node.register.reserve_one()?)
    }
}

/// Makes room for one more id in the list of a node.
pub fn reserve_order(nodes: &mut Vec<Node>, at: NodeNumber) -> Result<(), Refusal>
    requires tree { AreTree nodes.old.items }
    requires known { at.0 < length nodes.old.items }
    ensures tree { AreTree nodes.new.items }
    ensures grows { Grows nodes.old.items nodes.new.items }
    ensures none { length nodes.new.items ≡ length nodes.old.items }
    ensures room { OnOk result
        (length (node_of nodes.new.items at).order.0 < (node_of nodes.new.items at).order.1) }
    ensures memory { IfErr result (λ cause. cause ≡ NoMemory) }
{
    let node = &mut nodes[at.0];
    node.order.reserve_one()?;
    Ok(())
}

/// Makes room for one more id in the presence of a node.
fn reserve_presence(nodes: &mut Vec<Node>, at: NodeNumber) -> Result<(), Refusal>
    requires tree { AreTree nodes.old.items }
    requires known { at.0 < length nodes.old.items }
    ensures tree { AreTree nodes.new.items }
    ensures grows { Grows nodes.old.items nodes.new.items }
    ensures none { length nodes.new.items ≡ length nodes.old.items }
    ensures room { OnOk result ((node_of nodes.new.items at).presence.1 ≡ true) }
    ensures memory { IfErr result (λ cause. cause ≡ NoMemory) }
{
    let node = &mut nodes[at.0];
    node.presence.reserve_one()?;
    Ok(())
}

/// The child of a node at a key, made if there is none.
fn grown_child(nodes: &mut Vec<Node>, at: NodeNumber, key: &Key) -> Result<NodeNumber, Refusal>
    requires tree { AreTree nodes.old.items }
    requires known { at.0 < length nodes.old.items }
    ensures tree { AreTree nodes.new.items }
    ensures grows { Grows nodes.old.items nodes.new.items }
    ensures few { length nodes.new.items ≤ length nodes.old.items + 1 }
    ensures there { IsSome (child_of nodes.old.items at key.now)
        → length nodes.new.items ≡ length nodes.old.items }
    ensures child { IfOk result (λ c. child_of nodes.new.items at key.now ≡ Some c) }
    ensures memory { IfErr result (λ cause. cause ≡ NoMemory) }
{
    match seek_child(nodes, at, key) {
        Some(child) => Ok(child),
        None => new_child(nodes, at, key),
    }
}

// A new child of a node, at a key that has none.
fn new_child(nodes: &mut Vec<Node>, at: NodeNumber, key: &Key) -> Result<NodeNumber, Refusal>
    requires tree { AreTree nodes.old.items }
    requires known { at.0 < length nodes.old.items }
    requires missing { child_of nodes.old.items at key.now ≡ None }
    ensures tree { AreTree nodes.new.items }
    ensures grows { Grows nodes.old.items nodes.new.items }
    ensures few { length nodes.new.items ≤ length nodes.old.items + 1 }
    ensures child { IfOk result (λ c. child_of nodes.new.items at key.now ≡ Some c) }
    ensures memory { IfErr result (λ cause. cause ≡ NoMemory) }
{
    let key = key.try_clone()?;
    let fresh = Node::new(*nodes.allocator());
    let number = NodeNumber(nodes.len());
    add_child(nodes, at, key, fresh)?;
    Ok(number)
}

// The child of a node at a key, if there is one. Asking for it again is fast.
fn seek_child(nodes: &mut Vec<Node>, at: NodeNumber, key: &Key) -> Option<NodeNumber>
    requires known { at.0 < length nodes.old.items }
    ensures same { nodes.new.items ≡ nodes.old.items }
    ensures value { result ≡ child_of nodes.old.items at key.now }
{
    let children = &mut nodes[at.0].children;
    children.seek(key)
}

// Adds a node as the child of another.
fn add_child(nodes: &mut Vec<Node>, at: NodeNumber, key: Key, fresh: Node) -> Result<(), Refusal>
    requires known { at.0 < length nodes.old.items }
    requires missing { child_of nodes.old.items at key ≡ None }
    ensures ok { OnOk result (AddsChild nodes.old.items nodes.new.items at key fresh) }
    ensures err { OnErr result (ChangesBlocksOnly nodes.old.items nodes.new.items at) }
    ensures memory { IfErr result (λ cause. cause ≡ NoMemory) }
{
    nodes.reserve(1)?;
    let number = NodeNumber(nodes.len());
    let node = &mut nodes[at.0];
    node.children.insert(key, number)?;
    match nodes.push(fresh) {
        Ok(()) => Ok(()),
        Err(_) => unreachable!(),
    }
}
