//! The node of a place.
ghost use Rattle.std.specs.Prelude.{◌≡◌, Some, None, option_and_then, if◌then◌else◌};
ghost use Rattle.op_core.specs.Shape.{may_follow};
ghost use Rattle.crdt_rules.specs.Same.{key_eq};
ghost use Rattle.op_core.specs.declared.cursor.Key.TheVariants.{Doc};
ghost use Rattle.doc_nodes.specs.Walk.{trail_below, list_trail_below, walk};
ghost use Rattle.doc_nodes.specs.Nodes.{child_of, node_at, list_node_at};

use crate::node::{Node, NodeNumber, ROOT};
use op_core::{Key, Path, Tagged};

/// The node of a place.
pub fn find(nodes: &[Node], path: &[Tagged], key: &Key) -> Option<NodeNumber>
    ensures { result ≡ node_at nodes.now path.now key.now }
{
    match path.split_first() {
        None => { if is_doc(key) { Some(ROOT) } else { None } }
        Some((first, way)) => {
            if is_doc(first.key()) {
                find_below(nodes, ROOT, first, way, key)
            } else {
                None
            }
        }
    }
}

/// The node of a place below a tagged key.
fn find_below(
    nodes: &[Node],
    at: NodeNumber,
    tag: &Tagged,
    way: &[Tagged],
    key: &Key,
) -> Option<NodeNumber>
    ensures { result
        ≡ option_and_then (walk (child_of nodes.now) at) (trail_below tag.now way.now key.now) }
{
    match way.split_first() {
        None => child(nodes, at, tag, key),
        Some((next, rest)) => match child(nodes, at, tag, next.key()) {
            None => None,
            Some(below) => find_below(nodes, below, next, rest, key),
        },
    }
}

/// The node whose list a path leads to.
pub fn find_list(nodes: &[Node], path: &[Tagged]) -> Option<NodeNumber>
    ensures { result ≡ list_node_at nodes.now path.now }
{
    match path.split_first() {
        None => None,
        Some((first, way)) => {
            if is_doc(first.key()) {
                find_list_below(nodes, ROOT, first, way)
            } else {
                None
            }
        }
    }
}

/// The node whose list a path below a tagged key leads to.
pub fn find_list_below(
    nodes: &[Node],
    at: NodeNumber,
    tag: &Tagged,
    way: &[Tagged],
) -> Option<NodeNumber>
    ensures { result
        ≡ option_and_then (walk (child_of nodes.now) at) (list_trail_below tag.now way.now) }
{
    match way.split_first() {
        None => { if tag.is_list() { Some(at) } else { None } }
        Some((next, rest)) => match child(nodes, at, tag, next.key()) {
            None => None,
            Some(below) => find_list_below(nodes, below, next, rest),
        },
    }
}

/// The child of a node at a key, if the tagged key leads to keys of that kind.
pub fn child(nodes: &[Node], at: NodeNumber, tag: &Tagged, key: &Key) -> Option<NodeNumber>
    ensures { result
        ≡ (if may_follow tag.now key.now then child_of nodes.now at key.now else None) }
{
    if !tag.leads_to(key) {
        return None;
    }
    match nodes.get(at.0) {
        None => None,
        Some(node) => node.children.find(key),
    }
}

/// The keys of a path.
pub fn keys(path: &Path) -> &[Tagged]
    ensures { result.now ≡ path.now }
{
    path.as_slice()
}

/// Whether a key is that of the whole document.
pub fn is_doc(key: &Key) -> bool
    ensures { result ≡ key_eq key.now Doc }
{
    match key {
        Key::Doc => true,
        _ => false,
    }
}
