//! The node that is known on the way to a cursor.
ghost use Rattle.std.specs.Prelude.{◌≡◌, IfSome};
ghost use Rattle.doc_tree.specs.Nodes.{tree_list};
ghost use Rattle.doc_view.specs.OnWay.{IsOnWay};

use doc_tree::{NodeNumber, Tree};
use op_core::Tagged;

/// The node of a key of a path, and how many keys are before it. The list at a longer path is found
/// from it, and not from the root.
#[derive(Clone, Copy)]
pub struct KnownNode {
    pub node: NodeNumber,
    pub depth: usize,
}

/// The node whose list a path leads to. From then on it is the known one.
pub fn list_node(tree: &Tree, path: &[Tagged], known: &mut Option<KnownNode>) -> Option<NodeNumber>
    requires { IfSome known.old (IsOnWay tree.now path.now) }
    ensures node { result ≡ tree_list tree.now path.now }
    ensures known { IfSome known.new (IsOnWay tree.now path.now) }
{
    let node = list_from(tree, path, *known)?;
    *known = Some(KnownNode {
        node,
        depth: path.len() - 1,
    });
    Some(node)
}

// The node whose list a path leads to, from the known node on.
fn list_from(tree: &Tree, path: &[Tagged], known: Option<KnownNode>) -> Option<NodeNumber>
    requires { IfSome known (IsOnWay tree.now path.now) }
    ensures { result ≡ tree_list tree.now path.now }
{
    match known {
        None => tree.list_at(path),
        Some(known) => tree.list_below(known.node, &path[known.depth..]),
    }
}
