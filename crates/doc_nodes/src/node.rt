//! Nodes, and what each holds.
ghost use Rattle.std.specs.Prelude.{◌≡◌, []};
ghost use Rattle.crdt_rules.specs.Context.{reference};

use crate::counter::Counter;
use json_scalar::Scalar;
use key_map::{EachEntry, KeyMap};
use lamport_id::Id;
use list_order::ListOrder;
use op_core::{Front, Key};
use presence_set::{ById, Presence};
use std::alloc::Global;

/// The number of a node.
#[derive(Clone, Copy)]
pub struct NodeNumber(pub usize);

/// The number of the root.
pub const ROOT: NodeNumber = NodeNumber(0);

/// The nodes at the end of the way to a place.
#[derive(Clone, Copy)]
pub struct PlaceNodes {
    /// The node of the place.
    pub node: NodeNumber,
    /// The node above it, which has the list that the place is an element of; the
    /// root if the place is the root.
    pub above: NodeNumber,
}

/// The scalars that operations put at a place.
pub type Register = ById<Scalar>;

/// The nodes below a node, by their keys. A block of them is gone once it is known that none in it
/// is present, until one may be again.
pub type Children = KeyMap<NodeNumber>;

/// Children one after another, in the order of their keys.
pub type EachChild<'a> = EachEntry<'a, NodeNumber>;

/// The id of an element's key.
pub fn element_in(key: &Key) -> Option<Id>
    ensures { result ≡ reference key.now }
{
    match key {
        Key::Element(id) => Some(*id),
        _ => None,
    }
}

/// A place of the document: what makes it present, its register, its counter, the order of
/// its list, and the nodes below it.
pub struct Node {
    /// The operations that make the place present, each with its role.
    pub presence: Presence,
    /// The scalars at the place, by the operations that put them there.
    pub register: Register,
    /// The numbers at the place, by the operations that added them there.
    pub counter: Counter,
    /// The elements of its list, deleted ones included.
    pub order: ListOrder,
    /// The nodes at the keys of its map and at the elements of its list.
    pub children: Children,
    /// Whether a child may be present. If this is false, none is.
    pub may_have_present_child: bool,
}

impl Drop for Node {
    fn drop(self) {
        let Node {
            presence: _,
            register: _,
            counter: _,
            order: _,
            children: _,
            may_have_present_child: _,
        } = self;
    }
}

impl Node {
    ghost use Rattle.std.specs.Prelude.{◌≡◌, [], false};
    ghost use Rattle.doc_nodes.specs.Nodes.{cleared};

    /// An empty node. Allocates nothing yet.
    pub fn new(alloc: Global) -> Node
        ensures presence { result.presence.0 ≡ [] }
        ensures register { result.register.0 ≡ [] }
        ensures counter { result.counter.0 ≡ [] }
        ensures order { result.order.0 ≡ [] }
        ensures children { result.children ≡ ([], []) }
        ensures may_have_present_child { result.may_have_present_child ≡ false }
    {
        Node {
            presence: Presence::new(alloc),
            register: Register::new(alloc),
            counter: Counter::new(alloc),
            order: ListOrder::new(alloc),
            children: Children::new(alloc),
            may_have_present_child: false,
        }
    }

    /// Drops what the front covers.
    pub fn clear(&mut self, front: &Front)
        ensures { self.new ≡ cleared front.now self.old }
    {
        self.presence.retain_uncovered(front);
        self.register.retain_uncovered(front);
        self.counter.retain_uncovered(front);
    }
}
