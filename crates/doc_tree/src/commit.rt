//! What an operation does to the nodes.
ghost use Rattle.std.specs.Prelude.{◌≡◌, List, true, false, ◌&&◌, Some, None, Contains};
ghost use Rattle.std.specs.Prelude.{if◌then◌else◌};
ghost use Rattle.std.specs.Option.{ForSome};
ghost use Rattle.doc_api.specs.Words.{Id, Key, Tagged, id_cmp};
ghost use Rattle.version_vector.specs.Front.{covers};
ghost use Rattle.op_core.specs.declared.cursor.Key.TheVariants.{Element};
ghost use Rattle.list_laws.specs.Order.{insert_after};
ghost use Rattle.crdt_rules.specs.Within.{is_within};
ghost use Rattle.crdt_rules.specs.Effect.{scalar_put};
ghost use Rattle.crdt_rules.specs.Context.{reference};
ghost use Rattle.crdt_rules.specs.Facts.{step_facts};
ghost use Rattle.doc_api.specs.declared.role.Role.TheVariants.{Counter};
ghost use Rattle.doc_nodes.specs.declared.node.NodeNumber.{NodeNumber};
ghost use Rattle.doc_nodes.specs.Nodes.{AreTree, node_at, list_node_at};
ghost use Rattle.doc_tree.specs.Facts.{facts_of, role_at};
ghost use Rattle.doc_tree.specs.Changes.{clear_facts_at};
ghost use Rattle.doc_nodes.specs.ListPresence.{ListsShowPresence, ListsShowPresenceBut};
ghost use Rattle.doc_nodes.specs.HasPresence.{HavePresence};
ghost use Rattle.doc_tree.specs.Changes.{add_facts, add_role, put_facts, put_role, order_facts};
ghost use Rattle.doc_tree.specs.Prepared.{IsReadyFor};
ghost use Rattle.doc_rules.specs.Role.{role_of, step_roles};
ghost use Rattle.doc_tree.specs.Prepared.{AreReady, IsNewElement, IsReadyList, KnowsReference};

use doc_nodes::{
    Node, NodeNumber, PlaceNodes, add_presence_along, clear_under, clear_way, count, element_in,
    enter, find, keys, link,
};
use json_scalar::{Scalar, Val};
use lamport_id::Id;
use op_core::{Front, Key, Mutation, Operation, Tagged};
use presence_set::Role;

// A place, and its node.
#[derive(Clone, Copy)]
struct Target<'a> {
    path: &'a [Tagged],
    key: &'a Key,
    end: NodeNumber,
}

// What an operation puts at a place, and what it has seen.
struct Put<'a> {
    front: &'a Front,
    id: &'a Id,
    role: Role,
    scalar: Option<Scalar>,
}

/// Applies an operation for which the nodes are ready, with a clone of its
/// scalar and the nodes where it ends.
pub fn apply(nodes: &mut [Node], scalar: Option<Scalar>, place: PlaceNodes, op: &Operation)
    requires tree { AreTree nodes.old }
    requires list_presence { ListsShowPresence nodes.old }
    requires has_presence { HavePresence nodes.old }
    requires ready { AreReady nodes.old place op.now }
    requires scalar { scalar ≡ scalar_put op.now.mutation }
    requires reference { KnowsReference (facts_of nodes.old) op.now }
    requires new { IsNewElement (facts_of nodes.old) op.now }
    ensures facts { facts_of nodes.new
        ≡ step_facts (facts_of nodes.old) op.now (covers op.now.front) }
    ensures roles { (q : List Tagged) (j : Key) (i : Id) → role_at nodes.new q j i
        ≡ step_roles (role_at nodes.old) op.now (covers op.now.front) q j i }
    ensures tree { AreTree nodes.new }
    ensures list_presence { ListsShowPresence nodes.new }
    ensures has_presence { HavePresence nodes.new }
{
    let cursor = op.cursor();
    let path = keys(&cursor.path);
    let key = &cursor.key;
    let front = op.front();
    let id = op.id();
    let target = Target {
        path,
        key,
        end: place.node,
    };
    match op.mutation() {
        Mutation::Assign(val) => {
            let role = role_for(val);
            put_at(
                nodes,
                target,
                Put {
                    front,
                    id: &id,
                    role,
                    scalar,
                },
            )
        }
        Mutation::Insert(val) => {
            let role = role_for(val);
            insert_at(
                nodes,
                path,
                key,
                place,
                Put {
                    front,
                    id: &id,
                    role,
                    scalar,
                },
            )
        }
        Mutation::Delete => clear_at(nodes, path, key, front),
        Mutation::Add(n) => add_at(nodes, target, &id, *n),
    }
}

/// The role of an operation where it puts a value.
fn role_for(val: &Val) -> Role
    ensures { result ≡ role_of val.now }
{
    match val {
        Val::Scalar(_) => Role::Scalar,
        Val::EmptyMap => Role::Map,
        Val::EmptyList => Role::List,
    }
}

/// Clears a place and what is below it, if it has a node.
pub fn clear_at(nodes: &mut [Node], path: &[Tagged], key: &Key, front: &Front)
    requires tree { AreTree nodes.old }
    requires list_presence { ListsShowPresence nodes.old }
    requires has_presence { HavePresence nodes.old }
    ensures facts { facts_of nodes.new
        ≡ clear_facts_at (facts_of nodes.old) path.now key.now (covers front.now) }
    ensures roles { (q : List Tagged) (j : Key) (i : Id) → role_at nodes.new q j i
        ≡ (if is_within q j path.now key.now
        && covers front.now i then None else role_at nodes.old q j i) }
    ensures tree { AreTree nodes.new }
    ensures list_presence { ListsShowPresence nodes.new }
    ensures has_presence { HavePresence nodes.new }
{
    if let Some(_) = find(nodes, path, key) {
        clear_way(nodes, path, key, front);
    }
}

// Inserts an element into a list, and assigns at it.
fn insert_at(nodes: &mut [Node], path: &[Tagged], after: &Key, place: PlaceNodes, put: Put<'_>)
    requires tree { AreTree nodes.old }
    requires list_presence { ListsShowPresence nodes.old }
    requires has_presence { HavePresence nodes.old }
    requires list { list_node_at nodes.old path.now ≡ Some place.above }
    requires list_room { IsReadyList nodes.old path.now }
    requires node { node_at nodes.old path.now (Element put.id.now) ≡ Some place.node }
    requires reference { ForSome (reference after.now) (Contains ((facts_of nodes.old).order path.now)) }
    requires new { ¬ (Contains ((facts_of nodes.old).order path.now) put.id.now) }
    requires ready { IsReadyFor nodes.old path.now (Element put.id.now) false }
    ensures facts { facts_of nodes.new
        ≡ put_facts (order_facts (facts_of nodes.old) path.now
        (λ ids. insert_after id_cmp ids (reference after.now) put.entry.id.now))
        path.now (Element put.entry.id.now) (covers put.entry.front.now) put.entry.id.now put.entry.scalar }
    ensures roles { (q : List Tagged) (j : Key) (i : Id) → role_at nodes.new q j i
        ≡ put_role (role_at nodes.old) path.now (Element put.entry.id.now) (covers put.entry.front.now)
        put.entry.id.now put.entry.role q j i }
    ensures tree { AreTree nodes.new }
    ensures list_presence { ListsShowPresence nodes.new }
    ensures has_presence { HavePresence nodes.new }
{
    link(nodes, place.above, element_in(after), put.id);
    let key = Key::Element(*put.id);
    let target = Target {
        path,
        key: &key,
        end: place.node,
    };
    put_at(nodes, target, put);
}

// Assigns at a place: clears there, makes it and those above it present, and enters a scalar.
fn put_at(nodes: &mut [Node], target: Target<'_>, put: Put<'_>)
    requires tree { AreTree nodes.old }
    requires end { node_at nodes.old target.path.now target.key.now ≡ Some target.end }
    requires list_presence { ListsShowPresenceBut nodes.old target.end }
    requires has_presence { HavePresence nodes.old }
    requires ready { IsReadyFor nodes.old target.path.now target.key.now false }
    ensures facts { facts_of nodes.new
        ≡ put_facts (facts_of nodes.old) target.entry.path.now target.entry.key.now (covers put.entry.front.now)
        put.entry.id.now put.entry.scalar }
    ensures roles { (q : List Tagged) (j : Key) (i : Id) → role_at nodes.new q j i
        ≡ put_role (role_at nodes.old) target.entry.path.now target.entry.key.now (covers put.entry.front.now)
        put.entry.id.now put.entry.role q j i }
    ensures tree { AreTree nodes.new }
    ensures list_presence { ListsShowPresence nodes.new }
    ensures has_presence { HavePresence nodes.new }
{
    let Put {
        front,
        id,
        role,
        scalar,
    } = put;
    clear_under(nodes, target.end, front);
    add_presence_along(nodes, target.path, target.key, id, role);
    if let Some(scalar) = scalar {
        enter(nodes, target.end, id, scalar);
    }
}

// Adds at a place: makes it and those above it present, and enters a number.
fn add_at(nodes: &mut [Node], target: Target<'_>, id: &Id, n: i64)
    requires tree { AreTree nodes.old }
    requires list_presence { ListsShowPresence nodes.old }
    requires has_presence { HavePresence nodes.old }
    requires end { node_at nodes.old target.path.now target.key.now ≡ Some target.end }
    requires ready { IsReadyFor nodes.old target.path.now target.key.now true }
    ensures facts { facts_of nodes.new
        ≡ add_facts (facts_of nodes.old) target.entry.path.now target.entry.key.now id.now n }
    ensures roles { (q : List Tagged) (j : Key) (i : Id) → role_at nodes.new q j i
        ≡ add_role (role_at nodes.old) target.entry.path.now target.entry.key.now id.now Counter q j i }
    ensures tree { AreTree nodes.new }
    ensures list_presence { ListsShowPresence nodes.new }
    ensures has_presence { HavePresence nodes.new }
{
    add_presence_along(nodes, target.path, target.key, id, Role::Counter);
    count(nodes, target.end, id, n);
}
