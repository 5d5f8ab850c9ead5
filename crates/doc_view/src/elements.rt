//! Elements of lists.
ghost use Rattle.std.specs.Prelude.{◌<◌, Decides, ◌∷◌, [], length};
ghost use Rattle.std.specs.Option.{ForSome};
ghost use Rattle.doc_tree.specs.Nodes.{tree_facts};
ghost use Rattle.doc_rules.specs.Views as reads;
ghost use Rattle.doc_rules.specs.Views.{AreItems, IsPresent};
ghost use Rattle.doc_view.specs.ByNumber.{AtNode, AtReader, HasItems, IsElementAt};
ghost use Rattle.doc_view.specs.Members.{Adds};
ghost use Rattle.doc_view.specs.Readings.{GivesUnlessMemory, ReadsUnlessMemory};

use crate::node_reader::NodeReader;
use crate::registers::values_below;
use doc_api::{Items, Scalars};
use doc_tree::{NodeNumber, SearchHint, Tree};
use json_scalar::Refusal;
use lamport_id::Id;
use op_core::{Cursor, Key};
use std::alloc::Global;

/// The present elements of the list at a cursor in list order, each with the scalars of
/// its register in the order of their ids. `AtHead` where the cursor is at a head. The
/// program itself calls `items_text`.
pub fn items(alloc: Global, tree: &Tree, cursor: &Cursor) -> Result<Items, Refusal>
    ensures { ReadsUnlessMemory (AreItems (tree_facts tree.now)) cursor.now result }
{
    if cursor.key.is_head() {
        return Err(Refusal::AtHead);
    }
    match tree.node_at(&cursor.path, &cursor.key) {
        None => Ok(Items::from(Vec::new(alloc))),
        Some(at) => items_below(NodeReader { alloc, tree, at }),
    }
}

fn items_below(list: NodeReader<'_>) -> Result<Items, Refusal>
    ensures { GivesUnlessMemory (λ items. AtReader list.entry
        (λ tree p k. AreItems (tree_facts tree) p k items)) result }
{
    let ids = list.tree.present_elements_of(list.alloc, list.at)?;
    items_of(list, ids.as_slice())
}

fn items_of(list: NodeReader<'_>, ids: &[Id]) -> Result<Items, Refusal>
    ensures { GivesUnlessMemory (λ items. AtReader list.entry
        (λ tree p k. HasItems (tree_facts tree) (reads.into_list p k) ids.now items)) result }
{
    let mut items = Vec::new(list.alloc);
    let mut hint = SearchHint::first();
    for id in ids {
        push_item(list, &mut items, id, &mut hint)?;
    }
    Ok(Items::from(items))
}

// Adds an element of a list with its scalars, if it is present.
fn push_item(
    list: NodeReader<'_>,
    items: &mut Vec<(Id, Scalars)>,
    id: &Id,
    hint: &mut SearchHint,
) -> Result<(), Refusal>
    ensures { GivesUnlessMemory (λ _. Adds (λ added. AtReader list.entry
        (λ tree p k. HasItems (tree_facts tree) (reads.into_list p k) (id.now ∷ []) added))
        items.old.items items.new.items) result }
{
    if let Some(at) = present_element(list.tree, list.at, id, hint) {
        let scalars = values_below(NodeReader { at, ..list })?;
        items.push((*id, scalars))?;
    }
    Ok(())
}

/// The node of an element of the list at a node, if the element is present. The hint is that of the
/// element that was asked for before.
pub fn present_element(
    tree: &Tree,
    list: NodeNumber,
    id: &Id,
    hint: &mut SearchHint,
) -> Option<NodeNumber>
    ensures value { AtNode tree.now list
        (λ p k. IsElementAt tree.now (reads.into_list p k) id.now result) }
    ensures deeper { ForSome result (λ n. (list.0 < n.0) × (n.0 < length tree.now.0)) }
{
    match tree.child_by(list, &Key::Element(*id), hint) {
        None => None,
        Some(at) => { if is_present(tree, at) { Some(at) } else { None } }
    }
}

/// Some id makes the place of a node present.
pub fn is_present(tree: &Tree, at: NodeNumber) -> bool
    ensures { AtNode tree.now at (λ p k. Decides result (IsPresent (tree_facts tree.now) p k)) }
{
    tree.is_node_present(at)
}
