//! All that is at a place and below it, as JSON branches.
ghost use Rattle.std.specs.Prelude.{◌≡◌, ◌<◌, ◌∷◌, [], List, length, Contains, codes, Decides};
ghost use Rattle.std.specs.Prelude.{Some};
ghost use Rattle.serde_json.specs.Data.{Data, string};
ghost use Rattle.doc_api.specs.Words.{Key, Tagged};
ghost use Rattle.op_core.specs.Wire.{list_data};
ghost use Rattle.doc_nodes.specs.declared.node.NodeNumber.{NodeNumber};
ghost use Rattle.doc_nodes.specs.Nodes.{child_of};
ghost use Rattle.doc_tree.specs.Nodes.{tree_facts};
ghost use Rattle.doc_rules.specs.Views.{into_list, into_map};
ghost use Rattle.doc_rules.specs.Shown.{IsPut, ShowsText};
ghost use Rattle.json_scalar.specs.declared.scalar.Val.TheVariants.{EmptyMap, EmptyList};
ghost use Rattle.doc_view.specs.ByNumber.{AtReader, IsTextAt, ShowsThose};
ghost use Rattle.doc_view.specs.Members.{texts_at, texts_in};
ghost use Rattle.doc_view.specs.Readings.{GivesUnlessMemory, ReadsUnlessMemory};
ghost use Rattle.doc_view.specs.Showing.{AreFields, IsListShown, IsMapShown, IsShown};
ghost use Rattle.doc_view.specs.Writing.{WritesEach, WritesOne, WritesParts};
ghost use Rattle.doc_view.specs.TreeValues.{tree_values};
ghost use Rattle.json_text.specs.Tokens.{data_tokens};

use crate::elements::present_element;
use crate::json_parts::{begin_branch, end_branch, write_values};
use crate::maps::present_text;
use crate::node_reader::NodeReader;
use crate::roles::empty_put;
use doc_api::CompactText;
use doc_tree::{EachChild, SearchHint, Tree};
use json_scalar::Refusal;
use json_text::JsonText;
use lamport_id::Id;
use op_core::{Cursor, Key, KeyText, Path};
use std::alloc::Global;

/// The compact JSON text of all that is at a cursor and below it: an array of its branches.
/// `AtHead` where the cursor is at a head.
pub fn show(alloc: Global, tree: &Tree, cursor: &Cursor) -> Result<CompactText, Refusal>
    ensures { ReadsUnlessMemory (ShowsText (tree_facts tree.now) (tree_values tree.now)) cursor.now result }
{
    if cursor.key.is_head() {
        return Err(Refusal::AtHead);
    }
    let mut text = JsonText::new(alloc);
    write_place(alloc, &mut text, tree, &cursor.path, &cursor.key)?;
    Ok(CompactText::from(text.into_string()))
}

fn write_place(
    alloc: Global,
    text: &mut JsonText,
    tree: &Tree,
    path: &Path,
    key: &Key,
) -> Result<(), Refusal>
    ensures { GivesUnlessMemory
        (λ _. WritesOne (IsShown tree.now path.now key.now) text.old text.new) result }
{
    match tree.node_at(path, key) {
        None => text.empty_list(),
        Some(at) => write_node(NodeReader { alloc, tree, at }, text),
    }
}

// The numbers of the nodes rise on the way down, so it ends.
#[cycle(node)]
fn write_node(node: NodeReader<'_>, text: &mut JsonText) -> Result<(), Refusal>
    ensures { GivesUnlessMemory
        (λ _. WritesOne (λ d. AtReader node.entry (λ tree p k. IsShown tree p k d))
        text.old text.new) result }
{
    text.begin_list()?;
    let put = empty_put(node.tree.presence_of(node.at), node.tree.may_put(node.at));
    write_map(node, text, put.map)?;
    write_list(node, text, put.list)?;
    write_values(
        text,
        node.tree.register_of(node.at),
        node.tree.counter_of(node.at),
    )?;
    text.end_list()
}

// The branch of the map at a node.
#[cycle(node)]
fn write_map(node: NodeReader<'_>, text: &mut JsonText, is_put: bool) -> Result<(), Refusal>
    requires { AtReader node
        (λ tree p k. Decides is_put (IsPut (tree_facts tree) (tree_values tree) p k EmptyMap)) }
    ensures { GivesUnlessMemory
        (λ _. WritesEach (λ ds. AtReader node.entry (λ tree p k. IsMapShown tree p k ds))
        text.old text.new) result }
{
    begin_branch(text, "map", is_put)?;
    let is_begun = write_fields(node, text, node.tree.children_of(node.at), is_put)?;
    end_branch(text, is_begun)
}

// The fields of a map's branch, and whether it is begun then.
#[cycle(node)]
fn write_fields(
    node: NodeReader<'_>,
    text: &mut JsonText,
    children: EachChild<'_>,
    was_begun: bool,
) -> Result<bool, Refusal>
    requires found { (k : Key) (n : NodeNumber) → Contains children (k, n)
        → child_of node.tree.now.0 node.at k ≡ Some n }
    requires deeper { (k : Key) (n : NodeNumber) → Contains children (k, n)
        → (node.at.0 < n.0) × (n.0 < length node.tree.now.0) }
    ensures { GivesUnlessMemory (λ is_begun. WritesParts (codes "map") was_begun
        (λ ds. AtReader node.entry
        (λ tree p k. AreFields tree (into_map p k) (texts_in children.entry) ds))
        text.old text.new is_begun) result }
{
    let mut is_begun = was_begun;
    for child in children {
        let field = NodeReader {
            at: child.1,
            ..node
        };
        is_begun = write_field(field, text, &child.0, is_begun)?;
    }
    Ok(is_begun)
}

// A text and what is shown under it, if the key is a text and present.
#[cycle(node)]
fn write_field(
    node: NodeReader<'_>,
    text: &mut JsonText,
    key: &Key,
    was_begun: bool,
) -> Result<bool, Refusal>
    ensures { GivesUnlessMemory (λ is_begun. WritesParts (codes "map") was_begun
        (λ ds. (map : List Tagged) → IsTextAt node.entry.tree.now map key.now node.entry.at
        → AreFields node.entry.tree.now map (texts_at key.now) ds)
        text.old text.new is_begun) result }
{
    match present_text(node.tree, key, node.at) {
        None => Ok(was_begun),
        Some(name) => {
            begin_branch(text, "map", !was_begun)?;
            write_named_node(node, text, name)?;
            Ok(true)
        }
    }
}

// A name and what is shown at a node.
#[cycle(node)]
fn write_named_node(
    node: NodeReader<'_>,
    text: &mut JsonText,
    name: &KeyText,
) -> Result<(), Refusal>
    ensures { GivesUnlessMemory (λ _. WritesOne (λ field. (d : Data)
        × AtReader node.entry (λ tree p k. IsShown tree p k d)
        × (field ≡ list_data (string name.now ∷ d ∷ []))) text.old text.new) result }
{
    text.begin_list()?;
    text.text(name.as_str())?;
    write_node(node, text)?;
    text.end_list()
}

// The branch of the list at a node.
#[cycle(node)]
fn write_list(node: NodeReader<'_>, text: &mut JsonText, is_put: bool) -> Result<(), Refusal>
    requires { AtReader node
        (λ tree p k. Decides is_put (IsPut (tree_facts tree) (tree_values tree) p k EmptyList)) }
    ensures { GivesUnlessMemory
        (λ _. WritesEach (λ ds. AtReader node.entry (λ tree p k. IsListShown tree p k ds))
        text.old text.new) result }
{
    begin_branch(text, "list", is_put)?;
    let ids = node.tree.present_elements_of(node.alloc, node.at)?;
    let is_begun = write_elements(node, text, ids.as_slice(), is_put)?;
    end_branch(text, is_begun)
}

// The elements of a list's branch, and whether it is begun then.
#[cycle(node)]
fn write_elements(
    list: NodeReader<'_>,
    text: &mut JsonText,
    ids: &[Id],
    was_begun: bool,
) -> Result<bool, Refusal>
    ensures { GivesUnlessMemory (λ is_begun. WritesParts (codes "list") was_begun
        (λ ds. AtReader list.entry (λ tree p k. ShowsThose tree (into_list p k) ids.now ds))
        text.old text.new is_begun) result }
{
    let mut is_begun = was_begun;
    let mut hint = SearchHint::first();
    for id in ids {
        is_begun = write_element(list, text, id, &mut hint, is_begun)?;
    }
    Ok(is_begun)
}

// What is shown at an element of the list at a node, if it is present.
#[cycle(node)]
fn write_element(
    list: NodeReader<'_>,
    text: &mut JsonText,
    id: &Id,
    hint: &mut SearchHint,
    was_begun: bool,
) -> Result<bool, Refusal>
    ensures { GivesUnlessMemory (λ is_begun. WritesParts (codes "list") was_begun
        (λ ds. AtReader list.entry (λ tree p k. ShowsThose tree (into_list p k) (id.now ∷ []) ds))
        text.old text.new is_begun) result }
{
    match present_element(list.tree, list.at, id, hint) {
        None => Ok(was_begun),
        Some(at) => {
            begin_branch(text, "list", !was_begun)?;
            write_node(NodeReader { at, ..list }, text)?;
            Ok(true)
        }
    }
}
