//! Keys and elements as JSON arrays, written while they are read.
ghost use Rattle.std.specs.Prelude.{◌≡◌, ◌∷◌, [], List, map};
ghost use Rattle.serde_json.specs.Data.{string};
ghost use Rattle.op_core.specs.declared.cursor.Tagged.{Tagged};
ghost use Rattle.op_core.specs.declared.cursor.Key.TheVariants.{Text};
ghost use Rattle.doc_tree.specs.Nodes.{tree_facts};
ghost use Rattle.doc_rules.specs.Views as reads;
ghost use Rattle.doc_rules.specs.Views.{AreItems, AreKeys, IsPresent};
ghost use Rattle.doc_rules.specs.Sorted.{AreThose};
ghost use Rattle.doc_rules.specs.Encoded.{item_data, ItemsText, KeysText};
ghost use Rattle.doc_view.specs.ByNumber.{AreIn, AtNode, HasItems, IsTextAt};
ghost use Rattle.doc_view.specs.Members.{texts_at, texts_in};
ghost use Rattle.doc_view.specs.Readings.{GivesUnlessMemory, ReadsUnlessMemory};
ghost use Rattle.doc_view.specs.Writing.{WritesAll, WritesArray};
ghost use Rattle.json_text.specs.Tokens.{all_tokens, Puts};

use crate::elements::present_element;
use crate::json_parts::write_item;
use crate::maps::{are_present_texts, present_text};
use doc_api::CompactText;
use doc_tree::{EachChild, NodeNumber, SearchHint, Tree};
use json_scalar::Refusal;
use json_text::JsonText;
use lamport_id::Id;
use op_core::{Cursor, Key, Path};
use std::alloc::Global;

/// What `keys` gives, as the compact JSON text of an array. It is refused as `keys` is.
pub fn keys_text(alloc: Global, tree: &Tree, cursor: &Cursor) -> Result<CompactText, Refusal>
    ensures { ReadsUnlessMemory (KeysText (tree_facts tree.now)) cursor.now result }
{
    if cursor.key.is_head() {
        return Err(Refusal::AtHead);
    }
    let mut text = JsonText::new(alloc);
    write_keys(&mut text, tree, &cursor.path, &cursor.key)?;
    Ok(CompactText::from(text.into_string()))
}

fn write_keys(text: &mut JsonText, tree: &Tree, path: &Path, key: &Key) -> Result<(), Refusal>
    ensures { GivesUnlessMemory
        (λ _. WritesArray string (AreKeys (tree_facts tree.now) path.now key.now)
        text.old text.new) result }
{
    text.begin_list()?;
    write_present_texts(text, tree, tree.children(path, key))?;
    text.end_list()
}

// The texts of those of a map's children that are present, one behind another.
fn write_present_texts(
    text: &mut JsonText,
    tree: &Tree,
    mut children: EachChild<'_>,
) -> Result<(), Refusal>
    ensures { GivesUnlessMemory
        (λ _. WritesAll string (λ names. (map : List Tagged) → AreIn tree.now map children.entry
        → AreThose
        (λ t. IsPresent (tree_facts tree.now) map (Text t)) (texts_in children.entry) names)
        text.old text.new) result }
{
    while let Some(block) = children.next_block() {
        write_block(text, tree, block)?;
    }
    Ok(())
}

// The texts of those of these children that are present. Nodes are far apart in memory: to look at
// those of a block one right behind another takes less time than to write between two looks.
fn write_block(text: &mut JsonText, tree: &Tree, block: &[(Key, NodeNumber)]) -> Result<(), Refusal>
    ensures { GivesUnlessMemory
        (λ _. WritesAll string (λ names. (map : List Tagged) → AreIn tree.now map block.now
        → AreThose (λ t. IsPresent (tree_facts tree.now) map (Text t)) (texts_in block.now) names)
        text.old text.new) result }
{
    if are_present_texts(tree, block) {
        write_texts(text, block)
    } else {
        write_each_present_text(text, tree, block)
    }
}

// The texts of these children, one behind another.
fn write_texts(text: &mut JsonText, children: &[(Key, NodeNumber)]) -> Result<(), Refusal>
    ensures { Puts (all_tokens (map string (texts_in children.now))) text.old text.new result }
{
    for child in children {
        write_text(text, &child.0)?;
    }
    Ok(())
}

// The text of a child, if it is a text.
fn write_text(text: &mut JsonText, key: &Key) -> Result<(), Refusal>
    ensures { Puts (all_tokens (map string (texts_at key.now))) text.old text.new result }
{
    match key {
        Key::Doc => Ok(()),
        Key::Text(name) => text.text(name.as_str()),
        Key::Element(_) => Ok(()),
        Key::Head => Ok(()),
    }
}

// Those of these children that are texts and present, one behind another.
fn write_each_present_text(
    text: &mut JsonText,
    tree: &Tree,
    children: &[(Key, NodeNumber)],
) -> Result<(), Refusal>
    ensures { GivesUnlessMemory
        (λ _. WritesAll string (λ names. (map : List Tagged) → AreIn tree.now map children.now
        → AreThose
        (λ t. IsPresent (tree_facts tree.now) map (Text t)) (texts_in children.now) names)
        text.old text.new) result }
{
    for child in children {
        write_present_text(text, tree, &child.0, child.1)?;
    }
    Ok(())
}

// The text of a child of a map, if it is a text and present.
fn write_present_text(
    text: &mut JsonText,
    tree: &Tree,
    key: &Key,
    at: NodeNumber,
) -> Result<(), Refusal>
    ensures { GivesUnlessMemory
        (λ _. WritesAll string (λ names. (map : List Tagged) → IsTextAt tree.now map key.now at
        → AreThose (λ t. IsPresent (tree_facts tree.now) map (Text t)) (texts_at key.now) names)
        text.old text.new) result }
{
    match present_text(tree, key, at) {
        None => Ok(()),
        Some(name) => text.text(name.as_str()),
    }
}

/// What `items` gives, as the compact JSON text of an array. It is refused as `items` is.
pub fn items_text(alloc: Global, tree: &Tree, cursor: &Cursor) -> Result<CompactText, Refusal>
    ensures { ReadsUnlessMemory (ItemsText (tree_facts tree.now)) cursor.now result }
{
    if cursor.key.is_head() {
        return Err(Refusal::AtHead);
    }
    let mut text = JsonText::new(alloc);
    write_items(alloc, &mut text, tree, &cursor.path, &cursor.key)?;
    Ok(CompactText::from(text.into_string()))
}

fn write_items(
    alloc: Global,
    text: &mut JsonText,
    tree: &Tree,
    path: &Path,
    key: &Key,
) -> Result<(), Refusal>
    ensures { GivesUnlessMemory
        (λ _. WritesArray item_data (AreItems (tree_facts tree.now) path.now key.now)
        text.old text.new) result }
{
    match tree.node_at(path, key) {
        None => text.empty_list(),
        Some(at) => write_node_items(alloc, text, tree, at),
    }
}

fn write_node_items(
    alloc: Global,
    text: &mut JsonText,
    tree: &Tree,
    at: NodeNumber,
) -> Result<(), Refusal>
    ensures { GivesUnlessMemory (λ _. WritesArray item_data (λ items. AtNode tree.now at
        (λ p k. AreItems (tree_facts tree.now) p k items)) text.old text.new) result }
{
    let ids = tree.present_elements_of(alloc, at)?;
    text.begin_list()?;
    write_present_items(text, tree, at, ids.as_slice())?;
    text.end_list()
}

// The present ones of these elements of the list at a node, each with its scalars, one behind
// another.
fn write_present_items(
    text: &mut JsonText,
    tree: &Tree,
    list: NodeNumber,
    ids: &[Id],
) -> Result<(), Refusal>
    ensures { GivesUnlessMemory (λ _. WritesAll item_data (λ items. AtNode tree.now list
        (λ p k. HasItems (tree_facts tree.now) (reads.into_list p k) ids.now items)) text.old text.new) result }
{
    let mut hint = SearchHint::first();
    for id in ids {
        write_present_item(text, tree, list, id, &mut hint)?;
    }
    Ok(())
}

// An element of the list at a node with its scalars, if it is present.
fn write_present_item(
    text: &mut JsonText,
    tree: &Tree,
    list: NodeNumber,
    id: &Id,
    hint: &mut SearchHint,
) -> Result<(), Refusal>
    ensures { GivesUnlessMemory (λ _. WritesAll item_data (λ items. AtNode tree.now list
        (λ p k. HasItems (tree_facts tree.now) (reads.into_list p k) (id.now ∷ []) items)) text.old text.new) result }
{
    match present_element(tree, list, id, hint) {
        None => Ok(()),
        Some(at) => write_item(text, id, tree.register_of(at)),
    }
}
