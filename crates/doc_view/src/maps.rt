//! Members of maps.
ghost use Rattle.std.specs.Prelude.{◌≡◌, List, option_map};
ghost use Rattle.std.specs.List.{list_all};
ghost use Rattle.op_core.specs.declared.cursor.Tagged.{Tagged};
ghost use Rattle.op_core.specs.declared.cursor.Key.TheVariants.{Text};
ghost use Rattle.doc_tree.specs.Nodes.{tree_facts};
ghost use Rattle.doc_rules.specs.Views.{AreKeys, IsPresent};
ghost use Rattle.doc_rules.specs.Sorted.{AreThose};
ghost use Rattle.doc_view.specs.ByNumber.{AreIn, IsTextAt};
ghost use Rattle.doc_view.specs.Members.{Adds, is_present_text, listed, texts_at, texts_in};
ghost use Rattle.doc_view.specs.Readings.{GivesUnlessMemory, ReadsUnlessMemory};

use crate::elements::is_present;
use doc_api::Texts;
use doc_tree::{EachChild, NodeNumber, Tree};
use json_scalar::Refusal;
use op_core::{Cursor, Key, KeyText};
use std::alloc::Global;

/// The texts of the present members of the map at a cursor, in byte order. `AtHead` where the
/// cursor is at a head. The program itself calls `keys_text`.
pub fn keys(alloc: Global, tree: &Tree, cursor: &Cursor) -> Result<Texts, Refusal>
    ensures { ReadsUnlessMemory (AreKeys (tree_facts tree.now)) cursor.now result }
{
    if cursor.key.is_head() {
        return Err(Refusal::AtHead);
    }
    present_texts(alloc, tree, tree.children(&cursor.path, &cursor.key))
}

// The texts of those of a map's children that are present.
fn present_texts(alloc: Global, tree: &Tree, children: EachChild<'_>) -> Result<Texts, Refusal>
    ensures { GivesUnlessMemory (λ texts. (map : List Tagged) → AreIn tree.now map children.entry
        → AreThose
        (λ t. IsPresent (tree_facts tree.now) map (Text t)) (texts_in children.entry) texts) result }
{
    let mut texts = Vec::new(alloc);
    for child in children {
        push_text(&mut texts, tree, &child.0, child.1)?;
    }
    Ok(Texts::from(texts))
}

/// The text of a child of a map, if it is a text and present.
pub fn present_text<'a>(tree: &Tree, key: &'a Key, at: NodeNumber) -> Option<&'a KeyText>
    ensures { (map : List Tagged) → IsTextAt tree.now map key.now at
        → AreThose (λ t. IsPresent (tree_facts tree.now) map (Text t)) (texts_at key.now)
        (listed (option_map (λ text. text.now) result)) }
{
    match key {
        Key::Doc => None,
        Key::Text(text) => {
            if is_present(tree, at) {
                Some(text)
            } else {
                None
            }
        }
        Key::Element(_) => None,
        Key::Head => None,
    }
}

/// Whether each of these children of a map is a text and present.
pub fn are_present_texts(tree: &Tree, children: &[(Key, NodeNumber)]) -> bool
    ensures { result ≡ list_all (is_present_text tree.now) children.now }
{
    children.iter().all(|child| is_present_text(tree, child))
}

// Whether a child of a map is a text and present.
fn is_present_text(tree: &Tree, child: &(Key, NodeNumber)) -> bool
    ensures { result ≡ is_present_text tree.now child.now }
{
    match &child.0 {
        Key::Doc => false,
        Key::Text(_) => tree.is_node_present(child.1),
        Key::Element(_) => false,
        Key::Head => false,
    }
}

// Adds the text of a child of a map, if it is a text and present.
fn push_text(
    texts: &mut Vec<KeyText>,
    tree: &Tree,
    key: &Key,
    at: NodeNumber,
) -> Result<(), Refusal>
    ensures { GivesUnlessMemory
        (λ _. Adds (λ added. (map : List Tagged) → IsTextAt tree.now map key.now at
        → AreThose (λ t. IsPresent (tree_facts tree.now) map (Text t)) (texts_at key.now) added)
        texts.old.items texts.new.items) result }
{
    if let Some(text) = present_text(tree, key, at) {
        texts.push(text.try_clone()?)?;
    }
    Ok(())
}
