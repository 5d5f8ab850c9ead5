//! Where cursors lead.
ghost use Rattle.std.specs.Prelude.{◌≡◌, ◌≢◌, ◌&&◌, List, [], Ok, Err, IfOk, IfSome};
ghost use Rattle.std.specs.List.{list_any};
ghost use Rattle.doc_api.specs.Words.{Id, NoMemory, UnlessMemory, Cursor};
ghost use Rattle.op_core.specs.Shape.{is_placed};
ghost use Rattle.op_core.specs.declared.cursor.Key.TheVariants.{Text, Element};
ghost use Rattle.crdt_rules.specs.Same.{id_eq};
ghost use Rattle.doc_rules.specs.Views.{into_map, into_list, AreElements, IsPresent};
ghost use Rattle.doc_rules.specs.Sorted.{AreThose};
ghost use Rattle.doc_tree.specs.Nodes.{tree_facts};
ghost use Rattle.doc_rules.specs.Resolve as rules;
ghost use Rattle.doc_view.specs.OnWay.{IsOnWay};

use crate::known_node::{KnownNode, list_node};
use doc_api::Step;
use doc_tree::Tree;
use json_scalar::Refusal;
use lamport_id::Id;
use op_core::{Cursor, Key, KeyText, MAX_KEY_LEN, MAX_PATH_LEN, Path, Tagged, is_placed};
use std::alloc::Global;

/// The cursor to which steps lead from a start.
///
/// Of the start: `TooDeep` if its path has more than 30 keys, and `BadCursor` if it isn't placed, a
/// text has more than 128 bytes, or an element isn't in the list at its path. Of each step in turn:
/// `AtHead` if the cursor is at a head, `TooDeep` if its path has 30 keys, `BadCursor` for a text
/// of more than 128 bytes, and `IndexPastEnd`. Any may be `NoMemory`.
pub fn resolve(tree: &Tree, start: Cursor, steps: &[Step]) -> Result<Cursor, Refusal>
    ensures { result ≢ Err NoMemory → rules.Resolves (tree_facts tree.now) start steps.now result }
{
    let mut from = checked(tree, start)?;
    from.path.reserve(steps.len())?;
    follow(tree, from, steps)
}

fn follow(tree: &Tree, start: Cursor, steps: &[Step]) -> Result<Cursor, Refusal>
    ensures { result ≢ Err NoMemory
        → rules.Leads (tree_facts tree.now) steps.now (Ok start) result }
{
    let mut cursor = start;
    let mut known = None;
    for step in steps {
        cursor = go(tree, cursor, step, &mut known)?;
    }
    Ok(cursor)
}

fn go(
    tree: &Tree,
    from: Cursor,
    step: &Step,
    known: &mut Option<KnownNode>,
) -> Result<Cursor, Refusal>
    requires { IfSome known.old (IsOnWay tree.now from.path) }
    ensures goes { result ≢ Err NoMemory → rules.Goes (tree_facts tree.now) from step.now result }
    ensures known { IfOk result (λ cursor. IfSome known.new (IsOnWay tree.now cursor.path)) }
{
    may_go_on(&from)?;
    match step {
        Step::Get(text) => to_text(from, text),
        Step::Index(index) => to_index(tree, from, *index, known),
    }
}

fn may_go_on(from: &Cursor) -> Result<(), Refusal>
    ensures { result ≡ rules.may_go_on from.now }
{
    if from.key.is_head() {
        return Err(Refusal::AtHead);
    }
    if from.path.as_slice().len() >= MAX_PATH_LEN {
        return Err(Refusal::TooDeep);
    }
    Ok(())
}

fn to_text(from: Cursor, text: &KeyText) -> Result<Cursor, Refusal>
    ensures value { UnlessMemory result (rules.at_text from text.now) }
    ensures path { IfOk result (λ cursor. cursor.path ≡ into_map from.path from.key) }
{
    if !is_short(text) {
        return Err(Refusal::BadCursor);
    }
    below_map(from, Key::Text(text.try_clone()?))
}

fn below_map(from: Cursor, key: Key) -> Result<Cursor, Refusal>
    ensures value { UnlessMemory result (Ok (record { path = into_map from.path from.key; key = key })) }
    ensures path { IfOk result (λ cursor. cursor.path ≡ into_map from.path from.key) }
{
    let mut path = from.path;
    path.push(Tagged::Map(from.key))?;
    Ok(Cursor { path, key })
}

fn below_list(from: Cursor) -> Result<Path, Refusal>
    ensures { UnlessMemory result (Ok (into_list from.path from.key)) }
{
    let mut path = from.path;
    path.push(Tagged::List(from.key))?;
    Ok(path)
}

fn to_index(
    tree: &Tree,
    from: Cursor,
    index: u64,
    known: &mut Option<KnownNode>,
) -> Result<Cursor, Refusal>
    requires { IfSome known.old (IsOnWay tree.now from.path) }
    ensures value { result ≢ Err NoMemory → (ids : List Id)
        × AreElements (tree_facts tree.now) from.path from.key ids
        × (result ≡ rules.at_index from ids index) }
    ensures known { IfOk result (λ cursor. IfSome known.new (IsOnWay tree.now cursor.path)) }
{
    let path = below_list(from)?;
    let Some(key) = key_at(tree, &path, index, known) else {
        return Err(Refusal::IndexPastEnd);
    };
    Ok(Cursor { path, key })
}

// The key to which an index leads in a list. Index 0 is the head, for which no element is read.
fn key_at(tree: &Tree, list: &Path, index: u64, known: &mut Option<KnownNode>) -> Option<Key>
    requires { IfSome known.old (IsOnWay tree.now list.now) }
    ensures value { (ids : List Id)
        × AreThose (λ i. IsPresent (tree_facts tree.now) list.now (Element i))
        ((tree_facts tree.now).order list.now) ids
        × (result ≡ rules.key_at ids index) }
    ensures known { IfSome known.new (IsOnWay tree.now list.now) }
{
    if index == 0 {
        return Some(Key::Head);
    }
    let node = list_node(tree, list.as_slice(), known)?;
    tree.nth_present_of(node, (index - 1) as usize)
        .map(Key::Element)
}

// The start, or the cause against it.
fn checked(tree: &Tree, start: Cursor) -> Result<Cursor, Refusal>
    ensures { result ≡ rules.checked_start (tree_facts tree.now) start }
{
    if start.path.as_slice().len() > MAX_PATH_LEN {
        return Err(Refusal::TooDeep);
    }
    if !exists(tree, start.path.as_slice(), &start.key) {
        return Err(Refusal::BadCursor);
    }
    Ok(start)
}

fn exists(tree: &Tree, path: &[Tagged], key: &Key) -> bool
    ensures { result ≡ (is_placed path.now key.now
        && rules.path_exists (tree_facts tree.now) [] path.now key.now) }
{
    is_placed(path, key) && all_exist(tree, path, key)
}

// Each key is within its limit, and each element is in the list at its path.
fn all_exist(tree: &Tree, path: &[Tagged], key: &Key) -> bool
    ensures { result ≡ rules.path_exists (tree_facts tree.now) [] path.now key.now }
{
    let mut known = None;
    for (depth, tag) in path.iter().enumerate() {
        if !exists_in(tree, &path[..depth], tag.key(), &mut known) {
            return false;
        }
    }
    exists_in(tree, path, key, &mut known)
}

// The key is within its limit, and an element is in the list at the path. Other keys need not
// exist.
fn exists_in(tree: &Tree, path: &[Tagged], key: &Key, known: &mut Option<KnownNode>) -> bool
    requires { IfSome known.old (IsOnWay tree.now path.now) }
    ensures value { result
        ≡ (rules.is_short key.now && rules.exists_in (tree_facts tree.now) path.now key.now) }
    ensures known { IfSome known.new (IsOnWay tree.now path.now) }
{
    match key {
        Key::Doc => true,
        Key::Text(text) => is_short(text),
        Key::Element(id) => has_element(tree, path, id, known),
        Key::Head => true,
    }
}

// Whether the list at a path has an element of this id, deleted or not.
fn has_element(tree: &Tree, path: &[Tagged], id: &Id, known: &mut Option<KnownNode>) -> bool
    requires { IfSome known.old (IsOnWay tree.now path.now) }
    ensures value { result ≡ list_any (id_eq id.now) ((tree_facts tree.now).order path.now) }
    ensures known { IfSome known.new (IsOnWay tree.now path.now) }
{
    match list_node(tree, path, known) {
        None => false,
        Some(node) => tree.has_element_of(node, id),
    }
}

fn is_short(text: &KeyText) -> bool
    ensures { result ≡ rules.is_short (Text text.now) }
{
    text.as_str().len() <= MAX_KEY_LEN
}
