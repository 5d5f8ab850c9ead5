//! What the tree says of a place, beside what the plain program says, and what the set of the
//! operations says.
use crate::history::{TEXTS, list_below, map_below};
use crate::plain_shown::plain_shown;
use crate::sites::Site;
use converge_laws::free_present;
use doc_api::{CompactText, Role, Scalars};
use doc_tree::{Entries, Tree};
use doc_view::{conflicts, items, keys, show, sum, values};
use json_scalar::{Refusal, Scalar, Val};
use lamport_id::Id;
use op_core::{Cursor, Key, KeyText, Operation, Path};
use plain_rules::PlainContext;
use std::alloc::Global;

fn has_id(entries: Entries<'_, Role>, id: &Id) -> bool {
    for entry in entries {
        if entry.0 == *id {
            return true;
        }
    }
    false
}

// The plain program has the ids of the tree at a place, and of those of the history no other.
fn marks_agree(tree: &Tree, plain: &PlainContext, site: &Site) -> bool {
    let (path, key) = (&site.cursor.path, &site.cursor.key);
    for entry in tree.present(path, key) {
        if !plain.has_mark(path.as_slice(), key, &entry.0) {
            return false;
        }
    }
    for (id, _) in site.touched.as_slice() {
        if plain.has_mark(path.as_slice(), key, id) != has_id(tree.present(path, key), id) {
            return false;
        }
    }
    true
}

// Whether these are the scalars that the plain program has at a place, in id order.
fn are_scalars(read: &[Scalar], plain: &PlainContext, site: &Site) -> bool {
    let mut rest = read.iter();
    for entry in site.touched.as_slice() {
        let path = site.cursor.path.as_slice();
        if let Some(scalar) = plain.scalar(path, &site.cursor.key, &entry.0) {
            if rest.next() != Some(scalar) {
                return false;
            }
        }
    }
    rest.next().is_none()
}

fn values_agree(
    alloc: Global,
    tree: &Tree,
    plain: &PlainContext,
    site: &Site,
) -> Result<bool, Refusal> {
    let read = values(alloc, tree, &site.cursor)?;
    Ok(are_scalars(read.as_slice(), plain, site))
}

fn sums_agree(tree: &Tree, plain: &PlainContext, site: &Site) -> Result<bool, Refusal> {
    let mut due: i128 = 0;
    for entry in site.touched.as_slice() {
        let path = site.cursor.path.as_slice();
        if let Some(number) = plain.number(path, &site.cursor.key, &entry.0) {
            due = due.wrapping_add(i128::from(*number));
        }
    }
    Ok(sum(tree, &site.cursor)? == due)
}

// Whether there is an entry, with this id and value.
fn is_entry(entry: Option<&(Id, Val)>, id: &Id, value: &Val) -> bool {
    match entry {
        Some(entry) => entry.0 == *id && entry.1 == *value,
        None => false,
    }
}

// Whether these are the values that operations have put at a place which make it present in the
// plain program, by their ids and in id order.
fn are_conflicts(read: &[(Id, Val)], plain: &PlainContext, site: &Site) -> bool {
    let mut rest = read.iter();
    for (id, value) in site.touched.as_slice() {
        if let Some(value) = value {
            if plain.has_mark(site.cursor.path.as_slice(), &site.cursor.key, id)
                && !is_entry(rest.next(), id, value)
            {
                return false;
            }
        }
    }
    rest.next().is_none()
}

fn conflicts_agree(
    alloc: Global,
    tree: &Tree,
    plain: &PlainContext,
    site: &Site,
) -> Result<bool, Refusal> {
    let read = conflicts(alloc, tree, &site.cursor)?;
    Ok(are_conflicts(read.as_slice(), plain, site))
}

// Whether the member of a map at this text is present.
fn is_member(plain: &PlainContext, map: &Path, text: &KeyText) -> Result<bool, Refusal> {
    let key = Key::Text(text.try_clone()?);
    Ok(plain.is_present(map.as_slice(), &key))
}

/// The texts of the present members of a map, in byte order.
pub fn present_texts(
    alloc: Global,
    plain: &PlainContext,
    map: &Path,
) -> Result<Vec<KeyText>, Refusal> {
    let mut present = Vec::new(alloc);
    for text in &TEXTS {
        let text = KeyText::new(alloc, text)?;
        if is_member(plain, map, &text)? {
            present.push(text)?;
        }
    }
    Ok(present)
}

// The texts of the present members of the map at a place, in byte order.
fn due_keys(alloc: Global, plain: &PlainContext, site: &Site) -> Result<Vec<KeyText>, Refusal> {
    let map = map_below(&site.cursor.path, &site.cursor.key)?;
    present_texts(alloc, plain, &map)
}

fn keys_agree(
    alloc: Global,
    tree: &Tree,
    plain: &PlainContext,
    site: &Site,
) -> Result<bool, Refusal> {
    let due = due_keys(alloc, plain, site)?;
    let read = keys(alloc, tree, &site.cursor)?;
    Ok(read.as_slice() == due.as_slice())
}

/// The present elements of a list, in its order.
pub fn present_elements(
    alloc: Global,
    plain: &PlainContext,
    list: &Path,
) -> Result<Vec<Id>, Refusal> {
    let mut present = Vec::new(alloc);
    for id in plain.elements(list.as_slice()) {
        if plain.is_present(list.as_slice(), &Key::Element(*id)) {
            present.push(*id)?;
        }
    }
    Ok(present)
}

// An item has the values that are read at its element, which is a place of its own.
fn item_agrees(
    alloc: Global,
    tree: &Tree,
    list: &Path,
    item: &(Id, Scalars),
) -> Result<bool, Refusal> {
    let cursor = Cursor {
        path: list.try_clone()?,
        key: Key::Element(item.0),
    };
    let read = values(alloc, tree, &cursor)?;
    Ok(read.as_slice() == item.1.as_slice())
}

// Whether these are the items of these elements.
fn are_items(
    alloc: Global,
    tree: &Tree,
    list: &Path,
    read: &[(Id, Scalars)],
    due: &[Id],
) -> Result<bool, Refusal> {
    if read.len() != due.len() {
        return Ok(false);
    }
    for i in 0..read.len() {
        if read[i].0 != due[i] || !item_agrees(alloc, tree, list, &read[i])? {
            return Ok(false);
        }
    }
    Ok(true)
}

fn items_agree(
    alloc: Global,
    tree: &Tree,
    plain: &PlainContext,
    site: &Site,
    list: &Path,
) -> Result<bool, Refusal> {
    let due = present_elements(alloc, plain, list)?;
    let read = items(alloc, tree, &site.cursor)?;
    are_items(alloc, tree, list, read.as_slice(), due.as_slice())
}

// The list at a place has one order in both, deleted elements included, and the same items.
fn lists_agree(
    alloc: Global,
    tree: &Tree,
    plain: &PlainContext,
    site: &Site,
) -> Result<bool, Refusal> {
    let list = list_below(&site.cursor.path, &site.cursor.key)?;
    let order = tree.elements(alloc, &list)?;
    Ok(
        order.as_slice() == plain.elements(list.as_slice())
            && items_agree(alloc, tree, plain, site, &list)?,
    )
}

// What the tree shows of the whole document.
fn show_document(alloc: Global, tree: &Tree) -> Result<CompactText, Refusal> {
    let document = Cursor {
        path: Path::new(alloc),
        key: Key::Doc,
    };
    show(alloc, tree, &document)
}

/// Whether tree and plain program show the same of the whole document, whose places these are.
pub fn show_alike(
    alloc: Global,
    tree: &Tree,
    plain: &PlainContext,
    sites: &[Site],
) -> Result<bool, Refusal> {
    let shown = show_document(alloc, tree)?;
    let due = plain_shown(alloc, plain, sites)?;
    Ok(shown.as_str() == due.as_str())
}

/// Whether tree and plain program say the same of a place: which ids make it present, its values,
/// sum, conflicts and keys, the order of its list, and its items.
pub fn agree_at(
    alloc: Global,
    tree: &Tree,
    plain: &PlainContext,
    site: &Site,
) -> Result<bool, Refusal> {
    Ok(
        marks_agree(tree, plain, site)
            && values_agree(alloc, tree, plain, site)?
            && sums_agree(tree, plain, site)?
            && conflicts_agree(alloc, tree, plain, site)?
            && keys_agree(alloc, tree, plain, site)?
            && lists_agree(alloc, tree, plain, site)?,
    )
}

/// Whether the set of the operations says of the ids at a place what the tree says.
pub fn is_free_at(tree: &Tree, ops: &[Operation], site: &Site) -> bool {
    let (path, key) = (&site.cursor.path, &site.cursor.key);
    for entry in tree.present(path, key) {
        if !free_present(ops, &site.cursor, entry.0) {
            return false;
        }
    }
    for (id, _) in site.touched.as_slice() {
        if free_present(ops, &site.cursor, *id) != has_id(tree.present(path, key), id) {
            return false;
        }
    }
    true
}
