//! All readings at a place.
use doc_api::{CompactText, Conflicts, Items, Scalars, Step, Texts};
use doc_tree::Tree;
use doc_view::{conflicts, items, keys, resolve, show, sum, values};
use json_scalar::{Refusal, Scalar, Val};
use lamport_id::Id;
use op_core::{Cursor, Key, KeyText, Path};
use std::alloc::Global;

/// What is due of one reading at a place.
#[derive(Clone, Copy)]
pub enum Due<'a> {
    Keys(&'a [&'a str]),
    /// The values, each of which is a text.
    Values(&'a [&'a str]),
    /// The items by their ids, each with one text.
    Items(&'a [(u64, &'a str, &'a str)]),
    /// The conflicts by their ids, each with a text.
    Conflicts(&'a [(u64, &'a str, &'a str)]),
    /// All that is shown.
    Shown(&'a str),
}

// The keys and the items at a place.
#[derive(Drop)]
struct Below {
    keys: Texts,
    items: Items,
}

// The values, the conflicts and the sum at a place.
#[derive(Drop)]
struct Here {
    values: Scalars,
    conflicts: Conflicts,
    sum: i128,
}

/// All that is read at a place.
#[derive(Drop)]
pub struct Readings {
    below: Below,
    here: Here,
    shown: CompactText,
}

fn push_step(alloc: Global, steps: &mut Vec<Step>, name: &str) -> Result<(), Refusal> {
    steps.push(Step::Get(KeyText::new(alloc, name)?))?;
    Ok(())
}

// The place to which names lead from the document.
fn place(alloc: Global, tree: &Tree, names: &[&str]) -> Result<Cursor, Refusal> {
    let mut steps = Vec::new(alloc);
    for name in names {
        push_step(alloc, &mut steps, name)?;
    }
    let start = Cursor {
        path: Path::new(alloc),
        key: Key::Doc,
    };
    resolve(tree, start, steps.as_slice())
}

fn read_below(alloc: Global, tree: &Tree, cursor: &Cursor) -> Result<Below, Refusal> {
    Ok(Below {
        keys: keys(alloc, tree, cursor)?,
        items: items(alloc, tree, cursor)?,
    })
}

fn read_here(alloc: Global, tree: &Tree, cursor: &Cursor) -> Result<Here, Refusal> {
    let sum = sum(tree, cursor)?;
    Ok(Here {
        values: values(alloc, tree, cursor)?,
        conflicts: conflicts(alloc, tree, cursor)?,
        sum,
    })
}

fn read_all(alloc: Global, tree: &Tree, cursor: &Cursor) -> Result<Readings, Refusal> {
    Ok(Readings {
        below: read_below(alloc, tree, cursor)?,
        here: read_here(alloc, tree, cursor)?,
        shown: show(alloc, tree, cursor)?,
    })
}

/// What the tree says at the place to which names lead.
pub fn read_at(alloc: Global, tree: &Tree, names: &[&str]) -> Result<Readings, Refusal> {
    let cursor = place(alloc, tree, names)?;
    read_all(alloc, tree, &cursor)
}

fn is_id(id: &Id, counter: u64, replica: &str) -> bool {
    id.counter == counter && id.replica.as_str() == replica
}

fn is_text(scalar: &Scalar, text: &str) -> bool {
    match scalar {
        Scalar::Text(found) => found.as_str() == text,
        _ => false,
    }
}

fn puts_text(val: &Val, text: &str) -> bool {
    match val {
        Val::Scalar(scalar) => is_text(scalar, text),
        Val::EmptyMap | Val::EmptyList => false,
    }
}

fn are_texts(scalars: &[Scalar], texts: &[&str]) -> bool {
    if scalars.len() != texts.len() {
        return false;
    }
    for i in 0..scalars.len() {
        if !is_text(&scalars[i], texts[i]) {
            return false;
        }
    }
    true
}

fn is_item(item: &(Id, Scalars), due: &(u64, &str, &str)) -> bool {
    is_id(&item.0, due.0, due.1) && are_texts(item.1.as_slice(), &[due.2])
}

fn is_conflict(entry: &(Id, Val), due: &(u64, &str, &str)) -> bool {
    is_id(&entry.0, due.0, due.1) && puts_text(&entry.1, due.2)
}

fn is_same_item(item: &(Id, Scalars), other: &(Id, Scalars)) -> bool {
    item.0 == other.0 && item.1.as_slice() == other.1.as_slice()
}

fn are_same_items(items: &[(Id, Scalars)], others: &[(Id, Scalars)]) -> bool {
    if items.len() != others.len() {
        return false;
    }
    for i in 0..items.len() {
        if !is_same_item(&items[i], &others[i]) {
            return false;
        }
    }
    true
}

fn are_keys(keys: &[KeyText], texts: &[&str]) -> bool {
    if keys.len() != texts.len() {
        return false;
    }
    for i in 0..keys.len() {
        if keys[i].as_str() != texts[i] {
            return false;
        }
    }
    true
}

fn are_items(items: &[(Id, Scalars)], due: &[(u64, &str, &str)]) -> bool {
    if items.len() != due.len() {
        return false;
    }
    for i in 0..items.len() {
        if !is_item(&items[i], &due[i]) {
            return false;
        }
    }
    true
}

fn are_conflicts(entries: &[(Id, Val)], due: &[(u64, &str, &str)]) -> bool {
    if entries.len() != due.len() {
        return false;
    }
    for i in 0..entries.len() {
        if !is_conflict(&entries[i], &due[i]) {
            return false;
        }
    }
    true
}

impl Readings {
    // Whether a reading is as it is due.
    fn has(&self, due: &Due<'_>) -> bool {
        match due {
            Due::Keys(texts) => are_keys(self.below.keys.as_slice(), texts),
            Due::Values(texts) => are_texts(self.here.values.as_slice(), texts),
            Due::Items(items) => are_items(self.below.items.as_slice(), items),
            Due::Conflicts(entries) => are_conflicts(self.here.conflicts.as_slice(), entries),
            Due::Shown(text) => self.shown.as_str() == *text,
        }
    }

    /// Whether each of these readings is as it is due.
    pub fn has_all(&self, due: &[Due<'_>]) -> bool {
        for reading in due {
            if !self.has(reading) {
                return false;
            }
        }
        true
    }

    /// Whether all readings are the same.
    pub fn is_same(&self, other: &Readings) -> bool {
        self.below.is_same(&other.below)
            && self.here.is_same(&other.here)
            && self.shown.as_str() == other.shown.as_str()
    }
}

impl Below {
    fn is_same(&self, other: &Below) -> bool {
        self.keys.as_slice() == other.keys.as_slice()
            && are_same_items(self.items.as_slice(), other.items.as_slice())
    }
}

impl Here {
    fn is_same(&self, other: &Here) -> bool {
        self.values.as_slice() == other.values.as_slice()
            && self.conflicts.as_slice() == other.conflicts.as_slice()
            && self.sum == other.sum
    }
}
