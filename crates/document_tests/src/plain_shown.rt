//! What the plain program has at a place and below it, written by the rules of `show`.
use crate::alike::{present_elements, present_texts};
use crate::history::{list_below, map_below};
use crate::sites::{Site, touched_at};
use json_scalar::{Refusal, Scalar, Val};
use lamport_id::Id;
use op_core::{Key, KeyText, Path, Tagged};
use plain_rules::PlainContext;
use std::alloc::Global;

// How deep elements may lie in one another: deeper than any of the history.
const DEEPEST: usize = 16;

// A plain context, with the places of its operations.
#[derive(Clone, Copy)]
struct History<'a> {
    alloc: Global,
    plain: &'a PlainContext,
    sites: &'a [Site],
}

// Writes the next item of an array, or the first of all. A text that begins with `[` and isn't
// closed opens an array.
fn item(text: &mut String, part: &str) -> Result<(), Refusal> {
    if !matches!(text.as_bytes().last(), None | Some(b'[')) {
        text.push_str(",")?;
    }
    text.push_str(part)?;
    Ok(())
}

fn close(text: &mut String) -> Result<(), Refusal> {
    text.push_str("]")?;
    Ok(())
}

// A scalar of the history, of whose texts none has a character that JSON escapes.
fn scalar_text(alloc: Global, scalar: &Scalar) -> Result<String, Refusal> {
    Ok(match scalar {
        Scalar::Int(number) => number.to_string(alloc)?,
        Scalar::Text(part) => format!(in alloc; "\"{}\"", part.as_str())?,
        Scalar::Bool(is) => is.to_string(alloc)?,
        Scalar::Null => String::from_str(alloc, "null")?,
    })
}

fn write_entry(alloc: Global, text: &mut String, id: &Id, scalar: &Scalar) -> Result<(), Refusal> {
    let value = scalar_text(alloc, scalar)?;
    let replica = id.replica.as_str();
    let part = format!(in alloc; "[\"val\",[{},\"{replica}\"],{value}]", id.counter)?;
    item(text, part.as_str())
}

// One part for each entry of the register.
fn write_register(
    text: &mut String,
    history: History<'_>,
    path: &[Tagged],
    key: &Key,
) -> Result<(), Refusal> {
    for entry in touched_at(history.sites, path, key) {
        if let Some(scalar) = history.plain.scalar(path, key, &entry.0) {
            write_entry(history.alloc, text, &entry.0, scalar)?;
        }
    }
    Ok(())
}

// The sum of the counter, if it has an entry.
fn sum_of(history: History<'_>, path: &[Tagged], key: &Key) -> Option<i128> {
    let mut sum: Option<i128> = None;
    for entry in touched_at(history.sites, path, key) {
        if let Some(number) = history.plain.number(path, key, &entry.0) {
            sum = Some(sum.unwrap_or(0).wrapping_add(i128::from(*number)));
        }
    }
    sum
}

fn write_sum(
    text: &mut String,
    history: History<'_>,
    path: &[Tagged],
    key: &Key,
) -> Result<(), Refusal> {
    match sum_of(history, path, key) {
        Some(sum) => {
            let part = format!(in history.alloc; "[\"cnt\",\"{sum}\"]")?;
            item(text, part.as_str())
        }
        None => Ok(()),
    }
}

// What is at a place itself, the last of its parts.
fn end_element(
    text: &mut String,
    history: History<'_>,
    path: &[Tagged],
    key: &Key,
) -> Result<(), Refusal> {
    write_register(text, history, path, key)?;
    write_sum(text, history, path, key)?;
    close(text)
}

fn puts(entry: &(Id, Option<Val>), val: &Val) -> bool {
    match &entry.1 {
        Some(put) => put == val,
        None => false,
    }
}

// Whether an operation that makes a place present has put this value there.
fn is_put(history: History<'_>, path: &[Tagged], key: &Key, val: &Val) -> bool {
    for entry in touched_at(history.sites, path, key) {
        if puts(entry, val) && history.plain.has_mark(path, key, &entry.0) {
            return true;
        }
    }
    false
}

// A member of a map, by its text, which has no character that JSON escapes.
#[cycle(shown)]
fn write_member(
    text: &mut String,
    history: History<'_>,
    map: &Path,
    member: &KeyText,
    depth: usize,
) -> Result<(), Refusal> {
    let name = format!(in history.alloc; "[\"{}\"", member.as_str())?;
    item(text, name.as_str())?;
    write_element(text, history, map, &Key::Text(member.try_clone()?), depth)?;
    close(text)
}

// The members of a map, as its branch.
#[cycle(shown)]
fn write_members(
    text: &mut String,
    history: History<'_>,
    map: &Path,
    members: &[KeyText],
    depth: usize,
) -> Result<(), Refusal> {
    item(text, r#"["map",["#)?;
    for member in members {
        write_member(text, history, map, member, depth)?;
    }
    close(text)?;
    close(text)
}

// The map at a place, if it has a present member or was put there.
#[cycle(shown)]
fn write_map(
    text: &mut String,
    history: History<'_>,
    path: &Path,
    key: &Key,
    depth: usize,
) -> Result<(), Refusal> {
    let map = map_below(path, key)?;
    let members = present_texts(history.alloc, history.plain, &map)?;
    if members.is_empty() && !is_put(history, path.as_slice(), key, &Val::EmptyMap) {
        return Ok(());
    }
    write_members(text, history, &map, members.as_slice(), depth)
}

// The elements of a list, as its branch.
#[cycle(shown)]
fn write_elements(
    text: &mut String,
    history: History<'_>,
    list: &Path,
    elements: &[Id],
    depth: usize,
) -> Result<(), Refusal> {
    item(text, r#"["list",["#)?;
    for id in elements {
        write_element(text, history, list, &Key::Element(*id), depth)?;
    }
    close(text)?;
    close(text)
}

// The list at a place, if it has a present element or was put there.
#[cycle(shown)]
fn write_list(
    text: &mut String,
    history: History<'_>,
    path: &Path,
    key: &Key,
    depth: usize,
) -> Result<(), Refusal> {
    let list = list_below(path, key)?;
    let elements = present_elements(history.alloc, history.plain, &list)?;
    if elements.is_empty() && !is_put(history, path.as_slice(), key, &Val::EmptyList) {
        return Ok(());
    }
    write_elements(text, history, &list, elements.as_slice(), depth)
}

// All that is at a place and below it, so deep at most.
#[cycle(shown)]
fn write_element(
    text: &mut String,
    history: History<'_>,
    path: &Path,
    key: &Key,
    depth: usize,
) -> Result<(), Refusal> {
    if depth == 0 {
        return Err(Refusal::TooDeep);
    }
    item(text, "[")?;
    write_map(text, history, path, key, depth - 1)?;
    write_list(text, history, path, key, depth - 1)?;
    end_element(text, history, path.as_slice(), key)
}

/// What the plain program shows of a whole document, with the places of its operations.
pub fn plain_shown(alloc: Global, plain: &PlainContext, sites: &[Site]) -> Result<String, Refusal> {
    let mut text = String::new(alloc);
    let history = History {
        alloc,
        plain,
        sites,
    };
    write_element(&mut text, history, &Path::new(alloc), &Key::Doc, DEEPEST)?;
    Ok(text)
}
