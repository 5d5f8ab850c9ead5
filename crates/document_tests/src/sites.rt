//! The places of a history, each with the operations that pass it or end there.
ghost use Rattle.std.specs.Prelude.{◌≤◌, ◌<◌, length, IfSome};

use crate::history::end_key;
use json_scalar::{Refusal, Val};
use lamport_id::Id;
use op_core::{Cursor, Key, Mutation, Operation, Path, Tagged};
use std::alloc::Global;

/// A place, and the operations that pass it or end there: their ids in id order, each with the
/// value that it puts there.
#[derive(Drop)]
pub struct Site {
    pub cursor: Cursor,
    pub touched: Vec<(Id, Option<Val>)>,
}

// The value that an operation puts where it ends.
fn value_put(op: &Operation) -> Option<&Val> {
    match op.mutation() {
        Mutation::Assign(val) | Mutation::Insert(val) => Some(val),
        Mutation::Delete | Mutation::Add(_) => None,
    }
}

fn path_of(alloc: Global, keys: &[Tagged]) -> Result<Path, Refusal> {
    let mut path = Path::new(alloc);
    for key in keys {
        path.push(key.try_clone()?)?;
    }
    Ok(path)
}

fn is_at(site: &Site, path: &[Tagged], key: &Key) -> bool {
    site.cursor.key == *key && site.cursor.path.as_slice() == path
}

fn position(sites: &[Site], path: &[Tagged], key: &Key) -> Option<usize>
    ensures { IfSome result (λ i. i < length sites.now) }
{
    sites.iter().position(|site| is_at(site, path, key))
}

/// The operations that pass a place or end there, by their ids, each with the value that it puts
/// there.
pub fn touched_at<'a>(sites: &'a [Site], path: &[Tagged], key: &Key) -> &'a [(Id, Option<Val>)] {
    match position(sites, path, key) {
        Some(at) => sites[at].touched.as_slice(),
        None => &[],
    }
}

// How many ids are less.
fn rank(touched: &[(Id, Option<Val>)], id: &Id) -> usize
    ensures { result ≤ length touched.now }
{
    touched.iter().take_while(|entry| entry.0 < *id).count()
}

fn copy_of(value: Option<&Val>) -> Result<Option<Val>, Refusal> {
    match value {
        Some(value) => Ok(Some(value.try_clone()?)),
        None => Ok(None),
    }
}

fn enter(site: &mut Site, id: &Id, value: Option<&Val>) -> Result<(), Refusal> {
    let at = rank(site.touched.as_slice(), id);
    site.touched.insert(at, (*id, copy_of(value)?))?;
    Ok(())
}

fn cursor_of(alloc: Global, path: &[Tagged], key: &Key) -> Result<Cursor, Refusal> {
    Ok(Cursor {
        path: path_of(alloc, path)?,
        key: key.try_clone()?,
    })
}

// An operation passes a place or ends there.
fn touch(
    alloc: Global,
    sites: &mut Vec<Site>,
    path: &[Tagged],
    key: &Key,
    id: &Id,
    value: Option<&Val>,
) -> Result<(), Refusal> {
    if let Some(at) = position(sites.as_slice(), path, key) {
        return enter(&mut sites[at], id, value);
    }
    let mut site = Site {
        cursor: cursor_of(alloc, path, key)?,
        touched: Vec::new(alloc),
    };
    enter(&mut site, id, value)?;
    sites.push(site)?;
    Ok(())
}

// Enters the places that an operation passes.
fn add_passed(
    alloc: Global,
    sites: &mut Vec<Site>,
    path: &[Tagged],
    id: &Id,
) -> Result<(), Refusal> {
    for i in 0..path.len() {
        touch(alloc, sites, &path[..i], path[i].key(), id, None)?;
    }
    Ok(())
}

/// Enters the places that an operation passes, and the one where it ends.
pub fn add_operation(alloc: Global, sites: &mut Vec<Site>, op: &Operation) -> Result<(), Refusal> {
    let path = op.cursor().path.as_slice();
    let id = op.id();
    add_passed(alloc, sites, path, &id)?;
    let key = end_key(op)?;
    touch(alloc, sites, path, &key, &id, value_put(op))
}
