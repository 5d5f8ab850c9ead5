//! A long history of four replicas, made by a fixed rule: each changes what it has seen, and now
//! and then takes in all that another has.
ghost use Rattle.std.specs.Prelude.{◌<◌};

use crate::rule::Rule;
use json_scalar::{Refusal, Scalar, Text, Val};
use lamport_id::{Id, ReplicaName};
use op_core::{Cursor, Front, Key, KeyText, Mutation, Operation, Path, Tagged};
use std::alloc::Global;

// The names of the replicas, in byte order.
const REPLICAS: [&str; 4] = ["a", "b", "c", "d"];

/// The texts of the members of maps, in byte order.
pub const TEXTS: [&str; 4] = ["k", "l", "m", "n"];

// The longest path from which a place below is made.
const DEEP: usize = 4;

// For each replica, the counters of the last operations that it has of the four, or 0.
#[derive(Drop)]
struct Seen {
    counters: [[u64; 4]; 4],
}

fn name_of(text: &str) -> Result<ReplicaName, Refusal> {
    match ReplicaName::read(text.as_bytes()) {
        Some(name) => Ok(name),
        None => Err(Refusal::BadOperation),
    }
}

fn push_entry(
    entries: &mut Vec<(ReplicaName, u64)>,
    text: &str,
    counter: u64,
) -> Result<(), Refusal> {
    if counter > 0 {
        entries.push((name_of(text)?, counter))?;
    }
    Ok(())
}

impl Seen {
    // The front of all that a replica has.
    fn front(&self, alloc: Global, at: usize) -> Result<Front, Refusal>
        requires { at < 4 }
    {
        let mut entries = Vec::new(alloc);
        for (text, counter) in REPLICAS.iter().zip(self.counters[at].iter()) {
            push_entry(&mut entries, text, *counter)?;
        }
        Front::from_pairs(alloc, &entries)
    }

    // A replica takes in all that another has.
    fn take_in(&mut self, to: usize, from: usize)
        requires to { to < 4 }
        requires from { from < 4 }
    {
        let theirs = self.counters[from];
        let own = &mut self.counters[to];
        for i in 0..4 {
            if own[i] < theirs[i] {
                own[i] = theirs[i];
            }
        }
    }
}

fn value(alloc: Global, rule: &mut Rule) -> Result<Val, Refusal> {
    match rule.below(6) {
        0 => Ok(Val::EmptyMap),
        1 => Ok(Val::EmptyList),
        2 => Ok(Val::Scalar(Scalar::Null)),
        3 => Ok(Val::Scalar(Scalar::Bool(rule.below(2) == 0))),
        4 => Ok(Val::Scalar(Scalar::Text(Text::new(alloc, "t")?))),
        _ => Ok(Val::Scalar(Scalar::Int(rule.below(1000) as i64))),
    }
}

// What may be done to a member of a map, and to an element.
fn change(alloc: Global, rule: &mut Rule) -> Result<Mutation, Refusal> {
    match rule.below(6) {
        0 => Ok(Mutation::Delete),
        1 => Ok(Mutation::Add(rule.below(9) as i64)),
        _ => Ok(Mutation::Assign(value(alloc, rule)?)),
    }
}

fn mutation(alloc: Global, rule: &mut Rule, key: &Key) -> Result<Mutation, Refusal> {
    let inserts = match key {
        Key::Doc | Key::Text(_) => false,
        Key::Element(_) => rule.below(2) == 0,
        Key::Head => true,
    };
    if inserts {
        Ok(Mutation::Insert(value(alloc, rule)?))
    } else {
        change(alloc, rule)
    }
}

// A member of the map to which a path leads.
fn member(alloc: Global, rule: &mut Rule, path: Path) -> Result<Cursor, Refusal> {
    let text = TEXTS[rule.below(4) as usize];
    Ok(Cursor {
        path,
        key: Key::Text(KeyText::new(alloc, text)?),
    })
}

fn below(path: &Path, tagged: Tagged) -> Result<Path, Refusal> {
    let mut path = path.try_clone()?;
    path.push(tagged)?;
    Ok(path)
}

/// The path into the map at a place.
pub fn map_below(path: &Path, key: &Key) -> Result<Path, Refusal> {
    below(path, Tagged::Map(key.try_clone()?))
}

/// The path into the list at a place.
pub fn list_below(path: &Path, key: &Key) -> Result<Path, Refusal> {
    below(path, Tagged::List(key.try_clone()?))
}

/// The key where an operation ends: an insertion ends at the element that it makes.
pub fn end_key(op: &Operation) -> Result<Key, Refusal> {
    match op.mutation() {
        Mutation::Insert(_) => Ok(Key::Element(op.id())),
        Mutation::Assign(_) | Mutation::Delete | Mutation::Add(_) => op.cursor().key.try_clone(),
    }
}

// The place where an operation ends, a member of the map there, or the head of the list there.
fn place_at(alloc: Global, rule: &mut Rule, op: &Operation) -> Result<Cursor, Refusal> {
    let path = &op.cursor().path;
    let key = end_key(op)?;
    let is_deep = path.as_slice().len() >= DEEP;
    match rule.below(8) {
        0..=2 if !is_deep => member(alloc, rule, below(path, Tagged::Map(key))?),
        3..=5 if !is_deep => Ok(Cursor {
            path: below(path, Tagged::List(key))?,
            key: Key::Head,
        }),
        _ => Ok(Cursor {
            path: path.try_clone()?,
            key,
        }),
    }
}

// A number below the bound, of which lesser ones come more often.
fn early(rule: &mut Rule, bound: u64) -> u64
    requires { 0 < bound }
    ensures { result < bound }
{
    let some = rule.below(bound) + 1;
    rule.below(some)
}

// One of the operations that a front covers, or none.
fn pick<'a>(rule: &mut Rule, front: &Front, ops: &'a [Operation]) -> Option<&'a Operation> {
    if ops.is_empty() {
        return None;
    }
    for _ in 0..8 {
        let op = &ops[early(rule, ops.len() as u64) as usize];
        if front.covers(op.id()) {
            return Some(op);
        }
    }
    None
}

// A place that a replica knows: near where an operation ended that it has, or a member of the
// document.
fn place(
    alloc: Global,
    rule: &mut Rule,
    front: &Front,
    ops: &[Operation],
) -> Result<Cursor, Refusal> {
    match pick(rule, front, ops) {
        Some(op) => place_at(alloc, rule, op),
        None => member(
            alloc,
            rule,
            below(&Path::new(alloc), Tagged::Map(Key::Doc))?,
        ),
    }
}

// The id of the next operation of a replica that has all of a front.
fn next_id(name: &str, front: &Front) -> Result<Id, Refusal> {
    match Id::successor(front.max_counter(), name_of(name)?) {
        Some(id) => Ok(id),
        None => Err(Refusal::LogFull),
    }
}

// A place that a replica knows, and what it does there.
fn step(
    alloc: Global,
    rule: &mut Rule,
    front: &Front,
    ops: &[Operation],
) -> Result<(Cursor, Mutation), Refusal> {
    let cursor = place(alloc, rule, front, ops)?;
    let mutation = mutation(alloc, rule, &cursor.key)?;
    Ok((cursor, mutation))
}

// The next operation of a replica that has all of a front.
fn next_operation(
    alloc: Global,
    rule: &mut Rule,
    name: &str,
    front: Front,
    ops: &[Operation],
) -> Result<Operation, Refusal> {
    let id = next_id(name, &front)?;
    let (cursor, mutation) = step(alloc, rule, &front, ops)?;
    Operation::shaped(alloc, id, front, cursor, mutation)
}

// One of the replicas makes the next operation, and sometimes another takes in all that it has.
fn turn(
    alloc: Global,
    rule: &mut Rule,
    seen: &mut Seen,
    ops: &[Operation],
) -> Result<Operation, Refusal> {
    let at = rule.below(4) as usize;
    let front = seen.front(alloc, at)?;
    let op = next_operation(alloc, rule, REPLICAS[at], front, ops)?;
    seen.counters[at][at] = op.id().counter;
    if rule.below(16) == 0 {
        seen.take_in(rule.below(4) as usize, at);
    }
    Ok(op)
}

/// The operations of four replicas in the order in which they are made, so many.
pub fn make_history(alloc: Global, count: usize) -> Result<Vec<Operation>, Refusal> {
    let mut rule = Rule::new(2026);
    let mut seen = Seen {
        counters: [[0; 4]; 4],
    };
    let mut ops = Vec::new(alloc);
    for _ in 0..count {
        let op = turn(alloc, &mut rule, &mut seen, ops.as_slice())?;
        ops.push(op)?;
    }
    Ok(ops)
}
