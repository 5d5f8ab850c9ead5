//! The tree.
ghost use Rattle.std.specs.Prelude.{◌≡◌};
ghost use Rattle.crdt_rules.specs.Effect as Effect;

use crate::holds::no_fault;
use crate::written::{DEEPEST, operation};
use doc_tree::{Entries, Tree};
use json_scalar::Refusal;
use op_core::{Mutation, Operation};
use std::alloc::Global;
use std::test::Fail;

fn is_insertion(mutation: &Mutation) -> bool
    ensures { result ≡ Effect.is_insertion mutation.now }
{
    match mutation {
        Mutation::Insert(_) => true,
        _ => false,
    }
}

// Prepares and commits an operation, if it is no insertion.
fn apply(tree: &mut Tree, op: &Operation) -> Result<(), Refusal> {
    if is_insertion(op.mutation()) {
        return Err(Refusal::BadOperation);
    }
    tree.prepare(op)?;
    tree.commit(op);
    Ok(())
}

fn tree_of(alloc: Global, texts: &[&str]) -> Result<Tree, Refusal> {
    let mut tree = Tree::new(alloc)?;
    for text in texts {
        apply(&mut tree, &operation(alloc, text)?)?;
    }
    Ok(tree)
}

fn number_of<X: Drop>(entries: Entries<'_, X>) -> usize {
    let mut number: usize = 0;
    for _ in entries {
        number = number.saturating_add(1);
    }
    number
}

// How many operations make the place of another present, and how many scalars and numbers stand
// there.
fn counts(alloc: Global, texts: &[&str], at: &str) -> Result<(usize, usize, usize), Refusal> {
    let tree = tree_of(alloc, texts)?;
    let op = operation(alloc, at)?;
    let place = op.cursor();
    Ok((
        number_of(tree.present(&place.path, &place.key)),
        tree.register(&place.path, &place.key).len(),
        number_of(tree.counter(&place.path, &place.key)),
    ))
}

const FIRST: &str = r#"["op",[1,"p"],[],[[["m",0]],"k"],["assign","A"]]"#;

const SECOND: &str = r#"["op",[2,"p"],[["p",1]],[[["m",0]],"k"],["assign","B"]]"#;

const OTHER: &str = r#"["op",[2,"q"],[["p",1]],[[["m",0]],"k"],["assign","C"]]"#;

const ADDED: &str = r#"["op",[3,"q"],[["p",1],["q",2]],[[["m",0]],"k"],["add",5]]"#;

const DELETED: &str = r#"["op",[4,"q"],[["p",1],["q",3]],[[["m",0]],"k"],["delete"]]"#;

// What is counted at the place of an operation after these.
const COUNTED: [(&str, &[&str], &str, (usize, usize, usize)); 6] = [
    ("concurrent_register: the first", &[FIRST], FIRST, (1, 1, 0)),
    (
        "concurrent_register: both assignments",
        &[FIRST, SECOND, OTHER],
        FIRST,
        (2, 2, 0),
    ),
    (
        "concurrent_register: the addition",
        &[FIRST, SECOND, OTHER, ADDED],
        FIRST,
        (3, 2, 1),
    ),
    (
        "concurrent_register: the deletion",
        &[FIRST, SECOND, OTHER, ADDED, DELETED],
        FIRST,
        (1, 1, 0),
    ),
    ("deepest_place: there", &[DEEPEST], DEEPEST, (1, 1, 0)),
    ("deepest_place: above it", &[DEEPEST], FIRST, (1, 0, 0)),
];

// The name of the first row of which other counts are given, or nothing.
fn fault_of_counts(alloc: Global) -> Result<&'static str, Refusal> {
    for (name, texts, at, due) in &COUNTED {
        if counts(alloc, texts, at)? != *due {
            return Ok(name);
        }
    }
    Ok("")
}

#[test]
fn counts_at_places(rt: HostRuntime) -> Result<(), Fail> {
    no_fault(&rt, fault_of_counts(rt.alloc())?);
    Ok(())
}
