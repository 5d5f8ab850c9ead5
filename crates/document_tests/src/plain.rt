//! The plain program.
use crate::holds::{holds, no_fault};
use crate::written::{operation, operations};
use json_scalar::{Refusal, Scalar};
use lamport_id::{Id, ReplicaName};
use op_core::{Key, Operation, Tagged};
use plain_rules::{PlainContext, plain_replay};
use std::alloc::Global;
use std::test::Fail;

fn id(counter: u64, replica: &str) -> Option<Id> {
    Some(Id {
        counter,
        replica: ReplicaName::read(replica.as_bytes())?,
    })
}

// The plain program's context after operations, given by their written forms.
fn context_of(alloc: Global, texts: &[&str]) -> Result<PlainContext, Refusal> {
    let ops = operations(alloc, texts)?;
    plain_replay(alloc, ops.as_slice())
}

const ASSIGNED: &str = r#"["op",[1,"p"],[],[[["m",0],["m","a"]],"b"],["assign","v"]]"#;

const DELETED: &str = r#"["op",[2,"p"],[["p",1]],[[["m",0],["m","a"]],"b"],["delete"]]"#;

const DELETED_ABOVE: &str = r#"["op",[2,"q"],[["p",1]],[[["m",0]],"a"],["delete"]]"#;

// Operations, and whether they leave the place of the first present, and by the first.
const LEFT: [(&[&str], bool, &str); 3] = [
    (&[ASSIGNED], true, "the assignment makes nothing present"),
    (
        &[ASSIGNED, DELETED],
        false,
        "the deletion leaves something present",
    ),
    (
        &[ASSIGNED, DELETED, DELETED_ABOVE],
        false,
        "both deletions leave something present",
    ),
];

// Whether the place of the first operation is present after these, and by the first.
fn first_present(alloc: Global, texts: &[&str]) -> Result<(bool, bool), Refusal> {
    let ctx = context_of(alloc, texts)?;
    let first = operation(alloc, ASSIGNED)?;
    let cursor = first.cursor();
    let (path, key) = (cursor.path.as_slice(), &cursor.key);
    Ok((
        ctx.is_present(path, key),
        ctx.has_mark(path, key, &first.id()),
    ))
}

// What is wrong after the deletions, or nothing.
fn fault_of_deletes(alloc: Global) -> Result<&'static str, Refusal> {
    for (texts, due, what) in &LEFT {
        if first_present(alloc, texts)? != (*due, *due) {
            return Ok(what);
        }
    }
    Ok("")
}

#[test]
fn concurrent_deletes(rt: HostRuntime) -> Result<(), Fail> {
    no_fault(&rt, fault_of_deletes(rt.alloc())?);
    Ok(())
}

const ADDED: [&str; 3] = [
    r#"["op",[1,"p"],[],[[["m",0]],"n"],["add",5]]"#,
    r#"["op",[1,"q"],[],[[["m",0]],"n"],["add",-7]]"#,
    r#"["op",[2,"p"],[["p",1]],[[["m",0]],"n"],["assign",12]]"#,
];

// What is wrong with the entries at the place of the additions, or nothing.
fn fault_of_entries(ctx: &PlainContext, path: &[Tagged], key: &Key) -> Option<&'static str> {
    let p = id(1, "p")?;
    let q = id(1, "q")?;
    let later = id(2, "p")?;
    Some(if ctx.number(path, key, &p).is_some() {
        "the assignment leaves the number that it covers"
    } else if ctx.number(path, key, &q) != Some(&-7) {
        "the number that the assignment doesn't cover isn't there"
    } else if ctx.scalar(path, key, &later) != Some(&Scalar::Int(12)) {
        "the scalar isn't there"
    } else if ctx.scalar(path, key, &q).is_some() {
        "an addition has a scalar"
    } else {
        ""
    })
}

// What is wrong after the additions and the assignment, or nothing.
fn fault_of_additions(alloc: Global) -> Result<&'static str, Refusal> {
    let ctx = context_of(alloc, &ADDED)?;
    let first = operation(alloc, ADDED[0])?;
    let cursor = first.cursor();
    Ok(fault_of_entries(&ctx, cursor.path.as_slice(), &cursor.key).unwrap_or(
        "a name can't be read",
    ))
}

#[test]
fn counter_and_scalar(rt: HostRuntime) -> Result<(), Fail> {
    no_fault(&rt, fault_of_additions(rt.alloc())?);
    Ok(())
}

const EDITS: [&str; 7] = [
    r#"["op",[3,"o"],[["q",2]],[[["m",0],["l","l"]],1],["insert","a"]]"#,
    r#"["op",[4,"o"],[["o",3]],[[["m",0],["l","l"]],[3,"o"]],["insert","b"]]"#,
    r#"["op",[5,"o"],[["o",4]],[[["m",0],["l","l"]],[4,"o"]],["insert","c"]]"#,
    r#"["op",[6,"q"],[["o",5]],[[["m",0],["l","l"]],[3,"o"]],["insert","y"]]"#,
    r#"["op",[6,"p"],[["o",5]],[[["m",0],["l","l"]],[4,"o"]],["delete"]]"#,
    r#"["op",[7,"p"],[["o",5],["p",6]],[[["m",0],["l","l"]],[3,"o"]],["insert","x"]]"#,
    r#"["op",[7,"q"],[["o",5],["q",6]],[[["m",0],["l","l"]],[5,"o"]],["insert","z"]]"#,
];

const EDITED: [(u64, &str); 6] = [(3, "o"), (7, "p"), (6, "q"), (4, "o"), (5, "o"), (7, "q")];

// Whether these are the ids due.
fn are_ids(found: &[Id], due: &[(u64, &str)]) -> bool {
    if found.len() != due.len() {
        return false;
    }
    for i in 0..found.len() {
        if Some(found[i]) != id(due[i].0, due[i].1) {
            return false;
        }
    }
    true
}

// Whether the list of the edits has the order that is due.
fn has_order(alloc: Global) -> Result<bool, Refusal> {
    let ctx = context_of(alloc, &EDITS)?;
    let first = operation(alloc, EDITS[0])?;
    Ok(are_ids(ctx.elements(first.cursor().path.as_slice()), &EDITED))
}

#[test]
fn concurrent_list_edits(rt: HostRuntime) -> Result<(), Fail> {
    holds(&rt, has_order(rt.alloc())?, "the list has another order");
    Ok(())
}
