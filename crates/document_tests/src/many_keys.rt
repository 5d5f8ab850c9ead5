//! A map of so many keys that its node's children are in several blocks, made from the last key
//! to the first.
use crate::holds::no_fault;
use crate::views::at;
use crate::written::push_next;
use converge_laws::replay_all;
use doc_api::Texts;
use doc_view::keys;
use json_scalar::Refusal;
use op_core::{KeyText, Operation};
use std::alloc::Global;
use std::test::Fail;

// An edit of the map `big`: an assignment at the key of this number, or the deletion of it all.
#[derive(Clone, Copy)]
enum Edit {
    Assign(u64),
    Delete,
}

// What is edited once there are the keys k100 to k399, and the keys that are left: their first
// number, how far they are apart, and how many they are.
const EDITED: [(&str, &[Edit], (u64, u64, u64)); 5] = [
    ("keys_made_from_the_last_to_the_first", &[], (100, 1, 300)),
    ("all_keys_deleted_twice: once", &[Edit::Delete], (0, 0, 0)),
    (
        "all_keys_deleted_twice: twice",
        &[Edit::Delete, Edit::Delete],
        (0, 0, 0),
    ),
    (
        "both_ends_made_again_and_deleted: made again",
        &[Edit::Delete, Edit::Assign(399), Edit::Assign(100)],
        (100, 299, 2),
    ),
    (
        "both_ends_made_again_and_deleted: deleted",
        &[
            Edit::Delete,
            Edit::Assign(399),
            Edit::Assign(100),
            Edit::Delete,
        ],
        (0, 0, 0),
    ),
];

fn push_edit(alloc: Global, ops: &mut Vec<Operation>, edit: Edit) -> Result<(), Refusal> {
    match edit {
        Edit::Assign(key) => {
            let cursor = format!(in alloc; "[[\"m\",0],[\"m\",\"big\"]],\"k{key}\"")?;
            push_next(alloc, ops, cursor.as_str(), r#""assign",7"#)
        }
        Edit::Delete => push_next(alloc, ops, r#"[["m",0]],"big""#, r#""delete""#),
    }
}

// Assignments at 300 keys, from k399 down to k100, and edits behind them.
fn falling_and(alloc: Global, edits: &[Edit]) -> Result<Vec<Operation>, Refusal> {
    let mut ops = Vec::new(alloc);
    for before in 0..300 {
        let key = 399_u64.saturating_sub(before);
        push_edit(alloc, &mut ops, Edit::Assign(key))?;
    }
    for edit in edits {
        push_edit(alloc, &mut ops, *edit)?;
    }
    Ok(ops)
}

// The keys of the map after operations.
fn keys_after(alloc: Global, ops: &[Operation]) -> Result<Texts, Refusal> {
    let tree = replay_all(alloc, ops)?;
    let cursor = at(alloc, &tree, &["big"])?;
    keys(alloc, &tree, &cursor)
}

// Whether a key is that of a number.
fn is_of(alloc: Global, text: &KeyText, number: u64) -> Result<bool, Refusal> {
    let due = format!(in alloc; "k{number}")?;
    Ok(text.as_str() == due.as_str())
}

// How many keys there are, if they are that of the first number and those so far apart behind it.
fn count_rising(
    alloc: Global,
    texts: &[KeyText],
    first: u64,
    apart: u64,
) -> Result<Option<u64>, Refusal> {
    let mut count: u64 = 0;
    let mut number = first;
    for text in texts {
        if !is_of(alloc, text, number)? {
            return Ok(None);
        }
        count = count.saturating_add(1);
        number = number.saturating_add(apart);
    }
    Ok(Some(count))
}

// How many keys there are after these edits, if they are those.
fn count_left(
    alloc: Global,
    edits: &[Edit],
    first: u64,
    apart: u64,
) -> Result<Option<u64>, Refusal> {
    let ops = falling_and(alloc, edits)?;
    let texts = keys_after(alloc, ops.as_slice())?;
    count_rising(alloc, texts.as_slice(), first, apart)
}

// The name of the first row after which other keys are left, or nothing.
fn fault_of_edits(alloc: Global) -> Result<&'static str, Refusal> {
    for (name, edits, (first, apart, count)) in &EDITED {
        if count_left(alloc, edits, *first, *apart)? != Some(*count) {
            return Ok(name);
        }
    }
    Ok("")
}

#[test]
fn many_keys_edited(rt: HostRuntime) -> Result<(), Fail> {
    no_fault(&rt, fault_of_edits(rt.alloc())?);
    Ok(())
}
