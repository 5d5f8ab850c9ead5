//! A history of 2,000 operations of four replicas: maps, lists, deletes, additions, and much that
//! is concurrent.
use crate::alike::{agree_at, is_free_at, show_alike};
use crate::history::make_history;
use crate::holds::no_fault_of;
use crate::sites::{Site, add_operation};
use converge_laws::replay_all;
use doc_tree::Tree;
use doc_view::conflicts;
use json_scalar::Refusal;
use op_core::{Mutation, Operation};
use plain_rules::{PlainContext, plain_replay};
use std::alloc::Global;
use std::test::Fail;

// How many operations the history has.
const COUNT: usize = 2000;

fn sites_of(alloc: Global, ops: &[Operation]) -> Result<Vec<Site>, Refusal> {
    let mut sites = Vec::new(alloc);
    for op in ops {
        add_operation(alloc, &mut sites, op)?;
    }
    Ok(sites)
}

// Whether tree and plain program say the same at each of some places.
fn agree_at_each(
    alloc: Global,
    tree: &Tree,
    plain: &PlainContext,
    sites: &[Site],
) -> Result<bool, Refusal> {
    for site in sites {
        if !agree_at(alloc, tree, plain, site)? {
            return Ok(false);
        }
    }
    Ok(true)
}

// Whether tree and plain program say the same of a document whose places these are: at each, and
// shown as a whole.
fn agree_of_all(
    alloc: Global,
    tree: &Tree,
    plain: &PlainContext,
    sites: &[Site],
) -> Result<bool, Refusal> {
    Ok(agree_at_each(alloc, tree, plain, sites)? && show_alike(alloc, tree, plain, sites)?)
}

// Whether the tree of some operations says what the plain program says, at each place that one
// passes or ends at, and shows the same of the whole document.
fn agree_everywhere(alloc: Global, ops: &[Operation]) -> Result<bool, Refusal> {
    let tree = replay_all(alloc, ops)?;
    let plain = plain_replay(alloc, ops)?;
    let sites = sites_of(alloc, ops)?;
    agree_of_all(alloc, &tree, &plain, sites.as_slice())
}

fn agree_each_hundred(alloc: Global, ops: &[Operation]) -> Result<bool, Refusal> {
    for i in 0..ops.len() {
        if i % 100 == 99 && !agree_everywhere(alloc, &ops[..i + 1])? {
            return Ok(false);
        }
    }
    Ok(true)
}

// Whether the set of the operations says what the tree says, at each of some places.
fn is_free_at_each(tree: &Tree, ops: &[Operation], sites: &[Site]) -> bool {
    for site in sites {
        if !is_free_at(tree, ops, site) {
            return false;
        }
    }
    true
}

// Whether the set of the operations says what the tree says, at each place that one passes or ends
// at.
fn is_free_everywhere(alloc: Global, ops: &[Operation]) -> Result<bool, Refusal> {
    let tree = replay_all(alloc, ops)?;
    let sites = sites_of(alloc, ops)?;
    Ok(is_free_at_each(&tree, ops, sites.as_slice()))
}

fn count_deletes(ops: &[Operation]) -> usize {
    let mut count: usize = 0;
    for op in ops {
        if matches!(op.mutation(), Mutation::Delete) {
            count = count.saturating_add(1);
        }
    }
    count
}

// How many places have several values at once.
fn count_conflicts(alloc: Global, tree: &Tree, sites: &[Site]) -> Result<usize, Refusal> {
    let mut count: usize = 0;
    for site in sites {
        if conflicts(alloc, tree, &site.cursor)?.as_slice().len() > 1 {
            count = count.saturating_add(1);
        }
    }
    Ok(count)
}

fn longest_list(alloc: Global, tree: &Tree, sites: &[Site]) -> Result<usize, Refusal> {
    let mut longest = 0;
    for site in sites {
        longest = longest.max(tree.elements(alloc, &site.cursor.path)?.len());
    }
    Ok(longest)
}

// The number of places with several values of some operations, and the length of the longest list.
fn count_in_tree(alloc: Global, ops: &[Operation]) -> Result<(usize, usize), Refusal> {
    let tree = replay_all(alloc, ops)?;
    let sites = sites_of(alloc, ops)?;
    let conflicts = count_conflicts(alloc, &tree, sites.as_slice())?;
    Ok((conflicts, longest_list(alloc, &tree, sites.as_slice())?))
}

// Which kind of change these operations lack, or nothing: many deletes, places with several
// values, and long lists.
fn lack_of(alloc: Global, ops: &[Operation]) -> Result<&'static str, Refusal> {
    let (conflicts, longest) = count_in_tree(alloc, ops)?;
    Ok(if count_deletes(ops) < 100 {
        "the history has too few deletes"
    } else if conflicts < 5 {
        "too few places have several values"
    } else if longest < 50 {
        "the longest list is too short"
    } else {
        ""
    })
}

// What is wrong between the tree, the plain program and the set of these operations, or nothing:
// the case, and what it is.
fn fault_between(
    alloc: Global,
    ops: &[Operation],
) -> Result<(&'static str, &'static str), Refusal> {
    Ok(if !agree_each_hundred(alloc, ops)? {
        (
            "tree_meets_plain_program_each_hundred",
            "the tree doesn't say what the plain program says",
        )
    } else if !is_free_everywhere(alloc, ops)? {
        (
            "free_form_meets_tree_everywhere",
            "the set of the operations doesn't say what the tree says",
        )
    } else {
        ("", "")
    })
}

// What is wrong with the history: the case, and what it is.
fn fault_of_history(alloc: Global) -> Result<(&'static str, &'static str), Refusal> {
    let history = make_history(alloc, COUNT)?;
    if history.len() != COUNT {
        return Ok(("long_history", "it has another number of operations"));
    }
    let lack = lack_of(alloc, history.as_slice())?;
    if !lack.is_empty() {
        return Ok(("history_has_all_kinds", lack));
    }
    fault_between(alloc, history.as_slice())
}

#[test]
fn long_history(rt: HostRuntime) -> Result<(), Fail> {
    let (case, fault) = fault_of_history(rt.alloc())?;
    no_fault_of(&rt, case, fault);
    Ok(())
}
