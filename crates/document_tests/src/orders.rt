//! Histories by the written forms of their operations, and what the tree says after them.
use crate::readings::{Due, Readings, read_at};
use converge_laws::{orders_agree, replay_all};
use json_scalar::Refusal;
use lamport_id::ReplicaName;
use op_core::{Front, Operation, read_wire};
use serde_json::Value;
use std::alloc::Global;

pub fn operation(alloc: Global, text: &str) -> Result<Operation, Refusal> {
    match Value::from_str(alloc, text) {
        Ok(value) => read_wire(alloc, &value),
        Err(_) => Err(Refusal::NotJson),
    }
}

fn push_operations(alloc: Global, ops: &mut Vec<Operation>, texts: &[&str]) -> Result<(), Refusal> {
    for text in texts {
        ops.push(operation(alloc, text)?)?;
    }
    Ok(())
}

// The operations of some texts, and then those of others.
fn operations(alloc: Global, first: &[&str], later: &[&str]) -> Result<Vec<Operation>, Refusal> {
    let mut ops = Vec::new(alloc);
    push_operations(alloc, &mut ops, first)?;
    push_operations(alloc, &mut ops, later)?;
    Ok(ops)
}

/// A history, by the written forms of its operations, and what is read after it.
pub struct History<'a> {
    pub name: &'a str,
    pub first: &'a [&'a str],
    pub later: &'a [&'a str],
    /// The causal orders of the later operations.
    pub orders: &'a [&'a [&'a str]],
    /// The names that lead to the place that is read.
    pub names: &'a [&'a str],
    pub due: &'a [Due<'a>],
}

// What the tree of some operations says at a place.
fn read_operations(alloc: Global, ops: &[Operation], names: &[&str]) -> Result<Readings, Refusal> {
    let tree = replay_all(alloc, ops)?;
    read_at(alloc, &tree, names)
}

// What is wrong with what is read after these operations, or nothing. The readings are also those
// after the first order.
fn fault_read(
    alloc: Global,
    history: &History<'_>,
    first: &[Operation],
    ops: &[Operation],
) -> Result<&'static str, Refusal> {
    let readings = read_operations(alloc, ops, history.names)?;
    if !readings.has_all(history.due) {
        return Ok("an order doesn't read what is due");
    }
    let due = read_operations(alloc, first, history.names)?;
    Ok(if readings.is_same(&due) {
        ""
    } else {
        "an order doesn't read what the first does"
    })
}

// What is wrong with a history whose later operations come in this order, or nothing.
fn fault_in_order(
    alloc: Global,
    history: &History<'_>,
    order: &[&str],
) -> Result<&'static str, Refusal> {
    let first = operations(alloc, history.first, history.later)?;
    let ops = operations(alloc, history.first, order)?;
    if orders_agree(alloc, first.as_slice(), ops.as_slice())? {
        fault_read(alloc, history, first.as_slice(), ops.as_slice())
    } else {
        Ok("an order doesn't agree with the first")
    }
}

/// What is wrong with one of the orders of a history, or nothing.
pub fn fault_of(alloc: Global, history: &History<'_>) -> Result<&'static str, Refusal> {
    for order in history.orders {
        let fault = fault_in_order(alloc, history, order)?;
        if !fault.is_empty() {
            return Ok(fault);
        }
    }
    Ok("")
}

/// The operations of one replica: their written forms, its name, and the counter of the last.
pub type Log<'a> = (&'a [&'a str], &'a str, u64);

// The front of such a log.
fn front_of(alloc: Global, log: &Log<'_>) -> Result<Front, Refusal> {
    match ReplicaName::read(log.1.as_bytes()) {
        Some(name) => Front::from_pairs(alloc, &[(name, log.2)]),
        None => Err(Refusal::BadFront),
    }
}

// Pushes those operations that a front does not cover.
fn push_uncovered(
    alloc: Global,
    ops: &mut Vec<Operation>,
    texts: &[&str],
    front: &Front,
) -> Result<(), Refusal> {
    for text in texts {
        let op = operation(alloc, text)?;
        if !front.covers(op.id()) {
            ops.push(op)?;
        }
    }
    Ok(())
}

// Operations, followed by those of the other replica that their front does not cover.
fn pulled(alloc: Global, own: &Log<'_>, other: &Log<'_>) -> Result<Vec<Operation>, Refusal> {
    let mut ops = operations(alloc, own.0, &[])?;
    let front = front_of(alloc, own)?;
    push_uncovered(alloc, &mut ops, other.0, &front)?;
    Ok(ops)
}

// Whether the tree of some operations says this at a name.
fn says(alloc: Global, ops: &[Operation], name: &str, due: &[Due<'_>]) -> Result<bool, Refusal> {
    let readings = read_operations(alloc, ops, &[name])?;
    Ok(readings.has_all(due))
}

// What is wrong with the operations of two replicas that have pulled from each other, or nothing.
fn fault_of_pulled(
    alloc: Global,
    first: &[Operation],
    second: &[Operation],
    name: &str,
    due: &[Due<'_>],
) -> Result<&'static str, Refusal> {
    Ok(if !orders_agree(alloc, first, second)? {
        "the two don't agree"
    } else if !says(alloc, first, name, due)? {
        "the first doesn't read what is due"
    } else if !says(alloc, second, name, due)? {
        "the second doesn't read what is due"
    } else {
        ""
    })
}

/// What is wrong after two replicas have pulled from each other, or nothing.
pub fn fault_of_exchange(
    alloc: Global,
    own: &Log<'_>,
    other: &Log<'_>,
    name: &str,
    due: &[Due<'_>],
) -> Result<&'static str, Refusal> {
    let first = pulled(alloc, own, other)?;
    let second = pulled(alloc, other, own)?;
    fault_of_pulled(alloc, first.as_slice(), second.as_slice(), name, due)
}
