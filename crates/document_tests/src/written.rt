//! Operations by their written forms.
use json_scalar::Refusal;
use op_core::{Operation, read_wire};
use serde_json::Value;
use std::alloc::Global;

/// An assignment in a map in 29 others, which are the most: at a path of 30 keys.
pub const DEEPEST: &str =
    r#"["op",[1,"p"],[],[[["m",0],["m","k"],["m","k"],["m","k"],["m","k"],["m","k"],["m","k"],["m","k"],["m","k"],["m","k"],["m","k"],["m","k"],["m","k"],["m","k"],["m","k"],["m","k"],["m","k"],["m","k"],["m","k"],["m","k"],["m","k"],["m","k"],["m","k"],["m","k"],["m","k"],["m","k"],["m","k"],["m","k"],["m","k"],["m","k"]],"k"],["assign",7]]"#;

pub fn operation(alloc: Global, text: &str) -> Result<Operation, Refusal> {
    match Value::from_str(alloc, text) {
        Ok(value) => read_wire(alloc, &value),
        Err(_) => Err(Refusal::NotJson),
    }
}

pub fn operations(alloc: Global, texts: &[&str]) -> Result<Vec<Operation>, Refusal> {
    let mut ops = Vec::new(alloc);
    for text in texts {
        ops.push(operation(alloc, text)?)?;
    }
    Ok(ops)
}

// What the front of p's operation behind so many lists: the one before it, if there is one.
fn front_behind(alloc: Global, before: usize) -> Result<String, Refusal> {
    if before == 0 {
        return Ok(String::new(alloc));
    }
    Ok(format!(in alloc; "[\"p\",{before}]")?)
}

// The operation of p behind so many, whose cursor and mutation are given without their brackets.
fn next(alloc: Global, before: usize, cursor: &str, mutation: &str) -> Result<Operation, Refusal> {
    let front = front_behind(alloc, before)?;
    let counter = before.saturating_add(1);
    let text = format!(in alloc; "[\"op\",[{counter},\"p\"],[{front}],[{cursor}],[{mutation}]]")?;
    operation(alloc, text.as_str())
}

/// Pushes p's next operation, where all are of p.
pub fn push_next(
    alloc: Global,
    ops: &mut Vec<Operation>,
    cursor: &str,
    mutation: &str,
) -> Result<(), Refusal> {
    let op = next(alloc, ops.len(), cursor, mutation)?;
    ops.push(op)?;
    Ok(())
}
