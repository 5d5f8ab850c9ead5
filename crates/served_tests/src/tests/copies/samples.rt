//! Operations by their written forms.
use json_scalar::Refusal;
use op_core::{Operation, read_wire};
use serde_json::Value;
use std::alloc::Global;

/// One that makes the document.
pub const FIRST_RUN: [&str; 1] = [r#"["op",[1,"srv-1"],[],[[],0],["assign",{}]]"#];

/// Two assignments that know only one before them, and another operation under the id of that one.
pub const REGISTER_AND_COLORS: [&str; 4] = [
    r#"["op",[1,"p"],[],[[["m",0]],"k"],["assign","A"]]"#,
    r#"["op",[2,"p"],[["p",1]],[[["m",0]],"k"],["assign","B"]]"#,
    r#"["op",[2,"q"],[["p",1]],[[["m",0]],"k"],["assign","C"]]"#,
    r#"["op",[1,"p"],[],[[["m",0]],"colors"],["assign",{}]]"#,
];

/// A list that two replicas change at once.
pub static CONCURRENT_LIST_EDITS: [&str; 9] = [
    r#"["op",[1,"o"],[],[[],0],["assign",{}]]"#,
    r#"["op",[2,"o"],[["o",1]],[[["m",0]],"l"],["assign",[]]]"#,
    r#"["op",[3,"o"],[["o",2]],[[["m",0],["l","l"]],1],["insert","a"]]"#,
    r#"["op",[4,"o"],[["o",3]],[[["m",0],["l","l"]],[3,"o"]],["insert","b"]]"#,
    r#"["op",[5,"o"],[["o",4]],[[["m",0],["l","l"]],[4,"o"]],["insert","c"]]"#,
    r#"["op",[6,"p"],[["o",5]],[[["m",0],["l","l"]],[4,"o"]],["delete"]]"#,
    r#"["op",[7,"p"],[["o",5],["p",6]],[[["m",0],["l","l"]],[3,"o"]],["insert","x"]]"#,
    r#"["op",[6,"q"],[["o",5]],[[["m",0],["l","l"]],[3,"o"]],["insert","y"]]"#,
    r#"["op",[7,"q"],[["o",5],["q",6]],[[["m",0],["l","l"]],[5,"o"]],["insert","z"]]"#,
];

pub fn operation(alloc: Global, text: &str) -> Result<Operation, Refusal> {
    match Value::from_str(alloc, text) {
        Ok(value) => read_wire(alloc, &value),
        Err(_) => Err(Refusal::NoMemory),
    }
}

/// The operations of these texts.
pub fn operations(alloc: Global, texts: &[&str]) -> Result<Vec<Operation>, Refusal> {
    let mut ops = Vec::new(alloc);
    for text in texts {
        ops.push(operation(alloc, text)?)?;
    }
    Ok(ops)
}

fn text_of(alloc: Global, i: u64) -> Result<String, Refusal> {
    if i <= 1 {
        return Ok(String::from_str(alloc, r#"["op",[1,"p"],[],[[["m",0]],"k"],["assign",1]]"#)?);
    }
    let before = i - 1;
    Ok(format!(in alloc;
        "[\"op\",[{i},\"p\"],[[\"p\",{before}]],[[[\"m\",0]],\"k\"],[\"assign\",{i}]]"
    )?)
}

/// Operations of the replica p with the counters from 1 to n, but for the one left out (0 leaves
/// out none). Each needs the one before it.
pub fn log_without(alloc: Global, n: u64, left_out: u64) -> Result<Vec<Operation>, Refusal> {
    let mut ops = Vec::new(alloc);
    for i in 1..=n {
        if i != left_out {
            let text = text_of(alloc, i)?;
            ops.push(operation(alloc, text.as_str())?)?;
        }
    }
    Ok(ops)
}
