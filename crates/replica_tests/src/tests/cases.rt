//! A replica's answers to operations, one after another. Each case has its
//! name, which is shown if it fails.
use super::samples::{
    Deed, Digest, command, delivers_up_to, digest_of, holds, is_count, is_digest, named, operation,
};
use json_scalar::Refusal;
use op_core::Operation;
use replica_core::Replica;
use std::alloc::Global;
use std::process::Abort;

/// What was delivered to a replica before.
#[derive(Clone, Copy)]
pub enum Before {
    Nothing,
    /// Three operations, of o and q.
    Three,
    /// 256 operations, from (2,p) to (257,p), which are held, since (1,p) is not logged.
    Held,
    /// One operation of each of 256 others: p, and r1 to r255.
    Crowd,
    /// These, and so many more of p that the log is full.
    Full,
}

/// What is delivered to a replica of this name before, how many are held and logged then, what it
/// does with operations and answers to each, and how many are logged in the end.
pub struct Case {
    pub name: &'static str,
    pub replica: &'static [u8],
    pub before: (Before, u64, usize),
    pub rows: &'static [(Deed, &'static str, Digest)],
    pub logged: usize,
}

const LOGGED: [&str; 3] = [
    r#"["op",[1,"o"],[],[[["m",0]],"l"],["assign",[]]]"#,
    r#"["op",[2,"o"],[["o",1]],[[["m",0],["l","l"]],1],["insert","a"]]"#,
    r#"["op",[3,"q"],[["o",2]],[[["m",0]],"k"],["assign",1]]"#,
];

// What (2,p) waits for.
const FIRST: &str = r#"["op",[1,"p"],[],[[["m",0]],"k"],["assign",1]]"#;

// Delivers what is to be delivered before, and returns how many are held then.
fn delivers(alloc: Global, replica: &mut Replica, before: Before) -> Result<u64, Refusal> {
    match before {
        Before::Nothing => Ok(0),
        Before::Three => delivers_three(alloc, replica),
        Before::Held => delivers_up_to(alloc, replica, 257),
        Before::Crowd => crowds(alloc, replica),
        Before::Full => {
            crowds(alloc, replica)?;
            delivers_up_to(alloc, replica, 99_745)
        }
    }
}

fn delivers_three(alloc: Global, replica: &mut Replica) -> Result<u64, Refusal> {
    for text in &LOGGED {
        replica.deliver(operation(alloc, text)?)?;
    }
    Ok(0)
}

fn crowds(alloc: Global, replica: &mut Replica) -> Result<u64, Refusal> {
    replica.deliver(operation(alloc, FIRST)?)?;
    for number in 1..256 {
        replica.deliver(first_of(alloc, number)?)?;
    }
    Ok(0)
}

// The first operation of the replica with this number, which depends on none.
fn first_of(alloc: Global, number: u64) -> Result<Operation, Refusal> {
    let text = format!(in alloc;
        "[\"op\",[1,\"r{number}\"],[],[[[\"m\",0]],\"k\"],[\"assign\",1]]"
    )?;
    operation(alloc, text.as_str())
}

// Asserts the answer to each operation.
fn rows_are<R: Abort>(
    rt: &R,
    alloc: Global,
    replica: &mut Replica,
    case: &Case,
) -> Result<(), Refusal> {
    for (deed, text, expected) in case.rows {
        let digest = digest_of(replica.act(command(alloc, *deed, text)?));
        is_digest(rt, digest, *expected, case.name, text);
    }
    Ok(())
}

/// The replica at the end of a case, all of which is asserted.
pub fn after<R: Abort>(rt: &R, alloc: Global, case: &Case) -> Result<Replica, Refusal> {
    let mut replica = named(alloc, case.replica)?;
    let held = delivers(alloc, &mut replica, case.before.0)?;
    let is = (held, replica.log().len()) == (case.before.1, case.before.2);
    holds(rt, is, case.name);
    rows_are(rt, alloc, &mut replica, case)?;
    is_count(rt, replica.log().len(), case.logged, case.name);
    Ok(replica)
}

/// Asserts each of these cases.
pub fn are_met<R: Abort>(rt: &R, alloc: Global, cases: &[Case]) -> Result<(), Refusal> {
    for case in cases {
        after(rt, alloc, case)?;
    }
    Ok(())
}
