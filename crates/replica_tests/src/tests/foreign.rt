//! The worked row on refused deliveries.
use super::cases::{Before, Case, after};
use super::samples::{Deed, Digest, holds, operation};
use doc_api::{Counts, Query, Reply, State};
use json_scalar::Refusal;
use lamport_id::ReplicaName;
use op_core::Operation;
use std::test::Fail;

const FOREIGN: Case = Case {
    name: "foreign_refusals",
    replica: b"srv-1",
    before: (Before::Nothing, 0, 0),
    rows: &[
        (
            Deed::Deliver,
            r#"["op",[1,"o"],[],[[["m",0]],"l"],["assign",[]]]"#,
            Digest::Applied(1, 0, 1),
        ),
        (
            Deed::Deliver,
            r#"["op",[2,"o"],[["o",1]],[[["m",0],["l","l"]],1],["insert","a"]]"#,
            Digest::Applied(1, 0, 2),
        ),
        (
            Deed::Deliver,
            r#"["op",[3,"q"],[["o",2]],[[["m",0]],"k"],["assign",1]]"#,
            Digest::Applied(1, 0, 3),
        ),
        (
            Deed::Deliver,
            r#"["op",[4,"p"],[["q",3]],[[["m",0]],"k"],["assign",2]]"#,
            Digest::Refused(Refusal::BadFront),
        ),
        (
            Deed::Deliver,
            r#"["op",[2,"q"],[["o",1]],[[["m",0]],"k"],["assign",3]]"#,
            Digest::Refused(Refusal::Forked { last: 3 }),
        ),
        (
            Deed::Deliver,
            r#"["op",[2,"p"],[["o",1]],[[["m",0],["l","l"]],[2,"o"]],["assign","b"]]"#,
            Digest::Refused(Refusal::BadCursor),
        ),
        (
            Deed::Deliver,
            r#"["op",[1,"srv-1"],[],[[["m",0]],"k"],["assign",2]]"#,
            Digest::Refused(Refusal::OwnName),
        ),
        // Again: it is known, and nothing is logged twice.
        (
            Deed::Deliver,
            r#"["op",[3,"q"],[["o",2]],[[["m",0]],"k"],["assign",1]]"#,
            Digest::Known,
        ),
    ],
    logged: 3,
};

// The counter of this one is not the next of its front, so it has no valid shape and can't be
// delivered.
const NO_SHAPE: &str = r#"["op",[9,"p"],[["o",1]],[[["m",0]],"k"],["assign",2]]"#;

fn is_front(reply: Reply, first: (&str, u64), second: (&str, u64)) -> bool {
    match &reply {
        Reply::Front(front) => {
            front.len() == 2
                && is_entry(front.pair_at(0), first)
                && is_entry(front.pair_at(1), second)
        }
        _ => false,
    }
}

fn is_entry(entry: (ReplicaName, u64), expected: (&str, u64)) -> bool {
    *entry.0.as_bytes() == *expected.0.as_bytes() && entry.1 == expected.1
}

fn is_bad_front(op: Result<Operation, Refusal>) -> bool {
    matches!(&op, Err(Refusal::BadFront))
}

#[test]
fn foreign_refusals(rt: HostRuntime) -> Result<(), Fail> {
    let replica = after(&rt, rt.alloc(), &FOREIGN)?;
    let is_front = is_front(
        replica.read(Counts { mine: 0, copied: 0 }, Query::State(State::Front)),
        ("o", 2),
        ("q", 3),
    );
    holds(&rt, is_front, "front");
    let is_refused = is_bad_front(operation(rt.alloc(), NO_SHAPE));
    holds(&rt, is_refused, NO_SHAPE);
    Ok(())
}
