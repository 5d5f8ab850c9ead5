//! The laws of convergence.
use crate::holds::no_fault;
use crate::written::{operation, operations};
use converge_laws::{free_present, orders_agree, replay_all};
use json_scalar::Refusal;
use std::alloc::Global;
use std::test::Fail;

// Whether two lists of operations agree.
fn agree(alloc: Global, texts: &[&str], others: &[&str]) -> Result<bool, Refusal> {
    let ops = operations(alloc, texts)?;
    let others = operations(alloc, others)?;
    orders_agree(alloc, ops.as_slice(), others.as_slice())
}

// The number of the refusal of a replay, or 0.
fn replayed(alloc: Global, texts: &[&str]) -> Result<u64, Refusal> {
    let ops = operations(alloc, texts)?;
    Ok(match replay_all(alloc, ops.as_slice()) {
        Ok(_) => 0,
        Err(refusal) => refusal.number(),
    })
}

const ONE: &str = r#"["op",[1,"p"],[],[[["m",0]],"k"],["assign","A"]]"#;

const B: &str = r#"["op",[2,"p"],[["p",1]],[[["m",0]],"k"],["assign","B"]]"#;

const C: &str = r#"["op",[2,"q"],[["p",1]],[[["m",0]],"k"],["assign","C"]]"#;

// Two lists of operations, and whether they agree.
const PAIRS: [(&[&str], &[&str], bool, &str); 4] = [
    (&[ONE, B, C], &[ONE, C, B], true, "two orders don't agree"),
    (&[ONE, B, C], &[ONE, B], false, "a part agrees"),
    (
        &[ONE, B, C],
        &[B, ONE, C],
        false,
        "an order that isn't causal agrees",
    ),
    (
        &[ONE, B, C],
        &[ONE, B, C, C],
        false,
        "an operation listed twice agrees",
    ),
];

// A list of operations, and the number of the refusal of its replay, or 0.
const REPLAYS: [(&[&str], u64, &str); 3] = [
    (&[ONE, C, B], 0, "a causal order is refused"),
    (
        &[B, ONE],
        13,
        "an order that isn't causal is refused otherwise",
    ),
    (
        &[ONE, ONE],
        15,
        "an operation listed twice is refused otherwise",
    ),
];

fn fault_of_pairs(alloc: Global) -> Result<&'static str, Refusal> {
    for (texts, others, due, what) in &PAIRS {
        if agree(alloc, texts, others)? != *due {
            return Ok(what);
        }
    }
    Ok("")
}

fn fault_of_replays(alloc: Global) -> Result<&'static str, Refusal> {
    for (texts, due, what) in &REPLAYS {
        if replayed(alloc, texts)? != *due {
            return Ok(what);
        }
    }
    Ok("")
}

#[test]
fn orders_agree_on_one_set(rt: HostRuntime) -> Result<(), Fail> {
    no_fault(&rt, fault_of_pairs(rt.alloc())?);
    no_fault(&rt, fault_of_replays(rt.alloc())?);
    Ok(())
}

const LIST: &str = r#"["op",[1,"p"],[],[[["m",0]],"todo"],["assign",[]]]"#;

const ELEMENT: &str = r#"["op",[2,"p"],[["p",1]],[[["m",0],["l","todo"]],1],["insert",{}]]"#;

const TITLE: &str =
    r#"["op",[3,"p"],[["p",2]],[[["m",0],["l","todo"],["m",[2,"p"]]],"title"],["assign","buy milk"]]"#;

const TO_DO: &str =
    r#"["op",[4,"p"],[["p",3]],[[["m",0],["l","todo"],["m",[2,"p"]]],"done"],["assign",false]]"#;

const DONE: &str =
    r#"["op",[5,"q"],[["p",4]],[[["m",0],["l","todo"],["m",[2,"p"]]],"done"],["assign",true]]"#;

const DELETED: &str = r#"["op",[5,"p"],[["p",4]],[[["m",0],["l","todo"]],[2,"p"]],["delete"]]"#;

const EDITED: [&str; 6] = [LIST, ELEMENT, TITLE, TO_DO, DONE, DELETED];

const BELOW: &str = r#"["op",[1,"p"],[],[[["m",0],["m","a"]],"b"],["assign","v"]]"#;

const DELETED_ABOVE: &str = r#"["op",[2,"q"],[["p",1]],[[["m",0]],"a"],["delete"]]"#;

const DELETED_THERE: &str = r#"["op",[2,"p"],[["p",1]],[[["m",0],["m","a"]],"b"],["delete"]]"#;

// Operations, two of which one may make the place of the other present, and whether it does.
struct Presence {
    name: &'static str,
    texts: &'static [&'static str],
    maker: &'static str,
    place: &'static str,
    due: bool,
}

// An element that one deletes while another edits it is made present by the edit alone. What is
// below a deleted place is deleted too.
const PRESENCES: [Presence; 12] = [
    Presence {
        name: "free_present_rows: the list",
        texts: &EDITED,
        maker: LIST,
        place: DELETED,
        due: false,
    },
    Presence {
        name: "free_present_rows: the element",
        texts: &EDITED,
        maker: ELEMENT,
        place: DELETED,
        due: false,
    },
    Presence {
        name: "free_present_rows: its title",
        texts: &EDITED,
        maker: TITLE,
        place: DELETED,
        due: false,
    },
    Presence {
        name: "free_present_rows: that it is to do",
        texts: &EDITED,
        maker: TO_DO,
        place: DELETED,
        due: false,
    },
    Presence {
        name: "free_present_rows: that it is done",
        texts: &EDITED,
        maker: DONE,
        place: DELETED,
        due: true,
    },
    Presence {
        name: "free_present_rows: its deletion",
        texts: &EDITED,
        maker: DELETED,
        place: DELETED,
        due: false,
    },
    Presence {
        name: "free_present_under_deletes: the assignment alone, there",
        texts: &[BELOW],
        maker: BELOW,
        place: BELOW,
        due: true,
    },
    Presence {
        name: "free_present_under_deletes: the assignment alone, above",
        texts: &[BELOW],
        maker: BELOW,
        place: DELETED_ABOVE,
        due: true,
    },
    Presence {
        name: "free_present_under_deletes: the delete above, there",
        texts: &[BELOW, DELETED_ABOVE],
        maker: BELOW,
        place: BELOW,
        due: false,
    },
    Presence {
        name: "free_present_under_deletes: the delete above, above",
        texts: &[BELOW, DELETED_ABOVE],
        maker: BELOW,
        place: DELETED_ABOVE,
        due: false,
    },
    Presence {
        name: "free_present_under_deletes: both deletes, there",
        texts: &[BELOW, DELETED_ABOVE, DELETED_THERE],
        maker: BELOW,
        place: BELOW,
        due: false,
    },
    Presence {
        name: "free_present_under_deletes: both deletes, above",
        texts: &[BELOW, DELETED_ABOVE, DELETED_THERE],
        maker: BELOW,
        place: DELETED_ABOVE,
        due: false,
    },
];

fn is_present(alloc: Global, row: &Presence) -> Result<bool, Refusal> {
    let ops = operations(alloc, row.texts)?;
    let maker = operation(alloc, row.maker)?;
    let place = operation(alloc, row.place)?;
    Ok(free_present(ops.as_slice(), place.cursor(), maker.id()))
}

fn fault_of_presences(alloc: Global) -> Result<&'static str, Refusal> {
    for row in &PRESENCES {
        if is_present(alloc, row)? != row.due {
            return Ok(row.name);
        }
    }
    Ok("")
}

#[test]
fn free_presences(rt: HostRuntime) -> Result<(), Fail> {
    no_fault(&rt, fault_of_presences(rt.alloc())?);
    Ok(())
}
