//! Each causal order of the operations of a worked history says the same, and what the history
//! says.
use crate::holds::no_fault_of;
use crate::orders::{History, Log, fault_of, fault_of_exchange};
use crate::readings::Due;
use json_scalar::Refusal;
use std::alloc::Global;
use std::test::Fail;

const A: &str = r#"["op",[1,"p"],[],[[["m",0]],"k"],["assign","A"]]"#;

const B: &str = r#"["op",[2,"p"],[["p",1]],[[["m",0]],"k"],["assign","B"]]"#;

const C: &str = r#"["op",[2,"q"],[["p",1]],[[["m",0]],"k"],["assign","C"]]"#;

const COLORS: [&str; 2] = [
    r#"["op",[1,"p"],[],[[["m",0]],"colors"],["assign",{}]]"#,
    r##"["op",[2,"p"],[["p",1]],[[["m",0],["m","colors"]],"blue"],["assign","#0000ff"]]"##,
];

const RED: &str =
    r##"["op",[3,"p"],[["p",2]],[[["m",0],["m","colors"]],"red"],["assign","#ff0000"]]"##;

const REASSIGNED: &str = r#"["op",[3,"q"],[["p",2]],[[["m",0]],"colors"],["assign",{}]]"#;

const GREEN: &str =
    r##"["op",[4,"q"],[["p",2],["q",3]],[[["m",0],["m","colors"]],"green"],["assign","#00ff00"]]"##;

const COLORS_SHOWN: &str =
    r##"[["map",[["green",[["val",[4,"q"],"#00ff00"]]],["red",[["val",[3,"p"],"#ff0000"]]]]]]"##;

const TODO: [&str; 4] = [
    r#"["op",[1,"p"],[],[[["m",0]],"todo"],["assign",[]]]"#,
    r#"["op",[2,"p"],[["p",1]],[[["m",0],["l","todo"]],1],["insert",{}]]"#,
    r#"["op",[3,"p"],[["p",2]],[[["m",0],["l","todo"],["m",[2,"p"]]],"title"],["assign","buy milk"]]"#,
    r#"["op",[4,"p"],[["p",3]],[[["m",0],["l","todo"],["m",[2,"p"]]],"done"],["assign",false]]"#,
];

const DELETED: &str = r#"["op",[5,"p"],[["p",4]],[[["m",0],["l","todo"]],[2,"p"]],["delete"]]"#;

const EDITED: &str =
    r#"["op",[5,"q"],[["p",4]],[[["m",0],["l","todo"],["m",[2,"p"]]],"done"],["assign",true]]"#;

const TODO_SHOWN: &str = r#"[["list",[[["map",[["done",[["val",[5,"q"],true]]]]]]]]]"#;

const LIST: [&str; 5] = [
    r#"["op",[1,"o"],[],[[],0],["assign",{}]]"#,
    r#"["op",[2,"o"],[["o",1]],[[["m",0]],"l"],["assign",[]]]"#,
    r#"["op",[3,"o"],[["o",2]],[[["m",0],["l","l"]],1],["insert","a"]]"#,
    r#"["op",[4,"o"],[["o",3]],[[["m",0],["l","l"]],[3,"o"]],["insert","b"]]"#,
    r#"["op",[5,"o"],[["o",4]],[[["m",0],["l","l"]],[4,"o"]],["insert","c"]]"#,
];

const WITHOUT_B: &str = r#"["op",[6,"p"],[["o",5]],[[["m",0],["l","l"]],[4,"o"]],["delete"]]"#;

const X: &str = r#"["op",[7,"p"],[["o",5],["p",6]],[[["m",0],["l","l"]],[3,"o"]],["insert","x"]]"#;

const Y: &str = r#"["op",[6,"q"],[["o",5]],[[["m",0],["l","l"]],[3,"o"]],["insert","y"]]"#;

const Z: &str = r#"["op",[7,"q"],[["o",5],["q",6]],[[["m",0],["l","l"]],[5,"o"]],["insert","z"]]"#;

const EDITED_LIST: [(u64, &str, &str); 5] = [
    (3, "o", "a"),
    (7, "p", "x"),
    (6, "q", "y"),
    (5, "o", "c"),
    (7, "q", "z"),
];

const ASSIGNED: &str = r#"["op",[1,"p"],[],[[["m",0],["m","a"]],"b"],["assign","v"]]"#;

const BELOW: &str = r#"["op",[2,"p"],[["p",1]],[[["m",0],["m","a"]],"b"],["delete"]]"#;

const ABOVE: &str = r#"["op",[2,"q"],[["p",1]],[[["m",0]],"a"],["delete"]]"#;

const HISTORIES: [History<'static>; 5] = [
    History {
        name: "concurrent_register_in_each_order",
        first: &[A],
        later: &[B, C],
        orders: &[&[B, C], &[C, B]],
        names: &["k"],
        due: &[
            Due::Values(&["B", "C"]),
            Due::Conflicts(&[(2, "p", "B"), (2, "q", "C")]),
        ],
    },
    History {
        name: "colors_reassigned_in_each_order",
        first: &COLORS,
        later: &[RED, REASSIGNED, GREEN],
        orders: &[
            &[RED, REASSIGNED, GREEN],
            &[REASSIGNED, RED, GREEN],
            &[REASSIGNED, GREEN, RED],
        ],
        names: &["colors"],
        due: &[Due::Keys(&["green", "red"]), Due::Shown(COLORS_SHOWN)],
    },
    History {
        name: "todo_deleted_while_edited_in_each_order",
        first: &TODO,
        later: &[DELETED, EDITED],
        orders: &[&[DELETED, EDITED], &[EDITED, DELETED]],
        names: &["todo"],
        due: &[Due::Shown(TODO_SHOWN)],
    },
    History {
        name: "concurrent_list_edits_in_each_order",
        first: &LIST,
        later: &[WITHOUT_B, X, Y, Z],
        orders: &[
            &[WITHOUT_B, X, Y, Z],
            &[WITHOUT_B, Y, X, Z],
            &[WITHOUT_B, Y, Z, X],
            &[Y, WITHOUT_B, X, Z],
            &[Y, WITHOUT_B, Z, X],
            &[Y, Z, WITHOUT_B, X],
        ],
        names: &["l"],
        due: &[Due::Items(&EDITED_LIST)],
    },
    History {
        name: "concurrent_deletes_in_each_order",
        first: &[ASSIGNED],
        later: &[BELOW, ABOVE],
        orders: &[&[BELOW, ABOVE], &[ABOVE, BELOW]],
        names: &[],
        due: &[Due::Keys(&[]), Due::Shown("[]")],
    },
];

// The name of the first history that doesn't say the same in each order, and what is wrong, or
// nothing.
fn fault_of_histories(alloc: Global) -> Result<(&'static str, &'static str), Refusal> {
    for history in &HISTORIES {
        let fault = fault_of(alloc, history)?;
        if !fault.is_empty() {
            return Ok((history.name, fault));
        }
    }
    Ok(("", ""))
}

#[test]
fn histories_in_each_order(rt: HostRuntime) -> Result<(), Fail> {
    let (name, fault) = fault_of_histories(rt.alloc())?;
    no_fault_of(&rt, name, fault);
    Ok(())
}

const OF_FIRST: [&str; 2] = [
    r#"["op",[1,"srv-1"],[],[[],0],["assign",{}]]"#,
    r#"["op",[2,"srv-1"],[["srv-1",1]],[[["m",0]],"k"],["assign","A"]]"#,
];

const OF_SECOND: [&str; 1] = [r#"["op",[1,"b-1"],[],[[["m",0]],"k"],["assign","B"]]"#];

const OURS: Log<'static> = (&OF_FIRST, "srv-1", 2);

const THEIRS: Log<'static> = (&OF_SECOND, "b-1", 1);

const BOTH: [Due<'static>; 1] = [Due::Conflicts(&[(1, "b-1", "B"), (2, "srv-1", "A")])];

#[test]
fn exchange_of_two_each_way(rt: HostRuntime) -> Result<(), Fail> {
    let fault = fault_of_exchange(rt.alloc(), &OURS, &THEIRS, "k", &BOTH)?;
    no_fault_of(&rt, "exchange_of_two_each_way", fault);
    Ok(())
}
