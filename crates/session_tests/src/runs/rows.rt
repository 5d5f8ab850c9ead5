//! The worked rows, each a session over one document: one for each order of a history's causes, and
//! one for each session of several. One table of them all would take too long to prove.
//!
//! `tests/whole-program/rows` has the same rows for the built program:
//! `tools/check rows-once --write` makes them from these.
use super::causes::CAUSES;
use super::{Row, Run, give_all, run_of, writes};
use crate::shopping::{SHOPPED, SHOPPING};
use std::alloc::Global;
use std::process::Abort;

// Sessions with no other replica.
static ALONE: [Row; 11] = [
    Row {
        name: "counter_beyond_i64",
        input: r#"["open","d"]
["add","d",[0,"m"],9223372036854775807]
["add","d",[0,"m"],9223372036854775807]
["sum","d",[0,"m"]]
"#,
        output: r#"["opened",1]
["applied",1,0,[1,"srv-1"]]
["applied",1,0,[2,"srv-1"]]
["sum","18446744073709551614"]
"#,
    },
    Row {
        name: "delete_of_nothing",
        input: r#"["open","d"]
["assign","d",[0],{}]
["delete","d",[0,"a","b"]]
["keys","d",[0]]
["show","d",[0]]
"#,
        output: r#"["opened",1]
["applied",1,0,[1,"srv-1"]]
["applied",1,0,[2,"srv-1"]]
["keys",[]]
["show",[["map",[]]]]
"#,
    },
    Row {
        name: "first_run",
        input: r#"["open","d"]
["assign","d",[0],{}]
"#,
        output: r#"["opened",1]
["applied",1,0,[1,"srv-1"]]
"#,
    },
    Row {
        name: "nested_show",
        input: r#"["open","d"]
["assign","d",[0],{}]
["assign","d",[0,"a"],[]]
["insert","d",[0,"a",0],{}]
["assign","d",[0,"a",1,"t"],"x"]
["show","d",[0]]
["conflicts","d",[0,"a"]]
"#,
        output: r#"["opened",1]
["applied",1,0,[1,"srv-1"]]
["applied",1,0,[2,"srv-1"]]
["applied",1,0,[3,"srv-1"]]
["applied",1,0,[4,"srv-1"]]
["show",[["map",[["a",[["list",[[["map",[["t",[["val",[4,"srv-1"],"x"]]]]]]]]]]]]]]
["conflicts",[[[2,"srv-1"],[]]]]
"#,
    },
    Row {
        name: "reassignments",
        input: r#"["open","d"]
["assign","d",[0],{}]
["assign","d",[0,"a"],1]
["assign","d",[0,"a"],2]
["values","d",[0,"a"]]
["assign","d",[0,"a"],{}]
["values","d",[0,"a"]]
["keys","d",[0]]
["assign","d",[0],{}]
["keys","d",[0]]
"#,
        output: r#"["opened",1]
["applied",1,0,[1,"srv-1"]]
["applied",1,0,[2,"srv-1"]]
["applied",1,0,[3,"srv-1"]]
["values",[2]]
["applied",1,0,[4,"srv-1"]]
["values",[]]
["keys",["a"]]
["applied",1,0,[5,"srv-1"]]
["keys",[]]
"#,
    },
    Row {
        name: "shopping_list",
        input: SHOPPING,
        output: SHOPPED,
    },
    Row {
        name: "variable_after_delete",
        input: r#"["open","d"]
["assign","d",[0,"l"],[]]
["insert","d",[0,"l",0],"a"]
["insert","d",[0,"l",1],"b"]
["let","d","e",[0,"l",1]]
["delete","d",[0,"l",1]]
["insert","d",[0,"l",0],"c"]
["insert","d",["e"],"x"]
["items","d",[0,"l"]]
["values","d",["e"]]
"#,
        output: r#"["opened",1]
["applied",1,0,[1,"srv-1"]]
["applied",1,0,[2,"srv-1"]]
["applied",1,0,[3,"srv-1"]]
["bound"]
["applied",1,0,[4,"srv-1"]]
["applied",1,0,[5,"srv-1"]]
["applied",1,0,[6,"srv-1"]]
["items",[[[5,"srv-1"],["c"]],[[6,"srv-1"],["x"]],[[3,"srv-1"],["b"]]]]
["values",[]]
"#,
    },
    Row {
        name: "version_2-version",
        input: r#"["version"]
"#,
        output: r#"["version",2]
"#,
    },
    Row {
        name: "without_open-empty",
        input: r#""#,
        output: r#""#,
    },
    Row {
        name: "without_open-newline",
        input: r#"
"#,
        output: r#"["no",1,"not-json"]
"#,
    },
    Row {
        name: "exchange_of_two-first",
        input: r#"["open","d"]
["assign","d",[0],{}]
["assign","d",[0,"k"],"A"]
["ops","d",[],64]
["deliver","d",["op",[1,"b-1"],[],[[["m",0]],"k"],["assign","B"]]]
["front","d"]
["conflicts","d",[0,"k"]]
"#,
        output: r#"["opened",1]
["applied",1,0,[1,"srv-1"]]
["applied",1,0,[2,"srv-1"]]
["ops",[["op",[1,"srv-1"],[],[[],0],["assign",{}]],["op",[2,"srv-1"],[["srv-1",1]],[[["m",0]],"k"],["assign","A"]]]]
["applied",1,0,[1,"b-1"]]
["front",[["b-1",1],["srv-1",2]]]
["conflicts",[[[1,"b-1"],"B"],[[2,"srv-1"],"A"]]]
"#,
    },
];

// Operations of two replicas, in each order of their causes.
static ORDERS: [Row; 11] = [
    Row {
        name: "colors_reassigned-order_1",
        input: r##"["open","d"]
["deliver","d",["op",[1,"p"],[],[[["m",0]],"colors"],["assign",{}]]]
["deliver","d",["op",[2,"p"],[["p",1]],[[["m",0],["m","colors"]],"blue"],["assign","#0000ff"]]]
["deliver","d",["op",[3,"p"],[["p",2]],[[["m",0],["m","colors"]],"red"],["assign","#ff0000"]]]
["deliver","d",["op",[3,"q"],[["p",2]],[[["m",0]],"colors"],["assign",{}]]]
["deliver","d",["op",[4,"q"],[["p",2],["q",3]],[[["m",0],["m","colors"]],"green"],["assign","#00ff00"]]]
["keys","d",[0,"colors"]]
["show","d",[0,"colors"]]
"##,
        output: r##"["opened",1]
["applied",1,0,[1,"p"]]
["applied",1,0,[2,"p"]]
["applied",1,0,[3,"p"]]
["applied",1,0,[3,"q"]]
["applied",1,0,[4,"q"]]
["keys",["green","red"]]
["show",[["map",[["green",[["val",[4,"q"],"#00ff00"]]],["red",[["val",[3,"p"],"#ff0000"]]]]]]]
"##,
    },
    Row {
        name: "colors_reassigned-order_2",
        input: r##"["open","d"]
["deliver","d",["op",[1,"p"],[],[[["m",0]],"colors"],["assign",{}]]]
["deliver","d",["op",[2,"p"],[["p",1]],[[["m",0],["m","colors"]],"blue"],["assign","#0000ff"]]]
["deliver","d",["op",[3,"q"],[["p",2]],[[["m",0]],"colors"],["assign",{}]]]
["deliver","d",["op",[3,"p"],[["p",2]],[[["m",0],["m","colors"]],"red"],["assign","#ff0000"]]]
["deliver","d",["op",[4,"q"],[["p",2],["q",3]],[[["m",0],["m","colors"]],"green"],["assign","#00ff00"]]]
["keys","d",[0,"colors"]]
["show","d",[0,"colors"]]
"##,
        output: r##"["opened",1]
["applied",1,0,[1,"p"]]
["applied",1,0,[2,"p"]]
["applied",1,0,[3,"q"]]
["applied",1,0,[3,"p"]]
["applied",1,0,[4,"q"]]
["keys",["green","red"]]
["show",[["map",[["green",[["val",[4,"q"],"#00ff00"]]],["red",[["val",[3,"p"],"#ff0000"]]]]]]]
"##,
    },
    Row {
        name: "colors_reassigned-order_3",
        input: r##"["open","d"]
["deliver","d",["op",[1,"p"],[],[[["m",0]],"colors"],["assign",{}]]]
["deliver","d",["op",[2,"p"],[["p",1]],[[["m",0],["m","colors"]],"blue"],["assign","#0000ff"]]]
["deliver","d",["op",[3,"q"],[["p",2]],[[["m",0]],"colors"],["assign",{}]]]
["deliver","d",["op",[4,"q"],[["p",2],["q",3]],[[["m",0],["m","colors"]],"green"],["assign","#00ff00"]]]
["deliver","d",["op",[3,"p"],[["p",2]],[[["m",0],["m","colors"]],"red"],["assign","#ff0000"]]]
["keys","d",[0,"colors"]]
["show","d",[0,"colors"]]
"##,
        output: r##"["opened",1]
["applied",1,0,[1,"p"]]
["applied",1,0,[2,"p"]]
["applied",1,0,[3,"q"]]
["applied",1,0,[4,"q"]]
["applied",1,0,[3,"p"]]
["keys",["green","red"]]
["show",[["map",[["green",[["val",[4,"q"],"#00ff00"]]],["red",[["val",[3,"p"],"#ff0000"]]]]]]]
"##,
    },
    Row {
        name: "concurrent_deletes-order_1",
        input: r#"["open","d"]
["deliver","d",["op",[1,"p"],[],[[["m",0],["m","a"]],"b"],["assign","v"]]]
["deliver","d",["op",[2,"p"],[["p",1]],[[["m",0],["m","a"]],"b"],["delete"]]]
["deliver","d",["op",[2,"q"],[["p",1]],[[["m",0]],"a"],["delete"]]]
["keys","d",[0]]
["show","d",[0]]
"#,
        output: r#"["opened",1]
["applied",1,0,[1,"p"]]
["applied",1,0,[2,"p"]]
["applied",1,0,[2,"q"]]
["keys",[]]
["show",[]]
"#,
    },
    Row {
        name: "concurrent_deletes-order_2",
        input: r#"["open","d"]
["deliver","d",["op",[1,"p"],[],[[["m",0],["m","a"]],"b"],["assign","v"]]]
["deliver","d",["op",[2,"q"],[["p",1]],[[["m",0]],"a"],["delete"]]]
["deliver","d",["op",[2,"p"],[["p",1]],[[["m",0],["m","a"]],"b"],["delete"]]]
["keys","d",[0]]
["show","d",[0]]
"#,
        output: r#"["opened",1]
["applied",1,0,[1,"p"]]
["applied",1,0,[2,"q"]]
["applied",1,0,[2,"p"]]
["keys",[]]
["show",[]]
"#,
    },
    Row {
        name: "concurrent_register-order_1",
        input: r#"["open","d"]
["deliver","d",["op",[1,"p"],[],[[["m",0]],"k"],["assign","A"]]]
["deliver","d",["op",[2,"p"],[["p",1]],[[["m",0]],"k"],["assign","B"]]]
["deliver","d",["op",[2,"q"],[["p",1]],[[["m",0]],"k"],["assign","C"]]]
["values","d",[0,"k"]]
["conflicts","d",[0,"k"]]
"#,
        output: r#"["opened",1]
["applied",1,0,[1,"p"]]
["applied",1,0,[2,"p"]]
["applied",1,0,[2,"q"]]
["values",["B","C"]]
["conflicts",[[[2,"p"],"B"],[[2,"q"],"C"]]]
"#,
    },
    Row {
        name: "concurrent_register-order_2",
        input: r#"["open","d"]
["deliver","d",["op",[1,"p"],[],[[["m",0]],"k"],["assign","A"]]]
["deliver","d",["op",[2,"q"],[["p",1]],[[["m",0]],"k"],["assign","C"]]]
["deliver","d",["op",[2,"p"],[["p",1]],[[["m",0]],"k"],["assign","B"]]]
["values","d",[0,"k"]]
["conflicts","d",[0,"k"]]
"#,
        output: r#"["opened",1]
["applied",1,0,[1,"p"]]
["applied",1,0,[2,"q"]]
["applied",1,0,[2,"p"]]
["values",["B","C"]]
["conflicts",[[[2,"p"],"B"],[[2,"q"],"C"]]]
"#,
    },
    Row {
        name: "counter_and_scalar-order_1",
        input: r#"["open","d"]
["deliver","d",["op",[1,"p"],[],[[["m",0]],"n"],["add",5]]]
["deliver","d",["op",[1,"q"],[],[[["m",0]],"n"],["add",-7]]]
["sum","d",[0,"n"]]
["deliver","d",["op",[2,"p"],[["p",1]],[[["m",0]],"n"],["assign","x"]]]
["sum","d",[0,"n"]]
["show","d",[0,"n"]]
["conflicts","d",[0,"n"]]
["delete","d",[0,"n"]]
["sum","d",[0,"n"]]
["show","d",[0,"n"]]
"#,
        output: r#"["opened",1]
["applied",1,0,[1,"p"]]
["applied",1,0,[1,"q"]]
["sum","-2"]
["applied",1,0,[2,"p"]]
["sum","-7"]
["show",[["val",[2,"p"],"x"],["cnt","-7"]]]
["conflicts",[[[2,"p"],"x"]]]
["applied",1,0,[3,"srv-1"]]
["sum","0"]
["show",[]]
"#,
    },
    Row {
        name: "counter_and_scalar-order_2",
        input: r#"["open","d"]
["deliver","d",["op",[1,"q"],[],[[["m",0]],"n"],["add",-7]]]
["deliver","d",["op",[1,"p"],[],[[["m",0]],"n"],["add",5]]]
["sum","d",[0,"n"]]
["deliver","d",["op",[2,"p"],[["p",1]],[[["m",0]],"n"],["assign","x"]]]
["sum","d",[0,"n"]]
["show","d",[0,"n"]]
["conflicts","d",[0,"n"]]
["delete","d",[0,"n"]]
["sum","d",[0,"n"]]
["show","d",[0,"n"]]
"#,
        output: r#"["opened",1]
["applied",1,0,[1,"q"]]
["applied",1,0,[1,"p"]]
["sum","-2"]
["applied",1,0,[2,"p"]]
["sum","-7"]
["show",[["val",[2,"p"],"x"],["cnt","-7"]]]
["conflicts",[[[2,"p"],"x"]]]
["applied",1,0,[3,"srv-1"]]
["sum","0"]
["show",[]]
"#,
    },
    Row {
        name: "todo_deleted_while_edited-order_1",
        input: r#"["open","d"]
["deliver","d",["op",[1,"p"],[],[[["m",0]],"todo"],["assign",[]]]]
["deliver","d",["op",[2,"p"],[["p",1]],[[["m",0],["l","todo"]],1],["insert",{}]]]
["deliver","d",["op",[3,"p"],[["p",2]],[[["m",0],["l","todo"],["m",[2,"p"]]],"title"],["assign","buy milk"]]]
["deliver","d",["op",[4,"p"],[["p",3]],[[["m",0],["l","todo"],["m",[2,"p"]]],"done"],["assign",false]]]
["deliver","d",["op",[5,"p"],[["p",4]],[[["m",0],["l","todo"]],[2,"p"]],["delete"]]]
["deliver","d",["op",[5,"q"],[["p",4]],[[["m",0],["l","todo"],["m",[2,"p"]]],"done"],["assign",true]]]
["show","d",[0,"todo"]]
"#,
        output: r#"["opened",1]
["applied",1,0,[1,"p"]]
["applied",1,0,[2,"p"]]
["applied",1,0,[3,"p"]]
["applied",1,0,[4,"p"]]
["applied",1,0,[5,"p"]]
["applied",1,0,[5,"q"]]
["show",[["list",[[["map",[["done",[["val",[5,"q"],true]]]]]]]]]]
"#,
    },
    Row {
        name: "todo_deleted_while_edited-order_2",
        input: r#"["open","d"]
["deliver","d",["op",[1,"p"],[],[[["m",0]],"todo"],["assign",[]]]]
["deliver","d",["op",[2,"p"],[["p",1]],[[["m",0],["l","todo"]],1],["insert",{}]]]
["deliver","d",["op",[3,"p"],[["p",2]],[[["m",0],["l","todo"],["m",[2,"p"]]],"title"],["assign","buy milk"]]]
["deliver","d",["op",[4,"p"],[["p",3]],[[["m",0],["l","todo"],["m",[2,"p"]]],"done"],["assign",false]]]
["deliver","d",["op",[5,"q"],[["p",4]],[[["m",0],["l","todo"],["m",[2,"p"]]],"done"],["assign",true]]]
["deliver","d",["op",[5,"p"],[["p",4]],[[["m",0],["l","todo"]],[2,"p"]],["delete"]]]
["show","d",[0,"todo"]]
"#,
        output: r#"["opened",1]
["applied",1,0,[1,"p"]]
["applied",1,0,[2,"p"]]
["applied",1,0,[3,"p"]]
["applied",1,0,[4,"p"]]
["applied",1,0,[5,"q"]]
["applied",1,0,[5,"p"]]
["show",[["list",[[["map",[["done",[["val",[5,"q"],true]]]]]]]]]]
"#,
    },
];

// Operations in a list, in each order of their causes.
static LIST_ORDERS: [Row; 12] = [
    Row {
        name: "concurrent_list_edits-order_1",
        input: r#"["open","d"]
["deliver","d",["op",[1,"o"],[],[[],0],["assign",{}]]]
["deliver","d",["op",[2,"o"],[["o",1]],[[["m",0]],"l"],["assign",[]]]]
["deliver","d",["op",[3,"o"],[["o",2]],[[["m",0],["l","l"]],1],["insert","a"]]]
["deliver","d",["op",[4,"o"],[["o",3]],[[["m",0],["l","l"]],[3,"o"]],["insert","b"]]]
["deliver","d",["op",[5,"o"],[["o",4]],[[["m",0],["l","l"]],[4,"o"]],["insert","c"]]]
["deliver","d",["op",[6,"p"],[["o",5]],[[["m",0],["l","l"]],[4,"o"]],["delete"]]]
["deliver","d",["op",[7,"p"],[["o",5],["p",6]],[[["m",0],["l","l"]],[3,"o"]],["insert","x"]]]
["deliver","d",["op",[6,"q"],[["o",5]],[[["m",0],["l","l"]],[3,"o"]],["insert","y"]]]
["deliver","d",["op",[7,"q"],[["o",5],["q",6]],[[["m",0],["l","l"]],[5,"o"]],["insert","z"]]]
["items","d",[0,"l"]]
"#,
        output: r#"["opened",1]
["applied",1,0,[1,"o"]]
["applied",1,0,[2,"o"]]
["applied",1,0,[3,"o"]]
["applied",1,0,[4,"o"]]
["applied",1,0,[5,"o"]]
["applied",1,0,[6,"p"]]
["applied",1,0,[7,"p"]]
["applied",1,0,[6,"q"]]
["applied",1,0,[7,"q"]]
["items",[[[3,"o"],["a"]],[[7,"p"],["x"]],[[6,"q"],["y"]],[[5,"o"],["c"]],[[7,"q"],["z"]]]]
"#,
    },
    Row {
        name: "concurrent_list_edits-order_2",
        input: r#"["open","d"]
["deliver","d",["op",[1,"o"],[],[[],0],["assign",{}]]]
["deliver","d",["op",[2,"o"],[["o",1]],[[["m",0]],"l"],["assign",[]]]]
["deliver","d",["op",[3,"o"],[["o",2]],[[["m",0],["l","l"]],1],["insert","a"]]]
["deliver","d",["op",[4,"o"],[["o",3]],[[["m",0],["l","l"]],[3,"o"]],["insert","b"]]]
["deliver","d",["op",[5,"o"],[["o",4]],[[["m",0],["l","l"]],[4,"o"]],["insert","c"]]]
["deliver","d",["op",[6,"p"],[["o",5]],[[["m",0],["l","l"]],[4,"o"]],["delete"]]]
["deliver","d",["op",[6,"q"],[["o",5]],[[["m",0],["l","l"]],[3,"o"]],["insert","y"]]]
["deliver","d",["op",[7,"p"],[["o",5],["p",6]],[[["m",0],["l","l"]],[3,"o"]],["insert","x"]]]
["deliver","d",["op",[7,"q"],[["o",5],["q",6]],[[["m",0],["l","l"]],[5,"o"]],["insert","z"]]]
["items","d",[0,"l"]]
"#,
        output: r#"["opened",1]
["applied",1,0,[1,"o"]]
["applied",1,0,[2,"o"]]
["applied",1,0,[3,"o"]]
["applied",1,0,[4,"o"]]
["applied",1,0,[5,"o"]]
["applied",1,0,[6,"p"]]
["applied",1,0,[6,"q"]]
["applied",1,0,[7,"p"]]
["applied",1,0,[7,"q"]]
["items",[[[3,"o"],["a"]],[[7,"p"],["x"]],[[6,"q"],["y"]],[[5,"o"],["c"]],[[7,"q"],["z"]]]]
"#,
    },
    Row {
        name: "concurrent_list_edits-order_3",
        input: r#"["open","d"]
["deliver","d",["op",[1,"o"],[],[[],0],["assign",{}]]]
["deliver","d",["op",[2,"o"],[["o",1]],[[["m",0]],"l"],["assign",[]]]]
["deliver","d",["op",[3,"o"],[["o",2]],[[["m",0],["l","l"]],1],["insert","a"]]]
["deliver","d",["op",[4,"o"],[["o",3]],[[["m",0],["l","l"]],[3,"o"]],["insert","b"]]]
["deliver","d",["op",[5,"o"],[["o",4]],[[["m",0],["l","l"]],[4,"o"]],["insert","c"]]]
["deliver","d",["op",[6,"p"],[["o",5]],[[["m",0],["l","l"]],[4,"o"]],["delete"]]]
["deliver","d",["op",[6,"q"],[["o",5]],[[["m",0],["l","l"]],[3,"o"]],["insert","y"]]]
["deliver","d",["op",[7,"q"],[["o",5],["q",6]],[[["m",0],["l","l"]],[5,"o"]],["insert","z"]]]
["deliver","d",["op",[7,"p"],[["o",5],["p",6]],[[["m",0],["l","l"]],[3,"o"]],["insert","x"]]]
["items","d",[0,"l"]]
"#,
        output: r#"["opened",1]
["applied",1,0,[1,"o"]]
["applied",1,0,[2,"o"]]
["applied",1,0,[3,"o"]]
["applied",1,0,[4,"o"]]
["applied",1,0,[5,"o"]]
["applied",1,0,[6,"p"]]
["applied",1,0,[6,"q"]]
["applied",1,0,[7,"q"]]
["applied",1,0,[7,"p"]]
["items",[[[3,"o"],["a"]],[[7,"p"],["x"]],[[6,"q"],["y"]],[[5,"o"],["c"]],[[7,"q"],["z"]]]]
"#,
    },
    Row {
        name: "concurrent_list_edits-order_4",
        input: r#"["open","d"]
["deliver","d",["op",[1,"o"],[],[[],0],["assign",{}]]]
["deliver","d",["op",[2,"o"],[["o",1]],[[["m",0]],"l"],["assign",[]]]]
["deliver","d",["op",[3,"o"],[["o",2]],[[["m",0],["l","l"]],1],["insert","a"]]]
["deliver","d",["op",[4,"o"],[["o",3]],[[["m",0],["l","l"]],[3,"o"]],["insert","b"]]]
["deliver","d",["op",[5,"o"],[["o",4]],[[["m",0],["l","l"]],[4,"o"]],["insert","c"]]]
["deliver","d",["op",[6,"q"],[["o",5]],[[["m",0],["l","l"]],[3,"o"]],["insert","y"]]]
["deliver","d",["op",[6,"p"],[["o",5]],[[["m",0],["l","l"]],[4,"o"]],["delete"]]]
["deliver","d",["op",[7,"p"],[["o",5],["p",6]],[[["m",0],["l","l"]],[3,"o"]],["insert","x"]]]
["deliver","d",["op",[7,"q"],[["o",5],["q",6]],[[["m",0],["l","l"]],[5,"o"]],["insert","z"]]]
["items","d",[0,"l"]]
"#,
        output: r#"["opened",1]
["applied",1,0,[1,"o"]]
["applied",1,0,[2,"o"]]
["applied",1,0,[3,"o"]]
["applied",1,0,[4,"o"]]
["applied",1,0,[5,"o"]]
["applied",1,0,[6,"q"]]
["applied",1,0,[6,"p"]]
["applied",1,0,[7,"p"]]
["applied",1,0,[7,"q"]]
["items",[[[3,"o"],["a"]],[[7,"p"],["x"]],[[6,"q"],["y"]],[[5,"o"],["c"]],[[7,"q"],["z"]]]]
"#,
    },
    Row {
        name: "concurrent_list_edits-order_5",
        input: r#"["open","d"]
["deliver","d",["op",[1,"o"],[],[[],0],["assign",{}]]]
["deliver","d",["op",[2,"o"],[["o",1]],[[["m",0]],"l"],["assign",[]]]]
["deliver","d",["op",[3,"o"],[["o",2]],[[["m",0],["l","l"]],1],["insert","a"]]]
["deliver","d",["op",[4,"o"],[["o",3]],[[["m",0],["l","l"]],[3,"o"]],["insert","b"]]]
["deliver","d",["op",[5,"o"],[["o",4]],[[["m",0],["l","l"]],[4,"o"]],["insert","c"]]]
["deliver","d",["op",[6,"q"],[["o",5]],[[["m",0],["l","l"]],[3,"o"]],["insert","y"]]]
["deliver","d",["op",[6,"p"],[["o",5]],[[["m",0],["l","l"]],[4,"o"]],["delete"]]]
["deliver","d",["op",[7,"q"],[["o",5],["q",6]],[[["m",0],["l","l"]],[5,"o"]],["insert","z"]]]
["deliver","d",["op",[7,"p"],[["o",5],["p",6]],[[["m",0],["l","l"]],[3,"o"]],["insert","x"]]]
["items","d",[0,"l"]]
"#,
        output: r#"["opened",1]
["applied",1,0,[1,"o"]]
["applied",1,0,[2,"o"]]
["applied",1,0,[3,"o"]]
["applied",1,0,[4,"o"]]
["applied",1,0,[5,"o"]]
["applied",1,0,[6,"q"]]
["applied",1,0,[6,"p"]]
["applied",1,0,[7,"q"]]
["applied",1,0,[7,"p"]]
["items",[[[3,"o"],["a"]],[[7,"p"],["x"]],[[6,"q"],["y"]],[[5,"o"],["c"]],[[7,"q"],["z"]]]]
"#,
    },
    Row {
        name: "concurrent_list_edits-order_6",
        input: r#"["open","d"]
["deliver","d",["op",[1,"o"],[],[[],0],["assign",{}]]]
["deliver","d",["op",[2,"o"],[["o",1]],[[["m",0]],"l"],["assign",[]]]]
["deliver","d",["op",[3,"o"],[["o",2]],[[["m",0],["l","l"]],1],["insert","a"]]]
["deliver","d",["op",[4,"o"],[["o",3]],[[["m",0],["l","l"]],[3,"o"]],["insert","b"]]]
["deliver","d",["op",[5,"o"],[["o",4]],[[["m",0],["l","l"]],[4,"o"]],["insert","c"]]]
["deliver","d",["op",[6,"q"],[["o",5]],[[["m",0],["l","l"]],[3,"o"]],["insert","y"]]]
["deliver","d",["op",[7,"q"],[["o",5],["q",6]],[[["m",0],["l","l"]],[5,"o"]],["insert","z"]]]
["deliver","d",["op",[6,"p"],[["o",5]],[[["m",0],["l","l"]],[4,"o"]],["delete"]]]
["deliver","d",["op",[7,"p"],[["o",5],["p",6]],[[["m",0],["l","l"]],[3,"o"]],["insert","x"]]]
["items","d",[0,"l"]]
"#,
        output: r#"["opened",1]
["applied",1,0,[1,"o"]]
["applied",1,0,[2,"o"]]
["applied",1,0,[3,"o"]]
["applied",1,0,[4,"o"]]
["applied",1,0,[5,"o"]]
["applied",1,0,[6,"q"]]
["applied",1,0,[7,"q"]]
["applied",1,0,[6,"p"]]
["applied",1,0,[7,"p"]]
["items",[[[3,"o"],["a"]],[[7,"p"],["x"]],[[6,"q"],["y"]],[[5,"o"],["c"]],[[7,"q"],["z"]]]]
"#,
    },
    Row {
        name: "map_and_list_at_one_key",
        input: r#"["open","d"]
["deliver","d",["op",[1,"p"],[],[[["m",0]],"a"],["assign",{}]]]
["deliver","d",["op",[2,"p"],[["p",1]],[[["m",0],["m","a"]],"x"],["assign","y"]]]
["deliver","d",["op",[1,"q"],[],[[["m",0]],"a"],["assign",[]]]]
["deliver","d",["op",[2,"q"],[["q",1]],[[["m",0],["l","a"]],1],["insert","z"]]]
["show","d",[0,"a"]]
"#,
        output: r#"["opened",1]
["applied",1,0,[1,"p"]]
["applied",1,0,[2,"p"]]
["applied",1,0,[1,"q"]]
["applied",1,0,[2,"q"]]
["show",[["map",[["x",[["val",[2,"p"],"y"]]]]],["list",[[["val",[2,"q"],"z"]]]]]]
"#,
    },
    Row {
        name: "map_and_list_at_one_key-causal_order_2",
        input: r#"["open","d"]
["deliver","d",["op",[1,"p"],[],[[["m",0]],"a"],["assign",{}]]]
["deliver","d",["op",[1,"q"],[],[[["m",0]],"a"],["assign",[]]]]
["deliver","d",["op",[2,"p"],[["p",1]],[[["m",0],["m","a"]],"x"],["assign","y"]]]
["deliver","d",["op",[2,"q"],[["q",1]],[[["m",0],["l","a"]],1],["insert","z"]]]
["show","d",[0,"a"]]
"#,
        output: r#"["opened",1]
["applied",1,0,[1,"p"]]
["applied",1,0,[1,"q"]]
["applied",1,0,[2,"p"]]
["applied",1,0,[2,"q"]]
["show",[["map",[["x",[["val",[2,"p"],"y"]]]]],["list",[[["val",[2,"q"],"z"]]]]]]
"#,
    },
    Row {
        name: "map_and_list_at_one_key-causal_order_3",
        input: r#"["open","d"]
["deliver","d",["op",[1,"p"],[],[[["m",0]],"a"],["assign",{}]]]
["deliver","d",["op",[1,"q"],[],[[["m",0]],"a"],["assign",[]]]]
["deliver","d",["op",[2,"q"],[["q",1]],[[["m",0],["l","a"]],1],["insert","z"]]]
["deliver","d",["op",[2,"p"],[["p",1]],[[["m",0],["m","a"]],"x"],["assign","y"]]]
["show","d",[0,"a"]]
"#,
        output: r#"["opened",1]
["applied",1,0,[1,"p"]]
["applied",1,0,[1,"q"]]
["applied",1,0,[2,"q"]]
["applied",1,0,[2,"p"]]
["show",[["map",[["x",[["val",[2,"p"],"y"]]]]],["list",[[["val",[2,"q"],"z"]]]]]]
"#,
    },
    Row {
        name: "map_and_list_at_one_key-causal_order_4",
        input: r#"["open","d"]
["deliver","d",["op",[1,"q"],[],[[["m",0]],"a"],["assign",[]]]]
["deliver","d",["op",[1,"p"],[],[[["m",0]],"a"],["assign",{}]]]
["deliver","d",["op",[2,"p"],[["p",1]],[[["m",0],["m","a"]],"x"],["assign","y"]]]
["deliver","d",["op",[2,"q"],[["q",1]],[[["m",0],["l","a"]],1],["insert","z"]]]
["show","d",[0,"a"]]
"#,
        output: r#"["opened",1]
["applied",1,0,[1,"q"]]
["applied",1,0,[1,"p"]]
["applied",1,0,[2,"p"]]
["applied",1,0,[2,"q"]]
["show",[["map",[["x",[["val",[2,"p"],"y"]]]]],["list",[[["val",[2,"q"],"z"]]]]]]
"#,
    },
    Row {
        name: "map_and_list_at_one_key-causal_order_5",
        input: r#"["open","d"]
["deliver","d",["op",[1,"q"],[],[[["m",0]],"a"],["assign",[]]]]
["deliver","d",["op",[1,"p"],[],[[["m",0]],"a"],["assign",{}]]]
["deliver","d",["op",[2,"q"],[["q",1]],[[["m",0],["l","a"]],1],["insert","z"]]]
["deliver","d",["op",[2,"p"],[["p",1]],[[["m",0],["m","a"]],"x"],["assign","y"]]]
["show","d",[0,"a"]]
"#,
        output: r#"["opened",1]
["applied",1,0,[1,"q"]]
["applied",1,0,[1,"p"]]
["applied",1,0,[2,"q"]]
["applied",1,0,[2,"p"]]
["show",[["map",[["x",[["val",[2,"p"],"y"]]]]],["list",[[["val",[2,"q"],"z"]]]]]]
"#,
    },
    Row {
        name: "map_and_list_at_one_key-causal_order_6",
        input: r#"["open","d"]
["deliver","d",["op",[1,"q"],[],[[["m",0]],"a"],["assign",[]]]]
["deliver","d",["op",[2,"q"],[["q",1]],[[["m",0],["l","a"]],1],["insert","z"]]]
["deliver","d",["op",[1,"p"],[],[[["m",0]],"a"],["assign",{}]]]
["deliver","d",["op",[2,"p"],[["p",1]],[[["m",0],["m","a"]],"x"],["assign","y"]]]
["show","d",[0,"a"]]
"#,
        output: r#"["opened",1]
["applied",1,0,[1,"q"]]
["applied",1,0,[2,"q"]]
["applied",1,0,[1,"p"]]
["applied",1,0,[2,"p"]]
["show",[["map",[["x",[["val",[2,"p"],"y"]]]]],["list",[[["val",[2,"q"],"z"]]]]]]
"#,
    },
];

// Operations that are held, released or forgotten, and hostile ones.
static HELD: [Row; 11] = [
    Row {
        name: "buffer_release",
        input: r#"["open","d"]
["deliver","d",["op",[3,"p"],[["p",2]],[[["m",0]],"k"],["assign",3]]]
["deliver","d",["op",[2,"p"],[["p",1]],[[["m",0]],"k"],["assign",2]]]
["held","d"]
["deliver","d",["op",[1,"p"],[],[[["m",0]],"k"],["assign",1]]]
["account","d"]
["values","d",[0,"k"]]
"#,
        output: r#"["opened",1]
["held",[[2,"p"]]]
["held",[[1,"p"]]]
["waiting",[[[2,"p"],[[1,"p"]]],[[3,"p"],[[2,"p"]]]]]
["applied",3,0,[1,"p"]]
["account",3]
["values",[3]]
"#,
    },
    Row {
        name: "forget_held",
        input: r#"["open","d"]
["deliver","d",["op",[3,"p"],[["p",2]],[[["m",0]],"k"],["assign",3]]]
["forget","d",[3,"p"]]
["held","d"]
["deliver","d",["op",[1,"p"],[],[[["m",0]],"k"],["assign",1]]]
["deliver","d",["op",[2,"p"],[["p",1]],[[["m",0]],"k"],["assign",2]]]
["values","d",[0,"k"]]
["deliver","d",["op",[3,"p"],[["p",2]],[[["m",0]],"k"],["assign",3]]]
"#,
        output: r#"["opened",1]
["held",[[2,"p"]]]
["forgotten"]
["waiting",[]]
["applied",1,0,[1,"p"]]
["applied",1,0,[2,"p"]]
["values",[2]]
["applied",1,0,[3,"p"]]
"#,
    },
    Row {
        name: "hostile-what_can_never_come_is_forgotten",
        input: r#"["open","d"]
["deliver","d",["op",[1,"o"],[],[[["m",0]],"l"],["assign",[]]]]
["deliver","d",["op",[2,"o"],[["o",1]],[[["m",0],["l","l"]],1],["insert","a"]]]
["deliver","d",["op",[3,"q"],[["o",2]],[[["m",0]],"k"],["assign",1]]]
["deliver","d",["op",[3,"p"],[["q",2]],[[["m",0]],"k"],["assign",9]]]
["deliver","d",["op",[2,"q"],[["o",1]],[[["m",0]],"k"],["assign",3]]]
["held","d"]
["forget","d",[3,"p"]]
["held","d"]
"#,
        output: r#"["opened",1]
["applied",1,0,[1,"o"]]
["applied",1,0,[2,"o"]]
["applied",1,0,[3,"q"]]
["held",[[2,"q"]]]
["no",14,"forked",3]
["waiting",[[[3,"p"],[[2,"q"]]]]]
["forgotten"]
["waiting",[]]
"#,
    },
    Row {
        name: "hostile-element_that_is_not_there",
        input: r#"["open","d"]
["deliver","d",["op",[1,"o"],[],[[["m",0]],"l"],["assign",[]]]]
["deliver","d",["op",[2,"o"],[["o",1]],[[["m",0],["l","l"]],1],["insert","a"]]]
["deliver","d",["op",[3,"q"],[["o",2]],[[["m",0]],"k"],["assign",1]]]
["deliver","d",["op",[4,"p"],[["o",2],["q",3]],[[["m",0],["l","l"]],[3,"q"]],["delete"]]]
"#,
        output: r#"["opened",1]
["applied",1,0,[1,"o"]]
["applied",1,0,[2,"o"]]
["applied",1,0,[3,"q"]]
["no",7,"bad-cursor"]
"#,
    },
    Row {
        name: "hostile-element_of_another_list",
        input: r#"["open","d"]
["deliver","d",["op",[1,"o"],[],[[["m",0]],"l"],["assign",[]]]]
["deliver","d",["op",[2,"o"],[["o",1]],[[["m",0],["l","l"]],1],["insert","a"]]]
["deliver","d",["op",[3,"q"],[["o",2]],[[["m",0]],"k"],["assign",1]]]
["deliver","d",["op",[3,"p"],[["o",2]],[[["m",0],["l","m"]],[2,"o"]],["delete"]]]
"#,
        output: r#"["opened",1]
["applied",1,0,[1,"o"]]
["applied",1,0,[2,"o"]]
["applied",1,0,[3,"q"]]
["no",7,"bad-cursor"]
"#,
    },
    Row {
        name: "hostile-first_of_a_chain_again",
        input: r#"["open","d"]
["deliver","d",["op",[1,"o"],[],[[["m",0]],"l"],["assign",[]]]]
["deliver","d",["op",[2,"o"],[["o",1]],[[["m",0],["l","l"]],1],["insert","a"]]]
["deliver","d",["op",[3,"q"],[["o",2]],[[["m",0]],"k"],["assign",1]]]
["deliver","d",["op",[1,"q"],[],[[["m",0]],"k"],["assign",9]]]
"#,
        output: r#"["opened",1]
["applied",1,0,[1,"o"]]
["applied",1,0,[2,"o"]]
["applied",1,0,[3,"q"]]
["no",14,"forked",3]
"#,
    },
    Row {
        name: "hostile-other_operation_of_a_logged_id",
        input: r#"["open","d"]
["deliver","d",["op",[1,"o"],[],[[["m",0]],"l"],["assign",[]]]]
["deliver","d",["op",[2,"o"],[["o",1]],[[["m",0],["l","l"]],1],["insert","a"]]]
["deliver","d",["op",[3,"q"],[["o",2]],[[["m",0]],"k"],["assign",1]]]
["deliver","d",["op",[3,"q"],[["o",2]],[[["m",0]],"k"],["assign",9]]]
"#,
        output: r#"["opened",1]
["applied",1,0,[1,"o"]]
["applied",1,0,[2,"o"]]
["applied",1,0,[3,"q"]]
["no",15,"id-conflict"]
"#,
    },
    Row {
        name: "hostile-waits_for_what_can_never_come",
        input: r#"["open","d"]
["deliver","d",["op",[1,"o"],[],[[["m",0]],"l"],["assign",[]]]]
["deliver","d",["op",[2,"o"],[["o",1]],[[["m",0],["l","l"]],1],["insert","a"]]]
["deliver","d",["op",[3,"q"],[["o",2]],[[["m",0]],"k"],["assign",1]]]
["deliver","d",["op",[3,"p"],[["q",2]],[[["m",0]],"k"],["assign",9]]]
"#,
        output: r#"["opened",1]
["applied",1,0,[1,"o"]]
["applied",1,0,[2,"o"]]
["applied",1,0,[3,"q"]]
["held",[[2,"q"]]]
"#,
    },
    Row {
        name: "local_releases_held",
        input: r#"["open","d"]
["deliver","d",["op",[2,"p"],[["srv-1",1]],[[["m",0]],"k"],["assign",7]]]
["assign","d",[0],{}]
["values","d",[0,"k"]]
["assign","d",[0,"k"],8]
"#,
        output: r#"["opened",1]
["held",[[1,"srv-1"]]]
["applied",2,0,[1,"srv-1"]]
["values",[7]]
["applied",1,0,[3,"srv-1"]]
"#,
    },
    Row {
        name: "misfit_dropped_on_release",
        input: r#"["open","d"]
["deliver","d",["op",[1,"o"],[],[[["m",0]],"l"],["assign",[]]]]
["deliver","d",["op",[3,"p"],[["o",2]],[[["m",0],["l","l"]],[2,"z"]],["assign",1]]]
["deliver","d",["op",[2,"o"],[["o",1]],[[["m",0],["l","l"]],1],["insert","a"]]]
["held","d"]
"#,
        output: r#"["opened",1]
["applied",1,0,[1,"o"]]
["held",[[2,"o"]]]
["applied",1,1,[2,"o"]]
["waiting",[]]
"#,
    },
    Row {
        name: "pull_operations",
        input: r#"["open","d"]
["deliver","d",["op",[1,"p"],[],[[["m",0]],"k"],["assign","A"]]]
["deliver","d",["op",[2,"p"],[["p",1]],[[["m",0]],"k"],["assign","B"]]]
["deliver","d",["op",[2,"q"],[["p",1]],[[["m",0]],"k"],["assign","C"]]]
["ops","d",[["p",1]],1]
["front","d"]
["ops","d",[["p",2],["q",2]],8]
"#,
        output: r#"["opened",1]
["applied",1,0,[1,"p"]]
["applied",1,0,[2,"p"]]
["applied",1,0,[2,"q"]]
["ops",[["op",[2,"p"],[["p",1]],[[["m",0]],"k"],["assign","B"]]]]
["front",[["p",2],["q",2]]]
["ops",[]]
"#,
    },
];

// Requests and operations that are refused.
static REFUSED: [Row; 8] = [
    Row {
        name: "delivered_twice",
        input: r#"["open","d"]
["deliver","d",["op",[1,"p"],[],[[["m",0]],"k"],["assign","A"]]]
["deliver","d",["op",[1,"p"],[],[[["m",0]],"k"],["assign","A"]]]
["deliver","d",["op",[1,"p"],[],[[["m",0]],"k"],["assign","Z"]]]
"#,
        output: r#"["opened",1]
["applied",1,0,[1,"p"]]
["known"]
["no",15,"id-conflict"]
"#,
    },
    Row {
        name: "foreign_refusals",
        input: r#"["open","d"]
["deliver","d",["op",[1,"o"],[],[[["m",0]],"l"],["assign",[]]]]
["deliver","d",["op",[2,"o"],[["o",1]],[[["m",0],["l","l"]],1],["insert","a"]]]
["deliver","d",["op",[3,"q"],[["o",2]],[[["m",0]],"k"],["assign",1]]]
["deliver","d",["op",[4,"p"],[["q",3]],[[["m",0]],"k"],["assign",2]]]
["deliver","d",["op",[2,"q"],[["o",1]],[[["m",0]],"k"],["assign",3]]]
["deliver","d",["op",[2,"p"],[["o",1]],[[["m",0],["l","l"]],[2,"o"]],["assign","b"]]]
["deliver","d",["op",[9,"p"],[["o",1]],[[["m",0]],"k"],["assign",2]]]
["deliver","d",["op",[1,"srv-1"],[],[[["m",0]],"k"],["assign",2]]]
["front","d"]
["account","d"]
"#,
        output: r#"["opened",1]
["applied",1,0,[1,"o"]]
["applied",1,0,[2,"o"]]
["applied",1,0,[3,"q"]]
["no",13,"bad-front"]
["no",14,"forked",3]
["no",7,"bad-cursor"]
["no",13,"bad-front"]
["no",16,"own-name"]
["front",[["o",2],["q",3]]]
["account",3]
"#,
    },
    Row {
        name: "index_and_head_refusals",
        input: r#"["open","d"]
["assign","d",[0,"l"],[]]
["delete","d",[0,"l",1]]
["delete","d",[0,"l",0]]
["insert","d",[0,"l"],1]
"#,
        output: r#"["opened",1]
["applied",1,0,[1,"srv-1"]]
["no",9,"index-past-end"]
["no",10,"at-head"]
["no",11,"not-in-list"]
"#,
    },
    Row {
        name: "request_refusals-no_open",
        input: r#"["keys","d",[0]]
["open","x"]
{}
["frob"]
[0
[[[[[[[[[[[[[[[[[[[[[[[[[[[[[[[[[[[[[[[[[[[[[[[[[[[[[[[[[[[[[[[[[[[[[[[[[[[[[[[[[[[[[[[[[[[[[[[[[[[[[[[[[[[[[[[[[[[[[[[[[[[[[[[[[[[[[[[[[[[[[[[[[[[[[[[[[[[[[[[[[[[[[[[[[[[[[[[[[[[[[[[[[[[[[[[[[[[[[[[[]]]]]]]]]]]]]]]]]]]]]]]]]]]]]]]]]]]]]]]]]]]]]]]]]]]]]]]]]]]]]]]]]]]]]]]]]]]]]]]]]]]]]]]]]]]]]]]]]]]]]]]]]]]]]]]]]]]]]]]]]]]]]]]]]]]]]]]]]]]]]]]]]]]]]]]]]]]]]]]]]]]]]]]]]]]]]]]]]]]]]]]]]]]]]]]]]]]]]]]]
"#,
        output: r#"["no",5,"not-open"]
["no",4,"no-such-document"]
["no",2,"bad-request"]
["no",2,"bad-request"]
["no",1,"not-json"]
["no",1,"not-json"]
"#,
    },
    Row {
        name: "request_refusals-open",
        input: r#"["open","d"]
["keys","d",["v"]]
["forget","d",[1,"p"]]
["deliver","d",["op",[0,"p"],[],[[["m",0]],"k"],["delete"]]]
["quit"]
"#,
        output: r#"["opened",1]
["no",8,"no-such-variable"]
["no",24,"not-held"]
["no",12,"bad-operation"]
["bye"]
"#,
    },
    Row {
        name: "request_refusals-quit_ends",
        input: r#"["quit"]
["open","d"]
"#,
        output: r#"["bye"]
"#,
    },
    Row {
        name: "scalar_limits",
        input: r#"["open","d"]
["assign","d",[0,"n"],9223372036854775807]
["assign","d",[0,"n"],9223372036854775808]
["assign","d",[0,"n"],1.5]
["assign","d",[0,"n"],{"k":1}]
["values","d",[0,"n"]]
"#,
        output: r#"["opened",1]
["applied",1,0,[1,"srv-1"]]
["no",6,"bad-value"]
["no",6,"bad-value"]
["no",6,"bad-value"]
["values",[9223372036854775807]]
"#,
    },
    Row {
        name: "scalar_limits-before",
        input: r#"["open","d"]
["assign","d",[0,"n"],9223372036854775808]
["assign","d",[0,"n"],1.5]
["assign","d",[0,"n"],{"k":1}]
["assign","d",[0,"n"],9223372036854775807]
["values","d",[0,"n"]]
"#,
        output: r#"["opened",1]
["no",6,"bad-value"]
["no",6,"bad-value"]
["no",6,"bad-value"]
["applied",1,0,[1,"srv-1"]]
["values",[9223372036854775807]]
"#,
    },
];

// Forms of operations that are refused, and some beside them that are not.
static WIRE: [Row; 13] = [
    Row {
        name: "wire-replica_name_in_capitals",
        input: r#"["open","d"]
["deliver","d",["op",[1,"P"],[],[[["m",0]],"k"],["delete"]]]
"#,
        output: r#"["opened",1]
["no",12,"bad-operation"]
"#,
    },
    Row {
        name: "wire-empty_path_without_document",
        input: r#"["open","d"]
["deliver","d",["op",[1,"p"],[],[[],"k"],["delete"]]]
"#,
        output: r#"["opened",1]
["no",12,"bad-operation"]
"#,
    },
    Row {
        name: "wire-assigns_the_document",
        input: r#"["open","d"]
["deliver","d",["op",[1,"p"],[],[[],0],["assign",{}]]]
"#,
        output: r#"["opened",1]
["applied",1,0,[1,"p"]]
"#,
    },
    Row {
        name: "wire-head_outside_a_list",
        input: r#"["open","d"]
["deliver","d",["op",[1,"p"],[],[[["m",0]],1],["delete"]]]
"#,
        output: r#"["opened",1]
["no",12,"bad-operation"]
"#,
    },
    Row {
        name: "wire-deletes_a_head",
        input: r#"["open","d"]
["deliver","d",["op",[1,"p"],[],[[["l",0]],1],["delete"]]]
"#,
        output: r#"["opened",1]
["no",12,"bad-operation"]
"#,
    },
    Row {
        name: "wire-inserts_behind_a_head",
        input: r#"["open","d"]
["deliver","d",["op",[1,"p"],[],[[["l",0]],1],["insert",null]]]
"#,
        output: r#"["opened",1]
["applied",1,0,[1,"p"]]
"#,
    },
    Row {
        name: "wire-inserts_outside_a_list",
        input: r#"["open","d"]
["deliver","d",["op",[1,"p"],[],[[["m",0]],"k"],["insert",1]]]
"#,
        output: r#"["opened",1]
["no",12,"bad-operation"]
"#,
    },
    Row {
        name: "wire-front_does_not_ascend",
        input: r#"["open","d"]
["deliver","d",["op",[3,"p"],[["q",1],["o",2]],[[["m",0]],"k"],["delete"]]]
"#,
        output: r#"["opened",1]
["no",13,"bad-front"]
"#,
    },
    Row {
        name: "wire-counter_is_not_one_more",
        input: r#"["open","d"]
["deliver","d",["op",[2,"p"],[],[[["m",0]],"k"],["delete"]]]
"#,
        output: r#"["opened",1]
["no",13,"bad-front"]
"#,
    },
    Row {
        name: "wire-value_is_no_integer",
        input: r#"["open","d"]
["deliver","d",["op",[1,"p"],[],[[["m",0]],"k"],["assign",1.5]]]
"#,
        output: r#"["opened",1]
["no",12,"bad-operation"]
"#,
    },
    Row {
        name: "wire-document_as_a_later_key",
        input: r#"["open","d"]
["deliver","d",["op",[1,"p"],[],[[["m",0],["m",0]],"k"],["delete"]]]
"#,
        output: r#"["opened",1]
["no",12,"bad-operation"]
"#,
    },
    Row {
        name: "wire-path_of_31",
        input: r#"["open","d"]
["deliver","d",["op",[1,"p"],[],[[["m",0],["m","k0"],["m","k1"],["m","k2"],["m","k3"],["m","k4"],["m","k5"],["m","k6"],["m","k7"],["m","k8"],["m","k9"],["m","k10"],["m","k11"],["m","k12"],["m","k13"],["m","k14"],["m","k15"],["m","k16"],["m","k17"],["m","k18"],["m","k19"],["m","k20"],["m","k21"],["m","k22"],["m","k23"],["m","k24"],["m","k25"],["m","k26"],["m","k27"],["m","k28"],["m","k29"]],"k"],["delete"]]]
"#,
        output: r#"["opened",1]
["no",20,"too-deep"]
"#,
    },
    Row {
        name: "wire-path_of_30",
        input: r#"["open","d"]
["deliver","d",["op",[1,"p"],[],[[["m",0],["m","k0"],["m","k1"],["m","k2"],["m","k3"],["m","k4"],["m","k5"],["m","k6"],["m","k7"],["m","k8"],["m","k9"],["m","k10"],["m","k11"],["m","k12"],["m","k13"],["m","k14"],["m","k15"],["m","k16"],["m","k17"],["m","k18"],["m","k19"],["m","k20"],["m","k21"],["m","k22"],["m","k23"],["m","k24"],["m","k25"],["m","k26"],["m","k27"],["m","k28"]],"k"],["delete"]]]
"#,
        output: r#"["opened",1]
["applied",1,0,[1,"p"]]
"#,
    },
];

// The other side of the exchange, where the server is `b`.
static EXCHANGE_OF_TWO_OTHER_SIDE: Row = Row {
    name: "exchange_of_two-second",
    input: r#"["open","d"]
["assign","d",[0,"k"],"B"]
["deliver","d",["op",[1,"srv-1"],[],[[],0],["assign",{}]]]
["deliver","d",["op",[2,"srv-1"],[["srv-1",1]],[[["m",0]],"k"],["assign","A"]]]
["front","d"]
["conflicts","d",[0,"k"]]
"#,
    output: r#"["opened",1]
["applied",1,0,[1,"b-1"]]
["applied",1,0,[1,"srv-1"]]
["applied",1,0,[2,"srv-1"]]
["front",[["b-1",1],["srv-1",2]]]
["conflicts",[[[1,"b-1"],"B"],[[2,"srv-1"],"A"]]]
"#,
};

fn exchange_of_two_other_side<R: Abort>(rt: &R, alloc: Global) {
    let row = &EXCHANGE_OF_TWO_OTHER_SIDE;
    let run = Run {
        server: "b",
        ..run_of(row.input.as_bytes())
    };
    writes(rt, alloc, row.name, run, 0, row.output.as_bytes());
}

#[test]
fn worked_rows(rt: HostRuntime) {
    let alloc = rt.alloc();
    give_all(&rt, alloc, &ALONE);
    give_all(&rt, alloc, &ORDERS);
    give_all(&rt, alloc, &LIST_ORDERS);
    give_all(&rt, alloc, &HELD);
    give_all(&rt, alloc, &REFUSED);
    give_all(&rt, alloc, &WIRE);
    give_all(&rt, alloc, &CAUSES);
    exchange_of_two_other_side(&rt, alloc);
}
