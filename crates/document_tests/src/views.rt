//! What is read of a tree.
use crate::holds::{holds, no_fault};
use crate::written::{DEEPEST, operations, push_next};
use converge_laws::replay_all;
use doc_api::{CompactText, Scalars, Step};
use doc_tree::Tree;
use doc_view::{
    conflicts, conflicts_text, items, items_text, keys, keys_text, resolve, show, sum, values,
};
use json_scalar::Refusal;
use lamport_id::Id;
use op_core::{Cursor, Key, KeyText, Operation, Path};
use std::alloc::Global;
use std::test::Fail;

// The tree after operations, given by their written forms.
fn tree_of(alloc: Global, texts: &[&str]) -> Result<Tree, Refusal> {
    replay_all(alloc, operations(alloc, texts)?.as_slice())
}

fn push_step(alloc: Global, steps: &mut Vec<Step>, name: &str) -> Result<(), Refusal> {
    steps.push(Step::Get(KeyText::new(alloc, name)?))?;
    Ok(())
}

/// The cursor that names lead to.
pub fn at(alloc: Global, tree: &Tree, names: &[&str]) -> Result<Cursor, Refusal> {
    let mut steps = Vec::new(alloc);
    for name in names {
        push_step(alloc, &mut steps, name)?;
    }
    resolve(tree, whole(alloc), steps.as_slice())
}

fn whole(alloc: Global) -> Cursor {
    Cursor {
        path: Path::new(alloc),
        key: Key::Doc,
    }
}

// Which text of a place.
#[derive(Clone, Copy)]
enum Text {
    Shown,
    Keys,
    Items,
    Conflicts,
}

fn compact_text(
    alloc: Global,
    tree: &Tree,
    cursor: &Cursor,
    what: Text,
) -> Result<CompactText, Refusal> {
    match what {
        Text::Shown => show(alloc, tree, cursor),
        Text::Keys => keys_text(alloc, tree, cursor),
        Text::Items => items_text(alloc, tree, cursor),
        Text::Conflicts => conflicts_text(alloc, tree, cursor),
    }
}

// The text of the place to which names lead, after operations.
struct Row {
    name: &'static str,
    texts: &'static [&'static str],
    what: Text,
    names: &'static [&'static str],
    due: &'static str,
}

const TODO: [&str; 6] = [
    r#"["op",[1,"p"],[],[[["m",0]],"todo"],["assign",[]]]"#,
    r#"["op",[2,"p"],[["p",1]],[[["m",0],["l","todo"]],1],["insert",{}]]"#,
    r#"["op",[3,"p"],[["p",2]],[[["m",0],["l","todo"],["m",[2,"p"]]],"title"],["assign","buy milk"]]"#,
    r#"["op",[4,"p"],[["p",3]],[[["m",0],["l","todo"],["m",[2,"p"]]],"done"],["assign",false]]"#,
    r#"["op",[5,"p"],[["p",4]],[[["m",0],["l","todo"]],[2,"p"]],["delete"]]"#,
    r#"["op",[5,"q"],[["p",4]],[[["m",0],["l","todo"],["m",[2,"p"]]],"done"],["assign",true]]"#,
];

const EMPTY: [&str; 2] = [
    r#"["op",[1,"p"],[],[[["m",0]],"m"],["assign",{}]]"#,
    r#"["op",[1,"q"],[],[[["m",0]],"l"],["assign",[]]]"#,
];

const MAP_AND_LIST: [&str; 4] = [
    r#"["op",[1,"p"],[],[[["m",0]],"a"],["assign",{}]]"#,
    r#"["op",[2,"p"],[["p",1]],[[["m",0],["m","a"]],"x"],["assign","y"]]"#,
    r#"["op",[1,"q"],[],[[["m",0]],"a"],["assign",[]]]"#,
    r#"["op",[2,"q"],[["q",1]],[[["m",0],["l","a"]],1],["insert","z"]]"#,
];

const PUTS: [&str; 4] = [
    r#"["op",[1,"p"],[],[[["m",0]],"a"],["assign",{}]]"#,
    r#"["op",[2,"p"],[["p",1]],[[["m",0],["m","a"]],"x"],["assign","y"]]"#,
    r#"["op",[1,"q"],[],[[["m",0]],"a"],["assign",[]]]"#,
    r#"["op",[1,"r"],[],[[["m",0]],"a"],["assign","s\"s"]]"#,
];

const ITEMS: [&str; 7] = [
    r#"["op",[1,"p"],[],[[["m",0]],"l"],["assign",[]]]"#,
    r#"["op",[2,"p"],[["p",1]],[[["m",0],["l","l"]],1],["insert",1]]"#,
    r#"["op",[3,"p"],[["p",2]],[[["m",0],["l","l"]],1],["insert",null]]"#,
    r#"["op",[4,"p"],[["p",3]],[[["m",0],["l","l"]],1],["insert","d\"d"]]"#,
    r#"["op",[5,"p"],[["p",4]],[[["m",0],["l","l"]],[3,"p"]],["delete"]]"#,
    r#"["op",[5,"q"],[["p",4]],[[["m",0],["l","l"]],[2,"p"]],["assign",true]]"#,
    r#"["op",[6,"p"],[["p",5]],[[["m",0],["l","l"]],[2,"p"]],["assign",-7]]"#,
];

const KEYS: [&str; 5] = [
    r#"["op",[1,"p"],[],[[["m",0]],"m"],["assign",{}]]"#,
    r#"["op",[2,"p"],[["p",1]],[[["m",0],["m","m"]],"b"],["assign",1]]"#,
    r#"["op",[3,"p"],[["p",2]],[[["m",0],["m","m"]],"c"],["assign",2]]"#,
    r#"["op",[4,"p"],[["p",3]],[[["m",0],["m","m"]],"a\"a"],["assign",3]]"#,
    r#"["op",[5,"p"],[["p",4]],[[["m",0],["m","m"]],"b"],["delete"]]"#,
];

const COUNTER: [&str; 3] = [
    r#"["op",[1,"p"],[],[[["m",0]],"n"],["add",5]]"#,
    r#"["op",[1,"q"],[],[[["m",0]],"n"],["add",-7]]"#,
    r#"["op",[2,"p"],[["p",1]],[[["m",0]],"n"],["assign","x"]]"#,
];

const TEXTS: [Row; 13] = [
    Row {
        name: "todo_deleted_while_edited",
        texts: &TODO,
        what: Text::Shown,
        names: &["todo"],
        due: r#"[["list",[[["map",[["done",[["val",[5,"q"],true]]]]]]]]]"#,
    },
    Row {
        name: "empty_map_and_empty_list",
        texts: &EMPTY,
        what: Text::Shown,
        names: &[],
        due: r#"[["map",[["l",[["list",[]]]],["m",[["map",[]]]]]]]"#,
    },
    Row {
        name: "map_and_list_at_one_key",
        texts: &MAP_AND_LIST,
        what: Text::Shown,
        names: &["a"],
        due: r#"[["map",[["x",[["val",[2,"p"],"y"]]]]],["list",[[["val",[2,"q"],"z"]]]]]"#,
    },
    Row {
        name: "items_text: of a list",
        texts: &ITEMS,
        what: Text::Items,
        names: &["l"],
        due: r#"[[[4,"p"],["d\"d"]],[[2,"p"],[true,-7]]]"#,
    },
    Row {
        name: "items_text: of the document",
        texts: &ITEMS,
        what: Text::Items,
        names: &[],
        due: "[]",
    },
    Row {
        name: "items_text: of nothing",
        texts: &ITEMS,
        what: Text::Items,
        names: &["absent"],
        due: "[]",
    },
    Row {
        name: "conflicts_text: of a map, a list and a scalar",
        texts: &PUTS,
        what: Text::Conflicts,
        names: &["a"],
        due: r#"[[[1,"p"],{}],[[1,"q"],[]],[[1,"r"],"s\"s"]]"#,
    },
    Row {
        name: "conflicts_text: of numbers and additions",
        texts: &COUNTER,
        what: Text::Conflicts,
        names: &["n"],
        due: r#"[[[2,"p"],"x"]]"#,
    },
    Row {
        name: "conflicts_text: of nothing",
        texts: &PUTS,
        what: Text::Conflicts,
        names: &["absent"],
        due: "[]",
    },
    Row {
        name: "keys_text: of a map",
        texts: &KEYS,
        what: Text::Keys,
        names: &["m"],
        due: r#"["a\"a","c"]"#,
    },
    Row {
        name: "keys_text: of the document",
        texts: &KEYS,
        what: Text::Keys,
        names: &[],
        due: r#"["m"]"#,
    },
    Row {
        name: "keys_text: of nothing",
        texts: &KEYS,
        what: Text::Keys,
        names: &["absent"],
        due: "[]",
    },
    Row {
        name: "counter_and_scalar",
        texts: &COUNTER,
        what: Text::Shown,
        names: &["n"],
        due: r#"[["val",[2,"p"],"x"],["cnt","-7"]]"#,
    },
];

fn has_text(alloc: Global, tree: &Tree, row: &Row) -> Result<bool, Refusal> {
    let cursor = at(alloc, tree, row.names)?;
    let text = compact_text(alloc, tree, &cursor, row.what)?;
    Ok(text.as_str() == row.due)
}

// The name of the first row whose text is another, or nothing.
fn wrong_text(alloc: Global) -> Result<&'static str, Refusal> {
    for row in &TEXTS {
        let tree = tree_of(alloc, row.texts)?;
        if !has_text(alloc, &tree, row)? {
            return Ok(row.name);
        }
    }
    Ok("")
}

#[test]
fn texts_of_lists(rt: HostRuntime) -> Result<(), Fail> {
    no_fault(&rt, wrong_text(rt.alloc())?);
    Ok(())
}

// What is wrong with the sum of the counter, and the values beside it, or nothing.
fn fault_of_counter(alloc: Global) -> Result<&'static str, Refusal> {
    let tree = tree_of(alloc, &COUNTER)?;
    let cursor = at(alloc, &tree, &["n"])?;
    Ok(if sum(&tree, &cursor)? != -7 {
        "the sum isn't -7"
    } else if values(alloc, &tree, &cursor)?.as_slice().len() != 1 {
        "there isn't one value"
    } else {
        ""
    })
}

#[test]
fn counter_and_scalar(rt: HostRuntime) -> Result<(), Fail> {
    no_fault(&rt, fault_of_counter(rt.alloc())?);
    Ok(())
}

fn is_only_text(texts: &[KeyText], text: &str) -> bool {
    match texts {
        [only] => only.as_str() == text,
        _ => false,
    }
}

// One element, of q's second operation, with one scalar.
fn is_only_item(items: &[(Id, Scalars)]) -> bool {
    match items {
        [only] => only.0.counter == 2 && only.1.as_slice().len() == 1,
        _ => false,
    }
}

// What is wrong with what is read of the place of a map and a list, or nothing.
fn fault_of_place(alloc: Global, tree: &Tree, cursor: &Cursor) -> Result<&'static str, Refusal> {
    Ok(if !is_only_text(keys(alloc, tree, cursor)?.as_slice(), "x") {
        "x isn't the only key"
    } else if !is_only_item(items(alloc, tree, cursor)?.as_slice()) {
        "the items aren't the one that is due"
    } else if conflicts(alloc, tree, cursor)?.as_slice().len() != 2 {
        "there aren't two conflicts"
    } else {
        ""
    })
}

fn fault_of_map_and_list(alloc: Global) -> Result<&'static str, Refusal> {
    let tree = tree_of(alloc, &MAP_AND_LIST)?;
    let cursor = at(alloc, &tree, &["a"])?;
    fault_of_place(alloc, &tree, &cursor)
}

#[test]
fn reads_a_place(rt: HostRuntime) -> Result<(), Fail> {
    no_fault(&rt, fault_of_map_and_list(rt.alloc())?);
    Ok(())
}

// The place at an index of the list.
fn at_index(alloc: Global, tree: &Tree, index: u64) -> Result<Cursor, Refusal> {
    let list = at(alloc, tree, &["a"])?;
    resolve(tree, list, &[Step::Index(index)])
}

// What is asked of a place.
#[derive(Clone, Copy)]
enum Asked {
    Keys,
    Values,
    Items,
    Conflicts,
    Sum,
    Text(Text),
}

// All that can be asked of a head, each of which is refused.
const ASKED: [(Asked, &str); 9] = [
    (Asked::Keys, "reads_at_a_head: keys"),
    (Asked::Values, "reads_at_a_head: values"),
    (Asked::Items, "reads_at_a_head: items"),
    (Asked::Conflicts, "reads_at_a_head: conflicts"),
    (Asked::Sum, "index_and_head_refusals: the sum"),
    (
        Asked::Text(Text::Shown),
        "reads_at_a_head: the element as text",
    ),
    (Asked::Text(Text::Keys), "reads_at_a_head: keys as text"),
    (Asked::Text(Text::Items), "reads_at_a_head: items as text"),
    (
        Asked::Text(Text::Conflicts),
        "reads_at_a_head: conflicts as text",
    ),
];

// Why what is asked of a place is refused, if it is.
fn cause(alloc: Global, tree: &Tree, cursor: &Cursor, asked: Asked) -> Option<Refusal> {
    match asked {
        Asked::Keys => keys(alloc, tree, cursor).err(),
        Asked::Values => values(alloc, tree, cursor).err(),
        Asked::Items => items(alloc, tree, cursor).err(),
        Asked::Conflicts => conflicts(alloc, tree, cursor).err(),
        Asked::Sum => sum(tree, cursor).err(),
        Asked::Text(what) => compact_text(alloc, tree, cursor, what).err(),
    }
}

// The name of what is answered at a head, or nothing.
fn answered_at(alloc: Global, tree: &Tree, head: &Cursor) -> &'static str {
    for (asked, what) in &ASKED {
        if cause(alloc, tree, head, *asked) != Some(Refusal::AtHead) {
            return what;
        }
    }
    ""
}

// What is wrong at the head of the list and past its end, or nothing.
fn fault_of_indexes(alloc: Global) -> Result<&'static str, Refusal> {
    let tree = tree_of(alloc, &MAP_AND_LIST)?;
    if at_index(alloc, &tree, 2).err() != Some(Refusal::IndexPastEnd) {
        return Ok("index_and_head_refusals: an index past the end");
    }
    let head = at_index(alloc, &tree, 0)?;
    Ok(answered_at(alloc, &tree, &head))
}

#[test]
fn reads_at_a_head_and_past_the_end(rt: HostRuntime) -> Result<(), Fail> {
    no_fault(&rt, fault_of_indexes(rt.alloc())?);
    Ok(())
}

// How deep the brackets of a text nest, none of which is in a string.
fn nesting(text: &str) -> usize {
    let mut open: usize = 0;
    let mut deepest: usize = 0;
    for byte in text.as_bytes() {
        open = match byte {
            b'[' | b'{' => open.saturating_add(1),
            b']' | b'}' => open.saturating_sub(1),
            _ => open,
        };
        deepest = deepest.max(open);
    }
    deepest
}

// How deep the brackets of a reply nest that shows the whole document after operations: it has the
// element in brackets of its own.
fn shown_nesting(alloc: Global, ops: &[Operation]) -> Result<usize, Refusal> {
    let tree = replay_all(alloc, ops)?;
    let element = show(alloc, &tree, &whole(alloc))?;
    Ok(nesting(element.as_str()).saturating_add(1))
}

// Pushes an insertion into the list to which a path leads, and makes the path that of a list in a
// map there.
fn push_list(alloc: Global, ops: &mut Vec<Operation>, path: &mut String) -> Result<(), Refusal> {
    let cursor = format!(in alloc; "[{path}],1")?;
    push_next(alloc, ops, cursor.as_str(), r#""insert",7"#)?;
    let below = format!(in alloc; ",[\"m\",[{},\"p\"]],[\"l\",\"k\"]", ops.len())?;
    path.push_str(below.as_str())?;
    Ok(())
}

// The operations that make a list in a map that is an element of a list, and so on, the last at a
// path of 30 keys.
fn insertions(alloc: Global) -> Result<Vec<Operation>, Refusal> {
    let mut ops = Vec::new(alloc);
    let mut path = String::from_str(alloc, r#"["m",0],["l","k"]"#)?;
    for _ in 0..15 {
        push_list(alloc, &mut ops, &mut path)?;
    }
    Ok(ops)
}

// How deep maps nest when shown, and how deep lists.
fn nestings(alloc: Global) -> Result<(usize, usize), Refusal> {
    let maps = shown_nesting(alloc, operations(alloc, &[DEEPEST])?.as_slice())?;
    let lists = shown_nesting(alloc, insertions(alloc)?.as_slice())?;
    Ok((maps, lists))
}

// No path is longer than 30 keys. A map has four brackets (its element, its branch, its fields and
// one of them), a list three, a scalar three (its element, its branch and its id), and the reply
// one. So nothing nests deeper than maps alone.
#[test]
fn deepest_show(rt: HostRuntime) -> Result<(), Fail> {
    let (maps, lists) = nestings(rt.alloc())?;
    holds(&rt, maps == 124, "maps don't nest 124 deep");
    holds(
        &rt,
        lists == 15 * (4 + 3) + 3 + 1,
        "lists don't nest 109 deep",
    );
    Ok(())
}
