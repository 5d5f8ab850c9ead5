//! Indices of elements.
ghost use Rattle.std.specs.Prelude.{Ok};
ghost use Rattle.op_core.specs.declared.cursor.Key.TheVariants.{Element};
ghost use Rattle.doc_tree.specs.Nodes.{tree_facts};
ghost use Rattle.doc_rules.specs.Index.{IsIndexAt};

use doc_tree::Tree;
use json_scalar::Refusal;
use lamport_id::Id;
use op_core::{Cursor, Key, Tagged};

/// How many present elements of the list come up to the one at a cursor, itself included where it
/// is present: so a present element's index. It is 0 at a head, and `NotInList` where the cursor
/// ends at a text or is the document. It takes no memory.
pub fn index(tree: &Tree, cursor: &Cursor) -> Result<u64, Refusal>
    ensures { IsIndexAt (tree_facts tree.now) cursor.now.path cursor.now.key result }
{
    match &cursor.key {
        Key::Doc => Err(Refusal::NotInList),
        Key::Text(_) => Err(Refusal::NotInList),
        Key::Element(id) => Ok(index_at(tree, cursor.path.as_slice(), id)),
        Key::Head => Ok(0),
    }
}

fn index_at(tree: &Tree, list: &[Tagged], id: &Id) -> u64
    ensures { IsIndexAt (tree_facts tree.now) list.now (Element id.now) (Ok result) }
{
    match tree.list_at(list) {
        None => 0,
        Some(node) => tree.index_of(node, id) as u64,
    }
}
