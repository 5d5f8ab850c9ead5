//! The values of a register and of a counter.
ghost use Rattle.std.specs.Prelude.{◌≡◌, ◌≢◌, ◌<◌, length, map, Err};
ghost use Rattle.json_scalar.specs.declared.refusal.Refusal.TheVariants.{NoMemory};
ghost use Rattle.doc_tree.specs.Nodes.{tree_facts};
ghost use Rattle.doc_rules.specs.Views.{AreValues, IsSum, total};
ghost use Rattle.doc_view.specs.ByNumber.{AtReader};
ghost use Rattle.doc_view.specs.Readings.{GivesUnlessMemory, ReadsUnlessMemory};

use crate::node_reader::NodeReader;
use doc_api::Scalars;
use doc_tree::{Entries, Tree};
use json_scalar::{Refusal, Scalar};
use lamport_id::Id;
use op_core::{Cursor, Key, Path};
use std::alloc::Global;

/// The scalars of the register at a cursor, in the order of their ids. `AtHead` where the cursor is
/// at a head.
pub fn values(alloc: Global, tree: &Tree, cursor: &Cursor) -> Result<Scalars, Refusal>
    ensures { ReadsUnlessMemory (AreValues (tree_facts tree.now)) cursor.now result }
{
    if cursor.key.is_head() {
        return Err(Refusal::AtHead);
    }
    scalars_of(alloc, tree.register(&cursor.path, &cursor.key))
}

/// The scalars of the register of a node.
pub fn values_below(node: NodeReader<'_>) -> Result<Scalars, Refusal>
    ensures { GivesUnlessMemory (λ scalars. AtReader node.entry
        (λ tree p k. AreValues (tree_facts tree) p k scalars)) result }
{
    scalars_of(node.alloc, node.tree.register_of(node.at))
}

fn scalars_of(alloc: Global, entries: &[(Id, Scalar)]) -> Result<Scalars, Refusal>
    ensures { GivesUnlessMemory (λ scalars. scalars ≡ map (λ e. e.1) entries.now) result }
{
    // Most registers have one scalar.
    let mut scalars = Vec::with_capacity(alloc, entries.len())?;
    for entry in entries {
        scalars.push(entry.1.try_clone()?)?;
    }
    Ok(Scalars::from(scalars))
}

/// The total of the numbers of the counter at a cursor. `AtHead` where the cursor is at a head. It
/// takes no memory, and is never `NoMemory`.
pub fn sum(tree: &Tree, cursor: &Cursor) -> Result<i128, Refusal>
    ensures reading { ReadsUnlessMemory (IsSum (tree_facts tree.now)) cursor.now result }
    ensures memory { result ≢ Err NoMemory }
{
    if cursor.key.is_head() {
        return Err(Refusal::AtHead);
    }
    Ok(sum_at(tree, &cursor.path, &cursor.key))
}

fn sum_at(tree: &Tree, path: &Path, key: &Key) -> i128
    ensures { IsSum (tree_facts tree.now) path.now key.now result }
{
    total_of(tree.counter(path, key))
}

// There are fewer than 2^64 entries, so the total of 64-bit numbers is within 128 bits.
pub fn total_of(entries: Entries<'_, i64>) -> i128
    requires { length entries < 18446744073709551616 }
    ensures { result ≡ total entries.entry }
{
    let mut total: i128 = 0;
    for entry in entries {
        total += i128::from(entry.1);
    }
    total
}
