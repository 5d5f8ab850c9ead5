//! The entries of a map, in blocks in the order of their keys.
ghost use Rattle.std.specs.Ordering.{is_lt, nat_cmp};
ghost use Rattle.std.specs.Vec.{vec_len, vec_capacity};
ghost use Rattle.std.specs.Cmp.Lexicographic.{slice_cmp};
ghost use Rattle.std.specs.Prelude.{◌≡◌, ◌≢◌, ◌<◌, ◌≤◌, ◌+◌, ◌++◌, ◌∷◌, ◌⊎◌, ℕ, List, Bool, []};
ghost use Rattle.std.specs.Prelude.{length, take, drop};
ghost use Rattle.std.specs.Prelude.{false, MatchOption};
ghost use Rattle.std.specs.Prelude.{insert, None, Some};
ghost use Rattle.std.specs.Prelude.{OnOk, OnErr, IfOk, IfSome, IfNone, Contains, slice_index_or};
ghost use Rattle.std.specs.Prelude.{slice_set};
ghost use Rattle.crdt_rules.specs.Same.{key_eq};
ghost use Rattle.op_core.specs.declared.cursor.Key.{Key};
ghost use Rattle.key_map.specs.ByKey.{at_key};
ghost use Rattle.key_map.specs.KeyOrder.{key_cmp, IsInKeyOrder};
ghost use Rattle.key_map.specs.KeyOrder as KeyOrder;
ghost use Rattle.key_map.specs.Blocks.{joined, but_gone, block_rank, AreBlocks, AreFilled};
ghost use Rattle.key_map.specs.Blocks as Blocks;

use op_core::Key;
use std::alloc::{AllocError, Global};
use std::marker::Model;

// How many entries a block takes: enough that there are few blocks, few enough
// that an insertion moves little.
const FULL: usize = 128;

/// Where a search for a key starts: a block, and an index in it. It is only a hint: one that is
/// out of date, or that belongs to another map, costs time and changes no result.
#[derive(Clone, Copy)]
pub struct SearchHint {
    block: usize,
    index: usize,
}

impl SearchHint {
    /// The first entry of the first block.
    pub fn first() -> SearchHint {
        SearchHint { block: 0, index: 0 }
    }
}

/// Some entries of a map, in the order of their keys.
pub(crate) struct Block<V> {
    entries: Vec<(Key, V)>,
}

impl<V> Model for Block<V> {
    ghost use Rattle.std.specs.Prelude.{List};
    ghost use Rattle.op_core.specs.declared.cursor.Key.{Key};

    ghost Value = { List (Key × V) };

    ghost view = { λ b. b.entries.items };
}

impl<V: Drop> Drop for Block<V> {
    fn drop(self) {
        let Block { entries: _ } = self;
    }
}

/// The entries of a map, in the order of their keys: in blocks, so that a new one moves few of the
/// others. A search first looks at the entry that was added or found last. A block is gone from
/// when that is noted until one of its entries is noted as present. Clauses see the list of all
/// keys and values, and the blocks, with nothing in place of those that are gone.
pub struct KeyBlocks<V> {
    /// The blocks.
    pub(crate) blocks: Vec<Block<V>>,
    /// Whether a block is gone. It may be shorter than the blocks, and
    /// those past its end aren't gone.
    pub gone: Vec<bool>,
    /// Where the entry is that was added or found last.
    pub latest: SearchHint,
}

impl<V> Model for KeyBlocks<V> {
    ghost use Rattle.std.specs.Prelude.{List};
    ghost use Rattle.op_core.specs.declared.cursor.Key.{Key};
    ghost use Rattle.key_map.specs.Blocks.{joined, but_gone, AreBlocks};

    ghost Value = { List (Key × V) × List (List (Key × V)) };

    ghost view = { λ c. (joined c.blocks.items, but_gone c.gone.items c.blocks.items) };

    ghost invariant = { λ c. AreBlocks c.blocks.items };
}

impl<V: Drop> Drop for KeyBlocks<V> {
    fn drop(self) {
        let KeyBlocks {
            blocks: _,
            gone: _,
            latest: _,
        } = self;
    }
}

impl<V: Drop> KeyBlocks<V> {
    /// No entry. Allocates nothing yet.
    pub fn new(alloc: Global) -> KeyBlocks<V>
        ensures { result ≡ ([], []) }
    {
        KeyBlocks {
            blocks: Vec::new(alloc),
            gone: Vec::new(alloc),
            latest: SearchHint::first(),
        }
    }
}

/// Entries one after another, in the order of their keys, seen as the list of those that are left.
/// It passes blocks by that are gone.
#[derive(Drop)]
pub struct EachEntry<'a, V> {
    pub(crate) entries: &'a [(Key, V)],
    pub(crate) gone: &'a [bool],
    pub(crate) blocks: &'a [Block<V>],
}

impl<'a, V> Model for EachEntry<'a, V> {
    ghost use Rattle.std.specs.Prelude.{List, ◌++◌};
    ghost use Rattle.op_core.specs.declared.cursor.Key.{Key};
    ghost use Rattle.key_map.specs.Blocks.{joined, but_gone, AreFilled};

    ghost Value = { List (Key × V) };

    ghost view = { λ e. e.entries.now ++ joined (but_gone e.gone.now e.blocks.now) };

    ghost invariant = { λ e. AreFilled e.blocks.now };
}

impl<'a, V: Drop> EachEntry<'a, V> {
    /// No entry.
    pub fn none() -> EachEntry<'a, V>
        ensures { result ≡ [] }
    {
        EachEntry {
            entries: &[],
            gone: &[],
            blocks: &[],
        }
    }

    /// Takes all of the next entries that lie side by side in memory, or none if none is left.
    pub fn next_block(&mut self) -> Option<&'a [(Key, V)]>
        ensures { MatchOption result ((self.old ≡ []) × (self.new ≡ []))
            (λ block. (0 < length block.now) × (self.old ≡ block.now ++ self.new)) }
    {
        let entries = self.entries;
        if !entries.is_empty() {
            self.entries = &[];
            return Some(entries);
        }
        let (block, gone, later) = first_block(self.gone, self.blocks)?;
        self.gone = gone;
        self.blocks = later;
        Some(block)
    }
}

impl<'a, V: Drop> Iterator for EachEntry<'a, V> {
    ghost use Rattle.std.specs.Iterator.{YieldsFirstRef, item_count};

    type Item = &'a (Key, V);

    ghost next_gives = { YieldsFirstRef (λ rest. rest) };

    ghost remaining = { item_count (λ rest. rest) };

    fn next(&mut self) -> Option<&'a (Key, V)> {
        if let Some((first, rest)) = self.entries.split_first() {
            self.entries = rest;
            return Some(first);
        }
        let (block, gone, later) = first_block(self.gone, self.blocks)?;
        let (first, rest) = block.split_first()?;
        self.entries = rest;
        self.gone = gone;
        self.blocks = later;
        Some(first)
    }
}

// The entries in the first block that isn't gone, with what is noted of the
// blocks behind it, and those blocks.
fn first_block<'a, V: Drop>(
    gone: &'a [bool],
    blocks: &'a [Block<V>],
) -> Option<(&'a [(Key, V)], &'a [bool], &'a [Block<V>])>
    requires { AreFilled blocks.now }
    ensures none { IfNone result (joined (but_gone gone.now blocks.now) ≡ []) }
    ensures some { IfSome result (λ r. 0 < length r.0.now) }
    ensures all { IfSome result
        (λ r. joined (but_gone gone.now blocks.now) ≡ r.0.now
        ++ joined (but_gone r.1.now r.2.now)) }
    ensures filled { IfSome result (λ r. AreFilled r.2.now) }
{
    let (gone, blocks) = open_blocks(gone, blocks);
    let (block, later) = blocks.split_first()?;
    Some((block.entries.as_slice(), all_but_first(gone), later))
}

// The blocks from the first on that isn't gone, and what is noted of them.
fn open_blocks<'a, V: Drop>(
    gone: &'a [bool],
    blocks: &'a [Block<V>],
) -> (&'a [bool], &'a [Block<V>])
    requires { AreFilled blocks.now }
    ensures same { joined (but_gone result.0.now result.1.now)
        ≡ joined (but_gone gone.now blocks.now) }
    ensures open { slice_index_or result.0.now 0 false ≡ false ⊎ (result.1.now ≡ []) }
    ensures filled { AreFilled result.1.now }
{
    let Some((_, later)) = blocks.split_first() else {
        return (gone, blocks);
    };
    match gone.split_first() {
        None => (gone, blocks),
        Some((is, rest)) => {
            if *is {
                open_blocks(rest, later)
            } else {
                (gone, blocks)
            }
        }
    }
}

// What is noted of the blocks behind the first.
fn all_but_first(gone: &[bool]) -> &[bool]
    ensures { result.now ≡ drop 1 gone.now }
{
    match gone.split_first() {
        None => gone,
        Some((_, rest)) => rest,
    }
}

/// Whether a block is gone.
pub fn is_gone(gone: &[bool], at: usize) -> bool
    ensures { result ≡ slice_index_or gone.now at false }
{
    match gone.get(at) {
        None => false,
        Some(is) => *is,
    }
}

/// The entries in a block, gone or not.
pub fn entries_of<V: Drop>(blocks: &[Block<V>], at: usize) -> &[(Key, V)]
    ensures { result.now ≡ slice_index_or blocks.now at [] }
{
    let Some(block) = blocks.get(at) else {
        return &[];
    };
    block.entries.as_slice()
}

/// The block that has the entry at a key, if there is such an entry.
pub fn block_beside<V: Copy>(blocks: &[Block<V>], hint: SearchHint, key: &Key) -> usize
    requires { AreBlocks blocks.now }
    ensures { (n : V) → at_key (joined blocks.now) key.now ≡ Some n
        → Contains (slice_index_or blocks.now result []) (key.now, n) }
{
    if value_here(entries_of(blocks, hint.block), hint.index, key).is_some() {
        return hint.block;
    }
    block_of(blocks, key)
}

/// Has it noted of one more block that it isn't gone, unless it is noted of all. A map
/// with one block needs no notes.
pub fn make_flag<V: Drop>(gone: &mut Vec<bool>, blocks: &[Block<V>]) -> Result<(), AllocError>
    ensures { but_gone gone.new.items blocks.now ≡ but_gone gone.old.items blocks.now }
{
    if blocks.len() > 1 && gone.len() < blocks.len() {
        gone.push(false)?;
    }
    Ok(())
}

/// Notes of a block whether it is gone, if there is room to note it.
pub fn note(gone: &mut Vec<bool>, at: usize, is: bool)
    ensures { gone.new.items ≡ slice_set gone.old.items at is }
{
    if at < gone.len() {
        gone[at] = is;
    }
}

/// Where a key is, or would be, found by bisection.
pub fn hint_for<V: Drop>(blocks: &[Block<V>], key: &Key) -> SearchHint
    requires { AreBlocks blocks.now }
    ensures block { result.block ≡ block_rank key.now blocks.now }
    ensures index { result.index
        ≡ KeyOrder.key_rank (slice_index_or blocks.now result.block []) key.now }
{
    let at = block_of(blocks, key);
    match blocks.get(at) {
        None => SearchHint {
            block: at,
            index: 0,
        },
        Some(block) => SearchHint {
            block: at,
            index: rank_of_key(block.entries.as_slice(), key),
        },
    }
}

/// The index behind a hint: in its block, or at the start of the next one.
pub fn hint_behind<V: Drop>(blocks: &[Block<V>], hint: SearchHint) -> SearchHint {
    let Some(block) = blocks.get(hint.block) else {
        return hint;
    };
    let count = block.entries.len();
    if hint.index >= count {
        return hint;
    }
    if hint.index + 1 < count {
        SearchHint {
            block: hint.block,
            index: hint.index + 1,
        }
    } else {
        SearchHint {
            block: hint.block + 1,
            index: 0,
        }
    }
}

/// The index before a hint: in its block, or at the end of the block before.
pub fn hint_before<V: Drop>(blocks: &[Block<V>], hint: SearchHint) -> SearchHint {
    if hint.index > 0 {
        return SearchHint {
            block: hint.block,
            index: hint.index - 1,
        };
    }
    if hint.block == 0 {
        return hint;
    }
    match blocks.get(hint.block - 1) {
        None => hint,
        Some(block) => SearchHint {
            block: hint.block - 1,
            index: block.entries.len().saturating_sub(1),
        },
    }
}

/// The value of the entry at a hint, if its key is this one. Where bisection ends, it is
/// what all blocks have at the key.
pub fn value_there<V: Copy>(blocks: &[Block<V>], hint: SearchHint, key: &Key) -> Option<V>
    requires { AreBlocks blocks.now }
    ensures found { IfSome result (λ value. at_key (joined blocks.now) key.now ≡ Some value) }
    ensures sought { hint.block ≡ block_rank key.now blocks.now
        → hint.index ≡ KeyOrder.key_rank (slice_index_or blocks.now hint.block []) key.now
        → result ≡ at_key (joined blocks.now) key.now }
{
    match blocks.get(hint.block) {
        None => None,
        Some(block) => value_here(block.entries.as_slice(), hint.index, key),
    }
}

// The value of the entry at an index of one block, if its key is this one. Where bisection ends,
// it is what the block has at the key.
fn value_here<V: Copy>(entries: &[(Key, V)], index: usize, key: &Key) -> Option<V>
    requires { IsInKeyOrder entries.now }
    ensures found { IfSome result (λ value. Contains entries.now (key.now, value)) }
    ensures sought { index ≡ KeyOrder.key_rank entries.now key.now
        → result ≡ at_key entries.now key.now }
{
    if index < entries.len() && is_same_key(&entries[index].0, key) {
        Some(entries[index].1)
    } else {
        None
    }
}

/// How many blocks end with a lesser key, once the block to which the key
/// belongs is cut in two if it was full.
pub fn block_for<V: Drop>(
    blocks: &mut Vec<Block<V>>,
    gone: &mut Vec<bool>,
    key: &Key,
) -> Result<usize, AllocError>
    requires { AreBlocks blocks.old.items }
    ensures blocks { AreBlocks blocks.new.items }
    ensures same { joined blocks.new.items ≡ joined blocks.old.items }
    ensures gone { joined (but_gone gone.new.items blocks.new.items)
        ≡ joined (but_gone gone.old.items blocks.old.items) }
    ensures value { IfOk result (λ at. at ≡ block_rank key.now blocks.new.items) }
{
    let at = block_of(blocks.as_slice(), key);
    if at >= blocks.len() {
        return Ok(at);
    }
    let Some(half) = half_of(&blocks[at]) else {
        return Ok(at);
    };
    gone.reserve(1)?;
    cut(blocks, at, half)?;
    repeat(gone, at);
    Ok(block_of(blocks.as_slice(), key))
}

// Half of a block that takes no more.
fn half_of<V: Drop>(block: &Block<V>) -> Option<usize>
    ensures { IfSome result (λ half. (0 < half) × (half < length block.now)) }
{
    let count = block.entries.len();
    if count < FULL {
        return None;
    }
    Some(count / 2)
}

// Cuts a block in two.
fn cut<V: Drop>(blocks: &mut Vec<Block<V>>, at: usize, half: usize) -> Result<(), AllocError>
    requires blocks { AreBlocks blocks.old.items }
    requires known { at < length blocks.old.items }
    requires some { 0 < half }
    requires more { half < length (slice_index_or blocks.old.items at []) }
    ensures blocks { AreBlocks blocks.new.items }
    ensures same { joined blocks.new.items ≡ joined blocks.old.items }
    ensures ok { OnOk result (blocks.new.items
        ≡ insert (slice_set blocks.old.items at (take half (slice_index_or blocks.old.items at []))) (at + 1)
        (drop half (slice_index_or blocks.old.items at []))) }
    ensures err { OnErr result (blocks.new.items ≡ blocks.old.items) }
{
    blocks.reserve(1)?;
    let block = &mut blocks[at];
    let entries = block.entries.split_off(half)?;
    match blocks.insert(at + 1, Block { entries }) {
        Ok(()) => Ok(()),
        Err(_) => unreachable!(),
    }
}

// Notes of a second block behind one what is noted of the one.
fn repeat(gone: &mut Vec<bool>, at: usize)
    requires { vec_len gone.old < vec_capacity gone.old }
    ensures { gone.new.items ≡ Blocks.repeated gone.old.items at }
{
    if at >= gone.len() {
        return;
    }
    let is = gone[at];
    match gone.insert(at + 1, is) {
        Ok(()) => {}
        Err(_) => unreachable!(),
    }
}

/// Adds an entry at a key that has none and belongs to the block at an index.
pub fn add_entry<V: Drop>(
    blocks: &mut Vec<Block<V>>,
    at: usize,
    key: Key,
    value: V,
) -> Result<SearchHint, AllocError>
    requires blocks { AreBlocks blocks.old.items }
    requires at { at ≡ block_rank key blocks.old.items }
    requires missing { at_key (joined blocks.old.items) key ≡ None }
    ensures blocks { AreBlocks blocks.new.items }
    ensures ok { OnOk result (joined blocks.new.items
        ≡ insert (joined blocks.old.items) (KeyOrder.key_rank (joined blocks.old.items) key) (key, value)) }
    ensures err { OnErr result (joined blocks.new.items ≡ joined blocks.old.items) }
    ensures kept { (gone : List Bool) (e : Key × V)
        → Contains (joined (but_gone gone blocks.old.items)) e
        → Contains (joined (but_gone gone blocks.new.items)) e }
{
    match open_block(blocks.as_slice(), at) {
        Some(open) => put_in(blocks, open, key, value),
        None => put_behind(blocks, key, value),
    }
}

// The block for a key that belongs to the block at a index: this one, or the last
// if the key is greater than all.
fn open_block<V: Drop>(blocks: &[Block<V>], at: usize) -> Option<usize>
    requires { at ≤ length blocks.now }
    ensures open { IfSome result
        (λ n. (n < length blocks.now) × ((n ≡ at) ⊎ ((n + 1 ≡ at) × (at ≡ length blocks.now)))) }
    ensures none { IfNone result (at ≡ length blocks.now) }
{
    if at < blocks.len() {
        return Some(at);
    }
    if at > 0 && half_of(&blocks[at - 1]).is_none() {
        return Some(at - 1);
    }
    None
}

// Puts an entry into a block.
fn put_in<V: Drop>(
    blocks: &mut Vec<Block<V>>,
    at: usize,
    key: Key,
    value: V,
) -> Result<SearchHint, AllocError>
    requires known { at < length blocks.old.items }
    requires rising { IsInKeyOrder (slice_index_or blocks.old.items at []) }
    ensures ok { OnOk result (blocks.new.items
        ≡ slice_set blocks.old.items at (insert (slice_index_or blocks.old.items at [])
        (KeyOrder.key_rank (slice_index_or blocks.old.items at []) key) (key, value))) }
    ensures err { OnErr result (blocks.new.items ≡ blocks.old.items) }
{
    let block = &mut blocks[at];
    let index = rank_of_key(block.entries.as_slice(), &key);
    block.entries.insert(index, (key, value))?;
    Ok(SearchHint { block: at, index })
}

// Puts an entry behind all others, in a block of its own.
fn put_behind<V: Drop>(
    blocks: &mut Vec<Block<V>>,
    key: Key,
    value: V,
) -> Result<SearchHint, AllocError>
    ensures ok { OnOk result (blocks.new.items ≡ blocks.old.items ++ ((key, value) ∷ []) ∷ []) }
    ensures err { OnErr result (blocks.new.items ≡ blocks.old.items) }
{
    // Most maps have one entry and never a second.
    if blocks.is_empty() {
        blocks.reserve_exact(1)?;
    }
    let block = blocks.len();
    let mut entries = Vec::new(*blocks.allocator());
    entries.reserve_exact(1)?;
    entries.push((key, value))?;
    blocks.push(Block { entries })?;
    Ok(SearchHint { block, index: 0 })
}

// How many blocks end with a lesser key.
fn block_of<V: Drop>(blocks: &[Block<V>], key: &Key) -> usize
    requires { AreBlocks blocks.now }
    ensures value { result ≡ block_rank key.now blocks.now }
    ensures within { result ≤ length blocks.now }
{
    blocks.partition_point(
        |block: &Block<V>| -> bool
            ensures { result ≡ Blocks.ends_before key.entry.now block.now }
        { ends_before(block.entries.as_slice(), key) },
    )
}

// Whether the last key is less than a key.
fn ends_before<V: Drop>(entries: &[(Key, V)], key: &Key) -> bool
    ensures { result ≡ Blocks.ends_before key.now entries.now }
{
    let count = entries.len();
    if count == 0 {
        return true;
    }
    is_lesser_key(&entries[count - 1].0, key)
}

// How many entries have a lesser key.
fn rank_of_key<V: Drop>(entries: &[(Key, V)], key: &Key) -> usize
    requires { IsInKeyOrder entries.now }
    ensures value { result ≡ KeyOrder.key_rank entries.now key.now }
    ensures within { result ≤ length entries.now }
{
    entries.partition_point(
        |entry: &(Key, V)| -> bool
            ensures { result ≡ is_lt (key_cmp entry.now.0 key.entry.now) }
        { is_lesser_key(&entry.0, key) },
    )
}

// Whether a key is less than another.
fn is_lesser_key(a: &Key, b: &Key) -> bool
    ensures { result ≡ is_lt (key_cmp a.now b.now) }
{
    match (a, b) {
        (Key::Text(x), Key::Text(y)) => is_lesser_text(x.as_str(), y.as_str()),
        (Key::Element(x), Key::Element(y)) => *x < *y,
        (Key::Doc | Key::Head, Key::Text(_) | Key::Element(_)) => true,
        (Key::Doc, Key::Head) => true,
        (Key::Text(_), Key::Element(_)) => true,
        (Key::Doc | Key::Head | Key::Element(_), Key::Doc) => false,
        (Key::Text(_), Key::Doc | Key::Head) => false,
        (Key::Element(_), Key::Text(_) | Key::Head) => false,
        (Key::Head, Key::Head) => false,
    }
}

// Whether a text is less than another, in byte order.
fn is_lesser_text(a: &str, b: &str) -> bool
    ensures { result ≡ is_lt (slice_cmp nat_cmp a.now b.now) }
{
    a.cmp(b).is_lt()
}

// Whether two keys are the same.
fn is_same_key(a: &Key, b: &Key) -> bool
    ensures { result ≡ key_eq a.now b.now }
{
    a == b
}
