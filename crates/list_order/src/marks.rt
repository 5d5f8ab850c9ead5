//! What is kept of each slot beside its id and link, and the blocks that count the present ids.
ghost use Rattle.std.specs.Prelude.{◌≡◌, ◌^◌, ◌&&◌, nat_eq, ◌+◌, ◌-◌, ◌<◌, ◌≤◌, ◌++◌, ◌∷◌, []};
ghost use Rattle.std.specs.Prelude.{length, suc, None, Some};
ghost use Rattle.std.specs.Prelude.{slice_get, vec_capacity, IsOk, OnOk};
ghost use Rattle.std.specs.Option.{ForSome};
ghost use Rattle.list_order.specs.Slots.{slots_from, LinksEnd};
ghost use Rattle.list_order.specs.Marks.{bit, block_at, lowered_in, moved_in, present_from};
ghost use Rattle.list_order.specs.Marks.{set_block, set_mark};
ghost use Rattle.list_order.specs.Marks.{new_mark, FitsChain, IsClosed, IsRecut, MaySet};
ghost use Rattle.list_order.specs.Marks as Spec;

use crate::slots::{Chain, SlotNumber};
use lamport_id::Id;
use std::alloc::{AllocError, Global};

// How many slots a block has at most when it is cut: each may be a miss of the
// cache, and the blocks are in a row.
const BLOCK_LEN: usize = 48;

// How many absent ids in a row end a block, so that a reading goes from the last present
// id before them to the next one.
const LEAST_RUN: usize = 32;

// How long a list is that is cut for the first time.
const FIRST_CUT: usize = 128;

/// Whether the id of a slot is present, and the block that the slot is in.
#[derive(Clone, Copy)]
pub(crate) struct Mark {
    pub is_present: bool,
    pub block: usize,
}

/// How many ids of a block are present, the slot behind the block, and a counter that
/// none of the block's ids is below.
#[derive(Clone, Copy)]
pub(crate) struct MarkBlock {
    pub present: usize,
    pub end: Option<SlotNumber>,
    pub least_counter: u64,
}

// When the blocks of a list are cut the next time.
#[derive(Clone, Copy)]
struct NextCuts {
    // How long it is to be for all of them.
    whole: usize,
    // How long it is to be for the slots behind the last of them.
    tail: usize,
    // After how many more deletions all of them are cut.
    deletions: usize,
}

/// The marks of the slots of a chain, cut into blocks along its links. Slots
/// behind the last block are in none.
#[derive(Drop)]
pub struct Marks {
    pub(crate) by_slot: Vec<Mark>,
    pub(crate) blocks: Vec<MarkBlock>,
    /// How many ids are present.
    pub present: usize,
    next_cuts: NextCuts,
}

impl Marks {
    /// No marks. They take no memory yet.
    pub fn new(alloc: Global) -> Marks
        ensures by_slot { result.by_slot.items ≡ [] }
        ensures blocks { result.blocks.items ≡ [] }
        ensures present { result.present ≡ 0 }
    {
        Marks {
            by_slot: Vec::new(alloc),
            blocks: Vec::new(alloc),
            present: 0,
            next_cuts: NextCuts {
                whole: FIRST_CUT,
                tail: FIRST_CUT,
                deletions: FIRST_CUT,
            },
        }
    }

    /// Makes room for one more mark, and for all blocks of a list of this length, if there is
    /// memory. Without it the list has fewer blocks, and readings take longer.
    pub fn reserve_one(&mut self, len: usize) -> Result<(), AllocError>
        ensures by_slot { self.new.by_slot.items ≡ self.old.by_slot.items }
        ensures blocks { self.new.blocks.items ≡ self.old.blocks.items }
        ensures present { self.new.present ≡ self.old.present }
        ensures grows { vec_capacity self.old.by_slot ≤ vec_capacity self.new.by_slot }
        ensures room { OnOk result (length self.new.by_slot.items < vec_capacity self.new.by_slot) }
        ensures succeeds { length self.old.by_slot.items < vec_capacity self.old.by_slot
            → IsOk result }
    {
        let wanted = (len / LEAST_RUN).saturating_sub(self.blocks.len());
        let _ = self.blocks.reserve(wanted);
        self.by_slot.reserve(1)
    }

    /// The mark of a slot.
    pub(crate) fn at(&self, n: SlotNumber) -> Mark
        requires { n.0 < length self.now.by_slot.items }
        ensures { result ≡ Spec.mark_at self.now.by_slot.items n }
    {
        self.by_slot[n.0]
    }

    // The block that a slot is in, or the first.
    fn block_behind(&self, previous: Option<SlotNumber>) -> usize
        requires { ForSome previous (λ p. p.0 < length self.now.by_slot.items) }
        ensures { result ≡ Spec.block_behind self.now.by_slot.items previous }
    {
        match previous {
            None => 0,
            Some(n) => self.at(n).block,
        }
    }

    /// Adds the mark of a new slot behind another, or in front. Its id has this counter.
    pub fn add(&mut self, previous: Option<SlotNumber>, counter: u64)
        requires known { ForSome previous (λ p. p.0 < length self.old.by_slot.items) }
        requires room { length self.old.by_slot.items < vec_capacity self.old.by_slot }
        ensures by_slot { self.new.by_slot.items
            ≡ self.old.by_slot.items ++ new_mark self.old.by_slot.items previous ∷ [] }
        ensures blocks { self.new.blocks.items
            ≡ lowered_in self.old.blocks.items (Spec.block_behind self.old.by_slot.items previous) counter }
        ensures present { self.new.present ≡ self.old.present }
        ensures capacity { vec_capacity self.new.by_slot ≡ vec_capacity self.old.by_slot }
    {
        let block = self.block_behind(previous);
        lower_least(&mut self.blocks, block, counter);
        let last = self.by_slot.len();
        match self.by_slot.insert(
            last,
            Mark {
                is_present: false,
                block,
            },
        ) {
            Ok(()) => {}
            Err(_) => unreachable!(),
        }
    }

    /// Marks the id of a slot as present or not, and moves the counts.
    pub fn set_presence(&mut self, n: SlotNumber, is: bool)
        requires may { MaySet self.old.by_slot.items self.old.blocks.items self.old.present n is }
        ensures by_slot { self.new.by_slot.items ≡ set_mark self.old.by_slot.items n is }
        ensures blocks { let mark = Spec.mark_at self.old.by_slot.items n in
            self.new.blocks.items ≡ moved_in self.old.blocks.items mark.block mark.is_present is }
        ensures present { self.new.present
            ≡ Spec.moved self.old.present (Spec.mark_at self.old.by_slot.items n).is_present is }
        ensures capacity { vec_capacity self.new.by_slot ≡ vec_capacity self.old.by_slot }
    {
        let mark = self.at(n);
        self.by_slot[n.0].is_present = is;
        move_count(&mut self.blocks, mark.block, mark.is_present, is);
        self.present = moved(self.present, mark.is_present, is);
    }
}

// Says of a block, if there is one of that number, that it has an id with this counter.
fn lower_least(blocks: &mut Vec<MarkBlock>, k: usize, counter: u64)
    ensures { blocks.new.items ≡ lowered_in blocks.old.items k counter }
{
    if k < blocks.len() {
        let least = blocks[k].least_counter;
        blocks[k].least_counter = least.min(counter);
    }
}

/// 1 for what is so.
pub fn bit(is: bool) -> usize
    ensures { result ≡ bit is }
{
    if is { 1 } else { 0 }
}

// A count after one mark was changed.
fn moved(count: usize, was: bool, is: bool) -> usize
    requires counted { bit was ≤ count }
    requires fits { Spec.moved count was is < 2 ^ 64 }
    ensures { result ≡ Spec.moved count was is }
{
    count - bit(was) + bit(is)
}

// Moves the count of a block, if there is one of that number.
fn move_count(blocks: &mut Vec<MarkBlock>, k: usize, was: bool, is: bool)
    requires counted { k < length blocks.old.items
        → bit was ≤ (block_at blocks.old.items k).present }
    requires fits { k < length blocks.old.items
        → Spec.moved (block_at blocks.old.items k).present was is < 2 ^ 64 }
    ensures { blocks.new.items ≡ moved_in blocks.old.items k was is }
{
    if k < blocks.len() {
        let count = blocks[k].present;
        blocks[k].present = moved(count, was, is);
    }
}

// Whether the wanted id is reached.
fn is_due(is_present: bool, left: usize) -> bool
    ensures { result ≡ (is_present && nat_eq left 0) }
{
    is_present && left == 0
}

impl Marks {
    // The i-th present id from a slot on.
    fn nth_from(&self, chain: &Chain, start: Option<SlotNumber>, i: usize) -> Option<Id>
        requires walk { LinksEnd chain.now.slots.items start }
        requires marked { length self.now.by_slot.items ≡ length chain.now.slots.items }
        ensures { result ≡ slice_get (present_from chain.now self.now start) i }
    {
        let mut left = i;
        let mut at = start;
        while let Some(n) = at {
            let slot = chain.slot_at(n);
            let is_present = self.at(n).is_present;
            if is_due(is_present, left) {
                return Some(slot.id);
            }
            left -= bit(is_present);
            at = slot.next;
        }
        None
    }

    /// The i-th present id: it goes from block to block, and then from slot to slot.
    pub fn nth(&self, chain: &Chain, i: usize) -> Option<Id>
        requires fits { FitsChain chain.now self.now }
        ensures { result ≡ slice_get (present_from chain.now self.now chain.now.first) i }
    {
        let mut left = i;
        let mut at = chain.first;
        for block in self.blocks.as_slice() {
            if left < block.present {
                break;
            }
            left -= block.present;
            at = block.end;
        }
        self.nth_from(chain, at, left)
    }
}

impl Marks {
    // How many ids are present from a slot on up to another, itself included.
    fn count_from(&self, chain: &Chain, start: Option<SlotNumber>, n: SlotNumber) -> usize
        requires walk { LinksEnd chain.now.slots.items start }
        requires marked { length self.now.by_slot.items ≡ length chain.now.slots.items }
        ensures { result
            ≡ Spec.count_to n self.now.by_slot.items (slots_from chain.now.slots.items start) }
    {
        let mut count = 0;
        let mut at = start;
        while let Some(m) = at {
            let is_present = self.at(m).is_present;
            count += bit(is_present);
            if m.0 == n.0 {
                break;
            }
            at = chain.slot_at(m).next;
        }
        count
    }

    /// How many ids are present up to a slot, itself included: it adds up the blocks before the
    /// slot's, and then goes from slot to slot.
    pub fn count_to(&self, chain: &Chain, n: SlotNumber) -> usize
        requires fits { FitsChain chain.now self.now }
        requires within { n.0 < length self.now.by_slot.items }
        ensures { result ≡ Spec.count_to n self.now.by_slot.items
            (slots_from chain.now.slots.items chain.now.first) }
    {
        let mut left = self.at(n).block;
        let mut count = 0;
        let mut start = chain.first;
        for block in self.blocks.as_slice() {
            if left == 0 {
                break;
            }
            left -= 1;
            count += block.present;
            start = block.end;
        }
        count + self.count_from(chain, start, n)
    }
}

// The slots behind the blocks that are cut so far.
#[derive(Clone, Copy)]
struct Open {
    len: usize,
    present: usize,
    // the absent ids at their end
    run: usize,
    least_counter: u64,
}

// No slots.
fn none_open() -> Open
    ensures { result.present ≡ 0 }
{
    Open {
        len: 0,
        present: 0,
        run: 0,
        least_counter: u64::MAX,
    }
}

// Puts a slot into a block. The answer is whether its id is present.
fn set_block(marks: &mut Vec<Mark>, n: SlotNumber, block: usize) -> bool
    requires { n.0 < length marks.old.items }
    ensures items { marks.new.items ≡ set_block marks.old.items n block }
    ensures capacity { vec_capacity marks.new ≡ vec_capacity marks.old }
    ensures presence { result ≡ (Spec.mark_at marks.old.items n).is_present }
{
    marks[n.0].block = block;
    marks[n.0].is_present
}

// How many absent ids are at the end, with one more id behind them.
fn longer_run(run: usize, is_present: bool) -> usize {
    if is_present { 0 } else { run.saturating_add(1) }
}

// Closes a block that is whole, where there is room for one.
fn closed(blocks: &mut Vec<MarkBlock>, rest: Open, end: Option<SlotNumber>, is_whole: bool) -> Open
    ensures { IsClosed blocks.old.items blocks.new.items rest.present rest.least_counter end
        result.present result.least_counter }
{
    if is_whole && blocks.len() < blocks.capacity() {
        let last = blocks.len();
        match blocks.insert(
            last,
            MarkBlock {
                present: rest.present,
                end,
                least_counter: rest.least_counter,
            },
        ) {
            Ok(()) => {}
            Err(_) => unreachable!(),
        }
        none_open()
    } else {
        rest
    }
}

// When a list of this length that was just cut is cut again.
fn cuts_behind(len: usize) -> NextCuts {
    NextCuts {
        whole: len.saturating_add(64 + len / 8),
        tail: len.saturating_add(BLOCK_LEN),
        deletions: 64 + len / 8,
    }
}

// When a list of this length of which so many slots were put into new blocks at its end is cut
// again. Those don't make other blocks longer.
fn cuts_behind_tail(next: NextCuts, len: usize, cut: usize) -> NextCuts {
    NextCuts {
        whole: next.whole.saturating_add(cut),
        tail: len.saturating_add(BLOCK_LEN),
        deletions: next.deletions,
    }
}

impl Marks {
    // Whether the id of a slot is present, if there is one.
    fn is_present_at(&self, at: Option<SlotNumber>) -> bool {
        match at {
            Some(n) if n.0 < self.by_slot.len() => self.by_slot[n.0].is_present,
            _ => false,
        }
    }

    // Whether a block ends in front of a slot: it is long, or it ends in a run of
    // absent ids and a present one comes.
    fn is_whole(&self, rest: Open, at: Option<SlotNumber>) -> bool {
        rest.len >= BLOCK_LEN || (rest.run >= LEAST_RUN && self.is_present_at(at))
    }

    // The first slot behind all blocks.
    fn behind_blocks(&self, first: Option<SlotNumber>) -> Option<SlotNumber>
        ensures none { length self.now.blocks.items ≡ 0 → result ≡ first }
        ensures last { 0 < length self.now.blocks.items
            → result ≡ (block_at self.now.blocks.items (length self.now.blocks.items - 1)).end }
    {
        if self.blocks.is_empty() {
            first
        } else {
            self.blocks[self.blocks.len() - 1].end
        }
    }

    // Cuts the slots behind the blocks into blocks, too.
    fn cut_on(&mut self, chain: &Chain)
        requires fits { FitsChain chain.now self.old }
        ensures fits { FitsChain chain.now self.new }
        ensures same { IsRecut self.old self.new }
    {
        let mut rest = none_open();
        let mut at = self.behind_blocks(chain.first);
        while let Some(n) = at {
            let block = self.blocks.len();
            let is_present = set_block(&mut self.by_slot, n, block);
            let slot = chain.slot_at(n);
            at = slot.next;
            let longer = Open {
                len: rest.len.saturating_add(1),
                present: rest.present + bit(is_present),
                run: longer_run(rest.run, is_present),
                least_counter: rest.least_counter.min(slot.id.counter),
            };
            let is_whole = self.is_whole(longer, at);
            rest = closed(&mut self.blocks, longer, at, is_whole);
        }
    }

    // Cuts the whole list into blocks anew.
    fn recut(&mut self, chain: &Chain)
        requires fits { FitsChain chain.now self.old }
        ensures fits { FitsChain chain.now self.new }
        ensures same { IsRecut self.old self.new }
    {
        self.blocks.clear();
        self.cut_on(chain);
        self.next_cuts = cuts_behind(chain.slots.len());
    }

    /// Cuts the list into blocks anew, where enough slots are new, and else the slots behind the
    /// blocks, where there may be many of them.
    pub fn recut_if_due(&mut self, chain: &Chain)
        requires fits { FitsChain chain.now self.old }
        ensures fits { FitsChain chain.now self.new }
        ensures same { IsRecut self.old self.new }
    {
        let len = chain.slots.len();
        if self.next_cuts.whole < len {
            self.recut(chain);
        } else if self.next_cuts.tail < len {
            let before = self.blocks.len();
            self.cut_on(chain);
            let cut = self
                .blocks
                .len()
                .saturating_sub(before)
                .saturating_mul(BLOCK_LEN);
            self.next_cuts = cuts_behind_tail(self.next_cuts, len, cut);
        }
    }

    /// Cuts the list into blocks anew after a deletion, where there were enough of them since the
    /// last time: a block ends at a run of absent ids, and a reading passes over it.
    pub fn recut_if_stale(&mut self, chain: &Chain, is_present: bool)
        requires fits { FitsChain chain.now self.old }
        ensures fits { FitsChain chain.now self.new }
        ensures same { IsRecut self.old self.new }
    {
        if is_present {
            return;
        }
        if self.next_cuts.deletions > 0 {
            self.next_cuts.deletions -= 1;
        } else {
            self.recut(chain);
        }
    }
}
