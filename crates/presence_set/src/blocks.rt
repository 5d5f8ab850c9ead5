//! The operations that make a place present, in blocks, so that one more id moves few others.
ghost use Rattle.std.specs.Prelude.{◌≡◌, ◌+◌, ◌<◌, ◌≤◌, ◌↔◌, ◌∷◌, ◌++◌, ℕ, [], true, false, length};
ghost use Rattle.std.specs.Prelude.{map, filter, take};
ghost use Rattle.std.specs.Prelude.{drop, not, insert, IsOk, IsTrue, IfSome, OnOk, OnErr};
ghost use Rattle.std.specs.Prelude.{slice_index_or, slice_set};
ghost use Rattle.lamport_id.specs.declared.id.Id.{Id};
ghost use Rattle.presence_set.specs.ById.{put_at_id, contains, uncovered, IsAscending};
ghost use Rattle.presence_set.specs.Blocks.{pairs_in, has_pair, starts_by, blocks_by, AreNonEmpty};
ghost use Rattle.presence_set.specs.Blocks.{HasSpareRoom};
ghost use Rattle.presence_set.specs.Blocks.{AllHaveRoom, HaveRoomBut, blocks_in, lack_in};
ghost use Rattle.presence_set.specs.EmptyPut.{CoversPut};
ghost use Rattle.presence_set.specs.Blocks as Spec;
ghost use Rattle.presence_set.specs.declared.lack.Lack.TheVariants.{Anywhere};

use crate::ById;
use crate::empty_put::EmptyPut;
use crate::lack::Lack;
use crate::later::LaterBlocks;
use doc_api::Role;
use lamport_id::Id;
use small_values::Lazy;
use std::alloc::{AllocError, Global};
use std::marker::Model;
use version_vector::Front;

// How many ids a block takes: so many that there are few blocks, and so
// few that one more moves little.
const FULL: usize = 256;

/// The operations that make a place present, each with its role: at most one role for each id, in
/// id order, in blocks, of which the first may be empty. Nearly every place has one block: the
/// others are in a box that is made with the second. It knows whether an empty map or list may be
/// put, so that a reader looks for one only then. Clauses see a pair: the ids with their roles, and
/// whether there is room for one more.
pub struct Presence {
    first: ById<Role>,
    later: Lazy<LaterBlocks<ById<Role>>>,
    has_room: bool,
    may_put: EmptyPut,
}

impl Model for Presence {
    ghost use Rattle.std.specs.Prelude.{List, Bool, ◌++◌};
    ghost use Rattle.lamport_id.specs.declared.id.Id.{Id};
    ghost use Rattle.doc_api.specs.declared.role.Role.{Role};
    ghost use Rattle.presence_set.specs.Blocks.{pairs_in, blocks_in, lack_in, IsInBlocks};
    ghost use Rattle.presence_set.specs.EmptyPut.{CoversPut};

    ghost Value = { List (Id × Role) × Bool };

    ghost view = { λ p. (p.first.0 ++ pairs_in (blocks_in p.later), p.has_room) };

    ghost invariant = { λ p. IsInBlocks p.first (blocks_in p.later) p.has_room (lack_in p.later)
        × CoversPut p.may_put (p.first.0 ++ pairs_in (blocks_in p.later)) };
}

impl Drop for Presence {
    fn drop(self) {
        let Presence {
            first: _,
            later: _,
            has_room: _,
            may_put: _,
        } = self;
    }
}

impl Presence {
    /// No id. It takes no memory yet.
    pub fn new(alloc: Global) -> Presence
        ensures { result.0 ≡ [] }
    {
        Presence {
            first: ById::new(alloc),
            later: Lazy::new(alloc),
            has_room: false,
            may_put: EmptyPut::none(),
        }
    }

    /// Makes room for one more id. It never fails where there is room. Out of
    /// memory, the entries stay as they are.
    pub fn reserve_one(&mut self) -> Result<(), AllocError>
        ensures same { self.new.0 ≡ self.old.0 }
        ensures grows { self.old.1 ≡ true → self.new.1 ≡ true }
        ensures room { OnOk result (self.new.1 ≡ true) }
        ensures succeeds { self.old.1 ≡ true → IsOk result }
    {
        if self.has_room {
            return Ok(());
        }
        make_room_for_one(&mut self.first, &mut self.later)?;
        self.has_room = true;
        Ok(())
    }

    /// Gives the id this value, in place of any other. The room for one more is taken by it.
    pub fn put(&mut self, id: Id, value: Role)
        requires { self.old.1 ≡ true }
        ensures { self.new ≡ (put_at_id self.old.0 id value, false) }
    {
        self.may_put = self.may_put.with(value);
        self.has_room = false;
        put_among(&mut self.first, &mut self.later, id, value);
    }

    /// Drops the ids that the front covers.
    pub fn retain_uncovered(&mut self, front: &Front)
        ensures { self.new ≡ (uncovered front.now self.old.0, self.old.1) }
    {
        retain_among(&mut self.first, &mut self.later, front);
    }

    /// Whether an empty map and an empty list may be put: of a kind for which this is false, none
    /// is.
    pub fn may_put(&self) -> EmptyPut
        ensures { CoversPut result self.now.0 }
    {
        self.may_put
    }

    /// Whether there is no id.
    pub fn is_empty(&self) -> bool
        ensures { IsTrue result ↔ (self.now.0 ≡ []) }
    {
        self.first.is_empty() && later_blocks(&self.later).is_empty()
    }

    /// Whether some entry has this id. Its block is found by bisection, and then its place in the
    /// block. The program itself doesn't call it.
    pub fn contains(&self, id: Id) -> bool
        ensures { result ≡ contains self.now.0 id }
    {
        let blocks = later_blocks(&self.later);
        match blocks_by(blocks, &id).checked_sub(1) {
            None => self.first.contains(id),
            Some(at) => blocks[at].contains(id),
        }
    }

    /// The ids with their values, in id order.
    pub fn entries(&self) -> Entries<'_, Role>
        ensures value { result ≡ self.now.0 }
        ensures ascending { IsAscending result }
    {
        entries_among(&self.first, &self.later)
    }
}

/// Ids with their values, one after another in id order, seen as the list of those that are left.
#[derive(Drop)]
pub struct Entries<'a, X> {
    entries: &'a [(Id, X)],
    blocks: &'a [ById<X>],
}

impl<'a, X> Model for Entries<'a, X> {
    ghost use Rattle.std.specs.Prelude.{List, ◌++◌};
    ghost use Rattle.lamport_id.specs.declared.id.Id.{Id};
    ghost use Rattle.presence_set.specs.Blocks.{pairs_in, AreNonEmpty};

    ghost Value = { List (Id × X) };

    ghost view = { λ e. e.entries.now ++ pairs_in e.blocks.now };

    ghost invariant = { λ e. AreNonEmpty e.blocks.now };
}

impl<'a, X: Drop> Entries<'a, X> {
    /// No id.
    pub fn none() -> Entries<'a, X>
        ensures { result ≡ [] }
    {
        Entries {
            entries: &[],
            blocks: &[],
        }
    }

    /// Whether no id is left.
    pub fn is_empty(&self) -> bool
        ensures { IsTrue result ↔ (self.now ≡ []) }
    {
        self.entries.is_empty() && self.blocks.is_empty()
    }
}

impl<'a, X: Drop> Iterator for Entries<'a, X> {
    ghost use Rattle.std.specs.Iterator.{YieldsFirstRef, item_count};

    type Item = &'a (Id, X);

    ghost next_gives = { YieldsFirstRef (λ rest. rest) };

    ghost remaining = { item_count (λ rest. rest) };

    fn next(&mut self) -> Option<&'a (Id, X)> {
        if let Some((first, rest)) = self.entries.split_first() {
            self.entries = rest;
            return Some(first);
        }
        let (block, later) = self.blocks.split_first()?;
        let (first, rest) = block.entries().split_first()?;
        self.entries = rest;
        self.blocks = later;
        Some(first)
    }
}

// How many blocks, at the front, start with an id that isn't greater: found by bisection.
pub fn blocks_by<X: Drop>(blocks: &[ById<X>], id: &Id) -> usize
    requires filled { AreNonEmpty blocks.now }
    requires rising { IsAscending (pairs_in blocks.now) }
    ensures value { result ≡ Spec.blocks_by id.now blocks.now }
    ensures within { result ≤ length blocks.now }
{
    // Most ids belong to the last block.
    let count = blocks.len();
    if count > 0 && starts_by(blocks[count - 1].entries(), id) {
        return count;
    }
    blocks.partition_point(
        |block: &ById<X>| -> bool
            ensures { result ≡ starts_by id.entry.now block.now.0 }
        { starts_by(block.entries(), id) },
    )
}

// Whether the first id isn't greater.
fn starts_by<X: Drop>(entries: &[(Id, X)], id: &Id) -> bool
    ensures { result ≡ starts_by id.now entries.now }
{
    match entries.split_first() {
        None => true,
        Some((entry, _)) => !(*id < entry.0),
    }
}

// The ids of all blocks with their values, in id order.
pub fn entries_among<'a, X: Drop>(
    first: &'a ById<X>,
    later: &'a Lazy<LaterBlocks<ById<X>>>,
) -> Entries<'a, X>
    requires { AreNonEmpty (blocks_in later.now) }
    ensures { result ≡ first.now.0 ++ pairs_in (blocks_in later.now) }
{
    Entries {
        entries: first.entries(),
        blocks: later_blocks(later),
    }
}

// The blocks behind the first: none where there is no box.
pub fn later_blocks<X: Drop>(later: &Lazy<LaterBlocks<ById<X>>>) -> &[ById<X>]
    ensures { result.now ≡ blocks_in later.now }
{
    let Some(later) = later.get() else {
        return &[];
    };
    later.blocks.as_slice()
}

// Makes room for one more id. Where the first block is full and alone,
// it makes the box for the others.
pub fn make_room_for_one<X: Drop>(
    first: &mut ById<X>,
    later: &mut Lazy<LaterBlocks<ById<X>>>,
) -> Result<(), AllocError>
    requires filled { AreNonEmpty (blocks_in later.old) }
    requires room { HaveRoomBut (lack_in later.old) first.old (blocks_in later.old) }
    ensures same { first.new.0 ++ pairs_in (blocks_in later.new)
        ≡ first.old.0 ++ pairs_in (blocks_in later.old) }
    ensures filled { AreNonEmpty (blocks_in later.new) }
    ensures lack { lack_in later.new ≡ Anywhere }
    ensures room { OnOk result (HasSpareRoom first.new × AllHaveRoom (blocks_in later.new)) }
{
    if let Some(later) = later.get_mut() {
        return make_room_among(first, later);
    }
    if first.has_room() || first.entries().len() < FULL {
        return first.reserve_one();
    }
    let none = LaterBlocks::none(later.allocator());
    make_room_among(first, later.get_or_put(none)?)
}

// Makes room for one more id in each block that may lack it.
fn make_room_among<X: Drop>(
    first: &mut ById<X>,
    later: &mut LaterBlocks<ById<X>>,
) -> Result<(), AllocError>
    requires filled { AreNonEmpty later.old.blocks.items }
    requires room { HaveRoomBut later.old.lack first.old later.old.blocks.items }
    ensures same { first.new.0 ++ pairs_in later.new.blocks.items
        ≡ first.old.0 ++ pairs_in later.old.blocks.items }
    ensures filled { AreNonEmpty later.new.blocks.items }
    ensures lack { later.new.lack ≡ Anywhere }
    ensures room { OnOk result (HasSpareRoom first.new × AllHaveRoom later.new.blocks.items) }
{
    let lack = later.lack;
    later.lack = Lack::Anywhere;
    make_room(first, &mut later.blocks, lack)
}

// Puts a value into the block where its id belongs, which may lack room then.
pub fn put_among<X: Drop>(
    first: &mut ById<X>,
    later: &mut Lazy<LaterBlocks<ById<X>>>,
    id: Id,
    value: X,
)
    requires rising { IsAscending (first.old.0 ++ pairs_in (blocks_in later.old)) }
    requires filled { AreNonEmpty (blocks_in later.old) }
    requires first { HasSpareRoom first.old }
    requires rest { AllHaveRoom (blocks_in later.old) }
    ensures same { first.new.0 ++ pairs_in (blocks_in later.new)
        ≡ put_at_id (first.old.0 ++ pairs_in (blocks_in later.old)) id value }
    ensures filled { AreNonEmpty (blocks_in later.new) }
    ensures room { HaveRoomBut (lack_in later.new) first.new (blocks_in later.new) }
{
    let Some(later) = later.get_mut() else {
        first.put(id, value);
        return;
    };
    later.lack = put_into(first, &mut later.blocks, id, value);
}

// Drops the ids that the front covers from all blocks, and those behind
// the first that are empty then.
pub fn retain_among<X: Drop>(
    first: &mut ById<X>,
    later: &mut Lazy<LaterBlocks<ById<X>>>,
    front: &Front,
)
    ensures first { first.new ≡ (uncovered front.now first.old.0, first.old.1) }
    ensures blocks { blocks_in later.new
        ≡ filter (λ b. has_pair b.0) (map
        (λ b. (uncovered front.now b.0, b.1)) (blocks_in later.old)) }
    ensures lack { lack_in later.new ≡ Anywhere }
{
    first.retain_uncovered(front);
    let Some(later) = later.get_mut() else {
        return;
    };
    later.lack = Lack::Anywhere;
    retain_each(&mut later.blocks, front);
    drop_empty(&mut later.blocks);
}

// Puts a value into the block where its id belongs, and returns that this block may lack room then.
pub fn put_into<X: Drop>(first: &mut ById<X>, rest: &mut Vec<ById<X>>, id: Id, value: X) -> Lack
    requires rising { IsAscending (first.old.0 ++ pairs_in rest.old.items) }
    requires filled { AreNonEmpty rest.old.items }
    requires first { HasSpareRoom first.old }
    requires rest { AllHaveRoom rest.old.items }
    ensures same { first.new.0 ++ pairs_in rest.new.items
        ≡ put_at_id (first.old.0 ++ pairs_in rest.old.items) id value }
    ensures filled { AreNonEmpty rest.new.items }
    ensures room { HaveRoomBut result first.new rest.new.items }
{
    match blocks_by(rest.as_slice(), &id).checked_sub(1) {
        None => {
            first.put(id, value);
            Lack::InFirst
        }
        Some(at) => {
            let block = &mut rest[at];
            block.put(id, value);
            Lack::InRest(at)
        }
    }
}

// Drops the ids that the front covers from each block.
fn retain_each<X: Drop>(blocks: &mut Vec<ById<X>>, front: &Front)
    ensures { blocks.new.items ≡ map (λ b. (uncovered front.now b.0, b.1)) blocks.old.items }
{
    for at in 0..blocks.len() {
        let block = &mut blocks[at];
        block.retain_uncovered(front);
    }
}

// Drops the blocks that are empty.
fn drop_empty<X: Drop>(blocks: &mut Vec<ById<X>>)
    ensures { blocks.new.items ≡ filter (λ b. has_pair b.0) blocks.old.items }
{
    blocks.retain(
        |block: &ById<X>| -> bool
            ensures { result ≡ has_pair block.now.0 }
        { !block.entries().is_empty() },
    );
}

// Makes room for one more id in each block that may lack it.
pub fn make_room<X: Drop>(
    first: &mut ById<X>,
    rest: &mut Vec<ById<X>>,
    lack: Lack,
) -> Result<(), AllocError>
    requires filled { AreNonEmpty rest.old.items }
    requires room { HaveRoomBut lack first.old rest.old.items }
    ensures same { first.new.0 ++ pairs_in rest.new.items ≡ first.old.0 ++ pairs_in rest.old.items }
    ensures filled { AreNonEmpty rest.new.items }
    ensures room { OnOk result (HasSpareRoom first.new × AllHaveRoom rest.new.items) }
{
    match lack {
        Lack::InFirst => make_room_in_front(first, rest),
        Lack::InRest(at) => make_room_at(rest, at),
        Lack::Anywhere => make_room_in_each(first, rest),
    }
}

// Makes room for one more id in the first block, and in the one that is cut from it.
fn make_room_in_front<X: Drop>(
    first: &mut ById<X>,
    rest: &mut Vec<ById<X>>,
) -> Result<(), AllocError>
    requires filled { AreNonEmpty rest.old.items }
    requires room { AllHaveRoom rest.old.items }
    ensures same { first.new.0 ++ pairs_in rest.new.items ≡ first.old.0 ++ pairs_in rest.old.items }
    ensures filled { AreNonEmpty rest.new.items }
    ensures room { OnOk result (HasSpareRoom first.new × AllHaveRoom rest.new.items) }
{
    make_room_in_first(first, rest)?;
    if rest.is_empty() {
        return Ok(());
    }
    make_room_at(rest, 0)
}

// Makes room for one more id in each block.
fn make_room_in_each<X: Drop>(
    first: &mut ById<X>,
    rest: &mut Vec<ById<X>>,
) -> Result<(), AllocError>
    requires { AreNonEmpty rest.old.items }
    ensures same { first.new.0 ++ pairs_in rest.new.items ≡ first.old.0 ++ pairs_in rest.old.items }
    ensures filled { AreNonEmpty rest.new.items }
    ensures room { OnOk result (HasSpareRoom first.new × AllHaveRoom rest.new.items) }
{
    make_room_in_first(first, rest)?;
    make_room_in_rest(rest)
}

// Makes room for one more id in the first block: it grows, or is cut in two.
fn make_room_in_first<X: Drop>(
    first: &mut ById<X>,
    rest: &mut Vec<ById<X>>,
) -> Result<(), AllocError>
    requires { AreNonEmpty rest.old.items }
    ensures same { first.new.0 ++ pairs_in rest.new.items ≡ first.old.0 ++ pairs_in rest.old.items }
    ensures filled { AreNonEmpty rest.new.items }
    ensures later { AllHaveRoom rest.old.items → AllHaveRoom (drop 1 rest.new.items) }
    ensures room { OnOk result (HasSpareRoom first.new) }
{
    if first.has_room() {
        return Ok(());
    }
    match cut_place(first.entries().len(), rest.is_empty()) {
        None => first.reserve_one(),
        Some(place) => cut_first(first, rest, place),
    }
}

// Where a block that is full is cut: in its midst, or, where ids come
// behind all others, before its last.
fn cut_place(len: usize, is_last: bool) -> Option<usize>
    ensures { IfSome result (λ place. (0 < place) × (place < len)) }
{
    if len < FULL {
        return None;
    }
    if is_last {
        Some(len - 1)
    } else {
        Some(len / 2)
    }
}

// Cuts the first block in two.
fn cut_first<X: Drop>(
    first: &mut ById<X>,
    rest: &mut Vec<ById<X>>,
    place: usize,
) -> Result<(), AllocError>
    requires filled { AreNonEmpty rest.old.items }
    requires full { first.old.1 ≤ length first.old.0 }
    requires inside { place < length first.old.0 }
    ensures same { first.new.0 ++ pairs_in rest.new.items ≡ first.old.0 ++ pairs_in rest.old.items }
    ensures filled { AreNonEmpty rest.new.items }
    ensures later { AllHaveRoom rest.old.items → AllHaveRoom (drop 1 rest.new.items) }
    ensures room { OnOk result (HasSpareRoom first.new) }
{
    rest.reserve(1)?;
    let high = first.split_off(place)?;
    match rest.insert(0, high) {
        Ok(()) => Ok(()),
        Err(_) => unreachable!(),
    }
}

// Makes room for one more id in each of the other blocks, from the last on.
fn make_room_in_rest<X: Drop>(rest: &mut Vec<ById<X>>) -> Result<(), AllocError>
    requires { AreNonEmpty rest.old.items }
    ensures same { pairs_in rest.new.items ≡ pairs_in rest.old.items }
    ensures filled { AreNonEmpty rest.new.items }
    ensures room { OnOk result (AllHaveRoom rest.new.items) }
{
    let mut at = rest.len();
    while at > 0 {
        at -= 1;
        make_room_at(rest, at)?;
    }
    Ok(())
}

// Makes room for one more id in a block: it grows, or is cut in two.
fn make_room_at<X: Drop>(rest: &mut Vec<ById<X>>, at: usize) -> Result<(), AllocError>
    requires known { at < length rest.old.items }
    requires filled { AreNonEmpty rest.old.items }
    requires later { AllHaveRoom (drop (at + 1) rest.old.items) }
    ensures same { pairs_in rest.new.items ≡ pairs_in rest.old.items }
    ensures filled { AreNonEmpty rest.new.items }
    ensures longer { length rest.old.items ≤ length rest.new.items }
    ensures earlier { take at rest.new.items ≡ take at rest.old.items }
    ensures room { OnOk result (AllHaveRoom (drop at rest.new.items)) }
{
    if rest[at].has_room() {
        return Ok(());
    }
    match cut_place(rest[at].entries().len(), at + 1 == rest.len()) {
        None => grow_at(rest, at),
        Some(place) => cut_at(rest, at, place),
    }
}

// Makes a block grow.
fn grow_at<X: Drop>(rest: &mut Vec<ById<X>>, at: usize) -> Result<(), AllocError>
    requires { at < length rest.old.items }
    ensures same { (n : ℕ) × (rest.new.items
        ≡ slice_set rest.old.items at ((slice_index_or rest.old.items at ([], 0)).0, n)) }
    ensures room { OnOk result (HasSpareRoom (slice_index_or rest.new.items at ([], 0))) }
{
    let block = &mut rest[at];
    block.reserve_one()
}

// Cuts a block in two, each with room for one more id.
fn cut_at<X: Drop>(rest: &mut Vec<ById<X>>, at: usize, place: usize) -> Result<(), AllocError>
    requires known { at < length rest.old.items }
    requires filled { AreNonEmpty rest.old.items }
    requires later { AllHaveRoom (drop (at + 1) rest.old.items) }
    requires some { 0 < place }
    requires inside { place < length (slice_index_or rest.old.items at ([], 0)).0 }
    ensures same { pairs_in rest.new.items ≡ pairs_in rest.old.items }
    ensures filled { AreNonEmpty rest.new.items }
    ensures longer { length rest.old.items ≤ length rest.new.items }
    ensures earlier { take at rest.new.items ≡ take at rest.old.items }
    ensures room { OnOk result (AllHaveRoom (drop at rest.new.items)) }
{
    split_at(rest, at, place)?;
    grow_at(rest, at + 1)
}

// Cuts a block in two.
fn split_at<X: Drop>(rest: &mut Vec<ById<X>>, at: usize, place: usize) -> Result<(), AllocError>
    requires known { at < length rest.old.items }
    requires inside { place < length (slice_index_or rest.old.items at ([], 0)).0 }
    ensures ok { OnOk result ((n : ℕ) × (place < n) × (m : ℕ) × (rest.new.items
        ≡ insert (slice_set rest.old.items at (take place (slice_index_or rest.old.items at ([], 0)).0, n)) (at + 1)
        (drop place (slice_index_or rest.old.items at ([], 0)).0, m))) }
    ensures err { OnErr result (rest.new.items ≡ rest.old.items) }
{
    rest.reserve(1)?;
    let block = &mut rest[at];
    let high = block.split_off(place)?;
    match rest.insert(at + 1, high) {
        Ok(()) => Ok(()),
        Err(_) => unreachable!(),
    }
}
