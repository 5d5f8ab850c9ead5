//! The log.
ghost use Rattle.std.specs.Prelude.{◌≡◌, ◌+◌, ◌<◌, ◌≤◌, ℕ, List, [], ◌∷◌, ◌++◌, length, get_or};
ghost use Rattle.std.specs.Prelude.{take, drop, map, true, Some, None, MatchOption, slice_get};
ghost use Rattle.std.specs.Prelude.{filter, not, ◌==◌, Contains, OnOk, IfOk, IfErr, IfSome, Ok};
ghost use Rattle.std.specs.List.{list_all};
ghost use Rattle.std.specs.Option.{option_copied};
ghost use Rattle.json_scalar.specs.Refusal.{UnlessMemory};
ghost use Rattle.op_core.specs.Limits.{most_replicas};
ghost use Rattle.version_vector.specs.Front.{id_of, is_ascending};
ghost use Rattle.op_core.specs.Op.{Op};
ghost use Rattle.crdt_rules.specs.Dependencies.{is_logged, is_ready, missing};
ghost use Rattle.crdt_rules.specs.Fits.{last_counter, Fits, replicas};
ghost use Rattle.crdt_rules.specs.Log.{IsGood};
ghost use Rattle.crdt_rules.specs.Pull.{front_of};
ghost use Rattle.doc_rules.specs.Answers.{since};
ghost use Rattle.doc_rules.specs.Encoded.{operations_text};
ghost use Rattle.doc_rules.specs.Replica.{find_id};
ghost use Rattle.op_log.specs.Index.{IsUncovered, CoversBetween};
ghost use Rattle.op_log.specs.Lacks.{HoldsLacks, IsNextOfSince};
ghost use Rattle.op_log.specs.Chained.{IsNextOfChain};

use crate::clones::{clone_all, first_uncovered};
use crate::encode::text_of_uncovered;
use crate::front::{self, Entry};
use crate::index::{Index, Lacks};
use doc_api::{CompactText, Ids, Operations};
use json_scalar::Refusal;
use lamport_id::{Id, ReplicaName};
use op_core::{Front, Operation, id_of};
use std::alloc::Global;
use std::marker::Model;

/// A log of operations, which only grows, and each of which fits those before it. A contract sees
/// it as the list of its operations, and for how many more it has room.
#[derive(Debug)]
pub struct OpLog {
    entries: Vec<Operation>,
    index: Index,
    front: Vec<Entry>,
}

impl Model for OpLog {
    ghost use Rattle.op_log.specs.Log.{Log, room_of};
    ghost use Rattle.op_log.specs.Index.{IsIndexed};

    ghost Value = { Log };

    ghost view = { λ l. record { operations = l.entries.items; room = room_of l.entries l.index l.front } };

    ghost invariant = { λ l. IsIndexed l.entries.items l.index l.front.items };
}

impl OpLog {
    /// The log with no operation. It keeps the allocator.
    pub fn new(alloc: Global) -> OpLog
        ensures { result.operations ≡ [] }
    {
        OpLog {
            entries: Vec::new(alloc),
            index: Index::new(alloc),
            front: Vec::new(alloc),
        }
    }

    /// A clone of the log: its operations share their parts with the clones, and its index is
    /// copied. No operation is checked again. The only error is out of memory.
    pub fn try_clone(&self, alloc: Global) -> Result<OpLog, Refusal>
        ensures ok { IfOk result (λ l. l.operations ≡ self.now.operations) }
        ensures err { IfErr result (λ e. e ≡ Refusal.NoMemory) }
    {
        Ok(OpLog {
            entries: clone_all(alloc, self.entries.as_slice())?,
            index: self.index.try_clone(alloc)?,
            front: Vec::from_slice(alloc, self.front.as_slice())?,
        })
    }

    /// How many operations there are.
    pub fn len(&self) -> usize
        ensures len { result ≡ length self.now.operations }
        ensures good { IsGood self.now.operations }
    {
        self.entries.len()
    }

    /// Whether there is none.
    pub fn is_empty(&self) -> bool
        ensures { result ≡ (length self.now.operations == 0) }
    {
        self.entries.is_empty()
    }

    /// The operations, in the order in which they were logged.
    pub fn as_slice(&self) -> &[Operation]
        ensures { result.now ≡ self.now.operations }
    {
        self.entries.as_slice()
    }

    /// The operation of this id, by one search among those of its replica.
    pub fn get(&self, id: Id) -> Option<&Operation>
        ensures good { IsGood self.now.operations }
        ensures found { option_copied result ≡ find_id self.now.operations id }
    {
        self.index.find(&self.entries, &id)
    }

    /// Whether the operation of this id is logged, by one search among those of its replica.
    pub fn contains(&self, id: Id) -> bool
        ensures { result ≡ is_logged self.now.operations id }
    {
        self.get(id).is_some()
    }

    /// The counter of the replica's last operation, if it has one.
    pub fn last_counter(&self, name: ReplicaName) -> Option<u64>
        ensures { result ≡ last_counter self.now.operations name }
    {
        front::last_of(&self.front, name)
    }

    /// How many replicas have operations: at most 256.
    pub fn replica_count(&self) -> usize
        ensures count { result ≡ length (replicas self.now.operations) }
        ensures within { result ≤ most_replicas }
    {
        self.front.len()
    }

    /// Makes room for n more operations, whatever their replicas. The only error is out of memory,
    /// which leaves the operations as they were.
    pub fn reserve(&mut self, n: usize) -> Result<(), Refusal>
        ensures operations { self.new.operations ≡ self.old.operations }
        ensures kept { self.old.room ≤ self.new.room }
        ensures ok { OnOk result (n ≤ self.new.room) }
        ensures err { IfErr result (λ e. e ≡ Refusal.NoMemory) }
    {
        self.entries.reserve(n)?;
        self.index.reserve(n)?;
        self.front.reserve(n)?;
        Ok(())
    }

    /// Adds an operation that fits, in room that was reserved. Allocates nothing. Where it
    /// has no clones, it shares the names of its front, the chunks of counters and the keys
    /// of its path with its replica's operation before it or with the last one, where they
    /// have the same, and frees its own.
    pub fn append(&mut self, op: Operation)
        requires fits { Fits op self.old.operations }
        requires room { 1 ≤ self.old.room }
        ensures operations { self.new.operations ≡ self.old.operations ++ op ∷ [] }
        ensures room { self.old.room ≤ self.new.room + 1 }
    {
        let Id { counter, replica } = op.id();
        let before = self.index.push(&self.entries, replica);
        front::put_last(&mut self.front, replica, counter);
        let op = front::sharing(op, &self.entries, before.number());
        self.entries.push_reserved(op);
    }

    /// Returns the operation as it was. Where it has no clones, it shares with its replica's
    /// last operation or with the last of all what `append` shares. So call this before a clone
    /// is appended. Allocates nothing.
    pub fn sharing(&self, op: Operation) -> Operation
        ensures { result ≡ op }
    {
        let before = match self.index.last_of(op.id().replica) {
            Some(position) => position.number(),
            None => self.entries.len(),
        };
        front::sharing(op, &self.entries, before)
    }

    /// The front of the log (a version vector): each replica with the counter of its last
    /// operation. It shares its names with that of the last operation where they have the same, and
    /// the chunks of counters that both have. The only error is out of memory.
    pub fn front(&self) -> Result<Front, Refusal>
        ensures { UnlessMemory result (Ok (front_of self.now.operations)) }
    {
        let alloc = *self.front.allocator();
        front::beside_last(alloc, &self.front, &self.entries)
    }

    /// The first operations that the front does not cover, at most `limit` of them, in their order.
    /// Where the front's pairs ascend, those that it covers are passed over by searches. The only
    /// error is out of memory. The program itself calls `since_text`.
    pub fn since(&self, front: &Front, limit: usize) -> Result<Operations, Refusal>
        ensures { UnlessMemory result (Ok (take limit (since front.now self.now.operations))) }
    {
        let alloc = *self.entries.allocator();
        Ok(Operations::from(first_uncovered(alloc, self, front, limit)?))
    }

    /// What `since` returns, as the compact JSON text of an array. The only error is out of memory.
    pub fn since_text(&self, front: &Front, limit: usize) -> Result<CompactText, Refusal>
        ensures { UnlessMemory result (Ok (operations_text (take limit (since front.now self.now.operations)))) }
    {
        let alloc = *self.entries.allocator();
        text_of_uncovered(alloc, self, front, limit)
    }

    /// The position of the replica's first operation with a counter above one and at most another,
    /// or the number of operations. It is searched among those of its replica.
    pub fn next_of(&self, name: &ReplicaName, above: u64, last: u64) -> usize
        ensures { IsNextOfChain name.now above last self.now.operations result }
    {
        self.index.next_of(&self.entries, name, above, last)
    }

    // The position of the first operation from a position on that the front does not cover, or the
    // number of operations. The one right before that position, if there is one, isn't covered.
    // The only error is out of memory.
    pub(crate) fn next_uncovered(
        &self,
        front: &Front,
        from: usize,
        lacks: &mut Lacks,
    ) -> Result<usize, Refusal>
        requires within { from ≤ length self.now.operations }
        requires before { (k : ℕ) → k + 1 ≡ from → IsUncovered front.now self.now.operations k }
        requires lacks { HoldsLacks front.now self.now.operations lacks.old }
        ensures lacks { HoldsLacks front.now self.now.operations lacks.new }
        ensures ok { IfOk result (IsNextOfSince front.now self.now.operations from) }
        ensures err { IfErr result (λ e. e ≡ Refusal.NoMemory) }
    {
        self.index.next_uncovered(&self.entries, front, from, lacks)
    }

    /// The operations after the first `from`, at most `max` of them.
    /// The only error is out of memory.
    pub fn tail(&self, from: usize, max: usize) -> Result<Operations, Refusal>
        ensures { UnlessMemory result (Ok (take max (drop from self.now.operations))) }
    {
        let start = from.min(self.entries.len());
        let len = max.min(self.entries.len() - start);
        let alloc = *self.entries.allocator();
        Ok(Operations::from(clone_all(alloc, &self.entries[start..start + len])?))
    }

    /// Whether each id of the front of an operation is logged.
    pub fn is_ready(&self, op: &Operation) -> bool
        ensures { result ≡ is_ready op.now self.now.operations }
    {
        self.logs_front(op.front())
    }

    /// The ids of the front of an operation that are not logged, in the order of the front.
    /// The only error is out of memory.
    pub fn missing(&self, op: &Operation) -> Result<Ids, Refusal>
        ensures { UnlessMemory result (Ok (missing op.now self.now.operations)) }
    {
        let alloc = *self.entries.allocator();
        Ok(Ids::from(self.unlogged(alloc, op.front())?))
    }

    // Whether the id of each pair is logged. Those in the front of the last operation are.
    fn logs_front(&self, front: &Front) -> bool
        ensures { result ≡ list_all (λ e. is_logged self.now.operations (id_of e)) front.now }
    {
        let last = self.as_slice().last();
        for at in 0..front.len() {
            if !self.logs_pair(front, last, at) {
                return false;
            }
        }
        true
    }

    // Whether the id of the pair at an index is logged.
    fn logs_pair(&self, front: &Front, last: Option<&Operation>, at: usize) -> bool
        requires within { at < length front.now }
        requires logged { IfSome (option_copied last) (λ op. Contains self.now.operations op) }
        ensures { result ≡ is_logged self.now.operations (id_of (get_or front.now at ([], 0))) }
    {
        if front::has_pair(last, front, at) {
            keeps_good(self);
            return true;
        }
        self.contains(id_at(front, at))
    }

    /// Whether the operation of an id is one of the first `n`.
    pub fn is_among_first(&self, n: usize, id: Id) -> bool
        ensures { result ≡ is_logged (take n self.now.operations) id }
    {
        match self.position_of(id) {
            Some(at) => at < n,
            None => false,
        }
    }

    // The last operation of a replica, if it has one.
    pub(crate) fn last_by(&self, name: ReplicaName) -> Option<&Operation>
        ensures { IfSome (option_copied result) (λ op. Contains self.now.operations op) }
    {
        match self.index.last_of(name) {
            Some(at) => Some(&self.entries[at.number()]),
            None => None,
        }
    }

    // The position of the operation of an id.
    pub(crate) fn position_of(&self, id: Id) -> Option<usize>
        ensures good { IsGood self.now.operations }
        ensures within { IfSome result (λ k. k < length self.now.operations) }
        ensures found { MatchOption result (find_id self.now.operations id ≡ None)
            (λ k. (op : Op) × (slice_get self.now.operations k ≡ Some op)
            × (find_id self.now.operations id ≡ Some op)) }
    {
        self.index.position_of(&self.entries, &id)
    }

    // A position before which the front covers all operations. Its pairs ascend.
    pub(crate) fn covered_before(&self, front: &Front) -> usize
        requires { is_ascending front.now ≡ true }
        ensures { CoversBetween front.now self.now.operations 0 result }
    {
        self.index.covered_before(&self.entries, front)
    }

    // The ids of a front that are not logged.
    fn unlogged(&self, alloc: Global, front: &Front) -> Result<Vec<Id>, Refusal>
        ensures ok { IfOk result (λ ids.
            ids.items ≡ filter (λ i. not (is_logged self.now.operations i)) (map id_of front.now)) }
        ensures err { IfErr result (λ e. e ≡ Refusal.NoMemory) }
    {
        let mut ids = Vec::new(alloc);
        for at in 0..front.len() {
            if !self.contains(id_at(front, at)) {
                ids.push(id_at(front, at))?;
            }
        }
        Ok(ids)
    }
}

fn id_at(front: &Front, at: usize) -> Id
    requires { at < length front.now }
    ensures { (d : List ℕ × ℕ) → result ≡ id_of (get_or front.now at d) }
{
    let (name, counter) = front.pair_at(at);
    id_of(name, counter)
}

/// Each log is good. It does nothing: its call gives a caller's proof
/// what the type says of the value.
pub fn keeps_good(log: &OpLog)
    ensures { IsGood log.now.operations }
{
    let _length = log.len();
}

// By hand, so that it is called and not written out where a log is dropped.
impl Drop for OpLog {
    fn drop(self) {
        let OpLog {
            entries: _,
            index: _,
            front: _,
        } = self;
    }
}
