//! Whether an operation fits a log.
ghost use Rattle.std.specs.Prelude.{◌≡◌, ◌<◌, ◌↔◌, [], ◌∷◌, Contains, Some, length, get_or, drop};
ghost use Rattle.std.specs.Prelude.{true, nat_le, IfSome};
ghost use Rattle.std.specs.Prelude.{IsOk, IsTrue};
ghost use Rattle.std.specs.Option.{option_copied};
ghost use Rattle.std.specs.List.{list_all};
ghost use Rattle.op_core.specs.Limits.{most_replicas};
ghost use Rattle.version_vector.specs.Front.{is_ascending, is_le};
ghost use Rattle.op_core.specs.Op.{Op};
ghost use Rattle.op_core.specs.Shape.{is_shaped, key_of};
ghost use Rattle.crdt_rules.specs.Facts.{inserts};
ghost use Rattle.crdt_rules.specs.Log.{IsGood};
ghost use Rattle.crdt_rules.specs.Fits.{Fits, is_element, knows_cursor, knows_front, last_counter};
ghost use Rattle.crdt_rules.specs.Fits.{replicas};
ghost use Rattle.doc_rules.specs.Cause.{cause_of, misfit_of, room_cause};
ghost use Rattle.op_log.specs.Elements.{covers_cursor, covers_key, inserts_cursor};
ghost use Rattle.op_log.specs.Index.{CoversBetween};
ghost use Rattle.op_log.specs.Known.{is_pair_known};

use crate::front::{self, Entry};
use crate::log::{OpLog, keeps_good};
use json_scalar::Refusal;
use lamport_id::{Id, ReplicaName};
use op_core::{Cursor, Front, Key, Mutation, Operation, Tagged, id_of, keeps_shape};

/// The most operations of a log.
pub const MAX_OPERATIONS: usize = 100_000;

/// The most replicas of a log.
pub const MAX_REPLICAS: usize = 256;

// As long as it takes to find out what a front lacks of a replica, so many pairs are compared.
const COMPARED: usize = 4;

impl OpLog {
    /// The first cause against an operation: bad-front, forked (with the last counter of its
    /// replica), bad-cursor, log-full, too-many-replicas. It is `Ok` if the operation fits. For an
    /// operation that is not ready it is bad-front. Allocates nothing.
    pub fn check(&self, op: &Operation) -> Result<(), Refusal>
        ensures cause { result ≡ cause_of op.now self.now.operations }
        ensures fits { IsOk result ↔ Fits op.now self.now.operations }
    {
        self.first_fit_cause(op)
    }

    /// The first cause against an operation as the next of the log: id-conflict where
    /// its id is logged, otherwise that of `check`. Allocates nothing.
    pub fn check_next(&self, op: &Operation) -> Result<(), Refusal>
        ensures cause { result ≡ misfit_of op.now self.now.operations }
        ensures fits { IsOk result → Fits op.now self.now.operations }
    {
        if self.contains(op.id()) {
            return Err(Refusal::IdConflict);
        }
        self.check(op)
    }

    /// Whether the log takes one more operation of this replica: log-full from 100,000 operations
    /// on, too-many-replicas for the 257th replica. Allocates nothing.
    pub fn check_room(&self, name: ReplicaName) -> Result<(), Refusal>
        ensures { (op : Op) → op.id.replica ≡ name → result ≡ room_cause op self.now.operations }
    {
        self.room_for(self.last_counter(name))
    }

    // Whether the log takes one more operation of a replica whose last
    // counter is this one, if it has one.
    fn room_for(&self, last: Option<u64>) -> Result<(), Refusal>
        ensures { (op : Op) → last_counter self.now.operations op.id.replica ≡ last
            → result ≡ room_cause op self.now.operations }
    {
        if self.len() >= MAX_OPERATIONS {
            return Err(Refusal::LogFull);
        }
        if !self.admits(last) {
            return Err(Refusal::TooManyReplicas);
        }
        Ok(())
    }

    fn first_fit_cause(&self, op: &Operation) -> Result<(), Refusal>
        ensures cause { result ≡ cause_of op.now self.now.operations }
        ensures shaped { is_shaped op.now ≡ true }
    {
        let replica = op.id().replica;
        let last = self.last_counter(replica);
        if !self.knows_front(op.front(), replica) {
            return Err(Refusal::BadFront);
        }
        if front::counter_in(op.front(), op.id().replica) != last {
            return Err(Refusal::Forked {
                last: last.unwrap_or(0),
            });
        }
        if !self.knows_cursor(op.front(), op.cursor()) {
            return Err(Refusal::BadCursor);
        }
        self.room_for(last)
    }

    // Whether the replicas are few enough with the one whose last
    // counter is this one, if it has one.
    fn admits(&self, last: Option<u64>) -> bool
        ensures { (op : Op) → last_counter self.now.operations op.id.replica ≡ last
            → result ≡ nat_le (length (replicas (op ∷ self.now.operations))) most_replicas }
    {
        let count = self.replica_count();
        last.is_some() || count < MAX_REPLICAS
    }

    // Whether the log knows the front of an operation of this replica. The pairs of a logged
    // operation's front are known already: where that front is at most this one, they need no look.
    fn knows_front(&self, front: &Front, name: ReplicaName) -> bool
        requires { is_ascending front.now ≡ true }
        ensures { result ≡ knows_front front.now self.now.operations }
    {
        let below = self.last_below(front, name);
        let mut looked: usize = 0;
        for at in 0..front.len() {
            if !self.is_pair_below(front, below, at) {
                if self.has_looked_long(front, looked) {
                    return self.knows_rest(front, below, at);
                }
                if !self.knows_entry(front, 0, front.pair_at(at)) {
                    return false;
                }
                looked = looked.saturating_add(1);
            }
        }
        true
    }

    // Whether comparing the front with those of so many operations has taken as long as it takes to
    // find out up to where it covers all.
    fn has_looked_long(&self, front: &Front, looked: usize) -> bool {
        looked.saturating_mul(front.len()) >= self.replica_count().saturating_mul(COMPARED)
    }

    // Whether the log knows the pairs of the front from an index on.
    fn knows_rest(&self, front: &Front, below: Option<&Operation>, from: usize) -> bool
        requires ascending { is_ascending front.now ≡ true }
        requires below { IfSome (option_copied below) (λ op.
            Contains self.now.operations op × (is_le op.front front.now ≡ true)) }
        ensures { result
            ≡ list_all (is_pair_known front.now self.now.operations) (drop from front.now) }
    {
        let covered = self.covered_before(front);
        for at in from..front.len() {
            if !self.knows_pair(front, below, covered, at) {
                return false;
            }
        }
        true
    }

    // The last operation, or the last one of this replica, if its front is at most this one.
    fn last_below(&self, front: &Front, name: ReplicaName) -> Option<&Operation>
        requires { is_ascending front.now ≡ true }
        ensures below { IfSome (option_copied result) (λ op.
            Contains self.now.operations op × (is_le op.front front.now ≡ true)) }
        ensures good { IsGood self.now.operations }
    {
        keeps_good(self);
        match if_below(self.as_slice().last(), front) {
            Some(last) => Some(last),
            None => if_below(self.last_by(name), front),
        }
    }

    // Whether the pair at an index is a logged operation, whose own front is at most this one.
    fn knows_pair(
        &self,
        front: &Front,
        below: Option<&Operation>,
        covered: usize,
        at: usize,
    ) -> bool
        requires ascending { is_ascending front.now ≡ true }
        requires within { at < length front.now }
        requires below { IfSome (option_copied below) (λ op.
            Contains self.now.operations op × (is_le op.front front.now ≡ true)) }
        requires covered { CoversBetween front.now self.now.operations 0 covered }
        ensures { result
            ≡ is_pair_known front.now self.now.operations (get_or front.now at ([], 0)) }
    {
        if self.is_pair_below(front, below, at) {
            return true;
        }
        self.knows_entry(front, covered, front.pair_at(at))
    }

    // Whether the pair at an index is that operation, or its front has it, so that it is known.
    fn is_pair_below(&self, front: &Front, below: Option<&Operation>, at: usize) -> bool
        requires within { at < length front.now }
        requires below { IfSome (option_copied below) (λ op.
            Contains self.now.operations op × (is_le op.front front.now ≡ true)) }
        ensures { IsTrue result
            → is_pair_known front.now self.now.operations (get_or front.now at ([], 0)) ≡ true }
    {
        keeps_good(self);
        front::has_pair(below, front, at) || front::is_pair(below, front, at)
    }

    // Whether the pair is a logged operation, whose own front is at most this one. It is for those
    // before a position before which the front covers all, since what they knew is logged there.
    fn knows_entry(&self, front: &Front, covered: usize, entry: Entry) -> bool
        requires ascending { is_ascending front.now ≡ true }
        requires covered { CoversBetween front.now self.now.operations 0 covered }
        ensures { result ≡ is_pair_known front.now self.now.operations entry }
    {
        match self.position_of(id_of(entry.0, entry.1)) {
            Some(at) => at < covered || is_front_at_most(&self.as_slice()[at], front),
            None => false,
        }
    }

    // Whether the front covers the elements of a cursor, and the log inserts them.
    fn knows_cursor(&self, front: &Front, cursor: &Cursor) -> bool
        ensures { result
            ≡ knows_cursor front.now self.now.operations [] cursor.now.path cursor.now.key }
    {
        covers_elements(front, cursor) && self.inserts_elements(cursor.path.as_slice(), &cursor.key)
    }

    // Whether the log inserts the elements of a cursor. Only the last one is looked at: its
    // insertion names those before it.
    fn inserts_elements(&self, path: &[Tagged], key: &Key) -> bool
        ensures { result ≡ inserts_cursor self.now.operations [] path.now key.now }
    {
        if let Key::Element(id) = key {
            keeps_good(self);
            return self.is_element(path, *id);
        }
        match path.split_last() {
            None => true,
            Some((last, before)) => self.inserts_elements(before, last.key()),
        }
    }

    // Whether an insertion into the list at the path has this id.
    fn is_element(&self, path: &[Tagged], id: Id) -> bool
        ensures { result ≡ is_element self.now.operations path.now id }
    {
        match self.get(id) {
            Some(op) => inserts_at(path, op),
            None => false,
        }
    }
}

// Whether the front covers the elements of a cursor.
fn covers_elements(front: &Front, cursor: &Cursor) -> bool
    ensures { result ≡ covers_cursor front.now cursor.now.path cursor.now.key }
{
    covers_path(front, cursor.path.as_slice()) && covers_key(front, &cursor.key)
}

fn covers_path(front: &Front, path: &[Tagged]) -> bool
    ensures { result ≡ list_all (λ tag. covers_key front.now (key_of tag)) path.now }
{
    path.iter().all(|tag| covers_key(front, tag.key()))
}

fn covers_key(front: &Front, key: &Key) -> bool
    ensures { result ≡ covers_key front.now key.now }
{
    match key {
        Key::Element(id) => front.covers(*id),
        Key::Doc | Key::Text(_) | Key::Head => true,
    }
}

fn inserts_at(path: &[Tagged], op: &Operation) -> bool
    ensures { result ≡ inserts op.now path.now }
{
    matches!(op.mutation(), Mutation::Insert(_)) && op.cursor().path.as_slice() == path
}

// The operation, if there is one, and its front is at most this one.
fn if_below<'a>(op: Option<&'a Operation>, front: &Front) -> Option<&'a Operation>
    requires { is_ascending front.now ≡ true }
    ensures same { IfSome (option_copied result) (λ o. option_copied op.entry ≡ Some o) }
    ensures below { IfSome (option_copied result) (λ o. is_le o.front front.now ≡ true) }
{
    let op = op?;
    if is_front_at_most(op, front) {
        Some(op)
    } else {
        None
    }
}

// Whether the front of an operation is at most another.
#[tactic(auto, using(crate::proofs::Comparing::shaped_ascending))]
fn is_front_at_most(op: &Operation, front: &Front) -> bool
    requires { is_ascending front.now ≡ true }
    ensures { result ≡ is_le op.now.front front.now }
{
    keeps_shape(op);
    front::is_at_most(op.front(), front)
}
