//! Who may wait for which id.
ghost use Rattle.std.specs.Prelude.{IsTrue, ◌∷◌, ◌≡◌, ◌≢◌, ◌<◌, ◌≤◌, ◌==◌, [], ℕ, Contains, OnOk};
ghost use Rattle.std.specs.Prelude.{length, not, filter};
ghost use Rattle.std.specs.Prelude.{slice_index_or, slice_set};
ghost use Rattle.doc_api.specs.Words.{Id};
ghost use Rattle.std.specs.List.{fold};
ghost use Rattle.hold_buffer.specs.Waiters.{waiters_of, row_at, row_of, hash_step};

use lamport_id::Id;
use std::alloc::{AllocError, Global};
use std::marker::Model;

// How many rows the index has: so many that few ids share one, in 24 bytes each.
const ROWS: u64 = 4_096;

// A hash is less than this. So is the counter of an id that was not logged yet.
const HASHES: u64 = 4_294_967_296;

/// The keys of one row of the index. A contract sees them as a list.
#[derive(Debug)]
pub struct Row {
    keys: Vec<usize>,
}

impl Model for Row {
    ghost use Rattle.std.specs.Prelude.{List, ℕ};

    ghost Value = { List ℕ };

    ghost view = { λ r. r.keys.items };
}

impl Row {
    /// No key. It takes no memory yet.
    fn new(alloc: Global) -> Row
        ensures { result ≡ [] }
    {
        Row {
            keys: Vec::new(alloc),
        }
    }

    /// The keys.
    fn keys(&self) -> &[usize]
        ensures { result.now ≡ self.now }
    {
        self.keys.as_slice()
    }

    /// Puts a key behind the others, unless it is the last already. Out of memory, they stay.
    fn note(&mut self, key: usize) -> Result<(), AllocError>
        ensures kept { (k : ℕ) → Contains self.old k → Contains self.new k }
        ensures noted { OnOk result (Contains self.new key) }
    {
        if ends_with(&self.keys, key) {
            return Ok(());
        }
        self.keys.push(key)?;
        Ok(())
    }

    /// Takes a key out.
    fn forget(&mut self, key: usize)
        ensures { self.new ≡ filter (λ k. not (k == key)) self.old }
    {
        // Most rows have one key.
        if is_only(&self.keys, key) {
            self.keys.pop();
            return;
        }
        self.keys.retain(
            |noted: &usize| -> bool
                ensures { result ≡ not (noted.now == key) }
            { *noted != key },
        );
    }
}

impl Drop for Row {
    fn drop(self) {
        let Row { keys: _ } = self;
    }
}

/// The index of the missing ids, by a hash of each: a row has the keys of the operations that
/// waited for an id of the row when they were held.
#[derive(Debug, Drop)]
pub struct Waiters {
    rows: Vec<Row>,
}

impl Waiters {
    /// Nobody waits. It takes no memory yet.
    pub fn new(alloc: Global) -> Waiters
        ensures { (i : Id) → waiters_of result i ≡ [] }
    {
        Waiters {
            rows: Vec::new(alloc),
        }
    }

    /// The keys that are noted at an id, and some that are noted at others.
    pub fn of(&self, id: &Id) -> &[usize]
        ensures { result.now ≡ waiters_of self.now id.now }
    {
        let at = row_of(id);
        if at < self.rows.len() {
            self.rows[at].keys()
        } else {
            &[]
        }
    }

    /// Notes that the operation of this key waits for each of these ids. Out
    /// of memory, it is noted at none.
    pub fn note_all(&mut self, alloc: Global, ids: &[Id], key: usize) -> Result<(), AllocError>
        ensures kept { (i : Id) (k : ℕ) → k ≢ key
            → Contains (waiters_of self.old i) k → Contains (waiters_of self.new i) k }
        ensures noted { OnOk result ((i : Id) → Contains ids.now i
            → Contains (waiters_of self.new i) key) }
    {
        fill(&mut self.rows, alloc)?;
        match note_each(&mut self.rows, ids, key) {
            Ok(()) => Ok(()),
            Err(lack) => {
                forget_each(&mut self.rows, ids, key);
                Err(lack)
            }
        }
    }

    /// Takes a key out of those that are noted at these ids.
    pub fn forget_all(&mut self, ids: &[Id], key: usize)
        ensures { (i : Id) (k : ℕ) → k ≢ key
            → Contains (waiters_of self.old i) k → Contains (waiters_of self.new i) k }
    {
        forget_each(&mut self.rows, ids, key);
    }
}

// Whether the last key is this one.
fn ends_with(keys: &[usize], key: usize) -> bool
    ensures { IsTrue result → Contains keys.now key }
{
    keys.len() > 0 && keys[keys.len() - 1] == key
}

// Whether there is one key, and it is this one.
fn is_only(keys: &[usize], key: usize) -> bool
    ensures { IsTrue result → keys.now ≡ key ∷ [] }
{
    keys.len() == 1 && keys[0] == key
}

// The row of an id. That of an id that was logged since is the same.
fn row_of(id: &Id) -> usize
    ensures value { result ≡ row_of id.now }
    ensures within { result < 4096 }
{
    (hash_of(id.counter % HASHES, id.replica.as_bytes()) % ROWS) as usize
}

// A hash of a counter and the bytes of a name.
fn hash_of(counter: u64, name: &[u8]) -> u64
    requires { counter < 4294967296 }
    ensures value { result ≡ fold hash_step counter name.now }
    ensures small { result < 4294967296 }
{
    let mut hash = counter;
    for byte in name {
        hash = (hash * 31 + *byte as u64) % HASHES;
    }
    hash
}

// Makes all rows, where there are none.
fn fill(rows: &mut Vec<Row>, alloc: Global) -> Result<(), AllocError>
    ensures same { (n : ℕ) → row_at rows.new.items n ≡ row_at rows.old.items n }
    ensures all { OnOk result (4096 ≤ length rows.new.items) }
{
    for at in rows.len()..ROWS as usize {
        rows.push(Row::new(alloc))?;
    }
    Ok(())
}

// Notes a key at each of these ids.
fn note_each(rows: &mut Vec<Row>, ids: &[Id], key: usize) -> Result<(), AllocError>
    requires { 4096 ≤ length rows.old.items }
    ensures kept { (n k : ℕ) → Contains (row_at rows.old.items n) k
        → Contains (row_at rows.new.items n) k }
    ensures noted { OnOk result ((i : Id) → Contains ids.now i
        → Contains (row_at rows.new.items (row_of i)) key) }
{
    for id in ids {
        note_in(rows, row_of(id), key)?;
    }
    Ok(())
}

// Notes a key in a row.
fn note_in(rows: &mut Vec<Row>, at: usize, key: usize) -> Result<(), AllocError>
    requires { at < length rows.old.items }
    ensures len { length rows.new.items ≡ length rows.old.items }
    ensures kept { (n k : ℕ) → Contains (row_at rows.old.items n) k
        → Contains (row_at rows.new.items n) k }
    ensures noted { OnOk result (Contains (row_at rows.new.items at) key) }
{
    let row = &mut rows[at];
    row.note(key)
}

// Takes a key out of those that are noted at these ids.
fn forget_each(rows: &mut Vec<Row>, ids: &[Id], key: usize)
    ensures { (n k : ℕ) → k ≢ key → Contains (row_at rows.old.items n) k
        → Contains (row_at rows.new.items n) k }
{
    for id in ids {
        forget_at(rows, row_of(id), key);
    }
}

// Takes a key out of a row, if there are rows.
fn forget_at(rows: &mut Vec<Row>, at: usize, key: usize)
    ensures { (n k : ℕ) → k ≢ key → Contains (row_at rows.old.items n) k
        → Contains (row_at rows.new.items n) k }
{
    if at < rows.len() {
        forget_in(rows, at, key);
    }
}

// Takes a key out of a row.
fn forget_in(rows: &mut Vec<Row>, at: usize, key: usize)
    requires { at < length rows.old.items }
    ensures { (n k : ℕ) → k ≢ key → Contains (row_at rows.old.items n) k
        → Contains (row_at rows.new.items n) k }
{
    let row = &mut rows[at];
    row.forget(key);
}
