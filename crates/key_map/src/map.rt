//! The map, in a box that is made with its first entry.
ghost use Rattle.std.specs.Prelude.{◌≡◌, ◌≢◌, ◌⊎◌, ◌<◌, ℕ, [], length, insert, None, Some, OnOk};
ghost use Rattle.std.specs.Prelude.{OnErr, IfOk, Contains, slice_index_or};
ghost use Rattle.op_core.specs.declared.cursor.Key.{Key};
ghost use Rattle.key_map.specs.ByKey.{at_key};
ghost use Rattle.key_map.specs.KeyOrder.{IsInKeyOrder};
ghost use Rattle.key_map.specs.KeyOrder as KeyOrder;
ghost use Rattle.key_map.specs.Blocks.{joined};

use crate::blocks::{
    EachEntry, KeyBlocks, SearchHint, add_entry, block_beside, block_for, entries_of, hint_before,
    hint_behind, hint_for, is_gone, make_flag, note, value_there,
};
use op_core::Key;
use small_values::Lazy;
use std::alloc::{AllocError, Global};
use std::marker::Model;

/// Values by keys, in the order of the keys: texts in byte order, then elements in id order. It is
/// one word until its first entry. A caller may note that a block of entries is gone: `each` and
/// `block` then pass it by, `find` doesn't. Clauses see the list of all keys and values, and the
/// blocks, with nothing in place of those that are gone: `KeyBlocks` says what they are.
pub struct KeyMap<V> {
    blocks: Lazy<KeyBlocks<V>>,
}

impl<V> Model for KeyMap<V> {
    ghost use Rattle.std.specs.Prelude.{List, [], unwrap_or};
    ghost use Rattle.op_core.specs.declared.cursor.Key.{Key};

    ghost Value = { List (Key × V) × List (List (Key × V)) };

    ghost view = { λ m. unwrap_or m.blocks ([], []) };
}

impl<V: Drop> Drop for KeyMap<V> {
    fn drop(self) {
        let KeyMap { blocks: _ } = self;
    }
}

impl<V: Copy> KeyMap<V> {
    /// No entry. It takes no memory yet.
    pub fn new(alloc: Global) -> KeyMap<V>
        ensures { result ≡ ([], []) }
    {
        KeyMap {
            blocks: Lazy::new(alloc),
        }
    }

    /// The value at a key, found by bisection.
    pub fn find(&self, key: &Key) -> Option<V>
        ensures { result ≡ at_key self.now.0 key.now }
    {
        let map = self.blocks.get()?;
        if let Some(value) = value_there(map.blocks.as_slice(), map.latest, key) {
            return Some(value);
        }
        value_there(
            map.blocks.as_slice(),
            hint_for(map.blocks.as_slice(), key),
            key,
        )
    }

    /// The same as `find`, which then finds the entry at once. Asking for keys in their order is
    /// fast: each entry is right behind the one before.
    pub fn seek(&mut self, key: &Key) -> Option<V>
        ensures same { self.new ≡ self.old }
        ensures value { result ≡ at_key self.old.0 key.now }
    {
        let map = self.blocks.get_mut()?;
        if let Some(value) = value_there(map.blocks.as_slice(), map.latest, key) {
            return Some(value);
        }
        let next = hint_behind(map.blocks.as_slice(), map.latest);
        if let Some(value) = value_there(map.blocks.as_slice(), next, key) {
            map.latest = next;
            return Some(value);
        }
        map.latest = hint_for(map.blocks.as_slice(), key);
        value_there(map.blocks.as_slice(), map.latest, key)
    }

    /// The same as `find`, fast if the entry is right behind the hint or right before it. The
    /// hint is then where the entry is.
    pub fn find_beside(&self, key: &Key, hint: &mut SearchHint) -> Option<V>
        ensures { result ≡ at_key self.now.0 key.now }
    {
        let map = self.blocks.get()?;
        let next = hint_behind(map.blocks.as_slice(), *hint);
        if let Some(value) = value_there(map.blocks.as_slice(), next, key) {
            *hint = next;
            return Some(value);
        }
        let last = hint_before(map.blocks.as_slice(), *hint);
        if let Some(value) = value_there(map.blocks.as_slice(), last, key) {
            *hint = last;
            return Some(value);
        }
        *hint = hint_for(map.blocks.as_slice(), key);
        value_there(map.blocks.as_slice(), *hint, key)
    }

    /// Adds an entry at a key that has none, in the order of keys. It fails only if out of memory.
    pub fn insert(&mut self, key: Key, value: V) -> Result<(), AllocError>
        requires { at_key self.old.0 key ≡ None }
        ensures ok { OnOk result
            (self.new.0 ≡ insert self.old.0 (KeyOrder.key_rank self.old.0 key) (key, value)) }
        ensures err { OnErr result (self.new.0 ≡ self.old.0) }
        ensures kept { (e : Key × V) → Contains (joined self.old.1) e
            → Contains (joined self.new.1) e }
    {
        let none = KeyBlocks::new(self.blocks.allocator());
        let map = self.blocks.get_or_put(none)?;
        make_flag(&mut map.gone, map.blocks.as_slice())?;
        let at = block_for(&mut map.blocks, &mut map.gone, &key)?;
        map.latest = add_entry(&mut map.blocks, at, key, value)?;
        Ok(())
    }

    /// The entries in blocks that aren't gone, in the order of their keys.
    pub fn each(&self) -> EachEntry<'_, V>
        ensures value { result ≡ joined self.now.1 }
        ensures rising { IsInKeyOrder result }
        ensures some { (e : Key × V) → Contains result e
            → at_key self.now.0 e.0 ≡ Some e.1 }
    {
        let Some(map) = self.blocks.get() else {
            return EachEntry::none();
        };
        EachEntry {
            entries: &[],
            gone: map.gone.as_slice(),
            blocks: map.blocks.as_slice(),
        }
    }

    /// How many blocks there are, those that are gone included.
    pub fn block_count(&self) -> usize
        ensures { result ≡ length self.now.1 }
    {
        let Some(map) = self.blocks.get() else {
            return 0;
        };
        map.blocks.len()
    }

    /// The entries in a block, or none if it is gone, or there is no such block.
    pub fn block(&self, at: usize) -> &[(Key, V)]
        ensures value { result.now ≡ slice_index_or self.now.1 at [] }
        ensures some { (e : Key × V) → Contains result.now e
            → at_key self.now.0 e.0 ≡ Some e.1 }
    {
        let Some(map) = self.blocks.get() else {
            return &[];
        };
        if is_gone(map.gone.as_slice(), at) {
            return &[];
        }
        entries_of(map.blocks.as_slice(), at)
    }

    /// The index of the block that has the entry at a key. Without such an entry, any index.
    pub fn block_with(&self, key: &Key) -> usize
        ensures has { (n : V) → at_key self.now.0 key.now ≡ Some n
            → Contains (slice_index_or self.now.1 result []) (key.now, n)
            ⊎ (slice_index_or self.now.1 result [] ≡ []) }
        ensures within { (n : V) → at_key self.now.0 key.now ≡ Some n
            → result < length self.now.1 }
    {
        let Some(map) = self.blocks.get() else {
            return 0;
        };
        block_beside(map.blocks.as_slice(), map.latest, key)
    }

    /// Notes that the entry at a key is present, so that its block isn't gone.
    pub fn note_present(&mut self, key: &Key)
        ensures same { self.new.0 ≡ self.old.0 }
        ensures kept { (e : Key × V) → Contains (joined self.old.1) e
            → Contains (joined self.new.1) e }
        ensures noted { (n : V) → at_key self.old.0 key.now ≡ Some n
            → Contains (joined self.new.1) (key.now, n) }
    {
        let Some(map) = self.blocks.get_mut() else {
            return;
        };
        if map.gone.is_empty() {
            return;
        }
        let at = block_beside(map.blocks.as_slice(), map.latest, key);
        note(&mut map.gone, at, false);
    }

    /// Notes that a block is gone, if there is room to note it.
    pub fn note_gone(&mut self, at: usize)
        ensures same { self.new.0 ≡ self.old.0 }
        ensures count { length self.new.1 ≡ length self.old.1 }
        ensures others { (m : ℕ) → m ≢ at
            → slice_index_or self.new.1 m [] ≡ slice_index_or self.old.1 m [] }
    {
        let Some(map) = self.blocks.get_mut() else {
            return;
        };
        note(&mut map.gone, at, true);
    }
}
