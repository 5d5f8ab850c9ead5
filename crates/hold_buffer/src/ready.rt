//! The held operations that wait for nothing, in id order.
ghost use Rattle.std.specs.Prelude.{true, ◌≡◌, ◌≢◌, ◌<◌, ◌≤◌, not, slice_get, length, filter};
ghost use Rattle.std.specs.Prelude.{vec_len, find, ◌==◌};
ghost use Rattle.std.specs.Prelude.{OnOk, IfOk, MatchResult, ◌↔◌, ◌⊎◌, Contains};
ghost use Rattle.std.specs.Vec.{vec_capacity};
ghost use Rattle.std.specs.Option.{option_map};
ghost use Rattle.doc_api.specs.Words.{id_cmp, Id};
ghost use Rattle.crdt_rules.specs.Same.{id_eq};
ghost use Rattle.doc_rules.specs.Sorted.{IsRising};
ghost use Rattle.list_laws.specs.Sorted.{IsIndexOf, IsGap};
ghost use Rattle.hold_buffer.specs.Order.{ListsFree, without_id};

use crate::entry::Entry;
use lamport_id::Id;

/// The index of an id, or where it would go.
fn search(ready: &[Id], id: &Id) -> Result<usize, usize>
    requires { IsRising id_cmp (λ i. i) ready.now }
    ensures { MatchResult result (IsIndexOf id_cmp (λ i. i) ready.now id.now) (IsGap id_cmp
        (λ i. i) ready.now id.now) }
{
    ready.binary_search(id)
}

/// Puts the id of one more operation among the others, for which there is
/// room, if it waits for nothing.
pub fn announce(ready: &mut Vec<Id>, id: &Id, is_free: bool)
    requires rising { IsRising id_cmp (λ i. i) ready.old.items }
    requires room { vec_len ready.old < vec_capacity ready.old }
    ensures rising { IsRising id_cmp (λ i. i) ready.new.items }
    ensures members { (i : Id) → Contains ready.new.items i
        ↔ (((is_free ≡ true) × (i ≡ id.now)) ⊎ Contains ready.old.items i) }
    ensures room { vec_capacity ready.old ≤ vec_capacity ready.new }
{
    if is_free {
        put(ready, id);
    }
}

/// Puts an id among the others, for which there is room.
pub fn put(ready: &mut Vec<Id>, id: &Id)
    requires rising { IsRising id_cmp (λ i. i) ready.old.items }
    requires room { vec_len ready.old < vec_capacity ready.old }
    ensures rising { IsRising id_cmp (λ i. i) ready.new.items }
    ensures members { (i : Id)
        → Contains ready.new.items i ↔ ((i ≡ id.now) ⊎ Contains ready.old.items i) }
    ensures room { vec_capacity ready.old ≤ vec_capacity ready.new }
{
    if let Err(at) = search(ready, id) {
        ready.insert(at, *id).unwrap();
    }
}

/// Takes an id out, if it is there.
pub fn drop_id(ready: &mut Vec<Id>, id: &Id)
    requires { IsRising id_cmp (λ i. i) ready.old.items }
    ensures items { ready.new.items ≡ filter (λ i. not (id_eq i id.now)) ready.old.items }
    ensures room { vec_capacity ready.new ≡ vec_capacity ready.old }
{
    if let Ok(at) = search(ready, id) {
        ready.remove(at);
    }
}

/// The least id.
pub fn least(ready: &[Id]) -> Option<Id>
    ensures { result ≡ slice_get ready.now 0 }
{
    ready.first().copied()
}
