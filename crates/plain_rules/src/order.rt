//! The order of a list, kept as a plain list of ids.
ghost use Rattle.std.specs.Prelude.{◌≡◌, ◌≤◌, length, OnOk, IfErr};
ghost use Rattle.json_scalar.specs.declared.refusal.Refusal.TheVariants.{NoMemory};
ghost use Rattle.lamport_id.specs.Order.{id_cmp};
ghost use Rattle.list_laws.specs.Order.{place, place_behind, insert_after};
ghost use Rattle.crdt_rules.specs.Context.{reference};
ghost use Rattle.crdt_rules.specs.Places.{place_of, greater_len};

use json_scalar::Refusal;
use lamport_id::Id;
use op_core::Key;

/// Inserts an id after an element, or at the head of the list, and behind the
/// greater ids that follow there.
pub fn insert_by_rule(order: &mut Vec<Id>, after: &Key, id: &Id) -> Result<(), Refusal>
    ensures done { OnOk result (order.new.items
        ≡ insert_after id_cmp order.old.items (reference after.now) id.now) }
    ensures memory { IfErr result (λ e. e ≡ NoMemory) }
{
    match after {
        Key::Element(previous) => insert_behind(order, previous, id),
        Key::Doc | Key::Text(_) | Key::Head => insert_first(order, id),
    }
}

fn insert_first(order: &mut Vec<Id>, id: &Id) -> Result<(), Refusal>
    ensures done { OnOk result (order.new.items ≡ place id_cmp order.old.items id.now) }
    ensures memory { IfErr result (λ e. e ≡ NoMemory) }
{
    let at = greater_in(order.as_slice(), id);
    order.insert(at, *id)?;
    Ok(())
}

fn insert_behind(order: &mut Vec<Id>, previous: &Id, id: &Id) -> Result<(), Refusal>
    ensures done { OnOk result (order.new.items
        ≡ place_behind id_cmp order.old.items previous.now id.now) }
    ensures memory { IfErr result (λ e. e ≡ NoMemory) }
{
    let from = place_in(order.as_slice(), previous);
    if from < order.len() {
        let at = from + 1 + greater_in(&order[from + 1..], id);
        order.insert(at, *id)?;
    }
    Ok(())
}

// Where an id is, or the length.
fn place_in(ids: &[Id], id: &Id) -> usize
    ensures value { result ≡ place_of ids.now id.now }
    ensures within { result ≤ length ids.now }
{
    ids.iter().take_while(|x| **x != *id).count()
}

// How many ids, at the front, are not less than this one.
fn greater_in(ids: &[Id], id: &Id) -> usize
    ensures value { result ≡ greater_len ids.now id.now }
    ensures within { result ≤ length ids.now }
{
    ids.iter().take_while(|x| !(**x < *id)).count()
}
