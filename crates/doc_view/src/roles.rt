//! What operations did at a place.
ghost use Rattle.std.specs.Prelude.{◌≡◌, ◌↔◌, ◌++◌, ◌∷◌, ◌||◌, ◌&&◌, [], map, not, option_map};
ghost use Rattle.std.specs.Prelude.{IsTrue, MatchOption, None};
ghost use Rattle.json_scalar.specs.declared.scalar.Val.TheVariants.{Scalar as Plain};
ghost use Rattle.presence_set.specs.ById.{get, IsAscending};
ghost use Rattle.list_laws.specs.Sorted.{IsIndexOf};
ghost use Rattle.lamport_id.specs.Order.{id_cmp};
ghost use Rattle.lamport_id.specs.declared.id.Id.{Id as AnId};
ghost use Rattle.json_scalar.specs.declared.scalar.Scalar.{Scalar as AScalar};
ghost use Rattle.presence_set.specs.EmptyPut.{CoversPut, puts_map, puts_list};
ghost use Rattle.doc_tree.specs.Nodes.{tree_facts};
ghost use Rattle.op_core.specs.Wire.{list_data};
ghost use Rattle.json_text.specs.Tokens.{all_tokens, data_tokens, Puts};
ghost use Rattle.doc_rules.specs.Encoded.{conflict_data, ConflictsText};
ghost use Rattle.doc_rules.specs.Views.{AreConflicts};
ghost use Rattle.doc_rules.specs.Role.{value_in};
ghost use Rattle.doc_view.specs.Readings.{GivesUnlessMemory, ReadsUnlessMemory};
ghost use Rattle.std.specs.List.{list_any};
ghost use Rattle.doc_view.specs.TreeValues.{tree_values, value_of_put, values_of_roles, with_value};
ghost use Rattle.doc_view.specs.Writing.{WritesArray};

use crate::json_parts::write_with_id;
use doc_api::{CompactText, Conflicts, Role};
use doc_tree::{EmptyPut, Entries, Tree};
use json_scalar::{Refusal, Scalar, Val};
use json_text::JsonText;
use lamport_id::Id;
use op_core::{Cursor, Key, Path};
use presence_set::rank_of;
use std::alloc::Global;

/// What an operation put at a place, if it put a value there.
enum PutValue<'a> {
    Nothing,
    EmptyMap,
    EmptyList,
    Scalar(&'a Scalar),
}

/// The ids whose operations put a value at the very place of a cursor and are not covered since, in
/// id order, each with that value. `AtHead` where the cursor is at a head. The program itself calls
/// `conflicts_text`.
pub fn conflicts(alloc: Global, tree: &Tree, cursor: &Cursor) -> Result<Conflicts, Refusal>
    ensures { ReadsUnlessMemory (AreConflicts (tree_facts tree.now) (tree_values tree.now)) cursor.now result }
{
    if cursor.key.is_head() {
        return Err(Refusal::AtHead);
    }
    match tree.node_at(&cursor.path, &cursor.key) {
        None => Ok(Conflicts::from(Vec::new(alloc))),
        Some(at) => values_of_roles(alloc, tree.presence_of(at), tree.register_of(at)),
    }
}

/// What `conflicts` gives, as the compact JSON text of an array. It is refused as `conflicts` is.
pub fn conflicts_text(alloc: Global, tree: &Tree, cursor: &Cursor) -> Result<CompactText, Refusal>
    ensures { ReadsUnlessMemory (ConflictsText (tree_facts tree.now) (tree_values tree.now)) cursor.now result }
{
    if cursor.key.is_head() {
        return Err(Refusal::AtHead);
    }
    let mut text = JsonText::new(alloc);
    write_conflicts(&mut text, tree, &cursor.path, &cursor.key)?;
    Ok(CompactText::from(text.into_string()))
}

fn write_conflicts(text: &mut JsonText, tree: &Tree, path: &Path, key: &Key) -> Result<(), Refusal>
    ensures { GivesUnlessMemory (λ _. WritesArray conflict_data
        (AreConflicts (tree_facts tree.now) (tree_values tree.now) path.now key.now) text.old text.new) result }
{
    match tree.node_at(path, key) {
        None => text.empty_list(),
        Some(at) => write_values_of_roles(text, tree.presence_of(at), tree.register_of(at)),
    }
}

fn values_of_roles(
    alloc: Global,
    roles: Entries<'_, Role>,
    scalars: &[(Id, Scalar)],
) -> Result<Conflicts, Refusal>
    requires { IsAscending scalars.now }
    ensures { GivesUnlessMemory
        (λ values. values ≡ values_of_roles scalars.now roles.entry) result }
{
    // Most values are scalars.
    let mut values = Vec::with_capacity(alloc, scalars.len())?;
    let mut next = 0;
    for entry in roles {
        push_value(&mut values, &entry.0, value_put(entry, scalars, &mut next))?;
    }
    Ok(Conflicts::from(values))
}

// Adds the value that the operation of an id put.
fn push_value(values: &mut Vec<(Id, Val)>, id: &Id, value: PutValue<'_>) -> Result<(), Refusal>
    ensures { GivesUnlessMemory (λ _. values.new.items ≡ values.old.items
        ++ with_value id.now (value_of_put value.entry) []) result }
{
    match value {
        PutValue::Nothing => Ok(()),
        PutValue::EmptyMap => Ok(values.push((*id, Val::EmptyMap))?),
        PutValue::EmptyList => Ok(values.push((*id, Val::EmptyList))?),
        PutValue::Scalar(scalar) => push_scalar(values, id, scalar),
    }
}

fn push_scalar(values: &mut Vec<(Id, Val)>, id: &Id, scalar: &Scalar) -> Result<(), Refusal>
    ensures { GivesUnlessMemory (λ _. values.new.items ≡ values.old.items
        ++ (id.now, Plain scalar.now) ∷ []) result }
{
    let clone = scalar.try_clone()?;
    Ok(values.push((*id, Val::Scalar(clone)))?)
}

#[tactic(auto, using(json_text::proofs::Texts::lists))]
fn write_values_of_roles(
    text: &mut JsonText,
    roles: Entries<'_, Role>,
    scalars: &[(Id, Scalar)],
) -> Result<(), Refusal>
    requires { IsAscending scalars.now }
    ensures { Puts (data_tokens (list_data (map conflict_data (values_of_roles scalars.now roles.entry))))
        text.old text.new result }
{
    text.begin_list()?;
    write_each_value(text, roles, scalars)?;
    text.end_list()
}

fn write_each_value(
    text: &mut JsonText,
    roles: Entries<'_, Role>,
    scalars: &[(Id, Scalar)],
) -> Result<(), Refusal>
    requires { IsAscending scalars.now }
    ensures { Puts (all_tokens (map conflict_data (values_of_roles scalars.now roles.entry)))
        text.old text.new result }
{
    let mut next = 0;
    for entry in roles {
        write_value(text, &entry.0, value_put(entry, scalars, &mut next))?;
    }
    Ok(())
}

// Writes the value that the operation of an id put.
fn write_value(text: &mut JsonText, id: &Id, value: PutValue<'_>) -> Result<(), Refusal>
    ensures { Puts (all_tokens (map conflict_data (with_value id.now (value_of_put value.entry) []))) text.old text.new result }
{
    match value {
        PutValue::Nothing => Ok(()),
        PutValue::EmptyMap => write_with_id(text, id, &Val::EmptyMap),
        PutValue::EmptyList => write_with_id(text, id, &Val::EmptyList),
        PutValue::Scalar(scalar) => write_with_id(text, id, scalar),
    }
}

// The value that the operation of an id put where it has this role.
fn value_put<'a>(entry: &(Id, Role), scalars: &'a [(Id, Scalar)], next: &mut usize) -> PutValue<'a>
    requires { IsAscending scalars.now }
    ensures { value_of_put result ≡ value_in entry.now.1 (get scalars.now entry.now.0) }
{
    match entry.1 {
        Role::Through => PutValue::Nothing,
        Role::Map => PutValue::EmptyMap,
        Role::List => PutValue::EmptyList,
        Role::Scalar => scalar_put(&entry.0, scalars, next),
        Role::Counter => PutValue::Nothing,
    }
}

// The scalar that the operation of an id put. Ids are asked for in their order, so the one that
// comes next is looked at first.
fn scalar_put<'a>(id: &Id, scalars: &'a [(Id, Scalar)], next: &mut usize) -> PutValue<'a>
    requires { IsAscending scalars.now }
    ensures { value_of_put result ≡ option_map Plain (get scalars.now id.now) }
{
    match place_of(id, scalars, *next) {
        None => PutValue::Nothing,
        Some(at) => {
            *next = at + 1;
            PutValue::Scalar(&scalars[at].1)
        }
    }
}

// The place of the scalar of an id, if it has one.
fn place_of(id: &Id, scalars: &[(Id, Scalar)], next: usize) -> Option<usize>
    requires { IsAscending scalars.now }
    ensures { MatchOption result (get scalars.now id.now ≡ None)
        (IsIndexOf id_cmp (λ (e : AnId × AScalar). e.0) scalars.now id.now) }
{
    if is_at(id, scalars, next) {
        Some(next)
    } else {
        sought_place(id, scalars)
    }
}

// The same by a search. Few ids need it, so it is kept out of the loop that asks for each.
#[cold]
#[inline(never)]
fn sought_place(id: &Id, scalars: &[(Id, Scalar)]) -> Option<usize>
    requires { IsAscending scalars.now }
    ensures { MatchOption result (get scalars.now id.now ≡ None)
        (IsIndexOf id_cmp (λ (e : AnId × AScalar). e.0) scalars.now id.now) }
{
    let at = rank_of(scalars, id);
    if is_at(id, scalars, at) {
        Some(at)
    } else {
        None
    }
}

// Whether the scalar of an id is at this place.
fn is_at(id: &Id, scalars: &[(Id, Scalar)], place: usize) -> bool
    ensures { IsTrue result ↔ IsIndexOf id_cmp
        (λ (e : AnId × AScalar). e.0) scalars.now id.now place }
{
    place < scalars.len() && scalars[place].0 == *id
}

/// Whether some id has the role of one that put an empty map, or an empty list. It looks at roles
/// only until it has found what may be put.
pub fn empty_put(roles: Entries<'_, Role>, may: EmptyPut) -> EmptyPut
    requires { CoversPut may roles }
    ensures map { result.map ≡ list_any (λ e. puts_map e.1) roles.entry }
    ensures list { result.list ≡ list_any (λ e. puts_list e.1) roles.entry }
{
    let mut put = EmptyPut::none();
    for entry in roles {
        if has_all(put, may) {
            return put;
        }
        put = put.with(entry.1);
    }
    put
}

// Whether each kind that may be put is.
fn has_all(put: EmptyPut, may: EmptyPut) -> bool
    ensures { result ≡ ((put.map || not may.map) && (put.list || not may.list)) }
{
    (put.map || !may.map) && (put.list || !may.list)
}
