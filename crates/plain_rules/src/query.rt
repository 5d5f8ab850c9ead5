//! What a plain context says, place by place.
ghost use Rattle.std.specs.Prelude.{◌≡◌, ◌↔◌, ◌&&◌, true, ◌∷◌, Some, None, IsTrue, MatchOption};
ghost use Rattle.std.specs.List.{list_any};
ghost use Rattle.lamport_id.specs.declared.id.Id.{Id};
ghost use Rattle.crdt_rules.specs.Same.{id_eq, key_eq};
ghost use Rattle.crdt_rules.specs.Context.{empty, register, counter, present, order};
ghost use Rattle.crdt_rules.specs.Facts.{context_at};
ghost use Rattle.plain_rules.specs.Plain.{context_of, contexts_of, child_in, first_value_at};
ghost use Rattle.plain_rules.specs.Plain.{present_in};

use crate::context::{PlainContext, child_place};
use json_scalar::Scalar;
use lamport_id::Id;
use op_core::{Key, Tagged};

impl PlainContext {
    /// Whether the id is one of those that make the key present, in the
    /// context at the end of the path.
    pub fn has_mark(&self, path: &[Tagged], key: &Key, id: &Id) -> bool
        ensures { result ≡ present (context_at (context_of self.now) path.now) key.now id.now }
    {
        match below(self, path) {
            Some(context) => is_marked(context.marks.as_slice(), key, id),
            None => false,
        }
    }

    /// Whether the key is present in the context at the end of the path: some id makes it so.
    pub fn is_present(&self, path: &[Tagged], key: &Key) -> bool
        ensures { IsTrue result ↔ ((i : Id)
            × (present (context_at (context_of self.now) path.now) key.now i ≡ true)) }
    {
        match below(self, path) {
            Some(context) => is_key_marked(context.marks.as_slice(), key),
            None => false,
        }
    }

    /// The scalar that the register of the key has of an id, if it has one.
    pub fn scalar(&self, path: &[Tagged], key: &Key, id: &Id) -> Option<&Scalar>
        ensures { MatchOption result
            (register (context_at (context_of self.now) path.now) key.now id.now ≡ None)
            (λ scalar. register (context_at (context_of self.now) path.now) key.now id.now
            ≡ Some scalar.now) }
    {
        match below(self, path) {
            Some(context) => value_of(context.scalars.as_slice(), key, id),
            None => None,
        }
    }

    /// The number that the counter of the key has of an id, if it has one.
    pub fn number(&self, path: &[Tagged], key: &Key, id: &Id) -> Option<&i64>
        ensures { MatchOption result
            (counter (context_at (context_of self.now) path.now) key.now id.now ≡ None)
            (λ number. counter (context_at (context_of self.now) path.now) key.now id.now
            ≡ Some number.now) }
    {
        match below(self, path) {
            Some(context) => value_of(context.numbers.as_slice(), key, id),
            None => None,
        }
    }

    /// The ids of the list of the context at the end of the path, in
    /// its order, deleted ones included.
    pub fn elements(&self, path: &[Tagged]) -> &[Id]
        ensures { result.now ≡ order (context_at (context_of self.now) path.now) }
    {
        match below(self, path) {
            Some(context) => context.order.as_slice(),
            None => &[],
        }
    }
}

fn is_marked(marks: &[(Key, Id)], key: &Key, id: &Id) -> bool
    ensures { result ≡ list_any (λ m. key_eq m.0 key.now && id_eq m.1 id.now) marks.now }
{
    for mark in marks {
        if mark.0 == *key && mark.1 == *id {
            return true;
        }
    }
    false
}

fn is_key_marked(marks: &[(Key, Id)], key: &Key) -> bool
    ensures { result ≡ list_any (λ m. key_eq m.0 key.now) marks.now }
{
    for mark in marks {
        if mark.0 == *key {
            return true;
        }
    }
    false
}

// The first value of an id at a key.
fn value_of<'a, T>(values: &'a [(Key, Id, T)], key: &Key, id: &Id) -> Option<&'a T>
    ensures { MatchOption result
        (first_value_at values.now key.now id.now ≡ None)
        (λ value. first_value_at values.now key.now id.now ≡ Some value.now) }
{
    match values {
        [] => None,
        [first, rest @ ..] => {
            if first.0 == *key && first.1 == *id {
                Some(&first.2)
            } else {
                value_of(rest, key, id)
            }
        }
    }
}

fn child_at<'a>(children: &'a [(Tagged, PlainContext)], key: &Tagged) -> Option<&'a PlainContext>
    ensures { MatchOption result
        (child_in (contexts_of children.now) key.now ≡ empty)
        (λ child. context_of child.now ≡ child_in (contexts_of children.now) key.now) }
{
    let at = child_place(children, key);
    if at < children.len() {
        Some(&children[at].1)
    } else {
        None
    }
}

// The context at the end of a path; one that is missing is empty.
#[cycle(going_down)]
fn below<'a>(context: &'a PlainContext, path: &[Tagged]) -> Option<&'a PlainContext>
    ensures { MatchOption result
        (context_at (context_of context.now) path.now ≡ empty)
        (λ end. context_of end.now ≡ context_at (context_of context.now) path.now) }
{
    match path {
        [] => Some(context),
        [first, rest @ ..] => below_first(context, first, rest),
    }
}

#[cycle(going_down)]
fn below_first<'a>(
    context: &'a PlainContext,
    first: &Tagged,
    rest: &[Tagged],
) -> Option<&'a PlainContext>
    ensures { MatchOption result
        (context_at (context_of context.now) (first.now ∷ rest.now) ≡ empty)
        (λ end. context_of end.now ≡ context_at (context_of context.now) (first.now ∷ rest.now)) }
{
    match child_at(context.children.as_slice(), first) {
        Some(child) => below(child, rest),
        None => None,
    }
}
