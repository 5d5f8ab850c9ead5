//! Plain contexts.
ghost use Rattle.std.specs.Prelude.{◌≡◌, filter, not, ◌&&◌, true, false, Bool, Some, ◌∷◌, IfOk};
ghost use Rattle.std.specs.Prelude.{OnOk, IfErr, ◌≤◌};
ghost use Rattle.std.specs.Prelude.{length};
ghost use Rattle.json_scalar.specs.declared.refusal.Refusal.TheVariants.{NoMemory};
ghost use Rattle.op_core.specs.declared.cursor.Tagged.{Tagged};
ghost use Rattle.op_core.specs.declared.mutation.Mutation.TheVariants.{Insert};
ghost use Rattle.crdt_rules.specs.Same.{key_eq, tagged_eq};
ghost use Rattle.crdt_rules.specs.Effect.{scalar_in};
ghost use Rattle.crdt_rules.specs.Context.{clear_all, clear_elem, mark, enter, count, put};
ghost use Rattle.crdt_rules.specs.Context.{place_id, mutate, descend};
ghost use Rattle.crdt_rules.specs.Context.{step};
ghost use Rattle.plain_rules.specs.Plain.{is_in, context_of, contexts_of, seen, clear_child};
ghost use Rattle.plain_rules.specs.Plain.{clear_each, child_in};
ghost use Rattle.plain_rules.specs.Plain.{place_of_child, blank_context, made, passed_key};

use crate::copy::{key_copy, scalar_copy, tagged_copy};
use crate::order::insert_by_rule;
use json_scalar::{Refusal, Scalar, Val};
use lamport_id::Id;
use op_core::{Key, Mutation, Operation, Tagged};
use std::alloc::Global;

/// A context: the contexts below it, the ids that make its keys present, the scalars of its
/// registers, the numbers of its counters, and its list. It has no limits of its own: it is as
/// large as the operations that made it.
#[derive(Drop)]
pub struct PlainContext {
    pub(crate) children: Vec<(Tagged, PlainContext)>,
    pub(crate) marks: Vec<(Key, Id)>,
    pub(crate) scalars: Vec<(Key, Id, Scalar)>,
    pub(crate) numbers: Vec<(Key, Id, i64)>,
    pub(crate) order: Vec<Id>,
}

impl PlainContext {
    /// A context with nothing in it. It takes no memory.
    pub fn new(alloc: Global) -> PlainContext
        ensures { context_of result ≡ blank_context }
    {
        PlainContext {
            children: Vec::new(alloc),
            marks: Vec::new(alloc),
            scalars: Vec::new(alloc),
            numbers: Vec::new(alloc),
            order: Vec::new(alloc),
        }
    }
}

// Whether a set has an id.
fn is_in(ids: &[Id], id: &Id) -> bool
    ensures { result ≡ is_in ids.now id.now }
{
    ids.contains(id)
}

fn clear_marks(marks: &mut Vec<(Key, Id)>, dependencies: &[Id])
    ensures { marks.new.items ≡ filter (λ m. not (is_in dependencies.now m.1)) marks.old.items }
{
    marks.retain(
        |mark: &(Key, Id)| -> bool
            ensures { result ≡ not (is_in dependencies.entry.now mark.now.1) }
        { !is_in(dependencies, &mark.1) },
    );
}

fn clear_values<T: Drop>(values: &mut Vec<(Key, Id, T)>, dependencies: &[Id])
    ensures { values.new.items ≡ filter (λ e. not (is_in dependencies.now e.1)) values.old.items }
{
    values.retain(
        |entry: &(Key, Id, T)| -> bool
            ensures { result ≡ not (is_in dependencies.entry.now entry.now.1) }
        { !is_in(dependencies, &entry.1) },
    );
}

fn clear_marks_at(marks: &mut Vec<(Key, Id)>, key: &Key, dependencies: &[Id])
    ensures { marks.new.items
        ≡ filter (λ m. not (key_eq m.0 key.now && is_in dependencies.now m.1)) marks.old.items }
{
    marks.retain(
        |mark: &(Key, Id)| -> bool
            ensures { result ≡ not (key_eq mark.now.0 key.entry.now
                && is_in dependencies.entry.now mark.now.1) }
        { !(mark.0 == *key && is_in(dependencies, &mark.1)) },
    );
}

fn clear_values_at<T: Drop>(values: &mut Vec<(Key, Id, T)>, key: &Key, dependencies: &[Id])
    ensures { values.new.items
        ≡ filter (λ e. not (key_eq e.0 key.now && is_in dependencies.now e.1)) values.old.items }
{
    values.retain(
        |entry: &(Key, Id, T)| -> bool
            ensures { result ≡ not (key_eq entry.now.0 key.entry.now
                && is_in dependencies.entry.now entry.now.1) }
        { !(entry.0 == *key && is_in(dependencies, &entry.1)) },
    );
}

// Takes the ids of a set out of a whole context.
#[cycle(clearing)]
fn clear_all(context: &mut PlainContext, dependencies: &[Id])
    ensures { context_of context.new ≡ clear_all (is_in dependencies.now) (context_of context.old) }
{
    clear_marks(&mut context.marks, dependencies);
    clear_values(&mut context.scalars, dependencies);
    clear_values(&mut context.numbers, dependencies);
    clear_children(&mut context.children, dependencies);
}

#[cycle(clearing)]
fn clear_children(children: &mut [(Tagged, PlainContext)], dependencies: &[Id])
    ensures { contexts_of children.new
        ≡ clear_each (λ _. true) (is_in dependencies.now) (contexts_of children.old) }
{
    for i in 0..children.len() {
        clear_all(&mut children[i].1, dependencies);
    }
}

fn clear_child_at(child: &mut (Tagged, PlainContext), key: &Key, dependencies: &[Id])
    ensures { seen child.new
        ≡ clear_child (λ k. key_eq k key.now) (is_in dependencies.now) (seen child.old) }
{
    if child.0.key() == key {
        clear_all(&mut child.1, dependencies);
    }
}

fn clear_children_at(children: &mut [(Tagged, PlainContext)], key: &Key, dependencies: &[Id])
    ensures { contexts_of children.new ≡ clear_each (λ k. key_eq k key.now) (is_in dependencies.now)
        (contexts_of children.old) }
{
    for i in 0..children.len() {
        clear_child_at(&mut children[i], key, dependencies);
    }
}

// Takes the ids of a set out at a key, and of the map and the list there.
fn clear_elem(context: &mut PlainContext, key: &Key, dependencies: &[Id])
    ensures { context_of context.new
        ≡ clear_elem (is_in dependencies.now) key.now (context_of context.old) }
{
    clear_marks_at(&mut context.marks, key, dependencies);
    clear_values_at(&mut context.scalars, key, dependencies);
    clear_values_at(&mut context.numbers, key, dependencies);
    clear_children_at(&mut context.children, key, dependencies);
}

// Adds an id to the presence set of a key.
fn mark(context: &mut PlainContext, key: &Key, id: &Id) -> Result<(), Refusal>
    ensures done { OnOk result (context_of context.new
        ≡ mark id.now key.now (context_of context.old)) }
    ensures memory { IfErr result (λ e. e ≡ NoMemory) }
{
    let entry = (key_copy(key)?, *id);
    context.marks.insert(0, entry)?;
    Ok(())
}

// Enters a value, if it is a scalar, into the register of a key.
fn enter(context: &mut PlainContext, key: &Key, id: &Id, val: &Val) -> Result<(), Refusal>
    ensures done { OnOk result (context_of context.new
        ≡ enter id.now key.now (scalar_in val.now) (context_of context.old)) }
    ensures memory { IfErr result (λ e. e ≡ NoMemory) }
{
    match val {
        Val::Scalar(scalar) => {
            let entry = (key_copy(key)?, *id, scalar_copy(scalar)?);
            context.scalars.insert(0, entry)?;
            Ok(())
        }
        Val::EmptyMap | Val::EmptyList => Ok(()),
    }
}

// Enters a number into the counter of a key.
fn count(context: &mut PlainContext, key: &Key, id: &Id, number: &i64) -> Result<(), Refusal>
    ensures done { OnOk result (context_of context.new
        ≡ count id.now key.now number.now (context_of context.old)) }
    ensures memory { IfErr result (λ e. e ≡ NoMemory) }
{
    let entry = (key_copy(key)?, *id, *number);
    context.numbers.insert(0, entry)?;
    Ok(())
}

// Adds a number at a key.
fn add(context: &mut PlainContext, key: &Key, id: &Id, number: &i64) -> Result<(), Refusal>
    ensures done { OnOk result (context_of context.new
        ≡ count id.now key.now number.now (mark id.now key.now (context_of context.old))) }
    ensures memory { IfErr result (λ e. e ≡ NoMemory) }
{
    mark(context, key, id)?;
    count(context, key, id, number)
}

/// Where the first child at a key is, or the length.
pub fn child_place(children: &[(Tagged, PlainContext)], key: &Tagged) -> usize
    ensures value { result ≡ place_of_child children.now key.now }
    ensures within { result ≤ length children.now }
{
    children.iter().take_while(|child| child.0 != *key).count()
}

// Takes the child at a key out; one that is missing is a new one.
fn take_child(
    alloc: Global,
    children: &mut Vec<(Tagged, PlainContext)>,
    key: &Tagged,
) -> PlainContext
    ensures child { context_of result ≡ made (child_in (contexts_of children.old.items) key.now) }
    ensures others { (t : Tagged) → tagged_eq key.now t ≡ false
        → child_in (contexts_of children.new.items) t
        ≡ child_in (contexts_of children.old.items) t }
{
    let at = child_place(children.as_slice(), key);
    if at < children.len() {
        children.remove(at).1
    } else {
        PlainContext::new(alloc)
    }
}

// Puts a child in front of the others.
fn put_child(
    children: &mut Vec<(Tagged, PlainContext)>,
    key: &Tagged,
    child: PlainContext,
) -> Result<(), Refusal>
    ensures done { OnOk result (contexts_of children.new.items
        ≡ seen (key.now, child) ∷ contexts_of children.old.items) }
    ensures memory { IfErr result (λ e. e ≡ NoMemory) }
{
    let entry = (tagged_copy(key)?, child);
    children.insert(0, entry)?;
    Ok(())
}

// Assigns a value at a key.
fn put(
    context: &mut PlainContext,
    key: &Key,
    id: &Id,
    val: &Val,
    dependencies: &[Id],
) -> Result<(), Refusal>
    ensures done { OnOk result (context_of context.new
        ≡ put (is_in dependencies.now) id.now key.now val.now (context_of context.old)) }
    ensures memory { IfErr result (λ e. e ≡ NoMemory) }
{
    clear_elem(context, key, dependencies);
    mark(context, key, id)?;
    enter(context, key, id, val)
}

// Takes an id into the order of the list.
fn place(context: &mut PlainContext, after: &Key, id: &Id) -> Result<(), Refusal>
    ensures done { OnOk result (context_of context.new
        ≡ place_id id.now after.now (context_of context.old)) }
    ensures memory { IfErr result (λ e. e ≡ NoMemory) }
{
    insert_by_rule(&mut context.order, after, id)
}

// Inserts a value into the list.
fn insert(
    context: &mut PlainContext,
    after: &Key,
    id: &Id,
    val: &Val,
    dependencies: &[Id],
) -> Result<(), Refusal>
    ensures done { OnOk result (context_of context.new
        ≡ mutate (is_in dependencies.now) id.now after.now (Insert val.now) (context_of context.old)) }
    ensures memory { IfErr result (λ e. e ≡ NoMemory) }
{
    place(context, after, id)?;
    put(context, &Key::Element(*id), id, val, dependencies)
}

// What a mutation does at a key.
fn mutate(
    context: &mut PlainContext,
    key: &Key,
    id: &Id,
    mutation: &Mutation,
    dependencies: &[Id],
) -> Result<(), Refusal>
    ensures done { OnOk result (context_of context.new
        ≡ mutate (is_in dependencies.now) id.now key.now mutation.now (context_of context.old)) }
    ensures memory { IfErr result (λ e. e ≡ NoMemory) }
{
    match mutation {
        Mutation::Assign(val) => put(context, key, id, val, dependencies),
        Mutation::Insert(val) => insert(context, key, id, val, dependencies),
        Mutation::Delete => {
            clear_elem(context, key, dependencies);
            Ok(())
        }
        Mutation::Add(number) => add(context, key, id, number),
    }
}

// Marks a key on the way of an operation, unless it is a delete.
fn pass(context: &mut PlainContext, key: &Key, id: &Id, mutation: &Mutation) -> Result<(), Refusal>
    ensures done { OnOk result (context_of context.new
        ≡ passed_key id.now key.now mutation.now (context_of context.old)) }
    ensures memory { IfErr result (λ e. e ≡ NoMemory) }
{
    match mutation {
        Mutation::Assign(_) | Mutation::Insert(_) | Mutation::Add(_) => mark(context, key, id),
        Mutation::Delete => Ok(()),
    }
}

// An operation that takes its step, and the ids that it depends on.
#[derive(Clone, Copy)]
struct Step<'a> {
    op: &'a Operation,
    dependencies: &'a [Id],
}

// An operation on its way down.
#[cycle(descending)]
fn descend(
    alloc: Global,
    context: &mut PlainContext,
    step: Step<'_>,
    path: &[Tagged],
) -> Result<(), Refusal>
    ensures done { OnOk result (context_of context.new
        ≡ descend (is_in step.entry.dependencies.now) step.entry.op.now path.now (context_of context.old)) }
    ensures memory { IfErr result (λ e. e ≡ NoMemory) }
{
    match path {
        [] => mutate(
            context,
            &step.op.cursor().key,
            &step.op.id(),
            step.op.mutation(),
            step.dependencies,
        ),
        [first, rest @ ..] => follow(alloc, context, step, first, rest),
    }
}

// One key of its way: it passes the key, and goes on in the child there.
#[cycle(descending)]
fn follow(
    alloc: Global,
    context: &mut PlainContext,
    step: Step<'_>,
    first: &Tagged,
    rest: &[Tagged],
) -> Result<(), Refusal>
    ensures done { OnOk result (context_of context.new ≡ descend (is_in step.entry.dependencies.now)
        step.entry.op.now (first.now ∷ rest.now) (context_of context.old)) }
    ensures memory { IfErr result (λ e. e ≡ NoMemory) }
{
    pass(context, first.key(), &step.op.id(), step.op.mutation())?;
    let mut below = take_child(alloc, &mut context.children, first);
    descend(alloc, &mut below, step, rest)?;
    put_child(&mut context.children, first, below)?;
    Ok(())
}

/// The context after the step of an operation whose dependencies are the ids of a set, by
/// the rules as they are defined. The step asks nothing of the operation: one that
/// doesn't fit takes its step too.
///
/// The only refusal is out of memory (22); the context is dropped then.
pub fn plain_step(
    alloc: Global,
    context: PlainContext,
    op: &Operation,
    dependencies: &[Id],
) -> Result<PlainContext, Refusal>
    ensures done { IfOk result
        (λ new. context_of new ≡ step (context_of context) op.now (is_in dependencies.now)) }
    ensures memory { IfErr result (λ e. e ≡ NoMemory) }
{
    let mut changed = context;
    descend(
        alloc,
        &mut changed,
        Step { op, dependencies },
        op.cursor().path.as_slice(),
    )?;
    Ok(changed)
}
