//! How a run of changes is made: one after another, up to the first that is refused.
ghost use Rattle.std.specs.Prelude.{◌≡◌, ◌⊎◌, ◌+◌, ◌-◌, ◌<◌, ◌≤◌, ◌++◌, ◌∷◌, [], ℕ, Ok, Err, length};
ghost use Rattle.std.specs.Prelude.{nat_le, vec_len, vec_capacity, Some, IfOk, IfErr, OnOk};
ghost use Rattle.json_scalar.specs.Refusal.{UnlessMemory};
ghost use Rattle.op_core.specs.Limits.{most_held, most_operations};
ghost use Rattle.doc_api.specs.Words.{Cursor, NoMemory};
ghost use Rattle.doc_api.specs.declared.ask.Command.TheVariants as command;
ghost use Rattle.doc_api.specs.declared.place.Place.{Place};
ghost use Rattle.doc_api.specs.declared.reply.Reply.TheVariants as answer;
ghost use Rattle.doc_rules.specs.Events.{Event};
ghost use Rattle.doc_rules.specs.Replica.{find_id, replica_facts};
ghost use Rattle.doc_rules.specs.Resolve.{Resolves};
ghost use Rattle.replica_core.specs.Outcomes.{reply_of_applied};
ghost use Rattle.replica_c.specs.Runs.{DoesRun, EndsRun, MakesAll, MakesInRoom, MakesNone};
ghost use Rattle.replica_c.specs.Runs.{at_cursor, further, further_place, how_many, last_further};
ghost use Rattle.replica_c.specs.Runs.{element_place};
ghost use Rattle.replica_c.specs.Places.{whole_document};
ghost use Rattle.replica_c.specs.declared.ask.Run.TheVariants.{Inserts, Deletes};

use crate::ask::Run;
use crate::made::{Made, Outcome};
use doc_api::{Counts, Place, Query, Reply, Step, Steps};
use json_scalar::{Refusal, Val};
use lamport_id::Id;
use op_core::{Cursor, Key, Mutation, Operation, Path};
use op_log::{MAX_OPERATIONS, OpLog};
use replica_core::{Applied, Replica};
use std::alloc::Global;

// No seat asks, and there is no stored log.
const NO_COUNTS: Counts = Counts { mine: 0, copied: 0 };

/// Makes a run. Refused with nothing changed: a run for which the log has no room, and one of
/// deletions of more elements than the list has from there on. Otherwise changes are made up to
/// the first that is refused.
pub(crate) fn make_run(alloc: Global, replica: &mut Replica, run: Run) -> Outcome
    ensures { DoesRun replica.old run result.reply result.ids.items replica.new
        ⊎ MakesNone replica.old NoMemory result.reply result.ids.items replica.new }
{
    if !has_room(replica, &run) {
        return Outcome::refused(alloc, Refusal::LogFull);
    }
    make_in_room(alloc, replica, run)
}

fn has_room(replica: &Replica, run: &Run) -> bool
    ensures room { result ≡ nat_le (how_many run.now) (most_operations - length replica.now.log) }
    ensures few { length replica.now.held ≤ most_held }
{
    how_many(run) <= MAX_OPERATIONS.saturating_sub(replica.log().len()) as u64
}

fn how_many(run: &Run) -> u64
    ensures { result ≡ how_many run.now }
{
    match run {
        Run::Inserts(_, vals) => vals.count(),
        Run::Deletes(_, count) => *count,
    }
}

fn make_in_room(alloc: Global, replica: &mut Replica, run: Run) -> Outcome
    requires many { how_many run ≤ most_operations }
    requires few { length replica.old.held ≤ most_held }
    ensures { MakesInRoom replica.old run result.reply result.ids.items replica.new
        ⊎ MakesNone replica.old NoMemory result.reply result.ids.items replica.new }
{
    match run {
        Run::Inserts(place, vals) => inserts(alloc, replica, place, vals.into_entries()),
        Run::Deletes(place, count) => deletes(alloc, replica, place, count),
    }
}

fn inserts(alloc: Global, replica: &mut Replica, place: Place, vals: Vec<Val>) -> Outcome
    requires many { length vals.items ≤ most_operations }
    requires few { length replica.old.held ≤ most_held }
    ensures { MakesAll replica.old (Inserts place vals.items) result.reply result.ids.items replica.new
        ⊎ MakesNone replica.old NoMemory result.reply result.ids.items replica.new }
{
    let Ok(mut made) = Made::with_room(alloc, vals.len()) else {
        return Outcome::refused(alloc, Refusal::NoMemory);
    };
    let why = insert_all(alloc, replica, place, vals, &mut made);
    made.into_outcome(why)
}

fn deletes(alloc: Global, replica: &mut Replica, place: Place, count: u64) -> Outcome
    requires many { count ≤ most_operations }
    requires few { length replica.old.held ≤ most_held }
    ensures { MakesInRoom replica.old (Deletes place count) result.reply result.ids.items replica.new
        ⊎ MakesNone replica.old NoMemory result.reply result.ids.items replica.new }
{
    match reach(alloc, replica, &place, count.saturating_sub(1)) {
        Ok(()) => deletes_reached(alloc, replica, &place, count),
        Err(cause) => Outcome::refused(alloc, cause),
    }
}

fn deletes_reached(alloc: Global, replica: &mut Replica, place: &Place, count: u64) -> Outcome
    requires many { count ≤ most_operations }
    requires few { length replica.old.held ≤ most_held }
    ensures { MakesAll replica.old (Deletes place.now count) result.reply result.ids.items replica.new
        ⊎ MakesNone replica.old NoMemory result.reply result.ids.items replica.new }
{
    let Ok(mut made) = Made::with_room(alloc, count as usize) else {
        return Outcome::refused(alloc, Refusal::NoMemory);
    };
    let why = delete_all(alloc, replica, place, count, &mut made);
    made.into_outcome(why)
}

// ---- one change after another

// Inserts each value behind the one before.
fn insert_all(
    alloc: Global,
    replica: &mut Replica,
    place: Place,
    vals: Vec<Val>,
    made: &mut Made,
) -> Result<(), Refusal>
    requires none { (made.old.ids.items ≡ []) × (made.old.count ≡ 0) × (made.old.dropped ≡ 0) }
    requires room { length vals.items ≤ vec_capacity made.old.ids }
    requires many { length vals.items ≤ most_operations }
    requires few { length replica.old.held ≤ most_held }
    ensures { EndsRun replica.old (Inserts place vals.items) made.new.ids.items made.new.count
        made.new.dropped result replica.new }
{
    let mut at = Ok(place);
    for val in vals {
        match make_one(replica, at, Mutation::Insert(val), made) {
            Ok(id) => at = behind(alloc, replica.log(), id),
            Err(cause) => return Err(cause),
        }
    }
    Ok(())
}

// Deletes so many times at the place.
fn delete_all(
    alloc: Global,
    replica: &mut Replica,
    place: &Place,
    count: u64,
    made: &mut Made,
) -> Result<(), Refusal>
    requires none { (made.old.ids.items ≡ []) × (made.old.count ≡ 0) × (made.old.dropped ≡ 0) }
    requires room { count ≤ vec_capacity made.old.ids }
    requires many { count ≤ most_operations }
    requires few { length replica.old.held ≤ most_held }
    ensures { EndsRun replica.old (Deletes place.now count) made.new.ids.items made.new.count
        made.new.dropped result replica.new }
{
    for _ in 0..count {
        if let Err(cause) = make_one(replica, clone_place(alloc, place), Mutation::Delete, made) {
            return Err(cause);
        }
    }
    Ok(())
}

// Makes a change, and notes it.
fn make_one(
    replica: &mut Replica,
    at: Result<Place, Refusal>,
    mutation: Mutation,
    made: &mut Made,
) -> Result<Id, Refusal>
    requires room { vec_len made.old.ids < vec_capacity made.old.ids }
    requires few { made.old.count + made.old.dropped + length replica.old.held ≤ 900_000 }
    ensures ok { (place : Place) → UnlessMemory at (Ok place) → IfOk result (λ id.
        (count dropped : ℕ)
        × Event replica.old (command.Change place mutation) (answer.Applied count dropped id) replica.new
        × (made.new.ids.items ≡ made.old.ids.items ++ id ∷ [])
        × (made.new.count ≡ made.old.count + count) × (made.new.dropped ≡ made.old.dropped + dropped)) }
    ensures err { (place : Place) → UnlessMemory at (Ok place) → IfErr result (λ cause.
        Event replica.old (command.Change place mutation) (answer.Refused cause) replica.new
        × (made.new ≡ made.old)) }
    ensures few { OnOk result ((made.new.count + made.new.dropped + length replica.new.held
        ≤ made.old.count + made.old.dropped + length replica.old.held + 1)
        × (vec_len made.new.ids ≤ vec_len made.old.ids + 1)
        × (vec_capacity made.new.ids ≡ vec_capacity made.old.ids)) }
{
    match change_at(replica, at, mutation) {
        Ok(applied) => {
            made.add(&applied);
            Ok(applied.id)
        }
        Err(cause) => Err(cause),
    }
}

// Makes a change at a place, if memory sufficed for the place.
fn change_at(
    replica: &mut Replica,
    at: Result<Place, Refusal>,
    mutation: Mutation,
) -> Result<Applied, Refusal>
    ensures event { (place : Place) → UnlessMemory at (Ok place)
        → Event replica.old (command.Change place mutation) (reply_of_applied result) replica.new }
    ensures few { IfOk result (λ a.
        a.count + a.dropped + length replica.new.held ≤ length replica.old.held + 1) }
{
    match at {
        Ok(place) => replica.local(place, mutation),
        Err(_) => Err(Refusal::NoMemory),
    }
}

// ---- places

// The place of the element that the operation of this id inserted.
fn behind(alloc: Global, log: &OpLog, id: Id) -> Result<Place, Refusal>
    ensures { UnlessMemory result (Ok (element_place (find_id log.now.operations id))) }
{
    match log.get(id) {
        Some(op) => behind_op(alloc, op),
        None => Ok(at_cursor(alloc, whole_document(alloc))),
    }
}

fn behind_op(alloc: Global, op: &Operation) -> Result<Place, Refusal>
    ensures { UnlessMemory result (Ok (element_place (Some op.now))) }
{
    let path = op.cursor().path.try_clone()?;
    let key = Key::Element(op.id());
    Ok(at_cursor(alloc, Cursor { path, key }))
}

fn whole_document(alloc: Global) -> Cursor
    ensures { result ≡ whole_document }
{
    Cursor {
        path: Path::new(alloc),
        key: Key::Doc,
    }
}

fn at_cursor(alloc: Global, start: Cursor) -> Place
    ensures { result ≡ at_cursor start }
{
    Place {
        start,
        steps: Steps::from(Vec::new(alloc)),
    }
}

fn clone_place(alloc: Global, place: &Place) -> Result<Place, Refusal>
    ensures { UnlessMemory result (Ok place.now) }
{
    let start = place.start.try_clone()?;
    let steps = clone_steps(alloc, place.steps.as_slice())?;
    Ok(Place {
        start,
        steps: Steps::from(steps),
    })
}

fn clone_steps(alloc: Global, steps: &[Step]) -> Result<Vec<Step>, Refusal>
    ensures ok { IfOk result (λ copy. copy.items ≡ steps.now) }
    ensures err { IfErr result (λ e. e ≡ NoMemory) }
{
    let mut copy = Vec::with_capacity(alloc, steps.len())?;
    for step in steps {
        copy.push_reserved(clone_step(step)?);
    }
    Ok(copy)
}

fn clone_step(step: &Step) -> Result<Step, Refusal>
    ensures { UnlessMemory result (Ok step.now) }
{
    match step {
        Step::Get(text) => Ok(Step::Get(text.try_clone()?)),
        Step::Index(index) => Ok(Step::Index(*index)),
    }
}

// Whether there is something at the place so much further on, or why there isn't.
fn reach(alloc: Global, replica: &Replica, place: &Place, more: u64) -> Result<(), Refusal>
    ensures ok { OnOk result ((c : Cursor) × Resolves (replica_facts replica.now) place.now.start
        (last_further more place.now.steps) (Ok c)) }
    ensures err { IfErr result (λ cause. Resolves (replica_facts replica.now) place.now.start
        (last_further more place.now.steps) (Err cause) ⊎ (cause ≡ NoMemory)) }
{
    match further_place(alloc, place, more) {
        Ok(last) => resolves(replica, last),
        Err(_) => Err(Refusal::NoMemory),
    }
}

fn resolves(replica: &Replica, place: Place) -> Result<(), Refusal>
    ensures ok { OnOk result ((c : Cursor) × Resolves (replica_facts replica.now) place.start place.steps (Ok c)) }
    ensures err { IfErr result (λ cause.
        Resolves (replica_facts replica.now) place.start place.steps (Err cause) ⊎ (cause ≡ NoMemory)) }
{
    leads(&replica.read(NO_COUNTS, Query::Resolve(place)))
}

// Whether a reply has a cursor, or why not.
fn leads(reply: &Reply) -> Result<(), Refusal>
    ensures ok { OnOk result ((c : Cursor) × (reply.now ≡ answer.Resolved c)) }
    ensures err { IfErr result (λ cause. (reply.now ≡ answer.Refused cause) ⊎ (cause ≡ NoMemory)) }
{
    match reply {
        Reply::Resolved(_) => Ok(()),
        Reply::Refused(cause) => Err(*cause),
        _ => Err(Refusal::NoMemory),
    }
}

fn further_place(alloc: Global, place: &Place, more: u64) -> Result<Place, Refusal>
    ensures { UnlessMemory result (Ok (further_place more place.now)) }
{
    let start = place.start.try_clone()?;
    let steps = further_steps(alloc, place.steps.as_slice(), more)?;
    Ok(Place {
        start,
        steps: Steps::from(steps),
    })
}

fn further_steps(alloc: Global, steps: &[Step], more: u64) -> Result<Vec<Step>, Refusal>
    ensures ok { IfOk result (λ copy. copy.items ≡ last_further more steps.now) }
    ensures err { IfErr result (λ e. e ≡ NoMemory) }
{
    let mut copy = clone_steps(alloc, steps)?;
    match copy.pop() {
        Some(last) => pushed(copy, further(last, more)),
        None => Ok(copy),
    }
}

fn pushed(steps: Vec<Step>, step: Step) -> Result<Vec<Step>, Refusal>
    ensures ok { IfOk result (λ all. all.items ≡ steps.items ++ step ∷ []) }
    ensures err { IfErr result (λ e. e ≡ NoMemory) }
{
    let mut steps = steps;
    steps.push(step)?;
    Ok(steps)
}

fn further(step: Step, more: u64) -> Step
    ensures { result ≡ further more step }
{
    match step {
        Step::Get(text) => Step::Get(text),
        Step::Index(index) => Step::Index(index.saturating_add(more)),
    }
}
