//! What a run has made so far.
ghost use Rattle.std.specs.Prelude.{◌≡◌, ◌+◌, ◌<◌, ◌≤◌, ◌++◌, ◌∷◌, [], ℕ, vec_len, vec_capacity};
ghost use Rattle.std.specs.Prelude.{IfOk, IfErr};
ghost use Rattle.doc_api.specs.Words.{NoMemory};
ghost use Rattle.replica_c.specs.Runs.{reply_of_run};

use doc_api::Reply;
use json_scalar::Refusal;
use lamport_id::Id;
use replica_core::Applied;
use std::alloc::Global;

/// The ids of the operations that were made, and how many were logged and dropped.
#[derive(Drop)]
pub(crate) struct Made {
    pub(crate) ids: Vec<Id>,
    pub(crate) count: u64,
    pub(crate) dropped: u64,
}

/// The reply to a run, and the ids of the new operations.
#[derive(Drop)]
pub(crate) struct Outcome {
    pub(crate) reply: Reply,
    pub(crate) ids: Vec<Id>,
}

impl Made {
    /// None yet, with room for the ids of so many.
    pub(crate) fn with_room(alloc: Global, many: usize) -> Result<Made, Refusal>
        ensures ok { IfOk result (λ m. (m.ids.items ≡ []) × (m.count ≡ 0) × (m.dropped ≡ 0)
            × (many ≤ vec_capacity m.ids)) }
        ensures err { IfErr result (λ e. e ≡ NoMemory) }
    {
        Ok(Made {
            ids: Vec::with_capacity(alloc, many)?,
            count: 0,
            dropped: 0,
        })
    }

    /// One more, for whose id there is room.
    pub(crate) fn add(&mut self, applied: &Applied)
        requires room { vec_len self.old.ids < vec_capacity self.old.ids }
        requires count { self.old.count + applied.now.count ≤ 1_000_000 }
        requires dropped { self.old.dropped + applied.now.dropped ≤ 1_000_000 }
        ensures ids { self.new.ids.items ≡ self.old.ids.items ++ applied.now.id ∷ [] }
        ensures count { self.new.count ≡ self.old.count + applied.now.count }
        ensures dropped { self.new.dropped ≡ self.old.dropped + applied.now.dropped }
        ensures len { vec_len self.new.ids ≤ vec_len self.old.ids + 1 }
        ensures room { vec_capacity self.new.ids ≡ vec_capacity self.old.ids }
    {
        self.ids.push_reserved(applied.id);
        self.count += applied.count;
        self.dropped += applied.dropped;
    }

    /// What is replied to the run, which ended so.
    pub(crate) fn into_outcome(self, why: Result<(), Refusal>) -> Outcome
        ensures reply { result.reply ≡ reply_of_run self.ids.items self.count self.dropped why }
        ensures ids { result.ids.items ≡ self.ids.items }
    {
        let Made {
            ids,
            count,
            dropped,
        } = self;
        Outcome {
            reply: run_reply(ids.as_slice(), count, dropped, why),
            ids,
        }
    }
}

impl Outcome {
    /// A refusal, with nothing made.
    pub(crate) fn refused(alloc: Global, cause: Refusal) -> Outcome
        ensures reply { result.reply ≡ Reply.Refused cause }
        ensures ids { result.ids.items ≡ [] }
    {
        Outcome {
            reply: Reply::Refused(cause),
            ids: Vec::new(alloc),
        }
    }
}

fn run_reply(ids: &[Id], count: u64, dropped: u64, why: Result<(), Refusal>) -> Reply
    ensures { result ≡ reply_of_run ids.now count dropped why }
{
    match ids {
        [id, ..] => Reply::Applied {
            count,
            dropped,
            id: *id,
        },
        [] => reply_to_none(why),
    }
}

// The reply where nothing was made.
fn reply_to_none(why: Result<(), Refusal>) -> Reply
    ensures { (count dropped : ℕ) → result ≡ reply_of_run [] count dropped why }
{
    match why {
        Err(cause) => Reply::Refused(cause),
        Ok(()) => Reply::Refused(Refusal::BadRequest),
    }
}
