//! A replica's answers to queries.
ghost use Rattle.std.specs.Prelude.{◌≡◌, ◌⊎◌, ℕ, List};
ghost use Rattle.doc_tree.specs.Nodes.{tree_facts};
ghost use Rattle.doc_rules.specs.Answers.{MayAnswer, Reads, LooksHere, reply_with};
ghost use Rattle.doc_rules.specs.Answers.{GoesByCounts};
ghost use Rattle.doc_view.specs.TreeValues.{tree_values};
ghost use Rattle.doc_api.specs.declared.ask.Query.TheVariants as query;
ghost use Rattle.replica_core.specs.Whole.{replica_with};

use crate::body::Body;
use doc_api::{CompactText, Counts, Look, Place, Query, Reply, Scalars, State};
use doc_tree::Tree;
use doc_view::{conflicts_text, index, items_text, keys_text, resolve, show, sum, values};
use json_scalar::Refusal;
use lamport_id::Id;
use log_chains::chains_text;
use op_core::{Cursor, Front};
use std::alloc::Global;

impl Body {
    /// A replica's answer to a query. `counts` is what a query of the account, of the size or of
    /// what is copied is answered by, without memory. Any other query may be refused with out of
    /// memory, and a reading of a place with the cause against the place.
    pub fn read(&self, alloc: Global, counts: Counts, query: Query) -> Reply
        ensures answer { (name : List ℕ)
            → MayAnswer (replica_with name self.now) counts query result }
        ensures account { query ≡ Query.State State.Account → result ≡ Reply.Account counts.mine }
        ensures counted { (name : List ℕ) → GoesByCounts query
            → Reads (replica_with name self.now) counts query result }
    {
        match query {
            Query::Resolve(place) => self.resolve_place(place),
            Query::Index(place) => self.index_of_place(place),
            Query::Look(look, place) => self.look_at_place(alloc, look, place),
            Query::Operations(front, limit) => self.operations(&front, limit),
            Query::Chains(after, front) => self.chains(alloc, &after, &front),
            Query::IsCopied(id) => self.is_copied(counts, id),
            Query::State(state) => self.read_state(counts, state),
        }
    }

    // The answer to a reading of the whole.
    fn read_state(&self, counts: Counts, state: State) -> Reply
        ensures answer { (name : List ℕ)
            → MayAnswer (replica_with name self.now) counts (query.State state) result }
        ensures account { state ≡ State.Account → result ≡ Reply.Account counts.mine }
        ensures counted { (name : List ℕ) → GoesByCounts (query.State state)
            → Reads (replica_with name self.now) counts (query.State state) result }
    {
        match state {
            State::Front => self.whole_front(),
            State::Held => self.waiting(),
            State::Account => Reply::Account(counts.mine),
            State::Size => self.size(counts),
        }
    }

    // The answer of a look at a place, or the cause against its steps.
    fn look_at_place(&self, alloc: Global, look: Look, place: Place) -> Reply
        ensures { (name : List ℕ) (counts : Counts)
            → MayAnswer (replica_with name self.now) counts (query.Look look place) result }
    {
        let Place { start, steps } = place;
        let tree = self.tree();
        match resolve(tree, start, steps.as_slice()) {
            Ok(cursor) => look_at(alloc, tree, look, &cursor),
            Err(cause) => Reply::Refused(cause),
        }
    }

    // Where the steps of a place lead.
    fn resolve_place(&self, place: Place) -> Reply
        ensures { (name : List ℕ) (counts : Counts)
            → MayAnswer (replica_with name self.now) counts (query.Resolve place) result }
    {
        let Place { start, steps } = place;
        match resolve(self.tree(), start, steps.as_slice()) {
            Ok(cursor) => Reply::Resolved(cursor),
            Err(cause) => Reply::Refused(cause),
        }
    }

    // How many present elements come up to the one at a place.
    fn index_of_place(&self, place: Place) -> Reply
        ensures { (name : List ℕ) (counts : Counts)
            → MayAnswer (replica_with name self.now) counts (query.Index place) result }
    {
        let Place { start, steps } = place;
        let tree = self.tree();
        match resolve(tree, start, steps.as_slice()) {
            Ok(cursor) => index_reply(index(tree, &cursor)),
            Err(cause) => Reply::Refused(cause),
        }
    }

    // The logged operations that a front does not cover, at most so many.
    fn operations(&self, front: &Front, limit: u64) -> Reply
        ensures { (name : List ℕ) (counts : Counts)
            → MayAnswer (replica_with name self.now) counts (query.Operations front.now limit) result }
    {
        match self.log().since_text(front, limit as usize) {
            Ok(text) => Reply::Operations(text),
            Err(_) => Reply::Refused(Refusal::NoMemory),
        }
    }

    // Digests of the chains of a front's replicas, above what another front has of them.
    fn chains(&self, alloc: Global, after: &Front, front: &Front) -> Reply
        ensures { (name : List ℕ) (counts : Counts)
            → MayAnswer (replica_with name self.now) counts (query.Chains after.now front.now) result }
    {
        match chains_text(alloc, self.log(), after, front) {
            Ok(text) => Reply::Chains(text),
            Err(_) => Reply::Refused(Refusal::NoMemory),
        }
    }

    // Whether the operation of an id is among those that the stored log has.
    fn is_copied(&self, counts: Counts, id: Id) -> Reply
        ensures { (name : List ℕ)
            → Reads (replica_with name self.now) counts (query.IsCopied id) result }
    {
        Reply::Copied(self.log().is_among_first(counts.copied as usize, id))
    }

    // How much the log has.
    fn size(&self, counts: Counts) -> Reply
        ensures { (name : List ℕ)
            → Reads (replica_with name self.now) counts (query.State State.Size) result }
    {
        let log = self.log();
        Reply::Size {
            logged: log.len() as u64,
            copied: counts.copied,
            replicas: log.replica_count() as u64,
        }
    }

    // The front of the log.
    fn whole_front(&self) -> Reply
        ensures { (name : List ℕ) (counts : Counts)
            → MayAnswer (replica_with name self.now) counts (query.State State.Front) result }
    {
        match self.log().front() {
            Ok(front) => Reply::Front(front),
            Err(_) => Reply::Refused(Refusal::NoMemory),
        }
    }

    // The held operations, and what each waits for.
    fn waiting(&self) -> Reply
        ensures { (name : List ℕ) (counts : Counts)
            → MayAnswer (replica_with name self.now) counts (query.State State.Held) result }
    {
        match self.held().waiting(self.log()) {
            Ok(waiting) => Reply::Waiting(waiting),
            Err(_) => Reply::Refused(Refusal::NoMemory),
        }
    }
}

// The answer of a look at a cursor, unless out of memory.
fn look_at(alloc: Global, tree: &Tree, look: Look, cursor: &Cursor) -> Reply
    ensures { (result ≡ Reply.Refused Refusal.NoMemory)
        ⊎ LooksHere (tree_facts tree.now) (tree_values tree.now) look cursor.now result }
{
    match look {
        Look::Keys => keys_reply(keys_text(alloc, tree, cursor)),
        Look::Values => values_reply(values(alloc, tree, cursor)),
        Look::Items => items_reply(items_text(alloc, tree, cursor)),
        Look::Conflicts => conflicts_reply(conflicts_text(alloc, tree, cursor)),
        Look::Show => show_reply(show(alloc, tree, cursor)),
        Look::Sum => sum_reply(sum(tree, cursor)),
    }
}

fn index_reply(answer: Result<u64, Refusal>) -> Reply
    ensures { result ≡ reply_with (λ x. Reply.Index x) answer }
{
    match answer {
        Ok(index) => Reply::Index(index),
        Err(cause) => Reply::Refused(cause),
    }
}

fn keys_reply(answer: Result<CompactText, Refusal>) -> Reply
    ensures { result ≡ reply_with (λ x. Reply.Keys x) answer }
{
    match answer {
        Ok(text) => Reply::Keys(text),
        Err(cause) => Reply::Refused(cause),
    }
}

fn values_reply(answer: Result<Scalars, Refusal>) -> Reply
    ensures { result ≡ reply_with (λ x. Reply.Values x) answer }
{
    match answer {
        Ok(values) => Reply::Values(values),
        Err(cause) => Reply::Refused(cause),
    }
}

fn items_reply(answer: Result<CompactText, Refusal>) -> Reply
    ensures { result ≡ reply_with (λ x. Reply.Items x) answer }
{
    match answer {
        Ok(text) => Reply::Items(text),
        Err(cause) => Reply::Refused(cause),
    }
}

fn conflicts_reply(answer: Result<CompactText, Refusal>) -> Reply
    ensures { result ≡ reply_with (λ x. Reply.Conflicts x) answer }
{
    match answer {
        Ok(text) => Reply::Conflicts(text),
        Err(cause) => Reply::Refused(cause),
    }
}

fn show_reply(answer: Result<CompactText, Refusal>) -> Reply
    ensures { result ≡ reply_with (λ x. Reply.Show x) answer }
{
    match answer {
        Ok(text) => Reply::Show(text),
        Err(cause) => Reply::Refused(cause),
    }
}

fn sum_reply(answer: Result<i128, Refusal>) -> Reply
    ensures { result ≡ reply_with (λ x. Reply.Sum x) answer }
{
    match answer {
        Ok(sum) => Reply::Sum(sum),
        Err(cause) => Reply::Refused(cause),
    }
}
