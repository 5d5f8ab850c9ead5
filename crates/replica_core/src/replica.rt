//! The replica.
ghost use Rattle.std.specs.Prelude.{◌≡◌, ◌↔◌, [], Err, IsTrue, OnOk, IfOk, IfErr};
ghost use Rattle.json_scalar.specs.declared.refusal.Refusal.TheVariants.{NoMemory};
ghost use Rattle.crdt_rules.specs.Log.{IsGood};
ghost use Rattle.doc_rules.specs.Answers.{GoesByCounts, MayAnswer, Reads};
ghost use Rattle.doc_rules.specs.Events.{Does, Event};
ghost use Rattle.doc_rules.specs.Replica.{IsValidReplica};
ghost use Rattle.doc_api.specs.declared.ask.Command.TheVariants as command;
ghost use Rattle.replica_core.specs.Memory.{MayLack, MayLog};
ghost use Rattle.replica_core.specs.Misfits.{IsMisfitOf};
ghost use Rattle.replica_core.specs.AgreesWith.{AgreesWith};
ghost use Rattle.replica_core.specs.Outcomes.{reply_of_applied, reply_of_delivered};
ghost use Rattle.replica_core.specs.Outcomes.{reply_of_forgotten};
ghost use Rattle.replica_core.specs.Whole.{replica_of};

use crate::body::Body;
use crate::limits::keeps_limits;
use crate::outcome::{Applied, Delivered};
use crate::outcome_reply::{applied_reply, delivered_reply, forgotten_reply};
use crate::restore::{Misfit, logged, tree_of};
use doc_api::{Command, Counts, Place, Query, Reply, State};
use doc_tree::Tree;
use doc_view::resolve;
use json_scalar::Refusal;
use lamport_id::{Id, ReplicaName, keeps_name};
use op_core::{Mutation, Operation, keeps_shape};
use op_log::{OpLog, keeps_good};
use std::alloc::Global;
use std::marker::Model;

/// A replica of a document. A contract sees its name, its log, and the held operations in the order
/// of their ids. The log is good (valid), its tree has the facts of its replay, and each held
/// operation is foreign and waits for one that is not logged.
pub struct Replica {
    name: ReplicaName,
    alloc: Global,
    body: Body,
}

impl Model for Replica {
    ghost use Rattle.doc_rules.specs.Replica.{Replica as Document};
    ghost use Rattle.replica_core.specs.Whole.{IsWhole};

    ghost Value = { Document };

    ghost view = { λ r. record { name = r.name; log = r.body.log; held = r.body.held } };

    ghost invariant = { λ r. IsWhole r.name r.body };
}

impl Replica {
    /// The replica of this name whose log is empty. It keeps the allocator.
    /// The only error is out of memory.
    pub fn new(alloc: Global, name: ReplicaName) -> Result<Replica, Refusal>
        ensures ok { IfOk result (λ r. r ≡ replica_of name [] []) }
        ensures err { IfErr result (λ e. e ≡ Refusal.NoMemory) }
    {
        keeps_name(&name);
        match Tree::new(alloc) {
            Ok(tree) => Ok(Replica {
                name,
                alloc,
                body: Body::new(alloc, tree, OpLog::new(alloc)),
            }),
            Err(_) => Err(Refusal::NoMemory),
        }
    }

    /// The replica of this name whose log is these operations, and which holds none. It keeps
    /// the allocator. Where they are no good log, the error is the first that does not fit
    /// those before it, and the cause.
    pub fn restore(
        alloc: Global,
        name: ReplicaName,
        operations: &[Operation],
    ) -> Result<Replica, Misfit>
        ensures ok { IfOk result (λ r. r ≡ replica_of name operations.now []) }
        ensures good { OnOk result (IsGood operations.now) }
        ensures err { IfErr result (IsMisfitOf operations.now) }
    {
        keeps_name(&name);
        match logged(alloc, operations) {
            Ok((tree, log)) => Ok(Replica {
                name,
                alloc,
                body: Body::new(alloc, tree, log),
            }),
            Err(misfit) => Err(misfit),
        }
    }

    /// The replica of this name whose log is this one, and which holds no operation. It keeps the
    /// allocator. No operation is checked again. The only error is out of memory.
    pub fn of_log(alloc: Global, name: ReplicaName, log: OpLog) -> Result<Replica, Refusal>
        ensures ok { IfOk result (λ r. r ≡ replica_of name log.operations []) }
        ensures err { IfErr result (λ e. e ≡ Refusal.NoMemory) }
    {
        keeps_name(&name);
        keeps_good(&log);
        let tree = tree_of(alloc, &log)?;
        Ok(Replica {
            name,
            alloc,
            body: Body::new(alloc, tree, log),
        })
    }

    /// Its name.
    pub fn name(&self) -> ReplicaName
        ensures { result ≡ self.now.name }
    {
        self.name
    }

    /// Its log.
    pub fn log(&self) -> &OpLog
        ensures log { result.now.operations ≡ self.now.log }
        ensures kept { IsValidReplica self.now }
    {
        self.body.log()
    }

    /// The tree of its log.
    pub fn tree(&self) -> &Tree
        ensures { AgreesWith result.now self.now.log }
    {
        self.body.tree()
    }

    /// Makes a change of one's own at a place, as the next operation of this replica, and then logs
    /// what that releases. The errors are the first cause against the place (as `resolve` returns
    /// it), not-in-list for an insertion outside a list, at-head for anything else at a head,
    /// log-full, too-many-replicas, and out of memory. An error leaves all as it was.
    pub fn local(&mut self, place: Place, mutation: Mutation) -> Result<Applied, Refusal>
        ensures { Event self.old (command.Change place mutation) (reply_of_applied result) self.new }
    {
        keeps_limits(&mutation);
        let Place { start, steps } = place;
        let resolved = resolve(self.body.tree(), start, steps.as_slice());
        self.body.change(self.alloc, self.name, resolved, mutation)
    }

    /// Delivers an operation that was made elsewhere. The answer is that it is known, or the first
    /// cause against it: id-conflict with one that is logged or held under its id, own-name,
    /// held-full, and those of `OpLog::check`. Otherwise it is logged and the held ones drained, or
    /// it is held. Out of memory is the error only where it would be logged or held, or is held
    /// already and the ids it waits for are to be listed. An error leaves all as it was.
    pub fn deliver(&mut self, op: Operation) -> Result<Delivered, Refusal>
        ensures event { Event self.old (command.Deliver op) (reply_of_delivered result) self.new }
        ensures memory { result ≡ Err NoMemory → MayLack self.old (command.Deliver op) }
    {
        keeps_shape(&op);
        self.body.deliver(self.name, op)
    }

    /// Drops a held operation. The only error is not-held, where none is held under the id, which
    /// changes nothing. Allocates nothing.
    pub fn forget(&mut self, id: Id) -> Result<(), Refusal>
        ensures { Does self.old (command.Forget id) (reply_of_forgotten result) self.new }
    {
        match self.body.remove(id) {
            Some(op) => {
                // what `forget` is for
                drop(op);
                Ok(())
            }
            None => Err(Refusal::NotHeld),
        }
    }

    /// Answers a query, and changes nothing. `counts` is what the replica doesn't know: queries of
    /// the account, of the size and of what is copied are answered by it, without memory. A reading
    /// of a place is refused with the first cause against its steps, or as at-head; and any other
    /// query may be refused with out of memory.
    pub fn read(&self, counts: Counts, query: Query) -> Reply
        ensures answer { MayAnswer self.now counts query result }
        ensures account { query ≡ Query.State State.Account → result ≡ Reply.Account counts.mine }
        ensures counted { GoesByCounts query → Reads self.now counts query result }
    {
        self.body.read(self.alloc, counts, query)
    }

    /// Whether a command may log anything: a change of one's own, or a delivery that would be logged
    /// if memory suffices. Allocates nothing.
    pub fn may_log(&self, command: &Command) -> bool
        ensures { IsTrue result ↔ MayLog self.now command.now }
    {
        match command {
            Command::Change(_, _) => true,
            Command::Deliver(op) => self.body.would_log(&self.name, op),
            Command::Forget(_) => false,
        }
    }

    /// Runs a command, and returns the answer of `local`, `deliver` or `forget` as a reply. A
    /// delivery is refused with out of memory only where something grows, and a `forget` never.
    pub fn act(&mut self, command: Command) -> Reply
        ensures event { Event self.old command result self.new }
        ensures memory { result ≡ Reply.Refused NoMemory → MayLack self.old command }
    {
        match command {
            Command::Change(place, mutation) => applied_reply(self.local(place, mutation)),
            Command::Deliver(op) => delivered_reply(self.deliver(op)),
            Command::Forget(id) => forgotten_reply(self.forget(id)),
        }
    }
}

// By hand, so that it is called and not written out where a replica is dropped.
impl Drop for Replica {
    fn drop(self) {
        let Replica {
            name: _,
            alloc: _,
            body: _,
        } = self;
    }
}
