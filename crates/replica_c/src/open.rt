//! An open replica, and what it replies.
ghost use Rattle.std.specs.Prelude.{◌≡◌, ◌≢◌, ◌⊎◌, ◌<◌, ◌++◌, ◌∷◌, [], ℕ, List, Some, false};
ghost use Rattle.std.specs.Prelude.{length, MatchResult, IfOk, IfErr, OnOk};
ghost use Rattle.line_feed.specs.Lines.{lines};
ghost use Rattle.line_proto.specs.Replies.{reply_line};
ghost use Rattle.line_proto.specs.declared.line_reply.LineReply.TheVariants.{Answered};
ghost use Rattle.doc_api.specs.declared.ask.Command.TheVariants as command;
ghost use Rattle.doc_api.specs.declared.reply.Reply.{Reply};
ghost use Rattle.op_core.specs.Op.{Op};
ghost use Rattle.doc_api.specs.Words.{NoMemory};
ghost use Rattle.op_core.specs.Wire.{wire};
ghost use Rattle.serde_json.specs.Written.{compact_text};
ghost use Rattle.crdt_rules.specs.Log.{IsGood};
ghost use Rattle.doc_rules.specs.Answers.{MayAnswer};
ghost use Rattle.doc_rules.specs.Events.{Event};
ghost use Rattle.doc_rules.specs.Replica.{find_id};
ghost use Rattle.json_scalar.specs.Refusal.{UnlessMemory};
ghost use Rattle.replica_core.specs.Misfits.{IsMisfitOf};
ghost use Rattle.replica_c.specs.Asking.{ask_of};
ghost use Rattle.replica_c.specs.Runs.{DoesRun, MakesNone};
ghost use Rattle.replica_c.specs.Serving.{TellsLine, IsTold, applied_ids, listed_id, no_counts};
ghost use Rattle.replica_c.specs.Serving.{op_line, op_lines, own_ids, told_text};
ghost use Rattle.replica_c.specs.Stored.{AreWritten, IsUnfit, IsUnopened, IsUnread, OpensAs};

use crate::ask::{Ask, Run};
use crate::made::Outcome;
use crate::read::read_operation;
use crate::run::make_run;
use doc_api::{Command, Counts, Place, Query, Reply};
use json_scalar::Refusal;
use json_text::{AsJson, JsonText};
use lamport_id::{Id, ReplicaName};
use line_feed::Writer;
use line_proto::LineReply;
use memchr::memchr;
use op_core::{Mutation, Operation};
use op_log::OpLog;
use replica_core::{Misfit, Replica};
use std::alloc::Global;
use std::mem;

// Room for the answer to any command and for the line of any operation, in bytes.
const ROOM: usize = 65_536;

// No seat asks, and there is no stored log.
const NO_COUNTS: Counts = Counts { mine: 0, copied: 0 };

/// A replica, and its last reply.
#[derive(Drop)]
pub struct OpenReplica {
    pub(crate) replica: Replica,
    pub(crate) text: Vec<u8>,
    alloc: Global,
}

/// Why no replica is opened.
#[derive(Drop)]
pub enum Unopened {
    /// Its name isn't 1 to 32 of `a-z`, `0-9` and `-`.
    Name,
    /// The first line that doesn't fit, or out of memory.
    Unfit(Misfit),
}

// Empties the text, and gives back the memory of one that needed more room.
fn emptied(alloc: Global, text: Vec<u8>) -> Vec<u8>
    ensures { result.items ≡ [] }
{
    if text.capacity() > ROOM {
        if let Ok(least) = Vec::with_capacity(alloc, ROOM) {
            return least;
        }
    }
    let mut text = text;
    text.clear();
    text
}

// Appends a reply's line, and returns whether it could. Only the lines of
// readings take memory of their own.
fn told(alloc: Global, reply: &LineReply, text: Vec<u8>) -> (Vec<u8>, bool)
    ensures { IsTold result.1 (text.items ++ reply_line reply.now) result.0.items }
{
    let mut sink = Writer::new(text);
    let is_told = reply.write(alloc, &mut sink).is_ok();
    (sink.into_inner(), is_told)
}

fn op_text(words: JsonText, op: &Operation) -> Result<Vec<u8>, Refusal>
    requires { words ≡ [] }
    ensures { IfOk result (λ text. text.items ≡ compact_text (wire op.now)) }
{
    let mut words = words;
    match op.put_in(&mut words) {
        Ok(()) => Ok(words.into_bytes()),
        Err(cause) => Err(cause),
    }
}

// Appends an operation's line. Its own room is returned.
fn put_op(words: JsonText, op: &Operation, text: &mut Vec<u8>) -> Result<Vec<u8>, Refusal>
    requires { words ≡ [] }
    ensures { OnOk result (text.new.items ≡ text.old.items ++ op_line (Some op.now)) }
{
    let line = op_text(words, op)?;
    text.extend_from_slice(line.as_slice())?;
    text.push(b'\n')?;
    Ok(line)
}

// Appends the line of the operation of this id, if there is one.
fn put_logged(words: JsonText, log: &OpLog, id: Id, text: &mut Vec<u8>) -> Result<Vec<u8>, Refusal>
    requires { words ≡ [] }
    ensures { OnOk result (text.new.items ≡ text.old.items
        ++ op_line (find_id log.now.operations id)) }
{
    match log.get(id) {
        Some(op) => put_op(words, op, text),
        None => Ok(words.into_bytes()),
    }
}

// Appends the lines of the operations of these ids, in order.
fn put_all(words: JsonText, log: &OpLog, ids: &[Id], text: &mut Vec<u8>) -> Result<(), Refusal>
    ensures { OnOk result (text.new.items ≡ text.old.items ++ op_lines log.now.operations ids.now) }
{
    let mut room = words.into_bytes();
    for id in ids {
        room = put_logged(JsonText::in_room_of(room), log, *id, text)?;
    }
    Ok(())
}

// The id of the operation that was applied.
fn applied_id(reply: &Reply) -> Option<Id>
    ensures { applied_ids reply.now ≡ listed_id result }
{
    match reply {
        Reply::Applied { id, .. } => Some(*id),
        _ => None,
    }
}

impl OpenReplica {
    /// The replica of this name whose log is what the lines write, one operation each.
    pub(crate) fn open(alloc: Global, name: &[u8], text: &[u8]) -> Result<OpenReplica, Unopened>
        ensures ok { IfOk result (λ o. OpensAs name.now text.now o.replica) }
        ensures err { IfErr result (IsUnopened name.now text.now) }
    {
        let Some(name) = ReplicaName::read(name) else {
            return Err(Unopened::Name);
        };
        let Ok(room) = Vec::with_capacity(alloc, ROOM) else {
            return Err(Unopened::Unfit(Misfit::NoMemory));
        };
        match restored(alloc, name, text) {
            Ok(replica) => Ok(OpenReplica {
                replica,
                text: room,
                alloc,
            }),
            Err(misfit) => Err(Unopened::Unfit(misfit)),
        }
    }

    /// Answers what a line asks, and keeps the text of the answer. `false` if memory lacked for that
    /// text.
    pub(crate) fn answer(&mut self, asked: Result<Ask, Refusal>) -> bool
        ensures { (line : List ℕ) → UnlessMemory asked (ask_of line)
            → TellsLine self.old.replica line result self.new.replica self.new.text.items }
    {
        match asked {
            Ok(Ask::Act(command)) => self.act(command),
            Ok(Ask::Run(run)) => self.run(run),
            Ok(Ask::Read(query)) => self.look(query),
            Err(cause) => self.tell(Reply::Refused(cause)),
        }
    }

    fn act(&mut self, command: Command) -> bool
        ensures { (reply : Reply) × Event self.old.replica command reply self.new.replica
            × IsTold result (told_text reply (own_ids command reply) self.new.replica.log)
            self.new.text.items }
    {
        match command {
            Command::Change(place, mutation) => self.change(place, mutation),
            Command::Deliver(op) => {
                let reply = self.replica.act(Command::Deliver(op));
                self.tell(reply)
            }
            Command::Forget(id) => {
                let reply = self.replica.act(Command::Forget(id));
                self.tell(reply)
            }
        }
    }

    // Room for the operation's line is made before the change.
    fn change(&mut self, place: Place, mutation: Mutation) -> bool
        ensures { (reply : Reply)
            × Event self.old.replica (command.Change place mutation) reply self.new.replica
            × IsTold result (told_text reply (applied_ids reply) self.new.replica.log)
            self.new.text.items }
    {
        let Ok(words) = JsonText::with_room(self.alloc, ROOM) else {
            return self.tell(Reply::Refused(Refusal::NoMemory));
        };
        let reply = self.replica.act(Command::Change(place, mutation));
        self.tell_change(reply, words)
    }

    fn tell_change(&mut self, reply: Reply, words: JsonText) -> bool
        ensures replica { self.new.replica ≡ self.old.replica }
        ensures told { IsTold result (told_text reply (applied_ids reply) self.old.replica.log)
            self.new.text.items }
    {
        match applied_id(&reply) {
            Some(id) => self.tell_made(reply, &[id], words),
            None => self.tell(reply),
        }
    }

    // Room for an operation's line is made before the changes, and serves each.
    fn run(&mut self, run: Run) -> bool
        ensures { (reply : Reply) × (ids : List Id)
            × (DoesRun self.old.replica run reply ids self.new.replica
            ⊎ MakesNone self.old.replica NoMemory reply ids self.new.replica)
            × IsTold result (told_text reply ids self.new.replica.log) self.new.text.items }
    {
        let Ok(words) = JsonText::with_room(self.alloc, ROOM) else {
            return self.tell(Reply::Refused(Refusal::NoMemory));
        };
        let Outcome { reply, ids } = make_run(self.alloc, &mut self.replica, run);
        self.tell_made(reply, ids.as_slice(), words)
    }

    // Tells a reply, and the operations of these ids.
    fn tell_made(&mut self, reply: Reply, ids: &[Id], words: JsonText) -> bool
        ensures replica { self.new.replica ≡ self.old.replica }
        ensures told { IsTold result (told_text reply ids.now self.old.replica.log)
            self.new.text.items }
    {
        if !self.tell(reply) {
            return false;
        }
        put_all(words, self.replica.log(), ids, &mut self.text).is_ok()
    }

    // Tells the answer to a command, or a refusal.
    fn tell(&mut self, reply: Reply) -> bool
        ensures replica { self.new.replica ≡ self.old.replica }
        ensures told { IsTold result (reply_line (Answered reply)) self.new.text.items }
    {
        let text = emptied(
            self.alloc,
            mem::replace(&mut self.text, Vec::new(self.alloc)),
        );
        let (text, is_told) = told(self.alloc, &LineReply::Answered(reply), text);
        self.text = text;
        is_told
    }

    // Tells the answer to a query, or out of memory in its place.
    fn look(&mut self, query: Query) -> bool
        ensures replica { self.new.replica ≡ self.old.replica }
        ensures told { (reply : Reply) × MayAnswer self.old.replica no_counts query reply
            × IsTold result (reply_line (Answered reply)) self.new.text.items }
    {
        let reply = self.replica.read(NO_COUNTS, query);
        self.tell(reply) || self.tell(Reply::Refused(Refusal::NoMemory))
    }
}

// The replica of this name whose log is what the lines write.
fn restored(alloc: Global, name: ReplicaName, text: &[u8]) -> Result<Replica, Misfit>
    ensures { MatchResult result (OpensAs name text.now) (IsUnfit (lines text.now)) }
{
    let mut operations = Vec::new(alloc);
    match read_all(alloc, text, &mut operations) {
        Ok(()) => Replica::restore(alloc, name, operations.as_slice()),
        Err(cause) => Err(unread(alloc, name, operations.as_slice(), cause)),
    }
}

// Whether it is for lack of memory.
fn is_memory(cause: &Refusal) -> bool
    ensures { result ≡ false → cause.now ≢ NoMemory }
{
    cause.number() == 22
}

// Why a text opens nothing, of which these operations are before a line that writes none.
fn unread(alloc: Global, name: ReplicaName, operations: &[Operation], cause: Refusal) -> Misfit
    ensures { (all : List (List ℕ)) → (cause ≢ NoMemory → IsUnread all operations.now cause)
        → IsUnfit all result }
{
    if is_memory(&cause) {
        return Misfit::NoMemory;
    }
    match checked(alloc, name, operations) {
        Ok(()) => Misfit::At {
            place: operations.len(),
            cause,
        },
        Err(misfit) => misfit,
    }
}

// Whether these operations make a log.
fn checked(alloc: Global, name: ReplicaName, operations: &[Operation]) -> Result<(), Misfit>
    ensures ok { OnOk result (IsGood operations.now) }
    ensures err { IfErr result (IsMisfitOf operations.now) }
{
    match Replica::restore(alloc, name, operations) {
        Ok(_) => Ok(()),
        Err(misfit) => Err(misfit),
    }
}

// Appends the operations that the lines write, up to the first line that writes none.
fn read_all(alloc: Global, text: &[u8], operations: &mut Vec<Operation>) -> Result<(), Refusal>
    requires empty { operations.old.items ≡ [] }
    ensures ok { OnOk result (AreWritten (lines text.now) operations.new.items) }
    ensures err { IfErr result
        (λ e. e ≢ Refusal.NoMemory → IsUnread (lines text.now) operations.new.items e) }
{
    let mut rest = text;
    while !rest.is_empty() {
        let (line, later) = cut(rest);
        let op = beside_last(read_operation(alloc, line)?, operations.as_slice());
        operations.push(op)?;
        rest = later;
    }
    Ok(())
}

// The operation, which shares with the last of these what both have. A log can't make its clone
// share that.
fn beside_last(op: Operation, operations: &[Operation]) -> Operation
    ensures { result ≡ op }
{
    match operations.last() {
        Some(last) => op.sharing(last, last),
        None => op,
    }
}

// The first line of a text that isn't empty, and the text after it.
fn cut(text: &[u8]) -> (&[u8], &[u8])
    requires { 0 < length text.now }
    ensures lines { lines text.now ≡ result.0.now ∷ lines result.1.now }
    ensures shorter { length result.1.now < length text.now }
{
    match memchr(b'\n', text) {
        Some(at) => (&text[..at], &text[at + 1..]),
        None => (text, &text[text.len()..]),
    }
}
