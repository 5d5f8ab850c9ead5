//! What a document answers: readings of its facts, the events of one replica, and the events of a
//! document that many seats share. The functions here are laws, and do nothing.
#![tactic(auto)]

ghost use Rattle.std.specs.Prelude.{◌≡◌, ◌≢◌, ◌⊎◌, ℕ, ◌+◌, ◌≤◌, true, false, List, [], ◌∷◌, ◌++◌};
ghost use Rattle.std.specs.Prelude.{length, sum};
ghost use Rattle.std.specs.Prelude.{Contains, Result, Ok, Err};
ghost use Rattle.lamport_id.specs.Name.{is_name};
ghost use Rattle.doc_api.specs.Words.{Id, Refusal, Val, Cursor, Key, Tagged, Mutation, Op};
ghost use Rattle.version_vector.specs.Front.{covers};
ghost use Rattle.op_core.specs.Shape.{is_mutation, is_shaped};
ghost use Rattle.doc_api.specs.declared.ask.Command.{Command};
ghost use Rattle.doc_api.specs.declared.ask.Counts.{Counts};
ghost use Rattle.doc_api.specs.declared.ask.Look.{Look};
ghost use Rattle.doc_api.specs.declared.ask.Query.{Query};
ghost use Rattle.doc_api.specs.declared.place.Step.{Step};
ghost use Rattle.doc_api.specs.declared.reply.Reply.{Reply};
ghost use Rattle.doc_api.specs.declared.reply.Reply.TheVariants.{Refused};
ghost use Rattle.list_laws.specs.Walk.{SameMembers};
ghost use Rattle.crdt_rules.specs.Dependencies.{is_ready, missing};
ghost use Rattle.crdt_rules.specs.Facts.{Facts, facts, step_facts};
ghost use Rattle.crdt_rules.specs.Fits.{Fits};
ghost use Rattle.crdt_rules.specs.Log.{IsGood, replay};
ghost use Rattle.crdt_rules.specs.Pull.{front_of};
ghost use Rattle.doc_rules.specs.Answers.{LooksHere, Reads, IsOfOperations};
ghost use Rattle.doc_rules.specs.Cause.{IsFirstMisfit, cause_of};
ghost use Rattle.doc_rules.specs.Document.{Document, Acts, GivesTo, IsSound, copied_to, count_in};
ghost use Rattle.doc_rules.specs.Document.{count_of, logged_by};
ghost use Rattle.doc_rules.specs.Document.{new_document, opens, total_of};
ghost use Rattle.doc_rules.specs.Events.{Event, IsWellMade, expected_of_change, logged};
ghost use Rattle.doc_rules.specs.Memory.{DoesFully};
ghost use Rattle.doc_rules.specs.Views.{AgreeOnPresent, AreConflicts, Values};
ghost use Rattle.doc_rules.specs.Replica.{Replica, GoesOn, IsValidReplica, replica_facts, own_op};
ghost use Rattle.doc_rules.specs.Resolve.{Resolves};
ghost use Rattle.doc_rules.specs.Role.{logged_role, role_here, roles_of, step_roles, value_put_at};
ghost use Rattle.doc_rules.specs.Role.{value_in, values_in};
ghost use Rattle.doc_rules.specs.Seats.{Seat, Answer, ActsFor, AnswersFor, AreEndsOf, told_counts};
ghost use Rattle.doc_rules.specs.Shown.{Shown, Shows};
ghost use Rattle.doc_rules.specs.Unchanged.{RefusalsKeep, called};

/// Steps lead to one cursor, or are refused for one cause; and a query has one answer.
pub fn one_answer()
    ensures steps { (f : Facts) (start : Cursor) (steps : List Step) (x y : Result Cursor Refusal)
        → Resolves f start steps x → Resolves f start steps y → x ≡ y }
    ensures queries { (r : Replica) (counts : Counts) (q : Query) (x y : Reply)
        → Reads r counts q x → Reads r counts q y → x ≡ y }
{}

/// Where memory is at hand throughout, a command has one answer, and one replica then.
pub fn one_outcome()
    ensures { (r s t : Replica) (command : Command) (x y : Reply) → DoesFully r command x s
        → DoesFully r command y t
        → (x ≡ y) × (s ≡ t) }
{}

/// An operation of right shape fits a log just where no cause speaks against it; and where a change
/// of one's own is to be logged, its operation fits.
pub fn causes_decide()
    ensures fits { (op : Op) (log : List Op) → is_shaped op ≡ true → cause_of op log ≡ Ok tt
        → Fits op log }
    ensures no_cause { (op : Op) (log : List Op) → Fits op log → cause_of op log ≡ Ok tt }
    ensures own { (r : Replica) (start : Cursor) (steps : List Step) (c : Cursor) (m : Mutation)
        → is_name r.name ≡ true
        → is_mutation m ≡ true → IsGood r.log → Resolves (replica_facts r) start steps (Ok c)
        → expected_of_change r c m ≡ logged (own_op r c m) → Fits (own_op r c m) r.log }
{}

/// Roles after one more operation: its own is what it does at the place, and the others stay; so
/// each present id has its role after a step on the roles.
pub fn roles_step()
    ensures own { (log : List Op) (op : Op) (p : List Tagged) (k : Key) → Fits op log
        → logged_role (log ++ op ∷ []) p k op.id ≡ role_here op p k }
    ensures others { (log : List Op) (op : Op) (p : List Tagged) (k : Key) (i : Id) → op.id ≢ i
        → logged_role (log ++ op ∷ []) p k i ≡ logged_role log p k i }
    ensures all { (log : List Op) (op : Op) (p : List Tagged) (k : Key) (i : Id) → IsGood log
        → Fits op log
        → roles_of (step_facts (facts (replay log)) op (covers op.front)) (log ++ op ∷ []) p k i
        ≡ step_roles (roles_of (facts (replay log)) log) op (covers op.front) p k i }
{}

/// Of a present id, its role and its register's entry give the value that it put; and readings ask
/// for the values of present ids alone.
pub fn roles_give_values()
    ensures shows { (f : Facts) (v w : Values) → AgreeOnPresent f v w
        → (p : List Tagged) (k : Key) (x : Shown)
        → Shows f v p k x → Shows f w p k x }
    ensures conflicts { (f : Facts) (v w : Values) → AgreeOnPresent f v w
        → (p : List Tagged) (k : Key) (xs : List (Id × Val))
        → AreConflicts f v p k xs → AreConflicts f w p k xs }
    ensures values { (log : List Op) (p : List Tagged) (k : Key) (i : Id) → IsGood log
        → (facts (replay log)).present p k i ≡ true
        → value_put_at log p k i
        ≡ value_in (logged_role log p k i) ((facts (replay log)).register p k i) }
    ensures told { (log : List Op) → IsGood log
        → AgreeOnPresent (facts (replay log)) (values_in (facts (replay log)) (roles_of (facts (replay log)) log))
        (value_put_at log) }
    ensures looks { (f : Facts) (v w : Values) → AgreeOnPresent f v w
        → (look : Look) (c : Cursor) (answer : Reply)
        → LooksHere f v look c answer → LooksHere f w look c answer }
{}

/// A list of operations is a good log, or has a first that doesn't fit those before it; not both.
pub fn first_misfit()
    ensures one { (log : List Op) → ((op : Op) → Contains log op → is_shaped op ≡ true)
        → IsGood log ⊎ ((place : ℕ) × (cause : Refusal) × IsFirstMisfit log place cause) }
    ensures not_both { (log : List Op) (place : ℕ) (cause : Refusal) → IsGood log
        → ¬ IsFirstMisfit log place cause }
{}

/// An event of a replica keeps its log good and its held operations waiting for something, and the
/// log goes on by what the answer says.
pub fn events_keep()
    ensures kept { (r s : Replica) (command : Command) (reply : Reply) → is_name r.name ≡ true
        → IsWellMade command
        → IsValidReplica r
        → Event r command reply s → IsValidReplica s }
    ensures lacks { (op : Op) (log : List Op) → is_ready op log ≡ false → missing op log ≢ [] }
    ensures goes_on { (r s : Replica) (command : Command) (reply : Reply) → Event r command reply s
        → GoesOn r (count_in reply) s }
{}

/// A command that is refused, for whatever cause, leaves the replica as it was, and the document
/// that it is in: its log, what it holds, its seats and how much of it is copied. The seat has then
/// made one more call and was notified of nothing; so has a seat that reads, whatever it is
/// answered. A document that refuses a new seat is as it was.
pub fn refusals_change_nothing()
    ensures replica { (r : Replica) (command : Command) → RefusalsKeep r (Event r command) }
    ensures document { (d : Document) (seat : ℕ) (command : Command)
        → RefusalsKeep d (Acts d seat command) }
    ensures acts { (d e : Document) (s t : Seat) (command : Command) (a : Answer) (cause : Refusal)
        → a.reply ≡ Refused cause
        → ActsFor d s command a e t → (e ≡ d) × (t ≡ called s) }
    ensures reads { (d : Document) (s t : Seat) (query : Query) (a : Answer)
        → AnswersFor d s query a t → t ≡ called s }
    ensures opens { (d : Document) (cause : Refusal) → (opens d).0 ≡ Err cause → (opens d).1 ≡ d }
{}

/// Two replicas whose good logs hold the same operations, in whatever orders, answer alike what the
/// operations answer: where steps lead, an index, each look at a place, and the front. The ids that
/// make a place present have the same roles there, and the fronts are one.
pub fn same_operations_same_answers()
    ensures answers { (r s : Replica) (ours theirs : Counts) (q : Query) (answer : Reply) → IsGood r.log
        → IsGood s.log
        → SameMembers r.log s.log → IsOfOperations q → Reads r ours q answer
        → Reads s theirs q answer }
    ensures roles { (log other : List Op) (p : List Tagged) (k : Key) (i : Id) → IsGood log
        → IsGood other
        → SameMembers log other
        → roles_of (facts (replay log)) log p k i ≡ roles_of (facts (replay other)) other p k i }
    ensures front { (log other : List Op) → IsGood log → IsGood other → SameMembers log other
        → front_of log ≡ front_of other }
{}

/// A new document is sound over a good log, each event keeps it sound, and a command gives its seat
/// just what the answer says, and the others nothing.
pub fn documents_stay_sound()
    ensures begins { (name : List ℕ) (log : List Op) (seats : ℕ) → IsGood log
        → IsSound (new_document name log seats) }
    ensures acts { (d e : Document) (seat : ℕ) (command : Command) (reply : Reply)
        → is_name d.replica.name ≡ true
        → IsWellMade command
        → seat ≤ d.opened → IsSound d → Acts d seat command reply e → IsSound e }
    ensures gives { (d e : Document) (seat : ℕ) (command : Command) (reply : Reply)
        → length d.seats_of ≡ length d.replica.log
        → Acts d seat command reply e → GivesTo d seat reply e }
    ensures shares { (d e : Document) (seat : ℕ) (reply : Reply) → IsSound d → IsSound e
        → GivesTo d seat reply e
        → (count_of seat e.seats_of ≡ count_of seat d.seats_of + count_in reply)
        × ((t : ℕ) → seat ≢ t → count_of t e.seats_of ≡ count_of t d.seats_of) }
    ensures opens { (d : Document) → IsSound d → IsSound (opens d).1 }
    ensures copied { (n : ℕ) (d : Document) → IsSound d → IsSound (copied_to n d) }
{}

/// The shares of all opened seats, and what stood there at the start, are the whole log.
pub fn shares_add_up()
    ensures total { (d : Document) → IsSound d
        → total_of d.opened d.seats_of + count_of 0 d.seats_of ≡ length d.replica.log }
    ensures ends { (number : ℕ) (d : Document) (ends : List Seat) → IsSound d
        → AreEndsOf number d ends
        → sum (told_counts ends) + count_of 0 d.seats_of ≡ length d.replica.log }
    ensures share { (d : Document) (seat : ℕ) → IsSound d
        → length (logged_by seat d) ≡ count_of seat d.seats_of }
{}
