//! A run: one session over new documents, from any source to any sink.
ghost use Rattle.std.specs.Prelude.{◌≡◌, ◌≢◌, ◌⊎◌, ◌≤◌, ◌+◌, ℕ, [], false, true, length, map, IfOk};
ghost use Rattle.std.specs.Prelude.{IfErr};
ghost use Rattle.doc_rules.specs.Document.{new_document};
ghost use Rattle.lamport_id.specs.Name.{is_name};
ghost use Rattle.run_core.specs.Names.{Wanted, first_replica, is_good, wanted_by};
ghost use Rattle.run_core.specs.Served.{AreWanted, ServesAll, ServesUntilFault};
ghost use Rattle.run_core.specs.Limits.{longest_server_name, most_documents};

use crate::names::{first_replica, is_good};
use json_scalar::Refusal;
use lamport_id::ReplicaName;
use line_feed::{Sink, Source};
use line_proto::Name;
use session_core::{Alone, Document, Ended, run_alone};
use session_rules::Ending;
use std::alloc::Global;
use std::mem::ManuallyDrop;

/// What makes the documents of a session.
pub trait Maker {
    type Made: Document;

    /// How many documents it can still make.
    ghost room: { Self → ℕ };

    /// A new document with one seat, for the replica of this name. The one error is `NoMemory`.
    fn make(&mut self, alloc: Global, name: &ReplicaName) -> Result<Self::Made, Refusal>
        requires { 1 ≤ room self.old }
        ensures made { IfOk result (λ made. Self.Made.document made ≡ new_document name.now [] 1) }
        ensures memory { IfErr result (λ cause. cause ≡ Refusal.NoMemory) }
        ensures room { room self.old ≤ room self.new + 1 };
}

// New documents of these names, for the replica of this name.
fn make_all<M: Maker>(
    alloc: Global,
    maker: &mut M,
    replica: &ReplicaName,
    names: &[&str],
) -> Result<Alone<M::Made>, Refusal>
    requires { length names.now ≤ M.room maker.old }
    ensures names { IfOk result (λ made. made.names.items ≡ map (λ s. s.now) names.now) }
    ensures documents { IfOk result (λ made. map M.Made.document made.documents.items
        ≡ map (λ n. new_document replica.now [] 1) (map (λ s. s.now) names.now)) }
    ensures memory { IfErr result (λ cause. cause ≡ Refusal.NoMemory) }
{
    let mut made = Vec::new(alloc);
    let mut documents = Vec::new(alloc);
    for name in names {
        made.push(Name::new(alloc, name)?)?;
        documents.push(maker.make(alloc, replica)?)?;
    }
    Ok(Alone {
        names: made,
        documents,
    })
}

// The status of a session that ended so: 1 where a device failed.
fn status_of(why: Ending) -> u8
    ensures bound { result ≤ 1 }
    ensures fault { result ≡ 1 → (why ≡ Ending.ReadFault) ⊎ (why ≡ Ending.WriteFault) }
    ensures no_fault { result ≡ 0 → (why ≢ Ending.ReadFault) × (why ≢ Ending.WriteFault) }
{
    match why {
        Ending::ReadFault | Ending::WriteFault => 1,
        Ending::Quit | Ending::End | Ending::TooLong | Ending::LinesUsedUp => 0,
    }
}

// The status of a session that has ended. The documents are leaked: the program ends with its run,
// and to drop each operation would take a sixth of it.
fn finish<D: Document>(ended: Ended<D>) -> u8
    ensures bound { result ≤ 1 }
    ensures fault { result ≡ 1 → (ended.why ≡ Ending.ReadFault) ⊎ (ended.why ≡ Ending.WriteFault) }
    ensures no_fault { result ≡ 0 → (ended.why ≢ Ending.ReadFault)
        × (ended.why ≢ Ending.WriteFault) }
{
    let Ended { why, documents, .. } = ended;
    let _leaked = ManuallyDrop::new(documents);
    status_of(why)
}

// New documents of these names, for the first start of the server of this name.
fn first_documents<M: Maker>(
    alloc: Global,
    maker: &mut M,
    name: &str,
    documents: &[&str],
) -> Result<Alone<M::Made>, Refusal>
    requires named { (is_name name.now ≡ true) × (length name.now ≤ longest_server_name) }
    requires room { length documents.now ≤ M.room maker.old }
    ensures names { IfOk result (λ made. made.names.items ≡ map (λ s. s.now) documents.now) }
    ensures documents { IfOk result (λ made. map M.Made.document made.documents.items
        ≡ map (λ n. new_document (first_replica name.now) [] 1) (map (λ s. s.now) documents.now)) }
{
    match first_replica(alloc, name)? {
        Some(replica) => make_all(alloc, maker, &replica, documents),
        None => unreachable!(),
    }
}

// Runs a session over these documents.
fn serve<D: Document, R: Source, W: Sink>(
    alloc: Global,
    documents: Alone<D>,
    source: &mut R,
    sink: &mut W,
) -> u8
    requires source_works { R.has_failed source.old ≡ false }
    requires sink_works { W.has_failed sink.old ≡ false }
    ensures bound { result ≤ 1 }
    ensures served { (wanted : Wanted)
        → AreWanted wanted documents.names.items (map D.document documents.documents.items)
        → result ≡ 0 → ServesAll wanted
        (R.remaining source.old) (R.remaining source.new) (W.contents sink.old) (W.contents sink.new) }
    ensures no_fault { result ≡ 0 → (R.has_failed source.new ≡ false)
        × (W.has_failed sink.new ≡ false) }
    ensures flushed { W.unflushed sink.old ≡ [] → result ≡ 0 → W.unflushed sink.new ≡ [] }
    ensures failed { (wanted : Wanted)
        → AreWanted wanted documents.names.items (map D.document documents.documents.items)
        → result ≡ 1 → ServesUntilFault wanted (R.has_failed source.new) (W.has_failed sink.new)
        (R.remaining source.old) (R.remaining source.new) (W.contents sink.old) (W.contents sink.new)
        ⊎ ((source.new ≡ source.old) × (sink.new ≡ sink.old)) }
{
    match run_alone(alloc, source, sink, documents) {
        Ok(ended) => finish(ended),
        Err(_) => 1,
    }
}

/// Runs a session over new documents of these names, for the first start of the server of this
/// name, and gives the program's status: 2 where a name is bad or there are too many documents,
/// with nothing read or written, and never where they are good; 1 where a device failed, or when
/// out of memory before anything was read or written.
pub fn run_over<M: Maker, R: Source, W: Sink>(
    alloc: Global,
    maker: &mut M,
    name: &str,
    documents: &[&str],
    source: &mut R,
    sink: &mut W,
) -> u8
    requires room { most_documents ≤ M.room maker.old }
    requires source_works { R.has_failed source.old ≡ false }
    requires sink_works { W.has_failed sink.old ≡ false }

    ensures bad_name { is_good name.now (map (λ s. s.now) documents.now) ≡ false → result ≡ 2 }
    ensures good_names { is_good name.now (map (λ s. s.now) documents.now) ≡ true → result ≤ 1 }
    ensures served { result ≡ 0
        → ServesAll (wanted_by name.now (map (λ s. s.now) documents.now))
        (R.remaining source.old) (R.remaining source.new) (W.contents sink.old) (W.contents sink.new) }
    ensures no_fault { result ≡ 0 → (R.has_failed source.new ≡ false)
        × (W.has_failed sink.new ≡ false) }
    ensures flushed { W.unflushed sink.old ≡ [] → result ≡ 0 → W.unflushed sink.new ≡ [] }
    ensures failed { result ≡ 1
        → ServesUntilFault (wanted_by name.now (map (λ s. s.now) documents.now))
        (R.has_failed source.new) (W.has_failed sink.new)
        (R.remaining source.old) (R.remaining source.new) (W.contents sink.old) (W.contents sink.new)
        ⊎ ((source.new ≡ source.old) × (sink.new ≡ sink.old)) }
    ensures untouched { result ≡ 2 → (source.new ≡ source.old) × (sink.new ≡ sink.old) }
{
    if !is_good(name, documents) {
        return 2;
    }
    let Ok(made) = first_documents(alloc, maker, name, documents) else {
        return 1;
    };
    serve(alloc, made, source, sink)
}
