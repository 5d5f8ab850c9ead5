//! What a session owes: of each document, how many operations must be stored before its next reply
//! goes out.
ghost use Rattle.std.specs.Prelude.{◌≡◌, ◌⊎◌, ◌<◌, ◌≤◌, ℕ, length, get_or};

use line_feed::Sink;
use std::alloc::{AllocError, Global};

/// Counts of operations that must be stored. They only grow.
#[derive(Drop)]
pub(crate) struct Owing {
    // One for each document.
    counts: Vec<u64>,
    // What the sink was not told yet is of the documents from the first of these numbers on, and
    // before the second.
    from: usize,
    to: usize,
    ghost within: { to ≤ length counts.items },
}

// Tells the sink the counts from the first of these numbers on, and before the second.
fn tell<W: Sink>(counts: &[u64], from: usize, to: usize, sink: &mut W)
    requires within { to ≤ length counts.now }
    requires noted { (number : ℕ) → (number < from) ⊎ (to ≤ number)
        → W.covers sink.old number (get_or counts.now number 0) }
    ensures covers { (number : ℕ) → W.covers sink.new number (get_or counts.now number 0) }
    ensures bytes { W.contents sink.new ≡ W.contents sink.old }
    ensures unflushed { W.unflushed sink.new ≡ W.unflushed sink.old }
    ensures failed { W.has_failed sink.new ≡ W.has_failed sink.old }
{
    for number in from..to {
        sink.owe(number, counts[number]);
    }
}

impl Owing {
    ghost use Rattle.std.specs.Prelude.{◌≢◌, max, IfOk};
    ghost use Rattle.session_core.specs.Owed.{AreCovered, StaysNoted};
    ghost use Rattle.server_core.specs.Owed.{IsNoted, owes};

    /// Of so many documents, of which nothing is owed. `AllocError` if there is no memory for them.
    pub(crate) fn nothing(alloc: Global, documents: usize) -> Result<Owing, AllocError>
        ensures each { IfOk result (λ owing. length owing.counts.items ≡ documents) }
        ensures nothing { IfOk result (λ owing. (number : ℕ) → owes owing number ≡ 0) }
    {
        Ok(Owing {
            counts: vec![in alloc; 0; documents]?,
            from: 0,
            to: 0,
        })
    }

    /// At least so many operations of the document are owed.
    pub(crate) fn raise(&mut self, document: usize, count: u64)
        requires { document < length self.old.counts.items }
        ensures each { length self.new.counts.items ≡ length self.old.counts.items }
        ensures count { owes self.new document ≡ max count (owes self.old document) }
        ensures others { (number : ℕ) → number ≢ document → owes self.new number ≡ owes self.old number }
        ensures noted { StaysNoted owes IsNoted self.old self.new }
    {
        if count <= self.counts[document] {
            return;
        }
        if self.from < self.to {
            self.from = self.from.min(document);
            self.to = self.to.max(document + 1);
        } else {
            self.from = document;
            self.to = document + 1;
        }
        self.counts[document] = count;
    }

    /// Tells the sink what it was not told yet.
    pub(crate) fn note<W: Sink>(&mut self, sink: &mut W)
        requires noted { (number : ℕ) → IsNoted self.old number
            → W.covers sink.old number (owes self.old number) }
        ensures covers { AreCovered (W.covers sink.new) (owes self.new) }
        ensures noted { (number : ℕ) → IsNoted self.new number }
        ensures counts { self.new.counts ≡ self.old.counts }
        ensures bytes { W.contents sink.new ≡ W.contents sink.old }
        ensures unflushed { W.unflushed sink.new ≡ W.unflushed sink.old }
        ensures failed { W.has_failed sink.new ≡ W.has_failed sink.old }
    {
        tell(self.counts.as_slice(), self.from, self.to, sink);
        self.from = 0;
        self.to = 0;
    }
}
