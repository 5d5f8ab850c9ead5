//! Digests of chains, computed while the log is read.
ghost use Rattle.std.specs.Prelude.{◌≡◌, ℕ, List, [], ◌∷◌, ◌++◌, Ok, map, true, OnOk, IfOk, IfErr};
ghost use Rattle.std.specs.Prelude.{string_bytes, unwrap_or, MatchResult};
ghost use Rattle.serde_json.specs.Data.{number, string, unsigned};
ghost use Rattle.json_scalar.specs.Refusal.{UnlessMemory};
ghost use Rattle.json_scalar.specs.declared.refusal.Refusal.TheVariants.{NoMemory};
ghost use Rattle.json_text.specs.Tokens.{all_tokens, data_tokens, Puts};
ghost use Rattle.op_core.specs.Wire.{list_data};
ghost use Rattle.crdt_rules.specs.Dependencies.{entry_of};
ghost use Rattle.doc_rules.specs.Chains.{chain_between, chain_data, chain_digest, chains_text};
ghost use Rattle.doc_rules.specs.Chains.{counter_or_zero, chain_line, chain_lines};
ghost use Rattle.sha2.specs.Hashers.{Holds256};
ghost use Rattle.sha2.specs.Sha256.{sha256};

use doc_api::CompactText;
use json_scalar::Refusal;
use json_text::{AsJson, JsonText};
use lamport_id::ReplicaName;
use op_core::{Front, Operation};
use op_log::{OpLog, counter_of};
use sha2::{Digest, Sha256};
use std::alloc::Global;

/// For each pair of the second front a digest of its replica's operations up to its counter, behind
/// the counter that the first front has of the replica, or 0: as the compact JSON text of an array.
/// The only error is out of memory.
pub fn chains_text(
    alloc: Global,
    log: &OpLog,
    after: &Front,
    front: &Front,
) -> Result<CompactText, Refusal>
    ensures { UnlessMemory result (Ok (chains_text after.now front.now log.now.operations)) }
{
    let mut text = JsonText::new(alloc);
    put_list(alloc, &mut text, log, after, front)?;
    Ok(CompactText::from(text.into_string()))
}

#[tactic(auto, using(json_text::proofs::Texts::lists))]
fn put_list(
    alloc: Global,
    text: &mut JsonText,
    log: &OpLog,
    after: &Front,
    front: &Front,
) -> Result<(), Refusal>
    ensures { Puts (data_tokens (list_data (map (chain_data after.now log.now.operations) front.now)))
        text.old text.new result }
{
    text.begin_list()?;
    put_chains(alloc, text, log, after, front)?;
    text.end_list()
}

fn put_chains(
    alloc: Global,
    text: &mut JsonText,
    log: &OpLog,
    after: &Front,
    front: &Front,
) -> Result<(), Refusal>
    ensures { Puts (all_tokens (map (chain_data after.now log.now.operations) front.now))
        text.old text.new result }
{
    for at in 0..front.len() {
        put_chain(alloc, text, log, after, &front.pair_at(at))?;
    }
    Ok(())
}

fn put_chain(
    alloc: Global,
    text: &mut JsonText,
    log: &OpLog,
    after: &Front,
    pair: &(ReplicaName, u64),
) -> Result<(), Refusal>
    ensures { Puts (data_tokens (chain_data after.now log.now.operations pair.now))
        text.old text.new result }
{
    let above = counter_of(after, &pair.0).unwrap_or(0);
    let digest = chain_digest(alloc, log, &pair.0, above, pair.1)?;
    put_digest(text, pair, digest.as_str())
}

#[tactic(auto, using(json_text::proofs::Texts::threes))]
fn put_digest(text: &mut JsonText, pair: &(ReplicaName, u64), digest: &str) -> Result<(), Refusal>
    ensures { Puts (data_tokens (list_data (string pair.now.0 ∷ number (unsigned pair.now.1)
        ∷ string digest.now ∷ []))) text.old text.new result }
{
    text.begin_list()?;
    text.text(pair.0.as_str())?;
    text.count(pair.1)?;
    text.text(digest)?;
    text.end_list()
}

// The digest of the replica's operations with counters above one and at most another.
fn chain_digest(
    alloc: Global,
    log: &OpLog,
    name: &ReplicaName,
    above: u64,
    last: u64,
) -> Result<String, Refusal>
    ensures { MatchResult result
        (λ text. string_bytes text
        ≡ chain_digest (chain_between name.now above last log.now.operations))
        (λ e. e ≡ NoMemory) }
{
    let mut hasher = Sha256::new();
    hash_chain(alloc, &mut hasher, log, name, above, last)?;
    Ok(hex::encode(alloc, hasher.finalize())?)
}

// Each of them is found by a search among those of its replica.
fn hash_chain(
    alloc: Global,
    hasher: &mut Sha256,
    log: &OpLog,
    name: &ReplicaName,
    above: u64,
    last: u64,
) -> Result<(), Refusal>
    ensures ok { (m : List ℕ) → Holds256 hasher.old m → OnOk result (Holds256 hasher.new
        (m ++ chain_lines (chain_between name.now above last log.now.operations))) }
    ensures err { IfErr result (λ e. e ≡ NoMemory) }
{
    let mut line = Vec::new(alloc);
    let mut reached = above;
    while reached < last {
        let at = log.next_of(name, reached, last);
        if at == log.len() {
            return Ok(());
        }
        let op = &log.as_slice()[at];
        line = hash_line(hasher, line, op)?;
        reached = op.id().counter;
    }
    Ok(())
}

// Hashes the operation's line, and returns it: the next one is written in its room.
fn hash_line(hasher: &mut Sha256, room: Vec<u8>, op: &Operation) -> Result<Vec<u8>, Refusal>
    ensures ok { (m : List ℕ) → Holds256 hasher.old m
        → OnOk result (Holds256 hasher.new (m ++ chain_line op.now)) }
    ensures err { IfErr result (λ e. e ≡ NoMemory) }
{
    let line = line_of(room, op)?;
    hasher.update(line.as_slice());
    Ok(line)
}

fn line_of(room: Vec<u8>, op: &Operation) -> Result<Vec<u8>, Refusal>
    ensures { MatchResult result (λ line. line.items ≡ chain_line op.now) (λ e. e ≡ NoMemory) }
{
    let mut text = JsonText::in_room_of(room);
    op.put_in(&mut text)?;
    let mut line = text.into_bytes();
    line.push(b'\n')?;
    Ok(line)
}
