//! Operations as JSON text, written while the log is read.
ghost use Rattle.std.specs.Prelude.{◌≡◌, Ok, map, take};
ghost use Rattle.json_scalar.specs.Refusal.{UnlessMemory};
ghost use Rattle.op_core.specs.Wire.{list_data, wire};
ghost use Rattle.doc_rules.specs.Answers.{since};
ghost use Rattle.doc_rules.specs.Encoded.{operations_text};
ghost use Rattle.json_text.specs.Tokens.{all_tokens, data_tokens, Puts};

use crate::index::Lacks;
use crate::log::OpLog;
use doc_api::CompactText;
use json_scalar::Refusal;
use json_text::{AsJson, JsonText};
use op_core::Front;
use std::alloc::Global;

/// The first operations of a log that the front does not cover, at most `limit` of them, in their
/// order, as the compact JSON text of an array. The only error is out of memory.
pub fn text_of_uncovered(
    alloc: Global,
    log: &OpLog,
    front: &Front,
    limit: usize,
) -> Result<CompactText, Refusal>
    ensures { UnlessMemory result (Ok (operations_text (take limit (since front.now log.now.operations)))) }
{
    let mut text = JsonText::new(alloc);
    put_list(alloc, &mut text, log, front, limit)?;
    Ok(CompactText::from(text.into_string()))
}

#[tactic(auto, using(json_text::proofs::Texts::lists))]
fn put_list(
    alloc: Global,
    text: &mut JsonText,
    log: &OpLog,
    front: &Front,
    limit: usize,
) -> Result<(), Refusal>
    ensures { Puts (data_tokens (list_data (map wire (take limit (since front.now log.now.operations)))))
        text.old text.new result }
{
    text.begin_list()?;
    put_uncovered(alloc, text, log, front, limit)?;
    text.end_list()
}

fn put_uncovered(
    alloc: Global,
    text: &mut JsonText,
    log: &OpLog,
    front: &Front,
    limit: usize,
) -> Result<(), Refusal>
    ensures { Puts (all_tokens (map wire (take limit (since front.now log.now.operations)))) text.old text.new result }
{
    let mut lacks = Lacks::new(alloc);
    let mut from = 0;
    for _ in 0..limit {
        let at = log.next_uncovered(front, from, &mut lacks)?;
        if at == log.len() {
            return Ok(());
        }
        log.as_slice()[at].put_in(text)?;
        from = at + 1;
    }
    Ok(())
}
