//! The parts of branches and items, as JSON text.
ghost use Rattle.std.specs.Prelude.{◌≡◌, ◌<◌, ◌++◌, ◌∷◌, [], length, map, not};
ghost use Rattle.json_scalar.specs.Scalar.{scalar_data};
ghost use Rattle.op_core.specs.Wire.{id_data, list_data};
ghost use Rattle.doc_rules.specs.Shown.{value_entry_data, count_branch, total_shown};
ghost use Rattle.doc_rules.specs.Encoded.{item_data};
ghost use Rattle.doc_view.specs.Writing.{beginning, ending};
ghost use Rattle.json_text.specs.Tokens.{all_tokens, data_tokens, Puts};

use crate::registers::total_of;
use doc_tree::Entries;
use json_scalar::{Refusal, Scalar};
use json_text::{AsJson, JsonText};
use lamport_id::Id;

/// The entries of a register, and the total of a counter, if it has an entry.
pub fn write_values(
    text: &mut JsonText,
    entries: &[(Id, Scalar)],
    terms: Entries<'_, i64>,
) -> Result<(), Refusal>
    requires { length terms < 18446744073709551616 }
    ensures { Puts (all_tokens (map value_entry_data entries.now)
        ++ all_tokens (count_branch (total_shown terms.entry)))
        text.old text.new result }
{
    write_entries(text, entries)?;
    write_total(text, terms)
}

fn write_entries(text: &mut JsonText, entries: &[(Id, Scalar)]) -> Result<(), Refusal>
    ensures { Puts (all_tokens (map value_entry_data entries.now)) text.old text.new result }
{
    for entry in entries {
        write_entry(text, entry)?;
    }
    Ok(())
}

#[tactic(auto, using(json_text::proofs::Texts::threes))]
fn write_entry(text: &mut JsonText, entry: &(Id, Scalar)) -> Result<(), Refusal>
    ensures { Puts (data_tokens (value_entry_data entry.now)) text.old text.new result }
{
    text.begin_list()?;
    text.text("val")?;
    entry.0.put_in(text)?;
    entry.1.put_in(text)?;
    text.end_list()
}

fn write_total(text: &mut JsonText, terms: Entries<'_, i64>) -> Result<(), Refusal>
    requires { length terms < 18446744073709551616 }
    ensures { Puts (all_tokens (count_branch (total_shown terms.entry))) text.old text.new result }
{
    if terms.is_empty() {
        return Ok(());
    }
    text.tagged("cnt", &total_of(terms))
}

/// The beginning of a branch, if asked for.
pub fn begin_branch(text: &mut JsonText, tag: &str, is_wanted: bool) -> Result<(), Refusal>
    ensures { Puts (beginning tag.now is_wanted) text.old text.new result }
{
    if !is_wanted {
        return Ok(());
    }
    text.begin_list()?;
    text.text(tag)?;
    text.begin_list()
}

/// The end of a branch, if it was begun.
pub fn end_branch(text: &mut JsonText, was_begun: bool) -> Result<(), Refusal>
    ensures { Puts (ending was_begun) text.old text.new result }
{
    if !was_begun {
        return Ok(());
    }
    text.end_list()?;
    text.end_list()
}

/// An element of a list, with the scalars of its register.
#[tactic(auto, using(json_text::proofs::Texts::pairs))]
pub fn write_item(text: &mut JsonText, id: &Id, entries: &[(Id, Scalar)]) -> Result<(), Refusal>
    ensures { Puts (data_tokens (item_data (id.now, map (λ e. e.1) entries.now))) text.old text.new result }
{
    text.begin_list()?;
    id.put_in(text)?;
    write_scalars(text, entries)?;
    text.end_list()
}

/// An id, and a value that belongs to it.
#[tactic(auto, using(json_text::proofs::Texts::pairs))]
pub fn write_with_id<X: AsJson>(text: &mut JsonText, id: &Id, value: &X) -> Result<(), Refusal>
    ensures { Puts (data_tokens (list_data (id_data id.now ∷ X.json value.now ∷ []))) text.old text.new result }
{
    text.begin_list()?;
    id.put_in(text)?;
    value.put_in(text)?;
    text.end_list()
}

#[tactic(auto, using(json_text::proofs::Texts::lists))]
fn write_scalars(text: &mut JsonText, entries: &[(Id, Scalar)]) -> Result<(), Refusal>
    ensures { Puts (data_tokens (list_data (map scalar_data (map (λ e. e.1) entries.now)))) text.old text.new result }
{
    text.begin_list()?;
    write_each_scalar(text, entries)?;
    text.end_list()
}

fn write_each_scalar(text: &mut JsonText, entries: &[(Id, Scalar)]) -> Result<(), Refusal>
    ensures { Puts (all_tokens (map scalar_data (map (λ e. e.1) entries.now))) text.old text.new result }
{
    for entry in entries {
        entry.1.put_in(text)?;
    }
    Ok(())
}
