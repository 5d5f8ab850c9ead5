//! Places, fronts and operations as JSON.
ghost use Rattle.op_core.specs.Wire.{cursor_data, entry_data, front_data, id_data, key_data};
ghost use Rattle.op_core.specs.Wire.{mutation_data};
ghost use Rattle.op_core.specs.Wire.{tagged_data, wire};
ghost use Rattle.op_core.specs.declared.mutation.Mutation.TheVariants.{Delete};
ghost use Rattle.serde_json.specs.Data.{string};
ghost use Rattle.std.specs.Prelude.{◌++◌, codes, map};
ghost use Rattle.json_text.specs.Tokens.{all_tokens, data_tokens, Puts};

use crate::as_json::AsJson;
use crate::text::JsonText;
use json_scalar::{Refusal, Scalar};
use lamport_id::ReplicaName;
use op_core::{Cursor, Front, Key, Mutation, Operation, Tagged};

impl AsJson for Key {
    ghost json = { key_data };

    fn put_in(&self, text: &mut JsonText) -> Result<(), Refusal> {
        match self {
            Key::Doc => text.count(0),
            Key::Text(name) => name.put_in(text),
            Key::Element(id) => id.put_in(text),
            Key::Head => text.count(1),
        }
    }
}

impl AsJson for Tagged {
    ghost json = { tagged_data };

    fn put_in(&self, text: &mut JsonText) -> Result<(), Refusal> {
        match self {
            Tagged::Map(key) => text.tagged("m", key),
            Tagged::List(key) => text.tagged("l", key),
        }
    }
}

impl AsJson for Cursor {
    ghost json = { cursor_data };

    #[tactic(auto, using(crate::proofs::Texts::pairs))]
    fn put_in(&self, text: &mut JsonText) -> Result<(), Refusal> {
        text.begin_list()?;
        text.list(self.path.as_slice())?;
        self.key.put_in(text)?;
        text.end_list()
    }
}

impl AsJson for (ReplicaName, u64) {
    ghost json = { entry_data };

    fn put_in(&self, text: &mut JsonText) -> Result<(), Refusal> {
        text.begin_list()?;
        text.text(self.0.as_str())?;
        text.count(self.1)?;
        text.end_list()
    }
}

impl AsJson for Front {
    ghost json = { front_data };

    #[tactic(auto, using(crate::proofs::Texts::lists))]
    fn put_in(&self, text: &mut JsonText) -> Result<(), Refusal> {
        text.begin_list()?;
        put_pairs(text, self)?;
        text.end_list()
    }
}

fn put_pairs(text: &mut JsonText, front: &Front) -> Result<(), Refusal>
    ensures { Puts (all_tokens (map entry_data front.now)) text.old text.new result }
{
    for at in 0..front.len() {
        front.pair_at(at).put_in(text)?;
    }
    Ok(())
}

impl AsJson for Mutation {
    ghost json = { mutation_data };

    fn put_in(&self, text: &mut JsonText) -> Result<(), Refusal> {
        match self {
            Mutation::Assign(val) => text.tagged("assign", val),
            Mutation::Insert(val) => text.tagged("insert", val),
            Mutation::Delete => put_delete(text),
            Mutation::Add(n) => text.tagged("add", &Scalar::Int(*n)),
        }
    }
}

fn put_delete(text: &mut JsonText) -> Result<(), Refusal>
    ensures { Puts (data_tokens (mutation_data Delete)) text.old text.new result }
{
    text.begin_list()?;
    text.text("delete")?;
    text.end_list()
}

impl AsJson for Operation {
    ghost json = { wire };

    #[tactic(auto, using(crate::proofs::Texts::fives))]
    fn put_in(&self, text: &mut JsonText) -> Result<(), Refusal> {
        text.begin_list()?;
        put_stamp(text, self)?;
        put_change(text, self)?;
        text.end_list()
    }
}

fn put_stamp(text: &mut JsonText, op: &Operation) -> Result<(), Refusal>
    ensures { Puts (data_tokens (string (codes "op")) ++ data_tokens (id_data op.now.id)
        ++ data_tokens (front_data op.now.front)) text.old text.new result }
{
    text.text("op")?;
    op.id().put_in(text)?;
    op.front().put_in(text)
}

fn put_change(text: &mut JsonText, op: &Operation) -> Result<(), Refusal>
    ensures { Puts (data_tokens (cursor_data op.now.cursor)
        ++ data_tokens (mutation_data op.now.mutation))
        text.old text.new result }
{
    op.cursor().put_in(text)?;
    op.mutation().put_in(text)
}
