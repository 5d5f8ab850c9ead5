//! A writer of JSON text.
ghost use Rattle.std.specs.Prelude.{◌≡◌, [], ◌∷◌, map, string_bytes, MatchResult};
ghost use Rattle.json_scalar.specs.declared.refusal.Refusal.TheVariants.{NoMemory};
ghost use Rattle.json.specs.Token.{begin_array, end_array, string};
ghost use Rattle.op_core.specs.Wire.{list_data};
ghost use Rattle.serde_json.specs.Data.{Data, array, boolean, no_items, no_members, null, number};
ghost use Rattle.serde_json.specs.Data.{object};
ghost use Rattle.serde_json.specs.Data.{string as text_data, unsigned};
ghost use Rattle.serde_json.specs.Find.{of_integer};
ghost use Rattle.serde_json.specs.Written.{compact_text};
ghost use Rattle.json_text.specs.Tokens.{all_tokens, data_tokens, Puts};

use crate::as_json::AsJson;
use json::Writer;
use json_scalar::Refusal;
use std::alloc::Global;
use std::marker::Model;

/// JSON text that is written part by part. Commas are put in by themselves. A contract sees its
/// tokens. Each call that adds a part can fail with `NoMemory`, and with no other refusal.
#[derive(Drop)]
pub struct JsonText {
    writer: Writer,
}

impl Model for JsonText {
    ghost use Rattle.std.specs.Prelude.{◌≡◌, List, []};
    ghost use Rattle.json.specs.Token.{Token, tokens_code};

    ghost Value = { List Token };

    ghost coded = { tokens_code };

    ghost view = { λ t. t.writer.tokens };

    ghost invariant = { λ t. t.writer.before ≡ [] };
}

impl JsonText {
    /// Empty text. Allocates nothing.
    pub fn new(alloc: Global) -> JsonText
        ensures { result ≡ [] }
    {
        JsonText {
            writer: Writer::new(Vec::new(alloc)),
        }
    }

    /// Empty text, with room for so many bytes. `NoMemory` if there is no
    /// memory for it, and no other refusal.
    pub fn with_room(alloc: Global, bytes: usize) -> Result<JsonText, Refusal>
        ensures { MatchResult result (λ text. text ≡ []) (λ e. e ≡ NoMemory) }
    {
        Ok(JsonText {
            writer: Writer::new(Vec::with_capacity(alloc, bytes)?),
        })
    }

    /// Empty text in the room of bytes that are dropped. Allocates nothing.
    pub fn in_room_of(mut bytes: Vec<u8>) -> JsonText
        ensures { result ≡ [] }
    {
        bytes.clear();
        JsonText {
            writer: Writer::new(bytes),
        }
    }

    /// Begins an array.
    pub fn begin_list(&mut self) -> Result<(), Refusal>
        ensures { Puts (begin_array ∷ []) self.old self.new result }
    {
        self.writer.begin_array().or(Err(Refusal::NoMemory))
    }

    /// Ends the array that was begun last.
    pub fn end_list(&mut self) -> Result<(), Refusal>
        ensures { Puts (end_array ∷ []) self.old self.new result }
    {
        self.writer.end_array().or(Err(Refusal::NoMemory))
    }

    /// A text, in quotes.
    pub fn text(&mut self, text: &str) -> Result<(), Refusal>
        ensures { Puts (string text.now ∷ []) self.old self.new result }
    {
        self.writer.string(text).or(Err(Refusal::NoMemory))
    }

    /// A count.
    pub fn count(&mut self, n: u64) -> Result<(), Refusal>
        ensures { Puts (data_tokens (number (unsigned n))) self.old self.new result }
    {
        self.writer.u64(n).or(Err(Refusal::NoMemory))
    }

    /// An integer.
    pub fn integer(&mut self, n: i64) -> Result<(), Refusal>
        ensures { Puts (data_tokens (number (of_integer n))) self.old self.new result }
    {
        self.writer.i64(n).or(Err(Refusal::NoMemory))
    }

    /// `true` or `false`.
    pub fn truth(&mut self, truth: bool) -> Result<(), Refusal>
        ensures { Puts (data_tokens (boolean truth)) self.old self.new result }
    {
        self.writer.boolean(truth).or(Err(Refusal::NoMemory))
    }

    /// `null`.
    pub fn null(&mut self) -> Result<(), Refusal>
        ensures { Puts (data_tokens null) self.old self.new result }
    {
        self.writer.null().or(Err(Refusal::NoMemory))
    }

    /// An object with no members.
    pub fn empty_map(&mut self) -> Result<(), Refusal>
        ensures { Puts (data_tokens (object no_members)) self.old self.new result }
    {
        self.writer.begin_object()?;
        Ok(self.writer.end_object()?)
    }

    /// An array with no items.
    pub fn empty_list(&mut self) -> Result<(), Refusal>
        ensures { Puts (data_tokens (array no_items)) self.old self.new result }
    {
        self.begin_list()?;
        self.end_list()
    }

    /// An array of a tag and a part.
    #[tactic(auto, using(crate::proofs::Texts::pairs))]
    pub fn tagged<X: AsJson>(&mut self, tag: &str, part: &X) -> Result<(), Refusal>
        ensures { Puts (data_tokens (list_data (text_data tag.now ∷ X.json part.now ∷ []))) self.old self.new result }
    {
        self.begin_list()?;
        self.text(tag)?;
        part.put_in(self)?;
        self.end_list()
    }

    /// An array of the parts, in their order.
    #[tactic(auto, using(crate::proofs::Texts::lists))]
    pub fn list<X: AsJson>(&mut self, parts: &[X]) -> Result<(), Refusal>
        ensures { Puts (data_tokens (list_data (map X.json parts.now))) self.old self.new result }
    {
        self.begin_list()?;
        self.parts(parts)?;
        self.end_list()
    }

    /// The parts, one after another.
    pub fn parts<X: AsJson>(&mut self, parts: &[X]) -> Result<(), Refusal>
        ensures { Puts (all_tokens (map X.json parts.now)) self.old self.new result }
    {
        for part in parts {
            part.put_in(self)?;
        }
        Ok(())
    }

    /// The text. If its tokens are those of one value, it is the value's compact text.
    pub fn into_bytes(self) -> Vec<u8>
        ensures { (d : Data) → self ≡ data_tokens d → result.items ≡ compact_text d }
    {
        self.writer.into_inner()
    }

    /// The text, as `into_bytes`.
    pub fn into_string(self) -> String
        ensures { (d : Data) → self ≡ data_tokens d → string_bytes result ≡ compact_text d }
    {
        String::from_utf8(self.writer.into_inner()).unwrap()
    }
}
