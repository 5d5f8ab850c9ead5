//! Values that have a form as JSON.
ghost use Rattle.std.specs.Prelude.{map};
ghost use Rattle.std.specs.Fmt.{signed_decimal};
ghost use Rattle.serde_json.specs.Data.{Data, string};
ghost use Rattle.json_scalar.specs.Scalar.{scalar_data, val_data};
ghost use Rattle.op_core.specs.Wire.{id_data, list_data};
ghost use Rattle.json_text.specs.Tokens.{data_tokens, Puts};

use crate::text::JsonText;
use doc_api::Listed;
use itoa::Buffer;
use json_scalar::{Refusal, Scalar, Val};
use lamport_id::Id;
use op_core::KeyText;

/// A value that is written as one JSON value.
pub trait AsJson {
    /// Its form.
    ghost json: { Self → Data };

    /// Appends the value to a text. `NoMemory` if there is no memory for it, and no other refusal.
    fn put_in(&self, text: &mut JsonText) -> Result<(), Refusal>
        ensures { Puts (data_tokens (json self.now)) text.old text.new result };
}

impl AsJson for KeyText {
    ghost json = { string };

    fn put_in(&self, text: &mut JsonText) -> Result<(), Refusal> {
        text.text(self.as_str())
    }
}

/// A total, in quotes, since JSON readers don't read integers of that many digits.
impl AsJson for i128 {
    ghost json = { λ total. string (signed_decimal total) };

    fn put_in(&self, text: &mut JsonText) -> Result<(), Refusal> {
        let mut digits = Buffer::new();
        text.text(digits.format(*self))
    }
}

impl AsJson for Id {
    ghost json = { id_data };

    fn put_in(&self, text: &mut JsonText) -> Result<(), Refusal> {
        text.begin_list()?;
        text.count(self.counter)?;
        text.text(self.replica.as_str())?;
        text.end_list()
    }
}

impl AsJson for Scalar {
    ghost json = { scalar_data };

    fn put_in(&self, text: &mut JsonText) -> Result<(), Refusal> {
        match self {
            Scalar::Int(n) => text.integer(*n),
            Scalar::Text(chars) => text.text(chars.as_str()),
            Scalar::Bool(truth) => text.truth(*truth),
            Scalar::Null => text.null(),
        }
    }
}

impl AsJson for Val {
    ghost json = { val_data };

    fn put_in(&self, text: &mut JsonText) -> Result<(), Refusal> {
        match self {
            Val::Scalar(scalar) => scalar.put_in(text),
            Val::EmptyMap => text.empty_map(),
            Val::EmptyList => text.empty_list(),
        }
    }
}

impl<X: AsJson> AsJson for Listed<X> {
    ghost json = { λ all. list_data (map X.json all) };

    fn put_in(&self, text: &mut JsonText) -> Result<(), Refusal> {
        text.list(self.as_slice())
    }
}
