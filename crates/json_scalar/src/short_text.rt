//! Texts that take no memory of their own while they are short.
ghost use Rattle.std.specs.Prelude.{◌≡◌, Ok};
ghost use Rattle.json_scalar.specs.Refusal.{UnlessMemory};

use crate::refusal::Refusal;
use arrayvec::ArrayString;
use std::alloc::Global;
use std::fmt;
use std::marker::Model;

// How a text is kept: most are short.
#[derive(Drop)]
enum Spelling<const N: usize> {
    /// In place.
    Short(ArrayString<N>),
    /// In memory of its own.
    Long(String),
}

/// A text of any length, which takes no memory of its own up to `N` bytes. A
/// contract sees it as its bytes.
pub struct ShortText<const N: usize> {
    spelling: Spelling<N>,
}

impl<const N: usize> Model for ShortText<N> {
    ghost use Rattle.std.specs.Prelude.{ℕ, List};
    ghost use Rattle.json_scalar.specs.Spelled.{spelled_bytes};

    ghost Value = { List ℕ };

    ghost view = { λ t. spelled_bytes t.spelling };
}

// One function for all the places where a text is dropped: a derived `drop` is written out at each.
impl<const N: usize> Drop for ShortText<N> {
    fn drop(self) {
        let ShortText { spelling: _ } = self;
    }
}

impl<const N: usize> ShortText<N> {
    /// A copy of the text. The only refusal is `NoMemory`.
    pub fn new(alloc: Global, text: &str) -> Result<ShortText<N>, Refusal>
        ensures { UnlessMemory result (Ok text.now) }
    {
        match ArrayString::from(text) {
            Ok(short) => Ok(ShortText {
                spelling: Spelling::Short(short),
            }),
            Err(_) => Ok(ShortText {
                spelling: Spelling::Long(String::from_str(alloc, text)?),
            }),
        }
    }

    /// The text.
    pub fn as_str(&self) -> &str
        ensures { result.now ≡ self.now }
    {
        match &self.spelling {
            Spelling::Short(text) => text.as_str(),
            Spelling::Long(text) => text.as_str(),
        }
    }

    /// A copy. The only refusal is `NoMemory`.
    pub fn try_clone(&self) -> Result<ShortText<N>, Refusal>
        ensures { UnlessMemory result (Ok self.now) }
    {
        match &self.spelling {
            Spelling::Short(text) => Ok(ShortText {
                spelling: Spelling::Short(*text),
            }),
            Spelling::Long(text) => Ok(ShortText {
                spelling: Spelling::Long(text.clone()?),
            }),
        }
    }
}

/// As the text itself.
impl<const N: usize> fmt::Debug for ShortText<N> {
    fn fmt<W: fmt::Write>(&self, f: &mut fmt::Formatter<W>) -> fmt::Result {
        fmt::Debug::fmt(self.as_str(), f)
    }
}
