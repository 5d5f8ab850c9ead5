//! Text of others in a message.
use std::fmt;
use std::fmt::Display;

/// Shows a text with its control characters escaped, so that none of them reaches a terminal and
/// the text stays on its line.
#[derive(Clone, Copy)]
pub struct Plain<'a>(pub &'a str);

/// Shows a text of several lines with its other control characters escaped.
#[derive(Clone, Copy)]
pub struct PlainLines<'a>(pub &'a str);

// Writes a character, or its escape.
fn write_plain<W: fmt::Write>(f: &mut fmt::Formatter<W>, c: char) -> fmt::Result {
    if c.is_control() {
        write!(f, "{}", c.escape_default())
    } else {
        f.write_char(c)
    }
}

impl Display for Plain<'_> {
    fn fmt<W: fmt::Write>(&self, f: &mut fmt::Formatter<W>) -> fmt::Result {
        for c in self.0.chars() {
            write_plain(f, c)?;
        }
        Ok(())
    }
}

impl Display for PlainLines<'_> {
    fn fmt<W: fmt::Write>(&self, f: &mut fmt::Formatter<W>) -> fmt::Result {
        for c in self.0.chars() {
            if c == '\n' {
                f.write_char(c)?;
            } else {
                write_plain(f, c)?;
            }
        }
        Ok(())
    }
}
