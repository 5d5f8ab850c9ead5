//! Texts that are written out from parts.
use json_scalar::Refusal;
use std::alloc::Global;
use std::fmt::Write;

/// A text that is there once for each number from the first to the last. In it `#` is that number,
/// and `^` the one before it.
pub struct Part(pub u32, pub u32, pub &'static str);

/// Pushes this pattern, in which `#` is the number, and `^` the one before it.
pub fn push_numbered(text: &mut String, pattern: &str, number: u32) -> Result<(), Refusal> {
    for piece in pattern.chars() {
        let pushed = match piece {
            '#' => write!(text, "{number}").is_ok(),
            '^' => write!(text, "{}", number.saturating_sub(1)).is_ok(),
            other => text.push(other).is_ok(),
        };
        if !pushed {
            return Err(Refusal::NoMemory);
        }
    }
    Ok(())
}

/// Pushes this pattern once for each number from the first to the last.
pub fn push_each(text: &mut String, pattern: &str, first: u32, last: u32) -> Result<(), Refusal> {
    for number in first..=last {
        push_numbered(text, pattern, number)?;
    }
    Ok(())
}

/// What these parts are, one behind the other.
pub fn text_of(alloc: Global, parts: &[Part]) -> Result<String, Refusal> {
    let mut text = String::new(alloc);
    for Part(first, last, pattern) in parts {
        push_each(&mut text, pattern, *first, *last)?;
    }
    Ok(text)
}
