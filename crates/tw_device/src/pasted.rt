//! What stands for the characters of a pasted text.

ghost use Rattle.std.specs.Prelude.{◌≡◌, [], ◌∷◌, IfOk, MatchOption, string_bytes};
ghost use Rattle.tw_device.specs.Told.{pasted_character, pasted_text};

use std::alloc::{AllocError, Global};

/// What stands for the rows of a pasted text.
#[derive(Debug, Clone, Copy, PartialEq, Eq)]
pub enum Pasted {
    /// In one row: each control character, a line end too, is a space.
    OneRow,
    /// As they are: CR LF, CR and LF are one line feed each, and every other control character is a space.
    Rows,
}

impl Pasted {
    /// Returns the replacement of a character after `before`, or `None` for the LF of CR LF.
    fn told(self, before: char, character: char) -> Option<char>
        ensures { MatchOption result (pasted_character self before character ≡ [])
            (λ c. pasted_character self before character ≡ c ∷ []) }
    {
        match (self, character) {
            (Pasted::Rows, '\n') if before == '\r' => None,
            (Pasted::Rows, '\n' | '\r') => Some('\n'),
            (_, c) if c.is_control() => Some(' '),
            (_, c) => Some(c),
        }
    }
}

/// Returns a pasted text: its rows as `rows` says, a space for each other control character, and U+FFFD for bytes that
/// are no text.
pub(crate) fn pasted_text(alloc: Global, bytes: &[u8], rows: Pasted) -> Result<String, AllocError>
    ensures { IfOk result (λ text. string_bytes text ≡ pasted_text rows bytes.now) }
{
    let text = String::from_utf8_lossy(alloc, bytes)?;
    let mut told = String::new(alloc);
    let mut before = '\0';
    for character in text.as_str().chars() {
        match rows.told(before, character) {
            Some(c) => told.push(c)?,
            None => {}
        }
        before = character;
    }
    Ok(told)
}
