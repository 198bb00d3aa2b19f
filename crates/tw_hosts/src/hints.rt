//! Hints under the line.

ghost use Rattle.std.specs.Prelude.{◌≡◌, IfOk, map, option_map};
ghost use Rattle.tw_host.specs.ElementView.{element_view};
ghost use Rattle.tw_hosts.specs.Hints.{hint_elements, hint_for};

use crate::words::first_word;
use std::alloc::{AllocError, Global};
use tw_host::{OutputElement, plain_element};

/// A text to show under a line with this first word.
#[derive(Debug, Drop)]
pub struct Hint {
    /// The first word. That of an empty line is empty.
    pub word: String,
    /// The text. Its rows are parted by CR and LF.
    pub text: String,
}

/// Returns the text of the first hint for a word.
fn hint_for<'hints>(hints: &'hints [Hint], word: &str) -> Option<&'hints str>
    ensures { option_map (λ text. text.now) result ≡ hint_for hints.now word.now }
{
    let hint = hints.iter().find(|hint| hint.word.as_str() == word)?;
    Some(hint.text.as_str())
}

/// Returns what is shown under a line: the text of the first hint for its first word, or nothing.
pub fn show_hint(
    alloc: Global,
    hints: &[Hint],
    line: &str,
) -> Result<Vec<OutputElement>, AllocError>
    ensures { IfOk result (λ elements. map element_view elements.items
        ≡ hint_elements hints.now line.now) }
{
    match hint_for(hints, first_word(line)) {
        Some(text) => plain_element(alloc, text),
        None => Ok(Vec::new(alloc)),
    }
}
