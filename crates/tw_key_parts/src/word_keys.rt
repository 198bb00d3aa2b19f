//! Keys that edit words and characters.

ghost use Rattle.std.specs.Prelude.{◌≡◌, IfOk};
ghost use Rattle.tw_input.specs.EventView.{event_view};
ghost use Rattle.tw_key_parts.specs.WordEdits.{edited_cut, word_edit};

use crate::edit::{EditResult, shown};
use crate::part::Asked;
use crate::plain_keys::PlainKeys;
use crate::word_edits::{WordCase, with_swapped_clusters, with_swapped_words, with_word_in};
use std::alloc::{AllocError, Global};
use tw_input::{InputEvent, KeyCode, Modifiers};
use tw_line::{History, LineEditBuffer};

/// An edit of the words or characters around the cursor.
#[derive(Clone, Copy, Debug, PartialEq, Eq)]
pub enum WordEdit {
    /// Swaps the grapheme clusters around the cursor.
    SwapClusters,
    /// Swaps the word at the cursor, or the next one, with the previous word.
    SwapWords,
    /// Changes the case of what Alt-f of the key table passes: the rest of a word, or the whitespace before one.
    Write(WordCase),
}

/// Returns the edit of Ctrl-T, Alt-t, Alt-u, Alt-l or Alt-c, whose letters may be of either case.
pub fn word_edit(event: &InputEvent) -> Option<WordEdit>
    ensures { result ≡ word_edit (event_view event.now) }
{
    let InputEvent::Key(press) = event else {
        return None;
    };
    match (press.modifiers, press.key) {
        (Modifiers::CTRL, KeyCode::Char('T')) => Some(WordEdit::SwapClusters),
        (Modifiers::ALT, KeyCode::Char('t' | 'T')) => Some(WordEdit::SwapWords),
        (Modifiers::ALT, KeyCode::Char('u' | 'U')) => Some(WordEdit::Write(WordCase::Upper)),
        (Modifiers::ALT, KeyCode::Char('l' | 'L')) => Some(WordEdit::Write(WordCase::Lower)),
        (Modifiers::ALT, KeyCode::Char('c' | 'C')) => Some(WordEdit::Write(WordCase::Capitalized)),
        _ => None,
    }
}

/// Returns the line after an edit.
pub fn edited_line(
    alloc: Global,
    edit: WordEdit,
    editor: &LineEditBuffer,
) -> Result<LineEditBuffer, AllocError>
    ensures { IfOk result (λ edited. edited ≡ edited_cut edit editor.now) }
{
    match edit {
        WordEdit::SwapClusters => with_swapped_clusters(alloc, editor),
        WordEdit::SwapWords => with_swapped_words(alloc, editor),
        WordEdit::Write(case) => with_word_in(alloc, case, editor),
    }
}

/// Ctrl-T swaps the grapheme clusters around the cursor, and Alt-t the words. Alt-u, Alt-l and Alt-c change what Alt-f of
/// the key table passes to upper case, to lower case, and to a capital. The letters of keys with Alt may be of either
/// case. They have no action during a search.
#[derive(Debug, Drop)]
pub struct WordKeys;

impl PlainKeys for WordKeys {
    ghost use Rattle.tw_key_parts.specs.WordEdits.{word_key_edit};

    ghost edits = { word_key_edit };

    fn edit<L: History>(&self, alloc: Global, asked: &Asked<'_, L>) -> EditResult<()> {
        if asked.searching {
            return Ok(None);
        }
        match word_edit(asked.event) {
            Some(edit) => Ok(Some(shown(edited_line(alloc, edit, asked.line)?, ()))),
            None => Ok(None),
        }
    }
}
