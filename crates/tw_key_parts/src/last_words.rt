//! The last words of the lines of a history.

ghost use Rattle.std.specs.Prelude.{◌≡◌, None};
ghost use Rattle.tw_input.specs.EventView.{event_view};
ghost use Rattle.tw_key_parts.specs.Keys.{is_key, last_word_key};

use crate::edit::{Edit, EditResult};
use crate::keys::{is_key, key_of};
use crate::part::{Asked, KeyPart, Step};
use crate::recalled::{Recalled, line_before_recall, older_index};
use std::alloc::{AllocError, Global};
use tw_host::Action;
use tw_hosts::{end_row, last_word};
use tw_input::{InputEvent, Modifiers};
use tw_line::{History, LineEditBuffer};

/// Alt-. inserts the last word of the last line of the history. Another Alt-. right after it replaces it by the last
/// word of the line before, and so on up to the first line. It has no action during a search.
#[derive(Debug, Drop)]
pub struct LastWords {
    word: Option<Recalled>,
}

impl LastWords {
    /// Creates the part with no insertion.
    pub fn new() -> Self
        ensures { result.word ≡ None }
    {
        LastWords { word: None }
    }
}

/// Returns true for Alt-., the key of the part.
fn is_last_word_key(event: &InputEvent) -> bool
    ensures { result ≡ is_key last_word_key (event_view event.now) }
{
    is_key(key_of(Modifiers::ALT, '.'), event)
}

impl KeyPart for LastWords {
    ghost use Rattle.std.specs.Prelude.{Option};
    ghost use Rattle.tw_key_parts.specs.LastWords.{last_word_rules};
    ghost use Rattle.tw_key_parts.specs.declared.recalled.Recalled.{Recalled};

    type Note = Recalled;

    ghost State = { Option Recalled };

    ghost Kept = { Recalled };

    ghost state = { λ it. it.word };

    ghost kept = { λ note. note };

    ghost keys = { last_word_rules };

    ghost is_ready = { λ it cut. Unit {0} };

    fn edit<L: History>(&self, alloc: Global, asked: &Asked<'_, L>) -> EditResult<Recalled> {
        if asked.searching || !is_last_word_key(asked.event) {
            return Ok(None);
        }
        let Some(index) = older_index(self.word.as_ref(), asked.history) else {
            return Ok(None);
        };
        let Some(recalled) = asked.history.get(alloc, index)? else {
            return Ok(None);
        };
        let word = last_word(end_row(recalled.as_str().trim_end()));
        let line = line_before_recall(alloc, self.word.as_ref(), asked.line)?;
        let before = line.try_clone(alloc)?;
        Ok(Some(Edit {
            line: Some(line),
            action: Action::InsertText(1, String::from_str(alloc, word)?),
            note: Recalled { before, index },
        }))
    }

    fn prepare(&mut self, _alloc: Global, _line: &LineEditBuffer) -> Result<(), AllocError> {
        Ok(())
    }

    fn follow(&mut self, _alloc: Global, step: &Step<'_>) {
        if step.action.is_some() || !is_last_word_key(step.event) {
            self.word = None;
        }
    }

    fn follow_own(&mut self, _alloc: Global, note: Recalled, _step: &Step<'_>) {
        self.word = Some(note);
    }

    fn leave_line(&mut self) {
        self.word = None;
    }
}
