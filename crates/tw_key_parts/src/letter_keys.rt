//! Keys for words of letters and digits.

ghost use Rattle.std.specs.Prelude.{◌≡◌, IfOk, option_map};
ghost use Rattle.tw_host.specs.ActionView.{action_view};
ghost use Rattle.tw_input.specs.EventView.{event_view};
ghost use Rattle.tw_key_parts.specs.Keys.{row_with_key};
ghost use Rattle.tw_key_parts.specs.ClusterSteps.{letter_table};

use crate::edit::{EditResult, in_place};
use crate::part::Asked;
use crate::plain_keys::PlainKeys;
use crate::steps::{steps_to_word_end, steps_to_word_start};
use std::alloc::{AllocError, Global};
use tw_host::Action;
use tw_input::{InputEvent, KeyCode, Modifiers};
use tw_line::{History, LineEditBuffer, Movement};

/// Returns the action of an event.
fn key_action(
    alloc: Global,
    event: &InputEvent,
    editor: &LineEditBuffer,
) -> Result<Option<Action>, AllocError>
    ensures { IfOk result (λ action. option_map action_view action
        ≡ row_with_key (letter_table editor.now) (event_view event.now)) }
{
    let InputEvent::Key(press) = event else {
        return Ok(None);
    };
    match (press.modifiers, press.key) {
        (Modifiers::CTRL, KeyCode::RightArrow) | (Modifiers::ALT, KeyCode::Char('f')) => {
            let count = steps_to_word_end(alloc, editor)?;
            Ok(Some(Action::Move(Movement::ForwardChar(count))))
        }
        (Modifiers::CTRL, KeyCode::LeftArrow) | (Modifiers::ALT, KeyCode::Char('b')) => {
            let count = steps_to_word_start(alloc, editor)?;
            Ok(Some(Action::Move(Movement::BackwardChar(count))))
        }
        (Modifiers::ALT, KeyCode::Char('d')) | (Modifiers::CTRL, KeyCode::Delete) => {
            let count = steps_to_word_end(alloc, editor)?;
            Ok(Some(Action::KillAndMove(Movement::ForwardChar(count), Movement::None)))
        }
        (Modifiers::ALT, KeyCode::Backspace) => {
            let count = steps_to_word_start(alloc, editor)?;
            Ok(Some(Action::Kill(Movement::BackwardChar(count))))
        }
        _ => Ok(None),
    }
}

/// Keys for words of letters and digits, as in readline: Alt-f and Ctrl-Right move past the next word, Alt-b and
/// Ctrl-Left to the start of the previous one, Alt-d and Ctrl-Delete kill the next word, and Alt-Backspace the previous
/// one. They have no action during a search. Put them before `ReadlineKeys`, whose words end at whitespace.
#[derive(Debug, Drop)]
pub struct LetterWords;

impl PlainKeys for LetterWords {
    ghost use Rattle.tw_key_parts.specs.ClusterSteps.{letter_edit};

    ghost edits = { letter_edit };

    fn edit<L: History>(&self, alloc: Global, asked: &Asked<'_, L>) -> EditResult<()> {
        if asked.searching {
            return Ok(None);
        }
        let action = key_action(alloc, asked.event, asked.line)?;
        Ok(in_place(action, ()))
    }
}
