//! Keys of readline that are not in the key table.

ghost use Rattle.std.specs.Prelude.{◌≡◌, IfOk, option_map, unwrap_or};
ghost use Rattle.tw_host.specs.ActionView.{Kill, action_view};
ghost use Rattle.tw_input.specs.EventView.{event_view};
ghost use Rattle.tw_key_parts.specs.ReadlineKeys.{readline_key};
ghost use Rattle.tw_key_parts.specs.RowKeys.{killed_to_edge};
ghost use Rattle.tw_key_parts.specs.declared.steps.Way.TheVariants.{Back};
ghost use Rattle.tw_line.specs.declared.movements.Movement.TheVariants.{StartOfLine};

use crate::edit::{EditResult, in_place};
use crate::part::Asked;
use crate::plain_keys::PlainKeys;
use crate::row_keys::killed_to_edge;
use crate::steps::Way;
use std::alloc::{AllocError, Global};
use tw_host::Action;
use tw_input::{InputEvent, KeyCode, Modifiers};
use tw_line::{History, LineEditBuffer, Movement};

/// Returns the action of Ctrl-U in a line.
fn killed_before(alloc: Global, editor: &LineEditBuffer) -> Result<Action, AllocError>
    ensures { IfOk result (λ action. action_view action
        ≡ unwrap_or (killed_to_edge Back editor.now) (Kill StartOfLine)) }
{
    let in_row = killed_to_edge(alloc, Way::Back, editor)?;
    Ok(in_row.unwrap_or(Action::Kill(Movement::StartOfLine)))
}

/// Returns the action of an event in a line, if it is a key of readline.
fn readline_key(
    alloc: Global,
    event: &InputEvent,
    editor: &LineEditBuffer,
) -> Result<Option<Action>, AllocError>
    ensures { IfOk result (λ action. option_map action_view action
        ≡ readline_key (event_view event.now) editor.now) }
{
    let InputEvent::Key(press) = event else {
        return Ok(None);
    };
    Ok(match (press.modifiers, press.key) {
        (Modifiers::CTRL, KeyCode::Char('U')) => Some(killed_before(alloc, editor)?),
        (Modifiers::CTRL, KeyCode::Char('D')) if !editor.get_line().is_empty() => {
            Some(Action::KillAndMove(Movement::ForwardChar(1), Movement::None))
        }
        (Modifiers::CTRL, KeyCode::LeftArrow) => Some(Action::Move(Movement::BackwardWord(1))),
        (Modifiers::CTRL, KeyCode::RightArrow) => Some(Action::Move(Movement::ForwardWord(1))),
        (Modifiers::ALT, KeyCode::Char('d')) | (Modifiers::CTRL, KeyCode::Delete) => {
            Some(Action::KillAndMove(Movement::ForwardWord(1), Movement::None))
        }
        (Modifiers::ALT, KeyCode::Backspace) => Some(Action::Kill(Movement::BackwardWord(1))),
        _ => None,
    })
}

/// Keys of readline: Ctrl-U kills to the start of the line, or of its row if it has several, and at the start of a row
/// the line feed before it; Alt-d and Ctrl-Delete kill the next word and Alt-Backspace the previous one; Ctrl-Left and
/// Ctrl-Right move by words; Ctrl-D deletes a character, and on an empty line ends the input. Words end at whitespace.
#[derive(Debug, Drop)]
pub struct ReadlineKeys;

impl PlainKeys for ReadlineKeys {
    ghost use Rattle.tw_key_parts.specs.ReadlineKeys.{readline_edit};

    ghost edits = { readline_edit };

    fn edit<L: History>(&self, alloc: Global, asked: &Asked<'_, L>) -> EditResult<()> {
        Ok(in_place(readline_key(alloc, asked.event, asked.line)?, ()))
    }
}
