//! The key table: what each key does.

ghost use Rattle.std.specs.Prelude.{◌≡◌, [], IfOk, IsOk, OnErr, string_bytes};
ghost use Rattle.std.specs.Option.{option_map};
ghost use Rattle.tw_input.specs.EventView.{event_view};
ghost use Rattle.tw_input.specs.Modifiers.{none, alt, ctrl};
ghost use Rattle.tw_host.specs.ActionView.{action_view};
ghost use Rattle.tw_host.specs.KeyTable.{IsPaste, action_of, key_action_of, typed_code, key_press};

use crate::actions::Action;
use std::alloc::{AllocError, Global};
use tw_input::{InputEvent, KeyCode, KeyEvent, Modifiers};
use tw_line::Movement;

/// Returns the action that the key table has for an event, if it has one. It allocates only for a
/// `Paste` whose text is not empty.
pub fn default_action(alloc: Global, event: &InputEvent) -> Result<Option<Action>, AllocError>
    ensures action { IfOk result (λ action.
        option_map action_view action ≡ action_of (event_view event.now)) }
    ensures memory { OnErr result (IsPaste (event_view event.now)) }
{
    Ok(match event {
        InputEvent::Key(event) => key_action(*event),
        InputEvent::Paste(text) => Some(Action::InsertText(1, copy_of(alloc, text.as_str())?)),
        InputEvent::Resized { .. } | InputEvent::Wake => None,
    })
}

/// Returns a copy of the text.
fn copy_of(alloc: Global, text: &str) -> Result<String, AllocError>
    ensures ok { IfOk result (λ copy. string_bytes copy ≡ text.now) }
    ensures empty { text.now ≡ [] → IsOk result }
{
    let mut copy = String::new(alloc);
    copy.push_str(text)?;
    Ok(copy)
}

/// Returns the action of a key, whose modifiers must be exactly those of its row.
fn key_action(event: KeyEvent) -> Option<Action>
    ensures { option_map action_view result ≡ key_action_of event }
{
    match event.modifiers {
        Modifiers::CTRL => ctrl_action(event.key),
        Modifiers::NONE => plain_action(event.key),
        Modifiers::ALT => alt_action(event.key),
        Modifiers::SHIFT => typed_action(event.key),
        _ => None,
    }
}

/// Returns the action of a key while CTRL is held.
fn ctrl_action(key: KeyCode) -> Option<Action>
    ensures { option_map action_view result ≡ key_action_of (key_press ctrl key) }
{
    let KeyCode::Char(c) = key else {
        return None;
    };
    match c {
        'C' => Some(Action::Cancel),
        'D' => Some(Action::EndOfFile),
        'J' | 'M' => Some(Action::AcceptLine),
        'H' => Some(Action::Kill(Movement::BackwardChar(1))),
        'P' => Some(Action::HistoryPrevious),
        'N' => Some(Action::HistoryNext),
        'B' => Some(Action::Move(Movement::BackwardChar(1))),
        'F' => Some(Action::Move(Movement::ForwardChar(1))),
        'W' => Some(Action::Kill(Movement::BackwardWord(1))),
        'A' => Some(Action::Move(Movement::StartOfLine)),
        'E' => Some(Action::Move(Movement::EndOfLine)),
        'L' => Some(Action::Repaint),
        'K' => Some(Action::Kill(Movement::EndOfLine)),
        'R' => Some(Action::HistoryIncSearchBackwards),
        'S' => Some(Action::HistoryIncSearchForwards),
        _ => None,
    }
}

/// Returns the action of a key while no modifier is held.
fn plain_action(key: KeyCode) -> Option<Action>
    ensures { option_map action_view result ≡ key_action_of (key_press none key) }
{
    match key {
        KeyCode::Tab => Some(Action::Complete),
        KeyCode::Enter => Some(Action::AcceptLine),
        KeyCode::Backspace => Some(Action::Kill(Movement::BackwardChar(1))),
        KeyCode::Delete => Some(Action::KillAndMove(Movement::ForwardChar(1), Movement::None)),
        KeyCode::UpArrow | KeyCode::ApplicationUpArrow => Some(Action::HistoryPrevious),
        KeyCode::DownArrow | KeyCode::ApplicationDownArrow => Some(Action::HistoryNext),
        KeyCode::LeftArrow | KeyCode::ApplicationLeftArrow => Some(Action::Move(
            Movement::BackwardChar(1),
        )),
        KeyCode::RightArrow | KeyCode::ApplicationRightArrow => Some(Action::Move(
            Movement::ForwardChar(1),
        )),
        KeyCode::Home => Some(Action::Move(Movement::StartOfLine)),
        KeyCode::End => Some(Action::Move(Movement::EndOfLine)),
        _ => typed_action(key),
    }
}

/// Returns the action of a key while ALT is held.
fn alt_action(key: KeyCode) -> Option<Action>
    ensures { option_map action_view result ≡ key_action_of (key_press alt key) }
{
    match key {
        KeyCode::Char('b') | KeyCode::LeftArrow | KeyCode::ApplicationLeftArrow => {
            Some(Action::Move(Movement::BackwardWord(1)))
        }
        KeyCode::Char('f') | KeyCode::RightArrow | KeyCode::ApplicationRightArrow => {
            Some(Action::Move(Movement::ForwardWord(1)))
        }
        _ => None,
    }
}

/// Returns the action of a key that types a character.
fn typed_action(key: KeyCode) -> Option<Action>
    ensures { option_map action_view result ≡ typed_code key }
{
    match key {
        KeyCode::Char(c) => Some(Action::InsertChar(1, c)),
        _ => None,
    }
}
