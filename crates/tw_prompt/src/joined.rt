//! Characters that are at hand at once, as one pasted text.

ghost use Rattle.std.specs.Prelude.{◌≡◌};
ghost use Rattle.tw_input.specs.EventView.{event_view};
ghost use Rattle.tw_device.specs.Told.{events_in_option};
ghost use Rattle.tw_prompt.specs.Joined.{character_in, fitted, key_of_character};

use crate::sizes::fitting;
use tw_input::{InputEvent, KeyCode, KeyEvent, Modifiers};
use tw_terminal::ScreenSize;

/// Returns the character that an event types without a modifier, unless it is a control character.
pub fn character_in(event: &InputEvent) -> Option<char>
    ensures { result ≡ character_in (event_view event.now) }
{
    match event {
        InputEvent::Key(
            KeyEvent {
                key: KeyCode::Char(c),
                modifiers,
            },
        ) if *modifiers == Modifiers::NONE && !c.is_control() => Some(*c),
        _ => None,
    }
}

/// Returns an event as it is for the prompt, or `None` for a size that no screen has.
pub fn fitted(event: InputEvent) -> Option<InputEvent>
    ensures { fitted (event_view event) ≡ events_in_option result }
{
    match event {
        InputEvent::Resized { cols, rows } => match fitting(ScreenSize { rows, cols }) {
            Some(ScreenSize { rows, cols }) => Some(InputEvent::Resized { cols, rows }),
            None => None,
        },
        other => Some(other),
    }
}

/// Returns the event of a key that types a character.
pub fn key_of_character(c: char) -> InputEvent
    ensures { event_view result ≡ key_of_character c }
{
    InputEvent::Key(KeyEvent {
        key: KeyCode::Char(c),
        modifiers: Modifiers::NONE,
    })
}
