//! The keys of the parts.

ghost use Rattle.std.specs.Prelude.{◌≡◌};
ghost use Rattle.tw_input.specs.declared.key.KeyCode.TheVariants as KeyCode;
ghost use Rattle.tw_input.specs.EventView.{event_view};
ghost use Rattle.tw_key_parts.specs.Keys.{deletes_character, is_key};

use tw_input::{InputEvent, KeyCode, KeyEvent, Modifiers};

/// Returns the key of a character with these modifiers.
pub fn key_of(modifiers: Modifiers, character: char) -> KeyEvent
    ensures { result ≡ record { key = KeyCode.Char character; modifiers = modifiers } }
{
    let key = KeyCode::Char(character);
    KeyEvent { key, modifiers }
}

/// Returns true if an event is this key.
pub fn is_key(key: KeyEvent, event: &InputEvent) -> bool
    ensures { result ≡ is_key key (event_view event.now) }
{
    matches!(event, InputEvent::Key(other) if *other == key)
}

/// Returns true for the keys that delete a character: Delete, Backspace, Ctrl-H and Ctrl-D.
pub fn deletes_character(event: &InputEvent) -> bool
    ensures { result ≡ deletes_character (event_view event.now) }
{
    let InputEvent::Key(press) = event else {
        return false;
    };
    matches!(
        (press.modifiers, press.key),
        (Modifiers::NONE, KeyCode::Delete | KeyCode::Backspace)
            | (Modifiers::CTRL, KeyCode::Char('H' | 'D')),
    )
}
