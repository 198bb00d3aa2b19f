//! The names of keys.

ghost use Rattle.std.specs.Prelude.{◌≡◌, ℕ, Some, IfSome, IsSome, MatchOption, Contains};
ghost use Rattle.std.specs.Char.{IsScalar};
ghost use Rattle.script_player.specs.KeyNames.{key_name, key_names, plain_name, character_names, IsKey};

use tw_input::{KeyCode, KeyEvent, Modifiers};

/// Returns the key of this name.
#[tactic(auto, using(crate::proofs::KeyNameLemmas::no_listed))]
pub fn key_named(name: &str) -> Option<KeyEvent>
    ensures named { IfSome result (λ key. key_name key ≡ Some name.now) }
    ensures scalar { IfSome result IsKey }
    ensures known { Contains key_names name.now → IsSome result }
    ensures character { (c : ℕ) → IsScalar c → Contains (character_names c) name.now →
        IsSome result }
{
    if let Some(key) = plain_named(name) {
        return Some(KeyEvent {
            key,
            modifiers: Modifiers::NONE,
        });
    }
    let key = match name {
        "A-Left" => KeyCode::LeftArrow,
        "A-Right" => KeyCode::RightArrow,
        "A-AppLeft" => KeyCode::ApplicationLeftArrow,
        "A-AppRight" => KeyCode::ApplicationRightArrow,
        _ => return character_named(name),
    };
    Some(KeyEvent {
        key,
        modifiers: Modifiers::ALT,
    })
}

/// Returns the key of a name such as `Enter`, with no modifier.
#[tactic(auto, using(crate::proofs::KeyNameLemmas::no_plain))]
fn plain_named(name: &str) -> Option<KeyCode>
    ensures { MatchOption result ((key : KeyCode) →
        ¬ (plain_name key ≡ Some name.now)) (λ key. plain_name key ≡ Some name.now) }
{
    match name {
        "Enter" => Some(KeyCode::Enter),
        "Tab" => Some(KeyCode::Tab),
        "Backspace" => Some(KeyCode::Backspace),
        "Delete" => Some(KeyCode::Delete),
        "Home" => Some(KeyCode::Home),
        "End" => Some(KeyCode::End),
        "Left" => Some(KeyCode::LeftArrow),
        "Right" => Some(KeyCode::RightArrow),
        "Up" => Some(KeyCode::UpArrow),
        "Down" => Some(KeyCode::DownArrow),
        "AppLeft" => Some(KeyCode::ApplicationLeftArrow),
        "AppRight" => Some(KeyCode::ApplicationRightArrow),
        "AppUp" => Some(KeyCode::ApplicationUpArrow),
        "AppDown" => Some(KeyCode::ApplicationDownArrow),
        "Escape" => Some(KeyCode::Escape),
        _ => None,
    }
}

/// Returns the key of a name such as `C-x`: a letter for the modifier, a hyphen, and the character.
fn character_named(name: &str) -> Option<KeyEvent>
    ensures named { IfSome result (λ key. key_name key ≡ Some name.now) }
    ensures scalar { IfSome result IsKey }
    ensures character { (c : ℕ) → IsScalar c → Contains (character_names c) name.now →
        IsSome result }
{
    let (modifier, character) = name.split_once('-')?;
    let modifiers = match modifier {
        "C" => Modifiers::CTRL,
        "A" => Modifiers::ALT,
        "S" => Modifiers::SHIFT,
        _ => return None,
    };
    let key = KeyCode::Char(character.parse().ok()?);
    Some(KeyEvent { key, modifiers })
}
