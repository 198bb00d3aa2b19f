//! Events: those of a line of a script, and events by their names.

ghost use Rattle.std.specs.Char.{IsScalar};
ghost use Rattle.std.specs.Prelude.{◌≡◌, ◌<◌, ◌^◌, ◌++◌, ℕ, List, Contains, IfOk, IfSome, IsSome, OnOk, codes, encode_utf8, map};
ghost use Rattle.tw_input.specs.EventView.{event_view};
ghost use Rattle.script_player.specs.Events.{IsEventName, IsPlainKeyName, IsPlainName, IsSizeName, directive_events, typed_keys};
ghost use Rattle.script_player.specs.KeyNames.{character_names, key_names};

use crate::directive::Directive;
use crate::keys::key_named;
use std::alloc::{AllocError, Global};
use tw_input::{InputEvent, KeyCode, KeyEvent, Modifiers};

/// Adds the events of a directive: a key for each character that is typed, a text that is pasted, or a key. The other
/// directives have none. Where memory is refused some of them may have been added.
pub fn push_events(
    alloc: Global,
    directive: &Directive<'_>,
    events: &mut Vec<InputEvent>,
) -> Result<(), AllocError>
    ensures { OnOk result (map event_view events.new.items
        ≡ map event_view events.old.items ++ directive_events directive.now) }
{
    match directive {
        Directive::Type(text) => push_typed(text, events)?,
        Directive::Paste(text) => {
            let text = String::from_str(alloc, text)?;
            events.push(InputEvent::Paste(text))?;
        }
        Directive::Key(key) => events.push(InputEvent::Key(*key))?,
        _ => {}
    }
    Ok(())
}

/// Adds a key for each character of a text.
fn push_typed(text: &str, events: &mut Vec<InputEvent>) -> Result<(), AllocError>
    ensures { OnOk result (map event_view events.new.items
        ≡ map event_view events.old.items ++ typed_keys text.now) }
{
    for character in text.chars() {
        events.push(InputEvent::Key(KeyEvent {
            key: KeyCode::Char(character),
            modifiers: Modifiers::NONE,
        }))?;
    }
    Ok(())
}

/// Returns the event of this name: `paste:TEXT` is a pasted text, and `5x24` a new size of 5 columns and 24 rows; a
/// single character is its key, `F1` is the first function key, and the others are the names of keys.
pub fn event_named(alloc: Global, name: &str) -> Result<Option<InputEvent>, AllocError>
    ensures named { IfOk result
        (λ found. IfSome found (λ event. IsEventName name.now (event_view event))) }
    ensures pasted { (text : List ℕ) → name.now ≡ codes "paste:" ++ text → IfOk result IsSome }
    ensures key { (Contains key_names name.now → IfOk result IsSome)
        × ((c : ℕ) → IsScalar c → Contains (character_names c) name.now → IfOk result IsSome) }
    ensures character { (c : ℕ) → IsScalar c → name.now ≡ encode_utf8 c → IfOk result IsSome }
    ensures function { (n : ℕ) → n < 256 → IsPlainName name.now (KeyCode.Function n) →
        IfOk result IsSome }
    ensures size { (cols rows : ℕ) → cols < 2 ^ 64 → rows < 2 ^ 64 → IsSizeName name.now cols rows →
        IfOk result IsSome }
{
    if let Some(text) = name.strip_prefix("paste:") {
        let text = String::from_str(alloc, text)?;
        return Ok(Some(InputEvent::Paste(text)));
    }
    if let Some(key) = key_named(name) {
        return Ok(Some(InputEvent::Key(key)));
    }
    if let Some(key) = plain_key_named(name) {
        return Ok(Some(InputEvent::Key(key)));
    }
    Ok(size_named(name))
}

/// Returns the key without modifiers that a single character names, or `F` and its number.
fn plain_key_named(name: &str) -> Option<KeyEvent>
    ensures named { IfSome result (IsPlainKeyName name.now) }
    ensures character { (c : ℕ) → IsScalar c → name.now ≡ encode_utf8 c → IsSome result }
    ensures function { (n : ℕ) → n < 256 → IsPlainName name.now (KeyCode.Function n) →
        IsSome result }
{
    let key = match name.parse() {
        Ok(character) => KeyCode::Char(character),
        Err(_) => KeyCode::Function(name.strip_prefix('F')?.parse().ok()?),
    };
    Some(KeyEvent {
        key,
        modifiers: Modifiers::NONE,
    })
}

/// Returns the change of the size that two numbers name, with an `x` between them: columns and rows.
fn size_named(name: &str) -> Option<InputEvent>
    ensures named { IfSome result (λ event. IsEventName name.now (event_view event)) }
    ensures size { (cols rows : ℕ) → cols < 2 ^ 64 → rows < 2 ^ 64 → IsSizeName name.now cols rows →
        IsSome result }
{
    let (cols, rows) = name.split_once('x')?;
    Some(InputEvent::Resized {
        cols: cols.parse().ok()?,
        rows: rows.parse().ok()?,
    })
}
