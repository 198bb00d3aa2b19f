//! Events by their names.

use script_player::{Directive, event_named, parse_line, push_events};
use std::alloc::{AllocError, Global};
use std::test::Fail;
use tw_input::{InputEvent, KeyCode, KeyEvent, Modifiers};
use tw_terminal::{ScreenSize, ScriptTerminal};

/// Parses an event: one of a script, another key, or `Wake`.
pub fn event_of(alloc: Global, name: &str) -> Result<InputEvent, Fail> {
    if name == "Wake" {
        return Ok(InputEvent::Wake);
    }
    match event_named(alloc, name)? {
        Some(event) => Ok(event),
        None => Ok(InputEvent::Key(other_key(name).ok_or("no event of this name")?)),
    }
}

/// Returns the events of a list of names, parted by spaces.
pub fn events_named(alloc: Global, names: &str) -> Result<Vec<InputEvent>, Fail> {
    let mut events = Vec::new(alloc);
    for name in names.split_whitespace() {
        events.push(event_of(alloc, name)?)?;
    }
    Ok(events)
}

/// Formats an event. A key has its modifiers before it.
pub fn event_text(alloc: Global, event: &InputEvent) -> Result<String, AllocError> {
    let InputEvent::Key(KeyEvent { key, modifiers }) = event else {
        return format!(in alloc; "{event:?}");
    };
    let ctrl = mark_text(*modifiers, Modifiers::CTRL, "CTRL ");
    let alt = mark_text(*modifiers, Modifiers::ALT, "ALT ");
    let shift = mark_text(*modifiers, Modifiers::SHIFT, "SHIFT ");
    match key {
        KeyCode::Char(character) => format!(in alloc; "{ctrl}{alt}{shift}Char {character}"),
        other => format!(in alloc; "{ctrl}{alt}{shift}{other:?}"),
    }
}

/// Returns the name of a modifier if it is held.
fn mark_text(held: Modifiers, modifier: Modifiers, name: &'static str) -> &'static str {
    if held & modifier == modifier {
        name
    } else {
        ""
    }
}

/// Returns a terminal of 24 rows.
pub fn terminal_of(alloc: Global, cols: usize, names: &str) -> Result<ScriptTerminal, Fail> {
    terminal_sized(alloc, ScreenSize { rows: 24, cols }, names)
}

/// Returns a terminal of this size, with the events of these names.
pub fn terminal_sized(
    alloc: Global,
    size: ScreenSize,
    names: &str,
) -> Result<ScriptTerminal, Fail> {
    Ok(ScriptTerminal::new(alloc, size, events_named(alloc, names)?))
}

/// Parses a key that scripts have no name for: modifiers (`C`, `A`, `S`, `W` for super), a `-`, and the key, as in
/// `CS-Left`.
fn other_key(name: &str) -> Option<KeyEvent> {
    let (marks, key) = name.rsplit_once('-').unwrap_or(("", name));
    let key = key_named(key)?;
    let modifiers = modifiers_of(marks);
    Some(KeyEvent { key, modifiers })
}

/// Returns the modifiers of these letters.
fn modifiers_of(marks: &str) -> Modifiers {
    let mut modifiers = Modifiers::NONE;
    for mark in marks.chars() {
        modifiers = match mark {
            'C' => modifiers | Modifiers::CTRL,
            'A' => modifiers | Modifiers::ALT,
            'S' => modifiers | Modifiers::SHIFT,
            'W' => modifiers | Modifiers::SUPER,
            _ => modifiers,
        };
    }
    modifiers
}

/// Returns the key of a name, or of the character that it is.
fn key_named(name: &str) -> Option<KeyCode> {
    Some(match name {
        "Enter" => KeyCode::Enter,
        "Backspace" => KeyCode::Backspace,
        "Left" => KeyCode::LeftArrow,
        "Right" => KeyCode::RightArrow,
        "Home" => KeyCode::Home,
        "Insert" => KeyCode::Insert,
        "PageUp" => KeyCode::PageUp,
        "PageDown" => KeyCode::PageDown,
        _ => KeyCode::Char(name.parse().ok()?),
    })
}

/// Parses the lines of a script (docs/SCRIPTS.md): `type TEXT`, `paste TEXT` and `key NAME`, also with the name of
/// another key.
pub fn script_events(alloc: Global, script: &str) -> Result<Vec<InputEvent>, Fail> {
    let mut events = Vec::new(alloc);
    for line in script.lines() {
        push_line(alloc, line, &mut events)?;
    }
    Ok(events)
}

/// Appends the events of a line of a script.
fn push_line(alloc: Global, line: &str, events: &mut Vec<InputEvent>) -> Result<(), Fail> {
    match parse_line(line.as_bytes()) {
        Some(directive @ (Directive::Type(_) | Directive::Paste(_) | Directive::Key(_))) => {
            Ok(push_events(alloc, &directive, events)?)
        }
        Some(_) => Err(Fail::from("no line with events")),
        None => {
            let name = line.strip_prefix("key ").ok_or("no line of a script")?;
            let key = other_key(name).ok_or("no key of this name")?;
            Ok(events.push(InputEvent::Key(key))?)
        }
    }
}

/// Returns a terminal of 24 rows and 80 columns with the events of a script.
pub fn script_terminal(alloc: Global, script: &str) -> Result<ScriptTerminal, Fail> {
    let size = ScreenSize { rows: 24, cols: 80 };
    Ok(ScriptTerminal::new(alloc, size, script_events(alloc, script)?))
}
