//! Events that have no action.

use std::alloc::Global;
use std::test::Fail;
use test_cases::{event_of, events_named, hold};
use tw_input::{InputEvent, KeyCode, KeyEvent, Modifiers};
use tw_lineedit::{Error, LineEditor, NopLineEditorHost};
use tw_terminal::{ScreenSize, ScriptTerminal};

const SIZE: ScreenSize = ScreenSize { rows: 24, cols: 80 };

const KEYS: &[KeyCode] = &[
    KeyCode::Backspace,
    KeyCode::Tab,
    KeyCode::Enter,
    KeyCode::Escape,
    KeyCode::Insert,
    KeyCode::Delete,
    KeyCode::Home,
    KeyCode::End,
    KeyCode::PageUp,
    KeyCode::PageDown,
    KeyCode::LeftArrow,
    KeyCode::RightArrow,
    KeyCode::UpArrow,
    KeyCode::DownArrow,
    KeyCode::ApplicationLeftArrow,
    KeyCode::ApplicationRightArrow,
    KeyCode::ApplicationUpArrow,
    KeyCode::ApplicationDownArrow,
    KeyCode::Function(0),
    KeyCode::Function(1),
    KeyCode::Function(12),
    KeyCode::Function(255),
    KeyCode::Char('a'),
    KeyCode::Char('b'),
    KeyCode::Char('f'),
    KeyCode::Char('c'),
    KeyCode::Char('A'),
    KeyCode::Char('C'),
    KeyCode::Char('D'),
    KeyCode::Char('G'),
    KeyCode::Char('L'),
    KeyCode::Char('5'),
    KeyCode::Char(' '),
    KeyCode::Char('\u{e9}'),
];

/// Returns true if a key has an action: by modifier, those that have one, or have none.
fn has_action(event: KeyEvent) -> bool {
    let KeyEvent { key, modifiers } = event;
    if modifiers == Modifiers::NONE {
        return !matches!(
            key,
            KeyCode::Escape
                | KeyCode::Insert
                | KeyCode::PageUp
                | KeyCode::PageDown
                | KeyCode::Function(_)
        );
    }
    if modifiers == Modifiers::SHIFT {
        return matches!(key, KeyCode::Char(_));
    }
    if modifiers == Modifiers::ALT {
        return matches!(
            key,
            KeyCode::Char('b' | 'f')
                | KeyCode::LeftArrow
                | KeyCode::RightArrow
                | KeyCode::ApplicationLeftArrow
                | KeyCode::ApplicationRightArrow
        );
    }
    modifiers == Modifiers::CTRL && matches!(key, KeyCode::Char('A' | 'C' | 'D' | 'L'))
}

/// Returns a terminal on which an event comes between a character and Enter.
fn terminal_between(alloc: Global, event: InputEvent) -> Result<ScriptTerminal, Fail> {
    let mut events = events_named(alloc, "a")?;
    events.push(event)?;
    events.push(event_of(alloc, "Enter")?)?;
    Ok(ScriptTerminal::new(alloc, SIZE, events))
}

/// Reads a line over the default host.
pub fn line_from(alloc: Global, terminal: &mut ScriptTerminal) -> Result<Option<String>, Error> {
    LineEditor::new(alloc, terminal)?.read_line(&mut NopLineEditorHost::new(alloc))
}

/// Returns true if the second of three events was painted as those round it.
fn is_painted_alike(terminal: &ScriptTerminal) -> bool {
    match terminal.batches() {
        [_, typed, idle, entered, _] => typed == idle && typed == entered,
        _ => false,
    }
}

/// Between a character and Enter the event has one painting, which is that of the character once more, and
/// the answer is the character.
fn hold_idle(alloc: Global, event: InputEvent) -> Result<(), Fail> {
    let name = format!(in alloc; "{event:?}")?;
    let mut terminal = terminal_between(alloc, event)?;
    let line = line_from(alloc, &mut terminal)?.ok_or("no line")?;
    hold(
        line.as_str() == "a" && is_painted_alike(&terminal),
        name.as_str(),
        line.as_str(),
    )
}

/// Lets each key without an action come with these modifiers, and returns how many these are.
fn idle_keys(alloc: Global, modifiers: Modifiers) -> Result<usize, Fail> {
    let mut count = 0usize;
    for &key in KEYS {
        let event = KeyEvent { key, modifiers };
        if !has_action(event) {
            hold_idle(alloc, InputEvent::Key(event))?;
            count = count.saturating_add(1);
        }
    }
    Ok(count)
}

#[test]
fn an_event_without_an_action_is_painted_once(rt: HostRuntime) -> Result<(), Fail> {
    let alloc = rt.alloc();
    hold_idle(alloc, InputEvent::Wake)?;
    hold_idle(alloc, InputEvent::Resized { cols: 80, rows: 24 })?;
    hold_idle(alloc, InputEvent::Resized { cols: 5, rows: 1 })?;
    let mut count = 0usize;
    for &shift in &[Modifiers::NONE, Modifiers::SHIFT] {
        for &alt in &[Modifiers::NONE, Modifiers::ALT] {
            for &ctrl in &[Modifiers::NONE, Modifiers::CTRL] {
                for &super_key in &[Modifiers::NONE, Modifiers::SUPER] {
                    let modifiers = shift | alt | ctrl | super_key;
                    count = count.saturating_add(idle_keys(alloc, modifiers)?);
                }
            }
        }
    }
    assert_eq!(rt; count, 496);
    Ok(())
}
