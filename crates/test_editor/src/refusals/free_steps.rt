//! Actions of an editor that make no request for memory.

use crate::support::play_with;
use std::alloc::{AllocError, Global};
use std::test::Fail;
use test_cases::{case_of, events_named, expect_cases, mark, terminal_of};
use tw_hosts::{Binding, KeyBinding, Styles, TableHost, Tables};
use tw_input::{InputEvent, KeyCode, KeyEvent, Modifiers};
use tw_lineedit::{
    Action, BasicHistory, LineEditBuffer, LineEditor, LineEditorHost, LineStatus, NopLineEditorHost,
};
use tw_surface::CellAttributes;

/// Takes the steps of a case.
fn play_steps(alloc: Global, lines: &str) -> Result<String, Fail> {
    play_with(alloc, &case_of(alloc, lines)?, BasicHistory::new(alloc))
}

const HOST: &str = "history git log\nhistory ls\ncand 0 1 foo\ncand 0 1 far\n";

/// Applies each action in each mode, in which the actions of its names leave an editor, and returns the number of
/// refusals of each.
fn play_modes(alloc: Global, lines: &str) -> Result<String, Fail> {
    let (modes, actions) = lines.split_once('\n').ok_or("no modes")?;
    let mut outcome = String::new(alloc);
    for action in actions.lines() {
        let mut refused = 0usize;
        for mode in modes.split(", ") {
            let case = format!(in alloc; "{HOST}act {mode}\ndo {action}\n")?;
            if play_steps(alloc, case.as_str())?
                .as_str()
                .starts_with("refusal 1, ")
            {
                refused = refused.saturating_add(1);
            }
        }
        write!(outcome, "{refused}\n")?;
    }
    Ok(outcome)
}

/// Editing, in the history, completing, searching with a match and without one, cancelled and accepted; kills outside a
/// search.
const MODES: &str = "\
a, a Up, f Tab Tab, C-R g, C-S z, C-C, a Enter
EndOfFile
NoAction
Cancel
AcceptLine
Move BackwardChar 1
Move ForwardWord 2
Move EndOfLine
Move None
--
7
0
0
0
0
0
0
0
==
a, a Up, f Tab Tab, C-C, a Enter
Kill BackwardWord 1
Kill StartOfLine
KillAndMove BackwardWord 1, None
KillAndMove StartOfLine, None
--
0
0
0
0
==
";

#[test]
fn movements_kills_and_ends_without_memory(rt: HostRuntime) -> Result<(), Fail> {
    expect_cases(rt.alloc(), MODES, play_modes)
}

/// Steps through an empty history and searches of it, completions without candidates, and insertions of nothing.
const NOTHING_TO_DO: &str = "\
line 1 ab
do HistoryNext
do HistoryPrevious
do Complete
do InsertChar 0 x
do InsertText 18446744073709551615 
do HistoryIncSearchBackwards
do HistoryIncSearchForwards
--
\"ab\" at 1
\"ab\" at 1
\"ab\" at 1
\"ab\" at 1
\"ab\" at 1
\"\" at 0
\"\" at 0
==
";

#[test]
fn actions_with_nothing_to_do_without_memory(rt: HostRuntime) -> Result<(), Fail> {
    expect_cases(rt.alloc(), NOTHING_TO_DO, play_steps)
}

/// A new editor and its line, calls of a line that is fed its events while none is open, and readings in a mode that
/// was left.
#[test]
fn calls_of_a_new_editor_without_memory(rt: HostRuntime) -> Result<(), Fail> {
    let alloc = rt.alloc();
    let host = &mut NopLineEditorHost::new(alloc);
    let mut terminal = terminal_of(alloc, 80, "a")?;
    mark(alloc)?;
    let mut editor = LineEditor::new(alloc, &mut terminal)?;
    assert_eq!(rt; editor.get_line_and_cursor(), ("", 0));
    assert!(rt; matches!(editor.feed(host, &InputEvent::Wake)?, LineStatus::Ended));
    assert!(rt; editor.finish_line()?.is_none());
    editor.apply_action(host, Action::Cancel)?;
    let begun = editor.begin_line(host, Some("ab")).is_err();
    let remembered = editor.read_line_and_remember(host).is_err();
    let read = editor.read_line(host).is_err();
    mark(alloc)?;
    assert!(rt; begun && remembered && read);
    Ok(())
}

/// Returns a host whose table has one key, F1, which clears the line.
fn clearing_host(alloc: Global) -> Result<TableHost<BasicHistory>, AllocError> {
    let attributes = CellAttributes::default();
    let clear = KeyBinding {
        key: KeyEvent {
            key: KeyCode::Function(1),
            modifiers: Modifiers::NONE,
        },
        binding: Binding::Clear,
    };
    let tables = Tables {
        keywords: Vec::new(alloc),
        words: Vec::new(alloc),
        hints: Vec::new(alloc),
        keys: vec![in alloc; clear]?,
        styles: Styles {
            keyword: attributes,
            quote: attributes,
        },
    };
    Ok(TableHost::new(tables, BasicHistory::new(alloc)))
}

#[test]
fn tables_resolve_keys_without_memory(rt: HostRuntime) -> Result<(), Fail> {
    let alloc = rt.alloc();
    let mut host = clearing_host(alloc)?;
    let mut line = LineEditBuffer::new(alloc, "ab", 1)?;
    let events = events_named(alloc, "F1 a paste:b 5x4")?;
    let mut resolved = 0u32;
    mark(alloc)?;
    for event in &events {
        if host.resolve_action(alloc, event, &mut line)?.is_some() {
            resolved = resolved.saturating_add(1);
        }
    }
    mark(alloc)?;
    assert_eq!(rt; resolved, 1);
    assert_eq!(rt; line.get_line(), "");
    Ok(())
}
