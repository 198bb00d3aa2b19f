//! The key table, row by row.

use std::alloc::Global;
use std::test::Fail;
use test_cases::{event_of, expect_rows};
use tw_host::default_action;

/// Returns the action of an event.
fn action_text(alloc: Global, name: &str) -> Result<String, Fail> {
    let event = event_of(alloc, name)?;
    let action = default_action(alloc, &event)?;
    Ok(format!(in alloc; "{action:?}")?)
}

const ACTIONS: &str = r#"
C-C => Some(Cancel)
C-D => Some(EndOfFile)
C-J => Some(AcceptLine)
C-M => Some(AcceptLine)
C-H => Some(Kill(BackwardChar(1)))
C-P => Some(HistoryPrevious)
C-N => Some(HistoryNext)
C-B => Some(Move(BackwardChar(1)))
C-F => Some(Move(ForwardChar(1)))
C-W => Some(Kill(BackwardWord(1)))
C-A => Some(Move(StartOfLine))
C-E => Some(Move(EndOfLine))
C-L => Some(Repaint)
C-K => Some(Kill(EndOfLine))
C-R => Some(HistoryIncSearchBackwards)
C-S => Some(HistoryIncSearchForwards)
Up => Some(HistoryPrevious)
AppUp => Some(HistoryPrevious)
Down => Some(HistoryNext)
AppDown => Some(HistoryNext)
Tab => Some(Complete)
Enter => Some(AcceptLine)
Backspace => Some(Kill(BackwardChar(1)))
Delete => Some(KillAndMove(ForwardChar(1), None))
Left => Some(Move(BackwardChar(1)))
AppLeft => Some(Move(BackwardChar(1)))
Right => Some(Move(ForwardChar(1)))
AppRight => Some(Move(ForwardChar(1)))
Home => Some(Move(StartOfLine))
End => Some(Move(EndOfLine))
A-b => Some(Move(BackwardWord(1)))
A-Left => Some(Move(BackwardWord(1)))
A-AppLeft => Some(Move(BackwardWord(1)))
A-f => Some(Move(ForwardWord(1)))
A-Right => Some(Move(ForwardWord(1)))
A-AppRight => Some(Move(ForwardWord(1)))
b => Some(InsertChar(1, 'b'))
C => Some(InsertChar(1, 'C'))
S-C => Some(InsertChar(1, 'C'))
S-é => Some(InsertChar(1, 'é'))

// other keys, and other events
CS-C => None
CA-B => None
C-c => None
C-Z => None
C-Enter => None
C-Left => None
A-Enter => None
A-B => None
A-x => None
A-Home => None
AS-b => None
S-Enter => None
S-Left => None
S-Backspace => None
W-a => None
F1 => None
Escape => None
Insert => None
PageUp => None
PageDown => None
5x24 => None
Wake => None
paste:g => Some(InsertText(1, "g"))
"#;

#[test]
fn keys_have_actions(rt: HostRuntime) -> Result<(), Fail> {
    expect_rows(rt.alloc(), ACTIONS, action_text)
}
