//! A host's own keys, as a table.

ghost use Rattle.std.specs.Prelude.{◌≡◌, option_map};
ghost use Rattle.std.specs.Option.{option_map_or};
ghost use Rattle.tw_input.specs.EventView.{event_view};
ghost use Rattle.tw_host.specs.ActionView.{action_view};
ghost use Rattle.tw_host.specs.KeyTable.{is_same_key};
ghost use Rattle.tw_hosts.specs.Bindings.{binding_action, binding_cut, bound, bound_event};

use tw_host::Action;
use tw_input::{InputEvent, KeyEvent};
use tw_line::{LineEditBuffer, Movement, RepeatCount};

/// What a key does: each action of the editor but the one that inserts a text, and two of its own.
#[derive(Clone, Copy, Debug)]
pub enum Binding {
    /// Clears the line, and ends a completion.
    Clear,
    /// Ends the editing, with no line.
    Cancel,
    /// Ends the editing, with the line.
    Accept,
    /// Ends the input.
    EndOfFile,
    /// Inserts a character so many times at the cursor.
    InsertChar(RepeatCount, char),
    /// Clears the screen, and paints the editor anew.
    Repaint,
    /// Moves the cursor.
    Move(Movement),
    /// Removes what lies up to where the movement leads.
    Kill(Movement),
    /// Removes what lies up to where the first movement leads, with the cursor where the second one leads.
    KillAndMove(Movement, Movement),
    /// Takes the line before in the history.
    HistoryPrevious,
    /// Takes the next line of the history.
    HistoryNext,
    /// Searches the history, to older lines.
    SearchBackwards,
    /// Searches the history, to newer lines.
    SearchForwards,
    /// Completes.
    Complete,
    /// Nothing, also where the editor's key table has an action.
    Ignore,
}

/// A key with its modifiers, and what it does.
#[derive(Clone, Copy, Debug)]
pub struct KeyBinding {
    /// The key. A letter with CTRL is written in upper case, as in the editor's key table.
    pub key: KeyEvent,
    /// What it does.
    pub binding: Binding,
}

fn is_same(key: KeyEvent, other: KeyEvent) -> bool
    ensures { result ≡ is_same_key key other }
{
    key == other
}

/// Returns the binding of the first row with this key.
pub fn bound(rows: &[KeyBinding], key: KeyEvent) -> Option<Binding>
    ensures { result ≡ bound rows.now key }
{
    let row = rows.iter().find(|row| is_same(row.key, key))?;
    Some(row.binding)
}

/// Returns the action of a binding. That of `Clear`, whose line is emptied before, is a kill, which ends a completion.
pub fn binding_action(binding: Binding) -> Action
    ensures { action_view result ≡ binding_action binding }
{
    match binding {
        Binding::Clear => Action::Kill(Movement::EndOfLine),
        Binding::Cancel => Action::Cancel,
        Binding::Accept => Action::AcceptLine,
        Binding::EndOfFile => Action::EndOfFile,
        Binding::InsertChar(count, c) => Action::InsertChar(count, c),
        Binding::Repaint => Action::Repaint,
        Binding::Move(movement) => Action::Move(movement),
        Binding::Kill(movement) => Action::Kill(movement),
        Binding::KillAndMove(kill, movement) => Action::KillAndMove(kill, movement),
        Binding::HistoryPrevious => Action::HistoryPrevious,
        Binding::HistoryNext => Action::HistoryNext,
        Binding::SearchBackwards => Action::HistoryIncSearchBackwards,
        Binding::SearchForwards => Action::HistoryIncSearchForwards,
        Binding::Complete => Action::Complete,
        Binding::Ignore => Action::NoAction,
    }
}

/// Returns the action of a key that has a row, and `None` for every other event: a body for a host's `resolve_action`.
pub fn resolve_key(
    rows: &[KeyBinding],
    event: &InputEvent,
    editor: &mut LineEditBuffer,
) -> Option<Action>
    ensures cut { editor.new ≡ option_map_or (λ binding. binding_cut binding editor.old)
        (bound_event rows.now (event_view event.now)) editor.old }
    ensures action { option_map action_view result
        ≡ option_map binding_action (bound_event rows.now (event_view event.now)) }
{
    let InputEvent::Key(key) = event else {
        return None;
    };
    let binding = bound(rows, *key)?;
    if let Binding::Clear = binding {
        editor.clear();
    }
    Some(binding_action(binding))
}
