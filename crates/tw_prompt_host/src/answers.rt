//! What is answered to an event, of what the host, the parts, the menu and the key table have.

ghost use Rattle.std.specs.Prelude.{◌≡◌, option_map};
ghost use Rattle.tw_host.specs.ActionView.{action_view};
ghost use Rattle.tw_host.specs.HostRules.{or_default};
ghost use Rattle.tw_host.specs.KeyTable.{action_of};
ghost use Rattle.tw_input.specs.EventView.{event_view};
ghost use Rattle.tw_key_parts.specs.EditView.{edit_view, lent_action};
ghost use Rattle.tw_prompt_host.specs.Menu.{turn_unless, turn_view};
ghost use Rattle.tw_prompt_host.specs.PromptRules.{answered, completing, edit_action};
ghost use Rattle.tw_prompt_host.specs.Verdicts.{failing_by, said, verdict_on};

use crate::menu::{Menu, Turn};
use tw_host::Action;
use tw_input::InputEvent;
use tw_key_parts::{Edit, KeyPart};
use tw_line::LineEditBuffer;

/// Returns the host's action, or else the edit's, or else the completion of a line, and where the menu turns if there
/// is neither of the first two. The line of the edit or the completion replaces the editor's.
pub fn answered<K: KeyPart>(
    _menu: &Menu,
    own: Option<Action>,
    edit: Option<Edit<Option<K::Note>>>,
    completed: Option<LineEditBuffer>,
    turn: Option<Turn>,
    editor: &mut LineEditBuffer,
) -> (Option<Action>, Option<K::Note>, Option<Turn>)
    ensures answer { let edited = option_map (edit_view (option_map K.kept)) edit in
        record {
          cut = editor.new;
          action = option_map action_view result.0;
          kept = option_map K.kept result.1;
        } ≡ answered (option_map action_view own) (completing edited completed) editor.old }
    ensures turn { let view = turn_view _menu.now in
        let edited = option_map (edit_view (option_map K.kept)) edit in
        option_map view result.2
        ≡ turn_unless (option_map action_view own) edited (option_map view turn) }
{
    match (own, edit, completed) {
        (Some(action), _, _) => (Some(action), None, None),
        (None, Some(Edit { line, action, note }), _) => {
            if let Some(line) = line {
                *editor = line;
            }
            (Some(action), note, None)
        }
        (None, None, Some(line)) => {
            *editor = line;
            (Some(Action::Complete), None, turn)
        }
        (None, None, None) => (None, None, turn),
    }
}

/// Returns the action that is done: the one that is answered, or else the key table's.
pub fn done<'a>(
    _event: &InputEvent,
    action: Option<&'a Action>,
    default: Option<&'a Action>,
) -> Option<&'a Action>
    requires { lent_action default ≡ action_of (event_view _event.now) }
    ensures { lent_action result ≡ or_default (lent_action action.entry) (event_view _event.now) }
{
    action.or(default)
}

/// What becomes of an action.
#[derive(Clone, Copy, Debug, PartialEq, Eq)]
pub enum Verdict {
    /// It is done.
    Passes,
    /// A row begins in its place.
    Opens,
    /// Nothing is done, and the line is kept.
    Keeps,
    /// Nothing is done: a search finds no line.
    Fails,
}

/// Returns what becomes of an action, by what becomes of accepting the line. `lines` is true if the editor searches, or
/// has lines to search.
fn verdict_on(accepting: Verdict, lines: bool, action: Option<&Action>) -> Verdict
    ensures { result ≡ verdict_on accepting lines (lent_action action.entry) }
{
    match action {
        Some(Action::AcceptLine) => accepting,
        Some(Action::HistoryIncSearchBackwards | Action::HistoryIncSearchForwards) if !lines => {
            Verdict::Fails
        }
        _ => Verdict::Passes,
    }
}

/// Judges an action, or else the key table's. Returns what becomes of it, and the action in its place.
pub fn judged(
    accepting: Verdict,
    lines: bool,
    event: &InputEvent,
    action: Option<Action>,
    default: Option<&Action>,
) -> (Verdict, Option<Action>)
    requires { lent_action default ≡ action_of (event_view event.now) }
    ensures verdict { let answer =
        or_default (option_map action_view action) (event_view event.now) in
        result.0 ≡ verdict_on accepting lines answer }
    ensures action { option_map action_view result.1
        ≡ said result.0 (option_map action_view action) }
{
    let verdict = verdict_on(accepting, lines, done(event, action.as_ref(), default));
    let action = match verdict {
        Verdict::Passes => action,
        Verdict::Opens => Some(Action::InsertChar(1, '\n')),
        Verdict::Keeps | Verdict::Fails => Some(Action::NoAction),
    };
    (verdict, action)
}

/// Returns true if the pattern of a search fails after an event: `after`, or if the host has an action of its own, by
/// what becomes of accepting the pattern before.
pub fn failing_by(own: &Option<Action>, before: Verdict, after: bool) -> bool
    ensures { result ≡ failing_by (option_map action_view own.now) before after }
{
    match own {
        Some(_) => before == Verdict::Fails,
        None => after,
    }
}

/// Returns the action of an edit, or else the key table's.
pub fn chosen<'a, K: KeyPart>(
    _event: &InputEvent,
    edit: &'a Option<Edit<Option<K::Note>>>,
    default: Option<&'a Action>,
) -> Option<&'a Action>
    requires { lent_action default ≡ action_of (event_view _event.now) }
    ensures { let edited = option_map (edit_view (option_map K.kept)) edit.now in
        lent_action result ≡ or_default (edit_action edited) (event_view _event.now) }
{
    match edit {
        Some(edit) => Some(&edit.action),
        None => default,
    }
}
