//! Whether the editor searches.

ghost use Rattle.std.specs.Prelude.{◌≡◌};
ghost use Rattle.tw_key_parts.specs.EditView.{lent_action};
ghost use Rattle.tw_key_parts.specs.SearchWatch.{has_lines, searches_after};

use tw_host::Action;
use tw_line::History;

/// Returns true if the editor searches after an action. A search begins only if the history has lines.
pub fn searches_after(lines: bool, action: Option<&Action>, before: bool) -> bool
    ensures { result ≡ searches_after lines (lent_action action.entry) before }
{
    match action {
        Some(Action::HistoryIncSearchBackwards | Action::HistoryIncSearchForwards) => {
            before || lines
        }
        Some(
            Action::Move(_)
            | Action::Complete
            | Action::AcceptLine
            | Action::Cancel
            | Action::EndOfFile,
        ) => false,
        _ => before,
    }
}

/// Returns true if a history has lines.
pub fn is_filled<L: History>(history: &L) -> bool
    ensures { result ≡ has_lines (L.lines history.now) }
{
    history.last().is_some()
}
