//! What the editor can be asked to do.

ghost use Rattle.std.specs.Prelude.{◌≡◌};
ghost use Rattle.tw_host.specs.ActionView.{action_view, ends_line};

use tw_line::{Movement, RepeatCount};

/// What the editor does at an event.
#[derive(Debug, Drop)]
pub enum Action {
    /// Ends the editing, with the line as the answer.
    AcceptLine,
    /// Ends the editing, with no line as the answer.
    Cancel,
    /// Ends the editing with `Error::EndOfFile`.
    EndOfFile,
    /// Inserts a character at the cursor, the given number of times.
    InsertChar(RepeatCount, char),
    /// Inserts a text at the cursor, the given number of times.
    InsertText(RepeatCount, String),
    /// Clears the screen, and paints the editor anew.
    Repaint,
    /// Moves the cursor.
    Move(Movement),
    /// Removes what lies between the cursor and the place where the movement leads. The cursor goes there.
    Kill(Movement),
    /// Removes what lies between the cursor and the place where the first movement leads. The cursor goes to
    /// the greatest boundary of what is left that is not above the place where the second leads in the old
    /// line.
    KillAndMove(Movement, Movement),
    /// Takes the line before in the history, and keeps the typed line; while searching, searches backwards.
    HistoryPrevious,
    /// Takes the next line of the history, and after the last one the typed line; while searching, searches
    /// forwards.
    HistoryNext,
    /// Puts in the host's first completion candidate, or instead of one that was put in the next one; leaves a
    /// search.
    Complete,
    /// Does nothing.
    NoAction,
    /// Begins a search of the history, or goes on with it, to older lines.
    HistoryIncSearchBackwards,
    /// Begins a search of the history, or goes on with it, to newer lines.
    HistoryIncSearchForwards,
}

impl Action {
    /// Returns true for `AcceptLine`, `Cancel` and `EndOfFile`.
    pub fn ends_line(&self) -> bool
        ensures { result ≡ ends_line (action_view self.now) }
    {
        matches!(
            self,
            Action::AcceptLine | Action::Cancel | Action::EndOfFile,
        )
    }
}
