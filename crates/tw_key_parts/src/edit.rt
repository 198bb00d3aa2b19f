//! The edit of a part.

ghost use Rattle.std.specs.Prelude.{◌≡◌, option_map};
ghost use Rattle.tw_host.specs.ActionView.{action_view};
ghost use Rattle.tw_key_parts.specs.EditView.{edit_view};
ghost use Rattle.tw_key_parts.specs.KeyRules.{in_place, shown};

use std::alloc::AllocError;
use tw_host::Action;
use tw_line::LineEditBuffer;

/// What a part does at an event.
#[derive(Debug, Drop)]
pub struct Edit<N> {
    /// Replaces the line, if it is `Some`.
    pub line: Option<LineEditBuffer>,
    /// The action on that line.
    pub action: Action,
    /// What the part keeps of it.
    pub note: N,
}

/// The edit of an event, if it has one. Fails for memory.
pub type EditResult<N> = Result<Option<Edit<N>>, AllocError>;

/// Returns the edit that shows a line. It types nothing, which ends a completion.
pub fn shown<N>(line: LineEditBuffer, note: N) -> Edit<N>
    ensures { edit_view (λ note. note) result ≡ shown line note }
{
    Edit {
        line: Some(line),
        action: Action::InsertChar(0, ' '),
        note,
    }
}

/// Returns an action as an edit that leaves the line.
pub fn in_place<N: Drop>(action: Option<Action>, note: N) -> Option<Edit<N>>
    ensures { option_map (edit_view (λ note. note)) result
        ≡ in_place (option_map action_view action) note }
{
    action.map(|action| Edit {
        line: None,
        action,
        note,
    })
}
