//! What was recalled of a history last.

ghost use Rattle.std.specs.Prelude.{◌≡◌, IfOk, option_map};
ghost use Rattle.tw_key_parts.specs.Recalled.{line_before_recall, older_index};

use std::alloc::{AllocError, Global};
use tw_line::{History, LineEditBuffer, SearchDirection};

/// What was recalled last.
#[derive(Debug, Drop)]
pub struct Recalled {
    /// The line before it.
    pub before: LineEditBuffer,
    /// The index of its line in the history.
    pub index: usize,
}

/// Returns the line before what was recalled last, or else the line itself.
pub fn line_before_recall(
    alloc: Global,
    recalled: Option<&Recalled>,
    editor: &LineEditBuffer,
) -> Result<LineEditBuffer, AllocError>
    ensures { IfOk result (λ line. line
        ≡ line_before_recall (option_map (λ recalled. recalled.now) recalled.entry)
        editor.now) }
{
    let line = recalled.map_or(editor, |recalled| &recalled.before);
    line.try_clone(alloc)
}

/// Returns the index of the next older line: before the one that was recalled last, or else the last line.
pub fn older_index<L: History>(recalled: Option<&Recalled>, history: &L) -> Option<usize>
    ensures { result ≡ older_index
        (option_map (λ recalled. recalled.now) recalled.entry)
        (L.lines history.now) }
{
    match recalled {
        Some(recalled) => SearchDirection::Backwards.next(recalled.index),
        None => history.last(),
    }
}
