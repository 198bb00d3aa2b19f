//! Keys without a state.

ghost use Rattle.std.specs.Prelude.{◌≡◌, IfOk, option_map};
ghost use Rattle.tw_key_parts.specs.EditView.{asked_view, edit_view};

use crate::edit::EditResult;
use crate::part::{Asked, KeyPart, Step};
use std::alloc::{AllocError, Global};
use tw_line::{History, LineEditBuffer};

/// Keys without a state: each edit is a function of the event, the line and the history.
pub trait PlainKeys {
    ghost use Rattle.std.specs.Prelude.{Option};
    ghost use Rattle.tw_key_parts.specs.KeyRules.{Asked, Edited};

    ghost edits: { Asked → Option (Edited (Unit {0})) };

    /// Returns the edit of an event, if it is one of the keys.
    fn edit<L: History>(&self, alloc: Global, asked: &Asked<'_, L>) -> EditResult<()>
        ensures { IfOk result (λ edit. option_map (edit_view (λ note. note)) edit
            ≡ edits (asked_view L.lines asked.now)) };
}

/// Plain keys as a part.
#[derive(Debug, Drop)]
pub struct Keys<K>(pub K);

impl<K: PlainKeys> KeyPart for Keys<K> {
    ghost use Rattle.tw_key_parts.specs.KeyRules.{plain_key_rules};

    type Note = ();

    ghost State = { Unit {0} };

    ghost Kept = { Unit {0} };

    ghost state = { λ it. tt };

    ghost kept = { λ note. note };

    ghost keys = { plain_key_rules K.edits };

    ghost is_ready = { λ it cut. Unit {0} };

    fn edit<L: History>(&self, alloc: Global, asked: &Asked<'_, L>) -> EditResult<()> {
        self.0.edit(alloc, asked)
    }

    fn prepare(&mut self, _alloc: Global, _line: &LineEditBuffer) -> Result<(), AllocError> {
        Ok(())
    }

    fn follow(&mut self, _alloc: Global, _step: &Step<'_>) {}

    fn follow_own(&mut self, _alloc: Global, _note: (), _step: &Step<'_>) {}

    fn leave_line(&mut self) {}
}
