//! Parts with keys.

ghost use Rattle.std.specs.Prelude.{◌≡◌, IfOk, None, OnOk, Some, option_map};
ghost use Rattle.tw_key_parts.specs.EditView.{asked_view, edit_view, step_view};

use crate::edit::EditResult;
use std::alloc::{AllocError, Global};
use tw_host::Action;
use tw_input::InputEvent;
use tw_line::{History, LineEditBuffer};

/// What a part is asked about.
#[derive(Debug, Drop)]
pub struct Asked<'a, L> {
    /// The event.
    pub event: &'a InputEvent,
    /// True if the editor searches.
    pub searching: bool,
    /// The history.
    pub history: &'a L,
    /// The line, or the pattern of a search.
    pub line: &'a LineEditBuffer,
}

/// What came of an event.
#[derive(Debug, Drop)]
pub struct Step<'a> {
    /// The event.
    pub event: &'a InputEvent,
    /// True if the editor searched.
    pub searching: bool,
    /// The line before the event.
    pub before: &'a LineEditBuffer,
    /// The line on which `action` is done.
    pub after: &'a LineEditBuffer,
    /// The action that follows.
    pub action: Option<&'a Action>,
}

/// A part with keys. At each event a prompt calls `edit`, then `prepare`, and then `follow_own` if the edit was done, or
/// else `follow`, whoever answered the event. The rules `keys` are functions of the part's `state`; contracts see
/// nothing else of a part.
pub trait KeyPart {
    ghost use Rattle.tw_key_parts.specs.KeyRules.{KeyRules};
    ghost use Rattle.tw_line.specs.Cut.{Cut};

    /// What the part keeps of its own edit.
    type Note: Drop;

    ghost State: { Type 0 };

    ghost Kept: { Type 0 };

    ghost state: { Self → State };

    ghost kept: { Self.Note → Kept };

    ghost keys: { KeyRules State Kept };

    ghost is_ready: { Self → Cut → Type 0 };

    /// Returns the edit of an event, if it is one of the keys.
    fn edit<L: History>(&self, alloc: Global, asked: &Asked<'_, L>) -> EditResult<Self::Note>
        ensures { IfOk result (λ edit. option_map (edit_view kept) edit
            ≡ keys.edits (state self.now) (asked_view L.lines asked.now)) };

    /// Reserves the memory that following needs.
    fn prepare(&mut self, alloc: Global, line: &LineEditBuffer) -> Result<(), AllocError>
        ensures state { state self.new ≡ state self.old }
        ensures ready { OnOk result (is_ready self.new line.now) };

    /// Follows an event that another answered.
    fn follow(&mut self, alloc: Global, step: &Step<'_>)
        requires ready { is_ready self.old step.now.before.now }
        ensures { state self.new ≡ keys.follows (state self.old) None (step_view step.now) };

    /// Follows its own edit.
    fn follow_own(&mut self, alloc: Global, note: Self::Note, step: &Step<'_>)
        requires ready { is_ready self.old step.now.before.now }
        ensures { state self.new
            ≡ keys.follows (state self.old) (Some (kept note)) (step_view step.now) };

    /// Resets the state that belongs to one line.
    fn leave_line(&mut self)
        ensures { state self.new ≡ keys.leaves (state self.old) };
}

/// Lets a part follow an event: with a `note` if the edit was its own.
pub fn follow_event<K: KeyPart>(part: &mut K, alloc: Global, note: Option<K::Note>, step: &Step<'_>)
    requires ready { K.is_ready part.old step.now.before.now }
    ensures { K.state part.new
        ≡ K.keys.follows (K.state part.old) (option_map K.kept note) (step_view step.now) }
{
    match note {
        Some(note) => part.follow_own(alloc, note, step),
        None => part.follow(alloc, step),
    }
}
