//! Undo.

ghost use Rattle.std.specs.Prelude.{◌≡◌, ◌<◌, IfOk, IfSome, None, length, option_map};
ghost use Rattle.tw_input.specs.EventView.{event_view};
ghost use Rattle.tw_key_parts.specs.EditView.{edit_view, lent_action};
ghost use Rattle.tw_key_parts.specs.KeyRules.{shown};
ghost use Rattle.tw_key_parts.specs.Undo.{begins_step, is_redo, is_undo, last_change, last_undone, no_steps, undo_view};

use crate::edit::{EditResult, shown};
use crate::keys::{is_key, key_of};
use crate::part::{Asked, KeyPart, Step};
use std::alloc::{AllocError, Global};
use tw_host::Action;
use tw_input::{InputEvent, Modifiers};
use tw_line::{History, LineEditBuffer};

/// Ctrl-_ undoes the last step: it restores the line before it, with its cursor. So does Ctrl-X Ctrl-U, if this part
/// stands before any other with Ctrl-U.
///
/// A run of typed characters is one step, and so are a kill, a paste, a completion, a step through the history, and a
/// search. A movement ends a run. Steps that left the line as it was are skipped. The end of a line drops its steps.
///
/// Alt-_, or Ctrl-X Ctrl-_, redoes what was undone last, as long as no step followed.
#[derive(Debug, Drop)]
pub struct UndoSteps {
    before: Vec<LineEditBuffer>,
    undone: Vec<LineEditBuffer>,
    typing: bool,
    prefixed: bool,
    spare: LineEditBuffer,
}

/// Returns true if a step begins: an edit that does not continue a run of typing, or a change of the line.
fn begins_step(action: Option<&Action>, is_same: bool, typing: bool) -> bool
    ensures { result ≡ begins_step (lent_action action.entry) is_same typing }
{
    match action {
        Some(Action::InsertChar(_, _)) => !(typing && is_same),
        Some(
            Action::InsertText(_, _)
            | Action::Kill(_)
            | Action::KillAndMove(_, _)
            | Action::HistoryPrevious
            | Action::HistoryNext
            | Action::Complete
            | Action::HistoryIncSearchBackwards
            | Action::HistoryIncSearchForwards,
        ) => true,
        _ => !is_same,
    }
}

impl UndoSteps {
    /// Creates the part without steps.
    pub fn new(alloc: Global) -> Self
        ensures { undo_view result ≡ no_steps }
    {
        UndoSteps {
            before: Vec::new(alloc),
            undone: Vec::new(alloc),
            typing: false,
            prefixed: false,
            spare: LineEditBuffer::empty(alloc),
        }
    }

    /// Returns true for Ctrl-_, and for Ctrl-U right after Ctrl-X.
    fn is_undo(&self, event: &InputEvent) -> bool
        ensures { result ≡ is_undo (undo_view self.now) (event_view event.now) }
    {
        is_key(key_of(Modifiers::CTRL, '_'), event)
            || (self.prefixed && is_key(key_of(Modifiers::CTRL, 'U'), event))
    }

    /// Returns true for Alt-_, and for Ctrl-_ right after Ctrl-X.
    fn is_redo(&self, event: &InputEvent) -> bool
        ensures { result ≡ is_redo (undo_view self.now) (event_view event.now) }
    {
        is_key(key_of(Modifiers::ALT, '_'), event)
            || (self.prefixed && is_key(key_of(Modifiers::CTRL, '_'), event))
    }

    /// Returns the edit of a redo, if anything was undone.
    fn redo(&self, alloc: Global) -> EditResult<Option<usize>>
        ensures { IfOk result (λ edit. option_map (edit_view (λ note. note)) edit
            ≡ option_map (λ cut. shown cut None) (last_undone (undo_view self.now))) }
    {
        match self.undone.last() {
            Some(line) => Ok(Some(shown(line.try_clone(alloc)?, None))),
            None => Ok(None),
        }
    }

    /// Returns the index of the last step that changed the line.
    #[tactic(auto, using(std::proofs::lemmas::List::get_or_read, crate::proofs::UndoLemmas::greatest_steps))]
    fn last_change(&self, line: &LineEditBuffer) -> Option<usize>
        ensures index { result ≡ last_change line.now.line self.now.before.items }
        ensures inside { IfSome result (λ at. at < length self.now.before.items) }
    {
        for at in (0..self.before.len()).rev() {
            if self.before[at].get_line() != line.get_line() {
                return Some(at);
            }
        }
        None
    }
}

impl KeyPart for UndoSteps {
    ghost use Rattle.std.specs.Prelude.{◌≡◌, ◌<◌, ℕ, Option};
    ghost use Rattle.std.specs.Vec.{vec_capacity, vec_len};
    ghost use Rattle.tw_key_parts.specs.Undo.{Undo, undo_key_rules, undo_view};

    type Note = Option<usize>;

    ghost State = { Undo };

    ghost Kept = { Option ℕ };

    ghost state = { undo_view };

    ghost kept = { λ turn. turn };

    ghost keys = { undo_key_rules };

    ghost is_ready = { λ it cut. (it.spare ≡ cut) × (vec_len it.before < vec_capacity it.before)
        × (vec_len it.undone < vec_capacity it.undone) };

    #[tactic(auto, using(std::proofs::lemmas::List::get_or_read))]
    fn edit<L: History>(&self, alloc: Global, asked: &Asked<'_, L>) -> EditResult<Option<usize>> {
        if asked.searching {
            return Ok(None);
        }
        if self.is_redo(asked.event) {
            return self.redo(alloc);
        }
        if !self.is_undo(asked.event) {
            return Ok(None);
        }
        let (left, undone) = match self.last_change(asked.line) {
            Some(at) => (at, &self.before[at]),
            None => (0, asked.line),
        };
        Ok(Some(shown(undone.try_clone(alloc)?, Some(left))))
    }

    fn prepare(&mut self, alloc: Global, line: &LineEditBuffer) -> Result<(), AllocError> {
        self.before.reserve(1)?;
        self.undone.reserve(1)?;
        self.spare = line.try_clone(alloc)?;
        Ok(())
    }

    fn follow(&mut self, alloc: Global, step: &Step<'_>) {
        let action = step.action;
        let is_same = !step.searching && step.before.get_line() == step.after.get_line();
        let begins = begins_step(action, is_same, self.typing);
        self.typing = is_same
            && match action {
                None | Some(Action::NoAction | Action::Repaint) => self.typing,
                Some(action) => matches!(action, Action::InsertChar(_, _)),
            };
        self.prefixed = action.is_none() && is_key(key_of(Modifiers::CTRL, 'X'), step.event);
        if action.is_some_and(Action::ends_line) {
            self.before.clear();
            self.undone.clear();
        } else if begins && !step.searching {
            self.undone.clear();
            let line = std::mem::replace(&mut self.spare, LineEditBuffer::empty(alloc));
            self.before.push(line).unwrap();
        }
    }

    fn follow_own(&mut self, alloc: Global, turn: Option<usize>, step: &Step<'_>) {
        let line = std::mem::replace(&mut self.spare, LineEditBuffer::empty(alloc));
        match turn {
            Some(left) => {
                self.before.truncate(left);
                if step.before.get_line() != step.after.get_line() {
                    self.undone.push(line).unwrap();
                }
            }
            None => {
                let left = self.undone.len().saturating_sub(1);
                self.undone.truncate(left);
                self.before.push(line).unwrap();
            }
        }
        self.typing = false;
        self.prefixed = false;
    }

    fn leave_line(&mut self) {
        self.before.clear();
        self.undone.clear();
        self.typing = false;
        self.prefixed = false;
    }
}
