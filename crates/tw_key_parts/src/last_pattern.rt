//! The pattern of the last search.

ghost use Rattle.std.specs.Prelude.{◌≡◌, [], string_bytes};
ghost use Rattle.tw_input.specs.EventView.{event_view};
ghost use Rattle.tw_key_parts.specs.LastPattern.{is_search_key};

use crate::edit::{Edit, EditResult};
use crate::keys::{is_key, key_of};
use crate::part::{Asked, KeyPart, Step};
use crate::watch::searches_after;
use std::alloc::{AllocError, Global};
use tw_host::Action;
use tw_input::{InputEvent, Modifiers};
use tw_line::{History, LineEditBuffer};

/// Ctrl-R or Ctrl-S in a search without a pattern takes the pattern of the search before. It is kept over all lines.
#[derive(Debug, Drop)]
pub struct LastPattern {
    pattern: String,
    spare: String,
}

impl LastPattern {
    /// Creates the part without a pattern.
    pub fn new(alloc: Global) -> Self
        ensures { string_bytes result.pattern ≡ [] }
    {
        LastPattern {
            pattern: String::new(alloc),
            spare: String::new(alloc),
        }
    }
}

/// Returns true for Ctrl-R and Ctrl-S.
fn is_search_key(event: &InputEvent) -> bool
    ensures { result ≡ is_search_key (event_view event.now) }
{
    is_key(key_of(Modifiers::CTRL, 'R'), event) || is_key(key_of(Modifiers::CTRL, 'S'), event)
}

impl KeyPart for LastPattern {
    ghost use Rattle.std.specs.Prelude.{◌≡◌, List, ℕ, string_bytes};
    ghost use Rattle.tw_key_parts.specs.LastPattern.{last_pattern_rules};

    type Note = ();

    ghost State = { List ℕ };

    ghost Kept = { Unit {0} };

    ghost state = { λ it. string_bytes it.pattern };

    ghost kept = { λ note. note };

    ghost keys = { last_pattern_rules };

    ghost is_ready = { λ it cut. string_bytes it.spare ≡ cut.line };

    fn edit<L: History>(&self, alloc: Global, asked: &Asked<'_, L>) -> EditResult<()> {
        let is_empty = asked.line.get_line().is_empty();
        if !asked.searching || !is_empty || !is_search_key(asked.event) || self.pattern.is_empty() {
            return Ok(None);
        }
        Ok(Some(Edit {
            line: None,
            action: Action::InsertText(1, String::from_str(alloc, self.pattern.as_str())?),
            note: (),
        }))
    }

    fn prepare(&mut self, alloc: Global, line: &LineEditBuffer) -> Result<(), AllocError> {
        self.spare = String::from_str(alloc, line.get_line())?;
        Ok(())
    }

    fn follow(&mut self, alloc: Global, step: &Step<'_>) {
        let goes_on = searches_after(true, step.action, true);
        if step.searching && !goes_on && !step.before.get_line().is_empty() {
            self.pattern = std::mem::replace(&mut self.spare, String::new(alloc));
        }
    }

    fn follow_own(&mut self, alloc: Global, _note: (), step: &Step<'_>) {
        self.follow(alloc, step);
    }

    fn leave_line(&mut self) {}
}
