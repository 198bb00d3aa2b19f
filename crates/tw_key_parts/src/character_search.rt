//! A search for a character of the line.

ghost use Rattle.std.specs.Prelude.{◌≡◌, ◌<◌, IfOk, None, drop, length};
ghost use Rattle.tw_input.specs.EventView.{event_view};
ghost use Rattle.tw_key_parts.specs.CharacterSearch.{begins_with_character, search_way, steps_to_character};

use crate::edit::{Edit, EditResult};
use crate::keys::{is_key, key_of};
use crate::part::{Asked, KeyPart, Step};
use crate::steps::{Way, cluster_steps};
use bitflags::Flags;
use std::alloc::{AllocError, Global};
use tw_host::{Action, default_action};
use tw_input::{InputEvent, Modifiers};
use tw_line::{History, LineEditBuffer};

/// Ctrl-] and a character move to the next grapheme cluster that begins with it, Alt-Ctrl-] and a character to the one
/// before. If there is none the cursor stays. They have no action during a search of the history.
#[derive(Debug, Drop)]
pub struct CharacterSearch {
    way: Option<Way>,
}

impl CharacterSearch {
    /// Creates the part with no search.
    pub fn new() -> Self
        ensures { result.way ≡ None }
    {
        CharacterSearch { way: None }
    }
}

/// Returns the way of a search that an event begins.
fn search_way(event: &InputEvent) -> Option<Way>
    ensures { result ≡ search_way (event_view event.now) }
{
    let both = Modifiers::from_bits_retain(Modifiers::CTRL.bits() | Modifiers::ALT.bits());
    if is_key(key_of(Modifiers::CTRL, ']'), event) {
        Some(Way::Ahead)
    } else if is_key(key_of(both, ']'), event) {
        Some(Way::Back)
    } else {
        None
    }
}

/// Returns true if this character stands at the cursor.
fn is_at_character(c: char, editor: &LineEditBuffer) -> bool
    ensures { result ≡ begins_with_character c (drop editor.now.cursor editor.now.line) }
{
    let rest = &editor.get_line()[editor.get_cursor()..];
    rest.chars().next().is_some_and(|first| first == c)
}

/// Returns the least number of steps, 1 or more, that lead to this character.
#[tactic(auto, using(crate::proofs::StepLemmas::walks))]
fn steps_to_character(
    alloc: Global,
    way: Way,
    c: char,
    editor: &LineEditBuffer,
) -> Result<Option<usize>, AllocError>
    ensures { IfOk result (λ count. count ≡ steps_to_character way c editor.now) }
{
    let mut at = editor.try_clone(alloc)?;
    at.exec_movement(cluster_steps(way, 1));
    let end = editor.get_line().len() + 1;
    for count in 1..end {
        if is_at_character(c, &at) {
            return Ok(Some(count));
        }
        at.exec_movement(cluster_steps(way, 1));
    }
    Ok(None)
}

impl KeyPart for CharacterSearch {
    ghost use Rattle.std.specs.Prelude.{Option};
    ghost use Rattle.tw_key_parts.specs.CharacterSearch.{character_search_rules};
    ghost use Rattle.tw_key_parts.specs.declared.steps.Way.{Way};

    type Note = ();

    ghost State = { Option Way };

    ghost Kept = { Unit {0} };

    ghost state = { λ it. it.way };

    ghost kept = { λ note. note };

    ghost keys = { character_search_rules };

    ghost is_ready = { λ it cut. Unit {0} };

    fn edit<L: History>(&self, alloc: Global, asked: &Asked<'_, L>) -> EditResult<()> {
        if asked.searching {
            return Ok(None);
        }
        let Some(way) = self.way else {
            return Ok(None);
        };
        let Some(Action::InsertChar(_, c)) = default_action(alloc, asked.event)? else {
            return Ok(None);
        };
        let action = match steps_to_character(alloc, way, c, asked.line)? {
            Some(count) => Action::Move(cluster_steps(way, count)),
            None => Action::NoAction,
        };
        Ok(Some(Edit {
            line: None,
            action,
            note: (),
        }))
    }

    fn prepare(&mut self, _alloc: Global, _line: &LineEditBuffer) -> Result<(), AllocError> {
        Ok(())
    }

    fn follow(&mut self, _alloc: Global, step: &Step<'_>) {
        self.way = match (step.event, step.action) {
            (InputEvent::Key(_), None) => search_way(step.event),
            (InputEvent::Resized { .. } | InputEvent::Wake, None) => self.way,
            _ => None,
        };
    }

    fn follow_own(&mut self, _alloc: Global, _note: (), _step: &Step<'_>) {
        self.way = None;
    }

    fn leave_line(&mut self) {
        self.way = None;
    }
}
