//! The kill ring.

ghost use Rattle.std.specs.Prelude.{◌≡◌, ◌≤◌, ◌+◌, ◌<◌, ◌-◌, [], false, length, map, IfOk, option_map, string_bytes};
ghost use Rattle.std.specs.String.{string_capacity};
ghost use Rattle.std.specs.Vec.{vec_capacity, vec_len};
ghost use Rattle.tw_input.specs.EventView.{event_view};
ghost use Rattle.tw_key_parts.specs.EditView.{edit_view, lent_action};
ghost use Rattle.tw_key_parts.specs.declared.ring.Latest.TheVariants as Latest;
ghost use Rattle.tw_key_parts.specs.Ring.{index_below, is_same_cut, killing, newest_kill, ring_view, rotated, taken_out, with_killed, yank_edit, yank_of};

use crate::edit::{Edit, EditResult};
use crate::keys::{deletes_character, is_key, key_of};
use crate::part::{Asked, KeyPart, Step};
use std::alloc::{AllocError, Global};
use tw_host::Action;
use tw_input::{InputEvent, Modifiers};
use tw_line::{History, LineEditBuffer, Movement};

/// The number of kills that are kept.
const MOST_KILLS: usize = 10;

/// The last edit.
#[derive(Clone, Copy, Debug, PartialEq, Eq)]
pub enum Latest {
    /// A kill: the next one joins it.
    Kill,
    /// A yank of the kill with this index: another one can replace it.
    Yank(usize),
    /// Any other.
    Other,
}

/// A kill ring: Ctrl-Y inserts the newest kill, and Alt-y right after it, or after another Alt-y, replaces it by the
/// kill before, and after the oldest one by the newest.
///
/// Every kill goes into the ring, except those of the keys that delete a character: Delete, Backspace, Ctrl-H and
/// Ctrl-D. Consecutive kills join. The ring keeps ten kills, over all lines. A change of the line by the application's
/// host is no kill.
#[derive(Debug, Drop)]
pub struct KillRing {
    kills: Vec<String>,
    latest: Latest,
    spare: String,
    probe: LineEditBuffer,
}

/// Returns true if two lines are the same, with their cursors.
pub fn is_same_cut(line: &LineEditBuffer, other: &LineEditBuffer) -> bool
    ensures { result ≡ is_same_cut line.now other.now }
{
    line.get_line() == other.get_line() && line.get_cursor() == other.get_cursor()
}

/// Returns how far the action of an event kills, unless its key deletes a character.
fn killing(event: &InputEvent, action: Option<&Action>) -> Option<Movement>
    ensures { result ≡ killing (event_view event.now) (lent_action action.entry) }
{
    match action {
        Some(Action::Kill(movement) | Action::KillAndMove(movement, _))
            if !deletes_character(event) => { Some(*movement) }
        _ => None,
    }
}

/// Removes a text before the cursor, if it is there.
#[tactic(auto, using(std::proofs::lemmas::Str::Pattern::ends_text))]
fn taken_out(
    alloc: Global,
    text: &str,
    editor: &LineEditBuffer,
) -> Result<Option<LineEditBuffer>, AllocError>
    ensures { IfOk result (λ line. line ≡ taken_out editor.now text.now) }
{
    let (before, behind) = editor.get_line().split_at(editor.get_cursor());
    if !before.ends_with(text) {
        return Ok(None);
    }
    let (rest, _) = before.split_at(before.len() - text.len());
    let mut line = LineEditBuffer::new(alloc, behind, 0)?;
    line.insert_text(rest)?;
    Ok(Some(line))
}

impl KillRing {
    /// Creates an empty ring.
    pub fn new(alloc: Global) -> Self
        ensures { ring_view result ≡ record { kills = []; latest = Latest.Other } }
    {
        KillRing {
            kills: Vec::new(alloc),
            latest: Latest::Other,
            spare: String::new(alloc),
            probe: LineEditBuffer::empty(alloc),
        }
    }

    /// Joins a kill to the newest one if that was the last edit. Otherwise adds it, and drops the oldest one if there
    /// are ten. An empty kill is none.
    fn take_in(&mut self, ahead: bool, killed: &str, mut text: String)
        requires empty { string_bytes text ≡ [] }
        requires text { length (newest_kill (map string_bytes self.old.kills.items))
            + length killed.now ≤ string_capacity text }
        requires kills { vec_len self.old.kills < vec_capacity self.old.kills }
        ensures { ring_view self.new ≡ with_killed ahead killed.now (ring_view self.old) }
    {
        match (killed.is_empty(), self.latest) {
            (true, Latest::Kill) => {}
            (true, _) => self.latest = Latest::Other,
            (false, Latest::Kill) => {
                let newest = self.kills.pop();
                let newest = newest.as_ref().map_or("", |newest| newest.as_str());
                let (front, back) = if ahead {
                    (newest, killed)
                } else {
                    (killed, newest)
                };
                text.push_str(front).unwrap();
                text.push_str(back).unwrap();
                self.kills.push(text).unwrap();
            }
            (false, _) => {
                text.push_str(killed).unwrap();
                if self.kills.len() >= MOST_KILLS {
                    let _oldest = self.kills.remove(0);
                }
                self.kills.push(text).unwrap();
                self.latest = Latest::Kill;
            }
        }
    }

    /// Yanks the kill with an index into a line.
    fn yank(&self, alloc: Global, index: usize, line: LineEditBuffer) -> EditResult<usize>
        ensures { IfOk result (λ edit. option_map (edit_view (λ index. index)) edit
            ≡ option_map yank_edit (yank_of (map string_bytes self.now.kills.items) index line)) }
    {
        let Some(kill) = self.kills.get(index) else {
            return Ok(None);
        };
        let text = String::from_str(alloc, kill.as_str())?;
        Ok(Some(Edit {
            line: Some(line),
            action: Action::InsertText(1, text),
            note: index,
        }))
    }

    /// Returns the index before another one; before the first one it is the last.
    fn index_below(&self, index: usize) -> usize
        ensures { result ≡ index_below (map string_bytes self.now.kills.items) index }
    {
        index
            .checked_sub(1)
            .unwrap_or(self.kills.len().saturating_sub(1))
    }

    /// Replaces the last yank by the kill before.
    fn rotate(&self, alloc: Global, editor: &LineEditBuffer) -> EditResult<usize>
        ensures { IfOk result (λ edit. option_map (edit_view (λ index. index)) edit
            ≡ option_map yank_edit
            (rotated (map string_bytes self.now.kills.items) self.now.latest editor.now)) }
    {
        let Latest::Yank(index) = self.latest else {
            return Ok(None);
        };
        let Some(kill) = self.kills.get(index) else {
            return Ok(None);
        };
        match taken_out(alloc, kill.as_str(), editor)? {
            Some(line) => self.yank(alloc, self.index_below(index), line),
            None => Ok(None),
        }
    }
}

impl KeyPart for KillRing {
    ghost use Rattle.std.specs.Prelude.{ℕ};
    ghost use Rattle.tw_key_parts.specs.Ring.{IsReady, Ring, ring_key_rules, ring_view};

    type Note = usize;

    ghost State = { Ring };

    ghost Kept = { ℕ };

    ghost state = { ring_view };

    ghost kept = { λ index. index };

    ghost keys = { ring_key_rules };

    ghost is_ready = { IsReady };

    fn edit<L: History>(&self, alloc: Global, asked: &Asked<'_, L>) -> EditResult<usize> {
        if asked.searching {
            return Ok(None);
        }
        if is_key(key_of(Modifiers::CTRL, 'Y'), asked.event) {
            let newest = self.kills.len().saturating_sub(1);
            self.yank(alloc, newest, asked.line.try_clone(alloc)?)
        } else if is_key(key_of(Modifiers::ALT, 'y'), asked.event) {
            self.rotate(alloc, asked.line)
        } else {
            Ok(None)
        }
    }

    fn prepare(&mut self, alloc: Global, line: &LineEditBuffer) -> Result<(), AllocError> {
        self.kills.reserve(1)?;
        let newest = self.kills.last().map_or(0, |newest| newest.len());
        self.spare.clear();
        self.spare.reserve(newest + line.get_line().len())?;
        self.probe = line.try_clone(alloc)?;
        Ok(())
    }

    fn follow(&mut self, alloc: Global, step: &Step<'_>) {
        if step.searching || !is_same_cut(step.before, step.after) {
            self.latest = Latest::Other;
            return;
        }
        let Some(movement) = killing(step.event, step.action) else {
            self.latest = Latest::Other;
            return;
        };
        let text = std::mem::replace(&mut self.spare, String::new(alloc));
        let mut line = std::mem::replace(&mut self.probe, LineEditBuffer::empty(alloc));
        let from = line.get_cursor();
        line.exec_movement(movement);
        let to = line.get_cursor();
        let killed = &line.get_line()[from.min(to)..from.max(to)];
        self.take_in(from < to, killed, text);
    }

    fn follow_own(&mut self, _alloc: Global, index: usize, _step: &Step<'_>) {
        self.latest = Latest::Yank(index);
    }

    fn leave_line(&mut self) {
        self.latest = Latest::Other;
    }
}
