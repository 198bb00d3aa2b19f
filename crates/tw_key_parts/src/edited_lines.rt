//! The lines of a history as they were left while a line is read.

ghost use Rattle.std.specs.Prelude.{◌≡◌, IfOk, map, option_map, string_bytes};
ghost use Rattle.tw_input.specs.EventView.{event_view};
ghost use Rattle.tw_line.specs.Cut.{at_end};
ghost use Rattle.tw_key_parts.specs.EditView.{edit_view};
ghost use Rattle.tw_key_parts.specs.EditedLines.{edit_left, edited_view, is_line_at, is_same_place, line_left, newest_index, newest_up_to, no_walk, original, place_led_to, text_at, walk_key, walk_place, walk_view, walked_by, walked_view};

use crate::edit::{Edit, EditResult, shown};
use crate::part::{Asked, KeyPart, Step};
use std::alloc::{AllocError, Global};
use tw_host::Action;
use tw_input::{InputEvent, KeyCode, Modifiers};
use tw_line::{History, LineEditBuffer, Movement};

/// A key that walks through the history, by the line that it shows.
#[derive(Clone, Copy, Debug, PartialEq, Eq)]
pub enum WalkKey {
    /// The next older line.
    Older,
    /// The next newer line.
    Newer,
    /// The line as the history has it.
    Original,
}

/// Returns the key of the walk that an event is, if it is one.
fn walk_key(event: &InputEvent) -> Option<WalkKey>
    ensures { result ≡ walk_key (event_view event.now) }
{
    let InputEvent::Key(press) = event else {
        return None;
    };
    match (press.modifiers, press.key) {
        (Modifiers::NONE, KeyCode::UpArrow | KeyCode::ApplicationUpArrow)
        | (Modifiers::CTRL, KeyCode::Char('P')) => Some(WalkKey::Older),
        (Modifiers::NONE, KeyCode::DownArrow | KeyCode::ApplicationDownArrow)
        | (Modifiers::CTRL, KeyCode::Char('N')) => Some(WalkKey::Newer),
        (Modifiers::ALT, KeyCode::Char('r')) => Some(WalkKey::Original),
        _ => None,
    }
}

/// A line that was left. Its place is its index, or `None` for the typed line.
#[derive(Debug, Drop)]
pub struct EditedLine {
    place: Option<usize>,
    text: String,
}

/// A step of the walk: where it leads, and the line that it left, if that was edited.
#[derive(Debug, Drop)]
pub struct WalkStep {
    to: Option<usize>,
    left: Option<EditedLine>,
}

/// Up and Down, Ctrl-P and Ctrl-N walk through the history, and show each line as it was left: an edited line comes
/// back with its edits while this line is read. Alt-r shows the line as the history has it. The history itself stays.
///
/// After a search the walk goes on from the newest line that is the one found, if it was not edited. The keys have no
/// action of the part during a search. Put `RowKeys` before it.
#[derive(Debug, Drop)]
pub struct EditedLines {
    place: Option<usize>,
    searched: bool,
    edited: Vec<EditedLine>,
}

/// Returns true if two places are the same.
fn is_same_place(place: Option<usize>, other: Option<usize>) -> bool
    ensures { result ≡ is_same_place place other }
{
    match (place, other) {
        (None, None) => true,
        (Some(place), Some(other)) => place == other,
        _ => false,
    }
}

/// Returns the line of a place as the history has it. The typed line was empty.
fn original<L: History>(
    alloc: Global,
    lines: &L,
    place: Option<usize>,
) -> Result<String, AllocError>
    ensures { IfOk result (λ line. string_bytes line ≡ original (L.lines lines.now) place) }
{
    let Some(index) = place else {
        return Ok(String::new(alloc));
    };
    match lines.get(alloc, index)? {
        Some(line) => String::from_str(alloc, line.as_str()),
        None => Ok(String::new(alloc)),
    }
}

/// Returns the text of the first of some lines that has a place.
fn text_at(edited: &[EditedLine], place: Option<usize>) -> Option<&str>
    ensures { option_map (λ text. text.now) result ≡ text_at edited.now place }
{
    let line = edited.iter().find(|line| is_same_place(line.place, place))?;
    Some(line.text.as_str())
}

/// Returns true if the line of an index is this one.
fn is_line_at<L: History>(
    alloc: Global,
    lines: &L,
    line: &str,
    index: usize,
) -> Result<bool, AllocError>
    ensures { IfOk result (λ same. same ≡ is_line_at (L.lines lines.now) line.now index) }
{
    let Some(other) = lines.get(alloc, index)? else {
        return Ok(false);
    };
    Ok(other.as_str() == line)
}

/// Returns the index of the newest line up to an index that is this one.
#[tactic(auto, using(crate::proofs::UndoLemmas::greatest_steps))]
fn newest_up_to<L: History>(
    alloc: Global,
    lines: &L,
    line: &str,
    from: usize,
) -> Result<Option<usize>, AllocError>
    ensures { IfOk result (λ index. index ≡ newest_up_to (L.lines lines.now) line.now from) }
{
    for index in (0..=from).rev() {
        if is_line_at(alloc, lines, line, index)? {
            return Ok(Some(index));
        }
    }
    Ok(None)
}

/// Returns the index of the newest line that is this one.
fn newest_index<L: History>(
    alloc: Global,
    lines: &L,
    line: &str,
) -> Result<Option<usize>, AllocError>
    ensures { IfOk result (λ index. index ≡ newest_index (L.lines lines.now) line.now) }
{
    match lines.last() {
        Some(last) => newest_up_to(alloc, lines, line, last),
        None => Ok(None),
    }
}

/// Returns the place to which a key leads, if there is one.
fn place_led_to<L: History>(key: WalkKey, lines: &L, place: Option<usize>) -> Option<Option<usize>>
    ensures { result ≡ place_led_to key (L.lines lines.now) place }
{
    match (key, place) {
        (WalkKey::Older, None) => lines.last().map(|last| Some(last)),
        (WalkKey::Older, Some(index)) => index.checked_sub(1).map(|index| Some(index)),
        (WalkKey::Newer, Some(index)) => match lines.last() {
            Some(last) if index < last => Some(Some(index + 1)),
            _ => Some(None),
        },
        (WalkKey::Newer, None) | (WalkKey::Original, _) => None,
    }
}

impl EditedLines {
    /// Creates the part with no line edited.
    pub fn new(alloc: Global) -> Self
        ensures { walk_view result ≡ no_walk }
    {
        EditedLines {
            place: None,
            searched: false,
            edited: Vec::new(alloc),
        }
    }

    /// Returns the line of a place as it was left.
    #[tactic(auto, using(crate::proofs::EditedLineLemmas::find_viewed))]
    fn line_left<L: History>(
        &self,
        alloc: Global,
        lines: &L,
        place: Option<usize>,
    ) -> Result<String, AllocError>
        ensures { IfOk result (λ line. string_bytes line
            ≡ line_left (L.lines lines.now) (map edited_view self.now.edited.items) place) }
    {
        match text_at(&self.edited, place) {
            Some(text) => String::from_str(alloc, text),
            None => original(alloc, lines, place),
        }
    }

    /// Returns the place of the line that is shown.
    fn walk_place<L: History>(
        &self,
        alloc: Global,
        lines: &L,
        line: &str,
    ) -> Result<Option<usize>, AllocError>
        ensures { IfOk result (λ place. place
            ≡ walk_place (walk_view self.now) (L.lines lines.now) line.now) }
    {
        if !self.searched {
            return Ok(self.place);
        }
        Ok(newest_index(alloc, lines, line)?.or(self.place))
    }

    /// Returns the line of a place, if it is another one than was left there.
    fn edit_left<L: History>(
        &self,
        alloc: Global,
        lines: &L,
        place: Option<usize>,
        line: &str,
    ) -> Result<Option<EditedLine>, AllocError>
        ensures { let edited = map edited_view self.now.edited.items in
            IfOk result (λ left. option_map edited_view left
            ≡ edit_left (L.lines lines.now) edited place line.now) }
    {
        if line == self.line_left(alloc, lines, place)?.as_str() {
            return Ok(None);
        }
        let text = String::from_str(alloc, line)?;
        Ok(Some(EditedLine { place, text }))
    }

    /// Returns what a key shows.
    fn walked_by<L: History>(
        &self,
        alloc: Global,
        key: WalkKey,
        lines: &L,
        place: Option<usize>,
        line: &LineEditBuffer,
    ) -> Result<Edit<WalkStep>, AllocError>
        ensures { IfOk result (λ edit. edit_view walked_view edit
            ≡ walked_by key (walk_view self.now) (L.lines lines.now) place line.now) }
    {
        let stays = WalkStep {
            to: place,
            left: None,
        };
        if matches!(key, WalkKey::Original) {
            let text = original(alloc, lines, place)?;
            return Ok(shown(at_end(alloc, text.as_str())?, stays));
        }
        let Some(to) = place_led_to(key, lines, place) else {
            return Ok(Edit {
                line: None,
                action: Action::Move(Movement::None),
                note: stays,
            });
        };
        let text = self.line_left(alloc, lines, to)?;
        let left = self.edit_left(alloc, lines, place, line.get_line())?;
        Ok(shown(at_end(alloc, text.as_str())?, WalkStep { to, left }))
    }
}

/// Returns a line with the cursor at its end.
fn at_end(alloc: Global, line: &str) -> Result<LineEditBuffer, AllocError>
    ensures { IfOk result (λ cut. cut ≡ at_end line.now) }
{
    LineEditBuffer::new(alloc, line, line.len())
}

impl KeyPart for EditedLines {
    ghost use Rattle.std.specs.Prelude.{◌<◌};
    ghost use Rattle.std.specs.Vec.{vec_capacity, vec_len};
    ghost use Rattle.tw_key_parts.specs.EditedLines.{Walk, Walked, walk_key_rules, walk_view, walked_view};

    type Note = WalkStep;

    ghost State = { Walk };

    ghost Kept = { Walked };

    ghost state = { walk_view };

    ghost kept = { walked_view };

    ghost keys = { walk_key_rules };

    ghost is_ready = { λ it cut. vec_len it.edited < vec_capacity it.edited };

    fn edit<L: History>(&self, alloc: Global, asked: &Asked<'_, L>) -> EditResult<WalkStep> {
        if asked.searching {
            return Ok(None);
        }
        let Some(key) = walk_key(asked.event) else {
            return Ok(None);
        };
        let place = self.walk_place(alloc, asked.history, asked.line.get_line())?;
        Ok(Some(self.walked_by(alloc, key, asked.history, place, asked.line)?))
    }

    fn prepare(&mut self, _alloc: Global, _line: &LineEditBuffer) -> Result<(), AllocError> {
        self.edited.reserve(1)?;
        Ok(())
    }

    fn follow(&mut self, _alloc: Global, step: &Step<'_>) {
        self.searched = self.searched || step.searching;
    }

    fn follow_own(&mut self, _alloc: Global, note: WalkStep, _step: &Step<'_>) {
        self.place = note.to;
        self.searched = false;
        if let Some(left) = note.left {
            self.edited.insert(0, left).unwrap();
        }
    }

    fn leave_line(&mut self) {
        self.place = None;
        self.searched = false;
        self.edited.clear();
    }
}
