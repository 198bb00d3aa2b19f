//! Lines of a history that begin as a line does.

ghost use Rattle.std.specs.Prelude.{◌≡◌, IfOk, None, Some, if◌then◌else◌, length, option_map};
ghost use Rattle.tw_hosts.specs.Words.{begins_with};
ghost use Rattle.tw_input.specs.EventView.{event_view};
ghost use Rattle.tw_key_parts.specs.EditView.{edit_view};
ghost use Rattle.tw_line.specs.Cut.{cut_at};
ghost use Rattle.tw_key_parts.specs.PrefixSearch.{found_by, is_prefix_match, newer_match, older_match, prefix_key, prefix_match_at, recalled_edit};

use crate::edit::{Edit, EditResult, shown};
use crate::part::{Asked, KeyPart, Step};
use crate::recalled::{Recalled, line_before_recall, older_index};
use std::alloc::{AllocError, Global};
use tw_input::{InputEvent, KeyCode, Modifiers};
use tw_line::{History, LineEditBuffer, SearchDirection};

/// A key of the search, by the line that it shows.
#[derive(Clone, Copy, Debug, PartialEq, Eq)]
pub enum PrefixKey {
    /// The next older line.
    Older,
    /// The next newer line.
    Newer,
    /// The oldest line.
    Oldest,
    /// The line before the search.
    Typed,
}

/// Returns the key of the search that an event is, if it is one.
pub fn prefix_key(event: &InputEvent) -> Option<PrefixKey>
    ensures { result ≡ prefix_key (event_view event.now) }
{
    let InputEvent::Key(press) = event else {
        return None;
    };
    match (press.modifiers, press.key) {
        (Modifiers::NONE, KeyCode::PageUp) => Some(PrefixKey::Older),
        (Modifiers::NONE, KeyCode::PageDown) => Some(PrefixKey::Newer),
        (Modifiers::ALT, KeyCode::Char('<')) => Some(PrefixKey::Oldest),
        (Modifiers::ALT, KeyCode::Char('>')) => Some(PrefixKey::Typed),
        _ => None,
    }
}

/// Returns a line with the cursor after the text that it begins with, or `None` if it begins otherwise.
#[tactic(auto, using(std::proofs::lemmas::Str::Pattern::starts_text))]
fn line_from(alloc: Global, text: &str, line: &str) -> Result<Option<LineEditBuffer>, AllocError>
    ensures { IfOk result (λ found. found
        ≡ (if begins_with text.now line.now then
        Some (cut_at line.now (length text.now)) else None)) }
{
    if line.starts_with(text) {
        Ok(Some(LineEditBuffer::new(alloc, line, text.len())?))
    } else {
        Ok(None)
    }
}

/// Returns the line at an index if it begins like the current line up to its cursor and differs from it.
fn match_at<L: History>(
    alloc: Global,
    lines: &L,
    editor: &LineEditBuffer,
    index: usize,
) -> Result<Option<(LineEditBuffer, usize)>, AllocError>
    ensures { IfOk result (λ found. found
        ≡ (if is_prefix_match (L.lines lines.now) editor.now index then
        Some (prefix_match_at (L.lines lines.now) editor.now index) else None)) }
{
    let Some(line) = lines.get(alloc, index)? else {
        return Ok(None);
    };
    if line.as_str() == editor.get_line() {
        return Ok(None);
    }
    let text = &editor.get_line()[..editor.get_cursor()];
    let found = line_from(alloc, text, line.as_str())?;
    Ok(found.map(|line| (line, index)))
}

/// Returns the newest match up to an index.
#[tactic(auto, using(crate::proofs::UndoLemmas::greatest_steps))]
fn older_match_from<L: History>(
    alloc: Global,
    lines: &L,
    editor: &LineEditBuffer,
    from: usize,
) -> Result<Option<(LineEditBuffer, usize)>, AllocError>
    ensures { IfOk result (λ found. found
        ≡ older_match (L.lines lines.now) editor.now from) }
{
    for index in (0..=from).rev() {
        if let Some(found) = match_at(alloc, lines, editor, index)? {
            return Ok(Some(found));
        }
    }
    Ok(None)
}

/// Returns the oldest match from an index on.
#[tactic(auto, using(crate::proofs::StepLemmas::least_steps))]
fn newer_match_from<L: History>(
    alloc: Global,
    lines: &L,
    editor: &LineEditBuffer,
    from: usize,
) -> Result<Option<(LineEditBuffer, usize)>, AllocError>
    ensures { IfOk result (λ found. found
        ≡ newer_match (L.lines lines.now) editor.now from) }
{
    let Some(last) = lines.last() else {
        return Ok(None);
    };
    for index in from..=last {
        if let Some(found) = match_at(alloc, lines, editor, index)? {
            return Ok(Some(found));
        }
    }
    Ok(None)
}

/// Returns the line that a key finds, with its index, if it finds one.
fn found_by<L: History>(
    alloc: Global,
    key: PrefixKey,
    lines: &L,
    recalled: Option<&Recalled>,
    editor: &LineEditBuffer,
) -> Result<Option<(LineEditBuffer, usize)>, AllocError>
    ensures { IfOk result (λ found. found ≡ found_by key (L.lines lines.now)
        (option_map (λ recalled. recalled.now) recalled.entry) editor.now) }
{
    match key {
        PrefixKey::Older => match older_index(recalled, lines) {
            Some(from) => older_match_from(alloc, lines, editor, from),
            None => Ok(None),
        },
        PrefixKey::Newer => {
            match recalled.and_then(|recalled| SearchDirection::Forwards.next(recalled.index)) {
                Some(from) => newer_match_from(alloc, lines, editor, from),
                None => Ok(None),
            }
        }
        PrefixKey::Oldest => match lines.get(alloc, 0)? {
            Some(line) => {
                let end = line.as_str().len();
                Ok(Some((LineEditBuffer::new(alloc, line.as_str(), end)?, 0)))
            }
            None => Ok(None),
        },
        PrefixKey::Typed => Ok(None),
    }
}

/// Returns the edit that shows a line that was found, or else the line before the search if the key leads back to it.
fn recalled_edit(
    before: LineEditBuffer,
    found: Option<(LineEditBuffer, usize)>,
    leads_back: bool,
) -> Option<Edit<Option<Recalled>>>
    ensures { option_map (edit_view (λ note. note)) result
        ≡ recalled_edit before found leads_back }
{
    match found {
        Some((line, index)) => Some(shown(line, Some(Recalled { before, index }))),
        None if leads_back => Some(shown(before, None)),
        None => None,
    }
}

/// Page Up shows the newest line of the history that begins like the line up to its cursor, and then older ones. Page
/// Down goes back to newer ones, and at last to the line before the search. Lines equal to the current one are skipped,
/// and the cursor stays where it is. Alt-< shows the oldest line, with the cursor at its end, and Alt-> the line before
/// the search. Any other key ends the search. The keys have no action during an incremental search.
#[derive(Debug, Drop)]
pub struct PrefixSearch {
    recalled: Option<Recalled>,
}

impl PrefixSearch {
    /// Creates the part with no search in progress.
    pub fn new() -> Self
        ensures { result.recalled ≡ None }
    {
        PrefixSearch { recalled: None }
    }
}

impl KeyPart for PrefixSearch {
    ghost use Rattle.std.specs.Prelude.{Option};
    ghost use Rattle.tw_key_parts.specs.PrefixSearch.{prefix_key_rules};
    ghost use Rattle.tw_key_parts.specs.declared.recalled.Recalled.{Recalled};

    type Note = Option<Recalled>;

    ghost State = { Option Recalled };

    ghost Kept = { Option Recalled };

    ghost state = { λ it. it.recalled };

    ghost kept = { λ note. note };

    ghost keys = { prefix_key_rules };

    ghost is_ready = { λ it cut. Unit {0} };

    fn edit<L: History>(&self, alloc: Global, asked: &Asked<'_, L>) -> EditResult<Self::Note> {
        if asked.searching {
            return Ok(None);
        }
        let Some(key) = prefix_key(asked.event) else {
            return Ok(None);
        };
        let recalled = self.recalled.as_ref();
        let leads_back = recalled.is_some() && matches!(key, PrefixKey::Newer | PrefixKey::Typed);
        let found = found_by(alloc, key, asked.history, recalled, asked.line)?;
        if found.is_none() && !leads_back {
            return Ok(None);
        }
        let before = line_before_recall(alloc, recalled, asked.line)?;
        Ok(recalled_edit(before, found, leads_back))
    }

    fn prepare(&mut self, _alloc: Global, _line: &LineEditBuffer) -> Result<(), AllocError> {
        Ok(())
    }

    fn follow(&mut self, _alloc: Global, step: &Step<'_>) {
        if step.action.is_some() || prefix_key(step.event).is_none() {
            self.recalled = None;
        }
    }

    fn follow_own(&mut self, _alloc: Global, note: Option<Recalled>, _step: &Step<'_>) {
        self.recalled = note;
    }

    fn leave_line(&mut self) {
        self.recalled = None;
    }
}
