//! Keys for lines of several rows.

ghost use Rattle.std.specs.Prelude.{◌≡◌, ◌≤◌, ◌<◌, ◌+◌, ◌-◌, IfOk, IfSome, IsCharBoundary, length, option_map, string_bytes};
ghost use Rattle.tw_host.specs.ActionView.{action_view};
ghost use Rattle.tw_input.specs.EventView.{event_view};
ghost use Rattle.tw_key_parts.specs.EditView.{edit_view};
ghost use Rattle.tw_key_parts.specs.declared.steps.Way.TheVariants as Way;
ghost use Rattle.tw_key_parts.specs.RowKeys.{edit_by, edit_of_pattern, goal_column, has_rows, in_one_row, killed_to_edge, move_to, place_beside, edge_of_row, row_end, row_key, row_start, steps_to};

use crate::edit::{EditResult, in_place};
use crate::part::{Asked, KeyPart, Step};
use crate::steps::{Way, cluster_steps};
use std::alloc::{AllocError, Global};
use tw_host::Action;
use tw_input::{InputEvent, KeyCode, Modifiers};
use tw_line::{History, LineEditBuffer, Movement};

/// A key for lines of several rows.
#[derive(Clone, Copy, Debug, PartialEq, Eq)]
pub enum RowKey {
    /// Begins a row.
    Break,
    /// Goes to the row above or below.
    ToRow(Way),
    /// Goes to the start or the end of the row.
    ToEdge(Way),
    /// Kills to the end of the row.
    KillToEnd,
}

/// Returns the key for rows that an event is, if it is one.
pub fn row_key(event: &InputEvent) -> Option<RowKey>
    ensures { result ≡ row_key (event_view event.now) }
{
    let InputEvent::Key(press) = event else {
        return None;
    };
    match (press.modifiers, press.key) {
        (Modifiers::ALT, KeyCode::Enter) => Some(RowKey::Break),
        (Modifiers::NONE, KeyCode::UpArrow | KeyCode::ApplicationUpArrow)
        | (Modifiers::CTRL, KeyCode::Char('P')) => Some(RowKey::ToRow(Way::Back)),
        (Modifiers::NONE, KeyCode::DownArrow | KeyCode::ApplicationDownArrow)
        | (Modifiers::CTRL, KeyCode::Char('N')) => Some(RowKey::ToRow(Way::Ahead)),
        (Modifiers::NONE, KeyCode::Home) | (Modifiers::CTRL, KeyCode::Char('A')) => {
            Some(RowKey::ToEdge(Way::Back))
        }
        (Modifiers::NONE, KeyCode::End) | (Modifiers::CTRL, KeyCode::Char('E')) => {
            Some(RowKey::ToEdge(Way::Ahead))
        }
        (Modifiers::CTRL, KeyCode::Char('K')) => Some(RowKey::KillToEnd),
        _ => None,
    }
}

/// Returns the start of the row of an offset: after the last line feed before it.
#[tactic(auto, using(crate::proofs::StepLemmas::text_starts))]
pub fn row_start(line: &str, at: usize) -> usize
    requires { IsCharBoundary line.now at }
    ensures value { result ≡ row_start line.now at }
    ensures boundary { IsCharBoundary line.now result }
    ensures above { 0 < result → IsCharBoundary line.now (result - 1) }
{
    let (front, _) = line.split_at(at);
    match front.rfind('\n') {
        Some(feed) => feed + 1,
        None => 0,
    }
}

/// Returns the end of the row of an offset: at the next line feed.
pub fn row_end(line: &str, at: usize) -> usize
    requires { IsCharBoundary line.now at }
    ensures value { result ≡ row_end line.now at }
    ensures boundary { IsCharBoundary line.now result }
    ensures within { result ≤ length line.now }
    ensures below { result < length line.now → IsCharBoundary line.now (result + 1) }
{
    match line[at..].find('\n') {
        Some(feed) => at + feed,
        None => line.len(),
    }
}

/// Returns the number of grapheme clusters from the cursor to an offset.
#[tactic(auto, using(crate::proofs::StepLemmas::walks))]
fn steps_to(
    alloc: Global,
    way: Way,
    to: usize,
    editor: &LineEditBuffer,
) -> Result<usize, AllocError>
    ensures { IfOk result (λ count. count ≡ steps_to way to editor.now) }
{
    let mut walker = editor.try_clone(alloc)?;
    let most = editor.get_line().len();
    for count in 0..most {
        let has_reached = match way {
            Way::Back => walker.get_cursor() <= to,
            Way::Ahead => to <= walker.get_cursor(),
        };
        if has_reached {
            return Ok(count);
        }
        walker.exec_movement(cluster_steps(way, 1));
    }
    Ok(most)
}

/// Returns the start of the cursor's row if it is not the first one, or its end if it is not the last.
fn edge_of_row(way: Way, editor: &LineEditBuffer) -> Option<usize>
    ensures value { result ≡ edge_of_row way editor.now }
    ensures above { way ≡ Way.Back
        → IfSome result (λ start. (0 < start) × IsCharBoundary editor.now.line (start - 1)) }
    ensures below { way ≡ Way.Ahead
        → IfSome result (λ end. IsCharBoundary editor.now.line (end + 1)) }
{
    let (line, at) = (editor.get_line(), editor.get_cursor());
    match way {
        Way::Back => Some(row_start(line, at)).filter(|start| *start > 0),
        Way::Ahead => Some(row_end(line, at)).filter(|end| *end < line.len()),
    }
}

/// Returns the offset of a column in the row above or below, or the end of a shorter row, if there is such a row.
fn place_beside(
    alloc: Global,
    way: Way,
    column: usize,
    editor: &LineEditBuffer,
) -> Result<Option<usize>, AllocError>
    ensures { IfOk result (λ place. place ≡ place_beside way column editor.now) }
{
    let Some(edge) = edge_of_row(way, editor) else {
        return Ok(None);
    };
    let line = editor.get_line();
    let start = match way {
        Way::Back => row_start(line, edge - 1),
        Way::Ahead => edge + 1,
    };
    let mut walker = LineEditBuffer::new(alloc, line, start)?;
    walker.exec_movement(Movement::ForwardChar(column));
    Ok(Some(walker.get_cursor().min(row_end(line, start))))
}

/// Returns the movement of the cursor to an offset, if there is one.
fn move_to(
    alloc: Global,
    way: Way,
    to: Option<usize>,
    editor: &LineEditBuffer,
) -> Result<Option<Action>, AllocError>
    ensures { IfOk result (λ action. option_map action_view action ≡ move_to way to editor.now) }
{
    let Some(to) = to else {
        return Ok(None);
    };
    let count = steps_to(alloc, way, to, editor)?;
    Ok(Some(Action::Move(cluster_steps(way, count))))
}

/// Returns the kill of the row to its start or end, or at that edge of the line feed there, if there is one.
pub(crate) fn killed_to_edge(
    alloc: Global,
    way: Way,
    editor: &LineEditBuffer,
) -> Result<Option<Action>, AllocError>
    ensures { IfOk result (λ action. option_map action_view action
        ≡ killed_to_edge way editor.now) }
{
    let Some(edge) = edge_of_row(way, editor) else {
        return Ok(None);
    };
    let count = steps_to(alloc, way, edge, editor)?.max(1);
    Ok(Some(match way {
        Way::Back => Action::Kill(Movement::BackwardChar(count)),
        Way::Ahead => Action::KillAndMove(Movement::ForwardChar(count), Movement::None),
    }))
}

/// Returns true if a line feed stands in a text.
fn has_rows(text: &str) -> bool
    ensures { result ≡ has_rows text.now }
{
    text.as_bytes().iter().any(|byte| *byte == b'\n')
}

/// Returns a text with a space for each line feed.
fn in_one_row(alloc: Global, text: &str) -> Result<String, AllocError>
    ensures { IfOk result (λ row. string_bytes row ≡ in_one_row text.now) }
{
    text.chars()
        .map(|c| if c == '\n' { ' ' } else { c })
        .collect(alloc)
}

/// Returns the edit of an event during a search, whose pattern has one row: a pasted text of several rows is joined.
fn edit_of_pattern(alloc: Global, event: &InputEvent) -> EditResult<Option<usize>>
    ensures { IfOk result (λ edit. option_map (edit_view (λ note. note)) edit
        ≡ edit_of_pattern (event_view event.now)) }
{
    match event {
        InputEvent::Paste(text) if has_rows(text.as_str()) => {
            let row = in_one_row(alloc, text.as_str())?;
            Ok(in_place(Some(Action::InsertText(1, row)), None))
        }
        _ => Ok(None),
    }
}

/// Keys for lines of several rows: Alt-Enter begins a row. Up and Down, Ctrl-P and Ctrl-N go to the row
/// above and below, and keep their column over shorter rows. Home and End, Ctrl-A and Ctrl-E go to the
/// start and the end of the row. Ctrl-K kills the rest of the row, or at its end the line feed.
///
/// In the first row the part has no Up and Home, and in the last row no Down, End and Ctrl-K: there they do
/// what they do in a line of one row, and Up and Down walk through the history. The keys have no action
/// during a search, where a space stands for each line feed of a pasted text: a pattern has one row.
#[derive(Debug, Drop)]
pub struct RowKeys {
    goal: Option<usize>,
}

impl RowKeys {
    /// Creates the part.
    pub fn new() -> Self
        ensures { result.goal ≡ None }
    {
        RowKeys { goal: None }
    }

    /// Returns the column where a run of Up and Down began, or else the column of the cursor, in grapheme clusters.
    fn goal_column(&self, alloc: Global, line: &LineEditBuffer) -> Result<usize, AllocError>
        ensures { IfOk result (λ column. column ≡ goal_column self.now.goal line.now) }
    {
        match self.goal {
            Some(column) => Ok(column),
            None => {
                let start = row_start(line.get_line(), line.get_cursor());
                steps_to(alloc, Way::Back, start, line)
            }
        }
    }

    /// Returns the edit of a key.
    fn edit_by(
        &self,
        alloc: Global,
        key: RowKey,
        line: &LineEditBuffer,
    ) -> EditResult<Option<usize>>
        ensures { IfOk result (λ edit. option_map (edit_view (λ note. note)) edit
            ≡ edit_by key self.now.goal line.now) }
    {
        match key {
            RowKey::Break => Ok(in_place(Some(Action::InsertChar(1, '\n')), None)),
            RowKey::ToRow(way) => {
                let column = self.goal_column(alloc, line)?;
                let place = place_beside(alloc, way, column, line)?;
                Ok(in_place(move_to(alloc, way, place, line)?, Some(column)))
            }
            RowKey::ToEdge(way) => {
                Ok(in_place(move_to(alloc, way, edge_of_row(way, line), line)?, None))
            }
            RowKey::KillToEnd => Ok(in_place(killed_to_edge(alloc, Way::Ahead, line)?, None)),
        }
    }
}

impl KeyPart for RowKeys {
    ghost use Rattle.std.specs.Prelude.{ℕ, Option};
    ghost use Rattle.tw_key_parts.specs.RowKeys.{row_key_rules};

    type Note = Option<usize>;

    ghost State = { Option ℕ };

    ghost Kept = { Option ℕ };

    ghost state = { λ it. it.goal };

    ghost kept = { λ note. note };

    ghost keys = { row_key_rules };

    ghost is_ready = { λ it cut. Unit {0} };

    fn edit<L: History>(&self, alloc: Global, asked: &Asked<'_, L>) -> EditResult<Option<usize>> {
        if asked.searching {
            return edit_of_pattern(alloc, asked.event);
        }
        match row_key(asked.event) {
            Some(key) => self.edit_by(alloc, key, asked.line),
            None => Ok(None),
        }
    }

    fn prepare(&mut self, _alloc: Global, _line: &LineEditBuffer) -> Result<(), AllocError> {
        Ok(())
    }

    fn follow(&mut self, _alloc: Global, _step: &Step<'_>) {
        self.goal = None;
    }

    fn follow_own(&mut self, _alloc: Global, column: Option<usize>, _step: &Step<'_>) {
        self.goal = column;
    }

    fn leave_line(&mut self) {
        self.goal = None;
    }
}
