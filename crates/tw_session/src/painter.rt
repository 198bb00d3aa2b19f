//! The painting of a line: the changes that show it, and where they leave the cursor.

ghost use Rattle.std.specs.Prelude.{◌≡◌, ◌+◌, ◌<◌, ◌≤◌, ◌∷◌, [], false, nat_abs, map, string_bytes, MatchOption, IfOk, IfErr, ◌++◌};
ghost use Rattle.tw_surface.specs.Characters.{cr, lf};
ghost use Rattle.tw_surface.specs.ChangeView.{change_view, batch_view};
ghost use Rattle.tw_surface.specs.Drawings.{place};
ghost use Rattle.tw_surface.specs.PaintingBatches.{start_of};
ghost use Rattle.tw_surface.specs.Paintings.{before_line, edge_space, lower_changes, start_move, closing};
ghost use Rattle.tw_host.specs.ElementView.{element_view, changes_of};
ghost use Rattle.tw_session.specs.Painting.{preview_of, label, search_text};
ghost use Rattle.tw_session.specs.DrawSteps.{Draws, DrawsScene, with_edge, lower_of, scene_of_line, has_cell, place_of_pair, IsCellAfter, IsPainted, IsUnpainted};

use crate::error::Error;
use std::alloc::{AllocError, Global};
use std::marker::Model;
use tw_host::{LineEditorHost, OutputElement};
use tw_line::{LineEditBuffer, SearchDirection};
use tw_surface::{CellAttributes, Change, ChangeSequence, ColorAttribute, MAX_REACH, Position};
use tw_terminal::ScreenSize;

/// What stands under the line.
#[derive(Clone, Copy, Debug)]
pub enum Below<'a> {
    /// Nothing.
    Nothing,
    /// The host's preview of the line.
    Preview,
    /// The text of a search: where it goes, and the pattern.
    Search {
        direction: SearchDirection,
        pattern: &'a str,
    },
}

/// Where a painting left the cursor and how high it was, both counted from its first row.
#[derive(Clone, Copy, Debug)]
pub struct Mark {
    pub row: isize,
    pub height: usize,
}

impl Model for Mark {
    ghost use Rattle.tw_surface.specs.Paintings.{Mark};
    ghost use Rattle.tw_session.specs.Painting.{IsInLimits};

    ghost Value = { Mark };

    ghost view = { λ p. record { row = p.row; height = p.height } };

    ghost invariant = { λ p. IsInLimits (record { row = p.row; height = p.height }) };

    ghost inverse = { λ m. record { row = m.row; height = m.height } };
}

impl Mark {
    /// Returns the move from the cursor back to the first row.
    pub fn start_move(self) -> Change
        ensures { change_view result ≡ start_move self }
    {
        Change::CursorPosition {
            x: Position::Absolute(0),
            y: Position::Relative(-self.row),
        }
    }

    /// Returns the batch that moves the cursor to the row under the painting and clears from there on.
    pub fn closing_batch(self) -> [Change; 2]
        ensures { batch_view result ≡ closing self }
    {
        [
            Change::CursorPosition {
                x: Position::Absolute(0),
                y: Position::Relative(1 + self.height as isize - self.row),
            },
            Change::ClearToEndOfScreen(ColorAttribute::Default),
        ]
    }
}

/// Draws one change.
fn draw(drawing: &mut ChangeSequence, change: Change) -> Result<(), Error>
    ensures { Draws (change_view change ∷ []) drawing.old drawing.new result }
{
    drawing.add_change(change)?;
    Ok(())
}

/// Draws the elements, one after the other.
fn draw_elements(drawing: &mut ChangeSequence, elements: Vec<OutputElement>) -> Result<(), Error>
    ensures { Draws (changes_of (map element_view elements.items)) drawing.old drawing.new result }
{
    for element in elements {
        draw(drawing, element.into())?;
    }
    Ok(())
}

/// Draws what stands before the line: the screen is cleared, and the host's prompt is shown.
fn draw_prompt<H: LineEditorHost>(
    drawing: &mut ChangeSequence,
    host: &H,
    alloc: Global,
    prompt: &str,
) -> Result<(), Error>
    ensures { Draws (before_line (changes_of (H.rules.prompt (H.value host.now) prompt.now)))
        drawing.old drawing.new result }
{
    let elements = host.render_prompt(alloc, prompt)?;
    draw(drawing, Change::ClearToEndOfScreen(ColorAttribute::Default))?;
    draw(drawing, Change::AllAttributes(CellAttributes::default()))?;
    draw_elements(drawing, elements)?;
    draw(drawing, Change::AllAttributes(CellAttributes::default()))
}

/// Draws a space where the cursor waits after the last column, so that it is in the next row.
fn draw_edge_space(drawing: &mut ChangeSequence, alloc: Global, cols: usize) -> Result<(), Error>
    requires { drawing.old.cols ≡ cols }
    ensures { Draws (edge_space cols (place drawing.old)) drawing.old drawing.new result }
{
    let (x, _) = drawing.current_cursor_position();
    if x == cols {
        let space = String::from_str(alloc, " ")?;
        draw(drawing, Change::Text(space))?;
    }
    Ok(())
}

/// Draws the line's elements, and the space where they end at the edge.
fn draw_line(
    drawing: &mut ChangeSequence,
    alloc: Global,
    cols: usize,
    elements: Vec<OutputElement>,
) -> Result<(), Error>
    requires { drawing.old.cols ≡ cols }
    ensures { Draws (with_edge drawing.old (changes_of (map element_view elements.items)))
        drawing.old drawing.new result }
{
    draw_elements(drawing, elements)?;
    draw_edge_space(drawing, alloc, cols)
}

/// Returns the label of a search.
fn search_label(direction: SearchDirection) -> &'static str
    ensures { result.now ≡ label direction }
{
    match direction {
        SearchDirection::Backwards => "bck-i-search: ",
        SearchDirection::Forwards => "fwd-i-search: ",
    }
}

/// Returns the text of a search, in the next row.
fn search_row(
    alloc: Global,
    direction: SearchDirection,
    pattern: &str,
) -> Result<String, AllocError>
    ensures { IfOk result (λ text. string_bytes text
        ≡ cr ∷ lf ∷ search_text direction pattern.now) }
{
    let label = search_label(direction);
    format!(in alloc; "\r\n{label}{pattern}_")
}

/// Draws a preview from the next row on, if it has elements.
fn draw_preview(
    drawing: &mut ChangeSequence,
    alloc: Global,
    elements: Vec<OutputElement>,
) -> Result<(), Error>
    ensures { Draws (lower_changes (preview_of (map element_view elements.items)))
        drawing.old drawing.new result }
{
    if elements.is_empty() {
        return Ok(());
    }
    let next_row = String::from_str(alloc, "\r\n")?;
    draw(drawing, Change::Text(next_row))?;
    draw(drawing, Change::AllAttributes(CellAttributes::default()))?;
    draw_elements(drawing, elements)
}

/// Draws what stands under the line.
fn draw_below<H: LineEditorHost>(
    drawing: &mut ChangeSequence,
    host: &H,
    alloc: Global,
    line: &LineEditBuffer,
    below: Below<'_>,
) -> Result<(), Error>
    ensures { Draws (lower_changes (lower_of H.rules (H.value host.now) line.now below.entry))
        drawing.old drawing.new result }
{
    match below {
        Below::Nothing => Ok(()),
        Below::Preview => {
            let elements = host.render_preview(alloc, line.get_line())?;
            draw_preview(drawing, alloc, elements)
        }
        Below::Search { direction, pattern } => {
            let text = search_row(alloc, direction, pattern)?;
            draw(drawing, Change::AllAttributes(CellAttributes::default()))?;
            draw(drawing, Change::Text(text))
        }
    }
}

/// Returns the cell `column` columns after a place, or `None` if it is out of range.
fn cursor_cell(cols: usize, start: (usize, isize), column: usize) -> Option<(usize, isize)>
    requires some_columns { 0 < cols }
    requires columns { cols ≤ 65535 }
    requires row { nat_abs start.1 ≤ 2147483647 }
    ensures { let from = place_of_pair start in
        MatchOption result (has_cell cols from column ≡ false)
        (λ cell. IsCellAfter cols from column (place_of_pair cell)) }
{
    let (x, y) = start;
    let reach = x.checked_add(column)?;
    if reach > MAX_REACH as usize {
        return None;
    }
    let row = y + (reach / cols) as isize;
    if row > MAX_REACH {
        return None;
    }
    Some((reach % cols, row))
}

/// Returns the line as the host shows it, and the column of its cursor.
fn highlighted<H: LineEditorHost>(
    host: &H,
    alloc: Global,
    line: &LineEditBuffer,
) -> Result<(Vec<OutputElement>, usize), AllocError>
    ensures elements { IfOk result (λ shown. map element_view shown.0.items
        ≡ (H.rules.highlight (H.value host.now) line.now).elements) }
    ensures column { IfOk result (λ shown. shown.1
        ≡ (H.rules.highlight (H.value host.now) line.now).column) }
{
    host.highlight_line(alloc, line.get_line(), line.get_cursor())
}

/// Draws the prompt, the line and what stands under it on an empty drawing, and moves to the cursor's
/// cell.
fn draw_scene<H: LineEditorHost>(
    drawing: &mut ChangeSequence,
    host: &H,
    alloc: Global,
    prompt: &str,
    line: &LineEditBuffer,
    below: Below<'_>,
    cols: usize,
) -> Result<Mark, Error>
    requires empty { drawing.old ≡ record { cols = cols; changes = [] } }
    requires some_columns { 0 < cols }
    requires columns { cols ≤ 65535 }
    ensures { DrawsScene cols (scene_of_line H.rules (H.value host.now)
        prompt.now line.now below.entry) drawing.new result }
{
    draw_prompt(drawing, host, alloc, prompt)?;
    let start = drawing.current_cursor_position();
    let (elements, column) = highlighted(host, alloc, line)?;
    let Some(cell) = cursor_cell(cols, start, column) else {
        return Err(Error::SizeOutOfRange);
    };
    draw_line(drawing, alloc, cols, elements)?;
    draw_below(drawing, host, alloc, line, below)?;
    let height = drawing.render_height();
    drawing.move_to(cell)?;
    Ok(Mark {
        row: cell.1,
        height,
    })
}

/// Returns a batch, after the start move of the painting before, if there was one.
fn from_start(before: Option<Mark>, batch: Vec<Change>) -> Result<Vec<Change>, AllocError>
    ensures { IfOk result (λ all. batch_view all.items
        ≡ start_of before ++ batch_view batch.items) }
{
    let mut all = batch;
    if let Some(earlier) = before {
        all.insert(0, earlier.start_move())?;
    }
    Ok(all)
}

/// Returns the painting of a line after its prompt, with what stands under it: its batch and its mark. The batch goes
/// back to the first row of the painting before, if there was one. A size that no screen can have is refused before the
/// host is asked.
pub fn painting<H: LineEditorHost>(
    host: &H,
    alloc: Global,
    prompt: &str,
    line: &LineEditBuffer,
    below: Below<'_>,
    size: ScreenSize,
    before: Option<Mark>,
) -> Result<(Vec<Change>, Mark), Error>
    ensures ok { IfOk result (IsPainted before size
        (scene_of_line H.rules (H.value host.now) prompt.now line.now below.entry)) }
    ensures err { IfErr result (IsUnpainted size
        (scene_of_line H.rules (H.value host.now) prompt.now line.now below.entry)) }
{
    let mut drawing = ChangeSequence::new(alloc, size.rows, size.cols)?;
    let mark = draw_scene(&mut drawing, host, alloc, prompt, line, below, size.cols)?;
    let batch = from_start(before, drawing.consume())?;
    Ok((batch, mark))
}
