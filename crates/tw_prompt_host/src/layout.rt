//! The layout of a menu: candidates in columns, one of them marked.

ghost use Rattle.std.specs.Prelude.{◌≡◌, ◌<◌, ◌≤◌, IfOk, map, string_bytes, length};
ghost use Rattle.tw_host.specs.CandidateView.{candidate_view};
ghost use Rattle.tw_host.specs.ElementView.{element_view};
ghost use Rattle.tw_input.specs.EventView.{event_view};
ghost use Rattle.tw_prompt_host.specs.MenuLayout.{filled_cell, gap, menu_cell, menu_page, menu_page_len, menu_row, menu_texts, more_row, page_len, reverse_style, row_len, style_after, widest};

use std::alloc::{AllocError, Global};
use tw_host::{CompletionCandidate, OutputElement, plain_element};
use tw_hosts::styled;
use tw_input::InputEvent;
use tw_surface::{CellAttributes, unicode_column_width};

/// The style of a menu. `Resized` events keep `cols` up to date.
#[derive(Clone, Copy, Debug, PartialEq, Eq)]
pub struct MenuStyle {
    /// The columns of the screen.
    pub cols: usize,
    /// The most rows of candidates; 0 counts as 1. One more row says how many more there are.
    pub rows: usize,
    /// The attributes of the chosen candidate.
    pub chosen: CellAttributes,
}

impl MenuStyle {
    /// Creates the style of a menu of `rows` rows on `cols` columns, with the chosen candidate in reverse.
    pub fn in_reverse(cols: usize, rows: usize) -> Self
        ensures { result ≡ reverse_style cols rows }
    {
        let mut chosen = CellAttributes::default();
        chosen.reverse = true;
        MenuStyle { cols, rows, chosen }
    }

    /// Takes the columns of a `Resized` event.
    pub(crate) fn resize(&mut self, event: &InputEvent)
        ensures { self.new ≡ style_after (event_view event.now) self.old }
    {
        if let InputEvent::Resized { cols, .. } = event {
            self.cols = *cols;
        }
    }
}

/// Returns the width of the widest candidate.
fn widest(candidates: &[CompletionCandidate]) -> usize
    ensures { result ≡ widest (menu_texts (map candidate_view candidates.now)) }
{
    candidates.iter().fold(
        0,
        |width, candidate| width.max(unicode_column_width(candidate.text.as_str())),
    )
}

/// Returns the number of candidates in a row, each followed by two spaces.
fn row_len(cols: usize, width: usize) -> usize
    ensures value { result ≡ row_len cols width }
    ensures some { 0 < result }
{
    (cols / width.saturating_add(2)).max(1)
}

/// Returns the number of candidates on a page.
fn page_len(in_row: usize, rows: usize, count: usize) -> usize
    requires { 0 < in_row }
    ensures value { result ≡ page_len in_row rows count }
    ensures some { 0 < count → 0 < result }
{
    in_row.saturating_mul(rows.max(1)).min(count)
}

/// Returns the number of candidates in a row, and on a page.
pub fn row_and_page(style: MenuStyle, candidates: &[CompletionCandidate]) -> (usize, usize)
    requires { 0 < length candidates.now }
    ensures row { result.0 ≡ menu_row style (map candidate_view candidates.now) }
    ensures page { result.1 ≡ menu_page_len style (map candidate_view candidates.now) }
    ensures some { 0 < result.0 }
    ensures within { (result.0 ≤ length candidates.now) × (result.1 ≤ length candidates.now) }
{
    let row = row_len(style.cols, widest(candidates));
    let page = page_len(row, style.rows, candidates.len());
    (row.min(candidates.len()), page)
}

/// Pads a text with spaces to `width` columns.
fn filled_cell(alloc: Global, width: usize, text: &str) -> Result<String, AllocError>
    ensures { IfOk result (λ all. string_bytes all ≡ filled_cell width text.now) }
{
    let mut all = String::from_str(alloc, text)?;
    for _ in 0..width.saturating_sub(unicode_column_width(text)) {
        all.push(' ')?;
    }
    Ok(all)
}

/// Returns the text before the cell of a candidate.
fn gap(in_row: usize, start: usize, at: usize) -> &'static str
    requires { 0 < in_row }
    ensures { result.now ≡ gap in_row start at }
{
    if at == start {
        ""
    } else if at % in_row == 0 {
        "\r\n"
    } else {
        "  "
    }
}

/// Styles the cell of a candidate, after the text before it.
fn menu_cell(
    alloc: Global,
    style: MenuStyle,
    before: &str,
    is_chosen: bool,
    text: &str,
) -> Result<Vec<OutputElement>, AllocError>
    ensures { IfOk result (λ cell. map element_view cell.items
        ≡ menu_cell style before.now is_chosen text.now) }
{
    let mut cell = plain_element(alloc, before)?;
    let mut shown = if is_chosen {
        styled(alloc, style.chosen, text)?
    } else {
        plain_element(alloc, text)?
    };
    cell.append(&mut shown)?;
    Ok(cell)
}

/// Returns the row that says how many more candidates there are, if there are any.
fn more_row(alloc: Global, count: usize) -> Result<Vec<OutputElement>, AllocError>
    ensures { IfOk result (λ row. map element_view row.items ≡ more_row count) }
{
    if count == 0 {
        return Ok(Vec::new(alloc));
    }
    let text = format!(in alloc; "\r\n.. {count} more")?;
    plain_element(alloc, text.as_str())
}

/// Lays out the page with the chosen candidate, in rows separated by CR LF. A last row says how many candidates it does
/// not show.
pub fn menu_page(
    alloc: Global,
    style: MenuStyle,
    candidates: &[CompletionCandidate],
    chosen: usize,
) -> Result<Vec<OutputElement>, AllocError>
    requires { chosen < length candidates.now }
    ensures { IfOk result (λ elements. map element_view elements.items
        ≡ menu_page style (map candidate_view candidates.now) chosen) }
{
    let width = widest(candidates);
    let in_row = row_len(style.cols, width);
    let page = page_len(in_row, style.rows, candidates.len());
    let start = chosen - chosen % page;
    let count = page.min(candidates.len() - start);
    let mut elements = Vec::new(alloc);
    for at in start..start + count {
        let text = filled_cell(alloc, width, candidates[at].text.as_str())?;
        let before = gap(in_row, start, at);
        let mut cell = menu_cell(alloc, style, before, at == chosen, text.as_str())?;
        elements.append(&mut cell)?;
    }
    let mut more = more_row(alloc, candidates.len() - count)?;
    elements.append(&mut more)?;
    Ok(elements)
}
