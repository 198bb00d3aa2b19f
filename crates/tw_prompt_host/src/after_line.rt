//! What stands after the line, in the row of its end.

ghost use Rattle.std.specs.Prelude.{◌≡◌, IfOk, map, string_bytes, true};
ghost use Rattle.unicode_segmentation.specs.Grapheme.{graphemes};
ghost use Rattle.tw_host.specs.ElementView.{element_view};
ghost use Rattle.tw_hosts.specs.Settling.{screen_view};
ghost use Rattle.tw_prompt_host.specs.AfterLine.{after_line_on, shortened_to, fitting_clusters, has_control, prompt_column, room_after};
ghost use Rattle.tw_prompt_host.specs.Rows.{rows_view};

use crate::rows::Rows;
use std::alloc::{AllocError, Global};
use tw_host::OutputElement;
use tw_hosts::{PromptScreen, settled_column, styled};
use tw_surface::{CellAttributes, Extent, cluster_width, measure_text, split_cluster};

/// What stands for the rest of a text that is cut.
pub const CUT: char = '…';

/// Returns true if a control character stands in a text.
fn has_control(text: &str) -> bool
    ensures { result ≡ has_control text.now }
{
    text.chars().any(|c| c.is_control())
}

/// Returns the columns of the last row of a prompt, or `None` if they are not known.
#[tactic(auto, using(tw_hosts::proofs::SettlingLemmas::end_reached))]
fn prompt_column(cols: usize, prompt: &str) -> Option<usize>
    ensures { result ≡ prompt_column cols prompt.now }
{
    if cols == 0 || cols > 65_535 {
        return None;
    }
    let end = measure_text(cols, Extent::start(), prompt)?;
    Some(end.x)
}

/// Returns the columns after the end of a row, up to the last one, which stays empty: text there begins no other row.
#[tactic(auto, using(crate::proofs::AfterLineLemmas::room_is))]
fn room_after(cols: usize, before: &str, row: &str) -> usize
    ensures { result ≡ room_after cols before.now row.now }
{
    match prompt_column(cols, before) {
        Some(start) if !has_control(row) => {
            let column = settled_column(cols, before, row, row.len());
            cols - 1 - (start % cols + column % cols) % cols
        }
        _ => 0,
    }
}

/// Returns as many grapheme clusters of a text as fit into `columns` columns, up to a control character.
fn fitting_clusters(alloc: Global, columns: usize, text: &str) -> Result<String, AllocError>
    ensures { IfOk result (λ shown. string_bytes shown
        ≡ fitting_clusters columns (graphemes true text.now)) }
{
    let mut shown = String::new(alloc);
    let mut left = columns;
    let mut rest = text;
    while let Some((cluster, more)) = split_cluster(rest) {
        let width = cluster_width(cluster);
        if width > left || has_control(cluster) {
            break;
        }
        shown.push_str(cluster)?;
        left -= width;
        rest = more;
    }
    Ok(shown)
}

/// Returns a text if all of it fits, or else what fits of it before `…`, or nothing if not even that does.
fn shortened_to(alloc: Global, columns: usize, text: &str) -> Result<String, AllocError>
    ensures { IfOk result (λ shown. string_bytes shown ≡ shortened_to columns text.now) }
{
    let all = fitting_clusters(alloc, columns, text)?;
    if all.len() == text.len() {
        return Ok(all);
    }
    if columns == 0 {
        return Ok(String::new(alloc));
    }
    let mut shown = fitting_clusters(alloc, columns - 1, text)?;
    shown.push(CUT)?;
    Ok(shown)
}

/// Styles a text after a line, cut to the row in which the line ends.
pub fn after_line_on(
    alloc: Global,
    screen: &PromptScreen,
    rows: &Rows,
    line: &str,
    style: CellAttributes,
    text: &str,
) -> Result<Vec<OutputElement>, AllocError>
    ensures { IfOk result (λ elements. map element_view elements.items
        ≡ after_line_on (screen_view screen.now) (rows_view rows.now) line.now style text.now) }
{
    let (before, row) = rows.last_shown(screen, line);
    let shown = shortened_to(alloc, room_after(screen.cols, before, row), text)?;
    if shown.is_empty() {
        return Ok(Vec::new(alloc));
    }
    styled(alloc, style, shown.as_str())
}
