//! The styles of a line's parts.

use crate::style::Style;
use std::alloc::{AllocError, Global};
use std::ops::Range;
use tw_prompt_host::{MarkKind, MarkPair, StyledRange, closed_mark};

/// Collects the styles of a line's parts. What is painted later goes on top.
#[derive(Drop)]
pub struct Painter {
    /// The byte offset of the cursor.
    pub cursor: usize,
    alloc: Global,
    ranges: Vec<StyledRange>,
}

/// Returns the last character of a text, and the text before it.
fn split_last(text: &str) -> Option<(&str, char)> {
    let last = text.chars().next_back()?;
    let before = text.strip_suffix(last)?;
    Some((before, last))
}

/// Puts a range on top of others, which are in order.
fn put_over(
    alloc: Global,
    ranges: &[StyledRange],
    over: StyledRange,
) -> Result<Vec<StyledRange>, AllocError> {
    let mut shown = Vec::new(alloc);
    for range in ranges {
        if range.start < over.start {
            shown.push(StyledRange {
                start: range.start,
                end: range.end.min(over.start),
                attributes: range.attributes,
            })?;
        }
    }
    shown.push(over)?;
    for range in ranges {
        if range.end > over.end {
            shown.push(StyledRange {
                start: range.start.max(over.end),
                end: range.end,
                attributes: range.attributes,
            })?;
        }
    }
    Ok(shown)
}

impl Painter {
    /// Creates a painter of a plain line with its cursor at this byte offset.
    pub(crate) fn new(alloc: Global, cursor: usize) -> Self {
        Painter {
            cursor,
            alloc,
            ranges: Vec::new(alloc),
        }
    }

    /// Returns the allocator.
    pub fn alloc(&self) -> Global {
        self.alloc
    }

    /// Shows a part of the line, by its byte offsets, in a style. An empty part shows nothing.
    pub fn paint(&mut self, part: Range<usize>, style: Style) -> Result<(), AllocError> {
        if part.start >= part.end {
            return Ok(());
        }
        let over = StyledRange {
            start: part.start,
            end: part.end,
            attributes: style.attributes,
        };
        match self.ranges.as_slice().last() {
            Some(last) if last.end > over.start => {
                self.ranges = put_over(self.alloc, self.ranges.as_slice(), over)?;
            }
            _ => self.ranges.push(over)?,
        }
        Ok(())
    }

    /// Shows the closing mark before the cursor of a line, and the one that it closes, in a style. Nothing is painted
    /// without such a mark, and behind an escape character.
    pub fn paint_brackets(
        &mut self,
        pairs: &[MarkPair],
        line: &str,
        style: Style,
    ) -> Result<(), AllocError> {
        let Some((before, mark)) = split_last(line.get(..self.cursor).unwrap_or("")) else {
            return Ok(());
        };
        match closed_mark(self.alloc, pairs, before, mark)? {
            Some(open) if !matches!(open.pair.kind, MarkKind::Escape) => {
                let opening = open.pair.opening.len_utf8();
                self.paint(open.at..open.at.saturating_add(opening), style)?;
                self.paint(before.len()..self.cursor, style)
            }
            _ => Ok(()),
        }
    }

    /// Returns what was painted.
    pub(crate) fn into_ranges(self) -> Vec<StyledRange> {
        self.ranges
    }
}
