//! Rows as a table.

use hex::encode_upper;
use sqlite::types::{Bytes, ValueRef};
use sqlite::{Error, Row};
use std::alloc::{AllocError, Global};
use tw_prompt::visible;
use unicode_width::UnicodeWidthStr;

/// What is shown of a value.
#[derive(Drop)]
struct Field {
    text: String,
    /// Whether the text stands at the right of its column.
    is_right: bool,
}

/// Returns a value as a text.
fn text_of(alloc: Global, value: ValueRef<'_>) -> Result<String, AllocError> {
    match value {
        ValueRef::Null => String::from_str(alloc, "NULL"),
        ValueRef::Int(number) => format!(in alloc; "{number}"),
        ValueRef::Real(number) => format!(in alloc; "{number:?}"),
        ValueRef::Text(bytes) => String::from_utf8_lossy(alloc, bytes),
        ValueRef::Blob(bytes) => {
            let digits = encode_upper(alloc, bytes)?;
            format!(in alloc; "X'{digits}'")
        }
    }
}

/// Returns what is shown of a value.
fn field_of(alloc: Global, value: ValueRef<'_>) -> Result<Field, AllocError> {
    let text = text_of(alloc, value)?;
    Ok(Field {
        text: visible(alloc, text.as_str())?,
        is_right: matches!(value, ValueRef::Int(_) | ValueRef::Real(_)),
    })
}

/// How many rows are shown at once: their columns have one width.
const PAGE: usize = 1000;

/// What is between two columns.
const BETWEEN: &str = " | ";

/// The narrowest column of a text that is cut.
const NARROWEST: usize = 8;

/// Rows that are shown as a table, page by page: the names of the columns, a line under them, the rows, and how many
/// these are. Numbers stand at the right, and no line takes more than `most` columns of a terminal.
#[derive(Drop)]
pub struct Table {
    /// The lines of the next page.
    lines: Vec<Vec<Field>>,
    widths: Vec<usize>,
    most: usize,
    count: u64,
    has_names: bool,
}

/// Returns a text, or what fits of it into `width` columns and `…`.
fn cut(alloc: Global, text: &str, width: usize) -> Result<String, AllocError> {
    if text.width() <= width {
        return String::from_str(alloc, text);
    }
    let mut fitting = 0;
    for (at, _) in text.char_indices() {
        if text.get(..at).unwrap_or("").width() >= width {
            break;
        }
        fitting = at;
    }
    let mut shown = String::from_str(alloc, text.get(..fitting).unwrap_or(""))?;
    shown.push('…')?;
    Ok(shown)
}

/// Returns the columns that a line takes whose fields take up to `widest`.
fn line_width(widths: &[usize], widest: usize) -> usize {
    let mut all = BETWEEN.len().saturating_mul(widths.len().saturating_sub(1));
    for width in widths {
        all = all.saturating_add(widest.min(*width));
    }
    all
}

/// Returns the widest field with which a line takes up to `most` columns, but not less than `NARROWEST`.
fn widest_field(widths: &[usize], most: usize) -> usize {
    if line_width(widths, usize::MAX) <= most {
        return usize::MAX;
    }
    let mut widest = most;
    for _ in NARROWEST..most {
        if line_width(widths, widest) <= most {
            break;
        }
        widest = widest.saturating_sub(1);
    }
    widest
}

/// Returns a line of fields, each in the width of its column.
fn line_text(
    alloc: Global,
    fields: &[Field],
    widths: &[usize],
    widest: usize,
) -> Result<String, AllocError> {
    let mut padded = Vec::new(alloc);
    for (field, width) in fields.iter().zip(widths.iter()) {
        let text = cut(alloc, field.text.as_str(), widest)?;
        let width = widest.min(*width);
        let spaces = " ".repeat(alloc, width.saturating_sub(text.as_str().width()))?;
        padded.push(if field.is_right {
            format!(in alloc; "{spaces}{text}")?
        } else {
            format!(in alloc; "{text}{spaces}")?
        })?;
    }
    padded.join(alloc, BETWEEN)
}

/// Returns the line under the names.
fn rule_text(alloc: Global, widths: &[usize], widest: usize) -> Result<String, AllocError> {
    let mut rules = Vec::new(alloc);
    for width in widths {
        rules.push("-".repeat(alloc, widest.min(*width))?)?;
    }
    rules.join(alloc, "-+-")
}

impl Table {
    /// Creates a table of no rows.
    pub fn new(alloc: Global, names: &[Bytes], most: usize) -> Result<Self, AllocError> {
        let mut line = Vec::new(alloc);
        for name in names {
            line.push(field_of(alloc, ValueRef::Text(name.as_slice()))?)?;
        }
        Ok(Table {
            lines: vec![in alloc; line]?,
            widths: Vec::new(alloc),
            most,
            count: 0,
            has_names: false,
        })
    }

    /// Adds a row. Returns true if a page is full.
    pub fn push(&mut self, alloc: Global, row: &Row) -> Result<bool, Error> {
        let mut line = Vec::new(alloc);
        for at in 0..row.column_count() {
            line.push(field_of(alloc, row.get_ref(at)?)?)?;
        }
        self.lines.push(line)?;
        self.count = self.count.saturating_add(1);
        Ok(self.lines.len() >= PAGE)
    }

    /// Widens the columns to the widest texts of the page.
    fn widen(&mut self) -> Result<(), AllocError> {
        for line in &self.lines {
            for (at, field) in line.iter().enumerate() {
                let width = field.text.as_str().width();
                match self.widths.get_mut(at) {
                    Some(widest) => *widest = width.max(*widest),
                    None => self.widths.push(width)?,
                }
            }
        }
        Ok(())
    }

    /// Takes the rows of a page, as they are shown. No column is narrower than on the page before.
    pub fn page(&mut self, alloc: Global) -> Result<String, AllocError> {
        self.widen()?;
        let widths = self.widths.as_slice();
        let widest = widest_field(widths, self.most);
        let rule = rule_text(alloc, widths, widest)?;
        let mut page = String::new(alloc);
        for fields in &self.lines {
            let line = line_text(alloc, fields, widths, widest)?;
            page.push_str(cut(alloc, line.as_str().trim_end(), self.most)?.as_str())?;
            page.push('\n')?;
            if !self.has_names {
                page.push_str(cut(alloc, rule.as_str(), self.most)?.as_str())?;
                page.push('\n')?;
                self.has_names = true;
            }
        }
        self.lines.clear();
        Ok(page)
    }

    /// Returns the last page, and how many rows there are.
    pub fn end(mut self, alloc: Global) -> Result<String, AllocError> {
        let mut page = self.page(alloc)?;
        match self.count {
            1 => page.push_str("(1 row)\n")?,
            count => write!(page, "({count} rows)\n")?,
        }
        Ok(page)
    }
}
