//! What a screen that scrolls is to hold. Each place is found by a division, and no cursor is moved.

ghost use Rattle.std.specs.Prelude.{◌<◌};

use crate::painted::{Batch, PaintedTexts};
use crate::random_numbers::RandomNumbers;
use ecma_terminal::TerminalCell;
use std::alloc::{AllocError, Global};
use tw_surface::{CellAttributes, Change};

/// The row at which a full screen is entered, where it has that row.
const FULL_ENTRY: usize = 5;

/// How a screen is at first.
#[derive(Debug, Clone, Copy)]
pub enum Entry {
    /// It is blank, and entered at its first row.
    Blank,
    /// Its first rows are full, and it is entered at one of them.
    Full,
}

impl Entry {
    /// Returns one of the two.
    pub fn pick(numbers: &mut RandomNumbers) -> Self {
        if numbers.below(2) == 0 {
            Entry::Blank
        } else {
            Entry::Full
        }
    }

    /// Returns the row at which a screen of `rows` rows is entered.
    pub fn row(self, rows: usize) -> usize {
        match self {
            Entry::Blank => 0,
            Entry::Full => FULL_ENTRY.min(rows.saturating_sub(1)),
        }
    }

    /// Returns what each cell of a screen holds at first.
    pub fn cell(self) -> TerminalCell {
        match self {
            Entry::Blank => shown(b' ', false),
            Entry::Full => shown(b'#', false),
        }
    }
}

/// Returns the first byte of a character in default attributes, or in the mark that the host of this crate gives the
/// line from its cursor on.
fn shown(byte: u8, is_marked: bool) -> TerminalCell {
    TerminalCell {
        number: u128::from(byte),
        attributes: CellAttributes {
            reverse: is_marked,
            ..CellAttributes::default()
        },
    }
}

/// Returns the columns of a character by its first byte: one of ASCII and of a letter with an accent, two of Han, kana,
/// Hangul and emoji. Other bytes go on with a character, or with the marks on it.
fn columns_of(byte: u8) -> usize {
    match byte {
        b' '..=b'~' | 0xc3 => 1,
        0xe3..=0xed | 0xf0 => 2,
        _ => 0,
    }
}

/// The cells and the cursor of a screen.
#[derive(Drop)]
pub struct Table {
    rows: usize,
    width: usize,
    cells: Vec<TerminalCell>,
    first_row: usize,
    last_row: usize,
    cursor: (usize, usize),
    is_known: bool,
    ghost some_columns: { 0 < width },
}

impl Table {
    /// Creates a screen as it is at first.
    pub fn new(alloc: Global, rows: usize, width: usize, entry: Entry) -> Result<Self, AllocError>
        requires { 0 < width }
    {
        let first_row = entry.row(rows);
        Ok(Table {
            rows,
            width,
            cells: vec![in alloc; entry.cell(); width.saturating_mul(rows)]?,
            first_row,
            last_row: first_row,
            cursor: (first_row, 0),
            is_known: true,
        })
    }

    /// Returns false after a painting that has more rows than the screen, until the screen is cleared.
    pub fn is_known(&self) -> bool {
        self.is_known
    }

    /// Returns where the cursor is to stand.
    pub fn cursor(&self) -> (usize, usize) {
        self.cursor
    }

    /// Returns what the cell at a row and a column is to hold, or none outside the screen.
    pub fn cell(&self, row: usize, col: usize) -> Option<TerminalCell> {
        if col >= self.width {
            return None;
        }
        self.cells.get(self.index_of(row, col)).copied()
    }

    /// Plays a batch, where the host gives this column of the cursor, if any. It returns false for one of no known
    /// form, and leaves all as it was.
    pub fn take(&mut self, batch: &[Change], column: Option<usize>) -> bool {
        match Batch::read(batch) {
            Batch::Clears => self.clear(),
            Batch::Paints(texts) => self.fit_and_paint(&texts, column),
            Batch::Closes => self.close(),
            Batch::Unknown => return false,
        }
        true
    }

    /// Clears the whole screen, which is then entered at its first row.
    fn clear(&mut self) {
        self.clear_from(0);
        self.enter(0);
        self.is_known = true;
    }

    /// Paints the texts from the first row on, or from as far above as they need.
    fn fit_and_paint(&mut self, texts: &PaintedTexts<'_>, column: Option<usize>) {
        let needed = self.rows_of(texts, column);
        if needed > self.rows {
            self.is_known = false;
            return;
        }
        let end = self.first_row.saturating_add(needed);
        self.raise(end.saturating_sub(self.rows));
        self.paint(texts, column);
    }

    /// Ends a reading. The next one enters the screen in the row under the last one, which is scrolled into sight.
    fn close(&mut self) {
        let under = self.next_row();
        let row = under.min(self.rows.saturating_sub(1));
        self.raise(under.saturating_sub(row));
        self.clear_from(row);
        self.enter(row);
    }

    /// Enters the screen at the first column of a row.
    fn enter(&mut self, row: usize) {
        self.first_row = row;
        self.last_row = row;
        self.cursor = (row, 0);
    }

    /// Returns how many rows a painting takes, down to its last one or to the cursor's. The column of the cursor is the
    /// one given, or else the number of bytes before the cursor.
    fn rows_of(&self, texts: &PaintedTexts<'_>, column: Option<usize>) -> usize {
        let line = self.end_of(0, texts.prompt);
        let end = self.end_of(self.end_of(line, texts.front), texts.back);
        let cursor = line.saturating_add(column.unwrap_or(texts.front.len()));
        let lower = match texts.lower {
            Some(lower) => self.lower_rows(lower),
            None => 0,
        };
        let last = (end / self.width).saturating_add(lower);
        last.max(cursor / self.width).saturating_add(1)
    }

    /// Returns the row under the last one that was painted.
    fn next_row(&self) -> usize {
        self.last_row.saturating_add(1)
    }

    /// Moves all up by `count` rows, and adds blank ones below.
    fn raise(&mut self, count: usize) {
        let gone = self.index_of(count, 0).min(self.cells.len());
        self.cells.rotate_left(gone);
        let kept = self.cells.len().saturating_sub(gone);
        self.blank_from(kept);
        self.first_row = self.first_row.saturating_sub(count);
        self.last_row = self.last_row.saturating_sub(count);
        self.cursor.0 = self.cursor.0.saturating_sub(count);
    }

    /// Paints the texts from the row on where the screen was entered, and a blank after the line where it fills
    /// its last row. The column of the cursor is the one given, or else the number of bytes before the
    /// cursor.
    fn paint(&mut self, texts: &PaintedTexts<'_>, column: Option<usize>) {
        let row = self.first_row;
        self.clear_from(row);
        let line = self.put_text(row, 0, texts.prompt, false);
        let cursor = self.put_text(row, line, texts.front, false);
        let end = self.put_text(row, cursor, texts.back, true);
        if end > 0 && end % self.width == 0 {
            self.put(row, end, b' ', true);
        }
        self.cursor = self.place(
            row,
            line.saturating_add(column.unwrap_or(texts.front.len())),
        );
        self.last_row = row.saturating_add(end / self.width);
        if let Some(lower) = texts.lower {
            self.put_lower(lower);
        }
    }

    /// Returns the place of the cell of an index, from the start of a row on.
    fn place(&self, row: usize, index: usize) -> (usize, usize) {
        (row.saturating_add(index / self.width), index % self.width)
    }

    fn index_of(&self, row: usize, column: usize) -> usize {
        row.saturating_mul(self.width).saturating_add(column)
    }

    fn clear_from(&mut self, row: usize) {
        self.blank_from(self.index_of(row, 0));
    }

    fn blank_from(&mut self, index: usize) {
        for cell in self.cells.iter_mut().skip(index) {
            *cell = shown(b' ', false);
        }
    }

    /// Returns the index at which a character begins after `end` cells: in the next row if it does not fit.
    fn begin(&self, end: usize, columns: usize) -> usize {
        let left = self.width.saturating_sub(end % self.width);
        if columns > left {
            end.saturating_add(left)
        } else {
            end
        }
    }

    /// Returns how many cells there are with a text after `before` ones.
    fn end_of(&self, before: usize, text: &str) -> usize {
        let mut end = before;
        for byte in text.bytes() {
            let columns = columns_of(byte);
            if columns > 0 {
                end = self.begin(end, columns).saturating_add(columns);
            }
        }
        end
    }

    /// Puts a byte, marked or not, in the cell of an index, from the start of a row on.
    fn put(&mut self, row: usize, index: usize, byte: u8, is_marked: bool) {
        let (row, column) = self.place(row, index);
        let at = self.index_of(row, column);
        if let Some(cell) = self.cells.get_mut(at) {
            *cell = shown(byte, is_marked);
        }
    }

    /// Adds a byte to the cell of an index, from the start of a row on.
    fn add(&mut self, row: usize, index: usize, byte: u8) {
        let (row, column) = self.place(row, index);
        let at = self.index_of(row, column);
        if let Some(cell) = self.cells.get_mut(at) {
            cell.number = cell.number.wrapping_mul(256).wrapping_add(u128::from(byte));
        }
    }

    /// Puts a text, marked or not, after `before` cells from the start of a row on. Returns how many there are then.
    fn put_text(&mut self, row: usize, before: usize, text: &str, is_marked: bool) -> usize {
        let mut end = before;
        let mut first = before;
        for byte in text.bytes() {
            let columns = columns_of(byte);
            if columns == 0 {
                self.add(row, first, byte);
                continue;
            }
            first = self.begin(end, columns);
            end = first.saturating_add(columns);
            self.put(row, first, byte, is_marked);
            if columns == 2 {
                self.put(row, first.saturating_add(1), 0, is_marked);
            }
        }
        end
    }

    /// Puts each of the lower lines in the row under what stands above it.
    fn put_lower(&mut self, lower: &str) {
        for line in lower.split("\r\n") {
            let row = self.next_row();
            let _cells = self.put_text(row, 0, line, false);
            self.last_row = self.last_row.saturating_add(self.line_rows(line));
        }
    }

    /// Returns how many rows the lower lines take.
    fn lower_rows(&self, lower: &str) -> usize {
        let mut rows: usize = 0;
        for line in lower.split("\r\n") {
            rows = rows.saturating_add(self.line_rows(line));
        }
        rows
    }

    /// Returns how many rows a line under the line takes.
    fn line_rows(&self, line: &str) -> usize {
        self.end_of(0, line).div_ceil(self.width).max(1)
    }
}
