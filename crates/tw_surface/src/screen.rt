//! A model screen, which shows what a terminal would show after changes.

ghost use Rattle.std.specs.Prelude.{string_bytes, ◌++◌, ◌≡◌, ℕ, ◌+◌, ◌*◌, length, ◌<◌, ◌≤◌, ◌↔◌, true, false, List, Ok, Err, OnOk, OnErr};
ghost use Rattle.std.specs.List.{list_all};
ghost use Rattle.tw_surface.specs.ChangeView.{change_view, Text as TextView};
ghost use Rattle.tw_surface.specs.Characters.{is_plain};
ghost use Rattle.tw_surface.specs.Pictures.{blank, cells_cleared_from, play, play_text, can_play};
ghost use Rattle.tw_surface.specs.Cells.{shown_at, picture, blank_screen, ended_rows, row_of, AddsPart, IsInOrder, IsSparse, IsTrimmed, AreEnded, IsLastRow};
ghost use Rattle.tw_surface.specs.ScreenSteps.{moved_from, with_cursor_moved, IsPastLimit, RefusesPastLimit};

mod far;
mod near;
mod play;
mod room;
mod row;
mod scroll;

use crate::change::{Change, Position};
use crate::characters::is_plain_text;
use crate::screen::far::{Cell, char_in, clear_from, row_end, trim_cells};
use crate::screen::near::{near_row, place_of, trim};
use crate::screen::play::{LAST_ROW, ends_in_range, play_bytes, reach};
use crate::screen::room::make_room;
use crate::screen::row::{push_ascii, push_blanks};
use crate::size::{MAX_SIZE, SizeFault};
use std::alloc::{AllocError, Global};
use std::error::Error;
use std::fmt;
use std::marker::Model;

/// Why a screen refuses a change. Each refusal leaves the screen as it was.
#[derive(Debug, Copy, Clone, PartialEq, Eq)]
pub enum ScreenFault {
    /// There is no memory for the characters of a text.
    Memory,
    /// A text has a character that is neither printable ASCII nor CR nor LF.
    NotPlain,
    /// The cursor's row would be above 4,294,967,295.
    OutOfRange,
}

impl fmt::Display for ScreenFault {
    fn fmt<W: fmt::Write>(&self, f: &mut fmt::Formatter<W>) -> fmt::Result {
        f.write_str(match self {
            ScreenFault::Memory => "out of memory",
            ScreenFault::NotPlain => "text is not plain",
            ScreenFault::OutOfRange => "row out of range",
        })
    }
}

impl Error for ScreenFault {}

fn shown_char(near: &[u8], far: &[Cell], width: usize, row: usize, col: usize) -> char
    requires { IsInOrder far.now }
    ensures { result ≡ shown_at width near.now far.now row col }
{
    if col < width {
        if let Some(byte) = near.get(place_of(width, row, col)) {
            return *byte as char;
        }
    }
    char_in(far, row, col)
}

fn last_row_of(near: &[u8], far: &[Cell], width: usize) -> Option<usize>
    requires width { 0 < width }
    requires sparse { IsSparse width (length near.now) far.now }
    requires trimmed { IsTrimmed near.now }
    requires ended { AreEnded far.now }
    ensures { IsLastRow (shown_at width near.now far.now) result }
{
    match far {
        [] => Some(near.len().checked_sub(1)? / width),
        [.., last] => Some(last.row),
    }
}

/// A screen without a bottom: a character in each cell, blank at first, and a cursor. Rows and
/// columns are numbered from 0, and the cursor's column is the width where it waits after the last
/// column. Of the rows far below all others a screen keeps only the cells that were written, so a far
/// row costs no memory.
#[derive(Debug, Drop)]
pub struct Screen {
    width: usize,
    row: usize,
    col: usize,
    near: Vec<u8>,
    far: Vec<Cell>,
}

impl Model for Screen {
    ghost use Rattle.tw_surface.specs.Cells.{ScreenView, IsSettled};

    ghost Value = { ScreenView };

    ghost view = { λ s. record { width = s.width; row = s.row; col = s.col; near = s.near.items; far = s.far.items } };

    ghost invariant = { λ s. IsSettled s.width s.row s.col s.near.items s.far.items };
}

impl Screen {
    /// Creates a blank screen of 1 to 65,535 columns, with the cursor at (0, 0). Takes no memory.
    pub fn new(alloc: Global, width: usize) -> Result<Self, SizeFault>
        ensures zero { (result ≡ Err SizeFault.ZeroSize) ↔ (width ≡ 0) }
        ensures large { (result ≡ Err SizeFault.OutOfRange) ↔ (65535 < width) }
        ensures ok { 0 < width → width ≤ 65535 → result ≡ Ok (blank_screen width) }
    {
        if width == 0 {
            return Err(SizeFault::ZeroSize);
        }
        if width > MAX_SIZE {
            return Err(SizeFault::OutOfRange);
        }
        Ok(Screen {
            width,
            row: 0,
            col: 0,
            near: Vec::new(alloc),
            far: Vec::new(alloc),
        })
    }

    /// Returns the number of columns.
    pub fn width(&self) -> usize
        ensures { result ≡ self.now.width }
    {
        self.width
    }

    /// Returns the character at a row and a column: a blank where nothing was written, and from the width on.
    #[tactic(auto, using(crate::proofs::NearCells::shown_outside))]
    pub fn char_at(&self, row: usize, col: usize) -> char
        ensures shown { result ≡ (picture self.now).cell row col }
        ensures outside { self.now.width ≤ col → result ≡ blank }
    {
        shown_char(&self.near, &self.far, self.width, row, col)
    }

    /// Appends the first `rows` rows to a text, each with `end` behind it, or some of that if there is no memory.
    #[inline(always)]
    pub fn push_rows(&self, rows: usize, end: &str, shown: &mut String) -> Result<(), AllocError>
        ensures added { OnOk result (string_bytes shown.new ≡ string_bytes shown.old
            ++ ended_rows (picture self.now).cell self.now.width end.now rows) }
        ensures refused { OnErr result (AddsPart (string_bytes shown.old)
            (ended_rows (picture self.now).cell self.now.width end.now rows)
            (string_bytes shown.new)) }
    {
        let mut near = self.near.chunks_exact(self.width);
        for row in 0..rows {
            match near.next() {
                Some(cells) => push_ascii(shown, cells)?,
                None => self.push_row(row, self.width, shown)?,
            }
            shown.push_str(end)?;
        }
        Ok(())
    }

    /// Appends the characters in the first `cols` columns of a row to a text, or nothing if there is no memory.
    #[inline(never)]
    pub fn push_row(&self, row: usize, cols: usize, shown: &mut String) -> Result<(), AllocError>
        ensures added { OnOk result (string_bytes shown.new
            ≡ string_bytes shown.old ++ row_of (picture self.now).cell row cols) }
        ensures refused { OnErr result (string_bytes shown.new ≡ string_bytes shown.old) }
    {
        let first = near_row(&self.near, self.width, row, cols);
        if first.len() == cols {
            return push_ascii(shown, first);
        }
        shown.reserve(cols)?;
        push_ascii(shown, first)?;
        let end = row_end(&self.far, self.width, row)
            .min(cols)
            .max(first.len());
        for col in first.len()..end {
            shown.push(self.char_at(row, col))?;
        }
        push_blanks(shown, cols - end)
    }

    /// Returns the cursor's row and column. The column is the width where the cursor waits after the last.
    pub fn cursor(&self) -> (usize, usize)
        ensures row { result.0 ≡ (picture self.now).row }
        ensures col { result.1 ≡ (picture self.now).col }
        ensures row_most { result.0 ≤ 4294967295 }
        ensures col_most { result.1 ≤ self.now.width }
    {
        (self.row, self.col)
    }

    /// Returns the greatest row with a character that is not a blank, or `None` if there is none.
    pub fn last_row(&self) -> Option<usize>
        ensures { IsLastRow (picture self.now).cell result }
    {
        last_row_of(&self.near, &self.far, self.width)
    }

    /// Plays a change, or refuses it and leaves the screen as it was. Only a text takes memory, and
    /// it is tested before it does.
    pub fn apply(&mut self, change: &Change) -> Result<(), ScreenFault>
        ensures width { self.new.width ≡ self.old.width }
        ensures played { OnOk result (picture self.new
            ≡ play self.old.width (change_view change.now) (picture self.old)) }
        ensures refused { OnErr result (self.new ≡ self.old) }

        // A text that can't be played is NotPlain, also where a row would pass the limit.
        ensures plain { (result ≡ Err ScreenFault.NotPlain)
            ↔ (can_play (change_view change.now) ≡ false) }
        ensures range { RefusesPastLimit (change_view change.now) self.old result }
        ensures memory { result ≡ Err ScreenFault.Memory → (text : List ℕ)
            × (change_view change.now ≡ TextView text) }
    {
        // The row is in range, also where no field is used.
        let _ = &self.row;
        match change {
            Change::Attribute(_) | Change::AllAttributes(_) => Ok(()),
            Change::Text(text) => self.write_text(text.as_bytes()),
            Change::ClearScreen(_) => {
                self.clear();
                Ok(())
            }
            Change::ClearToEndOfScreen(_) => {
                self.clear_to_end();
                Ok(())
            }
            Change::CursorPosition { x, y } => self.move_cursor(*x, *y),
        }
    }

    #[tactic(auto, using(crate::proofs::TextCursor::row_of_text))]
    fn write_text(&mut self, text: &[u8]) -> Result<(), ScreenFault>
        ensures width { self.new.width ≡ self.old.width }
        ensures played { OnOk result (picture self.new
            ≡ play_text self.old.width text.now (picture self.old)) }
        ensures refused { OnErr result (self.new ≡ self.old) }
        ensures plain { (result ≡ Err ScreenFault.NotPlain) ↔ (list_all is_plain text.now ≡ false) }
        ensures range { list_all is_plain text.now ≡ true →
            ((result ≡ Err ScreenFault.OutOfRange) ↔ IsPastLimit (TextView text.now) self.old) }
    {
        if !is_plain_text(text) {
            return Err(ScreenFault::NotPlain);
        }
        if !ends_in_range(self.width, self.row, self.col, text) {
            return Err(ScreenFault::OutOfRange);
        }
        let end = place_of(self.width, self.row, self.col).saturating_add(reach(self.width, text));
        if make_room(&mut self.near, &mut self.far, self.width, end, text.len()).is_err() {
            return Err(ScreenFault::Memory);
        }
        let (row, col) = play_bytes(
            &mut self.near,
            &mut self.far,
            self.width,
            self.row,
            self.col,
            text,
        );
        trim(&mut self.near);
        trim_cells(&mut self.far);
        self.row = row;
        self.col = col;
        Ok(())
    }

    fn clear(&mut self)
        ensures { self.new ≡ blank_screen self.old.width }
    {
        self.near.clear();
        self.far.clear();
        self.row = 0;
        self.col = 0;
    }

    fn clear_to_end(&mut self)
        ensures width { self.new.width ≡ self.old.width }
        ensures cleared { let before = picture self.old in
            picture self.new
            ≡ record before { cell = cells_cleared_from before.cell self.old.row self.old.col } }
    {
        self.near.truncate(place_of(self.width, self.row, self.col));
        trim(&mut self.near);
        clear_from(&mut self.far, self.row, self.col);
    }

    fn move_cursor(&mut self, x: Position, y: Position) -> Result<(), ScreenFault>
        ensures moved { OnOk result (self.new ≡ with_cursor_moved x y self.old) }
        ensures refused { OnErr result (self.new ≡ self.old) }
        ensures range { (result ≡ Err ScreenFault.OutOfRange)
            ↔ (4294967295 < moved_from y self.old.row) }
        ensures only_range { OnErr result (result ≡ Err ScreenFault.OutOfRange) }
    {
        let row = y.moved_from(self.row);
        if row > LAST_ROW {
            return Err(ScreenFault::OutOfRange);
        }
        self.col = x.moved_from(self.col).min(self.width - 1);
        self.row = row;
        Ok(())
    }
}
