//! The cells of a terminal.

ghost use Rattle.std.specs.Prelude.{◌≡◌, ◌<◌, ◌≤◌, ◌+◌, None, Some, length, map, true, false, IfOk};
ghost use Rattle.laws_screens.specs.Strokes.{put_in, put_all, cleared_in};
ghost use Rattle.laws_screens.specs.StyledCells.{styled};
ghost use Rattle.tw_ansi.specs.EcmaScreen.{joined_in, row_cleared};
ghost use Rattle.ecma_terminal.specs.Cells.{shown_cell};
ghost use Rattle.ecma_terminal.specs.Grids.{AreFilled, AreShifted, IsFilledWith, Redraws, grid_cell, is_full, raised_rows};

use crate::cell::TerminalCell;
use std::alloc::{AllocError, Global};
use std::marker::Model;

/// The cells of some rows and columns, one row after the other. Both are numbered from 0.
#[derive(Debug, Drop)]
pub(crate) struct Grid {
    rows: usize,
    cols: usize,
    cells: Vec<TerminalCell>,
}

impl Model for Grid {
    ghost use Rattle.ecma_terminal.specs.Grids.{GridView, IsGrid};

    ghost Value = { GridView };

    ghost view = { λ s. record { rows = s.rows; cols = s.cols; cells = s.cells.items } };

    ghost invariant = { λ s. IsGrid
        (record { rows = s.rows; cols = s.cols; cells = s.cells.items }) };
}

/// Makes the cells from one place to before another all the same.
#[tactic(auto, using(crate::proofs::GridLemmas::filled_none, crate::proofs::GridLemmas::filled_more))]
fn fill(cells: &mut [TerminalCell], from: usize, to: usize, cell: TerminalCell)
    requires order { from ≤ to }
    requires within { to ≤ length cells.old }
    ensures { AreFilled from to cell cells.old cells.new }
{
    for place in from..to {
        cells[place] = cell;
    }
}

/// Moves the cells `by` places to the front. The last ones stay.
fn shift(cells: &mut [TerminalCell], by: usize)
    requires { by ≤ length cells.old }
    ensures { AreShifted by cells.old cells.new }
{
    for place in by..cells.len() {
        cells[place - by] = cells[place];
    }
}

impl Grid {
    /// Creates a grid whose cells are all `cell`.
    pub(crate) fn new(
        alloc: Global,
        rows: usize,
        cols: usize,
        cell: TerminalCell,
    ) -> Result<Self, AllocError>
        requires rows_above { 0 < rows }
        requires rows_most { rows ≤ 65535 }
        requires cols_above { 0 < cols }
        requires cols_most { cols ≤ 65535 }
        ensures { IfOk result (λ grid. IsFilledWith rows cols (shown_cell cell) grid) }
    {
        Ok(Grid {
            rows,
            cols,
            cells: vec![in alloc; cell; rows * cols]?,
        })
    }

    /// Returns the number of rows.
    pub(crate) fn rows(&self) -> usize
        ensures value { result ≡ self.now.rows }
        ensures above { 0 < result }
        ensures most { result ≤ 65535 }
    {
        self.rows
    }

    /// Returns the number of columns.
    pub(crate) fn cols(&self) -> usize
        ensures value { result ≡ self.now.cols }
        ensures above { 0 < result }
        ensures most { result ≤ 65535 }
    {
        self.cols
    }

    /// Returns the cell at a row and a column, or none after the last ones.
    pub(crate) fn cell(&self, row: usize, col: usize) -> Option<TerminalCell>
        ensures inside { row < self.now.rows → col < self.now.cols → result
            ≡ Some (grid_cell self.now row col) }
        ensures below { self.now.rows ≤ row → result ≡ None }
        ensures behind { self.now.cols ≤ col → result ≡ None }
    {
        if row >= self.rows || col >= self.cols {
            return None;
        }
        Some(self.cells[row * self.cols + col])
    }

    /// Puts a cell at a row and a column.
    pub(crate) fn put(&mut self, row: usize, col: usize, cell: TerminalCell)
        requires row { row < self.old.rows }
        requires col { col < self.old.cols }
        ensures { Redraws self.old (λ cells. put_in cells row col (shown_cell cell)) self.new }
    {
        self.cells[row * self.cols + col] = cell;
    }

    /// Puts cells at a row from a column on.
    #[tactic(auto, using(crate::proofs::GridLemmas::put_none, crate::proofs::GridLemmas::put_more, crate::proofs::GridLemmas::put_done))]
    pub(crate) fn put_all(&mut self, row: usize, col: usize, cells: &[TerminalCell])
        requires row { row < self.old.rows }
        requires cols { col + length cells.now ≤ self.old.cols }
        requires most { col + length cells.now ≤ 65535 }
        ensures { Redraws self.old
            (λ shown. put_all shown row col (map shown_cell cells.now)) self.new }
    {
        for index in 0..cells.len() {
            self.put(row, col + index, cells[index]);
        }
    }

    /// Adds a mark to the cell at a row and a column, if there is one. It returns false if that has more than 16 bytes
    /// then, and changes nothing.
    pub(crate) fn join(&mut self, row: usize, col: usize, mark: &[u8]) -> bool
        ensures joined { result ≡ true → Redraws self.old
            (λ cells. joined_in styled.join cells row col mark.now) self.new }
        ensures same { result ≡ false → self.new ≡ self.old }
        ensures full { result ≡ false → is_full self.old row col mark.now ≡ true }
    {
        let Some(cell) = self.cell(row, col) else {
            return true;
        };
        let Some(longer) = cell.join(mark) else {
            return false;
        };
        self.put(row, col, longer);
        true
    }

    /// Moves all rows up by one, and adds a row of `blank`.
    pub(crate) fn raise(&mut self, blank: TerminalCell)
        ensures { Redraws self.old (raised_rows self.old.rows (shown_cell blank)) self.new }
    {
        let end = self.cells.len();
        shift(self.cells.as_mut_slice(), self.cols);
        fill(self.cells.as_mut_slice(), end - self.cols, end, blank);
    }

    /// Makes all cells this one.
    #[tactic(auto, using(crate::proofs::GridLemmas::fill_redraws, crate::proofs::GridLemmas::all_test))]
    pub(crate) fn clear(&mut self, paper: TerminalCell)
        ensures { Redraws self.old (λ cells r c. shown_cell paper) self.new }
    {
        let end = self.cells.len();
        fill(self.cells.as_mut_slice(), 0, end, paper);
    }

    /// Makes all cells from a row and a column on this one, in that row and in all rows below.
    pub(crate) fn clear_behind(&mut self, row: usize, col: usize, paper: TerminalCell)
        requires row { row < self.old.rows }
        requires col { col < self.old.cols }
        ensures { Redraws self.old (λ cells. cleared_in cells row col
            (shown_cell paper)) self.new }
    {
        let end = self.cells.len();
        fill(self.cells.as_mut_slice(), row * self.cols + col, end, paper);
    }

    /// Makes the cells of a row from a column on this one.
    pub(crate) fn clear_row(&mut self, row: usize, col: usize, paper: TerminalCell)
        requires row { row < self.old.rows }
        requires col { col < self.old.cols }
        ensures { Redraws self.old (λ cells. row_cleared cells row col
            (shown_cell paper)) self.new }
    {
        let start = row * self.cols;
        fill(
            self.cells.as_mut_slice(),
            start + col,
            start + self.cols,
            paper,
        );
    }
}
