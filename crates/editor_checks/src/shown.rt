//! The terminal that receives what is written, beside the table of what it is to hold.

ghost use Rattle.std.specs.Prelude.{◌<◌};

use crate::table::{Entry, Table};
use crate::trial::Trial;
use ecma_terminal::EcmaTerminal;
use std::alloc::Global;
use tw_surface::Change;

/// A terminal after ECMA-48, and beside it what it is to hold.
#[derive(Drop)]
pub struct Shown {
    terminal: EcmaTerminal,
    table: Table,
}

/// What was found after a batch.
#[derive(Clone, Copy)]
pub enum Found {
    /// So many cells were compared, and so many hold something else.
    Compared { cells: usize, differences: usize },
    /// A painting has more rows than the screen, so nothing is known.
    TooHigh,
    /// The batch is of no known form.
    Unknown,
}

impl Shown {
    /// Creates the screen of a trial, with the cursor in the first row.
    pub fn new(alloc: Global, trial: &Trial) -> Result<Self, anyhow::Error> {
        let rows = trial.size.rows;
        let cols = trial.size.cols;
        let terminal = EcmaTerminal::new(alloc, rows, cols, trial.entry.cell())?;
        let table = Table::new(alloc, rows, cols, trial.entry)?;
        Ok(Shown { terminal, table })
    }

    /// Moves the cursor down to the row where the screen is entered.
    pub fn enter(&mut self, entry: Entry) -> Result<(), anyhow::Error> {
        for _ in 0..entry.row(self.terminal.rows()) {
            self.terminal.receive(b'\n')?;
        }
        Ok(())
    }

    /// Has the terminal receive the bytes of a batch, and compares it with what it should hold then.
    pub fn take(
        &mut self,
        batch: &[Change],
        column: Option<usize>,
        bytes: &[u8],
    ) -> Result<Found, anyhow::Error> {
        self.terminal.receive_all(bytes)?;
        if !self.table.take(batch, column) {
            return Ok(Found::Unknown);
        }
        if !self.table.is_known() {
            return Ok(Found::TooHigh);
        }
        Ok(self.compared())
    }

    /// Compares each cell and the cursor. A cursor that stands elsewhere, or waits, counts as one cell.
    fn compared(&self) -> Found {
        let mut cells: usize = 0;
        let mut differences: usize = 0;
        for row in 0..self.terminal.rows() {
            for col in 0..self.terminal.cols() {
                cells = cells.saturating_add(1);
                if self.terminal.cell(row, col) != self.table.cell(row, col) {
                    differences = differences.saturating_add(1);
                }
            }
        }
        if self.terminal.cursor() != self.table.cursor() || self.terminal.waits() {
            differences = differences.saturating_add(1);
        }
        Found::Compared { cells, differences }
    }
}
