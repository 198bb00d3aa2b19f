//! What was played.

use crate::shown::Found;
use std::fmt;

/// What was played, and what was found.
#[derive(Clone, Copy, Default)]
pub struct Count {
    /// The strings of bytes that came.
    pub strings: u64,
    /// Their bytes.
    pub typed: u64,
    /// The lines read.
    pub readings: u64,
    /// The batches painted.
    pub batches: u64,
    /// The bytes written.
    pub bytes: u64,
    /// The cells compared.
    pub cells: u64,
    /// The batches after which the cells were not, since a painting has more rows than the screen.
    pub skipped: u64,
    /// The batches of other bytes, the batches that are missing or too many, the cells that hold something else, the
    /// cursors that stand elsewhere, and the lines that ended in another way.
    pub differences: u64,
}

impl Count {
    /// Counts a difference, where there is one.
    pub fn note(&mut self, differs: bool) {
        self.differences = self.differences.saturating_add(u64::from(differs));
    }

    /// Counts what was found after a batch.
    pub fn add_found(&mut self, found: Found) {
        match found {
            Found::Compared { cells, differences } => {
                self.cells = self.cells.saturating_add(cells as u64);
                self.differences = self.differences.saturating_add(differences as u64);
            }
            Found::TooHigh => self.skipped = self.skipped.saturating_add(1),
            Found::Unknown => self.note(true),
        }
    }

    /// Adds what another count holds.
    pub fn add(&mut self, other: Count) {
        self.strings = self.strings.saturating_add(other.strings);
        self.typed = self.typed.saturating_add(other.typed);
        self.readings = self.readings.saturating_add(other.readings);
        self.batches = self.batches.saturating_add(other.batches);
        self.bytes = self.bytes.saturating_add(other.bytes);
        self.cells = self.cells.saturating_add(other.cells);
        self.skipped = self.skipped.saturating_add(other.skipped);
        self.differences = self.differences.saturating_add(other.differences);
    }
}

impl fmt::Display for Count {
    fn fmt<W: fmt::Write>(&self, f: &mut fmt::Formatter<W>) -> fmt::Result {
        for (number, words) in &[
            (self.strings, " strings of "),
            (self.typed, " bytes, "),
            (self.readings, " readings, "),
            (self.batches, " batches in "),
            (self.bytes, " bytes, "),
            (self.cells, " cells compared, "),
            (self.skipped, " batches too high, "),
            (self.differences, " differences"),
        ] {
            write!(f, "{number}{words}")?;
        }
        Ok(())
    }
}
