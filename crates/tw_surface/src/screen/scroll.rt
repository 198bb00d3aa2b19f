//! Rows of a screen that go up, and off it.

ghost use Rattle.std.specs.Prelude.{◌≡◌, ℕ, ◌+◌, ◌-◌, ◌*◌, ◌≤◌, drop, length, map};
ghost use Rattle.std.specs.List.{All};
ghost use Rattle.tw_surface.specs.Cells.{cell_in, picture, higher_cell, IsInOrder, IsPartedAt, IsSparse, AreEnded};
ghost use Rattle.tw_surface.specs.Pictures.{blank};
ghost use Rattle.tw_surface.specs.Scrolling.{from_row};

use crate::screen::Screen;
use crate::screen::far::{Cell, find_cell};
use crate::screen::near::place_of;

// Moves cells up by `rows` rows.
fn raise_cells(cells: &mut [Cell], rows: usize)
    requires { All (λ x. rows ≤ x.row) cells.old }
    ensures { cells.new ≡ map (higher_cell rows) cells.old }
{
    for cell in cells.iter_mut() {
        cell.row -= rows;
    }
}

// How many of the cells stand above a row.
fn count_above(cells: &[Cell], row: usize) -> usize
    requires { IsInOrder cells.now }
    ensures { IsPartedAt cells.now row result }
{
    match find_cell(cells, row, 0) {
        Ok(at) | Err(at) => at,
    }
}

fn drop_first(cells: &mut Vec<Cell>, count: usize)
    requires { count ≤ length cells.old.items }
    ensures { cells.new.items ≡ drop count cells.old.items }
{
    cells.drain(..count);
}

// Drops the cells of the first rows, and the others go up.
fn drop_rows(cells: &mut Vec<Cell>, rows: usize)
    requires { IsInOrder cells.old.items }
    ensures raised { cell_in cells.new.items ≡ (λ r c. cell_in cells.old.items (r + rows) c) }
    ensures sparse { (width first : ℕ) → IsSparse width first cells.old.items
        → IsSparse width (first - rows * width) cells.new.items }
    ensures ended { AreEnded cells.old.items → AreEnded cells.new.items }
{
    let count = count_above(cells, rows);
    drop_first(cells, count);
    raise_cells(cells, rows);
}

impl Screen {
    // The rows go up with the cursor, and of the first ones nothing is kept. The cursor stands below those.
    pub(crate) fn scroll_up(&mut self, rows: usize)
        requires { rows ≤ self.old.row }
        ensures width { self.new.width ≡ self.old.width }
        ensures raised { picture self.new ≡ from_row rows (picture self.old) }
        ensures near { (h : ℕ) → ((r c : ℕ) → h ≤ r → (picture self.new).cell r c ≡ blank)
            → length self.new.near ≤ h * self.new.width }
    {
        let count = place_of(self.width, rows, 0).min(self.near.len());
        self.near.drain(..count);
        drop_rows(&mut self.far, rows);
        self.row -= rows;
    }
}
