//! Far cells: after the near ones a screen keeps the cells that were written, in order. Between changes the last of
//! them is not blank.

ghost use Rattle.std.specs.Prelude.{◌≡◌, ℕ, ◌+◌, ◌<◌, ◌≤◌, vec_len, vec_capacity, IfOk, IfErr};
ghost use Rattle.tw_surface.specs.Pictures.{blank, cells_with, cells_cleared_from};
ghost use Rattle.tw_surface.specs.Cells.{cell_in, IsInOrder, IsAt, IsGapFor, IsCountBefore, IsSparse, AreEnded};
ghost use Rattle.tw_surface.specs.ScreenSteps.{StaysSparse};

// A cell that was written.
#[derive(Debug, Copy, Clone)]
pub struct Cell {
    pub row: usize,
    pub col: usize,
    pub ch: char,
}

// The index of the cell at a row and a column, or where it would go.
pub fn find_cell(cells: &[Cell], row: usize, col: usize) -> Result<usize, usize>
    requires { IsInOrder cells.now }
    ensures found { IfOk result (IsAt cells.now row col) }
    ensures absent { IfErr result (IsGapFor cells.now row col) }
{
    cells.binary_search_by_key(&(row, col), |cell| (cell.row, cell.col))
}

// The character at a row and a column.
pub fn char_in(cells: &[Cell], row: usize, col: usize) -> char
    requires { IsInOrder cells.now }
    ensures { result ≡ cell_in cells.now row col }
{
    match find_cell(cells, row, col) {
        Ok(at) => cells[at].ch,
        Err(_) => ' ',
    }
}

// Puts a character into a cell. A blank after all cells is kept, and one between them is not, where none is.
pub fn write_cell(cells: &mut Vec<Cell>, row: usize, col: usize, ch: char)
    requires ascii { ch < 128 }
    requires room { vec_len cells.old < vec_capacity cells.old }
    requires ordered { IsInOrder cells.old.items }
    ensures written { cell_in cells.new.items ≡ cells_with (cell_in cells.old.items) row col ch }
    ensures sparse { StaysSparse row col cells.old.items cells.new.items }
    ensures len { vec_len cells.new ≤ vec_len cells.old + 1 }
    ensures capacity { vec_capacity cells.old ≤ vec_capacity cells.new }
{
    match find_cell(cells, row, col) {
        Ok(at) => cells[at] = Cell { row, col, ch },
        Err(at) if ch == ' ' && at < cells.len() => {}
        Err(at) => {
            let _ = cells.insert(at, Cell { row, col, ch });
        }
    }
}

// Drops the blanks at the end.
pub fn trim_cells(cells: &mut Vec<Cell>)
    ensures shown { cell_in cells.new.items ≡ cell_in cells.old.items }
    ensures sparse { (width first : ℕ) → IsSparse width first cells.old.items
        → IsSparse width first cells.new.items }
    ensures ended { AreEnded cells.new.items }
{
    let mut end = cells.len();
    while end > 0 && cells[end - 1].ch == ' ' {
        end -= 1;
    }
    cells.truncate(end);
}

// How many cells stand before a row and a column.
#[tactic(auto, using(crate::proofs::CellClears::cut_at, crate::proofs::CellClears::cut_at_gap))]
fn count_before(cells: &[Cell], row: usize, col: usize) -> usize
    requires { IsInOrder cells.now }
    ensures { IsCountBefore cells.now row col result }
{
    match find_cell(cells, row, col) {
        Ok(at) => at,
        Err(at) => at,
    }
}

// Removes the cells at a row and a column and after it, and the blanks at the end of the others.
pub fn clear_from(cells: &mut Vec<Cell>, row: usize, col: usize)
    requires { IsInOrder cells.old.items }
    ensures cleared { cell_in cells.new.items
        ≡ cells_cleared_from (cell_in cells.old.items) row col }
    ensures sparse { (width first : ℕ) → IsSparse width first cells.old.items
        → IsSparse width first cells.new.items }
    ensures ended { AreEnded cells.new.items }
{
    cells.truncate(count_before(cells, row, col));
    trim_cells(cells);
}

// The column after the last cell of a row, 0 where there is none.
pub fn row_end(cells: &[Cell], width: usize, row: usize) -> usize
    requires { (first : ℕ) × IsSparse width first cells.now }
    ensures { (col : ℕ) → result ≤ col → cell_in cells.now row col ≡ blank }
{
    match &cells[..count_before(cells, row, width)] {
        [.., last] if last.row == row => last.col + 1,
        _ => 0,
    }
}
