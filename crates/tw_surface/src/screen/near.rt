//! Near cells: the first cells of a screen, blanks among them, in one line, row after row without a break. Between
//! changes the last of them is not blank.

ghost use Rattle.std.specs.Prelude.{◌≡◌, ℕ, ◌+◌, ◌-◌, ◌*◌, ◌^◌, min, length, take, ◌<◌, ◌≤◌, true, false, vec_len, vec_capacity, slice_index};
ghost use Rattle.std.specs.List.{All, list_all};
ghost use Rattle.tw_surface.specs.Characters.{is_printable};
ghost use Rattle.tw_surface.specs.Pictures.{cursor_at, play_text};
ghost use Rattle.tw_surface.specs.Cells.{IsGrown, IsOverwritten, IsTrimmed};
ghost use Rattle.tw_surface.specs.ScreenSteps.{AreNearFrom};

use crate::characters::is_printable;

// The place of a cell in one line of all rows, or the greatest number where that is less.
pub fn place_of(width: usize, row: usize, col: usize) -> usize
    ensures { result ≡ min (row * width + col) (2 ^ 64 - 1) }
{
    row.saturating_mul(width).saturating_add(col)
}

// Adds blanks up to a place for which there is room.
pub fn blank_to(near: &mut Vec<u8>, end: usize)
    requires { end ≤ vec_capacity near.old }
    ensures grown { IsGrown near.old.items near.new.items }
    ensures len { vec_len near.old ≤ end → vec_len near.new ≡ end }
    ensures most { end ≤ vec_len near.old → near.new.items ≡ near.old.items }
    ensures capacity { vec_capacity near.old ≤ vec_capacity near.new }
{
    if near.len() < end {
        let _ = near.resize(end, b' ');
    }
}

// Drops the blanks at the end.
#[tactic(auto, using(crate::proofs::NearCells::trimmed_at))]
pub fn trim(near: &mut Vec<u8>)
    ensures kept { IsGrown near.new.items near.old.items }
    ensures trimmed { IsTrimmed near.new.items }
{
    let mut end = near.len();
    while end > 0 && near[end - 1] == b' ' {
        end -= 1;
    }
    near.truncate(end);
}

// How many printable characters a text begins with.
pub fn printable_run(text: &[u8]) -> usize
    ensures within { result ≤ length text.now }
    ensures printable { list_all is_printable (take result text.now) ≡ true }
    ensures stops { result < length text.now → is_printable (slice_index text.now result) ≡ false }
{
    let mut end = 0;
    while end < text.len() && is_printable(text[end]) {
        end += 1;
    }
    end
}

// Puts characters over others.
fn overwrite(near: &mut [u8], place: usize, run: &[u8])
    requires { place + length run.now ≤ length near.old }
    ensures len { length near.new ≡ length near.old }
    ensures written { IsOverwritten near.old near.new place run.now }
{
    near[place..place + run.len()].copy_from_slice(run);
}

// Writes printable characters over near cells, and returns the cursor after them.
pub fn write_run(
    near: &mut [u8],
    width: usize,
    row: usize,
    col: usize,
    run: &[u8],
) -> (usize, usize)
    requires width_above { 0 < width }
    requires width_most { width ≤ 65535 }
    requires row { row ≤ 4294967295 }
    requires col { col ≤ width }
    requires some { 0 < length run.now }
    requires printable { list_all is_printable run.now ≡ true }
    requires room { row * width + col + length run.now ≤ length near.old }
    ensures near_len { length near.new ≡ length near.old }
    ensures ascii { All (λ b. b < 128) near.old → All (λ b. b < 128) near.new }
    ensures written { IsOverwritten near.old near.new (row * width + col) run.now }
    ensures within { result.1 ≤ width }
    ensures place { result.0 * width + result.1 ≡ row * width + col + length run.now }
    ensures row { result.0 ≡ (play_text width run.now (cursor_at row col)).row }
    ensures col { result.1 ≡ (play_text width run.now (cursor_at row col)).col }
{
    let place = place_of(width, row, col);
    overwrite(near, place, run);
    let last = col + run.len() - 1;
    (row + last / width, last % width + 1)
}

// The near cells in the first columns of a row, as far as they go.
pub fn near_row(near: &[u8], width: usize, row: usize, cols: usize) -> &[u8]
    ensures len { length result.now ≤ cols }
    ensures width { length result.now ≤ width }
    ensures near { AreNearFrom (row * width) near.now result.now }
    ensures all { (k : ℕ) → length result.now ≤ k → k < cols → k < width → length near.now
        ≤ row * width + k }
{
    let start = place_of(width, row, 0).min(near.len());
    let count = cols.min(width).min(near.len() - start);
    &near[start..start + count]
}
