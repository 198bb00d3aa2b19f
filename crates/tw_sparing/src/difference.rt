//! Where two screens differ.

ghost use Rattle.std.specs.Prelude.{◌≡◌, ℕ, ◌<◌, ◌≤◌, ◌+◌, ◌-◌, ◌*◌, IfSome, Some, None, is_none, ltb, true, false, if◌then◌else◌, not};
ghost use Rattle.tw_sparing.specs.StyledScreens.{styled_cell};
ghost use Rattle.tw_sparing.specs.ChangedScreens.{AreByBytes, AreAllByBytes};
ghost use Rattle.tw_sparing.specs.Differences.{differ_in, is_same_cell, first_changed, last_changed, is_used, end_of};
ghost use Rattle.tw_line.specs.Extremes.{greatest_below, least_from};
ghost use Rattle.tw_sparing.specs.Redrawings.{ends_blank, goes_onward, indexed, left_of};
ghost use Rattle.tw_sparing.specs.Sending.{AreSingle, IsTypable, screen_cells};

use crate::cell::{ScreenCell, is_same, is_single};
use crate::hand::Hand;
use crate::laws::colors;
use crate::screen::StyledScreen;
use tw_surface::ColorAttribute;

/// Returns what stands at a row and a column of a screen that was emptied from an index on, counted along the rows.
fn left_at(screen: &StyledScreen, from: Option<usize>, row: usize, col: usize) -> ScreenCell
    requires { col < screen.now.width }
    ensures { styled_cell result ≡ left_of screen.now.width from (screen_cells screen.now) row col }
{
    let width = screen.width();
    match from {
        Some(from) if from / width < row || (from / width == row && from % width <= col) => {
            ScreenCell::blank(ColorAttribute::Default)
        }
        _ => *screen.at(row, col),
    }
}

/// Returns true if two screens differ in a cell, the old one being emptied from an index on.
fn differ_at(
    old: &StyledScreen,
    from: Option<usize>,
    new: &StyledScreen,
    row: usize,
    col: usize,
) -> bool
    requires old { col < old.now.width }
    requires new { col < new.now.width }
    ensures { result ≡ differ_in (left_of old.now.width from (screen_cells old.now) row)
        (screen_cells new.now row) col }
{
    !is_same(&left_at(old, from, row, col), new.at(row, col))
}

/// Returns true if two cells differ. If `is_plain`, it is known that both have the same attributes.
#[tactic(auto, using(crate::proofs::SingleCharacters::same_number))]
fn is_other(old: &ScreenCell, new: &ScreenCell, is_plain: bool) -> bool
    requires { is_plain ≡ true → old.now.attributes ≡ new.now.attributes }
    ensures { result ≡ not (is_same_cell (styled_cell old.now) (styled_cell new.now)) }
{
    old.character != new.character || !is_plain && old.attributes != new.attributes
}

/// Returns true if two screens of one width show the same in the first `cols` columns of a row.
pub fn is_same_in_row(old: &StyledScreen, new: &StyledScreen, row: usize, cols: usize) -> bool
    requires width { old.now.width ≡ new.now.width }
    requires cols { cols ≤ new.now.width }
    ensures { result
        ≡ is_none (least_from (differ_in (screen_cells old.now row)
        (screen_cells new.now row)) 0 cols) }
{
    let is_plain = old.is_plain_row(row) && new.is_plain_row(row);
    let before = old.cells_from(row);
    let after = new.cells_from(row);
    for col in 0..cols {
        if is_other(old.cell_of(before, col), new.cell_of(after, col), is_plain) {
            return false;
        }
    }
    true
}

/// Returns the first column of a row in which two screens differ, the old one being emptied from an index on.
pub fn first_changed(
    old: &StyledScreen,
    from: Option<usize>,
    new: &StyledScreen,
    row: usize,
) -> Option<usize>
    requires { old.now.width ≡ new.now.width }
    ensures value { result ≡ first_changed new.now.width
        (left_of old.now.width from (screen_cells old.now) row) (screen_cells new.now row) }
    ensures bound { IfSome result (λ col. col < new.now.width) }
{
    if from.is_none() && is_same_in_row(old, new, row, new.width()) {
        return None;
    }
    for col in 0..new.width() {
        if differ_at(old, from, new, row, col) {
            return Some(col);
        }
    }
    None
}

/// Returns the last column of a row in which two screens differ, the old one being emptied from an index on.
pub fn last_changed(
    old: &StyledScreen,
    from: Option<usize>,
    new: &StyledScreen,
    row: usize,
) -> Option<usize>
    requires { old.now.width ≡ new.now.width }
    ensures value { result ≡ last_changed new.now.width
        (left_of old.now.width from (screen_cells old.now) row) (screen_cells new.now row) }
    ensures bound { IfSome result (λ col. col < new.now.width) }
{
    let mut end = new.width();
    while end > 0 {
        end -= 1;
        if differ_at(old, from, new, row, end) {
            return Some(end);
        }
    }
    None
}

/// Returns true if the place of an index, counted along the rows, is not blank.
fn is_used(screen: &StyledScreen, index: usize) -> bool
    ensures { result ≡ is_used screen.now.width (screen_cells screen.now) index }
{
    let width = screen.width();
    !is_same(
        screen.at(index / width, index % width),
        &ScreenCell::blank(ColorAttribute::Default),
    )
}

/// Returns where the cells of some rows end: the index after the last one that is not blank.
pub fn end_of(screen: &StyledScreen, rows: usize) -> usize
    requires { rows ≤ 65535 }
    ensures value { result ≡ end_of screen.now.width rows (screen_cells screen.now) }
    ensures bound { result ≤ rows * screen.now.width }
{
    let mut end = rows * screen.width();
    while end > 0 {
        if is_used(screen, end - 1) {
            return end;
        }
        end -= 1;
    }
    0
}

/// Returns the index from which on the old screen is to be emptied: the end of the new one's rows, where the old ones
/// go on after it.
pub fn rest_of(old: &StyledScreen, rows: usize, end: usize) -> Option<usize>
    requires { rows ≤ 65535 }
    ensures value { result ≡ (if ltb end (end_of old.now.width rows (screen_cells old.now))
        then Some end else None) }
    ensures bound { IfSome result (λ from. from < rows * old.now.width) }
{
    if end < end_of(old, rows) {
        return Some(end);
    }
    None
}

/// Returns true if two screens show the same before an index, counted along the rows.
fn is_same_before(old: &StyledScreen, new: &StyledScreen, end: usize) -> bool
    requires { old.now.width ≡ new.now.width }
    ensures { result
        ≡ is_none (greatest_below (differ_in (indexed new.now.width (screen_cells old.now))
        (indexed new.now.width (screen_cells new.now))) end) }
{
    let width = new.width();
    for row in 0..end / width {
        if !is_same_in_row(old, new, row, width) {
            return false;
        }
    }
    is_same_in_row(old, new, end / width, end % width)
}

/// Returns true if a row ends in a blank.
fn ends_blank(screen: &StyledScreen, row: usize) -> bool
    ensures { result ≡ ends_blank screen.now.width (screen_cells screen.now) row }
{
    is_same(
        screen.at(row, screen.width() - 1),
        &ScreenCell::blank(ColorAttribute::Default),
    )
}

/// Returns true if none of the rows from one to before another ends in a blank.
fn are_full(screen: &StyledScreen, from: usize, to: usize) -> bool
    ensures { result ≡ is_none (least_from (ends_blank screen.now.width (screen_cells screen.now))
        from (to - from)) }
{
    for row in from..to {
        if ends_blank(screen, row) {
            return false;
        }
    }
    true
}

/// Returns true if all that differs comes at the cursor or after it, where the old screen shows nothing, in rows that
/// are full but for the last one, below which no row is new but the cursor's. The cells of the new screen's rows end at
/// `end`.
pub fn goes_onward(
    old: &StyledScreen,
    reached: usize,
    new: &StyledScreen,
    rows: usize,
    end: usize,
    hand: Hand,
    to: Hand,
) -> bool
    requires width { old.now.width ≡ new.now.width }
    requires rows { rows ≤ 65535 }
    requires end { end ≡ end_of new.now.width rows (screen_cells new.now) }
    requires to { to.row ≤ 4294967295 }
    requires row { hand.row ≤ 4294967295 }
    requires col { hand.col ≤ new.now.width }
    ensures { result ≡ goes_onward new.now.width reached rows (screen_cells old.now)
        (screen_cells new.now) to hand }
{
    let width = new.width();
    let at = hand.row * width + hand.col;
    rows <= reached.max(to.row + 1)
        && end_of(old, rows) <= at
        && is_same_before(old, new, at)
        && are_full(new, hand.row, end / width)
}

/// Returns true if the cells of a row are characters of one column.
fn is_typable_row(screen: &StyledScreen, row: usize) -> bool
    ensures yes { result ≡ true → AreSingle screen.now.width (screen_cells screen.now row) }
    ensures no { result ≡ false → AreSingle screen.now.width (screen_cells screen.now row) → ⊥ }
    ensures colors { result ≡ true → (j : ℕ) → j < screen.now.width
        → AreByBytes (screen_cells screen.now row j).attributes }
{
    let cells = screen.cells_from(row);
    for col in 0..screen.width() {
        let cell = screen.cell_of(cells, col);
        if !is_single(cell.character) {
            return false;
        }
        colors(cell.attributes);
    }
    true
}

/// Returns true if the cells of the first rows are characters of one column. Their colours are by bytes.
pub fn is_typable(screen: &StyledScreen, rows: usize) -> bool
    ensures yes { result ≡ true → IsTypable rows screen.now }
    ensures no { result ≡ false → IsTypable rows screen.now → ⊥ }
    ensures colors { result ≡ true → AreAllByBytes screen.now.width rows (screen_cells screen.now) }
{
    for row in 0..rows {
        if !is_typable_row(screen, row) {
            return false;
        }
    }
    true
}
