//! Room for a text: which cells are near.

ghost use Rattle.std.specs.Prelude.{◌≡◌, ℕ, ◌+◌, ◌-◌, ◌^◌, [], length, ◌<◌, ◌≤◌, vec_len, vec_capacity, OnOk, OnErr, IfSome};
ghost use Rattle.std.specs.List.{All};
ghost use Rattle.tw_surface.specs.Cells.{shown_at, IsSparse, AreCellsBefore};

use crate::screen::far::Cell;
use crate::screen::near::{blank_to, place_of};
use std::alloc::AllocError;

// How many near cells may be added at any time.
const MAX_GAP: usize = 4_096;

// How many more may be added for each character.
const MAX_SPREAD: usize = 32;

// Makes room for `count` characters before the place `end`, and shows what was shown. If that place and all far cells
// stand not far after the near ones, all become near cells; else there is room for `count` more far ones.
pub fn make_room(
    near: &mut Vec<u8>,
    far: &mut Vec<Cell>,
    width: usize,
    end: usize,
    count: usize,
) -> Result<(), AllocError>
    requires ascii { All (λ b. b < 128) near.old.items }
    requires sparse { IsSparse width (length near.old.items) far.old.items }
    ensures shown { shown_at width near.new.items far.new.items
        ≡ shown_at width near.old.items far.old.items }
    ensures ascii { All (λ b. b < 128) near.new.items }
    ensures sparse { IsSparse width (length near.new.items) far.new.items }
    ensures near { OnErr result (near.new.items ≡ near.old.items) }
    ensures far { OnErr result (far.new.items ≡ far.old.items) }
    ensures room { OnOk result (vec_len near.new < end → vec_len far.new + count
        ≤ vec_capacity far.new) }
{
    if end <= near.len() {
        return Ok(());
    }
    let Some(last) = close_end(near.len(), far.as_slice(), width, end, count) else {
        return far.reserve(count);
    };
    near.reserve(last.saturating_sub(near.len()))?;
    settle(near, far, width);
    blank_to(near, last);
    Ok(())
}

// Returns the greater of a place and that after all far cells, if it is not far after the near ones.
fn close_end(near: usize, far: &[Cell], width: usize, end: usize, count: usize) -> Option<usize>
    requires { IsSparse width near far.now }
    ensures text { IfSome result (λ last. end ≤ last) }
    ensures cells { IfSome result (λ last. last < 2 ^ 64 - 1 → AreCellsBefore width last far.now) }
{
    let last = end.max(end_of(far, width));
    let gap = last.saturating_sub(near);
    let most = count.saturating_add(far.len());
    if gap.saturating_sub(MAX_GAP) / MAX_SPREAD > most {
        return None;
    }
    Some(last)
}

// The place after all cells, or the greatest number where that is less.
fn end_of(far: &[Cell], width: usize) -> usize
    requires { (first : ℕ) × IsSparse width first far.now }
    ensures { result < 2 ^ 64 - 1 → AreCellsBefore width result far.now }
{
    match far {
        [] => 0,
        [.., last] => place_of(width, last.row, last.col).saturating_add(1),
    }
}

// Makes all far cells near ones, for which there is room.
fn settle(near: &mut Vec<u8>, far: &mut Vec<Cell>, width: usize)
    requires ascii { All (λ b. b < 128) near.old.items }
    requires sparse { IsSparse width (length near.old.items) far.old.items }
    requires room { AreCellsBefore width (vec_capacity near.old) far.old.items }
    ensures far { far.new.items ≡ [] }
    ensures shown { shown_at width near.new.items far.new.items
        ≡ shown_at width near.old.items far.old.items }
    ensures ascii { All (λ b. b < 128) near.new.items }
    ensures capacity { vec_capacity near.old ≤ vec_capacity near.new }
{
    for cell in far.as_slice() {
        blank_to(near, place_of(width, cell.row, cell.col));
        let _ = near.push(cell.ch as u8);
    }
    far.clear();
}
