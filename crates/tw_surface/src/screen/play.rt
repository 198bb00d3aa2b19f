//! Playing texts on near and far cells.

ghost use Rattle.std.specs.Prelude.{◌≡◌, ℕ, ◌+◌, ◌-◌, ◌*◌, ◌^◌, min, length, take, drop, ◌<◌, ◌≤◌, ◌↔◌, true, false, vec_len, vec_capacity, IsTrue};
ghost use Rattle.std.specs.List.{All, list_all};
ghost use Rattle.tw_surface.specs.Characters.{is_plain, is_printable};
ghost use Rattle.tw_surface.specs.Pictures.{cursor_at, play_char, play_text};
ghost use Rattle.tw_surface.specs.Cells.{picture_of, reach_of, IsInOrder, IsSparse, AreSoundCells};
ghost use Rattle.tw_surface.specs.ScreenSteps.{played_at, HasRoomFor, IsBehind, IsPlayedFar};

use crate::characters::is_printable;
use crate::screen::far::{Cell, write_cell};
use crate::screen::near::{place_of, printable_run, write_run};

// The last row that a screen reaches.
pub const LAST_ROW: usize = 4_294_967_295;

// How many places a text leads on at most, or the greatest number where that is less.
pub fn reach(width: usize, text: &[u8]) -> usize
    ensures { result ≡ min (reach_of width text.now) (2 ^ 64 - 1) }
{
    let line_feeds = text.iter().filter(|byte| **byte == b'\n').count();
    line_feeds.saturating_mul(width).saturating_add(text.len())
}

// The cursor after a character of a text.
fn next_cursor(width: usize, row: usize, col: usize, byte: u8) -> (usize, usize)
    requires width_above { 0 < width }
    requires width_most { width ≤ 65535 }
    requires row { row ≤ 4294967295 }
    requires col { col ≤ width }
    ensures row { result.0 ≡ (play_char width byte (cursor_at row col)).row }
    ensures col { result.1 ≡ (play_char width byte (cursor_at row col)).col }
    ensures within { result.1 ≤ width }
{
    match byte {
        b'\r' => (row, 0),
        b'\n' => (row + 1, col),
        _ if col == width => (row + 1, 1),
        _ => (row, col + 1),
    }
}

// Whether no row of a text passes the limit.
#[tactic(auto, using(crate::proofs::TextCursor::text_row_most))]
pub fn ends_in_range(width: usize, start_row: usize, start_col: usize, text: &[u8]) -> bool
    requires width_above { 0 < width }
    requires width_most { width ≤ 65535 }
    requires row { start_row ≤ 4294967295 }
    requires col { start_col ≤ width }
    ensures { IsTrue result ↔ ((play_text width text.now (cursor_at start_row start_col)).row
        ≤ 4294967295) }
{
    if text.len() <= LAST_ROW - start_row {
        return true;
    }
    let mut row = start_row;
    let mut col = start_col;
    for byte in text {
        (row, col) = next_cursor(width, row, col, *byte);
        if row > LAST_ROW {
            return false;
        }
    }
    true
}

// Plays a character that stands after the near cells, or only moves the cursor, and returns the cursor after it.
fn play_far(far: &mut Vec<Cell>, width: usize, row: usize, col: usize, byte: u8) -> (usize, usize)
    requires width_above { 0 < width }
    requires width_most { width ≤ 65535 }
    requires row { row ≤ 4294967295 }
    requires col { col ≤ width }
    requires plain { is_plain byte ≡ true }
    requires room { is_printable byte ≡ true → vec_len far.old < vec_capacity far.old }
    requires ordered { IsInOrder far.old.items }
    ensures played { IsPlayedFar width byte far.old.items row col far.new.items result.0 result.1 }
    ensures within { result.1 ≤ width }
    ensures sparse { let place = row * width + col in
        (first : ℕ) → IsBehind byte first place →
        IsSparse width first far.old.items → IsSparse width first far.new.items }
    ensures len { vec_len far.new ≤ vec_len far.old + 1 }
    ensures capacity { vec_capacity far.old ≤ vec_capacity far.new }
{
    let (new_row, new_col) = next_cursor(width, row, col, byte);
    if is_printable(byte) {
        write_cell(far, new_row, new_col - 1, byte as char);
    }
    (new_row, new_col)
}

// Plays a run of printable characters on near cells, or one character, and returns how many these are and the
// cursor after them.
fn play_front(
    near: &mut [u8],
    far: &mut Vec<Cell>,
    width: usize,
    row: usize,
    col: usize,
    text: &[u8],
) -> (usize, usize, usize)
    requires sound { AreSoundCells width row col near.old far.old.items }
    requires some { 0 < length text.now }
    requires plain { list_all is_plain text.now ≡ true }
    requires room { HasRoomFor width text.now (row * width + col) near.old far.old }
    ensures count { 0 < result.0 }
    ensures count_most { result.0 ≤ length text.now }
    ensures played { let after = picture_of width near.new far.new.items result.1 result.2 in
        after ≡ played_at width (take result.0 text.now) near.old far.old.items row col }
    ensures within { result.2 ≤ width }
    ensures near_len { length near.new ≡ length near.old }
    ensures ascii { All (λ b. b < 128) near.new }
    ensures sparse { IsSparse width (length near.old) far.new.items }
    ensures len { vec_len far.new ≤ vec_len far.old + result.0 }
    ensures capacity { vec_capacity far.old ≤ vec_capacity far.new }
    ensures place { let rest = drop result.0 text.now in
        result.1 * width + result.2 + reach_of width rest
        ≤ row * width + col + reach_of width text.now }
{
    let room = near.len().saturating_sub(place_of(width, row, col));
    let run = printable_run(&text[..room.min(text.len())]);
    if run == 0 {
        let (new_row, new_col) = play_far(far, width, row, col, text[0]);
        return (1, new_row, new_col);
    }
    let (new_row, new_col) = write_run(near, width, row, col, &text[..run]);
    (run, new_row, new_col)
}

// Plays a text, and returns the cursor after it.
pub fn play_bytes(
    near: &mut [u8],
    far: &mut Vec<Cell>,
    width: usize,
    start_row: usize,
    start_col: usize,
    text: &[u8],
) -> (usize, usize)
    requires sound { AreSoundCells width start_row start_col near.old far.old.items }
    requires row { (played_at width text.now near.old far.old.items start_row start_col).row
        ≤ 4294967295 }
    requires plain { list_all is_plain text.now ≡ true }
    requires room { HasRoomFor width text.now (start_row * width + start_col) near.old far.old }
    ensures played { let after = picture_of width near.new far.new.items result.0 result.1 in
        after ≡ played_at width text.now near.old far.old.items start_row start_col }
    ensures sound { AreSoundCells width result.0 result.1 near.new far.new.items }
{
    let mut row = start_row;
    let mut col = start_col;
    let mut at = 0;
    while at < text.len() {
        let (count, new_row, new_col) = play_front(near, far, width, row, col, &text[at..]);
        row = new_row;
        col = new_col;
        at += count;
    }
    (row, col)
}
