//! What is sent for the difference of two screens.

ghost use Rattle.std.specs.Prelude.{◌≡◌, ℕ, ◌<◌, ◌≤◌, ◌+◌, ◌-◌, ◌*◌, ◌/◌, ◌++◌, OnOk, OnErr, IfOk, IfSome, Option, string_bytes};
ghost use Rattle.std.specs.Prelude.{[], ◌∷◌, encode_utf8};
ghost use Rattle.tw_surface.specs.ChangeView.{Text};
ghost use Rattle.tw_sparing.specs.SingleCharacters.{IsSingle, character_number};
ghost use Rattle.tw_ansi.specs.Encoding.{ExtendsBytes, terse_batch};
ghost use Rattle.tw_sparing.specs.Redrawings.{led_to, under, row_redrawn, rows_redrawn, handed_to, emptied_here, rest_emptied, rest_of, left_of, fed, sunk_to, lowered, hand_index, indexed, cell_redrawn, cells_redrawn, redraw_then, redrawn};
ghost use Rattle.tw_sparing.specs.Sending.{AreSingle, IsAdded, IsTypable, screen_cells, changes_between, hand_of};

use crate::difference::{end_of, first_changed, goes_onward, last_changed, rest_of};
use crate::hand::Hand;
use crate::screen::StyledScreen;
use std::alloc::{AllocError, Global};
use tw_ansi::Encoder;
use tw_surface::{CellAttributes, Change, ColorAttribute, Position};

/// Where the cursor stands while a difference is sent, and what is then known of the terminal.
#[derive(Debug, Clone, Copy)]
struct Redrawer {
    hand: Hand,
    encoder: Encoder,
}

impl Redrawer {
    /// Goes to a cell, unless the cursor stands there.
    fn lead_to(&mut self, row: usize, col: usize, out: &mut String) -> Result<(), AllocError>
        requires from { self.old.hand.row ≤ 4294967295 }
        requires to { row ≤ 4294967295 }
        ensures ok { OnOk result (IsAdded (led_to row col self.old.hand) self.old
            (string_bytes out.old) self.new (string_bytes out.new)) }
        ensures row { OnOk result (self.new.hand.row ≡ row) }
        ensures col { OnOk result (self.new.hand.col ≡ col) }
        ensures err { OnErr result (ExtendsBytes (string_bytes out.old) (string_bytes out.new)) }
    {
        if self.hand.row == row && self.hand.col == col {
            return Ok(());
        }
        let by = row as isize - self.hand.row as isize;
        let change = Change::CursorPosition {
            x: Position::Absolute(col),
            y: Position::Relative(by),
        };
        self.encoder.encode_tersely(&change, out)?;
        self.hand.row = row;
        self.hand.col = col;
        Ok(())
    }

    /// Selects attributes, unless they are selected.
    fn select(&mut self, to: CellAttributes, out: &mut String) -> Result<(), AllocError>
        ensures ok { OnOk result (IsAdded (under to self.old.hand) self.old (string_bytes out.old)
            self.new (string_bytes out.new)) }
        ensures col { self.new.hand.col ≡ self.old.hand.col }
        ensures row { self.new.hand.row ≡ self.old.hand.row }
        ensures err { OnErr result (ExtendsBytes (string_bytes out.old) (string_bytes out.new)) }
    {
        if self.hand.attributes == to {
            return Ok(());
        }
        self.encoder
            .encode_tersely(&Change::AllAttributes(to), out)?;
        self.hand.attributes = to;
        Ok(())
    }

    /// Types a character of one column. The hand stays.
    fn write_character(
        &mut self,
        alloc: Global,
        character: char,
        out: &mut String,
    ) -> Result<(), AllocError>
        requires { IsSingle (character_number character) }
        ensures bytes { OnOk result (string_bytes out.new ≡ string_bytes out.old
            ++ (terse_batch (Text (encode_utf8 character) ∷ []) self.old.encoder).bytes) }
        ensures next { OnOk result (self.new.encoder
            ≡ (terse_batch (Text (encode_utf8 character) ∷ []) self.old.encoder).next) }
        ensures hand { self.new.hand ≡ self.old.hand }
        ensures err { OnErr result (ExtendsBytes (string_bytes out.old) (string_bytes out.new)) }
    {
        if character.is_ascii() {
            return self.encoder.encode_byte(character as u8, out);
        }
        let mut text = String::new(alloc);
        text.push(character)?;
        self.encoder.encode_tersely(&Change::Text(text), out)
    }

    /// Types the cell of an index, counted along the rows, which the cursor stands before: after the last column the
    /// terminal goes to the next row by itself.
    fn write_cell(
        &mut self,
        alloc: Global,
        screen: &StyledScreen,
        index: usize,
        out: &mut String,
    ) -> Result<(), AllocError>
        requires single { IsSingle
            (indexed screen.now.width (screen_cells screen.now) index).ch }
        ensures ok { OnOk result (IsAdded
            (cell_redrawn screen.now.width (screen_cells screen.now) index self.old.hand) self.old
            (string_bytes out.old) self.new (string_bytes out.new)) }
        ensures row { OnOk result (self.new.hand.row ≡ index / screen.now.width) }
        ensures err { OnErr result (ExtendsBytes (string_bytes out.old) (string_bytes out.new)) }
    {
        let width = screen.width();
        let cell = *screen.at(index / width, index % width);
        self.select(cell.attributes, out)?;
        self.write_character(alloc, cell.character, out)?;
        self.hand.row = index / width;
        self.hand.col = index % width + 1;
        Ok(())
    }

    /// Types the cells of a screen's rows from one index to before another, the cursor standing before the first of
    /// them.
    fn write_cells(
        &mut self,
        alloc: Global,
        screen: &StyledScreen,
        from: usize,
        to: usize,
        out: &mut String,
    ) -> Result<(), AllocError>
        requires single { (index : ℕ) → from ≤ index → index < to
            → IsSingle (indexed screen.now.width (screen_cells screen.now) index).ch }
        requires to { to ≤ 4294967296 * screen.now.width }
        requires held { self.old.hand.row ≤ 4294967295 }
        ensures ok { OnOk result (IsAdded
            (cells_redrawn screen.now.width (screen_cells screen.now) from (to - from)
            self.old.hand) self.old (string_bytes out.old) self.new (string_bytes out.new)) }
        ensures held { OnOk result (self.new.hand.row ≤ 4294967295) }
        ensures err { OnErr result (ExtendsBytes (string_bytes out.old) (string_bytes out.new)) }
    {
        for index in from..to {
            self.write_cell(alloc, screen, index, out)?;
        }
        Ok(())
    }

    /// Types what differs in a row of two screens, the old one being emptied from an index on.
    fn draw_row(
        &mut self,
        alloc: Global,
        old: &StyledScreen,
        from: Option<usize>,
        new: &StyledScreen,
        row: usize,
        out: &mut String,
    ) -> Result<(), AllocError>
        requires width { old.now.width ≡ new.now.width }
        requires single { AreSingle new.now.width (screen_cells new.now row) }
        requires row { row ≤ 4294967295 }
        requires held { self.old.hand.row ≤ 4294967295 }
        ensures ok { OnOk result (IsAdded
            (row_redrawn new.now.width (left_of old.now.width from (screen_cells old.now))
            (screen_cells new.now) row self.old.hand) self.old (string_bytes out.old) self.new
            (string_bytes out.new)) }
        ensures held { OnOk result (self.new.hand.row ≤ 4294967295) }
        ensures err { OnErr result (ExtendsBytes (string_bytes out.old) (string_bytes out.new)) }
    {
        let Some(first) = first_changed(old, from, new, row) else {
            return Ok(());
        };
        let Some(last) = last_changed(old, from, new, row) else {
            return Ok(());
        };
        self.lead_to(row, first, out)?;
        let start = row * new.width();
        self.write_cells(alloc, new, start + first, start + last + 1, out)
    }

    /// Types what differs in some rows of two screens, the old one being emptied from an index on.
    fn draw_rows(
        &mut self,
        alloc: Global,
        old: &StyledScreen,
        from: Option<usize>,
        new: &StyledScreen,
        rows: usize,
        out: &mut String,
    ) -> Result<(), AllocError>
        requires width { old.now.width ≡ new.now.width }
        requires typable { IsTypable rows new.now }
        requires rows { rows ≤ 65535 }
        requires held { self.old.hand.row ≤ 4294967295 }
        ensures ok { OnOk result (IsAdded
            (rows_redrawn new.now.width (left_of old.now.width from (screen_cells old.now))
            (screen_cells new.now) 0 rows self.old.hand) self.old (string_bytes out.old) self.new
            (string_bytes out.new)) }
        ensures held { OnOk result (self.new.hand.row ≤ 4294967295) }
        ensures err { OnErr result (ExtendsBytes (string_bytes out.old) (string_bytes out.new)) }
    {
        for row in 0..rows {
            self.draw_row(alloc, old, from, new, row, out)?;
        }
        Ok(())
    }

    /// Feeds `count` lines.
    fn feed_lines(&mut self, count: usize, out: &mut String) -> Result<(), AllocError>
        requires held { self.old.hand.row + count ≤ 4294967295 }
        ensures ok { OnOk result (IsAdded (fed count self.old.hand) self.old (string_bytes out.old)
            self.new (string_bytes out.new)) }
        ensures row { OnOk result (self.new.hand.row ≡ self.old.hand.row + count) }
        ensures err { OnErr result (ExtendsBytes (string_bytes out.old) (string_bytes out.new)) }
    {
        for _line in 0..count {
            self.encoder.encode_byte(b'\n', out)?;
            self.hand.row += 1;
        }
        Ok(())
    }

    /// Goes to a cell: where its row is not on the terminal yet, which has reached some rows, by line feeds from the
    /// last row that is.
    fn sink_to(
        &mut self,
        reached: usize,
        row: usize,
        col: usize,
        out: &mut String,
    ) -> Result<(), AllocError>
        requires from { self.old.hand.row ≤ 4294967295 }
        requires to { row ≤ 4294967295 }
        ensures ok { OnOk result (IsAdded (sunk_to reached row col self.old.hand) self.old
            (string_bytes out.old) self.new (string_bytes out.new)) }
        ensures row { OnOk result (self.new.hand.row ≡ row) }
        ensures err { OnErr result (ExtendsBytes (string_bytes out.old) (string_bytes out.new)) }
    {
        let last = reached.saturating_sub(1).max(self.hand.row);
        if row <= last {
            return self.lead_to(row, col, out);
        }
        self.lead_to(last, 0, out)?;
        self.feed_lines(row - last, out)?;
        self.lead_to(row, col, out)
    }

    /// Goes where a hand is, and selects its attributes.
    fn hand_over(&mut self, reached: usize, to: Hand, out: &mut String) -> Result<(), AllocError>
        requires to { to.row ≤ 4294967295 }
        requires held { self.old.hand.row ≤ 4294967295 }
        ensures ok { OnOk result (IsAdded (handed_to reached to self.old.hand) self.old
            (string_bytes out.old) self.new (string_bytes out.new)) }
        ensures err { OnErr result (ExtendsBytes (string_bytes out.old) (string_bytes out.new)) }
    {
        self.sink_to(reached, to.row, to.col, out)?;
        self.select(to.attributes, out)
    }

    /// Clears what stands from the cursor on.
    fn empty_here(&mut self, out: &mut String) -> Result<(), AllocError>
        ensures ok { OnOk result (IsAdded (emptied_here self.old.hand) self.old
            (string_bytes out.old) self.new (string_bytes out.new)) }
        ensures row { self.new.hand.row ≡ self.old.hand.row }
        ensures err { OnErr result (ExtendsBytes (string_bytes out.old) (string_bytes out.new)) }
    {
        let change = Change::ClearToEndOfScreen(ColorAttribute::Default);
        self.encoder.encode_tersely(&change, out)
    }

    /// Clears what stands from an index on, if there is one.
    fn empty_rest(
        &mut self,
        width: usize,
        from: Option<usize>,
        out: &mut String,
    ) -> Result<(), AllocError>
        requires width { 0 < width }
        requires from { IfSome from (λ index. index ≤ 4294967295) }
        requires held { self.old.hand.row ≤ 4294967295 }
        ensures ok { OnOk result (IsAdded (rest_emptied width from self.old.hand) self.old
            (string_bytes out.old) self.new (string_bytes out.new)) }
        ensures held { OnOk result (self.new.hand.row ≤ 4294967295) }
        ensures err { OnErr result (ExtendsBytes (string_bytes out.old) (string_bytes out.new)) }
    {
        match from {
            Some(from) => {
                self.lead_to(from / width, from % width, out)?;
                self.empty_here(out)
            }
            None => Ok(()),
        }
    }

    /// Goes down to the last of some rows, so that it comes into sight, where it was not reached before.
    fn lower(&mut self, reached: usize, rows: usize, out: &mut String) -> Result<(), AllocError>
        requires rows { rows ≤ 65535 }
        requires held { self.old.hand.row ≤ 4294967295 }
        ensures ok { OnOk result (IsAdded (lowered reached rows self.old.hand) self.old
            (string_bytes out.old) self.new (string_bytes out.new)) }
        ensures held { OnOk result (self.new.hand.row ≤ 4294967295) }
        ensures err { OnErr result (ExtendsBytes (string_bytes out.old) (string_bytes out.new)) }
    {
        if rows <= reached {
            return Ok(());
        }
        self.sink_to(reached, rows - 1, 0, out)
    }

    /// Types the cells of a screen's rows from the cursor to before an index, and goes where a hand is.
    fn go_on(
        &mut self,
        alloc: Global,
        reached: usize,
        new: &StyledScreen,
        end: usize,
        to: Hand,
        out: &mut String,
    ) -> Result<(), AllocError>
        requires single { (index : ℕ) → index < end
            → IsSingle (indexed new.now.width (screen_cells new.now) index).ch }
        requires end { end ≤ 4294967296 * new.now.width }
        requires to { to.row ≤ 4294967295 }
        requires row { self.old.hand.row ≤ 4294967295 }
        requires col { self.old.hand.col ≤ new.now.width }
        ensures ok { let start = hand_index new.now.width self.old.hand in
            let typed = cells_redrawn new.now.width (screen_cells new.now) start (end - start)
            self.old.hand in
            OnOk result (IsAdded (redraw_then typed (handed_to reached to)) self.old
            (string_bytes out.old) self.new (string_bytes out.new)) }
        ensures err { OnErr result (ExtendsBytes (string_bytes out.old) (string_bytes out.new)) }
    {
        let from = self.hand.row * new.width() + self.hand.col;
        self.write_cells(alloc, new, from, end, out)?;
        self.hand_over(reached, to, out)
    }

    /// Makes one screen of another. What goes on at the cursor is typed. Else the last row comes into sight, what
    /// stands after the end of the new screen is emptied, and the rows that differ are typed.
    fn redraw(
        &mut self,
        alloc: Global,
        old: &StyledScreen,
        reached: usize,
        new: &StyledScreen,
        rows: usize,
        to: Hand,
        out: &mut String,
    ) -> Result<(), AllocError>
        requires width { old.now.width ≡ new.now.width }
        requires typable { IsTypable rows new.now }
        requires rows { rows ≤ 65535 }
        requires to { to.row ≤ 4294967295 }
        requires held { self.old.hand.row ≤ 4294967295 }
        requires col { self.old.hand.col ≤ new.now.width }
        ensures ok { OnOk result (IsAdded
            (redrawn new.now.width reached rows (screen_cells old.now) (screen_cells new.now)
            to self.old.hand) self.old (string_bytes out.old) self.new (string_bytes out.new)) }
        ensures err { OnErr result (ExtendsBytes (string_bytes out.old) (string_bytes out.new)) }
    {
        let end = end_of(new, rows);
        if goes_onward(old, reached, new, rows, end, self.hand, to) {
            return self.go_on(alloc, reached, new, end, to, out);
        }
        let rest = rest_of(old, rows, end);
        self.lower(reached, rows, out)?;
        self.empty_rest(new.width(), rest, out)?;
        self.draw_rows(alloc, old, rest, new, rows, out)?;
        self.hand_over(reached.max(rows), to, out)
    }
}

/// Returns where a screen's cursor stands, and its attributes.
fn hand_of(screen: &StyledScreen) -> Hand
    ensures value { result ≡ hand_of screen.now }
    ensures row { result.row ≤ 4294967295 }
    ensures col { result.col ≤ screen.now.width }
{
    let (row, col) = screen.cursor();
    Hand {
        row,
        col,
        attributes: screen.attributes(),
    }
}

/// Adds what a terminal is sent that shows an old screen, and is to show a new one of as many columns, and returns what
/// is then known of it. No more than the first `rows` rows may differ, and the terminal has reached the first `reached`
/// of them before. A refusal may have added a part of it.
pub fn send_changed(
    alloc: Global,
    old: &StyledScreen,
    reached: usize,
    new: &StyledScreen,
    rows: usize,
    encoder: Encoder,
    out: &mut String,
) -> Result<Encoder, AllocError>
    requires width { old.now.width ≡ new.now.width }
    requires typable { IsTypable rows new.now }
    requires rows { rows ≤ 65535 }
    ensures bytes { OnOk result (string_bytes out.new
        ≡ string_bytes out.old ++ (terse_batch (changes_between reached rows old.now new.now)
        encoder).bytes) }
    ensures next { IfOk result (λ next. next
        ≡ (terse_batch (changes_between reached rows old.now new.now) encoder).next) }
    ensures err { OnErr result (ExtendsBytes (string_bytes out.old) (string_bytes out.new)) }
{
    let mut redrawer = Redrawer {
        hand: hand_of(old),
        encoder,
    };
    redrawer.redraw(alloc, old, reached, new, rows, hand_of(new), out)?;
    Ok(redrawer.encoder)
}
