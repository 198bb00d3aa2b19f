//! A model screen with a bottom row, which scrolls.

ghost use Rattle.std.specs.Prelude.{◌≡◌, ℕ, ◌<◌, ◌≤◌, ◌↔◌, ◌⊎◌, false, List, Ok, Err, OnOk, OnErr};
ghost use Rattle.tw_surface.specs.ChangeView.{change_view, Text as TextView};
ghost use Rattle.tw_surface.specs.Cells.{picture};
ghost use Rattle.tw_surface.specs.Pictures.{blank, can_play};
ghost use Rattle.tw_surface.specs.ScrollingScreens.{blank_rows, play_in};
ghost use Rattle.tw_surface.specs.ScreenSteps.{RefusesPastLimit};

use crate::change::Change;
use crate::screen::{Screen, ScreenFault};
use crate::size::{MAX_SIZE, SizeFault};
use std::alloc::Global;
use std::marker::Model;

/// A screen of some rows and columns: where a character or a move leads below its last row, it scrolls. Of what
/// was scrolled off it keeps nothing.
#[derive(Debug, Drop)]
pub struct ScrollingScreen {
    screen: Screen,
    rows: usize,
}

impl Model for ScrollingScreen {
    ghost use Rattle.tw_surface.specs.ScrollingScreens.{ScrollingView, IsRowed};

    ghost Value = { ScrollingView };

    ghost view = { λ s. record { screen = s.screen; rows = s.rows } };

    ghost invariant = { λ s. IsRowed s.rows s.screen };
}

impl ScrollingScreen {
    /// Creates a blank screen of 1 to 65,535 rows and columns, with the cursor at (0, 0). Takes no memory.
    pub fn new(alloc: Global, rows: usize, width: usize) -> Result<Self, SizeFault>
        ensures ok { 0 < rows → rows ≤ 65535 → 0 < width → width ≤ 65535 → result
            ≡ Ok (blank_rows rows width) }
        ensures zero { (result ≡ Err SizeFault.ZeroSize) ↔ ((rows ≡ 0) ⊎ (width ≡ 0)) }
        ensures large { 0 < rows → 0 < width
            → ((result ≡ Err SizeFault.OutOfRange) ↔ ((65535 < rows) ⊎ (65535 < width))) }
    {
        if rows == 0 {
            return Err(SizeFault::ZeroSize);
        }
        let screen = Screen::new(alloc, width)?;
        if rows > MAX_SIZE {
            return Err(SizeFault::OutOfRange);
        }
        Ok(ScrollingScreen { screen, rows })
    }

    /// Returns the character at a row and a column: a blank where nothing was written, from the width on, and below the
    /// last row.
    pub fn char_at(&self, row: usize, col: usize) -> char
        ensures shown { result ≡ (picture self.now.screen).cell row col }
        ensures outside { self.now.screen.width ≤ col → result ≡ blank }
        ensures below { self.now.rows ≤ row → result ≡ blank }
    {
        // No row below the last one holds anything.
        let _ = &self.rows;
        self.screen.char_at(row, col)
    }

    /// Returns the cursor's row and column. The column is the width where the cursor waits after the last.
    pub fn cursor(&self) -> (usize, usize)
        ensures row { result.0 ≡ (picture self.now.screen).row }
        ensures col { result.1 ≡ (picture self.now.screen).col }
        ensures row_most { result.0 < self.now.rows }
        ensures col_most { result.1 ≤ self.now.screen.width }
    {
        self.screen.cursor()
    }

    /// Plays a change, or refuses it and leaves the screen as it was. Only a text takes memory, and it is tested
    /// before it does. A text is played to its end before the rows that it scrolled off are dropped.
    pub fn apply(&mut self, change: &Change) -> Result<(), ScreenFault>
        ensures size { (self.new.rows ≡ self.old.rows)
            × (self.new.screen.width ≡ self.old.screen.width) }
        ensures played { OnOk result (picture self.new.screen
            ≡ play_in (change_view change.now) self.old) }
        ensures refused { OnErr result (self.new ≡ self.old) }

        // A text that can't be played is NotPlain, also where a row would pass the limit.
        ensures plain { (result ≡ Err ScreenFault.NotPlain)
            ↔ (can_play (change_view change.now) ≡ false) }

        // The limit is one of the change only, as it is played without a bottom from the cursor's row on.
        ensures range { RefusesPastLimit (change_view change.now) self.old.screen result }
        ensures memory { result ≡ Err ScreenFault.Memory → (text : List ℕ)
            × (change_view change.now ≡ TextView text) }
    {
        self.screen.apply(change)?;
        let (row, _) = self.screen.cursor();
        self.screen.scroll_up((row + 1).saturating_sub(self.rows));
        Ok(())
    }
}
