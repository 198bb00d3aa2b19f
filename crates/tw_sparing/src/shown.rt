//! What a terminal shows, as far as it is known.

ghost use Rattle.std.specs.Prelude.{◌≡◌, ◌≤◌, ◌<◌, ◌++◌, ◌⊎◌, ℕ, [], ◌∷◌, true, IfOk, IfSome, OnOk, Some, string_bytes};
ghost use Rattle.tw_ansi.specs.Encoding.{terse_batch};
ghost use Rattle.tw_surface.specs.ChangeView.{ClearToEndOfScreen, CursorPosition, batch_view, change_view};
ghost use Rattle.tw_surface.specs.declared.change.Position.TheVariants.{Absolute};
ghost use Rattle.tw_surface.specs.Defaults.{default_color};
ghost use Rattle.tw_sparing.specs.Sending.{IsTypable};
ghost use Rattle.tw_sparing.specs.StyledScreens.{IsShownSame};
ghost use Rattle.tw_sparing.specs.Shown.{changes_below, first_shown, from_cursor, goes_out_of_sight, left_behind, rows_above, Empties, EndsAtStart, IsBegunBy, FitsTerminal, IsDrawnAfter, IsEmptiedFrom, IsFromStart, IsStillKnown, IsInSight, IsKnownAfter, IsKnownBy, IsMovedBy, IsRefilled, IsShortMove, IsPlayable, IsPlayed, IsPlayedOnce, KeepsAbove, LeadsToStart, SetsAttributes};

use crate::difference::{is_same_in_row, is_typable};
use crate::laws::{attribute, colors};
use crate::redrawer::send_changed;
use crate::screen::StyledScreen;
use std::alloc::{AllocError, Global};
use tw_ansi::Encoder;
use tw_surface::{Change, ColorAttribute, Position};
use tw_terminal::ScreenSize;

/// The most rows of a terminal and of what it shows: a move leads no further.
const MOST_ROWS: usize = 65_535;

/// A screen without a bottom, whose first row is the one from which on the terminal was last emptied, and how many of
/// its rows the terminal has reached.
#[derive(Debug, Drop)]
pub struct Shown {
    pub screen: StyledScreen,
    pub reached: usize,
}

impl Shown {
    /// Returns an empty screen. Where it has no column, or too many, it is not known what is shown.
    fn empty(alloc: Global, cols: usize) -> Option<Self>
        ensures { IfSome result (λ shown. shown ≡ first_shown cols) }
    {
        match StyledScreen::new(alloc, cols) {
            Ok(screen) => Some(Shown { screen, reached: 1 }),
            Err(_) => None,
        }
    }

    /// Returns how many of its rows have left a terminal of `rows` rows.
    pub fn left_behind(&self, rows: usize) -> usize
        ensures { result ≡ left_behind rows self.now }
    {
        self.reached.saturating_sub(rows)
    }

    /// Returns how many of the rows in sight stand above the cursor, on a terminal of `rows` rows.
    fn rows_above(&self, rows: usize) -> usize
        ensures { result ≡ rows_above rows self.now }
    {
        let (row, _) = self.screen.cursor();
        row.saturating_sub(self.left_behind(rows))
    }

    /// Returns true if a change does on a terminal of `rows` rows what it does on this screen: a text that this screen
    /// can play, attributes, a relative move to one of the rows that are in sight, and a clearing to blanks, where the
    /// cursor does not wait.
    fn is_playable(&self, change: &Change, rows: usize) -> bool
        ensures { result ≡ true → IsShownSame self.now.screen.width (change_view change.now)
            → IsPlayable rows self.now (change_view change.now) }
    {
        let (_, col) = self.screen.cursor();
        match change {
            Change::Text(_) => true,
            Change::CursorPosition { x: _, y } => is_in_sight(*y, self.rows_above(rows)),
            Change::ClearToEndOfScreen(color) => {
                *color == ColorAttribute::Default && col < self.screen.width()
            }
            Change::ClearScreen(_) => false,
            Change::Attribute(change) => {
                attribute(*change);
                true
            }
            Change::AllAttributes(attributes) => {
                colors(*attributes);
                true
            }
        }
    }

    /// Plays a change. It returns false where it is not known what the terminal shows then.
    fn play(&mut self, change: &Change, rows: usize) -> bool
        ensures { result ≡ true → IsPlayedOnce rows (change_view change.now) self.old self.new }
    {
        if !self.is_playable(change, rows) || self.screen.apply(change).is_err() {
            return false;
        }
        let (row, _) = self.screen.cursor();
        self.reached = self.reached.max(row + 1);
        true
    }

    /// Plays a batch. It returns false where it is not known what the terminal shows then.
    #[tactic(auto, using(crate::proofs::PlayedBatches::played_more))]
    fn play_all(&mut self, changes: &[Change], rows: usize) -> bool
        ensures { result ≡ true → IsPlayed rows (batch_view changes.now) self.old self.new }
    {
        for change in changes {
            if !self.play(change, rows) {
                return false;
            }
        }
        true
    }

    /// Returns true if a terminal of `rows` rows can show it: its cursor stands in a column and in one of the last rows
    /// that it has reached, and its cells hold characters of one column.
    fn is_fit(&self, rows: usize) -> bool
        ensures { result ≡ true → FitsTerminal rows self.now }
    {
        let (row, col) = self.screen.cursor();
        colors(self.screen.attributes());
        rows <= MOST_ROWS
            && self.reached <= MOST_ROWS
            && self.left_behind(rows) <= row
            && row < self.reached
            && col < self.screen.width()
            && is_typable(&self.screen, self.reached)
    }

    /// Returns what is shown once changes are drawn on an empty screen, on a terminal of `rows` rows.
    fn fresh(alloc: Global, cols: usize, changes: &[Change], rows: usize) -> Option<Self>
        ensures fits { IfSome result (λ new. FitsTerminal rows new) }
        ensures played { IfSome result (λ new. IsPlayed rows (batch_view changes.now)
            (first_shown cols) new) }
    {
        let mut next = Shown::empty(alloc, cols)?;
        if next.play_all(changes, rows) && next.is_fit(rows) {
            return Some(next);
        }
        None
    }

    /// Returns true if a batch leads first to a row out of sight, on a terminal of `rows` rows.
    pub fn is_left_by(&self, changes: &[Change], rows: usize) -> bool
        ensures { result ≡ goes_out_of_sight (rows_above rows self.now) (batch_view changes.now) }
    {
        goes_out_of_sight(changes, self.rows_above(rows))
    }

    /// Returns what is shown once the cursor is led to column 0 of a row in sight, and all is blank from there on.
    fn emptied_from(&self, alloc: Global, y: Position) -> Option<Self>
        ensures { IfSome result (IsEmptiedFrom y self.now) }
    {
        let Ok(screen) = self.screen.emptied_from(alloc, y) else {
            return None;
        };
        let (row, _) = screen.cursor();
        Some(Shown {
            screen,
            reached: self.reached.max(row + 1),
        })
    }

    /// Returns what is shown once two changes are played, on a terminal of `rows` rows, if the first one leads to
    /// column 0 of a row in sight, and the second one empties all from there on.
    #[tactic(auto, using(crate::proofs::PlayedBatches::emptied_played))]
    fn emptied_by(
        &self,
        alloc: Global,
        first: &Change,
        second: &Change,
        rows: usize,
    ) -> Option<Self>
        ensures { IfSome result (λ next. IsPlayed rows
            (change_view first.now ∷ change_view second.now ∷ []) self.now next) }
    {
        match row_of_start(first) {
            Some(y) if is_emptying(second) && is_in_sight(y, self.rows_above(rows)) => {
                self.emptied_from(alloc, y)
            }
            _ => None,
        }
    }

    /// Returns what is known of the rows from the cursor's on.
    fn from_cursor(&self, alloc: Global) -> Option<Self>
        ensures { IfSome result (λ left. left ≡ from_cursor self.now) }
    {
        let (row, _) = self.screen.cursor();
        let Ok(screen) = self.screen.without_rows(alloc, row) else {
            return None;
        };
        Some(Shown {
            screen,
            reached: self.reached.saturating_sub(row),
        })
    }

    /// Returns the same once more.
    fn copy(&self, alloc: Global) -> Option<Self>
        ensures { IfSome result (λ copy. copy ≡ self.now) }
    {
        let Ok(screen) = self.screen.copy(alloc) else {
            return None;
        };
        Some(Shown {
            screen,
            reached: self.reached,
        })
    }

    /// Returns what is shown once a beginning of a batch is played on it, on a terminal of `rows` rows, and what is
    /// left of the batch. The cells that a painting empties first are not copied.
    fn begun<'a>(
        &self,
        alloc: Global,
        changes: &'a [Change],
        rows: usize,
    ) -> Option<(Self, &'a [Change])>
        ensures { IfSome result (λ begun. (new : Shown)
            → IsPlayed rows (batch_view begun.1.now) begun.0 new
            → IsPlayed rows (batch_view changes.now) self.now new) }
    {
        if let [first, second, rest @ ..] = changes {
            if let Some(next) = self.emptied_by(alloc, first, second, rows) {
                return Some((next, rest));
            }
        }
        Some((self.copy(alloc)?, changes))
    }

    /// Returns what is shown once a batch is drawn on it, on a terminal of `rows` rows.
    fn drawn(&self, alloc: Global, changes: &[Change], rows: usize) -> Option<Self>
        ensures { IfSome result (λ new. IsDrawnAfter rows (batch_view changes.now) self.now new) }
    {
        let (mut next, rest) = self.begun(alloc, changes, rows)?;
        if !next.play_all(rest, rows) || !next.is_fit(rows) {
            return None;
        }
        if is_same_above(&self.screen, &next.screen, next.left_behind(rows)) {
            return Some(next);
        }
        None
    }

    /// Returns what is shown once a terminal of `rows` rows, all of which are reached, is emptied from its first row on
    /// and filled again.
    fn refilled(&self, alloc: Global, changes: &[Change], rows: usize) -> Option<Self>
        ensures { IfSome result (λ new. IsRefilled rows (batch_view changes.now) self.now new) }
    {
        let rest = behind_move(changes)?;
        let (row, _) = self.screen.cursor();
        if self.reached < rows || row < self.left_behind(rows) || !empties(rest) {
            return None;
        }
        let next = Shown::fresh(alloc, self.screen.width(), rest, rows)?;
        if next.reached < rows {
            return None;
        }
        Some(next)
    }

    /// Returns what is shown once a batch was sent, on a terminal of `rows` rows.
    fn known_after(&self, alloc: Global, changes: &[Change], rows: usize) -> Option<Self>
        ensures { IfSome result (λ new. IsKnownBy
            (goes_out_of_sight (rows_above rows self.now) (batch_view changes.now)) rows
            (batch_view changes.now) self.now new) }
    {
        if self.is_left_by(changes, rows) {
            return self.refilled(alloc, changes, rows);
        }
        self.drawn(alloc, changes, rows)
    }
}

/// Returns true if the first rows of two screens show the same, and the cursor of the old one is after them.
pub fn is_same_above(old: &StyledScreen, new: &StyledScreen, top: usize) -> bool
    requires { old.now.width ≡ new.now.width }
    ensures same { result ≡ true → KeepsAbove top old.now new.now }
    ensures found { KeepsAbove top old.now new.now → result ≡ true }
{
    let (at, _) = old.cursor();
    if at < top {
        return false;
    }
    for row in 0..top {
        if !is_same_in_row(old, new, row, new.width()) {
            return false;
        }
    }
    true
}

/// Returns true if a position is a row that is in sight, with `above` rows above the cursor.
fn is_in_sight(position: Position, above: usize) -> bool
    ensures { result ≡ true → IsInSight above position }
{
    match position {
        Position::Absolute(_) => false,
        Position::Relative(by) => by >= 0 || by.unsigned_abs() <= above,
    }
}

/// Returns true if a batch leads first to column 0 of a row out of sight, there being `above` rows in sight above the
/// cursor.
fn goes_out_of_sight(changes: &[Change], above: usize) -> bool
    ensures { result ≡ goes_out_of_sight above (batch_view changes.now) }
{
    match changes {
        [
            Change::CursorPosition {
                x: Position::Absolute(0),
                y: Position::Relative(by),
            },
            ..
        ] => *by < 0 && by.unsigned_abs() > above,
        _ => false,
    }
}

/// Returns the row that a change leads to, if it leads to column 0.
fn row_of_start(change: &Change) -> Option<Position>
    ensures { IfSome result (λ y. change_view change.now ≡ CursorPosition (Absolute 0) y) }
{
    match change {
        Change::CursorPosition {
            x: Position::Absolute(0),
            y,
        } => Some(*y),
        _ => None,
    }
}

/// Returns true if a change empties what stands from the cursor on.
fn is_emptying(change: &Change) -> bool
    ensures { result ≡ true → change_view change.now ≡ ClearToEndOfScreen default_color }
{
    match change {
        Change::ClearToEndOfScreen(color) => *color == ColorAttribute::Default,
        _ => false,
    }
}

/// Returns true if a change sets all attributes.
fn is_setting(change: &Change) -> bool
    ensures { result ≡ true → SetsAttributes (change_view change.now) }
{
    match change {
        Change::AllAttributes(_) => true,
        _ => false,
    }
}

/// Returns true if a batch empties the terminal from its cursor on, and then sets all attributes.
#[tactic(auto, using(crate::proofs::PlayedBatches::emptying))]
fn empties(changes: &[Change]) -> bool
    ensures { result ≡ true → Empties (batch_view changes.now) }
{
    match changes {
        [first, second, ..] => is_emptying(first) && is_setting(second),
        _ => false,
    }
}

/// Returns true if a move leads as many rows at any terminal.
fn is_near(position: Position) -> bool
    ensures { result ≡ true → IsShortMove position }
{
    match position {
        Position::Absolute(_) => false,
        Position::Relative(by) => by.unsigned_abs() <= MOST_ROWS,
    }
}

/// Returns what is left of a batch after a move to column 0.
fn behind_move(changes: &[Change]) -> Option<&[Change]>
    ensures { IfSome result (λ rest. IsMovedBy (batch_view changes.now) (batch_view rest.now)) }
{
    match changes {
        [
            Change::CursorPosition {
                x: Position::Absolute(0),
                y,
            },
            rest @ ..,
        ] if is_near(*y) => Some(rest),
        _ => None,
    }
}

/// Returns what is left of a batch that empties the terminal from column 0 on: where it begins there, or after its
/// move.
fn emptying(changes: &[Change], at_start: bool) -> Option<&[Change]>
    ensures begun { IfSome result (λ rest. IsBegunBy (batch_view changes.now)
        (batch_view rest.now)) }
    ensures start { IfSome result (λ rest. (at_start ≡ true)
        ⊎ LeadsToStart (batch_view changes.now)) }
{
    match behind_move(changes) {
        Some(rest) if empties(rest) => Some(rest),
        _ if at_start && empties(changes) => Some(changes),
        _ => None,
    }
}

/// Returns what a terminal of a size shows once a batch was sent, by what it showed before.
pub fn shown_after(
    alloc: Global,
    size: ScreenSize,
    shown: &Option<Shown>,
    at_start: bool,
    changes: &[Change],
) -> Option<Shown>
    ensures known { IsKnownAfter size.cols size.rows (batch_view changes.now) shown.now result }
    ensures start { (x : ℕ) → (at_start ≡ true → x ≡ 0)
        → IsFromStart x (batch_view changes.now) shown.now result }
{
    match shown {
        Some(shown) => shown.known_after(alloc, changes, size.rows),
        None => Shown::fresh(alloc, size.cols, emptying(changes, at_start)?, size.rows),
    }
}

/// Returns what is still known of what is shown, once a batch was sent. One that leaves the cursor in column 0 closes a
/// line, whose rows are forgotten: nothing leads above the cursor any more.
pub fn still_known(alloc: Global, shown: Option<Shown>, changes: &[Change]) -> Option<Shown>
    ensures { IsStillKnown shown result }
{
    match shown {
        Some(shown) if ends_at_start(changes) => shown.from_cursor(alloc),
        shown => shown,
    }
}

/// Returns true if it is known that the cursor stands in column 0 of a terminal of `cols` columns, under the default
/// attributes: so the encoder says, and `at_start` that no refusal has put it elsewhere.
pub fn is_at_start(at_start: bool, encoder: Encoder, cols: usize) -> bool
    ensures { result ≡ true → encoder.x ≡ 0 }
{
    at_start && encoder == Encoder::new(cols)
}

/// Returns true if a batch leaves the cursor in column 0 of a terminal.
pub fn ends_at_start(changes: &[Change]) -> bool
    ensures { result ≡ true → EndsAtStart (batch_view changes.now) }
{
    match changes.split_last() {
        Some((Change::ClearScreen(_), _)) => true,
        Some((Change::ClearToEndOfScreen(_), before)) => match before.split_last() {
            Some((change, _)) => row_of_start(change).is_some(),
            None => false,
        },
        _ => false,
    }
}

/// Adds what differs of two screens, each without its first rows, and returns what is then known of the terminal.
pub fn send_below(
    alloc: Global,
    old: &Shown,
    old_top: usize,
    new: &Shown,
    top: usize,
    encoder: Encoder,
    out: &mut String,
) -> Result<Encoder, AllocError>
    requires width { old.now.screen.width ≡ new.now.screen.width }
    requires typable { IsTypable new.now.reached new.now.screen }
    requires most { new.now.reached ≤ 65535 }
    requires old_row { old_top ≤ old.now.screen.row }
    requires new_row { top ≤ new.now.screen.row }
    ensures bytes { OnOk result (string_bytes out.new
        ≡ string_bytes out.old ++ (terse_batch (changes_below old_top top old.now new.now)
        encoder).bytes) }
    ensures next { IfOk result (λ next. next
        ≡ (terse_batch (changes_below old_top top old.now new.now) encoder).next) }
{
    if old_top == 0 && top == 0 {
        return send_changed(
            alloc,
            &old.screen,
            old.reached,
            &new.screen,
            new.reached,
            encoder,
            out,
        );
    }
    let before = old.screen.without_rows(alloc, old_top)?;
    let after = new.screen.without_rows(alloc, top)?;
    let reached = old.reached.saturating_sub(old_top);
    let rows = new.reached.saturating_sub(top);
    send_changed(alloc, &before, reached, &after, rows, encoder, out)
}
