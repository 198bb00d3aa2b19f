//! A sequence of changes, measured as it grows.

ghost use Rattle.std.specs.Prelude.{◌≡◌, ◌+◌, ◌-◌, ◌<◌, ◌≤◌, ◌⊎◌, ◌↔◌, Ok, Err, OnOk, OnErr, MatchOption, [], ◌∷◌, ◌++◌, true, nat_abs, is_ok, if◌then◌else◌};
ghost use Rattle.tw_surface.specs.ChangeView.{change_view, batch_view};
ghost use Rattle.tw_surface.specs.Positions.{position_after};
ghost use Rattle.tw_surface.specs.Places.{places_of_change, is_in_range, move_between};
ghost use Rattle.tw_surface.specs.Drawings.{Drawing, place, height};
ghost use Rattle.tw_surface.specs.Extents.{place_of, Measures};
ghost use Rattle.tw_surface.specs.Adding.{Adds, with_move_to};

use crate::change::{Change, Position};
use crate::measure::{Extent, measure_text};
use crate::size::{MAX_REACH, MAX_SIZE, SizeFault};
use std::alloc::{AllocError, Global};
use std::error::Error;
use std::fmt;
use std::marker::Model;

/// Why a change is refused.
#[derive(Debug, Copy, Clone, PartialEq, Eq)]
pub enum AddFault {
    /// There is no memory for one more change.
    Memory,
    /// A row below -2,147,483,647 or above 2,147,483,647, or a measured column above that; in
    /// `move_to` also a column that the screen doesn't have.
    OutOfRange,
}

impl fmt::Display for AddFault {
    fn fmt<W: fmt::Write>(&self, f: &mut fmt::Formatter<W>) -> fmt::Result {
        f.write_str(match self {
            AddFault::Memory => "out of memory",
            AddFault::OutOfRange => "row or column out of range",
        })
    }
}

impl Error for AddFault {}

/// Returns the row to which a position leads, or `None` if it is far out of range.
fn moved_row(position: Position, at: isize) -> Option<isize>
    requires { nat_abs at ≤ 2147483647 }
    ensures { MatchOption result (2147483647 < nat_abs (position_after position at))
        (λ row. row ≡ position_after position at) }
{
    match position {
        Position::Absolute(row) => {
            if row > MAX_REACH as usize {
                return None;
            }
            Some(row as isize)
        }
        Position::Relative(by) => {
            if by > 2 * MAX_REACH || by < -2 * MAX_REACH {
                return None;
            }
            Some(at + by)
        }
    }
}

/// Returns the extent after a change, or `None` if a place on the way is out of range.
fn measure_change(cols: usize, extent: Extent, change: &Change) -> Option<Extent>
    requires above { 0 < cols }
    requires cols { cols ≤ 65535 }
    requires range { is_in_range (place_of extent) ≡ true }
    ensures { Measures extent (places_of_change cols (change_view change.now)
        (place_of extent)) result }
{
    match change {
        Change::Text(text) => measure_text(cols, extent, text.as_str()),
        Change::ClearScreen(_) => extent.reach(0, 0),
        Change::Attribute(_) | Change::AllAttributes(_) | Change::ClearToEndOfScreen(_) => {
            Some(extent)
        }
        Change::CursorPosition { x, y } => {
            let col = x.moved_from(extent.x).min(cols - 1);
            let row = moved_row(*y, extent.y)?;
            extent.reach(col, row)
        }
    }
}

/// Changes for a screen of a given number of columns, with the place to which they lead and the
/// rows that they take. Rows count from the row in which the sequence begins.
#[derive(Debug, Drop)]
pub struct ChangeSequence {
    cols: usize,
    reached: Extent,
    changes: Vec<Change>,
}

impl Model for ChangeSequence {
    ghost use Rattle.tw_surface.specs.ChangeView.{batch_view};
    ghost use Rattle.tw_surface.specs.Drawings.{Drawing};
    ghost use Rattle.tw_surface.specs.Extents.{IsExtentOf};

    ghost Value = { Drawing };

    ghost view = { λ s. record { cols = s.cols; changes = batch_view s.changes.items } };

    ghost invariant = { λ s. IsExtentOf s.cols (batch_view s.changes.items) s.reached };
}

impl ChangeSequence {
    /// Creates a sequence without changes. Takes no memory.
    pub fn new(alloc: Global, rows: usize, cols: usize) -> Result<Self, SizeFault>
        ensures zero { (rows ≡ 0) ⊎ (cols ≡ 0) → result ≡ Err SizeFault.ZeroSize }
        ensures large { 0 < rows → 0 < cols → (65535 < rows) ⊎ (65535 < cols) → result
            ≡ Err SizeFault.OutOfRange }
        ensures ok { 0 < rows → 0 < cols → rows ≤ 65535 → cols ≤ 65535 → result
            ≡ Ok (record { cols = cols; changes = [] }) }
    {
        if rows == 0 || cols == 0 {
            return Err(SizeFault::ZeroSize);
        }
        if rows > MAX_SIZE || cols > MAX_SIZE {
            return Err(SizeFault::OutOfRange);
        }
        Ok(ChangeSequence {
            cols,
            reached: Extent::start(),
            changes: Vec::new(alloc),
        })
    }

    /// Returns the column and the row to which the changes lead. The column is the number of columns where the wrap is
    /// pending.
    pub fn current_cursor_position(&self) -> (usize, isize)
        ensures column { result.0 ≡ (place self.now).x }
        ensures row { result.1 ≡ (place self.now).y }
    {
        (self.reached.x, self.reached.y)
    }

    /// Returns the greatest row so far minus the least one, row 0 counted in both.
    pub fn render_height(&self) -> usize
        ensures { result ≡ height self.now.cols self.now.changes }
    {
        (self.reached.greatest - self.reached.least) as usize
    }

    /// Adds a change at the end. A refusal leaves the sequence as it was and drops the change;
    /// whether a place is out of range is tested before any growth.
    pub fn add<C: Into<Change>>(&mut self, change: C) -> Result<(), AddFault>
        ensures { (made : Change) × C.converts change made
            × Adds (change_view made) self.old self.new result }
    {
        self.add_change(change.into())
    }

    /// Adds a change that needs no conversion, as [`ChangeSequence::add`] does.
    pub fn add_change(&mut self, change: Change) -> Result<(), AddFault>
        ensures { Adds (change_view change) self.old self.new result }
    {
        let Some(next) = measure_change(self.cols, self.reached, &change) else {
            return Err(AddFault::OutOfRange);
        };
        if push_change(&mut self.changes, change).is_err() {
            return Err(AddFault::Memory);
        }
        self.reached = next;
        Ok(())
    }

    /// Adds the relative move to a column and a row. A column that the screen doesn't have, or a row
    /// past the limit, is `OutOfRange`; a refusal leaves the sequence as it was.
    pub fn move_to(&mut self, to: (usize, isize)) -> Result<(), AddFault>
        ensures moved { OnOk result (self.new
            ≡ with_move_to (record { x = to.0; y = to.1 }) self.old) }
        ensures place { OnOk result (place self.new ≡ record { x = to.0; y = to.1 }) }
        ensures refused { OnErr result (self.new ≡ self.old) }
        ensures range { (result ≡ Err AddFault.OutOfRange)
            ↔ ((self.old.cols ≤ to.0) ⊎ (2147483647 < nat_abs to.1)) }
    {
        let (x, y) = to;
        if x >= self.cols || y > MAX_REACH || y < -MAX_REACH {
            return Err(AddFault::OutOfRange);
        }
        let change = relative_move(self.reached, x, y);
        self.add_change(change)
    }

    /// Returns the changes in the order in which they were added. Takes no memory.
    pub fn consume(self) -> Vec<Change>
        ensures { batch_view result.items ≡ self.changes }
    {
        self.changes
    }
}

/// Adds a change at the end. The first one makes room for a whole painting.
fn push_change(changes: &mut Vec<Change>, change: Change) -> Result<(), AllocError>
    ensures items { changes.new.items ≡
        (if is_ok result then changes.old.items ++ change ∷ [] else changes.old.items) }
{
    if changes.capacity() == 0 {
        changes.reserve(8)?;
    }
    changes.push(change)?;
    Ok(())
}

/// Returns the relative move from where a extent ends.
fn relative_move(from: Extent, x: usize, y: isize) -> Change
    requires from_column { from.x ≤ 2147483647 }
    requires to_column { x ≤ 65535 }
    requires from_row { nat_abs from.y ≤ 2147483647 }
    requires to_row { nat_abs y ≤ 2147483647 }
    ensures { change_view result ≡ move_between (place_of from) (record { x = x; y = y }) }
{
    Change::CursorPosition {
        x: Position::Relative(x as isize - from.x as isize),
        y: Position::Relative(y - from.y),
    }
}
