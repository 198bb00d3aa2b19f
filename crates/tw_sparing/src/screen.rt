//! The screen.

ghost use Rattle.std.specs.Prelude.{◌≡◌, ℕ, ◌+◌, ◌*◌, ◌<◌, ◌≤◌, ◌↔◌, [], ◌∷◌, ◌++◌, chars, map, max, length, Ok, Err, IfOk, OnOk, OnErr, slice_index_or, eqb, if◌then◌else◌, true};
ghost use Rattle.std.specs.List.{list_all};
ghost use Rattle.unicode_segmentation.specs.Grapheme.{graphemes};
ghost use Rattle.tw_surface.specs.Characters.{is_printable};
ghost use Rattle.tw_surface.specs.ChangeView.{change_view};
ghost use Rattle.tw_surface.specs.Defaults.{default_color};
ghost use Rattle.tw_surface.specs.ChangeView.{Text};
ghost use Rattle.laws_screens.specs.Strokes.Stroke.{Clear, ClearBehind, Feed, Move, Put, Return};
ghost use Rattle.laws_screens.specs.Pens.{change_strokes, kept_after, led};
ghost use Rattle.tw_ansi.specs.EcmaTexts.{is_sent_cluster};
ghost use Rattle.laws_screens.specs.StyledCells.{styled};
ghost use Rattle.tw_sparing.specs.StyledScreens.{AreDrawn, DrawsBeginning, IsPlainFrom, IsPutAt, IsRefusedAt, IsSameBut, IsShownSame, IsSure, ShowsSame, at_row, blank_styled, cell_under, character_stroke, cluster_strokes, paper_cell, plain_behind, styled_cell, without_rows};

use crate::cell::{ScreenCell, is_single};
use std::alloc::{AllocError, Global};
use std::marker::Model;
use tw_surface::{
    CellAttributes, Change, ColorAttribute, Piece, Position, ScreenFault, SizeFault, is_plain_text,
    is_printable_text, split_cluster,
};

/// The greatest width.
const MAX_WIDTH: usize = 65_535;

/// The last row that a screen reaches.
const LAST_ROW: usize = 4_294_967_295;

/// A screen without a bottom: a character under its attributes in each cell, and a cursor. Rows and columns are
/// numbered from 0, and the cursor's column is the width where it waits after the last column. It keeps the cells of
/// all rows down to the last one that was written, and each character takes one of them. If it `is_plain`, text is
/// typed under the default attributes. All cells have these from the place `plain_from` on, if it is known.
#[derive(Debug, Drop)]
pub struct StyledScreen {
    width: usize,
    row: usize,
    col: usize,
    kept: CellAttributes,
    cells: Vec<ScreenCell>,
    rest: ScreenCell,
    is_plain: bool,
    plain_from: Option<usize>,
}

impl Model for StyledScreen {
    ghost use Rattle.tw_sparing.specs.StyledScreens.{StyledView, IsKept};

    ghost Value = { StyledView };

    ghost view = { λ s. record { width = s.width; row = s.row; col = s.col; kept = s.kept; cells = s.cells.items; rest = s.rest } };

    ghost invariant = { λ s. IsKept s.is_plain s.plain_from
        (record { width = s.width; row = s.row; col = s.col; kept = s.kept; cells = s.cells.items; rest = s.rest }) };
}

impl StyledScreen {
    /// Creates a blank screen of 1 to 65,535 columns, with the cursor at (0, 0). Takes no memory.
    pub fn new(alloc: Global, width: usize) -> Result<Self, SizeFault>
        ensures zero { (result ≡ Err SizeFault.ZeroSize) ↔ (width ≡ 0) }
        ensures large { (result ≡ Err SizeFault.OutOfRange) ↔ (65535 < width) }
        ensures ok { 0 < width → width ≤ 65535 → result ≡ Ok (blank_styled width) }
    {
        if width == 0 {
            return Err(SizeFault::ZeroSize);
        }
        if width > MAX_WIDTH {
            return Err(SizeFault::OutOfRange);
        }
        Ok(StyledScreen {
            width,
            row: 0,
            col: 0,
            kept: CellAttributes::default(),
            cells: Vec::new(alloc),
            rest: ScreenCell::blank(ColorAttribute::Default),
            is_plain: true,
            plain_from: Some(0),
        })
    }

    /// Returns the same screen without its first rows, which its cursor is not in.
    pub fn without_rows(&self, alloc: Global, count: usize) -> Result<Self, AllocError>
        requires { count ≤ self.now.row }
        ensures { IfOk result (λ cut. cut ≡ without_rows count self.now) }
    {
        let from = self.cells.len().min(count * self.width);
        Ok(StyledScreen {
            width: self.width,
            row: self.row - count,
            col: self.col,
            kept: self.kept,
            cells: Vec::from_slice(alloc, &self.cells[from..])?,
            rest: self.rest,
            is_plain: self.is_plain,
            plain_from: self.plain_from,
        })
    }

    /// Returns the same screen once more.
    pub fn copy(&self, alloc: Global) -> Result<Self, AllocError>
        ensures { IfOk result (λ copy. copy ≡ self.now) }
    {
        self.without_rows(alloc, 0)
    }

    /// Returns the screen once its cursor is led to column 0 of the row `y`, and all is blank from there on. Only the
    /// cells before that place are copied. Fails with `OutOfRange` if the screen does not reach the row.
    pub fn emptied_from(&self, alloc: Global, y: Position) -> Result<Self, ScreenFault>
        ensures same { IfOk result (IsSameBut self.now) }
        ensures above { IfOk result (λ screen. 0 < screen.width) }
        ensures drawn { IfOk result (AreDrawn (at_row (led y self.now.row) self.now)
            (ClearBehind (styled_cell (paper_cell default_color)) ∷ [])) }
    {
        let row = led_to(y, self.row);
        if row > LAST_ROW {
            return Err(ScreenFault::OutOfRange);
        }
        let before = self.cells.len().min(row * self.width);
        let Ok(cells) = Vec::from_slice(alloc, &self.cells[..before]) else {
            return Err(ScreenFault::Memory);
        };
        let mut screen = StyledScreen {
            width: self.width,
            row,
            col: 0,
            kept: self.kept,
            cells,
            rest: self.rest,
            is_plain: self.is_plain,
            plain_from: None,
        };
        screen.clear_to_end(ColorAttribute::Default)?;
        Ok(screen)
    }

    /// Returns the cells that are kept, from the first one of a row on. Those behind them are all alike.
    pub(crate) fn cells_from(&self, row: usize) -> &[ScreenCell]
        ensures { (col : ℕ) → slice_index_or result.now col self.now.rest
            ≡ slice_index_or self.now.cells (row * self.now.width + col) self.now.rest }
    {
        let start = row.saturating_mul(self.width).min(self.cells.len());
        &self.cells[start..]
    }

    /// Returns what stands at an index of the cells from the first one of a row on.
    pub(crate) fn cell_of<'a>(&'a self, cells: &'a [ScreenCell], index: usize) -> &'a ScreenCell
        ensures { result.now ≡ slice_index_or cells.now index self.now.rest }
    {
        cells.get(index).unwrap_or(&self.rest)
    }

    /// Returns what stands at a row and a column, which the screen has.
    pub fn at(&self, row: usize, col: usize) -> &ScreenCell
        requires { col < self.now.width }
        ensures { result.now
            ≡ slice_index_or self.now.cells (row * self.now.width + col) self.now.rest }
    {
        self.cell_of(self.cells_from(row), col)
    }

    /// Returns true if it is known that all cells have the default attributes, from the first one of a row on.
    pub(crate) fn is_plain_row(&self, row: usize) -> bool
        ensures { result ≡ true → IsPlainFrom (row * self.now.width) self.now }
    {
        match self.plain_from {
            Some(from) => from <= row.saturating_mul(self.width),
            None => false,
        }
    }

    /// Returns what stands at a row and a column of the screen, or `None` if it has no such column.
    pub fn cell(&self, row: usize, col: usize) -> Option<ScreenCell>
        ensures inside { col < self.now.width → result
            ≡ Some (slice_index_or self.now.cells (row * self.now.width + col) self.now.rest) }
        ensures outside { self.now.width ≤ col → result ≡ None }
    {
        if col >= self.width {
            return None;
        }
        Some(*self.at(row, col))
    }

    /// Returns the cursor's row and column. The column is the width where the cursor waits after the last.
    pub fn cursor(&self) -> (usize, usize)
        ensures row { result.0 ≡ self.now.row }
        ensures col { result.1 ≡ self.now.col }
        ensures row_most { result.0 ≤ 4294967295 }
        ensures col_most { result.1 ≤ self.now.width }
    {
        (self.row, self.col)
    }

    /// Returns the number of columns.
    pub fn width(&self) -> usize
        ensures value { result ≡ self.now.width }
        ensures above { 0 < result }
        ensures most { result ≤ 65535 }
    {
        self.width
    }

    /// Returns the attributes under which the text that follows is typed.
    pub fn attributes(&self) -> CellAttributes
        ensures { result ≡ self.now.kept }
    {
        self.kept
    }

    /// Plays a change. What is refused for its row leaves the screen as it was; a text that is refused in its middle is
    /// there up to the cluster that was refused, and a clearing for which there is no room is not played. A text fails
    /// with `NotPlain` if it is not plain and has a cluster that is neither CR, LF, both, nor a character of one column.
    pub fn apply(&mut self, change: &Change) -> Result<(), ScreenFault>
        ensures width { self.new.width ≡ self.old.width }
        ensures played { OnOk result (AreDrawn self.old
            (change_strokes styled self.old.kept (change_view change.now))
            self.new) }
        ensures kept { OnOk result (self.new.kept
            ≡ kept_after styled self.old.kept (change_view change.now)) }
        ensures sent { OnOk result (IsShownSame self.old.width (change_view change.now)) }
        ensures refused { OnErr result (IsRefusedAt (change_view change.now) self.old self.new) }
        ensures sure { IsSure (change_view change.now) → result ≡ Ok tt }
    {
        match change {
            Change::Attribute(change) => {
                self.kept.apply_change(change);
                self.is_plain = self.kept == CellAttributes::default();
                Ok(())
            }
            Change::AllAttributes(attributes) => {
                self.kept = *attributes;
                self.is_plain = self.kept == CellAttributes::default();
                Ok(())
            }
            Change::Text(text) => self.write(text.as_str()),
            Change::ClearScreen(color) => {
                self.clear(*color);
                Ok(())
            }
            Change::ClearToEndOfScreen(color) => self.clear_to_end(*color),
            Change::CursorPosition { x, y } => self.move_cursor(*x, *y),
        }
    }

    /// Returns the place of the cursor in the line of all rows.
    fn place(&self) -> usize
        ensures place { result ≡ self.now.row * self.now.width + self.now.col }
        ensures most { result < 281474976710656 }
    {
        self.row * self.width + self.col
    }

    /// Returns the row and the column of the cell that is written next.
    fn next_cell(&self) -> (usize, usize)
        ensures row { result.0
            ≡ (if eqb self.now.col self.now.width then self.now.row + 1 else self.now.row) }
        ensures col { result.1 ≡ (if eqb self.now.col self.now.width then 0 else self.now.col) }
    {
        if self.col == self.width {
            (self.row + 1, 0)
        } else {
            self.cursor()
        }
    }

    /// Adds cells up to a place, each as the one after all others: nothing else is shown then.
    fn fill_to(&mut self, place: usize) -> Result<(), ScreenFault>
        ensures same { IsSameBut self.old self.new }
        ensures shown { ShowsSame self.old self.new }
        ensures len { OnOk result (length self.new.cells ≡ max (length self.old.cells) place) }
        ensures err { OnErr result (result ≡ Err ScreenFault.Memory) }
    {
        if self.cells.len() < place && self.cells.resize(place, self.rest).is_err() {
            return Err(ScreenFault::Memory);
        }
        Ok(())
    }

    /// Puts a character at a place, under the attributes that are selected.
    fn put_at(&mut self, place: usize, character: char) -> Result<(), ScreenFault>
        requires { place < 281474976710656 }
        ensures same { IsSameBut self.old self.new }
        ensures put { OnOk result (IsPutAt place
            (styled_cell record { character = character; attributes = self.old.kept })
            self.old self.new) }
        ensures refused { OnErr result (ShowsSame self.old self.new) }
    {
        self.fill_to(place + 1)?;
        self.plain_from = plain_behind(self.plain_from, self.is_plain, place);
        self.cells[place] = ScreenCell {
            character,
            attributes: self.kept,
        };
        Ok(())
    }

    /// Puts a character where the cursor stands, from after the last column to the first column of the next row.
    fn put(&mut self, character: char) -> Result<(), ScreenFault>
        ensures same { IsSameBut self.old self.new }
        ensures shown { OnOk result (AreDrawn self.old
            (Put (styled_cell record { character = character; attributes = self.old.kept } ∷ []) ∷ [])
            self.new) }
        ensures refused { OnErr result (AreDrawn self.old [] self.new) }
    {
        let (row, col) = self.next_cell();
        if row > LAST_ROW {
            return Err(ScreenFault::OutOfRange);
        }
        let place = self.place();
        self.put_at(place, character)?;
        self.row = row;
        self.col = col + 1;
        Ok(())
    }

    /// Plays a character: CR and LF move the cursor, and any other one is put.
    fn play(&mut self, character: char) -> Result<(), ScreenFault>
        ensures same { IsSameBut self.old self.new }
        ensures shown { OnOk result (AreDrawn self.old
            (character_stroke self.old.kept character ∷ []) self.new) }
        ensures refused { OnErr result (AreDrawn self.old [] self.new) }
    {
        match character {
            '\r' => self.col = 0,
            '\n' => {
                if self.row == LAST_ROW {
                    return Err(ScreenFault::OutOfRange);
                }
                self.row += 1;
            }
            _ => return self.put(character),
        }
        Ok(())
    }

    /// Returns true if a text is typed behind all cells: printable characters of ASCII, for whose rows there is room.
    fn goes_on(&self, text: &[u8]) -> bool
        ensures printable { result ≡ true → list_all is_printable text.now ≡ true }
        ensures some { result ≡ true → 0 < length text.now }
        ensures end { result ≡ true → length self.now.cells
            ≡ self.now.row * self.now.width + self.now.col }
        ensures room { result ≡ true → length self.now.cells + length text.now ≤ 4294967295 }
    {
        !text.is_empty()
            && self.place() == self.cells.len()
            && self.cells.len().saturating_add(text.len()) <= LAST_ROW
            && is_printable_text(text)
    }

    /// Types printable characters behind all cells.
    fn type_on(&mut self, text: &[u8]) -> Result<(), ScreenFault>
        requires printable { list_all is_printable text.now ≡ true }
        requires some { 0 < length text.now }
        requires end { length self.old.cells ≡ self.old.row * self.old.width + self.old.col }
        requires room { length self.old.cells + length text.now ≤ 4294967295 }
        ensures same { IsSameBut self.old self.new }
        ensures shown { OnOk result (AreDrawn self.old
            (map (character_stroke self.old.kept) text.now) self.new) }
        ensures refused { OnErr result (ShowsSame self.old self.new) }
    {
        push_cells(&mut self.cells, text, self.kept)?;
        let last = self.cells.len() - 1;
        self.plain_from = plain_behind(self.plain_from, self.is_plain, last);
        self.row = last / self.width;
        self.col = last % self.width + 1;
        Ok(())
    }

    /// Plays a text.
    fn write(&mut self, text: &str) -> Result<(), ScreenFault>
        ensures same { IsSameBut self.old self.new }
        ensures shown { OnOk result (AreDrawn self.old
            (change_strokes styled self.old.kept (Text text.now)) self.new) }
        ensures sent { OnOk result (IsShownSame self.old.width (Text text.now)) }
        ensures refused { OnErr result (DrawsBeginning
            (change_strokes styled self.old.kept (Text text.now)) self.old self.new) }
    {
        let bytes = text.as_bytes();
        if self.goes_on(bytes) {
            return self.type_on(bytes);
        }
        if is_plain_text(bytes) {
            return self.write_apart(text);
        }
        self.write_clusters(text)
    }

    /// Plays the characters of a text one by one, each in one cell.
    fn write_apart(&mut self, text: &str) -> Result<(), ScreenFault>
        ensures same { IsSameBut self.old self.new }
        ensures shown { OnOk result (AreDrawn self.old
            (map (character_stroke self.old.kept) (chars text.now)) self.new) }
        ensures refused { OnErr result (DrawsBeginning
            (map (character_stroke self.old.kept) (chars text.now)) self.old self.new) }
    {
        for character in text.chars() {
            self.play(character)?;
        }
        Ok(())
    }

    /// Plays the clusters of a text one by one.
    fn write_clusters(&mut self, text: &str) -> Result<(), ScreenFault>
        ensures same { IsSameBut self.old self.new }
        ensures shown { OnOk result (AreDrawn self.old
            (cluster_strokes self.old.kept (graphemes true text.now)) self.new) }
        ensures sent { OnOk result (list_all (is_sent_cluster self.old.width)
            (graphemes true text.now) ≡ true) }
        ensures refused { OnErr result (DrawsBeginning
            (cluster_strokes self.old.kept (graphemes true text.now)) self.old self.new) }
    {
        let mut left = text;
        while let Some((cluster, behind)) = split_cluster(left) {
            self.play_cluster(cluster)?;
            left = behind;
        }
        Ok(())
    }

    /// Plays a cluster of a text that is not plain.
    fn play_cluster(&mut self, cluster: &str) -> Result<(), ScreenFault>
        ensures same { IsSameBut self.old self.new }
        ensures shown { OnOk result (AreDrawn self.old
            (cluster_strokes self.old.kept (cluster.now ∷ [])) self.new) }
        ensures sent { OnOk result (is_sent_cluster self.old.width cluster.now ≡ true) }
        ensures refused { OnErr result (AreDrawn self.old [] self.new) }
    {
        match Piece::of_cluster(cluster) {
            Piece::Cr => self.play('\r'),
            Piece::Lf => self.play('\n'),
            Piece::CrLf => self.return_and_feed(),
            Piece::Wide(_) => self.put_single(cluster),
        }
    }

    /// Goes to the start of the next row.
    fn return_and_feed(&mut self) -> Result<(), ScreenFault>
        ensures same { IsSameBut self.old self.new }
        ensures shown { OnOk result (AreDrawn self.old (Return ∷ Feed ∷ []) self.new) }
        ensures refused { OnErr result (AreDrawn self.old [] self.new) }
    {
        if self.row == LAST_ROW {
            return Err(ScreenFault::OutOfRange);
        }
        self.row += 1;
        self.col = 0;
        Ok(())
    }

    /// Puts a cluster that is a character of one column, and refuses any other one.
    fn put_single(&mut self, cluster: &str) -> Result<(), ScreenFault>
        ensures same { IsSameBut self.old self.new }
        ensures shown { OnOk result (AreDrawn self.old
            (cluster_strokes self.old.kept (cluster.now ∷ [])) self.new) }
        ensures sent { OnOk result (is_sent_cluster self.old.width cluster.now ≡ true) }
        ensures refused { OnErr result (AreDrawn self.old [] self.new) }
    {
        let _ = &self.width;
        let mut characters = cluster.chars();
        match characters.next() {
            Some(character) if characters.as_str().is_empty() && is_single(character) => {
                self.put(character)
            }
            _ => Err(ScreenFault::NotPlain),
        }
    }

    fn clear(&mut self, color: ColorAttribute)
        ensures same { IsSameBut self.old self.new }
        ensures shown { AreDrawn self.old (Clear (styled_cell (paper_cell color)) ∷ []) self.new }
    {
        self.cells.clear();
        self.rest = ScreenCell::blank(color);
        self.plain_from = (color == ColorAttribute::Default).then_some(0);
        self.row = 0;
        self.col = 0;
    }

    fn clear_to_end(&mut self, color: ColorAttribute) -> Result<(), ScreenFault>
        ensures same { IsSameBut self.old self.new }
        ensures shown { OnOk result (AreDrawn self.old
            (ClearBehind (styled_cell (paper_cell color)) ∷ []) self.new) }
        ensures refused { OnErr result (AreDrawn self.old [] self.new) }
    {
        let place = self.place();
        self.fill_to(place)?;
        self.cells.truncate(place);
        self.rest = ScreenCell::blank(color);
        self.plain_from = (color == ColorAttribute::Default).then_some(place);
        Ok(())
    }

    fn move_cursor(&mut self, x: Position, y: Position) -> Result<(), ScreenFault>
        ensures same { IsSameBut self.old self.new }
        ensures shown { OnOk result (AreDrawn self.old (Move (led y) (led x) ∷ []) self.new) }
        ensures refused { OnErr result (self.new ≡ self.old) }
    {
        let row = led_to(y, self.row);
        if row > LAST_ROW {
            return Err(ScreenFault::OutOfRange);
        }
        self.col = led_to(x, self.col).min(self.width - 1);
        self.row = row;
        Ok(())
    }
}

/// Returns where a position leads a row or a column: to 0 in place of a negative number.
fn led_to(position: Position, at: usize) -> usize
    requires { at ≤ 4294967295 }
    ensures { result ≡ led position at }
{
    match position {
        Position::Absolute(to) => to,
        Position::Relative(by) => at.saturating_add_signed(by),
    }
}

/// Adds a cell for each byte of a text. A refusal leaves them as they were.
fn push_cells(
    cells: &mut Vec<ScreenCell>,
    text: &[u8],
    attributes: CellAttributes,
) -> Result<(), ScreenFault>
    ensures ok { OnOk result (cells.new.items
        ≡ cells.old.items ++ map (cell_under attributes) text.now) }
    ensures err { OnErr result (cells.new.items ≡ cells.old.items) }
{
    if cells.reserve(text.len()).is_err() {
        return Err(ScreenFault::Memory);
    }
    for byte in text {
        let cell = ScreenCell {
            character: *byte as char,
            attributes,
        };
        if cells.push(cell).is_err() {
            return Err(ScreenFault::Memory);
        }
    }
    Ok(())
}

/// Returns the place from which on all cells have the default attributes, once those up to `last` are written: under
/// these attributes if `is_plain`.
fn plain_behind(from: Option<usize>, is_plain: bool, last: usize) -> Option<usize>
    requires { last < 281474976710656 }
    ensures { result ≡ plain_behind is_plain last from }
{
    match from {
        Some(from) if !is_plain => Some(from.max(last + 1)),
        _ => from,
    }
}
