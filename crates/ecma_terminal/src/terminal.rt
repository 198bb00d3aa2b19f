//! The terminal.

ghost use Rattle.std.specs.Prelude.{◌≡◌, ◌<◌, ◌≤◌, ◌↔◌, ◌⊎◌, ◌∷◌, ◌+◌, [], length, leb, map, true, false, None, Some, Ok, Err, IfSome, IfOk, IfErr, OnOk, OnErr, chars, ltb, ◌||◌};
ghost use Rattle.std.specs.List.{list_all};
ghost use Rattle.laws_screens.specs.Pens.{cluster_cells};
ghost use Rattle.laws_screens.specs.Screens.{blank_of};
ghost use Rattle.laws_screens.specs.StyledCells.{styled};
ghost use Rattle.tw_ansi.specs.EcmaScreen.{act, act_by, columns_of, feed_line, is_whole_character, join_mark, receive, receive_all, receive_text, return_to_start, step_back, told_steps, write, write_character, write_here};
ghost use Rattle.tw_ansi.specs.EcmaScreen as terminal;
ghost use Rattle.tw_ansi.specs.KeyBytes.{is_digit, is_parameter};
ghost use Rattle.ecma_terminal.specs.Cells.{shown_cell};
ghost use Rattle.ecma_terminal.specs.Grids.{grid_cell, is_full};
ghost use Rattle.ecma_terminal.specs.Colors.{ends_in_large};
ghost use Rattle.ecma_terminal.specs.Terminals.{Becomes, HasNoSize, IsNew, IsRefusedFor, IsUnwritten, StopsWithin, IsNoCharacter, only_one, is_too_large, mark_col, takes_memory, wrapped};

use crate::cell::TerminalCell;
use crate::fault::EcmaFault;
use crate::grid::Grid;
use crate::rendition::selected;
use std::alloc::Global;
use std::marker::Model;
use std::mem;
use tw_ansi::number_of;
use tw_surface::{CellAttributes, ColorAttribute};
use unicode_width::UnicodeWidthChar;

/// The greatest number of rows, and of columns.
const MOST: usize = 65_535;

const ESC: u8 = 0x1b;

const BS: u8 = 0x08;

/// The first byte that begins a character of several.
const BEGINNING: u8 = 0xc2;

/// How far a control sequence or a character was read.
#[derive(Debug, Drop)]
enum Reading {
    /// There is none.
    Text,
    /// An ESC.
    Escaped,
    /// ESC [ and these parameters.
    Parameters(Vec<u8>),
    /// These bytes of a character that has more.
    Begun(Vec<u8>),
}

/// A terminal after ECMA-48: its cells, its cursor, the attributes that are selected, and how far a control sequence
/// was read. Rows and columns are numbered from 0. It holds what the small terminal of the definitions of `tw_ansi`
/// holds.
#[derive(Debug, Drop)]
pub struct EcmaTerminal {
    alloc: Global,
    grid: Grid,
    row: usize,
    col: usize,
    waits: bool,
    last: usize,
    attributes: CellAttributes,
    reading: Reading,
}

impl Model for EcmaTerminal {
    ghost use Rattle.ecma_terminal.specs.Terminals.{TerminalView, IsTerminal};
    ghost use Rattle.ecma_terminal.specs.Readings.{reading_of};

    ghost Value = { TerminalView };

    ghost view = { λ s. record { grid = s.grid; row = s.row; col = s.col; waits = s.waits; last = s.last; attributes = s.attributes; reading = reading_of s.reading } };

    ghost invariant = { λ s. IsTerminal
        (record { grid = s.grid; row = s.row; col = s.col; waits = s.waits; last = s.last; attributes = s.attributes; reading = reading_of s.reading }) };
}

/// Returns true if all bytes are digits.
fn are_digits(bytes: &[u8]) -> bool
    ensures { result ≡ list_all is_digit bytes.now }
{
    bytes.iter().all(u8::is_ascii_digit)
}

/// Returns true if all bytes of a character are there.
fn is_whole_character(bytes: &[u8]) -> bool
    ensures { result ≡ is_whole_character bytes.now }
{
    match bytes {
        [] => false,
        [first, more @ ..] => {
            let len = match first {
                0..=0xdf => 1,
                0xe0..=0xef => 2,
                _ => 3,
            };
            more.len() == len
        }
    }
}

/// Returns the character of a text that has one.
fn only_character(text: &str) -> Option<char>
    ensures { result ≡ only_one (chars text.now) }
{
    let mut characters = text.chars();
    let Some(character) = characters.next() else {
        return None;
    };
    match characters.next() {
        None => Some(character),
        Some(_) => None,
    }
}

/// Returns the columns of a character, 0 for a mark, or `None` if the bytes are not those of one character.
fn columns_of(bytes: &[u8]) -> Option<usize>
    ensures columns { IfSome result (λ columns. columns ≡ columns_of bytes.now) }
    ensures most { IfSome result (λ columns. columns ≤ 3) }
    ensures none { result ≡ None → IsNoCharacter bytes.now }
{
    let Ok(text) = str::from_utf8(bytes) else {
        return None;
    };
    let Some(character) = only_character(text) else {
        return None;
    };
    Some(character.width().unwrap_or(0))
}

/// Returns a number of steps: none written means one.
fn told_steps(number: usize) -> usize
    ensures { result ≡ told_steps number }
{
    if number == 0 { 1 } else { number }
}

impl EcmaTerminal {
    /// Creates a terminal of 1 to 65,535 rows and columns, each cell of which holds the one given. The cursor stands at
    /// (0, 0), and the default attributes are selected.
    pub fn new(
        alloc: Global,
        rows: usize,
        cols: usize,
        cell: TerminalCell,
    ) -> Result<Self, EcmaFault>
        ensures ok { IfOk result (λ terminal. IsNew rows cols (shown_cell cell) terminal) }
        ensures err { IfErr result (λ fault. fault ≡ EcmaFault.Size ⊎ fault ≡ EcmaFault.Memory) }
        ensures size { (result ≡ Err EcmaFault.Size) ↔ (HasNoSize rows cols) }
    {
        if rows == 0 || rows > MOST || cols == 0 || cols > MOST {
            return Err(EcmaFault::Size);
        }
        Ok(EcmaTerminal {
            alloc,
            grid: Grid::new(alloc, rows, cols, cell)?,
            row: 0,
            col: 0,
            waits: false,
            last: 0,
            attributes: CellAttributes::default(),
            reading: Reading::Text,
        })
    }

    /// Returns the number of rows.
    pub fn rows(&self) -> usize
        ensures { result ≡ self.now.grid.rows }
    {
        self.grid.rows()
    }

    /// Returns the number of columns.
    pub fn cols(&self) -> usize
        ensures { result ≡ self.now.grid.cols }
    {
        self.grid.cols()
    }

    /// Returns what stands at a row and a column, or none after the last ones.
    pub fn cell(&self, row: usize, col: usize) -> Option<TerminalCell>
        ensures inside { row < self.now.grid.rows → col < self.now.grid.cols → result
            ≡ Some (grid_cell self.now.grid row col) }
        ensures below { self.now.grid.rows ≤ row → result ≡ None }
        ensures behind { self.now.grid.cols ≤ col → result ≡ None }
    {
        self.grid.cell(row, col)
    }

    /// Returns the cursor's row and column. Where it waits after the last column, the column is the last one.
    pub fn cursor(&self) -> (usize, usize)
        ensures row { result.0 ≡ self.now.row }
        ensures col { result.1 ≡ self.now.col }
        ensures row_within { result.0 < self.now.grid.rows }
        ensures col_within { result.1 < self.now.grid.cols }
    {
        (self.row, self.col)
    }

    /// Returns true if the cursor waits after the last column.
    pub fn waits(&self) -> bool
        ensures { result ≡ self.now.waits }
    {
        self.waits
    }

    /// Returns the attributes that are selected.
    pub fn attributes(&self) -> CellAttributes
        ensures { result ≡ self.now.attributes }
    {
        self.attributes
    }

    /// Leads the cursor to column 0.
    fn return_to_start(&mut self)
        ensures { Becomes self.old return_to_start self.new }
    {
        self.col = 0;
        self.waits = false;
    }

    /// Leads the cursor to the next row. In the last row it moves all rows up by one, and adds a blank one.
    fn feed_line(&mut self)
        ensures { Becomes self.old (feed_line (blank_of styled) self.old.grid.rows) self.new }
    {
        if self.row + 1 == self.grid.rows() {
            self.grid
                .raise(TerminalCell::blank(ColorAttribute::Default));
        } else {
            self.row += 1;
        }
        self.waits = false;
    }

    /// Leads the cursor one column to the left.
    fn step_back(&mut self)
        ensures { Becomes self.old step_back self.new }
    {
        self.col = self.col.saturating_sub(1);
        self.waits = false;
    }

    /// Writes the cells of a character at the cursor, which moves on, and waits if they reach the last column.
    fn write_here(&mut self, cells: &[TerminalCell])
        requires { self.old.col + length cells.now ≤ self.old.grid.cols }
        ensures { Becomes self.old
            (write_here self.old.grid.cols (map shown_cell cells.now)) self.new }
    {
        self.grid.put_all(self.row, self.col, cells);
        self.last = cells.len();
        self.col += cells.len();
        if self.col == self.grid.cols() {
            self.col -= 1;
            self.waits = true;
        }
    }

    /// Returns true if the cursor waits, or if `columns` columns do not fit in its row.
    fn is_past_row(&self, columns: usize) -> bool
        ensures { result ≡ (self.now.waits || ltb self.now.grid.cols (self.now.col + columns)) }
    {
        self.waits || columns > self.grid.cols() - self.col
    }

    /// Leads the cursor to the start of the next row if it waits, or if `columns` columns do not fit in this one.
    fn wrap(&mut self, columns: usize)
        requires { columns ≤ self.old.grid.cols }
        ensures wrapped { Becomes self.old
            (wrapped (blank_of styled) self.old.grid.rows self.old.grid.cols columns) self.new }
        ensures room { self.new.col + columns ≤ self.old.grid.cols }
    {
        if self.is_past_row(columns) {
            self.feed_line();
            self.return_to_start();
        }
    }

    /// Writes the cells of a character at the cursor, or at the start of the next row.
    fn write(&mut self, cells: &[TerminalCell])
        requires { length cells.now ≤ self.old.grid.cols }
        ensures { Becomes self.old
            (write (blank_of styled) self.old.grid.rows self.old.grid.cols (map shown_cell cells.now))
            self.new }
    {
        self.wrap(cells.len());
        self.write_here(cells);
    }

    /// Writes a printable character.
    fn write_byte(&mut self, byte: u8)
        ensures { let cells = styled.ink self.old.attributes (byte ∷ []) ∷ [] in
            Becomes self.old (write (blank_of styled) self.old.grid.rows self.old.grid.cols cells)
            self.new }
    {
        self.write(&[TerminalCell {
            number: u128::from(byte),
            attributes: self.attributes,
        }]);
    }

    /// Adds a mark to the character that was written last.
    fn join(&mut self, mark: &[u8]) -> Result<(), EcmaFault>
        ensures ok { OnOk result (Becomes self.old
            (join_mark styled self.old.grid.cols mark.now) self.new) }
        ensures err { OnErr result (self.new ≡ self.old) }
        ensures cause { IfErr result (λ fault. (fault ≡ EcmaFault.Full)
            × (is_full self.old.grid self.old.row (mark_col self.old) mark.now ≡ true)) }
    {
        let end = if self.waits {
            self.grid.cols()
        } else {
            self.col
        };
        if self
            .grid
            .join(self.row, end.saturating_sub(self.last), mark)
        {
            Ok(())
        } else {
            Err(EcmaFault::Full)
        }
    }

    /// Writes a character of one column or more.
    fn write_wide(&mut self, character: &[u8], columns: usize) -> Result<(), EcmaFault>
        requires columns { columns ≡ columns_of character.now }
        requires some { 0 < columns }
        requires most { columns ≤ 3 }
        ensures ok { let cells = cluster_cells styled self.old.attributes character.now columns in
            OnOk result (Becomes self.old
            (write (blank_of styled) self.old.grid.rows self.old.grid.cols cells) self.new) }
        ensures err { OnErr result (self.new ≡ self.old) }
        ensures cause { IfErr result (λ fault. IsUnwritten fault self.old character.now) }
    {
        if columns > self.grid.cols() {
            return Err(EcmaFault::Wide);
        }
        let Some(first) = TerminalCell::of(character, self.attributes) else {
            return Err(EcmaFault::Full);
        };
        let rest = TerminalCell {
            number: 0,
            attributes: self.attributes,
        };
        self.write(&[first, rest, rest][..columns]);
        Ok(())
    }

    /// Writes a character of several bytes, or adds it to the one before if it is a mark.
    fn write_character(&mut self, character: &[u8]) -> Result<(), EcmaFault>
        ensures ok { OnOk result (Becomes self.old
            (write_character styled self.old.grid.rows self.old.grid.cols character.now) self.new) }
        ensures err { OnErr result (self.new ≡ self.old) }
        ensures cause { IfErr result (λ fault. IsUnwritten fault self.old character.now) }
    {
        match columns_of(character) {
            None => Err(EcmaFault::Character),
            Some(0) => self.join(character),
            Some(columns) => self.write_wide(character, columns),
        }
    }

    /// Does what a sequence of one number does.
    fn act_by(&mut self, number: usize, letter: u8)
        requires { number ≤ 4294967295 }
        ensures { Becomes self.old
            (act_by styled self.old.grid.rows self.old.grid.cols number letter) self.new }
    {
        let paper = TerminalCell::blank(self.attributes.background);
        let (row, col) = self.cursor();
        let last_row = self.grid.rows() - 1;
        let last_col = self.grid.cols() - 1;
        let steps = told_steps(number);
        match (letter, number) {
            (b'A', _) => self.lead_to(row.saturating_sub(steps), col),
            (b'B', _) => self.lead_to(last_row.min(row + steps), col),
            (b'C', _) => self.lead_to(row, last_col.min(col + steps)),
            (b'D', _) => self.lead_to(row, col.saturating_sub(steps)),
            (b'H', _) => self.lead_to(last_row.min(steps - 1), 0),
            (b'J', 0) => self.grid.clear_behind(row, col, paper),
            (b'J', 2) => self.grid.clear(paper),
            (b'K', 0) => self.grid.clear_row(row, col, paper),
            (b'd', _) => self.lead_to(last_row.min(steps - 1), col),
            _ => {}
        }
    }

    /// Leads the cursor to a row and a column, where it does not wait.
    fn lead_to(&mut self, row: usize, col: usize)
        requires row { row < self.old.grid.rows }
        requires col { col < self.old.grid.cols }
        ensures { Becomes self.old (λ t. record t { row = row; col = col; waits = false })
            self.new }
    {
        self.row = row;
        self.col = col;
        self.waits = false;
    }

    /// Does what a sequence does.
    #[tactic(auto, using(crate::proofs::TerminalSteps::same_rule, crate::proofs::TerminalSteps::acts_by))]
    fn act(&mut self, parameters: &[u8], letter: u8) -> Result<(), EcmaFault>
        ensures ok { OnOk result (Becomes self.old
            (act styled self.old.grid.rows self.old.grid.cols parameters.now letter) self.new) }
        ensures err { OnErr result (self.new ≡ self.old) }
        ensures cause { IfErr result (λ fault. (fault ≡ EcmaFault.Color)
            × (ends_in_large parameters.now letter self.old.attributes ≡ true)) }
        ensures large { ends_in_large parameters.now letter self.old.attributes ≡ true → result
            ≡ Err EcmaFault.Color }
        ensures sure { ends_in_large parameters.now letter self.old.attributes ≡ false
            → result ≡ Ok tt }
    {
        let before = self.attributes;
        if letter == b'm' {
            let Some(attributes) = selected(parameters, before) else {
                return Err(EcmaFault::Color);
            };
            self.attributes = attributes;
        } else if are_digits(parameters) {
            self.act_by(number_of(parameters) as usize, letter);
        }
        Ok(())
    }

    /// Receives a byte outside a sequence.
    fn receive_text(&mut self, byte: u8) -> Result<(), EcmaFault>
        ensures ok { OnOk result (Becomes self.old
            (receive_text styled self.old.grid.rows self.old.grid.cols byte) self.new) }
        ensures err { OnErr result (self.new ≡ self.old) }
        ensures cause { IfErr result (λ fault. (fault ≡ EcmaFault.Memory)
            × (leb 194 byte ≡ true)) }
        ensures sure { leb 194 byte ≡ false → result ≡ Ok tt }
    {
        match byte {
            ESC => self.reading = Reading::Escaped,
            b'\r' => self.return_to_start(),
            b'\n' => self.feed_line(),
            BS => self.step_back(),
            b' '..=b'~' => self.write_byte(byte),
            BEGINNING.. => {
                let mut bytes = Vec::new(self.alloc);
                bytes.push(byte)?;
                self.reading = Reading::Begun(bytes);
            }
            _ => {}
        }
        Ok(())
    }

    /// Receives a byte after these ones of a character.
    fn receive_begun(&mut self, mut bytes: Vec<u8>, byte: u8) -> Result<(), EcmaFault>
        requires { self.old.reading ≡ terminal.Text }
        ensures ok { let before = record self.old { reading = terminal.Begun bytes.items } in
            OnOk result (Becomes before
            (receive styled self.old.grid.rows self.old.grid.cols byte) self.new) }
        ensures err { OnErr result (self.new
            ≡ record self.old { reading = terminal.Begun bytes.items }) }
        ensures cause { let before = record self.old { reading = terminal.Begun bytes.items } in
            IfErr result (λ fault. IsRefusedFor fault before byte) }
    {
        let pushed = bytes.push(byte);
        if pushed.is_err() || !is_whole_character(bytes.as_slice()) {
            self.reading = Reading::Begun(bytes);
            pushed?;
            return Ok(());
        }
        match self.write_character(bytes.as_slice()) {
            Ok(()) => Ok(()),
            Err(fault) => {
                let _byte = bytes.pop();
                self.reading = Reading::Begun(bytes);
                Err(fault)
            }
        }
    }

    /// Receives a byte after ESC [ and these parameters.
    fn receive_behind(&mut self, mut parameters: Vec<u8>, byte: u8) -> Result<(), EcmaFault>
        requires { self.old.reading ≡ terminal.Text }
        ensures ok { let reading = terminal.Parameters parameters.items in
            let before = record self.old { reading = reading } in
            OnOk result (Becomes before
            (receive styled self.old.grid.rows self.old.grid.cols byte) self.new) }
        ensures err { OnErr result (self.new
            ≡ record self.old { reading = terminal.Parameters parameters.items }) }
        ensures cause { let reading = terminal.Parameters parameters.items in
            let before = record self.old { reading = reading } in
            IfErr result (λ fault. IsRefusedFor fault before byte) }
        ensures large { is_parameter byte ≡ false
            → ends_in_large parameters.items byte self.old.attributes ≡ true → result
            ≡ Err EcmaFault.Color }
        ensures sure { is_parameter byte ≡ false
            → ends_in_large parameters.items byte self.old.attributes ≡ false → result ≡ Ok tt }
    {
        if (b' '..=b'?').contains(&byte) {
            let pushed = parameters.push(byte);
            self.reading = Reading::Parameters(parameters);
            pushed?;
            return Ok(());
        }
        match self.act(parameters.as_slice(), byte) {
            Ok(()) => Ok(()),
            Err(fault) => {
                self.reading = Reading::Parameters(parameters);
                Err(fault)
            }
        }
    }

    /// Receives a byte. It takes memory for a parameter and for a character of several bytes. A byte is refused for a
    /// colour if it ends an SGR sequence in which a number of a colour is above 255, and also if it ends bytes that are
    /// no character, a character of more columns than the terminal, or a mark for which its cell has no room. One that
    /// is refused leaves the terminal as it was.
    pub fn receive(&mut self, byte: u8) -> Result<(), EcmaFault>
        ensures ok { OnOk result (Becomes self.old
            (receive styled self.old.grid.rows self.old.grid.cols byte) self.new) }
        ensures err { OnErr result (self.new ≡ self.old) }
        ensures cause { IfErr result (λ fault. IsRefusedFor fault self.old byte) }
        ensures large { is_too_large self.old byte ≡ true → result ≡ Err EcmaFault.Color }
        ensures sure { takes_memory self.old byte ≡ false → is_too_large self.old byte ≡ false
            → result ≡ Ok tt }
    {
        match mem::replace(&mut self.reading, Reading::Text) {
            Reading::Text => return self.receive_text(byte),
            Reading::Escaped => {
                if byte == b'[' {
                    self.reading = Reading::Parameters(Vec::new(self.alloc));
                }
            }
            Reading::Parameters(parameters) => return self.receive_behind(parameters, byte),
            Reading::Begun(bytes) => return self.receive_begun(bytes, byte),
        }
        Ok(())
    }

    /// Receives bytes, one after the other. Where one is refused those before it were received, and no more.
    pub fn receive_all(&mut self, bytes: &[u8]) -> Result<(), EcmaFault>
        ensures ok { OnOk result (Becomes self.old
            (receive_all styled self.old.grid.rows self.old.grid.cols bytes.now) self.new) }
        ensures err { IfErr result (λ fault. StopsWithin fault bytes.now self.old self.new) }
    {
        for byte in bytes {
            self.receive(*byte)?;
        }
        Ok(())
    }
}
