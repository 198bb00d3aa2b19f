//! What a terminal is sent for changes.

ghost use Rattle.std.specs.Prelude.{◌≡◌, ◌++◌, ◌<◌, OnOk, OnErr, true, chars, string_bytes};
ghost use Rattle.std.specs.Char.{is_control};
ghost use Rattle.std.specs.List.{list_all, list_any};
ghost use Rattle.unicode_segmentation.specs.Grapheme.{graphemes};
ghost use Rattle.tw_surface.specs.ChangeView.{change_view};
ghost use Rattle.tw_surface.specs.Characters.{is_plain};
ghost use Rattle.tw_ansi.specs.Encoding.{ExtendsBytes, first_known, without_attributes, at_column, column_of, sent_change, sent_return, sent_feed, sent_return_feed, sent_beginning, sent_byte, shown_as, sent_cluster, sent_plain, sent_clusters, sent_text, sent_clear, terse_change, terse_move};
ghost use Rattle.tw_surface.specs.Attributes.{with_attribute};
ghost use Rattle.tw_surface.specs.Defaults.{default_attributes};
ghost use Rattle.tw_ansi.specs.Sequences.{set_attribute, set_attributes, to_row, to_column, to_first_cell, clear_all, clear_with};

use crate::sequence::{
    clear_with, go_along_column, go_along_row, go_to_column, go_to_row, send_attribute,
    send_attributes,
};
use std::alloc::AllocError;
use tw_surface::{
    AttributeChange, CellAttributes, Change, ColorAttribute, Position, is_plain_text,
};
use unicode_segmentation::UnicodeSegmentation;
use unicode_width::UnicodeWidthStr;

/// Clears from column 0 on: the row, then what stands from the next column on, and back. tmux moves all rows of a
/// screen into its history where they are cleared at once from the first cell on.
const CLEAR_ROWS: &str = "\x1b[K\x1b[C\x1b[J\r";

/// What is known of a terminal's cursor and attributes while changes are sent.
#[derive(Debug, Clone, Copy, PartialEq, Eq)]
pub struct Encoder {
    cols: usize,
    /// The column, from 0; `cols` where the next character begins a row.
    x: usize,
    /// The cursor stands in the last column, and the terminal does not wait there for the next row.
    parted: bool,
    attributes: CellAttributes,
}

impl Encoder {
    /// Creates an encoder for a screen of `cols` columns, with the cursor in column 0 and no attribute set.
    pub fn new(cols: usize) -> Encoder
        ensures { result ≡ first_known cols }
    {
        Encoder {
            cols,
            x: 0,
            parted: false,
            attributes: CellAttributes::default(),
        }
    }

    /// Sets the number of columns.
    pub fn set_cols(&mut self, cols: usize)
        ensures { self.new ≡ record self.old { cols = cols } }
    {
        self.cols = cols;
    }

    /// Returns what resets all attributes: none is set from then on.
    pub fn reset(&mut self) -> &'static str
        ensures text { result.now ≡ set_attributes default_attributes }
        ensures next { self.new ≡ without_attributes self.old }
    {
        self.attributes = Encoder::new(self.cols).attributes;
        "\x1b[0m"
    }

    /// Adds what the change is sent as. A refusal leaves the text and what is known as they were.
    pub fn encode(&mut self, change: &Change, out: &mut String) -> Result<(), AllocError>
        ensures bytes { OnOk result (string_bytes out.new
            ≡ string_bytes out.old ++ (sent_change (change_view change.now) self.old).bytes) }
        ensures next { OnOk result (self.new
            ≡ (sent_change (change_view change.now) self.old).next) }
        ensures text_stays { OnErr result (string_bytes out.new ≡ string_bytes out.old) }
        ensures stays { OnErr result (self.new ≡ self.old) }
    {
        let len = out.len();
        let before = *self;
        match self.send(change, out) {
            Ok(()) => Ok(()),
            Err(error) => {
                out.truncate(len);
                *self = before;
                Err(error)
            }
        }
    }

    /// Adds what the change is sent as, and a move by few bytes, as from a cursor that stands where it is known to
    /// stand: to a row of the terminal, since it does not scroll. A refusal may have added a part of it.
    pub fn encode_tersely(&mut self, change: &Change, out: &mut String) -> Result<(), AllocError>
        ensures bytes { OnOk result (string_bytes out.new
            ≡ string_bytes out.old ++ (terse_change (change_view change.now) self.old).bytes) }
        ensures next { OnOk result (self.new
            ≡ (terse_change (change_view change.now) self.old).next) }
        ensures err { OnErr result (ExtendsBytes (string_bytes out.old) (string_bytes out.new)) }
    {
        match change {
            Change::CursorPosition { x, y } => self.step_cursor(*x, *y, out),
            Change::Attribute(_)
            | Change::AllAttributes(_)
            | Change::Text(_)
            | Change::ClearScreen(_)
            | Change::ClearToEndOfScreen(_) => self.send(change, out),
        }
    }

    /// Adds what a character of a plain text is sent as. A refusal may have added a part of it.
    pub fn encode_byte(&mut self, byte: u8, out: &mut String) -> Result<(), AllocError>
        requires { is_plain byte ≡ true }
        ensures bytes { OnOk result (string_bytes out.new
            ≡ string_bytes out.old ++ (sent_byte self.old byte).bytes) }
        ensures next { OnOk result (self.new ≡ (sent_byte self.old byte).next) }
        ensures err { OnErr result (ExtendsBytes (string_bytes out.old) (string_bytes out.new)) }
    {
        self.write_byte(byte, out)
    }

    /// Adds what the change is sent as, or a part of it.
    fn send(&mut self, change: &Change, out: &mut String) -> Result<(), AllocError>
        ensures bytes { OnOk result (string_bytes out.new
            ≡ string_bytes out.old ++ (sent_change (change_view change.now) self.old).bytes) }
        ensures next { OnOk result (self.new
            ≡ (sent_change (change_view change.now) self.old).next) }
        ensures err { OnErr result (ExtendsBytes (string_bytes out.old) (string_bytes out.new)) }
    {
        match change {
            Change::Attribute(change) => self.set_attribute(*change, out),
            Change::AllAttributes(attributes) => {
                self.attributes = *attributes;
                send_attributes(*attributes, out)
            }
            Change::Text(text) => self.write(text.as_str(), out),
            Change::ClearScreen(color) => self.clear_screen(*color, out),
            Change::ClearToEndOfScreen(color) => self.clear_to_end(*color, out),
            Change::CursorPosition { x, y } => self.move_cursor(*x, *y, out),
        }
    }

    fn set_attribute(&mut self, change: AttributeChange, out: &mut String) -> Result<(), AllocError>
        ensures bytes { OnOk result (string_bytes out.new
            ≡ string_bytes out.old ++ set_attribute change) }
        ensures next { self.new
            ≡ record self.old { attributes = with_attribute change self.old.attributes } }
        ensures err { OnErr result (ExtendsBytes (string_bytes out.old) (string_bytes out.new)) }
    {
        self.attributes.apply_change(&change);
        send_attribute(change, out)
    }

    /// Writes a text: a plain one by its characters, any other one by its clusters.
    fn write(&mut self, text: &str, out: &mut String) -> Result<(), AllocError>
        ensures bytes { OnOk result (string_bytes out.new
            ≡ string_bytes out.old ++ (sent_text text.now self.old).bytes) }
        ensures next { OnOk result (self.new ≡ (sent_text text.now self.old).next) }
        ensures err { OnErr result (ExtendsBytes (string_bytes out.old) (string_bytes out.new)) }
    {
        if is_plain_text(text.as_bytes()) {
            self.write_plain(text.as_bytes(), out)
        } else {
            self.write_clusters(text, out)
        }
    }

    fn write_plain(&mut self, text: &[u8], out: &mut String) -> Result<(), AllocError>
        requires { list_all is_plain text.now ≡ true }
        ensures bytes { OnOk result (string_bytes out.new
            ≡ string_bytes out.old ++ (sent_plain text.now self.old).bytes) }
        ensures next { OnOk result (self.new ≡ (sent_plain text.now self.old).next) }
        ensures err { OnErr result (ExtendsBytes (string_bytes out.old) (string_bytes out.new)) }
    {
        for byte in text {
            self.write_byte(*byte, out)?;
        }
        Ok(())
    }

    fn write_clusters(&mut self, text: &str, out: &mut String) -> Result<(), AllocError>
        ensures bytes { OnOk result (string_bytes out.new
            ≡ string_bytes out.old ++ (sent_clusters (graphemes true text.now) self.old).bytes) }
        ensures next { OnOk result (self.new
            ≡ (sent_clusters (graphemes true text.now) self.old).next) }
        ensures err { OnErr result (ExtendsBytes (string_bytes out.old) (string_bytes out.new)) }
    {
        for cluster in text.graphemes(true) {
            self.write_cluster(cluster, out)?;
        }
        Ok(())
    }

    /// Writes a character of a plain text.
    fn write_byte(&mut self, byte: u8, out: &mut String) -> Result<(), AllocError>
        requires { byte < 128 }
        ensures bytes { OnOk result (string_bytes out.new
            ≡ string_bytes out.old ++ (sent_byte self.old byte).bytes) }
        ensures next { OnOk result (self.new ≡ (sent_byte self.old byte).next) }
        ensures err { OnErr result (ExtendsBytes (string_bytes out.old) (string_bytes out.new)) }
    {
        match byte {
            b'\r' => self.return_to_start(out),
            b'\n' => self.feed_line(out),
            _ => {
                self.begin_columns(1, out)?;
                out.push(byte as char)
            }
        }
    }

    /// Writes a cluster of any other text.
    fn write_cluster(&mut self, cluster: &str, out: &mut String) -> Result<(), AllocError>
        ensures bytes { OnOk result (string_bytes out.new
            ≡ string_bytes out.old ++ (sent_cluster self.old cluster.now).bytes) }
        ensures next { OnOk result (self.new ≡ (sent_cluster self.old cluster.now).next) }
        ensures err { OnErr result (ExtendsBytes (string_bytes out.old) (string_bytes out.new)) }
    {
        match cluster.as_bytes() {
            [b'\r'] => self.return_to_start(out),
            [b'\n'] => self.feed_line(out),
            [b'\r', b'\n'] => self.return_and_feed(out),
            _ => {
                self.begin_columns(cluster.width(), out)?;
                out.push_str(shown_as(cluster))
            }
        }
    }

    fn return_to_start(&mut self, out: &mut String) -> Result<(), AllocError>
        ensures bytes { OnOk result (string_bytes out.new
            ≡ string_bytes out.old ++ (sent_return self.old).bytes) }
        ensures next { OnOk result (self.new ≡ (sent_return self.old).next) }
        ensures err { OnErr result (ExtendsBytes (string_bytes out.old) (string_bytes out.new)) }
    {
        self.stand_at(0);
        out.push('\r')
    }

    fn return_and_feed(&mut self, out: &mut String) -> Result<(), AllocError>
        ensures bytes { OnOk result (string_bytes out.new
            ≡ string_bytes out.old ++ (sent_return_feed self.old).bytes) }
        ensures next { OnOk result (self.new ≡ (sent_return_feed self.old).next) }
        ensures err { OnErr result (ExtendsBytes (string_bytes out.old) (string_bytes out.new)) }
    {
        self.stand_at(0);
        out.push_str("\r\n")
    }

    /// What a terminal that waits after the last column does at a line feed is not known: so the column is gone
    /// to again.
    fn feed_line(&mut self, out: &mut String) -> Result<(), AllocError>
        ensures bytes { OnOk result (string_bytes out.new
            ≡ string_bytes out.old ++ (sent_feed self.old).bytes) }
        ensures next { OnOk result (self.new ≡ (sent_feed self.old).next) }
        ensures err { OnErr result (ExtendsBytes (string_bytes out.old) (string_bytes out.new)) }
    {
        out.push('\n')?;
        if self.x < self.cols || self.parted {
            return Ok(());
        }
        self.parted = true;
        go_to_column(self.cols.saturating_sub(1), out)
    }

    /// Makes room for `width` columns: in the row if they fit, else in the next one. A mark takes none, and leaves the
    /// cursor where it stands.
    fn begin_columns(&mut self, width: usize, out: &mut String) -> Result<(), AllocError>
        ensures bytes { OnOk result (string_bytes out.new
            ≡ string_bytes out.old ++ (sent_beginning self.old width).bytes) }
        ensures next { OnOk result (self.new ≡ (sent_beginning self.old width).next) }
        ensures err { OnErr result (ExtendsBytes (string_bytes out.old) (string_bytes out.new)) }
    {
        if width == 0 {
            return Ok(());
        }
        if self.x <= self.cols && width <= self.cols - self.x {
            self.stand_at(self.x + width);
            return Ok(());
        }
        let parted = self.parted;
        self.stand_at(width);
        if parted {
            return out.push_str("\r\n");
        }
        Ok(())
    }

    /// Notes that the cursor stands in this column.
    fn stand_at(&mut self, x: usize)
        ensures { self.new ≡ at_column x self.old }
    {
        self.x = x;
        self.parted = false;
    }

    /// Clears the screen to a colour, and goes to its first cell.
    fn clear_screen(&mut self, color: ColorAttribute, out: &mut String) -> Result<(), AllocError>
        ensures bytes { OnOk result (string_bytes out.new
            ≡ string_bytes out.old ++ (to_first_cell
            ++ clear_with clear_all color self.old.attributes.background)) }
        ensures next { self.new ≡ at_column 0 self.old }
        ensures err { OnErr result (ExtendsBytes (string_bytes out.old) (string_bytes out.new)) }
    {
        self.stand_at(0);
        out.push_str("\x1b[H")?;
        clear_with("\x1b[2J", color, self.attributes.background, out)
    }

    /// Clears from the cursor on: from column 0 on by rows. Where the last column is written and the cursor stands
    /// after it, that column is kept.
    fn clear_to_end(&mut self, color: ColorAttribute, out: &mut String) -> Result<(), AllocError>
        ensures bytes { OnOk result (string_bytes out.new
            ≡ string_bytes out.old ++ (sent_clear color self.old).bytes) }
        ensures next { OnOk result (self.new ≡ (sent_clear color self.old).next) }
        ensures err { OnErr result (ExtendsBytes (string_bytes out.old) (string_bytes out.new)) }
    {
        let set = self.attributes.background;
        if self.x < self.cols {
            return match self.x {
                0 => clear_with(CLEAR_ROWS, color, set, out),
                _ => clear_with("\x1b[J", color, set, out),
            };
        }
        self.parted = true;
        out.push_str("\r\n")?;
        clear_with("\x1b[J", color, set, out)?;
        out.push_str("\x1b[A")?;
        go_to_column(self.cols.saturating_sub(1), out)
    }

    /// Moves the cursor. A move down below the last row scrolls.
    fn move_cursor(&mut self, x: Position, y: Position, out: &mut String) -> Result<(), AllocError>
        ensures bytes { OnOk result (string_bytes out.new
            ≡ string_bytes out.old ++ (to_row y ++ to_column (column_of x self.old))) }
        ensures next { OnOk result (self.new ≡ at_column (column_of x self.old) self.old) }
        ensures err { OnErr result (ExtendsBytes (string_bytes out.old) (string_bytes out.new)) }
    {
        let col = self.column_of(x);
        self.stand_at(col);
        go_to_row(y, out)?;
        go_to_column(col, out)
    }

    /// Moves the cursor to a row of the terminal by few bytes: by steps from where it stands, and where it stands after
    /// the last column by the way from the start of the row.
    fn step_cursor(&mut self, x: Position, y: Position, out: &mut String) -> Result<(), AllocError>
        ensures bytes { OnOk result (string_bytes out.new
            ≡ string_bytes out.old ++ terse_move x y self.old) }
        ensures next { OnOk result (self.new ≡ at_column (column_of x self.old) self.old) }
        ensures err { OnErr result (ExtendsBytes (string_bytes out.old) (string_bytes out.new)) }
    {
        let from = self.x;
        let col = self.column_of(x);
        self.stand_at(col);
        go_along_column(y, out)?;
        if from < self.cols {
            go_along_row(from, col, out)
        } else {
            go_to_column(col, out)
        }
    }

    /// Returns the column to which a position leads.
    fn column_of(&self, x: Position) -> usize
        ensures { result ≡ column_of x self.now }
    {
        let to = match x {
            Position::Absolute(to) => to,
            Position::Relative(by) => self.x.saturating_add_signed(by),
        };
        to.min(self.cols.saturating_sub(1))
    }
}

/// Returns true if a control character is in a text.
fn has_control(text: &str) -> bool
    ensures { result ≡ list_any is_control (chars text.now) }
{
    text.chars().any(|character| character.is_control())
}

/// Returns what a cluster is shown as: a question mark where a control character is in it.
fn shown_as(cluster: &str) -> &str
    ensures { result.now ≡ shown_as cluster.now }
{
    if has_control(cluster) {
        return "?";
    }
    cluster
}
