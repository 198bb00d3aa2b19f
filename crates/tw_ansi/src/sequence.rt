//! The bytes of control sequences.

ghost use Rattle.std.specs.Prelude.{◌≡◌, ◌++◌, false, OnOk, OnErr, string_bytes, codes, replicate};
ghost use Rattle.std.specs.Fmt.{decimal};
ghost use Rattle.std.specs.List.{flat_map};
ghost use Rattle.tw_surface.specs.Characters.{lf};
ghost use Rattle.tw_ansi.specs.Encoding.{ExtendsBytes};
ghost use Rattle.tw_ansi.specs.Sequences.{sequence, step_count, along_row, along_column, to_column, to_row, attribute_parameters, color_parameters, set_attribute, set_attributes, set_unless_off, is_color, is_off, is_same_color, clear_with};

use itoa::Buffer;
use std::alloc::AllocError;
use tw_surface::{
    AttributeChange, Blink, CellAttributes, ColorAttribute, Intensity, Position, Underline,
};

/// The most rows that a move leads up or down.
const MOST_ROWS: usize = 65_535;

/// Adds texts, one after the other.
pub fn push_all(out: &mut String, texts: &[&str]) -> Result<(), AllocError>
    ensures ok { OnOk result (string_bytes out.new
        ≡ string_bytes out.old ++ flat_map (λ text. text.now) texts.now) }
    ensures err { OnErr result (ExtendsBytes (string_bytes out.old) (string_bytes out.new)) }
{
    for text in texts {
        out.push_str(text)?;
    }
    Ok(())
}

/// Adds a control sequence of one number.
fn push_number(out: &mut String, number: usize, letter: &str) -> Result<(), AllocError>
    ensures ok { OnOk result (string_bytes out.new
        ≡ string_bytes out.old ++ sequence (decimal number) letter.now) }
    ensures err { OnErr result (ExtendsBytes (string_bytes out.old) (string_bytes out.new)) }
{
    push_all(out, &["\x1b[", Buffer::new().format(number), letter])
}

/// Appends a control sequence of `count` steps, which has no number if `count` is 1.
fn push_steps(out: &mut String, count: usize, letter: &str) -> Result<(), AllocError>
    ensures ok { OnOk result (string_bytes out.new
        ≡ string_bytes out.old ++ sequence (step_count count) letter.now) }
    ensures err { OnErr result (ExtendsBytes (string_bytes out.old) (string_bytes out.new)) }
{
    if count == 1 {
        return push_all(out, &["\x1b[", letter]);
    }
    push_number(out, count, letter)
}

/// Goes to a column of the row.
pub fn go_to_column(col: usize, out: &mut String) -> Result<(), AllocError>
    ensures ok { OnOk result (string_bytes out.new ≡ string_bytes out.old ++ to_column col) }
    ensures err { OnErr result (ExtendsBytes (string_bytes out.old) (string_bytes out.new)) }
{
    out.push('\r')?;
    if col == 0 {
        return Ok(());
    }
    push_number(out, col, "C")
}

/// Goes from a column to another one of the row: by backspaces up to three to the left, and else by one sequence.
pub fn go_along_row(from: usize, to: usize, out: &mut String) -> Result<(), AllocError>
    ensures ok { OnOk result (string_bytes out.new ≡ string_bytes out.old ++ along_row from to) }
    ensures err { OnErr result (ExtendsBytes (string_bytes out.old) (string_bytes out.new)) }
{
    if from == to {
        return Ok(());
    }
    if to == 0 {
        return out.push('\r');
    }
    if from < to {
        return push_steps(out, to - from, "C");
    }
    match from - to {
        1 => out.push_str("\x08"),
        2 => out.push_str("\x08\x08"),
        3 => out.push_str("\x08\x08\x08"),
        columns => push_number(out, columns, "D"),
    }
}

/// Goes down by line feeds.
fn feed_lines(count: usize, out: &mut String) -> Result<(), AllocError>
    ensures ok { OnOk result (string_bytes out.new ≡ string_bytes out.old ++ replicate count lf) }
    ensures err { OnErr result (ExtendsBytes (string_bytes out.old) (string_bytes out.new)) }
{
    for _row in 0..count {
        out.push('\n')?;
    }
    Ok(())
}

/// Goes to a row: up by one sequence, and down by line feeds. A move down below the last row scrolls.
pub fn go_to_row(to: Position, out: &mut String) -> Result<(), AllocError>
    ensures ok { OnOk result (string_bytes out.new ≡ string_bytes out.old ++ to_row to) }
    ensures err { OnErr result (ExtendsBytes (string_bytes out.old) (string_bytes out.new)) }
{
    match to {
        Position::Absolute(row) => push_number(out, row.min(MOST_ROWS) + 1, "d"),
        Position::Relative(by) => {
            let rows = by.unsigned_abs().min(MOST_ROWS);
            if by < 0 {
                push_number(out, rows, "A")
            } else {
                feed_lines(rows, out)
            }
        }
    }
}

/// Goes to a row of the terminal by few bytes: down by line feeds up to three rows, and further by one sequence, which
/// does not scroll; up by one without its number.
pub fn go_along_column(to: Position, out: &mut String) -> Result<(), AllocError>
    ensures ok { OnOk result (string_bytes out.new ≡ string_bytes out.old ++ along_column to) }
    ensures err { OnErr result (ExtendsBytes (string_bytes out.old) (string_bytes out.new)) }
{
    match to {
        Position::Relative(-1) => out.push_str("\x1b[A"),
        Position::Relative(rows) if rows > 3 => {
            push_number(out, rows.unsigned_abs().min(MOST_ROWS), "B")
        }
        _ => go_to_row(to, out),
    }
}

/// Returns the parameters that set an attribute that is no colour.
fn plain_parameters(change: AttributeChange) -> &'static str
    ensures { is_color change ≡ false → result.now ≡ attribute_parameters change }
{
    match change {
        AttributeChange::Intensity(Intensity::Normal) => "22",
        AttributeChange::Intensity(Intensity::Bold) => "22;1",
        AttributeChange::Intensity(Intensity::Half) => "22;2",
        AttributeChange::Underline(Underline::None) => "24",
        AttributeChange::Underline(Underline::Single) => "4",
        AttributeChange::Underline(Underline::Double) => "21",
        AttributeChange::Underline(Underline::Curly) => "4:3",
        AttributeChange::Underline(Underline::Dotted) => "4:4",
        AttributeChange::Underline(Underline::Dashed) => "4:5",
        AttributeChange::Blink(Blink::None) => "25",
        AttributeChange::Blink(Blink::Slow) => "25;5",
        AttributeChange::Blink(Blink::Rapid) => "25;6",
        AttributeChange::Italic(false) => "23",
        AttributeChange::Italic(true) => "3",
        AttributeChange::Reverse(false) => "27",
        AttributeChange::Reverse(true) => "7",
        AttributeChange::StrikeThrough(false) => "29",
        AttributeChange::StrikeThrough(true) => "9",
        AttributeChange::Invisible(false) => "28",
        AttributeChange::Invisible(true) => "8",
        AttributeChange::Foreground(_) | AttributeChange::Background(_) => "",
    }
}

/// Sets a colour, the text's own one by 3 or the one after it by 4.
fn send_color(kind: &str, color: ColorAttribute, out: &mut String) -> Result<(), AllocError>
    ensures ok { OnOk result (string_bytes out.new
        ≡ string_bytes out.old ++ sequence (color_parameters kind.now color) (codes "m")) }
    ensures err { OnErr result (ExtendsBytes (string_bytes out.old) (string_bytes out.new)) }
{
    match color {
        ColorAttribute::Default => push_all(out, &["\x1b[", kind, "9m"]),
        ColorAttribute::PaletteIndex(index) => {
            let mut number = Buffer::new();
            push_all(out, &["\x1b[", kind, "8;5;", number.format(index), "m"])
        }
        ColorAttribute::TrueColorWithDefaultFallback(red, green, blue) => {
            let (mut r, mut g, mut b) = (Buffer::new(), Buffer::new(), Buffer::new());
            let numbers = [
                "8;2;",
                r.format(red),
                ";",
                g.format(green),
                ";",
                b.format(blue),
            ];
            push_all(out, &["\x1b[", kind])?;
            push_all(out, &numbers)?;
            out.push('m')
        }
    }
}

/// Sets one attribute.
pub fn send_attribute(change: AttributeChange, out: &mut String) -> Result<(), AllocError>
    ensures ok { OnOk result (string_bytes out.new ≡ string_bytes out.old ++ set_attribute change) }
    ensures err { OnErr result (ExtendsBytes (string_bytes out.old) (string_bytes out.new)) }
{
    match change {
        AttributeChange::Foreground(color) => send_color("3", color, out),
        AttributeChange::Background(color) => send_color("4", color, out),
        other => push_all(out, &["\x1b[", plain_parameters(other), "m"]),
    }
}

/// Returns true if an attribute has its first value.
fn is_off(change: AttributeChange) -> bool
    ensures { result ≡ is_off change }
{
    matches!(
        change,
        AttributeChange::Intensity(Intensity::Normal)
            | AttributeChange::Underline(Underline::None)
            | AttributeChange::Blink(Blink::None)
            | AttributeChange::Italic(false)
            | AttributeChange::Reverse(false)
            | AttributeChange::StrikeThrough(false)
            | AttributeChange::Invisible(false)
            | AttributeChange::Foreground(ColorAttribute::Default)
            | AttributeChange::Background(ColorAttribute::Default)
    )
}

/// Sets an attribute that has not its first value.
fn send_if_on(change: AttributeChange, out: &mut String) -> Result<(), AllocError>
    ensures ok { OnOk result (string_bytes out.new
        ≡ string_bytes out.old ++ set_unless_off change) }
    ensures err { OnErr result (ExtendsBytes (string_bytes out.old) (string_bytes out.new)) }
{
    if is_off(change) {
        return Ok(());
    }
    send_attribute(change, out)
}

/// Sets those attributes that have not their first values.
fn send_those_on(changes: &[AttributeChange], out: &mut String) -> Result<(), AllocError>
    ensures ok { OnOk result (string_bytes out.new
        ≡ string_bytes out.old ++ flat_map set_unless_off changes.now) }
    ensures err { OnErr result (ExtendsBytes (string_bytes out.old) (string_bytes out.new)) }
{
    for change in changes {
        send_if_on(*change, out)?;
    }
    Ok(())
}

/// Sets all attributes.
pub fn send_attributes(to: CellAttributes, out: &mut String) -> Result<(), AllocError>
    ensures ok { OnOk result (string_bytes out.new ≡ string_bytes out.old ++ set_attributes to) }
    ensures err { OnErr result (ExtendsBytes (string_bytes out.old) (string_bytes out.new)) }
{
    out.push_str("\x1b[0m")?;
    let changes = [
        AttributeChange::Intensity(to.intensity),
        AttributeChange::Underline(to.underline),
        AttributeChange::Blink(to.blink),
        AttributeChange::Italic(to.italic),
        AttributeChange::Reverse(to.reverse),
        AttributeChange::StrikeThrough(to.strikethrough),
        AttributeChange::Invisible(to.invisible),
        AttributeChange::Foreground(to.foreground),
        AttributeChange::Background(to.background),
    ];
    send_those_on(&changes, out)
}

/// Returns true if two colours are one.
fn is_same_color(a: ColorAttribute, b: ColorAttribute) -> bool
    ensures { result ≡ is_same_color a b }
{
    match (a, b) {
        (ColorAttribute::Default, ColorAttribute::Default) => true,
        (ColorAttribute::PaletteIndex(a), ColorAttribute::PaletteIndex(b)) => a == b,
        (
            ColorAttribute::TrueColorWithDefaultFallback(a, b, c),
            ColorAttribute::TrueColorWithDefaultFallback(d, e, f),
        ) => a == d && b == e && c == f,
        _ => false,
    }
}

/// Clears by a sequence, with this colour after the text. The colour that is set there stays set.
pub fn clear_with(
    clear: &str,
    color: ColorAttribute,
    set: ColorAttribute,
    out: &mut String,
) -> Result<(), AllocError>
    ensures ok { OnOk result (string_bytes out.new
        ≡ string_bytes out.old ++ clear_with clear.now color set) }
    ensures err { OnErr result (ExtendsBytes (string_bytes out.old) (string_bytes out.new)) }
{
    if is_same_color(color, set) {
        return out.push_str(clear);
    }
    send_attribute(AttributeChange::Background(color), out)?;
    out.push_str(clear)?;
    send_attribute(AttributeChange::Background(set), out)
}
