//! Lines of several rows, as they are shown. The cells are counted by hand: after the prompt `> ` a row that fills its
//! last column is followed by a space, and the others begin with `. `.

use std::alloc::Global;
use std::test::Fail;
use test_cases::expect_rows;
use tw_host::OutputElement;
use tw_hosts::{PromptScreen, styled};
use tw_prompt_host::Rows;
use tw_surface::{CellAttributes, Intensity};

fn bold() -> CellAttributes {
    let mut attributes = CellAttributes::default();
    attributes.intensity = Intensity::Bold;
    attributes
}

/// Returns the elements of a line in which each second part between `*` is bold.
fn elements_of(alloc: Global, marked: &str) -> Result<Vec<OutputElement>, Fail> {
    let mut elements = Vec::new(alloc);
    let mut is_bold = false;
    for part in marked.split('*') {
        if is_bold {
            elements.append(&mut styled(alloc, bold(), part)?)?;
        } else {
            elements.push(OutputElement::text(alloc, part)?)?;
        }
        is_bold = !is_bold;
    }
    Ok(elements)
}

/// Returns the text of elements, with `{bold}` and `{}` for attributes.
fn text_of(alloc: Global, elements: &[OutputElement]) -> Result<String, Fail> {
    let mut text = String::new(alloc);
    for element in elements {
        match element {
            OutputElement::Text(part) => text.push_str(part.as_str())?,
            OutputElement::AllAttributes(attributes) if *attributes == bold() => {
                text.push_str("{bold}")?;
            }
            _ => text.push_str("{}")?,
        }
    }
    Ok(text)
}

/// Shows a line in rows: `COLS CURSOR LINE`. Returns `TEXT|COLUMN`.
fn shown(alloc: Global, command: &str) -> Result<String, Fail> {
    let (cols, rest) = command.split_once(' ').ok_or("no cursor")?;
    let (cursor, marked) = rest.split_once(' ').ok_or("no line")?;
    let screen = PromptScreen {
        cols: cols.parse()?,
        prompt: String::from_str(alloc, "> ")?,
    };
    let line = marked.replace(alloc, "*", "")?;
    let cursor = cursor.parse()?;
    if !line.is_char_boundary(cursor) {
        return Err(Fail::from("no boundary"));
    }
    let elements = elements_of(alloc, marked)?;
    let rows = Rows::Several(String::from_str(alloc, ". ")?);
    let (elements, column) = rows.show(alloc, &screen, elements, line.as_str(), cursor)?;
    let text = text_of(alloc, elements.as_slice())?;
    Ok(format!(in alloc; "{text}|{column}")?)
}

const ROWS: &str = r"
// a line of one row is shown as it is
10 2 ab => ab|2
10 0 ab => ab|0
4 2 ab => ab|2
5 6 \u{65e5}\u{672c} => \u{65e5}\u{672c}|5

// each row begins with the continuation prompt
10 2 ab\ncd => ab\r\n. cd|2
10 3 ab\ncd => ab\r\n. cd|10
10 5 ab\ncd => ab\r\n. cd|12
10 1 \n => \r\n. |10
10 4 a\n\nb => a\r\n. \r\n. b|21

// a row that fills its last column has a space after it, but not the last row
4 2 ab\ncd => ab \r\n. cd|2
4 3 ab\ncd => ab \r\n. cd|8
4 5 ab\ncd => ab \r\n. cd|10
4 7 ab\ncd\ne => ab \r\n. cd \r\n. e|17
2 0 \n => \u{20}\r\n. |0

// the cells that wide characters leave empty at the edge count
5 11 \u{65e5}\u{672c}abc\nx => \u{65e5}\u{672c}abc \r\n. x|16
5 10 \u{65e5}\u{672c}ab\nx => \u{65e5}\u{672c}ab\r\n. x|11

// a break is in no colour of the line
10 5 a*b\nc*d => a{bold}b{}\r\n. {bold}c{}d|12
10 4 *a*b\nc => {bold}a{}b{}\r\n. {}c|11
10 5 *ab*\ncd => {bold}ab{}{}\r\n. {}cd|12
";

#[test]
fn rows_stand_below_one_another(rt: HostRuntime) -> Result<(), Fail> {
    expect_rows(rt.alloc(), ROWS, shown)
}
