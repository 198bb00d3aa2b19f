//! The parts of hosts, and the host of tables.

use std::alloc::{AllocError, Global};
use std::test::Fail;
use test_cases::{events_named, expect_rows, parted};
use tw_host::{LineEditorHost, OutputElement};
use tw_hosts::{
    Binding, Hint, KeyBinding, Styles, TableHost, Tables, first_word, is_known, last_word,
    split_token,
};
use tw_input::{KeyCode, KeyEvent, Modifiers};
use tw_line::{BasicHistory, LineEditBuffer};
use tw_surface::{CellAttributes, ColorAttribute, Intensity};

/// Returns the elements as text: `B` before a bold text, `G` before a green one, `.` before a plain one, all between
/// bars.
fn marked(alloc: Global, elements: &[OutputElement]) -> Result<String, AllocError> {
    let mut output = String::new(alloc);
    let mut style = '.';
    for element in elements {
        match element {
            OutputElement::Text(text) => {
                output.push(style)?;
                output.push_str(text.as_str())?;
                output.push('|')?;
            }
            OutputElement::AllAttributes(attributes) => {
                style = if *attributes == CellAttributes::default() {
                    '.'
                } else if attributes.intensity == Intensity::Bold {
                    'B'
                } else {
                    'G'
                };
            }
            OutputElement::Attribute(_) => output.push('?')?,
        }
    }
    Ok(output)
}

/// Returns hints of which two rows have the same word.
fn sql_hints(alloc: Global) -> Result<Vec<Hint>, AllocError> {
    let mut hints = Vec::new(alloc);
    for &(word, text) in &[
        ("", "type a statement"),
        ("drop", "drops\r\na table"),
        ("drop", "never shown"),
    ] {
        let word = String::from_str(alloc, word)?;
        let text = String::from_str(alloc, text)?;
        hints.push(Hint { word, text })?;
    }
    Ok(hints)
}

/// Returns keys of which two rows have the same one.
fn sql_keys(alloc: Global) -> Result<Vec<KeyBinding>, AllocError> {
    let mut keys = Vec::new(alloc);
    for &(key, binding) in &[
        (F1, Binding::Clear),
        (CTRL_Z, Binding::Cancel),
        (F1, Binding::Accept),
    ] {
        keys.push(KeyBinding { key, binding })?;
    }
    Ok(keys)
}

/// Returns a host that knows some SQL, with a hint for an empty line and one for a line that begins with `drop`.
/// Keywords are bold, and quoted texts green.
fn sql_host(alloc: Global) -> Result<TableHost<BasicHistory>, AllocError> {
    let mut keyword = CellAttributes::default();
    keyword.intensity = Intensity::Bold;
    let mut quote = CellAttributes::default();
    quote.foreground = ColorAttribute::PaletteIndex(2);
    let tables = Tables {
        keywords: parted(alloc, "select from where", ' ')?,
        words: parted(alloc, "users orders order_items", ' ')?,
        hints: sql_hints(alloc)?,
        keys: sql_keys(alloc)?,
        styles: Styles { keyword, quote },
    };
    Ok(TableHost::new(tables, BasicHistory::new(alloc)))
}

const F1: KeyEvent = KeyEvent {
    key: KeyCode::Function(1),
    modifiers: Modifiers::NONE,
};

const CTRL_Z: KeyEvent = KeyEvent {
    key: KeyCode::Char('Z'),
    modifiers: Modifiers::CTRL,
};

/// Returns the candidates for the line before the cursor, with their ranges.
fn candidates(
    alloc: Global,
    host: &TableHost<BasicHistory>,
    line: &str,
    cursor: usize,
) -> Result<String, Fail> {
    if !line.is_char_boundary(cursor) {
        return Err(Fail::from("no boundary"));
    }
    let mut output = String::new(alloc);
    let candidates = host.complete(alloc, line, cursor)?;
    for candidate in &candidates {
        let place = &candidate.range;
        write!(output, "{}-{}:{} ", place.start, place.end, candidate.text)?;
    }
    Ok(String::from_str(alloc, output.trim_end())?)
}

/// Answers `shown CURSOR LINE` (the line and its column), `column CURSOR LINE` and `complete CURSOR LINE`.
fn at_cursor(
    alloc: Global,
    host: &TableHost<BasicHistory>,
    word: &str,
    place: &str,
) -> Result<String, Fail> {
    let (cursor, line) = place.split_once(' ').ok_or("no line")?;
    let cursor = cursor.parse()?;
    if !line.is_char_boundary(cursor) {
        return Err(Fail::from("no boundary"));
    }
    if word == "complete" {
        return candidates(alloc, host, line, cursor);
    }
    let (elements, column) = host.highlight_line(alloc, line, cursor)?;
    if word == "column" {
        return Ok(format!(in alloc; "{column}")?);
    }
    let shown = marked(alloc, elements.as_slice())?;
    Ok(format!(in alloc; "{shown} {column}")?)
}

/// Returns the actions of events in one line, and the line after each.
fn actions(alloc: Global, host: &mut TableHost<BasicHistory>, names: &str) -> Result<String, Fail> {
    let mut line = LineEditBuffer::new(alloc, "abc", 1)?;
    let mut output = Vec::new(alloc);
    let events = events_named(alloc, names)?;
    for event in &events {
        let action = host.resolve_action(alloc, event, &mut line)?;
        output.push(format!(in alloc; "{action:?} {:?}", line.get_line())?)?;
    }
    Ok(output.join(alloc, ", ")?)
}

/// Answers `token LINE`, `words TEXT`, `known WORD`, `hint LINE`, `keys EVENTS`, and what `at_cursor` does.
fn obey(alloc: Global, command: &str) -> Result<String, Fail> {
    let (word, rest) = command.split_once(' ').unwrap_or((command, ""));
    let mut host = sql_host(alloc)?;
    Ok(match word {
        "token" if !rest.is_empty() => {
            let (token, rest) = split_token(rest);
            format!(in alloc; "{token}|{rest}")?
        }
        "words" => format!(in alloc; "{}|{}", first_word(rest), last_word(rest))?,
        "known" => {
            let words = parted(alloc, "copy move", ' ')?;
            format!(in alloc; "{}", is_known(words.as_slice(), rest))?
        }
        "hint" => marked(alloc, host.render_preview(alloc, rest)?.as_slice())?,
        "keys" => actions(alloc, &mut host, rest)?,
        _ => at_cursor(alloc, &host, word, rest)?,
    })
}

const ROWS: &str = r#"
// tokens
token select x => select| x
token  x =>  |x
token   x =>  | x
token 'a b' c => 'a b'| c
token 'a b => 'a b|
token ' => '|
token ''x => ''|x
token a'b' => a|'b'
token été x => été| x

// keywords and quotations have styles; behind them stands the column
shown 0\u{20} =>  0
shown 6 select => Bselect| 6
shown 7 selects => .selects| 7
shown 22 select * from 'from x' => Bselect|. * |Bfrom|. |G'from x'| 22
column 6 日本x => 4

// the word before the cursor is completed
complete 2 or => 0-2:orders 0-2:order_items
complete 7 from orders => 5-7:orders 5-7:order_items
complete 7 from us => 5-7:users
complete 5 from\u{20} => 5-5:users 5-5:orders 5-5:order_items
complete 6 from x =>

// the first hint for the first word
hint\u{20} => .type a statement|
hint drop => .drops\r\na table|
hint drop users => .drops\r\na table|
hint dropped =>
hint  drop => .type a statement|

// keys have the action of their first row, and others none
keys C-Z F1 Z Wake => Some(Cancel) "abc", Some(Kill(EndOfLine)) "", None "", None ""

// words
words\u{20} => |
words copy => copy|copy
words copy a b => copy|b
words  x\u{20} => |
known move => true
known mov => false
"#;

#[test]
fn hosts_know_lines(rt: HostRuntime) -> Result<(), Fail> {
    expect_rows(rt.alloc(), ROWS, obey)
}
