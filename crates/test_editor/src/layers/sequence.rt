//! Places of texts and moves, and refusals.

use super::support::renew;
use std::alloc::Global;
use std::mem;
use std::test::Fail;
use test_cases::{change_of, expect_runs, fault_text, pair_of, write_batch};
use tw_surface::ChangeSequence;

/// Takes the changes out of a sequence and returns their number and their texts.
fn batch_text(alloc: Global, sequence: &mut ChangeSequence) -> Result<String, Fail> {
    let changes = mem::replace(sequence, ChangeSequence::new(alloc, 24, 5)?).consume();
    let mut text = format!(in alloc; "{} [", changes.len())?;
    write_batch(&mut text, changes.as_slice())?;
    text.push(']')?;
    Ok(text)
}

/// Runs `new ROWS COLS`, `string TEXT`, `move_to COL ROW`, or a change, and returns its fault. Answers `place`,
/// `height` and `batch`.
fn obey(alloc: Global, sequence: &mut ChangeSequence, command: &str) -> Result<String, Fail> {
    let (word, rest) = command.split_once(' ').unwrap_or((command, ""));
    Ok(match word {
        "place" => {
            let (col, row) = sequence.current_cursor_position();
            format!(in alloc; "{col} {row}")?
        }
        "height" => format!(in alloc; "{}", sequence.render_height())?,
        "batch" => batch_text(alloc, sequence)?,
        "string" => fault_text(alloc, &sequence.add(String::from_str(alloc, rest)?))?,
        "move_to" => {
            let (col, row) = rest.split_once(' ').ok_or("no row")?;
            fault_text(alloc, &sequence.move_to((col.parse()?, row.parse()?)))?
        }
        "new" => {
            let (rows, cols) = pair_of(rest)?;
            renew(alloc, sequence, ChangeSequence::new(alloc, rows, cols))?
        }
        _ => fault_text(alloc, &sequence.add(change_of(alloc, command)?))?,
    })
}

const SEQUENCES: &str = r#"
// sizes
new 0 5 => ZeroSize
new 5 0 => ZeroSize
new 0 65536 => ZeroSize
new 65536 5 => OutOfRange
new 5 65536 => OutOfRange
new 65535 65535; place; height; batch => 0 0; 0; 0 []
new 1 1; place; height; batch => 0 0; 0; 0 []

// a text, and the place to which the next one leads
new 24 5; text ; text abcde; place => 5 0
new 24 5; text abcde; text f; place => 1 1
new 24 5; text ; text abcd; place => 4 0
new 24 5; text abcd; text 一; place => 2 1
new 24 5; text ; text é\r\nx; place => 1 1
new 24 5; text ; text abc\n; place => 3 1
// printable ASCII with lone CR and LF, and the same in a text that is cut into clusters
new 24 5; text abc; text \rx; place => 1 0
new 24 5; text abc; text \r\nx; place => 1 1
new 24 5; text ; text é\nx; place => 2 1
new 24 5; text ; text éa\rx; place => 1 0
// a base and its combining mark, and a mark without a base after the last column
new 24 5; text abcd; text e\u{301}; place => 5 0
new 24 5; text abcde; text \u{301}; place => 5 0
// three emoji that are joined into one, and a flag
new 24 5; text abc; text \u{1f468}\u{200d}\u{1f469}\u{200d}\u{1f467}; place => 5 0
new 24 5; text abcd; text \u{1f1e9}\u{1f1ea}; place => 2 1
new 24 5; text ; text \u{1f1e9}\u{1f1ea}\u{1f1eb}\u{1f1f7}; place => 4 0
// a control character takes one column
new 24 5; text abc; text \t; place => 4 0
new 24 5; text abcde; text \u{7}; place => 1 1
// nothing moves
new 24 5; text abc; text ; place => 3 0
new 24 5; text ; text \u{200b}; place => 0 0

// a cluster that is wider than the screen begins a row and waits after its last column
new 24 1; text \u{4e00}; place => 2 1
text a; place => 1 2

// moves are relative
new 24 5; string abc\n; place; height => 3 1; 1
move_to 0 0; place => 0 0
move_to 5 0 => OutOfRange
move_to 0 2147483648 => OutOfRange
move_to 0 -2147483648 => OutOfRange
place; batch => 0 0; 2 [Text("abc\\n"), CP(R(-3), R(-1))]

// changes one after the other on five columns
new 24 5; plain; place; height => 0 0; 0
at -3 9; place; height => 4 -3; 3
at +1 -9; place; height => 0 -2; 3
clear_below; place; height => 0 -2; 3
at 4 +2; place; height => 2 4; 7
clear; place; height => 0 0; 7
at -1 0; place; height => 0 -1; 7
// the wrap was pending
text abcde; at +0 -1; place => 4 -1

// rows past the limit
new 1 5; text ab; at 2147483647 +0; place => 2 2147483647
new 1 5; text ab; at 2147483648 +0; place; batch => OutOfRange; 2 0; 1 [Text("ab")]
new 1 5; text ab; at 18446744073709551615 +0; place; batch => OutOfRange; 2 0; 1 [Text("ab")]
new 1 5; text ab; at +2147483647 +0; place => 2 2147483647
new 1 5; text ab; at +2147483648 +0; place; batch => OutOfRange; 2 0; 1 [Text("ab")]
new 1 5; text ab; at -2147483647 +0; place => 2 -2147483647
new 1 5; text ab; at -2147483648 +0; place; batch => OutOfRange; 2 0; 1 [Text("ab")]
new 1 5; text ab; at -9223372036854775808 +0; place; batch => OutOfRange; 2 0; 1 [Text("ab")]
new 1 5; at 2147483647 0; text abcde; height => 2147483647
text f; place; height => OutOfRange; 5 2147483647; 2147483647
text \n; place; height => OutOfRange; 5 2147483647; 2147483647
text x\u{e9}; place; height => OutOfRange; 5 2147483647; 2147483647
text \r\n; place; height => OutOfRange; 5 2147483647; 2147483647
"#;

#[test]
fn changes_lead_to_their_places(rt: HostRuntime) -> Result<(), Fail> {
    let mut sequence = ChangeSequence::new(rt.alloc(), 24, 5)?;
    expect_runs(rt.alloc(), SEQUENCES, |alloc: Global, command: &str| {
        obey(alloc, &mut sequence, command)
    })
}
