//! Paintings, change by change.

use std::alloc::{AllocError, Global};
use std::test::Fail;
use test_cases::{expect_runs, pair_of, write_batch};
use tw_host::NopLineEditorHost;
use tw_line::{LineEditBuffer, SearchDirection};
use tw_session::{Below, Error, Mark, painting};
use tw_surface::Change;
use tw_terminal::ScreenSize;

/// A screen, the line that is painted on it, and the marks of the last two paintings.
#[derive(Drop)]
struct Painted {
    size: ScreenSize,
    line: LineEditBuffer,
    left: Option<Mark>,
    before: Option<Mark>,
}

impl Painted {
    fn new(alloc: Global) -> Painted {
        Painted {
            size: ScreenSize { rows: 24, cols: 80 },
            line: LineEditBuffer::empty(alloc),
            left: None,
            before: None,
        }
    }

    /// Paints the line after the prompt `> ` and returns the batch.
    fn paint(&mut self, alloc: Global, below: Below<'_>) -> Result<String, AllocError> {
        let host = NopLineEditorHost::new(alloc);
        let painted = painting(&host, alloc, "> ", &self.line, below, self.size, self.left);
        match painted {
            Ok((batch, mark)) => {
                self.before = self.left;
                self.left = Some(mark);
                batch_text(alloc, batch.as_slice())
            }
            Err(error) => format!(in alloc; "refusal {}", error.number()),
        }
    }

    /// Returns true if the last two paintings end in the same row and have the same height.
    fn is_same(&self) -> bool {
        match (self.left, self.before) {
            (Some(left), Some(before)) => left.row == before.row && left.height == before.height,
            _ => false,
        }
    }
}

fn batch_text(alloc: Global, batch: &[Change]) -> Result<String, AllocError> {
    let mut text = String::new(alloc);
    write_batch(&mut text, batch)?;
    Ok(text)
}

/// Runs `new ROWS COLS`, `line TEXT` (cursor at the end), `first TEXT` (cursor at the start), `paint`, or `back
/// PATTERN` and `ahead PATTERN`, which paint a search. Answers `close` with the closing batch, and `same`.
fn obey(alloc: Global, painted: &mut Painted, command: &str) -> Result<String, Fail> {
    let (word, rest) = command.split_once(' ').unwrap_or((command, ""));
    let direction = if word == "back" {
        SearchDirection::Backwards
    } else {
        SearchDirection::Forwards
    };
    Ok(match word {
        "new" => {
            let (rows, cols) = pair_of(rest)?;
            *painted = Painted::new(alloc);
            painted.size = ScreenSize { rows, cols };
            String::new(alloc)
        }
        "line" => {
            painted.line.insert_text(rest)?;
            String::new(alloc)
        }
        "first" => {
            painted.line = LineEditBuffer::new(alloc, rest, 0)?;
            String::new(alloc)
        }
        "paint" => painted.paint(alloc, Below::Nothing)?,
        "back" | "ahead" => painted.paint(
            alloc,
            Below::Search {
                direction,
                pattern: rest,
            },
        )?,
        "close" => batch_text(alloc, &painted.left.ok_or("no painting")?.closing_batch())?,
        "same" => format!(in alloc; "{}", painted.is_same())?,
        _ => return Err(Fail::from("no such command")),
    })
}

const PAINTINGS: &str = r#"
// lines
new 24 80; line hi; paint => ClearToEndOfScreen, AllAttributes, Text("> "), AllAttributes, Text("hi"), CP(R(0), R(0))
close => CP(A(0), R(1)), ClearToEndOfScreen
new 24 10; line abcdefgh; paint => ClearToEndOfScreen, AllAttributes, Text("> "), AllAttributes, Text("abcdefgh"), Text(" "), CP(R(-1), R(0))
close => CP(A(0), R(1)), ClearToEndOfScreen
new 24 1; line a; paint => ClearToEndOfScreen, AllAttributes, Text("> "), AllAttributes, Text("a"), Text(" "), CP(R(-1), R(0))
close => CP(A(0), R(1)), ClearToEndOfScreen

// a search under the line
new 24 16; first git log; back g => ClearToEndOfScreen, AllAttributes, Text("> "), AllAttributes, Text("git log"), AllAttributes, Text("\\r\\nbck-i-search: g_"), CP(R(-14), R(-1))
close => CP(A(0), R(2)), ClearToEndOfScreen
new 24 16; first git log; ahead  => ClearToEndOfScreen, AllAttributes, Text("> "), AllAttributes, Text("git log"), AllAttributes, Text("\\r\\nfwd-i-search: _"), CP(R(-13), R(-1))
close => CP(A(0), R(2)), ClearToEndOfScreen

// sizes
new 24 0; line hi; paint => refusal 3
new 0 65536; line hi; paint => refusal 3
new 24 65536; line hi; paint => refusal 4
new 65536 80; line hi; paint => refusal 4
new 24 65535; line hi; paint => ClearToEndOfScreen, AllAttributes, Text("> "), AllAttributes, Text("hi"), CP(R(0), R(0))

// the next painting goes back to the first row
new 24 10; line abcdefgh; paint => ClearToEndOfScreen, AllAttributes, Text("> "), AllAttributes, Text("abcdefgh"), Text(" "), CP(R(-1), R(0))
paint; same => CP(A(0), R(-1)), ClearToEndOfScreen, AllAttributes, Text("> "), AllAttributes, Text("abcdefgh"), Text(" "), CP(R(-1), R(0)); true
"#;

#[test]
fn lines_are_painted(rt: HostRuntime) -> Result<(), Fail> {
    let mut painted = Painted::new(rt.alloc());
    expect_runs(rt.alloc(), PAINTINGS, |alloc: Global, command: &str| {
        obey(alloc, &mut painted, command)
    })
}
