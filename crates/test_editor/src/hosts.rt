//! Hosts of their own, and what a screen shows of paintings.

use crate::support::play;
use std::alloc::Global;
use std::test::Fail;
use test_cases::expect_cases;
use tw_lineedit::{LineEditorHost, NopLineEditorHost, OutputElement};

const HOSTS: &str = "\
# a step back in an emptied history leaves the line, and a step forth gives the typed line back
host stray
history one
history two
events x Up F1 Up Enter
--
Some(\"two\")
==
host stray
history one
history two
events x Up F1 Down Enter
--
Some(\"x\")
==
# a search in an emptied history keeps its match
host stray
history one
history two
events C-R o F1 w C-R Enter
--
Some(\"two\")
==
# the line that a host sets while searching is the pattern, which is shown, and not sought before the next edit
host stray
size 24 20
history ls
events C-R F2
show screen
--
Some(\"abc\")
..
screen |> ls                |bck-i-search: abc_  |
==
host stray
history ls
events C-R F2 Enter
--
Some(\"ls\")
==
# a host answers before the key table
host resolving
events a F1 Enter
--
Some(\"clear\")
==
host resolving
events a F2 Enter
--
Some(\"a\")
==
host resolving
events a Escape
--
None
==
";

#[test]
fn hosts_answer_for_themselves(rt: HostRuntime) -> Result<(), Fail> {
    expect_cases(rt.alloc(), HOSTS, play)
}

pub const SCREENS: &str = "\
# paintings leave nothing stale
size 24 10
initial abcdefgh
show screen
--
Some(\"abcdefgh\")
..
screen |> abcdefgh|
cursor 1 0
end 2 0
==
size 24 5
events a b c d e f Home Delete
show screen
--
Some(\"bcdef\")
..
screen |> bcd|ef   |
cursor 0 2
end 2 0
==
size 24 10
readings 2
events a Enter b Enter
show screen
--
Some(\"a\"), Some(\"b\")
..
screen |> a       |> b       |
cursor 1 3
end 2 0
==
# a preview stands under a full row
size 24 10
preview ok
initial abcdefgh
show screen
--
Some(\"abcdefgh\")
..
, CP(R(-2), R(-1))
closing CP(A(0), R(2)), ClearToEndOfScreen
screen |> abcdefgh|          |ok        |
cursor 1 0
==
# a preview row that is full takes one row
size 24 5
preview abcde\\n\\nfg
events x
show screen
--
Some(\"x\")
..
, AllAttributes, Text(\"abcde\\r\\n\\r\\nfg\"), CP(R(1), R(-3))
closing CP(A(0), R(4)), ClearToEndOfScreen
screen |> x  |abcde|     |fg   |
cursor 0 3
==
# a cursor behind the line stands in its cell
size 24 10
host column 25
show screen
--
Some(\"\")
..
screen |>         |
cursor 2 7
end 1 0
==
";

#[test]
fn paintings_leave_nothing_stale(rt: HostRuntime) -> Result<(), Fail> {
    expect_cases(rt.alloc(), SCREENS, play)
}

/// Adds the only text that some elements show.
fn add_text(outcome: &mut String, elements: &[OutputElement]) -> Result<(), Fail> {
    match elements {
        [OutputElement::Text(text)] => Ok(outcome.push_str(text.as_str())?),
        _ => Err(Fail::from("no text")),
    }
}

/// Adds what a host shows of the line `CURSOR TEXT`, the column, and the number of its candidates.
fn add_shown(
    alloc: Global,
    host: &NopLineEditorHost,
    line: &str,
    outcome: &mut String,
) -> Result<(), Fail> {
    let (cursor, line) = line.split_once(' ').ok_or("no line")?;
    let cursor = cursor.parse()?;
    if !line.is_char_boundary(cursor) {
        return Err(Fail::from("no boundary"));
    }
    let candidates = host.complete(alloc, line, cursor)?.len();
    let (elements, column) = host.highlight_line(alloc, line, cursor)?;
    add_text(outcome, elements.as_slice())?;
    write!(outcome, " {column} {candidates}\n")?;
    Ok(())
}

/// Adds the name of a host.
fn add_name(alloc: Global, host: &NopLineEditorHost, outcome: &mut String) -> Result<(), Fail> {
    let shown = format!(in alloc; "{host:?}")?;
    let (name, _) = shown.as_str().split_once('{').ok_or("no name")?;
    outcome.push_str(name)?;
    Ok(())
}

/// Returns what the default host shows of each line `CURSOR TEXT`, the column, and the number of its candidates; and
/// its name.
fn play_defaults(alloc: Global, lines: &str) -> Result<String, Fail> {
    let host = NopLineEditorHost::new(alloc);
    let mut outcome = String::new(alloc);
    for line in lines.lines() {
        add_shown(alloc, &host, line, &mut outcome)?;
    }
    add_name(alloc, &host, &mut outcome)?;
    Ok(outcome)
}

const DEFAULTS: &str = "\
0 abc
1 abc
3 abc
2 \u{e9}bc
4 a\u{6f22}c
3 e\u{301}c
--
abc 0 0
abc 1 0
abc 3 0
\u{e9}bc 1 0
a\u{6f22}c 3 0
e\u{301}c 1 0
NopLineEditorHost 
==
";

/// With the cursor in the middle the default answers show the whole line, its cursor after the columns before it, and
/// complete nothing.
#[test]
fn the_default_answers_know_the_cursor(rt: HostRuntime) -> Result<(), Fail> {
    expect_cases(rt.alloc(), DEFAULTS, play_defaults)
}
