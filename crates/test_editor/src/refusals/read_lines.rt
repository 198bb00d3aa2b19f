//! Lines that are read, with each request refused in turn.

use crate::histories::{SEARCHES, WALKS};
use crate::hosts::SCREENS;
use crate::support::play;
use std::alloc::Global;
use std::test::Fail;
use test_cases::{
    Case, ColumnHost, ResolvingHost, case_of, expect_cases, hold, host_of, read_refused,
    remember_all,
};
use tw_lineedit::{BasicHistory, NopLineEditorHost};

/// Reads the last line of a case over its host, and returns the answer: `column COLUMN` and `resolving` are hosts of
/// their own, and a case without preview and candidates has the default one.
fn read_case(alloc: Global, case: &Case<'_>) -> Result<String, Fail> {
    if let Some(column) = case.host.strip_prefix("column ") {
        let mut host = ColumnHost::new(alloc, column.parse()?);
        return read_refused(alloc, case, &mut host);
    }
    if case.host == "resolving" {
        return read_refused(alloc, case, &mut ResolvingHost::new(alloc));
    }
    if case.preview.is_empty() && case.candidates.is_empty() {
        let mut host = NopLineEditorHost::new(alloc);
        remember_all(&mut host, case.history.as_slice())?;
        return read_refused(alloc, case, &mut host);
    }
    let mut host = host_of(alloc, BasicHistory::new(alloc), case)?;
    read_refused(alloc, case, &mut host)
}

/// Reads the last line of a case with each request refused in turn, and returns what comes of the case. With memory the
/// line is the last one of the case.
fn play_reading(alloc: Global, lines: &str) -> Result<String, Fail> {
    let answer = read_case(alloc, &case_of(alloc, lines)?)?;
    let outcome = play(alloc, lines)?;
    let (answers, _) = outcome.split_once('\n').unwrap_or((outcome.as_str(), ""));
    hold(answers.ends_with(answer.as_str()), lines, answer.as_str())?;
    Ok(outcome)
}

const TYPED: &str = "\
events a b Left X Enter
--
Some(\"aXb\")
==
initial hi
--
Some(\"hi\")
==
size 24 10
events a b c d e f g h i j C-L Enter
--
Some(\"abcdefghij\")
==
events a C-D
--
refusal 1
==
events C-c
--
Some(\"\")
==
size 24 10
events a Enter b Enter
--
Some(\"a\")
==
size 24 10
events a Enter b Enter
readings 2
--
Some(\"a\"), Some(\"b\")
==
";

#[test]
fn typed_lines_refused_in_turn(rt: HostRuntime) -> Result<(), Fail> {
    expect_cases(rt.alloc(), TYPED, play_reading)
}

const SIZES: &str = "\
size 24 0
--
refusal 3
==
size 24 0
readings 2
--
refusal 3, refusal 3
==
size 24 65535
--
Some(\"\")
==
size 24 65536
--
refusal 4
==
size 0 65536
--
refusal 3
==
events a 0x24
--
refusal 3
==
events a Enter
fail 4 0
--
refusal 7
==
events Enter
fail 5 0
--
refusal 7
==
";

#[test]
fn sizes_and_faulty_terminals_refused_in_turn(rt: HostRuntime) -> Result<(), Fail> {
    expect_cases(rt.alloc(), SIZES, play_reading)
}

#[test]
fn walks_and_searches_refused_in_turn(rt: HostRuntime) -> Result<(), Fail> {
    expect_cases(rt.alloc(), WALKS, play_reading)?;
    expect_cases(rt.alloc(), SEARCHES, play_reading)
}

#[test]
fn paintings_refused_in_turn(rt: HostRuntime) -> Result<(), Fail> {
    expect_cases(rt.alloc(), SCREENS, play_reading)
}

const HOSTS: &str = "\
# requests in a row go round the candidates
cand 0 1 foo
cand 0 1 far
events f Tab Tab Tab Enter
--
Some(\"foo\")
==
cand 0 1 foo
cand 0 1 far
events f Tab Left Tab Enter
--
Some(\"foooo\")
==
cand 0 1 foo
events f Tab Tab Enter
--
Some(\"foooo\")
==
size 24 10
host column 18446744073709551615
--
refusal 4
==
# the host is refused while it makes a line of its own
host resolving
events a F1 X Enter
--
Some(\"clearX\")
==
host resolving
events F1 Escape
--
None
==
";

#[test]
fn lines_of_hosts_refused_in_turn(rt: HostRuntime) -> Result<(), Fail> {
    expect_cases(rt.alloc(), HOSTS, play_reading)
}
