//! Histories, and what is found in their lines.

use super::support::expect;
use std::alloc::{AllocError, Global};
use std::borrow::CowStr;
use std::test::Fail;
use test_cases::expect_rows;
use tw_line::{BasicHistory, History, SearchDirection, SearchResult, SearchStyle};

/// Returns the history with lines added in turn.
fn filled<H: History + Drop>(mut history: H, lines: &[&str]) -> Result<H, AllocError> {
    for line in lines {
        history.add(line)?;
    }
    Ok(history)
}

/// All lines stand in one text, also empty ones, and each can be had and found in it.
#[test]
fn lines_are_joined(rt: HostRuntime) -> Result<(), Fail> {
    let history = filled(BasicHistory::new(rt.alloc()), &["", "", "a", ""])?;
    let (text, ends) = history.joined();
    expect(&rt, &text, &"a");
    expect(&rt, &ends, &[0, 1, 1].as_slice());
    expect(&rt, &history.last(), &Some(2));
    expect(
        &rt,
        &history.get(rt.alloc(), 1)?,
        &Some(CowStr::Borrowed("a")),
    );
    let (style, direction) = (SearchStyle::Substring, SearchDirection::Backwards);
    let found = history.search(rt.alloc(), 2, style, direction, "a")?;
    let line = CowStr::Borrowed("a");
    let (idx, cursor) = (1, 0);
    expect(&rt, &found, &Some(SearchResult { line, idx, cursor }));
    let empty = BasicHistory::new(rt.alloc());
    assert!(rt; empty.joined().0.is_empty() && empty.joined().1.is_empty());
    Ok(())
}

/// Returns the next index for `back INDEX` and `ahead INDEX`, and the offset of a match for `find PATTERN|LINE`.
fn index_text(alloc: Global, command: &str) -> Result<String, Fail> {
    let (word, rest) = command.split_once(' ').ok_or("no word")?;
    let index = match word {
        "back" => SearchDirection::Backwards.next(rest.parse()?),
        "ahead" => SearchDirection::Forwards.next(rest.parse()?),
        _ => {
            let (pattern, line) = rest.split_once('|').ok_or("no line")?;
            SearchStyle::Substring.match_against(pattern, line)
        }
    };
    Ok(format!(in alloc; "{index:?}")?)
}

const INDICES: &str = r"
back 0 => None
back 5 => Some(4)
ahead 5 => Some(6)
ahead 18446744073709551615 => None
find | => Some(0)
find |ls => Some(0)
find s|ls => Some(1)
find x|ls => None
find lsx|ls => None
find S|ls => None
find aab|aaabaab => Some(1)
find \u{e9}|\u{4e00}\u{e9}\u{e9} => Some(3)
find b|\u{1f600}b => Some(4)
";

#[test]
fn lines_and_patterns_are_found(rt: HostRuntime) -> Result<(), Fail> {
    expect_rows(rt.alloc(), INDICES, index_text)
}
