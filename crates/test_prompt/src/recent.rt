//! A history that keeps the newest lines.

use std::alloc::Global;
use std::test::Fail;
use test_cases::expect_rows;
use tw_history_parts::RecentHistory;
use tw_line::{History, LentLines, SearchDirection, SearchStyle};

/// Returns the lines of a history in quotation marks.
pub fn lines_text<L: LentLines>(alloc: Global, history: &L) -> Result<String, Fail> {
    let mut output = String::new(alloc);
    for at in 0..history.line_count() {
        write!(output, "{:?} ", history.line(at))?;
    }
    Ok(String::from_str(alloc, output.trim_end())?)
}

/// Searches backwards: `INDEX PATTERN`. Returns the index and the offset.
fn found(alloc: Global, history: &RecentHistory, sought: &str) -> Result<String, Fail> {
    let (index, pattern) = sought.split_once(' ').ok_or("no pattern")?;
    let (style, direction) = (SearchStyle::Substring, SearchDirection::Backwards);
    let index = index.parse()?;
    match history.search(alloc, index, style, direction, pattern)? {
        Some(found) => Ok(format!(in alloc; "{} {}", found.idx, found.cursor)?),
        None => Ok(String::from_str(alloc, "none")?),
    }
}

/// Returns the lines of a history after additions: `newest LIMIT; LINE;LINE..`, or `once LIMIT; ..` if no line is kept
/// twice. Prefix: `find INDEX PATTERN; ` returns what is found; `all ` adds the lines at once, `more ` all but the first.
fn kept(alloc: Global, command: &str) -> Result<String, Fail> {
    let (sought, command) = match command.strip_prefix("find ") {
        Some(rest) => rest.split_once("; ").ok_or("no history")?,
        None => ("", command),
    };
    let (alone, command) = match command.split_once(' ') {
        Some(("all", rest)) => (0, rest),
        Some(("more", rest)) => (1, rest),
        _ => (usize::MAX, command),
    };
    let (named, lines) = command.split_once("; ").ok_or("no lines")?;
    let (word, limit) = named.split_once(' ').ok_or("no limit")?;
    let limit = limit.parse()?;
    let mut history = match word {
        "once" => RecentHistory::unique(alloc, limit),
        _ => RecentHistory::new(alloc, limit),
    };
    for line in lines.split(';').take(alone) {
        history.add(line)?;
    }
    let mut others = Vec::new(alloc);
    for line in lines.split(';').skip(alone) {
        others.push(String::from_str(alloc, line)?)?;
    }
    history.add_all(&others)?;
    if sought.is_empty() {
        lines_text(alloc, &history)
    } else {
        found(alloc, &history, sought)
    }
}

const HISTORIES: &str = r#"
// the newest lines are kept, one at least
newest 3; a;b;c;d => "b" "c" "d"
newest 0; a;b => "b"
newest 3; a;b;b;a => "a" "b" "a"

// a line that is added again goes to the end
once 9; a;b;;a;ab;;b => "a" "ab" "" "b"
once 9; a;b;;a;ab;;b;b; b => "a" "ab" "" "b" " b"
once 3; a;b;c;a;d => "c" "a" "d"
once 1; a;b;a => "a"

// many lines at once leave what one after the other leaves
all once 9; a;b;;a;ab;;b;b; b => "a" "ab" "" "b" " b"
all once 3; a;b;c;a;d => "c" "a" "d"
all once 1; a;b;a => "a"
all newest 3; a;b;b;a => "a" "b" "a"
more once 3; a;b;c;a;d => "c" "a" "d"
more once 4; a;b;b;c;d;b => "a" "c" "d" "b"
more newest 3; a;b;b;a => "a" "b" "a"

// the newest line is found
find 2 make; once 9; make a;ls;make b;make a => 2 0
find 1 b; once 9; make a;ls;make b;make a => 1 5
"#;

#[test]
fn newest_lines_are_kept(rt: HostRuntime) -> Result<(), Fail> {
    expect_rows(rt.alloc(), HISTORIES, kept)
}
