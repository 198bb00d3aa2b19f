//! Histories, with each request refused in turn, and calls of theirs that make none.

use script_player::ListHistory;
use std::alloc::Global;
use std::test::Fail;
use test_cases::{expect_cases, play_history};
use tw_history_parts::RecentHistory;
use tw_lineedit::BasicHistory;

fn play_basic(alloc: Global, calls: &str) -> Result<String, Fail> {
    play_history(alloc, &mut BasicHistory::new(alloc), calls)
}

fn play_list(alloc: Global, calls: &str) -> Result<String, Fail> {
    play_history(alloc, &mut ListHistory::new(alloc), calls)
}

/// Of a history of the newest two lines.
fn play_newest(alloc: Global, calls: &str) -> Result<String, Fail> {
    play_history(alloc, &mut RecentHistory::new(alloc, 2), calls)
}

/// Searches find nothing less after a refused addition.
const ADDED: &str = "\
add git log
add ls
add ls
add git push
add 
add a
add b
--
git log|
git log|ls|
git log|ls|
git log|ls|git push|
git log|ls|git push||
git log|ls|git push||a|
git log|ls|git push||a|b|
==
add git log
add ls
add ls
add git push
back 1 git
back 3 git
back 2 push
--
git log|
git log|ls|
git log|ls|
git log|ls|git push|
0 0 \"git log\"
None
2 4 \"git push\"
==
";

#[test]
fn added_lines_refused_in_turn(rt: HostRuntime) -> Result<(), Fail> {
    expect_cases(rt.alloc(), ADDED, play_basic)?;
    expect_cases(rt.alloc(), ADDED, play_list)
}

/// The text of all lines grows and the list of their end offsets: both are asked for before the line is added.
#[test]
fn one_added_line_refused_in_turn(rt: HostRuntime) -> Result<(), Fail> {
    expect_cases(rt.alloc(), "add ls\n--\nls|\n==\n", play_basic)
}

const FORGOTTEN: &str = "\
add a
add b
add c
add c
add d
--
a|
a|b|
b|c|
b|c|
c|d|
==
";

#[test]
fn forgotten_lines_refused_in_turn(rt: HostRuntime) -> Result<(), Fail> {
    expect_cases(rt.alloc(), FORGOTTEN, play_newest)
}

/// A line that is the last one already, and what the histories are asked.
const ASKED: &str = "\
have git log
have 
have ls
have git push
add git push
last
get 2
get 4
back 3 git
back 1 git
back 3 
back 4 push
forth 0 push
forth 1 zz
forth 18446744073709551615 git
--
git log||ls|git push|
Some(3)
\"ls\"
None
3 0 \"git push\"
0 0 \"git log\"
3 0 \"git push\"
None
3 4 \"git push\"
None
None
==
";

const ASKED_OF_TWO: &str = "\
have git log
have ls
have git push
add git push
last
get 0
get 2
back 1 git
back 1 
back 1 zz
forth 1 git
forth 1 
forth 1 zz
--
ls|git push|
Some(1)
\"ls\"
None
1 0 \"git push\"
1 0 \"git push\"
None
1 0 \"git push\"
1 0 \"git push\"
None
==
";

#[test]
fn histories_are_asked_without_memory(rt: HostRuntime) -> Result<(), Fail> {
    expect_cases(rt.alloc(), ASKED, play_basic)?;
    expect_cases(rt.alloc(), ASKED_OF_TWO, play_newest)
}
