//! What histories answer of their lines: the last one, the one at an index, and the nearest match.

use script_player::ListHistory;
use std::alloc::Global;
use std::test::Fail;
use test_cases::{expect_cases, hold, play_history};
use tw_history_parts::RecentHistory;
use tw_lineedit::BasicHistory;

/// Makes calls on a history that keeps the newest `limit` lines.
fn play_newest(alloc: Global, limit: usize, calls: &str) -> Result<String, Fail> {
    if limit == 0 {
        return Err(Fail::from("no limit"));
    }
    play_history(alloc, &mut RecentHistory::new(alloc, limit), calls)
}

/// Makes calls on a history of each kind, which keep all lines.
fn play_all(alloc: Global, calls: &str) -> Result<String, Fail> {
    let basic = play_history(alloc, &mut BasicHistory::new(alloc), calls)?;
    let list = play_history(alloc, &mut ListHistory::new(alloc), calls)?;
    hold(list == basic, basic.as_str(), list.as_str())?;
    let newest = play_newest(alloc, 5, calls)?;
    hold(newest == basic, basic.as_str(), newest.as_str())?;
    Ok(basic)
}

/// Makes calls on a history of each kind, which keep all lines; or, if they begin with `keep LINES`, on one that
/// forgets.
fn play_lookups(alloc: Global, calls: &str) -> Result<String, Fail> {
    let Some(rest) = calls.strip_prefix("keep ") else {
        return play_all(alloc, calls);
    };
    let (limit, calls) = rest.split_once('\n').ok_or("no calls")?;
    play_newest(alloc, limit.parse()?, calls)
}

const ADDED: &str = "\
# a line is left out if it is the last one already, and only then
last
get 0
add a
add a
get 0
add b
add b
get 1
add c
add c
get 2
add a
add a
get 3
add 
add 
last
get 4
get 5
get 18446744073709551615
--
None
None
a|
a|
\"a\"
a|b|
a|b|
\"b\"
a|b|c|
a|b|c|
\"c\"
a|b|c|a|
a|b|c|a|
\"a\"
a|b|c|a||
a|b|c|a||
Some(4)
\"\"
None
None
==
have 
have 
have a
add 
last
--
|a||
Some(2)
==
keep 1
# the oldest lines are forgotten
last
add a
add a
add b
add 
get 0
get 1
--
None
a|
a|
b|
|
\"\"
None
==
keep 2
add git log
add ls
add ls
add git push
last
get 2
add ls
--
git log|
git log|ls|
git log|ls|
ls|git push|
Some(1)
None
git push|ls|
==
keep 2
# a forgotten line is not found
have git log
have ls
have git push
back 1 git
back 1 log
back 2 git
--
1 0 \"git push\"
None
None
==
";

const SEARCHES: &str = "\
have git log
have ls
have git push
back 1 git
back 2 git
back 2 push
back 2 log
back 1 
back 1 push
back 3 git
forth 0 ls
forth 1 git
forth 1 log
forth 3 git
forth 18446744073709551615 git
--
0 0 \"git log\"
2 0 \"git push\"
2 4 \"git push\"
0 4 \"git log\"
1 0 \"ls\"
None
None
1 0 \"ls\"
2 0 \"git push\"
None
None
None
==
have ab
have b
have ab
forth 0 b
back 1 b
forth 1 a
--
0 1 \"ab\"
1 0 \"b\"
2 0 \"ab\"
==
have ab
have cd
back 1 bc
forth 0 bc
forth 0 d
--
None
None
1 1 \"cd\"
==
have 
have 
have a
have 
back 2 a
forth 0 
--
1 0 \"a\"
0 0 \"\"
==
have \u{e9}
have \u{4e00}\u{e9}
have e\u{301}
back 2 \u{e9}
--
1 3 \"\u{4e00}\u{e9}\"
==
back 0 
forth 0 
--
None
None
==
";

#[test]
fn added_lines_are_found(rt: HostRuntime) -> Result<(), Fail> {
    expect_cases(rt.alloc(), ADDED, play_lookups)?;
    expect_cases(rt.alloc(), SEARCHES, play_lookups)
}
