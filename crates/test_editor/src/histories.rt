//! Histories, hosts and screens: how lines are walked through and searched, and what is shown of them.

use crate::support::play;
use std::test::Fail;
use test_cases::expect_cases;

pub const SEARCHES: &str = "\
# a search shows the matching line above its pattern
size 24 16
history git log
history ls
events C-R g
show screen
--
Some(\"g\")
..
painting CP(A(0), R(0)), ClearToEndOfScreen, AllAttributes, Text(\"> \"), AllAttributes, Text(\"git log\"), AllAttributes, Text(\"\\r\\nbck-i-search: g_\"), CP(R(-14), R(-1))
closing CP(A(0), R(2)), ClearToEndOfScreen
screen |> git log       |bck-i-search: g_|
cursor 0 2
==
size 24 16
history git log
history ls
events C-R g Enter
show screen
--
Some(\"git log\")
..
closing CP(A(0), R(1)), ClearToEndOfScreen
screen |> git log       |
cursor 0 2
==
size 24 16
history git log
history ls
events C-R g C-C
show screen
--
None
..
painting CP(A(0), R(0)), ClearToEndOfScreen, AllAttributes, Text(\"> \"), AllAttributes, Text(\"g\"), CP(R(0), R(0))
closing CP(A(0), R(1)), ClearToEndOfScreen
screen |> g             |
cursor 0 3
==
size 24 20
history one
events C-S C-R
show screen
--
Some(\"\")
..
screen |> one               |fwd-i-search: _     |
==
history git log
history ls
prompt $ 
events C-R paste:g Backspace Enter
show screen
--
Some(\"ls\")
..
painting CP(A(0), R(0)), ClearToEndOfScreen, AllAttributes, Text(\"$ \"), AllAttributes, Text(\"ls\"), CP(R(-2), R(0))
==
# a search goes through the matching lines
events a b C-R Enter
--
Some(\"\")
==
history git log
history ls
history git push
events C-S g C-R Enter
--
Some(\"git log\")
==
history git log
history ls
history git push
events C-S g C-R C-S C-S Enter
--
Some(\"git push\")
==
history git log
history ls
history git push
events C-R g i C-R Enter
--
Some(\"git log\")
==
history git log
history ls
history git push
events C-R g i C-R C-R Enter
--
Some(\"git log\")
==
history git log
history ls
history git push
events C-R g i Up Enter
--
Some(\"git log\")
==
history git log
history ls
history git push
events C-R z Enter
--
Some(\"git push\")
==
history git log
history ls
history git push
events C-R z C-R Enter
--
Some(\"git push\")
==
history git log
history ls
history git push
events C-S l Enter
--
Some(\"git push\")
==
# a search is left with the matching line
history git log
history ls
history git push
events C-R p Left X Enter
--
Some(\"gitX push\")
==
history git log
history ls
history git push
events C-R l End Down Enter
--
Some(\"git push\")
==
history git log
history ls
history git push
events C-R l End Down Down Enter
--
Some(\"\")
==
history git log
history ls
history git push
events C-R l End Down Down Up Enter
--
Some(\"git push\")
==
";

#[test]
fn a_search_goes_through_the_matching_lines(rt: HostRuntime) -> Result<(), Fail> {
    expect_cases(rt.alloc(), SEARCHES, play)
}

pub const WALKS: &str = "\
# steps walk through the lines
history one
history two
events x Up Up Down Down Enter
--
Some(\"x\")
==
history one
history two
events x Up Up Down Down Down Enter
--
Some(\"x\")
==
history one
history two
events x Up Up Up Enter
--
Some(\"one\")
==
history one
history two
events x Up Down Up Enter
--
Some(\"two\")
==
history one
history two
events x Up a Down Enter
--
Some(\"x\")
==
history one
events x Down Enter
--
Some(\"x\")
==
events x Up Enter
--
Some(\"x\")
==
history one
history two
events x C-P C-P C-N C-N Enter
--
Some(\"x\")
==
history one
history two
events x C-P C-P Enter
--
Some(\"one\")
==
history one
history two
events x AppUp AppUp AppDown AppDown Enter
--
Some(\"x\")
==
history one
history two
events x AppUp AppUp Enter
--
Some(\"one\")
==
# a second reading begins without position
history one
history two
events Up Enter Down x Enter
readings 2
--
Some(\"two\"), Some(\"x\")
==
history one
history two
events Up Up Enter Up Enter
readings 2
--
Some(\"one\"), Some(\"two\")
==
history one
history two
events x C-R o n C-C Down y Enter
readings 2
--
None, Some(\"y\")
==
history one
history two
events x Up Enter Down Down Enter
readings 2
--
Some(\"two\"), Some(\"\")
==
";

#[test]
fn steps_walk_through_the_lines(rt: HostRuntime) -> Result<(), Fail> {
    expect_cases(rt.alloc(), WALKS, play)
}

const KEPT: &str = "\
# histories that keep one line and two
host kept 1
history one
history two
events x Up Up Enter
--
Some(\"two\")
==
host kept 1
history one
history two
events x Up Up Down Enter
--
Some(\"x\")
==
host kept 1
history git log
history ls
events C-R g Enter
--
Some(\"ls\")
==
host kept 2
history one
history two
history two
history three
events x Up Up Up Enter
--
Some(\"two\")
==
host kept 2
history one
history two
history three
events x Up Up Down Down Enter
--
Some(\"x\")
==
host kept 2
history git log
history ls
history git push
events C-R g i C-R Enter
--
Some(\"git push\")
==
# the position is an index, and another line has it once the oldest one is forgotten
host kept 2
history one
history two
actions Up
remember three
actions Up
--
\"two\" at 3
\"two\" at 3
==
";

#[test]
fn histories_keep_the_newest_lines(rt: HostRuntime) -> Result<(), Fail> {
    expect_cases(rt.alloc(), KEPT, play)
}
