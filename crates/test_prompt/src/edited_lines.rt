//! Lines of the history that are edited and left, by what readline's manual says of previous-history and revert-line.

use crate::prompt::expect_lines;
use std::test::Fail;

const HISTORY: &str = "zero;one;two";

const SCRIPTS: &str = r"
// an edited line comes back as it was left
key Up\ntype X\nkey Up\nkey Down => twoX
key C-P\ntype X\nkey C-P\nkey C-N => twoX
type ab\nkey Up\ntype X\nkey Down => ab
type ab\nkey Up\ntype X\nkey Down\nkey Up => twoX
type ab\nkey Up\ntype X\nkey Up\ntype Y\nkey Up\nkey Down\nkey Down => twoX
type ab\nkey Up\ntype X\nkey Up\ntype Y\nkey Up\nkey Down => oneY
key Up\ntype X\nkey Up\nkey Down\ntype Y\nkey Up\nkey Down => twoXY
key Up\nkey C-U\nkey Up\nkey Down =>
type ab\nkey Up\nkey Down\ntype c => abc

// before the first line and behind the last one it stays
key Up\nkey Up\nkey Up\ntype X\nkey Up => zeroX
key Up\nkey Up\nkey Up\nkey Up\nkey Down => one
type ab\nkey Down => ab
no history; type ab\nkey Up => ab

// Alt-r gives the line as the history has it
key Up\ntype X\nkey A-r => two
key Up\ntype X\nkey Up\nkey Down\nkey A-r => two
key Up\ntype X\nkey Up\nkey Down\nkey A-r\nkey Up\nkey Down => two
type ab\nkey A-r =>

// after a search the walk goes on from the line that was found
key C-R\ntype on\nkey Right\nkey Up => zero
key C-R\ntype on\nkey Right\nkey Down => two
type ab\nkey C-R\ntype on\nkey C-G\nkey Up => two
";

#[test]
fn edited_lines_come_back(rt: HostRuntime) -> Result<(), Fail> {
    expect_lines(rt.alloc(), HISTORY, SCRIPTS)
}
