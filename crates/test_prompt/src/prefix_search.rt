//! Lines that begin as the line does, by what readline's manual says of history-search-backward and of
//! history-search-forward.

use crate::prompt::expect_lines;
use std::test::Fail;

const HISTORY: &str = "git log;ls;git push;git log;cd \u{e9}t\u{e9}";

const SCRIPTS: &str = r"
type git\nkey PageUp => git log
type git\nkey PageUp\nkey PageUp => git push
type git\nkey PageUp\nkey PageUp\nkey PageUp => git log
type git\nkey PageUp\nkey PageUp\nkey PageUp\nkey PageUp => git log
type git\nkey PageUp\nkey PageUp\nkey PageDown => git log
type git\nkey PageUp\nkey PageDown => git
type git\nkey PageDown => git
type x\nkey PageUp => x
type git log\nkey PageUp => git log
key PageUp => cd été
key PageUp\nkey PageUp => git log
type l\nkey PageUp\ntype x => lxs
type cd é\nkey PageUp\ntype x => cd éxté
type lx\nkey Left\nkey PageUp => ls
type lx\nkey Left\nkey PageUp\nkey PageDown => lx
type git\nkey PageUp\nkey Left\nkey PageDown => git log
type git\nkey PageUp\nkey Left\nkey PageUp => git push
key C-R\ntype l\nkey PageUp\nkey Enter => git log
type lx\nkey Left\nkey A-<\ntype x => git logx
type lx\nkey Left\nkey A-<\nkey A->\ntype y => lyx
type l\nkey PageUp\nkey A-<\nkey PageUp\nkey A-> => l
type l\nkey A-<\nkey PageDown => l
type l\nkey A-> => l
type l\nkey A-<\nkey C-_ => l
key C-R\ntype l\nkey A-<\nkey Enter => git log
no history; type l\nkey A-< => l
";

#[test]
fn lines_that_begin_so_come_back(rt: HostRuntime) -> Result<(), Fail> {
    expect_lines(rt.alloc(), HISTORY, SCRIPTS)
}
