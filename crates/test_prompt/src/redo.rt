//! Redo, which readline has not.

use crate::prompt::expect_lines;
use std::test::Fail;

const HISTORY: &str = "copy a";

const SCRIPTS: &str = r"
// what was undone comes back, with its cursor
type abc\nkey C-_\nkey A-_ => abc
type ab cd\nkey C-W\nkey C-_\nkey A-_ => ab\u{20}
type ab\nkey Left\ntype c\nkey C-_\nkey A-_\ntype x => acxb
type ab cd\nkey C-W\nkey C-Y\nkey C-_\nkey C-_\nkey A-_ => ab\u{20}
type ab cd\nkey C-W\nkey C-Y\nkey C-_\nkey C-_\nkey A-_\nkey A-_\nkey A-_ => ab cd
type abc\nkey C-_\nkey C-X\nkey C-_ => abc
type abc\nkey C-_\nkey A-_\nkey C-_ =>
type ab cd\nkey C-W\nkey C-_\nkey Left\nkey A-_ => ab\u{20}

// an edit forgets it
type abc\nkey C-_\ntype x\nkey A-_ => x
type abc\nkey A-_ => abc
type abc\nkey C-_\nkey C-R\ntype co\nkey Escape\nkey A-_ => copy a
";

#[test]
fn what_was_undone_is_redone(rt: HostRuntime) -> Result<(), Fail> {
    expect_lines(rt.alloc(), HISTORY, SCRIPTS)
}
