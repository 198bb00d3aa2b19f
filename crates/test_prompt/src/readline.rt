//! Keys of readline: kills and yanks, undos, and the keys of single actions.

use crate::prompt::expect_lines;
use std::test::Fail;

const HISTORY: &str = "copy a";

const SCRIPTS: &str = r"
// kills come back
type ab cd\nkey C-W\nkey C-A\nkey C-Y\nkey Enter => cdab\u{20}
type one two three\nkey C-W\nkey C-W\nkey C-Y\nkey Enter => one two three
type one two\nkey C-A\nkey A-d\nkey A-d\nkey C-Y\nkey Enter => one two
type abc def\nkey Home\nkey A-d\nkey C-Y\nkey Enter => abc def
type one two\nkey A-b\nkey C-K\nkey C-U\nkey C-Y\nkey Enter => one two
type one two\nkey C-W\nkey C-A\nkey C-K\nkey C-Y\nkey A-y\nkey Enter => two
type one two\nkey C-W\nkey C-A\nkey C-K\nkey C-Y\nkey A-y\nkey A-y\nkey Enter => one\u{20}
type abc\nkey Backspace\nkey C-Y\nkey Enter => ab
key C-Y\ntype x\nkey A-y\nkey Enter => x
type ab\nkey C-W\ntype x\nkey A-y\nkey C-Y\nkey Enter => xab

// edits are undone
type abc\nkey C-_\ntype x\nkey Enter => x
type ab cd\nkey C-W\nkey C-_\nkey Enter => ab cd
type ab\nkey Left\ntype c\nkey C-_\nkey Enter => ab
type ab cd\nkey C-W\nkey C-Y\nkey C-_\nkey C-_\nkey Enter => ab cd
type ab\npaste  cd\nkey C-_\nkey Enter => ab
type ab\nkey Up\nkey C-_\nkey Enter => ab
type ab\nkey C-K\nkey C-_\nkey Enter =>
key C-_\ntype x\nkey Enter => x
type ab cd\nkey C-W\nkey C-X\nkey C-U\nkey Enter => ab cd
type ab cd\nkey C-W\nkey C-_\nkey C-X\nkey C-U\ntype x\nkey Enter => x
type ab cd\nkey C-W\nkey C-X\nkey C-U\nkey C-U\ntype x\nkey Enter => x
type ab cd\nkey C-X\nkey C-B\nkey C-U\nkey Enter => d

// undo changes nothing during a search, and takes back the line that it found
type mine\nkey C-R\ntype co\nkey C-_\nkey Enter => copy a
type mine\nkey C-R\ntype co\nkey Right\nkey C-_\nkey Enter => mine
type mine\nkey C-R\ntype co\nkey C-W\nkey End\nkey C-Y\nkey Enter => copy a

// Escape takes the line that a search found
type mine\nkey C-R\ntype op\nkey Escape\ntype X\nkey Enter => cXopy a

// a search without a pattern takes that of the search before
remember b; remember zz; key C-R\ntype op\nkey Escape\nkey Down\nkey Down\nkey Down\nkey C-R\nkey C-R\nkey Enter => copy a
remember b; remember zz; key C-R\ntype op\nkey Escape\nkey Down\nkey Down\nkey Down\nkey C-R\nkey C-R\ntype y\nkey Enter => copy a

// keys do what readline says
type ab cd\nkey Left\nkey C-U\nkey Enter => d
type abc\nkey C-A\nkey C-D\nkey Enter => bc
type one two\nkey C-A\nkey A-d\nkey Enter =>  two

// an empty line ends the input
type a\nkey C-A\nkey C-D\nkey C-D => refusal 1
";

#[test]
fn keys_are_those_of_readline(rt: HostRuntime) -> Result<(), Fail> {
    expect_lines(rt.alloc(), HISTORY, SCRIPTS)
}
