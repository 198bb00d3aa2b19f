//! Words of letters and digits, by what readline's manual says of forward-word, backward-word, kill-word and
//! backward-kill-word.

use crate::prompt::expect_lines;
use std::test::Fail;

const HISTORY: &str = "foo-bar baz-x";

const SCRIPTS: &str = r"
type foo-bar baz\nkey A-b\nkey A-b\ntype X => foo-Xbar baz
type foo-bar\nkey A-Backspace => foo-
type foo-bar\nkey A-Backspace\nkey A-Backspace =>
type foo-bar baz\nkey Home\nkey A-d => -bar baz
type foo-bar baz\nkey Home\nkey A-d\nkey A-d =>  baz
type foo-bar baz\nkey Home\nkey C-Delete => -bar baz
type foo-bar baz\nkey Home\nkey C-Delete\nkey C-Delete =>  baz
type foo-bar baz\nkey Home\nkey C-Delete\nkey C-E\nkey C-Y => -bar bazfoo
type  foo\nkey Home\nkey A-f\ntype X =>  fooX
type a, b;\nkey A-b\ntype X => a, Xb;
type a, b;\nkey Home\nkey A-f\nkey A-f\nkey A-f\ntype X => a, b;X
type x1 y\nkey C-Left\nkey C-Left\ntype X => Xx1 y
type x1 y\nkey Home\nkey C-Right\ntype X => x1X y
type e\u{301}te\u{301} a\nkey Home\nkey A-f\ntype X => e\u{301}te\u{301}X a
type --\nkey A-b\ntype X => X--
type ab\nkey A-f\ntype X => abX

// words are the same ones after a search
key Up\nkey C-R\nkey C-Right\nkey C-Right\ntype X => foo-bar bazX-x
";

#[test]
fn words_are_of_letters_and_digits(rt: HostRuntime) -> Result<(), Fail> {
    expect_lines(rt.alloc(), HISTORY, SCRIPTS)
}
