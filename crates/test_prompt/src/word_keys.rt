//! The keys of words and characters, by what readline's manual says of its commands.

use crate::prompt::expect_lines;
use std::test::Fail;

const HISTORY: &str = "copy";

const SCRIPTS: &str = r"
type ab\nkey C-T\nkey Enter => ba
type abc\nkey Left\nkey C-T\ntype x\nkey Enter => acbx
type ab\nkey C-A\nkey C-T\nkey Enter => ab
type one two\nkey A-t\ntype x\nkey Enter => two onex
type one two\nkey C-A\nkey A-t\nkey Enter => one two
type one two\nkey C-A\nkey A-u\nkey Enter => ONE two
type ONE TWO\nkey C-A\nkey A-l\nkey Enter => one TWO
type oNE two\nkey C-A\nkey A-c\nkey A-c\nkey Enter => One Two
type one\nkey A-u\nkey Enter => one
type one two\nkey A-T\nkey C-A\nkey A-U\nkey A-C\nkey Enter => TWO One
type ONE\nkey Left\nkey A-L\nkey Enter => ONe
key C-R\ntype cop\nkey C-T\nkey Enter => copy

// Alt-\ deletes whitespace, and Alt-# accepts a comment
type one  two\nkey A-b\nkey A-\u{5c}\ntype X => oneXtwo
type a   b\nkey Left\nkey Left\nkey Left\nkey A-\u{5c}\ntype X => aXb
type ab\u{20}\u{20}\nkey A-\u{5c}\ntype X => abX
type ab\nkey A-\u{5c}\ntype X => abX
key A-\u{5c}\ntype X => X
type ls -l\nkey Left\nkey A-# => #ls -l
key A-# => #

// Ctrl-] goes to the next character, and Alt-Ctrl-] to the one before
type one two\nkey C-A\nkey C-]\ntype wX => one tXwo
type one two\nkey C-A\nkey C-]\ntype oX => one twXo
type one two\nkey CA-]\ntype oX => one twXo
type one two\nkey CA-]\ntype o\nkey CA-]\ntype oX => Xone two
type one\nkey C-A\nkey C-]\ntype zX => Xone
type one\nkey CA-]\ntype zX => oneX
type a\u{e9}b\u{e9}\nkey C-A\nkey C-]\ntype \u{e9}\nkey C-]\ntype \u{e9}\ntype X => a\u{e9}bX\u{e9}
";

#[test]
fn words_and_characters_are_edited(rt: HostRuntime) -> Result<(), Fail> {
    expect_lines(rt.alloc(), HISTORY, SCRIPTS)
}
