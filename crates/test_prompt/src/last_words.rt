//! The last words of the lines before, by what readline's manual says of Meta-.

use crate::prompt::expect_lines;
use std::test::Fail;

const HISTORY: &str = "copy a b\u{e9};move  c  ;quit";

const SCRIPTS: &str = r"
key A-. => quit
key A-.\nkey A-. => c
key A-.\nkey A-.\nkey A-. => bé
key A-.\nkey A-.\nkey A-.\nkey A-. => bé
key A-.\nkey A-.\nkey A-.\nkey A-.\nkey A-. => bé
key A-.\ntype -\nkey A-. => quit-quit
type ab\nkey Left\nkey A-. => aquitb
type ab\nkey Left\nkey A-.\nkey A-.\ntype - => ac-b
key A-.\nkey Left\nkey A-. => quiquitt
key C-R\ntype o\nkey A-.\nkey Enter => move  c \u{20}
remember copy a\nmove; key A-. => move
remember copy a\nmove b\n; key A-. => b
no history; type ab\nkey A-.\nkey A-. => ab
";

#[test]
fn last_words_come_back_in_turn(rt: HostRuntime) -> Result<(), Fail> {
    expect_lines(rt.alloc(), HISTORY, SCRIPTS)
}
