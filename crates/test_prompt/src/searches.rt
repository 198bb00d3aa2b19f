//! Searches of the history: what ends one, and what is said of one that finds nothing.

use crate::prompt::expect_lines;
use std::test::Fail;

const HISTORY: &str = "copy a;open(";

const SCRIPTS: &str = r"
// a validator judges no pattern, and judges the line that a search finds
key C-R\ntype op\nkey Enter\ntype z; ends open( => open(; yes
key C-R\ntype c\nkey C-Left\ntype (\nkey Enter\ntype z => (zcopy a

// a search that fails says so after the line that it found last, and accepts none
key C-R\ntype z; ends {}open({}  failing: no line has it{}{}\r\nbck-i-search: z_ => z; yes
key C-R\ntype zz\nkey Backspace; ends {}open({}  failing: no line has it{}{}\r\nbck-i-search: z_ => z; yes
key C-R\ntype oz\nkey Backspace; ends {}open({}\r\nbck-i-search: o_ => o; yes
type z\nkey C-R; ends {}open({}\r\nbck-i-search: _ => ; yes
key C-R\ntype z\nkey C-R; ends {}open({}  failing: no line has it{}{}\r\nbck-i-search: z_ => z; yes
key C-R\ntype z\nkey Up; ends {}open({}  failing: no line has it{}{}\r\nbck-i-search: z_ => z; yes
searches accept; key C-R\ntype z; ends {}open({}\r\nbck-i-search: z_ => z; yes
key C-R\ntype zz\nkey Enter; ends {}open({}  failing: no line has it{}{}\r\nbck-i-search: zz_ => zz; yes
key C-R\ntype zz\nkey Enter\nkey Backspace; ends {}open({}  failing: no line has it{}{}\r\nbck-i-search: z_ => z; yes
key C-R\ntype copz\nkey Enter\nkey Backspace\nkey Enter => copy a
searches accept; key C-R\ntype copz\nkey Enter => copy a
rows . ; key C-R\ntype zz\nkey Enter; ends {}open({}  failing: no line has it{}{}\r\nbck-i-search: zz_ => zz; yes

// whatever key came, as long as the pattern fails
key C-R\ntype zz\nkey A-d; ends {}open({}  failing: no line has it{}{}\r\nbck-i-search: zz_ => zz; yes
key C-R\ntype zz zz\nkey A-Backspace; ends {}open({}  failing: no line has it{}{}\r\nbck-i-search: zz _ => zz ; yes
key C-R\ntype zz\nkey C-U; ends {}open({}\r\nbck-i-search: _ => ; yes
key C-R\ntype zz\nkey A-t; ends {}open({}  failing: no line has it{}{}\r\nbck-i-search: zz_ => zz; yes

// Ctrl-G and Ctrl-D give a search up: the line from before it comes back with its cursor
type ab\nkey Left\nkey C-R\ntype op\nkey C-G\ntype X => aXb
type ab\nkey C-R\ntype op\nkey C-R\nkey C-G\nkey Home\ntype X => Xab
type ab\nkey C-R\ntype zz\nkey C-G\nkey C-A\ntype X => Xab
type ab\nkey C-R\ntype op\nkey C-G\nkey C-R\ntype c\nkey C-G\ntype X => abX
type ab\nkey C-G\ntype X => abX
type ab\nkey Left\nkey C-R\ntype op\nkey C-D\ntype X => aXb
type ab\nkey C-R\nkey C-D\ntype X => abX
type ab\nkey C-S\ntype zz\nkey C-D\ntype X => abX
key C-R\nkey C-D\ntype x => x

// an empty line outside of a search ends the input
key C-R\nkey C-D\nkey C-D => refusal 1

// Escape takes the line that was found, and the line is edited from there
key C-R\ntype en\nkey Escape\ntype X => opXen(
key C-R\ntype copz\nkey Escape\ntype X => Xcopy a
type ab\nkey Escape\ntype X => abX

// Ctrl-C leaves the line from before on the screen
type ab\nkey C-R\ntype op\nkey C-C; ends {}ab => cancelled; yes
type ab\nkey C-R\ntype zz\nkey C-C; ends {}ab => cancelled; yes
type ab\nkey C-C; ends {}ab => cancelled; yes

// in a history without lines no search begins
no history; type ab\nkey Left\nkey C-R\ntype X => aXb
no history; type ab\nkey Left\nkey C-S\ntype X => aXb
no history; type ab\nkey C-R; ends {}ab{}  no history to search{} => ab; yes
no history; type ab\nkey C-S; ends {}ab{}  no history to search{} => ab; yes
no history; type ab\nkey C-R\nkey A-x; ends {}ab{}  no history to search{} => ab; yes
no history; type ab\nkey C-R\nkey Left; ends {}ab => ab; yes
no history; key C-R\nkey Enter =>
";

#[test]
fn searches_end_as_in_readline(rt: HostRuntime) -> Result<(), Fail> {
    expect_lines(rt.alloc(), HISTORY, SCRIPTS)
}
