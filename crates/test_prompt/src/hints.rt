//! Hints, as fish and zsh-autosuggestions have them: the rest of the newest line that begins with the typed one.

use crate::prompt::expect_lines;
use std::test::Fail;

const HISTORY: &str = "copy a b;copy x";

const SCRIPTS: &str = r"
// Right and End take a hint at the end of the line
type copy a\nkey Right\nkey Enter => copy a b
type cop\nkey Right\nkey Enter => copy x
type co\nkey End\nkey Enter => copy x
type copy\nkey Left\nkey Right\nkey Enter => copy
key Right\ntype z\nkey Right\nkey Enter => z
key C-R\ntype copy\nkey Right\nkey Enter => copy x

// Alt-f takes a word of it, with the spaces before
type c\nkey A-f\nkey Enter => copy
type cop\nkey A-f\nkey A-f\nkey Enter => copy x
type copy\nkey A-Right\nkey Enter => copy x
type copy\nkey Home\nkey A-f\ntype z\nkey Enter => copyz

// a hint stands after the cursor, at the end of the line
type cop; ends {}cop{half}y x{} => cop; yes
type z; ends {}z => z; yes
type cop\nkey Left; ends {}cop => cop; yes
type cop\nkey C-L; ends {}cop{half}y x{} => cop; yes
type cop\nkey Enter; ends {}cop => cop; yes
remember (c d; type (c\nkey Enter; ends {}(c\r\n{}( is open => (c; yes
remember copyist a; menu 80 4 copyist copying; type copy\nkey Tab\nkey Tab; ends {}copyist\r\n{}{bold}copyist{}  copying => copyist; yes

// and no key takes one that is not shown
remember copyist a; menu 80 4 copyist copying; type copy\nkey Tab\nkey Tab\nkey End\nkey Enter => copyist
remember (c d; type (c\nkey Enter\nkey Right => (c

// in the row of the cursor, and not in its last column
cols 9; type cop; ends {}cop{half}y x{} => cop; yes
cols 8; type cop; ends {}cop{half}y…{} => cop; yes
cols 7; type cop; ends {}cop{half}…{} => cop; yes
cols 6; type cop; ends {}cop => cop; yes
cols 5; type cop; ends {}cop{half}y x{} => cop; yes
cols 0; type cop; ends {}cop => cop; yes
remember 日本語x; cols 10; type 日; ends {}日{half}本語x{} => 日; yes
remember 日本語x; cols 9; type 日; ends {}日{half}本…{} => 日; yes
remember 日本語x; cols 5; type 日; ends {}日 => 日; yes
remember ab\tcd; type a; ends {}a{half}b…{} => a; yes

// in the last one of several rows, and no row of the hint but its first
remember a\ncopy b; rows . ; type a\nkey A-Enter\ntype cop; ends cop{half}y b{} => a\ncop; yes
remember a\ncopy b; rows . ; cols 9; type a\nkey A-Enter\ntype cop; ends cop{half}y b{} => a\ncop; yes
remember a\ncopy b; rows . ; cols 8; type a\nkey A-Enter\ntype cop; ends cop{half}y…{} => a\ncop; yes
remember a\ncopy b; rows . ; cols 6; type a\nkey A-Enter\ntype cop; ends \r\n. cop => a\ncop; yes
remember a\ncopy b; rows ... ; cols 9; type a\nkey A-Enter\ntype cop; ends cop{half}…{} => a\ncop; yes
remember cop\ny z; rows . ; type cop; ends {}cop{half}…{} => cop; yes
remember copy d\ne; rows . ; type cop; ends {}cop{half}y d…{} => cop; yes
remember copy d\ne; rows . ; type cop\nkey Right => copy d\ne

// or under the line
hints under; type cop; ends cop\r\n{}y x => cop; yes
hints under; type z; ends z => z; yes
remember copy d\ne; hints under; type cop; ends cop\r\n{}y d… => cop; yes
";

#[test]
fn hints_are_taken(rt: HostRuntime) -> Result<(), Fail> {
    expect_lines(rt.alloc(), HISTORY, SCRIPTS)
}
