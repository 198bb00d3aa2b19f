//! Lines that are not whole are not accepted.

use crate::prompt::expect_lines;
use std::test::Fail;

const HISTORY: &str = "copy a;open(";

const SCRIPTS: &str = r#"
type f(x\nkey Enter; ends ( is open => f(x; yes
type f(x\nkey Enter\nkey Enter; ends ( is open => f(x; yes
type f(x\nkey Enter\ntype )\nkey Enter\ntype z; ends f(x) => f(x); yes
type 'a\nkey C-J; ends ' is open => 'a; yes
type a)\nkey Enter; ends ) closes nothing => a); yes
type f(x; ends f(x => f(x; yes
type f(x\nkey Enter\nkey Left; ends f(x => f(x; yes
type "a\"b"\nkey Enter\ntype z => "a\"b"
type "a\"\nkey Enter; ends " is open => "a\"; yes

// where lines are shown in rows, Enter begins a row in a line that is open, and accepts a whole one
rows . ; type f(\nkey Enter\ntype x)\nkey Enter\ntype z => f(\nx)
rows . ; type f(\nkey Enter; ends f(\r\n.  => f(\n; yes

// a line that no row can make whole is kept there too
rows . ; type a)\nkey Enter; ends ) closes nothing => a); yes
rows . ; type a) b\nkey Enter\nkey Enter\nkey Enter => a) b
rows . ; type f(\nkey Enter\ntype x]\nkey Enter; ends ] closes nothing => f(\nx]; yes

// while a menu is open the reason stands in its place
menu 80 4 f(a f(b; type f(\nkey Tab\nkey Enter; ends f(a => f(a; yes
menu 80 4 f(a f(b; type f(\nkey Tab\nkey Enter\nkey Enter; ends ( is open => f(a; yes
menu 80 4 a)b a)c; rows . ; type a)\nkey Tab\nkey Enter\nkey Enter; ends ) closes nothing => a)b; yes

// a key of the parts ends what is said of the line
type f(x y\nkey Enter\nkey A-t; ends y f(x => y f(x; yes
"#;

#[test]
fn enter_stays_in_a_line_that_is_open(rt: HostRuntime) -> Result<(), Fail> {
    expect_lines(rt.alloc(), HISTORY, SCRIPTS)
}
