//! Lines of several rows, by what a text field does: the cursor goes from row to row, and keeps its column over shorter
//! ones.

use crate::prompt::expect_lines;
use std::test::Fail;

const HISTORY: &str = "older";

const SCRIPTS: &str = r"
// Alt-Enter begins a row
type ab\nkey A-Enter\ntype cd => ab\ncd
type ab\nkey Left\nkey A-Enter\ntype X => a\nXb
key A-Enter\nkey A-Enter\ntype a\nkey Up\ntype X => \nX\na

// Up and Down go from row to row
type abc\nkey A-Enter\ntype de\nkey Up\ntype X => abXc\nde
type ab\nkey A-Enter\ntype cd\nkey C-P\ntype X => abX\ncd
type ab\nkey A-Enter\ntype cd\nkey AppUp\nkey Left\nkey AppDown\ntype X => ab\ncXd
type ab\nkey A-Enter\ntype cd\nkey Up\nkey Left\nkey C-N\ntype X => ab\ncXd
type e\u{301}x\nkey A-Enter\ntype a\nkey Up\ntype X => e\u{301}Xx\na
type \u{65e5}\u{672c}\nkey A-Enter\ntype a\nkey Up\ntype X => \u{65e5}X\u{672c}\na

// they keep the column over shorter rows, and no other key does
type abcd\nkey A-Enter\ntype e\nkey A-Enter\ntype fghi\nkey Up\nkey Up\ntype X => abcdX\ne\nfghi
type abcd\nkey A-Enter\ntype e\nkey A-Enter\ntype fghi\nkey Up\nkey Up\nkey Left\nkey Down\nkey Down\ntype X => abcd\ne\nfghXi
type abcd\nkey A-Enter\ntype e\nkey A-Enter\ntype fghi\nkey Up\nkey Left\nkey Up\ntype X => Xabcd\ne\nfghi
type abcd\nkey A-Enter\ntype e\nkey A-Enter\ntype fghi\nkey Up\nkey End\nkey Up\ntype X => aXbcd\ne\nfghi

// past the first and the last row they walk through the history
type ab\nkey A-Enter\ntype cd\nkey Up\nkey Up => older
type ab\nkey A-Enter\ntype cd\nkey Up\nkey Up\nkey Down => ab\ncd
remember one\ntwo; key Up\nkey Up\ntype X => oneX\ntwo
remember one\ntwo; key Up\nkey Up\nkey Up => older
remember one\ntwo; key Up\nkey Up\nkey Down\nkey Down =>

// an edited line of several rows comes back, and the history stays as it was
remember one\ntwo; key Up\nkey Up\ntype X\nkey Up\nkey Down => oneX\ntwo
remember one\ntwo; key Up\nkey Up\ntype X\nkey Up\nkey Enter; key Up\nkey Up\nkey Up\nkey Down => older; one\ntwo
remember one\ntwo; key Up\nkey Up\ntype X\nkey A-r => one\ntwo

// Home and End go to the ends of the row
type ab\nkey A-Enter\ntype cd\nkey Home\ntype X => ab\nXcd
type ab\nkey A-Enter\ntype cd\nkey C-A\nkey Home\ntype X => ab\nXcd
type ab\nkey A-Enter\ntype cd\nkey Up\nkey Home\ntype X => Xab\ncd
type ab\nkey A-Enter\ntype cd\nkey Up\nkey Home\nkey End\ntype X => abX\ncd
type ab\nkey A-Enter\ntype cd\nkey Up\nkey Home\nkey C-E\ntype X => abX\ncd
type ab\nkey A-Enter\ntype cd\nkey Left\nkey End\ntype X => ab\ncdX

// Ctrl-K kills the rest of the row, or the line feed at its end, and Ctrl-Y brings it back
type ab\nkey A-Enter\ntype cd\nkey Up\nkey Home\nkey C-K\ntype X => X\ncd
type ab\nkey A-Enter\ntype cd\nkey Up\nkey Left\nkey C-K\ntype X => aX\ncd
type ab\nkey A-Enter\ntype cd\nkey Up\nkey C-K\ntype X => abXcd
type ab\nkey A-Enter\ntype cd\nkey Up\nkey Home\nkey C-K\nkey Down\nkey C-Y => \nabcd
type ab\nkey A-Enter\ntype cd\nkey Up\nkey Home\nkey C-K\nkey C-K\ntype X\nkey C-Y => Xab\ncd
type ab\nkey A-Enter\ntype cd\nkey Home\nkey C-K\ntype X => ab\nX

// Ctrl-U kills to the start of the row, and there the line feed before it, and Ctrl-Y brings it back
type ab\nkey A-Enter\ntype cd\nkey C-U\ntype X => ab\nX
type ab\nkey A-Enter\ntype cd\nkey Left\nkey C-U\nkey C-Y => ab\ncd
type ab\nkey A-Enter\ntype cd\nkey Home\nkey C-U\ntype X => abXcd
type ab\nkey A-Enter\ntype cd\nkey C-U\nkey C-U\nkey C-Y => ab\ncd
type ab\nkey A-Enter\ntype cd\nkey Up\nkey Left\nkey C-U\ntype X => Xb\ncd
type ab\nkey A-Enter\ntype cd\nkey Left\nkey C-W\nkey C-X\nkey C-U => ab\ncd

// Backspace at a row's start joins it to the row before
type ab\nkey A-Enter\ntype cd\nkey Home\nkey Backspace\ntype X => abXcd

// the keys do nothing of it during a search
key C-R\ntype ol\nkey A-Enter\nkey Enter => older
";

#[test]
fn keys_know_the_rows(rt: HostRuntime) -> Result<(), Fail> {
    expect_lines(rt.alloc(), HISTORY, SCRIPTS)
}
