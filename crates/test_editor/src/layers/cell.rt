//! The columns of texts.

use std::alloc::Global;
use std::test::Fail;
use test_cases::expect_rows;
use tw_surface::unicode_column_width;

fn columns(alloc: Global, text: &str) -> Result<String, Fail> {
    Ok(format!(in alloc; "{}", unicode_column_width(text))?)
}

const COLUMNS: &str = r"
 => 0
abc => 3
 ~ => 2
\u{e9} => 1
e\u{301} => 1
\u{4e00} => 2
a\u{4e00}b => 4
\u{ff21} => 2
// decomposed Hangul, an emoji with a skin tone, a family, a flag
\u{1112}\u{1161}\u{11ab} => 2
\u{1f44d}\u{1f3fd} => 2
\u{1f468}\u{200d}\u{1f469}\u{200d}\u{1f467} => 2
\u{1f1e9}\u{1f1ea} => 2
// one cluster, two, and a character that shows nothing
\r\n => 1
\n\r => 2
\t => 1
ab\u{200b} => 2
";

#[test]
fn texts_have_columns(rt: HostRuntime) -> Result<(), Fail> {
    expect_rows(rt.alloc(), COLUMNS, columns)
}
