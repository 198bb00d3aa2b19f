//! What texts leave open.

use std::alloc::Global;
use std::test::Fail;
use test_cases::expect_rows;
use tw_prompt_host::{Nesting, common_pairs, nesting_in};

/// Returns the open marks of a text with their places, or the wrong one after `!`.
fn left(alloc: Global, text: &str) -> Result<String, Fail> {
    let pairs = common_pairs(alloc)?;
    match nesting_in(alloc, pairs.as_slice(), text)? {
        Nesting::Open(opens) => {
            let mut output = String::new(alloc);
            for open in &opens {
                write!(output, "{}{}", open.pair.opening, open.at)?;
            }
            Ok(output)
        }
        Nesting::Wrong(mark, at) => Ok(format!(in alloc; "!{mark}{at}")?),
    }
}

const TEXTS: &str = r#"
// what is whole leaves nothing
 =>
a b =>
([{}]) =>
f(x)[0]{} =>
"(" =>
'"' =>
()() =>
"a\"b" =>
'(\'' =>

// open marks in their order
( => (0
a(b[c => (1[3
(a)[ => [3
é(" => (2"3
say "it's => "4
"a\" => "0
"a\\\\"( => (5
'( => '0

// the first wrong mark
) => !)0
(] => !]1
())] => !)2
[(]) => !]2
"#;

#[test]
fn texts_leave_marks_open(rt: HostRuntime) -> Result<(), Fail> {
    expect_rows(rt.alloc(), TEXTS, left)
}
