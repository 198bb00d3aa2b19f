//! Lines of scripts that are no directives, and limits of scripts.

use std::alloc::Global;
use std::test::Fail;
use test_cases::{expanded, expect_cases, play_script};

fn play(alloc: Global, script: &str) -> Result<String, Fail> {
    play_script(alloc, script.as_bytes())
}

/// Plays a script without the line feed at its end.
fn play_unended(alloc: Global, script: &str) -> Result<String, Fail> {
    play(alloc, script.strip_suffix('\n').ok_or("no line feed")?)
}

const UNENDED: &str = "\
cols 5
read
--
line\x20
|>    |
cursor 0 2
end 1 0
-- ok
==
cols 5
sing
--
bad line 2
-- bad line 2
==
";

const WIDE: &str = "\
cols 65535
read
--
line\x20
|>{65534| }|
cursor 0 2
end 1 0
-- ok
==
";

/// A last line that ends without a line feed, and a screen of the greatest width, which is shown in full.
#[test]
fn ends_and_widths_are_no_limits(rt: HostRuntime) -> Result<(), Fail> {
    expect_cases(rt.alloc(), UNENDED, play_unended)?;
    let wide = expanded(rt.alloc(), WIDE)?;
    expect_cases(rt.alloc(), wide.as_str(), play)
}

/// Lines that are no directives: unknown words, words without the text that they need, numbers that are no
/// 1 to 9 digits, and names of no key.
const BAD_LINES: &str = "\
read\x20
read x
reads
Read
\x20read
\tread
read\r
sing
prompts x
histories x
History x
previews x
Preview x
cands 0 1 x
cand
cand\x20
cand 1
cand 1\x20
cand 1 x
cand 0 x
cand x 0
cand 0  1
cand  0 1
cand -1 2 x
cand 0 +2 x
cand 0 1x
cand 1234567890 1
cand 1 1234567890 x
cols
cols\x20
cols +5
cols -5
cols 5\x20
cols  5
cols 5x
cols 0x5
cols 5.0
cols \u{ff15}
cols 1234567890
cols 0000000005
key
key\x20
key enter
key Enter\x20
key  Enter
key a
key C-
key C-ab
key C-\u{e9}b
key X-a
key c-a
key Insert
key PageUp
key C-Enter
key A-Home
key A-Up
key A-AppDown
key S-Left
\r
cols 5\r
key Enter\r
\0
read\0
cols 5\0
\u{feff}read
cols 12345678901234567890
cols 00000000000000000005
cand 0 18446744073709551616 x
";

/// Scripts whose second line is no text.
const BAD_BYTES: &[&[u8]] = &[
    b"\n\xff\nread",
    b"\ntype \xc3\n",
    b"\nprompt \xed\xa0\x80",
    b"\nhistory \xc0\xaf\nread",
];

/// Fails unless the second line of a script ends its run.
fn hold_bad(alloc: Global, script: &[u8]) -> Result<(), Fail> {
    let shown = play_script(alloc, script)?;
    if shown.as_str() == "bad line 2\n-- bad line 2" {
        return Ok(());
    }
    Err(Fail::new(format_args!("{script:?}: {shown}")))
}

/// Fails unless each of the lines ends a run, and returns how many these are.
fn hold_all_bad(alloc: Global, lines: &str) -> Result<u32, Fail> {
    let mut count = 0u32;
    for line in lines.split('\n') {
        let script = format!(in alloc; "cols 5\n{line}\nread\n")?;
        hold_bad(alloc, script.as_bytes())?;
        count = count.saturating_add(1);
    }
    Ok(count)
}

#[test]
fn a_line_that_is_no_directive_ends_the_run(rt: HostRuntime) -> Result<(), Fail> {
    let count = hold_all_bad(rt.alloc(), BAD_LINES.trim_end_matches('\n'))?;
    assert_eq!(rt; count, 68);
    for &script in BAD_BYTES {
        hold_bad(rt.alloc(), script)?;
    }
    Ok(())
}
