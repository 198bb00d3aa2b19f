//! Lines that are read, with each change that the terminal is sent.

use crate::support::play_with_batches;
use std::alloc::Global;
use std::test::Fail;
use test_cases::expect_cases;

const LINES: &str = "\
# keys edit the line
events a b Left X Enter
--
Some(\"aXb\"), 0 left, 7 flushed, 0 failed
ClearToEndOfScreen, AllAttributes, Text(\"> \"), AllAttributes, Text(\"\"), CP(R(0), R(0))
CP(A(0), R(0)), ClearToEndOfScreen, AllAttributes, Text(\"> \"), AllAttributes, Text(\"a\"), CP(R(0), R(0))
CP(A(0), R(0)), ClearToEndOfScreen, AllAttributes, Text(\"> \"), AllAttributes, Text(\"ab\"), CP(R(0), R(0))
CP(A(0), R(0)), ClearToEndOfScreen, AllAttributes, Text(\"> \"), AllAttributes, Text(\"ab\"), CP(R(-1), R(0))
CP(A(0), R(0)), ClearToEndOfScreen, AllAttributes, Text(\"> \"), AllAttributes, Text(\"aXb\"), CP(R(-1), R(0))
CP(A(0), R(0)), ClearToEndOfScreen, AllAttributes, Text(\"> \"), AllAttributes, Text(\"aXb\"), CP(R(-1), R(0))
CP(A(0), R(1)), ClearToEndOfScreen
==
events C-c
--
Some(\"\"), 0 left, 3 flushed, 0 failed
ClearToEndOfScreen, AllAttributes, Text(\"> \"), AllAttributes, Text(\"\"), CP(R(0), R(0))
CP(A(0), R(0)), ClearToEndOfScreen, AllAttributes, Text(\"> \"), AllAttributes, Text(\"\"), CP(R(0), R(0))
CP(A(0), R(1)), ClearToEndOfScreen
==
# an initial value is the line
initial hi
--
Some(\"hi\"), 0 left, 2 flushed, 0 failed
ClearToEndOfScreen, AllAttributes, Text(\"> \"), AllAttributes, Text(\"hi\"), CP(R(0), R(0))
CP(A(0), R(1)), ClearToEndOfScreen
==
# a full row is followed by a space
size 24 10
initial abcdefgh
--
Some(\"abcdefgh\"), 0 left, 2 flushed, 0 failed
ClearToEndOfScreen, AllAttributes, Text(\"> \"), AllAttributes, Text(\"abcdefgh\"), Text(\" \"), CP(R(-1), R(0))
CP(A(0), R(1)), ClearToEndOfScreen
==
size 24 1
initial a
--
Some(\"a\"), 0 left, 2 flushed, 0 failed
ClearToEndOfScreen, AllAttributes, Text(\"> \"), AllAttributes, Text(\"a\"), Text(\" \"), CP(R(-1), R(0))
CP(A(0), R(1)), ClearToEndOfScreen
==
# a painting starts where the one before did
size 24 5
events a b c d e f Home Delete
--
Some(\"bcdef\"), 0 left, 10 flushed, 0 failed
ClearToEndOfScreen, AllAttributes, Text(\"> \"), AllAttributes, Text(\"\"), CP(R(0), R(0))
CP(A(0), R(0)), ClearToEndOfScreen, AllAttributes, Text(\"> \"), AllAttributes, Text(\"a\"), CP(R(0), R(0))
CP(A(0), R(0)), ClearToEndOfScreen, AllAttributes, Text(\"> \"), AllAttributes, Text(\"ab\"), CP(R(0), R(0))
CP(A(0), R(0)), ClearToEndOfScreen, AllAttributes, Text(\"> \"), AllAttributes, Text(\"abc\"), Text(\" \"), CP(R(-1), R(0))
CP(A(0), R(-1)), ClearToEndOfScreen, AllAttributes, Text(\"> \"), AllAttributes, Text(\"abcd\"), CP(R(0), R(0))
CP(A(0), R(-1)), ClearToEndOfScreen, AllAttributes, Text(\"> \"), AllAttributes, Text(\"abcde\"), CP(R(0), R(0))
CP(A(0), R(-1)), ClearToEndOfScreen, AllAttributes, Text(\"> \"), AllAttributes, Text(\"abcdef\"), CP(R(0), R(0))
CP(A(0), R(-1)), ClearToEndOfScreen, AllAttributes, Text(\"> \"), AllAttributes, Text(\"abcdef\"), CP(R(-1), R(-1))
CP(A(0), R(0)), ClearToEndOfScreen, AllAttributes, Text(\"> \"), AllAttributes, Text(\"bcdef\"), CP(R(0), R(-1))
CP(A(0), R(2)), ClearToEndOfScreen
==
# a repaint clears the screen first
size 24 10
events a b c d e f g h i j C-L Enter
--
Some(\"abcdefghij\"), 0 left, 15 flushed, 0 failed
ClearToEndOfScreen, AllAttributes, Text(\"> \"), AllAttributes, Text(\"\"), CP(R(0), R(0))
CP(A(0), R(0)), ClearToEndOfScreen, AllAttributes, Text(\"> \"), AllAttributes, Text(\"a\"), CP(R(0), R(0))
CP(A(0), R(0)), ClearToEndOfScreen, AllAttributes, Text(\"> \"), AllAttributes, Text(\"ab\"), CP(R(0), R(0))
CP(A(0), R(0)), ClearToEndOfScreen, AllAttributes, Text(\"> \"), AllAttributes, Text(\"abc\"), CP(R(0), R(0))
CP(A(0), R(0)), ClearToEndOfScreen, AllAttributes, Text(\"> \"), AllAttributes, Text(\"abcd\"), CP(R(0), R(0))
CP(A(0), R(0)), ClearToEndOfScreen, AllAttributes, Text(\"> \"), AllAttributes, Text(\"abcde\"), CP(R(0), R(0))
CP(A(0), R(0)), ClearToEndOfScreen, AllAttributes, Text(\"> \"), AllAttributes, Text(\"abcdef\"), CP(R(0), R(0))
CP(A(0), R(0)), ClearToEndOfScreen, AllAttributes, Text(\"> \"), AllAttributes, Text(\"abcdefg\"), CP(R(0), R(0))
CP(A(0), R(0)), ClearToEndOfScreen, AllAttributes, Text(\"> \"), AllAttributes, Text(\"abcdefgh\"), Text(\" \"), CP(R(-1), R(0))
CP(A(0), R(-1)), ClearToEndOfScreen, AllAttributes, Text(\"> \"), AllAttributes, Text(\"abcdefghi\"), CP(R(0), R(0))
CP(A(0), R(-1)), ClearToEndOfScreen, AllAttributes, Text(\"> \"), AllAttributes, Text(\"abcdefghij\"), CP(R(0), R(0))
ClearScreen
CP(A(0), R(-1)), ClearToEndOfScreen, AllAttributes, Text(\"> \"), AllAttributes, Text(\"abcdefghij\"), CP(R(0), R(0))
CP(A(0), R(-1)), ClearToEndOfScreen, AllAttributes, Text(\"> \"), AllAttributes, Text(\"abcdefghij\"), CP(R(0), R(0))
CP(A(0), R(1)), ClearToEndOfScreen
==
# cancel answers no line
events a C-C b
--
None, 1 left, 4 flushed, 0 failed
ClearToEndOfScreen, AllAttributes, Text(\"> \"), AllAttributes, Text(\"\"), CP(R(0), R(0))
CP(A(0), R(0)), ClearToEndOfScreen, AllAttributes, Text(\"> \"), AllAttributes, Text(\"a\"), CP(R(0), R(0))
CP(A(0), R(0)), ClearToEndOfScreen, AllAttributes, Text(\"> \"), AllAttributes, Text(\"a\"), CP(R(0), R(0))
CP(A(0), R(1)), ClearToEndOfScreen
==
# end of file closes the last painting
events a C-D b
--
refusal 1, 1 left, 3 flushed, 0 failed
ClearToEndOfScreen, AllAttributes, Text(\"> \"), AllAttributes, Text(\"\"), CP(R(0), R(0))
CP(A(0), R(0)), ClearToEndOfScreen, AllAttributes, Text(\"> \"), AllAttributes, Text(\"a\"), CP(R(0), R(0))
CP(A(0), R(1)), ClearToEndOfScreen
==
# a new size is measured anew
size 24 10
events a b 5x24 c Enter
--
Some(\"abc\"), 0 left, 7 flushed, 0 failed
ClearToEndOfScreen, AllAttributes, Text(\"> \"), AllAttributes, Text(\"\"), CP(R(0), R(0))
CP(A(0), R(0)), ClearToEndOfScreen, AllAttributes, Text(\"> \"), AllAttributes, Text(\"a\"), CP(R(0), R(0))
CP(A(0), R(0)), ClearToEndOfScreen, AllAttributes, Text(\"> \"), AllAttributes, Text(\"ab\"), CP(R(0), R(0))
CP(A(0), R(0)), ClearToEndOfScreen, AllAttributes, Text(\"> \"), AllAttributes, Text(\"ab\"), CP(R(0), R(0))
CP(A(0), R(0)), ClearToEndOfScreen, AllAttributes, Text(\"> \"), AllAttributes, Text(\"abc\"), Text(\" \"), CP(R(-1), R(0))
CP(A(0), R(-1)), ClearToEndOfScreen, AllAttributes, Text(\"> \"), AllAttributes, Text(\"abc\"), Text(\" \"), CP(R(-1), R(0))
CP(A(0), R(1)), ClearToEndOfScreen
==
# one editor reads two lines
size 24 10
events a Enter b Enter
readings 2
--
Some(\"a\"), Some(\"b\"), 0 left, 8 flushed, 0 failed
ClearToEndOfScreen, AllAttributes, Text(\"> \"), AllAttributes, Text(\"\"), CP(R(0), R(0))
CP(A(0), R(0)), ClearToEndOfScreen, AllAttributes, Text(\"> \"), AllAttributes, Text(\"a\"), CP(R(0), R(0))
CP(A(0), R(0)), ClearToEndOfScreen, AllAttributes, Text(\"> \"), AllAttributes, Text(\"a\"), CP(R(0), R(0))
CP(A(0), R(1)), ClearToEndOfScreen
ClearToEndOfScreen, AllAttributes, Text(\"> \"), AllAttributes, Text(\"\"), CP(R(0), R(0))
CP(A(0), R(0)), ClearToEndOfScreen, AllAttributes, Text(\"> \"), AllAttributes, Text(\"b\"), CP(R(0), R(0))
CP(A(0), R(0)), ClearToEndOfScreen, AllAttributes, Text(\"> \"), AllAttributes, Text(\"b\"), CP(R(0), R(0))
CP(A(0), R(1)), ClearToEndOfScreen
==
# a reading leaves the events behind its line
size 24 10
events a Enter b Enter
--
Some(\"a\"), 2 left, 4 flushed, 0 failed
ClearToEndOfScreen, AllAttributes, Text(\"> \"), AllAttributes, Text(\"\"), CP(R(0), R(0))
CP(A(0), R(0)), ClearToEndOfScreen, AllAttributes, Text(\"> \"), AllAttributes, Text(\"a\"), CP(R(0), R(0))
CP(A(0), R(0)), ClearToEndOfScreen, AllAttributes, Text(\"> \"), AllAttributes, Text(\"a\"), CP(R(0), R(0))
CP(A(0), R(1)), ClearToEndOfScreen
==
# a host places the cursor
size 24 10
host column 25
--
Some(\"\"), 0 left, 2 flushed, 0 failed
ClearToEndOfScreen, AllAttributes, Text(\"> \"), AllAttributes, Text(\"\"), CP(R(5), R(2))
CP(A(0), R(-1)), ClearToEndOfScreen
==
host column 2147483645
--
Some(\"\"), 0 left, 2 flushed, 0 failed
ClearToEndOfScreen, AllAttributes, Text(\"> \"), AllAttributes, Text(\"\"), CP(R(45), R(26843545))
CP(A(0), R(-26843544)), ClearToEndOfScreen
==
host column 2147483646
--
refusal 4, 0 left, 0 flushed, 0 failed
==
host column 18446744073709551615
--
refusal 4, 0 left, 0 flushed, 0 failed
==
# the screen is cleared before a painting is refused, and the closing batch is that of the painting before
host stray
events F3 a
--
refusal 4, 1 left, 3 flushed, 0 failed
ClearToEndOfScreen, AllAttributes, Text(\"> \"), AllAttributes, Text(\"\"), CP(R(0), R(0))
ClearScreen
CP(A(0), R(1)), ClearToEndOfScreen
==
# a repaint that fails leaves the line, the cursor and the mode as they were
line 0 ab
fail 0 0
do Repaint
read
--
refusal 7, \"ab\" at 0
Some(\"\"), 0 left, 2 flushed, 1 failed
ClearToEndOfScreen, AllAttributes, Text(\"> \"), AllAttributes, Text(\"\"), CP(R(0), R(0))
CP(A(0), R(1)), ClearToEndOfScreen
==
# a size out of range is refused
size 24 65535
--
Some(\"\"), 0 left, 2 flushed, 0 failed
ClearToEndOfScreen, AllAttributes, Text(\"> \"), AllAttributes, Text(\"\"), CP(R(0), R(0))
CP(A(0), R(1)), ClearToEndOfScreen
==
size 24 65536
events a
--
refusal 4, 1 left, 0 flushed, 0 failed
==
size 65536 80
events a
--
refusal 4, 1 left, 0 flushed, 0 failed
==
size 24 0
--
refusal 3, 0 left, 0 flushed, 0 failed
==
size 0 65536
--
refusal 3, 0 left, 0 flushed, 0 failed
==
events 0x24 a
--
refusal 3, 1 left, 2 flushed, 0 failed
ClearToEndOfScreen, AllAttributes, Text(\"> \"), AllAttributes, Text(\"\"), CP(R(0), R(0))
CP(A(0), R(1)), ClearToEndOfScreen
==
events 65536x24 a
--
refusal 4, 1 left, 2 flushed, 0 failed
ClearToEndOfScreen, AllAttributes, Text(\"> \"), AllAttributes, Text(\"\"), CP(R(0), R(0))
CP(A(0), R(1)), ClearToEndOfScreen
==
# a refused size leaves the editor ready
size 24 0
events a
readings 2
--
refusal 3, refusal 3, 1 left, 0 flushed, 0 failed
==
# a new size at the limits is painted
events a 1x24 Enter
--
Some(\"a\"), 0 left, 5 flushed, 0 failed
ClearToEndOfScreen, AllAttributes, Text(\"> \"), AllAttributes, Text(\"\"), CP(R(0), R(0))
CP(A(0), R(0)), ClearToEndOfScreen, AllAttributes, Text(\"> \"), AllAttributes, Text(\"a\"), CP(R(0), R(0))
CP(A(0), R(0)), ClearToEndOfScreen, AllAttributes, Text(\"> \"), AllAttributes, Text(\"a\"), Text(\" \"), CP(R(-1), R(0))
CP(A(0), R(-3)), ClearToEndOfScreen, AllAttributes, Text(\"> \"), AllAttributes, Text(\"a\"), Text(\" \"), CP(R(-1), R(0))
CP(A(0), R(1)), ClearToEndOfScreen
==
events a 65535x65535 Enter
--
Some(\"a\"), 0 left, 5 flushed, 0 failed
ClearToEndOfScreen, AllAttributes, Text(\"> \"), AllAttributes, Text(\"\"), CP(R(0), R(0))
CP(A(0), R(0)), ClearToEndOfScreen, AllAttributes, Text(\"> \"), AllAttributes, Text(\"a\"), CP(R(0), R(0))
CP(A(0), R(0)), ClearToEndOfScreen, AllAttributes, Text(\"> \"), AllAttributes, Text(\"a\"), CP(R(0), R(0))
CP(A(0), R(0)), ClearToEndOfScreen, AllAttributes, Text(\"> \"), AllAttributes, Text(\"a\"), CP(R(0), R(0))
CP(A(0), R(1)), ClearToEndOfScreen
==
";

/// Sizes are measured and refused, and all that is painted is shown.
#[test]
fn lines_are_painted_at_each_event(rt: HostRuntime) -> Result<(), Fail> {
    expect_cases(rt.alloc(), LINES, play_with_batches)
}

/// A size that comes while a line is read, and one that stands from the beginning on.
const BEYOND: &str = "\
events a COLSxROWS b
--
refusal NUMBER, 1 left, 3 flushed, 0 failed
ClearToEndOfScreen, AllAttributes, Text(\"> \"), AllAttributes, Text(\"\"), CP(R(0), R(0))
CP(A(0), R(0)), ClearToEndOfScreen, AllAttributes, Text(\"> \"), AllAttributes, Text(\"a\"), CP(R(0), R(0))
CP(A(0), R(1)), ClearToEndOfScreen
==
size ROWS COLS
events a
--
refusal NUMBER, 1 left, 0 flushed, 0 failed
==
";

/// Columns, rows and the refusal: zero is tested before what is too large.
const BEYOND_SIZES: &str = "\
0 24 3
80 0 3
0 0 3
65536 0 3
0 65536 3
18446744073709551615 0 3
65536 24 4
80 65536 4
65536 65536 4
18446744073709551615 18446744073709551615 4
";

/// Returns the cases of a line `COLS ROWS NUMBER`.
fn cases_beyond(alloc: Global, line: &str) -> Result<String, Fail> {
    let (size, number) = line.rsplit_once(' ').ok_or("no number")?;
    let (cols, rows) = size.split_once(' ').ok_or("no size")?;
    let cases = BEYOND.replace(alloc, "COLS", cols)?;
    let cases = cases.as_str().replace(alloc, "ROWS", rows)?;
    Ok(cases.as_str().replace(alloc, "NUMBER", number)?)
}

#[test]
fn a_size_beyond_the_limits_is_refused(rt: HostRuntime) -> Result<(), Fail> {
    for line in BEYOND_SIZES.lines() {
        let cases = cases_beyond(rt.alloc(), line)?;
        expect_cases(rt.alloc(), cases.as_str(), play_with_batches)?;
    }
    Ok(())
}
