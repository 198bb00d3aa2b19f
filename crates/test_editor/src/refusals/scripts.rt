//! Scripts with one reading, and with a bad line, with each request refused in turn.

use std::test::Fail;
use test_cases::{expect_cases, play_script};

/// Each script ends with its reading; below `--` stands what it writes and how it ends. A line that is no directive is
/// named, or the memory for its name is refused; what stands before it is written.
const SCRIPTS: &str = "\
cols 10
type ab
key Left
type X
key Enter
read
--
line aXb
|> aXb     |
cursor 0 4
end 1 0
-- ok
==
cols 10
type abcdefgh
key Enter
read
--
line abcdefgh
|> abcdefgh|
cursor 1 0
end 2 0
-- ok
==
cols 10
type x
key C-C
read
--
cancelled
|> x       |
cursor 0 3
end 1 0
-- ok
==
cols 0
read
--
refused 3
-- ok
==
cols 20
cand 0 2
type ab
key Home
key Tab
read
--
refused 5
|> ab                |
cursor 0 2
end 1 0
-- ok
==
cols 10
preview ok
type x
key Enter
read
--
line x
|> x       |
cursor 0 3
end 1 0
-- ok
==
cols 10
preview ok
type x
read
--
line x
|> x       |
|ok        |
cursor 0 3
end 2 0
-- ok
==
cols 5
preview abcde\\n\\nfg
type x
read
--
line x
|> x  |
|abcde|
|     |
|fg   |
cursor 0 3
end 4 0
-- ok
==
cols 2
type a
key Enter
read
--
line a
|> |
|a |
cursor 1 1
end 2 0
-- ok
==
cols 20
type a b
key C-W
type c
key Enter
read
--
line a c
|> a c               |
cursor 0 5
end 1 0
-- ok
==
cols 16
history git log
history ls
key C-R
type g
read
--
line g
|> git log       |
|bck-i-search: g_|
cursor 0 2
end 2 0
-- ok
==
cols 20
history one
history two
prompt $\x20
type x
key Up
key Up
key Down
key Down
key Enter
read
--
line x
|$ x                 |
cursor 0 3
end 1 0
-- ok
==
cols 20
cand 0 1 foo
cand 0 1 far
paste f
key Tab
key Tab
key C-L
key Enter
read
--
line far
|> far               |
cursor 0 5
end 1 0
-- ok
==
cols 20
paste \u{e9}
key Enter
read
--
line \u{e9}
screen not plain
-- ok
==
cols 0
read
sing
--
refused 3
bad line 3
-- bad line 3
==
";

#[test]
fn scripts_refused_in_turn(rt: HostRuntime) -> Result<(), Fail> {
    expect_cases(
        rt.alloc(),
        SCRIPTS,
        |alloc, script| play_script(alloc, script.as_bytes()),
    )
}
