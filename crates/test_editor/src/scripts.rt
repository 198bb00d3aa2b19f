//! Scripts, with what they write and how they end.

use std::test::Fail;
use test_cases::{expect_cases, play_script};

const SCRIPTS: &str = "\
cols 10
type abcdefgh
key Enter
read
type x
key C-C
read
--
line abcdefgh
|> abcdefgh|
cursor 1 0
end 2 0
cancelled
|> abcdefgh|
|          |
|> x       |
cursor 2 3
end 3 0
-- ok
==
--
-- ok
==


--
-- ok
==
cols 5
type ab
key Enter
type zz
read
read
--
line ab
|> ab |
cursor 0 4
end 1 0
line\x20
|> ab |
|>    |
cursor 1 2
end 2 0
-- ok
==
type ab
cols 5
read
--
line ab
|> ab |
cursor 0 4
end 1 0
-- ok
==
cols 000000005
read
cols 6
read
--
line\x20
|>    |
cursor 0 2
end 1 0
line\x20
|>     |
cursor 0 2
end 1 0
-- ok
==
cols 0
read
cols 65536
read
cols 999999999
type a
read
cols 3
type b
read
--
refused 3
refused 4
refused 4
line b
|> b|
cursor 1 0
end 2 0
-- ok
==
cols 5
prompt
paste
type
read
prompt $\x20
paste a b
read
--
line\x20
cursor 0 0
end 1 0
line a b
|     |
|$ a b|
cursor 2 0
end 3 0
-- ok
==
cols 5
read

sing
read
--
line\x20
|>    |
cursor 0 2
end 1 0
bad line 4
-- bad line 4
==
cols 5
type a
read
paste é
type b
read
type c
read
--
line a
|> a  |
cursor 0 3
end 1 0
line éb
screen not plain
line c
|> c  |
cursor 0 3
end 1 0
-- ok
==
cols 5
type a
key C-D
read
type b
read
--
refused 1
|> a  |
cursor 0 3
end 1 0
line b
|> a  |
|> b  |
cursor 1 3
end 2 0
-- ok
==
cols 10
history one
history two\x20
key Up
read
history
key Up
key Up
key Up
key Enter
read
type x
key Up
read
--
line two\x20
|> two     |
cursor 0 6
end 1 0
line one
|> two     |
|> one     |
cursor 1 5
end 2 0
line\x20
|> two     |
|> one     |
|>         |
cursor 2 2
end 3 0
-- ok
==
cols 0
read
cols 20
cand 0 2
type ab
key Home
key Tab
read
sing
--
refused 3
refused 5
|> ab                |
cursor 0 2
end 1 0
bad line 9
-- bad line 9
==
cols 12
cand 0 1 foo bar
cand 1 1\x20
type f
key Tab
read
type g
key Tab
key Tab
read
--
line foo bar
|> foo bar   |
cursor 0 9
end 1 0
line g
|> foo bar   |
|> g         |
cursor 1 3
end 2 0
-- ok
==
cols 10
type x
key Enter
read
type abcdefghij
key C-L
key Enter
read
--
line x
|> x       |
cursor 0 3
end 1 0
line abcdefghij
|> abcdefgh|
|ij        |
cursor 1 2
end 2 0
-- ok
==
cols 5
prompt > \r
read
--
line\x20
|>    |
cursor 0 0
end 1 0
-- ok
==
cols 5
paste a\0b
read
paste \u{feff}
read
read
--
line a\0b
screen not plain
line \u{feff}
screen not plain
line\x20
|>    |
cursor 0 2
end 1 0
-- ok
==
cols 5
sing
--
bad line 2
-- bad line 2
==
cols 10
read
read
read
read
read
type abcdefghij
key C-L
key Enter
read
--
line\x20
|>         |
cursor 0 2
end 1 0
line\x20
|>         |
|>         |
cursor 1 2
end 2 0
line\x20
|>         |
|>         |
|>         |
cursor 2 2
end 3 0
line\x20
|>         |
|>         |
|>         |
|>         |
cursor 3 2
end 4 0
line\x20
|>         |
|>         |
|>         |
|>         |
|>         |
cursor 4 2
end 5 0
line abcdefghij
|> abcdefgh|
|ij        |
cursor 1 2
end 2 0
-- ok
==
cols 10
preview ok
type x
read
preview
type y
read
--
line x
|> x       |
|ok        |
cursor 0 3
end 2 0
line y
|> x       |
|ok        |
|> y       |
cursor 2 3
end 3 0
-- ok
==
cols 5
preview abcdef\\n
type x
read
--
line x
|> x  |
|abcde|
|f    |
cursor 0 3
end 4 0
-- ok
==
cols 7
preview \\\\nb\\N\\
type x
read
--
line x
|> x    |
|\\      |
|b\\N\\   |
cursor 0 3
end 3 0
-- ok
==
";

#[test]
fn scripts_show_what_the_editor_shows(rt: HostRuntime) -> Result<(), Fail> {
    expect_cases(
        rt.alloc(),
        SCRIPTS,
        |alloc, script| play_script(alloc, script.as_bytes()),
    )
}
