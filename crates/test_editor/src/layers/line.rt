//! Movements and edits of a line.

use std::alloc::{AllocError, Global};
use std::test::Fail;
use test_cases::expect_rows;
use tw_line::{LineEditBuffer, Movement};

/// Parses a movement: `back:COUNT`, `ahead:COUNT`, `word_back:COUNT`, `word_ahead:COUNT`, `start`, `end` or `none`.
fn movement_of(name: &str) -> Result<Movement, Fail> {
    let (word, count) = name.split_once(':').unwrap_or((name, "0"));
    let count = count.parse()?;
    Ok(match word {
        "back" => Movement::BackwardChar(count),
        "ahead" => Movement::ForwardChar(count),
        "word_back" => Movement::BackwardWord(count),
        "word_ahead" => Movement::ForwardWord(count),
        "start" => Movement::StartOfLine,
        "end" => Movement::EndOfLine,
        "none" => Movement::None,
        _ => return Err(Fail::from("no such movement")),
    })
}

/// Returns the cursor after one step ahead, and after one back.
fn steps_from(alloc: Global, buffer: &LineEditBuffer) -> Result<(usize, usize), Fail> {
    let mut ahead = buffer.try_clone(alloc)?;
    ahead.exec_movement(Movement::ForwardChar(1));
    let mut back = buffer.try_clone(alloc)?;
    back.exec_movement(Movement::BackwardChar(1));
    Ok((ahead.get_cursor(), back.get_cursor()))
}

/// Returns `refused ` if an edit failed.
fn refusal(edited: Result<(), AllocError>) -> &'static str {
    if edited.is_err() { "refused " } else { "" }
}

/// Inserts a text or a character `COUNT` times: `COUNT TEXT`.
fn insert_times(buffer: &mut LineEditBuffer, word: &str, rest: &str) -> Result<&'static str, Fail> {
    let (count, text) = rest.split_once(' ').ok_or("no text")?;
    let count = count.parse()?;
    Ok(refusal(if word == "texts" {
        buffer.insert_text_times(count, text)
    } else {
        buffer.insert_char_times(count, text.chars().next().ok_or("no character")?)
    }))
}

/// Runs `move MOVEMENT`, `kill MOVEMENT MOVEMENT`, `insert CHARACTER`, `text TEXT`, `set TEXT`, `clear`, `inserts
/// COUNT CHARACTER` or `texts COUNT TEXT`. Returns whether one of the last two failed.
fn edit(buffer: &mut LineEditBuffer, command: &str) -> Result<&'static str, Fail> {
    let (word, rest) = command.split_once(' ').unwrap_or((command, ""));
    match word {
        "move" => buffer.exec_movement(movement_of(rest)?),
        "kill" => {
            let (kill, movement) = rest.split_once(' ').ok_or("no movement")?;
            buffer.kill_text(movement_of(kill)?, movement_of(movement)?);
        }
        "insert" => buffer.insert_char(rest.chars().next().ok_or("no character")?)?,
        "text" => buffer.insert_text(rest)?,
        "inserts" | "texts" => return insert_times(buffer, word, rest),
        "set" if rest.is_char_boundary(rest.len()) => {
            buffer.set_line_and_cursor(rest, rest.len())?;
        }
        "clear" => buffer.clear(),
        _ => return Err(Fail::from("no such edit")),
    }
    Ok("")
}

/// Edits a line by commands and returns it, with a `|` at the cursor. Answers come first: `steps` for the cursors one
/// step ahead and one back, `find` for the index of the cursor, `comparisons` for the cost of finding it, failed
/// edits.
fn edited(alloc: Global, commands: &str) -> Result<String, Fail> {
    let (line, commands) = commands.split_once("; ").ok_or("no command")?;
    let (before, after) = line.split_once('|').ok_or("no cursor")?;
    let mut buffer = LineEditBuffer::new(alloc, after, 0)?;
    buffer.insert_text(before)?;
    let mut output = String::new(alloc);
    for command in commands.split("; ") {
        match command {
            "steps" => {
                let (ahead, back) = steps_from(alloc, &buffer)?;
                write!(output, "{ahead} {back} ")?;
            }
            "find" => write!(output, "{} ", buffer.find_cursor().0)?,
            "comparisons" => write!(output, "{} ", buffer.find_cursor().1)?,
            _ => output.push_str(edit(&mut buffer, command)?)?,
        }
    }
    let cursor = buffer.get_cursor();
    let line = buffer.get_line();
    write!(output, "{}|{}", &line[..cursor], &line[cursor..])?;
    Ok(output)
}

const LINES: &str = r"
// steps over words go by whitespace
a b|; move word_back:0 => a b|
a b|; move word_back:1 => a |b
a b|; move word_back:2 => |a b
a|; move word_back:1 => |a
foo |; move word_back:1 => |foo\u{20}
foo  |; move word_back:1 => foo |\u{20}
hello world|; move word_back:1 => hello |world
foo  bar|; move word_back:1 => foo  |bar
foo  bar|; move word_back:2 => foo | bar
foo  bar|; move word_back:3 => |foo  bar
|foo  bar; move word_ahead:1 => foo  |bar
f|oo  bar; move word_ahead:2 => foo  bar|
|  foo; move word_ahead:1 =>   |foo
x\u{3000}yz|; move word_back:1 => x\u{3000}|yz
|x\u{3000}yz; move word_ahead:1 => x\u{3000}|yz
|; move word_back:1 => |
|; move word_ahead:1 => |

// one step ahead and one step back, by the rules of Unicode's legacy grapheme clusters, which know no spacing marks,
// no prepended characters and no conjuncts
// a combining mark
|a\u{301}b; steps => 3 0 |a\u{301}b
a|\u{301}b; steps => 3 0 a|\u{301}b
a\u{301}|b; steps => 4 0 a\u{301}|b
a\u{301}b|; steps => 4 3 a\u{301}b|
// wide characters
\u{4e00}|\u{4e8c}; steps => 6 0 \u{4e00}|\u{4e8c}
// two flags, and half a flag more
\u{1f1e9}|\u{1f1ea}\u{1f1eb}\u{1f1f7}; steps => 8 0 \u{1f1e9}|\u{1f1ea}\u{1f1eb}\u{1f1f7}
\u{1f1e9}\u{1f1ea}|\u{1f1eb}\u{1f1f7}; steps => 16 0 \u{1f1e9}\u{1f1ea}|\u{1f1eb}\u{1f1f7}
\u{1f1e9}\u{1f1ea}\u{1f1eb}|; steps => 12 8 \u{1f1e9}\u{1f1ea}\u{1f1eb}|
// emoji with a joiner and with a modifier, and a joiner between letters
|\u{1f468}\u{200d}\u{1f469}; steps => 11 0 |\u{1f468}\u{200d}\u{1f469}
\u{1f468}\u{200d}|\u{1f469}; steps => 11 0 \u{1f468}\u{200d}|\u{1f469}
\u{1f44d}\u{1f3fd}|; steps => 8 0 \u{1f44d}\u{1f3fd}|
a\u{200d}|b; steps => 5 0 a\u{200d}|b
// line ends
\r|\nb; steps => 2 0 \r|\nb
\n|\r; steps => 2 0 \n|\r
// Hangul, as conjoining letters and as syllables
\u{1112}|\u{1161}\u{11ab}; steps => 9 0 \u{1112}|\u{1161}\u{11ab}
\u{d55c}|\u{ae00}; steps => 6 0 \u{d55c}|\u{ae00}
// a spacing mark, a prepended character and a conjunct
|\u{915}\u{93e}; steps => 3 0 |\u{915}\u{93e}
\u{915}\u{93e}|; steps => 6 3 \u{915}\u{93e}|
|\u{600}a; steps => 2 0 |\u{600}a
\u{915}\u{94d}|\u{937}; steps => 9 0 \u{915}\u{94d}|\u{937}

// every count returns
abc| def; move ahead:18446744073709551615 => abc def|
abc| def; move back:18446744073709551615 => |abc def
abc| def; move word_ahead:18446744073709551615 => abc def|
abc| def; move word_back:18446744073709551615 => |abc def
abc| def; move ahead:0 => abc| def
abc| def; move back:0 => abc| def
abc| def; move word_ahead:0 => abc| def
abc| def; move word_back:0 => abc| def

// ends of the line
|\u{e9}; move end => \u{e9}|
a\u{e9}|; move start => |a\u{e9}
a|\u{e9}b; move none => a|\u{e9}b

// kills, which clamp the cursor to a boundary
|a\u{e9}b; kill ahead:1 ahead:1 => |\u{e9}b
|abc; kill ahead:1 ahead:1 => b|c
a|bc; kill ahead:1 none => a|c
he|llo; kill end end => he|
hello| world; kill word_back:1 none =>  worl|d
hello| world; kill word_back:1 word_back:1 => | world
a b|; kill word_back:1 word_back:1 => a |
xe|\u{301}b; kill back:1 none => x|\u{301}b

// a character is inserted into its cluster
|\u{301}; insert e => e\u{301}|
a|b; insert \u{301} => a\u{301}|b
|\u{1f1ea}; insert \u{1f1e9} => \u{1f1e9}\u{1f1ea}|
|\n; insert \r => \r\n|

// a text is inserted before the cursor
|\u{301}; text e => e|\u{301}

// insertions that are repeated
|\u{301}; inserts 2 e => e\u{301}e|
|\u{301}; inserts 2 e; texts 3 xy => e\u{301}exyxyxy|

// regional indicators pair up: each one is inserted after the flag that the one before made with what stood there
\u{1f1e9}\u{1f1ea}|\u{1f1eb}\u{1f1f7}; inserts 3 \u{1f1e6} => \u{1f1e9}\u{1f1ea}\u{1f1e6}\u{1f1eb}\u{1f1e6}\u{1f1f7}\u{1f1e6}|
\u{1f1e9}|\u{1f1ea}\u{1f1eb}\u{1f1f7}; inserts 2 \u{1f1e6} => \u{1f1e9}\u{1f1e6}\u{1f1e6}\u{1f1ea}|\u{1f1eb}\u{1f1f7}
\u{1f1e9}\u{1f1ea}\u{1f1eb}\u{1f1f7}|; inserts 2 \u{1f1e6} => \u{1f1e9}\u{1f1ea}\u{1f1eb}\u{1f1f7}\u{1f1e6}\u{1f1e6}|

// insertions of nothing
a|b; inserts 0 x; texts 0 xy; texts 18446744073709551615  => a|b

// insertions that cannot be held
a|b; texts 18446744073709551615 xy => refused a|b
a|b; texts 9223372036854775807 x => refused a|b
a|b; inserts 18446744073709551615 x => refused a|b
a|b; inserts 9223372036854775807 \u{e9} => refused a|b

// a line is replaced and cleared
|; find; comparisons => 0 0 |
|; set a\u{e9} => a\u{e9}|
|; set a\u{e9}; clear => |

// the index of the cursor is found after each edit
|; find; comparisons; text a\u{e9}\u{20ac}; find => 0 0 3 a\u{e9}\u{20ac}|
a\u{e9}\u{20ac}|; move back:2; inserts 2 \u{1f600}; find; texts 2 x\u{e9}; find; kill back:3 back:3; find => 3 7 4 a\u{1f600}\u{1f600}x|\u{e9}\u{20ac}
|; set \u{e9}; find; comparisons; clear; find; comparisons => 1 1 0 0 |
a|\u{e9}; find => 1 a|\u{e9}
a\u{e9}|; find => 2 a\u{e9}|
e|\u{301}b; find => 1 e|\u{301}b
";

#[test]
fn lines_are_edited(rt: HostRuntime) -> Result<(), Fail> {
    expect_rows(rt.alloc(), LINES, edited)
}
