//! Actions on a line that is set, and candidates. A request for memory that is refused leaves mode, index, typed line
//! and cycle as they were: the later actions of a case come to the same.

use crate::support::play;
use std::alloc::Global;
use std::test::Fail;
use test_cases::{ResolvingHost, events_named, expect_cases, mark};
use tw_lineedit::{Action, LineEditBuffer, LineEditorHost, default_action};

const ACTIONS: &str = "\
line 3 a b
do Kill BackwardWord 1
line 0 abc
do Kill ForwardChar 1
line 1 abc
do KillAndMove ForwardChar 1, None
line 1 abc
do Move ForwardChar 18446744073709551615
line 0 \u{e9}
do Move EndOfLine
line 1 ab
do NoAction
--
\"a \" at 2
\"bc\" at 1
\"ac\" at 1
\"abc\" at 3
\"\u{e9}\" at 2
\"ab\" at 1
==
# all insertions are made or none, so a count that no memory holds is refused at once
line 1 ab
do InsertText 18446744073709551615 
do InsertText 18446744073709551615 xy
do InsertText 0 xy
do InsertText 3 xy
line 1 ab
do InsertChar 18446744073709551615 !
do InsertChar 9 !
line 1 ab
do InsertChar 2 !
--
\"ab\" at 1
refusal 6, \"ab\" at 1
\"ab\" at 1
\"axyxyxyb\" at 7
refusal 6, \"ab\" at 1
\"a!!!!!!!!!b\" at 10
\"a!!b\" at 3
==
# a refused line leaves the one before it, and a refused prompt is set again
line 2 \u{e9}
set 5 hello world
do NoAction
ask $ 
read
--
\"hello world\" at 5
Some(\"\")
==
# end of file leaves the line
line 1 ab
do EndOfFile
--
refusal 1, \"ab\" at 1
==
# without candidates
host plain
line 0 abc
do Complete
line 1 abc
do Complete
line 3 abc
do Complete
line 2 \u{e9}bc
do Complete
line 4 a\u{6f22}c
do Complete
line 3 e\u{301}c
do Complete
--
\"abc\" at 0
\"abc\" at 1
\"abc\" at 3
\"\u{e9}bc\" at 2
\"a\u{6f22}c\" at 4
\"e\\u{301}c\" at 3
==
# requests in a row go round the candidates
cand 0 1 foo
cand 0 1 far
actions f Tab Tab Tab
--
\"foo\" at 3
==
history bc
cand 0 1 foo
cand 0 1 far
actions C-R Tab Tab Left Tab
--
\"fooarc\" at 3
==
# without memory no candidate is put in
cand 4 6 hello
line 6 why he
do Complete
--
\"why hello\" at 9
==
# a candidate that does not fit leaves the one before it, until another action ends the round
cand 0 1 foo
cand 0 9 x
line 1 f
do Complete
do Complete
do Complete
do Move None
do Complete
--
\"foo\" at 3
refusal 5, \"foo\" at 3
refusal 5, \"foo\" at 3
\"foo\" at 3
\"foooo\" at 5
==
# a refused candidate keeps the search
history ab
cand 0 9 x
act C-R
do Complete
do AcceptLine
--
refusal 5, \"\" at 0
\"ab\" at 0
==
# searches, and actions that leave them
actions a b C-R
--
\"\" at 0
==
actions a b Left C-S c
--
\"c\" at 1
==
history git log
history ls
actions C-R o
--
\"o\" at 1
==
history git log
history ls
actions C-R o Left
--
\"git log\" at 4
==
history git log
history ls
history git push
actions C-R g i C-W
--
\"\" at 0
==
history git log
history ls
history git push
actions C-R g i C-W Enter
--
\"git push\" at 0
==
history git log
history ls
actions C-R g C-C
--
\"g\" at 1
==
history git log
history ls
history git push
actions C-S g C-R C-S C-S Enter
--
\"git push\" at 0
==
history git log
history ls
actions C-R g Delete Backspace C-C
--
\"\" at 0
==
# a kill takes memory only while searching
history ab
history b
act C-R paste:ab
do Kill BackwardChar 1
act Enter
do NoAction
--
\"a\" at 1
\"ab\" at 0
==
# keys edit the line, and steps give the typed line back
actions a b Left C-L X paste:yz C-E C-H
--
\"aXyz\" at 4
==
history one
history two
actions x Up Up Down Down
--
\"x\" at 1
==
history one
history two
actions x Up Up a Down Down
--
\"x\" at 1
==
";

#[test]
fn actions_refused_in_turn(rt: HostRuntime) -> Result<(), Fail> {
    expect_cases(rt.alloc(), ACTIONS, play)
}

/// Completes each line `CURSOR TEXT; START END CANDIDATE`.
fn play_completions(alloc: Global, lines: &str) -> Result<String, Fail> {
    let mut all = String::new(alloc);
    for line in lines.lines() {
        let (line, candidate) = line.split_once("; ").ok_or("no candidate")?;
        let case = format!(in alloc; "cand {candidate}\nline {line}\ndo Complete\n")?;
        all.push_str(play(alloc, case.as_str())?.as_str())?;
    }
    Ok(all)
}

/// A candidate misfits whose range ends after the line, is reversed or cuts a character, or after which the cursor
/// would come before the line or into a character.
const CANDIDATES: &str = "\
6 why he; 4 6 hello
0 ab; 0 2 
0 ab; 2 1 x
0 a; 1 1 xy
0 a; 1 1 \u{e9}
0 \u{e9}; 1 2 e
3 abc; 0 3 
0 ab; 0 2 \u{e9}
2 \u{e9}a; 0 0 \u{e9}
1 a\u{4e00}b; 1 4 \u{e9}
--
\"why hello\" at 9
refusal 5, \"ab\" at 0
refusal 5, \"ab\" at 0
\"axy\" at 2
refusal 5, \"a\" at 0
refusal 5, \"\u{e9}\" at 0
\"\" at 0
\"\u{e9}\" at 0
\"\u{e9}\u{e9}a\" at 4
\"a\u{e9}b\" at 0
==
1 ab; 3 3 x
1 ab; 1 3 x
1 ab; 0 18446744073709551615 x
1 ab; 18446744073709551615 18446744073709551615 x
1 ab; 18446744073709551615 0 x
2 ab; 1 0 x
0 \u{e9}; 0 1 e
4 \u{e9}\u{e9}; 1 3 x
4 a\u{4e00}; 1 3 x
1 abc; 0 3 
0 a\u{e9}; 0 1 
1 ab; 0 2 \u{e9}
0 \u{e9}; 2 2 x
3 \u{e9}ab; 2 4 
--
refusal 5, \"ab\" at 1
refusal 5, \"ab\" at 1
refusal 5, \"ab\" at 1
refusal 5, \"ab\" at 1
refusal 5, \"ab\" at 1
refusal 5, \"ab\" at 2
refusal 5, \"\u{e9}\" at 0
refusal 5, \"\u{e9}\u{e9}\" at 4
refusal 5, \"a\u{4e00}\" at 4
refusal 5, \"abc\" at 1
refusal 5, \"a\u{e9}\" at 0
refusal 5, \"ab\" at 1
refusal 5, \"\u{e9}\" at 0
refusal 5, \"\u{e9}ab\" at 3
==
";

#[test]
fn a_candidate_is_put_in_if_it_fits(rt: HostRuntime) -> Result<(), Fail> {
    expect_cases(rt.alloc(), CANDIDATES, play_completions)
}

/// What the key table and a host make of an event. A refused resolution leaves the line and its cursor.
#[test]
fn actions_are_made_refused_in_turn(rt: HostRuntime) -> Result<(), Fail> {
    let alloc = rt.alloc();
    let mut host = ResolvingHost::new(alloc);
    let mut line = LineEditBuffer::new(alloc, "ab", 1)?;
    let events = events_named(alloc, "paste:g F1")?;
    for event in &events {
        mark(alloc)?;
        let made = default_action(alloc, event);
        let resolved = host.resolve_action(alloc, event, &mut line);
        mark(alloc)?;
        if resolved.is_err() {
            assert_eq!(rt; (line.get_line(), line.get_cursor()), ("ab", 1));
            let _ = host.resolve_action(alloc, event, &mut line)?;
        }
        let made = made.or_else(|_| default_action(alloc, event))?;
        assert!(rt; made.is_none() || is_insertion_of(&made, "g"));
    }
    assert_eq!(rt; (line.get_line(), line.get_cursor()), ("clear", 5));
    Ok(())
}

fn is_insertion_of(action: &Option<Action>, wanted: &str) -> bool {
    match action {
        Some(Action::InsertText(1, text)) => text.as_str() == wanted,
        _ => false,
    }
}
