//! Long lines, wide prompts, long histories, and hosts with many candidates or elements.

ghost use Rattle.std.specs.Prelude.{map, string_bytes, refl};
ghost use Rattle.test_editor.specs.PiecesHost.{Pieces, pieces_rules, preview_override, pieces_is_plain};

use crate::support::play_with;
use std::alloc::{AllocError, Global};
use std::test::Fail;
use test_cases::{case_of, expanded, expect_cases, terminal_of, told_of};
use tw_lineedit::{
    BasicHistory, History, LineEditBuffer, LineEditor, LineEditorHost, OutputElement, Overrides,
};

/// Plays a case over the host of a script.
fn play(alloc: Global, lines: &str) -> Result<String, Fail> {
    let case = case_of(alloc, lines)?;
    play_with(alloc, &case, BasicHistory::new(alloc))
}

/// Characters of many kinds, and how often each is repeated.
const KINDS: &str = "\
100000|a
2000|\u{e9}
2000|\u{6f22}
1000|\u{1f1e9}\u{1f1ea}
1000|a\u{301}
2000|\u{301}
1000|\u{1f469}\u{200d}
1000|\u{915}\u{94d}
2000|\u{1100}
";

/// Returns the cases of the word of `COUNT|PIECE`.
fn cases_of_word(alloc: Global, kind: &str) -> Result<String, Fail> {
    let (count, piece) = kind.split_once('|').ok_or("no count")?;
    let word = piece.repeat(alloc, count.parse()?)?;
    Ok(format!(in alloc;
        "initial {word}\nevents Home Right Right Left End Left A-b A-f Enter\n--\nSome({word:?})\n==\n\
        initial {word}\nevents C-W\n--\nSome(\"\")\n==\n\
        initial {word}\nevents Home C-K X\n--\nSome(\"X\")\n==\n"
    )?)
}

/// Movements leave the line, and a line without a space is one word.
#[test]
fn long_lines_of_one_word_are_moved_through_and_killed(rt: HostRuntime) -> Result<(), Fail> {
    for kind in KINDS.lines() {
        let cases = cases_of_word(rt.alloc(), kind)?;
        expect_cases(rt.alloc(), cases.as_str(), play)?;
    }
    Ok(())
}

const LONG: &str = "\
initial {100000|\u{6f22}}
--
Some(\"{100000|\u{6f22}}\")
==
# the last of many words is killed
initial {33333|ab }
events C-W Enter
--
Some(\"{33332|ab }\")
==
# a long text is pasted before and after a long line
events paste:{50000|xy} Home paste:{50000|xy} Right Enter paste:{50000|xy}
--
Some(\"{100000|xy}\")
==
# a hundred rows of prompt, and the line in the row below them
size 24 10
prompt {1000|p}
events a b C-L c
show screen
--
Some(\"abc\")
..
screen {100||pppppppppp}|abc       |
cursor 100 3
end 101 0
==
# thousands of candidates come in in turn
{3000|cand 0 1 c#
}initial fx
readings 3
events Left Tab Enter Left {3000|Tab }Enter Left {3002|Tab }Enter
--
Some(\"c0x\"), Some(\"c2999x\"), Some(\"c1x\")
==
# a history of a hundred thousand lines is searched and walked through
{100000|history line #
}initial x
readings 5
events C-R 9 9 9 5 0 Enter C-R n e z Enter C-R paste:50000 C-S C-S C-S Enter {1000|Up }Enter {1000|Up }{1000|Down }
--
Some(\"line 99950\"), Some(\"line 99999\"), Some(\"line 50000\"), Some(\"line 99000\"), Some(\"x\")
==
";

#[test]
fn long_lines_prompts_histories_and_lists_are_read(rt: HostRuntime) -> Result<(), Fail> {
    let cases = expanded(rt.alloc(), LONG)?;
    expect_cases(rt.alloc(), cases.as_str(), play)
}

/// Returns true if a text of `count` letters is kept as a line and its copy, as a prompt and as a line of a history.
fn is_kept(alloc: Global, count: usize) -> Result<bool, Fail> {
    let text = "x".repeat(alloc, count)?;
    let copy = LineEditBuffer::new(alloc, text.as_str(), 0)?.try_clone(alloc)?;
    let mut terminal = terminal_of(alloc, 80, "")?;
    let mut editor = LineEditor::new(alloc, &mut terminal)?;
    editor.set_prompt(text.as_str())?;
    let mut history = BasicHistory::new(alloc);
    history.add(text.as_str())?;
    let is_added = match history.get(alloc, 0)? {
        Some(line) => line.as_str() == text.as_str(),
        None => false,
    };
    Ok(is_added && copy.get_line() == text.as_str())
}

#[test]
fn texts_of_all_lengths_are_kept(rt: HostRuntime) -> Result<(), Fail> {
    for &count in &[0usize, 1, 255, 256, 4_096, 4_097, 65_536, 1_000_000] {
        assert!(rt; is_kept(rt.alloc(), count)?);
    }
    Ok(())
}

/// A host whose preview is a list of texts.
#[derive(Drop)]
struct PiecesHost {
    history: BasicHistory,
    pieces: Vec<String>,
}

impl LineEditorHost for PiecesHost {
    type Hist = BasicHistory;

    ghost Value = { Pieces };

    ghost value = { λ host. record { lines = host.history; pieces = map string_bytes host.pieces.items } };

    ghost rules = { pieces_rules };

    ghost history_of = { λ host. host.history };

    ghost with_history = { λ host history. record host { history = history } };

    ghost OVERRIDES = { preview_override };

    const OVERRIDES: Overrides = Overrides {
        render_preview: true,
        ..Overrides::NONE
    };

    fn history(&mut self) -> &mut BasicHistory {
        &mut self.history
    }

    fn render_preview(&self, alloc: Global, _line: &str) -> Result<Vec<OutputElement>, AllocError> {
        let mut elements = Vec::new(alloc);
        for piece in &self.pieces {
            elements.push(OutputElement::text(alloc, piece.as_str())?)?;
        }
        Ok(elements)
    }

    ghost plain_answers = { pieces_is_plain };

    ghost history_put_back = { λ host. refl };

    ghost held_put = { λ host history. refl };

    ghost held_lines = { λ host. refl };
}

/// Returns three thousand texts of three characters.
fn many_pieces(alloc: Global) -> Result<Vec<String>, AllocError> {
    let mut pieces = Vec::new(alloc);
    for _ in 0..3_000 {
        pieces.push(String::from_str(alloc, "ab ")?)?;
    }
    Ok(pieces)
}

/// Plays a case over a host with a preview of three thousand texts.
fn play_pieces(alloc: Global, lines: &str) -> Result<String, Fail> {
    let case = case_of(alloc, lines)?;
    let pieces = many_pieces(alloc)?;
    let history = BasicHistory::new(alloc);
    told_of(alloc, &case, &mut PiecesHost { history, pieces })
}

/// The preview fills nine hundred rows of ten columns.
const PIECES: &str = "\
size 24 10
events x
show screen
--
Some(\"x\")
..
Text(\"ab \"), Text(\"ab \"), CP(R(-7), R(-900))
cursor 0 3
end 901 0
==
";

#[test]
fn a_preview_of_thousands_of_elements_is_shown(rt: HostRuntime) -> Result<(), Fail> {
    expect_cases(rt.alloc(), PIECES, play_pieces)
}
