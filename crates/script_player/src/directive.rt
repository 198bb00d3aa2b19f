//! What the lines of a script ask for.

ghost use Rattle.std.specs.Prelude.{◌≡◌, ℕ, IfSome, IsSome, MatchOption, IsUtf8};
ghost use Rattle.script_player.specs.Directives.{IsDirective, IsLineOf, IsRangeAndText, behind_word, first_word};

use crate::keys::key_named;
use crate::number::parse_number;
use std::ops::Range;
use tw_input::KeyEvent;

/// What a line of a script asks for.
#[derive(Drop)]
pub enum Directive<'a> {
    /// So many columns from now on, and a new screen.
    Cols(usize),
    /// The prompt from now on.
    Prompt(&'a str),
    /// The preview from now on, its rows parted by `\n`, and none where the text is empty.
    Preview(&'a str),
    /// One more line of the history.
    History(&'a str),
    /// One more candidate, which the host answers to every request.
    Candidate(Range<usize>, &'a str),
    /// A key for each character of the text.
    Type(&'a str),
    /// The text, pasted.
    Paste(&'a str),
    /// A key.
    Key(KeyEvent),
    /// A line is read from the events given since the last one.
    Read,
}

/// Returns the directive on a line, which is a word, or a word, a space and a text that goes to the line's end. None
/// where the line is no directive, or is not UTF-8.
pub fn parse_line(line: &[u8]) -> Option<Directive<'_>>
    ensures named { IfSome result (IsLineOf line.now) }
    ensures utf8 { IsSome result → IsUtf8 line.now }
    ensures found { IsDirective line.now → IsSome result }
{
    parse_text(std::str::from_utf8(line).ok()?)
}

/// Returns the directive on a line of text.
fn parse_text(line: &str) -> Option<Directive<'_>>
    ensures { MatchOption result (¬ (IsDirective line.now)) (IsLineOf line.now) }
{
    let (word, text) = split_word(line);
    match word {
        "cols" => Some(Directive::Cols(parse_number(text)?)),
        "prompt" => Some(Directive::Prompt(text)),
        "preview" => Some(Directive::Preview(text)),
        "history" => Some(Directive::History(text)),
        "cand" => {
            let (range, text) = parse_candidate(text)?;
            Some(Directive::Candidate(range, text))
        }
        "type" => Some(Directive::Type(text)),
        "paste" => Some(Directive::Paste(text)),
        "key" => Some(Directive::Key(key_named(text)?)),
        "read" if line == "read" => Some(Directive::Read),
        _ => None,
    }
}

/// Returns the range and the text of a candidate: two numbers and the text, which may be left out with its space.
fn parse_candidate(text: &str) -> Option<(Range<usize>, &str)>
    ensures named { IfSome result
        (λ candidate. IsRangeAndText text.now candidate.0.start candidate.0.end candidate.1.now) }
    ensures found { (start end : ℕ) →
        IsRangeAndText text.now start end (behind_word (behind_word text.now)) → IsSome result }
{
    let (start, rest) = split_word(text);
    let (end, text) = split_word(rest);
    Some((parse_number(start)?..parse_number(end)?, text))
}

/// Returns the word that a line begins with, and the text after the space that follows it. Without a space the whole
/// line is the word, and the text is empty.
fn split_word(line: &str) -> (&str, &str)
    ensures word { result.0.now ≡ first_word line.now }
    ensures text { result.1.now ≡ behind_word line.now }
{
    match line.split_once(' ') {
        Some(parts) => parts,
        None => (line, ""),
    }
}
