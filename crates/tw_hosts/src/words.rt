//! Words of a line, and what completes the one before the cursor.

ghost use Rattle.std.specs.Prelude.{◌≡◌, ◌≤◌, IfOk, IsCharBoundary, length, map};
ghost use Rattle.tw_host.specs.CandidateView.{candidate_view};
ghost use Rattle.tw_line.specs.Cut.{cut_at};
ghost use Rattle.tw_hosts.specs.Words.{begins_in, word_completions, words_from, after_word, before_word, begun_part, end_row, is_delimiter, is_known, last_word, leading_word, texts_of, word_end, word_start};

use std::alloc::{AllocError, Global};
use tw_host::CompletionCandidate;

/// Returns true if a word is one of these.
pub fn is_known(words: &[String], word: &str) -> bool
    ensures { result ≡ is_known (texts_of words.now) word.now }
{
    for known in words {
        if known.as_str() == word {
            return true;
        }
    }
    false
}

/// Returns true if a byte is one of these delimiters, and one of ASCII.
fn is_delimiter(delimiters: &str, byte: u8) -> bool
    ensures { result ≡ is_delimiter delimiters.now byte }
{
    byte.is_ascii() && delimiters.as_bytes().contains(&byte)
}

/// Returns how many bytes stand before the first delimiter, or how many there are if none is one.
pub fn word_end(delimiters: &str, text: &[u8]) -> usize
    ensures value { result ≡ word_end delimiters.now text.now }
    ensures within { result ≤ length text.now }
{
    let end = text.iter().position(|byte| is_delimiter(delimiters, *byte));
    end.unwrap_or(text.len())
}

/// Returns what stands before the first space of a text, or all of it if it has none, and what follows it.
#[tactic(auto, using(crate::proofs::WordLemmas::end_boundary, std::proofs::lemmas::Grind::common_steps))]
pub fn split_first_word(text: &str) -> (&str, &str)
    ensures word { result.0.now ≡ leading_word text.now }
    ensures rest { result.1.now ≡ after_word text.now }
{
    text.split_at(word_end(" ", text.as_bytes()))
}

/// Returns what stands before the first space of a text, or all of it if it has none.
pub fn first_word(text: &str) -> &str
    ensures { result.now ≡ leading_word text.now }
{
    split_first_word(text).0
}

/// Returns where the last word of a text begins: after the last delimiter.
fn word_start(delimiters: &str, text: &str) -> usize
    ensures value { result ≡ word_start delimiters.now text.now }
    ensures boundary { IsCharBoundary text.now result }
{
    let bytes = text.as_bytes();
    let word = bytes
        .iter()
        .rev()
        .position(|byte| is_delimiter(delimiters, *byte));
    bytes.len() - word.unwrap_or(bytes.len())
}

/// Splits a text before its last word, which begins after the last of these delimiters.
pub fn split_begun<'text>(delimiters: &str, text: &'text str) -> (&'text str, &'text str)
    ensures before { result.0.now ≡ before_word delimiters.now text.now }
    ensures word { result.1.now ≡ begun_part delimiters.now text.now }
{
    text.split_at(word_start(delimiters, text))
}

/// Returns what stands after the last space of a text, or all of it if it has none.
pub fn last_word(text: &str) -> &str
    ensures value { result.now ≡ last_word text.now }
    ensures length { length result.now ≤ length text.now }
{
    split_begun(" ", text).1
}

/// Returns what stands after the last line feed of a text, or all of it if it has none.
pub fn end_row(text: &str) -> &str
    ensures { result.now ≡ end_row text.now }
{
    split_begun("\n", text).1
}

/// Returns true if a word begins with a text. With `ignores_case`, the case of ASCII letters does not count.
#[tactic(auto, using(std::proofs::lemmas::Grind::common_steps, std::proofs::lemmas::Str::Pattern::starts_text))]
fn begins_in(ignores_case: bool, text: &str, word: &str) -> bool
    ensures { result ≡ begins_in ignores_case text.now word.now }
{
    if !ignores_case {
        return word.starts_with(text);
    }
    let text = text.as_bytes();
    let word = word.as_bytes();
    text.len() <= word.len() && text.eq_ignore_ascii_case(&word[..text.len()])
}

/// Returns those of the words that begin with a text, in their order, each in place of the bytes that the text has
/// before a cursor. With `ignores_case`, the case of ASCII letters does not count.
pub fn words_from(
    alloc: Global,
    words: &[String],
    ignores_case: bool,
    text: &str,
    cursor: usize,
) -> Result<Vec<CompletionCandidate>, AllocError>
    ensures { IfOk result (λ candidates. map candidate_view candidates.items
        ≡ words_from ignores_case (texts_of words.now) text.now cursor) }
{
    let start = cursor.saturating_sub(text.len());
    let mut candidates = Vec::new(alloc);
    for word in words {
        if begins_in(ignores_case, text, word.as_str()) {
            candidates.push(CompletionCandidate {
                range: start..cursor,
                text: word.clone()?,
            })?;
        }
    }
    Ok(candidates)
}

/// Returns the candidates for the word before a cursor, which is a boundary of the line: those of the words that begin
/// with it, in their order, each in its place.
pub fn complete_word(
    alloc: Global,
    words: &[String],
    line: &str,
    cursor: usize,
) -> Result<Vec<CompletionCandidate>, AllocError>
    requires { IsCharBoundary line.now cursor }
    ensures { IfOk result (λ candidates. map candidate_view candidates.items
        ≡ word_completions (texts_of words.now) (cut_at line.now cursor)) }
{
    words_from(alloc, words, false, last_word(&line[..cursor]), cursor)
}
