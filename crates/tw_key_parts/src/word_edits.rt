//! Edits of the words and the characters around the cursor.

ghost use Rattle.std.specs.Prelude.{◌≡◌, IfOk, string_bytes, IsCharBoundary, option_map, take};
ghost use Rattle.tw_key_parts.specs.WordEdits.{passed_text, in_case, with_word_in, swapping_place, with_swapped_clusters, after_words, before_last_word, final_word, past_word, swapped_words, with_swapped_words};
ghost use Rattle.tw_key_parts.specs.declared.word_edits.WordCase.TheVariants.{Capitalized};
ghost use Rattle.std.specs.Str.{trim_end};

use std::alloc::{AllocError, Global};
use tw_line::{LineEditBuffer, Movement};

/// Returns the text between the cursor and the place where a movement leads.
pub fn passed_text(
    alloc: Global,
    editor: &LineEditBuffer,
    movement: Movement,
) -> Result<String, AllocError>
    ensures { IfOk result (λ text. string_bytes text ≡ passed_text movement editor.now) }
{
    let mut moved = editor.try_clone(alloc)?;
    moved.exec_movement(movement);
    let (from, to) = (editor.get_cursor(), moved.get_cursor());
    String::from_str(alloc, &editor.get_line()[from.min(to)..from.max(to)])
}

/// How a word is written.
#[derive(Clone, Copy, Debug, PartialEq, Eq)]
pub enum WordCase {
    /// In upper case.
    Upper,
    /// In lower case.
    Lower,
    /// Its first grapheme cluster in upper case, and the rest in lower case.
    Capitalized,
}

/// Returns a text with its first grapheme cluster in upper case and the rest in lower case.
#[tactic(auto, using(crate::proofs::StepLemmas::text_starts))]
fn capitalized(alloc: Global, text: &str) -> Result<String, AllocError>
    ensures { IfOk result (λ written. string_bytes written ≡ in_case Capitalized text.now) }
{
    let mut editor = LineEditBuffer::new(alloc, text, 0)?;
    editor.exec_movement(Movement::ForwardChar(1));
    let (first, rest) = editor.get_line().split_at(editor.get_cursor());
    let mut written = first.to_uppercase(alloc)?;
    written.push_str(rest.to_lowercase(alloc)?.as_str())?;
    Ok(written)
}

/// Returns a text in a case, as Unicode maps its characters.
pub fn in_case(alloc: Global, case: WordCase, text: &str) -> Result<String, AllocError>
    ensures { IfOk result (λ written. string_bytes written ≡ in_case case text.now) }
{
    match case {
        WordCase::Upper => text.to_uppercase(alloc),
        WordCase::Lower => text.to_lowercase(alloc),
        WordCase::Capitalized => capitalized(alloc, text),
    }
}

/// Returns the line with the text from the cursor to the end of the next word in a case, and the cursor after it. Words
/// are the editor's: they end at whitespace, which belongs to the word before it.
pub fn with_word_in(
    alloc: Global,
    case: WordCase,
    editor: &LineEditBuffer,
) -> Result<LineEditBuffer, AllocError>
    ensures { IfOk result (λ changed. changed ≡ with_word_in case editor.now) }
{
    let word = passed_text(alloc, editor, Movement::ForwardWord(1))?;
    let written = in_case(alloc, case, word.as_str())?;
    let mut changed = editor.try_clone(alloc)?;
    changed.kill_text(Movement::ForwardWord(1), Movement::None);
    changed.insert_text(written.as_str())?;
    Ok(changed)
}

/// Returns the line with the cursor where clusters are swapped: before the last cluster at the end of the line, else
/// where it is.
fn swapping_place(alloc: Global, editor: &LineEditBuffer) -> Result<LineEditBuffer, AllocError>
    ensures { IfOk result (λ place. place ≡ swapping_place editor.now) }
{
    let mut place = editor.try_clone(alloc)?;
    if editor.get_cursor() == editor.get_line().len() {
        place.exec_movement(Movement::BackwardChar(1));
    }
    Ok(place)
}

/// Returns the line with the grapheme clusters around the cursor swapped, at its end the last two, and the cursor after
/// both. Without a cluster before the cursor it is as it was.
pub fn with_swapped_clusters(
    alloc: Global,
    editor: &LineEditBuffer,
) -> Result<LineEditBuffer, AllocError>
    ensures { IfOk result (λ changed. changed ≡ with_swapped_clusters editor.now) }
{
    let mut changed = swapping_place(alloc, editor)?;
    if changed.get_cursor() == 0 {
        return editor.try_clone(alloc);
    }
    let cluster = passed_text(alloc, &changed, Movement::BackwardChar(1))?;
    changed.kill_text(Movement::BackwardChar(1), Movement::BackwardChar(1));
    changed.exec_movement(Movement::ForwardChar(1));
    changed.insert_text(cluster.as_str())?;
    Ok(changed)
}

/// Splits a line after the last word before an offset.
fn split_words(line: &str, end: usize) -> (&str, &str)
    requires { IsCharBoundary line.now end }
    ensures words { result.0.now ≡ trim_end (take end line.now) }
    ensures rest { result.1.now ≡ after_words end line.now }
{
    let (front, _) = line.split_at(end);
    line.split_at(front.trim_end().len())
}

/// Splits a text that does not end in whitespace before its last word.
fn split_last_word(alloc: Global, text: &str) -> Result<(String, String), AllocError>
    ensures before { IfOk result (λ parts. string_bytes parts.0 ≡ before_last_word text.now) }
    ensures word { IfOk result (λ parts. string_bytes parts.1 ≡ final_word text.now) }
{
    let mut editor = LineEditBuffer::new(alloc, text, text.len())?;
    editor.exec_movement(Movement::BackwardWord(1));
    let (before, word) = editor.get_line().split_at(editor.get_cursor());
    Ok((
        String::from_str(alloc, before)?,
        String::from_str(alloc, word)?,
    ))
}

/// Returns a text that does not end in whitespace with its last two words swapped, or `None` if it has fewer.
fn swapped_words(alloc: Global, text: &str) -> Result<Option<String>, AllocError>
    ensures { IfOk result (λ swapped. option_map string_bytes swapped ≡ swapped_words text.now) }
{
    let (before, second) = split_last_word(alloc, text)?;
    let (head, blanks) = split_words(before.as_str(), before.len());
    if head.is_empty() {
        return Ok(None);
    }
    let (mut swapped, first) = split_last_word(alloc, head)?;
    swapped.push_str(second.as_str())?;
    swapped.push_str(blanks)?;
    swapped.push_str(first.as_str())?;
    Ok(Some(swapped))
}

/// Returns the line with the cursor past the word at it, or past the next word if whitespace stands at it.
fn past_word(alloc: Global, editor: &LineEditBuffer) -> Result<LineEditBuffer, AllocError>
    ensures { IfOk result (λ past. past ≡ past_word editor.now) }
{
    let passed = passed_text(alloc, editor, Movement::ForwardWord(1))?;
    let mut past = editor.try_clone(alloc)?;
    past.exec_movement(Movement::ForwardWord(1));
    if passed.as_str().trim_end().is_empty() {
        past.exec_movement(Movement::ForwardWord(1));
    }
    Ok(past)
}

/// Returns the line with the word at the cursor, or the next one, swapped with the word before it, and the cursor after
/// both. At the end of the line these are the last two words; a line with fewer is as it was. Words end at whitespace,
/// which stays where it is.
#[tactic(auto, using(crate::proofs::StepLemmas::text_starts))]
pub fn with_swapped_words(
    alloc: Global,
    editor: &LineEditBuffer,
) -> Result<LineEditBuffer, AllocError>
    ensures { IfOk result (λ changed. changed ≡ with_swapped_words editor.now) }
{
    let past = past_word(alloc, editor)?;
    let (words, rest) = split_words(past.get_line(), past.get_cursor());
    let Some(words) = swapped_words(alloc, words)? else {
        return editor.try_clone(alloc);
    };
    let mut changed = LineEditBuffer::new(alloc, rest, 0)?;
    changed.insert_text(words.as_str())?;
    Ok(changed)
}
