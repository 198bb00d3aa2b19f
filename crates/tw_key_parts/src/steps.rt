//! Steps by grapheme clusters, and how many lead over a word of letters and digits.

ghost use Rattle.std.specs.Prelude.{◌≡◌, ◌+◌, ◌<◌, ◌≤◌, IfOk, IfSome, drop, length};
ghost use Rattle.tw_key_parts.specs.ClusterSteps.{cluster_steps, begins_with_letter, last_letter, steps_to_word_end, steps_to_word_start};

use std::alloc::{AllocError, Global};
use tw_line::{LineEditBuffer, Movement};

/// A way along the line.
#[derive(Clone, Copy, Debug, PartialEq, Eq)]
pub enum Way {
    /// To the start of the line.
    Back,
    /// To the end of the line.
    Ahead,
}

/// Returns a movement by `count` grapheme clusters.
pub fn cluster_steps(way: Way, count: usize) -> Movement
    ensures { result ≡ cluster_steps way count }
{
    match way {
        Way::Back => Movement::BackwardChar(count),
        Way::Ahead => Movement::ForwardChar(count),
    }
}

/// Returns true if a letter or a digit stands at the cursor.
fn is_at_letter(editor: &LineEditBuffer) -> bool
    ensures { result ≡ begins_with_letter (drop editor.now.cursor editor.now.line) }
{
    let rest = &editor.get_line()[editor.get_cursor()..];
    rest.chars().next().is_some_and(|c| c.is_alphanumeric())
}

/// Returns the least number of steps, from `from` on, that lead to the last letter of a word.
#[tactic(auto, using(crate::proofs::StepLemmas::walks))]
fn last_letter(
    alloc: Global,
    way: Way,
    from: usize,
    editor: &LineEditBuffer,
) -> Result<Option<usize>, AllocError>
    requires { from ≤ 1 }
    ensures count { IfOk result (λ count. count ≡ last_letter way from editor.now) }
    ensures within { IfOk result
        (λ count. IfSome count (λ count. count < from + length editor.now.line)) }
{
    let mut at = editor.try_clone(alloc)?;
    at.exec_movement(cluster_steps(way, from));
    let mut is_letter = is_at_letter(&at);
    let end = from + editor.get_line().len();
    for count in from..end {
        at.exec_movement(cluster_steps(way, 1));
        let was_letter = is_letter;
        is_letter = is_at_letter(&at);
        if was_letter && !is_letter {
            return Ok(Some(count));
        }
    }
    Ok(None)
}

/// Returns the number of grapheme clusters to the end of the next word of letters and digits. If there is none, it is
/// the number of bytes of the line, which leads to its end.
pub fn steps_to_word_end(alloc: Global, editor: &LineEditBuffer) -> Result<usize, AllocError>
    ensures { IfOk result (λ count. count ≡ steps_to_word_end editor.now) }
{
    let end = editor.get_line().len();
    match last_letter(alloc, Way::Ahead, 0, editor)? {
        Some(count) => Ok(count + 1),
        None => Ok(end),
    }
}

/// Returns the number of grapheme clusters back to the start of the word of letters and digits before the cursor. If
/// there is none, it is the number of bytes of the line, which leads to its start.
pub fn steps_to_word_start(alloc: Global, editor: &LineEditBuffer) -> Result<usize, AllocError>
    ensures { IfOk result (λ count. count ≡ steps_to_word_start editor.now) }
{
    let count = last_letter(alloc, Way::Back, 1, editor)?;
    Ok(count.unwrap_or(editor.get_line().len()))
}
