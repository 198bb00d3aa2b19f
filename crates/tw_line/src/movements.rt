//! Movements, and where they lead.

ghost use Rattle.std.specs.Prelude.{◌≡◌};
ghost use Rattle.std.specs.Str.{IsCharBoundary};
ghost use Rattle.tw_line.specs.Cut.{cut_at};
ghost use Rattle.tw_line.specs.Extremes.{iterate};
ghost use Rattle.tw_line.specs.Movements.{destination};
ghost use Rattle.tw_line.specs.OffsetSteps.{step_from};
ghost use Rattle.tw_line.specs.Text.{bytes_of};

use crate::clusters::{clusters_after, clusters_before};
use crate::text::Text;
use crate::words::{word_after, word_before};

/// How many times.
pub type RepeatCount = usize;

/// A way for the cursor to go. If a step leads nowhere, the cursor stays, so every count is fine.
#[derive(Clone, Copy, Debug)]
pub enum Movement {
    /// So many grapheme clusters back.
    BackwardChar(RepeatCount),
    /// So many words back.
    BackwardWord(RepeatCount),
    /// So many grapheme clusters ahead.
    ForwardChar(RepeatCount),
    /// So many words ahead, with the whitespace after each.
    ForwardWord(RepeatCount),
    /// To the start of the line.
    StartOfLine,
    /// To the end of the line.
    EndOfLine,
    /// Nowhere.
    None,
}

/// A step over words.
#[derive(Clone, Copy)]
enum Step {
    BackwardWord,
    ForwardWord,
}

/// Returns where the movement leads from `cursor`.
#[tactic(auto, unfolding(crate::specs::Movements::destination))]
pub fn destination(line: &Text, cursor: usize, movement: Movement) -> usize
    requires { IsCharBoundary (bytes_of line.now) cursor }
    ensures value { result ≡ destination movement (cut_at (bytes_of line.now) cursor) }
    ensures boundary { IsCharBoundary (bytes_of line.now) result }
{
    match movement {
        Movement::BackwardChar(count) => clusters_before(line.as_str(), cursor, count),
        Movement::BackwardWord(count) => steps_from(line, cursor, Step::BackwardWord, count),
        Movement::ForwardChar(count) => clusters_after(line.as_str(), cursor, count),
        Movement::ForwardWord(count) => steps_from(line, cursor, Step::ForwardWord, count),
        Movement::StartOfLine => 0,
        Movement::EndOfLine => line.len(),
        Movement::None => cursor,
    }
}

/// Returns where `count` steps over words lead from `start`. It returns as soon as a step leads nowhere.
fn steps_from(line: &Text, start: usize, step: Step, count: RepeatCount) -> usize
    requires { IsCharBoundary (bytes_of line.now) start }
    ensures value { result ≡ iterate (step_from step (bytes_of line.now)) count start }
    ensures boundary { IsCharBoundary (bytes_of line.now) result }
{
    let mut at = start;
    for _round in 0..count {
        let next = step_from(line, at, step);
        if next == at {
            return at;
        }
        at = next;
    }
    at
}

/// Returns where one step over a word leads from `at`.
fn step_from(line: &Text, at: usize, step: Step) -> usize
    requires { IsCharBoundary (bytes_of line.now) at }
    ensures value { result ≡ step_from step (bytes_of line.now) at }
    ensures boundary { IsCharBoundary (bytes_of line.now) result }
{
    match step {
        Step::BackwardWord => line.offset_of(word_before(line, line.index_of(at))),
        Step::ForwardWord => line.offset_of(word_after(line, line.index_of(at))),
    }
}
