//! Hints from a history.

ghost use Rattle.std.specs.Prelude.{◌≡◌, IfOk, option_map, string_bytes};
ghost use Rattle.tw_key_parts.specs.EditView.{lent_action};
ghost use Rattle.tw_prompt_host.specs.Hint.{continuation_of, dim_hints, hint_row, hint_of, is_taking, part_taken, word_of};

use crate::after_line::CUT;
use std::alloc::{AllocError, Global};
use tw_host::Action;
use tw_hosts::split_first_word;
use tw_line::{LentLines, LineEditBuffer, Movement};
use tw_surface::{CellAttributes, Intensity};

/// How the rest of the newest line that begins with the line is shown. Right or End at the end of the line takes it,
/// and Alt-f a word of it.
#[derive(Clone, Copy, Debug, PartialEq, Eq)]
pub enum Hints {
    /// Not at all, and no key takes it.
    Off,
    /// Under the line, if nothing else stands there: its first row.
    Under,
    /// After the cursor in these attributes, as much of it as fits into the row.
    After(CellAttributes),
}

impl Hints {
    /// Creates hints after the cursor in half intensity.
    pub fn dim() -> Self
        ensures { result ≡ dim_hints }
    {
        let mut style = CellAttributes::default();
        style.intensity = Intensity::Half;
        Hints::After(style)
    }
}

/// Returns the rest of a line that begins with a text, unless it is empty.
#[tactic(auto, using(crate::proofs::HintLemmas::strip_text))]
fn continuation_of<'line>(text: &str, line: &'line str) -> Option<&'line str>
    ensures { option_map (λ rest. rest.now) result ≡ continuation_of text.now line.now }
{
    line.strip_prefix(text).filter(|rest| !rest.is_empty())
}

/// Returns the rest of the newest longer line that begins with a text, or `None` for the empty text.
#[tactic(auto, using(tw_key_parts::proofs::UndoLemmas::greatest_steps))]
pub fn history_hint<'a, L: LentLines>(lines: &'a L, text: &str) -> Option<&'a str>
    ensures { option_map (λ rest. rest.now) result ≡ hint_of (L.lines lines.now) text.now }
{
    if text.is_empty() {
        return None;
    }
    for at in (0..lines.line_count()).rev() {
        if let Some(rest) = continuation_of(text, lines.line(at)) {
            return Some(rest);
        }
    }
    None
}

/// Returns true for an action that moves forward at the end of the line.
pub fn is_taking(action: Option<&Action>, editor: &LineEditBuffer) -> bool
    ensures { result ≡ is_taking (lent_action action.entry) editor.now }
{
    matches!(
        action,
        Some(Action::Move(
            Movement::ForwardChar(_) | Movement::ForwardWord(_) | Movement::EndOfLine
        ))
    ) && editor.get_cursor() == editor.get_line().len()
}

/// Returns a hint up to the end of its first word.
#[tactic(auto, using(crate::proofs::HintLemmas::behind_boundary))]
fn word_of(rest: &str) -> &str
    ensures { result.now ≡ word_of rest.now }
{
    let (_, after) = split_first_word(rest.trim_start());
    &rest[..rest.len() - after.len()]
}

/// Returns what an action takes of a hint.
pub fn part_taken<'rest>(action: Option<&Action>, rest: &'rest str) -> &'rest str
    ensures { result.now ≡ part_taken (lent_action action.entry) rest.now }
{
    match action {
        Some(Action::Move(Movement::ForwardWord(_))) => word_of(rest),
        _ => rest,
    }
}

/// Returns the first row of a hint, before `…` if there are others.
pub fn hint_row(alloc: Global, rest: &str) -> Result<String, AllocError>
    ensures { IfOk result (λ row. string_bytes row ≡ hint_row rest.now) }
{
    match rest.find('\n') {
        None => String::from_str(alloc, rest),
        Some(end) => {
            let mut row = String::from_str(alloc, &rest[..end])?;
            row.push(CUT)?;
            Ok(row)
        }
    }
}
