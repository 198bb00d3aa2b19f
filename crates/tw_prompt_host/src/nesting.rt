//! The marks that a text leaves open.

ghost use Rattle.std.specs.Prelude.{◌≡◌, IfOk, reverse};
ghost use Rattle.tw_prompt_host.specs.Nesting.{after_character, closed_mark, mark_no_letter, nesting_of, nesting_view, opens_behind, where_right};

use crate::marks::{
    MarkKind, MarkPair, OpenMark, is_closing, is_letter_or_space, mark_no_letter, opened_pair,
};
use std::alloc::{AllocError, Global};

/// The marks that a text leaves open, or its first wrong one.
#[derive(Debug, Drop)]
pub enum Nesting {
    /// The marks that are open at the end of the text, the outermost first. If there are none the text is whole. An
    /// escape character at the end is open too.
    Open(Vec<OpenMark>),
    /// The first mark that closes what is not open, and its byte offset.
    Wrong(char, usize),
}

/// Takes in a character outside of quotations that does not close the innermost open mark. Returns false if it is
/// wrong. `letters` is true if no letter is a mark.
#[tactic(auto, using(crate::proofs::NestingLemmas::letter_behind, crate::proofs::NestingLemmas::newest_first))]
fn take_opening(
    pairs: &[MarkPair],
    letters: bool,
    opens: &mut Vec<OpenMark>,
    at: usize,
    c: char,
) -> Result<bool, AllocError>
    requires { letters ≡ mark_no_letter pairs.now }
    ensures { IfOk result (λ right. opens_behind pairs.now (reverse opens.old.items) at c
        ≡ where_right right (reverse opens.new.items) at c) }
{
    if letters && is_letter_or_space(c) {
        return Ok(true);
    }
    match opened_pair(pairs, c) {
        Some(pair) => {
            opens.push(OpenMark { pair, at })?;
            Ok(true)
        }
        None => Ok(!is_closing(pairs, c)),
    }
}

/// Takes in one more character. Returns false if it is wrong.
#[tactic(auto, using(crate::proofs::NestingLemmas::newest_first, crate::proofs::NestingLemmas::last_is, crate::proofs::NestingLemmas::none_is))]
fn take_in(
    pairs: &[MarkPair],
    letters: bool,
    opens: &mut Vec<OpenMark>,
    at: usize,
    c: char,
) -> Result<bool, AllocError>
    requires { letters ≡ mark_no_letter pairs.now }
    ensures { IfOk result (λ right. after_character pairs.now (reverse opens.old.items) at c
        ≡ where_right right (reverse opens.new.items) at c) }
{
    let Some(last) = opens.last().copied() else {
        return take_opening(pairs, letters, opens, at, c);
    };
    if last.pair.closes(c) {
        opens.pop();
        return Ok(true);
    }
    match last.pair.kind {
        MarkKind::Brackets => take_opening(pairs, letters, opens, at, c),
        MarkKind::Quotation { escape } => {
            if escape == Some(c) {
                let pair = MarkPair::new(c, c, MarkKind::Escape);
                opens.push(OpenMark { pair, at })?;
            }
            Ok(true)
        }
        MarkKind::Escape => Ok(true),
    }
}

/// Returns the marks that a text leaves open, or its first wrong mark. If two pairs have one opening mark the first of
/// them counts. A mark that closes the innermost open one does nothing else.
pub fn nesting_in(alloc: Global, pairs: &[MarkPair], text: &str) -> Result<Nesting, AllocError>
    ensures { IfOk result (λ nesting. nesting_view nesting ≡ nesting_of pairs.now text.now) }
{
    let letters = mark_no_letter(pairs);
    let mut opens = Vec::new(alloc);
    for (at, c) in text.char_indices() {
        if !take_in(pairs, letters, &mut opens, at, c)? {
            return Ok(Nesting::Wrong(c, at));
        }
    }
    Ok(Nesting::Open(opens))
}

/// Returns the mark that a character closes behind a text, if it closes one.
pub fn closed_mark(
    alloc: Global,
    pairs: &[MarkPair],
    text: &str,
    c: char,
) -> Result<Option<OpenMark>, AllocError>
    ensures { IfOk result (λ mark. mark ≡ closed_mark pairs.now text.now c) }
{
    let Nesting::Open(opens) = nesting_in(alloc, pairs, text)? else {
        return Ok(None);
    };
    Ok(opens.last().copied().filter(|open| open.pair.closes(c)))
}
