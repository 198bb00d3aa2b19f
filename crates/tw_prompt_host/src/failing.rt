//! Searches that find nothing.

ghost use Rattle.std.specs.Prelude.{◌≡◌, IfOk};
ghost use Rattle.tw_key_parts.specs.EditView.{lent_action};
ghost use Rattle.tw_prompt_host.specs.FailingSearch.{failing_text, is_failing, pattern_after};

use std::alloc::{AllocError, Global};
use tw_host::Action;
use tw_line::{History, LineEditBuffer, SearchDirection, SearchStyle};

/// Returns what is said after the line of a search that fails, or of a history that has no lines to search.
pub fn failing_text(searching: bool) -> &'static str
    ensures { result.now ≡ failing_text searching }
{
    if searching {
        "  failing: no line has it"
    } else {
        "  no history to search"
    }
}

/// Returns true if no line of a history contains a pattern.
#[tactic(auto, using(crate::proofs::FailingLemmas::none_fails))]
pub fn is_failing<L: History>(alloc: Global, history: &L, pattern: &str) -> Result<bool, AllocError>
    ensures { IfOk result (λ fails. fails ≡ is_failing (L.lines history.now) pattern.now) }
{
    let Some(last) = history.last() else {
        return Ok(true);
    };
    let found = history.search(
        alloc,
        last,
        SearchStyle::Substring,
        SearchDirection::Backwards,
        pattern,
    )?;
    Ok(found.is_none())
}

/// Returns the pattern of a search after an action that leaves the search on.
pub fn pattern_after(
    alloc: Global,
    action: Option<&Action>,
    pattern: &LineEditBuffer,
) -> Result<LineEditBuffer, AllocError>
    ensures { IfOk result (λ after. after ≡ pattern_after (lent_action action.entry) pattern.now) }
{
    let mut after = pattern.try_clone(alloc)?;
    match action {
        Some(Action::InsertChar(count, c)) => after.insert_char_times(*count, *c)?,
        Some(Action::InsertText(count, text)) => after.insert_text_times(*count, text)?,
        Some(Action::Kill(movement)) => after.kill_text(*movement, *movement),
        Some(Action::KillAndMove(kill, movement)) => after.kill_text(*kill, *movement),
        _ => {}
    }
    Ok(after)
}
