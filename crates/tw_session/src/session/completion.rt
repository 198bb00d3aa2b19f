//! Completion: candidates that come in in turn.

ghost use Rattle.std.specs.Prelude.{◌≡◌, ◌<◌, length, map, MatchOption, IfOk, IfErr, OnOk, Some, None, false, true, vec_len};
ghost use Rattle.std.specs.Str.{IsCharBoundary};
ghost use Rattle.tw_line.specs.Cut.{cut_at};
ghost use Rattle.tw_host.specs.CandidateView.{candidate_view, fits, landing, completed_by};
ghost use Rattle.tw_host.specs.ActionView.{Complete};
ghost use Rattle.tw_session.specs.Completion.{Advances, FailsToAdvance, IsMisfit, cycle_of};
ghost use Rattle.tw_session.specs.SessionView.{ActsOn, FailsToActOn, on_state};

use super::Session;
use crate::error::Error;
use std::alloc::{AllocError, Global};
use std::marker::Model;
use std::mem;
use tw_host::{CompletionCandidate, LineEditorHost};
use tw_line::LineEditBuffer;

/// Candidates for a line, of which one has come in.
#[derive(Debug, Drop)]
pub struct Cycle {
    candidates: Vec<CompletionCandidate>,
    index: usize,
    original: LineEditBuffer,
}

impl Model for Cycle {
    ghost use Rattle.std.specs.Prelude.{◌<◌, map, length};
    ghost use Rattle.tw_host.specs.CandidateView.{candidate_view};
    ghost use Rattle.tw_session.specs.EditState.{CycleView};

    ghost Value = { CycleView };

    ghost view = { λ c. record { candidates = map candidate_view c.candidates.items; index = c.index; original = c.original } };

    ghost invariant = { λ c. c.index < length c.candidates.items };
}

impl Cycle {
    /// Begins with the first candidate, which has replaced this line.
    fn new(candidates: Vec<CompletionCandidate>, original: LineEditBuffer) -> Self
        requires { 0 < vec_len candidates }
        ensures { result ≡ record {
          candidates = map candidate_view candidates.items;
          index = 0;
          original = original;
        } }
    {
        Cycle {
            candidates,
            index: 0,
            original,
        }
    }

    /// Goes to the next candidate, and from the last to the first. The answer is the original line with it.
    /// If it is refused, nothing is changed.
    fn advance(&mut self, alloc: Global) -> Result<LineEditBuffer, Error>
        ensures ok { IfOk result (Advances self.old self.new) }
        ensures err { IfErr result (FailsToAdvance self.old self.new) }
    {
        let next = (self.index + 1) % self.candidates.len();
        let line = completed_by(alloc, &self.candidates[next], &self.original)?;
        self.index = next;
        Ok(line)
    }
}

/// Returns where the cursor comes to stand once the candidate's text has taken the place of its range, if it fits.
fn landing_of(start: usize, end: usize, text: &str, line: &str, cursor: usize) -> Option<usize>
    requires { IsCharBoundary line.now cursor }
    ensures { MatchOption result
        (fits (cut_at line.now cursor) (record { start = start; end = end; text = text.now })
        ≡ false)
        (λ at. (fits (cut_at line.now cursor)
        (record { start = start; end = end; text = text.now }) ≡ true)
        × (at ≡ landing (cut_at line.now cursor)
        (record { start = start; end = end; text = text.now }))) }
{
    if start > end || !line.is_char_boundary(start) || !line.is_char_boundary(end) {
        return None;
    }
    if cursor >= end {
        return Some(cursor - end + start + text.len());
    }
    let at = (cursor + text.len()).checked_sub(end - start)?;
    let lands = if at < start {
        line.is_char_boundary(at)
    } else {
        text.is_char_boundary(at - start)
    };
    if lands { Some(at) } else { None }
}

/// Returns a copy of the line with the candidate's text in the place of its range. It is tested before it grows.
fn completed_by(
    alloc: Global,
    candidate: &CompletionCandidate,
    line: &LineEditBuffer,
) -> Result<LineEditBuffer, Error>
    ensures ok { IfOk result (λ completed. completed_by (candidate_view candidate.now) line.now
        ≡ Some completed) }
    ensures err { IfErr result (IsMisfit (candidate_view candidate.now) line.now) }
{
    let text = candidate.text.as_str();
    let old = line.get_line();
    let start = candidate.range.start;
    let end = candidate.range.end;
    let Some(cursor) = landing_of(start, end, text, old, line.get_cursor()) else {
        return Err(Error::CandidateDoesNotFit);
    };
    let mut new = String::from_str(alloc, &old[..start])?;
    new.push_str(text)?;
    new.push_str(&old[end..])?;
    Ok(LineEditBuffer::new(alloc, new.as_str(), cursor)?)
}

impl Session {
    /// Puts in the first of the host's candidates for the line that is shown, or the cycle's next one, and
    /// leaves a search. If it is refused, nothing is changed.
    #[tactic(auto, unfolding(crate::specs::Steps::apply, crate::specs::Completion::completion_step))]
    pub(super) fn complete<H: LineEditorHost>(&mut self, host: &H) -> Result<(), Error>
        ensures ok { OnOk result (ActsOn H.rules (H.value host.now) Complete self.old self.new) }
        ensures err { IfErr result (FailsToActOn H.rules H.OVERRIDES (H.value host.now)
            Complete self.old self.new) }
    {
        match &mut self.cycle {
            Some(cycle) => {
                let line = cycle.advance(self.alloc)?;
                self.leave_search();
                self.line = line;
                Ok(())
            }
            None => self.begin_completion(host),
        }
    }

    /// Puts in the first of the host's candidates, and keeps two or more. A host that leaves completion to the default
    /// answer has none, and is not asked.
    #[tactic(auto, unfolding(crate::specs::Steps::apply, crate::specs::Completion::completion_step))]
    fn begin_completion<H: LineEditorHost>(&mut self, host: &H) -> Result<(), Error>
        requires { self.old.state.cycle ≡ None }
        ensures ok { OnOk result (ActsOn H.rules (H.value host.now) Complete self.old self.new) }
        ensures err { IfErr result (FailsToActOn H.rules H.OVERRIDES (H.value host.now)
            Complete self.old self.new) }
    {
        if !H::OVERRIDES.complete {
            self.leave_search();
            return Ok(());
        }
        let line = self.shown_line();
        let candidates = host.complete(self.alloc, line.get_line(), line.get_cursor())?;
        let Some(first) = candidates.first() else {
            self.leave_search();
            return Ok(());
        };
        let completed = completed_by(self.alloc, first, line)?;
        self.leave_search();
        self.take_first(completed, candidates);
        Ok(())
    }

    /// Takes the first candidate, which makes this line. Two or more are kept.
    fn take_first(&mut self, completed: LineEditBuffer, candidates: Vec<CompletionCandidate>)
        requires { self.old.state.cycle ≡ None }
        ensures { self.new
            ≡ on_state (λ s. record s {
              cut = completed;
              cycle = cycle_of (map candidate_view candidates.items) s.cut;
            }) self.old }
    {
        let original = mem::replace(&mut self.line, completed);
        if candidates.len() > 1 {
            self.cycle = Some(Cycle::new(candidates, original));
        }
    }
}
