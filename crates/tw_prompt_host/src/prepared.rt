//! A host whose answers an application prepares, between two events.

ghost use Rattle.std.specs.Prelude.{◌≡◌, [], IfOk, drop, map, take};
ghost use Rattle.tw_host.specs.CandidateView.{candidate_view};
ghost use Rattle.tw_host.specs.ElementView.{element_view};
ghost use Rattle.tw_host.specs.PlainAnswers.{all_overrides, no_plain_left};
ghost use Rattle.tw_surface.specs.Defaults.{default_attributes};
ghost use Rattle.tw_prompt_host.specs.Prepared.{bytes_before, styled_ranges};

use std::alloc::{AllocError, Global};
use tw_host::{
    Action, CompletionCandidate, LineEditorHost, OutputElement, Overrides, copy_candidates,
};
use tw_hosts::styled;
use tw_input::InputEvent;
use tw_line::{BasicHistory, LineEditBuffer};
use tw_surface::{CellAttributes, unicode_column_width};

/// A part of a line in attributes of its own.
#[derive(Clone, Copy, Debug, PartialEq, Eq)]
pub struct StyledRange {
    /// The byte offset at which it begins.
    pub start: usize,
    /// The byte offset at which it ends.
    pub end: usize,
    pub attributes: CellAttributes,
}

/// Splits what is left of a line of `total` bytes at a byte offset of the line, or at the character boundary below.
#[tactic(auto, using(crate::proofs::PreparedLemmas::boundary_steps))]
fn split_before(total: usize, place: usize, rest: &str) -> (&str, &str)
    ensures front { result.0.now ≡ take (bytes_before total place rest.now) rest.now }
    ensures rest { result.1.now ≡ drop (bytes_before total place rest.now) rest.now }
{
    let at = total.saturating_sub(rest.len());
    rest.split_at(rest.floor_char_boundary(place.saturating_sub(at)))
}

/// Shows a line with ranges in their attributes. What no range has is plain. Each range is cut to whole characters of
/// the line that no range before it has, so that the text that is shown is the line whatever the ranges are.
pub fn styled_ranges(
    alloc: Global,
    ranges: &[StyledRange],
    line: &str,
) -> Result<Vec<OutputElement>, AllocError>
    ensures { IfOk result (λ elements. map element_view elements.items
        ≡ styled_ranges ranges.now line.now) }
{
    let mut elements = Vec::new(alloc);
    let mut rest = line;
    for range in ranges {
        let (before, inside) = split_before(line.len(), range.start, rest);
        let (within, after) = split_before(line.len(), range.end, inside);
        elements.push(OutputElement::text(alloc, before)?)?;
        elements.append(&mut styled(alloc, range.attributes, within)?)?;
        rest = after;
    }
    elements.push(OutputElement::text(alloc, rest)?)?;
    Ok(elements)
}

/// A host whose answers an application prepares: it sets the fields between two events. Another line than the prepared
/// one is plain, and nothing completes it. It has no keys and no preview, and its history is empty: as the host of a
/// [`PromptHost`](crate::PromptHost) it needs none.
#[derive(Debug, Drop)]
pub struct PreparedHost {
    /// The attributes of the prompt.
    pub prompt: CellAttributes,
    /// A line whose ranges are prepared.
    pub line: String,
    /// Its ranges.
    pub ranges: Vec<StyledRange>,
    /// A line with its cursor, for which candidates are prepared.
    pub asked: LineEditBuffer,
    /// The candidates for it.
    pub candidates: Vec<CompletionCandidate>,
    history: BasicHistory,
}

impl PreparedHost {
    /// Creates the host with a plain prompt and nothing prepared. It takes no memory.
    pub fn new(alloc: Global) -> Self
        ensures { (result.prompt ≡ default_attributes) × (result.ranges.items ≡ [])
            × (result.candidates.items ≡ []) }
    {
        PreparedHost {
            prompt: CellAttributes::default(),
            line: String::new(alloc),
            ranges: Vec::new(alloc),
            asked: LineEditBuffer::empty(alloc),
            candidates: Vec::new(alloc),
            history: BasicHistory::new(alloc),
        }
    }
}

impl LineEditorHost for PreparedHost {
    ghost use Rattle.std.specs.Prelude.{map, refl, string_bytes};
    ghost use Rattle.tw_host.specs.CandidateView.{candidate_view};
    ghost use Rattle.tw_host.specs.PlainAnswers.{all_overrides, no_plain_left};
    ghost use Rattle.tw_prompt_host.specs.Prepared.{PreparedView, prepared_rules};

    type Hist = BasicHistory;

    ghost Value = { PreparedView };

    ghost value = { λ it. record {
      prompt = it.prompt;
      line = string_bytes it.line;
      ranges = it.ranges.items;
      asked = it.asked;
      candidates = map candidate_view it.candidates.items;
      lines = it.history;
    } };

    ghost rules = { prepared_rules };

    ghost history_of = { λ it. it.history };

    ghost with_history = { λ it history. record it { history = history } };

    ghost OVERRIDES = { all_overrides };

    const OVERRIDES: Overrides = Overrides::ALL;

    fn history(&mut self) -> &mut BasicHistory {
        &mut self.history
    }

    fn render_prompt(&self, alloc: Global, prompt: &str) -> Result<Vec<OutputElement>, AllocError> {
        styled(alloc, self.prompt, prompt)
    }

    fn render_preview(&self, alloc: Global, _line: &str) -> Result<Vec<OutputElement>, AllocError> {
        Ok(Vec::new(alloc))
    }

    fn highlight_line(
        &self,
        alloc: Global,
        line: &str,
        cursor_position: usize,
    ) -> Result<(Vec<OutputElement>, usize), AllocError> {
        let ranges = if line == self.line.as_str() {
            self.ranges.as_slice()
        } else {
            &[]
        };
        let elements = styled_ranges(alloc, ranges, line)?;
        Ok((elements, unicode_column_width(&line[..cursor_position])))
    }

    fn complete(
        &self,
        alloc: Global,
        line: &str,
        cursor_position: usize,
    ) -> Result<Vec<CompletionCandidate>, AllocError> {
        if line == self.asked.get_line() && cursor_position == self.asked.get_cursor() {
            copy_candidates(alloc, &self.candidates)
        } else {
            Ok(Vec::new(alloc))
        }
    }

    fn resolve_action(
        &mut self,
        _alloc: Global,
        _event: &InputEvent,
        _editor: &mut LineEditBuffer,
    ) -> Result<Option<Action>, AllocError> {
        Ok(None)
    }

    ghost plain_answers = { no_plain_left };

    ghost history_put_back = { λ it. refl };

    ghost held_put = { λ it history. refl };

    ghost held_lines = { λ it. refl };
}
