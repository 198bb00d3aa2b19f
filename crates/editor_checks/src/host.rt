//! The host of the editor: it shows the line in two parts, so that each painting tells where the cursor is.

ghost use Rattle.std.specs.Prelude.{map, refl, string_bytes};
ghost use Rattle.tw_lineedit.specs.CandidateView.{candidate_view};
ghost use Rattle.editor_checks.specs.MarkedHost.{Marked, marked_is_plain, marked_overrides, marked_rules};

use std::alloc::{AllocError, Global};
use tw_lineedit::{
    BasicHistory, CompletionCandidate, History, LineEditorHost, OutputElement, Overrides,
    copy_candidates, plain_element,
};
use tw_surface::AttributeChange;

/// A host with a history, a preview of one text and candidates that it answers to every request. The preview may
/// hold several lines.
#[derive(Drop)]
pub struct MarkedHost {
    history: BasicHistory,
    preview: String,
    candidates: Vec<CompletionCandidate>,
    column: Option<usize>,
}

impl MarkedHost {
    /// Creates a host with a preview, and with no lines and no candidates. The empty text is no preview. The column of
    /// the cursor is `column`, or else the number of bytes before the cursor.
    pub fn new(alloc: Global, preview: &str, column: Option<usize>) -> Result<Self, AllocError> {
        let preview = String::from_str(alloc, preview)?;
        Ok(MarkedHost {
            history: BasicHistory::new(alloc),
            preview,
            candidates: Vec::new(alloc),
            column,
        })
    }

    /// Adds lines to the history, and candidates after the others: two offsets and a text.
    pub fn fill(
        &mut self,
        alloc: Global,
        lines: &[&str],
        candidates: &[(usize, usize, &str)],
    ) -> Result<(), AllocError> {
        for line in lines {
            self.history.add(line)?;
        }
        for (start, end, text) in candidates {
            let text = String::from_str(alloc, text)?;
            let range = *start..*end;
            self.candidates.push(CompletionCandidate { range, text })?;
        }
        Ok(())
    }
}

impl LineEditorHost for MarkedHost {
    type Hist = BasicHistory;

    ghost Value = { Marked };

    ghost value = { λ host. record {
      lines = host.history;
      preview = string_bytes host.preview;
      candidates = map candidate_view host.candidates.items;
      column = host.column;
    } };

    ghost rules = { marked_rules };

    ghost history_of = { λ host. host.history };

    ghost with_history = { λ host history. record host { history = history } };

    ghost OVERRIDES = { marked_overrides };

    const OVERRIDES: Overrides = Overrides {
        render_preview: true,
        highlight_line: true,
        complete: true,
        ..Overrides::NONE
    };

    fn history(&mut self) -> &mut BasicHistory {
        &mut self.history
    }

    fn render_preview(&self, alloc: Global, _line: &str) -> Result<Vec<OutputElement>, AllocError> {
        if self.preview.is_empty() {
            return Ok(Vec::new(alloc));
        }
        plain_element(alloc, self.preview.as_str())
    }

    fn highlight_line(
        &self,
        alloc: Global,
        line: &str,
        cursor_position: usize,
    ) -> Result<(Vec<OutputElement>, usize), AllocError> {
        let elements = vec![in alloc;
            OutputElement::text(alloc, &line[..cursor_position])?,
            OutputElement::Attribute(AttributeChange::Reverse(true)),
            OutputElement::text(alloc, &line[cursor_position..])?,
        ]?;
        Ok((elements, self.column.unwrap_or(cursor_position)))
    }

    fn complete(
        &self,
        alloc: Global,
        _line: &str,
        _cursor_position: usize,
    ) -> Result<Vec<CompletionCandidate>, AllocError> {
        copy_candidates(alloc, &self.candidates)
    }

    ghost plain_answers = { marked_is_plain };

    ghost history_put_back = { λ host. refl };

    ghost held_put = { λ host history. refl };

    ghost held_lines = { λ host. refl };
}
