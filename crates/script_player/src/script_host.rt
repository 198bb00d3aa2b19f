//! The host of a script.

ghost use Rattle.std.specs.Prelude.{◌≡◌, OnOk, OnErr, refl};
ghost use Rattle.script_player.specs.ScriptRules.{Scripted, value_of, scripted_candidate, history_only, with_last_candidate, with_preview, script_rules, script_overrides, script_is_plain};

use std::alloc::{AllocError, Global};
use std::ops::Range;
use tw_lineedit::{
    CompletionCandidate, History, LineEditorHost, OutputElement, Overrides, copy_candidates,
    plain_element,
};

/// A host with a history, a preview under every line, and candidates that it answers to every request. Its
/// other answers are the default ones.
#[derive(Drop)]
pub struct ScriptHost<L> {
    alloc: Global,
    history: L,
    preview: String,
    candidates: Vec<CompletionCandidate>,
}

impl<L: History> ScriptHost<L> {
    /// Creates the host with this history, without a preview and without candidates.
    pub fn new(alloc: Global, history: L) -> Self
        ensures { value_of L.lines result ≡ history_only (L.lines history) }
    {
        ScriptHost {
            alloc,
            history,
            preview: String::new(alloc),
            candidates: Vec::new(alloc),
        }
    }

    /// Shows this preview from now on, and none where it is empty. If it is refused, nothing is changed.
    pub fn set_preview(&mut self, preview: &str) -> Result<(), AllocError>
        ensures set { OnOk result (value_of L.lines self.new
            ≡ with_preview preview.now (value_of L.lines self.old)) }
        ensures refused { OnErr result (value_of L.lines self.new ≡ value_of L.lines self.old) }
    {
        self.preview = String::from_str(self.alloc, preview)?;
        Ok(())
    }

    /// Adds a candidate after the others. If it is refused, nothing is changed.
    pub fn offer(&mut self, range: Range<usize>, text: &str) -> Result<(), AllocError>
        ensures last { OnOk result (value_of L.lines self.new
            ≡ with_last_candidate (scripted_candidate range.start range.end text.now)
            (value_of L.lines self.old)) }
        ensures refused { OnErr result (value_of L.lines self.new ≡ value_of L.lines self.old) }
    {
        let text = String::from_str(self.alloc, text)?;
        self.candidates.push(CompletionCandidate { range, text })?;
        Ok(())
    }
}

impl<L: History> LineEditorHost for ScriptHost<L> {
    type Hist = L;

    ghost Value = { Scripted };

    ghost value = { value_of L.lines };

    ghost rules = { script_rules };

    ghost history_of = { λ host. host.history };

    ghost with_history = { λ host history. record host { history = history } };

    ghost OVERRIDES = { script_overrides };

    const OVERRIDES: Overrides = Overrides {
        render_preview: true,
        complete: true,
        ..Overrides::NONE
    };

    fn history(&mut self) -> &mut L {
        &mut self.history
    }

    fn render_preview(&self, alloc: Global, _line: &str) -> Result<Vec<OutputElement>, AllocError> {
        if self.preview.is_empty() {
            return Ok(Vec::new(alloc));
        }
        plain_element(alloc, self.preview.as_str())
    }

    fn complete(
        &self,
        alloc: Global,
        _line: &str,
        _cursor_position: usize,
    ) -> Result<Vec<CompletionCandidate>, AllocError> {
        copy_candidates(alloc, &self.candidates)
    }

    ghost plain_answers = { script_is_plain };

    ghost history_put_back = { λ host. refl };

    ghost held_put = { λ host history. refl };

    ghost held_lines = { λ host. refl };
}
