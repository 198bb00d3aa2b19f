//! What an application tells the editor.

ghost use Rattle.std.specs.Prelude.{◌≡◌, ℕ, List, [], IfOk, OnErr, OnOk, Some, map, refl};
ghost use Rattle.std.specs.Borrow.{Lends, sem};
ghost use Rattle.tw_input.specs.EventView.{event_view};
ghost use Rattle.std.specs.Str.{IsCharBoundary};
ghost use Rattle.tw_line.specs.Cut.{cut_at};
ghost use Rattle.tw_host.specs.ElementView.{Text, element_view};
ghost use Rattle.tw_host.specs.CandidateView.{candidate_view};
ghost use Rattle.tw_host.specs.HostRules.{HostRules, Resolves, candidates_for, plain_text, plain_highlight, plain_rules, shown_column, shown_elements};
ghost use Rattle.tw_line.specs.NearestMatch.{last_line};
ghost use Rattle.tw_host.specs.PlainAnswers.{IsPlainBut, no_overrides, plain_is_plain};

use crate::actions::Action;
use std::alloc::{AllocError, Global};
use std::ops::Range;
use tw_input::InputEvent;
use tw_line::{BasicHistory, History, LineEditBuffer};
use tw_surface::{AttributeChange, CellAttributes, Change, unicode_column_width};

/// A part of what is shown.
#[derive(Debug, Drop)]
pub enum OutputElement {
    /// Sets one attribute of the text that follows.
    Attribute(AttributeChange),
    /// Sets all attributes of the text that follows.
    AllAttributes(CellAttributes),
    /// A text.
    Text(String),
}

impl OutputElement {
    /// Returns an element of this text.
    pub fn text(alloc: Global, text: &str) -> Result<Self, AllocError>
        ensures { IfOk result (λ element. element_view element ≡ Text text.now) }
    {
        Ok(OutputElement::Text(String::from_str(alloc, text)?))
    }
}

impl From<OutputElement> for Change {
    ghost use Rattle.std.specs.Prelude.{◌≡◌};
    ghost use Rattle.tw_surface.specs.ChangeView.{change_view};
    ghost use Rattle.tw_host.specs.ElementView.{element_view, element_change};

    ghost from_gives = { λ element made. change_view made ≡ element_change (element_view element) };

    fn from(element: OutputElement) -> Change {
        match element {
            OutputElement::Attribute(change) => Change::Attribute(change),
            OutputElement::AllAttributes(attributes) => Change::AllAttributes(attributes),
            OutputElement::Text(text) => Change::Text(text),
        }
    }
}

/// A text that can take the place of a part of the line.
#[derive(Debug, Drop)]
pub struct CompletionCandidate {
    /// The part of the line, by byte offsets.
    pub range: Range<usize>,
    /// The text.
    pub text: String,
}

/// Returns copies of the candidates.
pub fn copy_candidates(
    alloc: Global,
    candidates: &[CompletionCandidate],
) -> Result<Vec<CompletionCandidate>, AllocError>
    ensures { IfOk result (λ copies. map candidate_view copies.items
        ≡ map candidate_view candidates.now) }
{
    let mut copies = Vec::new(alloc);
    for candidate in candidates {
        copies.push(CompletionCandidate {
            range: candidate.range.start..candidate.range.end,
            text: candidate.text.clone()?,
        })?;
    }
    Ok(copies)
}

/// Which calls a host answers for itself. The default bodies answer the others.
#[derive(Clone, Copy, Debug, PartialEq, Eq)]
pub struct Overrides {
    /// Whether it answers `render_prompt`.
    pub render_prompt: bool,
    /// Whether it answers `render_preview`.
    pub render_preview: bool,
    /// Whether it answers `highlight_line`.
    pub highlight_line: bool,
    /// Whether it answers `complete`.
    pub complete: bool,
    /// Whether it answers `resolve_action`.
    pub resolve_action: bool,
}

impl Overrides {
    /// All answers are those of the default bodies.
    pub const NONE: Overrides = Overrides {
        render_prompt: false,
        render_preview: false,
        highlight_line: false,
        complete: false,
        resolve_action: false,
    };

    /// All answers are the host's own.
    pub const ALL: Overrides = Overrides {
        render_prompt: true,
        render_preview: true,
        highlight_line: true,
        complete: true,
        resolve_action: true,
    };
}

/// Returns one element: the text as it is. It is what a host answers that shows a text plainly.
pub fn plain_element(alloc: Global, text: &str) -> Result<Vec<OutputElement>, AllocError>
    ensures { IfOk result (λ elements. map element_view elements.items ≡ plain_text text.now) }
{
    let elements = vec![in alloc; OutputElement::text(alloc, text)?]?;
    Ok(elements)
}

/// Returns the line as it is, and the columns of the text before its cursor, which is a boundary of the line. It is
/// what a host answers that shows the line plainly.
pub fn plain_line(
    alloc: Global,
    line: &str,
    cursor: usize,
) -> Result<(Vec<OutputElement>, usize), AllocError>
    requires { IsCharBoundary line.now cursor }
    ensures elements { IfOk result (λ shown. map element_view shown.0.items
        ≡ (plain_highlight (cut_at line.now cursor)).elements) }
    ensures column { IfOk result (λ shown. shown.1
        ≡ (plain_highlight (cut_at line.now cursor)).column) }
{
    let elements = plain_element(alloc, line)?;
    Ok((elements, unicode_column_width(&line[..cursor])))
}

/// What an application tells the editor. A host answers by rules, which are functions of the value that it
/// holds and of the arguments; contracts see `value` and `rules`, and nothing else of a host.
///
/// A host that answers a call for itself says so in `OVERRIDES`, since a default body is proved once for all hosts:
/// where `OVERRIDES` names a call whose body was not written, the default refuses it.
pub trait LineEditorHost {
    ghost use Rattle.tw_host.specs.declared.host.Overrides.{Overrides};

    /// The host's history.
    type Hist: History;

    ghost Value: { Type 0 };

    ghost value: { Self → Value };

    ghost rules: { HostRules Value };

    ghost history_of: { Self → Self.Hist };

    ghost with_history: { Self → Self.Hist → Self };

    ghost OVERRIDES: { Overrides };

    /// Which calls the host answers for itself.
    const OVERRIDES: Overrides;

    /// Lends the history. Given back as it was, the host is as it was.
    fn history(&mut self) -> &mut Self::Hist
        ensures* lends { sem 𝓛 (Lends Self.row Self.Hist.row self.entry result
            (with_history self.old)) }
        ensures shows { result.now ≡ history_of self.old };

    /// Returns the prompt as it is shown. By default the text itself.
    fn render_prompt(&self, alloc: Global, prompt: &str) -> Result<Vec<OutputElement>, AllocError>
        ensures { IfOk result (λ elements. map element_view elements.items
            ≡ rules.prompt (value self.now) prompt.now) }
    {
        if Self::OVERRIDES.render_prompt {
            return Err(AllocError);
        }
        plain_element(alloc, prompt)
    }

    /// Returns what is shown under the line while it is edited. By default nothing.
    fn render_preview(&self, alloc: Global, line: &str) -> Result<Vec<OutputElement>, AllocError>
        ensures { IfOk result (λ elements. map element_view elements.items
            ≡ rules.preview (value self.now) line.now) }
    {
        if Self::OVERRIDES.render_preview {
            return Err(AllocError);
        }
        Ok(Vec::new(alloc))
    }

    /// Returns the line as it is shown, and the column of its cursor, counted from where the line begins. By default
    /// the text itself, and the columns of the text before the cursor.
    fn highlight_line(
        &self,
        alloc: Global,
        line: &str,
        cursor_position: usize,
    ) -> Result<(Vec<OutputElement>, usize), AllocError>
        requires { IsCharBoundary line.now cursor_position }
        ensures elements { IfOk result (λ shown. map element_view shown.0.items
            ≡ shown_elements rules (value self.now) line.now cursor_position) }
        ensures column { IfOk result (λ shown. shown.1
            ≡ shown_column rules (value self.now) line.now cursor_position) }
    {
        if Self::OVERRIDES.highlight_line {
            return Err(AllocError);
        }
        plain_line(alloc, line, cursor_position)
    }

    /// Returns the texts that can complete a line with its cursor at a byte offset, in the order in which they are put
    /// in. By default there are none.
    fn complete(
        &self,
        alloc: Global,
        line: &str,
        cursor_position: usize,
    ) -> Result<Vec<CompletionCandidate>, AllocError>
        requires { IsCharBoundary line.now cursor_position }
        ensures { IfOk result (λ candidates. map candidate_view candidates.items
            ≡ candidates_for rules (value self.now) line.now cursor_position) }
    {
        if Self::OVERRIDES.complete {
            return Err(AllocError);
        }
        Ok(Vec::new(alloc))
    }

    /// Returns what the host makes of an event before the key table does: it may change itself and the line, and may
    /// name an action. By default it does nothing. If it is refused, nothing is changed.
    fn resolve_action(
        &mut self,
        alloc: Global,
        event: &InputEvent,
        editor: &mut LineEditBuffer,
    ) -> Result<Option<Action>, AllocError>
        ensures ok { IfOk result (Resolves rules (event_view event.now) (value self.old) editor.old
            (value self.new) editor.new) }
        ensures refused { OnErr result (value self.new ≡ value self.old) }
        ensures refused_cut { OnErr result (editor.new ≡ editor.old) }
    {
        if Self::OVERRIDES.resolve_action {
            return Err(AllocError);
        }
        Ok(None)
    }

    ghost plain_answers: { IsPlainBut rules OVERRIDES };

    ghost history_put_back: { (host : Self) → with_history host (history_of host) ≡ host };

    ghost held_put: { (host : Self) (history : Self.Hist)
        → history_of (with_history host history) ≡ history };

    ghost held_lines: { (host : Self) → Self.Hist.lines (history_of host)
        ≡ rules.lines (value host) };

    /// Adds a line to the history, which the editor itself never does. The rest of the host stays as it was.
    /// If memory is lacking, the history's lines stay too.
    final fn remember(&mut self, line: &str) -> Result<(), AllocError>
        ensures kept { self.new ≡ with_history self.old (history_of self.new) }
        ensures last { OnOk result (last_line (rules.lines (value self.new)) ≡ Some line.now) }
        ensures added { OnOk result (Self.Hist.add_gives (history_of self.old) line.now
            (history_of self.new)) }
        ensures refused { OnErr result (rules.lines (value self.new)
            ≡ rules.lines (value self.old)) }
    {
        self.history().add(line)
    }
}

/// A host with the default answers and a history in memory.
#[derive(Debug, Drop)]
pub struct NopLineEditorHost {
    history: BasicHistory,
}

impl NopLineEditorHost {
    /// Creates the host with an empty history. Takes no memory.
    pub fn new(alloc: Global) -> Self
        ensures rules { ⟦<NopLineEditorHost as LineEditorHost>⟧.rules
            ≡ plain_rules (λ lines. lines) }
        ensures empty { ⟦<NopLineEditorHost as LineEditorHost>⟧.value result ≡ [] }
    {
        NopLineEditorHost {
            history: BasicHistory::new(alloc),
        }
    }
}

impl LineEditorHost for NopLineEditorHost {
    type Hist = BasicHistory;

    ghost Value = { List (List ℕ) };

    ghost value = { λ host. host.history };

    ghost rules = { plain_rules (λ lines. lines) };

    ghost history_of = { λ host. host.history };

    ghost with_history = { λ host history. record host { history = history } };

    ghost OVERRIDES = { no_overrides };

    const OVERRIDES: Overrides = Overrides::NONE;

    fn history(&mut self) -> &mut BasicHistory {
        &mut self.history
    }

    ghost plain_answers = { plain_is_plain (λ lines. lines) };

    ghost history_put_back = { λ host. refl };

    ghost held_put = { λ host history. refl };

    ghost held_lines = { λ host. refl };
}
