//! What an editor holds beside its terminal, and the steps of the abstract editor on it.

ghost use Rattle.std.specs.Prelude.{◌≡◌, Ok, Err, Some, None, IfOk, IfErr, OnOk, OnErr, IsOk, [], option_map, IsTrue, ◌↔◌, true, false};
ghost use Rattle.std.specs.Str.{IsCharBoundary};
ghost use Rattle.tw_surface.specs.ChangeView.{batch_view};
ghost use Rattle.tw_input.specs.EventView.{event_view};
ghost use Rattle.tw_host.specs.ActionView.{action_view};
ghost use Rattle.tw_line.specs.Cut.{cut_at, empty_cut};
ghost use Rattle.tw_session.specs.EditState.{Inactive as InactiveView};
ghost use Rattle.tw_session.specs.Outcomes.{outcome_of, answer_at, TakesMemoryToCopy, is_over, is_open};
ghost use Rattle.tw_session.specs.Painting.{painted_on, scene_of, shown_in, rendering_of};
ghost use Rattle.tw_session.specs.DrawSteps.{IsUnpainted};

use crate::error::Error;
use crate::painter::{Below, Mark, painting};
use std::alloc::{AllocError, Global};
use std::marker::Model;
use tw_host::{Action, LineEditorHost};
use tw_input::InputEvent;
use tw_line::{HistoryIndex, LineEditBuffer, SearchDirection, SearchStyle};
use tw_surface::Change;
use tw_terminal::ScreenSize;

/// What the editor is doing.
#[derive(Debug, Drop)]
pub enum Mode {
    Inactive,
    Editing,
    Cancelled,
    Accepted,
    /// The line is a pattern. It is sought in the history, where `matching` was found last.
    Searching {
        style: SearchStyle,
        direction: SearchDirection,
        matching: LineEditBuffer,
    },
}

mod completion;
mod edit;
mod prompt;
mod search;
mod walk;

use completion::Cycle;
use edit::Edit;
use prompt::Prompt;

/// What an editor holds beside its terminal.
#[derive(Debug, Drop)]
pub struct Session {
    alloc: Global,
    prompt: Prompt,
    line: LineEditBuffer,
    history_index: Option<HistoryIndex>,
    typed_line: Option<String>,
    cycle: Option<Cycle>,
    mode: Mode,
    mark: Option<Mark>,
}

impl Model for Session {
    ghost use Rattle.std.specs.Prelude.{string_bytes, option_map};
    ghost use Rattle.tw_session.specs.SessionView.{SessionView, mode_view};

    ghost Value = { SessionView };

    ghost view = { λ s. record {
      state = record {
        prompt = s.prompt;
        cut = s.line;
        history_index = s.history_index;
        typed_line = option_map string_bytes s.typed_line;
        cycle = s.cycle;
        mode = mode_view s.mode;
      };
      mark = s.mark;
    } };
}

impl Session {
    ghost use Rattle.tw_session.specs.SessionView.{new_session, on_state, begun_state, mode_view, ActsOn, FailsToActOn};

    /// Returns a session with the prompt `> `, an empty line and nothing painted. Takes no memory.
    pub fn new(alloc: Global) -> Session
        ensures { result ≡ new_session }
    {
        Session {
            alloc,
            prompt: Prompt::new(),
            line: LineEditBuffer::empty(alloc),
            history_index: None,
            typed_line: None,
            cycle: None,
            mode: Mode::Inactive,
            mark: None,
        }
    }

    /// Returns the allocator of all that the session holds.
    pub fn alloc(&self) -> Global {
        self.alloc
    }

    /// Sets the prompt. If it is refused, nothing is changed.
    pub fn set_prompt(&mut self, prompt: &str) -> Result<(), AllocError>
        ensures ok { OnOk result (self.new
            ≡ on_state (λ state. record state { prompt = prompt.now }) self.old) }
        ensures err { OnErr result (self.new ≡ self.old) }
    {
        self.prompt = Prompt::from_str(self.alloc, prompt)?;
        Ok(())
    }

    /// Returns the line and its cursor.
    pub fn get_line_and_cursor(&self) -> (&str, usize)
        ensures line { result.0.now ≡ self.now.state.cut.line }
        ensures cursor { result.1 ≡ self.now.state.cut.cursor }
        ensures boundary { IsCharBoundary result.0.now result.1 }
    {
        (self.line.get_line(), self.line.get_cursor())
    }

    /// Sets the line and its cursor. If it is refused, nothing is changed.
    pub fn set_line_and_cursor(&mut self, line: &str, cursor: usize) -> Result<(), AllocError>
        requires { IsCharBoundary line.now cursor }
        ensures ok { OnOk result (self.new
            ≡ on_state (λ state. record state { cut = cut_at line.now cursor }) self.old) }
        ensures err { OnErr result (self.new ≡ self.old) }
        ensures empty { line.now ≡ [] → IsOk result }
    {
        self.line.set_line_and_cursor(line, cursor)
    }

    /// Returns true if no line is being read.
    pub fn is_inactive(&self) -> bool
        ensures { IsTrue result ↔ (self.now.state.mode ≡ InactiveView) }
    {
        matches!(self.mode, Mode::Inactive)
    }

    /// Returns true if a line takes events.
    pub fn is_open(&self) -> bool
        ensures { result ≡ is_open self.now.state.mode }
    {
        matches!(self.mode, Mode::Editing | Mode::Searching { .. })
    }

    /// Returns true if the line was accepted or the run cancelled.
    pub fn is_over(&self) -> bool
        ensures { result ≡ is_over self.now.state.mode }
    {
        matches!(self.mode, Mode::Accepted | Mode::Cancelled)
    }

    /// Returns the mark of the last painting, if there is one.
    pub fn mark(&self) -> Option<Mark>
        ensures { result ≡ self.now.mark }
    {
        self.mark
    }

    /// Keeps the mark of the last painting.
    pub fn set_mark(&mut self, mark: Mark)
        ensures { self.new ≡ record self.old { mark = Some mark } }
    {
        self.mark = Some(mark);
    }

    /// Begins a run: empties the line, and forgets the place in the history and the last painting.
    pub fn begin(&mut self)
        ensures { self.new ≡ record { state = begun_state empty_cut self.old.state; mark = None } }
    {
        self.line.clear();
        self.history_index = None;
        self.typed_line = None;
        self.cycle = None;
        self.mode = Mode::Editing;
        self.mark = None;
    }

    /// Ends a run, and forgets its last painting, which it returns.
    pub fn end(&mut self) -> Option<Mark>
        ensures session { self.new
            ≡ record { state = record self.old.state { mode = InactiveView }; mark = None } }
        ensures painted { result ≡ self.old.mark }
    {
        self.mode = Mode::Inactive;
        self.mark.take()
    }

    /// Applies an action to the state. A `Repaint` changes nothing in it. An edit, a movement, and a step
    /// through the history or a search end the cycle of candidates. If it is refused, nothing is changed.
    #[tactic(auto, unfolding(crate::specs::Steps::apply))]
    pub fn act<H: LineEditorHost>(&mut self, host: &mut H, action: Action) -> Result<(), Error>
        ensures host { host.new ≡ host.old }
        ensures ok { OnOk result (ActsOn H.rules (H.value host.old) (action_view action)
            self.old self.new) }
        ensures err { IfErr result (FailsToActOn H.rules H.OVERRIDES (H.value host.old)
            (action_view action) self.old self.new) }
    {
        match action {
            Action::AcceptLine => {
                self.leave_search();
                self.mode = Mode::Accepted;
                return Ok(());
            }
            Action::Cancel => {
                self.mode = Mode::Cancelled;
                return Ok(());
            }
            Action::EndOfFile => return Err(Error::EndOfFile),
            Action::Repaint | Action::NoAction => return Ok(()),
            Action::Complete => return self.complete(host),
            Action::InsertChar(count, c) => self.edit(host, Edit::InsertChar(count, c))?,
            Action::InsertText(count, text) => {
                self.edit(host, Edit::InsertText(count, text.as_str()))?
            }
            Action::Move(movement) => {
                self.leave_search();
                self.line.exec_movement(movement);
            }
            Action::Kill(movement) => self.edit(host, Edit::Kill(movement, movement))?,
            Action::KillAndMove(kill, movement) => self.edit(host, Edit::Kill(kill, movement))?,
            Action::HistoryPrevious => self.step_back(host)?,
            Action::HistoryNext => self.step_forth(host)?,
            Action::HistoryIncSearchBackwards => self.search(host, SearchDirection::Backwards)?,
            Action::HistoryIncSearchForwards => self.search(host, SearchDirection::Forwards)?,
        }
        self.cycle = None;
        Ok(())
    }

    /// Returns the answer at the end of a run: a copy of the line, or `None` if the run was cancelled. Never allocates for
    /// the empty line.
    pub fn answer(&self) -> Result<Option<String>, AllocError>
        ensures ok { IfOk result (λ line. outcome_of (Ok line) ≡ answer_at self.now.state) }
        ensures err { OnErr result (TakesMemoryToCopy (answer_at self.now.state)) }
    {
        match self.mode {
            Mode::Cancelled => Ok(None),
            Mode::Inactive | Mode::Editing | Mode::Accepted | Mode::Searching { .. } => {
                if self.line.get_line().is_empty() {
                    return Ok(Some(String::new(self.alloc)));
                }
                let line = String::from_str(self.alloc, self.line.get_line())?;
                Ok(Some(line))
            }
        }
    }

    /// Asks the host, which may change itself and the line. If it is refused, nothing is changed. A host that leaves
    /// its events to the key table is not asked, and so does not refuse.
    pub fn resolve<H: LineEditorHost>(
        &mut self,
        host: &mut H,
        event: &InputEvent,
    ) -> Result<Option<Action>, AllocError>
        ensures state { let answer = H.rules.resolve (H.value host.old) (event_view event.now)
            self.old.state.cut in
            OnOk result (self.new ≡ on_state
            (λ state. record state { cut = answer.cut }) self.old) }
        ensures value { let answer = H.rules.resolve (H.value host.old) (event_view event.now)
            self.old.state.cut in
            OnOk result (H.value host.new ≡ answer.value) }
        ensures action { let answer = H.rules.resolve (H.value host.old) (event_view event.now)
            self.old.state.cut in
            IfOk result (λ action. option_map action_view action ≡ answer.action) }
        ensures err { OnErr result ((self.new ≡ self.old) × (H.value host.new ≡ H.value host.old)) }
        ensures own { OnErr result (H.OVERRIDES.resolve_action ≡ true) }
    {
        if !H::OVERRIDES.resolve_action {
            return Ok(None);
        }
        host.resolve_action(self.alloc, event, &mut self.line)
    }

    /// Returns the batch that paints this state at a size, after its start move, and its mark.
    pub fn painting<H: LineEditorHost>(
        &self,
        host: &H,
        size: ScreenSize,
    ) -> Result<(Vec<Change>, Mark), Error>
        ensures ok { let scene = scene_of H.rules (H.value host.now) self.now.state false in
            IfOk result (λ shown. rendering_of self.now.mark (painted_on size scene)
            ≡ Ok (record { changes = batch_view shown.0.items; mark = shown.1 })) }
        ensures err { IfErr result (IsUnpainted size
            (scene_of H.rules (H.value host.now) self.now.state false)) }
    {
        self.painting_over(host, size, self.mark)
    }

    /// Returns the same over another painting, or over none.
    pub fn painting_over<H: LineEditorHost>(
        &self,
        host: &H,
        size: ScreenSize,
        before: Option<Mark>,
    ) -> Result<(Vec<Change>, Mark), Error>
        ensures ok { let scene = scene_of H.rules (H.value host.now) self.now.state false in
            IfOk result (λ shown. rendering_of before (painted_on size scene)
            ≡ Ok (record { changes = batch_view shown.0.items; mark = shown.1 })) }
        ensures err { IfErr result (IsUnpainted size
            (scene_of H.rules (H.value host.now) self.now.state false)) }
    {
        let below = match &self.mode {
            Mode::Searching { direction, .. } => Below::Search {
                direction: *direction,
                pattern: self.line.get_line(),
            },
            Mode::Editing => Below::Preview,
            Mode::Inactive | Mode::Cancelled | Mode::Accepted => Below::Nothing,
        };
        let prompt = self.prompt.as_str();
        let line = self.shown_line();
        painting(host, self.alloc, prompt, line, below, size, before)
    }

    /// Returns the line that is shown: while searching the matching one.
    fn shown_line(&self) -> &LineEditBuffer
        ensures { result.now ≡ shown_in self.now.state.cut self.now.state.mode }
    {
        match &self.mode {
            Mode::Searching { matching, .. } => matching,
            Mode::Inactive | Mode::Editing | Mode::Cancelled | Mode::Accepted => &self.line,
        }
    }
}
