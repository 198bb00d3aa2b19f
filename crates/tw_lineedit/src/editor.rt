//! The editor: it reads events from a terminal, and shows the line on it.

ghost use Rattle.std.specs.Prelude.{◌≡◌, ◌≢◌, [], Some, None, Ok, Err, IfOk, IfErr, IsOk, OnOk, OnErr, MatchBool, IsSome, true};
ghost use Rattle.std.specs.Borrow.{sem};
ghost use Rattle.std.specs.Str.{IsCharBoundary};
ghost use Rattle.tw_input.specs.EventView.{event_view};
ghost use Rattle.tw_terminal.specs.TerminalState.{Takes};
ghost use Rattle.tw_host.specs.ActionView.{action_view, Repaint};
ghost use Rattle.tw_line.specs.Cut.{cut_at};
ghost use Rattle.tw_host.specs.KeyTable.{action_of};
ghost use Rattle.tw_session.specs.EditState.{Inactive};
ghost use Rattle.tw_session.specs.Outcomes.{outcome_of};
ghost use Rattle.tw_session.specs.SessionView.{new_session, on_state};
ghost use Rattle.tw_session.specs.Refusal.{IsMemory};
ghost use Rattle.tw_lineedit.specs.Frame.{across, frame, own_frame, IsSame};
ghost use Rattle.tw_lineedit.specs.Lines.{BeginsWith, IsAnsweredWith, ReadsWith, RunShowsWith, ShowsWith, StopsWith};
ghost use Rattle.tw_lineedit.specs.Lent.{EndsAs, editor_row, KeepsTerminal};
ghost use Rattle.tw_lineedit.specs.EditorSteps.{Closes, FailsToClose, Paints, FailsToPaint, Applies, FailsToApply, Handles, FailsToHandle, HandlesAndPaints, FailsToHandleOrPaint, GivesUp};
ghost use Rattle.tw_lineedit.specs.Feeding.{Begins, IsNotBegun, IsRefusedOn, Continues, IsEnded, IsAnsweredOn};
ghost use Rattle.tw_lineedit.specs.Reading.{initial_text, start, Reads, FailsToRead, IsTurnedDown, FailuresTell};

mod above;
mod feeding;

pub use feeding::LineStatus;
use std::alloc::{AllocError, Global};
use tw_host::{Action, LineEditorHost, default_action};
use tw_input::InputEvent;
use tw_session::{Error, Mark, Session};
use tw_surface::{Change, ColorAttribute};
use tw_terminal::Terminal;

/// A line editor over a terminal, which it borrows.
pub type LineEditor<'term, T> = EditorOver<'term, T, Session>;

/// A terminal, and what an editor holds beside it. It is written as `LineEditor`.
pub struct EditorOver<'term, T: Terminal, S: Drop> {
    pub(crate) terminal: &'term mut T,
    pub(crate) session: S,
}

impl<T: Terminal, S: Drop> Drop for EditorOver<'_, T, S> {
    fn drop(self)
        ensures { self.exit.0.now ≡ self.entry.terminal.now }
    {
        let EditorOver {
            terminal: _,
            session,
        } = self;
        drop(session);
    }
}

impl<'term, T: Terminal> LineEditor<'term, T> {
    /// Creates an editor with the prompt `> ` and an empty line. Takes no memory and calls nothing of the terminal, so
    /// it always succeeds.
    pub fn new(alloc: Global, terminal: &'term mut T) -> Result<Self, Error>
        ensures succeeds { IsOk result }
        ensures same_reference { IfOk result (λ editor. editor.terminal.ghost_name
            ≡ terminal.entry.ghost_name) }
        ensures terminal { IfOk result (λ editor. editor.terminal.now ≡ terminal.old) }
        ensures state { IfOk result (λ editor. editor.session ≡ new_session) }
    {
        let session = Session::new(alloc);
        Ok(EditorOver { terminal, session })
    }

    /// Sets the prompt, which is `> ` at first. A refusal changes nothing.
    pub fn set_prompt(&mut self, prompt: &str) -> Result<(), Error>
        ensures same_reference { self.new.terminal.ghost_name ≡ self.old.terminal.ghost_name }
        ensures terminal { self.new.terminal.now ≡ self.old.terminal.now }
        ensures ok { OnOk result (self.new.session
            ≡ on_state (λ state. record state { prompt = prompt.now }) self.old.session) }
        ensures err { OnErr result (self.new.session ≡ self.old.session) }
        ensures memory { IfErr result IsMemory }
    {
        self.session.set_prompt(prompt)?;
        Ok(())
    }

    /// Returns the line and the byte offset of its cursor, a character boundary. Takes no memory, and changes neither
    /// the editor nor its terminal.
    pub fn get_line_and_cursor(&mut self) -> (&str, usize)
        ensures* same { sem 𝓛 (EndsAs (editor_row T.row) self.entry self.old) }
        ensures line { result.0.now ≡ self.old.session.state.cut.line }
        ensures cursor { result.1 ≡ self.old.session.state.cut.cursor }
        ensures boundary { IsCharBoundary result.0.now result.1 }
    {
        self.session.get_line_and_cursor()
    }

    /// Sets the line and its cursor, a byte offset at a character boundary. A refusal changes nothing. The empty line
    /// needs no memory.
    pub fn set_line_and_cursor(&mut self, line: &str, cursor: usize) -> Result<(), Error>
        requires { IsCharBoundary line.now cursor }
        ensures same_reference { self.new.terminal.ghost_name ≡ self.old.terminal.ghost_name }
        ensures terminal { self.new.terminal.now ≡ self.old.terminal.now }
        ensures ok { OnOk result (self.new.session
            ≡ on_state (λ state. record state { cut = cut_at line.now cursor }) self.old.session) }
        ensures err { OnErr result (self.new.session ≡ self.old.session) }
        ensures empty { line.now ≡ [] → IsOk result }
        ensures memory { IfErr result IsMemory }
    {
        self.session.set_line_and_cursor(line, cursor)?;
        Ok(())
    }

    /// Paints the session over its painting before.
    fn paint<H: LineEditorHost>(&mut self, host: &H) -> Result<(), Error>
        ensures terminal { KeepsTerminal T.follows self.old.terminal self.new.terminal }
        ensures ok { OnOk result (across T.state H.value (Paints H.rules)
            self.old host.now self.new host.now) }
        ensures err { IfErr result (across T.state H.value (FailsToPaint H.rules)
            self.old host.now self.new host.now) }
    {
        let size = self.terminal.get_screen_size()?;
        let (changes, mark) = self.session.painting(host, size)?;
        self.terminal.render(changes.as_slice())?;
        self.session.set_mark(mark);
        Ok(())
    }

    /// Applies an action to the line and the mode, whatever the mode is. `Repaint` clears the screen, and no other
    /// action calls the terminal. A refusal changes nothing, but the terminal may have taken a beginning of the
    /// clearing.
    #[tactic(auto, unfolding(tw_session::specs::Steps::apply))]
    pub fn apply_action<H: LineEditorHost>(
        &mut self,
        host: &mut H,
        action: Action,
    ) -> Result<(), Error>
        ensures terminal { KeepsTerminal T.follows self.old.terminal self.new.terminal }
        ensures host { host.new ≡ host.old }
        ensures uncalled { action_view action ≢ Repaint → self.new.terminal.now
            ≡ self.old.terminal.now }
        ensures ok { OnOk result (across T.state H.value
            (Applies H.rules (Some (action_view action))) self.old host.old self.new host.new) }
        ensures err { IfErr result (across T.state H.value
            (FailsToApply H.rules H.OVERRIDES (Some (action_view action)))
            self.old host.old self.new host.new) }
        ensures failures { FailuresTell result (T.state self.old.terminal.now).failures
            (T.state self.new.terminal.now).failures }
    {
        match action {
            Action::Repaint => {
                let clearing = [Change::ClearScreen(ColorAttribute::Default)];
                Ok(self.terminal.render(&clearing)?)
            }
            action => self.session.act(host, action),
        }
    }

    /// Applies what the host makes of the event, or else what the key table does.
    fn handle<H: LineEditorHost>(&mut self, host: &mut H, event: &InputEvent) -> Result<(), Error>
        ensures terminal { KeepsTerminal T.follows self.old.terminal self.new.terminal }
        ensures ok { OnOk result (across T.state H.value (Handles H.rules (event_view event.now))
            self.old host.old self.new host.new) }
        ensures err { IfErr result (across T.state H.value
            (FailsToHandle H.rules H.OVERRIDES (event_view event.now))
            self.old host.old self.new host.new) }
    {
        match self.session.resolve(host, event)? {
            Some(action) => self.apply_action(host, action),
            None => self.handle_default(host, event),
        }
    }

    /// Applies what the key table makes of the event.
    fn handle_default<H: LineEditorHost>(
        &mut self,
        host: &mut H,
        event: &InputEvent,
    ) -> Result<(), Error>
        ensures terminal { KeepsTerminal T.follows self.old.terminal self.new.terminal }
        ensures host { host.new ≡ host.old }
        ensures ok { OnOk result (across T.state H.value
            (Applies H.rules (action_of (event_view event.now)))
            self.old host.old self.new host.new) }
        ensures err { IfErr result (across T.state H.value
            (FailsToApply H.rules H.OVERRIDES (action_of (event_view event.now)))
            self.old host.old self.new host.new) }
    {
        match default_action(self.session.alloc(), event)? {
            Some(action) => self.apply_action(host, action),
            None => Ok(()),
        }
    }

    /// Handles the event, and paints.
    #[tactic(auto, using(crate::proofs::FeedingLemmas::advances_if, crate::proofs::FeedingLemmas::stays_if))]
    fn advance<H: LineEditorHost>(&mut self, host: &mut H, event: &InputEvent) -> Result<(), Error>
        ensures terminal { KeepsTerminal T.follows self.old.terminal self.new.terminal }
        ensures ok { OnOk result (across T.state H.value
            (HandlesAndPaints H.rules (event_view event.now)) self.old host.old self.new host.new) }
        ensures err { IfErr result (across T.state H.value
            (FailsToHandleOrPaint H.rules H.OVERRIDES (event_view event.now))
            self.old host.old self.new host.new) }
    {
        self.handle(host, event)?;
        self.paint(host)
    }

    /// Takes an event, handles it, and paints. Returns false if the run ends.
    fn turn<H: LineEditorHost>(&mut self, host: &mut H) -> Result<bool, Error>
        ensures terminal { KeepsTerminal T.follows self.old.terminal self.new.terminal }
        ensures ok { IfOk result (λ more. MatchBool more
            (Continues H.rules H.OVERRIDES (frame T.state H.value self.old host.old)
            (frame T.state H.value self.new host.new))
            (IsEnded H.rules H.OVERRIDES (frame T.state H.value self.old host.old)
            (frame T.state H.value self.new host.new))) }
        ensures err { IfErr result (across T.state H.value
            (IsRefusedOn H.rules H.OVERRIDES (T.state self.old.terminal.now).events)
            self.old host.old self.new host.new) }
    {
        if self.session.is_over() {
            return Ok(false);
        }
        match self.terminal.poll_input()? {
            Some(event) => {
                self.advance(host, &event)?;
                Ok(true)
            }
            None => Ok(false),
        }
    }

    /// Takes events up to the end of the run, and returns a copy of the line.
    #[tactic(auto, using(crate::proofs::TurnLemmas::ended_later))]
    fn run_to_end<H: LineEditorHost>(&mut self, host: &mut H) -> Result<Option<String>, Error>
        ensures terminal { KeepsTerminal T.follows self.old.terminal self.new.terminal }
        ensures ok { IfOk result (λ it. across T.state H.value (IsAnsweredOn H.rules)
            self.old host.old self.new host.new (outcome_of (Ok it))) }
        ensures err { IfErr result (across T.state H.value
            (IsRefusedOn H.rules H.OVERRIDES (T.state self.old.terminal.now).events)
            self.old host.old self.new host.new) }
    {
        while self.turn(host)? {}
        Ok(self.session.answer()?)
    }

    /// Ends the run: the mode is Inactive, nothing counts as painted, and the closing batch is rendered and flushed.
    fn close(&mut self) -> Result<(), Error>
        ensures terminal { KeepsTerminal T.follows self.old.terminal self.new.terminal }
        ensures ok { OnOk result (Closes (own_frame T.state self.old)
            (own_frame T.state self.new)) }
        ensures err { IfErr result (FailsToClose (own_frame T.state self.old)
            (own_frame T.state self.new)) }
    {
        match self.session.end() {
            None => {}
            Some(mark) => self.terminal.render(&mark.closing_batch())?,
        }
        Ok(self.terminal.flush()?)
    }

    /// Empties the line, or fills it with the initial value.
    fn begin(&mut self, initial: Option<&str>) -> Result<(), AllocError>
        ensures same_reference { self.new.terminal.ghost_name ≡ self.old.terminal.ghost_name }
        ensures terminal { self.new.terminal.now ≡ self.old.terminal.now }
        ensures ok { OnOk result (own_frame T.state self.new
            ≡ start (initial_text initial.entry) (own_frame T.state self.old)) }
        ensures err { OnErr result (own_frame T.state self.new
            ≡ start None (own_frame T.state self.old)) }
        ensures initial { OnErr result (IsSome (initial_text initial.entry)) }
    {
        self.session.begin();
        match initial {
            None => Ok(()),
            Some(text) => self.session.set_line_and_cursor(text, text.len()),
        }
    }

    /// Begins a line and paints it.
    #[tactic(auto, using(crate::proofs::FeedingLemmas::begins_if, crate::proofs::FeedingLemmas::not_begun_if))]
    fn start_line<H: LineEditorHost>(
        &mut self,
        host: &H,
        initial: Option<&str>,
    ) -> Result<(), Error>
        ensures terminal { KeepsTerminal T.follows self.old.terminal self.new.terminal }
        ensures ok { OnOk result (across T.state H.value
            (BeginsWith H.rules H.OVERRIDES (initial_text initial.entry))
            self.old host.now self.new host.now) }
        ensures err { IfErr result (across T.state H.value
            (IsNotBegun H.rules (initial_text initial.entry)) self.old host.now self.new host.now) }
    {
        match self.begin(initial) {
            Ok(()) => self.paint(host),
            Err(e) => Err(Error::Memory(e)),
        }
    }

    /// Reads a line, all up to the closing.
    #[tactic(auto, using(crate::proofs::TurnLemmas::answered_begun, crate::proofs::FeedingLemmas::turned_down))]
    fn read_open<H: LineEditorHost>(
        &mut self,
        host: &mut H,
        initial: Option<&str>,
    ) -> Result<Option<String>, Error>
        ensures terminal { KeepsTerminal T.follows self.old.terminal self.new.terminal }
        ensures ok { IfOk result (λ it. across T.state H.value
            (IsAnsweredWith H.rules (initial_text initial.entry))
            self.old host.old self.new host.new (outcome_of (Ok it))) }
        ensures err { IfErr result (across T.state H.value
            (IsTurnedDown H.rules H.OVERRIDES (initial_text initial.entry))
            self.old host.old self.new host.new) }
    {
        self.start_line(host, initial)?;
        self.run_to_end(host)
    }

    /// Closes after a refusal, and returns it, or else why the closing is refused.
    fn give_up(&mut self, refusal: Error) -> Error
        ensures terminal { KeepsTerminal T.follows self.old.terminal self.new.terminal }
        ensures gives_up { GivesUp refusal (own_frame T.state self.old)
            (own_frame T.state self.new) result }
    {
        match self.close() {
            Ok(()) => refusal,
            Err(fault) => fault,
        }
    }

    /// Reads a line and closes, whether it was refused or not.
    #[tactic(auto, using(crate::proofs::ClosingLemmas::call_given_up, crate::proofs::ClosingLemmas::answered_closed))]
    fn read<H: LineEditorHost>(
        &mut self,
        host: &mut H,
        initial: Option<&str>,
    ) -> Result<Option<String>, Error>
        ensures terminal { KeepsTerminal T.follows self.old.terminal self.new.terminal }
        ensures ok { IfOk result (λ it. across T.state H.value
            (ReadsWith H.rules (initial_text initial.entry)) self.old host.old self.new host.new
            (outcome_of (Ok it))) }
        ensures err { IfErr result (across T.state H.value
            (FailsToRead H.rules H.OVERRIDES (initial_text initial.entry))
            self.old host.old self.new host.new) }
    {
        match self.read_open(host, initial) {
            Ok(line) => {
                self.close()?;
                Ok(line)
            }
            Err(refusal) => Err(self.give_up(refusal)),
        }
    }

    /// Reads a line that begins with the initial value, its cursor at the end. Returns the line if it was accepted or
    /// no event is left, and `None` if it was cancelled. Events after the one that ended it are left.
    ///
    /// `Recursive` leaves all as it was. Every other refusal leaves the mode Inactive and the line as it was when the
    /// call was refused; the closing batch is rendered and flushed, unless the terminal refuses that too: then that
    /// refusal is returned.
    pub fn read_line_with_optional_initial_value<H: LineEditorHost>(
        &mut self,
        host: &mut H,
        initial_value: Option<&str>,
    ) -> Result<Option<String>, Error>
        ensures terminal { KeepsTerminal T.follows self.old.terminal self.new.terminal }
        ensures recursive { self.old.session.state.mode ≢ Inactive → (result ≡ Err Error.Recursive)
            × (self.new.terminal.now ≡ self.old.terminal.now) × (host.new ≡ host.old)
            × across T.state H.value IsSame self.old host.old self.new host.new }
        ensures ok { self.old.session.state.mode ≡ Inactive
            → IfOk result (λ it. across T.state H.value
            (ReadsWith H.rules (initial_text initial_value.entry))
            self.old host.old self.new host.new (outcome_of (Ok it))) }
        ensures err { self.old.session.state.mode ≡ Inactive
            → IfErr result (across T.state H.value
            (FailsToRead H.rules H.OVERRIDES (initial_text initial_value.entry))
            self.old host.old self.new host.new) }
        ensures shows { self.old.session.state.mode ≡ Inactive
            → across T.state H.value (ShowsWith H.rules (initial_text initial_value.entry))
            self.old host.old self.new host.new result }
        ensures run { RunShowsWith H.rules (initial_text initial_value.entry)
            (frame T.state H.value self.old host.old) }
        ensures stopped { self.old.session.state.mode ≡ Inactive
            → across T.state H.value (StopsWith H.rules (initial_text initial_value.entry))
            self.old host.old self.new host.new result }
        ensures failures { FailuresTell result (T.state self.old.terminal.now).failures
            (T.state self.new.terminal.now).failures }
    {
        if !self.session.is_inactive() {
            return Err(Error::Recursive);
        }
        self.read(host, initial_value)
    }

    /// Reads a line that begins empty, as `read_line_with_optional_initial_value` does.
    pub fn read_line<H: LineEditorHost>(&mut self, host: &mut H) -> Result<Option<String>, Error>
        ensures terminal { KeepsTerminal T.follows self.old.terminal self.new.terminal }
        ensures recursive { self.old.session.state.mode ≢ Inactive → (result ≡ Err Error.Recursive)
            × (self.new.terminal.now ≡ self.old.terminal.now) × (host.new ≡ host.old)
            × across T.state H.value IsSame self.old host.old self.new host.new }
        ensures ok { self.old.session.state.mode ≡ Inactive
            → IfOk result (λ it. across T.state H.value (ReadsWith H.rules None)
            self.old host.old self.new host.new (outcome_of (Ok it))) }
        ensures err { self.old.session.state.mode ≡ Inactive
            → IfErr result (across T.state H.value (FailsToRead H.rules H.OVERRIDES None)
            self.old host.old self.new host.new) }
        ensures shows { self.old.session.state.mode ≡ Inactive
            → across T.state H.value (ShowsWith H.rules None)
            self.old host.old self.new host.new result }
        ensures run { RunShowsWith H.rules None
            (frame T.state H.value self.old host.old) }
        ensures stopped { self.old.session.state.mode ≡ Inactive
            → across T.state H.value (StopsWith H.rules None)
            self.old host.old self.new host.new result }
        ensures failures { FailuresTell result (T.state self.old.terminal.now).failures
            (T.state self.new.terminal.now).failures }
    {
        self.read_line_with_optional_initial_value(host, None)
    }
}
