//! A line that is fed its events as they come.

ghost use Rattle.std.specs.Prelude.{◌≡◌, ◌≢◌, Ok, Err, None, IfOk, IfErr, OnOk, true, false};
ghost use Rattle.std.specs.Borrow.{sem};
ghost use Rattle.tw_lineedit.specs.Frame.{across, own_frame, IsSame};
ghost use Rattle.tw_lineedit.specs.Lines.{BeginsWith, ShowsFirstWith, FinishesLine};
ghost use Rattle.tw_lineedit.specs.Lent.{KeepsTerminal, LendsTerminal};
ghost use Rattle.tw_input.specs.EventView.{event_view};
ghost use Rattle.tw_terminal.specs.TerminalState.{size_after};
ghost use Rattle.tw_session.specs.EditState.{Inactive};
ghost use Rattle.tw_session.specs.Outcomes.{outcome_of, is_open};
ghost use Rattle.tw_lineedit.specs.Feeding.{status_if, Begins, FailsToBegin, IsFed, FailsToFeed, FailsToFinish};
ghost use Rattle.tw_lineedit.specs.EditorSteps.{FailsToHandle, FailsToPaint, Handles, IsClosedAfter, Paints};
ghost use Rattle.tw_lineedit.specs.Reading.{initial_text, FailuresTell};

use crate::editor::LineEditor;
use tw_host::LineEditorHost;
use tw_input::InputEvent;
use tw_session::Error;
use tw_terminal::Terminal;

/// Whether a line that is fed its events takes more of them.
#[derive(Debug, Clone, Copy, PartialEq, Eq)]
pub enum LineStatus {
    /// It takes more.
    Open,
    /// It was accepted or cancelled.
    Ended,
}

impl<'term, T: Terminal> LineEditor<'term, T> {
    /// Begins a line that is fed its events: it is painted, and takes no event of the terminal. The line begins
    /// with the initial value, its cursor at the end. `Recursive` leaves all as it was. Every other refusal leaves no
    /// line open: the closing batch is rendered and flushed, unless the terminal refuses that too: then that refusal is
    /// returned.
    ///
    /// A screen shows the first painting as `read_line` says of it. What it shows of the later ones, whatever events
    /// the line is fed, is a law on runs.
    #[tactic(auto, using(crate::proofs::ShownLemmas::shows_begun_if))]
    pub fn begin_line<H: LineEditorHost>(
        &mut self,
        host: &H,
        initial_value: Option<&str>,
    ) -> Result<(), Error>
        ensures terminal { KeepsTerminal T.follows self.old.terminal self.new.terminal }
        ensures recursive { self.old.session.state.mode ≢ Inactive → (result ≡ Err Error.Recursive)
            × (self.new.terminal.now ≡ self.old.terminal.now)
            × across T.state H.value IsSame self.old host.now self.new host.now }
        ensures ok { self.old.session.state.mode ≡ Inactive
            → OnOk result ((is_open self.new.session.state.mode ≡ true) × across T.state H.value
            (BeginsWith H.rules H.OVERRIDES (initial_text initial_value.entry))
            self.old host.now self.new host.now) }
        ensures err { self.old.session.state.mode ≡ Inactive
            → IfErr result (across T.state H.value
            (FailsToBegin H.rules (initial_text initial_value.entry))
            self.old host.now self.new host.now) }
        ensures shows { self.old.session.state.mode ≡ Inactive
            → OnOk result (across T.state H.value
            (ShowsFirstWith H.rules (initial_text initial_value.entry))
            self.old host.now self.new host.now) }
        ensures failures { FailuresTell result (T.state self.old.terminal.now).failures
            (T.state self.new.terminal.now).failures }
    {
        if self.session.is_inactive() {
            self.open(host, initial_value)
        } else {
            Err(Error::Recursive)
        }
    }

    /// Handles an event and paints, and returns whether the line takes more events. If no line takes events, nothing is
    /// done, and `Ended` is returned. A `Resized` has to tell the size that the terminal has already.
    ///
    /// A refusal of the event by the host, of the action, of the clearing or of the painting leaves no line open. The
    /// closing batch is rendered and flushed, unless the terminal refuses that too: then that refusal is returned.
    pub fn feed<H: LineEditorHost>(
        &mut self,
        host: &mut H,
        event: &InputEvent,
    ) -> Result<LineStatus, Error>
        requires { size_after (event_view event.now) (T.state self.old.terminal.now).size
            ≡ (T.state self.old.terminal.now).size }
        ensures terminal { KeepsTerminal T.follows self.old.terminal self.new.terminal }
        ensures ended { is_open self.old.session.state.mode ≡ false
            → (result ≡ Ok LineStatus.Ended) × (self.new.terminal.now ≡ self.old.terminal.now)
            × (host.new ≡ host.old)
            × across T.state H.value IsSame self.old host.old self.new host.new }
        ensures ok { is_open self.old.session.state.mode ≡ true
            → OnOk result (across T.state H.value
            (IsFed H.rules H.OVERRIDES (event_view event.now))
            self.old host.old self.new host.new) }
        ensures status { IfOk result (λ status. status
            ≡ status_if (is_open self.new.session.state.mode)) }
        ensures err { IfErr result (across T.state H.value
            (FailsToFeed H.rules H.OVERRIDES (event_view event.now))
            self.old host.old self.new host.new) }
        ensures failures { FailuresTell result (T.state self.old.terminal.now).failures
            (T.state self.new.terminal.now).failures }
    {
        if self.session.is_open() {
            self.take(host, event)?;
        }
        Ok(self.status())
    }

    /// Handles an event as `feed` does, and does not paint. What the host shows can be prepared then, before
    /// `paint_line`. If no line takes events, nothing is done, and `Ended` is returned. A refusal closes the line as one
    /// of `feed` does.
    pub fn handle_event<H: LineEditorHost>(
        &mut self,
        host: &mut H,
        event: &InputEvent,
    ) -> Result<LineStatus, Error>
        ensures terminal { KeepsTerminal T.follows self.old.terminal self.new.terminal }
        ensures ended { is_open self.old.session.state.mode ≡ false
            → (result ≡ Ok LineStatus.Ended) × (self.new.terminal.now ≡ self.old.terminal.now)
            × (host.new ≡ host.old)
            × across T.state H.value IsSame self.old host.old self.new host.new }
        ensures ok { is_open self.old.session.state.mode ≡ true
            → OnOk result (across T.state H.value (Handles H.rules (event_view event.now))
            self.old host.old self.new host.new) }
        ensures status { IfOk result (λ status. status
            ≡ status_if (is_open self.new.session.state.mode)) }
        ensures err { IfErr result (across T.state H.value
            (IsClosedAfter (FailsToHandle H.rules H.OVERRIDES (event_view event.now)))
            self.old host.old self.new host.new) }
    {
        if self.session.is_open() {
            self.handle_or_close(host, event)?;
        }
        Ok(self.status())
    }

    /// Paints a begun line over its painting before, as `feed` does once the event is handled. If no line was begun,
    /// nothing is done. A refusal closes the line as one of `feed` does.
    pub fn paint_line<H: LineEditorHost>(&mut self, host: &H) -> Result<(), Error>
        ensures terminal { KeepsTerminal T.follows self.old.terminal self.new.terminal }
        ensures inactive { self.old.session.state.mode ≡ Inactive → (result ≡ Ok tt)
            × (self.new.terminal.now ≡ self.old.terminal.now)
            × across T.state H.value IsSame self.old host.now self.new host.now }
        ensures ok { self.old.session.state.mode ≢ Inactive
            → OnOk result (across T.state H.value (Paints H.rules)
            self.old host.now self.new host.now) }
        ensures err { IfErr result (across T.state H.value (IsClosedAfter (FailsToPaint H.rules))
            self.old host.now self.new host.now) }
    {
        if self.session.is_inactive() {
            return Ok(());
        }
        self.paint_or_close(host)
    }

    /// Ends a line that was fed its events. Returns the line, as it stands if it takes more events, and `None` if it
    /// was cancelled. The closing batch is rendered and flushed. No line is open then, whether the call is refused or
    /// not. If no line was begun, nothing is done, and `None` is returned.
    pub fn finish_line(&mut self) -> Result<Option<String>, Error>
        ensures terminal { KeepsTerminal T.follows self.old.terminal self.new.terminal }
        ensures inactive { self.old.session.state.mode ≡ Inactive → (result ≡ Ok None)
            × (self.new.terminal.now ≡ self.old.terminal.now)
            × (own_frame T.state self.new ≡ own_frame T.state self.old) }
        ensures ok { self.old.session.state.mode ≢ Inactive
            → IfOk result (λ it. FinishesLine (own_frame T.state self.old)
            (own_frame T.state self.new) (outcome_of (Ok it))) }
        ensures err { IfErr result (FailsToFinish (own_frame T.state self.old)
            (own_frame T.state self.new)) }
        ensures failures { FailuresTell result (T.state self.old.terminal.now).failures
            (T.state self.new.terminal.now).failures }
    {
        if self.session.is_inactive() {
            return Ok(None);
        }
        self.end_line()
    }

    /// Answers the line, and closes, whether it was refused or not.
    #[tactic(auto, using(crate::proofs::ClosingLemmas::finish_closed, crate::proofs::ClosingLemmas::finish_given_up))]
    fn end_line(&mut self) -> Result<Option<String>, Error>
        ensures terminal { KeepsTerminal T.follows self.old.terminal self.new.terminal }
        ensures ok { IfOk result (λ it. FinishesLine (own_frame T.state self.old)
            (own_frame T.state self.new) (outcome_of (Ok it))) }
        ensures err { IfErr result (FailsToFinish (own_frame T.state self.old)
            (own_frame T.state self.new)) }
    {
        match self.session.answer() {
            Ok(line) => {
                self.close()?;
                Ok(line)
            }
            Err(refusal) => Err(self.give_up(Error::Memory(refusal))),
        }
    }

    /// Lends the terminal, to set its size or to print on it while a line is open. The editor goes on with it as it is
    /// given back.
    pub fn terminal(&mut self) -> &mut T
        ensures* lends { sem 𝓛 (LendsTerminal T.row self.entry result) }
        ensures shows { result.now ≡ self.old.terminal.now }
    {
        self.terminal
    }

    /// Returns whether the line takes more events.
    pub(crate) fn status(&self) -> LineStatus
        ensures { result ≡ status_if (is_open self.now.session.state.mode) }
    {
        if self.session.is_open() {
            LineStatus::Open
        } else {
            LineStatus::Ended
        }
    }

    /// Begins a line and paints it, and closes where that is refused.
    #[tactic(auto, using(crate::proofs::ClosingLemmas::begun_given_up))]
    fn open<H: LineEditorHost>(&mut self, host: &H, initial: Option<&str>) -> Result<(), Error>
        ensures terminal { KeepsTerminal T.follows self.old.terminal self.new.terminal }
        ensures ok { OnOk result (across T.state H.value
            (BeginsWith H.rules H.OVERRIDES (initial_text initial.entry))
            self.old host.now self.new host.now) }
        ensures err { IfErr result (across T.state H.value
            (FailsToBegin H.rules (initial_text initial.entry))
            self.old host.now self.new host.now) }
    {
        match self.start_line(host, initial) {
            Ok(()) => Ok(()),
            Err(refusal) => Err(self.give_up(refusal)),
        }
    }

    /// Handles an event and paints, and closes where that is refused.
    #[tactic(auto, using(crate::proofs::FeedingLemmas::fed, crate::proofs::FeedingLemmas::fed_given_up))]
    fn take<H: LineEditorHost>(&mut self, host: &mut H, event: &InputEvent) -> Result<(), Error>
        requires told { size_after (event_view event.now) (T.state self.old.terminal.now).size
            ≡ (T.state self.old.terminal.now).size }
        requires open { is_open self.old.session.state.mode ≡ true }
        ensures terminal { KeepsTerminal T.follows self.old.terminal self.new.terminal }
        ensures ok { OnOk result (across T.state H.value
            (IsFed H.rules H.OVERRIDES (event_view event.now))
            self.old host.old self.new host.new) }
        ensures err { IfErr result (across T.state H.value
            (FailsToFeed H.rules H.OVERRIDES (event_view event.now))
            self.old host.old self.new host.new) }
    {
        match self.advance(host, event) {
            Ok(()) => Ok(()),
            Err(refusal) => Err(self.give_up(refusal)),
        }
    }

    /// Handles an event, and closes where that is refused.
    fn handle_or_close<H: LineEditorHost>(
        &mut self,
        host: &mut H,
        event: &InputEvent,
    ) -> Result<(), Error>
        ensures terminal { KeepsTerminal T.follows self.old.terminal self.new.terminal }
        ensures ok { OnOk result (across T.state H.value (Handles H.rules (event_view event.now))
            self.old host.old self.new host.new) }
        ensures err { IfErr result (across T.state H.value
            (IsClosedAfter (FailsToHandle H.rules H.OVERRIDES (event_view event.now)))
            self.old host.old self.new host.new) }
    {
        match self.handle(host, event) {
            Ok(()) => Ok(()),
            Err(refusal) => Err(self.give_up(refusal)),
        }
    }

    /// Paints, and closes where that is refused.
    fn paint_or_close<H: LineEditorHost>(&mut self, host: &H) -> Result<(), Error>
        ensures terminal { KeepsTerminal T.follows self.old.terminal self.new.terminal }
        ensures ok { OnOk result (across T.state H.value (Paints H.rules)
            self.old host.now self.new host.now) }
        ensures err { IfErr result (across T.state H.value (IsClosedAfter (FailsToPaint H.rules))
            self.old host.now self.new host.now) }
    {
        match self.paint(host) {
            Ok(()) => Ok(()),
            Err(refusal) => Err(self.give_up(refusal)),
        }
    }
}
