//! Reads a line from a device.

ghost use Rattle.std.specs.Prelude.{◌≡◌, ◌≢◌, [], true, Ok, IfOk, IfErr, OnOk, None, length, ◌+◌, MatchOption};
ghost use Rattle.tw_lineedit.specs.Frame.{frame, own_frame};
ghost use Rattle.tw_lineedit.specs.EditState.{Inactive};
ghost use Rattle.tw_lineedit.specs.Feeding.{Begins, FailsToBegin, FailsToFinish};
ghost use Rattle.tw_lineedit.specs.Outcomes.{answer_at, is_open, outcome_of};
ghost use Rattle.tw_lineedit.specs.Reading.{start, Reads};
ghost use Rattle.tw_lineedit.specs.Run.{ending};
ghost use Rattle.tw_device.specs.Live.{taken_on, taken_over, fresh_frame, ComesBy, FailsBy, IsToldAnswer, IsRefusedTold, IsRead, FailsToReadTold, StopsOn, StopsFeeding, answer_from};
ghost use Rattle.tw_device.specs.Steps.{seen_at, state_in, events_in, Asks, Goes, GoesInTime, IsCalledOn, IsDueBy, IsPrompt};

use crate::device::Device;
use std::alloc::Global;
use tw_input::InputEvent;
use tw_lineedit::{Error, LineEditor, LineEditorHost, LineStatus};
use tw_terminal::TerminalFault;

/// How a reading ended.
#[derive(Debug, Drop)]
pub enum Answer {
    /// The line was accepted.
    Line(String),
    /// The line was cancelled.
    Cancelled,
    /// The input ended: there were no more events, with this line typed so far; or a key asked for the end, as
    /// Ctrl-D does, with an empty line.
    End(String),
}

/// Why no more events are fed to a line.
#[derive(Debug, Clone, Copy, PartialEq, Eq)]
enum Stop {
    /// The line was accepted or cancelled.
    Ended,
    /// There are no more events.
    SourceEnd,
    /// The device refused to tell one.
    SourceFault(TerminalFault),
    /// 2^64 - 1 events came, and none of them ended the line.
    Endless,
}

/// Begins a line.
pub(crate) fn begin<D: Device, H: LineEditorHost>(
    editor: &mut LineEditor<'_, D>,
    host: &H,
) -> Result<(), Error>
    ensures same_reference { editor.new.terminal.ghost_name ≡ editor.old.terminal.ghost_name }
    ensures calls { IsCalledOn D.state D.log D.law editor.old.terminal.now editor.new.terminal.now }
    ensures ok { let before = frame D.state H.value editor.old host.now in
        let after = frame D.state H.value editor.new host.now in
        editor.old.session.state.mode ≡ Inactive
        → OnOk result (Begins H.rules H.OVERRIDES (start None before) after) }
    ensures open { editor.old.session.state.mode ≡ Inactive
        → OnOk result (is_open editor.new.session.state.mode ≡ true) }
    ensures err { let before = frame D.state H.value editor.old host.now in
        let after = frame D.state H.value editor.new host.now in
        editor.old.session.state.mode ≡ Inactive
        → IfErr result (FailsToBegin H.rules None before after) }
{
    editor.begin_line(host, None)
}

/// Asks the device for the next event.
pub(crate) fn ask<D: Device>(
    editor: &mut LineEditor<'_, D>,
) -> Result<Option<InputEvent>, TerminalFault>
    ensures same_reference { editor.new.terminal.ghost_name ≡ editor.old.terminal.ghost_name }
    ensures session { editor.new.session ≡ editor.old.session }
    ensures asks { Asks result (seen_at D.state D.log editor.old.terminal.now)
        (seen_at D.state D.log editor.new.terminal.now) }
    ensures law { D.law editor.old.terminal.now editor.new.terminal.now }
{
    editor.terminal().next_event()
}

/// Feeds an open line the next event. Returns why no more are fed, if so.
fn take_event<D: Device, H: LineEditorHost>(
    editor: &mut LineEditor<'_, D>,
    host: &mut H,
) -> Result<Option<Stop>, Error>
    requires { is_open editor.old.session.state.mode ≡ true }
    ensures same_reference { editor.new.terminal.ghost_name ≡ editor.old.terminal.ghost_name }
    ensures ok { let before = frame D.state H.value editor.old host.old in
        let after = frame D.state H.value editor.new host.new in
        OnOk result (ComesBy H.rules H.OVERRIDES (events_in (D.log editor.old.terminal.now))
        (events_in (D.log editor.new.terminal.now)) before after) }
    ensures stopped { IfOk result (λ stop. (editor.new.session.state.mode ≢ Inactive)
        × StopsOn stop (is_open editor.new.session.state.mode)
        (D.log editor.old.terminal.now) (D.log editor.new.terminal.now)) }
    ensures err { let before = frame D.state H.value editor.old host.old in
        let after = frame D.state H.value editor.new host.new in
        IfErr result (FailsBy H.rules H.OVERRIDES (events_in (D.log editor.old.terminal.now))
        (events_in (D.log editor.new.terminal.now)) before after) }
    ensures goes { let before = frame D.state H.value editor.old host.old in
        Goes D.state D.log D.law (IsDueBy (taken_on H.rules before))
        editor.old.terminal.now editor.new.terminal.now }
{
    match ask(editor) {
        Ok(Some(event)) => match editor.feed(host, &event)? {
            LineStatus::Open => Ok(None),
            LineStatus::Ended => Ok(Some(Stop::Ended)),
        },
        Ok(None) => Ok(Some(Stop::SourceEnd)),
        Err(fault) => Ok(Some(Stop::SourceFault(fault))),
    }
}

/// Feeds an open line what the device tells, up to the line's end or the last event.
fn take_events<D: Device, H: LineEditorHost>(
    editor: &mut LineEditor<'_, D>,
    host: &mut H,
) -> Result<Stop, Error>
    requires { is_open editor.old.session.state.mode ≡ true }
    ensures same_reference { editor.new.terminal.ghost_name ≡ editor.old.terminal.ghost_name }
    ensures ok { let before = frame D.state H.value editor.old host.old in
        let after = frame D.state H.value editor.new host.new in
        OnOk result (ComesBy H.rules H.OVERRIDES (events_in (D.log editor.old.terminal.now))
        (events_in (D.log editor.new.terminal.now)) before after) }
    ensures stopped { let is_open_after = is_open editor.new.session.state.mode in
        IfOk result (λ stop. (editor.new.session.state.mode ≢ Inactive)
        × StopsFeeding stop is_open_after (state_in (D.log editor.new.terminal.now))
        (events_in (D.log editor.old.terminal.now)) (events_in (D.log editor.new.terminal.now))) }
    ensures err { let before = frame D.state H.value editor.old host.old in
        let after = frame D.state H.value editor.new host.new in
        IfErr result (FailsBy H.rules H.OVERRIDES (events_in (D.log editor.old.terminal.now))
        (events_in (D.log editor.new.terminal.now)) before after) }
    ensures goes { let before = frame D.state H.value editor.old host.old in
        Goes D.state D.log D.law (IsDueBy (taken_on H.rules before))
        editor.old.terminal.now editor.new.terminal.now }
{
    for turn in 0..u64::MAX {
        let _told = turn;
        if let Some(stop) = take_event(editor, host)? {
            return Ok(stop);
        }
    }
    Ok(Stop::Endless)
}

/// Ends a line.
pub(crate) fn finish<D: Device>(editor: &mut LineEditor<'_, D>) -> Result<Option<String>, Error>
    ensures same_reference { editor.new.terminal.ghost_name ≡ editor.old.terminal.ghost_name }
    ensures calls { IsCalledOn D.state D.log D.law editor.old.terminal.now editor.new.terminal.now }
    ensures ok { let before = own_frame D.state editor.old in
        let after = own_frame D.state editor.new in
        let run = ending (answer_at before.state) before in
        before.state.mode ≢ Inactive → IfOk result
        (λ it. Reads run before after (outcome_of (Ok it))) }
    ensures err { IfErr result (FailsToFinish (own_frame D.state editor.old)
        (own_frame D.state editor.new)) }
{
    editor.finish_line()
}

/// Returns what a reading answers, by its line and by why no more events are fed.
fn answer_of(line: Option<String>, stop: Stop) -> Result<Answer, Error>
    ensures { result ≡ answer_from line stop }
{
    match (line, stop) {
        (_, Stop::SourceFault(fault)) => Err(Error::Terminal(fault)),
        (_, Stop::Endless) => Err(Error::Terminal(TerminalFault::Device)),
        (None, _) => Ok(Answer::Cancelled),
        (Some(line), Stop::Ended) => Ok(Answer::Line(line)),
        (Some(line), Stop::SourceEnd) => Ok(Answer::End(line)),
    }
}

/// Reads a line with a new editor, up to the event that ends it or the last one.
fn read_events<D: Device, H: LineEditorHost>(
    alloc: Global,
    device: &mut D,
    host: &mut H,
    prompt: &str,
) -> Result<Answer, Error>
    ensures ok { let begun = fresh_frame prompt.now (H.value host.old) (D.state device.old) in
        IfOk result (IsRead H.rules (events_in (D.log device.old)) (events_in (D.log device.new))
        (state_in (D.log device.new)) begun (H.value host.new) (D.state device.new)) }
    ensures err { let begun = fresh_frame prompt.now (H.value host.old) (D.state device.old) in
        IfErr result (FailsToReadTold H.rules H.OVERRIDES (events_in (D.log device.old))
        (events_in (D.log device.new)) (state_in (D.log device.new)) begun
        (H.value host.new) (D.state device.new)) }
    ensures goes { let begun = fresh_frame prompt.now (H.value host.old) (D.state device.old) in
        Goes D.state D.log D.law (IsDueBy (taken_over H.rules begun)) device.old device.new }
{
    let mut editor = LineEditor::new(alloc, device)?;
    editor.set_prompt(prompt)?;
    begin(&mut editor, host)?;
    let stop = take_events(&mut editor, host)?;
    let line = finish(&mut editor)?;
    answer_of(line, stop)
}

/// Reads a line with a new editor from a device, up to the event that ends the line or the last event. The answer, the
/// batches, the screen's size and the host's value are those of the abstract editor's run over exactly the events that
/// the device told. The action `EndOfFile`, as Ctrl-D of the key table, is answered by `Answer::End` with an empty line,
/// as is the last event with the line typed so far.
///
/// The device tells each event when it has taken all batches that the run takes before it (`log`). At each waiting all
/// that was taken is sent, and at the end, unless the closing of a refused line was refused too (`prompt`). What else
/// the device did follows its own law (`law`).
///
/// If the device refuses to tell an event, the line is closed as at the last one, and the call fails with that refusal.
/// It fails with `Device` if one call was told 2^64 - 1 events and none of them ended the line. Every other refusal is
/// as one of `read_line`.
pub fn read_line_from<D: Device, H: LineEditorHost>(
    alloc: Global,
    device: &mut D,
    host: &mut H,
    prompt: &str,
) -> Result<Answer, Error>
    ensures ok { let begun = fresh_frame prompt.now (H.value host.old) (D.state device.old) in
        IfOk result (IsToldAnswer H.rules H.OVERRIDES (events_in (D.log device.old))
        (events_in (D.log device.new)) (state_in (D.log device.new)) begun
        (H.value host.new) (D.state device.new)) }
    ensures err { let begun = fresh_frame prompt.now (H.value host.old) (D.state device.old) in
        IfErr result (IsRefusedTold H.rules H.OVERRIDES (events_in (D.log device.old))
        (events_in (D.log device.new)) (state_in (D.log device.new)) begun
        (H.value host.new) (D.state device.new)) }
    ensures log { let begun = fresh_frame prompt.now (H.value host.old) (D.state device.old) in
        GoesInTime (IsDueBy (taken_over H.rules begun)) (seen_at D.state D.log device.old)
        (seen_at D.state D.log device.new) }
    ensures prompt { IsPrompt (seen_at D.state D.log device.old)
        → IsPrompt (seen_at D.state D.log device.new) }
    ensures law { D.law device.old device.new }
{
    match read_events(alloc, device, host, prompt) {
        Err(Error::EndOfFile) => Ok(Answer::End(String::new(alloc))),
        read => read,
    }
}
