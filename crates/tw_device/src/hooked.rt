//! Reads a line from a device with a hook.

ghost use Rattle.std.specs.Prelude.{◌≡◌, true, IfOk, OnOk};
ghost use Rattle.tw_input.specs.EventView.{event_view};
ghost use Rattle.tw_lineedit.specs.Frame.{across, frame};
ghost use Rattle.tw_lineedit.specs.Lent.{KeepsTerminal};
ghost use Rattle.tw_lineedit.specs.Outcomes.{is_open};
ghost use Rattle.tw_device.specs.Hooked.{answer_for, EndsBy, FeedsAs, IsReadHooked, ShowsHandled, TakesLine, TakesOn, TakesOver};
ghost use Rattle.tw_device.specs.Live.{fresh_frame};
ghost use Rattle.tw_device.specs.Steps.{seen_at, Goes, GoesInTime, IsPrompt};

use crate::device::Device;
use crate::hook::Hook;
use crate::reading::{Answer, ask, begin, finish};
use std::alloc::Global;
use tw_input::InputEvent;
use tw_lineedit::{Error, LineEditor, LineEditorHost, LineStatus};
use tw_terminal::{Terminal, TerminalFault};

/// What ended a line.
#[derive(Debug, Clone, Copy, PartialEq, Eq)]
enum End {
    /// An event accepted or cancelled it.
    Line,
    /// There are no more events.
    Source,
    /// An event asked for the end of the input.
    Input,
}

/// Lets the hook prepare the host for an event.
fn before<T: Terminal, H: LineEditorHost, K: Hook<H>>(
    editor: &mut LineEditor<'_, T>,
    host: &mut H,
    hook: &mut K,
    event: &InputEvent,
) -> Result<(), Error>
    ensures same { editor.new ≡ editor.old }
    ensures changes { K.rules.changes host.old host.new }
    ensures ok { OnOk result
        (K.rules.is_asked editor.old.session.state.cut (event_view event.now) host.new) }
{
    let (line, cursor) = editor.get_line_and_cursor();
    hook.before(host, line, cursor, event)
}

/// Lets the hook prepare the host for the painting of the line.
fn prepare<T: Terminal, H: LineEditorHost, K: Hook<H>>(
    editor: &mut LineEditor<'_, T>,
    host: &mut H,
    hook: &mut K,
) -> Result<(), Error>
    ensures same { editor.new ≡ editor.old }
    ensures changes { K.rules.changes host.old host.new }
    ensures ok { OnOk result (K.rules.is_prepared editor.old.session.state.cut host.new) }
{
    let (line, cursor) = editor.get_line_and_cursor();
    hook.prepare(host, line, cursor)
}

/// Paints an open line, once its host is prepared, below what the hook prints.
fn show<T: Terminal, H: LineEditorHost, K: Hook<H>>(
    editor: &mut LineEditor<'_, T>,
    host: &mut H,
    hook: &mut K,
) -> Result<(), Error>
    requires { is_open editor.old.session.state.mode ≡ true }
    ensures terminal { KeepsTerminal T.follows editor.old.terminal editor.new.terminal }
    ensures ok { OnOk result (across T.state H.value
        (ShowsHandled H.rules H.value K.rules true) editor.old host.old editor.new host.new) }
{
    prepare(editor, host, hook)?;
    let text = hook.above()?;
    let lines = text.as_str();
    if lines.is_empty() {
        return editor.paint_line(host);
    }
    editor.print_above(host, lines)?;
    Ok(())
}

/// Feeds an open line an event. Returns what ended it, if anything did.
fn feed<T: Terminal, H: LineEditorHost, K: Hook<H>>(
    editor: &mut LineEditor<'_, T>,
    host: &mut H,
    hook: &mut K,
    event: &InputEvent,
) -> Result<Option<End>, Error>
    requires { is_open editor.old.session.state.mode ≡ true }
    ensures terminal { KeepsTerminal T.follows editor.old.terminal editor.new.terminal }
    ensures ok { IfOk result (λ stop. across T.state H.value
        (FeedsAs H.rules H.OVERRIDES H.value K.rules (event_view event.now) stop)
        editor.old host.old editor.new host.new) }
{
    before(editor, host, hook, event)?;
    match editor.handle_event(host, event) {
        Ok(LineStatus::Open) => {
            show(editor, host, hook)?;
            Ok(None)
        }
        Ok(LineStatus::Ended) => {
            editor.paint_line(host)?;
            Ok(Some(End::Line))
        }
        Err(Error::EndOfFile) => Ok(Some(End::Input)),
        Err(refused) => Err(refused),
    }
}

/// Feeds an open line what the device tells, up to its end or the last event. Returns what ended it.
fn take_events<D: Device, H: LineEditorHost, K: Hook<H>>(
    editor: &mut LineEditor<'_, D>,
    host: &mut H,
    hook: &mut K,
) -> Result<End, Error>
    requires { is_open editor.old.session.state.mode ≡ true }
    ensures same_reference { editor.new.terminal.ghost_name ≡ editor.old.terminal.ghost_name }
    ensures ok { let before = frame D.state H.value editor.old host.old in
        let after = frame D.state H.value editor.new host.new in
        IfOk result (λ stop. EndsBy H.rules H.OVERRIDES H.value K.rules stop
        (seen_at D.state D.log editor.old.terminal.now)
        (seen_at D.state D.log editor.new.terminal.now) before after) }
    ensures goes { let before = frame D.state H.value editor.old host.old in
        Goes D.state D.log D.law (TakesOn H.rules H.value K.rules before)
        editor.old.terminal.now editor.new.terminal.now }
{
    for _ in 0..u64::MAX {
        let Some(event) = ask(editor)? else {
            return Ok(End::Source);
        };
        if let Some(stop) = feed(editor, host, hook, &event)? {
            return Ok(stop);
        }
    }
    Err(Error::Terminal(TerminalFault::Device))
}

/// Returns what a line answers, by what ended it.
fn answer_of(stop: End, line: Option<String>) -> Answer
    ensures { result ≡ answer_for stop line }
{
    match (stop, line) {
        (_, None) => Answer::Cancelled,
        (End::Source, Some(line)) => Answer::End(line),
        (_, Some(line)) => Answer::Line(line),
    }
}

/// Takes the events of a painted line, and closes it. Returns what it answers.
fn read_begun<D: Device, H: LineEditorHost, K: Hook<H>>(
    alloc: Global,
    editor: &mut LineEditor<'_, D>,
    host: &mut H,
    hook: &mut K,
) -> Result<Answer, Error>
    requires { is_open editor.old.session.state.mode ≡ true }
    ensures same_reference { editor.new.terminal.ghost_name ≡ editor.old.terminal.ghost_name }
    ensures ok { let before = frame D.state H.value editor.old host.old in
        let after = frame D.state H.value editor.new host.new in
        IfOk result (TakesLine H.rules H.OVERRIDES H.value K.rules
        (seen_at D.state D.log editor.old.terminal.now)
        (seen_at D.state D.log editor.new.terminal.now) before after) }
    ensures goes { let before = frame D.state H.value editor.old host.old in
        Goes D.state D.log D.law (TakesOn H.rules H.value K.rules before)
        editor.old.terminal.now editor.new.terminal.now }
{
    match take_events(editor, host, hook) {
        Ok(End::Input) => Ok(Answer::End(String::new(alloc))),
        Ok(End::Line) => Ok(answer_of(End::Line, finish(editor)?)),
        Ok(End::Source) => Ok(answer_of(End::Source, finish(editor)?)),
        Err(refused) => {
            let _closed = finish(editor);
            Err(refused)
        }
    }
}

/// Begins a line with a new editor, takes its events, and closes it.
fn read_prepared<D: Device, H: LineEditorHost, K: Hook<H>>(
    alloc: Global,
    device: &mut D,
    host: &mut H,
    hook: &mut K,
    prompt: &str,
) -> Result<Answer, Error>
    ensures ok { let begun = fresh_frame prompt.now (H.value host.old) (D.state device.old) in
        IfOk result (IsReadHooked H.rules H.OVERRIDES H.value K.rules
        (seen_at D.state D.log device.old) (seen_at D.state D.log device.new) begun
        (H.value host.new)) }
    ensures goes { let begun = fresh_frame prompt.now (H.value host.old) (D.state device.old) in
        Goes D.state D.log D.law (TakesOver H.rules H.value K.rules begun)
        device.old device.new }
{
    let mut editor = LineEditor::new(alloc, device)?;
    editor.set_prompt(prompt)?;
    prepare(&mut editor, host, hook)?;
    begin(&mut editor, host)?;
    read_begun(alloc, &mut editor, host, hook)
}

/// Reads a line with a new editor from a device, as `read_line_from` does, and lets a hook prepare the host: before each
/// event, and before each painting of the line while it takes events. The answer, the batches, the screen's size and the
/// host's value are those of the abstract editor's steps over exactly the events that the device told, with the values
/// that the hook left (`ok`). The device tells each event when it has taken all batches of the steps before it (`log`).
/// At each waiting all that was taken is sent (`prompt`), and what else the device did follows its own law (`law`).
///
/// If a function of the hook, the device, the terminal or memory refuses, the line is closed on the screen, and what was
/// typed of it is lost.
pub fn read_line_with<D: Device, H: LineEditorHost, K: Hook<H>>(
    alloc: Global,
    device: &mut D,
    host: &mut H,
    hook: &mut K,
    prompt: &str,
) -> Result<Answer, Error>
    ensures ok { let begun = fresh_frame prompt.now (H.value host.old) (D.state device.old) in
        IfOk result (IsReadHooked H.rules H.OVERRIDES H.value K.rules
        (seen_at D.state D.log device.old) (seen_at D.state D.log device.new) begun
        (H.value host.new)) }
    ensures log { let begun = fresh_frame prompt.now (H.value host.old) (D.state device.old) in
        GoesInTime (TakesOver H.rules H.value K.rules begun) (seen_at D.state D.log device.old)
        (seen_at D.state D.log device.new) }
    ensures prompt { IsPrompt (seen_at D.state D.log device.old)
        → IsPrompt (seen_at D.state D.log device.new) }
    ensures law { D.law device.old device.new }
{
    read_prepared(alloc, device, host, hook, prompt)
}
