//! A terminal with a script of events, which keeps what is rendered and fails at a named call.

ghost use Rattle.std.specs.Prelude.{◌≡◌, ◌≢◌, ◌↔◌, ◌∷◌, [], length, map, take, Some, IfOk, OnOk, OnErr, MatchOption};
ghost use Rattle.tw_surface.specs.ChangeView.{batch_view};
ghost use Rattle.tw_input.specs.EventView.{event_view};
ghost use Rattle.tw_terminal.specs.TerminalState.{Fails, Takes, IsAtEnd, Renders, RenderFails, Flushes};
ghost use Rattle.tw_terminal.specs.Script.{fresh_script, part_due, IsDue, with_call_counted, on_terminal, with_failure_counted, after_failure, after_call};
ghost use Rattle.tw_terminal.specs.Script.{after_poll, all_flushed, with_batches, as_batch, taken_of, after_render, batches_view};

use crate::terminal::{ScreenSize, Terminal, TerminalFault};
use std::alloc::{AllocError, Global};
use std::marker::Model;
use std::vec::IntoIter;
use tw_input::InputEvent;
use tw_surface::Change;

/// The call that is to fail.
#[derive(Debug, Clone, Copy)]
struct Fault {
    /// The number of the call.
    call: usize,
    /// How many changes it takes first, if it is a `render`.
    taken: usize,
}

/// A terminal that gives the events of a script and keeps the batches that are rendered. The calls of
/// `Terminal` are numbered 0, 1, 2, .. together, from its making on, and one of them can be told to fail.
/// After the call numbered `usize::MAX` none is.
#[derive(Debug, Drop)]
pub struct ScriptTerminal {
    alloc: Global,
    size: ScreenSize,
    events: IntoIter<InputEvent>,
    batches: Vec<Vec<Change>>,
    flushed: usize,
    failures: usize,
    next_call: Option<usize>,
    fault: Option<Fault>,
}

impl Model for ScriptTerminal {
    ghost use Rattle.std.specs.Prelude.{map};
    ghost use Rattle.std.specs.Vec.Iter.{into_iter_items};
    ghost use Rattle.tw_input.specs.EventView.{event_view};
    ghost use Rattle.tw_terminal.specs.Script.{Script, batches_view};

    ghost Value = { Script };

    ghost view = { λ script. record {
      terminal = record {
        size = script.size;
        events = map event_view (into_iter_items script.events);
        batches = batches_view script.batches.items;
        flushed = script.flushed;
        failures = script.failures;
      };
      next_call = script.next_call;
      fault = script.fault;
    } };
}

impl ScriptTerminal {
    /// Creates a terminal of this size with these events, which no call has reached yet. Takes no memory.
    pub fn new(alloc: Global, size: ScreenSize, events: Vec<InputEvent>) -> Self
        ensures { result ≡ fresh_script size (map event_view events.items) }
    {
        ScriptTerminal {
            alloc,
            size,
            events: events.into_iter(),
            batches: Vec::new(alloc),
            flushed: 0,
            failures: 0,
            next_call: Some(0),
            fault: None,
        }
    }

    /// Lets the call of this number answer `TerminalFault::Device`, in place of the call that was named
    /// before. Of a `render`, the first `taken` changes are recorded as a batch, if there are
    /// any; if memory for them is refused, nothing is recorded, and the answer is `TerminalFault::Memory`.
    /// The calls after it go on.
    pub fn fail_at(&mut self, call: usize, taken: usize)
        ensures { self.new ≡ record self.old {
          fault = Some
              (record { call = call; taken = taken });
        } }
    {
        self.fault = Some(Fault { call, taken });
    }

    /// Returns the batches recorded, in order.
    pub fn batches(&self) -> &[Vec<Change>]
        ensures { batches_view result.now ≡ self.now.terminal.batches }
    {
        self.batches.as_slice()
    }

    /// Returns how many batches are flushed.
    pub fn flushed(&self) -> usize
        ensures { result ≡ self.now.terminal.flushed }
    {
        self.flushed
    }

    /// Returns how many events are left.
    pub fn events_left(&self) -> usize
        ensures { result ≡ length self.now.terminal.events }
    {
        self.events.len()
    }

    /// Returns how many calls were refused, for either fault. The count stays at `usize::MAX`.
    pub fn failures(&self) -> usize
        ensures { result ≡ self.now.terminal.failures }
    {
        self.failures
    }

    /// Counts a call, and returns how many changes it takes first if it is the one to fail.
    fn count_call(&mut self) -> Option<usize>
        ensures due { result ≡ part_due self.old }
        ensures script { self.new ≡ with_call_counted self.old }
    {
        let call = self.next_call?;
        self.next_call = call.checked_add(1);
        match self.fault {
            Some(fault) if call == fault.call => Some(fault.taken),
            _ => None,
        }
    }

    /// Counts a failure.
    fn count_failure(&mut self)
        ensures { self.new ≡ on_terminal with_failure_counted self.old }
    {
        self.failures = self.failures.saturating_add(1);
    }

    /// Makes a call that does not allocate, which fails if it is the one to fail.
    fn begin_call(&mut self) -> Result<(), TerminalFault>
        ensures device { (result ≡ Err TerminalFault.Device) ↔ IsDue self.old }
        ensures memory { result ≢ Err TerminalFault.Memory }
        ensures script { self.new ≡ after_call (λ terminal. terminal) self.old }
    {
        if self.count_call().is_some() {
            self.count_failure();
            return Err(TerminalFault::Device);
        }
        Ok(())
    }

    /// Records the changes as a batch, or nothing where no memory is found.
    fn record(&mut self, changes: &[Change]) -> Result<(), AllocError>
        ensures ok { OnOk result
            (self.new ≡ on_terminal (with_batches (batch_view changes.now ∷ [])) self.old) }
        ensures err { OnErr result (self.new ≡ self.old) }
    {
        let batch = copies(self.alloc, changes)?;
        self.batches.push(batch)?;
        Ok(())
    }

    /// Records the first changes as a batch, if there are any, or nothing where no memory is found.
    #[tactic(auto, using(crate::proofs::Parts::parts))]
    fn record_part(&mut self, changes: &[Change], taken: usize) -> Result<(), AllocError>
        ensures ok { OnOk result
            (self.new ≡ on_terminal (with_batches (as_batch (take taken (batch_view changes.now))))
            self.old) }
        ensures err { OnErr result (self.new ≡ self.old) }
        ensures some { OnErr result (as_batch (take taken (batch_view changes.now)) ≢ []) }
    {
        let part = &changes[..taken.min(changes.len())];
        if !part.is_empty() {
            self.record(part)?;
        }
        Ok(())
    }
}

/// Returns equal changes, or fails for memory.
fn copies(alloc: Global, changes: &[Change]) -> Result<Vec<Change>, AllocError>
    ensures { IfOk result (λ copies. batch_view copies.items ≡ batch_view changes.now) }
{
    let mut copies = Vec::with_capacity(alloc, changes.len())?;
    for change in changes {
        copies.push(change.try_clone(alloc)?)?;
    }
    Ok(copies)
}

impl Terminal for ScriptTerminal {
    ghost state = { λ script. script.terminal };

    /// Takes no memory, so only the call that is to fail is refused.
    fn get_screen_size(&mut self) -> Result<ScreenSize, TerminalFault>
        ensures size { IfOk result (λ size. size ≡ self.old.terminal.size) }
        ensures ok { OnOk result (self.new.terminal ≡ self.old.terminal) }
        ensures err { OnErr result (Fails self.old.terminal self.new.terminal) }

        ensures device { (result ≡ Err TerminalFault.Device) ↔ IsDue self.old }
        ensures memory { result ≢ Err TerminalFault.Memory }
        ensures script { self.new ≡ after_call (λ terminal. terminal) self.old }
    {
        self.begin_call()?;
        Ok(self.size)
    }

    /// Takes no memory, so only the call that is to fail is refused.
    fn poll_input(&mut self) -> Result<Option<InputEvent>, TerminalFault>
        ensures ok { let before = self.old.terminal in
            let after = self.new.terminal in
            IfOk result (λ event. MatchOption event
            (IsAtEnd before after)
            (λ event. Takes (event_view event) before after)) }
        ensures err { OnErr result (Fails self.old.terminal self.new.terminal) }

        ensures device { (result ≡ Err TerminalFault.Device) ↔ IsDue self.old }
        ensures memory { result ≢ Err TerminalFault.Memory }
        ensures script { self.new ≡ after_call after_poll self.old }
    {
        self.begin_call()?;
        let event = self.events.next();
        if let Some(event) = &event {
            self.size = self.size.after(event);
        }
        Ok(event)
    }

    /// Records the changes as a batch. The call that is to fail records those that its fault takes, if there are
    /// any, and returns `Device`. If memory for what it records is refused, nothing is recorded, and the
    /// answer is `Memory`.
    #[tactic(auto, using(crate::proofs::Parts::parts))]
    fn render(&mut self, changes: &[Change]) -> Result<(), TerminalFault>
        ensures ok { OnOk result
            (Renders (batch_view changes.now) self.old.terminal self.new.terminal) }
        ensures err { OnErr result
            (RenderFails (batch_view changes.now) self.old.terminal self.new.terminal) }

        ensures device { result ≢ Err TerminalFault.Memory →
            ((result ≡ Err TerminalFault.Device) ↔ IsDue self.old) }
        ensures script { result ≢ Err TerminalFault.Memory →
            self.new ≡ after_render (batch_view changes.now) self.old }
        ensures memory { result ≡ Err TerminalFault.Memory → self.new ≡ after_failure self.old }
        ensures some { result ≡ Err TerminalFault.Memory →
            taken_of (batch_view changes.now) self.old ≢ [] }
    {
        let due = self.count_call();
        let recorded = match due {
            Some(taken) => self.record_part(changes, taken),
            None => self.record(changes),
        };
        if recorded.is_err() {
            self.count_failure();
            return Err(TerminalFault::Memory);
        }
        if due.is_some() {
            self.count_failure();
            return Err(TerminalFault::Device);
        }
        Ok(())
    }

    /// Takes no memory, so only the call that is to fail is refused.
    fn flush(&mut self) -> Result<(), TerminalFault>
        ensures ok { OnOk result (Flushes self.old.terminal self.new.terminal) }
        ensures err { OnErr result (Fails self.old.terminal self.new.terminal) }

        ensures device { (result ≡ Err TerminalFault.Device) ↔ IsDue self.old }
        ensures memory { result ≢ Err TerminalFault.Memory }
        ensures script { self.new ≡ after_call all_flushed self.old }
    {
        self.begin_call()?;
        self.flushed = self.batches.len();
        Ok(())
    }
}
