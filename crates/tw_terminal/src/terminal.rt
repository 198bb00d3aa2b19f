//! What a line editor asks of a terminal.

ghost use Rattle.std.specs.Prelude.{◌≡◌, ◌↔◌, IfOk, OnOk, OnErr, MatchOption, ⊤};
ghost use Rattle.std.specs.IoError.{error_kind};
ghost use Rattle.std.specs.declared.io.ErrorKind.TheVariants.{OutOfMemory};
ghost use Rattle.tw_surface.specs.ChangeView.{batch_view};
ghost use Rattle.tw_input.specs.EventView.{event_view};
ghost use Rattle.tw_terminal.specs.TerminalState.{TerminalState, Fails, size_after, Takes, IsAtEnd, Renders, RenderFails, Flushes};
ghost use Rattle.tw_terminal.specs.Uses.{Call, Other, Refused, Took};
ghost use Rattle.tw_terminal.specs.declared.terminal.TerminalFault.TheVariants.{Memory};

use std::alloc::{AllocError, AllocFailed};
use std::error::Error;
use std::fmt;
use std::io::{self, ErrorKind};
use tw_input::InputEvent;
use tw_surface::Change;

/// The size of a screen, in rows and columns of cells.
#[derive(Debug, Clone, Copy, PartialEq, Eq)]
pub struct ScreenSize {
    pub rows: usize,
    pub cols: usize,
}

impl ScreenSize {
    /// Returns the size once an event is taken: a `Resized` tells it, and any other event leaves it.
    pub fn after(self, event: &InputEvent) -> Self
        ensures { result ≡ size_after (event_view event.now) self }
    {
        match event {
            InputEvent::Resized { cols, rows } => ScreenSize {
                rows: *rows,
                cols: *cols,
            },
            InputEvent::Key(_) | InputEvent::Paste(_) | InputEvent::Wake => self,
        }
    }
}

/// Why a terminal refused a call.
#[derive(Debug, Clone, Copy, PartialEq, Eq)]
pub enum TerminalFault {
    /// The device failed.
    Device,
    /// No memory was found.
    Memory,
}

impl fmt::Display for TerminalFault {
    fn fmt<W: fmt::Write>(&self, f: &mut fmt::Formatter<W>) -> fmt::Result {
        f.write_str(match self {
            TerminalFault::Device => "device failed",
            TerminalFault::Memory => "out of memory",
        })
    }
}

impl Error for TerminalFault {}

impl From<AllocError> for TerminalFault {
    ghost from_gives = { λ _ fault. fault ≡ Memory };

    fn from(_refused: AllocError) -> TerminalFault {
        TerminalFault::Memory
    }
}

impl<T: Drop> From<AllocFailed<T>> for TerminalFault {
    ghost from_gives = { λ _ fault. fault ≡ Memory };

    fn from(_refused: AllocFailed<T>) -> TerminalFault {
        TerminalFault::Memory
    }
}

/// A stream that fails for want of memory gives `Memory`, and every other error `Device`.
impl From<io::Error> for TerminalFault {
    ghost from_gives = { λ error fault. (fault ≡ Memory) ↔ (error_kind error ≡ OutOfMemory) };

    fn from(error: io::Error) -> TerminalFault {
        match error.kind() {
            ErrorKind::OutOfMemory => TerminalFault::Memory,
            _ => TerminalFault::Device,
        }
    }
}

/// A terminal, as its contracts see it: its size, the events left, the batches of changes taken, how many of
/// these are flushed, and a count of failures. A refused call adds one to the count, or leaves it at
/// `usize::MAX`. Nothing changes but what a call says.
pub trait Terminal {
    ghost use Rattle.tw_terminal.specs.Uses.{Call};

    ghost state: { Self → TerminalState };

    // What a call did besides: from such a terminal to such a one, as this call.
    ghost follows: { Self → Self → Call → Type 0 } = { λ _ _ _. ⊤ };

    /// Returns the size of the screen, in rows and columns of cells. It changes where a `Resized` event is taken.
    fn get_screen_size(&mut self) -> Result<ScreenSize, TerminalFault>
        ensures size { IfOk result (λ size. size ≡ (state self.old).size) }
        ensures ok { OnOk result (state self.new ≡ state self.old) }
        ensures err { OnErr result (Fails (state self.old) (state self.new)) }
        ensures follows { follows self.old self.new Other };

    /// Takes the first event left, and returns none exactly where none is left. A `Resized` sets the size. A
    /// refused call takes no event.
    fn poll_input(&mut self) -> Result<Option<InputEvent>, TerminalFault>
        ensures ok { let before = state self.old in
            let after = state self.new in
            IfOk result (λ event. MatchOption event
            (IsAtEnd before after)
            (λ event. Takes (event_view event) before after)) }
        ensures err { OnErr result (Fails (state self.old) (state self.new)) }
        ensures follows { follows self.old self.new Other };

    /// Takes the changes as the last batch. A refused call has taken a beginning of them as one batch, or
    /// nothing.
    fn render(&mut self, changes: &[Change]) -> Result<(), TerminalFault>
        ensures ok { OnOk result
            (Renders (batch_view changes.now) (state self.old) (state self.new)) }
        ensures err { OnErr result
            (RenderFails (batch_view changes.now) (state self.old) (state self.new)) }
        ensures took { OnOk result (follows self.old self.new (Took (batch_view changes.now))) }
        ensures refused { OnErr result (follows self.old self.new Refused) };

    /// Flushes all batches taken. A refused call leaves the number of those that are flushed.
    fn flush(&mut self) -> Result<(), TerminalFault>
        ensures ok { OnOk result (Flushes (state self.old) (state self.new)) }
        ensures err { OnErr result (Fails (state self.old) (state self.new)) }
        ensures follows { follows self.old self.new Other };
}
