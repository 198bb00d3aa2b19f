//! A device: a terminal at which is typed.

ghost use Rattle.std.specs.Prelude.{◌≡◌, []};
ghost use Rattle.tw_terminal.specs.Uses.{Call};
ghost use Rattle.tw_device.specs.Steps.{Asks, NotesCalls};

use tw_input::InputEvent;
use tw_terminal::{Terminal, TerminalFault};

/// A terminal and a reader in one. What is shown and what is typed are steps of one log, in their order. It has no event
/// of its own: a reading feeds its editor what `next_event` tells.
pub trait Device: Terminal {
    ghost use Rattle.std.specs.Prelude.{List};
    ghost use Rattle.tw_device.specs.Steps.{Seen, Step};

    ghost log: { Self → List Step };

    // What calls and answers did besides, from such a device to such a one: the device's own law.
    ghost law: { Self → Self → Type 0 };

    /// Returns the next event, or `None` if there are no more. A `Resized` sets the size that `get_screen_size` returns.
    /// All that was taken is sent before it waits. If that is refused, so is the call, and nothing is read.
    fn next_event(&mut self) -> Result<Option<InputEvent>, TerminalFault>
        ensures asks { Asks result
            (record { terminal = Self.state self.old; log = log self.old })
            (record { terminal = Self.state self.new; log = log self.new }) }
        ensures law { law self.old self.new };

    // It has no event of its own.
    ghost no_event: { (it : Self) → (Self.state it).events ≡ [] };

    // A call of `Terminal` notes what was taken, refused, sent and flushed, and keeps the law.
    ghost call_notes: { (old new : Self) (call : Call) → Self.follows old new call
        → NotesCalls (record { terminal = Self.state old; log = log old })
        (record { terminal = Self.state new; log = log new }) };

    ghost call_law: { (old new : Self) (call : Call) → Self.follows old new call → law old new };

    // The law holds where nothing was done, and of what was done one after the other.
    ghost law_stays: { (it : Self) → law it it };

    ghost law_joins: { (old between new : Self) → law old between → law between new → law old new };
}
