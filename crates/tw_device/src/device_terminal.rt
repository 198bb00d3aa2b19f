//! A terminal at a device: its events are fed to the editor, its owner gives it its size, and sends what is no line's.

ghost use Rattle.std.specs.Prelude.{◌≡◌, ◌≢◌, [], OnOk, false};
ghost use Rattle.tw_surface.specs.ChangeView.{Batch};
ghost use Rattle.tw_terminal.specs.Uses.{Call, Other, Refused, Took, with_taken};
ghost use Rattle.tw_device.specs.Deeds.{Called, Said, Sized};

use tw_terminal::{ScreenSize, Terminal, TerminalFault};

/// A terminal at a device, at which a line is read. What is done to it are deeds: the calls of `Terminal`, the sizes
/// that its owner gives it, and the texts that its owner sends.
pub trait DeviceTerminal: Terminal {
    ghost use Rattle.std.specs.Prelude.{Bool};
    ghost use Rattle.tw_device.specs.Deeds.{Deed};

    // What a deed did: from such a terminal to such a one.
    ghost does: { Self → Self → Deed → Type 0 };

    // Whether it may keep back what it is to render.
    ghost may_keep: { Self → Bool };

    // Whether something that it took is kept back.
    ghost keeps: { Self → Bool };

    /// Sets the size, which nothing else changes.
    fn set_screen_size(&mut self, size: ScreenSize)
        ensures state { Self.state self.new ≡ record (Self.state self.old) { size = size } }
        ensures settled { keeps self.new ≡ false }
        ensures sized { does self.old self.new (Sized size) };

    /// Says whether another painting follows at once. As long as one does, a terminal may keep back what it is to render.
    /// If none does, it sends what it renders next.
    fn set_more_at_hand(&mut self, is_more: bool)
        ensures state { Self.state self.new ≡ Self.state self.old }
        ensures last { is_more ≡ false → may_keep self.new ≡ false }
        ensures kept { keeps self.new ≡ keeps self.old }
        ensures called { does self.old self.new (Called Other) };

    /// Sends what is kept back, before its owner waits. Nothing is kept back then: a refusal may have sent a beginning,
    /// and what was kept back is lost with it.
    fn settle(&mut self) -> Result<(), TerminalFault>
        ensures state { Self.state self.new ≡ Self.state self.old }
        ensures settled { keeps self.new ≡ false }
        ensures sent { OnOk result (does self.old self.new (Called Other)) };

    /// Sends a text of its owner's as it is, after a reset of all attributes: a line may have ended in some. The text
    /// has to leave the cursor in column 0, and no attribute set. A refusal may have sent a beginning.
    fn send(&mut self, text: &str) -> Result<(), TerminalFault>
        ensures kept { Self.state self.new ≡ Self.state self.old }
        ensures said { OnOk result (does self.old self.new (Said text.now)) };

    // It has no event of its own.
    ghost no_event: { (it : Self) → (Self.state it).events ≡ [] };

    // What a call of `Terminal` did besides is its deed.
    ghost call_does: { (old new : Self) (call : Call) → Self.follows old new call
        → does old new (Called call) };

    // A batch that it may not keep back is sent with all that was kept back.
    ghost took_settles: { (old new : Self) (batch : Batch) → Self.follows old new (Took batch)
        → may_keep old ≡ false → keeps new ≡ false };

    // A call that takes no batch keeps nothing back where nothing was kept back, nor does one that has flushed more.
    ghost call_settles: { (old new : Self) (call : Call) → Self.follows old new call
        → with_taken call [] ≡ [] → keeps old ≡ false → keeps new ≡ false };

    ghost flush_settles: { (old new : Self) → Self.follows old new Other → (Self.state new).flushed
        ≢ (Self.state old).flushed → keeps new ≡ false };

    // Of a refused batch it has taken nothing.
    ghost refused_takes_none: { (old new : Self) → Self.follows old new Refused → (Self.state new).batches
        ≡ (Self.state old).batches };
}
