//! A terminal over a writer. It has no input: the caller feeds events to the editor.

ghost use Rattle.std.specs.Io.KnownBytes.{Appends, Keeps};
ghost use Rattle.std.specs.Prelude.{◌≡◌, ◌++◌, [], Ok, None, IfErr, IfOk, OnOk, OnErr, false, refl, string_bytes};
ghost use Rattle.tw_surface.specs.ChangeView.{batch_view};
ghost use Rattle.tw_surface.specs.Defaults.{default_attributes};
ghost use Rattle.tw_terminal.specs.TerminalState.{fresh_terminal, Fails, Flushes, RenderFails, Renders};
ghost use Rattle.tw_ansi.specs.Encoding.{first_known, without_attributes, sent_batch};
ghost use Rattle.tw_ansi.specs.Sequences.{set_attributes};
ghost use Rattle.tw_terminal.specs.Uses.{Other, Refused as BatchRefused, Took};
ghost use Rattle.tw_terminal.specs.declared.terminal.TerminalFault.TheVariants.{Device, Memory};
ghost use Rattle.tw_device.specs.Deeds.{Called, Does, Said, Sized};
ghost use Rattle.tw_device.specs.Terminal.{terminal_state};

use crate::batch_record::{BatchRecord, encode_batch, write_text};
use crate::device_terminal::DeviceTerminal;
use std::alloc::Global;
use std::io::Write;
use tw_input::InputEvent;
use tw_surface::Change;
use tw_terminal::{ScreenSize, Terminal, TerminalFault};

/// A terminal over a writer. It has no events, and the size that its owner gives it.
#[derive(Drop)]
pub struct AnsiTerminal<W> {
    alloc: Global,
    writer: W,
    size: ScreenSize,
    sent: BatchRecord,
}

impl<W: Write> AnsiTerminal<W> {
    /// Creates a terminal of this size, whose cursor stands in column 0.
    pub fn new(alloc: Global, writer: W, size: ScreenSize) -> Self
        ensures state { terminal_state result ≡ fresh_terminal size [] }
        ensures known { result.sent.encoder ≡ first_known size.cols }
        ensures writer { result.writer ≡ writer }
    {
        AnsiTerminal {
            alloc,
            writer,
            size,
            sent: BatchRecord::new(size.cols),
        }
    }

    /// Sets the size, which nothing else changes.
    pub fn set_screen_size(&mut self, size: ScreenSize)
        ensures state { terminal_state self.new ≡ record (terminal_state self.old) { size = size } }
        ensures known { self.new.sent.encoder
            ≡ record self.old.sent.encoder { cols = size.cols } }
        ensures writer { self.new.writer ≡ self.old.writer }
        ensures sized { Does W.contents self.old self.new (Sized size) }
    {
        self.sent.encoder.set_cols(size.cols);
        self.size = size;
    }

    /// Sends a text of its owner's as it is, after a reset of all attributes: a line may have ended in some. The text
    /// has to leave the cursor in column 0, and no attribute set. A refusal may have sent a beginning.
    pub fn send(&mut self, text: &str) -> Result<(), TerminalFault>
        ensures kept { terminal_state self.new ≡ terminal_state self.old }
        ensures known { OnErr result (self.new.sent.encoder ≡ self.old.sent.encoder) }
        ensures said { OnOk result (Does W.contents self.old self.new (Said text.now)) }
    {
        let encoder = self.sent.encoder;
        self.sent.send(&mut self.writer, encoder, text)
    }

    /// Sends a batch. A refusal changes nothing but what is written.
    fn put(&mut self, changes: &[Change]) -> Result<(), TerminalFault>
        ensures ok { OnOk result (Renders (batch_view changes.now) (terminal_state self.old)
            (terminal_state self.new)) }
        ensures took { OnOk result (Does W.contents self.old self.new
            (Called (Took (batch_view changes.now)))) }
        ensures err { OnErr result (self.new ≡ record self.old {
          writer = self.new.writer;
        }) }
        ensures unsent { IfErr result (λ fault. fault ≡ Memory → self.new.writer
            ≡ self.old.writer) }
    {
        let mut text = String::new(self.alloc);
        let encoder = encode_batch(changes, self.sent.encoder, &mut text)?;
        write_text(&mut self.writer, text.as_str())?;
        self.sent.take(changes, encoder);
        Ok(())
    }
}

impl<W: Write> Terminal for AnsiTerminal<W> {
    ghost state = { terminal_state };

    ghost follows = { λ old new call. Does W.contents old new (Called call) };

    /// Returns the size that its owner gave it. It is never refused.
    fn get_screen_size(&mut self) -> Result<ScreenSize, TerminalFault>
        ensures size { result ≡ Ok (terminal_state self.old).size }
        ensures kept { self.new ≡ self.old }
        ensures follows { Does W.contents self.old self.new (Called Other) }
    {
        Ok(self.size)
    }

    /// Returns `None`. It is never refused.
    fn poll_input(&mut self) -> Result<Option<InputEvent>, TerminalFault>
        ensures none { result ≡ Ok None }
        ensures kept { self.new ≡ self.old }
        ensures follows { Does W.contents self.old self.new (Called Other) }
    {
        Ok(None)
    }

    /// Sends the bytes of the changes at once. If the writer refuses, a beginning of them may have been sent, and if
    /// memory is refused none.
    fn render(&mut self, changes: &[Change]) -> Result<(), TerminalFault>
        ensures ok { OnOk result (Renders (batch_view changes.now) (terminal_state self.old)
            (terminal_state self.new)) }
        ensures err { OnErr result (RenderFails (batch_view changes.now) (terminal_state self.old)
            (terminal_state self.new)) }
        ensures took { OnOk result (Does W.contents self.old self.new
            (Called (Took (batch_view changes.now)))) }
        ensures refused { OnErr result (Does W.contents self.old self.new (Called BatchRefused)) }
        ensures unsent { IfErr result (λ fault. fault ≡ Memory → self.new.writer
            ≡ self.old.writer) }
    {
        let sent = self.put(changes);
        self.sent.counted(sent)
    }

    /// Flushes the writer, to which it adds no byte.
    fn flush(&mut self) -> Result<(), TerminalFault>
        ensures ok { OnOk result (Flushes (terminal_state self.old) (terminal_state self.new)) }
        ensures err { OnErr result (Fails (terminal_state self.old) (terminal_state self.new)) }
        ensures known { self.new.sent.encoder ≡ self.old.sent.encoder }
        ensures writer { Keeps (W.contents self.old.writer)
            (W.contents self.new.writer) }
        ensures follows { Does W.contents self.old self.new (Called Other) }
    {
        self.sent.flush(&mut self.writer)
    }
}

impl<W: Write> DeviceTerminal for AnsiTerminal<W> {
    ghost does = { Does W.contents };

    ghost may_keep = { λ it. false };

    ghost no_event = { λ it. refl };

    ghost call_does = { λ old new call follows. follows };

    ghost keeps = { λ it. false };

    ghost took_settles = { λ old new batch follows more. refl };

    ghost call_settles = { λ old new call follows none kept. refl };

    ghost flush_settles = { λ old new follows more. refl };

    ghost refused_takes_none = { λ old new follows. follows.batches };

    fn set_screen_size(&mut self, size: ScreenSize) {
        AnsiTerminal::set_screen_size(self, size);
    }

    /// Changes nothing: each batch is sent at once.
    fn set_more_at_hand(&mut self, _: bool)
        ensures kept { self.new ≡ self.old }
    {}

    /// Changes nothing, and is never refused.
    fn settle(&mut self) -> Result<(), TerminalFault>
        ensures ok { result ≡ Ok tt }
        ensures kept { self.new ≡ self.old }
    {
        Ok(())
    }

    fn send(&mut self, text: &str) -> Result<(), TerminalFault> {
        AnsiTerminal::send(self, text)
    }
}
