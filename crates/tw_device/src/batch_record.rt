//! What the terminals over a writer keep of what was sent, and how they write.

ghost use Rattle.std.specs.Io.KnownBytes.{Appends, Keeps};
ghost use Rattle.std.specs.Prelude.{◌≡◌, ◌∷◌, ◌++◌, [], IfErr, IfOk, OnErr, OnOk, string_bytes};
ghost use Rattle.tw_surface.specs.ChangeView.{batch_view};
ghost use Rattle.tw_surface.specs.Defaults.{default_attributes};
ghost use Rattle.tw_terminal.specs.TerminalState.{count_up};
ghost use Rattle.tw_terminal.specs.declared.terminal.TerminalFault.TheVariants.{Device};
ghost use Rattle.tw_ansi.specs.Encoding.{first_known, sent_batch, without_attributes};
ghost use Rattle.tw_ansi.specs.Sequences.{set_attributes};

use std::alloc::AllocError;
use std::io::Write;
use std::snapshot::Snapshot;
use tw_ansi::Encoder;
use tw_surface::Change;
use tw_terminal::{BatchLog, TerminalFault};

/// What the terminals over a writer keep of what was sent: what is known of the terminal since, the batches that were
/// taken, and the count of failures.
#[derive(Drop)]
pub struct BatchRecord {
    /// What is known of the terminal: its columns, the column of its cursor, and its attributes.
    pub encoder: Encoder,
    batches: BatchLog,
    flushed: Snapshot<BatchLog>,
    failures: usize,
}

impl BatchRecord {
    /// Creates one for a terminal of `cols` columns, whose cursor stands in column 0.
    pub fn new(cols: usize) -> Self
        ensures known { result.encoder ≡ first_known cols }
        ensures batches { result.batches ≡ [] }
        ensures flushed { result.flushed.value ≡ [] }
        ensures failures { result.failures ≡ 0 }
    {
        let batches = BatchLog::new();
        let flushed = Snapshot::of(&batches);
        BatchRecord {
            encoder: Encoder::new(cols),
            batches,
            flushed,
            failures: 0,
        }
    }

    /// Writes a reset of all attributes and `text` to a terminal of which `encoder` knows. A refusal may have written a
    /// beginning of both.
    pub fn send<W: Write>(
        &mut self,
        writer: &mut W,
        mut encoder: Encoder,
        text: &str,
    ) -> Result<(), TerminalFault>
        ensures sent { let bytes = set_attributes default_attributes ++ text.now in
            OnOk result (Appends (W.contents writer.old) (W.contents writer.new) bytes) }
        ensures ok { OnOk result (self.new
            ≡ record self.old { encoder = without_attributes encoder }) }
        ensures err { OnErr result (self.new ≡ self.old) }
    {
        write_text(writer, encoder.reset())?;
        write_text(writer, text)?;
        self.encoder = encoder;
        Ok(())
    }

    /// Notes a batch that was sent, and what is known since.
    pub fn take(&mut self, changes: &[Change], encoder: Encoder)
        ensures { self.new ≡ record self.old {
          encoder = encoder;
          batches = self.old.batches ++ batch_view changes.now ∷ [];
        } }
    {
        self.encoder = encoder;
        self.batches = self.batches.with_batch(changes);
    }

    /// Notes that all batches are flushed.
    pub fn mark_flushed(&mut self)
        ensures kept { self.new ≡ record self.old { flushed = self.new.flushed } }
        ensures flushed { self.new.flushed.value ≡ self.old.batches }
    {
        self.flushed = Snapshot::of(&self.batches);
    }

    /// Flushes the writer, to which no byte is added, and counts a failure.
    pub fn flush<W: Write>(&mut self, writer: &mut W) -> Result<(), TerminalFault>
        ensures writer { Keeps (W.contents writer.old) (W.contents writer.new) }
        ensures ok { OnOk result (self.new ≡ record self.old { flushed = self.new.flushed }) }
        ensures flushed { OnOk result (self.new.flushed.value ≡ self.old.batches) }
        ensures err { OnErr result (self.new
            ≡ record self.old { failures = count_up self.old.failures }) }
    {
        if writer.flush().is_err() {
            return self.counted(Err(TerminalFault::Device));
        }
        self.mark_flushed();
        Ok(())
    }

    /// Counts a failure, if this is one, and returns the same.
    pub fn counted(&mut self, sent: Result<(), TerminalFault>) -> Result<(), TerminalFault>
        ensures same { result ≡ sent }
        ensures ok { OnOk result (self.new ≡ self.old) }
        ensures err { OnErr result (self.new
            ≡ record self.old { failures = count_up self.old.failures }) }
    {
        if sent.is_err() {
            self.failures = self.failures.saturating_add(1);
        }
        sent
    }
}

/// Writes a text as it is. A refusal may have written a beginning.
pub fn write_text<W: Write>(writer: &mut W, text: &str) -> Result<(), TerminalFault>
    ensures sent { OnOk result (Appends (W.contents writer.old) (W.contents writer.new) text.now) }
    ensures failed { IfErr result (λ fault. fault ≡ Device) }
{
    writer
        .write_all(text.as_bytes())
        .map_err(|_| TerminalFault::Device)
}

/// Appends what a batch is sent as, and returns what is then known. A refusal may have appended a beginning.
pub fn encode_batch(
    changes: &[Change],
    mut encoder: Encoder,
    out: &mut String,
) -> Result<Encoder, AllocError>
    ensures bytes { OnOk result (string_bytes out.new
        ≡ string_bytes out.old ++ (sent_batch (batch_view changes.now) encoder).bytes) }
    ensures next { IfOk result (λ next. next ≡ (sent_batch (batch_view changes.now) encoder).next) }
{
    for change in changes {
        encoder.encode(change, out)?;
    }
    Ok(encoder)
}
