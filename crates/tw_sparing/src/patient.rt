//! A terminal over a writer that is sent nothing while more is at hand, and then what differs.

ghost use Rattle.std.specs.Io.KnownBytes.{Appends, Keeps};
ghost use Rattle.std.specs.Prelude.{◌≡◌, [], Ok, None, Option, IfErr, IfOk, OnOk, OnErr, true, false, refl};
ghost use Rattle.tw_surface.specs.ChangeView.{batch_view};
ghost use Rattle.tw_terminal.specs.TerminalState.{fresh_terminal, Fails, Flushes, RenderFails, Renders};
ghost use Rattle.tw_ansi.specs.Encoding.{first_known, sent_then};
ghost use Rattle.tw_terminal.specs.Uses.{Other, Refused, Took};
ghost use Rattle.tw_terminal.specs.declared.terminal.TerminalFault.TheVariants.{Device, Memory};
ghost use Rattle.tw_device.specs.Deeds.{Called, Said, Sized, sent_deed};
ghost use Rattle.tw_sparing.specs.Ahead.{groups_with, sent_ahead, latest_known, settled_at, IsJoined};
ghost use Rattle.tw_sparing.specs.PatientDeeds.{DoesPatiently, IsTakenPatiently, SendsGroups};
ghost use Rattle.tw_sparing.specs.PatientLaws.{call_settles, flush_settles, refused_takes_none, took_settles};
ghost use Rattle.tw_sparing.specs.Terminal.{keeps_back, lost_at, patient_state};
ghost use Rattle.tw_sparing.specs.Shown.{EndsAtStart, IsKnownAfter, IsStillKnown};
ghost use Rattle.tw_sparing.specs.KnownRuns.{AreKnownSince};

use crate::ahead::Ahead;
use crate::shown::{Shown, ends_at_start, is_at_start, still_known};
use std::alloc::Global;
use std::io::Write;
use std::mem;
use tw_ansi::Encoder;
use tw_device::{BatchRecord, DeviceTerminal, write_text};
use tw_input::InputEvent;
use tw_surface::Change;
use tw_terminal::{ScreenSize, Terminal, TerminalFault};

/// A terminal over a writer. It has no events, and the size that its owner gives it. If it is known what it shows, a
/// batch is sent as what differs, and else by its changes. Of a closed line it forgets the rows, so that a key costs no
/// more after many lines.
///
/// While its owner says that more events are at hand it keeps batches back, as long as one difference takes all of
/// them; the next batch that is not kept back is sent with them. It keeps back no batch before which or after which it
/// is not known what the terminal shows, and none at all if its owner says nothing.
#[derive(Drop)]
pub struct PatientTerminal<W> {
    alloc: Global,
    writer: W,
    sent: BatchRecord,
    ahead: Ahead,
    at_start: bool,
    is_more: bool,
}

impl<W: Write> PatientTerminal<W> {
    /// Creates a terminal of this size, whose cursor stands in column 0. No more is at hand.
    pub fn new(alloc: Global, writer: W, size: ScreenSize) -> Self
        ensures state { patient_state result ≡ fresh_terminal size [] }
        ensures known { result.sent.encoder ≡ first_known size.cols }
        ensures ahead { result.ahead ≡ settled_at size None }
        ensures more { result.is_more ≡ false }
        ensures writer { result.writer ≡ writer }
    {
        PatientTerminal {
            alloc,
            writer,
            sent: BatchRecord::new(size.cols),
            ahead: Ahead::new(size, None),
            at_start: true,
            is_more: false,
        }
    }

    /// Says whether another painting follows at once. As long as one does, batches are kept back; if none does, the next
    /// batch is sent, with what is kept back. Nothing is written, and nothing else changes.
    pub fn set_more_at_hand(&mut self, is_more: bool)
        ensures more { self.new ≡ record self.old { is_more = is_more } }
        ensures called { DoesPatiently W.contents self.old self.new (Called Other) }
    {
        self.is_more = is_more;
    }

    /// Sets the size, which nothing else changes. What is kept back is sent first, as one difference. If that is
    /// refused, the batches that were kept back are lost, and a beginning of it may have been sent. It is not counted
    /// as a failure, since no call of `Terminal` has failed. What the terminal shows is not known afterwards.
    pub fn set_screen_size(&mut self, size: ScreenSize)
        ensures state { patient_state self.new ≡ record (patient_state self.old) { size = size } }
        ensures ahead { self.new.ahead ≡ settled_at size None }
        ensures more { self.new.is_more ≡ self.old.is_more }
        ensures writer { self.old.ahead.kept ≡ [] → self.new.writer
            ≡ self.old.writer }
        ensures sized { DoesPatiently W.contents self.old self.new (Sized size) }
    {
        if let Ok(encoder) = self.catch_up() {
            self.sent.encoder = encoder;
        }
        self.sent.encoder.set_cols(size.cols);
        self.ahead = Ahead::new(size, None);
    }

    /// Sends a text of its owner's as it is, after what is kept back and a reset of all attributes: a line may have
    /// ended in some. The text has to leave the cursor in column 0, and no attribute set. What the terminal shows then
    /// is not known. A refusal may have sent a beginning, and what was kept back is lost with it.
    pub fn send(&mut self, text: &str) -> Result<(), TerminalFault>
        ensures kept { patient_state self.new ≡ patient_state self.old }
        ensures refused { OnErr result ((self.new.sent.encoder ≡ self.old.sent.encoder)
            × (self.new.at_start ≡ false)) }
        ensures ahead { self.new.ahead ≡ settled_at self.old.ahead.size None }
        ensures more { self.new.is_more ≡ self.old.is_more }
        ensures said { OnOk result (DoesPatiently W.contents self.old self.new (Said text.now)) }
    {
        let caught = self.catch_up();
        self.ahead = Ahead::new(self.ahead.size(), None);
        self.at_start = false;
        self.sent.send(&mut self.writer, caught?, text)?;
        self.at_start = true;
        Ok(())
    }

    /// Sends what is kept back, and returns what is then known, which it does not yet keep. After a refusal it is not
    /// known what the terminal shows, and what was kept back is lost.
    fn catch_up(&mut self) -> Result<Encoder, TerminalFault>
        ensures known { AreKnownSince self.old.ahead.size self.old.ahead.shown
            self.old.sent.encoder self.old.ahead.kept }
        ensures kept { self.new ≡ record self.old {
          writer = self.new.writer;
          ahead = self.new.ahead;
          at_start = self.new.at_start;
        } }
        ensures sent { OnOk result (Appends (W.contents self.old.writer)
            (W.contents self.new.writer)
            (sent_ahead self.old.ahead self.old.sent.encoder).bytes) }
        ensures next { IfOk result (λ next. next
            ≡ (sent_ahead self.old.ahead self.old.sent.encoder).next) }
        ensures ok { OnOk result (self.new.ahead
            ≡ settled_at self.old.ahead.size (latest_known self.old.ahead)) }
        ensures err { OnErr result ((self.new.ahead ≡ settled_at self.old.ahead.size None)
            × (self.new.at_start ≡ false)) }
        ensures settled { self.old.ahead.kept ≡ [] → (result ≡ Ok self.old.sent.encoder)
            × (self.new ≡ self.old) }
    {
        if self.ahead.is_settled() {
            return Ok(self.sent.encoder);
        }
        let mut text = String::new(self.alloc);
        let lost = Ahead::new(self.ahead.size(), None);
        let ahead = mem::replace(&mut self.ahead, lost);
        self.at_start = false;
        let encoder = ahead.send_kept(self.alloc, self.sent.encoder, &mut text)?;
        write_text(&mut self.writer, text.as_str())?;
        self.ahead = ahead.settled();
        Ok(encoder)
    }

    /// Sends a batch with what is kept back, in one write, by what is known after it. After a refusal it is not known
    /// what the terminal shows, and what was kept back is lost.
    fn put(
        &mut self,
        changes: &[Change],
        next: Option<Shown>,
        is_joined: bool,
    ) -> Result<(), TerminalFault>
        requires known { IsKnownAfter self.old.ahead.size.cols self.old.ahead.size.rows
            (batch_view changes.now) (latest_known self.old.ahead) next }
        requires joined { is_joined ≡ true → IsJoined (batch_view changes.now) self.old.ahead next }
        requires groups { (known : Option Shown) → IsStillKnown next known
            → AreKnownSince self.old.ahead.size self.old.ahead.shown self.old.sent.encoder
            (groups_with is_joined (batch_view changes.now) self.old.ahead next known) }
        ensures ok { OnOk result (Renders (batch_view changes.now) (patient_state self.old)
            (patient_state self.new)) }
        ensures sent { OnOk result (SendsGroups W.contents
            (groups_with is_joined (batch_view changes.now) self.old.ahead next
            self.new.ahead.shown)
            self.old self.new) }
        ensures more { OnOk result (self.new.is_more ≡ self.old.is_more) }
        ensures start { OnOk result (self.new.at_start ≡ true
            → EndsAtStart (batch_view changes.now)) }
        ensures err { OnErr result (self.new ≡ lost_at self.new.writer self.old) }
        ensures unsent { IfErr result (λ fault. fault ≡ Memory → self.new.writer
            ≡ self.old.writer) }
    {
        let mut text = String::new(self.alloc);
        let encoded = self.ahead.send_with(
            self.alloc,
            changes,
            &next,
            is_joined,
            self.sent.encoder,
            &mut text,
        );
        let was_more = self.is_more;
        let size = self.ahead.size();
        self.ahead = Ahead::new(size, None);
        self.at_start = false;
        self.is_more = false;
        let encoder = encoded?;
        write_text(&mut self.writer, text.as_str())?;
        self.sent.take(changes, encoder);
        self.ahead = Ahead::new(size, still_known(self.alloc, next, changes));
        self.at_start = ends_at_start(changes);
        self.is_more = was_more;
        Ok(())
    }

    /// Keeps a batch back if more is at hand and one difference takes it, and else sends it.
    fn take(&mut self, changes: &[Change]) -> Result<(), TerminalFault>
        ensures ok { OnOk result (Renders (batch_view changes.now) (patient_state self.old)
            (patient_state self.new)) }
        ensures sent { OnOk result (IsTakenPatiently W.contents (batch_view changes.now)
            self.old self.new) }
        ensures more { OnOk result (self.new.is_more ≡ self.old.is_more) }
        ensures err { OnErr result (self.new ≡ lost_at self.new.writer self.old) }
        ensures unsent { IfErr result (λ fault. fault ≡ Memory → self.new.writer
            ≡ self.old.writer) }
    {
        let encoder = self.sent.encoder;
        let at_start = is_at_start(self.at_start, encoder, self.ahead.size().cols);
        let (next, is_joined) = self.ahead.known_after(self.alloc, at_start, changes);
        if is_joined && self.is_more {
            self.ahead.keep(changes, next);
            self.sent.take(changes, encoder);
            return Ok(());
        }
        self.put(changes, next, is_joined)
    }
}

impl<W: Write> Terminal for PatientTerminal<W> {
    ghost state = { patient_state };

    ghost follows = { λ old new call. DoesPatiently W.contents old new (Called call) };

    /// Returns the size that its owner gave it. It is never refused.
    fn get_screen_size(&mut self) -> Result<ScreenSize, TerminalFault>
        ensures size { result ≡ Ok (patient_state self.old).size }
        ensures kept { self.new ≡ self.old }
        ensures follows { DoesPatiently W.contents self.old self.new (Called Other) }
    {
        Ok(self.ahead.size())
    }

    /// Returns `None`. It is never refused.
    fn poll_input(&mut self) -> Result<Option<InputEvent>, TerminalFault>
        ensures none { result ≡ Ok None }
        ensures kept { self.new ≡ self.old }
        ensures follows { DoesPatiently W.contents self.old self.new (Called Other) }
    {
        Ok(None)
    }

    /// Keeps the batch back if more is at hand and one difference takes it with all that is kept back. Else sends both
    /// at once, in one write: as one difference, or one after the other, each as what differs or by its changes. If
    /// memory is refused nothing is sent, and if the writer refuses a beginning may have been. The batch and those that
    /// were kept back are lost then, and it is not known what the terminal shows. The next batch is sent, unless it is
    /// said once more that more is at hand.
    fn render(&mut self, changes: &[Change]) -> Result<(), TerminalFault>
        ensures ok { OnOk result (Renders (batch_view changes.now) (patient_state self.old)
            (patient_state self.new)) }
        ensures err { OnErr result (RenderFails (batch_view changes.now) (patient_state self.old)
            (patient_state self.new)) }
        ensures took { OnOk result (DoesPatiently W.contents self.old self.new (Called (Took (batch_view changes.now)))) }
        ensures refused { OnErr result (DoesPatiently W.contents self.old self.new (Called Refused)) }
        ensures unsent { IfErr result (λ fault. fault ≡ Memory → self.new.writer
            ≡ self.old.writer) }
    {
        let taken = self.take(changes);
        self.sent.counted(taken)
    }

    /// Sends what is kept back, whatever is at hand, and flushes the writer, to which it adds no other byte. Nothing is
    /// kept back afterwards: a refusal to send may have sent a beginning, and what was kept back is lost with it.
    fn flush(&mut self) -> Result<(), TerminalFault>
        ensures ok { OnOk result (Flushes (patient_state self.old) (patient_state self.new)) }
        ensures err { OnErr result (Fails (patient_state self.old) (patient_state self.new)) }
        ensures sent { OnOk result (SendsGroups W.contents self.old.ahead.kept
            self.old self.new) }
        ensures kept { self.new.ahead.kept ≡ [] }
        ensures settled { self.old.ahead.kept ≡ [] → self.new ≡ record self.old {
          writer = self.new.writer;
          sent = self.new.sent;
        } }
        ensures follows { DoesPatiently W.contents self.old self.new (Called Other) }
    {
        match self.catch_up() {
            Ok(encoder) => {
                self.sent.encoder = encoder;
                self.sent.flush(&mut self.writer)
            }
            Err(fault) => {
                self.is_more = false;
                self.sent.counted(Err(fault))
            }
        }
    }
}

impl<W: Write> DeviceTerminal for PatientTerminal<W> {
    ghost does = { DoesPatiently W.contents };

    ghost may_keep = { λ it. it.is_more };

    ghost no_event = { λ it. refl };

    ghost keeps = { keeps_back };

    ghost call_does = { λ old new call follows. follows };

    ghost took_settles = { took_settles W.contents };

    ghost call_settles = { call_settles W.contents };

    ghost flush_settles = { flush_settles W.contents };

    ghost refused_takes_none = { refused_takes_none W.contents };

    fn set_screen_size(&mut self, size: ScreenSize) {
        PatientTerminal::set_screen_size(self, size);
    }

    fn send(&mut self, text: &str) -> Result<(), TerminalFault> {
        PatientTerminal::send(self, text)
    }

    fn set_more_at_hand(&mut self, is_more: bool) {
        PatientTerminal::set_more_at_hand(self, is_more);
    }

    /// Sends what is kept back. It does not count a refusal: no call of `Terminal` has failed.
    fn settle(&mut self) -> Result<(), TerminalFault> {
        let encoder = self.catch_up()?;
        self.sent.encoder = encoder;
        Ok(())
    }
}
