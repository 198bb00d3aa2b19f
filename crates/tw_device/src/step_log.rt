//! The steps of a device.

ghost use Rattle.std.specs.Prelude.{◌≡◌, ◌∷◌, [], ◌++◌};
ghost use Rattle.tw_surface.specs.ChangeView.{batch_view};
ghost use Rattle.tw_device.specs.Steps.{answer_step, Flushed, Refused, Sent, Took, Waited};

use std::marker::Model;
use std::snapshot::Snapshot;
use tw_input::InputEvent;
use tw_surface::Change;
use tw_terminal::{Log, TerminalFault};

/// A step, as it is noted.
#[derive(Drop)]
pub(crate) enum Noted {
    Took(Log<Change>),
    Refused,
    Sent,
    Flushed,
    Waited,
    Told(Snapshot<InputEvent>),
    Ended,
    Failed(TerminalFault),
}

/// The steps of a device, in their order, as its `Device::log` needs them. Only contracts read them.
#[derive(Drop)]
pub struct StepLog {
    noted: Log<Noted>,
}

impl Model for StepLog {
    ghost use Rattle.std.specs.Prelude.{List, map};
    ghost use Rattle.tw_device.specs.Steps.{Step};
    ghost use Rattle.tw_device.specs.Noted.{noted_step};

    ghost Value = { List Step };

    ghost view = { λ log. map noted_step log.noted };
}

impl StepLog {
    /// Creates a log without steps.
    pub fn new() -> Self
        ensures { result ≡ [] }
    {
        StepLog { noted: Log::new() }
    }

    /// Notes a batch that was taken.
    pub fn note_taken(&mut self, changes: &[Change])
        ensures { self.new ≡ self.old ++ Took (batch_view changes.now) ∷ [] }
    {
        self.noted = self.noted.with_item(&Noted::Took(Log::of(changes)));
    }

    /// Notes a batch that was refused, or lost.
    pub fn note_refused(&mut self)
        ensures { self.new ≡ self.old ++ Refused ∷ [] }
    {
        self.noted = self.noted.with_item(&Noted::Refused);
    }

    /// Notes that all that was taken is sent.
    pub fn note_sent(&mut self)
        ensures { self.new ≡ self.old ++ Sent ∷ [] }
    {
        self.noted = self.noted.with_item(&Noted::Sent);
    }

    /// Notes that all that was taken is sent and flushed.
    pub fn note_flushed(&mut self)
        ensures { self.new ≡ self.old ++ Flushed ∷ [] }
    {
        self.noted = self.noted.with_item(&Noted::Flushed);
    }

    /// Notes that the reader is asked, which may wait.
    pub fn note_waited(&mut self)
        ensures { self.new ≡ self.old ++ Waited ∷ [] }
    {
        self.noted = self.noted.with_item(&Noted::Waited);
    }

    /// Notes an answer of the reader.
    pub fn note_answer(&mut self, answer: &Result<Option<InputEvent>, TerminalFault>)
        ensures { self.new ≡ self.old ++ answer_step answer.now ∷ [] }
    {
        let noted = match answer {
            Ok(Some(event)) => Noted::Told(Snapshot::of(event)),
            Ok(None) => Noted::Ended,
            Err(fault) => Noted::Failed(*fault),
        };
        self.noted = self.noted.with_item(&noted);
    }
}
