//! The events that a source told.

ghost use Rattle.std.specs.Prelude.{◌≡◌, [], ◌++◌};
ghost use Rattle.tw_device.specs.Told.{answer_events};

use std::marker::Model;
use tw_input::InputEvent;
use tw_terminal::{Log, TerminalFault};

/// The events that a source told, in order, as its `EventSource::told` needs them.
#[derive(Drop)]
pub struct EventLog {
    events: Log<InputEvent>,
}

impl Model for EventLog {
    ghost use Rattle.std.specs.Prelude.{List, map};
    ghost use Rattle.tw_input.specs.EventView.{EventView, event_view};

    ghost Value = { List EventView };

    ghost view = { λ log. map event_view log.events };
}

impl EventLog {
    /// Creates a log without events.
    pub fn new() -> Self
        ensures { result ≡ [] }
    {
        EventLog { events: Log::new() }
    }

    /// Adds the event of an answer, if it has one.
    pub fn note(&mut self, answer: &Result<Option<InputEvent>, TerminalFault>)
        ensures { self.new ≡ self.old ++ answer_events answer.now }
    {
        if let Ok(Some(event)) = answer {
            self.events = self.events.with_item(event);
        }
    }
}
