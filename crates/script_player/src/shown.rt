//! A terminal that shows what is rendered at once.

ghost use Rattle.std.specs.Prelude.{◌≡◌, length, map};
ghost use Rattle.std.specs.Vec.Iter.{into_iter_items};
ghost use Rattle.tw_input.specs.EventView.{event_view};
ghost use Rattle.tw_terminal.specs.TerminalState.{fresh_terminal};
ghost use Rattle.script_player.specs.declared.shown.Played.TheVariants.{Nothing};

use crate::display::play;
use std::snapshot::Snapshot;
use std::vec::IntoIter;
use tw_input::InputEvent;
use tw_surface::{Change, Screen, ScreenFault};
use tw_terminal::{BatchLog, ScreenSize, Terminal, TerminalFault};

/// What batches came to on a screen.
#[derive(Debug, Drop)]
pub enum Played {
    /// There was none.
    Nothing,
    /// All were played, and the cursor was at this row and column before the last one.
    All((usize, usize)),
    /// One was refused, and none after it was played.
    Refused(ScreenFault),
}

/// A screen, if there is one, and what the batches that were rendered came to on it.
#[derive(Drop)]
pub struct Shown {
    pub screen: Option<Screen>,
    pub played: Played,
}

impl Shown {
    /// Plays a batch, unless one was refused before it.
    fn play(&mut self, batch: &[Change]) {
        let Some(screen) = &mut self.screen else {
            return;
        };
        if matches!(self.played, Played::Refused(_)) {
            return;
        }
        let cursor = screen.cursor();
        self.played = match play(screen, batch) {
            Ok(()) => Played::All(cursor),
            Err(fault) => Played::Refused(fault),
        };
    }
}

/// A terminal of a script's events that plays each batch on a screen when it is rendered, and keeps none. Without a
/// screen it drops them.
#[derive(Drop)]
pub struct ScreenTerminal {
    size: ScreenSize,
    events: IntoIter<InputEvent>,
    shown: Shown,
    batches: BatchLog,
    flushed: Snapshot<BatchLog>,
}

impl ScreenTerminal {
    /// Creates a terminal of this size with these events, on a screen. Takes no memory.
    pub fn new(size: ScreenSize, events: Vec<InputEvent>, screen: Option<Screen>) -> Self
        ensures state { ⟦<ScreenTerminal as Terminal>⟧.state result ≡
            fresh_terminal size (map event_view events.items) }
        ensures shown { result.shown ≡ record { screen = screen; played = Nothing } }
    {
        let batches = BatchLog::new();
        let flushed = Snapshot::of(&batches);
        ScreenTerminal {
            size,
            events: events.into_iter(),
            shown: Shown {
                screen,
                played: Played::Nothing,
            },
            batches,
            flushed,
        }
    }

    /// Returns the screen, and what the batches came to on it.
    pub fn into_shown(self) -> Shown
        ensures { result ≡ self.shown }
    {
        self.shown
    }
}

impl Terminal for ScreenTerminal {
    ghost state = { λ terminal. record {
      size = terminal.size;
      events = map event_view (into_iter_items terminal.events);
      batches = terminal.batches;
      flushed = length terminal.flushed.value;
      failures = 0;
    } };

    fn get_screen_size(&mut self) -> Result<ScreenSize, TerminalFault> {
        Ok(self.size)
    }

    fn poll_input(&mut self) -> Result<Option<InputEvent>, TerminalFault> {
        let event = self.events.next();
        if let Some(event) = &event {
            self.size = self.size.after(event);
        }
        Ok(event)
    }

    fn render(&mut self, changes: &[Change]) -> Result<(), TerminalFault> {
        self.batches = self.batches.with_batch(changes);
        self.shown.play(changes);
        Ok(())
    }

    fn flush(&mut self) -> Result<(), TerminalFault> {
        self.flushed = Snapshot::of(&self.batches);
        Ok(())
    }
}
