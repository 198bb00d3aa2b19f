//! A terminal that is watched while an editor has it.

use std::alloc::{AllocError, Global};
use std::cell::Cell;
use std::rc::Rc;
use tw_input::InputEvent;
use tw_surface::Change;
use tw_terminal::{ScreenSize, ScriptTerminal, Terminal, TerminalFault};

/// How far a terminal has come: how often it was asked for its size and flushed, how many batches it has taken, and
/// how many events it has left.
#[derive(Clone, Copy, Debug, PartialEq, Eq)]
pub struct Seen {
    pub sizes: usize,
    pub flushes: usize,
    pub taken: usize,
    pub left: usize,
}

/// A scripted terminal that shows how far it has come while an editor has it.
#[derive(Drop)]
pub struct Watched {
    script: ScriptTerminal,
    seen: Rc<Cell<Seen>>,
}

impl Watched {
    /// Creates the terminal, which was not called yet.
    pub fn new(alloc: Global, script: ScriptTerminal) -> Result<Self, AllocError> {
        let seen = Cell::new(Seen {
            sizes: 0,
            flushes: 0,
            taken: 0,
            left: script.events_left(),
        });
        let seen = Rc::new(alloc, seen)?;
        Ok(Watched { script, seen })
    }

    /// Returns where it shows how far it has come.
    pub fn seen(&self) -> Result<Rc<Cell<Seen>>, AllocError> {
        Ok(Rc::clone(&self.seen)?)
    }

    /// Returns the terminal that was watched.
    pub fn into_script(self) -> ScriptTerminal {
        let Watched { script, seen: _ } = self;
        script
    }

    /// Notes how far the terminal has come, with this many more calls for its size and to flush.
    fn tell(&self, sizes: usize, flushes: usize) {
        let seen = self.seen.get();
        self.seen.set(Seen {
            sizes: seen.sizes.saturating_add(sizes),
            flushes: seen.flushes.saturating_add(flushes),
            taken: self.script.batches().len(),
            left: self.script.events_left(),
        });
    }
}

impl Terminal for Watched {
    ghost state = { λ watched. watched.script.terminal };

    fn get_screen_size(&mut self) -> Result<ScreenSize, TerminalFault> {
        let size = self.script.get_screen_size();
        self.tell(1, 0);
        size
    }

    fn poll_input(&mut self) -> Result<Option<InputEvent>, TerminalFault> {
        let event = self.script.poll_input();
        self.tell(0, 0);
        event
    }

    fn render(&mut self, changes: &[Change]) -> Result<(), TerminalFault> {
        let rendered = self.script.render(changes);
        self.tell(0, 0);
        rendered
    }

    fn flush(&mut self) -> Result<(), TerminalFault> {
        let flushed = self.script.flush();
        self.tell(0, 1);
        flushed
    }
}
