//! What a script keeps from line to line.

ghost use Rattle.std.specs.Prelude.{◌≡◌, [], IfErr, IfOk, OnOk, string_bytes};
ghost use Rattle.script_player.specs.Answers.{IsContinuation};
ghost use Rattle.script_player.specs.Written.{Extends, IsOutside};

use crate::answer::Answer;
use crate::directive::Directive;
use crate::display::show_screen;
use crate::escapes::unescape;
use crate::events::push_events;
use crate::fault::RunFault;
use crate::new_editor::read_line;
use crate::output::put;
use crate::script_host::ScriptHost;
use crate::shown::{Played, ScreenTerminal};
use std::alloc::{AllocError, Global};
use std::io::Write;
use std::mem;
use tw_input::InputEvent;
use tw_lineedit::{BasicHistory, LineEditorHost};
use tw_surface::{Screen, ScreenFault};
use tw_terminal::ScreenSize;

/// The rows of each terminal.
const ROWS: usize = 24;

/// The bytes for which there is room at first in what a reading shows.
const ROOM: usize = 1_024;

/// The columns of a terminal, where the script names none.
const COLS: usize = 80;

/// The columns, the prompt and the events for the next line, and the host and the screen of all lines.
#[derive(Drop)]
pub struct Playback {
    alloc: Global,
    cols: usize,
    prompt: String,
    events: Vec<InputEvent>,
    host: ScriptHost<BasicHistory>,
    screen: Option<Screen>,
}

impl Playback {
    ghost use Rattle.script_player.specs.Playback.{FailsToObey, Obeys, Tells, first_stage, screen_of, stage_of};

    /// Creates the playback at the start of a script.
    pub fn new(alloc: Global) -> Result<Self, AllocError>
        ensures { IfOk result (λ playback. stage_of playback ≡ first_stage) }
    {
        Ok(Playback {
            alloc,
            cols: COLS,
            prompt: String::from_str(alloc, "> ")?,
            events: Vec::new(alloc),
            host: ScriptHost::new(alloc, BasicHistory::new(alloc)),
            screen: Screen::new(alloc, COLS).ok(),
        })
    }

    /// Does what a line of the script asks for. Where memory is refused nothing is written, and all that is kept stays,
    /// but for events: some keys may have been added, and a reading has taken them all. A refused write has written a
    /// beginning of what the reading tells.
    pub fn obey<W: Write>(
        &mut self,
        directive: Directive<'_>,
        writer: &mut W,
    ) -> Result<(), RunFault>
        ensures kept { Extends (W.contents writer.old) (W.contents writer.new) }
        ensures fault { IfErr result IsOutside }
        ensures obeyed { OnOk result
            (Obeys directive.entry (stage_of self.old) (stage_of self.new) (W.contents writer.old)
            (W.contents writer.new)) }
        ensures refused { IfErr result
            (FailsToObey directive.entry (stage_of self.old) (stage_of self.new)
            (W.contents writer.old) (W.contents writer.new)) }
    {
        match directive {
            Directive::Cols(cols) => {
                self.cols = cols;
                self.clear_screen();
            }
            Directive::Prompt(prompt) => self.prompt = String::from_str(self.alloc, prompt)?,
            Directive::Preview(text) => {
                let preview = unescape(self.alloc, text)?;
                self.host.set_preview(preview.as_str())?;
            }
            Directive::History(line) => self.host.remember(line)?,
            Directive::Candidate(range, text) => self.host.offer(range, text)?,
            Directive::Type(_) | Directive::Paste(_) | Directive::Key(_) => {
                push_events(self.alloc, &directive, &mut self.events)?;
            }
            Directive::Read => {
                let shown = self.read()?;
                put(writer, shown.as_str())?;
            }
        }
        Ok(())
    }

    /// Begins a new screen, or none if no screen has that many columns.
    fn clear_screen(&mut self)
        ensures { stage_of self.new
            ≡ record (stage_of self.old) { screen = screen_of self.old.cols } }
    {
        self.screen = Screen::new(self.alloc, self.cols).ok();
    }

    /// Reads a line from the events, and tells the answer and what the screen then shows.
    #[tactic(auto, using(crate::proofs::ReadingLemmas::tells))]
    fn read(&mut self) -> Result<String, RunFault>
        ensures told { IfOk result (λ shown. Tells (stage_of self.old) (string_bytes shown)) }
        ensures memory { IfErr result (λ fault. fault ≡ RunFault.Memory) }
        ensures kept { stage_of self.new
            ≡ record (stage_of self.old) { events = []; screen = self.new.screen } }
    {
        let events = mem::replace(&mut self.events, Vec::new(self.alloc));
        let size = ScreenSize {
            rows: ROWS,
            cols: self.cols,
        };
        let screen = mem::replace(&mut self.screen, None);
        let mut terminal = ScreenTerminal::new(size, events, screen);
        let prompt = self.prompt.as_str();
        let outcome = read_line(self.alloc, &mut terminal, &mut self.host, prompt);
        let after = terminal.into_shown();
        self.screen = after.screen;
        let answer = Answer::new(outcome)?;
        let mut shown = String::with_capacity(self.alloc, ROOM)?;
        write!(shown, "{answer}\n")?;
        self.show(after.played, &mut shown)?;
        Ok(shown)
    }

    /// Adds what the screen shows. Where it can not tell, the next reading begins on a new one.
    fn show(&mut self, played: Played, shown: &mut String) -> Result<(), RunFault>
        ensures more { OnOk result
            (IsContinuation (string_bytes shown.old) (string_bytes shown.new)) }
        ensures memory { IfErr result (λ fault. fault ≡ RunFault.Memory) }
        ensures kept { stage_of self.new ≡ record (stage_of self.old) { screen = self.new.screen } }
    {
        let Some(screen) = &self.screen else {
            return Ok(());
        };
        match played {
            Played::Nothing => {}
            Played::All(cursor) => show_screen(screen, cursor, shown)?,
            Played::Refused(ScreenFault::NotPlain) => {
                self.clear_screen();
                shown.push_str("screen not plain\n")?;
            }
            Played::Refused(ScreenFault::Memory | ScreenFault::OutOfRange) => {
                return Err(RunFault::Memory);
            }
        }
        Ok(())
    }
}
