//! Functions of an application, which a prompt asks between two events.

ghost use Rattle.std.specs.Prelude.{◌≡◌, IfOk};
ghost use Rattle.tw_device.specs.Hooked.{IsReadHooked, TakesOver};
ghost use Rattle.tw_device.specs.Live.{fresh_frame};
ghost use Rattle.tw_device.specs.Steps.{seen_at, GoesInTime, IsPrompt};
ghost use Rattle.tw_prompt.specs.Prepared.{application_rules};

use crate::line_ends::with_line_ends;
use crate::offers::Offers;
use crate::painter::Painter;
use std::alloc::{AllocError, Global};
use tw_device::{Answer, Device, Hook, read_line_with};
use tw_input::{InputEvent, KeyCode, KeyEvent};
use tw_key_parts::KeyPart;
use tw_line::{History, LentLines};
use tw_lineedit::{Error, LineEditBuffer, LineEditorHost};
use tw_prompt_host::{PreparedHost, PreparedLines, PromptHost, Validation};

/// What an application knows of its lines. Each function has a plain default body. Ranges are cut to what fits, and the
/// text that is shown is the line's. A candidate whose range is not one of the line ends the reading with
/// `Error::CandidateDoesNotFit`.
pub trait Application {
    /// Returns true for a character of a word, which can be completed: letters, digits and `_` by default.
    fn is_word(&self, c: char) -> bool {
        c.is_alphanumeric() || c == '_'
    }

    /// Offers texts that can complete a line: none by default.
    fn complete(&self, _line: &str, _offers: &mut Offers<'_>) -> Result<(), AllocError> {
        Ok(())
    }

    /// Paints the parts of a line that are not plain: none by default.
    fn highlight(&self, _line: &str, _painter: &mut Painter) -> Result<(), AllocError> {
        Ok(())
    }

    /// Says whether a line may be accepted: `Validation::Valid` by default. In a prompt that shows rows Enter begins a
    /// row in an incomplete line; else it keeps such a line, and an invalid one always, and shows the text under it.
    fn validate(&self, _alloc: Global, _line: &str) -> Result<Validation, AllocError> {
        Ok(Validation::Valid)
    }

    /// Returns lines to print above the line that is typed: none by default. It is asked after each event.
    fn news(&mut self, alloc: Global) -> Result<String, AllocError> {
        Ok(String::new(alloc))
    }

    /// Answers an accepted line with lines to print: none by default. `None` ends `Prompt::run`, which asks it.
    fn answer(&mut self, alloc: Global, _line: &str) -> Result<Option<String>, AllocError> {
        Ok(Some(String::new(alloc)))
    }
}

/// An application that is asked between two events.
#[derive(Drop)]
struct Asked<'a, A> {
    alloc: Global,
    application: &'a mut A,
}

impl<A: Application, L: History + LentLines, K: KeyPart> Hook<
    PromptHost<PreparedHost, L, K, PreparedLines>,
> for Asked<'_, A> {
    ghost use Rattle.tw_prompt.specs.Prepared.{application_rules};

    ghost rules = { application_rules };

    /// Asks for what completes the line, before a Tab.
    fn before(
        &mut self,
        host: &mut PromptHost<PreparedHost, L, K, PreparedLines>,
        line: &str,
        cursor: usize,
        event: &InputEvent,
    ) -> Result<(), Error> {
        if let InputEvent::Key(
            KeyEvent {
                key: KeyCode::Tab,
                ..
            },
        ) = event
        {
            let mut offers = Offers::new(self.alloc, &*self.application, line, cursor);
            self.application.complete(line, &mut offers)?;
            host.host.candidates = offers.into_candidates();
            host.host.asked = LineEditBuffer::new(self.alloc, line, cursor)?;
        }
        Ok(())
    }

    /// Asks for the colours of the line, and whether it may be accepted.
    fn prepare(
        &mut self,
        host: &mut PromptHost<PreparedHost, L, K, PreparedLines>,
        line: &str,
        cursor: usize,
    ) -> Result<(), Error> {
        let mut painter = Painter::new(self.alloc, cursor);
        self.application.highlight(line, &mut painter)?;
        host.host.ranges = painter.into_ranges();
        host.host.line = String::from_str(self.alloc, line)?;
        host.validator.validation = self.application.validate(self.alloc, line)?;
        host.validator.line = String::from_str(self.alloc, line)?;
        Ok(())
    }

    /// Asks for news.
    fn above(&mut self) -> Result<String, Error> {
        let news = self.application.news(self.alloc)?;
        Ok(with_line_ends(self.alloc, news.as_str(), "\r\n")?)
    }
}

/// Reads a line with a new editor, as `read_line_with` of `tw_device` does, with an application as its hook: it is asked
/// for what completes the line before a Tab, before each painting of a line that goes on for its colours and whether it
/// may be accepted, and after each event for news to print above it. Nothing else of the host is changed by that. If a
/// function, the device, the terminal or memory refuses, the line is closed on the screen, and what was typed of it is
/// lost.
pub fn read_with<A: Application, D: Device, L: History + LentLines, K: KeyPart>(
    alloc: Global,
    application: &mut A,
    device: &mut D,
    host: &mut PromptHost<PreparedHost, L, K, PreparedLines>,
    prompt: &str,
) -> Result<Answer, Error>
    ensures ok { let host_of = ⟦<PromptHost<PreparedHost, L, K, PreparedLines> as LineEditorHost>⟧ in
        let begun = fresh_frame prompt.now (host_of.value host.old) (D.state device.old) in
        IfOk result (IsReadHooked host_of.rules host_of.OVERRIDES host_of.value application_rules
        (seen_at D.state D.log device.old) (seen_at D.state D.log device.new) begun
        (host_of.value host.new)) }
    ensures log { let host_of = ⟦<PromptHost<PreparedHost, L, K, PreparedLines> as LineEditorHost>⟧ in
        let begun = fresh_frame prompt.now (host_of.value host.old) (D.state device.old) in
        GoesInTime (TakesOver host_of.rules host_of.value application_rules begun)
        (seen_at D.state D.log device.old) (seen_at D.state D.log device.new) }
    ensures prompt { IsPrompt (seen_at D.state D.log device.old)
        → IsPrompt (seen_at D.state D.log device.new) }
    ensures law { D.law device.old device.new }
{
    let mut asked = Asked { alloc, application };
    read_line_with(alloc, device, host, &mut asked, prompt)
}
