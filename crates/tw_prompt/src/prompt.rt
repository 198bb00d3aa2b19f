//! A prompt in a program: lines are read at its terminal, or plainly at a pipe.

ghost use Rattle.std.specs.Prelude.{◌≡◌, string_bytes, IfOk, OnErr};
ghost use Rattle.tw_device.specs.Joined.{seen_of};
ghost use Rattle.tw_device.specs.Steps.{IsPrompt};
ghost use Rattle.tw_prompt_host.specs.Going.{going_at_rest};
ghost use Rattle.tw_prompt.specs.Places.{accepted_in, line_begun, seen_in, IsUnreadFrom, IsUnreadIn, IsAskedFrom, IsHookedFrom, IsReadAndKept, IsRemembered, IsReadFrom, IsReadIn, StaysPrompt};
ghost use Rattle.tw_prompt.specs.Prepared.{application_rules, PreparesOnly};

use crate::application::{Application, read_with};
use crate::arguments::Arguments;
use crate::error::PromptError;
use crate::events::{PromptEvents, TypedEvents};
use crate::line_ends::with_line_ends;
use crate::marks::{BEGIN, END};
use crate::plain::PlainLine;
use crate::streams::{LastError, TerminalInput, TerminalOutput, open_streams};
use std::alloc::Global;
use std::io::Write;
use tw_device::{Answer, DeviceTerminal, Joined, Pasted, read_line_from};
use tw_key_parts::KeyPart;
use tw_line::{History, LentLines};
use tw_lineedit::{Error, LineEditorHost};
use tw_prompt_host::{PreparedHost, PreparedLines, PromptHost, Rows, Validation, Validator};
use tw_sparing::PatientTerminal;
use tw_terminal::ScreenSize;

/// A terminal in raw mode.
#[derive(Drop)]
struct TerminalPlace<T> {
    device: Joined<TypedEvents<TerminalInput, HostRuntime>, T>,
    errors: LastError,
    /// True while the terminal is asked to mark pasted texts and to tell its sizes.
    marks: bool,
}

/// Where lines are read.
#[derive(Drop)]
enum Place<T> {
    Terminal(TerminalPlace<T>),
    /// Standard input, which is no terminal.
    Pipe,
}

/// The terminal of a prompt, which is sent what differs from what it shows.
pub type PromptTerminal = PatientTerminal<TerminalOutput>;

/// A prompt over parts of your own, in a program that `tools/at_terminal` starts. At a pipe it reads plain lines and
/// shows no prompt.
#[derive(Drop)]
pub struct PromptOver<T, H, L, K, V> {
    /// The host: what shows and completes the line, the history, the keys. It is boxed, since a program that owns all
    /// of its fields takes minutes to prove.
    pub host: Box<PromptHost<H, L, K, V>>,
    /// True if accepted lines that are not empty go into the history.
    pub remembers: bool,
    pub(crate) rt: HostRuntime,
    place: Box<Place<T>>,
}

impl<T: DeviceTerminal> TerminalPlace<T> {
    /// Returns why a call failed, which the streams may know better.
    fn refusal(&self, error: Error) -> PromptError {
        match (error, self.errors.take()) {
            (Error::Terminal(_), Some(error)) => PromptError::Terminal(error),
            (error, _) => PromptError::Editor(error),
        }
    }

    /// Sends a text.
    fn send(&mut self, text: &str) -> Result<(), PromptError>
        ensures { seen_of T.state self.new.device ≡ seen_of T.state self.old.device }
    {
        let sent = self.device.terminal.send(text);
        sent.map_err(|fault| self.refusal(Error::Terminal(fault)))
    }

    /// Asks the terminal to mark pasted texts, and to tell its sizes.
    fn begin(&mut self) -> Result<(), PromptError>
        ensures { seen_of T.state self.new.device ≡ seen_of T.state self.old.device }
    {
        let _told = self.errors.take();
        self.marks = true;
        self.send(BEGIN)
    }

    /// Asks the terminal to do neither any more, if it was asked to.
    fn end(&mut self) -> Result<(), PromptError>
        ensures { seen_of T.state self.new.device ≡ seen_of T.state self.old.device }
    {
        if self.marks {
            self.send(END)?;
            self.marks = false;
        }
        Ok(())
    }

    /// Reads a line.
    fn read<H: LineEditorHost>(
        &mut self,
        alloc: Global,
        host: &mut H,
        prompt: &str,
    ) -> Result<Answer, PromptError>
        ensures ok { let line = line_begun H.rules H.OVERRIDES prompt.now (H.value host.old) in
            IfOk result (IsReadFrom line (seen_of T.state self.old.device)
            (seen_of T.state self.new.device) (H.value host.new)) }
        ensures err { let line = line_begun H.rules H.OVERRIDES prompt.now (H.value host.old) in
            OnErr result (IsUnreadFrom line (seen_of T.state self.old.device)
            (seen_of T.state self.new.device) (H.value host.new)) }
        ensures prompt { IsPrompt (seen_of T.state self.old.device)
            → IsPrompt (seen_of T.state self.new.device) }
    {
        self.begin()?;
        match read_line_from(alloc, &mut self.device, host, prompt) {
            Ok(answer) => Ok(answer),
            Err(error) => Err(self.refusal(error)),
        }
    }

    /// Reads a line with the functions of an application.
    fn read_with<A: Application, L: History + LentLines, K: KeyPart>(
        &mut self,
        alloc: Global,
        application: &mut A,
        host: &mut PromptHost<PreparedHost, L, K, PreparedLines>,
        prompt: &str,
    ) -> Result<Answer, PromptError>
        ensures ok { let host_of = ⟦<PromptHost<PreparedHost, L, K, PreparedLines> as LineEditorHost>⟧ in
            let line = line_begun host_of.rules host_of.OVERRIDES prompt.now (host_of.value host.old) in
            IfOk result (IsHookedFrom host_of.value application_rules line
            (seen_of T.state self.old.device) (seen_of T.state self.new.device)
            (host_of.value host.new)) }
        ensures prompt { IsPrompt (seen_of T.state self.old.device)
            → IsPrompt (seen_of T.state self.new.device) }
    {
        self.begin()?;
        match read_with(alloc, application, &mut self.device, host, prompt) {
            Ok(answer) => Ok(answer),
            Err(error) => Err(self.refusal(error)),
        }
    }
}

/// Reads a line of standard input, by what an application says of its rows.
fn read_plainly_with<A: Application>(
    rt: HostRuntime,
    application: &A,
) -> Result<Answer, PromptError> {
    let mut line = PlainLine::new(rt);
    for _ in 0..u64::MAX {
        if !line.read_row()? {
            break;
        }
        let validation = application.validate(rt.alloc(), line.text.as_str())?;
        if line.is_accepted(validation)? {
            return Ok(Answer::Line(line.text));
        }
    }
    Ok(Answer::End(line.text))
}

/// Returns what stands for the rows of a pasted text in a prompt: its rows only if the prompt shows rows.
fn pasted_for(rows: &Rows) -> Pasted {
    if rows.are_shown() {
        Pasted::Rows
    } else {
        Pasted::OneRow
    }
}

impl<
    H: LineEditorHost + Drop,
    L: History + LentLines + Drop,
    K: KeyPart + Drop,
    V: Validator + Drop,
> PromptOver<PromptTerminal, H, L, K, V> {
    /// Opens a prompt with this host, which gets the columns of the terminal. Fails with `PromptError::Arguments` if the
    /// program's arguments `-at` or `-tty` lack what belongs to them, and with `PromptError::Opening` if the file of the
    /// terminal can't be opened.
    pub fn over(rt: HostRuntime, host: PromptHost<H, L, K, V>) -> Result<Self, PromptError> {
        let arguments = Arguments::read(rt)?;
        let Some(size) = arguments.size else {
            return PromptOver::at_pipe(rt, host);
        };
        let file = arguments.file.as_ref().map(|file| file.as_str());
        let (input, output) = open_streams(rt, file)?;
        let terminal = PatientTerminal::new(rt.alloc(), output, size);
        PromptOver::at_terminal(rt, host, input, terminal, size)
    }

    /// Creates a prompt at standard input, which is no terminal.
    pub fn at_pipe(rt: HostRuntime, host: PromptHost<H, L, K, V>) -> Result<Self, PromptError> {
        let host = Box::new(rt.alloc(), host)?;
        let place = Box::new(rt.alloc(), Place::Pipe)?;
        Ok(PromptOver {
            host,
            remembers: true,
            rt,
            place,
        })
    }
}

impl<
    T: DeviceTerminal + Drop,
    H: LineEditorHost + Drop,
    L: History + LentLines + Drop,
    K: KeyPart + Drop,
    V: Validator + Drop,
> PromptOver<T, H, L, K, V> {
    /// Creates a prompt at a terminal of this size, whose bytes come from `input`. The host gets its columns.
    pub fn at_terminal(
        rt: HostRuntime,
        host: PromptHost<H, L, K, V>,
        input: TerminalInput,
        terminal: T,
        size: ScreenSize,
    ) -> Result<Self, PromptError> {
        let mut host = Box::new(rt.alloc(), host)?;
        host.menu.cols = size.cols;
        host.screen.cols = size.cols;
        let place = Place::Terminal(TerminalPlace {
            errors: input.errors()?,
            device: Joined::new(PromptEvents::new(rt.alloc(), input, rt), terminal),
            marks: false,
        });
        Ok(PromptOver {
            host,
            remembers: true,
            rt,
            place: Box::new(rt.alloc(), place)?,
        })
    }

    /// Returns true if lines are typed at a terminal.
    pub fn is_typed(&self) -> bool {
        matches!(&*self.place, Place::Terminal(_))
    }

    /// Forgets what the last line left, and lets pasted texts keep their rows if the host shows rows. Returns the
    /// prompt.
    fn begin_line(&mut self) -> Result<String, PromptError>
        ensures place { seen_in T.state self.new.place.value
            ≡ seen_in T.state self.old.place.value }
        ensures remembers { self.new.remembers ≡ self.old.remembers }
        ensures begun { let host = ⟦<PromptHost<H, L, K, V> as LineEditorHost>⟧ in
            host.value self.new.host.value ≡ record (host.value self.old.host.value) {
              keys = K.keys.leaves (K.state self.old.host.value.keys);
              going = going_at_rest;
            } }
        ensures prompt { IfOk result (λ prompt. string_bytes prompt
            ≡ string_bytes self.old.host.value.screen.prompt) }
    {
        self.host.begin_line();
        if let Place::Terminal(place) = &mut *self.place {
            place.device.source.set_pasted(pasted_for(&self.host.rows));
        }
        Ok(self.host.screen.prompt.clone()?)
    }

    /// Ends a reading: the terminal marks nothing any more, and an accepted line goes into the history. If the terminal
    /// refuses, the line is answered all the same, and `close` asks once more.
    fn end_line(&mut self, answer: Result<Answer, PromptError>) -> Result<Answer, PromptError>
        ensures answer { result ≡ answer }
        ensures place { seen_in T.state self.new.place.value
            ≡ seen_in T.state self.old.place.value }
        ensures kept { let host = ⟦<PromptHost<H, L, K, V> as LineEditorHost>⟧ in
            IfOk answer (λ it. IsRemembered host.rules.lines self.old.remembers (accepted_in it)
            (host.value self.old.host.value) (host.value self.new.host.value)) }
        ensures left { let host = ⟦<PromptHost<H, L, K, V> as LineEditorHost>⟧ in
            OnErr answer (host.value self.new.host.value ≡ host.value self.old.host.value) }
    {
        if let Place::Terminal(place) = &mut *self.place {
            let _unmarked = place.end();
        }
        if let Ok(answer) = &answer {
            self.remember(answer);
        }
        answer
    }

    /// Reads a line where the prompt reads its lines.
    fn read_line(&mut self, prompt: &str) -> Result<Answer, PromptError>
        ensures ok { let host = ⟦<PromptHost<H, L, K, V> as LineEditorHost>⟧ in
            let value = host.value self.old.host.value in
            let line = line_begun host.rules host.OVERRIDES prompt.now value in
            IfOk result (IsReadIn (IsReadFrom line) (seen_in T.state self.old.place.value)
            (seen_in T.state self.new.place.value) (host.value self.new.host.value)) }
        ensures err { let host = ⟦<PromptHost<H, L, K, V> as LineEditorHost>⟧ in
            let value = host.value self.old.host.value in
            let line = line_begun host.rules host.OVERRIDES prompt.now value in
            OnErr result (IsUnreadIn line (seen_in T.state self.old.place.value)
            (seen_in T.state self.new.place.value) (host.value self.new.host.value)) }
        ensures prompt { StaysPrompt (seen_in T.state self.old.place.value)
            (seen_in T.state self.new.place.value) }
        ensures remembers { self.new.remembers ≡ self.old.remembers }
    {
        let alloc = self.rt.alloc();
        match &mut *self.place {
            Place::Pipe => self.read_plainly(),
            Place::Terminal(place) => place.read(alloc, &mut *self.host, prompt),
        }
    }

    /// Reads a line. The prompt is `host.screen.prompt`, and pasted texts keep their rows if `host` shows rows. What the
    /// last line left, accepted or not, is forgotten first. Meanwhile the terminal marks pasted texts and tells its
    /// sizes. At a pipe an incomplete line goes on with the next one, behind a line feed, and why a line is invalid is
    /// written to standard error.
    pub fn read(&mut self) -> Result<Answer, PromptError>
        ensures ok { let host = ⟦<PromptHost<H, L, K, V> as LineEditorHost>⟧ in
            let fresh = record (host.value self.old.host.value) {
              keys = K.keys.leaves (K.state self.old.host.value.keys);
              going = going_at_rest;
            } in
            let prompt = string_bytes self.old.host.value.screen.prompt in
            let line = line_begun host.rules host.OVERRIDES prompt fresh in
            IfOk result (IsReadAndKept IsReadFrom line self.old.remembers
            (seen_in T.state self.old.place.value) (seen_in T.state self.new.place.value)
            (host.value self.new.host.value)) }
        ensures err { let host = ⟦<PromptHost<H, L, K, V> as LineEditorHost>⟧ in
            let fresh = record (host.value self.old.host.value) {
              keys = K.keys.leaves (K.state self.old.host.value.keys);
              going = going_at_rest;
            } in
            let prompt = string_bytes self.old.host.value.screen.prompt in
            let line = line_begun host.rules host.OVERRIDES prompt fresh in
            OnErr result (IsUnreadIn line (seen_in T.state self.old.place.value)
            (seen_in T.state self.new.place.value) (host.value self.new.host.value)) }
        ensures prompt { StaysPrompt (seen_in T.state self.old.place.value)
            (seen_in T.state self.new.place.value) }
    {
        let prompt = self.begin_line()?;
        let answer = self.read_line(prompt.as_str());
        self.end_line(answer)
    }

    /// Reads a line of standard input, by what the validator says of its rows.
    fn read_plainly(&self) -> Result<Answer, PromptError> {
        let alloc = self.rt.alloc();
        let mut line = PlainLine::new(self.rt);
        for _ in 0..u64::MAX {
            if !line.read_row()? {
                break;
            }
            let validation = self.host.validator.validate(alloc, line.text.as_str())?;
            if line.is_accepted(validation)? {
                return Ok(Answer::Line(line.text));
            }
        }
        Ok(Answer::End(line.text))
    }

    /// Adds an accepted line to the history. If there is no memory for it, the line is not kept.
    fn remember(&mut self, answer: &Answer)
        ensures place { self.new.place ≡ self.old.place }
        ensures kept { let host = ⟦<PromptHost<H, L, K, V> as LineEditorHost>⟧ in
            IsRemembered host.rules.lines self.old.remembers (accepted_in answer.now)
            (host.value self.old.host.value) (host.value self.new.host.value) }
    {
        match answer {
            Answer::Line(line) if self.remembers && !line.is_empty() => {
                let _kept = self.host.remember(line.as_str());
            }
            _ => {}
        }
    }

    /// Prints lines, which end with CR LF at a terminal. An unfinished last line is ended, and of no line nothing is
    /// sent. The text is sent as it is, so it has to leave no attribute set: see `visible` for texts from elsewhere. A
    /// refusal may have sent a beginning.
    pub fn print(&mut self, text: &str) -> Result<(), PromptError> {
        let alloc = self.rt.alloc();
        match &mut *self.place {
            Place::Pipe => {
                let shown = with_line_ends(alloc, text, "\n")?;
                let written = self.rt.stdout().write_all(shown.as_bytes());
                written.map_err(PromptError::Pipe)
            }
            Place::Terminal(place) => {
                let shown = with_line_ends(alloc, text, "\r\n")?;
                if shown.is_empty() {
                    return Ok(());
                }
                place.send(shown.as_str())
            }
        }
    }

    /// Ends the session: if the terminal still marks pasted texts, since it refused at the end of a line, it is asked
    /// once more not to.
    pub fn close(mut self) -> Result<(), PromptError> {
        match &mut *self.place {
            Place::Pipe => Ok(()),
            Place::Terminal(place) => place.end(),
        }
    }
}

impl<T: DeviceTerminal + Drop, L: History + LentLines + Drop, K: KeyPart + Drop> PromptOver<
    T,
    PreparedHost,
    L,
    K,
    PreparedLines,
> {
    /// Reads a line where the prompt reads its lines, with the functions of an application.
    fn read_line_with<A: Application>(
        &mut self,
        application: &mut A,
        prompt: &str,
    ) -> Result<Answer, PromptError>
        ensures ok { let host = ⟦<PromptHost<PreparedHost, L, K, PreparedLines> as LineEditorHost>⟧ in
            let value = host.value self.old.host.value in
            let line = line_begun host.rules host.OVERRIDES prompt.now value in
            IfOk result (IsReadIn (IsHookedFrom host.value application_rules line)
            (seen_in T.state self.old.place.value) (seen_in T.state self.new.place.value)
            (host.value self.new.host.value)) }
        ensures prompt { StaysPrompt (seen_in T.state self.old.place.value)
            (seen_in T.state self.new.place.value) }
        ensures remembers { self.new.remembers ≡ self.old.remembers }
    {
        let alloc = self.rt.alloc();
        match &mut *self.place {
            Place::Pipe => read_plainly_with(self.rt, application),
            Place::Terminal(place) => place.read_with(alloc, application, &mut *self.host, prompt),
        }
    }

    /// Forgets what an application said of a line.
    fn forget_validation(&mut self)
        ensures place { self.new.place ≡ self.old.place }
        ensures remembers { self.new.remembers ≡ self.old.remembers }
        ensures changes { PreparesOnly self.old.host.value self.new.host.value }
    {
        self.host.validator.validation = Validation::Valid;
    }

    /// Reads a line as `read` does, with the functions of an application: see [`Application`].
    pub fn read_with<A: Application>(&mut self, application: &mut A) -> Result<Answer, PromptError>
        ensures ok { let host = ⟦<PromptHost<PreparedHost, L, K, PreparedLines> as LineEditorHost>⟧ in
            let fresh = record (host.value self.old.host.value) {
              keys = K.keys.leaves (K.state self.old.host.value.keys);
              going = going_at_rest;
            } in
            let prompt = string_bytes self.old.host.value.screen.prompt in
            let line = line_begun host.rules host.OVERRIDES prompt fresh in
            let Reads = IsAskedFrom host.value application_rules in
            IfOk result (IsReadAndKept Reads line self.old.remembers
            (seen_in T.state self.old.place.value) (seen_in T.state self.new.place.value)
            (host.value self.new.host.value)) }
        ensures prompt { StaysPrompt (seen_in T.state self.old.place.value)
            (seen_in T.state self.new.place.value) }
    {
        let prompt = self.begin_line()?;
        let answer = self.read_line_with(application, prompt.as_str());
        self.forget_validation();
        self.end_line(answer)
    }
}
