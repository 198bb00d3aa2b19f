//! A session: what each line of input does to a database, and what it prints.

use crate::begun::Begun;
use crate::catalog::{TABLES, read_catalog};
use crate::language::Language;
use crate::table::Table;
use sql_language::{statement_len, tokenize};
use sqlite::{Alter, Connection, Error};
use std::alloc::{AllocError, Global};
use std::io::Write;
use tw_prompt::{Answer, Prompt, PromptError, visible};

/// How many statements the history keeps.
const STATEMENTS_KEPT: usize = 1000;

/// The most characters of a statement that a message has.
const STATEMENT_SHOWN: usize = 60;

/// The prompt.
const PROMPT: &str = "sql> ";

/// The prompt of a statement that goes on.
const CONTINUATION: &str = "   ...> ";

/// What the arguments ask for.
#[derive(Drop)]
pub struct Options {
    /// The file of the database, or `:memory:`.
    pub path: String,
    /// True if lines are typed at a terminal.
    pub is_typed: bool,
    /// True if the first error ends the session.
    pub bails: bool,
    /// The file in which statements are kept that are typed, if there is one.
    pub history: Option<String>,
}

/// A session at a terminal or a pipe.
#[derive(Drop)]
pub struct Session<'a> {
    rt: HostRuntime,
    options: &'a Options,
    prompt: Prompt,
    language: Language,
    /// What was read of a statement that has no end yet. At a terminal a line has whole statements, in rows, unless a
    /// search accepted it.
    begun: Begun,
    /// The number of the last line, from 1.
    line: u64,
    /// That of the line on which the statement begins.
    begun_line: u64,
    has_failed: bool,
    has_ended: bool,
}

/// Why a statement is not answered.
#[derive(Drop)]
enum Failure {
    /// The statement failed.
    Statement(Error),
    /// Its rows could not be printed.
    Prompt(PromptError),
}

impl From<Error> for Failure {
    fn from(error: Error) -> Self {
        Failure::Statement(error)
    }
}

impl From<AllocError> for Failure {
    fn from(error: AllocError) -> Self {
        Failure::Statement(error.into())
    }
}

impl From<PromptError> for Failure {
    fn from(error: PromptError) -> Self {
        Failure::Prompt(error)
    }
}

/// Returns the beginning of a statement in one line.
fn beginning(alloc: Global, statement: &str) -> Result<String, AllocError> {
    let mut line = String::new(alloc);
    for word in statement.split_whitespace() {
        line.push_str(if line.is_empty() { "" } else { " " })?;
        line.push_str(word)?;
    }
    if let Some((end, _)) = line.as_str().char_indices().nth(STATEMENT_SHOWN) {
        line.truncate(end);
        line.push('…')?;
    }
    Ok(line)
}

impl<'a> Session<'a> {
    /// Opens a session at the terminal of the arguments, or at a pipe.
    pub fn open(rt: HostRuntime, options: &'a Options) -> Result<Self, anyhow::Error> {
        let alloc = rt.alloc();
        let language = Language::new(alloc, options.is_typed)?;
        let mut prompt = Prompt::open(rt, PROMPT)?;
        prompt.show_rows(CONTINUATION)?;
        if let Some(path) = &options.history {
            prompt.keep_history(path.as_str(), STATEMENTS_KEPT)?;
        }
        Ok(Session {
            rt,
            options,
            prompt,
            language,
            begun: Begun::new(alloc),
            line: 0,
            begun_line: 0,
            has_failed: false,
            has_ended: false,
        })
    }

    /// Takes lines up to the end of the session. Returns true if a statement of a script failed, or if an error ended
    /// the session.
    pub fn run<S: Alter>(mut self, connection: &mut Connection<S>) -> Result<bool, anyhow::Error> {
        for _ in 0..u64::MAX {
            self.read_line(connection)?;
            if self.has_ended || self.bails() {
                break;
            }
        }
        self.prompt.tell_unkept()?;
        let Session {
            prompt,
            options,
            has_failed,
            ..
        } = self;
        prompt.close()?;
        Ok(has_failed && (options.bails || !options.is_typed))
    }

    /// Returns true if an error ends the session.
    fn bails(&self) -> bool {
        self.has_failed && self.options.bails
    }

    /// Sets the prompt, by whether a statement goes on.
    fn set_prompt(&mut self) -> Result<(), AllocError> {
        let prompt = if self.begun.is_empty() {
            PROMPT
        } else {
            CONTINUATION
        };
        self.prompt.host.screen.prompt = String::from_str(self.rt.alloc(), prompt)?;
        Ok(())
    }

    /// Reads a line, and does what it says. Before it the names are learned that the database has now.
    fn read_line<S: Alter>(&mut self, connection: &mut Connection<S>) -> Result<(), anyhow::Error> {
        self.prompt.tell_unkept()?;
        if self.options.is_typed {
            if let Ok(catalog) = read_catalog(self.rt.alloc(), connection) {
                self.language.catalog = catalog;
            }
            self.set_prompt()?;
        }
        match self.prompt.read_with(&mut self.language)? {
            Answer::Line(line) => self.take_line(connection, line.as_str()),
            Answer::Cancelled => {
                self.begun.clear();
                Ok(())
            }
            Answer::End(_) => self.finish(connection),
        }
    }

    /// Takes a line: a command if no statement has begun and a point stands first, or else a part of statements, of
    /// which those run that are whole.
    fn take_line<S: Alter>(
        &mut self,
        connection: &mut Connection<S>,
        line: &str,
    ) -> Result<(), anyhow::Error> {
        self.line = self.line.saturating_add(1);
        if self.begun.is_empty() {
            self.begun_line = self.line;
            if line.starts_with('.') {
                return self.obey(connection, line.trim());
            }
        }
        if self.begun.push_row(line)? {
            self.run_whole(connection)?;
        }
        Ok(())
    }

    /// Obeys a command.
    fn obey<S: Alter>(
        &mut self,
        connection: &mut Connection<S>,
        command: &str,
    ) -> Result<(), anyhow::Error> {
        match command {
            ".quit" => {
                self.has_ended = true;
                Ok(())
            }
            ".tables" => self.run_statement(connection, TABLES),
            _ => self.refuse("no such command: there are .quit and .tables", command),
        }
    }

    /// Runs the statements that are whole.
    fn run_whole<S: Alter>(&mut self, connection: &mut Connection<S>) -> Result<(), anyhow::Error> {
        let none = Begun::new(self.rt.alloc());
        let begun = std::mem::replace(&mut self.begun, none);
        let mut done: usize = 0;
        for _ in 0..begun.as_str().len() {
            let rest = begun.as_str().get(done..).unwrap_or("");
            let Some(len) = statement_len(rest) else {
                break;
            };
            let (statement, _) = rest.split_at(len);
            self.run_statement(connection, statement)?;
            self.begun_line = self.line;
            done = if self.bails() {
                begun.as_str().len()
            } else {
                done.saturating_add(len)
            };
        }
        let rest = begun.as_str().get(done..).unwrap_or("");
        Ok(self.begun.push_rest(rest)?)
    }

    /// Runs a statement, and tells its rows or its error. Only one that makes a trigger has semicolons before its end.
    fn run_statement<S: Alter>(
        &mut self,
        connection: &mut Connection<S>,
        statement: &str,
    ) -> Result<(), anyhow::Error> {
        let alloc = self.rt.alloc();
        let error = match self.answer(connection, statement) {
            Ok(()) => return Ok(()),
            Err(Failure::Prompt(error)) => return Err(error.into()),
            Err(Failure::Statement(error)) => error,
        };
        let tokens = tokenize(alloc, statement)?;
        if tokens.iter().filter(|token| token.text == ";").count() > 1 {
            return self.refuse("triggers are not supported", statement);
        }
        let reason = format!(in alloc; "{error}")?;
        self.refuse(reason.as_str(), statement)
    }

    /// Runs a statement, and prints its rows as a table, page by page.
    fn answer<S: Alter>(
        &mut self,
        connection: &mut Connection<S>,
        statement: &str,
    ) -> Result<(), Failure> {
        let alloc = self.rt.alloc();
        let prepared = connection.prepare(statement)?;
        if prepared.column_count() == 0 {
            prepared.execute(connection, &[])?;
            return Ok(());
        }
        let mut most = usize::MAX;
        if self.options.is_typed {
            most = self.prompt.host.screen.cols;
        }
        let mut table = Table::new(alloc, prepared.column_names(), most)?;
        let mut rows = prepared.query(connection, &[])?;
        for _ in 0..u64::MAX {
            let Some(row) = rows.next()? else {
                break;
            };
            if table.push(alloc, row)? {
                self.prompt.print(table.page(alloc)?.as_str())?;
            }
        }
        self.prompt.print(table.end(alloc)?.as_str())?;
        Ok(())
    }

    /// Ends the input. A last statement runs without its semicolon in a script, and not at a terminal.
    fn finish<S: Alter>(&mut self, connection: &mut Connection<S>) -> Result<(), anyhow::Error> {
        self.has_ended = true;
        let none = Begun::new(self.rt.alloc());
        let begun = std::mem::replace(&mut self.begun, none);
        if begun.is_empty() || self.options.is_typed {
            return Ok(());
        }
        self.run_statement(connection, begun.as_str())
    }

    /// Tells a text in one line.
    fn tell(&mut self, text: &str) -> Result<(), anyhow::Error> {
        let mut shown = visible(self.rt.alloc(), text)?;
        shown.push('\n')?;
        Ok(self.prompt.print(shown.as_str())?)
    }

    /// Tells why a statement or a command fails: of a script on standard error, with the line on which it begins.
    fn refuse(&mut self, reason: &str, statement: &str) -> Result<(), anyhow::Error> {
        let alloc = self.rt.alloc();
        self.has_failed = true;
        if self.options.is_typed {
            return self.tell(format!(in alloc; "Error: {reason}")?.as_str());
        }
        let statement = beginning(alloc, statement)?;
        let told = format!(in alloc; "line {}: {reason}: {statement}", self.begun_line)?;
        let shown = visible(alloc, told.as_str())?;
        writeln!(self.rt.stderr(), "{shown}")?;
        Ok(())
    }
}
