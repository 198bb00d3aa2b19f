//! A prompt of a database: `example_sql [-bail] [-history FILE] FILE` runs the statements that it reads on the database
//! in FILE, or on a new one in memory if that is `:memory:`. `tools/at_terminal` starts it at a terminal.
//! docs/SQL_PROMPT.md is for its users.
//!
//! `session` has what a line does, `begun` what was read of a statement, `language` what is known of a line while it is
//! typed, `catalog` the names of the database, and `table` how rows are shown.
#![tactic(auto)]

mod begun;
mod catalog;
mod language;
mod session;
mod table;

use session::{Options, Session};
use sqlite::{Alter, Connection, Error};
use std::io::Write;
use std::process::ExitCode;
use tw_prompt::Arguments;

/// The most steps that a statement may take.
const STEPS: u64 = 100_000_000;

/// The message if the arguments are wrong.
const USAGE: &str = "usage: example_sql [-bail] [-history FILE] FILE\n";

/// Parses the arguments. Returns `None` if they are wrong.
fn read_options(rt: HostRuntime) -> Option<Options> {
    let arguments = Arguments::read(rt).ok()?;
    let mut bails = false;
    let mut history = None;
    let mut path = None;
    let mut words = arguments.own.into_iter();
    for _ in 0..u64::MAX {
        let Some(word) = words.next() else {
            break;
        };
        match word.as_str() {
            "-bail" => bails = true,
            "-history" => history = Some(words.next()?),
            option if option.starts_with('-') => return None,
            _ if path.is_some() => return None,
            _ => path = Some(word),
        }
    }
    let is_typed = arguments.size.is_some();
    if !is_typed {
        history = None;
    }
    Some(Options {
        path: path?,
        is_typed,
        bails,
        history,
    })
}

/// Runs a session with a database. The status is 1 if a statement of a script failed, or if an error ended the session.
fn serve<S: Alter>(
    rt: HostRuntime,
    connection: &mut Connection<S>,
    options: &Options,
) -> Result<ExitCode, anyhow::Error> {
    connection.set_step_limit(Some(STEPS));
    let has_failed = Session::open(rt, options)?.run(connection)?;
    Ok(ExitCode::from(u8::from(has_failed)))
}

/// Writes an error of a database to standard error.
fn refuse(rt: HostRuntime, path: &str, error: Error) -> Result<ExitCode, anyhow::Error> {
    let message = format!(in rt.alloc(); "example_sql: {path}: {error}\n")?;
    rt.stderr().write_all(message.as_bytes())?;
    Ok(ExitCode::from(1))
}

/// Runs a session with the database in a file. However it ends the connection is closed, so that the file by itself has
/// all that was committed.
fn serve_file(rt: HostRuntime, options: &Options) -> Result<ExitCode, anyhow::Error> {
    let path = options.path.as_str();
    let mut connection = match Connection::open(&rt, path) {
        Ok(connection) => connection,
        Err(error) => return refuse(rt, path, error),
    };
    let served = serve(rt, &mut connection, options);
    match connection.close() {
        Ok(()) => served,
        Err(error) => refuse(rt, path, error),
    }
}

fn main(rt: HostRuntime) -> Result<ExitCode, anyhow::Error> {
    let Some(options) = read_options(rt) else {
        rt.stderr().write_all(USAGE.as_bytes())?;
        return Ok(ExitCode::from(2));
    };
    if options.path.as_str() != ":memory:" {
        return serve_file(rt, &options);
    }
    let mut connection = Connection::open_in_memory(rt.alloc())?;
    connection.set_clock(&rt);
    serve(rt, &mut connection, &options)
}
