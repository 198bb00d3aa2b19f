//! A small command prompt at a terminal in raw mode; `prompt.sh` starts it. It keeps the last lines, with hints from
//! them, completes commands and their arguments by a menu, shows them in bold, has a hint under a line that begins with
//! a question mark, and begins a row in a line in which a bracket or a quotation is open. It ends at `quit`, at Ctrl-D
//! on an empty line, and at the end of what is typed. With the argument `sparing` the terminal is sent what differs,
//! with `patient` also nothing while more keys are at hand, and else all that is painted.
//!
//! `tables` has what the prompt knows, `completers` what completes the arguments of commands, and `host` the host,
//! which is made of ready parts.
#![tactic(auto)]

mod completers;
mod host;
mod tables;

use anyhow::anyhow;
use host::{DemoKeys, demo_host};
use tw_device::{AnsiTerminal, Answer, DeviceTerminal};
use tw_history_parts::RecentHistory;
use tw_hosts::TableHost;
use tw_lineedit::BasicHistory;
use tw_prompt::{Arguments, PromptOver, TerminalInput, open_streams, read_listing};
use tw_prompt_host::NestedLines;
use tw_sparing::PatientTerminal;
use tw_terminal::ScreenSize;

/// What stands before the line.
const PROMPT: &str = "> ";

/// The prompt at a terminal.
type DemoPrompt<T> = PromptOver<T, TableHost<BasicHistory>, RecentHistory, DemoKeys, NestedLines>;

/// Prints a line. Returns false for `quit`.
fn obey<T: DeviceTerminal + Drop>(
    rt: HostRuntime,
    prompt: &mut DemoPrompt<T>,
    line: &str,
) -> Result<bool, anyhow::Error> {
    if line == "quit" {
        return Ok(false);
    }
    let told = format!(in rt.alloc(); "read {line:?}")?;
    prompt.print(told.as_str())?;
    Ok(true)
}

/// Reads a line and obeys it. Returns false if there is to be no other. File names are those that the directory has
/// now.
fn read_and_obey<T: DeviceTerminal + Drop>(
    rt: HostRuntime,
    prompt: &mut DemoPrompt<T>,
) -> Result<bool, anyhow::Error> {
    prompt.host.listings = vec![in rt.alloc(); read_listing(rt, ".", "")?]?;
    match prompt.read()? {
        Answer::Line(line) => obey(rt, prompt, line.as_str()),
        Answer::Cancelled => {
            prompt.print("cancelled")?;
            Ok(true)
        }
        Answer::End(_) => Ok(false),
    }
}

/// Reads lines up to `quit`, or up to the end of the input.
fn serve<T: DeviceTerminal + Drop>(
    rt: HostRuntime,
    mut prompt: DemoPrompt<T>,
) -> Result<(), anyhow::Error> {
    for _ in 0..u64::MAX {
        if !read_and_obey(rt, &mut prompt)? {
            break;
        }
    }
    prompt.close()?;
    Ok(())
}

/// Reads lines at a terminal.
fn serve_at<T: DeviceTerminal + Drop>(
    rt: HostRuntime,
    input: TerminalInput,
    terminal: T,
    size: ScreenSize,
) -> Result<(), anyhow::Error> {
    let host = demo_host(rt.alloc(), PROMPT)?;
    serve(
        rt,
        PromptOver::at_terminal(rt, host, input, terminal, size)?,
    )
}

/// What the terminal is sent.
#[derive(Clone, Copy)]
enum Way {
    Plain,
    Sparing,
    Patient,
}

/// Parses the program's own arguments.
fn way_of(words: &[String]) -> Result<Way, anyhow::Error> {
    let Some(word) = words.first() else {
        return Ok(Way::Plain);
    };
    match word.as_str() {
        "sparing" if words.len() == 1 => Ok(Way::Sparing),
        "patient" if words.len() == 1 => Ok(Way::Patient),
        _ => Err(anyhow!("usage: prompt_demo [sparing|patient]")),
    }
}

fn main(rt: HostRuntime) -> Result<(), anyhow::Error> {
    let alloc = rt.alloc();
    let arguments = Arguments::read(rt)?;
    let way = way_of(&arguments.own)?;
    let Some(size) = arguments.size else {
        return serve(rt, PromptOver::at_pipe(rt, demo_host(alloc, PROMPT)?)?);
    };
    let file = arguments.file.as_ref().map(|file| file.as_str());
    let (input, output) = open_streams(rt, file)?;
    match way {
        Way::Plain => serve_at(rt, input, AnsiTerminal::new(alloc, output, size), size),
        Way::Sparing => serve_at(rt, input, PatientTerminal::new(alloc, output, size), size),
        Way::Patient => {
            let terminal = PatientTerminal::new(alloc, output, size);
            serve_at(rt, input.reading_ahead(), terminal, size)
        }
    }
}
