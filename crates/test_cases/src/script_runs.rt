//! Scripts that are run.

use crate::cases::hold;
use crate::marks::mark;
use script_player::{RunFault, run};
use std::alloc::{AllocError, Global};
use std::test::Fail;

/// Returns true if a text says that the terminal refused, and what a screen shows then.
fn is_refused_by_terminal(written: &str) -> bool {
    let Some(rest) = written.strip_prefix("refused 7\n") else {
        return false;
    };
    rest.lines().all(|line| {
        line.starts_with('|')
            || line.starts_with("cursor ")
            || line.starts_with("end ")
            || line == "screen not plain"
    })
}

/// Returns true if a run between marks wrote what the run with memory writes, nothing if memory was refused, but for
/// what stands before a bad line, or that the terminal refused.
fn is_in_place(
    (written, ended): (&str, &Result<(), RunFault>),
    (output, end): (&str, &Result<(), RunFault>),
) -> bool {
    match ended {
        Ok(()) if is_refused_by_terminal(written) => true,
        Err(RunFault::Memory) => {
            written.is_empty() || end.is_err() && output.starts_with(written)
        }
        _ => written == output && ended == end,
    }
}

/// Runs a script between marks, and again. Returns what it writes, and behind `-- ` how it ends.
pub fn play_script(alloc: Global, script: &[u8]) -> Result<String, Fail> {
    let mut written = Vec::with_capacity(alloc, 4096)?;
    mark(alloc)?;
    let ended = run(alloc, &mut &script[..], &mut written);
    mark(alloc)?;
    let mut output = Vec::new(alloc);
    let end = run(alloc, &mut &script[..], &mut output);
    let written = std::str::from_utf8(written.as_slice())?;
    let output = std::str::from_utf8(output.as_slice())?;
    held_run(alloc, (written, &ended), (output, &end))
}

/// Tests what a run between marks wrote beside what the run with memory writes. Returns that, and how it ends.
fn held_run(
    alloc: Global,
    (written, ended): (&str, &Result<(), RunFault>),
    (output, end): (&str, &Result<(), RunFault>),
) -> Result<String, Fail> {
    let is_in_place = is_in_place((written, ended), (output, end));
    hold(is_in_place, written, output)?;
    Ok(run_text(alloc, output, end)?)
}

/// Returns what a run writes, and behind `-- ` how it ends.
fn run_text(alloc: Global, output: &str, end: &Result<(), RunFault>) -> Result<String, AllocError> {
    match end {
        Ok(()) => format!(in alloc; "{output}-- ok"),
        Err(RunFault::BadLine(number)) => format!(in alloc; "{output}-- bad line {number}"),
        Err(fault) => format!(in alloc; "{output}-- {fault:?}"),
    }
}
