//! Plays a trial.

use crate::count::Count;
use crate::ends::Writes;
use crate::readings::{Ending, keys_of, read_bytes, read_keys};
use crate::shown::Shown;
use crate::trial::Trial;
use std::alloc::{AllocError, Global};
use tw_ansi::Encoder;
use tw_surface::Change;
use tw_terminal::ScriptTerminal;

/// Plays a trial, and adds to the count what was played and found: what is written for its bytes is compared with what
/// the editor paints that is told its keys.
pub fn replay(alloc: Global, trial: &Trial, count: &mut Count) -> Result<(), anyhow::Error> {
    let mut writes = Writes::new(alloc);
    let endings = read_bytes(alloc, trial, &mut writes)?;
    let mut terminal = ScriptTerminal::new(alloc, trial.size, keys_of(alloc, trial)?);
    replay_keys(alloc, trial, &endings, &writes, &mut terminal, count)
}

/// Has an editor read the keys at a terminal, and compares what it answers and paints with how the readings of the
/// bytes ended and with what was written.
fn replay_keys(
    alloc: Global,
    trial: &Trial,
    endings: &[Ending],
    writes: &Writes,
    terminal: &mut ScriptTerminal,
    count: &mut Count,
) -> Result<(), anyhow::Error> {
    let told = read_keys(alloc, trial, endings.len(), terminal)?;
    count.strings = count.strings.saturating_add(1);
    count.typed = count.typed.saturating_add(trial.bytes.len() as u64);
    count.readings = count.readings.saturating_add(endings.len() as u64);
    count.note(told.as_slice() != endings);
    count.note(terminal.events_left() > 0);
    count.note(writes.len() != terminal.batches().len());
    let mut encoder = Encoder::new(trial.size.cols);
    compare_bytes(alloc, &mut encoder, terminal.batches(), writes, count)?;
    compare_cells(alloc, trial, terminal.batches(), writes, count)
}

/// Compares the bytes of each batch with what was written for it.
fn compare_bytes(
    alloc: Global,
    encoder: &mut Encoder,
    batches: &[Vec<Change>],
    writes: &Writes,
    count: &mut Count,
) -> Result<(), AllocError> {
    for (index, batch) in batches.iter().enumerate() {
        let bytes = writes.bytes_of(index);
        let mut text = String::new(alloc);
        encode(encoder, batch.as_slice(), &mut text)?;
        count.batches = count.batches.saturating_add(1);
        count.bytes = count.bytes.saturating_add(bytes.len() as u64);
        count.note(bytes != text.as_bytes());
    }
    Ok(())
}

/// Adds the bytes of a batch.
fn encode(encoder: &mut Encoder, batch: &[Change], text: &mut String) -> Result<(), AllocError> {
    for change in batch {
        encoder.encode(change, text)?;
    }
    Ok(())
}

/// Compares what the terminal shows that receives what was written with its table, after each batch.
fn compare_cells(
    alloc: Global,
    trial: &Trial,
    batches: &[Vec<Change>],
    writes: &Writes,
    count: &mut Count,
) -> Result<(), anyhow::Error> {
    let mut shown = Shown::new(alloc, trial)?;
    show_batches(&mut shown, trial, batches, writes, count)
}

/// Has the terminal receive what was written for each batch.
fn show_batches(
    shown: &mut Shown,
    trial: &Trial,
    batches: &[Vec<Change>],
    writes: &Writes,
    count: &mut Count,
) -> Result<(), anyhow::Error> {
    shown.enter(trial.entry)?;
    for (index, batch) in batches.iter().enumerate() {
        let found = shown.take(batch.as_slice(), trial.column, writes.bytes_of(index))?;
        count.add_found(found);
    }
    Ok(())
}
