//! A terminal that fails at one of its calls. What a screen shows of each painting in these rows, and of the closing
//! batch that follows the last one, say `stopped` and `run` of `read_line`.

use crate::calls::play_calls;
use crate::idle::line_from;
use std::alloc::{AllocError, Global};
use std::test::Fail;
use test_cases::{batches_text, expect_cases, hold, terminal_of, write_batch};
use tw_surface::Change;

const FAULTS: &str = "\
events a Enter
fail 0 0
show batches
--
refusal 7, 2 left, 0 flushed, 1 failed
size flush
==
events a Enter
fail 1 0
show batches
--
refusal 7, 2 left, 0 flushed, 1 failed
size render flush
==
events a Enter
fail 2 0
show batches
--
refusal 7, 2 left, 2 flushed, 1 failed
ClearToEndOfScreen, AllAttributes, Text(\"> \"), AllAttributes, Text(\"\"), CP(R(0), R(0))
CP(A(0), R(1)), ClearToEndOfScreen
size render poll render flush
==
events a Enter
fail 3 0
show batches
--
refusal 7, 1 left, 2 flushed, 1 failed
ClearToEndOfScreen, AllAttributes, Text(\"> \"), AllAttributes, Text(\"\"), CP(R(0), R(0))
CP(A(0), R(1)), ClearToEndOfScreen
size render poll size render flush
==
events a Enter
fail 4 0
show batches
--
refusal 7, 1 left, 2 flushed, 1 failed
ClearToEndOfScreen, AllAttributes, Text(\"> \"), AllAttributes, Text(\"\"), CP(R(0), R(0))
CP(A(0), R(1)), ClearToEndOfScreen
size render poll size render render flush
==
events a Enter
fail 5 0
show batches
--
refusal 7, 1 left, 3 flushed, 1 failed
ClearToEndOfScreen, AllAttributes, Text(\"> \"), AllAttributes, Text(\"\"), CP(R(0), R(0))
CP(A(0), R(0)), ClearToEndOfScreen, AllAttributes, Text(\"> \"), AllAttributes, Text(\"a\"), CP(R(0), R(0))
CP(A(0), R(1)), ClearToEndOfScreen
size render poll size render poll render flush
==
events a Enter
fail 6 0
show batches
--
refusal 7, 0 left, 3 flushed, 1 failed
ClearToEndOfScreen, AllAttributes, Text(\"> \"), AllAttributes, Text(\"\"), CP(R(0), R(0))
CP(A(0), R(0)), ClearToEndOfScreen, AllAttributes, Text(\"> \"), AllAttributes, Text(\"a\"), CP(R(0), R(0))
CP(A(0), R(1)), ClearToEndOfScreen
size render poll size render poll size render flush
==
events a Enter
fail 7 0
show batches
--
refusal 7, 0 left, 3 flushed, 1 failed
ClearToEndOfScreen, AllAttributes, Text(\"> \"), AllAttributes, Text(\"\"), CP(R(0), R(0))
CP(A(0), R(0)), ClearToEndOfScreen, AllAttributes, Text(\"> \"), AllAttributes, Text(\"a\"), CP(R(0), R(0))
CP(A(0), R(1)), ClearToEndOfScreen
size render poll size render poll size render render flush
==
events a Enter
fail 8 0
show batches
--
refusal 7, 0 left, 0 flushed, 1 failed
ClearToEndOfScreen, AllAttributes, Text(\"> \"), AllAttributes, Text(\"\"), CP(R(0), R(0))
CP(A(0), R(0)), ClearToEndOfScreen, AllAttributes, Text(\"> \"), AllAttributes, Text(\"a\"), CP(R(0), R(0))
CP(A(0), R(0)), ClearToEndOfScreen, AllAttributes, Text(\"> \"), AllAttributes, Text(\"a\"), CP(R(0), R(0))
size render poll size render poll size render render
==
events a Enter
fail 9 0
show batches
--
refusal 7, 0 left, 0 flushed, 1 failed
ClearToEndOfScreen, AllAttributes, Text(\"> \"), AllAttributes, Text(\"\"), CP(R(0), R(0))
CP(A(0), R(0)), ClearToEndOfScreen, AllAttributes, Text(\"> \"), AllAttributes, Text(\"a\"), CP(R(0), R(0))
CP(A(0), R(0)), ClearToEndOfScreen, AllAttributes, Text(\"> \"), AllAttributes, Text(\"a\"), CP(R(0), R(0))
CP(A(0), R(1)), ClearToEndOfScreen
size render poll size render poll size render render flush
==
# a fault leaves a beginning of the batch
events a Enter
fail 1 2
show batches
--
refusal 7, 2 left, 1 flushed, 1 failed
ClearToEndOfScreen, AllAttributes
size render flush
==
events a Enter
fail 4 2
show batches
--
refusal 7, 1 left, 3 flushed, 1 failed
ClearToEndOfScreen, AllAttributes, Text(\"> \"), AllAttributes, Text(\"\"), CP(R(0), R(0))
CP(A(0), R(0)), ClearToEndOfScreen
CP(A(0), R(1)), ClearToEndOfScreen
size render poll size render render flush
==
events a Enter
fail 8 1
show batches
--
refusal 7, 0 left, 0 flushed, 1 failed
ClearToEndOfScreen, AllAttributes, Text(\"> \"), AllAttributes, Text(\"\"), CP(R(0), R(0))
CP(A(0), R(0)), ClearToEndOfScreen, AllAttributes, Text(\"> \"), AllAttributes, Text(\"a\"), CP(R(0), R(0))
CP(A(0), R(0)), ClearToEndOfScreen, AllAttributes, Text(\"> \"), AllAttributes, Text(\"a\"), CP(R(0), R(0))
CP(A(0), R(1))
size render poll size render poll size render render
==
# a fault of the closing batch comes before the line
events Enter
fail 5 0
show batches
--
refusal 7, 0 left, 0 flushed, 1 failed
ClearToEndOfScreen, AllAttributes, Text(\"> \"), AllAttributes, Text(\"\"), CP(R(0), R(0))
CP(A(0), R(0)), ClearToEndOfScreen, AllAttributes, Text(\"> \"), AllAttributes, Text(\"\"), CP(R(0), R(0))
size render poll size render render
==
";

/// Fails if another answer than the fault of a call comes.
fn hold_refusal_at(alloc: Global, call: usize) -> Result<(), Fail> {
    let case = format!(in alloc; "events a C-L Enter\nfail {call} 0\n")?;
    let outcome = play_calls(alloc, case.as_str())?;
    let is_refused = outcome.as_str().starts_with("refusal 7, ");
    hold(is_refused, case.as_str(), outcome.as_str())
}

/// The answer is the very fault, at each call, and no call is tried again. The painting before is closed, and all is
/// flushed, unless the closing batch itself is refused.
#[test]
fn a_fault_ends_the_calls(rt: HostRuntime) -> Result<(), Fail> {
    expect_cases(rt.alloc(), FAULTS, play_calls)?;
    for call in 0..14 {
        hold_refusal_at(rt.alloc(), call)?;
    }
    Ok(())
}

/// Returns the batches of the line of `a Enter`, the first changes of the batch of call `call` only, and no more of it.
fn batches_of(alloc: Global, call: usize, taken: usize) -> Result<String, Fail> {
    let case = format!(in alloc; "events a Enter\nshow batches\nfail {call} {taken}\n")?;
    let outcome = play_calls(alloc, case.as_str())?;
    let (_, batches) = outcome.as_str().split_once('\n').ok_or("no batches")?;
    let (batches, _) = batches.rsplit_once('\n').unwrap_or(("", ""));
    Ok(String::from_str(alloc, batches)?)
}

/// Adds a beginning of a batch, unless it is empty.
fn add_beginning(text: &mut String, batch: &[Change]) -> Result<(), AllocError> {
    if batch.is_empty() {
        return Ok(());
    }
    write_batch(text, batch)?;
    text.push('\n')
}

/// Fails unless of the last of the batches, which call `call` renders, the first changes are taken, behind the batches
/// before it and above `behind`.
fn hold_beginning(
    alloc: Global,
    batches: &[Vec<Change>],
    (call, behind): (usize, &str),
    taken: usize,
) -> Result<(), Fail> {
    let (batch, before) = batches.split_last().ok_or("no batch")?;
    let mut wanted = batches_text(alloc, before)?;
    add_beginning(&mut wanted, &batch[..taken.min(batch.len())])?;
    wanted.push_str(behind)?;
    let came = batches_of(alloc, call, taken)?;
    let wanted = wanted.as_str().trim_end();
    hold(came.as_str() == wanted, wanted, came.as_str())
}

/// What the first batches of the line of `a Enter` are rendered by, and what is rendered once one of them is refused.
const CALLS: &[(usize, &str)] = &[
    (1, ""),
    (4, "CP(A(0), R(1)), ClearToEndOfScreen\n"),
    (7, "CP(A(0), R(1)), ClearToEndOfScreen\n"),
    (8, ""),
];

/// Fails unless of each batch each beginning is taken.
fn hold_beginnings(alloc: Global, batches: &[Vec<Change>]) -> Result<(), Fail> {
    for (index, &call) in CALLS.iter().enumerate() {
        let batches = batches.get(..=index).ok_or("no batch")?;
        for taken in 0..9 {
            hold_beginning(alloc, batches, call, taken)?;
        }
    }
    Ok(())
}

/// A refused batch is taken up to its fault, as a batch of its own if anything of it was taken. After it stands the
/// closing batch of the painting before, if there was one.
#[test]
fn a_refused_batch_is_taken_up_to_its_fault(rt: HostRuntime) -> Result<(), Fail> {
    let alloc = rt.alloc();
    let mut terminal = terminal_of(alloc, 80, "a Enter")?;
    line_from(alloc, &mut terminal)?;
    hold_beginnings(alloc, terminal.batches())
}
