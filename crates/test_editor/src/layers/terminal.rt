//! The terminal that plays a script, and its faults.

use std::alloc::{AllocError, Global};
use std::test::Fail;
use test_cases::{change_of, event_text, events_named, expect_runs, fault_text, pair_of};
use tw_input::InputEvent;
use tw_surface::Change;
use tw_terminal::{ScreenSize, ScriptTerminal, Terminal, TerminalFault};

/// Returns a terminal whose events are a key and a new size.
fn two_events(alloc: Global) -> Result<ScriptTerminal, Fail> {
    let size = ScreenSize { rows: 24, cols: 80 };
    Ok(ScriptTerminal::new(alloc, size, events_named(alloc, "Enter 5x3")?))
}

fn three_changes(alloc: Global) -> Result<Vec<Change>, Fail> {
    let mut changes = Vec::new(alloc);
    for &name in &["clear", "text né", "at -1 0"] {
        changes.push(change_of(alloc, name)?)?;
    }
    Ok(changes)
}

/// Makes one call of each kind through the trait. Returns their faults.
fn round<T: Terminal>(terminal: &mut T, changes: &[Change]) -> [Option<TerminalFault>; 4] {
    let size = terminal.get_screen_size().err();
    let render = terminal.render(changes).err();
    let poll = terminal.poll_input().err();
    let flush = terminal.flush().err();
    [size, render, poll, flush]
}

/// Returns the lengths of the batches. Fails if one is no prefix of the changes.
fn lengths(alloc: Global, terminal: &ScriptTerminal, changes: &[Change]) -> Result<String, Fail> {
    let mut output = String::new(alloc);
    for batch in terminal.batches() {
        let length = batch.len();
        if length > changes.len() || batch.as_slice() != &changes[..length] {
            return Err(Fail::from("another batch"));
        }
        write!(output, "{length} ")?;
    }
    Ok(String::from_str(alloc, output.as_str().trim_end())?)
}

/// Formats the answer of a poll.
fn polled_text(
    alloc: Global,
    polled: Result<Option<InputEvent>, TerminalFault>,
) -> Result<String, AllocError> {
    match polled {
        Ok(Some(event)) => event_text(alloc, &event),
        Ok(None) => String::from_str(alloc, "none"),
        Err(fault) => format!(in alloc; "{fault:?}"),
    }
}

/// Runs `new`, `fail CALL TAKEN`, `round` (a size, a render of three changes, a poll and a flush; answers their
/// faults), or `empty` (a render of no change). Answers `size`, `poll`, `flushed`, `left`, `failures` and `batches`.
fn obey(alloc: Global, terminal: &mut ScriptTerminal, command: &str) -> Result<String, Fail> {
    let (word, rest) = command.split_once(' ').unwrap_or((command, ""));
    let changes = three_changes(alloc)?;
    Ok(match word {
        "new" => {
            *terminal = two_events(alloc)?;
            String::new(alloc)
        }
        "fail" => {
            let (call, taken) = pair_of(rest)?;
            terminal.fail_at(call, taken);
            String::new(alloc)
        }
        "round" => format!(in alloc; "{:?}", round(terminal, changes.as_slice()))?,
        "empty" => fault_text(alloc, &terminal.render(&[]))?,
        "size" => format!(in alloc; "{:?}", terminal.get_screen_size())?,
        "poll" => polled_text(alloc, terminal.poll_input())?,
        "flushed" => format!(in alloc; "{}", terminal.flushed())?,
        "left" => format!(in alloc; "{}", terminal.events_left())?,
        "failures" => format!(in alloc; "{}", terminal.failures())?,
        "batches" => lengths(alloc, terminal, changes.as_slice())?,
        _ => return Err(Fail::from("no such command")),
    })
}

const CALLS: &str = r"
// one call of a round fails and takes some changes first; the next round succeeds
new; fail 0 2; round; flushed; left; failures => [Some(Device), None, None, None]; 1; 1; 1
round; flushed; left; failures; batches => [None, None, None, None]; 2; 0; 1; 3 3
new; fail 1 0; round; flushed; left; failures => [None, Some(Device), None, None]; 0; 1; 1
round; flushed; left; failures; batches => [None, None, None, None]; 1; 0; 1; 3
new; fail 1 2; round; flushed; left; failures => [None, Some(Device), None, None]; 1; 1; 1
round; flushed; left; failures; batches => [None, None, None, None]; 2; 0; 1; 2 3
new; fail 1 3; round; flushed; left; failures => [None, Some(Device), None, None]; 1; 1; 1
round; flushed; left; failures; batches => [None, None, None, None]; 2; 0; 1; 3 3
new; fail 1 9; round; flushed; left; failures => [None, Some(Device), None, None]; 1; 1; 1
round; flushed; left; failures; batches => [None, None, None, None]; 2; 0; 1; 3 3
new; fail 2 2; round; flushed; left; failures => [None, None, Some(Device), None]; 1; 2; 1
round; flushed; left; failures; batches => [None, None, None, None]; 2; 1; 1; 3 3
new; fail 3 2; round; flushed; left; failures => [None, None, None, Some(Device)]; 0; 1; 1
round; flushed; left; failures; batches => [None, None, None, None]; 2; 0; 1; 3 3

// the last fault stands
new; fail 0 0; fail 5 1; round; round; batches => [None, None, None, None]; [None, Some(Device), None, None]; 3 1
// its call was made: it fails no other
fail 7 0; round => [None, None, None, None]
// a batch without changes is a batch, but no beginning of it is one
fail 13 1; empty; empty; batches; failures => Device; 3 1 3 0; 2

// events come in order
new; size; poll; size => Ok(ScreenSize { rows: 24, cols: 80 }); Enter; Ok(ScreenSize { rows: 24, cols: 80 })
poll; size => Resized { cols: 5, rows: 3 }; Ok(ScreenSize { rows: 3, cols: 5 })
left; poll; left; poll; failures => 0; none; 0; none; 0
";

#[test]
fn a_script_is_played(rt: HostRuntime) -> Result<(), Fail> {
    let mut terminal = two_events(rt.alloc())?;
    expect_runs(rt.alloc(), CALLS, |alloc: Global, command: &str| {
        obey(alloc, &mut terminal, command)
    })
}
