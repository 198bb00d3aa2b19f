//! Cases over the hosts that they name.

use crate::unkind::stray_host;
use script_player::ListHistory;
use std::alloc::Global;
use std::test::Fail;
use test_cases::{Case, ColumnHost, ResolvingHost, case_of, hold, host_of, remember_all, told_of};
use tw_history_parts::RecentHistory;
use tw_lineedit::{BasicHistory, History, LineEditorHost, NopLineEditorHost};

/// Plays a case over a host with its lines in the history.
fn play_over<H: LineEditorHost>(
    alloc: Global,
    case: &Case<'_>,
    host: &mut H,
) -> Result<String, Fail> {
    remember_all(host, case.history.as_slice())?;
    told_of(alloc, case, host)
}

/// Plays a case over the host of a script with this history, which is empty.
pub fn play_with<L: History + Drop>(
    alloc: Global,
    case: &Case<'_>,
    history: L,
) -> Result<String, Fail> {
    let mut host = host_of(alloc, history, case)?;
    told_of(alloc, case, &mut host)
}

/// Plays a case over the host of a script, with a history of either kind.
fn play_with_both(alloc: Global, case: &Case<'_>) -> Result<String, Fail> {
    let outcome = play_with(alloc, case, BasicHistory::new(alloc))?;
    let other = play_with(alloc, case, ListHistory::new(alloc))?;
    hold(outcome == other, outcome.as_str(), other.as_str())?;
    Ok(outcome)
}

/// Plays a case over the host of this name: `plain`, `resolving`, `stray`, `column COLUMN`, `kept LINES` with a history
/// of the newest lines, or that of a script if there is no name.
fn play_by(alloc: Global, case: &Case<'_>, host: &str) -> Result<String, Fail> {
    let (name, number) = host.split_once(' ').unwrap_or((host, "0"));
    let number: usize = number.parse()?;
    match name {
        "plain" => play_over(alloc, case, &mut NopLineEditorHost::new(alloc)),
        "resolving" => play_over(alloc, case, &mut ResolvingHost::new(alloc)),
        "stray" => play_over(alloc, case, &mut stray_host(alloc)),
        "column" => play_over(alloc, case, &mut ColumnHost::new(alloc, number)),
        "kept" if number > 0 => play_with(alloc, case, RecentHistory::new(alloc, number)),
        "" => play_with_both(alloc, case),
        _ => Err(Fail::from("no host of this name")),
    }
}

/// Plays a case over its host.
pub fn play(alloc: Global, lines: &str) -> Result<String, Fail> {
    let case = case_of(alloc, lines)?;
    play_by(alloc, &case, case.host)
}

/// Plays a case over its host, or the plain one, and shows each batch.
pub fn play_with_batches(alloc: Global, lines: &str) -> Result<String, Fail> {
    let mut case = case_of(alloc, lines)?;
    case.shows = "batches";
    let is_plain = case.host.is_empty();
    play_by(alloc, &case, if is_plain { "plain" } else { case.host })
}
