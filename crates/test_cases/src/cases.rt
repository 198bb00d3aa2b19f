//! Cases in one text: what is done, and what is to come of it.

use std::alloc::Global;
use std::test::Fail;

/// Fails with the case if something does not hold.
pub fn hold(holds: bool, case: &str, what: &str) -> Result<(), Fail> {
    if holds {
        return Ok(());
    }
    Err(Fail::new(format_args!("{case}: {what}")))
}

/// Fails with a text unless it is empty.
pub(crate) fn fail_with(unlike: &str) -> Result<(), Fail> {
    if unlike.is_empty() {
        return Ok(());
    }
    Err(Fail::new(format_args!("{unlike}")))
}

/// Returns true if what comes is what is wanted. Below a line `..` stand ends of some of the lines that come.
fn is_wanted(came: &str, wanted: &str) -> bool {
    match wanted.split_once("\n..\n") {
        None => came.trim_end_matches('\n') == wanted.trim_end_matches('\n'),
        Some((first, ends)) => {
            came.starts_with(first)
                && ends
                    .lines()
                    .all(|end| came.lines().any(|line| line.ends_with(end)))
        }
    }
}

/// Returns the cases from which something else comes than is wanted, each with what comes.
fn unlike_cases<F: Fn(Global, &str) -> Result<String, Fail>>(
    alloc: Global,
    cases: &str,
    play: F,
) -> Result<String, Fail>
    requires { F.IsAlwaysCallable play }
{
    let mut unlike = String::new(alloc);
    for case in cases.split("==\n") {
        if case.is_empty() {
            continue;
        }
        let (done, wanted) = case.split_once("--\n").ok_or("a case without `--`")?;
        add_unlike(&mut unlike, done, wanted, play(alloc, done))?;
    }
    Ok(unlike)
}

/// Appends a case and what comes of it if that is not what is wanted.
fn add_unlike(
    unlike: &mut String,
    done: &str,
    wanted: &str,
    played: Result<String, Fail>,
) -> Result<(), Fail> {
    let came = played?;
    if !is_wanted(came.as_str(), wanted) {
        write!(unlike, "{done}-- came:\n{came}\n==\n")?;
    }
    Ok(())
}

/// Plays cases and fails with those from which something else comes than is wanted. A case has the lines of what is
/// done, below `--` the lines that are wanted, and ends with `==`. Below a line `..` of these stand ends of some of the
/// lines that come.
pub fn expect_cases<F: Fn(Global, &str) -> Result<String, Fail>>(
    alloc: Global,
    cases: &str,
    play: F,
) -> Result<(), Fail>
    requires { F.IsAlwaysCallable play }
{
    let unlike = unlike_cases(alloc, cases, play)?;
    fail_with(unlike.as_str())
}
