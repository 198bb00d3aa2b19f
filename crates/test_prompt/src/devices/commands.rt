//! The worked host.

use std::alloc::{AllocError, Global};
use std::test::Fail;
use test_cases::{answer_text, expect_runs, painted_text, pair_of, script_terminal};
use tw_lineedit::{History, LineEditor, LineEditorHost};
use worked_host::CommandHost;

/// Returns a host that knows three commands.
fn host_of_three(alloc: Global) -> Result<CommandHost, AllocError> {
    let mut known = Vec::new(alloc);
    for &word in &["copy", "count", "move"] {
        known.push(String::from_str(alloc, word)?)?;
    }
    Ok(CommandHost::new(alloc, known))
}

/// A host, the terminal call that fails in the next reading, and the text of the last painting.
#[derive(Drop)]
struct Session {
    host: CommandHost,
    fault: Option<(usize, usize)>,
    shown: String,
}

impl Session {
    fn new(alloc: Global) -> Result<Session, AllocError> {
        Ok(Session {
            host: host_of_three(alloc)?,
            fault: None,
            shown: String::new(alloc),
        })
    }

    /// Reads a line from a script and returns the answer.
    fn read(&mut self, alloc: Global, script: &str) -> Result<String, Fail> {
        let mut terminal = script_terminal(alloc, script)?;
        if let Some((call, taken)) = self.fault.take() {
            terminal.fail_at(call, taken);
        }
        let answer = LineEditor::new(alloc, &mut terminal)?.read_line_and_remember(&mut self.host);
        self.shown = painted_text(alloc, &terminal)?;
        Ok(answer_text(alloc, &answer)?)
    }
}

/// Runs `new`, `fail CALL TAKEN` or a script. Answers `shown`, and `last` with the last index of the history.
fn obey(alloc: Global, session: &mut Session, command: &str) -> Result<String, Fail> {
    let (word, rest) = command.split_once(' ').unwrap_or((command, ""));
    Ok(match word {
        "new" => {
            *session = Session::new(alloc)?;
            String::new(alloc)
        }
        "fail" => {
            session.fault = Some(pair_of(rest)?);
            String::new(alloc)
        }
        "shown" => session.shown.clone()?,
        "last" => format!(in alloc; "{:?}", session.host.history().last())?,
        _ => session.read(alloc, command)?,
    })
}

const READINGS: &str = r#"
// keys
new; type copy a\nkey Enter => Some("copy a")
new; type co\nkey Tab\nkey Enter => Some("copy")
new; type co\nkey Tab\nkey Tab\nkey Enter => Some("count")
new; type co\nkey Tab\nkey Tab\nkey Tab\nkey Enter => Some("copy")
new; type mo\nkey Tab\ntype  x\nkey Enter => Some("move x")
new; type move co\nkey Tab\nkey Enter => Some("move copy")
new; type ca\nkey Tab\nkey Enter => Some("ca")
new; type move x\nkey C-U\ntype copy\nkey Enter => Some("copy")
new; type copy\nkey Escape => None

// lines that were read come back
new; type copy a\nkey Enter => Some("copy a")
type move b\nkey Enter => Some("move b")
type count\nkey Escape => None
key Up\nkey Enter => Some("move b")
key Up\nkey Up\nkey Enter => Some("copy a")

// a call of the terminal is refused in the midst of the line, which is not added to the history
new; fail 5 0; type copy\nkey Enter; last => refusal 7; None

// commands are bold
new; type copy copy\nkey Enter; shown => Some("copy copy"); {}> {}{bold}copy{} copy
new; type cop copy\nkey Enter; shown => Some("cop copy"); {}> {}cop copy
"#;

#[test]
fn commands_are_read(rt: HostRuntime) -> Result<(), Fail> {
    let mut session = Session::new(rt.alloc())?;
    expect_runs(rt.alloc(), READINGS, |alloc: Global, command: &str| {
        obey(alloc, &mut session, command)
    })
}
