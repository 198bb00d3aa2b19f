//! What a painting asks of a host.

ghost use Rattle.std.specs.Prelude.{ℕ, List, refl};
ghost use Rattle.tw_lineedit.specs.HostRules.{plain_rules};
ghost use Rattle.test_editor.specs.AskedHost.{asked_is_plain, shown_overrides};

use std::alloc::{AllocError, Global};
use std::cell::Cell;
use std::test::Fail;
use test_cases::{expect_cases, terminal_of};
use tw_lineedit::{
    BasicHistory, History, LineEditor, LineEditorHost, OutputElement, Overrides, plain_element,
    plain_line,
};

/// A host that counts how often it is asked for what is shown, and answers plainly.
#[derive(Drop)]
struct AskedHost {
    history: BasicHistory,
    prompts: Cell<usize>,
    lines: Cell<usize>,
    previews: Cell<usize>,
}

fn count_up(count: &Cell<usize>) {
    count.set(count.get().saturating_add(1));
}

impl LineEditorHost for AskedHost {
    type Hist = BasicHistory;

    ghost Value = { List (List ℕ) };

    ghost value = { λ host. host.history };

    ghost rules = { plain_rules (λ lines. lines) };

    ghost history_of = { λ host. host.history };

    ghost with_history = { λ host history. record host { history = history } };

    ghost OVERRIDES = { shown_overrides };

    const OVERRIDES: Overrides = Overrides {
        render_prompt: true,
        render_preview: true,
        highlight_line: true,
        ..Overrides::NONE
    };

    fn history(&mut self) -> &mut BasicHistory {
        &mut self.history
    }

    fn render_prompt(&self, alloc: Global, prompt: &str) -> Result<Vec<OutputElement>, AllocError> {
        count_up(&self.prompts);
        plain_element(alloc, prompt)
    }

    fn render_preview(&self, alloc: Global, _line: &str) -> Result<Vec<OutputElement>, AllocError> {
        count_up(&self.previews);
        Ok(Vec::new(alloc))
    }

    fn highlight_line(
        &self,
        alloc: Global,
        line: &str,
        cursor_position: usize,
    ) -> Result<(Vec<OutputElement>, usize), AllocError> {
        count_up(&self.lines);
        plain_line(alloc, line, cursor_position)
    }

    ghost plain_answers = { asked_is_plain };

    ghost history_put_back = { λ host. refl };

    ghost held_put = { λ host history. refl };

    ghost held_lines = { λ host. refl };
}

/// Returns a host with an empty history, which was not asked yet.
fn unasked_host(alloc: Global) -> AskedHost {
    AskedHost {
        history: BasicHistory::new(alloc),
        prompts: Cell::new(0),
        lines: Cell::new(0),
        previews: Cell::new(0),
    }
}

/// Reads a line of these events with one line in the history.
fn read_asked(alloc: Global, host: &mut AskedHost, events: &str) -> Result<(), Fail> {
    host.history().add("x")?;
    let mut terminal = terminal_of(alloc, 80, events)?;
    let _ = LineEditor::new(alloc, &mut terminal)?.read_line(host);
    Ok(())
}

/// Returns how often a host is asked for prompt, line and preview by a reading of these events.
fn play_asked(alloc: Global, events: &str) -> Result<String, Fail> {
    let mut host = unasked_host(alloc);
    read_asked(alloc, &mut host, events.trim_end())?;
    let (prompts, lines, previews) = (host.prompts.get(), host.lines.get(), host.previews.get());
    Ok(format!(in alloc; "{prompts} {lines} {previews}")?)
}

const ASKED: &str = "\

--
1 1 1
==
Enter
--
2 2 1
==
a b Left C-L Enter
--
6 6 5
==
a C-C
--
3 3 2
==
C-D
--
1 1 1
==
C-R x Left
--
4 4 2
==
a 0x24
--
2 2 2
==
a 80x65536
--
2 2 2
==
";

/// A painting asks for the prompt and the line, and while the line is edited for the preview. The size is asked for
/// before; a refused size asks the host nothing.
#[test]
fn the_host_is_asked_once_for_a_painting(rt: HostRuntime) -> Result<(), Fail> {
    expect_cases(rt.alloc(), ASKED, play_asked)
}
