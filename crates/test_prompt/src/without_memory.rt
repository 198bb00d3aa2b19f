//! A prompt that allocates nothing while its line is empty.

use crate::prompt::{Prompt, new_prompt};
use std::alloc::Global;
use std::test::Fail;
use test_cases::{events_named, hold, mark};
use tw_line::LineEditBuffer;
use tw_lineedit::LineEditorHost;

/// Events that change nothing of an empty line. Each kind of key is among them.
const AT_REST: &str = "\
Left Right Home End Up Down PageUp PageDown A-< A-> C-A C-E C-F C-B A-f A-b C-P C-N C-L Escape \
C-W C-Y A-y A-Backspace A-. C-T A-t A-u A-l A-c A-d C-K C-U C-D Delete Backspace C-_ C-X C-U \
C-R A-d C-S C-G C-J Enter";

/// Answers an empty line twice, the second time between marks.
fn answer_empty_line(alloc: Global, prompt: &mut Prompt) -> Result<(), Fail> {
    let mut line = LineEditBuffer::empty(alloc);
    let events = events_named(alloc, AT_REST)?;
    for event in &events {
        prompt.resolve_action(alloc, event, &mut line)?;
    }
    prompt.begin_line();
    mark(alloc)?;
    for event in &events {
        prompt.resolve_action(alloc, event, &mut line)?;
    }
    prompt.complete(alloc, "zz", 2)?;
    prompt.highlight_line(alloc, "", 0)?;
    mark(alloc)?;
    hold(line.get_line().is_empty(), line.get_line(), "")
}

/// An empty line is answered from what the prompt has: the room of undo steps stays when a line ends.
#[test]
fn empty_lines_are_answered_without_memory(rt: HostRuntime) -> Result<(), Fail> {
    let alloc = rt.alloc();
    answer_empty_line(alloc, &mut new_prompt(alloc)?)
}
