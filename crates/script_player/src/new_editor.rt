//! A new editor for each line.

ghost use Rattle.std.specs.Prelude.{◌≡◌, IfErr, IfOk};
ghost use Rattle.script_player.specs.NewEditor.{AnswersLine, IsSteady, RefusesLine};

use std::alloc::Global;
use tw_lineedit::{Error, LineEditor, LineEditorHost};
use tw_terminal::Terminal;

/// Reads a line from the terminal with a new editor of this prompt, which is gone afterwards.
pub fn read_line<T: Terminal, H: LineEditorHost>(
    alloc: Global,
    terminal: &mut T,
    host: &mut H,
    prompt: &str,
) -> Result<Option<String>, Error>
    ensures read { let before = T.state terminal.old in
        let after = T.state terminal.new in
        IfOk result (AnswersLine H.rules prompt.now (H.value host.old)
        (H.value host.new) before after) }
    ensures refused { let before = T.state terminal.old in
        let after = T.state terminal.new in
        IfErr result (RefusesLine H.rules H.OVERRIDES prompt.now (H.value host.old)
        (H.value host.new) before after) }
    ensures kept { IsSteady H.rules → H.value host.new ≡ H.value host.old }
{
    let mut editor = LineEditor::new(alloc, terminal)?;
    editor.set_prompt(prompt)?;
    editor.read_line(host)
}
