//! A text above a line that is being read.

ghost use Rattle.std.specs.Prelude.{◌≡◌, ◌++◌, Ok, IfOk, IfErr, OnOk, true, false};
ghost use Rattle.tw_surface.specs.ChangeView.{batch_view};
ghost use Rattle.tw_session.specs.Outcomes.{is_open};
ghost use Rattle.tw_lineedit.specs.Above.{text_above, FailsToPrint, PrintsAbove, ShowsAbove};
ghost use Rattle.tw_lineedit.specs.Feeding.{status_if};
ghost use Rattle.tw_lineedit.specs.Frame.{across, IsSame};
ghost use Rattle.tw_lineedit.specs.Lent.{KeepsTerminal};
ghost use Rattle.tw_lineedit.specs.Reading.{FailuresTell};

use crate::editor::LineEditor;
use crate::editor::feeding::LineStatus;
use std::alloc::{AllocError, Global};
use tw_host::LineEditorHost;
use tw_session::{Error, Mark};
use tw_surface::{CellAttributes, Change, ColorAttribute};
use tw_terminal::Terminal;

/// Returns the batch that shows a text in the place of the painting `before`, and a painting below it.
fn below_text(
    alloc: Global,
    before: Option<Mark>,
    text: &str,
    mut painting: Vec<Change>,
) -> Result<Vec<Change>, AllocError>
    ensures { IfOk result (λ all. batch_view all.items ≡ text_above before text.now
        ++ batch_view painting.items) }
{
    let mut all = Vec::new(alloc);
    if let Some(mark) = before {
        all.push(mark.start_move())?;
    }
    all.push(Change::ClearToEndOfScreen(ColorAttribute::Default))?;
    all.push(Change::AllAttributes(CellAttributes::default()))?;
    all.push(Change::Text(String::from_str(alloc, text)?))?;
    all.append(&mut painting)?;
    Ok(all)
}

impl<'term, T: Terminal> LineEditor<'term, T> {
    /// Prints a text above an open line: it begins in the first row of the line's painting, and the line is painted
    /// again below it. Each line of the text has to end with CR LF, the last one too. If no line takes events, nothing
    /// is done, and `Ended` is returned.
    ///
    /// The line and its host are not changed, and the line stays open if the call is refused: nothing of the text was
    /// shown then, or a beginning.
    pub fn print_above<H: LineEditorHost>(
        &mut self,
        host: &H,
        text: &str,
    ) -> Result<LineStatus, Error>
        ensures terminal { KeepsTerminal T.follows self.old.terminal self.new.terminal }
        ensures ended { is_open self.old.session.state.mode ≡ false
            → (result ≡ Ok LineStatus.Ended) × (self.new.terminal.now ≡ self.old.terminal.now)
            × across T.state H.value IsSame self.old host.now self.new host.now }
        ensures ok { is_open self.old.session.state.mode ≡ true
            → OnOk result (across T.state H.value (PrintsAbove H.rules text.now)
            self.old host.now self.new host.now
            × across T.state H.value (ShowsAbove H.rules text.now)
            self.old host.now self.new host.now) }
        ensures status { IfOk result (λ status. status
            ≡ status_if (is_open self.new.session.state.mode)) }
        ensures err { IfErr result (across T.state H.value (FailsToPrint H.rules text.now)
            self.old host.now self.new host.now) }
        ensures failures { FailuresTell result (T.state self.old.terminal.now).failures
            (T.state self.new.terminal.now).failures }
    {
        if self.session.is_open() {
            self.paint_below(host, text)?;
        }
        Ok(self.status())
    }

    /// Shows a text in the place of the last painting, and paints the session below it.
    fn paint_below<H: LineEditorHost>(&mut self, host: &H, text: &str) -> Result<(), Error>
        ensures terminal { KeepsTerminal T.follows self.old.terminal self.new.terminal }
        ensures ok { OnOk result (across T.state H.value (PrintsAbove H.rules text.now)
            self.old host.now self.new host.now) }
        ensures shows { OnOk result (across T.state H.value (ShowsAbove H.rules text.now)
            self.old host.now self.new host.now) }
        ensures err { IfErr result (across T.state H.value (FailsToPrint H.rules text.now)
            self.old host.now self.new host.now) }
        ensures failures { FailuresTell result (T.state self.old.terminal.now).failures
            (T.state self.new.terminal.now).failures }
    {
        let size = self.terminal.get_screen_size()?;
        let (painting, mark) = self.session.painting_over(host, size, None)?;
        let batch = below_text(self.session.alloc(), self.session.mark(), text, painting)?;
        self.terminal.render(batch.as_slice())?;
        self.session.set_mark(mark);
        Ok(())
    }
}
