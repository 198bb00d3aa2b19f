//! Reading a line that the host then has in its history.

ghost use Rattle.std.specs.Prelude.{◌≡◌, ◌≢◌, Err, IfErr, IfOk, None, option_map, string_bytes};
ghost use Rattle.tw_session.specs.EditState.{Inactive};
ghost use Rattle.tw_lineedit.specs.Frame.{across, frame, IsSame};
ghost use Rattle.tw_lineedit.specs.Lent.{KeepsTerminal};
ghost use Rattle.tw_lineedit.specs.Lines.{ShowsWith};
ghost use Rattle.tw_lineedit.specs.Reading.{FailuresTell};
ghost use Rattle.tw_lineedit.specs.Remembering.{FailsToReadAndRemember, ReadsAndRemembers};

use crate::editor::LineEditor;
use tw_host::LineEditorHost;
use tw_session::Error;
use tw_terminal::Terminal;

impl<'term, T: Terminal> LineEditor<'term, T> {
    /// Reads a line as `read_line` does, and adds it to the host's history. A cancelled line is not added.
    ///
    /// A refused reading leaves what a refused `read_line` leaves, and adds nothing. If there is no memory to add the
    /// line, the reading is over, and the history is as it was.
    #[tactic(auto, using(crate::proofs::ShownLemmas::shows_ended))]
    pub fn read_line_and_remember<H: LineEditorHost>(
        &mut self,
        host: &mut H,
    ) -> Result<Option<String>, Error>
        ensures terminal { KeepsTerminal T.follows self.old.terminal self.new.terminal }
        ensures recursive { self.old.session.state.mode ≢ Inactive → (result ≡ Err Error.Recursive)
            × (self.new.terminal.now ≡ self.old.terminal.now) × (host.new ≡ host.old)
            × across T.state H.value IsSame self.old host.old self.new host.new }
        ensures ok { self.old.session.state.mode ≡ Inactive → IfOk result (λ line.
            ReadsAndRemembers H.rules H.value H.history_of H.with_history H.Hist.add_gives
            (frame T.state H.value self.old host.old) (frame T.state H.value self.new) host.new
            (option_map string_bytes line)) }
        ensures err { self.old.session.state.mode ≡ Inactive → IfErr result (
            FailsToReadAndRemember H.rules H.OVERRIDES
            H.value H.history_of H.with_history H.Hist.add_gives
            (frame T.state H.value self.old host.old) (frame T.state H.value self.new) host.new) }
        ensures shows { self.old.session.state.mode ≡ Inactive
            → across T.state H.value (ShowsWith H.rules None)
            self.old host.old self.new host.new result }
        ensures failures { FailuresTell result (T.state self.old.terminal.now).failures
            (T.state self.new.terminal.now).failures }
    {
        let line = self.read_line(host)?;
        if let Some(line) = &line {
            host.remember(line.as_str())?;
        }
        Ok(line)
    }
}
