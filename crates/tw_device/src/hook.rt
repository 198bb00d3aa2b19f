//! What is done between two events of a reading.

ghost use Rattle.std.specs.Prelude.{IfOk, OnOk, string_bytes};
ghost use Rattle.std.specs.Str.{IsCharBoundary};
ghost use Rattle.tw_input.specs.EventView.{event_view};
ghost use Rattle.tw_lineedit.specs.Cut.{cut_at};

use tw_input::InputEvent;
use tw_lineedit::{Error, LineEditorHost};

/// Prepares a host between two events, as an application does that says what completes and colours a line. Each function
/// keeps to the rules that the hook states of itself.
pub trait Hook<H: LineEditorHost> {
    ghost use Rattle.tw_device.specs.Hooked.{HookRules};

    ghost rules: { HookRules H };

    /// Prepares the host for an event, before the editor handles it. The line has its cursor at the byte offset
    /// `cursor`, a character boundary.
    fn before(
        &mut self,
        host: &mut H,
        line: &str,
        cursor: usize,
        event: &InputEvent,
    ) -> Result<(), Error>
        requires { IsCharBoundary line.now cursor }
        ensures changes { rules.changes host.old host.new }
        ensures ok { OnOk result (rules.is_asked (cut_at line.now cursor)
            (event_view event.now) host.new) };

    /// Prepares the host for the painting of a line that begins, or goes on once an event is handled.
    fn prepare(&mut self, host: &mut H, line: &str, cursor: usize) -> Result<(), Error>
        requires { IsCharBoundary line.now cursor }
        ensures changes { rules.changes host.old host.new }
        ensures ok { OnOk result (rules.is_prepared (cut_at line.now cursor) host.new) };

    /// Returns a text to print above the line, each line of which ends with CR LF: an empty one for none.
    fn above(&mut self) -> Result<String, Error>
        ensures { IfOk result (λ text. rules.prints (string_bytes text)) };
}
