//! Cases of a line editor as text: what an editor does, and what comes of it.
//!
//! Use it to write tests as rows of text, which one function plays (docs/GUIDE.md, "Testing").
//!
//! From `crates/test_prompt/src/devices/at_once.rt`:
//!
//! ```
//! const TYPED: &str = r"
//! echo hello\r => echo hello
//! ..
//! fn keys_that_come_at_once_are_sent_as_one_line(rt: HostRuntime) -> Result<(), Fail> {
//!     expect_rows(rt.alloc(), TYPED, read_at_once)
//! }
//! ```
#![tactic(auto)]

mod actions;
mod case;
mod cases;
mod changes;
mod column_host;
mod copies;
mod events;
mod history_calls;
mod marks;
mod outcome;
mod readings;
mod resolving_host;
mod script_runs;
mod shown;
mod steps;
mod test_rows;
mod told;
mod watched;

pub use actions::{action_named, movement_named, movements_named};
pub use case::{Case, case_of, host_of, pair_of, remember_all};
pub use cases::{expect_cases, hold};
pub use changes::change_of;
pub use column_host::ColumnHost;
pub use copies::expanded;
pub use events::{
    event_of, event_text, events_named, script_events, script_terminal, terminal_of, terminal_sized,
};
pub use history_calls::play_history;
pub use marks::{mark, mark_if};
pub use outcome::told_of;
pub use readings::read_refused;
pub use resolving_host::ResolvingHost;
pub use script_runs::play_script;
pub use shown::{last_painting, marked_text, painted_text, rows};
pub use test_rows::{bytes_of, expect_rows, expect_runs, fault_text, parted};
pub use told::{answer_text, batches_text, terminal_text, write_batch};
