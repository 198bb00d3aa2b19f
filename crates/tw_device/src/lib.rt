//! A line editor at a device: a terminal and a reader in one, and lines that are read as events come.
//!
//! Use `read_line_from` with a device that `Joined` makes of a `KeyReader` over any `Read` and a terminal over any
//! `Write`, or with one of your own; `Prompt` of `tw_prompt` is the same with all comforts.
//!
//! From `crates/test_prompt/src/devices/at_once.rt`:
//!
//! ```
//! let mut device = Joined::new(KeyReader::new(alloc, typed.as_bytes()), terminal);
//! read_line_from(alloc, &mut device, host, "> ")
//! ..
//!     let terminal = PatientTerminal::new(alloc, &mut taken, size);
//!     read_typed(alloc, terminal, typed, &mut host)?
//! ```
#![tactic(auto)]

mod batch_record;
mod device;
mod device_terminal;
mod escape;
mod event_log;
mod hook;
mod hooked;
mod joined;
mod keys;
pub mod laws;
mod pasted;
mod reading;
mod step_log;
mod terminal;
mod unread;

pub use batch_record::{BatchRecord, encode_batch, write_text};
pub use device::Device;
pub use device_terminal::DeviceTerminal;
pub use escape::Escape;
pub use event_log::EventLog;
pub use hook::Hook;
pub use hooked::read_line_with;
pub use joined::Joined;
pub use keys::{EventSource, KeyReader, SourceState};
pub use pasted::Pasted;
pub use reading::{Answer, read_line_from};
pub use step_log::StepLog;
pub use terminal::AnsiTerminal;
