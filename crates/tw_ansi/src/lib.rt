//! The language of terminals that speak ECMA-48: what is sent for changes, and what the bytes say that come for keys.
//!
//! Use `Encoder` to write changes, and `scan` to read keys, without a device; `tw_device` has a terminal and events
//! over both.
//!
//! From `crates/test_prompt/src/devices/ansi.rt`:
//!
//! ```
//! let mut encoder = Encoder::new(4);
//! let mut out = String::new(alloc);
//! ..
//! encoder.encode(&Change::AllAttributes(attributes), &mut out)?;
//! ```
#![tactic(auto)]

mod characters;
mod control;
mod decode;
mod encode;
pub mod laws;
mod resume;
mod sequence;
mod strings;
mod token;

pub use control::{number_of, semicolon_at};
pub use decode::scan;
pub use encode::Encoder;
pub use resume::{Progress, scan_on};
pub use token::{Scanned, Token};
