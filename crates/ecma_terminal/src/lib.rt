//! A terminal after ECMA-48 that runs: bytes come, and it holds what the small terminal of the definitions holds.
//!
//! Use it in a test to see what a terminal shows that is sent some bytes.
//!
//! From `crates/editor_checks/src/shown.rt`:
//!
//! ```
//! let terminal = EcmaTerminal::new(alloc, rows, cols, trial.entry.cell())?;
//! ..
//! self.terminal.receive_all(bytes)?;
//! ..
//! if self.terminal.cell(row, col) != self.table.cell(row, col) {
//! ```
#![tactic(auto)]

mod cell;
mod fault;
mod grid;
mod rendition;
mod terminal;

pub use cell::TerminalCell;
pub use fault::EcmaFault;
pub use terminal::EcmaTerminal;
