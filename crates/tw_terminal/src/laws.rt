//! The law of the types of this crate: the contract of a function that does nothing.

ghost use Rattle.tw_input.specs.Equality.{ComparesValues};

use crate::terminal::{ScreenSize, TerminalFault};

/// `==` is equality of values.
pub fn equality()
    ensures screen_size { ComparesValues ⟦<ScreenSize as PartialEq>⟧.eq }
    ensures terminal_fault { ComparesValues ⟦<TerminalFault as PartialEq>⟧.eq }
{}
