//! Why a terminal refuses.

ghost use Rattle.std.specs.Prelude.{◌≡◌};
ghost use Rattle.ecma_terminal.specs.declared.fault.EcmaFault.TheVariants.{Memory};

use std::alloc::{AllocError, AllocFailed};
use std::error::Error;
use std::fmt;

/// Why a terminal is not made, or refuses a byte. A byte that is refused leaves it as it was.
#[derive(Debug, Copy, Clone, PartialEq, Eq)]
pub enum EcmaFault {
    /// It would have no rows or no columns, or more than 65,535 of them.
    Size,
    /// Bytes are no character.
    Character,
    /// A number of a colour is above 255.
    Color,
    /// A character has more columns than the terminal.
    Wide,
    /// A character and its marks have more than 16 bytes.
    Full,
    /// There is no memory.
    Memory,
}

impl fmt::Display for EcmaFault {
    fn fmt<W: fmt::Write>(&self, f: &mut fmt::Formatter<W>) -> fmt::Result {
        f.write_str(match self {
            EcmaFault::Size => "size out of range",
            EcmaFault::Character => "bytes that are no character",
            EcmaFault::Color => "colour out of range",
            EcmaFault::Wide => "character wider than the terminal",
            EcmaFault::Full => "too many marks in a cell",
            EcmaFault::Memory => "out of memory",
        })
    }
}

impl Error for EcmaFault {}

impl From<AllocError> for EcmaFault {
    ghost from_gives = { λ _ fault. fault ≡ Memory };

    fn from(_refused: AllocError) -> EcmaFault {
        EcmaFault::Memory
    }
}

impl<T: Drop> From<AllocFailed<T>> for EcmaFault {
    ghost from_gives = { λ _ fault. fault ≡ Memory };

    fn from(_refused: AllocFailed<T>) -> EcmaFault {
        EcmaFault::Memory
    }
}
