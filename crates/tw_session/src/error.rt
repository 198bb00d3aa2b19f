//! What the editor answers in place of a line.

use std::alloc::{AllocError, AllocFailed};
use thiserror::Error;
use tw_surface::{AddFault, SizeFault};
use tw_terminal::TerminalFault;

/// Why the editor refused a call.
#[derive(Debug, Drop, Error)]
pub enum Error {
    /// The action `EndOfFile` was asked for.
    #[error("End Of File")]
    EndOfFile,
    /// A line is being read already.
    #[error("recursive call to read_line!")]
    Recursive,
    /// The screen has no row or no column.
    #[error("screen size is zero")]
    ZeroSize,
    /// The screen, or what is to be painted on it, is too large.
    #[error("size out of range")]
    SizeOutOfRange,
    /// A completion candidate does not fit the line.
    #[error("completion candidate does not fit")]
    CandidateDoesNotFit,
    /// A growth was refused.
    #[error("out of memory")]
    Memory(AllocError),
    /// A call of the terminal failed.
    #[error("terminal fault")]
    Terminal(TerminalFault),
}

impl Error {
    ghost use Rattle.std.specs.Prelude.{◌≡◌};
    ghost use Rattle.tw_session.specs.Refusal.{error_number};

    /// Returns the error's number, from 1 to 7 in the order of the variants.
    pub fn number(&self) -> u8
        ensures { result ≡ error_number self.now }
    {
        match self {
            Error::EndOfFile => 1,
            Error::Recursive => 2,
            Error::ZeroSize => 3,
            Error::SizeOutOfRange => 4,
            Error::CandidateDoesNotFit => 5,
            Error::Memory(_) => 6,
            Error::Terminal(_) => 7,
        }
    }
}

impl From<AllocError> for Error {
    ghost use Rattle.std.specs.Prelude.{◌≡◌};
    ghost use Rattle.tw_session.specs.declared.error.Error.TheVariants.{Memory};

    ghost from_gives = { λ refused error. error ≡ Memory refused };

    fn from(refused: AllocError) -> Error {
        Error::Memory(refused)
    }
}

impl<T: Drop> From<AllocFailed<T>> for Error {
    ghost use Rattle.std.specs.Prelude.{◌≡◌, alloc_error};
    ghost use Rattle.tw_session.specs.declared.error.Error.TheVariants.{Memory};

    ghost from_gives = { λ _ error. error ≡ Memory alloc_error };

    fn from(_refused: AllocFailed<T>) -> Error {
        Error::Memory(AllocError)
    }
}

impl From<AddFault> for Error {
    ghost use Rattle.std.specs.Prelude.{◌≡◌};
    ghost use Rattle.tw_session.specs.DrawSteps.{add_error};

    ghost from_gives = { λ fault error. error ≡ add_error fault };

    fn from(fault: AddFault) -> Error {
        match fault {
            AddFault::Memory => Error::Memory(AllocError),
            AddFault::OutOfRange => Error::SizeOutOfRange,
        }
    }
}

impl From<SizeFault> for Error {
    ghost use Rattle.std.specs.Prelude.{◌≡◌};
    ghost use Rattle.tw_session.specs.DrawSteps.{size_error};

    ghost from_gives = { λ fault error. error ≡ size_error fault };

    fn from(fault: SizeFault) -> Error {
        match fault {
            SizeFault::ZeroSize => Error::ZeroSize,
            SizeFault::OutOfRange => Error::SizeOutOfRange,
        }
    }
}

impl From<TerminalFault> for Error {
    ghost use Rattle.std.specs.Prelude.{◌≡◌};
    ghost use Rattle.tw_session.specs.declared.error.Error.TheVariants.{Terminal};

    ghost from_gives = { λ fault error. error ≡ Terminal fault };

    fn from(fault: TerminalFault) -> Error {
        Error::Terminal(fault)
    }
}
