//! Validators of lines.

ghost use Rattle.std.specs.Prelude.{◌≡◌, ℕ, List, IfOk};
ghost use Rattle.tw_prompt_host.specs.Validation.{Valid, ValidationView, validation_view};

use std::alloc::{AllocError, Global};

/// What a validator says of a line. A text of several rows has CR LF between them.
#[derive(Debug, Drop)]
pub enum Validation {
    /// It may be accepted.
    Valid,
    /// It lacks what the text says. In a prompt that shows rows Enter begins a row, else the line is kept and the text
    /// shown.
    Incomplete(String),
    /// It is wrong, for the reason in the text: the line is kept, and the reason shown.
    Invalid(String),
}

/// Decides whether a line may be accepted. Contracts see only its function `judges`.
pub trait Validator {
    ghost judges: { Self → List ℕ → ValidationView };

    /// Says whether a line may be accepted.
    fn validate(&self, alloc: Global, line: &str) -> Result<Validation, AllocError>
        ensures { IfOk result (λ said. validation_view said ≡ judges self.now line.now) };
}

/// Accepts every line.
#[derive(Debug, Drop)]
pub struct AllLines;

impl Validator for AllLines {
    ghost use Rattle.tw_prompt_host.specs.Validation.{Valid};

    ghost judges = { λ it line. Valid };

    fn validate(&self, _alloc: Global, _line: &str) -> Result<Validation, AllocError> {
        Ok(Validation::Valid)
    }
}

/// Accepts every line but one, of which an application has said before what it is.
#[derive(Debug, Drop)]
pub struct PreparedLines {
    /// The line.
    pub line: String,
    /// What is said of it.
    pub validation: Validation,
}

impl PreparedLines {
    /// Creates the validator with nothing said, so that it accepts every line. It takes no memory.
    pub fn new(alloc: Global) -> Self
        ensures { validation_view result.validation ≡ Valid }
    {
        PreparedLines {
            line: String::new(alloc),
            validation: Validation::Valid,
        }
    }
}

impl Validator for PreparedLines {
    ghost use Rattle.std.specs.Prelude.{if◌then◌else◌, string_bytes};
    ghost use Rattle.tw_hosts.specs.Words.{is_same};
    ghost use Rattle.tw_prompt_host.specs.Validation.{Valid, validation_view};

    ghost judges = { λ it line. if is_same line (string_bytes it.line)
        then validation_view it.validation else Valid };

    fn validate(&self, alloc: Global, line: &str) -> Result<Validation, AllocError> {
        if line != self.line.as_str() {
            return Ok(Validation::Valid);
        }
        match &self.validation {
            Validation::Valid => Ok(Validation::Valid),
            Validation::Incomplete(text) => {
                Ok(Validation::Incomplete(String::from_str(alloc, text.as_str())?))
            }
            Validation::Invalid(text) => {
                Ok(Validation::Invalid(String::from_str(alloc, text.as_str())?))
            }
        }
    }
}
