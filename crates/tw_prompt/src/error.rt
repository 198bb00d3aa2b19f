//! Why a prompt fails.

use std::alloc::{AllocError, AllocFailed};
use std::io;
use thiserror::Error;
use tw_lineedit::Error as EditorError;

/// Why a call of a prompt failed.
#[derive(Debug, Drop, Error)]
pub enum PromptError {
    /// The program's arguments `-at` or `-tty` lack what belongs to them.
    #[error("-at wants the columns and the rows of the terminal, and -tty its file")]
    Arguments,
    /// The file of the terminal can't be opened.
    #[error("the terminal can't be opened: {0}")]
    Opening(io::Error),
    /// The terminal could not be read or written.
    #[error("the terminal failed: {0}")]
    Terminal(io::Error),
    /// Standard input could not be read, or standard output or standard error not written: they are no terminal.
    #[error("standard input or output failed: {0}")]
    Pipe(io::Error),
    /// The editor refused the line.
    #[error(transparent)]
    Editor(#[from] EditorError),
}

impl From<AllocError> for PromptError {
    fn from(refused: AllocError) -> PromptError {
        PromptError::Editor(EditorError::Memory(refused))
    }
}

impl<T: Drop> From<AllocFailed<T>> for PromptError {
    fn from(refused: AllocFailed<T>) -> PromptError {
        PromptError::from(AllocError::from(refused))
    }
}
