//! The arguments that `tools/at_terminal` puts before those of a program.

use crate::error::PromptError;
use crate::sizes::usable;
use std::env;
use tw_terminal::ScreenSize;

/// The arguments of a program.
#[derive(Debug, Drop)]
pub struct Arguments {
    /// The size of the terminal that the program was started at: `-at COLS ROWS`. `None` if there is no terminal.
    pub size: Option<ScreenSize>,
    /// The file of the terminal, if it is not standard input and output: `-tty FILE`.
    pub file: Option<String>,
    /// The program's own arguments, without its name.
    pub own: Vec<String>,
}

/// Parses a number of columns or rows.
fn number(argument: Option<String>) -> Result<usize, PromptError> {
    let text = argument.ok_or(PromptError::Arguments)?;
    text.as_str().parse().map_err(|_| PromptError::Arguments)
}

impl Arguments {
    /// Reads the arguments. From the first other one on all are the program's own. Fails with `PromptError::Arguments`
    /// if `-at` or `-tty` lacks what belongs to it.
    pub fn read(rt: HostRuntime) -> Result<Self, PromptError> {
        let mut size = None;
        let mut file = None;
        let mut own = Vec::new(rt.alloc());
        let mut words = env::args(&rt).map_err(|_| PromptError::Arguments)?;
        let _name = words.next();
        for _ in 0..u64::MAX {
            let Some(word) = words.next() else {
                break;
            };
            match word.as_str() {
                "-at" if own.is_empty() => {
                    let cols = number(words.next())?;
                    let rows = number(words.next())?;
                    size = Some(usable(ScreenSize { rows, cols }));
                }
                "-tty" if own.is_empty() => file = Some(
                    words.next().ok_or(PromptError::Arguments)?,
                ),
                _ => own.push(word)?,
            }
        }
        Ok(Arguments { size, file, own })
    }
}
