//! Lines of standard input that is no terminal.

use crate::error::PromptError;
use std::io::{BufRead, Input, Write};
use tw_prompt_host::Validation;

/// A line of standard input, which has several rows if it is incomplete without the later ones.
#[derive(Drop)]
pub(crate) struct PlainLine {
    pub(crate) text: String,
    goes_on: bool,
    rt: HostRuntime,
}

impl PlainLine {
    /// Creates an empty line.
    pub(crate) fn new(rt: HostRuntime) -> Self {
        PlainLine {
            text: String::new(rt.alloc()),
            goes_on: false,
            rt,
        }
    }

    /// Reads a row, without its end, which is LF or CR LF. Bytes that are no UTF-8 become U+FFFD. Returns false at the
    /// end of the input.
    pub(crate) fn read_row(&mut self) -> Result<bool, PromptError> {
        let alloc = self.rt.alloc();
        let mut bytes = Vec::new(alloc);
        let read = self.rt.reader().read_until(b'\n', &mut bytes);
        if read.map_err(PromptError::Pipe)? == 0 {
            return Ok(false);
        }
        let mut row = bytes.as_slice();
        if let Some(rest) = row.strip_suffix(b"\n") {
            row = rest.strip_suffix(b"\r").unwrap_or(rest);
        }
        if self.goes_on {
            self.text.push('\n')?;
        }
        self.text
            .push_str(String::from_utf8_lossy(alloc, row)?.as_str())?;
        Ok(true)
    }

    /// Does with the line what a validator says of it. Returns true if it is accepted. Why it is invalid is written to
    /// standard error, and a new line begins.
    pub(crate) fn is_accepted(&mut self, validation: Validation) -> Result<bool, PromptError> {
        match validation {
            Validation::Valid => Ok(true),
            Validation::Incomplete(_) => {
                self.goes_on = true;
                Ok(false)
            }
            Validation::Invalid(reason) => {
                self.text.clear();
                self.goes_on = false;
                let mut stderr = self.rt.stderr();
                let told = format!(in self.rt.alloc(); "{reason}\n")?;
                let written = stderr.write_all(told.as_bytes());
                written.map_err(PromptError::Pipe)?;
                Ok(false)
            }
        }
    }
}
