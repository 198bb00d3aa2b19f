//! What completes the arguments of commands.

use crate::tables::words;
use std::alloc::{AllocError, Global};
use tw_hosts::{Completer, Context, ContextCompleter, WordList};

/// What `count` counts.
const COUNTED: &str = "bytes lines words";

/// Returns the completer of a command's arguments.
fn arguments(
    alloc: Global,
    command: &str,
    completer: Completer,
) -> Result<ContextCompleter, AllocError> {
    Ok(ContextCompleter {
        context: Context::ArgumentOf(String::from_str(alloc, command)?),
        completer,
    })
}

/// Completes file names after `copy` and `move`, and after `count` what is counted, with commas between.
pub fn completers(alloc: Global) -> Result<Vec<ContextCompleter>, AllocError> {
    let counted = WordList {
        words: words(alloc, COUNTED)?,
        delimiters: String::from_str(alloc, " ,")?,
        ignores_case: true,
    };
    let completers = vec![in alloc;
        arguments(alloc, "copy", Completer::FileNames)?,
        arguments(alloc, "move", Completer::FileNames)?,
        arguments(alloc, "count", Completer::Words(counted))?,
    ]?;
    Ok(completers)
}
