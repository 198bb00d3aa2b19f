//! What the prompt knows: its commands and a hint.

use std::alloc::{AllocError, Global};
use tw_hosts::{Hint, Styles, Tables};
use tw_surface::{CellAttributes, ColorAttribute, Intensity};

/// The commands, which are shown in bold and completed.
const COMMANDS: &str = "copy count move quit";

/// What is shown under a line that begins with a question mark.
const HELP: &str = "Tab completes\r\nUp recalls a line";

/// Returns the words of a text, which spaces part.
pub fn words(alloc: Global, text: &str) -> Result<Vec<String>, AllocError> {
    let mut words = Vec::new(alloc);
    for word in text.split(' ') {
        words.push(String::from_str(alloc, word)?)?;
    }
    Ok(words)
}

/// Returns styles in which commands are bold and quoted texts green.
fn styles() -> Styles {
    let mut keyword = CellAttributes::default();
    keyword.intensity = Intensity::Bold;
    let mut quote = CellAttributes::default();
    quote.foreground = ColorAttribute::PaletteIndex(2);
    Styles { keyword, quote }
}

/// Returns the tables of the prompt.
pub fn tables(alloc: Global) -> Result<Tables, AllocError> {
    let hint = Hint {
        word: String::from_str(alloc, "?")?,
        text: String::from_str(alloc, HELP)?,
    };
    Ok(Tables {
        keywords: words(alloc, COMMANDS)?,
        words: words(alloc, COMMANDS)?,
        hints: vec![in alloc; hint]?,
        keys: Vec::new(alloc),
        styles: styles(),
    })
}
