//! What is played. What stands more than once in a list is picked more often.

use crate::host::MarkedHost;
use crate::keystrokes::keystrokes;
use crate::random_numbers::RandomNumbers;
use crate::table::Entry;
use std::alloc::{AllocError, Global};
use tw_terminal::ScreenSize;

/// Prompts.
const PROMPTS: &[&str] = &["> ", "> ", "", "sh$ ", "a longer prompt: ", "漢字> "];

/// Lines under the line, with CR LF between them.
const PREVIEWS: &[&str] = &[
    "",
    "",
    "",
    "ok",
    "a text that is longer",
    "abcde\r\n\r\nfg",
    "abcdef\r\n",
    "\r\nabc",
    "a 漢字 b かな\r\né\r\n한글🚀",
];

/// Columns that the host gives in place of the cursor's own.
const COLUMNS: &[Option<usize>] = &[None, None, None, None, None, None, Some(0), Some(19)];

const LINES: &[&str] = &[
    "git log",
    "ls",
    "go",
    "cat a b",
    "sed abc dog",
    "tail log -n 5 of a longer line",
    "漢字とかな e\u{301} 한글",
];

/// What the host offers.
const CANDIDATES: &[(usize, usize, &str)] = &[
    (0, 0, "let "),
    (0, 0, "a longer candidate "),
    (0, 0, "漢字 "),
];

/// The fewest rows and columns of a screen.
const LEAST: u64 = 2;

const MOST_ROWS: u64 = 30;

const MOST_COLS: u64 = 40;

/// A screen, the host of its editors, and the bytes that come.
#[derive(Debug, Drop)]
pub struct Trial {
    /// The rows and the columns of the screen.
    pub size: ScreenSize,
    /// How the screen is at first.
    pub entry: Entry,
    /// The prompt.
    pub prompt: &'static str,
    /// The column that the host gives in place of the cursor's own.
    pub column: Option<usize>,
    /// The bytes of the keys.
    pub bytes: Vec<u8>,
    /// How the bytes are cut.
    pub cuts: RandomNumbers,
    preview: &'static str,
    history: Vec<&'static str>,
}

/// Returns a number from one up to another.
fn between(numbers: &mut RandomNumbers, from: u64, to: u64) -> usize {
    let more = numbers.below(to.saturating_sub(from).saturating_add(1));
    from.saturating_add(more) as usize
}

impl Trial {
    /// Returns the next trial.
    pub fn generate(alloc: Global, numbers: &mut RandomNumbers) -> Result<Self, AllocError> {
        let size = ScreenSize {
            rows: between(numbers, LEAST, MOST_ROWS),
            cols: between(numbers, LEAST, MOST_COLS),
        };
        let count = numbers.below(36).saturating_add(5);
        Ok(Trial {
            size,
            entry: Entry::pick(numbers),
            prompt: numbers.pick(PROMPTS, ""),
            column: numbers.pick(COLUMNS, None),
            bytes: keystrokes(alloc, numbers, count)?,
            cuts: RandomNumbers::new(numbers.number() | 1),
            preview: numbers.pick(PREVIEWS, ""),
            history: numbers.pick_below(alloc, 6, LINES)?,
        })
    }

    /// Creates the host of an editor, which is yet to be filled.
    pub fn host(&self, alloc: Global) -> Result<MarkedHost, AllocError> {
        MarkedHost::new(alloc, self.preview, self.column)
    }

    /// Gives a host the history and two candidates.
    pub fn fill(&self, alloc: Global, host: &mut MarkedHost) -> Result<(), AllocError> {
        host.fill(alloc, &self.history, CANDIDATES)
    }
}
