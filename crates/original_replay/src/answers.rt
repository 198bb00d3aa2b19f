//! A file of answers: scripts, each with a line `--`, what it prints, and a line `==`.

use script_player::run;
use std::alloc::Global;
use std::{fmt, io};

/// What ends a script's answer.
const END: &str = "==\n";

/// What stands between a script and its answer.
const MIDDLE: &str = "--\n";

/// How many scripts were played, and how many of them printed what the original crate did.
#[derive(Debug, Default, Clone, Copy)]
pub struct Agreement {
    scripts: usize,
    agreeing: usize,
}

impl Agreement {
    /// Counts those of another file too.
    pub fn add(&mut self, other: Agreement) {
        self.scripts = self.scripts.saturating_add(other.scripts);
        self.agreeing = self.agreeing.saturating_add(other.agreeing);
    }

    /// Returns true if all agree.
    pub fn is_whole(self) -> bool {
        self.scripts == self.agreeing
    }
}

impl fmt::Display for Agreement {
    fn fmt<W: fmt::Write>(&self, f: &mut fmt::Formatter<W>) -> fmt::Result {
        write!(f, "{} of {} scripts agree", self.agreeing, self.scripts)
    }
}

/// Plays each script of a file, and prints those that have another answer here.
pub fn compare(
    rt: &(impl Print + Alloc<A = Global>),
    answers: &str,
) -> Result<Agreement, anyhow::Error> {
    let mut agreement = Agreement::default();
    for case in answers.split(END) {
        let Some((script, answer)) = case.split_once(MIDDLE) else {
            continue;
        };
        agreement.scripts = agreement.scripts.saturating_add(1);
        let mut printed = Vec::new(rt.alloc());
        let mut reader = script.as_bytes();
        match run(rt.alloc(), &mut reader, &mut printed) {
            Ok(()) if printed.as_slice() == answer.as_bytes() => {
                agreement.agreeing = agreement.agreeing.saturating_add(1);
            }
            _ => println!(rt; "another answer to:\n{script}")?,
        }
    }
    Ok(agreement)
}
