//! Lines whose brackets and quotations are whole.

ghost use Rattle.tw_prompt_host.specs.Nesting.{nesting_of};
ghost use Rattle.tw_prompt_host.specs.Nesting.{validation_of};

use crate::marks::MarkPair;
use crate::nesting::{Nesting, nesting_in};
use crate::validator::{Validation, Validator};
use std::alloc::{AllocError, Global};

/// Accepts a line if each of its brackets and quotations is closed. Otherwise it lacks the end of the innermost open
/// one, which is named, or is wrong by the first mark that closes nothing.
#[derive(Debug, Drop)]
pub struct NestedLines {
    /// The pairs of marks.
    pub pairs: Vec<MarkPair>,
}

impl Validator for NestedLines {
    ghost judges = { λ it line. validation_of (nesting_of it.pairs.items line) };

    fn validate(&self, alloc: Global, line: &str) -> Result<Validation, AllocError> {
        match nesting_in(alloc, self.pairs.as_slice(), line)? {
            Nesting::Open(opens) => match opens.last() {
                Some(last) => {
                    let text = format!(in alloc; "{} is open", last.pair.opening)?;
                    Ok(Validation::Incomplete(text))
                }
                None => Ok(Validation::Valid),
            },
            Nesting::Wrong(mark, _) => {
                Ok(Validation::Invalid(format!(in alloc; "{mark} closes nothing")?))
            }
        }
    }
}
