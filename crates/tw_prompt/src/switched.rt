//! A part with keys that can be turned off.

use std::alloc::{AllocError, Global};
use tw_key_parts::{Asked, EditResult, KeyPart, Step};
use tw_line::{History, LineEditBuffer};

/// A part that has its keys only if it is on.
#[derive(Debug, Drop)]
pub struct Switched<K> {
    pub part: K,
    pub is_on: bool,
}

impl<K: KeyPart> KeyPart for Switched<K> {
    ghost use Rattle.std.specs.Prelude.{Bool};
    ghost use Rattle.tw_prompt.specs.Switched.{switched_rules};

    type Note = K::Note;

    ghost State = { K.State × Bool };

    ghost Kept = { K.Kept };

    ghost state = { λ it. (K.state it.part, it.is_on) };

    ghost kept = { K.kept };

    ghost keys = { switched_rules K.keys };

    ghost is_ready = { λ it cut. K.is_ready it.part cut };

    fn edit<L: History>(&self, alloc: Global, asked: &Asked<'_, L>) -> EditResult<K::Note> {
        if self.is_on {
            self.part.edit(alloc, asked)
        } else {
            Ok(None)
        }
    }

    fn prepare(&mut self, alloc: Global, line: &LineEditBuffer) -> Result<(), AllocError> {
        self.part.prepare(alloc, line)
    }

    fn follow(&mut self, alloc: Global, step: &Step<'_>) {
        self.part.follow(alloc, step);
    }

    fn follow_own(&mut self, alloc: Global, note: K::Note, step: &Step<'_>) {
        self.part.follow_own(alloc, note, step);
    }

    fn leave_line(&mut self) {
        self.part.leave_line();
    }
}
