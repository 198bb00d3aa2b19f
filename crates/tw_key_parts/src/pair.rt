//! Two parts as one.

use crate::edit::{Edit, EditResult};
use crate::part::{Asked, KeyPart, Step, follow_event};
use std::alloc::{AllocError, Global};
use tw_line::{History, LineEditBuffer};

impl<A: KeyPart, B: KeyPart> KeyPart for (A, B) {
    ghost use Rattle.std.specs.Prelude.{Option, option_map};
    ghost use Rattle.tw_key_parts.specs.Pairs.{pair_rules};

    type Note = (Option<A::Note>, Option<B::Note>);

    ghost State = { A.State × B.State };

    ghost Kept = { Option A.Kept × Option B.Kept };

    ghost state = { λ it. (A.state it.0, B.state it.1) };

    ghost kept = { λ note. (option_map A.kept note.0, option_map B.kept note.1) };

    ghost keys = { pair_rules A.keys B.keys };

    ghost is_ready = { λ it cut. A.is_ready it.0 cut × B.is_ready it.1 cut };

    fn edit<L: History>(&self, alloc: Global, asked: &Asked<'_, L>) -> EditResult<Self::Note> {
        if let Some(Edit { line, action, note }) = self.0.edit(alloc, asked)? {
            let note = (Some(note), None);
            return Ok(Some(Edit { line, action, note }));
        }
        match self.1.edit(alloc, asked)? {
            Some(Edit { line, action, note }) => {
                let note = (None, Some(note));
                Ok(Some(Edit { line, action, note }))
            }
            None => Ok(None),
        }
    }

    fn prepare(&mut self, alloc: Global, line: &LineEditBuffer) -> Result<(), AllocError> {
        self.0.prepare(alloc, line)?;
        self.1.prepare(alloc, line)
    }

    fn follow(&mut self, alloc: Global, step: &Step<'_>) {
        self.0.follow(alloc, step);
        self.1.follow(alloc, step);
    }

    fn follow_own(&mut self, alloc: Global, note: Self::Note, step: &Step<'_>) {
        let (first, second) = note;
        follow_event(&mut self.0, alloc, first, step);
        follow_event(&mut self.1, alloc, second, step);
    }

    fn leave_line(&mut self) {
        self.0.leave_line();
        self.1.leave_line();
    }
}
