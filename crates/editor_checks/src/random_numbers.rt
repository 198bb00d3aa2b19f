//! Random numbers from a seed.

use std::alloc::{AllocError, Global};

/// Numbers in a scattered order, the same for each seed.
#[derive(Debug, Clone, Copy)]
pub struct RandomNumbers {
    state: u64,
}

impl RandomNumbers {
    /// Creates the numbers of a seed that is not 0.
    pub fn new(seed: u64) -> Self {
        RandomNumbers { state: seed }
    }

    /// Returns the next number.
    pub fn number(&mut self) -> u64 {
        self.state ^= self.state << 13;
        self.state ^= self.state >> 7;
        self.state ^= self.state << 17;
        self.state
    }

    /// Returns a number below the bound, or 0 where there is none.
    pub fn below(&mut self, bound: u64) -> u64 {
        self.number().checked_rem(bound).unwrap_or(0)
    }

    /// Returns one of the items, or the other one where there are none.
    pub fn pick<T: Copy>(&mut self, items: &[T], other: T) -> T {
        let at = self.below(items.len() as u64);
        items.get(at as usize).copied().unwrap_or(other)
    }

    /// Picks some of the texts, fewer than the bound.
    pub fn pick_below(
        &mut self,
        alloc: Global,
        bound: u64,
        items: &[&'static str],
    ) -> Result<Vec<&'static str>, AllocError> {
        let mut picked = Vec::new(alloc);
        for _ in 0..self.below(bound) {
            picked.push(self.pick(items, ""))?;
        }
        Ok(picked)
    }
}
