//! The batches that a terminal took.

ghost use Rattle.std.specs.Prelude.{◌≡◌, ◌∷◌, [], ◌++◌};
ghost use Rattle.tw_surface.specs.ChangeView.{batch_view};

use crate::log::Log;
use std::marker::Model;
use tw_surface::Change;

/// The batches that a terminal took, in order, as its `Terminal::state` needs them. A terminal that keeps no batch
/// keeps this log in its place; how many are flushed is the length of a `Snapshot` of it.
#[derive(Drop)]
pub struct BatchLog {
    batches: Log<Log<Change>>,
}

impl Model for BatchLog {
    ghost use Rattle.std.specs.Prelude.{List, map};
    ghost use Rattle.tw_surface.specs.ChangeView.{Batch, batch_view};

    ghost Value = { List Batch };

    ghost view = { λ log. map batch_view log.batches };
}

impl BatchLog {
    /// Creates a log of no batches.
    pub fn new() -> Self
        ensures { result ≡ [] }
    {
        BatchLog {
            batches: Log::new(),
        }
    }

    /// Returns these batches with one more after them.
    pub fn with_batch(&self, changes: &[Change]) -> Self
        ensures { result ≡ self.now ++ batch_view changes.now ∷ [] }
    {
        BatchLog {
            batches: self.batches.with_item(&Log::of(changes)),
        }
    }
}
