//! Lists that only contracts read.

ghost use Rattle.std.specs.Prelude.{◌≡◌, ◌∷◌, [], ◌++◌};

use std::marker::Model;
use std::snapshot::Snapshot;

/// A list of items that only contracts read. It allocates nothing, however long it is.
#[cycle(items)]
#[derive(Drop)]
pub struct Log<T> {
    link: Link<T>,
}

#[cycle(items)]
#[derive(Drop)]
enum Link<T> {
    Start,
    Behind(Snapshot<Log<T>>, Snapshot<T>),
}

impl<T> Model for Log<T> {
    ghost use Rattle.std.specs.Prelude.{List, length};

    ghost Value = { List T };

    ghost use Rattle.tw_terminal.specs.Log.{items_in};

    ghost view = { λ log. items_in log.link };

    ghost size = { length };

    ghost use Rattle.std.proofs.Common.{arith, length-append};

    ghost size_decreases = { λ a h. Prim.grind (arith, length-append) };
}

impl<T> Log<T> {
    /// Creates a log without items.
    pub fn new() -> Self
        ensures { result ≡ [] }
    {
        Log { link: Link::Start }
    }

    /// Creates a log of these items.
    pub fn of(items: &[T]) -> Self
        ensures { result ≡ items.now }
    {
        let mut log = Log::new();
        for item in items {
            log = log.with_item(item);
        }
        log
    }

    /// Returns the log with one more item.
    pub fn with_item(&self, item: &T) -> Self
        ensures { result ≡ self.now ++ item.now ∷ [] }
    {
        Log {
            link: Link::Behind(Snapshot::of(self), Snapshot::of(item)),
        }
    }
}
