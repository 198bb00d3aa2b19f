//! What an ESC is after which no byte has come yet.

ghost use Rattle.std.specs.Prelude.{◌≡◌};
ghost use Rattle.tw_device.specs.Typed.{escape_waits};

/// What an ESC is after which no byte has come yet. Its owner chooses.
#[derive(Debug, Clone, Copy, PartialEq, Eq)]
pub enum Escape {
    /// It waits for what follows it: the keys are the same however the bytes come. The key Escape comes with the next
    /// key, or at the end.
    Waits,
    /// It is the key Escape at once, unless it ends a read of as many bytes as were asked for: then it waits.
    AtOnce,
}

impl Escape {
    /// Returns true if it waits after a read.
    pub(crate) fn waits(self, was_full: bool) -> bool
        ensures { result ≡ escape_waits self was_full }
    {
        match self {
            Escape::Waits => true,
            Escape::AtOnce => was_full,
        }
    }
}
