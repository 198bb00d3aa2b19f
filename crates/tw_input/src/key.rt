//! Keys, and the modifiers that are held with them.

use bitflags::{Flag, Flags, bitflag_items};

/// A key of the keyboard.
#[derive(Debug, Clone, Copy, PartialEq, Eq)]
pub enum KeyCode {
    /// The key that types this character.
    Char(char),
    Backspace,
    Tab,
    Enter,
    Escape,
    Insert,
    Delete,
    Home,
    End,
    PageUp,
    PageDown,
    LeftArrow,
    RightArrow,
    UpArrow,
    DownArrow,
    /// The left arrow in the terminal's application mode.
    ApplicationLeftArrow,
    /// The right arrow in the terminal's application mode.
    ApplicationRightArrow,
    /// The up arrow in the terminal's application mode.
    ApplicationUpArrow,
    /// The down arrow in the terminal's application mode.
    ApplicationDownArrow,
    /// A function key by its number, as 1 for F1.
    Function(u8),
}

/// The modifier keys that are held, as a set of bits. Its operations are those of `bitflags::Flags`.
#[derive(Debug, Clone, Copy, PartialEq, Eq)]
pub struct Modifiers(u16);

impl Modifiers {
    /// No modifier key is held.
    pub const NONE: Modifiers = Modifiers(0);
}

bitflag_items! {
    impl Modifiers: u16 {
        /// A shift key.
        const SHIFT = 2;
        /// An alt key.
        const ALT = 4;
        /// A control key.
        const CTRL = 8;
        /// A super key, which some keyboards call by a maker's name.
        const SUPER = 16;
    }
}

impl Flags for Modifiers {
    ghost use Rattle.std.specs.Prelude.{⊤};
    ghost use Rattle.tw_input.specs.Modifiers.{modifier_bits, modifier_table};

    type Bits = u16;

    ghost exact = { ⊤ };

    ghost table = { modifier_table };

    ghost set_of = { modifier_bits };

    fn flags<'a>() -> &'a [Flag<Modifiers>] {
        Modifiers::FLAGS
    }

    fn bits(&self) -> u16 {
        self.0
    }

    fn from_bits_retain(bits: u16) -> Modifiers {
        Modifiers(bits)
    }
}

impl Default for Modifiers {
    ghost use Rattle.std.specs.Prelude.{◌≡◌};
    ghost use Rattle.tw_input.specs.Modifiers.{modifier_bits};

    ghost is_default = { λ modifiers. modifier_bits modifiers ≡ 0 };

    fn default() -> Self {
        Modifiers::NONE
    }
}

/// A key that is pressed, with the modifiers that are held.
#[derive(Debug, Clone, Copy, PartialEq, Eq)]
pub struct KeyEvent {
    pub key: KeyCode,
    pub modifiers: Modifiers,
}
