//! Laws of the types of this crate, each the contract of a function that does nothing.

ghost use Rattle.std.specs.Prelude.{◌≡◌};
ghost use Rattle.bitflags.specs.Sets.{known_bits};
ghost use Rattle.tw_input.specs.EventView.{event_view};
ghost use Rattle.tw_input.specs.Equality.{ComparesValues, ComparesViews};
ghost use Rattle.tw_input.specs.Modifiers.{modifier_bits};

use crate::event::InputEvent;
use crate::key::{KeyCode, KeyEvent, Modifiers};
use bitflags::Flags;

/// `==` is equality of values. Events are compared by their views, so texts by their characters.
pub fn equality()
    ensures key_code { ComparesValues ⟦<KeyCode as PartialEq>⟧.eq }
    ensures modifiers { ComparesValues ⟦<Modifiers as PartialEq>⟧.eq }
    ensures key_event { ComparesValues ⟦<KeyEvent as PartialEq>⟧.eq }
    ensures input_event { ComparesViews event_view ⟦<InputEvent as PartialEq>⟧.eq }
{}

/// The bits of each modifier, and those that `Modifiers::from_bits` knows: it returns `Some` exactly where
/// no other bit is set.
#[tactic(auto, unfolding(bitflags::specs::Sets::known_from))]
pub fn modifiers()
    ensures none { modifier_bits Modifiers.NONE ≡ 0 }
    ensures shift { modifier_bits Modifiers.SHIFT ≡ 2 }
    ensures alt { modifier_bits Modifiers.ALT ≡ 4 }
    ensures ctrl { modifier_bits Modifiers.CTRL ≡ 8 }
    ensures super_key { modifier_bits Modifiers.SUPER ≡ 16 }
    ensures known { known_bits ⟦<Modifiers as Flags>⟧.table ≡ 30 }
{}
