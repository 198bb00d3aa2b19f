//! The operators of a set of modifiers, and values from outside.

ghost use Rattle.std.specs.Prelude.{◌≡◌, ◌↔◌, IfSome, IsSome};
ghost use Rattle.std.specs.Int.RustNames.{bit_and};
ghost use Rattle.tw_input.specs.Modifiers.{modifier_bits};

use super::support::expect;
use bitflags::Flags;
use std::alloc::Global;
use std::test::Fail;
use test_cases::expect_rows;
use tw_input::{Modifiers, laws};

/// Returns what `from_bits` answers, in the bits of the modifiers.
fn known_modifiers(bits: u16) -> Option<Modifiers>
    ensures known { IsSome result ↔ (bit_and bits 30 ≡ bits) }
    ensures value { IfSome result (λ modifiers. modifier_bits modifiers ≡ bits) }
{
    laws::modifiers();
    Modifiers::from_bits(bits)
}

/// Returns a name for what is held, by a pattern.
fn held_name(modifiers: Modifiers) -> &'static str {
    match modifiers {
        Modifiers::NONE => "none",
        Modifiers::SHIFT => "shift",
        Modifiers::ALT => "alt",
        Modifiers::CTRL => "ctrl",
        Modifiers::SUPER => "super",
        _ => "several",
    }
}

/// Returns whether bits are valid for `bits BITS`, the bits of a name for `name NAME`, and a name for `held BITS`.
fn modifiers_text(alloc: Global, command: &str) -> Result<String, Fail> {
    let (word, rest) = command.split_once(' ').unwrap_or((command, ""));
    Ok(match word {
        "bits" => format!(in alloc; "{}", known_modifiers(rest.parse()?).is_some())?,
        "name" => {
            let found = Modifiers::from_name(rest).map(|found| found.bits());
            format!(in alloc; "{found:?}")?
        }
        _ => String::from_str(alloc, held_name(Modifiers::from_bits_retain(rest.parse()?)))?,
    })
}

const MODIFIERS: &str = r"
bits 0 => true
bits 1 => false
bits 2 => true
bits 14 => true
bits 16 => true
bits 30 => true
bits 31 => false
bits 32 => false
bits 65535 => false
name SHIFT => Some(2)
name ALT => Some(4)
name CTRL => Some(8)
name SUPER => Some(16)
name NONE => None
name ctrl => None
name CTRL\u{20} => None
name => None
held 0 => none
held 2 => shift
held 4 => alt
held 8 => ctrl
held 16 => super
held 12 => several
";

#[test]
fn modifiers_have_bits_and_names(rt: HostRuntime) -> Result<(), Fail> {
    expect_rows(rt.alloc(), MODIFIERS, modifiers_text)
}

#[test]
fn modifiers_are_sets(rt: HostRuntime) {
    let mut held = Modifiers::CTRL | Modifiers::ALT;
    expect(&rt, &held.bits(), &12);
    assert!(rt; held.contains(Modifiers::ALT));
    assert!(rt; !held.contains(Modifiers::ALT | Modifiers::SHIFT));
    held.insert(Modifiers::SUPER);
    held.remove(Modifiers::CTRL);
    expect(&rt, &held, &(Modifiers::ALT | Modifiers::SUPER));
    expect(&rt, &(held & Modifiers::ALT), &Modifiers::ALT);
    expect(&rt, &(held - Modifiers::ALT), &Modifiers::SUPER);
    expect(
        &rt,
        &(held ^ Modifiers::SHIFT),
        &Modifiers::from_bits_retain(22),
    );
    expect(&rt, &(!held), &(Modifiers::SHIFT | Modifiers::CTRL));
    assert!(rt; Modifiers::NONE.is_empty());
    expect(&rt, &Modifiers::from_bits(0), &Some(Modifiers::NONE));
    expect(&rt, &Modifiers::from_bits(8), &Some(Modifiers::CTRL));
    expect(&rt, &Modifiers::default(), &Modifiers::NONE);
}
