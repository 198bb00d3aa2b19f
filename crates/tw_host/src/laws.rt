//! Laws over the definitions alone: each is the contract of a function that does nothing.

ghost use Rattle.std.specs.Prelude.{◌≡◌, ◌≢◌, Some, None, All, AllPairs};
ghost use Rattle.tw_input.specs.Equality.{ComparesValues};
ghost use Rattle.tw_host.specs.KeyTable.{is_same_key, key_table, looked_up, typed_action};

use crate::host::Overrides;

/// `==` of `Overrides` is equality of values.
pub fn overrides()
    ensures { ComparesValues ⟦<Overrides as PartialEq>⟧.eq }
{}

/// No key stands in two rows of the key table, each row is found by its key, and no row is a typed character.
/// Keys are one exactly where they are equal.
pub fn key_table()
    ensures same_key { ComparesValues is_same_key }
    ensures distinct { AllPairs (λ row later. row.0 ≢ later.0) key_table }
    ensures found { All (λ row. looked_up key_table row.0 ≡ Some row.1) key_table }
    ensures not_typed { All (λ row. typed_action row.0 ≡ None) key_table }
{}
