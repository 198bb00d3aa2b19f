//! What the tests of layers have in common. A test that calls `expect` is proved faster than one that asserts by itself.

use std::alloc::{AllocError, Global};
use std::fmt::Debug;
use std::process::Abort;

/// Compares two values.
pub fn expect<T: Debug + PartialEq>(rt: &impl Abort, found: &T, wanted: &T) {
    assert_eq!(rt; found, wanted);
}

/// Replaces a layer by a new one. Returns the fault if there is none.
pub fn renew<T: Drop, E: Debug + Drop>(
    alloc: Global,
    layer: &mut T,
    made: Result<T, E>,
) -> Result<String, AllocError> {
    match made {
        Ok(new) => {
            *layer = new;
            Ok(String::new(alloc))
        }
        Err(fault) => format!(in alloc; "{fault:?}"),
    }
}

/// Formats the place of a cursor.
pub fn place_text(alloc: Global, place: (usize, usize)) -> Result<String, AllocError> {
    let (row, col) = place;
    format!(in alloc; "{row} {col}")
}
