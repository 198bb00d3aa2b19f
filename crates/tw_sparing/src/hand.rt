//! Where the cursor stands.

use tw_surface::CellAttributes;

/// The row and the column of a cursor, from 0, and the attributes that are selected.
#[derive(Debug, Clone, Copy)]
pub struct Hand {
    pub row: usize,
    pub col: usize,
    pub attributes: CellAttributes,
}
