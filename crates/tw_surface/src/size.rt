//! Why a number of rows or columns is refused.

use std::error::Error;
use std::fmt;

/// The most rows or columns.
pub const MAX_SIZE: usize = 65_535;

/// How far a sequence may reach: the greatest row and the greatest measured column. The least row is as far
/// above row 0.
pub const MAX_REACH: isize = 2_147_483_647;

/// Why a number of rows or columns is refused.
#[derive(Debug, Copy, Clone, PartialEq, Eq)]
pub enum SizeFault {
    /// There would be no row or no column.
    ZeroSize,
    /// There would be more than 65,535 rows or columns.
    OutOfRange,
}

impl fmt::Display for SizeFault {
    fn fmt<W: fmt::Write>(&self, f: &mut fmt::Formatter<W>) -> fmt::Result {
        f.write_str(match self {
            SizeFault::ZeroSize => "no rows or no columns",
            SizeFault::OutOfRange => "more than 65535 rows or columns",
        })
    }
}

impl Error for SizeFault {}
