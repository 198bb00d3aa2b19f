//! A host that completes some words.

use std::alloc::Global;
use std::test::Fail;
use test_cases::parted;
use tw_hosts::{Styles, TableHost, Tables};
use tw_lineedit::BasicHistory;
use tw_surface::CellAttributes;

/// Returns a host that completes some words, which spaces part.
pub fn table_host(alloc: Global, words: &str) -> Result<TableHost<BasicHistory>, Fail> {
    let tables = Tables {
        keywords: Vec::new(alloc),
        words: parted(alloc, words, ' ')?,
        hints: Vec::new(alloc),
        keys: Vec::new(alloc),
        styles: Styles {
            keyword: CellAttributes::default(),
            quote: CellAttributes::default(),
        },
    };
    Ok(TableHost::new(tables, BasicHistory::new(alloc)))
}
