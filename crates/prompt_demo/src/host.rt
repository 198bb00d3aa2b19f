//! The host of the prompt, of ready parts.

use crate::completers::completers;
use crate::tables::tables;
use std::alloc::{AllocError, Global};
use tw_history_parts::RecentHistory;
use tw_hosts::TableHost;
use tw_key_parts::RowKeys;
use tw_lineedit::BasicHistory;
use tw_prompt::{AllKeys, all_keys};
use tw_prompt_host::{Hints, NestedLines, PromptHost, Rows, common_pairs};

/// How many lines the history keeps.
const LINES_KEPT: usize = 100;

/// What stands before each row of a line but the first.
const CONTINUATION: &str = "... ";

/// The keys of the prompt: those of rows, and then all others.
pub type DemoKeys = (RowKeys, AllKeys);

/// The host of the prompt.
pub type DemoHost = PromptHost<TableHost<BasicHistory>, RecentHistory, DemoKeys, NestedLines>;

/// Creates the host. It knows no files and no terminal yet.
pub fn demo_host(alloc: Global, prompt: &str) -> Result<DemoHost, AllocError> {
    let pairs = common_pairs(alloc)?;
    let tables = tables(alloc)?;
    let completers = completers(alloc)?;
    let continuation = String::from_str(alloc, CONTINUATION)?;
    let mut host = PromptHost::new(alloc, prompt, 80)?
        .with_host(TableHost::new(tables, BasicHistory::new(alloc)))
        .with_history(RecentHistory::new(alloc, LINES_KEPT))
        .with_keys((RowKeys::new(), all_keys(alloc)))
        .with_validator(NestedLines { pairs });
    host.completers = completers;
    host.hints = Hints::dim();
    host.rows = Rows::Several(continuation);
    Ok(host)
}
