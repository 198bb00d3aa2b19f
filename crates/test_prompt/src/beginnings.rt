//! What words begin with, by what Python's `os.path.commonprefix` returns for them, and lines that Tab completes up to
//! there, by what bash does.

use crate::prompt::read_all;
use std::alloc::Global;
use std::test::Fail;
use test_cases::{expect_rows, parted};
use tw_hosts::common_beginning;

/// Returns the common beginning for `shared WORDS` and `none`, and else the line that a script reads.
fn completed(alloc: Global, command: &str) -> Result<String, Fail> {
    if command == "none" {
        return Ok(String::from_str(alloc, common_beginning(&[]))?);
    }
    if let Some(text) = command.strip_prefix("shared ") {
        let words = parted(alloc, text, ' ')?;
        return Ok(String::from_str(alloc, common_beginning(words.as_slice()))?);
    }
    read_all(alloc, command)
}

const ROWS: &str = r"
// what words begin with
shared users user_roles => user
shared count copy copies => co
shared été ère =>
shared été étè => ét
shared a b =>
shared same same => same
shared one => one
shared  x =>
shared ab abc => ab
none =>

// Tab completes up to where words part
type us\nkey Tab\nkey Enter => user
type us\nkey Tab\nkey Tab\nkey Enter => users
type us\nkey Tab\nkey Tab\nkey Tab\nkey Enter => user_roles
type a user_\nkey Tab\nkey Enter => a user_roles
type o\nkey Tab\nkey Enter => orders
type x\nkey Tab\nkey Enter => x
";

#[test]
fn words_are_completed_up_to_where_they_part(rt: HostRuntime) -> Result<(), Fail> {
    expect_rows(rt.alloc(), ROWS, completed)
}
