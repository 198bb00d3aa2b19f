//! The texts of faults, and what the editor answers in place of a line.

use super::support::expect;
use std::alloc::{AllocError, AllocFailed, Global};
use std::test::Fail;
use test_cases::expect_rows;
use tw_session::Error;
use tw_surface::{AddFault, ScreenFault, SizeFault};
use tw_terminal::TerminalFault;

/// Parses an error.
fn error_of(name: &str) -> Result<Error, Fail> {
    Ok(match name {
        "EndOfFile" => Error::EndOfFile,
        "Recursive" => Error::Recursive,
        "ZeroSize" => Error::ZeroSize,
        "SizeOutOfRange" => Error::SizeOutOfRange,
        "CandidateDoesNotFit" => Error::CandidateDoesNotFit,
        "AllocError" => Error::from(AllocError),
        "Device" => Error::from(TerminalFault::Device),
        "Memory" => Error::from(TerminalFault::Memory),
        _ => return Err(Fail::from("no such error")),
    })
}

/// Formats an error with its number.
fn error_text(alloc: Global, name: &str) -> Result<String, Fail> {
    let error = error_of(name)?;
    Ok(format!(in alloc; "{} {error}", error.number())?)
}

const ERRORS: &str = "
EndOfFile => 1 End Of File
Recursive => 2 recursive call to read_line!
ZeroSize => 3 screen size is zero
SizeOutOfRange => 4 size out of range
CandidateDoesNotFit => 5 completion candidate does not fit
AllocError => 6 out of memory
Device => 7 terminal fault
Memory => 7 terminal fault
";

#[test]
fn errors_have_numbers_and_texts(rt: HostRuntime) -> Result<(), Fail> {
    expect_rows(rt.alloc(), ERRORS, error_text)
}

#[test]
fn faults_have_texts(rt: HostRuntime) -> Result<(), Fail> {
    let texts = format!(in rt.alloc();
        "{}|{}|{}|{}|{}|{}|{}|{}|{}",
        SizeFault::ZeroSize,
        SizeFault::OutOfRange,
        AddFault::Memory,
        AddFault::OutOfRange,
        ScreenFault::Memory,
        ScreenFault::NotPlain,
        ScreenFault::OutOfRange,
        TerminalFault::Device,
        TerminalFault::Memory,
    )?;
    let wanted = "no rows or no columns|more than 65535 rows or columns|\
        out of memory|row or column out of range|\
        out of memory|text is not plain|row out of range|\
        device failed|out of memory";
    expect(&rt, &texts.as_str(), &wanted);
    Ok(())
}

/// Fails as a refused push does.
fn refused() -> Result<(), Error> {
    let failed: Result<(), AllocFailed<u8>> = Err(AllocFailed { value: 1 });
    Ok(failed?)
}

#[test]
fn refused_push_is_memory(rt: HostRuntime) {
    assert!(rt; matches!(refused(), Err(Error::Memory(AllocError))));
}
