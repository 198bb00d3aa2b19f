//! A line with ranges of an application, whatever they are.

use std::alloc::Global;
use std::test::Fail;
use test_cases::{expect_rows, pair_of};
use tw_host::OutputElement;
use tw_prompt_host::{StyledRange, styled_ranges};
use tw_surface::{CellAttributes, Intensity};

/// Parses `START END, START END`, each range in bold.
fn ranges_of(alloc: Global, text: &str) -> Result<Vec<StyledRange>, Fail> {
    let mut attributes = CellAttributes::default();
    attributes.intensity = Intensity::Bold;
    let mut ranges = Vec::new(alloc);
    for range in text.split(", ") {
        let (start, end) = pair_of(range)?;
        ranges.push(StyledRange {
            start,
            end,
            attributes,
        })?;
    }
    Ok(ranges)
}

/// Shows a line with its ranges between braces.
fn shown(alloc: Global, row: &str) -> Result<String, Fail> {
    let (line, ranges) = row.split_once(" | ").ok_or("no ranges")?;
    let mut text = String::new(alloc);
    let elements = styled_ranges(alloc, &ranges_of(alloc, ranges)?, line)?;
    for element in &elements {
        match element {
            OutputElement::Text(part) => text.push_str(part.as_str())?,
            OutputElement::AllAttributes(attributes) => {
                let is_default = *attributes == CellAttributes::default();
                text.push(if is_default { '}' } else { '{' })?;
            }
            OutputElement::Attribute(_) => text.push('?')?,
        }
    }
    Ok(text)
}

const RANGES: &str = r"
abcdef | 1 3 => a{bc}def
abcdef | 0 2, 2 4 => {ab}{cd}ef
// out of order, overlapping, past the end, the wrong way round, inside a character
abcdef | 3 5, 0 1 => abc{de}{}f
abcdef | 0 3, 1 5 => {abc}{de}f
abcdef | 4 90, 7 9 => abcd{ef}{}
abcdef | 4 2 => abcd{}ef
aéb | 2 3 => a{é}b
aéb | 0 2 => {a}éb
";

#[test]
fn ranges_are_cut_to_what_fits(rt: HostRuntime) -> Result<(), Fail> {
    expect_rows(rt.alloc(), RANGES, shown)
}
