//! The names of keys.

use script_player::key_named;
use std::alloc::Global;
use std::test::Fail;
use test_cases::expect_cases;
use tw_input::{KeyEvent, Modifiers};

fn modifier_name(modifiers: Modifiers) -> &'static str {
    match modifiers {
        Modifiers::NONE => "NONE",
        Modifiers::SHIFT => "SHIFT",
        Modifiers::ALT => "ALT",
        Modifiers::CTRL => "CTRL",
        _ => "several",
    }
}

/// Adds the key and the modifier of a name.
fn add_key(outcome: &mut String, name: &str) -> Result<(), Fail> {
    let KeyEvent { key, modifiers } = key_named(name).ok_or("no key")?;
    let modifier = modifier_name(modifiers);
    write!(outcome, "{key:?} {modifier}\n")?;
    Ok(())
}

/// Returns the key and the modifier of each name.
fn play_names(alloc: Global, names: &str) -> Result<String, Fail> {
    let mut outcome = String::new(alloc);
    for line in names.lines() {
        for name in line.split(", ") {
            add_key(&mut outcome, name)?;
        }
    }
    Ok(outcome)
}

const NAMES: &str = "\
Enter, Tab, Backspace, Delete, Home, End, Left, Right, Up, Down, AppLeft
AppRight, AppUp, AppDown, Escape, A-Left, A-Right, A-AppLeft, A-AppRight, C-C
C-c, C--, A-b, A-L, S-X, S-é, S-字, C- 
--
Enter NONE
Tab NONE
Backspace NONE
Delete NONE
Home NONE
End NONE
LeftArrow NONE
RightArrow NONE
UpArrow NONE
DownArrow NONE
ApplicationLeftArrow NONE
ApplicationRightArrow NONE
ApplicationUpArrow NONE
ApplicationDownArrow NONE
Escape NONE
LeftArrow ALT
RightArrow ALT
ApplicationLeftArrow ALT
ApplicationRightArrow ALT
Char('C') CTRL
Char('c') CTRL
Char('-') CTRL
Char('b') ALT
Char('L') ALT
Char('X') SHIFT
Char('é') SHIFT
Char('字') SHIFT
Char(' ') CTRL
==
";

#[test]
fn each_key_has_its_name(rt: HostRuntime) -> Result<(), Fail> {
    expect_cases(rt.alloc(), NAMES, play_names)
}
