//! Menus of completions under the line, by how they are to lie there.

use crate::prompt::read_all;
use std::test::Fail;
use test_cases::expect_rows;

const MENUS: &str = r"
// candidates stand in columns
menu 80 4 ab ac ad; type a\nkey Tab; ends ab\r\n{}{bold}ab{}  ac  ad => ab; yes
menu 80 4 ab ac ad; type a\nkey Tab\nkey Tab; ends ac\r\n{}ab  {bold}ac{}  ad => ac; yes
menu 8 4 ab ac ad; type a\nkey Tab\nkey Tab\nkey Tab; ends ad\r\n{}ab  ac\r\n{bold}ad{} => ad; yes
menu 7 4 ab ac ad; type a\nkey Tab\nkey Tab; ends ac\r\n{}ab\r\n{bold}ac{}\r\nad => ac; yes
menu 8 1 ab ac ad; type a\nkey Tab; ends ab\r\n{}{bold}ab{}  ac\r\n.. 1 more => ab; yes
menu 8 1 ab ac ad; type a\nkey Tab\nkey Tab\nkey Tab; ends ad\r\n{}{bold}ad{}\r\n.. 2 more => ad; yes
menu 0 0 ab ac ad; type a\nkey Tab\nkey Tab; ends ac\r\n{}{bold}ac{}\r\n.. 2 more => ac; yes
menu 80 4 a1 a2345; type a\nkey Tab; ends a1\r\n{}{bold}a1   {}  a2345 => a1; yes
menu 80 4 a我 ab; type a\nkey Tab\nkey Tab; ends ab\r\n{}a我  {bold}ab {} => ab; yes

// Shift-Tab goes back, and from the first one to the last; without a menu it does nothing
menu 80 4 ab ac ad; type a\nkey Tab\nkey S-Tab; ends ad\r\n{}ab  ac  {bold}ad{} => ad; yes
menu 80 4 ab ac ad; type a\nkey Tab\nkey Tab\nkey S-Tab; ends ab\r\n{}{bold}ab{}  ac  ad => ab; yes
menu 80 4 ab ac ad; type xa\nkey Left\nkey Left\nkey S-Tab => xa
menu 80 4 ab ac ad; type a\nkey Tab\nkey S-Tab\nkey Tab; ends ab\r\n{}{bold}ab{}  ac  ad => ab; yes
menu 80 4 ab ac ad; type a\nkey Tab\nkey S-Tab\nkey S-Tab\ntype x => acx

// Right and Left go on and back too; Down and Up go along a column, and then to the next one or the one before
menu 80 4 ab ac ad; type a\nkey Tab\nkey Right; ends ac\r\n{}ab  {bold}ac{}  ad => ac; yes
menu 80 4 ab ac ad; type a\nkey Tab\nkey Right\nkey AppRight\nkey Right => ab
menu 80 4 ab ac ad; type a\nkey Tab\nkey Left; ends ad\r\n{}ab  ac  {bold}ad{} => ad; yes
menu 80 4 ab ac ad; type a\nkey Tab\nkey Down; ends ac\r\n{}ab  {bold}ac{}  ad => ac; yes
menu 80 4 ab ac ad; type a\nkey Tab\nkey Up => ad
menu 8 4 ab ac ad; type a\nkey Tab\nkey Down; ends ad\r\n{}ab  ac\r\n{bold}ad{} => ad; yes
menu 8 4 ab ac ad; type a\nkey Tab\nkey Down\nkey Down => ac
menu 8 4 ab ac ad; type a\nkey Tab\nkey Down\nkey AppDown\nkey Down => ab
menu 8 4 ab ac ad; type a\nkey Tab\nkey Up => ac
menu 8 4 ab ac ad; type a\nkey Tab\nkey Up\nkey Up => ad
menu 8 4 ab ac ad; type a\nkey Tab\nkey Up\nkey AppUp\nkey Up => ab
remember one; menu 80 4 ab ac ad; type a\nkey Tab\nkey Up\nkey Down => ab

// Page Down and Page Up go a page on and back, up to the last one and the first one
menu 8 1 ab ac ad; type a\nkey Tab\nkey PageDown; ends ad\r\n{}{bold}ad{}\r\n.. 2 more => ad; yes
menu 8 1 ab ac ad; type a\nkey Tab\nkey PageDown\nkey PageUp => ab
menu 80 4 ab ac ad; type a\nkey Tab\nkey PageDown => ad
menu 80 4 ab ac ad; type a\nkey Tab\nkey Right\nkey PageUp => ab

// Enter takes the candidate, and the line goes on
menu 80 4 ab ac ad; type a\nkey Tab\nkey Right\nkey Enter; ends ac => ac; yes
menu 80 4 ab ac ad; type a\nkey Tab\nkey Right\nkey Enter\ntype x\nkey Left\ntype y\nkey Enter\ntype z => acyx
menu 80 4 ab ac ad; type a\nkey Tab\nkey C-J\ntype x => abx

// Escape and Ctrl-G give the completion up
menu 80 4 ab ac ad; type a\nkey Tab\nkey Right\nkey Escape; ends a => a; yes
menu 80 4 ab ac ad; type a\nkey Tab\nkey C-G\ntype x => ax
menu 80 4 ab ac ad; type a\nkey Tab\nkey C-G\nkey C-_ => ab

// other keys take the menu away
type us\nkey Tab; ends user => user; yes
type us\nkey Tab\nkey Tab; ends users\r\n{}{bold}users     {}  user_roles => users; yes
type us\nkey Tab\nkey Tab\nkey Tab\nkey Tab; ends users\r\n{}{bold}users     {}  user_roles => users; yes
type us\nkey Tab\nkey Tab\nkey C-L; ends users\r\n{}{bold}users     {}  user_roles => users; yes
type us\nkey Tab\nkey Tab\ntype x; ends usersx => usersx; yes
type us\nkey Tab\nkey Tab\nkey Home; ends users => users; yes
type us\nkey Tab\nkey Tab\nkey C-_; ends user => user; yes
type o\nkey Tab; ends orders => orders; yes
type x\nkey Tab; ends x => x; yes
type us\nkey Tab\nkey Tab\nkey Enter; ends users => users; yes

// what ends a search has no menu
remember us; key C-R\ntype s\nkey Tab; ends users => users; yes
remember us; key C-R\ntype s\nkey Tab\nkey Tab; ends userss => userss; yes
";

#[test]
fn menus_stand_under_the_line(rt: HostRuntime) -> Result<(), Fail> {
    expect_rows(rt.alloc(), MENUS, read_all)
}
