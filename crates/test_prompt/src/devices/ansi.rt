//! The bytes of terminals, written out by hand.

use std::alloc::Global;
use std::test::Fail;
use test_cases::{bytes_of, change_of, event_text, expect_rows};
use tw_ansi::{Encoder, Token, scan};
use tw_input::InputEvent;
use tw_surface::{Blink, CellAttributes, Change, ColorAttribute, Intensity, Underline};

/// Scans a token and returns its length and the token, or `waits` if more bytes are needed.
fn token_text(alloc: Global, text: &str) -> Result<String, Fail> {
    let bytes = bytes_of(alloc, text)?;
    if bytes.is_empty() {
        return Err(Fail::from("no bytes"));
    }
    Ok(match scan(bytes.as_slice(), false) {
        Some(found) => match found.token {
            Token::Key(key) => {
                let key = event_text(alloc, &InputEvent::Key(key))?;
                format!(in alloc; "{} {key}", found.used)?
            }
            token => format!(in alloc; "{} {token:?}", found.used)?,
        },
        None if scan(bytes.as_slice(), true).is_some() => String::from_str(alloc, "waits")?,
        None => String::from_str(alloc, "waits at the end too")?,
    })
}

const TOKENS: &str = r"
// keys, by how many bytes they take
a => 1 Char a
\u{1} => 1 CTRL Char A
\u{0} => 1 CTRL Char \u{20}
\u{8} => 1 Backspace
\r\n => 1 Enter
\e => 1 Escape
\eb => 2 ALT Char b
\e\u{7f} => 2 ALT Backspace
\e[D => 3 LeftArrow
\e[1;3D => 6 ALT LeftArrow
\e[1;4A => 6 ALT SHIFT UpArrow
\e\e[D => 4 ALT LeftArrow
\e\eOA => 4 ALT ApplicationUpArrow
\e\e[3~ => 1 Escape
\e\eOz => 1 Escape
\e\eb => 1 Escape
\e[1;5R => 6 CTRL Function(3)
\e[3~x => 4 Delete
\e[Z => 3 SHIFT Tab
\eOA => 3 ApplicationUpArrow
\eOq => 3 Char 1
\eOj => 3 Char *
\eOX => 3 Char =
\e\eOy => 4 ALT Char 9
\eOz => 2 ALT Char O
\e]x => 2 ALT Char ]
\eP; => 2 ALT Char P
\e_G => 2 ALT Char _
\e[24;2~ => 7 SHIFT Function(12)
éx => 2 Char é
€ => 3 Char €
\u{1f600} => 4 Char \u{1f600}
\eé => 3 ALT Char é
\xff => 1 Char \u{fffd}
\xc3x => 1 Char \u{fffd}
\xed\xa0\x80 => 1 Char \u{fffd}
\xe0\x80\x80 => 1 Char \u{fffd}

// other tokens
\e[24;80R => 8 Size { cols: 80, rows: 24 }
\e[48;24;80;384;640t => 19 Size { cols: 80, rows: 24 }
\e[48;0;80t => 10 Unknown
\e[8;24;80t => 10 Unknown
\e[200~a\e[201b\e[201~c => 19 Paste { from: 6, len: 7 }
\e[?1;2c => 7 Unknown
\e[1\u{1} => 3 Unknown
\e[99~ => 5 Unknown
\e]11;rgb:0/0/0\u{7}a => 15 Unknown
\e]11;rgb:0/0/0\e\\a => 16 Unknown
\eP1$r0m\e\\a => 9 Unknown
\eP>|tmux 3.4\e[A => 12 Unknown
\eP!|0\u{7f} => 5 Unknown
\e[M !!a => 6 Unknown
\e[M#\xff\xffa => 6 Unknown
\e[1Mabc => 4 Unknown

// parts that wait for more
\e[ => waits
\e[1; => waits
\eO => waits
\xc3 => waits
\xf0\x9f\x98 => waits
\e[200~abc => waits
\e] => waits
\eP => waits
\e]11;rgb:0 => waits
\eP>|tmux\e => waits
\e[M => waits
\e[M ! => waits
\e\e => waits
\e\e[ => waits
\e\eO => waits
";

#[test]
fn keys_and_other_tokens_are_found(rt: HostRuntime) -> Result<(), Fail> {
    expect_rows(rt.alloc(), TOKENS, token_text)
}

/// Encodes changes: `COLS; CHANGE; ..`. Behind `tersely CHANGE` only that one is returned.
fn sent(alloc: Global, changes: &str) -> Result<String, Fail> {
    let (cols, changes) = changes.split_once("; ").ok_or("no change")?;
    let mut encoder = Encoder::new(cols.parse()?);
    let mut out = String::new(alloc);
    for name in changes.split("; ") {
        if let Some(name) = name.strip_prefix("tersely ") {
            out.clear();
            encoder.encode_tersely(&change_of(alloc, name)?, &mut out)?;
        } else {
            encoder.encode(&change_of(alloc, name)?, &mut out)?;
        }
    }
    Ok(out)
}

const CHANGES: &str = r"
4; bold; text abcd; at +2 -1; at -12 0; clear_below; clear 3 => \e[22;1mabcd\n\n\r\e[3C\e[12A\r\e[K\e[C\e[J\r\e[H\e[48;5;3m\e[2J\e[49m

// terse moves are steps from the cursor
80; at +0 10; tersely at +0 -1 => \u{8}
80; at +0 10; tersely at +0 -3 => \u{8}\u{8}\u{8}
80; at +0 10; tersely at +0 -4 => \e[4D
80; at +0 10; tersely at +0 -10 => \r
80; at +0 10; tersely at +0 -99 => \r
80; at +0 10; tersely at +0 +0 =>
80; at +0 10; tersely at +0 +1 => \e[C
80; at +0 10; tersely at +0 +12 => \e[12C
80; at +0 10; tersely at +0 +99 => \e[69C
80; at +0 10; tersely at -1 +0 => \e[A
80; at +0 10; tersely at -3 +2 => \e[3A\e[2C
80; at +0 0; tersely at +1 +0 => \n
80; at +0 0; tersely at +3 +0 => \n\n\n
80; at +0 5; tersely at +4 -5 => \e[4B\r
80; at +0 10; tersely at +12 +2 => \e[12B\e[2C

// the last column is kept
4; text abcd; clear_below; text e => abcd\r\n\e[J\e[A\r\e[3C\r\ne

// other texts are sent by clusters
4; text \u{4e00}\e[\u{9b}e\u{301}\r\nx => \u{4e00}?[?e\u{301}\r\nx

// a character goes to the next row, also after a mark
3; text abc\n\u{301}d => abc\n\r\e[2C\u{301}\r\nd
";

#[test]
fn changes_are_sent(rt: HostRuntime) -> Result<(), Fail> {
    expect_rows(rt.alloc(), CHANGES, sent)
}

#[test]
fn all_attributes_are_sent(rt: HostRuntime) -> Result<(), Fail> {
    let alloc = rt.alloc();
    let mut encoder = Encoder::new(4);
    let mut out = String::new(alloc);
    let attributes = CellAttributes {
        intensity: Intensity::Half,
        underline: Underline::Curly,
        blink: Blink::Rapid,
        italic: true,
        reverse: true,
        strikethrough: true,
        invisible: true,
        foreground: ColorAttribute::TrueColorWithDefaultFallback(1, 20, 255),
        background: ColorAttribute::PaletteIndex(7),
    };
    encoder.encode(&Change::AllAttributes(attributes), &mut out)?;
    assert_eq!(rt;
        out.as_str(),
        "\x1b[0m\x1b[22;2m\x1b[4:3m\x1b[25;6m\x1b[3m\x1b[7m\x1b[9m\x1b[8m\x1b[38;2;1;20;255m\x1b[48;5;7m"
    );
    Ok(())
}
