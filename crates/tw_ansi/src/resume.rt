//! Tokens whose bytes come in many pieces: what was read of them is not read again.

ghost use Rattle.std.specs.Prelude.{◌≡◌, ◌+◌, ◌<◌, ◌≤◌, ◌^◌, length, Some, None, IfOk, IfErr, OnErr};
ghost use Rattle.std.specs.Option.{ok_or};
ghost use Rattle.tw_ansi.specs.KeyBytes.{token_at};
ghost use Rattle.tw_ansi.specs.Resuming.{Fits, token_resumed, read_on, behind_start, passed_len, parameters_on, string_on, paste_on, behind_parameters, behind_string, searched_to};
ghost use Rattle.tw_ansi.specs.declared.resume.Progress.TheVariants.{Paste};

use crate::control::{PASTE_END, ended_at, parameters_len, paste_len, paste_of};
use crate::decode::{ESC, token_at};
use crate::strings::{begins_string, string_len, string_of};
use crate::token::Scanned;

/// What begins a control sequence.
const SEQUENCE: [u8; 2] = [ESC, b'['];

/// How many bytes stand at least after ESC [ where a pasted text begins.
const PASTE_MARK_LEN: usize = 4;

/// How far the bytes at the front were read, where they are no token yet.
#[derive(Debug, Clone, Copy, PartialEq, Eq)]
pub enum Progress {
    /// Nothing is known of them.
    Start,
    /// ESC [ and `len` bytes of parameters.
    Parameters { len: usize },
    /// ESC ] or ESC P and `len` bytes of a control string.
    ControlString { len: usize },
    /// `from` bytes, and then a pasted text whose end does not begin in its first `searched` bytes.
    Paste { from: usize, searched: usize },
}

/// Returns the token at the front of the bytes, as `scan` gives it, or, where more bytes are wanted, how far these were
/// read. A call for the same bytes and more goes on from there.
#[tactic(auto, using(crate::proofs::Resumes::is_found, crate::proofs::Resumes::is_none, crate::proofs::Resumes::is_read, crate::proofs::Resumes::is_bounded))]
pub fn scan_on(bytes: &[u8], progress: Progress, is_last: bool) -> Result<Scanned, Progress>
    requires { Fits progress bytes.now }
    ensures found { IfOk result (λ s. token_at is_last bytes.now ≡ Some s) }
    ensures wants_more { OnErr result (token_at is_last bytes.now ≡ None) }
    ensures progress { IfErr result (λ p. p ≡ read_on progress bytes.now) }
    ensures fits { IfErr result (λ p. Fits p bytes.now) }
    ensures takes { IfOk result (λ s. (0 < s.used) × (s.used ≤ length bytes.now)) }
{
    go_on(progress, bytes, is_last)
}

/// Returns the token at the front, or how far the bytes were read.
fn go_on(progress: Progress, bytes: &[u8], is_last: bool) -> Result<Scanned, Progress>
    requires { passed_len progress ≤ length bytes.now }
    ensures { result ≡ ok_or (token_resumed progress is_last bytes.now)
        (read_on progress bytes.now) }
{
    match progress {
        Progress::Start => begin(bytes, is_last),
        Progress::Parameters { len } => parameters_on(len, &bytes[2..], is_last),
        Progress::ControlString { len } => string_on(len, &bytes[2..], is_last),
        Progress::Paste { from, searched } => paste_on(from, searched, &bytes[from..], is_last),
    }
}

/// Reads the bytes from the first one on.
#[tactic(auto, using(crate::proofs::Resumes::begun, crate::proofs::Resumes::begun_string))]
fn begin(bytes: &[u8], is_last: bool) -> Result<Scanned, Progress>
    ensures { result ≡ ok_or (token_at is_last bytes.now) (behind_start bytes.now) }
{
    if bytes.starts_with(&SEQUENCE) {
        parameters_on(0, &bytes[SEQUENCE.len()..], is_last)
    } else if begins_string(bytes) {
        string_on(0, &bytes[2..], is_last)
    } else {
        token_at(bytes, is_last).ok_or(Progress::Start)
    }
}

/// Goes on after ESC [ and `len` bytes of parameters.
fn parameters_on(len: usize, bytes: &[u8], is_last: bool) -> Result<Scanned, Progress>
    requires within { len ≤ length bytes.now }
    requires room { length bytes.now + 3 < 2 ^ 64 }
    ensures { result ≡ ok_or (parameters_on is_last len bytes.now)
        (behind_parameters len bytes.now) }
{
    let all = len + parameters_len(&bytes[len..]);
    let progress = if all == bytes.len() || bytes.len() < PASTE_MARK_LEN {
        Progress::Parameters { len: all }
    } else {
        Progress::Paste {
            from: 3 + all,
            searched: searched_to(0, bytes.len() - all - 1),
        }
    };
    ended_at(&bytes[..all], &bytes[all..], is_last).ok_or(progress)
}

/// Goes on after ESC ] or ESC P and `len` bytes of a control string.
fn string_on(len: usize, bytes: &[u8], is_last: bool) -> Result<Scanned, Progress>
    requires within { len ≤ length bytes.now }
    requires room { length bytes.now + 4 < 2 ^ 64 }
    ensures { result ≡ ok_or (string_on is_last len bytes.now) (behind_string len bytes.now) }
{
    let all = len + string_len(&bytes[len..]);
    string_of(2 + all, &bytes[all..], is_last).ok_or(Progress::ControlString { len: all })
}

/// Returns how many bytes of a pasted text are passed, in all of which no end was found: it may begin in the last five.
fn searched_to(searched: usize, len: usize) -> usize
    requires { searched ≤ len }
    ensures { result ≡ searched_to searched len }
{
    searched + (len - searched).saturating_sub(PASTE_END.len() - 1)
}

/// Goes on in a pasted text that begins after `from` bytes.
fn paste_on(from: usize, searched: usize, bytes: &[u8], is_last: bool) -> Result<Scanned, Progress>
    requires within { searched ≤ length bytes.now }
    requires room { from + length bytes.now < 2 ^ 64 }
    ensures { result ≡ ok_or (paste_on is_last from searched bytes.now)
        (Paste from (searched_to searched (length bytes.now))) }
{
    let len = paste_len(&bytes[searched..]).map(|len| len + searched);
    paste_of(from, bytes.len(), len, is_last).ok_or(Progress::Paste {
        from,
        searched: searched_to(searched, bytes.len()),
    })
}
