//! What a byte of a text stands in.

ghost use Rattle.std.specs.Prelude.{◌≡◌};
ghost use Rattle.sql_language.specs.Lexer.{behind_star, closing_byte, fresh, continued, if_so, in_block, in_quotes, is_decimal, is_word_start, is_number_part, is_part, is_white, reopens};

/// What quotes a text or a name.
#[derive(Clone, Copy)]
pub enum Quote {
    /// `'`, for texts.
    Single,
    /// `"`, for names.
    Double,
    /// A grave accent, for names.
    Grave,
    /// `[` and `]`, for names.
    Square,
}

/// What a byte of a text stands in.
#[derive(Clone, Copy)]
pub enum Inside {
    /// White space.
    White,
    /// A keyword or a name without quotes.
    Word,
    /// A number.
    Number,
    /// A mark of one byte.
    Mark,
    /// A minus sign, which may begin a comment.
    Dash,
    /// A slash, which may begin a comment.
    Slash,
    /// A comment that ends with its line.
    Line,
    /// A comment that ends at a star and a slash.
    Block,
    /// Such a comment, after a star.
    Star,
    /// Such a comment, at its end.
    BlockEnd,
    /// A text or a name in quotes.
    Quoted(Quote),
    /// The quote that ends it, unless a second one follows.
    Closed(Quote),
}

impl Quote {
    /// Returns the byte that ends a text in these quotes.
    pub fn closing_byte(self) -> u8
        ensures { result ≡ closing_byte self }
    {
        match self {
            Quote::Single => b'\'',
            Quote::Double => b'"',
            Quote::Grave => b'`',
            Quote::Square => b']',
        }
    }

    /// Returns true if a second such byte goes on with the text.
    fn reopens(self) -> bool
        ensures { result ≡ reopens self }
    {
        match self {
            Quote::Square => false,
            _ => true,
        }
    }
}

/// Returns true if a byte is white space.
fn is_white(byte: u8) -> bool
    ensures { result ≡ is_white byte }
{
    byte == b' ' || (9 <= byte && byte <= 13)
}

/// Returns true if a byte may begin a word.
fn is_word_start(byte: u8) -> bool
    ensures { result ≡ is_word_start byte }
{
    (65 <= byte && byte <= 90) || (97 <= byte && byte <= 122) || byte == b'_' || 128 <= byte
}

/// Returns true if a byte is a digit.
fn is_decimal(byte: u8) -> bool
    ensures { result ≡ is_decimal byte }
{
    48 <= byte && byte <= 57
}

/// Returns true if a word goes on with a byte.
fn is_part(byte: u8) -> bool
    ensures { result ≡ is_part byte }
{
    is_word_start(byte) || is_decimal(byte) || byte == b'$'
}

/// Returns true if a number goes on with a byte.
fn is_number_part(byte: u8) -> bool
    ensures { result ≡ is_number_part byte }
{
    is_word_start(byte) || is_decimal(byte) || byte == b'.'
}

/// Returns what a byte stands in that begins a token.
pub fn fresh(byte: u8) -> Inside
    ensures { result ≡ fresh byte }
{
    if is_white(byte) {
        return Inside::White;
    }
    if is_word_start(byte) {
        return Inside::Word;
    }
    if is_decimal(byte) {
        return Inside::Number;
    }
    match byte {
        b'\'' => Inside::Quoted(Quote::Single),
        b'"' => Inside::Quoted(Quote::Double),
        b'`' => Inside::Quoted(Quote::Grave),
        b'[' => Inside::Quoted(Quote::Square),
        b'-' => Inside::Dash,
        b'/' => Inside::Slash,
        _ => Inside::Mark,
    }
}

/// Returns a state if a test passes.
fn if_so(passes: bool, inside: Inside) -> Option<Inside>
    ensures { result ≡ if_so passes inside }
{
    if passes { Some(inside) } else { None }
}

/// Returns what a byte stands in behind one that stands in `inside`, or `None` if it begins a token.
pub fn continued(inside: Inside, byte: u8) -> Option<Inside>
    ensures { result ≡ continued inside byte }
{
    match inside {
        Inside::White => if_so(is_white(byte), Inside::White),
        Inside::Word => if_so(is_part(byte), Inside::Word),
        Inside::Number => if_so(is_number_part(byte), Inside::Number),
        Inside::Mark | Inside::BlockEnd => None,
        Inside::Dash => if_so(byte == b'-', Inside::Line),
        Inside::Slash => if_so(byte == b'*', Inside::Block),
        Inside::Line => if_so(byte != b'\n', Inside::Line),
        Inside::Block => Some(in_block(byte)),
        Inside::Star => Some(behind_star(byte)),
        Inside::Quoted(quote) => Some(in_quotes(quote, byte)),
        Inside::Closed(quote) => if_so(
            byte == quote.closing_byte() && quote.reopens(),
            Inside::Quoted(quote),
        ),
    }
}

/// Returns what a byte of a comment stands in.
fn in_block(byte: u8) -> Inside
    ensures { result ≡ in_block byte }
{
    if byte == b'*' {
        Inside::Star
    } else {
        Inside::Block
    }
}

/// Returns what a byte of a comment stands in behind a star.
fn behind_star(byte: u8) -> Inside
    ensures { result ≡ behind_star byte }
{
    if byte == b'/' {
        Inside::BlockEnd
    } else {
        in_block(byte)
    }
}

/// Returns what a byte of a text in quotes stands in.
fn in_quotes(quote: Quote, byte: u8) -> Inside
    ensures { result ≡ in_quotes quote byte }
{
    if byte == quote.closing_byte() {
        Inside::Closed(quote)
    } else {
        Inside::Quoted(quote)
    }
}
