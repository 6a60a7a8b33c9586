//! Sizes, in bytes, of the things of a text.

ghost use Rattle.std.specs.Prelude.{◌≡◌, ◌≤◌, length, IfSome};
ghost use Rattle.std.specs.List.{prefix_len};
ghost use Rattle.std.specs.Io.BufRead.{take_through};
ghost use Rattle.sql_statements.specs.Lexis as lexis;
ghost use Rattle.sql_statements.specs.Lexis.{line_feed, quoted_size};

/// Whether a byte is white space.
pub fn is_blank(byte: u8) -> bool
    ensures { result ≡ lexis.is_blank byte }
{
    (9..=13).contains(&byte) || byte == b' '
}

/// Whether a byte is an ASCII digit.
pub(crate) fn is_digit(byte: u8) -> bool
    ensures { result ≡ lexis.is_digit byte }
{
    byte.is_ascii_digit()
}

/// Whether a word may begin with this byte.
pub(crate) fn is_letter(byte: u8) -> bool
    ensures { result ≡ lexis.is_letter byte }
{
    byte.is_ascii_alphabetic() || byte == b'_'
}

/// Whether a word may have this byte after its first.
pub(crate) fn is_word_byte(byte: u8) -> bool
    ensures { result ≡ lexis.is_word_byte byte }
{
    is_letter(byte) || is_digit(byte)
}

/// Whether a byte is a symbol of one byte, and nothing longer begins with it.
pub(crate) fn is_lone_symbol(byte: u8) -> bool
    ensures { result ≡ lexis.is_lone_symbol byte }
{
    byte == b'('
        || byte == b')'
        || byte == b','
        || byte == b';'
        || byte == b'.'
        || byte == b'*'
        || byte == b'='
        || byte == b'+'
}

/// Whether a byte is a symbol of one byte.
pub(crate) fn is_symbol_byte(byte: u8) -> bool
    ensures { result ≡ lexis.is_symbol_byte byte }
{
    is_lone_symbol(byte) || byte == b'<' || byte == b'>' || byte == b'-'
}

/// Whether a symbol of two bytes is first.
pub(crate) fn begins_pair(bytes: &[u8]) -> bool
    ensures { result ≡ lexis.begins_pair bytes.now }
{
    bytes.starts_with(b"<>") || bytes.starts_with(b"<=") || bytes.starts_with(b">=")
}

/// The number of bytes of the word that is first.
pub(crate) fn word_size(bytes: &[u8]) -> usize
    ensures size { result ≡ prefix_len lexis.is_word_byte bytes.now }
    ensures within { result ≤ length bytes.now }
{
    for (i, byte) in bytes.iter().enumerate() {
        if !is_word_byte(*byte) {
            return i;
        }
    }
    bytes.len()
}

/// The number of digits that come first.
pub(crate) fn number_size(bytes: &[u8]) -> usize
    ensures size { result ≡ prefix_len lexis.is_digit bytes.now }
    ensures within { result ≤ length bytes.now }
{
    for (i, byte) in bytes.iter().enumerate() {
        if !is_digit(*byte) {
            return i;
        }
    }
    bytes.len()
}

/// The number of bytes up to and with the next line feed, or to the end.
pub(crate) fn comment_size(bytes: &[u8]) -> usize
    ensures size { result ≡ length (take_through line_feed bytes.now) }
    ensures within { result ≤ length bytes.now }
{
    for (i, byte) in bytes.iter().enumerate() {
        if *byte == b'\n' {
            return i + 1;
        }
    }
    bytes.len()
}

fn begins_quote(bytes: &[u8]) -> bool
    ensures { result ≡ lexis.begins_with "'" bytes.now }
{
    bytes.starts_with(b"'")
}

/// The number of bytes after an opening quote up to and with the quote that ends the text.
pub(crate) fn quoted_size(bytes: &[u8]) -> Option<usize>
    ensures size { result ≡ quoted_size bytes.now }
    ensures within { IfSome result (λ n. n ≤ length bytes.now) }
{
    let mut i = 0;
    while i < bytes.len() {
        if bytes[i] != b'\'' {
            i += 1;
        } else if begins_quote(&bytes[i + 1..]) {
            i += 2;
        } else {
            return Some(i + 1);
        }
    }
    None
}

/// The number of bytes of a byte order mark, U+FEFF, at the start of a script; 0 if there is none.
pub fn byte_order_mark_size(script: &[u8]) -> usize
    ensures { result ≡ lexis.byte_order_mark_size script.now }
{
    if script.starts_with(&[239, 187, 191]) {
        3
    } else {
        0
    }
}
