//! What stands between the quotes of a string.
ghost use Rattle.std.specs.Prelude.{◌≡◌, ◌≤◌, length, false};
ghost use Rattle.xf_lex.specs.Lexemes.{quoted_in, starts_hex, is_escape, escaped_in};

use xf_type::is_hex;

/// How many bytes stand before the quote that ends a string, before the end of the line, or else
/// in all.
pub fn quoted(bytes: &[u8]) -> usize
    ensures value { result ≡ quoted_in false bytes.now }
    ensures within { result ≤ length bytes.now }
{
    let mut escaped = false;
    for (i, b) in bytes.iter().enumerate() {
        let b = *b;
        if b == b'\n' || !escaped && b == b'"' {
            return i;
        }
        escaped = !escaped && b == b'\\';
    }
    bytes.len()
}

fn starts_hex(bytes: &[u8]) -> bool
    ensures { result ≡ starts_hex bytes.now }
{
    match bytes {
        [] => false,
        [b, ..] => is_hex(*b),
    }
}

/// Whether what stands behind a `\` is an escape.
fn is_escape(bytes: &[u8]) -> bool
    ensures { result ≡ is_escape bytes.now }
{
    match bytes {
        [] => false,
        [b, rest @ ..] => {
            let b = *b;
            b == b'"' || b == b'\\' || (b == b'n' || b == b't') || is_hex(b) && starts_hex(rest)
        }
    }
}

/// How many bytes stand before the first `\` that begins no escape, or else in all.
pub fn escaped(bytes: &[u8]) -> usize
    ensures value { result ≡ escaped_in false bytes.now }
    ensures within { result ≤ length bytes.now }
{
    let mut escaped = false;
    for (i, b) in bytes.iter().enumerate() {
        let b = *b;
        if !escaped && b == b'\\' && !is_escape(&bytes[i + 1..]) {
            return i;
        }
        escaped = !escaped && b == b'\\';
    }
    bytes.len()
}
