//! The bytes of tokens.
ghost use Rattle.std.specs.Prelude.{◌≡◌};
ghost use Rattle.xf_format.specs.Parts.{text_at};

use xf_lex::{Token, TokenKind};

/// The bytes of the token with a number; none of an arrow or a mark, which its kind tells, nor behind
/// the last.
pub fn text<'a>(tokens: &'a [Token], at: usize) -> &'a [u8]
    ensures { result.now ≡ text_at tokens.now at }
{
    if at < tokens.len() {
        let token = &tokens[at];
        match token.kind {
            TokenKind::Arrow | TokenKind::Mark(_) => &[],
            _ => token.bytes.as_slice(),
        }
    } else {
        &[]
    }
}
