//! The tokens of payloads and scripts, with their places.
#![tactic(auto)]

mod byte_class;
mod law;
mod lex;
mod lexeme;
mod quoted;
mod token;

pub use law::{layout_is_read, one_answer};
pub use lex::tokens;
pub use token::{Token, TokenBytes, TokenKind, TokenList};
