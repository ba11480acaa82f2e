//! The syntax tree of a whole text, read by the table of the format, with its laws.
#![tactic(auto)]

mod law;
mod reader;
mod tree;

pub use law::texts_are_read_as_written;
pub use reader::{ends_in_yield, syntax};
pub use tree::{Body, File, SyntaxNode};
