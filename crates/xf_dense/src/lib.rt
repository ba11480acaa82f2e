//! The body of a dense constant: what stands between `dense<` and its `>`, as a machine over tokens, and what
//! is read there.
#![tactic(auto)]

mod body;
mod counts;
mod expected;
mod fits;
mod law;
mod read;
mod state;

pub use body::{Body, ExtentList, Literal, LiteralList};
pub use counts::Counts;
pub use expected::{Due, Stopped};
pub use fits::fits_shape;
pub use law::{nests_are_read, printed_bodies_are_read};
pub use read::body_at;
pub use state::{Stage, State};
