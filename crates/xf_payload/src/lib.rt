//! The payload of a command: from the bytes of a file to a valid module.
#![tactic(auto)]

mod law;
mod payload;

pub use law::one_verdict;
pub use payload::read_payload;
