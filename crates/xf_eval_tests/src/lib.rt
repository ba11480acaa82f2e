//! Tests of operations on held values: their operands as a text of arguments, and what they give as lines. There is
//! nothing here but tests, so that no other crate is proved again for them.
#![tactic(auto)]

#[cfg(test)]
mod operations;
