//! Tests of the arena's layers at large sizes: a million numbers in one ring, a million names in an index, a value with
//! a hundred thousand uses, and an operation among a hundred thousand slots. There is nothing here but tests.
#![tactic(auto)]

#[cfg(test)]
mod names;
#[cfg(test)]
mod ring;
#[cfg(test)]
mod slots;
#[cfg(test)]
mod uses;
