//! Tests of what tokens mean where no text of the program has them yet: shapes, and the bodies of dense constants.
//! There is nothing here but tests, and it stands on the lowest crates, so that it is proved beside the readers.
#![tactic(auto)]

#[cfg(test)]
mod dense;
#[cfg(test)]
mod shapes;
