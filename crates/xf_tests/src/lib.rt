//! Tests of what no call of the program shows: edits, copies and large trees, lines of codes that no command gives yet,
//! and files and streams of the system. There is nothing here but tests, so that no other crate is proved again for them.
#![tactic(auto)]

#[cfg(test)]
mod bounds;
#[cfg(test)]
mod copies;
#[cfg(test)]
mod devices;
#[cfg(test)]
mod edits;
#[cfg(test)]
mod heads;
#[cfg(test)]
mod integers;
#[cfg(test)]
mod large_trees;
#[cfg(test)]
mod lines;
#[cfg(test)]
mod outline;
#[cfg(test)]
mod trees;
