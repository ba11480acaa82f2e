//! The printed form of a module: `specs/PrintedForm.antt` defines its text line by line. The crates that write it, and
//! the laws of its text, stand on these definitions.
#![tactic(auto)]
