//! The top call: a schedule carried out on a payload, from bytes to bytes.
#![tactic(auto)]

mod form;
mod journal;
mod outcome;
mod run;
mod schedule;
mod telling;
mod top;
mod words;

pub use journal::{Entry, Journal};
pub use outcome::{Outcome, Refusal, Told, tell};
pub use top::transform_main;
