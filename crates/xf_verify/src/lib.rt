//! The verifier of payload modules: the first operation that breaks a rule, with the rule.
#![tactic(auto)]

mod calls;
mod facts;
mod fault;
mod functions;
mod local;
mod scope;
mod stand;
mod verifier;
mod walk;

pub use fault::VerifyFault;
pub use verifier::verify;
