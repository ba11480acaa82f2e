//! The schedule of a run: whether a text is it. The schedule is defined by its tokens (`specs/Script.antt`), which are
//! those of `xf_lex`; the contract is that of `is_script`.
#![tactic(auto)]

mod cursor;
mod script;

pub use script::is_script;
