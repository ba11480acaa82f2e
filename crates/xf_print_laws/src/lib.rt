//! Laws of the printed form of a module: that it fits the format of payloads, what it says there, and
//! that it is laid out of its tokens.
#![tactic(auto)]

mod law;
mod layout;

pub use law::printed_form_says_its_module;
pub use layout::printed_form_is_laid_out;
