//! What a text of a payload says is what it means: the step from printed texts to the modules that
//! they spell.
#![tactic(auto)]

mod law;
mod layout;
mod validity;

pub use law::{
    printed_modules_say_themselves, texts_mean_what_they_say, tokens_are_right_as_they_say,
};
pub use layout::{printed_form_has_layout, printed_modules_are_spelt};
pub use validity::printed_modules_are_valid_again;
