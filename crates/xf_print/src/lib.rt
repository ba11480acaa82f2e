//! The printed form of modules: what the slots of each row write, lines, and `print`, which writes the
//! printed form of a module, or a front of it where the sink fails or memory is refused; and `write_literal`, the value
//! of a constant alone. What single slots write stands in `xf_print_base`.
#![tactic(auto)]

mod dense;
mod line;
mod printer;
mod row;
mod slot;

pub use printer::print;
pub use slot::write_literal;
