//! The parts of printed lines: what the slots of a row write, filled by an operation. Each function
//! appends to the line so far the text that the printed form has there, and refuses for want of
//! memory alone.
#![tactic(auto)]

mod attributes;
mod index;
mod kinds;
mod maps;
mod number;
mod slices;
mod slots;
mod structured;
mod types;
mod values;
mod words;

pub use attributes::{write_attributes, write_dictionary, write_marked};
pub use index::{Defined, Index, sum};
pub use maps::{write_iterators, write_maps};
pub use number::write_number_of;
pub use slices::{write_offsets, write_sizes, write_strides};
pub use slots::{
    write_arrow, write_block_name, write_block_params, write_call_results, write_enclosed_params,
    write_enclosed_types, write_first, write_function_name, write_function_results,
    write_if_results, write_iter_args, write_keyword, write_loop_width, write_mark,
    write_module_name, write_predicate, write_result_tensor, write_result_type, write_scalar,
    write_symbol, write_uses_until, write_width,
};
pub use structured::{ins_of, write_ins, write_outs, write_some_ins};
pub use types::{write_some_scalar, write_some_tensor, write_some_type, write_tensor};
pub use values::{operand_type, operands_behind, write_operand, write_operands};
pub use words::write_number;
