//! The types of a payload, its integers and their arithmetic, and lists that contracts see as lists.
#![tactic(auto)]

mod attribute;
mod byte;
mod duplicate;
mod equals;
mod integer;
mod kind;
mod law;
mod list;
mod payload_type;
mod spelling;

pub use attribute::{AffineMap, AttrValue};
pub use byte::{TOO_LARGE, digit_value, is_digit, is_hex, is_letter, is_word_byte, number_of};
pub use duplicate::Duplicate;
pub use equals::{Equals, same_shape, same_type, same_types, same_width};
pub use integer::{
    apply_binary, apply_cmp, apply_conv, apply_select, bits, combine, greatest, signed, wrap,
};
pub use kind::{BinKind, CmpKind, Combiner, ConvKind};
pub use law::{combining_order_is_free, conversions_return, readings_return, results_fit};
pub use list::{ByteList, DimList, ListOf, PlaceList, TypeList};
pub use payload_type::{Dim, Elem, PayloadType, Shape, Width};

/// There was no memory for what a call has to make.
pub type NoMemory = std::alloc::AllocError;
