//! The numbers of dense constants.
ghost use Rattle.std.specs.Prelude.{◌≡◌, ◌*◌, ◌-◌, ◌^◌, ◌==◌, not, min};
ghost use Rattle.xf_ir.specs.Lists.{every};
ghost use Rattle.xf_ir.specs.RuleAttributes.{fits_bits, element_count, all_equal, numbers_of, dense_fits};
ghost use Rattle.xf_ir.specs.Types.{is_dynamic};
ghost use Rattle.xf_rules_shape.specs.Extents.{extent_or_one};

use xf_rules::fits_bits;
use xf_type::{Dim, Shape, Width};

/// The greatest number of elements of a dense constant.
const MOST_ELEMENTS: u64 = 1_048_576;

/// Whether each dimension is fixed.
fn are_fixed(dims: &[Dim]) -> bool
    ensures { result ≡ every (λ d. not (is_dynamic d)) dims.now }
{
    for dim in dims {
        if let Dim::Dynamic = dim {
            return false;
        }
    }
    true
}

/// A number times a fixed extent; a dynamic one changes nothing. A product that 64 bits do not hold is the greatest of
/// 64 bits.
fn times_extent(count: u64, dim: Dim) -> u64
    ensures { result ≡ min (count * extent_or_one dim) (2 ^ 64 - 1) }
{
    match dim {
        Dim::Fixed(extent) => count.saturating_mul(extent as u64),
        Dim::Dynamic => count,
    }
}

/// The number of elements of a tensor of these dimensions, a dynamic one counted as 1. A number that 64 bits do not
/// hold is the greatest of 64 bits.
fn element_count(dims: &[Dim]) -> u64
    ensures { result ≡ min (element_count dims.now) (2 ^ 64 - 1) }
{
    let mut count: u64 = 1;
    for dim in dims {
        count = times_extent(count, *dim);
    }
    count
}

/// Whether all numbers are equal.
pub fn all_equal(numbers: &[u128]) -> bool
    ensures { result ≡ all_equal numbers.now }
{
    match numbers {
        [] => true,
        [first, rest @ ..] => are_all(rest, *first),
    }
}

/// Whether each number is this one.
fn are_all(numbers: &[u128], wanted: u128) -> bool
    ensures { result ≡ every (λ n. n == wanted) numbers.now }
{
    for number in numbers {
        if *number != wanted {
            return false;
        }
    }
    true
}

/// Whether these are the numbers of so many elements: none for none, the one number of all, or one for each where they
/// are not all equal.
fn numbers_of(count: u64, numbers: &[u128]) -> bool
    ensures { result ≡ numbers_of count numbers.now }
{
    if count == 0 {
        return numbers.is_empty();
    }
    numbers.len() == 1 || (numbers.len() as u64 == count && !all_equal(numbers))
}

/// Whether each number is below 2^bits of the width.
fn all_fit(width: Width, numbers: &[u128]) -> bool
    ensures { result ≡ every (fits_bits width) numbers.now }
{
    for number in numbers {
        if !fits_bits(width, *number) {
            return false;
        }
    }
    true
}

/// Whether a dense constant has a fixed shape of at most 1,048,576 elements, and the numbers of them.
#[tactic(auto, using(crate::proofs::DenseLemmas::few_elements))]
pub fn dense_fits(shape: &Shape, numbers: &[u128]) -> bool
    ensures { result ≡ dense_fits shape.now numbers.now }
{
    let dims = shape.dims.as_slice();
    let count = element_count(dims);
    are_fixed(dims)
        && (count <= MOST_ELEMENTS && (numbers_of(count, numbers) && all_fit(shape.elem, numbers)))
}
