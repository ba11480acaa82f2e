//! The tensor type that a shape token writes.
ghost use Rattle.std.specs.Prelude.{◌≡◌, ◌≤◌, length, drop, IfOk, option_map};
ghost use Rattle.xf_type.specs.Bytes.{is_digit, is_word_byte};
ghost use Rattle.xf_lex.specs.Bytes.{run, starts};
ghost use Rattle.xf_shape.specs.Shapes.{DimFirst, extent_of, before_x, dim_first, dims_first, inside_marks, shape_of};
ghost use Rattle.xf_shape.specs.Shapes.{word_first, element_number, shape_number};

use crate::type_word::type_number;
use crate::width::width_of;
use std::alloc::Global;
use xf_type::{Dim, DimList, NoMemory, Shape, is_digit, is_letter, is_word_byte, number_of};

/// How many digits bytes begin with.
fn digits(bytes: &[u8]) -> usize
    ensures value { result ≡ run is_digit bytes.now }
    ensures within { result ≤ length bytes.now }
{
    let mut count = 0;
    for b in bytes {
        if !is_digit(*b) {
            return count;
        }
        count += 1;
    }
    count
}

/// The extent that digits write, or 2^32 - 1 where it is more.
fn extent_of(digits: &[u8]) -> u32
    ensures { result ≡ extent_of digits.now }
{
    let extent = number_of(digits);
    if extent <= u128::from(u32::MAX) {
        extent as u32
    } else {
        u32::MAX
    }
}

/// A dimension, where the `x` stands behind it, and what stands behind that.
fn before_x(dim: Dim, bytes: &[u8]) -> Option<(Dim, &[u8])>
    ensures { option_map (λ x. record { dim = x.0; rest = x.1.now }) result ≡ before_x dim bytes.now }
{
    match bytes {
        [b'x', rest @ ..] => Some((dim, rest)),
        _ => None,
    }
}

/// The dimension that bytes begin with and the `x` behind it, and what stands behind them.
fn dim_first(bytes: &[u8]) -> Option<(Dim, &[u8])>
    ensures { option_map (λ x. record { dim = x.0; rest = x.1.now }) result ≡ dim_first bytes.now }
{
    match bytes {
        [] => None,
        [b, rest @ ..] => {
            if *b == b'?' {
                before_x(Dim::Dynamic, rest)
            } else if is_digit(*b) {
                let (extent, behind) = bytes.split_at(digits(rest) + 1);
                before_x(Dim::Fixed(extent_of(extent)), behind)
            } else {
                None
            }
        }
    }
}

/// The dimensions that bytes begin with. It refuses for want of memory alone.
fn dims_first(alloc: Global, bytes: &[u8]) -> Result<DimList, NoMemory>
    ensures { IfOk result (λ dims. dims ≡ (dims_first bytes.now).dims) }
{
    let mut dims = DimList::new(alloc);
    let mut rest = bytes;
    'dim: while let Some((dim, behind)) = dim_first(rest) {
        dims.push(dim)?;
        rest = behind;
    }
    Ok(dims)
}

/// What stands behind the dimensions that bytes begin with.
fn behind_dims(bytes: &[u8]) -> &[u8]
    ensures { result.now ≡ (dims_first bytes.now).rest }
{
    let mut rest = bytes;
    'dim: while let Some((_, behind)) = dim_first(rest) {
        rest = behind;
    }
    rest
}

/// What stands between the `<` and the `>` of a shape token.
pub fn inside_marks(bytes: &[u8]) -> &[u8]
    ensures { result.now ≡ inside_marks bytes.now }
{
    match bytes {
        [_, inside @ .., _] => inside,
        _ => &[],
    }
}

/// The tensor type that the bytes of a shape token write; none where they write none. It takes time in the number
/// of bytes, and refuses for want of memory alone.
pub fn shape_of(alloc: Global, bytes: &[u8]) -> Result<Option<Shape>, NoMemory>
    ensures { IfOk result (λ shape. shape ≡ shape_of bytes.now) }
{
    let inside = inside_marks(bytes);
    let Some(elem) = width_of(behind_dims(inside)) else {
        return Ok(None);
    };
    let dims = dims_first(alloc, inside)?;
    Ok(Some(Shape { dims, elem }))
}

/// How many bytes of words bytes begin with.
fn word_bytes(bytes: &[u8]) -> usize
    ensures value { result ≡ run is_word_byte bytes.now }
    ensures within { result ≤ length bytes.now }
{
    let mut count = 0;
    for b in bytes {
        if !is_word_byte(*b) {
            return count;
        }
        count += 1;
    }
    count
}

/// The word that bytes begin with.
fn word_first(bytes: &[u8]) -> &[u8]
    ensures value { result.now ≡ word_first bytes.now }
    ensures within { length result.now ≤ length bytes.now }
{
    match bytes {
        [b, rest @ ..] if is_letter(*b) => &bytes[..word_bytes(rest) + 1],
        _ => &[],
    }
}

fn starts(x: u8, bytes: &[u8]) -> bool
    ensures { result ≡ starts x bytes.now }
{
    match bytes {
        [] => false,
        [b, ..] => *b == x,
    }
}

/// The number of the form of MLIR that stands in the place of a width.
fn element_number(bytes: &[u8]) -> Option<u32>
    ensures { result ≡ element_number bytes.now }
{
    let word = word_first(bytes);
    if width_of(word).is_some() && starts(b',', &bytes[word.len()..]) {
        Some(17)
    } else {
        type_number(word)
    }
}

/// The number of the form of MLIR that stands between the marks of a shape token, where that is not supported: 17 for
/// dimensions that are not known, or an encoding; or that of an element type. It takes time in the number of bytes.
pub fn shape_number(inside: &[u8]) -> Option<u32>
    ensures { result ≡ shape_number inside.now }
{
    if starts(b'*', inside) {
        Some(17)
    } else {
        element_number(behind_dims(inside))
    }
}
