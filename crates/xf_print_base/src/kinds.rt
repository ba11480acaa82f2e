//! What kinds state in the slots of their rows.
ghost use Rattle.std.specs.Prelude.{◌≡◌, [], ◌∷◌, slice_get};
ghost use Rattle.std.specs.Option.{option_map};
ghost use Rattle.xf_printed.specs.Fills.{is_private, predicate_or_none, symbol_or_none, symbol_printed, widths_of};
ghost use Rattle.xf_printed.specs.Structured.{iterators_of, maps_of, offsets_of, sizes_of, window_values};

use crate::values::operands_behind;
use xf_ir::{IteratorKind, Kind, SliceIndex, ValueName};
use xf_type::{AffineMap, Width};

/// The symbol of a module, a function or a call.
pub fn symbol_of(kind: &Kind) -> Option<&[u8]>
    ensures { option_map (λ s. s.now) result ≡ symbol_printed kind.now }
{
    match kind {
        Kind::Module { symbol } => match symbol {
            Some(symbol) => Some(symbol.as_slice()),
            None => None,
        },
        Kind::Func { symbol, .. } => Some(symbol.as_slice()),
        Kind::Call { callee } => Some(callee.as_slice()),
        _ => None,
    }
}

/// The symbol, or no bytes.
pub fn symbol_or_none(kind: &Kind) -> &[u8]
    ensures { result.now ≡ symbol_or_none kind.now }
{
    match symbol_of(kind) {
        Some(symbol) => symbol,
        None => b"",
    }
}

/// Whether a kind is a private function.
pub fn is_private(kind: &Kind) -> bool
    ensures { result ≡ is_private kind.now }
{
    match kind {
        Kind::Func { private, .. } => *private,
        _ => false,
    }
}

/// The word of the predicate, or no bytes.
pub fn predicate_or_none(kind: &Kind) -> &'static [u8]
    ensures { result.now ≡ predicate_or_none kind.now }
{
    match kind {
        Kind::Compare { kind, .. } => kind.spelling(),
        _ => b"",
    }
}

/// The width of an operation that states one.
fn single_width(width: Width, at: u8) -> Option<Width>
    ensures { result ≡ slice_get (width ∷ []) at }
{
    if at == 0 { Some(width) } else { None }
}

/// The widths of a conversion.
fn double_width(from: Width, to: Width, at: u8) -> Option<Width>
    ensures { result ≡ slice_get (from ∷ (to ∷ [])) at }
{
    if at == 0 {
        Some(from)
    } else {
        single_width(to, at - 1)
    }
}

/// The width with that number.
pub fn width_of(kind: &Kind, at: u8) -> Option<Width>
    ensures { result ≡ slice_get (widths_of kind.now) at }
{
    match kind {
        Kind::Binary { width, .. } => single_width(*width, at),
        Kind::Compare { width, .. } => single_width(*width, at),
        Kind::Select { width } => single_width(*width, at),
        Kind::Convert { from, to, .. } => double_width(*from, *to, at),
        Kind::For { width } => single_width(*width, at),
        _ => None,
    }
}

/// The offsets of a slice, or none.
pub fn offsets_of(kind: &Kind) -> &[SliceIndex]
    ensures { result.now ≡ offsets_of kind.now }
{
    match kind {
        Kind::ExtractSlice { offsets, .. } => offsets.as_slice(),
        Kind::InsertSlice { offsets, .. } => offsets.as_slice(),
        _ => &[],
    }
}

/// The sizes of a slice, or none.
pub fn sizes_of(kind: &Kind) -> &[SliceIndex]
    ensures { result.now ≡ sizes_of kind.now }
{
    match kind {
        Kind::ExtractSlice { sizes, .. } => sizes.as_slice(),
        Kind::InsertSlice { sizes, .. } => sizes.as_slice(),
        _ => &[],
    }
}

/// The operands of a slice that are offsets and sizes: those behind its tensors.
pub fn window_values<'a>(kind: &Kind, operands: &'a [ValueName]) -> &'a [ValueName]
    ensures { result.now ≡ window_values kind.now operands.now }
{
    match kind {
        Kind::ExtractSlice { .. } => operands_behind(operands, 1),
        _ => operands_behind(operands, 2),
    }
}

/// The indexing maps of an operation, or none.
pub fn maps_of(kind: &Kind) -> &[AffineMap]
    ensures { result.now ≡ maps_of kind.now }
{
    match kind {
        Kind::Generic { maps, .. } => maps.as_slice(),
        _ => &[],
    }
}

/// The iterator types of an operation, or none.
pub fn iterators_of(kind: &Kind) -> &[IteratorKind]
    ensures { result.now ≡ iterators_of kind.now }
{
    match kind {
        Kind::Generic { iterators, .. } => iterators.as_slice(),
        _ => &[],
    }
}
