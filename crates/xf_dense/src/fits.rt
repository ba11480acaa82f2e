//! Which bodies stand for the elements of a tensor type.
ghost use Rattle.std.specs.Prelude.{◌≡◌, map};
ghost use Rattle.std.specs.List.{list_any, list_all};
ghost use Rattle.xf_dense.specs.Fits.{extent_fits, extents_fit, is_empty, may_be_empty, form_fits, is_truth, may_be};
ghost use Rattle.xf_dense.specs.Fits.{fits_shape};

use crate::body::{Body, Literal};
use xf_type::{Dim, Shape, Width};

/// Whether a dimension may have this extent: `?` may have any.
fn extent_fits(dim: Dim, extent: usize) -> bool
    ensures { result ≡ extent_fits dim extent }
{
    match dim {
        Dim::Fixed(n) => n as usize == extent,
        Dim::Dynamic => true,
    }
}

/// Whether there are as many dimensions as extents, each of which fits.
fn extents_fit(dims: &[Dim], extents: &[usize]) -> bool
    ensures { result ≡ extents_fit dims.now extents.now }
{
    let mut dims = dims;
    let mut extents = extents;
    'dims: while let [dim, inner_dims @ ..] = dims {
        match extents {
            [extent, inner_extents @ ..] if extent_fits(*dim, *extent) => {
                dims = inner_dims;
                extents = inner_extents;
            }
            _ => return false,
        }
    }
    match extents {
        [] => true,
        _ => false,
    }
}

/// Whether this dimension leaves no element.
fn is_empty(dim: Dim) -> bool
    ensures { result ≡ is_empty dim }
{
    match dim {
        Dim::Fixed(n) => n == 0,
        Dim::Dynamic => false,
    }
}

/// Whether this dimension may leave no element.
fn may_be_empty(dim: Dim) -> bool
    ensures { result ≡ may_be_empty dim }
{
    match dim {
        Dim::Fixed(n) => n == 0,
        Dim::Dynamic => true,
    }
}

/// Whether a dimension leaves no element.
fn has_empty(dims: &[Dim]) -> bool
    ensures { result ≡ list_any is_empty dims.now }
{
    for dim in dims {
        if is_empty(*dim) {
            return true;
        }
    }
    false
}

/// Whether a dimension may leave no element.
fn may_have_empty(dims: &[Dim]) -> bool
    ensures { result ≡ list_any may_be_empty dims.now }
{
    for dim in dims {
        if may_be_empty(*dim) {
            return true;
        }
    }
    false
}

/// Whether a literal writes a number of this width: `true` and `false` write those of `i1` alone.
fn literal_fits(width: Width, literal: Literal) -> bool
    ensures { result ≡ may_be width (is_truth literal) }
{
    match (width, literal) {
        (Width::I1, _) => true,
        (_, Literal::Truth(_)) => false,
        (_, Literal::Integer { .. }) => true,
    }
}

/// Whether each literal writes a number of this width.
fn literals_fit(width: Width, literals: &[Literal]) -> bool
    ensures { result ≡ list_all (may_be width) (map is_truth literals.now) }
{
    for literal in literals {
        if !literal_fits(width, *literal) {
            return false;
        }
    }
    true
}

/// Whether the lists of a body have the extents of a shape, or stand for any number of elements that it
/// may have.
fn form_fits(body: &Body, dims: &[Dim]) -> bool
    ensures { result ≡ form_fits body.now.extents body.now.literals dims.now }
{
    match &body.extents {
        Some(extents) => extents_fit(dims, extents.as_slice()),
        None if body.literals.is_empty() => may_have_empty(dims),
        None => !has_empty(dims),
    }
}

/// Whether a body stands for the elements of a tensor of this type. Nested lists have its extents, where
/// `?` is any; one literal stands for all elements where no dimension is 0; and nothing stands where one
/// is 0 or `?`. Only a tensor of `i1` has `true` and `false` for elements. It takes time in the number of
/// literals and dimensions.
#[tactic(auto, using(crate::proofs::Forms::same_form))]
pub fn fits_shape(body: &Body, shape: &Shape) -> bool
    ensures { result ≡ fits_shape body.now shape.now }
{
    form_fits(body, shape.dims.as_slice()) && literals_fit(shape.elem, body.literals.as_slice())
}
