//! Whether values fit types.
ghost use Rattle.std.specs.Prelude.{◌≡◌, map};
ghost use Rattle.xf_sem.specs.Values.{fits_dim, fits_dims, fits_type, fit_types};
ghost use Rattle.xf_sem.specs.declared.value.Value.TheVariants as value_of;
ghost use Rattle.xf_eval_values.specs.Held.{fits_tensor, fits_scalar};

use crate::held::Held;
use xf_type::{Dim, PayloadType, Shape, Width, same_width};

/// Whether a size fits the extent of a dimension.
fn fits_dim(size: u32, dim: Dim) -> bool
    ensures { result ≡ fits_dim size dim }
{
    match dim {
        Dim::Fixed(extent) => size == extent,
        Dim::Dynamic => true,
    }
}

/// Whether sizes fit the dimensions of a type, one for each.
#[tactic(auto, using(crate::proofs::Values::unequal_sizes))]
fn fits_dims(sizes: &[u32], dims: &[Dim]) -> bool
    ensures { result ≡ fits_dims sizes.now dims.now }
{
    if sizes.len() != dims.len() {
        return false;
    }
    for at in 0..sizes.len() {
        if !fits_dim(sizes[at], dims[at]) {
            return false;
        }
    }
    true
}

/// Whether a tensor of this width and these sizes fits a type.
pub fn fits_tensor(width: Width, sizes: &[u32], wanted: &PayloadType) -> bool
    ensures { result ≡ fits_tensor width sizes.now wanted.now }
{
    match wanted {
        PayloadType::Scalar(_) => false,
        PayloadType::Tensor(shape) => {
            same_width(width, shape.elem) && fits_dims(sizes, shape.dims.as_slice())
        }
    }
}

/// Whether a scalar of this width fits a type.
pub fn fits_scalar(width: Width, wanted: &PayloadType) -> bool
    ensures { result ≡ fits_scalar width wanted.now }
{
    match wanted {
        PayloadType::Scalar(own) => same_width(width, *own),
        PayloadType::Tensor(_) => false,
    }
}

/// Whether the values fit these types, one for each.
#[tactic(auto, using(crate::proofs::Values::unequal_types))]
pub fn fit_types(values: &[Held], types: &[PayloadType]) -> bool
    ensures { result ≡ fit_types values.now types.now }
{
    if values.len() != types.len() {
        return false;
    }
    for at in 0..values.len() {
        if !values[at].fits(&types[at]) {
            return false;
        }
    }
    true
}
