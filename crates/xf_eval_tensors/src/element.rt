//! Sizes and elements of tensors.
ghost use Rattle.std.specs.Prelude.{◌≡◌, ◌∷◌, IfOk};
ghost use Rattle.xf_sem.specs.Tensors.{dim_given, extracted};

use crate::index::{index_in, index_of};
use std::alloc::Global;
use xf_eval_points::element_of;
use xf_eval_values::Held;
use xf_type::{Elem, NoMemory, Width};

/// The size of a dimension of a tensor, where it has that dimension.
pub fn dim(args: &[Held]) -> Option<Held>
    ensures { result ≡ dim_given args.now }
{
    match args {
        [source, number] => {
            let source = source.as_tensor()?;
            let number = index_of(number)?;
            match source.shape.get(number as usize) {
                None => None,
                Some(size) => Some(Held::scalar(Width::Index, Elem::Num(*size as u64))),
            }
        }
        _ => None,
    }
}

/// The element of a tensor at an index, where the index lies in it.
fn extract_at(alloc: Global, source: &Held, index: &[Held]) -> Result<Option<Held>, NoMemory>
    ensures { IfOk result (λ value. value ≡ extracted (source.now ∷ index.now)) }
{
    let Some(source) = source.as_tensor() else {
        return Ok(None);
    };
    match index_in(alloc, source.shape.as_slice(), index)? {
        None => Ok(None),
        Some(index) => {
            let elem = element_of(
                source.shape.as_slice(),
                source.elems.as_slice(),
                index.as_slice(),
            );
            Ok(Some(Held::scalar(source.width, elem)))
        }
    }
}

/// The element of a tensor at an index, where the index lies in it. Refuses for want of memory alone.
pub fn extract(alloc: Global, args: &[Held]) -> Result<Option<Held>, NoMemory>
    ensures { IfOk result (λ value. value ≡ extracted args.now) }
{
    match args {
        [] => Ok(None),
        [source, index @ ..] => extract_at(alloc, source, index),
    }
}
