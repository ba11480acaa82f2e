//! Tensors made of sizes and constants, and casts.
ghost use Rattle.std.specs.Prelude.{◌≡◌, ◌∷◌, [], IfOk};
ghost use Rattle.xf_sem.specs.Tensors.{cast_given};
ghost use Rattle.xf_eval_tensors.specs.Sizes.{sizes_in};

use std::alloc::Global;
use xf_eval_values::{Held, fits_tensor};
use xf_type::{Dim, ListOf, NoMemory, PayloadType};

/// A tensor as another type, which it fits.
fn cast_to(wanted: &PayloadType, source: &Held) -> Result<Option<Held>, NoMemory>
    ensures { IfOk result (λ value. value ≡ cast_given (wanted.now ∷ []) (source.now ∷ [])) }
{
    match source.as_tensor() {
        None => Ok(None),
        Some(tensor) => {
            if fits_tensor(tensor.width, tensor.shape.as_slice(), wanted) {
                Ok(Some(source.share()?))
            } else {
                Ok(None)
            }
        }
    }
}

/// A tensor as the type of the one result, which it fits. Refuses for want of memory alone.
pub fn cast(types: &[PayloadType], args: &[Held]) -> Result<Option<Held>, NoMemory>
    ensures { IfOk result (λ value. value ≡ cast_given types.now args.now) }
{
    match types {
        [wanted] => match args {
            [source] => cast_to(wanted, source),
            _ => Ok(None),
        },
        _ => Ok(None),
    }
}

/// The sizes of a type whose dynamic dimensions have these sizes, where there are as many and all are below 2^31.
pub fn sizes_with(
    alloc: Global,
    dims: &[Dim],
    numbers: &[u64],
) -> Result<Option<ListOf<u32>>, NoMemory>
    ensures { IfOk result (λ sizes. sizes ≡ sizes_in dims.now numbers.now) }
{
    let mut sizes = ListOf::new(alloc);
    let mut next = 0;
    for dim in dims {
        let size = match dim {
            Dim::Fixed(extent) => *extent as u64,
            Dim::Dynamic => {
                if next >= numbers.len() {
                    return Ok(None);
                }
                let number = numbers[next];
                next += 1;
                number
            }
        };
        if size >= 0x8000_0000 {
            return Ok(None);
        }
        sizes.push(size as u32)?;
    }
    if next < numbers.len() {
        return Ok(None);
    }
    Ok(Some(sizes))
}
