//! The numbers of indices.
ghost use Rattle.std.specs.Prelude.{◌≡◌, IfOk};
ghost use Rattle.xf_sem.specs.Tensors.{index_of, indices_of};
ghost use Rattle.xf_eval_tensors.specs.Indices.{point_in};

use std::alloc::Global;
use xf_eval_values::Held;
use xf_type::{Elem, ListOf, NoMemory, Width};

/// The number of an index; none where it is no number.
pub fn index_of(value: &Held) -> Option<u64>
    ensures { result ≡ index_of value.now }
{
    match value.elem(Width::Index) {
        Some(Elem::Num(number)) => Some(number),
        Some(Elem::NoNumber) => None,
        None => None,
    }
}

/// The numbers of indices, where each has one. Refuses for want of memory alone.
pub fn indices(alloc: Global, args: &[Held]) -> Result<Option<ListOf<u64>>, NoMemory>
    ensures { IfOk result (λ numbers. numbers ≡ indices_of args.now) }
{
    let mut numbers = ListOf::new(alloc);
    for arg in args {
        match index_of(arg) {
            None => return Ok(None),
            Some(number) => numbers.push(number)?,
        }
    }
    Ok(Some(numbers))
}

/// The index that values are, where it lies in a tensor of these sizes. Refuses for want of memory alone.
pub fn index_in(
    alloc: Global,
    sizes: &[u32],
    args: &[Held],
) -> Result<Option<ListOf<u32>>, NoMemory>
    ensures { IfOk result (λ index. index ≡ point_in sizes.now args.now) }
{
    if sizes.len() != args.len() {
        return Ok(None);
    }
    let mut index = ListOf::new(alloc);
    for at in 0..sizes.len() {
        let number = match index_of(&args[at]) {
            None => return Ok(None),
            Some(number) => number,
        };
        if number >= sizes[at] as u64 {
            return Ok(None);
        }
        index.push(number as u32)?;
    }
    Ok(Some(index))
}
