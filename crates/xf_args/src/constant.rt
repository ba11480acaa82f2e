//! The value of a constant that fits the rules of constants.
ghost use Rattle.std.specs.Prelude.{◌≡◌, ◌∷◌, [], IfOk, Some, true};
ghost use Rattle.xf_ir.specs.Lists.{every};
ghost use Rattle.xf_ir.specs.RuleAttributes.{dense_fits, dim_fits};
ghost use Rattle.xf_ir.specs.declared.kind.Kind.TheVariants as kind_of;
ghost use Rattle.xf_type.specs.declared.payload_type.PayloadType.TheVariants as type_of;
ghost use Rattle.xf_sem.specs.Tensors.{dense_given};
ghost use Rattle.xf_args.specs.Arguments.{argument_of, scalar_argument, tensor_argument};

use std::alloc::{AllocError, Global};
use xf_eval_tensors::dense;
use xf_eval_values::{Held, Stop};
use xf_ir::{Kind, OpName};
use xf_rules::fits_bits;
use xf_rules_shape::{kind_fits, types_in_range};
use xf_type::{Duplicate, Elem, NoMemory, PayloadType, Shape, TypeList, Width};

/// The most elements that a constant has.
const MOST_ELEMENTS: u64 = 1_048_576;

/// A number of a width, where it is one.
fn scalar(width: Width, bits: u128) -> Option<Held>
    ensures { result ≡ scalar_argument width bits }
{
    if fits_bits(width, bits) {
        Some(Held::scalar(width, Elem::Num(bits as u64)))
    } else {
        None
    }
}

/// The type of a tensor of this shape. Refuses for want of memory alone.
fn types_of(alloc: Global, shape: &Shape) -> Result<TypeList, NoMemory>
    ensures { IfOk result (λ types. types ≡ type_of.Tensor shape.now ∷ []) }
{
    let mut types = TypeList::new(alloc);
    types.push(PayloadType::Tensor(shape.duplicate(alloc)?))?;
    Ok(types)
}

/// The tensor of a constant that fits the rules. Refuses for want of memory alone.
#[tactic(auto, using(crate::proofs::DenseLemmas::dense_is))]
fn tensor_of(
    alloc: Global,
    types: &TypeList,
    shape: &Shape,
    numbers: &[u128],
) -> Result<Held, NoMemory>
    requires types { types.now ≡ type_of.Tensor shape.now ∷ [] }
    requires fits { dense_fits shape.now numbers.now ≡ true }
    requires range { every dim_fits shape.now.dims ≡ true }
    ensures { IfOk result (λ value. dense_given shape.now numbers.now ≡ Some value) }
{
    let mut units = MOST_ELEMENTS;
    match dense(
        alloc,
        OpName(0),
        types.as_slice(),
        shape,
        numbers,
        &mut units,
    ) {
        Ok(value) => Ok(value),
        Err(Stop::Undefined(_)) => unreachable!(),
        Err(Stop::Budget) => unreachable!(),
        Err(Stop::NoMemory) => Err(AllocError),
    }
}

/// The tensor of a constant, where that fits the rules. Refuses for want of memory alone.
fn tensor(
    alloc: Global,
    kind: &Kind,
    shape: &Shape,
    numbers: &[u128],
) -> Result<Option<Held>, NoMemory>
    requires { kind.now ≡ kind_of.Dense shape.now numbers.now }
    ensures { IfOk result (λ value. value ≡ tensor_argument shape.now numbers.now) }
{
    let types = types_of(alloc, shape)?;
    if kind_fits(kind) && types_in_range(kind, types.as_slice(), &[]) {
        Ok(Some(tensor_of(alloc, &types, shape, numbers)?))
    } else {
        Ok(None)
    }
}

/// The value of a constant, where that fits the rules. Takes time in the number of its elements, and refuses for want
/// of memory alone.
pub fn argument_of(alloc: Global, kind: &Kind) -> Result<Option<Held>, NoMemory>
    ensures { IfOk result (λ value. value ≡ argument_of kind.now) }
{
    match kind {
        Kind::Constant { width, bits } => Ok(scalar(*width, *bits)),
        Kind::Dense { shape, numbers } => tensor(alloc, kind, shape, numbers.as_slice()),
        _ => Ok(None),
    }
}
