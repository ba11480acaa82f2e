//! The operations of linalg that have a name.
ghost use Rattle.std.specs.Prelude.{◌≡◌, Some, length, true};
ghost use Rattle.xf_type.specs.Integers.{FitsWidth};
ghost use Rattle.xf_ir.specs.Lists.{Each};
ghost use Rattle.xf_ir.specs.declared.kind.Kind.TheVariants.{Named};
ghost use Rattle.xf_points.specs.Points.{at, product};
ghost use Rattle.xf_sem.specs.Structured.{named_given, out_of, points_of};
ghost use Rattle.xf_sem.specs.Tensors.{width_of};
ghost use Rattle.xf_sem.specs.Values.{IsValue};
ghost use Rattle.xf_eval_values.specs.Given.{given_run, listed_one};
ghost use Rattle.xf_eval_values.specs.Held.{as_value, tensor_of};
ghost use Rattle.xf_eval_values.specs.Meets.{Meets};
ghost use Rattle.xf_eval_tensors.specs.Named.{KeepsWidth, made_over};

use std::alloc::Global;
use xf_eval_points::{
    agreed_extents, dims_of_named, in_maps, ins_of, named_elems, out_map, out_tensor, rank_of_named,
};
use xf_eval_values::{Held, Stop, Tensor, admit_made, admit_points};
use xf_ir::{NamedKind, OpName};
use xf_type::{ListOf, PayloadType, PlaceList, Width, same_width};

/// Whether there is one value, of this width.
fn is_one_of(width: Width, values: &[Held]) -> bool
    ensures { result ≡ true → Each (λ v. IsValue v × (width_of v ≡ width)) values.now }
{
    match values {
        [only] => {
            only.is_value();
            same_width(only.width(), width)
        }
        _ => false,
    }
}

/// Whether all that an operation makes is of the width of its out, as far as the widths of its operands tell.
fn keeps_width(which: NamedKind, width: Width, ins: &[Held]) -> bool
    ensures { result ≡ true → KeepsWidth which width ins.now }
{
    match which {
        NamedKind::Fill => is_one_of(width, ins),
        _ => true,
    }
}

/// The tensor that is made over an out. Its units and those of its points are taken before an element is made.
fn admitted(
    alloc: Global,
    op: OpName,
    types: &[PayloadType],
    which: NamedKind,
    maps: &[PlaceList],
    ins: &[Held],
    extents: &[u32],
    out_map: &[u32],
    out: &Tensor,
    budget: &mut u64,
) -> Result<Held, Stop>
    requires same { length maps.now ≡ length ins.now }
    requires out { out.now.shape ≡ at out_map.now extents.now }
    requires is_value { IsValue (as_value out.now) }
    requires width { KeepsWidth which out.now.width ins.now }
    ensures { Meets (given_run op types.now (product extents.now)
        (Some (made_over which extents.now maps.now ins.now out_map.now out.now)))
        budget.old budget.new (listed_one result) }
{
    match admit_points(op, types, out.width, out.shape.as_slice(), extents, budget) {
        Err(stop) => Err(stop),
        Ok(_) => {
            let elems = named_elems(alloc, which, maps, ins, extents, out_map, out)?;
            let shape = ListOf::from_slice(alloc, out.shape.as_slice())?;
            Ok(Held::tensor(
                alloc,
                Tensor {
                    width: out.width,
                    shape,
                    elems,
                },
            )?)
        }
    }
}

/// The tensor that is made over an out, where its elements are of its width. No valid module has a fill of another
/// width, for which alone elements are made before their units are taken.
fn tested(
    alloc: Global,
    op: OpName,
    types: &[PayloadType],
    which: NamedKind,
    maps: &[PlaceList],
    ins: &[Held],
    extents: &[u32],
    out_map: &[u32],
    out: &Tensor,
    budget: &mut u64,
) -> Result<Held, Stop>
    requires same { length maps.now ≡ length ins.now }
    requires out { out.now.shape ≡ at out_map.now extents.now }
    requires is_value { IsValue (as_value out.now) }
    ensures { Meets (given_run op types.now (product extents.now)
        (Some (made_over which extents.now maps.now ins.now out_map.now out.now)))
        budget.old budget.new (listed_one result) }
{
    let elems = named_elems(alloc, which, maps, ins, extents, out_map, out)?;
    let shape = ListOf::from_slice(alloc, out.shape.as_slice())?;
    let made = Tensor {
        width: out.width,
        shape,
        elems,
    };
    admit_made(alloc, op, types, made, extents, budget)
}

/// The tensor that is made over an out.
fn over(
    alloc: Global,
    op: OpName,
    types: &[PayloadType],
    which: NamedKind,
    maps: &[PlaceList],
    ins: &[Held],
    extents: &[u32],
    out_map: &[u32],
    out: &Tensor,
    budget: &mut u64,
) -> Result<Held, Stop>
    requires same { length maps.now ≡ length ins.now }
    requires out { out.now.shape ≡ at out_map.now extents.now }
    requires is_value { IsValue (as_value out.now) }
    ensures { Meets (given_run op types.now (product extents.now)
        (Some (made_over which extents.now maps.now ins.now out_map.now out.now)))
        budget.old budget.new (listed_one result) }
{
    if keeps_width(which, out.width, ins) {
        admitted(
            alloc, op, types, which, maps, ins, extents, out_map, out, budget,
        )
    } else {
        tested(
            alloc, op, types, which, maps, ins, extents, out_map, out, budget,
        )
    }
}

/// What an operation with a name gives over an out.
fn named_onto(
    alloc: Global,
    op: OpName,
    types: &[PayloadType],
    which: NamedKind,
    args: &[Held],
    out: &Tensor,
    budget: &mut u64,
) -> Result<Held, Stop>
    requires out { Some out.now ≡ tensor_of (out_of args.now) }
    requires is_value { IsValue (as_value out.now) }
    ensures { Meets (given_run op types.now (points_of (Named which) args.now) (named_given which args.now))
        budget.old budget.new (listed_one result) }
{
    let rank = out.shape.len();
    let maps = dims_of_named(alloc, which, rank)?;
    match agreed_extents(alloc, rank_of_named(which, rank), maps.as_slice(), args)? {
        None => Err(Stop::Undefined(op)),
        Some(extents) => {
            let ins = ins_of(args);
            let reads = in_maps(maps.as_slice());
            let writes = out_map(maps.as_slice());
            over(
                alloc,
                op,
                types,
                which,
                reads,
                ins,
                extents.as_slice(),
                writes,
                out,
                budget,
            )
        }
    }
}

/// What an operation with a name gives. Units of its points and its elements are taken from the budget.
pub fn named(
    alloc: Global,
    op: OpName,
    types: &[PayloadType],
    which: NamedKind,
    args: &[Held],
    budget: &mut u64,
) -> Result<Held, Stop>
    ensures { Meets (given_run op types.now (points_of (Named which) args.now) (named_given which args.now))
        budget.old budget.new (listed_one result) }
{
    match out_tensor(args) {
        None => Err(Stop::Undefined(op)),
        Some(out) => named_onto(alloc, op, types, which, args, out, budget),
    }
}
