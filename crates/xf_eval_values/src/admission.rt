//! What is asked before a tensor is made: that it fits, and that the budget has its units.
ghost use Rattle.std.specs.Prelude.{◌≡◌, ◌+◌, ◌≤◌, ◌<◌, ◌^◌, MatchOption, Some, length, nat_lt, nat_le, true};
ghost use Rattle.xf_ir.specs.Lists.{Each, every};
ghost use Rattle.xf_points.specs.Points.{product};
ghost use Rattle.xf_eval_values.specs.Given.{fits_one, given_run, listed_one, IsAdmitted};
ghost use Rattle.xf_eval_values.specs.Sizes.{has_zero};
ghost use Rattle.xf_eval_values.specs.Held.{as_value, elements_of};
ghost use Rattle.xf_sem.specs.Values.{fits_width};
ghost use Rattle.xf_eval_values.specs.Meets.{Meets};
ghost use Rattle.xf_sem.specs.Meaning.{charge, elements, finish, where_fit};

use crate::fits::{fit_types, fits_tensor};
use crate::held::{Held, HeldList, Tensor};
use crate::stop::{Stop, charge};
use std::alloc::Global;
use xf_ir::OpName;
use xf_type::{Elem, PayloadType, Width, greatest};

/// Whether one of the sizes is 0.
fn has_zero(sizes: &[u32]) -> bool
    ensures { result ≡ has_zero sizes.now }
{
    for size in sizes {
        if *size == 0 {
            return true;
        }
    }
    false
}

/// The product of sizes, where it is at most a limit.
pub fn product_within(sizes: &[u32], limit: u64) -> Option<u64>
    ensures { MatchOption result (limit < product sizes.now) (λ n. (n ≡ product sizes.now) × (n ≤ limit)) }
{
    if has_zero(sizes) {
        return Some(0);
    }
    let mut count: u64 = 1;
    for size in sizes {
        let next = count as u128 * *size as u128;
        if next > limit as u128 {
            return None;
        }
        count = next as u64;
    }
    if count > limit { None } else { Some(count) }
}

/// Whether all sizes are below 2^31.
pub fn are_sizes(sizes: &[u32]) -> bool
    ensures { result ≡ every (λ size. nat_lt size (2 ^ 31)) sizes.now }
{
    for size in sizes {
        if *size >= 0x8000_0000 {
            return false;
        }
    }
    true
}

/// Whether a tensor of this width and these sizes may be the one result of these types.
fn fits_one(width: Width, sizes: &[u32], types: &[PayloadType]) -> bool
    ensures { result ≡ fits_one width sizes.now types.now }
{
    match types {
        [wanted] => are_sizes(sizes) && fits_tensor(width, sizes, wanted),
        _ => false,
    }
}

/// Takes the units of a tensor that an operation is to give, and of so many points, from the budget, and tells how many
/// elements it has. Refuses where the tensor does not fit the type of the one result, and where the budget has less.
pub fn admit(
    op: OpName,
    types: &[PayloadType],
    width: Width,
    sizes: &[u32],
    points: u64,
    budget: &mut u64,
) -> Result<u64, Stop>
    ensures { IsAdmitted op types.now width sizes.now points budget.old budget.new result }
{
    if !fits_one(width, sizes, types) {
        return Err(Stop::Undefined(op));
    }
    if !charge(budget, points) {
        return Err(Stop::Budget);
    }
    match product_within(sizes, *budget) {
        None => Err(Stop::Budget),
        Some(count) => {
            *budget -= count;
            Ok(count)
        }
    }
}

/// Takes the units of a tensor that a structured operation is to give, and of its points, from the budget, by the extents
/// of its dimensions, and tells how many elements the tensor has. Refuses as `admit` does.
pub fn admit_points(
    op: OpName,
    types: &[PayloadType],
    width: Width,
    sizes: &[u32],
    extents: &[u32],
    budget: &mut u64,
) -> Result<u64, Stop>
    ensures { IsAdmitted op types.now width sizes.now (product extents.now) budget.old budget.new result }
{
    if !fits_one(width, sizes, types) {
        return Err(Stop::Undefined(op));
    }
    match product_within(extents, *budget) {
        None => Err(Stop::Budget),
        Some(points) => admit(op, types, width, sizes, points, budget),
    }
}

/// Takes as many units as a value has elements from the budget; none where there are fewer.
fn charge_elements(value: &Held, budget: &mut u64) -> bool
    ensures taken { result ≡ nat_le (elements_of value.now) budget.old }
    ensures left { result ≡ true → budget.old ≡ elements_of value.now + budget.new }
{
    match value.as_tensor() {
        None => true,
        Some(tensor) => charge(budget, tensor.elems.len() as u64),
    }
}

/// Takes as many units as values have elements from the budget, where it has so many.
fn charge_all(values: &[Held], budget: &mut u64) -> bool
    ensures taken { result ≡ nat_le (elements values.now) budget.old }
    ensures left { result ≡ true → budget.old ≡ elements values.now + budget.new }
{
    for value in values {
        if !charge_elements(value, budget) {
            return false;
        }
    }
    true
}

/// The values that an operation gives, with their units and those of so many points taken from the budget. Refuses where
/// they do not fit its types, and where the budget has less.
pub fn admit_values(
    op: OpName,
    types: &[PayloadType],
    points: u64,
    values: HeldList,
    budget: &mut u64,
) -> Result<HeldList, Stop>
    ensures { Meets (where_fit op types.now values (charge (points + elements values) (finish values)))
        budget.old budget.new result }
{
    if !fit_types(values.as_slice(), types) {
        return Err(Stop::Undefined(op));
    }
    if charge(budget, points) && charge_all(values.as_slice(), budget) {
        Ok(values)
    } else {
        Err(Stop::Budget)
    }
}

/// Whether an element is one of a width.
pub fn fits_width(width: Width, elem: Elem) -> bool
    ensures { result ≡ fits_width width elem }
{
    match elem {
        Elem::Num(number) => number <= greatest(width),
        Elem::NoNumber => true,
    }
}

/// Whether all elements are of a width.
fn all_fit(width: Width, elems: &[Elem]) -> bool
    ensures { result ≡ every (fits_width width) elems.now }
{
    for elem in elems {
        if !fits_width(width, *elem) {
            return false;
        }
    }
    true
}

/// The tensor that a structured operation gives, where its elements are of its width and it fits the type of the one
/// result, its units and those of its points taken from the budget.
pub fn admit_made(
    alloc: Global,
    op: OpName,
    types: &[PayloadType],
    made: Tensor,
    extents: &[u32],
    budget: &mut u64,
) -> Result<Held, Stop>
    requires sizes { Each (λ size. size < 2 ^ 31) made.shape }
    requires elems { length made.elems ≡ product made.shape }
    ensures { Meets (given_run op types.now (product extents.now) (Some (as_value made)))
        budget.old budget.new (listed_one result) }
{
    if !all_fit(made.width, made.elems.as_slice()) {
        return Err(Stop::Undefined(op));
    }
    match admit_points(
        op,
        types,
        made.width,
        made.shape.as_slice(),
        extents,
        budget,
    ) {
        Err(stop) => Err(stop),
        Ok(_) => Ok(Held::tensor(alloc, made)?),
    }
}
