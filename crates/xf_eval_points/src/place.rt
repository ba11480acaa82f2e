//! Elements of tensors at indices.
ghost use Rattle.std.specs.Prelude.{◌≡◌, ◌^◌, ◌-◌, map, min, get_or};
ghost use Rattle.xf_points.specs.Points.{at, element, place};
ghost use Rattle.xf_type.specs.Integers.{FitsWidth};
ghost use Rattle.xf_sem.specs.Tensors.{items_of, width_of};
ghost use Rattle.xf_type.specs.declared.payload_type.Elem.TheVariants.{NoNumber};

use xf_eval_values::Held;
use xf_type::Elem;

/// The number of an index at a dimension; 0 where there is none.
fn number_at(index: &[u32], dim: usize) -> u32
    ensures { result ≡ get_or index.now dim 0 }
{
    match index.get(dim) {
        None => 0,
        Some(number) => *number,
    }
}

/// The number of a point at the place that a map selects; 0 where there is none.
pub fn select(map: &[u32], at: usize, point: &[u32]) -> u32
    ensures { result ≡ get_or (Rattle.xf_points.specs.Points.at map.now point.now) at 0 }
{
    match map.get(at) {
        None => 0,
        Some(dim) => number_at(point, *dim as usize),
    }
}

/// The number of an index among those of a tensor of these sizes, or the greatest number where it is not less: the
/// index that a map selects of a point.
fn place_at(sizes: &[u32], map: &[u32], point: &[u32]) -> u64
    ensures { result ≡ min (place sizes.now (at map.now point.now)) (2 ^ 64 - 1) }
{
    let mut place: u64 = 0;
    for dim in 0..sizes.len() {
        place = place
            .saturating_mul(sizes[dim] as u64)
            .saturating_add(select(map, dim, point) as u64);
    }
    place
}

/// The number of an index among those of a tensor of these sizes, or the greatest number where it is not less.
pub fn place_of(sizes: &[u32], index: &[u32]) -> u64
    ensures { result ≡ min (place sizes.now index.now) (2 ^ 64 - 1) }
{
    let mut place: u64 = 0;
    for dim in 0..sizes.len() {
        place = place
            .saturating_mul(sizes[dim] as u64)
            .saturating_add(number_at(index, dim) as u64);
    }
    place
}

/// The element of a tensor of these sizes and elements at an index; no number where it has none.
pub fn element_of(sizes: &[u32], elems: &[Elem], index: &[u32]) -> Elem
    ensures { result ≡ element NoNumber sizes.now elems.now index.now }
{
    match elems.get(place_of(sizes, index) as usize) {
        None => Elem::NoNumber,
        Some(elem) => *elem,
    }
}

/// The element of an operand at the index that a map selects of a point.
pub fn read(arg: &Held, map: &[u32], point: &[u32]) -> Elem
    ensures value { result ≡ items_of arg.now (at map.now point.now) }
    ensures fits { FitsWidth (width_of arg.now) result }
{
    match arg.as_scalar() {
        Some(elem) => elem,
        None => match arg.as_tensor() {
            Some(tensor) => element_at(
                tensor.shape.as_slice(),
                tensor.elems.as_slice(),
                map,
                point,
            ),
            None => Elem::NoNumber,
        },
    }
}

/// The element of a tensor of these sizes and elements at the index that a map selects of a point; no number where it
/// has none.
pub fn element_at(sizes: &[u32], elems: &[Elem], map: &[u32], point: &[u32]) -> Elem
    ensures { result ≡ element NoNumber sizes.now elems.now (at map.now point.now) }
{
    match elems.get(place_at(sizes, map, point) as usize) {
        None => Elem::NoNumber,
        Some(elem) => *elem,
    }
}
