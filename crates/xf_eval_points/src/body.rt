//! What the operations of linalg that have a name do at a point.
ghost use Rattle.std.specs.Prelude.{◌≡◌, length};
ghost use Rattle.xf_type.specs.Integers.{FitsWidth, binary, combined};
ghost use Rattle.xf_type.specs.declared.kind.BinKind.TheVariants.{Muli};
ghost use Rattle.xf_type.specs.declared.kind.Combiner.TheVariants.{Addi};
ghost use Rattle.xf_points.specs.Operands.{reads, step_of};
ghost use Rattle.xf_eval_points.specs.Bodies.{fills};
ghost use Rattle.xf_sem.specs.Structured.{body_of, fill_body, operands, product_body};

use crate::place::read;
use xf_eval_values::Held;
use xf_ir::NamedKind;
use xf_type::{Elem, PlaceList, Width, greatest};

/// The sum of an element and the product of two others, in a width.
fn add_product(width: Width, left: Elem, right: Elem, sum: Elem) -> Elem
    ensures value { result ≡ combined Addi width sum (binary Muli width left right) }
    ensures fits { FitsWidth width result }
{
    match (left, right, sum) {
        (Elem::Num(left), Elem::Num(right), Elem::Num(sum)) => {
            Elem::Num(sum.wrapping_add(left.wrapping_mul(right)) & greatest(width))
        }
        _ => Elem::NoNumber,
    }
}

/// The one element that a fill reads.
fn filled(maps: &[PlaceList], ins: &[Held], point: &[u32], elem: Elem) -> Elem
    requires { length maps.now ≡ length ins.now }
    ensures { result ≡ fill_body point.now (reads (operands maps.now ins.now) point.now) elem }
{
    if ins.len() != 1 {
        return Elem::NoNumber;
    }
    read(&ins[0], maps[0].as_slice(), point)
}

/// The element of the out and the product of the two elements that a product reads.
fn multiplied(width: Width, maps: &[PlaceList], ins: &[Held], point: &[u32], elem: Elem) -> Elem
    requires { length maps.now ≡ length ins.now }
    ensures value { result ≡ product_body width point.now (reads (operands maps.now ins.now) point.now) elem }
    ensures fits { FitsWidth width result }
{
    if ins.len() != 2 {
        return Elem::NoNumber;
    }
    let left = read(&ins[0], maps[0].as_slice(), point);
    let right = read(&ins[1], maps[1].as_slice(), point);
    add_product(width, left, right, elem)
}

/// Whether an operation with a name fills its out.
pub fn fills(kind: NamedKind) -> bool
    ensures { result ≡ fills kind }
{
    match kind {
        NamedKind::Fill => true,
        _ => false,
    }
}

/// What an operation with a name makes of the element of its out at a point, from those that it reads.
pub fn body_at(
    kind: NamedKind,
    width: Width,
    maps: &[PlaceList],
    ins: &[Held],
    point: &[u32],
    elem: Elem,
) -> Elem
    requires { length maps.now ≡ length ins.now }
    ensures { result ≡ step_of (body_of kind width) (operands maps.now ins.now) point.now elem }
{
    match kind {
        NamedKind::Fill => filled(maps, ins, point, elem),
        _ => multiplied(width, maps, ins, point, elem),
    }
}
