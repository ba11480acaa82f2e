//! An operation where it stands: what a rule looks at.
ghost use Rattle.std.specs.Prelude.{◌≡◌, IfOk};
ghost use Rattle.xf_ir.specs.Lists.{every};
ghost use Rattle.xf_ir.specs.Placed.{holder_of, gives_of, body_gives, top};
ghost use Rattle.xf_ir.specs.Types.{known, last_type, element_of};
ghost use Rattle.xf_rules.specs.OperandTypes.{operand_types};
ghost use Rattle.xf_rules.specs.Given.{gives_seen};
ghost use Rattle.xf_verify.specs.Judged.{holder_seen};

use xf_ir::{Kind, Op};
use xf_rules::Yielded;
use xf_type::{PayloadType, Width};

/// What holds the operations of a block: an operation of a kind, which is given these values at the
/// block's end.
#[derive(Clone, Copy)]
pub struct Holder<'a> {
    pub kind: &'a Kind,
    pub gives: Yielded<'a>,
}

/// An operation where it stands: what holds its block, the types of its operands, and the operations
/// behind it in the block.
#[derive(Clone, Copy)]
pub struct Stand<'a> {
    pub holder: Holder<'a>,
    pub types: &'a [Option<&'a PayloadType>],
    pub op: &'a Op,
    pub after: &'a [Op],
}

/// The width of the elements; a scalar is its own element.
fn element_of(t: &PayloadType) -> Width
    ensures { result ≡ element_of t.now }
{
    match t {
        PayloadType::Scalar(width) => *width,
        PayloadType::Tensor(shape) => shape.elem,
    }
}

/// What a body of linalg gives: one element of the out.
fn element_given<'a>(types: &[Option<&PayloadType>]) -> Yielded<'a>
    ensures { gives_seen result ≡ body_gives (last_type (operand_types types.now)) }
{
    match types.last() {
        Some(out) => match *out {
            Some(out) => Yielded::Element(element_of(out)),
            None => Yielded::Nothing,
        },
        None => Yielded::Nothing,
    }
}

/// What the blocks of an operation give at their ends.
fn gives_of<'a>(op: &'a Op, types: &[Option<&PayloadType>]) -> Yielded<'a>
    ensures { gives_seen result ≡ gives_of op.now.kind (operand_types types.now) op.now.results }
{
    match &op.kind {
        Kind::Func { results, .. } => Yielded::Types(results.as_slice()),
        Kind::For { .. } => Yielded::Types(op.results.as_slice()),
        Kind::If => Yielded::Types(op.results.as_slice()),
        Kind::Generic { .. } => element_given(types),
        _ => Yielded::Nothing,
    }
}

/// An operation as what holds the operations of its blocks.
pub fn holder_of<'a>(op: &'a Op, types: &[Option<&PayloadType>]) -> Holder<'a>
    ensures { holder_seen result ≡ holder_of op.now.kind (operand_types types.now) op.now.results }
{
    Holder {
        kind: &op.kind,
        gives: gives_of(op, types),
    }
}

/// Whether each operand is visible.
pub fn are_known(types: &[Option<&PayloadType>]) -> bool
    ensures { result ≡ every known (operand_types types.now) }
{
    for found in types {
        if found.is_none() {
            return false;
        }
    }
    true
}
