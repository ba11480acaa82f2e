//! The modules that a run takes: one function over i32, of constants, additions and a return.
ghost use Rattle.std.specs.Prelude.{◌≡◌, ◌&&◌, not};
ghost use Rattle.xf_ir.specs.Lists.{every};
ghost use Rattle.xf_ir.specs.View.{ops_of, regions_of};
ghost use Rattle.xf_opt.specs.Form.{is_i32_width, is_i32, is_i32_at_most, is_one_i32, is_addition, is_step_kind};
ghost use Rattle.xf_opt.specs.Form.{is_step, are_steps, is_plain_block, is_one_block, is_plain_head, is_plain_function};
ghost use Rattle.xf_opt.specs.Form.{is_one_function, holds_one_function, is_plain_module, is_first_form};

use xf_ir::{Block, Kind, Module, Op};
use xf_type::{BinKind, PayloadType, Width};

fn is_i32_width(width: Width) -> bool
    ensures { result ≡ is_i32_width width }
{
    match width {
        Width::I32 => true,
        _ => false,
    }
}

fn is_i32(ty: &PayloadType) -> bool
    ensures { result ≡ is_i32 ty.now }
{
    match ty {
        PayloadType::Scalar(width) => is_i32_width(*width),
        PayloadType::Tensor(_) => false,
    }
}

fn are_i32(types: &[PayloadType]) -> bool
    ensures { result ≡ every is_i32 types.now }
{
    for ty in types {
        if !is_i32(ty) {
            return false;
        }
    }
    true
}

/// Whether there is one type alone, i32.
fn is_one_i32(types: &[PayloadType]) -> bool
    ensures { result ≡ is_one_i32 types.now }
{
    match types {
        [] => false,
        [first, rest @ ..] => is_i32(first) && rest.is_empty(),
    }
}

/// Whether there is one type at most, i32.
fn is_i32_at_most(types: &[PayloadType]) -> bool
    ensures { result ≡ is_i32_at_most types.now }
{
    match types {
        [] => true,
        [first, rest @ ..] => is_i32(first) && rest.is_empty(),
    }
}

fn is_addition(kind: BinKind) -> bool
    ensures { result ≡ is_addition kind }
{
    match kind {
        BinKind::Addi => true,
        _ => false,
    }
}

/// Whether it is a return, a constant or an addition.
fn is_step_kind(kind: &Kind) -> bool
    ensures { result ≡ is_step_kind kind.now }
{
    match kind {
        Kind::Return => true,
        Kind::Constant { width, .. } => is_i32_width(*width),
        Kind::Binary { kind, width } => is_addition(*kind) && is_i32_width(*width),
        _ => false,
    }
}

/// Whether an operation may stand in the function.
#[tactic(auto, using(crate::proofs::FormLists::no_blocks))]
fn is_step(op: &Op) -> bool
    ensures { result ≡ is_step op.now.kind op.now.attrs op.now.results op.now.regions }
{
    is_step_kind(&op.kind)
        && (op.attrs.as_slice().is_empty()
            && (is_i32_at_most(op.results.as_slice()) && op.regions.is_empty()))
}

fn are_steps(ops: &[Op]) -> bool
    ensures { result ≡ are_steps (ops_of ops.now) }
{
    for op in ops {
        if !is_step(op) {
            return false;
        }
    }
    true
}

/// Whether it is the block of such a function.
fn is_plain_block(block: &Block) -> bool
    ensures { result ≡ is_plain_block block.now.args block.now.ops }
{
    are_i32(block.args.as_slice()) && are_steps(&block.ops)
}

#[tactic(auto, using(crate::proofs::FormLists::no_blocks))]
fn is_one_block(regions: &[Block]) -> bool
    ensures { result ≡ is_one_block (regions_of regions.now) }
{
    match regions {
        [] => false,
        [first, rest @ ..] => is_plain_block(first) && rest.is_empty(),
    }
}

/// Whether it is a function that has a body and gives one value.
fn is_plain_head(kind: &Kind) -> bool
    ensures { result ≡ is_plain_head kind.now }
{
    match kind {
        Kind::Func {
            private,
            results,
            ..
        } => !*private && is_one_i32(results.as_slice()),
        _ => false,
    }
}

fn is_plain_function(op: &Op) -> bool
    ensures { result ≡ is_plain_function op.now.kind op.now.attrs op.now.regions }
{
    is_plain_head(&op.kind) && (op.attrs.as_slice().is_empty() && is_one_block(&op.regions))
}

#[tactic(auto, using(crate::proofs::FormLists::no_operations))]
fn is_one_function(ops: &[Op]) -> bool
    ensures { result ≡ is_one_function (ops_of ops.now) }
{
    match ops {
        [] => false,
        [first, rest @ ..] => is_plain_function(first) && rest.is_empty(),
    }
}

#[tactic(auto, using(crate::proofs::FormLists::no_blocks))]
fn holds_one_function(regions: &[Block]) -> bool
    ensures { result ≡ holds_one_function (regions_of regions.now) }
{
    match regions {
        [] => false,
        [first, rest @ ..] => {
            (first.args.as_slice().is_empty() && is_one_function(&first.ops)) && rest.is_empty()
        }
    }
}

fn is_plain_module(kind: &Kind) -> bool
    ensures { result ≡ is_plain_module kind.now }
{
    match kind {
        Kind::Module { symbol } => symbol.is_none(),
        _ => false,
    }
}

/// Whether a module is of the form that a run takes: a module without a symbol, with one function
/// over i32 alone, of constants, additions and a return, and without attributes.
///
/// Takes time in the number of operations and arguments of the function.
pub fn is_first_form(m: &Module) -> bool
    ensures { result ≡ is_first_form m.now }
{
    is_plain_module(&m.root.kind)
        && (m.root.attrs.as_slice().is_empty() && holds_one_function(&m.root.regions))
}
