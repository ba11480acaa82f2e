//! Tests for what calls need of a tree: that its lists are short, and that its operations are few.
ghost use Rattle.std.specs.Prelude.{◌≡◌, ◌^◌, length, IsTrue, IfSome};
ghost use Rattle.xf_ir.specs.Bounds.{TreeIsShort, regions_length};
ghost use Rattle.xf_ir.specs.Count.{tree_count};
ghost use Rattle.xf_ir.specs.Kinds.{returned_types};
ghost use Rattle.xf_ir.specs.Lists.{every};
ghost use Rattle.xf_ir.specs.View.{regions_of};
ghost use Rattle.xf_tests.specs.Short.{is_few, is_short_text, is_short_attr, has_short_symbol, is_short_block};
ghost use Rattle.xf_tests.specs.Short.{are_short_blocks, has_short_attrs, has_few_values, has_short_regions};
ghost use Rattle.xf_tests.specs.Short.{has_short_kind, has_short_lists, hold_short};

use xf_ir::{Attr, Block, Kind, Op, count};
use xf_type::AttrValue;

/// The first length that has no number of 32 bits.
const TOO_LONG: usize = 4_294_967_296;

fn is_short_text(value: &AttrValue) -> bool
    ensures { result ≡ is_short_text value.now }
{
    match value {
        AttrValue::Unit => true,
        AttrValue::Int { .. } => true,
        AttrValue::Text(bytes) => bytes.len() < TOO_LONG,
    }
}

fn is_short_attr(attr: &Attr) -> bool
    ensures { result ≡ is_short_attr attr.now }
{
    attr.name.len() < TOO_LONG && is_short_text(&attr.value)
}

fn are_short_attrs(attrs: &[Attr]) -> bool
    ensures { result ≡ every is_short_attr attrs.now }
{
    for attr in attrs {
        if !is_short_attr(attr) {
            return false;
        }
    }
    true
}

/// Whether the symbol of a module, a function or a call is short.
fn has_short_symbol(kind: &Kind) -> bool
    ensures { result ≡ has_short_symbol kind.now }
{
    match kind {
        Kind::Module { symbol } => match symbol {
            Some(symbol) => symbol.len() < TOO_LONG,
            None => true,
        },
        Kind::Func { symbol, .. } => symbol.len() < TOO_LONG,
        Kind::Call { callee } => callee.len() < TOO_LONG,
        _ => true,
    }
}

/// Whether a function returns few types.
fn returns_few(kind: &Kind) -> bool
    ensures { result ≡ is_few (length (returned_types kind.now)) }
{
    match kind {
        Kind::Func { results, .. } => results.len() < TOO_LONG,
        _ => true,
    }
}

#[tactic(auto, using(crate::proofs::ShortTrees::as_many_ops))]
fn is_short_block(block: &Block) -> bool
    ensures { result ≡ is_short_block block.now.args block.now.ops }
{
    block.args.len() < TOO_LONG && block.ops.len() < TOO_LONG
}

fn are_short_blocks(blocks: &[Block]) -> bool
    ensures { result ≡ are_short_blocks (regions_of blocks.now) }
{
    for block in blocks {
        if !is_short_block(block) {
            return false;
        }
    }
    true
}

/// Whether an operation has few attributes, with short names and strings.
fn has_short_attrs(op: &Op) -> bool
    ensures { result ≡ has_short_attrs op.now }
{
    op.attrs.len() < TOO_LONG && are_short_attrs(op.attrs.as_slice())
}

/// Whether an operation has few operands and results.
fn has_few_values(op: &Op) -> bool
    ensures { result ≡ has_few_values op.now }
{
    op.operands.as_slice().len() < TOO_LONG && op.results.len() < TOO_LONG
}

/// Whether an operation has few regions.
#[tactic(auto, using(crate::proofs::ShortTrees::as_many_regions))]
fn has_few_regions(op: &Op) -> bool
    ensures { result ≡ is_few (regions_length op.now.regions) }
{
    op.regions.len() < TOO_LONG
}

/// Whether the block of each region has few arguments and operations.
fn has_short_blocks(op: &Op) -> bool
    ensures { result ≡ are_short_blocks op.now.regions }
{
    are_short_blocks(&op.regions)
}

/// Whether an operation has few regions, and few arguments and operations in the block of each.
fn has_short_regions(op: &Op) -> bool
    ensures { result ≡ has_short_regions op.now }
{
    let few = has_few_regions(op);
    let short = has_short_blocks(op);
    few && short
}

/// Whether the symbol of an operation's kind and the types that it returns are few.
fn has_short_kind(kind: &Kind) -> bool
    ensures { result ≡ has_short_kind kind.now }
{
    has_short_symbol(kind) && returns_few(kind)
}

/// Whether an operation's own lists are short.
fn has_short_lists(op: &Op) -> bool
    ensures { result ≡ has_short_lists op.now }
{
    let attrs = has_short_attrs(op);
    let values = has_few_values(op);
    let regions = has_short_regions(op);
    let kind = has_short_kind(&op.kind);
    attrs && (values && (regions && kind))
}

/// Whether the lists of all operations that an operation holds are short.
fn holds_short_lists(op: &Op) -> bool
    ensures { result ≡ hold_short op.now.regions }
{
    for block in &op.regions {
        for inner in &block.ops {
            if !has_short_lists(inner) || !holds_short_lists(inner) {
                return false;
            }
        }
    }
    true
}

/// Whether the lists of an operation and of all that it holds are short.
#[tactic(auto, using(crate::proofs::ShortTrees::tree_is_short))]
pub fn is_short(op: &Op) -> bool
    ensures { IsTrue result → TreeIsShort op.now }
{
    let own = has_short_lists(op);
    let inside = holds_short_lists(op);
    own && inside
}

/// The number of operations of a tree, or `None` where it has no number of 64 bits.
fn number(op: &Op) -> Option<u64>
    ensures { IfSome result (λ n. n ≡ tree_count op.now) }
{
    let mut sum = 1u64;
    for block in &op.regions {
        for inner in &block.ops {
            sum = sum.checked_add(number(inner)?)?;
        }
    }
    Some(sum)
}

/// The count of a tree of fewer than 2^32 operations, or `None` where it has more.
pub fn count_few(op: &Op) -> Option<u64> {
    if number(op)? < 4_294_967_296 {
        Some(count(op))
    } else {
        None
    }
}
