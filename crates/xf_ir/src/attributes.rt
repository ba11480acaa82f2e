//! Attributes by name, and changes of one.
ghost use Rattle.std.specs.Prelude.{◌≡◌, ◌≤◌, length, IfOk, OnOk, IsNone};
ghost use Rattle.std.specs.Option.{option_copied};
ghost use Rattle.xf_ir.specs.Attributes.{bytes_before, attr_of, without_attr, placed, attr_set, attr_at, names_before};
ghost use Rattle.xf_ir.specs.Changes.{tree_attributed, body_attributed};
ghost use Rattle.xf_ir.specs.Lists.{same_bytes};
ghost use Rattle.xf_ir.specs.Walk.{tree_find};

use crate::kind::{Attr, AttrList};
use crate::name::OpName;
use crate::op::{Block, Module, Op};
use crate::values::ValueList;
use std::alloc::Global;
use xf_type::{AttrValue, ByteList, Duplicate, ListOf, NoMemory};

/// Whether a name has the same bytes as another.
#[tactic(auto, using(crate::proofs::AttributeLemmas::same_by_pairs))]
fn is_same(left: &[u8], right: &[u8]) -> bool
    ensures { result ≡ same_bytes left.now right.now }
{
    left == right
}

/// Whether a name comes before another in the order of bytes.
#[tactic(auto, using(crate::proofs::AttributeLemmas::before_by_pairs))]
fn comes_before(left: &[u8], right: &[u8]) -> bool
    ensures { result ≡ bytes_before left.now right.now }
{
    left < right
}

/// The value of the first attribute of a name, or `None` where there is none.
pub(crate) fn value_of<'a>(attrs: &'a [Attr], key: &[u8]) -> Option<&'a AttrValue>
    ensures { option_copied result ≡ attr_of key.now attrs.now }
{
    for attr in attrs {
        if is_same(attr.name.as_slice(), key) {
            return Some(&attr.value);
        }
    }
    None
}

/// A copy of the attributes without those of a name.
fn without(alloc: Global, attrs: &[Attr], key: &[u8]) -> Result<AttrList, NoMemory>
    ensures { IfOk result (λ left. left ≡ without_attr key.now attrs.now) }
{
    let mut left = ListOf::new(alloc);
    for attr in attrs {
        if !is_same(attr.name.as_slice(), key) {
            left.push(attr.duplicate(alloc)?)?;
        }
    }
    Ok(left)
}

/// How many attributes at the front have names that come before a name.
fn names_before(attrs: &[Attr], key: &[u8]) -> usize
    ensures { result ≡ names_before key.now attrs.now }
{
    for at in 0..attrs.len() {
        let attr = &attrs[at];
        if !comes_before(attr.name.as_slice(), key) {
            return at;
        }
    }
    attrs.len()
}

/// Puts an attribute at its place.
#[tactic(auto, using(crate::proofs::AttributeLemmas::names_within))]
fn place(attrs: &mut AttrList, attr: Attr) -> Result<(), NoMemory>
    ensures { OnOk result (attrs.new ≡ placed attr attrs.old) }
{
    let at = names_before(attrs.as_slice(), attr.name.as_slice());
    attrs.insert(at, attr)
}

/// A copy of the attributes with that value at a name, or without the name.
fn with_value(
    alloc: Global,
    attrs: &[Attr],
    key: &ByteList,
    value: &Option<AttrValue>,
) -> Result<AttrList, NoMemory>
    ensures { IfOk result (λ changed. changed ≡ attr_set key.now value.now attrs.now) }
{
    let mut changed = without(alloc, attrs, key.as_slice())?;
    if let Some(value) = value {
        let attr = Attr {
            name: key.duplicate(alloc)?,
            value: value.duplicate(alloc)?,
        };
        place(&mut changed, attr)?;
    }
    Ok(changed)
}

/// The attributes of an operation after the change of those of the operations of a name.
fn changed_attrs(
    alloc: Global,
    op: &Op,
    name: OpName,
    key: &ByteList,
    value: &Option<AttrValue>,
) -> Result<AttrList, NoMemory>
    ensures { IfOk result (λ changed. changed ≡ (tree_attributed name (attr_set key.now value.now) op.now).attrs) }
{
    if op.name == name {
        with_value(alloc, op.attrs.as_slice(), key, value)
    } else {
        op.attrs.duplicate(alloc)
    }
}

/// A copy of the operation with an attribute changed in the operations of a name, itself and what it holds.
///
/// Refuses for want of memory alone.
#[cycle(attributes)]
pub(crate) fn with_attr(
    alloc: Global,
    op: &Op,
    name: OpName,
    key: &ByteList,
    value: &Option<AttrValue>,
) -> Result<Op, NoMemory>
    ensures { IfOk result (λ o. o ≡ tree_attributed name (attr_set key.now value.now) op.now) }
{
    let mut regions = Vec::new(alloc);
    for block in &op.regions {
        regions.push(block_with_attr(alloc, block, name, key, value)?)?;
    }
    Ok(Op {
        name: op.name,
        kind: op.kind.duplicate(alloc)?,
        attrs: changed_attrs(alloc, op, name, key, value)?,
        operands: ValueList::from_slice(alloc, op.operands.as_slice())?,
        results: op.results.duplicate(alloc)?,
        regions,
    })
}

/// A copy of the block with an attribute changed in the operations of a name.
#[cycle(attributes)]
fn block_with_attr(
    alloc: Global,
    block: &Block,
    name: OpName,
    key: &ByteList,
    value: &Option<AttrValue>,
) -> Result<Block, NoMemory>
    ensures { IfOk result (λ b. b ≡ body_attributed name (attr_set key.now value.now) block.now) }
{
    let mut ops = Vec::new(alloc);
    for op in &block.ops {
        ops.push(with_attr(alloc, op, name, key, value)?)?;
    }
    Ok(Block {
        args: block.args.duplicate(alloc)?,
        ops,
    })
}

/// A copy of an optional value.
pub(crate) fn copy_value(
    alloc: Global,
    value: &Option<AttrValue>,
) -> Result<Option<AttrValue>, NoMemory>
    ensures { IfOk result (λ copy. copy ≡ value.now) }
{
    match value {
        None => Ok(None),
        Some(value) => Ok(Some(value.duplicate(alloc)?)),
    }
}

/// A copy of the value of an operation's attribute of that name, or `None` where there is no operation or no attribute.
pub(crate) fn old_value(
    alloc: Global,
    m: &Module,
    op: OpName,
    key: &[u8],
) -> Result<Option<AttrValue>, NoMemory>
    ensures { IfOk result (λ old. old ≡ attr_at key.now (tree_find op m.now.root)) }
{
    match m.find(op) {
        None => Ok(None),
        Some(op) => match value_of(op.attrs.as_slice(), key) {
            None => Ok(None),
            Some(value) => Ok(Some(value.duplicate(alloc)?)),
        },
    }
}
