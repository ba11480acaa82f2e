//! Reductions: what the body of a structured operation does with the out.
ghost use Rattle.std.specs.Prelude.{◌≡◌, ◌+◌, ◌-◌, ◌^◌, ◌==◌, min, false, IfOk, OnOk};
ghost use Rattle.std.specs.Option.{option_copied};
ghost use Rattle.std.specs.FinSet as set;
ghost use Rattle.xf_ir.specs.Lists.{some};
ghost use Rattle.xf_ir.specs.RuleLinalg.{is_combiner, only_value, yielded, definer, combines, is_reduction};
ghost use Rattle.xf_ir.specs.RuleLinalg.{has_reduction, reduces};
ghost use Rattle.xf_type.specs.declared.payload_type.Width.{Width};
ghost use Rattle.xf_ir.specs.Uses.{same_value, use_count, tree_operands, ops_operands};
ghost use Rattle.xf_ir.specs.Placed.{block_of};
ghost use Rattle.xf_ir.specs.View.{ops_of, regions_of};
ghost use Rattle.xf_ir.specs.Walk.{tree_find, ops_find, regions_find};
ghost use Rattle.xf_rules_shape.specs.Dependents.{out_value, depends_on, with_dependent, with_dependents, all_with};
ghost use Rattle.xf_rules_shape.specs.Dependents.{joins_apart};

use std::alloc::Global;
use xf_ir::{Block, IteratorKind, Kind, NameSet, Op, OpName, ValueName};
use xf_type::{BinKind, NoMemory};

/// The argument of a body that stands for the out: the last, of the block of that operation's first region.
#[derive(Clone, Copy)]
struct OutArgument {
    op: OpName,
    num: usize,
}

impl OutArgument {
    /// Whether a value is the argument.
    fn is(self, value: ValueName) -> bool
        ensures { result ≡ same_value value (out_value self) }
    {
        match value {
            ValueName::Arg { op, region, num } => {
                op == self.op && (region == 0 && num as usize == self.num)
            }
            _ => false,
        }
    }
}

/// Whether a reduction may join elements by it: it is associative and commutative.
fn is_combiner(kind: &Kind) -> bool
    ensures { result ≡ is_combiner kind.now }
{
    match kind {
        Kind::Binary { kind, .. } => joins(*kind),
        _ => false,
    }
}

/// Whether an operation on two integers is associative and commutative.
fn joins(kind: BinKind) -> bool
    ensures { (w : Width) → result ≡ is_combiner (Kind.Binary kind w) }
{
    match kind {
        BinKind::Addi | BinKind::Muli | BinKind::Andi | BinKind::Ori | BinKind::Xori => true,
        BinKind::Minsi | BinKind::Maxsi | BinKind::Minui | BinKind::Maxui => true,
        BinKind::Subi | BinKind::Shli | BinKind::Shrui | BinKind::Shrsi => false,
    }
}

/// The value, where there is one alone.
fn only_value(values: &[ValueName]) -> Option<ValueName>
    ensures { result ≡ only_value values.now }
{
    match values {
        [value] => Some(*value),
        _ => None,
    }
}

/// The one operand of the last operation.
fn yielded(ops: &[Op]) -> Option<ValueName>
    ensures { result ≡ yielded (ops_of ops.now) }
{
    match ops {
        [] => None,
        [.., last] => only_value(last.operands.as_slice()),
    }
}

/// The first operation of the name in the tree, in preorder.
#[cycle(find)]
fn find_in(op: &Op, name: OpName) -> Option<&Op>
    ensures { option_copied result ≡ tree_find name op.now }
{
    if op.name == name {
        return Some(op);
    }
    find_below(op, name)
}

/// The first operation of the name that an operation holds, in preorder.
#[cycle(find)]
fn find_below(op: &Op, name: OpName) -> Option<&Op>
    ensures { option_copied result ≡ regions_find name op.now.regions }
{
    for block in &op.regions {
        for inner in &block.ops {
            if let Some(found) = find_in(inner, name) {
                return Some(found);
            }
        }
    }
    None
}

/// The first operation of the name in a block, in preorder.
fn find_among(ops: &[Op], name: OpName) -> Option<&Op>
    ensures { option_copied result ≡ ops_find name (ops_of ops.now) }
{
    for op in ops {
        if let Some(found) = find_in(op, name) {
            return Some(found);
        }
    }
    None
}

/// The operation of which a value is a result.
fn definer(ops: &[Op], value: Option<ValueName>) -> Option<&Op>
    ensures { option_copied result ≡ definer (ops_of ops.now) value }
{
    match value {
        Some(ValueName::Result { op, .. }) => find_among(ops, op),
        _ => None,
    }
}

/// Whether a value is the out argument or a result of one of the operations.
fn depends(out: OutArgument, dependent: &NameSet, value: ValueName) -> bool
    ensures { result ≡ depends_on (out_value out) dependent.now value }
{
    match value {
        ValueName::Result { op, .. } => dependent.contains(op),
        _ => out.is(value),
    }
}

/// Whether one of the values is the out argument or a result of one of the operations.
fn some_depends(out: OutArgument, dependent: &NameSet, values: &[ValueName]) -> bool
    ensures { result ≡ some (depends_on (out_value out) dependent.now) values.now }
{
    for value in values {
        if depends(out, dependent, *value) {
            return true;
        }
    }
    false
}

/// Adds an operation where it uses the out argument or a result of one that is there, and tells whether it is new.
/// Refuses for want of memory alone.
#[tactic(auto, using(crate::proofs::DependentLemmas::inserted_again))]
fn add_dependent(out: OutArgument, op: &Op, dependent: &mut NameSet) -> Result<bool, NoMemory>
    ensures dependents { OnOk result (dependent.new
        ≡ with_dependent (out_value out) op.now.operands op.now.name dependent.old) }
    ensures none { IfOk result (λ is_new. is_new ≡ false → dependent.new ≡ dependent.old) }
{
    if some_depends(out, dependent, op.operands.as_slice()) {
        dependent.insert(op.name)
    } else {
        Ok(false)
    }
}

/// Adds the operations that use the out argument or a result of one that is there, and tells whether one is new.
/// Refuses for want of memory alone.
fn add_dependents(out: OutArgument, ops: &[Op], dependent: &mut NameSet) -> Result<bool, NoMemory>
    ensures dependents { OnOk result (dependent.new ≡ with_dependents (out_value out) (ops_of ops.now) dependent.old) }
    ensures none { IfOk result (λ grows. grows ≡ false → dependent.new ≡ dependent.old) }
{
    let mut grows = false;
    for op in ops {
        if add_dependent(out, op, dependent)? {
            grows = true;
        }
    }
    Ok(grows)
}

/// The operations that depend on the out argument, through operands. Refuses for want of memory alone.
fn all_dependents(alloc: Global, out: OutArgument, ops: &[Op]) -> Result<NameSet, NoMemory>
    ensures { IfOk result (λ all. all ≡ all_with (out_value out) (ops_of ops.now) (ops_of ops.now) set.empty) }
{
    let mut dependent = NameSet::new(alloc);
    for _op in ops {
        if !add_dependents(out, ops, &mut dependent)? {
            return Ok(dependent);
        }
    }
    Ok(dependent)
}

/// Whether the values are the out argument and another that does not depend on it, in either order.
fn joins_out(out: OutArgument, dependent: &NameSet, values: &[ValueName]) -> bool
    ensures { result ≡ joins_apart (out_value out) dependent.now values.now }
{
    match values {
        [a, b] => {
            (out.is(*a) && !depends(out, dependent, *b))
                || (out.is(*b) && !depends(out, dependent, *a))
        }
        _ => false,
    }
}

/// Whether an operation of a body joins the out argument and another value that does not depend on it. Refuses for want
/// of memory alone.
#[tactic(auto, using(crate::proofs::DependentLemmas::joins_by_set))]
fn combines(
    alloc: Global,
    out: OutArgument,
    ops: &[Op],
    joining: Option<&Op>,
) -> Result<bool, NoMemory>
    ensures { IfOk result (λ fit. fit ≡ combines (out_value out) (ops_of ops.now) (option_copied joining.entry)) }
{
    let Some(joining) = joining else {
        return Ok(false);
    };
    if !is_combiner(&joining.kind) {
        return Ok(false);
    }
    let dependent = all_dependents(alloc, out, ops)?;
    Ok(joins_out(out, &dependent, joining.operands.as_slice()))
}

/// How often a value is among values, added to a count that stands still at the end of its type.
#[tactic(auto, using(crate::proofs::DependentLemmas::all_counted))]
fn add_uses_among(out: OutArgument, values: &[ValueName], before: u64) -> u64
    ensures { result ≡ min (before + use_count (out_value out) values.now) (2 ^ 64 - 1) }
{
    let mut count = before;
    for value in values {
        if out.is(*value) {
            count = count.saturating_add(1);
        }
    }
    count
}

/// How often a value is used in a tree, added to a count that stands still at the end of its type.
#[tactic(auto, using(crate::proofs::DependentLemmas::uses_append))]
fn add_uses(out: OutArgument, op: &Op, before: u64) -> u64
    ensures { result ≡ min (before + use_count (out_value out) (tree_operands op.now)) (2 ^ 64 - 1) }
{
    let mut count = add_uses_among(out, op.operands.as_slice(), before);
    for block in &op.regions {
        for inner in &block.ops {
            count = add_uses(out, inner, count);
        }
    }
    count
}

/// Whether the operations use a value once.
fn is_used_once(out: OutArgument, ops: &[Op]) -> bool
    ensures { result ≡ (use_count (out_value out) (ops_operands (ops_of ops.now)) == 1) }
{
    let mut count = 0;
    for op in ops {
        count = add_uses(out, op, count);
    }
    count == 1
}

/// Whether a body yields the combination of its out argument and a value that does not depend on it, and uses the
/// argument nowhere else. Refuses for want of memory alone.
fn is_reduction(alloc: Global, out: OutArgument, ops: &[Op]) -> Result<bool, NoMemory>
    ensures { IfOk result (λ fit. fit ≡ is_reduction (out_value out) (ops_of ops.now)) }
{
    if !is_used_once(out, ops) {
        return Ok(false);
    }
    combines(alloc, out, ops, definer(ops, yielded(ops)))
}

/// Whether one of the dimensions is a reduction.
fn has_reduction(iterators: &[IteratorKind]) -> bool
    ensures { result ≡ has_reduction iterators.now }
{
    for iterator in iterators {
        if let IteratorKind::Reduction = *iterator {
            return true;
        }
    }
    false
}

/// The operations of the first region; none where there is no region.
fn body_of(regions: &[Block]) -> &[Op]
    ensures { ops_of result.now ≡ block_of (regions_of regions.now) }
{
    match regions {
        [] => &[],
        [block, ..] => block.ops.as_slice(),
    }
}

/// Whether a `linalg.generic` with a reduction yields `c(out, e)`, in either order of operands: `c` is an operation
/// that reductions join by, the out argument is used nowhere else, and `e` does not depend on it. Any other operation
/// passes.
///
/// Takes time in the size of the body, where each operation stands behind those whose results it uses; each operation
/// that depends on a later one may cost a further pass over the body. Refuses for want of memory alone.
pub fn reduces(alloc: Global, op: &Op) -> Result<bool, NoMemory>
    ensures { IfOk result (λ fit. fit ≡ reduces op.now.kind op.now) }
{
    let Kind::Generic { iterators, .. } = &op.kind else {
        return Ok(true);
    };
    if !has_reduction(iterators.as_slice()) {
        return Ok(true);
    }
    let out = OutArgument {
        op: op.name,
        num: op.operands.as_slice().len().saturating_sub(1),
    };
    is_reduction(alloc, out, body_of(&op.regions))
}
