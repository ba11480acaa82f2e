//! The walk over all operations of a module, in preorder, to the first that breaks a rule.
ghost use Rattle.std.specs.Prelude.{◌≡◌, ◌<◌, ◌+◌, length, drop, ◌∷◌, [], None, false, true, map, IfOk, OnOk};
ghost use Rattle.std.specs.FinSet as set;
ghost use Rattle.xf_ir.specs.Placed.{holder_of};
ghost use Rattle.xf_ir.specs.View.{ops_of, regions_of};
ghost use Rattle.xf_verify.specs.Judged.{Answers, IsNamed, Judged, first_behind, stands, tree_stands, ops_stand};
ghost use Rattle.xf_verify.specs.Judged.{regions_stand, functions_stand, blocks_stand, holder_seen, stand_seen};
ghost use Rattle.xf_verify.specs.Visible.{definitions_in, types_in};

use crate::facts::Facts;
use crate::fault::VerifyFault;
use crate::local::broken_rule;
use crate::scope::{Definition, VisibleValues};
use crate::stand::{Holder, Stand, holder_of};
use std::alloc::Global;
use xf_ir::{NameSet, Op, Rule};

/// Where the walk stands: the names of the operations before, and the values that are visible.
#[derive(Drop)]
pub struct Walk<'a> {
    pub names: NameSet,
    pub scope: VisibleValues<'a>,
}

/// The operations behind the one of that number.
fn behind(ops: &[Op], number: usize) -> &[Op]
    requires { number < length ops.now }
    ensures { result.now ≡ drop (number + 1) ops.now }
{
    &ops[number + 1..]
}

/// Judges an operation where it stands, without what it holds, by all rules but V2.
fn judge(
    alloc: Global,
    facts: &Facts<'_>,
    names: &mut NameSet,
    stand: &Stand<'_>,
) -> Result<(), VerifyFault>
    ensures judged { Answers result (first_behind facts.now names.old (stand_seen stand.now ∷ [])) }
    ensures names { OnOk result (names.new ≡ set.insert names.old stand.now.op.now.name.0) }
    ensures new { OnOk result (set.contains names.old stand.now.op.now.name.0 ≡ false) }
{
    let op = stand.op;
    let name = op.name;
    let is_first = names.insert(name)?;
    if !is_first || name.0 >= facts.next {
        return Err(VerifyFault::Rule {
            rule: Rule::Names.number(),
            op: name,
        });
    }
    match broken_rule(alloc, facts, stand)? {
        Some(rule) => Err(VerifyFault::Rule {
            rule: rule.number(),
            op: name,
        }),
        None => Ok(()),
    }
}

/// Judges an operation as `judge` does, and gives what then holds the operations inside it.
pub fn enter<'a>(
    alloc: Global,
    facts: &Facts<'_>,
    walk: &mut Walk<'a>,
    holder: Holder<'a>,
    op: &'a Op,
    after: &'a [Op],
) -> Result<Holder<'a>, VerifyFault>
    ensures judged { Answers result (first_behind facts.now walk.old.names
        (stands (holder_seen holder.entry) (types_in walk.old.scope) op.now (ops_of after.now) ∷ [])) }
    ensures holder { IfOk result (λ inner. holder_seen inner
        ≡ holder_of op.now.kind (map (types_in walk.old.scope) op.now.operands) op.now.results) }
    ensures names { OnOk result (walk.new.names ≡ set.insert walk.old.names op.now.name.0) }
    ensures scope { OnOk result (definitions_in walk.new.scope ≡ definitions_in walk.old.scope) }
    ensures new { OnOk result (set.contains walk.old.names op.now.name.0 ≡ false) }
{
    let types = walk.scope.operand_types(alloc, op.operands.as_slice())?;
    let stand = Stand {
        holder,
        types: &types,
        op,
        after,
    };
    judge(alloc, facts, &mut walk.names, &stand)?;
    Ok(holder_of(op, &types))
}

/// Judges an operation and what it holds.
#[cycle(walk)]
fn operation<'a>(
    alloc: Global,
    facts: &Facts<'_>,
    walk: &mut Walk<'a>,
    holder: Holder<'a>,
    op: &'a Op,
    after: &'a [Op],
) -> Result<(), VerifyFault>
    requires { IsNamed walk.old }
    ensures judged { Answers result (first_behind facts.now walk.old.names
        (tree_stands (holder_seen holder.entry) (types_in walk.old.scope) op.now (ops_of after.now))) }
    ensures moved { OnOk result (Judged walk.old walk.new
        (tree_stands (holder_seen holder.entry) (types_in walk.old.scope) op.now (ops_of after.now))) }
    ensures new { OnOk result (set.contains walk.old.names op.now.name.0 ≡ false) }
{
    let inner = enter(alloc, facts, walk, holder, op, after)?;
    regions(alloc, facts, walk, inner, op)
}

/// Judges the operations of a block, in order, and what they hold.
#[cycle(walk)]
fn operations<'a>(
    alloc: Global,
    facts: &Facts<'_>,
    walk: &mut Walk<'a>,
    holder: Holder<'a>,
    ops: &'a [Op],
) -> Result<(), VerifyFault>
    requires { IsNamed walk.old }
    ensures judged { Answers result (first_behind facts.now walk.old.names
        (ops_stand (holder_seen holder.entry) (types_in walk.old.scope) (ops_of ops.now))) }
    ensures moved { OnOk result
        (Judged walk.old walk.new (ops_stand (holder_seen holder.entry) (types_in walk.old.scope) (ops_of ops.now))) }
{
    for (number, op) in ops.iter().enumerate() {
        operation(alloc, facts, walk, holder, op, behind(ops, number))?;
        let types = op.results.as_slice();
        walk.scope
            .enter(op.name, types, Definition::Results(types))?;
    }
    walk.scope.leave_all(ops);
    Ok(())
}

/// Judges the operations inside another.
#[cycle(walk)]
fn regions<'a>(
    alloc: Global,
    facts: &Facts<'_>,
    walk: &mut Walk<'a>,
    holder: Holder<'a>,
    op: &'a Op,
) -> Result<(), VerifyFault>
    requires named { IsNamed walk.old }
    requires here { set.contains walk.old.names op.now.name.0 ≡ true }
    requires new { definitions_in walk.old.scope op.now.name.0 ≡ None }
    ensures judged { Answers result (first_behind facts.now walk.old.names
        (regions_stand (holder_seen holder.entry) (types_in walk.old.scope) op.now.name 0 op.now.regions)) }
    ensures moved { OnOk result (Judged walk.old walk.new
        (regions_stand (holder_seen holder.entry) (types_in walk.old.scope) op.now.name 0 op.now.regions)) }
{
    for (number, block) in op.regions.iter().enumerate() {
        let types = block.args.as_slice();
        walk.scope
            .enter(op.name, types, Definition::Arguments(number, types))?;
        operations(alloc, facts, walk, holder, &block.ops)?;
        walk.scope.leave(op.name, types);
    }
    Ok(())
}

/// Judges the functions of a block and what they hold; each sees its own values alone.
fn functions<'a>(
    alloc: Global,
    facts: &Facts<'_>,
    walk: &mut Walk<'a>,
    holder: Holder<'a>,
    ops: &'a [Op],
) -> Result<(), VerifyFault>
    requires { IsNamed walk.old }
    ensures judged { Answers result (first_behind facts.now walk.old.names
        (functions_stand (holder_seen holder.entry) (types_in walk.old.scope) (ops_of ops.now))) }
    ensures moved { OnOk result (Judged walk.old walk.new
        (functions_stand (holder_seen holder.entry) (types_in walk.old.scope) (ops_of ops.now))) }
{
    for (number, op) in ops.iter().enumerate() {
        operation(alloc, facts, walk, holder, op, behind(ops, number))?;
    }
    Ok(())
}

/// Judges the functions of the root and what they hold.
pub fn blocks<'a>(
    alloc: Global,
    facts: &Facts<'_>,
    walk: &mut Walk<'a>,
    holder: Holder<'a>,
    root: &'a Op,
) -> Result<(), VerifyFault>
    requires { IsNamed walk.old }
    ensures { Answers result (first_behind facts.now walk.old.names
        (blocks_stand (holder_seen holder.entry) (types_in walk.old.scope) root.now.regions)) }
{
    for block in &root.regions {
        functions(alloc, facts, walk, holder, &block.ops)?;
    }
    Ok(())
}
