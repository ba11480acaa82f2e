//! Operations whose results nothing uses.
ghost use Rattle.std.specs.Prelude.{◌≡◌, IsNone, IfSome, IfOk, OnOk, option_map, option_copied};
ghost use Rattle.xf_ir.specs.declared.name.OpName.{OpName};
ghost use Rattle.xf_ir.specs.Valid.{IsValid};
ghost use Rattle.xf_ir.specs.Choices.{bare, dead_code, MayErase, IsNormal, IsFirstDead};
ghost use Rattle.xf_ir.specs.Uses.{tree_operands};
ghost use Rattle.xf_ir.specs.Walk.{tree_find};
ghost use Rattle.xf_ir.specs.Used.{with_uses, goes_unused, regions_first};

use crate::name::{OpName, ValueName};
use crate::name_set::NameSet;
use crate::op::{Module, Op};
use std::alloc::Global;
use xf_type::NoMemory;

/// Adds the operations of which these values are results.
fn add_uses(values: &[ValueName], used: &mut NameSet) -> Result<(), NoMemory>
    ensures { OnOk result (used.new ≡ with_uses used.old values.now) }
{
    for value in values {
        if let ValueName::Result { op, .. } = *value {
            used.insert(op)?;
        }
    }
    Ok(())
}

/// Adds the operations whose results the tree uses.
fn add_uses_inside(op: &Op, used: &mut NameSet) -> Result<(), NoMemory>
    ensures { OnOk result (used.new ≡ with_uses used.old (tree_operands op.now)) }
{
    add_uses(op.operands.as_slice(), used)?;
    for block in &op.regions {
        for inner in &block.ops {
            add_uses_inside(inner, used)?;
        }
    }
    Ok(())
}

/// Whether an operation may go where these are used.
fn may_go(op: &Op, used: &NameSet) -> bool
    ensures { result ≡ goes_unused used.now op.now }
{
    let stays = op.kind.is_container() || op.kind.ends_block();
    !stays && !used.contains(op.name)
}

/// The first operation of the name in the tree without the bodies of `linalg.generic`, in preorder.
fn find_outside_bodies(op: &Op, name: OpName) -> Option<&Op>
    ensures { option_map bare (option_copied result) ≡ tree_find name (bare op.now) }
{
    if op.name == name {
        return Some(op);
    }
    let holds_a_body = op.kind.is_generic();
    if holds_a_body {
        return None;
    }
    for block in &op.regions {
        for inner in &block.ops {
            if let Some(found) = find_outside_bodies(inner, name) {
                return Some(found);
            }
        }
    }
    None
}

/// The first operation inside another that may go where these are used, in preorder, without those in bodies of
/// `linalg.generic`.
fn first_inside(op: &Op, used: &NameSet) -> Option<OpName>
    ensures { result ≡ regions_first (goes_unused used.now) (bare op.now).regions }
{
    if op.kind.is_generic() {
        return None;
    }
    for block in &op.regions {
        for inner in &block.ops {
            if may_go(inner, used) {
                return Some(inner.name);
            }
            if let Some(name) = first_inside(inner, used) {
                return Some(name);
            }
        }
    }
    None
}

/// The first operation in preorder of the target's scope that may be erased, or `None` exactly where there is none.
///
/// Needs a valid module. Refuses for want of memory alone. Takes time in the number of operations and operands,
/// each with a look-up in the set of operations that are used, and memory in the size of that set.
pub fn first_dead(alloc: Global, m: &Module, target: OpName) -> Result<Option<OpName>, NoMemory>
    requires { IsValid m.now }
    ensures found { IfOk result (λ o. IfSome o (λ name. MayErase m.now target name)) }
    ensures first { IfOk result (λ o. IfSome o (λ name. IsFirstDead m.now target name)) }
    ensures none { IfOk result (λ o. IsNone o → IsNormal dead_code m.now target) }
{
    let mut used = NameSet::new(alloc);
    add_uses_inside(&m.root, &mut used)?;
    match find_outside_bodies(&m.root, target) {
        None => Ok(None),
        Some(op) => Ok(first_inside(op, &used)),
    }
}
