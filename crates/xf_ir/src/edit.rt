//! Edits of a module.
ghost use Rattle.std.specs.Prelude.{◌≡◌, IfOk, OnOk, OnErr, IsOk, false, min, ◌+◌, ◌-◌, ◌^◌, nat_lt, if◌then◌else◌};
ghost use Rattle.xf_ir.specs.Edits.{ops_at, regions_at, tail, tree_erased, edited, inverse_of, next_above};
ghost use Rattle.xf_ir.specs.Edits.{wants_memory, tree_moved};
ghost use Rattle.xf_ir.specs.Attributes.{attr_set};
ghost use Rattle.xf_ir.specs.Bounds.{ListsAreShort};
ghost use Rattle.xf_ir.specs.Changes.{tree_changed, tree_attributed};
ghost use Rattle.xf_ir.specs.Spots.{tree_put};
ghost use Rattle.xf_ir.specs.Walk.{tree_names};
ghost use Rattle.xf_ir.specs.View.{ops_of, regions_of};

use crate::attributes::{copy_value, old_value, with_attr};
use crate::change::{Change, ChangeList, turn, with_changes};
use crate::name::OpName;
use crate::op::{Block, Module, Op};
use crate::spot::{Spot, locate, spot_of, with_tree};
use crate::values::ValueList;
use crate::walk::find_below;
use std::alloc::Global;
use xf_type::{AttrValue, ByteList, Duplicate, ListOf, NoMemory};

/// A change of a module.
#[derive(Drop)]
pub enum Edit {
    /// Puts a tree of new names at a spot.
    Insert {
        tree: Op,
        at: Spot,
    },
    /// Takes the operation out, with all that it holds.
    Erase {
        op: OpName,
    },
    /// Puts other values in the place of uses.
    ReplaceUses {
        changes: ChangeList,
    },
    /// Puts values in the place of an operation's results at the listed uses, and takes the operation out.
    Replace {
        op: OpName,
        by: ValueList,
        changes: ChangeList,
    },
    /// The inverse of a replacement: puts the tree back, and then makes the listed changes.
    Restore {
        tree: Op,
        at: Spot,
        by: ValueList,
        changes: ChangeList,
    },
    /// Takes the operation out, with all that it holds, and puts it at a spot of what is left: the spot's number counts
    /// the operations of the block without it.
    Move {
        op: OpName,
        to: Spot,
    },
    /// Gives the operation's attribute of that name a value, or takes it away where there is none.
    SetAttr {
        op: OpName,
        key: ByteList,
        value: Option<AttrValue>,
    },
}

impl Edit {
    /// A copy, equal in all that the edit names. Refuses for want of memory alone.
    pub fn copy(&self, alloc: Global) -> Result<Edit, NoMemory>
        ensures { IfOk result (λ copy. copy ≡ self.now) }
    {
        match self {
            Edit::Insert { tree, at } => copy_insert(alloc, tree, *at),
            Edit::Erase { op } => Ok(Edit::Erase { op: *op }),
            Edit::ReplaceUses { changes } => copy_uses(alloc, changes),
            Edit::Replace { op, by, changes } => copy_replace(alloc, *op, by, changes),
            Edit::Restore {
                tree,
                at,
                by,
                changes,
            } => copy_restore(alloc, tree, *at, by, changes),
            Edit::Move { op, to } => Ok(Edit::Move { op: *op, to: *to }),
            Edit::SetAttr { op, key, value } => copy_set_attr(alloc, *op, key, value),
        }
    }
}

/// A copy of an insertion.
fn copy_insert(alloc: Global, tree: &Op, at: Spot) -> Result<Edit, NoMemory>
    ensures { IfOk result (λ copy. copy ≡ Edit.Insert tree.now at) }
{
    let tree = tree.copy(alloc)?;
    Ok(Edit::Insert { tree, at })
}

/// A copy of changes of uses.
fn copy_uses(alloc: Global, changes: &ChangeList) -> Result<Edit, NoMemory>
    ensures { IfOk result (λ copy. copy ≡ Edit.ReplaceUses changes.now) }
{
    let changes = ListOf::from_slice(alloc, changes.as_slice())?;
    Ok(Edit::ReplaceUses { changes })
}

/// A copy of a replacement.
fn copy_replace(
    alloc: Global,
    op: OpName,
    by: &ValueList,
    changes: &ChangeList,
) -> Result<Edit, NoMemory>
    ensures { IfOk result (λ copy. copy ≡ Edit.Replace op by.now changes.now) }
{
    let by = ValueList::from_slice(alloc, by.as_slice())?;
    let changes = ListOf::from_slice(alloc, changes.as_slice())?;
    Ok(Edit::Replace { op, by, changes })
}

/// A copy of the inverse of a replacement.
fn copy_restore(
    alloc: Global,
    tree: &Op,
    at: Spot,
    by: &ValueList,
    changes: &ChangeList,
) -> Result<Edit, NoMemory>
    ensures { IfOk result (λ copy. copy ≡ Edit.Restore tree.now at by.now changes.now) }
{
    let tree = tree.copy(alloc)?;
    let by = ValueList::from_slice(alloc, by.as_slice())?;
    let changes = ListOf::from_slice(alloc, changes.as_slice())?;
    Ok(Edit::Restore {
        tree,
        at,
        by,
        changes,
    })
}

/// A copy of the change of an attribute.
fn copy_set_attr(
    alloc: Global,
    op: OpName,
    key: &ByteList,
    value: &Option<AttrValue>,
) -> Result<Edit, NoMemory>
    ensures { IfOk result (λ copy. copy ≡ Edit.SetAttr op key.now value.now) }
{
    let key = key.duplicate(alloc)?;
    let value = copy_value(alloc, value)?;
    Ok(Edit::SetAttr { op, key, value })
}

/// Takes the operation of that name out of what an operation holds.
#[cycle(erase)]
fn erase_inside(op: &mut Op, name: OpName)
    ensures { op.new ≡ tree_erased name op.old }
{
    erase_in_regions(&mut op.regions, name);
}

/// Takes the operation of that name out of regions.
#[cycle(erase)]
fn erase_in_regions(regions: &mut Vec<Block>, name: OpName)
    ensures { regions_of regions.new.items ≡ regions_at name tail (regions_of regions.old.items) }
{
    for i in 0..regions.len() {
        let block = &mut regions[i];
        erase_in_block(&mut block.ops, name);
    }
}

/// Takes the operation of that name out of a block, where the first of it ends the walk.
#[cycle(erase)]
fn erase_in_block(ops: &mut Vec<Op>, name: OpName)
    ensures { ops_of ops.new.items ≡ ops_at name tail (ops_of ops.old.items) }
{
    for i in 0..ops.len() {
        let op = &ops[i];
        if op.name == name {
            let _erased = ops.remove(i);
            return;
        }
        erase_inside(&mut ops[i], name);
    }
}

/// A next name that is above the name too, and stands still at the end of its 64 bits.
fn above(next: u64, name: OpName) -> u64
    ensures { result ≡ (if nat_lt name.0 next then next else min (name.0 + 1) (2 ^ 64 - 1)) }
{
    if name.0 < next {
        next
    } else {
        name.0.saturating_add(1)
    }
}

/// The next name above those of the tree.
fn above_tree(next: u64, op: &Op) -> u64
    ensures { result ≡ next_above next (tree_names op.now) }
{
    let mut next = above(next, op.name);
    for block in &op.regions {
        for inner in &block.ops {
            next = above_tree(next, inner);
        }
    }
    next
}

/// Puts a tree into the module, whose next name is then above those of the tree.
fn insert_tree(alloc: Global, m: &mut Module, tree: &Op, at: Spot) -> Result<(), NoMemory>
    ensures ok { OnOk result (m.new ≡ edited m.old (Edit.Insert tree.now at)) }
    ensures err { OnErr result (m.new ≡ m.old) }
{
    m.root = with_tree(alloc, &m.root, at, tree)?;
    m.next = above_tree(m.next, tree);
    Ok(())
}

/// Changes uses of the module.
fn change_uses(alloc: Global, m: &mut Module, changes: &[Change]) -> Result<(), NoMemory>
    ensures ok { OnOk result (m.new ≡ record m.old { root = tree_changed changes.now m.old.root }) }
    ensures err { OnErr result (m.new ≡ m.old) }
{
    m.root = with_changes(alloc, &m.root, changes)?;
    Ok(())
}

/// Changes uses of the module, and takes an operation out.
fn replace(alloc: Global, m: &mut Module, op: OpName, changes: &[Change]) -> Result<(), NoMemory>
    ensures ok { OnOk result (m.new ≡ record m.old { root = tree_erased op (tree_changed changes.now m.old.root) }) }
    ensures err { OnErr result (m.new ≡ m.old) }
{
    let mut root = with_changes(alloc, &m.root, changes)?;
    erase_inside(&mut root, op);
    m.root = root;
    Ok(())
}

/// Puts a tree into the module, and changes uses.
fn restore(
    alloc: Global,
    m: &mut Module,
    tree: &Op,
    at: Spot,
    changes: &[Change],
) -> Result<(), NoMemory>
    ensures ok { OnOk result
        (m.new ≡ record m.old { root = tree_changed changes.now (tree_put at tree.now m.old.root) }) }
    ensures err { OnErr result (m.new ≡ m.old) }
{
    let root = with_tree(alloc, &m.root, at, tree)?;
    m.root = with_changes(alloc, &root, changes)?;
    Ok(())
}

/// Takes an operation out of the module, and puts it at a spot of what is left.
fn move_tree(alloc: Global, m: &mut Module, op: OpName, to: Spot) -> Result<(), NoMemory>
    ensures ok { OnOk result (m.new ≡ record m.old { root = tree_moved op to m.old.root }) }
    ensures err { OnErr result (m.new ≡ m.old) }
{
    let root = match find_below(&m.root, op) {
        None => return Ok(()),
        Some(tree) => {
            let mut root = m.root.copy(alloc)?;
            erase_inside(&mut root, op);
            with_tree(alloc, &root, to, tree)?
        }
    };
    m.root = root;
    Ok(())
}

/// Gives an attribute of an operation a value, or takes it away.
fn set_attr(
    alloc: Global,
    m: &mut Module,
    op: OpName,
    key: &ByteList,
    value: &Option<AttrValue>,
) -> Result<(), NoMemory>
    ensures ok { OnOk result
        (m.new ≡ record m.old { root = tree_attributed op (attr_set key.now value.now) m.old.root }) }
    ensures err { OnErr result (m.new ≡ m.old) }
{
    m.root = with_attr(alloc, &m.root, op, key, value)?;
    Ok(())
}

/// Changes the module as the edit says. An edit that names nothing in it changes nothing.
///
/// Refuses for want of memory alone, and then leaves the module as it was; erasing takes no memory.
/// Takes time in the number of operations.
pub fn apply_edit(alloc: Global, m: &mut Module, e: &Edit) -> Result<(), NoMemory>
    ensures ok { OnOk result (m.new ≡ edited m.old e.now) }
    ensures err { OnErr result (m.new ≡ m.old) }
    ensures without_memory { wants_memory e.now ≡ false → IsOk result }
{
    match e {
        Edit::Insert { tree, at } => insert_tree(alloc, m, tree, *at),
        Edit::Erase { op } => {
            erase_inside(&mut m.root, *op);
            Ok(())
        }
        Edit::ReplaceUses { changes } => change_uses(alloc, m, changes.as_slice()),
        Edit::Replace { op, changes, .. } => replace(alloc, m, *op, changes.as_slice()),
        Edit::Restore {
            tree,
            at,
            changes,
            ..
        } => restore(alloc, m, tree, *at, changes.as_slice()),
        Edit::Move { op, to } => move_tree(alloc, m, *op, *to),
        Edit::SetAttr { op, key, value } => set_attr(alloc, m, *op, key, value),
    }
}

/// The edit that puts back what erasing the operation takes out.
fn inverse_of_erase(alloc: Global, m: &Module, op: OpName) -> Result<Edit, NoMemory>
    requires { ListsAreShort m.now }
    ensures { IfOk result (λ back. back ≡ inverse_of m.now (Edit.Erase op)) }
{
    Ok(match locate(alloc, &m.root, op)? {
        None => Edit::Erase { op },
        Some(found) => Edit::Insert {
            tree: found.tree,
            at: found.spot,
        },
    })
}

/// The edit that puts back what a replacement takes out, and changes the uses back.
fn inverse_of_replace(
    alloc: Global,
    m: &Module,
    op: OpName,
    by: &ValueList,
    changes: &[Change],
) -> Result<Edit, NoMemory>
    requires { ListsAreShort m.now }
    ensures { IfOk result (λ back. back ≡ inverse_of m.now (Edit.Replace op by.now changes.now)) }
{
    let root = with_changes(alloc, &m.root, changes)?;
    match locate(alloc, &root, op)? {
        None => Ok(Edit::Erase { op }),
        Some(found) => Ok(Edit::Restore {
            tree: found.tree,
            at: found.spot,
            by: ValueList::from_slice(alloc, by.as_slice())?,
            changes: turn(alloc, changes)?,
        }),
    }
}

/// The edit that moves an operation back to where it stands.
fn inverse_of_move(m: &Module, op: OpName, to: Spot) -> Edit
    requires { ListsAreShort m.now }
    ensures { result ≡ inverse_of m.now (Edit.Move op to) }
{
    match spot_of(&m.root, op) {
        None => Edit::Move { op, to },
        Some(spot) => Edit::Move { op, to: spot },
    }
}

/// The edit that gives an attribute of an operation the value that it has, or takes it away where it has none.
fn inverse_of_set_attr(
    alloc: Global,
    m: &Module,
    op: OpName,
    key: &ByteList,
) -> Result<Edit, NoMemory>
    ensures { IfOk result (λ back. back ≡ inverse_of m.now (Edit.SetAttr op key.now None)) }
{
    let old = old_value(alloc, m, op, key.as_slice())?;
    Ok(Edit::SetAttr {
        op,
        key: key.duplicate(alloc)?,
        value: old,
    })
}

/// The edit that leads from the edited module back to the tree of this one, if the edit fits it.
///
/// Needs lists of fewer than 2 ^ 32 entries in the module's tree, so that each place in them has a number. Refuses for
/// want of memory alone. Takes time in the number of operations and operands.
pub fn inverse(alloc: Global, m: &Module, e: &Edit) -> Result<Edit, NoMemory>
    requires { ListsAreShort m.now }
    ensures { IfOk result (λ back. back ≡ inverse_of m.now e.now) }
{
    match e {
        Edit::Insert { tree, .. } => Ok(Edit::Erase { op: tree.name }),
        Edit::Erase { op } => inverse_of_erase(alloc, m, *op),
        Edit::ReplaceUses { changes } => Ok(Edit::ReplaceUses {
            changes: turn(alloc, changes.as_slice())?,
        }),
        Edit::Replace { op, by, changes } => {
            inverse_of_replace(alloc, m, *op, by, changes.as_slice())
        }
        Edit::Restore {
            tree,
            by,
            changes,
            ..
        } => Ok(Edit::Replace {
            op: tree.name,
            by: ValueList::from_slice(alloc, by.as_slice())?,
            changes: turn(alloc, changes.as_slice())?,
        }),
        Edit::Move { op, to } => Ok(inverse_of_move(m, *op, *to)),
        Edit::SetAttr { op, key, .. } => inverse_of_set_attr(alloc, m, *op, key),
    }
}
