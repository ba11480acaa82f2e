//! Walks over a tree: its names, how many operations it has, and where one is.
ghost use Rattle.std.specs.Prelude.{◌≡◌, ◌^◌, ◌<◌, ◌++◌, ◌↔◌, false, IsNone, IfOk, OnOk};
ghost use Rattle.std.specs.Option.{option_copied};
ghost use Rattle.xf_ir.specs.Count.{tree_count};
ghost use Rattle.xf_ir.specs.Lists.{is_among};
ghost use Rattle.xf_ir.specs.Walk.{tree_names, tree_post, tree_find, regions_find};

use crate::name::OpName;
use crate::op::{Module, Op};
use std::alloc::Global;
use xf_type::{ListOf, NoMemory};

/// Names of operations, in order.
pub type NameList = ListOf<OpName>;

/// Adds the names of the tree to those that are there, in post-order.
fn append_post(op: &Op, names: &mut NameList) -> Result<(), NoMemory>
    ensures { OnOk result (names.new ≡ names.old ++ tree_post op.now) }
{
    for block in &op.regions {
        for inner in &block.ops {
            append_post(inner, names)?;
        }
    }
    names.push(op.name)
}

/// The names of the tree's operations in post-order: an operation after what it holds.
///
/// Refuses for want of memory alone. Takes time and memory in the number of operations.
pub fn walk_post(alloc: Global, op: &Op) -> Result<NameList, NoMemory>
    ensures { IfOk result (λ names. names ≡ tree_post op.now) }
{
    let mut names = ListOf::new(alloc);
    append_post(op, &mut names)?;
    Ok(names)
}

/// How many operations the tree has, its own root counted.
pub fn count(op: &Op) -> u64
    requires { tree_count op.now < 2 ^ 32 }
    ensures { result ≡ tree_count op.now }
{
    let mut sum = 1;
    for block in &op.regions {
        for inner in &block.ops {
            sum += count(inner);
        }
    }
    sum
}

/// The first operation of the name in the tree, in preorder.
#[cycle(find)]
fn find_in(op: &Op, name: OpName) -> Option<&Op>
    ensures { option_copied result ≡ tree_find name op.now }
{
    if op.name == name {
        return Some(op);
    }
    find_below(op, name)
}

/// The first operation of the name that an operation holds, in preorder.
#[cycle(find)]
pub(crate) fn find_below(op: &Op, name: OpName) -> Option<&Op>
    ensures { option_copied result ≡ regions_find name op.now.regions }
{
    for block in &op.regions {
        for inner in &block.ops {
            if let Some(found) = find_in(inner, name) {
                return Some(found);
            }
        }
    }
    None
}

impl Module {
    /// The operation of that name, or `None` exactly where there is none. Takes time in the number of operations.
    pub fn find(&self, op: OpName) -> Option<&Op>
        ensures found { option_copied result ≡ tree_find op self.now.root }
        ensures absent { IsNone result ↔ (is_among op (tree_names self.now.root) ≡ false) }
    {
        find_in(&self.root, op)
    }
}
