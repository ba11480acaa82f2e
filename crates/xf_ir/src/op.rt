//! Operations, blocks and modules.
ghost use Rattle.std.specs.Prelude.{◌≡◌};

use crate::kind::{AttrList, Kind};
use crate::name::OpName;
use crate::values::ValueList;
use std::marker::Model;
use xf_type::TypeList;

/// The blocks of an operation's regions: each region has one block.
pub type BlockList = Vec<Block>;

/// The operations of a block, in order.
pub type OpList = Vec<Op>;

/// An operation, with all that its regions hold.
#[cycle(tree)]
#[derive(Drop)]
pub struct Op {
    pub name: OpName,
    pub kind: Kind,
    pub attrs: AttrList,
    pub operands: ValueList,
    pub results: TypeList,
    pub regions: Vec<Block>,
}

impl Model for Op {
    ghost use Rattle.xf_ir.specs.Tree.{Tree, tree_code};

    ghost Value = { Tree };

    ghost coded = { tree_code };

    ghost use Rattle.xf_ir.specs.View.{tree_of, tree_size, bodies_fall};

    ghost view = { tree_of };

    ghost size = { tree_size };

    ghost use Rattle.std.proofs.Common.{arith};

    ghost size_decreases = { λ a h. Prim.omega (arith, bodies_fall a.regions.items) };
}

/// The one block of a region.
#[cycle(tree)]
#[derive(Drop)]
pub struct Block {
    pub args: TypeList,
    pub ops: Vec<Op>,
}

impl Model for Block {
    ghost use Rattle.xf_ir.specs.Tree.{Body, body_code};

    ghost Value = { Body };

    ghost coded = { body_code };

    ghost use Rattle.xf_ir.specs.View.{body_of, body_size, trees_fall};

    ghost view = { body_of };

    ghost size = { body_size };

    ghost use Rattle.std.proofs.Common.{arith};

    ghost size_decreases = { λ b h. Prim.omega (arith, trees_fall b.ops.items) };
}

/// A module: its root operation, and the name that the next new operation gets.
#[derive(Drop)]
pub struct Module {
    pub root: Op,
    pub next: u64,
}
