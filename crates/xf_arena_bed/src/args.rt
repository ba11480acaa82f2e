//! The arguments of each region's block, kept in the blocks that they came in.
ghost use Rattle.std.specs.Prelude.{◌≡◌, ◌<◌, length, slice_get, Some};
ghost use Rattle.xf_arena_bed.specs.Blocks.{args_in};

use std::marker::Model;
use xf_ir::Block;
use xf_type::TypeList;

/// The types of the arguments of each region's block. Seen as the list of these lists.
#[derive(Drop)]
pub struct ArgsList {
    blocks: Vec<Block>,
}

impl Model for ArgsList {
    ghost use Rattle.std.specs.Prelude.{List};
    ghost use Rattle.xf_type.specs.declared.payload_type.PayloadType.{PayloadType};
    ghost use Rattle.xf_arena_bed.specs.Blocks.{args_in};

    ghost Value = { List (List PayloadType) };

    ghost view = { λ a. args_in a.blocks.items };
}

impl ArgsList {
    /// The arguments of these blocks, which are moved and not copied.
    pub fn of_blocks(blocks: Vec<Block>) -> ArgsList
        ensures { result ≡ args_in blocks.items }
    {
        ArgsList { blocks }
    }

    /// How many regions there are.
    pub fn len(&self) -> usize
        ensures { result ≡ length self.now }
    {
        self.blocks.as_slice().len()
    }

    /// The types of the arguments of a region's block.
    pub fn get(&self, region: usize) -> &TypeList
        requires { region < length self.now }
        ensures { slice_get self.now region ≡ Some result.now }
    {
        let blocks = self.blocks.as_slice();
        let block = &blocks[region];
        &block.args
    }
}
