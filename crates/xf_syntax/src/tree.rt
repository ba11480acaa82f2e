//! The syntax tree of a text.

use std::marker::Model;
use xf_format::Parts;

/// An operation: the number of its first token, the names of its results included; its parts, with
/// those that stand in the headers of its bodies and behind them; and its bodies. The parts stand
/// apart, so that what walks over a list of operations frees most of one as soon as it is done with.
#[cycle(syntax)]
#[derive(Drop)]
pub struct SyntaxNode {
    pub first: usize,
    pub parts: Box<Parts>,
    pub bodies: Vec<Body>,
}

impl Model for SyntaxNode {
    ghost use Rattle.xf_syntax.specs.Codes.{PayloadTree, payload_tree_code};

    ghost Value = { PayloadTree };

    ghost coded = { payload_tree_code };

    ghost use Rattle.xf_syntax.specs.View.{tree_of, tree_size, bodies_fall};

    ghost view = { tree_of };

    ghost size = { tree_size };

    ghost use Rattle.std.proofs.Common.{arith};

    ghost size_decreases = { λ a h. Prim.omega (arith, bodies_fall a.bodies.items) };
}

/// The operations between two braces, and the number of the token that closes them.
#[cycle(syntax)]
#[derive(Drop)]
pub struct Body {
    pub nodes: Vec<SyntaxNode>,
    pub close: usize,
}

impl Model for Body {
    ghost use Rattle.xf_syntax.specs.Codes.{PayloadBlock, payload_block_code};

    ghost Value = { PayloadBlock };

    ghost coded = { payload_block_code };

    ghost use Rattle.xf_syntax.specs.View.{block_of, block_size, trees_fall};

    ghost view = { block_of };

    ghost size = { block_size };

    ghost use Rattle.std.proofs.Common.{arith};

    ghost size_decreases = { λ b h. Prim.omega (arith, trees_fall b.nodes.items) };
}

/// A whole text: its module. Where the module is left out, `root` has no parts, its first token is
/// that of the text, and its body is closed by the end of the text; its place is the start of the
/// text.
#[derive(Drop)]
pub struct File {
    /// Whether the module is written.
    pub written: bool,
    pub root: SyntaxNode,
}
