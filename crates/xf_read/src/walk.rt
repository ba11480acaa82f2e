//! The walk over all operations of a text, which builds the module and finds the faults.
ghost use Rattle.std.specs.Prelude.{◌≡◌, ◌+◌, ◌^◌, ◌<◌, ℕ, List, [], ◌∷◌, ◌++◌, IfOk, OnOk, if◌then◌else◌};
ghost use Rattle.xf_ir.specs.Tree.{no_ops, cons};
ghost use Rattle.xf_ir.specs.View.{ops_of, regions_of};
ghost use Rattle.xf_lex.specs.declared.token.Token.{Token as GhostToken};
ghost use Rattle.xf_format.specs.Parts.{said};
ghost use Rattle.xf_syntax.specs.Telling.{nodes_said, bodies_said, left_out, operations, operations_inside};
ghost use Rattle.xf_syntax.specs.View.{nodes_of, bodies_of};
ghost use Rattle.xf_read.specs.Meant.{joined, yield_tree, lacks_yield, ops_said, regions_said, tree_said};
ghost use Rattle.xf_read.specs.Meant.{place_of, yield_places, nodes_places, bodies_places};
ghost use Rattle.xf_read.specs.Names.{no_faults, tree_count, inside, behind};
ghost use Rattle.xf_read.specs.Names.{head_faults, nodes_faults, bodies_faults, tree_faults};
ghost use Rattle.xf_read.specs.Types.{argument_types};
ghost use Rattle.xf_read.specs.Visible.{names_in, Grows};
ghost use Rattle.xf_read.specs.Walks.{IsHead, Moved, Same, block_said, head_tree};

use crate::defining::{enter_args, enter_names};
use crate::faults::Faults;
use crate::head::{MeantHead, head_of};
use crate::scope::VisibleNames;
use std::alloc::Global;
use xf_format::{Parts, may_end_open};
use xf_ir::{AttrList, Block, Kind, Op, OpName, ValueList};
use xf_lex::Token;
use xf_span::{FIRST_PLACE, Place};
use xf_syntax::{Body, SyntaxNode, ends_in_yield};
use xf_type::{Duplicate, ListOf, NoMemory, TypeList};

/// The places of operations, by their numbers.
pub type PlaceOfList = ListOf<Place>;

/// Where the walk stands: the names that are visible, what was found so far, and the number of the
/// next operation.
#[derive(Drop)]
pub struct Walk<'a> {
    pub scope: VisibleNames<'a>,
    pub faults: Faults,
    pub places: PlaceOfList,
    pub next: u64,
}

/// The place of the token with a number; behind the last that of the first byte.
pub fn place_of(tokens: &[Token], at: usize) -> Place
    ensures { result ≡ place_of tokens.now at }
{
    if at < tokens.len() {
        tokens[at].place
    } else {
        FIRST_PLACE
    }
}

/// The place of a node.
fn place_of_node(tokens: &[Token], node: &SyntaxNode) -> Place
    ensures { result ≡ place_of tokens.now node.now.first }
{
    place_of(tokens, node.first)
}

/// A yield without operands.
fn plain_yield(alloc: Global, number: u64) -> Op
    ensures { result ≡ yield_tree number }
{
    Op {
        name: OpName(number),
        kind: Kind::Yield,
        attrs: AttrList::new(alloc),
        operands: ValueList::new(alloc),
        results: TypeList::new(alloc),
        regions: Vec::new(alloc),
    }
}

/// Whether a body lacks the yield that it is to end in.
#[tactic(auto, using(crate::proofs::Counting::lacks_is))]
fn lacks_yield(parts: &Parts, body: &Body) -> bool
    ensures { (all : List GhostToken) → result ≡ lacks_yield (said all parts.now) (nodes_said all body.now.nodes) }
{
    may_end_open(parts) && !ends_in_yield(&body.nodes)
}

/// Adds the yield that is left out at the end of a body, where one is; this token closes the body.
fn end_body(
    alloc: Global,
    tokens: &[Token],
    walk: &mut Walk,
    lacks: bool,
    close: usize,
    ops: &mut Vec<Op>,
) -> Result<(), NoMemory>
    requires { walk.old.next + (if lacks then 1 else 0) < 2 ^ 64 }
    ensures ops { OnOk result (ops_of ops.new.items
        ≡ joined (ops_of ops.old.items) (if lacks then cons (yield_tree walk.old.next) no_ops else no_ops)) }
    ensures moved { OnOk result (Moved walk.old walk.new (if lacks then 1 else 0)
        (if lacks then place_of tokens.now close ∷ [] else []) no_faults) }
    ensures scope { OnOk result (Same walk.old.scope walk.new.scope) }
{
    if lacks {
        ops.reserve_exact(1)?;
        ops.push(plain_yield(alloc, walk.next))?;
        walk.places.push(place_of(tokens, close))?;
        walk.next += 1;
    }
    Ok(())
}

/// Notes the head of an operation, which begins at this place, and lets its arguments stand for
/// their names.
fn enter_head<'a>(
    alloc: Global,
    tokens: &'a [Token],
    walk: &mut Walk<'a>,
    place: Place,
    parts: &Parts,
    head: &MeantHead,
) -> Result<(), NoMemory>
    requires room { walk.old.next + 1 < 2 ^ 64 }
    requires head { (first : ℕ) × IsHead tokens.now (names_in walk.old.scope) first parts.now head.now }
    ensures moved { OnOk result ((first : ℕ) → IsHead tokens.now (names_in walk.old.scope) first parts.now head.now
        → Moved walk.old walk.new 1 (place ∷ [])
        (head_faults tokens.now walk.old.next first parts.now (names_in walk.old.scope))) }
    ensures scope { OnOk result (names_in walk.new.scope ≡ inside walk.old.next (said tokens.now parts.now)
        (names_in walk.old.scope)) }
    ensures grows { OnOk result (Grows walk.old.scope walk.new.scope) }
{
    let number = walk.next;
    let args = parts.args.as_slice();
    let twice = enter_args(alloc, tokens, &mut walk.scope, number, &head.args, args)?;
    walk.places.push(place)?;
    walk.faults = walk.faults.with(head.faults).with_twice(twice);
    walk.next = number + 1;
    Ok(())
}

/// An operation of a head and its blocks.
fn with_regions(number: u64, head: MeantHead, regions: Vec<Block>) -> Op
    ensures { result ≡ head_tree number head (regions_of regions.items) }
{
    Op {
        name: OpName(number),
        kind: head.kind,
        attrs: head.attrs,
        operands: head.operands,
        results: head.results,
        regions,
    }
}

/// The operation of a node, with all that it holds; its place is this. The node is freed on the way.
/// Refuses for want of memory alone.
#[cycle(walk)]
pub fn operation<'a>(
    alloc: Global,
    tokens: &'a [Token],
    walk: &mut Walk<'a>,
    place: Place,
    node: SyntaxNode,
) -> Result<Op, NoMemory>
    requires { walk.old.next + tree_count tokens.now node < 2 ^ 64 }
    ensures op { IfOk result (λ op. op ≡ tree_said walk.old.next (names_in walk.old.scope)
        (said tokens.now node.parts) (bodies_said tokens.now node.bodies)) }
    ensures moved { OnOk result (Moved walk.old walk.new (tree_count tokens.now node)
        (place ∷ bodies_places tokens.now node.parts node.bodies)
        (tree_faults tokens.now walk.old.next (names_in walk.old.scope) node)) }
    ensures scope { OnOk result (names_in walk.new.scope ≡ behind walk.old.next (said tokens.now node.parts)
        (names_in walk.old.scope)) }
    ensures grows { OnOk result (Grows walk.old.scope walk.new.scope) }
{
    let SyntaxNode {
        first,
        parts,
        bodies,
    } = node;
    let parts = Box::into_inner(parts);
    let number = walk.next;
    let head = head_of(alloc, tokens, &walk.scope, first, &parts)?;
    let height = walk.scope.height();
    enter_head(alloc, tokens, walk, place, &parts, &head)?;
    let regions = inner_blocks(alloc, tokens, walk, &parts, &head.args, bodies)?;
    walk.scope.leave(height)?;
    enter_names(
        alloc,
        tokens,
        &mut walk.scope,
        number,
        &head.results,
        &parts,
    )?;
    Ok(with_regions(number, head, regions))
}

/// The operations of nodes, in order.
#[cycle(walk)]
fn operations<'a>(
    alloc: Global,
    tokens: &'a [Token],
    walk: &mut Walk<'a>,
    nodes: Vec<SyntaxNode>,
) -> Result<Vec<Op>, NoMemory>
    requires { walk.old.next + operations (nodes_said tokens.now (nodes_of nodes.items)) < 2 ^ 64 }
    ensures ops { IfOk result (λ ops. ops_of ops.items ≡ ops_said walk.old.next (names_in walk.old.scope)
        (nodes_said tokens.now (nodes_of nodes.items))) }
    ensures moved { OnOk result (Moved walk.old walk.new (operations (nodes_said tokens.now (nodes_of nodes.items)))
        (nodes_places tokens.now (nodes_of nodes.items))
        (nodes_faults tokens.now walk.old.next (names_in walk.old.scope) (nodes_of nodes.items))) }
    ensures scope { OnOk result (Same walk.old.scope walk.new.scope) }
{
    let height = walk.scope.height();
    let mut ops = Vec::with_capacity(alloc, nodes.len())?;
    for node in nodes {
        let place = place_of_node(tokens, &node);
        let op = operation(alloc, tokens, walk, place, node)?;
        ops.push(op)?;
    }
    walk.scope.leave(height)?;
    Ok(ops)
}

/// The block of a body, with the yield that is left out; its arguments have these types.
#[cycle(walk)]
fn block<'a>(
    alloc: Global,
    tokens: &'a [Token],
    walk: &mut Walk<'a>,
    parts: &Parts,
    args: &TypeList,
    body: Body,
) -> Result<Block, NoMemory>
    requires { walk.old.next + (operations (nodes_said tokens.now body.nodes)
        + left_out (said tokens.now parts.now) (nodes_said tokens.now body.nodes)) < 2 ^ 64 }
    ensures block { IfOk result (λ block. block ≡ block_said walk.old.next (said tokens.now parts.now) args.now
        (names_in walk.old.scope) (nodes_said tokens.now body.nodes)) }
    ensures moved { OnOk result (Moved walk.old walk.new (operations (nodes_said tokens.now body.nodes)
        + left_out (said tokens.now parts.now) (nodes_said tokens.now body.nodes))
        (nodes_places tokens.now body.nodes ++ yield_places tokens.now parts.now body.nodes body.close)
        (nodes_faults tokens.now walk.old.next (names_in walk.old.scope) body.nodes)) }
    ensures scope { OnOk result (Same walk.old.scope walk.new.scope) }
{
    let lacks = lacks_yield(parts, &body);
    let Body { nodes, close } = body;
    let mut ops = operations(alloc, tokens, walk, nodes)?;
    end_body(alloc, tokens, walk, lacks, close, &mut ops)?;
    let args = args.duplicate(alloc)?;
    Ok(Block { args, ops })
}

/// The blocks of bodies, in order, whose arguments have these types.
#[cycle(walk)]
fn inner_blocks<'a>(
    alloc: Global,
    tokens: &'a [Token],
    walk: &mut Walk<'a>,
    parts: &Parts,
    args: &TypeList,
    bodies: Vec<Body>,
) -> Result<Vec<Block>, NoMemory>
    requires room { walk.old.next + operations_inside (said tokens.now parts.now)
        (bodies_said tokens.now (bodies_of bodies.items)) < 2 ^ 64 }
    requires args { args.now ≡ argument_types (said tokens.now parts.now) }
    ensures blocks { IfOk result (λ blocks. regions_of blocks.items ≡ regions_said walk.old.next
        (said tokens.now parts.now) (names_in walk.old.scope) (bodies_said tokens.now (bodies_of bodies.items))) }
    ensures moved { OnOk result (Moved walk.old walk.new
        (operations_inside (said tokens.now parts.now) (bodies_said tokens.now (bodies_of bodies.items)))
        (bodies_places tokens.now parts.now (bodies_of bodies.items))
        (bodies_faults tokens.now walk.old.next parts.now (names_in walk.old.scope) (bodies_of bodies.items))) }
    ensures scope { OnOk result (Same walk.old.scope walk.new.scope) }
{
    let mut made = Vec::with_capacity(alloc, bodies.len())?;
    for body in bodies {
        let block = block(alloc, tokens, walk, parts, args, body)?;
        made.push(block)?;
    }
    Ok(made)
}
