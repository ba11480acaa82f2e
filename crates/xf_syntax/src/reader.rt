//! Reading the syntax of a whole text, by the table.
ghost use Rattle.std.specs.Prelude.{OnOk, ◌≡◌, ◌≤◌, ◌<◌, ◌+◌, ℕ, length, IfOk};
ghost use Rattle.xf_grammar.specs.Tokens.{terminal_at};
ghost use Rattle.xf_grammar.specs.Tree.{limited, closes, ends_in, shut, block};
ghost use Rattle.xf_format.specs.declared.expected.Expected.TheVariants as due;
ghost use Rattle.xf_format.specs.Actions.{free};
ghost use Rattle.xf_format.specs.Format.{format, payload_head_at, most_operations};
ghost use Rattle.xf_format.specs.Reading.{Gives};
ghost use Rattle.xf_format.specs.declared.row.Body.TheVariants as body;
ghost use Rattle.xf_format.specs.Rows.{bodies};
ghost use Rattle.xf_syntax.specs.declared.tree.File.{File};
ghost use Rattle.xf_syntax.specs.File.{payload_nodes_at, payload_block_at, payload_bodies_at};
ghost use Rattle.xf_syntax.specs.File.{payload_node_at, whole, file_at};
ghost use Rattle.xf_syntax.specs.Laws.{AtNoText};
ghost use Rattle.xf_syntax.specs.View.{nodes_of, bodies_of};
ghost use Rattle.xf_syntax.specs.Within.{ReadWithin};

use crate::tree::{Body, File, SyntaxNode};
use std::alloc::Global;
use xf_format::{
    Body as Bodies, Expected, Level, Parts, Row, Stopped, behind, due_before, head_at, inside,
    is_yield, may_end_open, row_bodies, row_header, row_tail, slots_at,
};
use xf_grammar::{looks, says};
use xf_lex::{Token, TokenKind};

/// The most regions that are open at a token.
const MOST_OPEN: u32 = 32;

/// The most operations of a text, the module and each terminator that is left out included.
const MOST_OPERATIONS: u32 = 1_000_000;

/// Whether the last operation of a body is a terminator that may be left out.
#[tactic(auto, using(crate::proofs::Going::last_ends))]
pub fn ends_in_yield(nodes: &[SyntaxNode]) -> bool
    ensures { result ≡ ends_in format.row format.is_terminator (nodes_of nodes.now) }
{
    match nodes {
        [.., last] => is_yield(last.parts.row),
        [] => false,
    }
}

/// The head of the operation that begins at a token, unless the operation is one too many.
fn begins_at(
    alloc: Global,
    tokens: &[Token],
    level: Level,
    count: u32,
    at: usize,
) -> Result<(Parts, usize), Stopped>
    ensures gives { Gives (λ x. ((x.0.row, free x.0), x.1)) result
        (limited most_operations due.ListEnd count at (payload_head_at tokens.now level at)) }
    ensures within { IfOk result (λ x. (at < x.1) × (x.1 ≤ length tokens.now) × (count < 1000000)) }
{
    let head = head_at(alloc, tokens, level, at);
    if count < MOST_OPERATIONS {
        return head;
    }
    match head {
        Err(Stopped::NoMemory) => Err(Stopped::NoMemory),
        Err(Stopped::At(place, due)) if place == at => Err(Stopped::At(place, due)),
        _ => Err(Stopped::At(at, Expected::ListEnd)),
    }
}

/// Whether a brace that closes stands there, or the end.
fn closes(tokens: &[Token], at: usize) -> bool
    ensures { result ≡ closes (terminal_at tokens.now at) }
{
    at >= tokens.len() || looks(tokens, at, TokenKind::Mark(b'}'))
}

/// The brace that closes a body, with the terminator that is left out before it.
fn shut(
    tokens: &[Token],
    parts: &Parts,
    nodes: &[SyntaxNode],
    count: &mut u32,
    at: usize,
) -> Result<usize, Stopped>
    ensures gives { Gives (λ n. ((block (nodes_of nodes.now) at, count.new), n)) result
        (shut format tokens.now parts.now (nodes_of nodes.now) count.old at) }
    ensures within { IfOk result (λ n. (at ≤ n) × (n ≤ length tokens.now)) }
{
    if !looks(tokens, at, TokenKind::Mark(b'}')) {
        return Err(Stopped::At(at, Expected::Other));
    }
    if may_end_open(parts) && !ends_in_yield(nodes) {
        if *count >= MOST_OPERATIONS {
            return Err(Stopped::At(at, Expected::ListEnd));
        }
        *count += 1;
    }
    Ok(at + 1)
}

/// A body: what begins it, and operations between braces, inside so many open regions.
#[cycle(tree)]
#[tactic(auto, unfolding(crate::specs::File::payload_block_at))]
fn body_at(
    alloc: Global,
    tokens: &[Token],
    row: Row,
    parts: &mut Parts,
    depth: u32,
    count: &mut u32,
    at: usize,
) -> Result<(Body, usize), Stopped>
    requires { at ≤ length tokens.now }
    ensures gives { (f : ℕ) → length tokens.now < f + at → Gives (λ x. (((free parts.new, x.0), count.new), x.1)) result
        (payload_block_at f tokens.now row depth (free parts.old) count.old at) }
    ensures within { IfOk result (λ x. (at ≤ x.1) × (x.1 ≤ length tokens.now)) }
{
    if !looks(tokens, at, TokenKind::Mark(b'{')) {
        return Err(Stopped::At(at, due_before(row)));
    }
    if depth >= MOST_OPEN {
        return Err(Stopped::At(at, Expected::NestLimit));
    }
    let next = slots_at(alloc, tokens, row_header(row), parts, at + 1)?;
    let (nodes, close) = nodes_at(alloc, tokens, inside(row), depth + 1, count, next)?;
    let next = shut(tokens, parts, nodes.as_slice(), count, close)?;
    Ok((Body { nodes, close }, next))
}

/// A body, and one behind `else` where this stands.
#[cycle(tree)]
#[tactic(auto, unfolding(crate::specs::File::payload_bodies_at))]
fn with_else(
    alloc: Global,
    tokens: &[Token],
    row: Row,
    parts: &mut Parts,
    depth: u32,
    count: &mut u32,
    at: usize,
) -> Result<(Vec<Body>, usize), Stopped>
    requires { at ≤ length tokens.now }
    ensures gives { (f : ℕ) → length tokens.now < f + at →
        Gives (λ x. (((free parts.new, bodies_of x.0.items), count.new), x.1)) result
        (payload_bodies_at body.WithElse tokens.now
        (payload_block_at f tokens.now row depth) (free parts.old) count.old at) }
    ensures within { IfOk result (λ x. (at ≤ x.1) × (x.1 ≤ length tokens.now)) }
{
    let mut bodies = Vec::with_capacity(alloc, 1)?;
    let (first, next) = body_at(alloc, tokens, row, parts, depth, count, at)?;
    bodies.push(first)?;
    if !says(tokens, next, b"else") {
        return Ok((bodies, next));
    }
    let (other, next) = body_at(alloc, tokens, row, parts, depth, count, next + 1)?;
    bodies.push(other)?;
    Ok((bodies, next))
}

/// The bodies of an operation.
#[cycle(tree)]
#[tactic(auto, unfolding(crate::specs::File::payload_bodies_at))]
fn bodies_at(
    alloc: Global,
    tokens: &[Token],
    row: Row,
    parts: &mut Parts,
    depth: u32,
    count: &mut u32,
    at: usize,
) -> Result<(Vec<Body>, usize), Stopped>
    requires { at ≤ length tokens.now }
    ensures gives { (f : ℕ) → length tokens.now < f + at →
        Gives (λ x. (((free parts.new, bodies_of x.0.items), count.new), x.1)) result
        (payload_bodies_at (bodies row) tokens.now
        (payload_block_at f tokens.now row depth) (free parts.old) count.old at) }
    ensures within { IfOk result (λ x. (at ≤ x.1) × (x.1 ≤ length tokens.now)) }
{
    match row_bodies(row) {
        Bodies::None => Ok((Vec::new(alloc), at)),
        Bodies::One => {
            let mut bodies = Vec::with_capacity(alloc, 1)?;
            let (one, next) = body_at(alloc, tokens, row, parts, depth, count, at)?;
            bodies.push(one)?;
            Ok((bodies, next))
        }
        Bodies::WithElse => with_else(alloc, tokens, row, parts, depth, count, at),
    }
}

/// An operation, inside so many open regions.
#[cycle(tree)]
#[tactic(auto, unfolding(crate::specs::File::payload_node_at))]
fn node_at(
    alloc: Global,
    tokens: &[Token],
    level: Level,
    depth: u32,
    count: &mut u32,
    at: usize,
) -> Result<(SyntaxNode, usize), Stopped>
    ensures gives { (f : ℕ) → length tokens.now ≤ f + at → Gives (λ x. ((x.0, count.new), x.1)) result
        (payload_node_at f tokens.now level depth count.old at) }
    ensures within { IfOk result (λ x. (at < x.1) × (x.1 ≤ length tokens.now)) }
{
    let (mut parts, next) = begins_at(alloc, tokens, level, *count, at)?;
    *count += 1;
    let row = parts.row;
    let (bodies, next) = bodies_at(alloc, tokens, row, &mut parts, depth, count, next)?;
    let next = slots_at(alloc, tokens, row_tail(row), &mut parts, next)?;
    let parts = Box::new(alloc, parts)?;
    Ok((
        SyntaxNode {
            first: at,
            parts,
            bodies,
        },
        next,
    ))
}

/// Operations up to a brace or the end, inside so many open regions.
#[cycle(tree)]
fn nodes_at(
    alloc: Global,
    tokens: &[Token],
    level: Level,
    depth: u32,
    count: &mut u32,
    at: usize,
) -> Result<(Vec<SyntaxNode>, usize), Stopped>
    requires { at ≤ length tokens.now }
    ensures gives { (f : ℕ) → length tokens.now < f + at → Gives (λ x. ((nodes_of x.0.items, count.new), x.1)) result
        (payload_nodes_at f tokens.now level depth count.old at) }
    ensures within { IfOk result (λ x. (at ≤ x.1) × (x.1 ≤ length tokens.now)) }
{
    let mut nodes = Vec::new(alloc);
    let mut level = level;
    let mut at = at;
    'ops: while !closes(tokens, at) {
        let (node, next) = node_at(alloc, tokens, level, depth, count, at)?;
        nodes.push(node)?;
        level = behind(level);
        at = next;
    }
    nodes.shrink_to_fit();
    Ok((nodes, at))
}

/// The end of a text, where this is due.
fn ended(tokens: &[Token], due: Expected, at: usize) -> Result<(), Stopped>
    ensures gives { (file : File) → Gives (λ _. (file, at)) result (whole tokens.now due file at) }
    ensures whole { at ≤ length tokens.now → OnOk result (at ≡ length tokens.now) }
{
    if at < tokens.len() {
        return Err(Stopped::At(at, due));
    }
    Ok(())
}

/// The syntax tree of a text.
fn file(alloc: Global, tokens: &[Token]) -> Result<File, Stopped>
    ensures { (f : ℕ) → length tokens.now < f → Gives (λ file. (file, length tokens.now)) result
        (file_at f tokens.now) }
{
    let mut count = 0;
    if says(tokens, 0, b"module") {
        let (root, next) = node_at(alloc, tokens, Level::File, 0, &mut count, 0)?;
        ended(tokens, Expected::Other, next)?;
        return Ok(File {
            written: true,
            root,
        });
    }
    count += 1;
    let (nodes, close) = nodes_at(alloc, tokens, Level::File, 1, &mut count, 0)?;
    ended(tokens, Expected::Function, close)?;
    let mut bodies = Vec::with_capacity(alloc, 1)?;
    bodies.push(Body { nodes, close })?;
    let parts = Box::new(alloc, Parts::new(alloc, Row::Module))?;
    Ok(File {
        written: false,
        root: SyntaxNode {
            first: 0,
            parts,
            bodies,
        },
    })
}

/// The syntax tree of a text: a module, or functions alone, and then the end.
///
/// It refuses with the first token that no text of the syntax has there, which is the end of the
/// text where all of them fit, and with what was due there. It takes time in the number of tokens,
/// and its calls nest no deeper than the regions of a text may.
#[tactic(auto, using(crate::proofs::TokenPlaces::at_no_text, crate::proofs::TreesWithin::read_within))]
pub fn syntax(alloc: Global, tokens: &[Token]) -> Result<File, Stopped>
    ensures exact { (f : ℕ) → length tokens.now < f → Gives (λ file. (file, length tokens.now)) result
        (file_at f tokens.now) }
    ensures place { AtNoText result tokens.now }
    ensures within { ReadWithin (length tokens.now) result }
{
    file(alloc, tokens)
}
