//! The head of an operation by what it means.
ghost use Rattle.std.specs.Prelude.{◌≡◌, ◌++◌, drop, map, IfOk};
ghost use Rattle.xf_format.specs.Rows.{words};
ghost use Rattle.xf_format.specs.Words.{lookup};
ghost use Rattle.xf_read_base.specs.Spelt.{Answers, count_used, EndsWithin, head_of, head_spelt, is_constant, is_dense};
ghost use Rattle.xf_read_base.specs.Spelt.{ref_used, stated_by, stopped, is_shaped, is_other, behind_brace};
ghost use Rattle.xf_read_base.specs.Spelt.{value_place, word_place};
ghost use Rattle.xf_read_base.specs.Structured.{aliases_in};

use crate::alias::Alias;
use crate::entries::attributes;
use crate::heads::Head;
use crate::kinds::kind_of;
use crate::stop::due_fault;
use crate::verdict::is_row;
use std::alloc::Global;
use xf_format::{
    Expected, Level, Literal, Parts, Ref, RefList, Row, Stopped, Use, head_at, row_of,
};
use xf_grammar::{looks, says, word_at};
use xf_lex::{Token, TokenKind, TokenList};
use xf_span::{Fault, ReadFault};
use xf_type::{Duplicate, ListOf, NoMemory, TypeList};

/// One list and then another. Refuses for want of memory alone.
fn joined(alloc: Global, first: &TypeList, last: &TypeList) -> Result<TypeList, NoMemory>
    ensures { IfOk result (λ types. types ≡ first.now ++ last.now) }
{
    let mut types = first.duplicate(alloc)?;
    types.append(last.duplicate(alloc)?)?;
    Ok(types)
}

/// The types that are stated, in the order of the text. Refuses for want of memory alone.
fn stated_by(alloc: Global, parts: &Parts) -> Result<TypeList, NoMemory>
    ensures { IfOk result (λ types. types ≡ stated_by parts.now.row parts.now) }
{
    match parts.row {
        Row::Constant => match parts.literal {
            Some(Literal::Truth(_)) => Ok(TypeList::new(alloc)),
            _ => parts.types.duplicate(alloc),
        },
        Row::For => joined(alloc, &parts.results, &parts.types),
        _ => joined(alloc, &parts.types, &parts.results),
    }
}

/// The number of a use `%n#i`, and 0 of any other.
pub fn count_used(number: Option<u32>) -> u32
    ensures { result ≡ count_used number }
{
    match number {
        Some(number) => number,
        None => 0,
    }
}

/// The names of the operands. Refuses for want of memory alone.
fn refs_used(alloc: Global, uses: &[Use]) -> Result<RefList, NoMemory>
    ensures { IfOk result (λ refs. refs ≡ map ref_used uses.now) }
{
    let mut refs = ListOf::new(alloc);
    for name in uses {
        refs.push(Ref {
            token: name.token,
            count: count_used(name.number),
        })?;
    }
    Ok(refs)
}

/// The head with these parts, up to a token, by what the aliases of maps stand for. Refuses for want of
/// memory alone.
pub fn head_of(
    alloc: Global,
    tokens: &[Token],
    aliases: &[Alias],
    parts: Parts,
    next: usize,
) -> Result<Head, NoMemory>
    ensures { IfOk result (λ head. head ≡ head_of (aliases_in aliases.now) tokens.now parts next) }
{
    let kind = kind_of(alloc, tokens, aliases, &parts)?;
    let types = stated_by(alloc, &parts)?;
    let uses = refs_used(alloc, parts.uses.as_slice())?;
    let (attrs, _twice) = attributes(alloc, tokens, parts.entries.as_slice())?;
    let Parts { defines, args, .. } = parts;
    Ok(Head {
        kind,
        attrs,
        defines,
        args,
        uses,
        types,
        next,
    })
}

/// Where the word of the operation at a token stands: there, or behind the name of its results.
fn word_place(tokens: &[Token], at: usize) -> usize
    ensures { result ≡ word_place tokens.now at }
{
    if !looks(tokens, at, TokenKind::Value) {
        at
    } else if looks(tokens, at + 1, TokenKind::Mark(b':')) {
        at + 4
    } else {
        at + 2
    }
}

/// Whether a word is that of an operation of tensor or linalg.
fn is_shaped(word: &[u8]) -> bool
    ensures { result ≡ is_shaped word.now }
{
    is_row(word) && (word.starts_with(b"tensor.") || word.starts_with(b"linalg."))
}

/// Behind the first closing brace from a token on.
fn behind_brace(tokens: &[Token], from: usize) -> usize
    ensures { result ≡ behind_brace (drop from tokens.now) from }
{
    for at in from..tokens.len() {
        if looks(tokens, at, TokenKind::Mark(b'}')) {
            return at + 1;
        }
    }
    from.max(tokens.len())
}

/// Where the value of a constant stands: at this token, or behind attributes that begin there.
fn value_place(tokens: &[Token], at: usize) -> usize
    ensures { result ≡ value_place tokens.now at }
{
    if looks(tokens, at, TokenKind::Mark(b'{')) {
        behind_brace(tokens, at + 1)
    } else {
        at
    }
}

/// Whether a word is that of a constant.
fn is_constant(word: &[u8]) -> bool
    ensures { result ≡ is_constant (lookup words word.now) }
{
    matches!(row_of(word), Some(Row::Constant))
}

/// Whether the word of a constant with the body of a tensor stands there.
fn is_dense(tokens: &[Token], at: usize) -> bool
    ensures { result ≡ is_dense tokens.now at }
{
    is_constant(word_at(tokens, at)) && says(tokens, value_place(tokens, at + 1), b"dense")
}

/// Whether an operation of tensor or linalg stands at a token, or a constant that is a tensor. It takes
/// time in the number of the tokens of its attributes and their bytes.
pub fn is_other(tokens: &[Token], at: usize) -> bool
    ensures { result ≡ is_other tokens.now at }
{
    let word = word_place(tokens, at);
    is_shaped(word_at(tokens, word)) || is_dense(tokens, word)
}

/// The fault at a token that fits no head; none where no operation begins.
fn stopped(tokens: &[Token], at: usize, due: Expected) -> Option<Fault>
    ensures { result ≡ stopped tokens.now at due }
{
    match due {
        Expected::Operation if !is_row(word_at(tokens, at)) => None,
        due => Some(due_fault(tokens, at, due)),
    }
}

/// The head of the operation at a token, wherever in a payload it may stand: of the module, func,
/// arith and scf dialects. None where no operation of these begins, neither at the token nor behind
/// the names of results: where one of another reader stands, which an `arith.constant` that is a tensor
/// is too, or none at all.
///
/// It refuses with the fault at the first token that fits no head: out of profile where that token is
/// listed as a form of MLIR that is not supported, too many at the item, name or string with which
/// a list of the tree would have 2^32 entries, and else of the syntax. It
/// takes time in the number of its tokens and their bytes, and the logarithm of the number of its
/// attributes.
pub fn head(alloc: Global, tokens: &TokenList, at: usize) -> Result<Option<Head>, ReadFault>
    ensures answers { Answers result (head_spelt tokens.now at) }
    ensures within { IfOk result (λ head. EndsWithin tokens.now at head) }
{
    let tokens = tokens.as_slice();
    if is_other(tokens, at) {
        return Ok(None);
    }
    match head_at(alloc, tokens, Level::Any, at) {
        Ok((parts, next)) => Ok(Some(head_of(alloc, tokens, &[], parts, next)?)),
        Err(Stopped::NoMemory) => Err(ReadFault::NoMemory),
        Err(Stopped::At(stop, due)) => match stopped(tokens, stop, due) {
            None => Ok(None),
            Some(fault) => Err(ReadFault::At(fault)),
        },
    }
}
