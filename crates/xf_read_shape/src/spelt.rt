//! The head of an operation by what it means.
ghost use Rattle.std.specs.Prelude.{◌≡◌, Some, Ok, IfOk};
ghost use Rattle.xf_read_base.specs.Spelt.{Answers, EndsWithin};
ghost use Rattle.xf_read_base.specs.Structured.{aliases_in};
ghost use Rattle.xf_read_shape.specs.Shaped.{head_spelt};

use std::alloc::Global;
use xf_format::{Level, Stopped, head_at};
use xf_lex::TokenList;
use xf_read_base::{AliasList, Head, due_fault, head_of, is_other};
use xf_span::ReadFault;

/// The head of the operation at a token: of tensor or linalg, or of an `arith.constant` that is a tensor.
/// None where no operation of these begins, neither at the token nor behind the names of results.
///
/// An alias of a map is the first of its name in `aliases`; one that they lack is the map without
/// dimensions. It refuses with the fault at the first token that fits no head: out of profile where that
/// token is listed as a form of MLIR that is not supported, too many at the item, name or string with
/// which a list of the tree would have 2^32 entries, and else of the syntax. It takes time in the number
/// of its tokens and their bytes, the logarithm of the number of its attributes, and, for each of its
/// aliases, in the number of all aliases.
pub fn head(
    alloc: Global,
    tokens: &TokenList,
    at: usize,
    aliases: &AliasList,
) -> Result<Option<Head>, ReadFault>
    ensures answers { Answers result (head_spelt (aliases_in aliases.now) tokens.now at) }
    ensures within { IfOk result (λ head. EndsWithin tokens.now at head) }
{
    let tokens = tokens.as_slice();
    if !is_other(tokens, at) {
        return Ok(None);
    }
    match head_at(alloc, tokens, Level::Any, at) {
        Ok((parts, next)) => Ok(Some(head_of(alloc, tokens, aliases.as_slice(), parts, next)?)),
        Err(Stopped::NoMemory) => Err(ReadFault::NoMemory),
        Err(Stopped::At(stop, due)) => Err(ReadFault::At(due_fault(tokens, stop, due))),
    }
}
