//! What an operation holds beside its name and its regions.
ghost use Rattle.std.specs.Prelude.{IfOk};
ghost use Rattle.xf_read.specs.Visible.{names_in};
ghost use Rattle.xf_read.specs.Walks.{IsHead};

use crate::faults::{Faults, earlier, names_twice, token_unless};
use crate::scope::VisibleNames;
use crate::types::agrees;
use crate::uses::{alias_in, look_up_all};
use std::alloc::Global;
use xf_format::{Parts, types_given, types_taken};
use xf_ir::{AttrList, Kind, ValueList};
use xf_lex::Token;
use xf_read_base::{attributes, kind_of};
use xf_type::{NoMemory, TypeList};

/// What an operation holds beside its name and its regions, the types of its block arguments, and
/// its faults but for names of its arguments that are visible already.
#[derive(Drop)]
pub struct MeantHead {
    pub kind: Kind,
    pub attrs: AttrList,
    pub operands: ValueList,
    pub results: TypeList,
    pub args: TypeList,
    pub faults: Faults,
}

/// The head of an operation, its first token that of this number. Refuses for want of memory alone.
pub fn head_of(
    alloc: Global,
    tokens: &[Token],
    scope: &VisibleNames,
    first: usize,
    parts: &Parts,
) -> Result<MeantHead, NoMemory>
    ensures { IfOk result (λ head. IsHead tokens.now (names_in scope.now) first parts.now head) }
{
    let results = types_given(alloc, parts)?;
    let args = types_taken(alloc, parts)?;
    let (attrs, twice) = attributes(alloc, tokens, parts.entries.as_slice())?;
    let used = look_up_all(alloc, tokens, scope, parts, parts.uses.as_slice())?;
    let faults = Faults {
        undefined: alias_in(parts.maps.as_slice()).or(used.undefined),
        twice: earlier(twice, names_twice(tokens, scope, parts)),
        mismatch: token_unless(agrees(parts, used.fit, &results, &args), first),
    };
    Ok(MeantHead {
        kind: kind_of(alloc, tokens, &[], parts)?,
        attrs,
        operands: used.values,
        results,
        args,
        faults,
    })
}
