//! The values that names stand for.
ghost use Rattle.std.specs.Prelude.{◌≡◌, ◌∷◌, ◌++◌, [], ◌&&◌, IfOk, OnOk, map, None, Some, if◌then◌else◌};
ghost use Rattle.std.specs.Option.{option_copied, option_or};
ghost use Rattle.xf_format.specs.Parts.{said, use_said};
ghost use Rattle.xf_read.specs.Names.{alias_in, undefined_in, uses_fit};
ghost use Rattle.xf_read.specs.Scopes.{has_use, value_in, type_in, use_means, use_value, use_type};
ghost use Rattle.xf_read.specs.Types.{fits};
ghost use Rattle.xf_read.specs.Visible.{names_in};

use crate::faults::token_unless;
use crate::scope::{Definer, Named, VisibleNames};
use crate::types::fits;
use std::alloc::Global;
use xf_format::{MapEntry, Parts, Use, operand_type};
use xf_ir::{ValueList, ValueName};
use xf_lex::Token;
use xf_read_base::{count_used, text};
use xf_type::{NoMemory, PayloadType};

/// What uses stand for.
#[derive(Drop)]
pub struct Used {
    /// Their values, any for a use that stands for none.
    pub values: ValueList,
    /// The first use that stands for no value.
    pub undefined: Option<usize>,
    /// Whether the values have the types that are stated for them.
    pub fit: bool,
}

/// Whether a name has the value of a use with that number.
fn has_use(number: Option<u32>, named: Option<&Named>) -> bool
    ensures { result ≡ has_use number (option_copied named.entry) }
{
    match named {
        None => false,
        Some(named) => match number {
            Some(number) => number < named.most,
            None => named.single,
        },
    }
}

/// The value of a name with that number, or any where the name stands for none.
fn value_in(named: Option<&Named>, at: u32) -> ValueName
    ensures { result ≡ value_in (option_copied named.entry) at }
{
    match named {
        None => ValueName::Free(0),
        Some(named) => match named.definer {
            Definer::Results(op) => ValueName::Result { op, num: at },
            Definer::Argument(op, num) => ValueName::Arg { op, region: 0, num },
            Definer::Symbol => ValueName::Free(0),
        },
    }
}

/// The type of that value, where it is known.
fn type_in<'s>(named: Option<&'s Named>, at: u32) -> Option<&'s PayloadType>
    ensures { option_copied result ≡ type_in (option_copied named.entry) at }
{
    match named {
        None => None,
        Some(named) => named.types.get(at as usize),
    }
}

/// Adds what a use stands for to what those before it do; the type is the one that is stated for it.
fn look_up(
    tokens: &[Token],
    scope: &VisibleNames,
    name: Use,
    stated: Option<&PayloadType>,
    used: &mut Used,
) -> Result<(), NoMemory>
    ensures values { OnOk result (used.new.values ≡
        used.old.values ++ use_value (names_in scope.now) (use_said tokens.now name) ∷ []) }
    ensures undefined { OnOk result (used.new.undefined ≡ option_or used.old.undefined
        (if use_means (names_in scope.now) (use_said tokens.now name) then None else Some name.token)) }
    ensures fit { OnOk result (used.new.fit ≡ (used.old.fit
        && fits (option_copied stated.entry) (use_type (names_in scope.now) (use_said tokens.now name)))) }
{
    let named = scope.look(text(tokens, name.token));
    let at = count_used(name.number);
    let defined = has_use(name.number, named);
    used.values.push(value_in(named, at))?;
    used.undefined = used.undefined.or(token_unless(defined, name.token));
    used.fit = used.fit && fits(stated, type_in(named, at));
    Ok(())
}

/// The first alias of a map: a text defines none yet.
pub fn alias_in(maps: &[MapEntry]) -> Option<usize>
    ensures { result ≡ alias_in maps.now }
{
    for map in maps {
        if let MapEntry::Alias(token) = map {
            return Some(*token);
        }
    }
    None
}

/// What the uses of an operation stand for, each of which is looked up once. Refuses for want of memory
/// alone.
pub fn look_up_all(
    alloc: Global,
    tokens: &[Token],
    scope: &VisibleNames,
    parts: &Parts,
    uses: &[Use],
) -> Result<Used, NoMemory>
    ensures values { IfOk result (λ used. used.values ≡
        map (use_value (names_in scope.now)) (map (use_said tokens.now) uses.now)) }
    ensures undefined { IfOk result (λ used. used.undefined ≡
        undefined_in tokens.now (names_in scope.now) uses.now) }
    ensures fit { IfOk result (λ used. used.fit ≡ uses_fit (names_in scope.now) (said tokens.now parts.now) 0
        (map (use_said tokens.now) uses.now)) }
{
    let mut used = Used {
        values: ValueList::new(alloc),
        undefined: None,
        fit: true,
    };
    for (i, name) in uses.iter().enumerate() {
        look_up(tokens, scope, *name, operand_type(parts, i), &mut used)?;
    }
    Ok(used)
}
