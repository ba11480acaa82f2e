//! Whether the types of an operation are those of its values, and its lists as long as they are to be.
ghost use Rattle.std.specs.Prelude.{◌≡◌, ◌==◌, length, map, List, IfOk};
ghost use Rattle.std.specs.Option.{option_copied};
ghost use Rattle.xf_lex.specs.declared.token.Token.{Token as GhostToken};
ghost use Rattle.xf_format.specs.Columns as columns;
ghost use Rattle.xf_format.specs.Parts.{said, use_said, define_said};
ghost use Rattle.xf_read.specs.Names.{uses_fit, defines_fit, types_agree};
ghost use Rattle.xf_type.specs.Equal.{same_type};
ghost use Rattle.xf_read.specs.Types.{one_type, fits};
ghost use Rattle.xf_read.specs.Scopes.{Meanings};

use std::alloc::Global;
use xf_format::{Parts, Ref, is_counted};
use xf_type::{Duplicate, ListOf, NoMemory, PayloadType, TypeList, same_type};

/// The type, where it is there.
pub fn one_type(alloc: Global, ty: Option<&PayloadType>) -> Result<TypeList, NoMemory>
    ensures { IfOk result (λ types. types ≡ one_type (option_copied ty.entry)) }
{
    let mut types = TypeList::new(alloc);
    if let Some(ty) = ty {
        types.push(ty.duplicate(alloc)?)?;
    }
    Ok(types)
}

/// Whether a type that is stated is that of the value, where both are known.
pub fn fits(stated: Option<&PayloadType>, used: Option<&PayloadType>) -> bool
    ensures { result ≡ fits (option_copied stated.entry) (option_copied used.entry) }
{
    match stated {
        None => true,
        Some(stated) => match used {
            None => true,
            Some(used) => same_type(stated, used),
        },
    }
}

/// Whether a name of results, where there is one, is one of so many.
fn results_fit(defines: &[Ref], types: &TypeList) -> bool
    ensures { (all : List GhostToken) → result ≡ defines_fit (map (define_said all) defines.now) types.now }
{
    match defines {
        [] => true,
        [name, ..] => name.count as usize == types.len(),
    }
}

/// Whether the types that are stated are those of the values, and names, values and types that
/// stand for each other are as many. The operands are told to fit, and the types are those of the
/// results and of the arguments.
pub fn agrees(parts: &Parts, fit: bool, results: &TypeList, args: &TypeList) -> bool
    requires results { results.now
        ≡ columns.types_given (columns.result_types parts.now.row) parts.now.types parts.now.results }
    requires args { args.now
        ≡ columns.types_taken (columns.argument_types parts.now.row) (length parts.now.uses) parts.now.types
        parts.now.results }
    ensures { (all : List GhostToken) (scope : Meanings)
        → fit ≡ uses_fit scope (said all parts.now) 0 (map (use_said all) parts.now.uses)
        → result ≡ types_agree (said all parts.now) scope }
{
    is_counted(parts)
        && fit
        && (results_fit(parts.defines.as_slice(), results) && parts.args.len() == args.len())
}
