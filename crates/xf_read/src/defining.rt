//! What an operation lets names stand for.
ghost use Rattle.std.specs.Prelude.{◌≡◌, IfOk, OnOk, map, min, option_map, slice_get};
ghost use Rattle.xf_format.specs.Parts.{text_at, arg_said, define_said, said};
ghost use Rattle.xf_read.specs.Names.{earlier, argument_number, argument_named, results_named, symbol_named};
ghost use Rattle.xf_read.specs.Names.{args_twice, visible_at, with_arguments, with_defines, with_function, behind};
ghost use Rattle.xf_read.specs.Scopes.{with_name};
ghost use Rattle.std.specs.Option.{option_copied};
ghost use Rattle.xf_read.specs.Types.{result_types};
ghost use Rattle.xf_read.specs.Visible.{names_in, Grows};

use crate::faults::{earlier, function_symbol, has_values, token_if};
use crate::scope::{Definer, Named, VisibleNames};
use crate::types::one_type;
use std::alloc::Global;
use xf_format::{Parts, Ref};
use xf_ir::OpName;
use xf_lex::Token;
use xf_read_base::text;
use xf_type::{Duplicate, NoMemory, PayloadType, TypeList};

/// The number of an argument, up to 2^32 - 1.
fn argument_number(at: usize) -> u32
    ensures { result ≡ argument_number at }
{
    at.min(0xffff_ffff) as u32
}

/// What the name of an argument of an operation stands for. Refuses for want of memory alone.
fn argument_named(
    alloc: Global,
    number: u64,
    at: usize,
    ty: Option<&PayloadType>,
) -> Result<Named, NoMemory>
    ensures { IfOk result (λ named. named ≡ argument_named number at (option_copied ty.entry)) }
{
    let types = one_type(alloc, ty)?;
    let definer = Definer::Argument(OpName(number), argument_number(at));
    Ok(Named::new(1, definer, types))
}

/// Lets an argument of an operation stand for its name, and answers that name where it was visible
/// already. Refuses for want of memory alone.
fn enter_arg<'a>(
    alloc: Global,
    tokens: &'a [Token],
    scope: &mut VisibleNames<'a>,
    number: u64,
    types: &TypeList,
    at: usize,
    name: Ref,
) -> Result<Option<usize>, NoMemory>
    ensures twice { IfOk result (λ twice. twice ≡ visible_at tokens.now (names_in scope.old) name.token) }
    ensures names { OnOk result (names_in scope.new ≡ with_name (text_at tokens.now name.token)
        (argument_named number at (slice_get types.now at)) (names_in scope.old)) }
    ensures grows { OnOk result (Grows scope.old scope.new) }
{
    let named = argument_named(alloc, number, at, types.get(at))?;
    let seen = scope.enter(text(tokens, name.token), named)?;
    Ok(token_if(seen, name.token))
}

/// Lets the arguments of an operation stand for their names, and answers the first whose name was
/// visible already. Refuses for want of memory alone.
pub fn enter_args<'a>(
    alloc: Global,
    tokens: &'a [Token],
    scope: &mut VisibleNames<'a>,
    number: u64,
    types: &TypeList,
    args: &[Ref],
) -> Result<Option<usize>, NoMemory>
    ensures twice { IfOk result (λ twice. twice ≡ args_twice tokens.now number 0 types.now args.now
        (names_in scope.old)) }
    ensures names { OnOk result (names_in scope.new ≡ with_arguments number 0 types.now
        (map (arg_said tokens.now) args.now) (names_in scope.old)) }
    ensures grows { OnOk result (Grows scope.old scope.new) }
{
    let mut twice = None;
    for (at, name) in args.iter().enumerate() {
        let seen = enter_arg(alloc, tokens, scope, number, types, at, *name)?;
        twice = earlier(twice, seen);
    }
    Ok(twice)
}

/// Lets the name of an operation's results stand for them, where they have one and are not none.
fn enter_results<'a>(
    alloc: Global,
    tokens: &'a [Token],
    scope: &mut VisibleNames<'a>,
    number: u64,
    types: &TypeList,
    defines: &[Ref],
) -> Result<(), NoMemory>
    ensures names { OnOk result (names_in scope.new ≡ with_defines number types.now
        (map (define_said tokens.now) defines.now) (names_in scope.old)) }
    ensures grows { OnOk result (Grows scope.old scope.new) }
{
    match defines {
        [] => Ok(()),
        [name, ..] if has_values(name.count) => {
            let definer = Definer::Results(OpName(number));
            let named = Named::new(name.count, definer, types.duplicate(alloc)?);
            scope.enter(text(tokens, name.token), named)?;
            Ok(())
        }
        [_, ..] => Ok(()),
    }
}

/// Lets the symbol of a function stand for it.
fn enter_symbol<'a>(
    alloc: Global,
    tokens: &'a [Token],
    scope: &mut VisibleNames<'a>,
    symbol: Option<usize>,
) -> Result<(), NoMemory>
    ensures names { OnOk result (names_in scope.new ≡ with_function (option_map (text_at tokens.now) symbol)
        (names_in scope.old)) }
    ensures grows { OnOk result (Grows scope.old scope.new) }
{
    match symbol {
        None => Ok(()),
        Some(at) => {
            let named = Named::new(0, Definer::Symbol, TypeList::new(alloc));
            scope.enter(text(tokens, at), named)?;
            Ok(())
        }
    }
}

/// Lets the names that an operation defines stand for what they stand for behind it. The types are
/// those of its results. Refuses for want of memory alone.
pub fn enter_names<'a>(
    alloc: Global,
    tokens: &'a [Token],
    scope: &mut VisibleNames<'a>,
    number: u64,
    types: &TypeList,
    parts: &Parts,
) -> Result<(), NoMemory>
    requires { types.now ≡ result_types (said tokens.now parts.now) }
    ensures names { OnOk result (names_in scope.new ≡ behind number (said tokens.now parts.now) (names_in scope.old)) }
    ensures grows { OnOk result (Grows scope.old scope.new) }
{
    enter_symbol(alloc, tokens, scope, function_symbol(parts))?;
    enter_results(
        alloc,
        tokens,
        scope,
        number,
        types,
        parts.defines.as_slice(),
    )?;
    Ok(())
}
