//! The functions of a module by their symbols, and how deep the calls from each go.
ghost use Rattle.std.specs.Prelude.{◌≡◌, ◌++◌, Some, [], map, IfOk, OnOk};
ghost use Rattle.std.specs.Option.{option_copied};
ghost use Rattle.xf_ir.specs.Calls.{signatures, callee_before, callee_ends, regions_callees, chains_end};
ghost use Rattle.xf_ir.specs.Lists.{every};
ghost use Rattle.xf_ir.specs.Placed.{functions_of};
ghost use Rattle.xf_verify.specs.Chains.{no_numbers, numbers_in, with_number, number_from, pick, numbers_called};
ghost use Rattle.xf_verify.specs.Chains.{tree_calls, ends_at, ends_after, signatures_in, ends_in};
ghost use Rattle.xf_rules.specs.Given.{callee_of, callee_seen};

use crate::functions::functions_of;
use std::alloc::Global;
use std::collections::BTreeMap;
use xf_ir::{Kind, Module, Op, Signature, signature_of};
use xf_type::{ListOf, NoMemory};

/// The numbers of functions in their block, by their symbols.
type NumberBySymbol<'a> = BTreeMap<&'a [u8], usize>;

/// The numbers of the functions that a function calls, in order and with repeats.
type CalleeList = ListOf<usize>;

/// How many functions a chain of calls may pass from a callee on.
const LONGEST_CHAIN: usize = 31;

/// The functions of a module, and whether the calls from each are short enough for another to call it.
#[derive(Drop)]
pub struct CallGraph<'a> {
    functions: &'a [Op],
    numbers: NumberBySymbol<'a>,
    ends: Vec<bool>,
}

/// Gives the number to the symbol of a function that no function before has.
fn add_number<'a>(
    numbers: &mut NumberBySymbol<'a>,
    kind: &'a Kind,
    number: usize,
) -> Result<(), NoMemory>
    ensures { OnOk result (numbers_in numbers.new ≡ with_number kind.now number (numbers_in numbers.old)) }
{
    if let Kind::Func { symbol, .. } = kind {
        let symbol = symbol.as_slice();
        if !numbers.contains_key(symbol) {
            numbers.insert(symbol, number)?;
        }
    }
    Ok(())
}

/// The numbers of functions by their symbols.
fn numbers_of<'a>(alloc: Global, functions: &'a [Op]) -> Result<NumberBySymbol<'a>, NoMemory>
    ensures { IfOk result (λ numbers. numbers_in numbers ≡ number_from 0 functions.now) }
{
    let mut numbers = BTreeMap::new(alloc);
    for (number, function) in functions.iter().enumerate() {
        add_number(&mut numbers, &function.kind, number)?;
    }
    Ok(numbers)
}

/// Adds the number of the function that an operation calls.
fn add_call(
    numbers: &NumberBySymbol<'_>,
    kind: &Kind,
    callees: &mut CalleeList,
) -> Result<(), NoMemory>
    ensures { OnOk result (callees.new
        ≡ callees.old ++ numbers_called (numbers_in numbers.now) (callee_before kind.now [])) }
{
    if let Kind::Call { callee } = kind {
        if let Some(number) = numbers.get(callee.as_slice()) {
            callees.push(*number)?;
        }
    }
    Ok(())
}

/// Adds the numbers of the functions that the operations inside another call.
fn add_calls(
    numbers: &NumberBySymbol<'_>,
    op: &Op,
    callees: &mut CalleeList,
) -> Result<(), NoMemory>
    ensures { OnOk result (callees.new
        ≡ callees.old ++ numbers_called (numbers_in numbers.now) (regions_callees op.now.regions)) }
{
    for block in &op.regions {
        for inner in &block.ops {
            add_call(numbers, &inner.kind, callees)?;
            add_calls(numbers, inner, callees)?;
        }
    }
    Ok(())
}

/// What each function calls.
fn calls_of(
    alloc: Global,
    numbers: &NumberBySymbol<'_>,
    functions: &[Op],
) -> Result<Vec<CalleeList>, NoMemory>
    ensures { IfOk result (λ calls. calls.items ≡ map (tree_calls (numbers_in numbers.now)) functions.now) }
{
    let mut calls = Vec::new(alloc);
    for function in functions {
        let mut callees = ListOf::new(alloc);
        add_calls(numbers, function, &mut callees)?;
        calls.push(callees)?;
    }
    Ok(calls)
}

/// Whether the chains of calls from the function of that number end. From one that is not there they do.
fn ends_at(ends: &[bool], number: usize) -> bool
    ensures { result ≡ ends_at ends.now number }
{
    ends.get(number).copied().unwrap_or(true)
}

/// Whether the chains of calls from each of these functions end.
fn all_end(callees: &[usize], ends: &[bool]) -> bool
    ensures { result ≡ every (ends_at ends.now) callees.now }
{
    for callee in callees {
        if !ends_at(ends, *callee) {
            return false;
        }
    }
    true
}

/// Whether the chains of calls from each function pass at most one function more than before.
fn one_longer(alloc: Global, calls: &[CalleeList], ends: &[bool]) -> Result<Vec<bool>, NoMemory>
    ensures { IfOk result (λ longer. longer.items ≡ map (every (ends_at ends.now)) calls.now) }
{
    let mut longer = Vec::new(alloc);
    for callees in calls {
        longer.push(all_end(callees.as_slice(), ends))?;
    }
    Ok(longer)
}

/// Whether the chains of calls from each function are short enough for another to call it.
///
/// A chain that comes to a cycle never ends.
fn ends_of(alloc: Global, calls: &[CalleeList]) -> Result<Vec<bool>, NoMemory>
    ensures { IfOk result (λ ends. ends.items ≡ ends_after 31 calls.now) }
{
    let mut ends = vec![in alloc; false; calls.len()]?;
    for passed in 0..LONGEST_CHAIN {
        ends = one_longer(alloc, calls, &ends)?;
    }
    Ok(ends)
}

impl<'a> CallGraph<'a> {
    /// The calls of a module. Refuses for want of memory alone.
    ///
    /// Takes time in the number of operations, with a look-up for each call, and 31 passes over the calls.
    pub fn new(alloc: Global, m: &'a Module) -> Result<CallGraph<'a>, NoMemory>
        ensures signatures { IfOk result (λ calls. signatures_in calls ≡ signatures m.now) }
        ensures ends { IfOk result (λ calls. ends_in calls ≡ chains_end (functions_of m.now) 31) }
    {
        let functions = functions_of(m);
        let numbers = numbers_of(alloc, functions)?;
        let calls = calls_of(alloc, &numbers, functions)?;
        let ends = ends_of(alloc, &calls)?;
        Ok(CallGraph {
            functions,
            numbers,
            ends,
        })
    }

    /// The function of a symbol. Takes time in the logarithm of the number of functions.
    fn function(&self, symbol: &[u8]) -> Option<&'a Op>
        ensures { option_copied result ≡ pick self.now.functions.now (numbers_in self.now.numbers symbol.now) }
    {
        let number = self.numbers.get(symbol)?;
        self.functions.get(*number)
    }

    /// The signature of the function that an operation calls; `None` where it calls none that there is.
    pub fn callee(&self, kind: &Kind) -> Option<Signature<'a>>
        ensures { callee_seen result ≡ callee_of (signatures_in self.now) kind.now }
    {
        match kind {
            Kind::Call { callee } => match self.function(callee.as_slice()) {
                Some(function) => Some(signature_of(function)),
                None => None,
            },
            _ => None,
        }
    }

    /// Whether an operation calls no function whose chains of calls are too long.
    pub fn callee_ends(&self, kind: &Kind) -> bool
        ensures { result ≡ callee_ends (ends_in self.now) kind.now }
    {
        match kind {
            Kind::Call { callee } => match self.numbers.get(callee.as_slice()) {
                Some(number) => ends_at(&self.ends, *number),
                None => true,
            },
            _ => true,
        }
    }
}
