//! The names of a function's values: an ordered index of what its operations define.
ghost use Rattle.std.specs.Prelude.{◌≡◌, ◌+◌, ◌++◌, OnOk, IfOk};
ghost use Rattle.std.specs.Option.{option_map, option_copied};
ghost use Rattle.xf_ir.specs.Tree.{cons, no_ops};
ghost use Rattle.xf_ir.specs.View.{ops_of, regions_of};
ghost use Rattle.xf_print_base.specs.Index.{entry_of, names_of};
ghost use Rattle.xf_print_base.specs.Texts.{digits_text};
ghost use Rattle.xf_format.specs.Rules.{type_rule, use_rule};
ghost use Rattle.xf_grammar.specs.Grammar.{gap_of};
ghost use Rattle.xf_grammar.specs.Layout.{gap_text};
ghost use Rattle.xf_printed.specs.Items.{argument_use, part_digits, result_use, rule_text, use_fill, value_fill};
ghost use Rattle.xf_printed.specs.Items.{value_type_fill};
ghost use Rattle.xf_printed.specs.Names.{no_names, with_op, with_ops, with_regions, first_args, next_number};
ghost use Rattle.xf_printed.specs.Names.{argument_text, type_of, number_of, first_of};

use crate::types::write_some_type;
use crate::words::{write_gap, write_number};
use std::alloc::{AllocError, Global};
use std::collections::BTreeMap;
use xf_ir::{Block, Op, OpName, ValueName, first_args};
use xf_type::{NoMemory, PayloadType};

/// An operation with the number of its results, and the first number of the arguments of its first block.
#[derive(Clone, Copy)]
pub struct Defined<'a> {
    pub op: &'a Op,
    pub number: u64,
    pub first: u64,
}

/// What the operations of a function define, by their names, and the next numbers.
#[derive(Drop)]
pub struct Index<'a> {
    pub entries: BTreeMap<u64, Defined<'a>>,
    pub number: u64,
    pub argument: u64,
}

/// A sum of two numbers. One past 2^64 - 1, of more values than any memory holds, counts as want of memory.
pub fn sum(left: u64, right: u64) -> Result<u64, NoMemory>
    ensures { IfOk result (λ sum. sum ≡ left + right) }
{
    match left.checked_add(right) {
        Some(sum) => Ok(sum),
        None => Err(AllocError),
    }
}

/// The number behind that of an operation with these results.
fn next_number(number: u64, results: &[PayloadType]) -> Result<u64, NoMemory>
    ensures { IfOk result (λ next. next ≡ next_number number results.now) }
{
    match results {
        [] => Ok(number),
        _ => sum(number, 1),
    }
}

/// Appends which of several results it is.
fn write_part(results: &[PayloadType], num: u32, line: &mut Vec<u8>) -> Result<(), NoMemory>
    ensures { OnOk result (line.new.items
        ≡ line.old.items ++ digits_text (part_digits results.now num)) }
{
    match results {
        [_, _, ..] => {
            line.push(b'#')?;
            write_number(u128::from(num), line)
        }
        _ => Ok(()),
    }
}

/// Appends the name of a result.
#[tactic(auto, using(crate::proofs::Texts::use_text, std::proofs::lemmas::Grind::common_steps))]
fn write_result(gap: bool, of: Defined<'_>, num: u32, line: &mut Vec<u8>) -> Result<(), NoMemory>
    ensures { OnOk result (line.new.items
        ≡ line.old.items ++ rule_text (use_rule gap) (use_fill (result_use (entry_of of.entry) num))) }
{
    write_gap(gap, line)?;
    line.push(b'%')?;
    write_number(u128::from(of.number), line)?;
    write_part(results_of(of), num, line)?;
    Ok(())
}

/// Appends the name of the argument with that number.
pub fn write_argument(gap: bool, number: u128, line: &mut Vec<u8>) -> Result<(), NoMemory>
    ensures { OnOk result (line.new.items
        ≡ line.old.items ++ (gap_text (gap_of gap) ++ argument_text number)) }
{
    write_gap(gap, line)?;
    line.extend_from_slice(b"%arg")?;
    write_number(number, line)
}

/// Appends the name of an argument of a block.
#[tactic(auto, using(crate::proofs::Texts::name_text))]
fn write_block_argument(
    gap: bool,
    of: Defined<'_>,
    num: u32,
    line: &mut Vec<u8>,
) -> Result<(), NoMemory>
    ensures { OnOk result (line.new.items
        ≡ line.old.items ++ rule_text (use_rule gap) (use_fill (argument_use (entry_of of.entry) num))) }
{
    write_argument(gap, u128::from(of.first) + u128::from(num), line)?;
    Ok(())
}

/// The types of an operation's results.
fn results_of<'a>(of: Defined<'a>) -> &'a [PayloadType]
    ensures { result.now ≡ (entry_of of.entry).results }
{
    let op = of.op;
    op.results.as_slice()
}

/// The types of the arguments of its first block.
fn args_of<'a>(of: Defined<'a>) -> &'a [PayloadType]
    ensures { result.now ≡ (entry_of of.entry).args }
{
    let op = of.op;
    first_args(op.regions.as_slice())
}

impl<'a> Index<'a> {
    /// The index where nothing is defined.
    pub fn new(alloc: Global) -> Index<'a>
        ensures { names_of result ≡ no_names }
    {
        Index {
            entries: BTreeMap::new(alloc),
            number: 0,
            argument: 0,
        }
    }

    /// Gives an operation its numbers. Refuses for want of memory alone.
    fn add(&mut self, op: &'a Op) -> Result<(), NoMemory>
        ensures { OnOk result (names_of self.new
            ≡ with_op op.now.name op.now.results (first_args op.now.regions) (names_of self.old)) }
    {
        let defined = Defined {
            op,
            number: self.number,
            first: self.argument,
        };
        let args = first_args(op.regions.as_slice());
        self.number = next_number(self.number, op.results.as_slice())?;
        self.argument = sum(self.argument, args.len() as u64)?;
        self.entries.insert(op.name.0, defined)?;
        Ok(())
    }

    /// Gives an operation and all that it holds their numbers, in preorder. Refuses for want of memory alone.
    #[cycle(number)]
    pub fn add_op(&mut self, op: &'a Op) -> Result<(), NoMemory>
        ensures { OnOk result (names_of self.new ≡ with_ops (names_of self.old) (cons op.now no_ops)) }
    {
        self.add(op)?;
        self.add_regions(op.regions.as_slice())
    }

    /// Gives the operations of a block their numbers.
    #[cycle(number)]
    fn add_ops(&mut self, ops: &'a [Op]) -> Result<(), NoMemory>
        ensures { OnOk result (names_of self.new ≡ with_ops (names_of self.old) (ops_of ops.now)) }
    {
        for op in ops {
            self.add_op(op)?;
        }
        Ok(())
    }

    /// Gives what regions hold its numbers.
    #[cycle(number)]
    fn add_regions(&mut self, regions: &'a [Block]) -> Result<(), NoMemory>
        ensures { OnOk result (names_of self.new
            ≡ with_regions (names_of self.old) (regions_of regions.now)) }
    {
        for block in regions {
            self.add_ops(block.ops.as_slice())?;
        }
        Ok(())
    }

    fn defined(&self, op: OpName) -> Option<Defined<'a>>
        ensures { option_map entry_of result ≡ (names_of self.now).entry op.0 }
    {
        self.entries.get(&op.0).copied()
    }

    /// The number of an operation's results.
    pub fn number_of(&self, op: OpName) -> u64
        ensures { result ≡ number_of ((names_of self.now).entry op.0) }
    {
        match self.defined(op) {
            None => 0,
            Some(defined) => defined.number,
        }
    }

    /// The number of the first argument of an operation's first block.
    pub fn first_of(&self, op: OpName) -> u64
        ensures { result ≡ first_of ((names_of self.now).entry op.0) }
    {
        match self.defined(op) {
            None => 0,
            Some(defined) => defined.first,
        }
    }

    /// Appends the name of a value. Refuses for want of memory alone.
    #[tactic(auto, using(crate::proofs::Texts::no_use_text))]
    pub fn write_use(&self, gap: bool, value: ValueName, line: &mut Vec<u8>) -> Result<(), NoMemory>
        ensures { OnOk result (line.new.items
            ≡ line.old.items ++ rule_text (use_rule gap) (value_fill (names_of self.now) value)) }
    {
        match value {
            ValueName::Result { op, num } => match self.defined(op) {
                None => write_gap(gap, line),
                Some(defined) => write_result(gap, defined, num, line),
            },
            ValueName::Arg { op, num, .. } => match self.defined(op) {
                None => write_gap(gap, line),
                Some(defined) => write_block_argument(gap, defined, num, line),
            },
            ValueName::Free(_) => write_gap(gap, line),
        }
    }

    /// The type of a value.
    pub fn type_of(&self, value: ValueName) -> Option<&'a PayloadType>
        ensures { option_copied result ≡ type_of (names_of self.now) value }
    {
        match value {
            ValueName::Result { op, num } => results_of(self.defined(op)?).get(num as usize),
            ValueName::Arg { op, num, .. } => args_of(self.defined(op)?).get(num as usize),
            ValueName::Free(_) => None,
        }
    }

    /// Appends the type of a value. Refuses for want of memory alone.
    pub fn write_type_of(
        &self,
        gap: bool,
        value: ValueName,
        line: &mut Vec<u8>,
    ) -> Result<(), NoMemory>
        ensures { OnOk result (line.new.items
            ≡ line.old.items ++ rule_text (type_rule gap) (value_type_fill (names_of self.now) value)) }
    {
        write_some_type(gap, self.type_of(value), line)
    }
}
