//! The values that are visible in the blocks that an evaluation is in.
ghost use Rattle.std.specs.Prelude.{◌≡◌, ◌≤◌, ◌∷◌, [], ◌++◌, length, take, drop, map, IfOk, OnOk, OnErr};
ghost use Rattle.std.specs.Option.{option_copied};
ghost use Rattle.xf_sem.specs.Meaning.{item};
ghost use Rattle.xf_eval_values.specs.Stack.{numbering, env_of};

use crate::held::{Held, HeldList};
use std::alloc::Global;
use std::marker::Model;
use xf_ir::{OpName, ValueName};
use xf_type::{ListOf, NoMemory};

/// The results of an operation, or the arguments of the block of one of its regions.
#[derive(Drop)]
pub struct Entry {
    pub op: OpName,
    pub region: Option<u32>,
    pub values: HeldList,
}

/// What is defined in the blocks that an evaluation is in, the outermost first, of one function after another.
#[derive(Drop)]
pub struct Stack {
    entries: Vec<Entry>,
}

impl Model for Stack {
    ghost use Rattle.std.specs.Prelude.{List};
    ghost use Rattle.xf_eval_values.specs.declared.stack.Entry.{Entry};

    ghost Value = { List Entry };

    ghost view = { λ s. s.entries.items };
}

/// The number of a value among those of an entry.
fn number_in(entry: &Entry, value: ValueName) -> Option<usize>
    ensures { result ≡ numbering entry.now value }
{
    let (op, num, fits) = match (value, entry.region) {
        (ValueName::Result { op, num }, None) => (op, num, true),
        (ValueName::Arg { op, region, num }, Some(own)) => (op, num, region == own),
        _ => (entry.op, 0, false),
    };
    if fits && op == entry.op && (num as usize) < entry.values.len() {
        Some(num as usize)
    } else {
        None
    }
}

/// The value of that number of an entry.
fn held_at(entry: &Entry, number: usize) -> Result<Held, NoMemory>
    ensures { IfOk result (λ held. held ≡ item entry.now.values number) }
{
    match entry.values.get(number) {
        Some(held) => held.share(),
        None => Ok(Held::nothing()),
    }
}

/// What a value holds that one of the entries defines, the last of them; else no number.
fn lookup(entries: &[Entry], name: ValueName) -> Result<Held, NoMemory>
    ensures { IfOk result (λ held. held ≡ env_of entries.now name) }
{
    let mut at = entries.len();
    while at > 0 {
        at -= 1;
        let entry = &entries[at];
        if let Some(number) = number_in(entry, name) {
            return held_at(entry, number);
        }
    }
    Ok(Held::nothing())
}

impl Stack {
    /// The stack without entries.
    pub fn new(alloc: Global) -> Stack
        ensures { result ≡ [] }
    {
        Stack {
            entries: Vec::new(alloc),
        }
    }

    /// How many entries there are.
    pub fn height(&self) -> usize
        ensures { result ≡ length self.now }
    {
        self.entries.len()
    }

    /// Puts an entry at the end. Refuses for want of memory alone.
    pub fn push(&mut self, entry: Entry) -> Result<(), NoMemory>
        ensures ok { OnOk result (self.new ≡ self.old ++ entry ∷ []) }
    {
        self.entries.push(entry)?;
        Ok(())
    }

    /// Takes entries away from the end, down to this height.
    pub fn truncate(&mut self, height: usize)
        ensures { self.new ≡ take height self.old }
    {
        self.entries.truncate(height);
    }

    /// What a value holds that one of the entries from `base` on defines, the last of them; else no number.
    pub fn value(&self, base: usize, name: ValueName) -> Result<Held, NoMemory>
        requires { base ≤ length self.now }
        ensures { IfOk result (λ held. held ≡ env_of (drop base self.now) name) }
    {
        lookup(&self.entries.as_slice()[base..], name)
    }
}

/// What these values hold, in order.
pub fn operands(
    alloc: Global,
    stack: &Stack,
    base: usize,
    names: &[ValueName],
) -> Result<HeldList, NoMemory>
    requires { base ≤ length stack.now }
    ensures { IfOk result (λ values. values ≡ map (env_of (drop base stack.now)) names.now) }
{
    let mut values = ListOf::new(alloc);
    for name in names {
        values.push(stack.value(base, *name)?)?;
    }
    Ok(values)
}
