//! The values that are visible where an operation stands, with their types.
ghost use Rattle.std.specs.Prelude.{◌≡◌, ◌++◌, ◌∷◌, [], Some, None, map, IfOk, OnOk, if◌then◌else◌};
ghost use Rattle.std.specs.Option.{option_copied};
ghost use Rattle.xf_verify.specs.Visible.{definitions_in, no_definitions, with_definition, without, result_type};
ghost use Rattle.xf_verify.specs.Visible.{argument_type, types_in, has_types, definition_of};
ghost use Rattle.xf_rules.specs.OperandTypes.{operand_types};

use std::alloc::Global;
use std::collections::BTreeMap;
use xf_ir::{Op, OpName, ValueName};
use xf_type::{NoMemory, PayloadType};

/// The values of an operation that are visible, by their types.
#[derive(Clone, Copy)]
pub enum Definition<'a> {
    /// Its results.
    Results(&'a [PayloadType]),
    /// The arguments of the block of its region with that number.
    Arguments(usize, &'a [PayloadType]),
}

/// Whether there are types.
fn has_types(types: &[PayloadType]) -> bool
    ensures { result ≡ has_types types.now }
{
    match types {
        [] => false,
        [_, ..] => true,
    }
}

/// The operations whose values are visible, each with these values.
#[derive(Drop)]
pub struct VisibleValues<'a> {
    definitions: BTreeMap<u64, Definition<'a>>,
}

impl<'a> VisibleValues<'a> {
    /// No values.
    pub fn new(alloc: Global) -> VisibleValues<'a>
        ensures { definitions_in result ≡ no_definitions }
    {
        VisibleValues {
            definitions: BTreeMap::new(alloc),
        }
    }

    /// Lets values of an operation be visible.
    fn insert(&mut self, name: OpName, definition: Definition<'a>) -> Result<(), NoMemory>
        ensures { OnOk result (definitions_in self.new
            ≡ with_definition name.0 (Some definition.entry) (definitions_in self.old)) }
    {
        self.definitions.insert(name.0, definition)?;
        Ok(())
    }

    /// Lets values of these types, of an operation of which none is visible, be visible. It takes time
    /// in the logarithm of the number of operations there, and none where there are no types.
    ///
    /// Refuses for want of memory alone.
    pub fn enter(
        &mut self,
        name: OpName,
        types: &[PayloadType],
        definition: Definition<'a>,
    ) -> Result<(), NoMemory>
        requires { definitions_in self.old name.0 ≡ None }
        ensures { OnOk result (definitions_in self.new
            ≡ with_definition name.0 (definition_of types.now definition.entry) (definitions_in self.old)) }
    {
        if has_types(types) {
            self.insert(name, definition)?;
        }
        Ok(())
    }

    /// Lets no value of an operation be visible, of which values of these types may be.
    pub fn leave(&mut self, name: OpName, types: &[PayloadType])
        ensures { definitions_in self.new ≡ (if has_types types.now
            then with_definition name.0 None (definitions_in self.old) else definitions_in self.old) }
    {
        if has_types(types) {
            self.definitions.remove(&name.0);
        }
    }

    /// Lets no result of these operations be visible.
    pub fn leave_all(&mut self, ops: &[Op])
        ensures { definitions_in self.new ≡ without ops.now (definitions_in self.old) }
    {
        for op in ops {
            self.leave(op.name, op.results.as_slice());
        }
    }

    /// The type of a result of an operation.
    fn result_type(&self, name: OpName, number: u32) -> Option<&'a PayloadType>
        ensures { option_copied result ≡ result_type (definitions_in self.now name.0) number }
    {
        match self.definitions.get(&name.0) {
            Some(Definition::Results(types)) => types.get(number as usize),
            _ => None,
        }
    }

    /// The type of an argument of the block of a region.
    fn argument_type(&self, name: OpName, region: u32, number: u32) -> Option<&'a PayloadType>
        ensures { option_copied result ≡ argument_type (definitions_in self.now name.0) region number }
    {
        match self.definitions.get(&name.0) {
            Some(Definition::Arguments(inside, types)) => {
                if region as usize == *inside {
                    types.get(number as usize)
                } else {
                    None
                }
            }
            _ => None,
        }
    }

    /// The type of a value, or `None` where it is not visible.
    fn type_of(&self, value: ValueName) -> Option<&'a PayloadType>
        ensures { option_copied result ≡ types_in self.now value }
    {
        match value {
            ValueName::Result { op, num } => self.result_type(op, num),
            ValueName::Arg { op, region, num } => self.argument_type(op, region, num),
            ValueName::Free(_) => None,
        }
    }

    /// The types of values, `None` for each that is not visible. Refuses for want of memory alone.
    pub fn operand_types(
        &self,
        alloc: Global,
        values: &[ValueName],
    ) -> Result<Vec<Option<&'a PayloadType>>, NoMemory>
        ensures { IfOk result (λ types. operand_types types.items ≡ map (types_in self.now) values.now) }
    {
        let mut types = Vec::new(alloc);
        for value in values {
            types.push(self.type_of(*value))?;
        }
        Ok(types)
    }
}
