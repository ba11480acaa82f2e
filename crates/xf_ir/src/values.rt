//! Lists of values, kept inline while they are short.
ghost use Rattle.std.specs.Prelude.{◌≡◌, [], ◌∷◌, ◌++◌, ◌<◌, length, IfOk, OnOk, OnErr};

use crate::name::ValueName;
use smallvec::SmallVec;
use std::alloc::{AllocError, Global};
use std::marker::Model;

/// The operands of an operation, in order; up to two stay in the value, as most operations have no more.
#[derive(Drop)]
pub struct ValueList {
    items: SmallVec<ValueName, 2>,
}

impl Model for ValueList {
    ghost use Rattle.std.specs.Prelude.{List};
    ghost use Rattle.xf_ir.specs.declared.name.ValueName.{ValueName};

    ghost Value = { List ValueName };

    ghost view = { λ l. l.items.items };
}

impl ValueList {
    /// The empty list.
    pub fn new(alloc: Global) -> ValueList
        ensures { result ≡ [] }
    {
        ValueList {
            items: SmallVec::new(alloc),
        }
    }

    /// A list of these values. Refuses for want of memory alone.
    pub fn from_slice(alloc: Global, values: &[ValueName]) -> Result<ValueList, AllocError>
        ensures { IfOk result (λ l. l ≡ values.now) }
    {
        Ok(ValueList {
            items: SmallVec::from_slice(alloc, values)?,
        })
    }

    /// The values in order.
    pub fn as_slice(&self) -> &[ValueName]
        ensures { result.now ≡ self.now }
    {
        self.items.as_slice()
    }

    /// Adds a value at the end; after a refusal the list is what it was.
    pub fn push(&mut self, value: ValueName) -> Result<(), AllocError>
        ensures ok { OnOk result (self.new ≡ self.old ++ value ∷ []) }
        ensures err { OnErr result (self.new ≡ self.old) }
    {
        match self.items.push(value) {
            Ok(_) => Ok(()),
            Err(_) => Err(AllocError),
        }
    }
}
