//! The names of operations and of values.
ghost use Rattle.std.specs.Prelude.{◌≡◌};
ghost use Rattle.xf_ir.specs.declared.name.ValueName.TheVariants.{Free};

/// The name of an operation, a number that a module gives once.
#[derive(Clone, Copy, Debug, PartialEq, Eq)]
pub struct OpName(pub u64);

/// The name of a value.
#[derive(Clone, Copy, Debug, PartialEq, Eq)]
pub enum ValueName {
    /// A result of an operation.
    Result { op: OpName, num: u32 },
    /// An argument of the block of a region that an operation holds.
    Arg { op: OpName, region: u32, num: u32 },
    /// A value from outside a snippet.
    Free(u32),
}

/// A value for the unused places of an inline list.
impl Default for ValueName {
    ghost is_default = { λ v. v ≡ Free 0 };

    fn default() -> ValueName {
        ValueName::Free(0)
    }
}
