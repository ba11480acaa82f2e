//! What defines a value of a payload.
ghost use Rattle.std.specs.Prelude.{◌≡◌};
ghost use Rattle.xf_arena_tree.specs.Listed.{definition_of};

use xf_ir::ValueName;
use xf_uses::Definition;

/// What defines the value, or `None` for a value from outside a snippet, which no module defines.
pub fn definition_of(value: ValueName) -> Option<Definition>
    ensures { result ≡ definition_of value }
{
    match value {
        ValueName::Result { op, num } => Some(Definition::Result { op: op.0, num }),
        ValueName::Arg { op, region, num } => Some(Definition::Argument {
            op: op.0,
            region,
            num,
        }),
        ValueName::Free(_) => None,
    }
}
