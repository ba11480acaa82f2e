//! The rules of a valid module.
ghost use Rattle.std.specs.Prelude.{◌≡◌};
ghost use Rattle.xf_ir.specs.Rules.{number, numbered};

/// A rule of a valid module. They stand in the order in which they are asked.
#[derive(Clone, Copy, Debug, PartialEq, Eq)]
pub enum Rule {
    /// Operation names occur once and are below the next one.
    Names,
    /// The root is a module that holds functions alone, of different names.
    Functions,
    /// Each operation has the regions of its row, with their block arguments.
    Regions,
    /// Each block ends in its row's terminator, and none stands elsewhere.
    Blocks,
    /// Each operand is visible where it stands.
    Uses,
    /// Operands, results and yielded values have the numbers and types of the row.
    Types,
    /// Symbols and attributes fit.
    Attributes,
    /// Each callee exists, and the results of its call are what it returns.
    Callees,
    /// No chain of calls is too long.
    Chains,
    /// Maps fit iterators and operands.
    Maps,
    /// A dimension is parallel exactly where the out map has it.
    Iterators,
    /// With a reduction the body joins the out argument and a value that does not depend on it.
    Reductions,
    /// Fixed extents of one dimension agree.
    Extents,
    /// A body of linalg holds operations of arith and its yield alone.
    Bodies,
    /// Ranks and fixed dimensions are in range.
    Ranges,
    /// Slices fit.
    Slices,
}

impl Rule {
    /// Its number, of 1 to 16.
    pub fn number(self) -> u8
        ensures { result ≡ number self }
    {
        match self {
            Rule::Names => 1,
            Rule::Functions => 2,
            Rule::Regions => 3,
            Rule::Blocks => 4,
            Rule::Uses => 5,
            Rule::Types => 6,
            Rule::Attributes => 7,
            Rule::Callees => 8,
            Rule::Chains => 9,
            Rule::Maps => 10,
            Rule::Iterators => 11,
            Rule::Reductions => 12,
            Rule::Extents => 13,
            Rule::Bodies => 14,
            Rule::Ranges => 15,
            Rule::Slices => 16,
        }
    }

    /// The rule of that number; where no rule has it, the last.
    pub fn numbered(number: u8) -> Rule
        ensures { result ≡ numbered number }
    {
        match number {
            1 => Rule::Names,
            2 => Rule::Functions,
            3 => Rule::Regions,
            4 => Rule::Blocks,
            5 => Rule::Uses,
            6 => Rule::Types,
            7 => Rule::Attributes,
            8 => Rule::Callees,
            9 => Rule::Chains,
            10 => Rule::Maps,
            11 => Rule::Iterators,
            12 => Rule::Reductions,
            13 => Rule::Extents,
            14 => Rule::Bodies,
            15 => Rule::Ranges,
            _ => Rule::Slices,
        }
    }
}
