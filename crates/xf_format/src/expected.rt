//! Why a text is not read.
ghost use Rattle.std.specs.Prelude.{◌≡◌};
ghost use Rattle.xf_format.specs.declared.expected.Stopped.TheVariants.{NoMemory};

use std::alloc::{AllocError, AllocFailed};

/// What was due at the first token that does not fit, or at the end of the text: the code of the
/// fault follows from it alone.
#[derive(Clone, Copy, Debug, PartialEq, Eq)]
pub enum Expected {
    /// A module, an alias or a function: at the first token of a file that begins none of them.
    File,
    /// A function: where another operation, or none, begins between the functions of a module.
    Function,
    /// An operation of a body: where none begins in one, or behind the names of results.
    Operation,
    /// A type: where neither a width nor a tensor type stands.
    Type,
    /// A shape that writes a tensor type: at a shape token that writes none. Where no shape stands behind `tensor`,
    /// it is `Other`.
    Shape,
    /// The width of an integer: behind the `:` of a constant, of an attribute's number or of a loop.
    Width,
    /// The width of an `arith` operation other than a constant: behind a `:` or the word `to`.
    ArithWidth,
    /// The value of an attribute: behind its `=`, where no `-` stands.
    AttributeValue,
    /// The value of a constant, where no `-` stands.
    ConstantValue,
    /// The symbol of a function, or `private` before it: behind `func.func`. Behind `private` a missing
    /// symbol is `Other`.
    FunctionName,
    /// `,` or `)`: behind the type of an argument of a function.
    AfterArgument,
    /// `,` or `)`: behind one of several result types of a function.
    AfterResult,
    /// An item of the body of a `dense` constant: a literal or a list.
    DenseItem,
    /// A stride of a slice, which is 1.
    Stride,
    /// `->`: behind the dimensions of a map.
    AfterDimensions,
    /// A dimension of the map, where one that it does not have or another token stands.
    MapResult,
    /// Another dimension of the map, where one stands that it gives already.
    DimensionTwice,
    /// `,` or `)`: behind a dimension that a map gives.
    AfterMapResult,
    /// `outs`: behind the word or the `ins` of an operation of `linalg`.
    Outs,
    /// The operand of `outs`: behind its `(`.
    OutsOperand,
    /// `:`: behind the operand of `outs`.
    AfterOut,
    /// The brace that opens the body of a function, or the result types or attributes before it.
    FunctionBody,
    /// The end of a list that has 2^32 - 1 items or of a text that has 1000000 operations, at the first
    /// token of one more (of a terminator that is left out, at the brace); or a shorter name or string,
    /// at one of 2^32 bytes or more.
    ListEnd,
    /// No region: at a brace that opens one inside 32 that are open.
    NestLimit,
    /// Anything else: a mark, a word, an operand or a symbol that the row of the operation has there, or
    /// a number that its width has no room for.
    Other,
}

/// Why a reading stops.
#[derive(Clone, Copy, Debug, PartialEq, Eq)]
pub enum Stopped {
    /// There was no memory; the text may fit or not.
    NoMemory,
    /// The token with this number is the first that does not fit, where this was due. The number of
    /// tokens stands for the end of the text.
    At(usize, Expected),
}

impl From<AllocError> for Stopped {
    ghost from_gives = { λ _ fault. fault ≡ NoMemory };

    fn from(_error: AllocError) -> Stopped {
        Stopped::NoMemory
    }
}

impl<T: Drop> From<AllocFailed<T>> for Stopped {
    ghost from_gives = { λ _ fault. fault ≡ NoMemory };

    fn from(_error: AllocFailed<T>) -> Stopped {
        Stopped::NoMemory
    }
}
