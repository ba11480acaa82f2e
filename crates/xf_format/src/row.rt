//! The table of the operations: the slots, the bodies and the tail of each row, as data.
ghost use Rattle.std.specs.Prelude.{◌≡◌};
ghost use Rattle.xf_format.specs.Rows.{slots, bodies, header, tail, stands, has_operations, inside};
ghost use Rattle.xf_format.specs.Rows.{behind, is_yield};
ghost use Rattle.xf_format.specs.Words.{spelling};

use crate::{arith, builtin, func, linalg, scf, tensor};
use xf_ir::NamedKind;
use xf_type::{BinKind, ConvKind};

/// An operation by its first word.
#[derive(Clone, Copy, Debug, PartialEq, Eq)]
pub enum Row {
    /// `module`
    Module,
    /// `func.func`
    Function,
    /// `func.return` or `return`
    Return,
    /// `func.call` or `call`
    Call,
    /// `arith.constant`
    Constant,
    /// A binary operation of `arith`.
    Binary(BinKind),
    /// `arith.cmpi`
    Compare,
    /// `arith.select`
    Select,
    /// A conversion of `arith`.
    Convert(ConvKind),
    /// `scf.for`
    For,
    /// `scf.if`
    If,
    /// `scf.yield`
    Yield,
    /// `tensor.empty`
    Empty,
    /// `tensor.dim`
    Dim,
    /// `tensor.extract`
    Extract,
    /// `tensor.insert`
    Insert,
    /// `tensor.cast`
    Cast,
    /// An operation of `linalg` with a name.
    Named(NamedKind),
    /// `tensor.extract_slice`
    ExtractSlice,
    /// `tensor.insert_slice`
    InsertSlice,
    /// `linalg.generic`
    Generic,
    /// `linalg.yield`
    LinalgYield,
}

/// A word that a row writes.
#[derive(Clone, Copy)]
pub enum Keyword {
    To,
    Step,
    Into,
    IndexingMaps,
    IteratorTypes,
}

impl Keyword {
    /// The bytes of the word.
    pub fn spelling(self) -> &'static [u8]
        ensures { result.now ≡ spelling self }
    {
        match self {
            Keyword::To => b"to",
            Keyword::Step => b"step",
            Keyword::Into => b"into",
            Keyword::IndexingMaps => b"indexing_maps",
            Keyword::IteratorTypes => b"iterator_types",
        }
    }
}

/// The one or the other list of a window, which is what a slice has of a tensor.
#[derive(Clone, Copy, Debug, PartialEq, Eq)]
pub enum Side {
    /// Where it begins in each dimension.
    Offsets,
    /// How many elements it has in each dimension.
    Sizes,
}

/// A slot of a row: what its operations write at one place, and where they have what it reads among
/// their parts. In print a blank stands before a slot, but for a mark or word with `false` and for what goes on
/// in parentheses or brackets. Where a slot may be left out, the next token alone tells whether it is.
#[derive(Clone, Copy)]
pub enum FormatElement {
    /// A mark of one byte, with a blank before it in print or none. It is no part.
    Mark(bool, u8),
    /// A word, with a blank before it in print or none. It is no part.
    Word(bool, Keyword),
    /// The symbol of a module, which may be left out.
    ModuleName,
    /// The symbol of a function, with `private` before it or not.
    FunctionName,
    /// The symbol of a callee.
    Symbol,
    /// `attributes` and discardable attributes in braces, which may be left out.
    Attributes,
    /// Discardable attributes in braces, which may be left out.
    Dictionary,
    /// The value of a constant: `true` or `false`, whose width is 1; or an integer, with a `-` before it
    /// or not, `:` and its width. A `dense` literal is not read yet.
    Literal,
    /// The predicate of a comparison.
    Predicate,
    /// The name of a block argument.
    Argument,
    /// One operand, `%n` or `%n#i`; the number says which of the operation's it is, from 0 on.
    Use(u8),
    /// One width of an `arith` operation, among its types; the number says which, from 0 on.
    Width(u8),
    /// The operands from this one on, possibly none, and the mark of this byte behind them, as `)`. The `(` or `[`
    /// before them is a mark of its own, here and below.
    Uses(u8, u8),
    /// The type of the operand with this number, from 0 on.
    TypeOf(u8),
    /// The type of this operand, which is a tensor type.
    TensorOf(u8),
    /// The type of this operand, which is a width.
    WidthOf(u8),
    /// The type of the result.
    ResultType,
    /// The type of the result, which is a tensor type.
    ResultTensor,
    /// `->`. It is no part.
    Arrow,
    /// `ins` with the operands but for the last and their types in parentheses.
    Ins,
    /// The same, which is left out where there are none.
    SomeIns,
    /// `outs` with the last operand and its type in parentheses.
    Outs,
    /// Types of operands, possibly none, and the `)` behind them.
    Types,
    /// Arguments of a function with their types, `%n: type`, possibly none, and the `)` behind them.
    Params,
    /// The same of a block.
    BlockParams,
    /// One or several operands, `:` and as many types as are written, which may be left out together.
    Operands,
    /// `->` and one result type, or result types in parentheses.
    CallResults,
    /// The same of a function, which may be left out.
    FunctionResults,
    /// `->` and result types in parentheses, which may be left out.
    IfResults,
    /// `iter_args` with pairs `%n = %m` of an argument and an operand in parentheses, and `->` with
    /// result types in parentheses, which may be left out together.
    IterArgs,
    /// `:` and the width of a loop, which may be left out and then is `index`.
    LoopWidth,
    /// The name of a block. It is no part.
    BlockName,
    /// The offsets or the sizes of a window, integers or operands, possibly none, and the `]` behind them.
    Places(Side),
    /// Strides, each of which is 1, possibly none, and the `]` behind them. They are no part.
    Strides,
    /// Maps, `affine_map<(d0, d1) -> (d1)>` or an alias of one, possibly none, and the `]` behind them.
    Maps,
    /// `"parallel"` and `"reduction"`, possibly none, and the `]` behind them.
    Iterators,
    /// `attrs =` and discardable attributes in braces, which may be left out.
    MarkedAttributes,
}

/// The bodies of an operation.
#[derive(Clone, Copy)]
pub enum Body {
    /// None.
    None,
    /// One.
    One,
    /// One, and optionally `else` and another.
    WithElse,
}

/// What stands behind the word of a row, up to its first brace.
pub fn row_slots(row: Row) -> &'static [FormatElement]
    ensures { result.now ≡ slots row }
{
    match row {
        Row::Module => &builtin::MODULE,
        Row::Function => &func::FUNCTION,
        Row::Return | Row::Yield => &func::TERMINATOR,
        Row::Call => &func::CALL,
        Row::Constant => &arith::CONSTANT,
        Row::Binary(_) => &arith::BINARY,
        Row::Compare => &arith::COMPARE,
        Row::Select => &arith::SELECT,
        Row::Convert(_) => &arith::CONVERT,
        Row::For => &scf::FOR,
        Row::If => &scf::IF,
        Row::Empty => &tensor::EMPTY,
        Row::Dim => &tensor::DIM,
        Row::Extract => &tensor::EXTRACT,
        Row::Insert => &tensor::INSERT,
        Row::Cast => &tensor::CAST,
        Row::Named(_) => &linalg::NAMED,
        Row::ExtractSlice => &tensor::EXTRACT_SLICE,
        Row::InsertSlice => &tensor::INSERT_SLICE,
        Row::Generic => &linalg::GENERIC,
        Row::LinalgYield => &linalg::YIELD,
    }
}

/// The bodies of a row.
pub fn row_bodies(row: Row) -> Body
    ensures { result ≡ bodies row }
{
    match row {
        Row::Module | Row::Function | Row::For | Row::Generic => Body::One,
        Row::If => Body::WithElse,
        _ => Body::None,
    }
}

/// What begins each body of a row, behind its brace.
pub fn row_header(row: Row) -> &'static [FormatElement]
    ensures { result.now ≡ header row }
{
    match row {
        Row::Generic => &linalg::HEADER,
        _ => &[],
    }
}

/// What stands behind the bodies of a row.
pub fn row_tail(row: Row) -> &'static [FormatElement]
    ensures { result.now ≡ tail row }
{
    match row {
        Row::For | Row::If => &scf::TAIL,
        Row::Generic => &linalg::TAIL,
        _ => &[],
    }
}

/// Where an operation stands.
#[derive(Clone, Copy)]
pub enum Level {
    /// Where a file begins: a module or a function.
    File,
    /// Between the functions of a module: a function.
    Functions,
    /// In a body: every operation but a module or a function.
    Body,
    /// Anywhere: each of them.
    Any,
}

/// Whether a row stands at a level.
pub fn stands(level: Level, row: Row) -> bool
    ensures { result ≡ stands level row }
{
    match (level, row) {
        (Level::Any, _) => true,
        (Level::File, Row::Module | Row::Function) => true,
        (Level::File, _) => false,
        (Level::Functions, Row::Function) => true,
        (Level::Functions, _) => false,
        (Level::Body, Row::Module | Row::Function) => false,
        (Level::Body, _) => true,
    }
}

/// Whether operations other than modules and functions stand at a level.
pub fn has_operations(level: Level) -> bool
    ensures { result ≡ has_operations level }
{
    match level {
        Level::File | Level::Functions => false,
        Level::Body | Level::Any => true,
    }
}

/// Where the operations of a body stand.
pub fn inside(row: Row) -> Level
    ensures { result ≡ inside row }
{
    match row {
        Row::Module => Level::Functions,
        _ => Level::Body,
    }
}

/// Where the operations behind the first one stand.
pub fn behind(level: Level) -> Level
    ensures { result ≡ behind level }
{
    match level {
        Level::File => Level::Functions,
        other => other,
    }
}

/// Whether an operation is a yield that may be left out.
pub fn is_yield(row: Row) -> bool
    ensures { result ≡ is_yield row }
{
    matches!(row, Row::Yield)
}
