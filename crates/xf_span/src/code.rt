//! The codes of faults.

/// What a fault is. A line shows a code by its letter and number, and by its name where it has one.
#[derive(Clone, Copy, Debug, PartialEq, Eq)]
pub enum Code {
    /// The words of the command line were not understood.
    Words,
    /// A file could not be read.
    ReadFailed,
    /// The output could not be written.
    WriteFailed,
    /// Memory was refused.
    OutOfMemory,

    // The tokens of a payload or a script.
    /// A byte that no token has there.
    L1,
    /// A string without its end.
    L2,
    /// An integer above 2^64 - 1.
    L3,
    /// Bytes that are not UTF-8.
    L4,

    // The text of a payload.
    /// A token that no payload text has there.
    A1,
    /// A name that nothing visible defines.
    A2,
    /// A name that is defined twice.
    A3,
    /// A stated type that its value does not have, or lists of different lengths.
    A4,
    /// Regions nested too deeply.
    A5,
    /// A form of MLIR that is not supported; the number says which.
    A6,
    /// More operations than are supported.
    A7,
    /// A payload that is too long.
    A8,

    // The rules of a payload module.
    /// An operation name that occurs twice, or that the module has not given out.
    V1,
    /// A root that is no module of functions with different names, or a module or function elsewhere.
    V2,
    /// Regions or block arguments that are not those of the operation.
    V3,
    /// A block without its terminator at its end, or a terminator elsewhere.
    V4,
    /// An operand that is not defined before its use, or not visible there.
    V5,
    /// Operands, results or yielded values of another number or type than the operation has.
    V6,
    /// An attribute that the operation cannot have.
    V7,
    /// A call whose callee does not exist or has other types.
    V8,
    /// A call on a cycle of calls, or in too long a chain of them.
    V9,
    /// Indexing maps that are not projected permutations of the iteration dimensions.
    V10,
    /// An iterator type that is not the one of its dimension.
    V11,
    /// A reduction that does not combine its output with one other value.
    V12,
    /// Extents of one iteration dimension that differ.
    V13,
    /// A body of a structured operation that holds more than arithmetic.
    V14,
    /// A type of too many dimensions or too large a dimension.
    V15,
    /// A slice whose type, offsets, sizes or strides do not fit together.
    V16,

    // The text of a script.
    /// A token that no script has there.
    B1,
    /// A step, a type or a pattern set that is not known.
    B2,
    /// Operands of another number or type than the step has.
    B3,
    /// Results of another number or type than the step has.
    B4,
    /// A value or a symbol that nothing visible defines.
    B5,
    /// A mark of an argument that its use or its type contradicts.
    B6,
    /// A sequence that includes itself.
    B7,
    /// No main sequence of the right form.
    B8,
    /// An extension that is not registered.
    B9,
    /// Regions or includes nested too deeply.
    B10,
    /// A name that is defined twice.
    B11,
    /// A script that is too long.
    B12,

    // Failures of a step, which a script can handle.
    /// A target is not a structured operation that the step takes.
    S1,
    /// More tile sizes than iteration dimensions.
    S2,
    /// A tile size below 0.
    S3,
    /// A parameter of another number of values than the step takes.
    S4,
    /// A target is not a loop.
    S5,
    /// Bounds and step of a loop are not known, or its step is not positive.
    S6,
    /// The step of the unrolled loop is too large for its type.
    S7,
    /// A list of another length than the handles that it is split into.
    S8,
    /// An operation of another name than its handle holds.
    S9,
    /// A target without the ancestor that is asked for.
    S10,
    /// A tile size above 2^31 - 1.
    S11,
    /// A value that no operation defines.
    S12,
    /// No slice of the producer is taken inside the loop.
    S13,
    /// A list that must hold one operation holds none or several.
    S14,
    /// The producer does not stand before the loop.
    S15,
    /// No permutation of the iteration dimensions.
    S16,
    /// A condition on the matched operations does not hold.
    S17,
    /// Every region of alternatives failed.
    S18,
    /// An extension declined.
    S19,
    /// An extension failed.
    S20,
    /// An extension that failed before.
    S21,
    /// The number of an operand or a result is out of range.
    S22,
    /// A target that cannot be replaced.
    S23,

    // Failures of a step that end the run.
    /// An operation is consumed twice by one step.
    F1,
    /// A target stands inside another.
    F2,
    /// A handle that an earlier step invalidated.
    F3,
    /// More operations or names than are supported.
    F4,
    /// More steps than are supported.
    F5,
    /// Regions nested too deeply.
    F6,
    /// Lists of handles longer than are supported.
    F7,

    // Evaluation.
    /// An operation without a result, as a division by zero would be.
    X1,
    /// More units of work than the budget has.
    X2,
    /// No function of the name.
    X3,
    /// Arguments that the function does not take.
    X4,
    /// An element of a result is no number.
    X5,

    // Use rules.
    /// A handle may be used after it is consumed.
    U1,

    // What is not built yet.
    /// A form that is not built yet.
    N1,
}
