//! The tables of the codes: how each is written, and how its line is made.
ghost use Rattle.std.specs.Prelude.{◌≡◌};
ghost use Rattle.xf_span.specs.Code.{code_text, name_text, form_of};

use crate::code::Code;

/// How the line of a code is made.
#[derive(Clone, Copy, Debug, PartialEq, Eq)]
pub(crate) enum LineForm {
    /// `transform_opt: words not understood`
    Usage,
    /// `PATH: read failed`
    Read,
    /// `out: write failed`
    Write,
    /// `out of memory`
    Memory,
    /// `PATH: CODE NAME`
    Unplaced,
    /// `PATH:LINE:COL: CODE NAME`
    Placed,
    /// `PATH:LINE:COL: CODE NAME`, or `PATH: CODE NAME` where no place is known
    PlacedIfKnown,
    /// `PATH:LINE:COL: CODE`
    Unnamed,
    /// `PATH:LINE:COL: CODE NAME NUMBER`
    Numbered,
    /// `PATH:LINE:COL: CODE NAME, last CODE at LINE:COL`
    LastFault,
    /// `PATH:LINE:COL: CODE NAME, consumed at LINE:COL`
    Consumed,
    /// `PATH:LINE:COL: CODE NAME, may be consumed at LINE:COL`
    MayBeConsumed,
}

/// How the line of a code is made.
pub(crate) fn line_form(code: Code) -> LineForm
    ensures { result ≡ form_of code }
{
    match code {
        Code::Words => LineForm::Usage,
        Code::ReadFailed => LineForm::Read,
        Code::WriteFailed => LineForm::Write,
        Code::OutOfMemory => LineForm::Memory,
        Code::X2 | Code::X3 | Code::X4 | Code::X5 => LineForm::Unplaced,
        Code::N1 => LineForm::PlacedIfKnown,
        Code::V1
        | Code::V2
        | Code::V3
        | Code::V4
        | Code::V5
        | Code::V6
        | Code::V7
        | Code::V8
        | Code::V9
        | Code::V10
        | Code::V11
        | Code::V12
        | Code::V13
        | Code::V14
        | Code::V15
        | Code::V16 => LineForm::Unnamed,
        Code::A6 => LineForm::Numbered,
        Code::S18 => LineForm::LastFault,
        Code::F3 => LineForm::Consumed,
        Code::U1 => LineForm::MayBeConsumed,
        _ => LineForm::Placed,
    }
}

/// The letter and number of a code, nothing where it has none.
pub(crate) fn text_of(code: &Code) -> &str
    ensures { result.now ≡ code_text code.now }
{
    match code {
        Code::L1 => "L1",
        Code::L2 => "L2",
        Code::L3 => "L3",
        Code::L4 => "L4",
        Code::A1 => "A1",
        Code::A2 => "A2",
        Code::A3 => "A3",
        Code::A4 => "A4",
        Code::A5 => "A5",
        Code::A6 => "A6",
        Code::A7 => "A7",
        Code::A8 => "A8",
        Code::V1 => "V1",
        Code::V2 => "V2",
        Code::V3 => "V3",
        Code::V4 => "V4",
        Code::V5 => "V5",
        Code::V6 => "V6",
        Code::V7 => "V7",
        Code::V8 => "V8",
        Code::V9 => "V9",
        Code::V10 => "V10",
        Code::V11 => "V11",
        Code::V12 => "V12",
        Code::V13 => "V13",
        Code::V14 => "V14",
        Code::V15 => "V15",
        Code::V16 => "V16",
        Code::B1 => "B1",
        Code::B2 => "B2",
        Code::B3 => "B3",
        Code::B4 => "B4",
        Code::B5 => "B5",
        Code::B6 => "B6",
        Code::B7 => "B7",
        Code::B8 => "B8",
        Code::B9 => "B9",
        Code::B10 => "B10",
        Code::B11 => "B11",
        Code::B12 => "B12",
        Code::S1 => "S1",
        Code::S2 => "S2",
        Code::S3 => "S3",
        Code::S4 => "S4",
        Code::S5 => "S5",
        Code::S6 => "S6",
        Code::S7 => "S7",
        Code::S8 => "S8",
        Code::S9 => "S9",
        Code::S10 => "S10",
        Code::S11 => "S11",
        Code::S12 => "S12",
        Code::S13 => "S13",
        Code::S14 => "S14",
        Code::S15 => "S15",
        Code::S16 => "S16",
        Code::S17 => "S17",
        Code::S18 => "S18",
        Code::S19 => "S19",
        Code::S20 => "S20",
        Code::S21 => "S21",
        Code::S22 => "S22",
        Code::S23 => "S23",
        Code::F1 => "F1",
        Code::F2 => "F2",
        Code::F3 => "F3",
        Code::F4 => "F4",
        Code::F5 => "F5",
        Code::F6 => "F6",
        Code::F7 => "F7",
        Code::X1 => "X1",
        Code::X2 => "X2",
        Code::X3 => "X3",
        Code::X4 => "X4",
        Code::X5 => "X5",
        Code::U1 => "U1",
        Code::N1 => "N1",
        Code::Words | Code::ReadFailed | Code::WriteFailed | Code::OutOfMemory => "",
    }
}

/// The name of a code, nothing where it has none.
pub(crate) fn name_of(code: &Code) -> &str
    ensures { result.now ≡ name_text code.now }
{
    match code {
        Code::L1 => "BadByte",
        Code::L2 => "OpenString",
        Code::L3 => "NumberTooWide",
        Code::L4 => "BadUtf8",
        Code::A1 => "SyntaxAt",
        Code::A2 => "NameUndefined",
        Code::A3 => "NameTwice",
        Code::A4 => "TypeMismatch",
        Code::A5 => "NestLimit",
        Code::A6 => "OutOfProfile",
        Code::A7 => "TooManyOps",
        Code::A8 => "TooLong",
        Code::B1 => "Syntax",
        Code::B2 => "Unknown",
        Code::B3 => "Operands",
        Code::B4 => "ResultType",
        Code::B5 => "Undefined",
        Code::B6 => "Annotation",
        Code::B7 => "RecursiveInclude",
        Code::B8 => "NoMain",
        Code::B9 => "UnknownExtension",
        Code::B10 => "NestLimit",
        Code::B11 => "NameTwice",
        Code::B12 => "TooLong",
        Code::S1 => "NotLinalg",
        Code::S2 => "TooManySizes",
        Code::S3 => "SizeNegative",
        Code::S4 => "ParamCount",
        Code::S5 => "NotLoop",
        Code::S6 => "BoundsUnknown",
        Code::S7 => "UnrollRange",
        Code::S8 => "SplitCount",
        Code::S9 => "CastKind",
        Code::S10 => "NoParent",
        Code::S11 => "NumberTooLarge",
        Code::S12 => "NoDefiningOp",
        Code::S13 => "NoSliceUse",
        Code::S14 => "NotOneOp",
        Code::S15 => "NotBefore",
        Code::S16 => "BadPermutation",
        Code::S17 => "NoMatch",
        Code::S18 => "AllAlternatives",
        Code::S19 => "Declined",
        Code::S20 => "ExtFailed",
        Code::S21 => "ExtRetired",
        Code::S22 => "NoPosition",
        Code::S23 => "NotReplaceable",
        Code::F1 => "RepeatedConsumption",
        Code::F2 => "NestedTargets",
        Code::F3 => "InvalidHandle",
        Code::F4 => "OpLimit",
        Code::F5 => "StepLimit",
        Code::F6 => "DepthLimit",
        Code::F7 => "ListLimit",
        Code::X1 => "Undefined",
        Code::X2 => "EvalBudget",
        Code::X3 => "NoFunction",
        Code::X4 => "BadArguments",
        Code::X5 => "NoNumber",
        Code::U1 => "MayUse",
        Code::N1 => "NotBuilt",
        _ => "",
    }
}
