//! The line of each fault, written to a sink that fails nowhere, and to ones that fail at each write.
ghost use Rattle.xf_span.specs.Line.{HasLine};

use std::alloc::Global;
use std::process::Abort;
use std::test::Fail;
use xf_host::memory::MemSink;
use xf_host::sink::SinkFail;
use xf_span::{Code, Fault, Place, write_fault};

/// The line of each code, for the file `p` and the fault of [`whole_fault`].
const LINES: [(Code, &str); 81] = [
    (Code::Words, "transform_opt: words not understood\n"),
    (Code::ReadFailed, "p: read failed\n"),
    (Code::WriteFailed, "out: write failed\n"),
    (Code::OutOfMemory, "out of memory\n"),
    (Code::L1, "p:12:34: L1 BadByte\n"),
    (Code::L2, "p:12:34: L2 OpenString\n"),
    (Code::L3, "p:12:34: L3 NumberTooWide\n"),
    (Code::L4, "p:12:34: L4 BadUtf8\n"),
    (Code::A1, "p:12:34: A1 SyntaxAt\n"),
    (Code::A2, "p:12:34: A2 NameUndefined\n"),
    (Code::A3, "p:12:34: A3 NameTwice\n"),
    (Code::A4, "p:12:34: A4 TypeMismatch\n"),
    (Code::A5, "p:12:34: A5 NestLimit\n"),
    (Code::A6, "p:12:34: A6 OutOfProfile 21\n"),
    (Code::A7, "p:12:34: A7 TooManyOps\n"),
    (Code::A8, "p:12:34: A8 TooLong\n"),
    (Code::V1, "p:12:34: V1\n"),
    (Code::V2, "p:12:34: V2\n"),
    (Code::V3, "p:12:34: V3\n"),
    (Code::V4, "p:12:34: V4\n"),
    (Code::V5, "p:12:34: V5\n"),
    (Code::V6, "p:12:34: V6\n"),
    (Code::V7, "p:12:34: V7\n"),
    (Code::V8, "p:12:34: V8\n"),
    (Code::V9, "p:12:34: V9\n"),
    (Code::V10, "p:12:34: V10\n"),
    (Code::V11, "p:12:34: V11\n"),
    (Code::V12, "p:12:34: V12\n"),
    (Code::V13, "p:12:34: V13\n"),
    (Code::V14, "p:12:34: V14\n"),
    (Code::V15, "p:12:34: V15\n"),
    (Code::V16, "p:12:34: V16\n"),
    (Code::B1, "p:12:34: B1 Syntax\n"),
    (Code::B2, "p:12:34: B2 Unknown\n"),
    (Code::B3, "p:12:34: B3 Operands\n"),
    (Code::B4, "p:12:34: B4 ResultType\n"),
    (Code::B5, "p:12:34: B5 Undefined\n"),
    (Code::B6, "p:12:34: B6 Annotation\n"),
    (Code::B7, "p:12:34: B7 RecursiveInclude\n"),
    (Code::B8, "p:12:34: B8 NoMain\n"),
    (Code::B9, "p:12:34: B9 UnknownExtension\n"),
    (Code::B10, "p:12:34: B10 NestLimit\n"),
    (Code::B11, "p:12:34: B11 NameTwice\n"),
    (Code::B12, "p:12:34: B12 TooLong\n"),
    (Code::S1, "p:12:34: S1 NotLinalg\n"),
    (Code::S2, "p:12:34: S2 TooManySizes\n"),
    (Code::S3, "p:12:34: S3 SizeNegative\n"),
    (Code::S4, "p:12:34: S4 ParamCount\n"),
    (Code::S5, "p:12:34: S5 NotLoop\n"),
    (Code::S6, "p:12:34: S6 BoundsUnknown\n"),
    (Code::S7, "p:12:34: S7 UnrollRange\n"),
    (Code::S8, "p:12:34: S8 SplitCount\n"),
    (Code::S9, "p:12:34: S9 CastKind\n"),
    (Code::S10, "p:12:34: S10 NoParent\n"),
    (Code::S11, "p:12:34: S11 NumberTooLarge\n"),
    (Code::S12, "p:12:34: S12 NoDefiningOp\n"),
    (Code::S13, "p:12:34: S13 NoSliceUse\n"),
    (Code::S14, "p:12:34: S14 NotOneOp\n"),
    (Code::S15, "p:12:34: S15 NotBefore\n"),
    (Code::S16, "p:12:34: S16 BadPermutation\n"),
    (Code::S17, "p:12:34: S17 NoMatch\n"),
    (Code::S18, "p:12:34: S18 AllAlternatives, last S8 at 56:7\n"),
    (Code::S19, "p:12:34: S19 Declined\n"),
    (Code::S20, "p:12:34: S20 ExtFailed\n"),
    (Code::S21, "p:12:34: S21 ExtRetired\n"),
    (Code::S22, "p:12:34: S22 NoPosition\n"),
    (Code::S23, "p:12:34: S23 NotReplaceable\n"),
    (Code::F1, "p:12:34: F1 RepeatedConsumption\n"),
    (Code::F2, "p:12:34: F2 NestedTargets\n"),
    (Code::F3, "p:12:34: F3 InvalidHandle, consumed at 56:7\n"),
    (Code::F4, "p:12:34: F4 OpLimit\n"),
    (Code::F5, "p:12:34: F5 StepLimit\n"),
    (Code::F6, "p:12:34: F6 DepthLimit\n"),
    (Code::F7, "p:12:34: F7 ListLimit\n"),
    (Code::X1, "p:12:34: X1 Undefined\n"),
    (Code::X2, "p: X2 EvalBudget\n"),
    (Code::X3, "p: X3 NoFunction\n"),
    (Code::X4, "p: X4 BadArguments\n"),
    (Code::X5, "p: X5 NoNumber\n"),
    (Code::U1, "p:12:34: U1 MayUse, may be consumed at 56:7\n"),
    (Code::N1, "p:12:34: N1 NotBuilt\n"),
];

/// A fault of this code that has all that any line tells.
fn whole_fault(code: Code) -> Fault
    ensures { HasLine result }
{
    Fault {
        code,
        place: Some(Place { line: 12, col: 34 }),
        number: 21,
        other: Some((Code::S8, Place { line: 56, col: 7 })),
    }
}

/// Writes the line of a fault of the file `p` and compares it.
fn assert_line(rt: &impl Abort, alloc: Global, fault: &Fault, line: &str) -> Result<(), SinkFail>
    requires { HasLine fault.now }
{
    let mut sink = MemSink::new(alloc);
    write_fault(&mut sink, "p", fault)?;
    assert_eq!(rt; sink.bytes(), line.as_bytes());
    Ok(())
}

/// Asserts that sinks that fail at one write after the other hold more and more of the line.
fn assert_prefixes(rt: &impl Abort, alloc: Global, fault: &Fault, line: &str) -> Result<(), Fail>
    requires { HasLine fault.now }
{
    let mut held = 0;
    for call in 0..17 {
        let mut sink = MemSink::new(alloc);
        sink.fail_at(call, 1)?;
        match write_fault(&mut sink, "p", fault) {
            Ok(()) => assert_eq!(rt; sink.bytes(), line.as_bytes()),
            Err(fail) => {
                assert!(rt; matches!(fail, SinkFail::Failed));
                assert!(rt; line.as_bytes().starts_with(sink.bytes()));
                assert!(rt; held < sink.bytes().len(), "each call comes further");
                held = sink.bytes().len();
            }
        }
    }
    Ok(())
}

#[test]
fn every_code_has_its_line_or_a_prefix_of_it(rt: HostRuntime) -> Result<(), Fail> {
    let alloc = rt.alloc();
    for (code, line) in LINES {
        assert_line(&rt, alloc, &whole_fault(code), line)?;
        assert_prefixes(&rt, alloc, &whole_fault(code), line)?;
    }
    Ok(())
}

#[test]
fn faults_have_the_lines_of_what_they_tell(rt: HostRuntime) -> Result<(), Fail> {
    let alloc = rt.alloc();
    let used = Place { line: 8, col: 5 };
    let consumed = Place { line: 6, col: 15 };
    assert_line(&rt, alloc, &Fault::plain(Code::N1), "p: N1 NotBuilt\n")?;
    let end = Place {
        line: u32::MAX,
        col: u32::MAX,
    };
    let cycle = Fault::at(Code::V9, end);
    assert_line(&rt, alloc, &cycle, "p:4294967295:4294967295: V9\n")?;
    let overflow = Fault::out_of_profile(used, 3);
    assert_line(&rt, alloc, &overflow, "p:8:5: A6 OutOfProfile 3\n")?;
    let invalid = Fault::invalid_handle(used, consumed);
    let line = "p:8:5: F3 InvalidHandle, consumed at 6:15\n";
    assert_line(&rt, alloc, &invalid, line)?;
    let may_use = Fault::may_use(used, consumed);
    let line = "p:8:5: U1 MayUse, may be consumed at 6:15\n";
    assert_line(&rt, alloc, &may_use, line)?;
    let all = Fault::all_alternatives(used, Code::S21, consumed);
    let line = "p:8:5: S18 AllAlternatives, last S21 at 6:15\n";
    assert_line(&rt, alloc, &all, line)?;
    Ok(())
}
