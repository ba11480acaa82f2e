//! Each operation on held values, and arguments and lines of results alone.

use std::alloc::Global;
use std::test::Fail;
use xf_args::arguments;
use xf_eval_tensors::{cast, dim, empty, extract, extract_slice, insert, insert_slice, named};
use xf_eval_values::{Held, HeldList, Stop};
use xf_host::memory::MemSink;
use xf_ir::{NamedKind, OpName, SliceIndex};
use xf_results::{are_numbers, write_results};
use xf_sem::Value;
use xf_shape::shape_of;
use xf_type::{ListOf, NoMemory, PayloadType, TypeList};

/// What is done with the values of a text.
#[derive(Clone, Copy)]
enum Step {
    Cast,
    Dim,
    Empty,
    Extract,
    ExtractSlice,
    Insert,
    InsertSlice,
    Named(NamedKind),
}

/// A window of two dimensions: the number at the second is the next operand.
const OFFSETS: [SliceIndex; 2] = [SliceIndex::Fixed(1), SliceIndex::Dynamic];

const LENGTHS: [SliceIndex; 2] = [SliceIndex::Fixed(2), SliceIndex::Fixed(2)];

/// The texts of operands, the shape of the result where it is a tensor, the units that are there, and what is told.
const OPERATIONS: [(Step, &str, &str, u64, &str); 24] = [
    (
        Step::Dim,
        "dense<0> : tensor<2x3xi8>, 1 : index",
        "",
        0,
        "3 : index, 0 left",
    ),
    (
        Step::Dim,
        "dense<0> : tensor<2x3xi8>, 2 : index",
        "",
        0,
        "undefined, 0 left",
    ),
    (
        Step::Extract,
        "dense<[[1, 2], [3, 4]]> : tensor<2x2xi32>, 1 : index, 0 : index",
        "",
        0,
        "3 : i32, 0 left",
    ),
    (
        Step::Extract,
        "dense<[[1, 2], [3, 4]]> : tensor<2x2xi32>, 0 : index, 2 : index",
        "",
        0,
        "undefined, 0 left",
    ),
    (
        Step::Insert,
        "9 : i32, dense<[[1, 2], [3, 4]]> : tensor<2x2xi32>, 0 : index, 1 : index",
        "<2x2xi32>",
        5,
        "dense<[[1, 9], [3, 4]]> : tensor<2x2xi32>, 1 left",
    ),
    (
        Step::Cast,
        "dense<7> : tensor<2xi8>",
        "<?xi8>",
        0,
        "dense<7> : tensor<2xi8>, 0 left",
    ),
    (
        Step::Cast,
        "dense<7> : tensor<2xi8>",
        "<3xi8>",
        0,
        "undefined, 0 left",
    ),
    (Step::Empty, "2 : index", "<?xi8>", 2, "no number, 0 left"),
    (Step::Empty, "-1 : index", "<?xi8>", 9, "undefined, 9 left"),
    (
        Step::ExtractSlice,
        "dense<[[1, 2, 3, 4], [5, 6, 7, 8], [9, 10, 11, 12]]> : tensor<3x4xi32>, 1 : index",
        "<2x2xi32>",
        4,
        "dense<[[6, 7], [10, 11]]> : tensor<2x2xi32>, 0 left",
    ),
    (
        Step::ExtractSlice,
        "dense<[[1, 2, 3, 4], [5, 6, 7, 8], [9, 10, 11, 12]]> : tensor<3x4xi32>, 2 : index",
        "<2x2xi32>",
        4,
        "dense<[[7, 8], [11, 12]]> : tensor<2x2xi32>, 0 left",
    ),
    (
        Step::ExtractSlice,
        "dense<[[1, 2, 3, 4], [5, 6, 7, 8], [9, 10, 11, 12]]> : tensor<3x4xi32>, 3 : index",
        "<2x2xi32>",
        4,
        "undefined, 4 left",
    ),
    (
        Step::ExtractSlice,
        "dense<[[1, 2, 3, 4], [5, 6, 7, 8], [9, 10, 11, 12]]> : tensor<3x4xi32>, -1 : index",
        "<2x2xi32>",
        4,
        "undefined, 4 left",
    ),
    (
        Step::ExtractSlice,
        "dense<0> : tensor<3x4xi32>, 0 : index",
        "<2x2xi32>",
        3,
        "over the budget",
    ),
    (
        Step::InsertSlice,
        "dense<[[60, 70], [80, 90]]> : tensor<2x2xi8>, dense<[[1, 2], [3, 4], [5, 6]]> : tensor<3x2xi8>, 0 : index",
        "<3x2xi8>",
        6,
        "dense<[[1, 2], [60, 70], [80, 90]]> : tensor<3x2xi8>, 0 left",
    ),
    (
        Step::InsertSlice,
        "dense<0> : tensor<2x1xi8>, dense<[[1, 2], [3, 4], [5, 6]]> : tensor<3x2xi8>, 0 : index",
        "<3x2xi8>",
        6,
        "undefined, 6 left",
    ),
    (
        Step::Named(NamedKind::Matmul),
        "dense<[[1, 2], [3, 4]]> : tensor<2x2xi8>, dense<[[5, 6], [7, 8]]> : tensor<2x2xi8>, dense<1> : tensor<2x2xi8>",
        "<2x2xi8>",
        12,
        "dense<[[20, 23], [44, 51]]> : tensor<2x2xi8>, 0 left",
    ),
    (
        Step::Named(NamedKind::Matmul),
        "dense<[[1, 2], [3, 4]]> : tensor<2x2xi8>, dense<[[5, 6], [7, 8]]> : tensor<2x2xi8>, dense<1> : tensor<2x2xi8>",
        "<2x2xi8>",
        11,
        "over the budget",
    ),
    (
        Step::Named(NamedKind::BatchMatmul),
        "dense<[[[2]], [[3]]]> : tensor<2x1x1xi32>, dense<[[[4]], [[5]]]> : tensor<2x1x1xi32>, dense<0> : tensor<2x1x1xi32>",
        "<2x1x1xi32>",
        4,
        "dense<[[[8]], [[15]]]> : tensor<2x1x1xi32>, 0 left",
    ),
    (
        Step::Named(NamedKind::Matvec),
        "dense<[[1, 2], [3, 4]]> : tensor<2x2xi32>, dense<1> : tensor<2xi32>, dense<0> : tensor<2xi32>",
        "<2xi32>",
        6,
        "dense<[3, 7]> : tensor<2xi32>, 0 left",
    ),
    (
        Step::Named(NamedKind::Dot),
        "dense<[1, 2, 3]> : tensor<3xi16>, dense<[4, 5, 6]> : tensor<3xi16>, dense<0> : tensor<i16>",
        "<i16>",
        4,
        "dense<32> : tensor<i16>, 0 left",
    ),
    (
        Step::Named(NamedKind::Dot),
        "dense<[1, 2, 3]> : tensor<3xi16>, dense<[4, 5]> : tensor<2xi16>, dense<0> : tensor<i16>",
        "<i16>",
        4,
        "undefined, 4 left",
    ),
    (
        Step::Named(NamedKind::Fill),
        "7 : i8, dense<0> : tensor<2xi8>",
        "<2xi8>",
        4,
        "dense<7> : tensor<2xi8>, 0 left",
    ),
    (
        Step::Named(NamedKind::Dot),
        "dense<100> : tensor<3xi8>, dense<2> : tensor<3xi8>, dense<1> : tensor<i8>",
        "<i8>",
        4,
        "dense<89> : tensor<i8>, 0 left",
    ),
];

/// Texts of arguments, and the lines of the values that they list.
const ARGUMENTS: [(&str, &str); 16] = [
    ("", ""),
    (" // none\n", ""),
    ("5 : i32", "5 : i32, "),
    ("255 : i8, -128 : i8", "-1 : i8, -128 : i8, "),
    (
        "true, false : i1, 1 : i1",
        "true : i1, false : i1, true : i1, ",
    ),
    (
        "dense<[1, 2]> : tensor<2xi8>",
        "dense<[1, 2]> : tensor<2xi8>, ",
    ),
    (
        "dense<[[3, 3]]> : tensor<1x2xi8>",
        "dense<3> : tensor<1x2xi8>, ",
    ),
    ("dense<true> : tensor<i1>", "dense<true> : tensor<i1>, "),
    (
        "dense<> : tensor<0x7xindex>",
        "dense<> : tensor<0x7xindex>, ",
    ),
    ("18446744073709551615 : index", "-1 : index, "),
    ("5", "out of form"),
    ("5 : i32,", "out of form"),
    ("300 : i8", "out of form"),
    ("true : i8", "out of form"),
    ("dense<1> : tensor<?xi8>", "out of form"),
    ("dense<1> : tensor<1x1x1x1x1x1x1x1x1xi8>", "out of form"),
];

/// The type of the one result, where that is a tensor of the shape.
fn types_of(alloc: Global, shape: &str) -> Result<TypeList, NoMemory> {
    let mut types = TypeList::new(alloc);
    if let Some(shape) = shape_of(alloc, shape.as_bytes())? {
        types.push(PayloadType::Tensor(shape))?;
    }
    Ok(types)
}

/// What a step gives; none where it is undefined.
fn perform(
    alloc: Global,
    step: Step,
    types: &[PayloadType],
    args: &[Held],
    units: &mut u64,
) -> Result<Option<Held>, Stop> {
    let op = OpName(7);
    let made = match step {
        Step::Cast => return Ok(cast(types, args)?),
        Step::Dim => return Ok(dim(args)),
        Step::Empty => empty(alloc, op, types, args, units)?,
        Step::Extract => return Ok(extract(alloc, args)?),
        Step::ExtractSlice => extract_slice(alloc, op, types, &OFFSETS, &LENGTHS, args, units)?,
        Step::Insert => insert(alloc, op, types, args, units)?,
        Step::InsertSlice => insert_slice(alloc, op, types, &OFFSETS, &LENGTHS, args, units)?,
        Step::Named(which) => named(alloc, op, types, which, args, units)?,
    };
    Ok(Some(made))
}

/// Values as they are told: each line with a comma in place of its line feed.
fn told(alloc: Global, values: &[Value]) -> Result<String, NoMemory> {
    if !are_numbers(values) {
        return String::from_str(alloc, "no number, ");
    }
    let mut sink = MemSink::new(alloc);
    if write_results(alloc, values, &mut sink).is_err() {
        return String::from_str(alloc, "no memory, ");
    }
    let mut text = String::new(alloc);
    for line in str::from_utf8(sink.bytes()).unwrap_or("?").lines() {
        write!(text, "{line}, ")?;
    }
    Ok(text)
}

/// Values that are no longer held.
fn values_of(alloc: Global, held: HeldList) -> Result<ListOf<Value>, NoMemory> {
    let mut values = ListOf::new(alloc);
    for value in held.into_vec() {
        values.push(value.into_value(alloc)?)?;
    }
    Ok(values)
}

/// What one value is told as.
fn told_one(alloc: Global, value: Held) -> Result<String, NoMemory> {
    told(alloc, &[value.into_value(alloc)?])
}

/// What a step is told to give, and what is left of the units.
fn answer(
    alloc: Global,
    step: Step,
    args: &str,
    shape: &str,
    units: u64,
) -> Result<String, NoMemory> {
    let Some(args) = arguments(alloc, args.as_bytes())? else {
        return String::from_str(alloc, "out of form");
    };
    let types = types_of(alloc, shape)?;
    let mut left = units;
    let mut text = match perform(alloc, step, types.as_slice(), args.as_slice(), &mut left) {
        Ok(Some(value)) => told_one(alloc, value)?,
        Ok(None) | Err(Stop::Undefined(_)) => String::from_str(alloc, "undefined, ")?,
        Err(Stop::Budget) => return String::from_str(alloc, "over the budget"),
        Err(Stop::NoMemory) => String::from_str(alloc, "no memory, ")?,
    };
    write!(text, "{left} left")?;
    Ok(text)
}

#[test]
fn operations_give_their_values_in_their_units(rt: HostRuntime) -> Result<(), Fail> {
    for (step, args, shape, units, wanted) in OPERATIONS {
        assert_eq!(rt;
            answer(rt.alloc(), step, args, shape, units)?.as_str(),
            wanted,
            "{args}"
        );
    }
    Ok(())
}

#[test]
fn arguments_are_read_and_written(rt: HostRuntime) -> Result<(), Fail> {
    let alloc = rt.alloc();
    for (text, wanted) in ARGUMENTS {
        match arguments(alloc, text.as_bytes())? {
            Some(values) => {
                let values = values_of(alloc, values)?;
                assert_eq!(rt; told(alloc, values.as_slice())?.as_str(), wanted, "{text}");
            }
            None => assert_eq!(rt; "out of form", wanted, "{text}"),
        }
    }
    Ok(())
}
