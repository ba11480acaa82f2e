//! What shape tokens mean, and the numbers of those that are not supported.

use std::test::Fail;
use xf_shape::{inside_marks, shape_number, shape_of};
use xf_type::{Dim, Width};

/// Texts that write a tensor type, with its dimensions and its width.
const SHAPES: [(&str, &[Dim], Width); 6] = [
    ("<4x?xi32>", &[Dim::Fixed(4), Dim::Dynamic], Width::I32),
    ("<i32>", &[], Width::I32),
    ("<0x4xindex>", &[Dim::Fixed(0), Dim::Fixed(4)], Width::Index),
    ("<007xi8>", &[Dim::Fixed(7)], Width::I8),
    ("<4294967295xi64>", &[Dim::Fixed(4294967295)], Width::I64),
    ("<4294967296xi1>", &[Dim::Fixed(4294967295)], Width::I1),
];

/// Texts that write none, with the number of the form of MLIR that is not supported.
const REFUSED: [(&str, Option<u32>); 15] = [
    ("<>", None),
    ("<x>", None),
    ("<4>", None),
    ("<4xi32x>", None),
    ("<4 xi32>", None),
    ("<-4xi32>", None),
    ("<4x*xi32>", None),
    ("<xf32>", None),
    ("<*xi32>", Some(17)),
    ("<4xi32,1>", Some(17)),
    ("<4xf32>", Some(1)),
    ("<4xf32,1>", Some(1)),
    ("<?xf8E5M2>", Some(1)),
    ("<4xi33>", Some(4)),
    ("<4xvector<2xi8>", Some(5)),
];

#[test]
fn shapes_are_what_their_bytes_say(rt: HostRuntime) -> Result<(), Fail> {
    for (text, dims, elem) in SHAPES {
        let read = shape_of(rt.alloc(), text.as_bytes())?;
        assert!(rt; read.is_some(), "{text}");
        if let Some(shape) = read {
            assert_eq!(rt; shape.dims.as_slice(), dims, "{text}");
            assert_eq!(rt; shape.elem, elem, "{text}");
        }
        assert_eq!(rt; shape_number(inside_marks(text.as_bytes())), None, "{text}");
    }
    Ok(())
}

#[test]
fn other_shapes_have_their_numbers(rt: HostRuntime) -> Result<(), Fail> {
    for (text, number) in REFUSED {
        assert!(rt; shape_of(rt.alloc(), text.as_bytes())?.is_none(), "{text}");
        assert_eq!(rt;
            shape_number(inside_marks(text.as_bytes())),
            number,
            "{text}"
        );
    }
    Ok(())
}
