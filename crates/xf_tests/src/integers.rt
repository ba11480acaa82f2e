//! The arithmetic of integers against Python's: `reference/integers.py` prints the tables below.
ghost use Rattle.xf_type.specs.Integers.{FitsWidth};

use std::process::Abort;
use xf_type::{
    BinKind, CmpKind, ConvKind, Elem, Width, apply_binary, apply_cmp, apply_conv, apply_select,
    bits, signed, wrap,
};

/// Numbers of 128 bits, which are read modulo 2^bits.
const WIDE: [i128; 7] = [
    i128::MIN,
    -0x8000_0000_0000_0001,
    -129,
    -1,
    255,
    0x1_0000_0000_0000_0001,
    i128::MAX,
];

/// 0, 1, -1, the least and the greatest signed number, and the numbers of places about the bits, all modulo 2^bits.
const EDGES: [(Width, [u64; 8]); 6] = [
    (Width::I1, [0x0, 0x1, 0x1, 0x1, 0x0, 0x0, 0x1, 0x0]),
    (Width::I8, [0x0, 0x1, 0xff, 0x80, 0x7f, 0x7, 0x8, 0x9]),
    (
        Width::I16,
        [0x0, 0x1, 0xffff, 0x8000, 0x7fff, 0xf, 0x10, 0x11],
    ),
    (
        Width::I32,
        [
            0x0, 0x1, 0xffffffff, 0x80000000, 0x7fffffff, 0x1f, 0x20, 0x21,
        ],
    ),
    (
        Width::I64,
        [
            0x0,
            0x1,
            0xffffffffffffffff,
            0x8000000000000000,
            0x7fffffffffffffff,
            0x3f,
            0x40,
            0x41,
        ],
    ),
    (
        Width::Index,
        [
            0x0,
            0x1,
            0xffffffffffffffff,
            0x8000000000000000,
            0x7fffffffffffffff,
            0x3f,
            0x40,
            0x41,
        ],
    ),
];

/// The edges read in two's complement.
const SIGNED: [(Width, [i64; 8]); 6] = [
    (Width::I1, [0, -1, -1, -1, 0, 0, -1, 0]),
    (Width::I8, [0, 1, -1, -128, 127, 7, 8, 9]),
    (Width::I16, [0, 1, -1, -32768, 32767, 15, 16, 17]),
    (Width::I32, [0, 1, -1, -2147483648, 2147483647, 31, 32, 33]),
    (
        Width::I64,
        [
            0,
            1,
            -1,
            -9223372036854775808,
            9223372036854775807,
            63,
            64,
            65,
        ],
    ),
    (
        Width::Index,
        [
            0,
            1,
            -1,
            -9223372036854775808,
            9223372036854775807,
            63,
            64,
            65,
        ],
    ),
];

/// The integers of `WIDE` modulo 2^bits.
const WRAPPED: [(Width, [u64; 7]); 6] = [
    (Width::I1, [0x0, 0x1, 0x1, 0x1, 0x1, 0x1, 0x1]),
    (Width::I8, [0x0, 0xff, 0x7f, 0xff, 0xff, 0x1, 0xff]),
    (Width::I16, [0x0, 0xffff, 0xff7f, 0xffff, 0xff, 0x1, 0xffff]),
    (
        Width::I32,
        [
            0x0, 0xffffffff, 0xffffff7f, 0xffffffff, 0xff, 0x1, 0xffffffff,
        ],
    ),
    (
        Width::I64,
        [
            0x0,
            0x7fffffffffffffff,
            0xffffffffffffff7f,
            0xffffffffffffffff,
            0xff,
            0x1,
            0xffffffffffffffff,
        ],
    ),
    (
        Width::Index,
        [
            0x0,
            0x7fffffffffffffff,
            0xffffffffffffff7f,
            0xffffffffffffffff,
            0xff,
            0x1,
            0xffffffffffffffff,
        ],
    ),
];

/// The digest of each operation over all pairs of edges, by width.
const BINARY: [(BinKind, [u64; 6]); 13] = [
    (
        BinKind::Addi,
        [
            0x6b0911eb, 0xa88b4dfa, 0x3c0b2e0e, 0x3ab7ce29, 0x99739b46, 0x99739b46,
        ],
    ),
    (
        BinKind::Subi,
        [
            0x6b0911eb, 0x4eec0acc, 0xedbfe3e9, 0x847ac104, 0x125b8742, 0x125b8742,
        ],
    ),
    (
        BinKind::Muli,
        [
            0xd3a70b1, 0x7508fa3c, 0xbaaeb05c, 0x2c60e2b3, 0x3c23d12c, 0x3c23d12c,
        ],
    ),
    (
        BinKind::Andi,
        [
            0xd3a70b1, 0xfe3dfb15, 0x84a483e3, 0xce1cd165, 0x5780404, 0x5780404,
        ],
    ),
    (
        BinKind::Ori,
        [
            0x7843829c, 0x5bd067e5, 0x3a7ba9cc, 0x6c3ba2a0, 0x93fb9741, 0x93fb9741,
        ],
    ),
    (
        BinKind::Xori,
        [
            0x6b0911eb, 0x5d926cd0, 0xb5d725e9, 0x9e1ed13a, 0x8e83933d, 0x8e83933d,
        ],
    ),
    (
        BinKind::Shli,
        [
            0xebe5b4e1, 0xdf8677d, 0x9b2087ca, 0xcabfaf3, 0x70847a4f, 0x70847a4f,
        ],
    ),
    (
        BinKind::Shrui,
        [
            0xebe5b4e1, 0x3d81dce1, 0x2b15bec4, 0x76a66885, 0x1407bb9c, 0x1407bb9c,
        ],
    ),
    (
        BinKind::Shrsi,
        [
            0xebe5b4e1, 0xa89f48f6, 0xa2c05fc5, 0xb0725b72, 0xe27bf146, 0xe27bf146,
        ],
    ),
    (
        BinKind::Minsi,
        [
            0x7843829c, 0xe44a8c44, 0x1744166b, 0x667cf6f1, 0xd0df721b, 0xd0df721b,
        ],
    ),
    (
        BinKind::Maxsi,
        [
            0xd3a70b1, 0x75c3d6b5, 0xa7dc1743, 0xd3db7d13, 0xc894292a, 0xc894292a,
        ],
    ),
    (
        BinKind::Minui,
        [
            0xd3a70b1, 0xd6b7c6dd, 0x2ae57b9a, 0x5a88eeb1, 0xc88f5eb9, 0xc88f5eb9,
        ],
    ),
    (
        BinKind::Maxui,
        [
            0x7843829c, 0x83569c1d, 0x943ab215, 0xdfcf8554, 0xd0e43c8c, 0xd0e43c8c,
        ],
    ),
];

/// The same of each comparison.
const COMPARED: [(CmpKind, [u64; 6]); 10] = [
    (
        CmpKind::Eq,
        [
            0x9612fafb, 0x89b68504, 0x89b68504, 0x89b68504, 0x89b68504, 0x89b68504,
        ],
    ),
    (
        CmpKind::Ne,
        [
            0x6b0911eb, 0x776587e2, 0x776587e2, 0x776587e2, 0x776587e2, 0x776587e2,
        ],
    ),
    (
        CmpKind::Slt,
        [
            0x3cf69b24, 0x4378e0c1, 0x4378e0c1, 0x4378e0c1, 0x4378e0c1, 0x4378e0c1,
        ],
    ),
    (
        CmpKind::Sle,
        [
            0xd3099620, 0xcd2f65c5, 0xcd2f65c5, 0xcd2f65c5, 0xcd2f65c5, 0xcd2f65c5,
        ],
    ),
    (
        CmpKind::Sgt,
        [
            0x2e1276c6, 0x33eca721, 0x33eca721, 0x33eca721, 0x33eca721, 0x33eca721,
        ],
    ),
    (
        CmpKind::Sge,
        [
            0xc42571c2, 0xbda32c25, 0xbda32c25, 0xbda32c25, 0xbda32c25, 0xbda32c25,
        ],
    ),
    (
        CmpKind::Ult,
        [
            0x2e1276c6, 0x7280891c, 0x7280891c, 0x7280891c, 0x7280891c, 0x7280891c,
        ],
    ),
    (
        CmpKind::Ule,
        [
            0xc42571c2, 0xfc370e20, 0xfc370e20, 0xfc370e20, 0xfc370e20, 0xfc370e20,
        ],
    ),
    (
        CmpKind::Ugt,
        [
            0x3cf69b24, 0x4e4fec6, 0x4e4fec6, 0x4e4fec6, 0x4e4fec6, 0x4e4fec6,
        ],
    ),
    (
        CmpKind::Uge,
        [
            0xd3099620, 0x8e9b83ca, 0x8e9b83ca, 0x8e9b83ca, 0x8e9b83ca, 0x8e9b83ca,
        ],
    ),
];

/// The digest of each conversion over all widths to go to and all edges, by the width to come from.
const CONVERTED: [(ConvKind, [u64; 6]); 5] = [
    (
        ConvKind::Extsi,
        [
            0xfdadfaea, 0xce69e16c, 0x6929a13b, 0x7ee0ea82, 0x1cfbfaf, 0x1cfbfaf,
        ],
    ),
    (
        ConvKind::Extui,
        [
            0x3cf8c836, 0xd61c2bdf, 0xd66a565e, 0x5104aac2, 0x1cfbfaf, 0x1cfbfaf,
        ],
    ),
    (
        ConvKind::Trunci,
        [
            0x3cf8c836, 0xd61c2bdf, 0xd66a565e, 0x5104aac2, 0x1cfbfaf, 0x1cfbfaf,
        ],
    ),
    (
        ConvKind::IndexCast,
        [
            0xfdadfaea, 0xce69e16c, 0x6929a13b, 0x7ee0ea82, 0x1cfbfaf, 0x1cfbfaf,
        ],
    ),
    (
        ConvKind::IndexCastui,
        [
            0x3cf8c836, 0xd61c2bdf, 0xd66a565e, 0x5104aac2, 0x1cfbfaf, 0x1cfbfaf,
        ],
    ),
];

/// A number modulo 2^bits, or no number.
fn fitting(w: Width, e: Elem) -> Elem
    ensures { FitsWidth w result }
{
    match e {
        Elem::Num(n) => Elem::Num(wrap(w, i128::from(n))),
        Elem::NoNumber => Elem::NoNumber,
    }
}

/// The digest with one more result.
fn digest(total: u64, e: Elem) -> u64 {
    let result = match e {
        Elem::Num(n) => n,
        Elem::NoNumber => 0x9e37_79b9_7f4a_7c15,
    };
    total.wrapping_mul(31).wrapping_add(result)
}

fn element(w: Width, n: u64) -> Elem
    ensures { FitsWidth w result }
{
    fitting(w, Elem::Num(n))
}

fn binary_digest(k: BinKind, w: Width, edges: &[u64]) -> u64 {
    let mut total = 0;
    for a in edges {
        for b in edges {
            total = digest(total, apply_binary(k, w, element(w, *a), element(w, *b)));
        }
    }
    total >> 32
}

fn compared_digest(k: CmpKind, w: Width, edges: &[u64]) -> u64 {
    let mut total = 0;
    for a in edges {
        for b in edges {
            total = digest(total, apply_cmp(k, w, element(w, *a), element(w, *b)));
        }
    }
    total >> 32
}

fn converted_digest(k: ConvKind, from: Width, edges: &[u64]) -> u64 {
    let mut total = 0;
    for (to, _) in EDGES {
        for a in edges {
            total = digest(total, apply_conv(k, from, to, element(from, *a)));
        }
    }
    total >> 32
}

fn assert_readings(rt: &impl Abort) {
    for i in 0..6 {
        let (w, edges) = EDGES[i];
        assert_eq!(rt; bits(w), [1, 8, 16, 32, 64, 64][i], "bits of {w:?}");
        for j in 0..8 {
            let n = wrap(w, i128::from(edges[j]));
            assert_eq!(rt; n, edges[j], "edge {j} of {w:?}");
            assert_eq!(rt; signed(w, n), SIGNED[i].1[j], "edge {j} of {w:?}");
        }
        for j in 0..7 {
            assert_eq!(rt; wrap(w, WIDE[j]), WRAPPED[i].1[j], "number {j} at {w:?}");
        }
    }
}

#[test]
fn integers_are_pythons(rt: HostRuntime) {
    assert_readings(&rt);
    for i in 0..6 {
        let (w, edges) = EDGES[i];
        for (k, wanted) in BINARY {
            assert_eq!(rt; binary_digest(k, w, &edges), wanted[i], "{k:?} at {w:?}");
        }
        for (k, wanted) in COMPARED {
            assert_eq!(rt; compared_digest(k, w, &edges), wanted[i], "{k:?} at {w:?}");
        }
        for (k, wanted) in CONVERTED {
            assert_eq!(rt;
                converted_digest(k, w, &edges),
                wanted[i],
                "{k:?} from {w:?}"
            );
        }
    }
}

const NONE: Elem = Elem::NoNumber;

/// Rows that a reader can follow, at eight bits.
const ROWS: [(BinKind, Elem, Elem, Elem); 17] = [
    (BinKind::Addi, Elem::Num(127), Elem::Num(1), Elem::Num(128)),
    (BinKind::Addi, Elem::Num(255), Elem::Num(1), Elem::Num(0)),
    (BinKind::Subi, Elem::Num(0), Elem::Num(1), Elem::Num(255)),
    (BinKind::Muli, Elem::Num(128), Elem::Num(2), Elem::Num(0)),
    (BinKind::Muli, Elem::Num(255), Elem::Num(255), Elem::Num(1)),
    (BinKind::Shli, Elem::Num(3), Elem::Num(7), Elem::Num(128)),
    (BinKind::Shli, Elem::Num(3), Elem::Num(8), NONE),
    (BinKind::Shrui, Elem::Num(128), Elem::Num(7), Elem::Num(1)),
    (BinKind::Shrui, Elem::Num(0), Elem::Num(255), NONE),
    (BinKind::Shrsi, Elem::Num(128), Elem::Num(7), Elem::Num(255)),
    (BinKind::Shrsi, Elem::Num(255), Elem::Num(8), NONE),
    (
        BinKind::Minsi,
        Elem::Num(128),
        Elem::Num(127),
        Elem::Num(128),
    ),
    (
        BinKind::Maxsi,
        Elem::Num(128),
        Elem::Num(127),
        Elem::Num(127),
    ),
    (
        BinKind::Minui,
        Elem::Num(128),
        Elem::Num(127),
        Elem::Num(127),
    ),
    (
        BinKind::Maxui,
        Elem::Num(128),
        Elem::Num(127),
        Elem::Num(128),
    ),
    (BinKind::Addi, Elem::Num(1), NONE, NONE),
    (BinKind::Muli, NONE, Elem::Num(0), NONE),
];

#[test]
fn edges_of_eight_bits_are_as_one_reckons(rt: HostRuntime) {
    for (k, a, b, wanted) in ROWS {
        let found = apply_binary(k, Width::I8, fitting(Width::I8, a), fitting(Width::I8, b));
        assert_eq!(rt; found, wanted, "{k:?} of {a:?} and {b:?}");
    }
    let seven = Elem::Num(7);
    assert_eq!(rt; apply_select(Elem::Num(1), seven, NONE), seven);
    assert_eq!(rt; apply_select(Elem::Num(0), seven, NONE), NONE);
    assert_eq!(rt; apply_select(NONE, seven, seven), NONE);
}
