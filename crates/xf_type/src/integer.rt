//! The arithmetic of machine integers, on words of 64 bits.
ghost use Rattle.std.specs.Prelude.{◌≡◌, ◌-◌, ◌%◌, ◌^◌, ◌<◌};
ghost use Rattle.std.specs.Int.{int_min, int_max};
ghost use Rattle.xf_type.specs.declared.payload_type.Width.{Width};
ghost use Rattle.xf_type.specs.Integers.{FitsWidth, bits_of, wrapped, signed_value, binary_of, holds, converted_of};
ghost use Rattle.xf_type.specs.Integers.{binary, compared, converted, selected, combined};

use crate::kind::{BinKind, CmpKind, Combiner, ConvKind};
use crate::payload_type::{Elem, Width};

/// The bits of a width: 1, 8, 16, 32, 64, 64.
pub fn bits(w: Width) -> u32
    ensures { result ≡ bits_of w }
{
    match w {
        Width::I1 => 1,
        Width::I8 => 8,
        Width::I16 => 16,
        Width::I32 => 32,
        Width::I64 | Width::Index => 64,
    }
}

/// The greatest number of the width, whose bits are all ones.
pub fn greatest(w: Width) -> u64
    ensures { result ≡ 2 ^ bits_of w - 1 }
{
    match w {
        Width::I1 => 1,
        Width::I8 => 0xff,
        Width::I16 => 0xffff,
        Width::I32 => 0xffff_ffff,
        Width::I64 | Width::Index => u64::MAX,
    }
}

/// The number modulo 2^bits.
#[tactic(auto, using(crate::proofs::LawLemmas::wrapped_below))]
pub fn wrap(w: Width, n: i128) -> u64
    ensures value { result ≡ wrapped w n }
    ensures fits { result < 2 ^ bits_of w }
{
    (n.cast_unsigned() & greatest(w) as u128) as u64
}

/// The number read in two's complement.
pub fn signed(w: Width, n: u64) -> i64
    requires { n < 2 ^ bits_of w }
    ensures { result ≡ signed_value w n }
{
    if n <= greatest(w) / 2 {
        return n as i64;
    }
    // the bits above the width are ones, as the sign is
    (n + !greatest(w)).cast_signed()
}

/// The low bits of a word, as many as the width has.
fn low_bits(w: Width, n: u64) -> u64
    ensures { result ≡ n % 2 ^ bits_of w }
{
    n & greatest(w)
}

/// The low bits of a signed word.
fn low_bits_signed(w: Width, n: i64) -> u64
    ensures { result ≡ wrapped w n }
{
    low_bits(w, n.cast_unsigned())
}

/// The number of the two whose signed value is less.
fn lesser(w: Width, a: u64, b: u64) -> u64
    requires a_fits { a < 2 ^ bits_of w }
    requires b_fits { b < 2 ^ bits_of w }
    ensures { result ≡ wrapped w (int_min (signed_value w a) (signed_value w b)) }
{
    if signed(w, b) < signed(w, a) { b } else { a }
}

/// The number of the two whose signed value is greater.
fn greater(w: Width, a: u64, b: u64) -> u64
    requires a_fits { a < 2 ^ bits_of w }
    requires b_fits { b < 2 ^ bits_of w }
    ensures { result ≡ wrapped w (int_max (signed_value w a) (signed_value w b)) }
{
    if signed(w, b) < signed(w, a) { a } else { b }
}

/// The number with its bits moved up.
fn shifted_left(w: Width, a: u64, places: u64) -> Elem
    ensures { result ≡ binary_of BinKind.Shli w a places }
{
    if places < bits(w) as u64 {
        Elem::Num(low_bits(w, a << places))
    } else {
        Elem::NoNumber
    }
}

/// The number with its bits moved down, and zeros above them.
fn shifted_right(w: Width, a: u64, places: u64) -> Elem
    ensures { result ≡ binary_of BinKind.Shrui w a places }
{
    if places < bits(w) as u64 {
        Elem::Num(a >> places)
    } else {
        Elem::NoNumber
    }
}

/// The number with its bits moved down, and copies of the sign above them.
fn shifted_right_signed(w: Width, a: u64, places: u64) -> Elem
    requires { a < 2 ^ bits_of w }
    ensures { result ≡ binary_of BinKind.Shrsi w a places }
{
    if places < bits(w) as u64 {
        Elem::Num(low_bits_signed(w, signed(w, a) >> places))
    } else {
        Elem::NoNumber
    }
}

/// The operation on two numbers.
fn binary_number(k: BinKind, w: Width, a: u64, b: u64) -> Elem
    requires a_fits { a < 2 ^ bits_of w }
    requires b_fits { b < 2 ^ bits_of w }
    ensures { result ≡ binary_of k w a b }
{
    match k {
        BinKind::Addi => Elem::Num(low_bits(w, a.wrapping_add(b))),
        BinKind::Subi => Elem::Num(low_bits(w, a.wrapping_sub(b))),
        BinKind::Muli => Elem::Num(low_bits(w, a.wrapping_mul(b))),
        BinKind::Andi => Elem::Num(a & b),
        BinKind::Ori => Elem::Num(a | b),
        BinKind::Xori => Elem::Num(a ^ b),
        BinKind::Shli => shifted_left(w, a, b),
        BinKind::Shrui => shifted_right(w, a, b),
        BinKind::Shrsi => shifted_right_signed(w, a, b),
        BinKind::Minsi => Elem::Num(lesser(w, a, b)),
        BinKind::Maxsi => Elem::Num(greater(w, a, b)),
        BinKind::Minui => Elem::Num(a.min(b)),
        BinKind::Maxui => Elem::Num(a.max(b)),
    }
}

/// Whether the comparison of the two numbers holds.
fn comparison_holds(k: CmpKind, w: Width, a: u64, b: u64) -> bool
    requires a_fits { a < 2 ^ bits_of w }
    requires b_fits { b < 2 ^ bits_of w }
    ensures { result ≡ holds k w a b }
{
    match k {
        CmpKind::Eq => a == b,
        CmpKind::Ne => a != b,
        CmpKind::Slt => signed(w, a) < signed(w, b),
        CmpKind::Sle => signed(w, a) <= signed(w, b),
        CmpKind::Sgt => signed(w, a) > signed(w, b),
        CmpKind::Sge => signed(w, a) >= signed(w, b),
        CmpKind::Ult => a < b,
        CmpKind::Ule => a <= b,
        CmpKind::Ugt => a > b,
        CmpKind::Uge => a >= b,
    }
}

/// The number at another width.
fn converted_number(k: ConvKind, from: Width, to: Width, a: u64) -> u64
    requires { a < 2 ^ bits_of from }
    ensures { result ≡ converted_of k from to a }
{
    match k {
        ConvKind::Extsi | ConvKind::IndexCast => low_bits_signed(to, signed(from, a)),
        ConvKind::Extui | ConvKind::Trunci | ConvKind::IndexCastui => low_bits(to, a),
    }
}

/// The operation on two elements of the width: no number where one of them is none, and where a shift's amount, which
/// is read unsigned, is as large as the bits.

pub fn apply_binary(k: BinKind, w: Width, a: Elem, b: Elem) -> Elem
    requires a_fits { FitsWidth w a }
    requires b_fits { FitsWidth w b }
    ensures value { result ≡ binary k w a b }
    ensures fits { FitsWidth w result }
{
    match (a, b) {
        (Elem::Num(a), Elem::Num(b)) => binary_number(k, w, a, b),
        _ => Elem::NoNumber,
    }
}

/// 1 where the comparison of two elements of the width holds and 0 where it does not, of width `I1`; no number where
/// one of them is none.
#[tactic(auto, using(crate::proofs::LawLemmas::compared_fits))]
pub fn apply_cmp(k: CmpKind, w: Width, a: Elem, b: Elem) -> Elem
    requires a_fits { FitsWidth w a }
    requires b_fits { FitsWidth w b }
    ensures value { result ≡ compared k w a b }
    ensures fits { FitsWidth Width.I1 result }
{
    match (a, b) {
        (Elem::Num(a), Elem::Num(b)) => Elem::Num(comparison_holds(k, w, a, b) as u64),
        _ => Elem::NoNumber,
    }
}

/// The element of the width `from` at the width `to`; no number where it is none.
#[tactic(auto, using(crate::proofs::LawLemmas::converted_fits))]
pub fn apply_conv(k: ConvKind, from: Width, to: Width, a: Elem) -> Elem
    requires { FitsWidth from a }
    ensures value { result ≡ converted k from to a }
    ensures fits { FitsWidth to result }
{
    match a {
        Elem::Num(a) => Elem::Num(converted_number(k, from, to, a)),
        Elem::NoNumber => Elem::NoNumber,
    }
}

/// `a` where the condition, of width `I1`, is 1, `b` where it is 0, and no number where it is none. The element that is
/// not chosen may be anything.
#[tactic(auto, using(crate::proofs::LawLemmas::selected_fits))]
pub fn apply_select(c: Elem, a: Elem, b: Elem) -> Elem
    requires { FitsWidth Width.I1 c }
    ensures value { result ≡ selected c a b }
    ensures fits { (w : Width) → FitsWidth w a → FitsWidth w b → FitsWidth w result }
{
    match c {
        Elem::Num(0) => b,
        Elem::Num(_) => a,
        Elem::NoNumber => Elem::NoNumber,
    }
}

/// The operation by which a reduction joins two elements of the width.
#[tactic(auto, using(crate::proofs::LawLemmas::combined_fits))]
pub fn combine(c: Combiner, w: Width, a: Elem, b: Elem) -> Elem
    requires a_fits { FitsWidth w a }
    requires b_fits { FitsWidth w b }
    ensures value { result ≡ combined c w a b }
    ensures fits { FitsWidth w result }
{
    apply_binary(c.kind(), w, a, b)
}
