//! Attributes.
ghost use Rattle.std.specs.Prelude.{◌≡◌, None};
ghost use Rattle.std.specs.Option.{option_copied};
ghost use Rattle.xf_ir.specs.Attributes.{bytes_before};
ghost use Rattle.xf_ir.specs.Lists.{every};
ghost use Rattle.xf_ir.specs.RuleAttributes.{fits_bits, value_fits, attributes_fit, conversion_fits, is_index};
ghost use Rattle.xf_ir.specs.RuleAttributes.{is_narrower, has_one_index, is_word_or_none};
ghost use Rattle.xf_type.specs.Bytes.{is_letter, is_word_byte};
ghost use Rattle.xf_ir.specs.Words.{is_word};
ghost use Rattle.xf_rules.specs.Attributes.{attribute_fits, follows, names_ascend};

use xf_ir::Attr;
use xf_type::{
    AttrValue, ByteList, ConvKind, Width, bits, greatest, is_letter, is_word_byte, same_width,
};

/// Whether each of the bytes may stand in a word behind its first.
fn are_word_bytes(bytes: &[u8]) -> bool
    ensures { result ≡ every is_word_byte bytes.now }
{
    for byte in bytes {
        if !is_word_byte(*byte) {
            return false;
        }
    }
    true
}

/// Whether the bytes are a word.
pub fn is_word(bytes: &[u8]) -> bool
    ensures { result ≡ is_word bytes.now }
{
    match bytes {
        [] => false,
        [first, rest @ ..] => is_letter(*first) && are_word_bytes(rest),
    }
}

/// Whether a symbol is a word, where there is one.
pub fn is_word_or_none(symbol: &Option<ByteList>) -> bool
    ensures { result ≡ is_word_or_none symbol.now }
{
    match symbol {
        None => true,
        Some(symbol) => is_word(symbol.as_slice()),
    }
}

/// Whether a number is below 2^bits of the width.
#[tactic(auto, using(crate::proofs::Greatest::fits_by_greatest))]
pub fn fits_bits(width: Width, number: u128) -> bool
    ensures { result ≡ fits_bits width number }
{
    number <= greatest(width) as u128
}

fn is_index(width: Width) -> bool
    ensures { result ≡ is_index width }
{
    same_width(width, Width::Index)
}

/// Whether the first width is narrower than the second and neither is `index`.
fn is_narrower(a: Width, b: Width) -> bool
    ensures { result ≡ is_narrower a b }
{
    bits(a) < bits(b) && (!is_index(a) && !is_index(b))
}

/// Whether one of the two widths is `index` and the other is not.
fn has_one_index(a: Width, b: Width) -> bool
    ensures { result ≡ has_one_index a b }
{
    (is_index(a) && !is_index(b)) || (!is_index(a) && is_index(b))
}

/// Whether a conversion leads between widths that it converts.
pub fn conversion_fits(kind: ConvKind, from: Width, to: Width) -> bool
    ensures { result ≡ conversion_fits kind from to }
{
    match kind {
        ConvKind::Extsi | ConvKind::Extui => is_narrower(from, to),
        ConvKind::Trunci => is_narrower(to, from),
        ConvKind::IndexCast | ConvKind::IndexCastui => has_one_index(from, to),
    }
}

fn value_fits(value: &AttrValue) -> bool
    ensures { result ≡ value_fits value.now }
{
    match value {
        AttrValue::Unit => true,
        AttrValue::Int { width, bits } => fits_bits(*width, *bits as u128),
        AttrValue::Text(_) => true,
    }
}

/// Whether the name of an attribute is a word and its value fits.
fn attribute_fits(attr: &Attr) -> bool
    ensures { result ≡ attribute_fits attr.now }
{
    is_word(attr.name.as_slice()) && value_fits(&attr.value)
}

/// Whether the name of each attribute is a word and its value fits.
fn each_fits(attrs: &[Attr]) -> bool
    ensures { result ≡ every attribute_fits attrs.now }
{
    for attr in attrs {
        if !attribute_fits(attr) {
            return false;
        }
    }
    true
}

/// Whether a name comes before another in the order of bytes.
#[tactic(auto, using(xf_ir::proofs::AttributeLemmas::before_by_pairs))]
fn comes_before(left: &[u8], right: &[u8]) -> bool
    ensures { result ≡ bytes_before left.now right.now }
{
    left < right
}

/// Whether the name of an attribute comes behind that of the one before it, where there is one.
fn follows(previous: Option<&Attr>, attr: &Attr) -> bool
    ensures { result ≡ follows (option_copied previous.entry) attr.now }
{
    match previous {
        None => true,
        Some(previous) => comes_before(previous.name.as_slice(), attr.name.as_slice()),
    }
}

/// Whether the name of each attribute comes before that of the next.
fn names_ascend(attrs: &[Attr]) -> bool
    ensures { result ≡ names_ascend None attrs.now }
{
    let mut previous = None;
    for attr in attrs {
        if !follows(previous, attr) {
            return false;
        }
        previous = Some(attr);
    }
    true
}

/// Whether discardable attributes are in the strict order of their names' bytes, each name a word and each value one
/// that fits.
///
/// Takes time in the length of the attributes: each name is compared with the one before it.
#[tactic(auto, using(crate::proofs::Ascending::fit_by_neighbours))]
pub fn attributes_fit(attrs: &[Attr]) -> bool
    ensures { result ≡ attributes_fit attrs.now }
{
    each_fits(attrs) && names_ascend(attrs)
}
