//! Offsets, sizes and strides of slices, appended to the line so far. They refuse for want of memory alone.
ghost use Rattle.std.specs.Prelude.{◌≡◌, ◌++◌, OnOk};
ghost use Rattle.xf_format.specs.declared.expected.Expected.TheVariants as due;
ghost use Rattle.xf_format.specs.declared.list.Item.TheVariants as item;
ghost use Rattle.xf_format.specs.declared.row.Side.TheVariants.{Offsets, Sizes};
ghost use Rattle.xf_format.specs.Rules.{language, place_rule, stride_rule, until_rule};
ghost use Rattle.xf_dense.specs.Nests.{close_bracket};
ghost use Rattle.xf_grammar.specs.Grammar.{begun, gap_of, listed, written};
ghost use Rattle.xf_grammar.specs.Layout.{text};
ghost use Rattle.xf_print_base.specs.Index.{names_of};
ghost use Rattle.xf_print_base.specs.Places.{behind_place, place_printed};
ghost use Rattle.xf_printed.specs.Items.{rule_text, some_fill, until_fill};
ghost use Rattle.xf_printed.specs.Structured.{offsets_of, offsets_printed, place_fill, places_printed, sizes_printed};
ghost use Rattle.xf_printed.specs.Structured.{stride_fill, values_behind};

use crate::index::Index;
use crate::kinds::{offsets_of, sizes_of, window_values};
use crate::values::{operands_behind, write_operand};
use crate::words::{write_gap, write_integer, write_word};
use xf_format::Side;
use xf_ir::{Kind, SliceIndex, ValueName};
use xf_type::NoMemory;

/// The values that are left behind an offset or a size.
fn behind_place(place: SliceIndex, values: &[ValueName]) -> &[ValueName]
    ensures { result.now ≡ behind_place place values.now }
{
    match place {
        SliceIndex::Fixed(_) => values,
        SliceIndex::Dynamic => operands_behind(values, 1),
    }
}

/// The values that are left behind offsets or sizes.
fn values_behind<'a>(places: &[SliceIndex], values: &'a [ValueName]) -> &'a [ValueName]
    ensures { result.now ≡ values_behind places.now values.now }
{
    let mut left = values;
    for place in places {
        left = behind_place(*place, left);
    }
    left
}

/// Appends an offset or a size, where the first value is the next unknown one.
#[tactic(auto, using(crate::proofs::PlaceTexts::value_text))]
fn write_place(
    side: Side,
    gap: bool,
    names: &Index<'_>,
    place: SliceIndex,
    values: &[ValueName],
    line: &mut Vec<u8>,
) -> Result<(), NoMemory>
    ensures { OnOk result (line.new.items ≡ line.old.items ++ text (begun (gap_of gap)
        (written language (place_rule side) (place_fill (names_of names.now) (place_printed place values.now))))) }
{
    let _side = side;
    match place {
        SliceIndex::Fixed(number) => {
            write_gap(gap, line)?;
            write_integer(number, line)?;
            Ok(())
        }
        SliceIndex::Dynamic => write_operand(gap, names, values, 0, line),
    }
}

/// Appends offsets or sizes, where the unknown ones are the first values.
fn write_places(
    side: Side,
    names: &Index<'_>,
    places: &[SliceIndex],
    values: &[ValueName],
    line: &mut Vec<u8>,
) -> Result<(), NoMemory>
    ensures { OnOk result (line.new.items ≡ line.old.items ++ rule_text (listed (place_rule side))
        (some_fill (place_fill (names_of names.now)) (places_printed places.now values.now))) }
{
    let [first, rest @ ..] = places else {
        return Ok(());
    };
    write_place(side, false, names, *first, values, line)?;
    let mut left = behind_place(*first, values);
    for place in rest {
        line.push(b',')?;
        write_place(side, true, names, *place, left, line)?;
        left = behind_place(*place, left);
    }
    Ok(())
}

/// Appends the offsets of a slice up to a bracket.
#[tactic(auto, using(crate::proofs::Texts::until_text, std::proofs::lemmas::Grind::common_steps))]
pub fn write_offsets(
    kind: &Kind,
    names: &Index<'_>,
    operands: &[ValueName],
    line: &mut Vec<u8>,
) -> Result<(), NoMemory>
    ensures { OnOk result (line.new.items
        ≡ line.old.items ++ rule_text (until_rule close_bracket due.Other (item.Place Offsets))
        (until_fill close_bracket (place_fill (names_of names.now)) (offsets_printed kind.now operands.now))) }
{
    let values = window_values(kind, operands);
    write_places(Side::Offsets, names, offsets_of(kind), values, line)?;
    line.push(b']')?;
    Ok(())
}

/// Appends the sizes of a slice up to a bracket.
#[tactic(auto, using(crate::proofs::Texts::until_text, std::proofs::lemmas::Grind::common_steps))]
pub fn write_sizes(
    kind: &Kind,
    names: &Index<'_>,
    operands: &[ValueName],
    line: &mut Vec<u8>,
) -> Result<(), NoMemory>
    ensures { OnOk result (line.new.items
        ≡ line.old.items ++ rule_text (until_rule close_bracket due.Other (item.Place Sizes))
        (until_fill close_bracket (place_fill (names_of names.now)) (sizes_printed kind.now operands.now))) }
{
    let values = values_behind(offsets_of(kind), window_values(kind, operands));
    write_places(Side::Sizes, names, sizes_of(kind), values, line)?;
    line.push(b']')?;
    Ok(())
}

/// Appends the stride of a dimension.
#[tactic(auto, unfolding(xf_format::specs::Rules::stride_rule))]
fn write_stride(gap: bool, place: SliceIndex, line: &mut Vec<u8>) -> Result<(), NoMemory>
    ensures { OnOk result (line.new.items ≡ line.old.items ++ text (begun (gap_of gap)
        (written language stride_rule (stride_fill place)))) }
{
    let _place = place;
    write_word(gap, b"1", line)
}

/// Appends a stride for each of some offsets.
fn write_each_stride(places: &[SliceIndex], line: &mut Vec<u8>) -> Result<(), NoMemory>
    ensures { OnOk result (line.new.items
        ≡ line.old.items ++ rule_text (listed stride_rule) (some_fill stride_fill places.now)) }
{
    let [first, rest @ ..] = places else {
        return Ok(());
    };
    write_stride(false, *first, line)?;
    for place in rest {
        line.push(b',')?;
        write_stride(true, *place, line)?;
    }
    Ok(())
}

/// Appends the strides of a slice up to a bracket: 1 for each dimension.
#[tactic(auto, using(crate::proofs::Texts::until_text, std::proofs::lemmas::Grind::common_steps))]
pub fn write_strides(kind: &Kind, line: &mut Vec<u8>) -> Result<(), NoMemory>
    ensures { OnOk result (line.new.items
        ≡ line.old.items ++ rule_text (until_rule close_bracket due.Other item.Stride)
        (until_fill close_bracket stride_fill (offsets_of kind.now))) }
{
    write_each_stride(offsets_of(kind), line)?;
    line.push(b']')?;
    Ok(())
}
