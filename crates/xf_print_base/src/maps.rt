//! Indexing maps and iterator types, appended to the line so far. They refuse for want of memory alone.
ghost use Rattle.std.specs.Prelude.{◌≡◌, ◌++◌, OnOk};
ghost use Rattle.xf_format.specs.declared.expected.Expected.TheVariants as due;
ghost use Rattle.xf_format.specs.declared.list.Item.TheVariants as item;
ghost use Rattle.xf_format.specs.Rules.{dimension_rule, given_rule, iterator_rule, language, map_rule, maps_rule};
ghost use Rattle.xf_format.specs.Rules.{until_rule};
ghost use Rattle.xf_dense.specs.Nests.{close_bracket};
ghost use Rattle.xf_grammar.specs.Grammar.{begun, gap_of, listed, written};
ghost use Rattle.xf_grammar.specs.Layout.{gap_text, text};
ghost use Rattle.xf_printed.specs.Items.{rule_text, some_fill, until_fill};
ghost use Rattle.xf_printed.specs.Structured.{dimension_fill, dimensions, iterator_fill, iterators_of, map_fill};
ghost use Rattle.xf_printed.specs.Structured.{maps_of};
ghost use Rattle.xf_printed.specs.Words.{dimension_text};

use crate::kinds::{iterators_of, maps_of};
use crate::words::{write_number, write_word};
use xf_ir::{IteratorKind, Kind};
use xf_type::{AffineMap, NoMemory};

// ---- maps

/// Appends the name of a dimension.
fn write_dimension(gap: bool, at: u32, line: &mut Vec<u8>) -> Result<(), NoMemory>
    ensures { OnOk result (line.new.items
        ≡ line.old.items ++ (gap_text (gap_of gap) ++ dimension_text at)) }
{
    write_word(gap, b"d", line)?;
    write_number(u128::from(at), line)?;
    Ok(())
}

/// Appends the dimensions of a map that has so many.
fn write_dimensions(dims: u32, line: &mut Vec<u8>) -> Result<(), NoMemory>
    ensures { OnOk result (line.new.items
        ≡ line.old.items ++ rule_text (listed dimension_rule) (some_fill dimension_fill (dimensions 0 dims))) }
{
    if dims == 0 {
        return Ok(());
    }
    write_dimension(false, 0, line)?;
    for at in 1..dims {
        line.push(b',')?;
        write_dimension(true, at, line)?;
    }
    Ok(())
}

/// Appends the dimensions that a map gives.
fn write_given(results: &[u32], line: &mut Vec<u8>) -> Result<(), NoMemory>
    ensures { OnOk result (line.new.items
        ≡ line.old.items ++ rule_text (listed given_rule) (some_fill dimension_fill results.now)) }
{
    let [first, rest @ ..] = results else {
        return Ok(());
    };
    write_dimension(false, *first, line)?;
    for at in rest {
        line.push(b',')?;
        write_dimension(true, *at, line)?;
    }
    Ok(())
}

/// Appends a map.
#[tactic(auto, using(crate::proofs::MapTexts::map_text, std::proofs::lemmas::Grind::common_steps))]
fn write_map(gap: bool, of: &AffineMap, line: &mut Vec<u8>) -> Result<(), NoMemory>
    ensures { OnOk result (line.new.items
        ≡ line.old.items ++ text (begun (gap_of gap) (written language map_rule (map_fill of.now)))) }
{
    write_word(gap, b"affine_map<(", line)?;
    write_dimensions(of.dims, line)?;
    line.extend_from_slice(b") -> (")?;
    write_given(of.results.as_slice(), line)?;
    line.extend_from_slice(b")>")?;
    Ok(())
}

/// Appends maps, with a comma between each two.
fn write_each_map(maps: &[AffineMap], line: &mut Vec<u8>) -> Result<(), NoMemory>
    ensures { OnOk result (line.new.items
        ≡ line.old.items ++ rule_text (listed map_rule) (some_fill map_fill maps.now)) }
{
    let [first, rest @ ..] = maps else {
        return Ok(());
    };
    write_map(false, first, line)?;
    for of in rest {
        line.push(b',')?;
        write_map(true, of, line)?;
    }
    Ok(())
}

/// Appends the maps of an operation up to a bracket.
#[tactic(auto, using(crate::proofs::MapTexts::maps_text, std::proofs::lemmas::Grind::common_steps))]
pub fn write_maps(kind: &Kind, line: &mut Vec<u8>) -> Result<(), NoMemory>
    ensures { OnOk result (line.new.items
        ≡ line.old.items ++ rule_text maps_rule (until_fill close_bracket map_fill (maps_of kind.now))) }
{
    write_each_map(maps_of(kind), line)?;
    line.push(b']')?;
    Ok(())
}

// ---- iterator types

/// Appends an iterator type with its quotes.
#[tactic(auto, unfolding(xf_format::specs::Rules::iterator_rule))]
fn write_iterator(gap: bool, kind: IteratorKind, line: &mut Vec<u8>) -> Result<(), NoMemory>
    ensures { OnOk result (line.new.items
        ≡ line.old.items ++ text (begun (gap_of gap) (written language iterator_rule (iterator_fill kind)))) }
{
    match kind {
        IteratorKind::Parallel => write_word(gap, b"\"parallel\"", line),
        IteratorKind::Reduction => write_word(gap, b"\"reduction\"", line),
    }
}

/// Appends iterator types, with a comma between each two.
fn write_each_iterator(iterators: &[IteratorKind], line: &mut Vec<u8>) -> Result<(), NoMemory>
    ensures { OnOk result (line.new.items
        ≡ line.old.items ++ rule_text (listed iterator_rule) (some_fill iterator_fill iterators.now)) }
{
    let [first, rest @ ..] = iterators else {
        return Ok(());
    };
    write_iterator(false, *first, line)?;
    for kind in rest {
        line.push(b',')?;
        write_iterator(true, *kind, line)?;
    }
    Ok(())
}

/// Appends the iterator types of an operation up to a bracket.
#[tactic(auto, using(crate::proofs::Texts::until_text, std::proofs::lemmas::Grind::common_steps))]
pub fn write_iterators(kind: &Kind, line: &mut Vec<u8>) -> Result<(), NoMemory>
    ensures { OnOk result (line.new.items
        ≡ line.old.items ++ rule_text (until_rule close_bracket due.Other item.Iterator)
        (until_fill close_bracket iterator_fill (iterators_of kind.now))) }
{
    write_each_iterator(iterators_of(kind), line)?;
    line.push(b']')?;
    Ok(())
}
