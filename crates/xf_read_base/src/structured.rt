//! The windows of slices and the maps of structured operations.
ghost use Rattle.std.specs.Prelude.{◌≡◌, map, IfOk};
ghost use Rattle.xf_format.specs.Parts.{place_said, map_said};
ghost use Rattle.xf_read_base.specs.Structured.{place_meant, window_meant, aliases_in, map_meant, maps_meant};

use crate::alias::Alias;
use crate::entries::signed;
use crate::texts::text;
use std::alloc::Global;
use xf_format::{MapEntry, PlaceEntry};
use xf_grammar::number;
use xf_ir::{MapList, SliceIndex, SliceIndexList};
use xf_lex::Token;
use xf_type::{AffineMap, Duplicate, ListOf, NoMemory, PlaceList};

/// An offset or a size: a number with its sign, or an operand.
fn place_meant(tokens: &[Token], place: PlaceEntry) -> SliceIndex
    ensures { result ≡ place_meant (place_said tokens.now place) }
{
    match place {
        PlaceEntry::Number { negative, token } => {
            SliceIndex::Fixed(signed(negative, number(text(tokens, token))))
        }
        PlaceEntry::Value => SliceIndex::Dynamic,
    }
}

/// The offsets or the sizes of a window. Refuses for want of memory alone.
pub fn window(
    alloc: Global,
    tokens: &[Token],
    places: &[PlaceEntry],
) -> Result<SliceIndexList, NoMemory>
    ensures { IfOk result (λ window. window ≡ window_meant (map (place_said tokens.now) places.now)) }
{
    let mut window = ListOf::new(alloc);
    for place in places {
        window.push(place_meant(tokens, *place))?;
    }
    Ok(window)
}

/// The map of the first alias of this name, or the one without dimensions. Refuses for want of memory
/// alone.
fn alias_map(alloc: Global, aliases: &[Alias], name: &[u8]) -> Result<AffineMap, NoMemory>
    ensures { IfOk result (λ map. map ≡ aliases_in aliases.now name.now) }
{
    for alias in aliases {
        if alias.name.as_slice() == name {
            return alias.map.duplicate(alloc);
        }
    }
    Ok(AffineMap {
        dims: 0,
        results: PlaceList::new(alloc),
    })
}

/// The map itself, or what its alias stands for. Refuses for want of memory alone.
fn map_meant(
    alloc: Global,
    tokens: &[Token],
    aliases: &[Alias],
    map: &MapEntry,
) -> Result<AffineMap, NoMemory>
    ensures { IfOk result (λ read. read ≡ map_meant (aliases_in aliases.now) (map_said tokens.now map.now)) }
{
    match map {
        MapEntry::Written(map) => map.duplicate(alloc),
        MapEntry::Alias(token) => alias_map(alloc, aliases, text(tokens, *token)),
    }
}

/// The maps of a structured operation. Refuses for want of memory alone.
pub fn maps(
    alloc: Global,
    tokens: &[Token],
    aliases: &[Alias],
    entries: &[MapEntry],
) -> Result<MapList, NoMemory>
    ensures { IfOk result (λ maps. maps ≡ maps_meant (aliases_in aliases.now) (map (map_said tokens.now) entries.now)) }
{
    let mut maps = ListOf::new(alloc);
    for entry in entries {
        maps.push(map_meant(alloc, tokens, aliases, entry)?)?;
    }
    Ok(maps)
}
