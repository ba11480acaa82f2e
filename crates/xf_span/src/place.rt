//! Places in a text.
ghost use Rattle.std.specs.Prelude.{◌≡◌};
ghost use Rattle.xf_span.specs.Place.{place_after, next_place};

/// A place in a text. Lines and columns count from 1, and columns count bytes. A number above
/// 2^32 - 1 is given as 2^32 - 1.
#[derive(Clone, Copy, Debug, PartialEq, Eq)]
pub struct Place {
    pub line: u32,
    pub col: u32,
}

/// A value, and the place where its text stands.
#[derive(Clone, Copy, Debug, Drop, PartialEq, Eq)]
pub struct Located<T> {
    pub value: T,
    pub place: Place,
}

/// The place where a text begins.
pub const FIRST_PLACE: Place = Place { line: 1, col: 1 };

/// The place behind a byte.
fn next_place(place: Place, b: u8) -> Place
    ensures { result ≡ next_place place b }
{
    if b == b'\n' {
        Place {
            line: place.line.saturating_add(1),
            col: 1,
        }
    } else {
        Place {
            line: place.line,
            col: place.col.saturating_add(1),
        }
    }
}

/// The place behind some bytes.
pub fn place_after(place: Place, bytes: &[u8]) -> Place
    ensures { result ≡ place_after place bytes.now }
{
    let mut at = place;
    for b in bytes {
        at = next_place(at, *b);
    }
    at
}
