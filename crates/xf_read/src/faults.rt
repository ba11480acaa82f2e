//! The faults of names and types.
ghost use Rattle.std.specs.Prelude.{◌≡◌, if◌then◌else◌, None, Some, Option, min, is_some};
ghost use Rattle.xf_read.specs.Names.{earlier, with_faults, twice_fault, no_faults, function_symbol};
ghost use Rattle.xf_read.specs.Names.{visible_at, symbol_twice, results_twice, names_twice};
ghost use Rattle.xf_read.specs.Scopes.{has_values};
ghost use Rattle.xf_read.specs.Visible.{names_in};

use crate::scope::VisibleNames;
use xf_format::{Parts, Ref, Row};
use xf_lex::Token;
use xf_read_base::text;

/// The first token in the text at which each check finds a fault.
#[derive(Clone, Copy, Debug, PartialEq, Eq)]
pub struct Faults {
    /// A use of a name that stands for no value there, or an alias that stands for no map.
    pub undefined: Option<usize>,
    /// A name that is visible already, a function's symbol or an attribute's name that stands
    /// before.
    pub twice: Option<usize>,
    /// An operation of which a stated type is not that of the value, or of which names, values and
    /// types that stand for each other differ in number.
    pub mismatch: Option<usize>,
}

/// The earlier of two tokens.
pub fn earlier(a: Option<usize>, b: Option<usize>) -> Option<usize>
    ensures { result ≡ earlier a b }
{
    match (a, b) {
        (None, b) => b,
        (Some(a), None) => Some(a),
        (Some(a), Some(b)) => Some(a.min(b)),
    }
}

impl Faults {
    /// No fault.
    pub fn none() -> Faults
        ensures { result ≡ no_faults }
    {
        Faults {
            undefined: None,
            twice: None,
            mismatch: None,
        }
    }

    /// The first faults among these and others.
    pub fn with(self, other: Faults) -> Faults
        ensures { result ≡ with_faults self other }
    {
        Faults {
            undefined: earlier(self.undefined, other.undefined),
            twice: earlier(self.twice, other.twice),
            mismatch: earlier(self.mismatch, other.mismatch),
        }
    }

    /// The first faults among these and a name that stands twice.
    pub fn with_twice(self, twice: Option<usize>) -> Faults
        ensures { result ≡ with_faults self (twice_fault twice) }
    {
        Faults {
            twice: earlier(self.twice, twice),
            ..self
        }
    }
}

/// The token of the symbol that stands for a function from then on.
pub fn function_symbol(parts: &Parts) -> Option<usize>
    ensures { result ≡ function_symbol parts.now.row parts.now.symbol }
{
    match parts.row {
        Row::Function => parts.symbol,
        _ => None,
    }
}

/// A token that is refused, or none.
pub fn token_if(refused: bool, at: usize) -> Option<usize>
    ensures { result ≡ (if refused then Some at else None) }
{
    if refused { Some(at) } else { None }
}

/// A token that is kept is not refused.
pub fn token_unless(kept: bool, at: usize) -> Option<usize>
    ensures { result ≡ (if kept then None else Some at) }
{
    if kept { None } else { Some(at) }
}

/// A token whose text is visible as a name.
fn visible_at(tokens: &[Token], scope: &VisibleNames, at: usize) -> Option<usize>
    ensures { result ≡ visible_at tokens.now (names_in scope.now) at }
{
    token_if(scope.look(text(tokens, at)).is_some(), at)
}

fn symbol_twice(tokens: &[Token], scope: &VisibleNames, symbol: Option<usize>) -> Option<usize>
    ensures { result ≡ symbol_twice tokens.now (names_in scope.now) symbol }
{
    match symbol {
        None => None,
        Some(at) => visible_at(tokens, scope, at),
    }
}

/// Whether a name of so many values stands for any: one of none is no value, and stands beside
/// any other.
pub fn has_values(count: u32) -> bool
    ensures { result ≡ has_values count }
{
    count > 0
}

fn results_twice(tokens: &[Token], scope: &VisibleNames, defines: &[Ref]) -> Option<usize>
    ensures { result ≡ results_twice tokens.now (names_in scope.now) defines.now }
{
    match defines {
        [] => None,
        [name, ..] if has_values(name.count) => visible_at(tokens, scope, name.token),
        [_, ..] => None,
    }
}

/// The first of the symbol of a function and the name of results that is visible already.
pub fn names_twice(tokens: &[Token], scope: &VisibleNames, parts: &Parts) -> Option<usize>
    ensures { result ≡ names_twice tokens.now parts.now (names_in scope.now) }
{
    earlier(
        symbol_twice(tokens, scope, function_symbol(parts)),
        results_twice(tokens, scope, parts.defines.as_slice()),
    )
}
