//! What holds of all texts.
ghost use Rattle.xf_read.specs.Short.{SpeltIsShort, SpeltHasShortProperties, SpeltIsWithinLimits};
ghost use Rattle.xf_read.specs.Spells.{SpellsOne, MisspellsOne, SpellsOrNot};

/// A text spells at most one module and has at most one fault, and never both.
pub fn one_meaning()
    ensures spells { SpellsOne }
    ensures fault { MisspellsOne }
    ensures apart { SpellsOrNot }
{}

/// No list of a module that a text spells has 2^32 entries, nor any of the properties of its operations;
/// offsets and sizes are numbers of 64 bits; and the module is within the limits of
/// payloads: at most 32 open regions, and at most a million operations.
pub fn spelt_modules_are_bounded()
    ensures lists { SpeltIsShort }
    ensures properties { SpeltHasShortProperties }
    ensures limits { SpeltIsWithinLimits }
{}
