//! What holds of the module that a printed form spells.
ghost use Rattle.xf_roundtrip.specs.AgainLaws.{SpeltIsNamedOnce, PrintedIsValidAgain};

/// The printed form of a valid module without dense constants, slices and `linalg.generic`, within
/// the limits of texts, spells a valid module: the same one, up to the names of operations. For a
/// text names each operation once, and a module stays valid under other names.
pub fn printed_modules_are_valid_again()
    ensures names { SpeltIsNamedOnce }
    ensures again { PrintedIsValidAgain }
{}
