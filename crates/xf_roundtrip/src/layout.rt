//! What holds of the printed form of all modules.
ghost use Rattle.xf_roundtrip.specs.PrintedLaws.{PrintedHasLayout, PrintedIsSpelt};

/// The printed form of a valid module without dense constants, slices and `linalg.generic`, within
/// the limits of texts, is laid out of tokens that the grammar of payloads writes.
pub fn printed_form_has_layout()
    ensures { PrintedHasLayout }
{}

/// The printed form of a valid module without dense constants, slices and `linalg.generic`, within
/// the limits of texts, spells the module again, up to the names of operations.
pub fn printed_modules_are_spelt()
    ensures { PrintedIsSpelt }
{}
