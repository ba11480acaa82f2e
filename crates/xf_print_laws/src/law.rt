//! What holds of the printed form of each module.
ghost use Rattle.xf_print_laws.specs.Laws.{PrintedFits, PrintedSaysHeads, PrintedHasFew};

/// What a valid module writes fits the format of payloads, and says what each of its operations is.
pub fn printed_form_says_its_module()
    ensures fits { PrintedFits }
    ensures says { PrintedSaysHeads }
    ensures few { PrintedHasFew }
{}
