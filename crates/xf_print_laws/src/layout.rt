//! How the printed form of each module is read back.
ghost use Rattle.xf_print_laws.specs.LayoutLaws.{PrintedIsLaidOut};

/// The lexer reads what a valid module prints as the very tokens that its operations write.
pub fn printed_form_is_laid_out()
    ensures { PrintedIsLaidOut }
{}
