//! What holds of all files.
ghost use Rattle.xf_payload.specs.Laws.{HoldsOne, HasOneFault, HoldsOrNot};

/// A file holds at most one valid module and has at most one fault, and never both.
pub fn one_verdict()
    ensures holds { HoldsOne }
    ensures fault { HasOneFault }
    ensures apart { HoldsOrNot }
{}
