//! Laws of valid modules and of edits, each as the contract of a function that does nothing.
ghost use Rattle.xf_ir_laws.specs.Laws.{ValidIsScoped, ValidHasNoViolation, ErasingFits, ErasingKeepsValid};
ghost use Rattle.xf_ir_laws.specs.Laws.{ErasingLowersWeight, ErasingLowersCount, ErasingKeepsListsShort};
ghost use Rattle.xf_ir_laws.specs.Laws.{ErasingKeepsLimits, InverseLeadsBack, InverseFits, ReplayingComposes};
ghost use Rattle.xf_ir_laws.specs.Laws.{InversesFit, InversesLeadBack, SettingKeepsSorted, RenamingKeepsValid};

/// In a valid module each operand is visible where it stands, and each value is defined once among those that are
/// visible.
pub fn valid_is_scoped()
    ensures { ValidIsScoped }
{}

/// A module is valid exactly where no operation breaks a rule.
pub fn valid_has_no_violation()
    ensures { ValidHasNoViolation }
{}

/// What may be erased is erased by an edit that fits the module.
pub fn erasing_fits()
    ensures { ErasingFits }
{}

/// Erasing what may be erased leaves a valid module.
pub fn erasing_keeps_valid()
    ensures { ErasingKeepsValid }
{}

/// Erasing what may be erased lowers the weight of the scope.
pub fn erasing_lowers_weight()
    ensures { ErasingLowersWeight }
{}

/// Erasing what may be erased lowers the number of operations.
pub fn erasing_lowers_count()
    ensures { ErasingLowersCount }
{}

/// Erasing an operation leaves lists that are short, and a module within the limits of payloads.
pub fn erasing_keeps_bounds()
    ensures lists { ErasingKeepsListsShort }
    ensures limits { ErasingKeepsLimits }
{}

/// Where names occur once, the inverse of an edit that fits leads back to the module's tree.
pub fn inverse_leads_back()
    ensures { InverseLeadsBack }
{}

/// Where names occur once and each use is of a visible value, the inverse of an edit that fits the module fits the
/// edited one.
pub fn inverse_fits()
    ensures { InverseFits }
{}

/// Edits are replayed by replaying some of them and then the others.
pub fn replaying_composes()
    ensures { ReplayingComposes }
{}

/// Where edits fit one after another, their inverses do, the last edit's first, and lead back to the module's tree.
pub fn inverses_lead_back()
    ensures fit { InversesFit }
    ensures root { InversesLeadBack }
{}

/// An attribute that is given a value or taken away leaves the attributes sorted by the bytes of their names.
pub fn setting_keeps_sorted()
    ensures { SettingKeepsSorted }
{}

/// A valid module stays valid under other names of operations that are below its next one.
pub fn renaming_keeps_valid()
    ensures { RenamingKeepsValid }
{}
