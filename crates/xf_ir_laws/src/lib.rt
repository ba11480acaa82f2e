//! Laws of the payload tree: of valid modules, of edits, of other names and of the choices of a rewriting step. The
//! calls that they speak of stand in `xf_ir`, whose proofs need none of them.
#![tactic(auto)]

mod laws;

pub use laws::{
    erasing_fits, erasing_keeps_bounds, erasing_keeps_valid, erasing_lowers_count,
    erasing_lowers_weight, inverse_fits, inverse_leads_back, inverses_lead_back,
    renaming_keeps_valid, replaying_composes, setting_keeps_sorted, valid_has_no_violation,
    valid_is_scoped,
};
