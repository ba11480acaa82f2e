//! The rules that an operation keeps for itself where it stands.
ghost use Rattle.std.specs.Prelude.{◌≡◌, IfOk};
ghost use Rattle.xf_ir.specs.RuleBlocks.{ends_its_blocks};
ghost use Rattle.xf_ir.specs.Violations.{first_false};
ghost use Rattle.xf_verify.specs.Judged.{shape_rules, type_rules, linalg_rules, range_rules, rules_of, stand_seen};

use crate::facts::Facts;
use crate::stand::{Stand, are_known};
use std::alloc::Global;
use xf_ir::Rule;
use xf_rules::{attributes_fit, blocks_end, callee_agrees, fits_body, regions_fit, stands_at_end};
use xf_rules_shape::{
    extents_agree, iterators_fit, kind_fits, maps_fit, reduces, slices_fit, types_fit,
    types_in_range,
};
use xf_type::NoMemory;

/// Whether the blocks of an operation end as they are to, and it stands where it may end one.
fn ends_its_blocks(stand: &Stand<'_>) -> bool
    ensures { result ≡ ends_its_blocks (stand_seen stand.now) }
{
    let op = stand.op;
    blocks_end(&op.kind, &op.regions)
        && stands_at_end(stand.holder.kind, &op.kind, stand.after.is_empty())
}

/// The first of V3 to V5 that an operation breaks.
fn broken_shape(stand: &Stand<'_>) -> Option<Rule>
    ensures { result ≡ first_false (shape_rules (stand_seen stand.now)) }
{
    let op = stand.op;
    if !regions_fit(&op.kind, stand.types, op.results.as_slice(), &op.regions) {
        return Some(Rule::Regions);
    }
    if !ends_its_blocks(stand) {
        return Some(Rule::Blocks);
    }
    if !are_known(stand.types) {
        return Some(Rule::Uses);
    }
    None
}

/// The first of V6 to V9 that an operation breaks.
fn broken_types(facts: &Facts<'_>, stand: &Stand<'_>) -> Option<Rule>
    ensures { result ≡ first_false (type_rules facts.now (stand_seen stand.now)) }
{
    let op = stand.op;
    let results = op.results.as_slice();
    let callee = facts.calls.callee(&op.kind);
    if !types_fit(&op.kind, stand.holder.gives, callee, stand.types, results) {
        return Some(Rule::Types);
    }
    if !kind_fits(&op.kind) || !attributes_fit(op.attrs.as_slice()) {
        return Some(Rule::Attributes);
    }
    if !callee_agrees(&op.kind, callee, results) {
        return Some(Rule::Callees);
    }
    if !facts.calls.callee_ends(&op.kind) {
        return Some(Rule::Chains);
    }
    None
}

/// The first of V10 to V14 that an operation breaks. Refuses for want of memory alone.
fn broken_linalg(alloc: Global, stand: &Stand<'_>) -> Result<Option<Rule>, NoMemory>
    ensures { IfOk result (λ rule. rule ≡ first_false (linalg_rules (stand_seen stand.now))) }
{
    let op = stand.op;
    let kind = &op.kind;
    if !maps_fit(alloc, kind, stand.types)? {
        return Ok(Some(Rule::Maps));
    }
    if !iterators_fit(alloc, kind, stand.types)? {
        return Ok(Some(Rule::Iterators));
    }
    if !reduces(alloc, op)? {
        return Ok(Some(Rule::Reductions));
    }
    if !extents_agree(alloc, kind, stand.types)? {
        return Ok(Some(Rule::Extents));
    }
    if !fits_body(stand.holder.kind, kind) {
        return Ok(Some(Rule::Bodies));
    }
    Ok(None)
}

/// The first of V15 and V16 that an operation breaks.
fn broken_ranges(stand: &Stand<'_>) -> Option<Rule>
    ensures { result ≡ first_false (range_rules (stand_seen stand.now)) }
{
    let op = stand.op;
    if !types_in_range(&op.kind, op.results.as_slice(), &op.regions) {
        return Some(Rule::Ranges);
    }
    if !slices_fit(&op.kind, stand.types, op.results.as_slice()) {
        return Some(Rule::Slices);
    }
    None
}

/// The first of V3 to V16 that an operation breaks. Refuses for want of memory alone.
pub fn broken_rule(
    alloc: Global,
    facts: &Facts<'_>,
    stand: &Stand<'_>,
) -> Result<Option<Rule>, NoMemory>
    ensures { IfOk result (λ rule. rule ≡ first_false (rules_of facts.now (stand_seen stand.now))) }
{
    if let Some(rule) = broken_shape(stand) {
        return Ok(Some(rule));
    }
    if let Some(rule) = broken_types(facts, stand) {
        return Ok(Some(rule));
    }
    if let Some(rule) = broken_linalg(alloc, stand)? {
        return Ok(Some(rule));
    }
    Ok(broken_ranges(stand))
}
