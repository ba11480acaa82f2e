//! The verifier.
ghost use Rattle.std.specs.Prelude.{◌≡◌, [], OnOk};
ghost use Rattle.std.specs.FinSet as set;
ghost use Rattle.xf_ir.specs.Placed.{type_at, top};
ghost use Rattle.xf_ir.specs.Valid.{IsValid};
ghost use Rattle.xf_ir.specs.Violations.{first_violation};
ghost use Rattle.xf_verify.specs.Judged.{first_behind, all_stand};
ghost use Rattle.xf_verify.specs.Answers.{Answers};

use crate::calls::CallGraph;
use crate::facts::Facts;
use crate::fault::VerifyFault;
use crate::functions::holds_functions;
use crate::scope::VisibleValues;
use crate::stand::Holder;
use crate::walk::{Walk, blocks, enter};
use std::alloc::Global;
use xf_ir::{Kind, Module, NameSet, Op, Rule};
use xf_ir_laws::valid_has_no_violation;
use xf_rules::Yielded;

/// Judges the root by all rules but V2, and then what it holds. What holds the root is as if a module did.
fn walk_from_root<'a>(
    alloc: Global,
    facts: &Facts<'_>,
    nothing: &'a Kind,
    root: &'a Op,
) -> Result<(), VerifyFault>
    requires { nothing.now ≡ top.kind }
    ensures { Answers result (first_behind facts.now set.empty (all_stand top (type_at []) root.now)) }
{
    let mut walk = Walk {
        names: NameSet::new(alloc),
        scope: VisibleValues::new(alloc),
    };
    let holder = Holder {
        kind: nothing,
        gives: Yielded::Nothing,
    };
    let inner = enter(alloc, facts, &mut walk, holder, root, &[])?;
    blocks(alloc, facts, &mut walk, inner, root)
}

/// Judges a module by the rules V1 to V16.
///
/// Answers `Ok` exactly where it is valid, but for want of memory. Else names the first operation in
/// preorder that breaks a rule, with the first rule that it breaks.
///
/// Takes time in the number of operations, operands, types and attributes, with a look-up for each
/// name, operand and call, and 31 passes over the calls; recursion as deep as regions are nested.
pub fn verify(alloc: Global, m: &Module) -> Result<(), VerifyFault>
    ensures valid { OnOk result (IsValid m.now) }
    ensures first { Answers result (first_violation m.now) }
{
    valid_has_no_violation();
    let root = &m.root;
    if root.name.0 >= m.next {
        return Err(VerifyFault::Rule {
            rule: Rule::Names.number(),
            op: root.name,
        });
    }
    if !holds_functions(alloc, m)? {
        return Err(VerifyFault::Rule {
            rule: Rule::Functions.number(),
            op: root.name,
        });
    }
    let facts = Facts {
        next: m.next,
        calls: CallGraph::new(alloc, m)?,
    };
    let nothing = Kind::Module { symbol: None };
    walk_from_root(alloc, &facts, &nothing, root)
}
