//! Operations that may take the place of one.
ghost use Rattle.std.specs.Prelude.{◌≡◌, IfOk};

use crate::op::Op;
use crate::values::ValueList;
use std::alloc::Global;
use std::marker::Model;
use xf_type::NoMemory;

/// Operations that may take the place of one, and the values that take the place of its results.
///
/// What they use from outside are free values.
#[derive(Drop)]
pub struct Snippet {
    pub ops: Vec<Op>,
    pub results: ValueList,
}

impl Model for Snippet {
    ghost use Rattle.xf_ir.specs.Snippets.{Fragment, fragment_code, fragment_of};

    ghost Value = { Fragment };

    ghost coded = { fragment_code };

    ghost view = { fragment_of };
}

impl Snippet {
    /// A copy, equal in its operations and results. Refuses for want of memory alone.
    pub fn copy(&self, alloc: Global) -> Result<Snippet, NoMemory>
        ensures { IfOk result (λ copy. copy ≡ self.now) }
    {
        let mut ops = Vec::new(alloc);
        for op in &self.ops {
            ops.push(op.copy(alloc)?)?;
        }
        Ok(Snippet {
            ops,
            results: ValueList::from_slice(alloc, self.results.as_slice())?,
        })
    }
}
