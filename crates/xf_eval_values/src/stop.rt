//! Why an evaluation stops.
ghost use Rattle.std.specs.Prelude.{◌≡◌, ◌+◌, ◌≤◌, ◌<◌, OnOk, OnErr};
ghost use Rattle.xf_eval_values.specs.declared.stop.Stop.TheVariants.{NoMemory as no_memory};

use std::alloc::AllocError;
use xf_ir::OpName;

/// Why an evaluation gives no values.
#[derive(Debug, Drop)]
pub enum Stop {
    /// The operation is undefined.
    Undefined(OpName),
    /// The units pass the budget.
    Budget,
    /// There is no memory.
    NoMemory,
}

impl From<AllocError> for Stop {
    ghost from_gives = { λ _ stop. stop ≡ no_memory };

    fn from(_error: AllocError) -> Stop {
        Stop::NoMemory
    }
}

/// Takes units from what is left of a budget; none where there are fewer.
pub fn charge(budget: &mut u64, units: u64) -> bool
    ensures taken { result ≡ Rattle.std.specs.Prelude.nat_le units budget.old }
    ensures left { result ≡ Rattle.std.specs.Prelude.true → budget.old ≡ units + budget.new }
{
    if *budget < units {
        return false;
    }
    *budget -= units;
    true
}
