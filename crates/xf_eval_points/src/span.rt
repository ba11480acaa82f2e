//! Counters over the points of a box, in lexicographic order.
ghost use Rattle.std.specs.Prelude.{◌≡◌, length, IfOk, nat_lt};
ghost use Rattle.xf_ir.specs.Lists.{Each, every};
ghost use Rattle.xf_eval_points.specs.Spans.{IsOpen, first_of, rest_from, later};

use std::alloc::Global;
use xf_type::NoMemory;

/// The numbers of a dimension from one on, and below another.
#[derive(Clone, Copy)]
pub struct Span {
    pub from: u32,
    pub to: u32,
}

/// Whether each of the dimensions has a number.
pub fn are_open(spans: &[Span]) -> bool
    ensures { result ≡ every (λ s. nat_lt s.from s.to) spans.now }
{
    for span in spans {
        if span.from >= span.to {
            return false;
        }
    }
    true
}

/// Goes to the first point of a box.
pub fn begin(spans: &[Span], point: &mut [u32])
    requires { length point.old ≡ length spans.now }
    ensures { point.new ≡ first_of spans.now }
{
    for at in 0..spans.len() {
        point[at] = spans[at].from;
    }
}

/// A place for points of so many dimensions. Refuses for want of memory alone.
pub fn room_for(alloc: Global, rank: usize) -> Result<Vec<u32>, NoMemory>
    ensures { IfOk result (λ point. length point.items ≡ rank) }
{
    vec![in alloc; 0; rank]
}

/// Goes on to the next point of a box, and tells whether there is one.
pub fn advance(spans: &[Span], point: &mut [u32]) -> bool
    requires open { Each IsOpen spans.now }
    requires same { length point.old ≡ length spans.now }
    ensures { rest_from result spans.now point.new ≡ later spans.now point.old }
{
    let mut at = spans.len();
    while at > 0 {
        at -= 1;
        let span = spans[at];
        if point[at] < span.to && point[at] + 1 < span.to {
            point[at] += 1;
            return true;
        }
        point[at] = span.from;
    }
    false
}
