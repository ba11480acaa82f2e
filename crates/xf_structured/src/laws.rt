//! Laws of the bodies of structured operations, each as the contract of a function that does nothing.
ghost use Rattle.xf_structured.specs.Bodies.{BodyReduces, BodyIsTotal};

/// The body of a reduction joins, by one operation of reductions, the element of the out with an element that is the
/// same whatever that of the out; and a body that is defined for one element of the out is defined for each.
pub fn bodies_give()
    ensures reduces { BodyReduces }
    ensures total { BodyIsTotal }
{}
