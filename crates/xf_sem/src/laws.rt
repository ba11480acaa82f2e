//! Laws of the meaning, each as the contract of a function that does nothing.
ghost use Rattle.xf_sem.specs.Laws.{FittingIsTested, KeepingIsReflexive, KeepingComposes, ErasingKeeps, RenamingKeeps};
ghost use Rattle.xf_sem.specs.Laws.{NamesDoNotMatter, TurnsAreCounted};
ghost use Rattle.xf_sem.specs.Copying.{CopyingKeeps};
ghost use Rattle.xf_sem.specs.Surroundings.{SurroundingsKeep};
ghost use Rattle.xf_sem.specs.Replacing.{ReplacingKeeps, SameReplaces};
ghost use Rattle.xf_sem.specs.Placing.{ReplacementMay};
ghost use Rattle.xf_sem.specs.StructuredLaws.{ReductionsAreFree, ParallelsAreFree, AnyOrderGives, FoldGives};
ghost use Rattle.xf_sem.specs.StructuredLaws.{OnePointGives, IndicesHavePoints, PointsGive, NamedIsGeneric};
ghost use Rattle.xf_sem.specs.Fitting.{ValuesFit, ReturnedFit};
ghost use Rattle.xf_sem.specs.Defined.{PlainIsDefined};

/// The test by which the meaning tells whether values fit their types says just that.
pub fn fitting_is_tested()
    ensures { FittingIsTested }
{}

/// A module keeps its own meaning.
pub fn keeping_is_reflexive()
    ensures { KeepingIsReflexive }
{}

/// What keeps the meaning of a module that keeps the meaning of another keeps the meaning of the latter.
pub fn keeping_composes()
    ensures { KeepingComposes }
{}

/// An operation may be changed, with the rest of its block, in any surrounding region, loop, branch or call, where
/// the change leads under every environment that an execution gives there.
pub fn surroundings_keep()
    ensures { SurroundingsKeep }
{}

/// An operation may be replaced by operations that are defined wherever it is, under every environment that an
/// execution gives there, its used results by values that are visible there and hold the same.
pub fn replacing_keeps()
    ensures { ReplacingKeeps }
{}

/// What gives the same values as an operation, wherever that gives some, may stand in its place, whatever stands
/// behind it.
pub fn same_replaces()
    ensures { SameReplaces }
{}

/// An operation inside a function may be replaced by operations that see what they use, have other names than what
/// stands behind, and leave a value for each result: every operand stays visible.
pub fn replacement_may()
    ensures { ReplacementMay }
{}

/// An operation whose results are unused, and that is no terminator, may be erased.
pub fn erasing_keeps()
    ensures { ErasingKeeps }
{}

/// A copy of a module under other names of operations and values, and with other discardable attributes, keeps its
/// meaning.
pub fn copying_keeps()
    ensures { CopyingKeeps }
{}

/// A valid module keeps its meaning under other names of operations.
pub fn renaming_keeps()
    ensures { RenamingKeeps }
{}

/// The result of a structured operation is over the set of its points: where their order is free, as it is with
/// reductions and without, they give the same in any order. With reductions an element is the fold of the operation
/// of the reduction over what the body brings at the points that lead to it, and without them what the body makes at
/// the one such point.
pub fn results_are_over_sets()
    ensures reductions { ReductionsAreFree }
    ensures parallels { ParallelsAreFree }
    ensures any_order { AnyOrderGives }
    ensures fold { FoldGives }
    ensures one_point { OnePointGives }
    ensures has_point { IndicesHavePoints }
{}

/// A block that is entered once a point, and computes there what a body makes, gives what the structured operation of
/// that body gives.
pub fn points_give()
    ensures { PointsGive }
{}

/// A product of linalg gives what the generic of its maps and product gives, whatever their operations are named.
pub fn named_is_generic()
    ensures { NamedIsGeneric }
{}

/// In a valid module, where the operands of an operation fit their types, so does all that it gives, hands to one of
/// its blocks or to a function, and what ends a block gives what its holder expects: no test of fitting decides what
/// a function returns for arguments that fit.
pub fn values_fit()
    ensures operations { ValuesFit }
    ensures returned { ReturnedFit }
{}

/// A function of a valid module that holds operations of func and arith alone, as do those that it calls in turn, is
/// defined for all arguments that fit: it returns values of its types, which may be no number.
pub fn plain_is_defined()
    ensures { PlainIsDefined }
{}

/// The meaning does not rest on names: under other names of operations a function of a valid module returns the same
/// in as many units, or stops at the same operation.
pub fn names_do_not_matter()
    ensures { NamesDoNotMatter }
{}

/// A loop takes just the turns whose induction value, without wrapping, is below the upper bound.
pub fn turns_are_counted()
    ensures { TurnsAreCounted }
{}
