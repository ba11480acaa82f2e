//! What holds of the arithmetic of integers. A function here does nothing: what it promises is the law.
ghost use Rattle.xf_type.specs.Laws.{WrappedFits, SignedValueFits, WrappedReturns, SignedValueReturns, BinaryFits};
ghost use Rattle.xf_type.specs.Laws.{ComparedFits, ConvertedFits, SelectedFits, CombinedFits, CombinedCommutes};
ghost use Rattle.xf_type.specs.Laws.{CombinedAssociates, ExtensionReturns, IndexCastReturns};

/// A number of a width and its signed value stand for each other.
pub fn readings_return()
    ensures wrapped { WrappedFits }
    ensures signed { SignedValueFits }
    ensures wrapped_returns { WrappedReturns }
    ensures signed_returns { SignedValueReturns }
{}

/// Every result is an element of its width.
pub fn results_fit()
    ensures binary { BinaryFits }
    ensures compared { ComparedFits }
    ensures converted { ConvertedFits }
    ensures selected { SelectedFits }
    ensures combined { CombinedFits }
{}

/// The order in which a reduction joins its elements is free.
pub fn combining_order_is_free()
    ensures commutes { CombinedCommutes }
    ensures associates { CombinedAssociates }
{}

/// An element that goes to a width of as many bits or more, and back, is the same again.
pub fn conversions_return()
    ensures extension { ExtensionReturns }
    ensures index_cast { IndexCastReturns }
{}
