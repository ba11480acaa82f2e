//! What holds of all lists of tokens.
ghost use Rattle.xf_dense.specs.Laws.{NestsAreRead, NestsAreReadInTexts, PrintedListsAreEven, PrintedListsAreRead};

/// An item all of whose lists of a level are as long is read, as its literals and its extents, and so it
/// is where its tokens stand in a text.
pub fn nests_are_read()
    ensures tokens { NestsAreRead }
    ensures texts { NestsAreReadInTexts }
{}

/// The nested lists of as many numbers as a shape has elements have its extents, and are read as these
/// numbers in order.
pub fn printed_bodies_are_read()
    ensures even { PrintedListsAreEven }
    ensures read { PrintedListsAreRead }
{}
