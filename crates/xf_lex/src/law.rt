//! What holds of the tokens of all texts.
ghost use Rattle.xf_lex.specs.Laws.{OneReading, OneFault, NeverBoth, LayoutIsRead};

/// A text has one list of tokens or one first fault, and not both.
pub fn one_answer()
    ensures reading { OneReading }
    ensures fault { OneFault }
    ensures apart { NeverBoth }
{}

/// A text of blanks and tokens, none of which goes on in what follows, has these tokens.
pub fn layout_is_read()
    ensures { LayoutIsRead }
{}
