//! What holds of the heads of all lists of tokens.
ghost use Rattle.xf_format.specs.Laws.{HeadsAreWritten, HeadsReadAgain, HeadsHaveRows, NoHeadGoesOn};
ghost use Rattle.xf_format.specs.Laws.{StopsAgain, HeadsStay, HeadsAreShort, HeadsAreWithin};

/// A head is read exactly where its tokens are written, its parts are what the tokens say, and it has
/// the row of its word.
pub fn heads_are_read_as_written()
    ensures written { HeadsAreWritten }
    ensures again { HeadsReadAgain }
    ensures rows { HeadsHaveRows }
{}

/// Where reading stops at a token, no text that agrees through that token has a head there, and
/// reading stops there in each; what is read does not depend on tokens behind the one that follows.
pub fn no_head_goes_on()
    ensures none { NoHeadGoesOn }
    ensures stops { StopsAgain }
    ensures stays { HeadsStay }
{}

/// No list of a head has 2^32 entries, and each number in a head is that of a token of it.
pub fn heads_are_bounded()
    ensures short { HeadsAreShort }
    ensures within { HeadsAreWithin }
{}
