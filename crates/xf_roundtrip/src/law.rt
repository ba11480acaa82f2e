//! What holds of all texts.
ghost use Rattle.xf_roundtrip.specs.Laws.{TokensAreRightAsTheySay, TextsMeanWhatTheySay, PrintedSaysTheModule};

/// The names and types of a text are right exactly where those are that its tokens say in bytes.
pub fn tokens_are_right_as_they_say()
    ensures { TokensAreRightAsTheySay }
{}

/// A text that is laid out, whose tokens the grammar writes and whose names and types are right,
/// spells the module that its tokens say.
pub fn texts_mean_what_they_say()
    ensures { TextsMeanWhatTheySay }
{}

/// What the printed form of a valid module of builtin, func, arith and scf says, head by head, is
/// right in its names and types, and means the module again up to the names of operations.
pub fn printed_modules_say_themselves()
    ensures { PrintedSaysTheModule }
{}
