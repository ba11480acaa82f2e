//! What holds of all texts.
ghost use Rattle.xf_syntax.specs.Written.{TextsAreWritten, TextsReadAgain};

/// A text is read exactly where it is written, and its tree says what its tokens say.
pub fn texts_are_read_as_written()
    ensures written { TextsAreWritten }
    ensures again { TextsReadAgain }
{}
