//! What holds of the texts of all tensor types.
ghost use Rattle.xf_shape.specs.Laws.{ShapesAreReadAgain, ShapesStay, ShapesAreAscii};

/// The text of a tensor type means that type, and is one token behind the word `tensor`, of ASCII.
pub fn written_shapes_are_read()
    ensures again { ShapesAreReadAgain }
    ensures stays { ShapesStay }
    ensures ascii { ShapesAreAscii }
{}
