//! The place and the code of a fault of the syntax.
ghost use Rattle.std.specs.Prelude.{◌≡◌};
ghost use Rattle.xf_read_base.specs.Stops.{stop_place, judged, due_fault};

use crate::verdict::{Verdict, judge};
use xf_format::Expected;
use xf_lex::Token;
use xf_span::{Code, FIRST_PLACE, Fault, Place, place_after};

/// The place of a token, of which the end of the text is one.
pub fn stop_place(tokens: &[Token], at: usize) -> Place
    ensures { result ≡ stop_place tokens.now at }
{
    if at < tokens.len() {
        return tokens[at].place;
    }
    match tokens {
        [.., last] => place_after(last.place, last.bytes.as_slice()),
        [] => FIRST_PLACE,
    }
}

/// The fault of a token, by what it is.
fn judged(verdict: Verdict, place: Place) -> Fault
    ensures { result ≡ judged verdict place }
{
    match verdict {
        Verdict::Syntax => Fault::at(Code::A1, place),
        Verdict::OutOfProfile(number) => Fault::out_of_profile(place, number),
        Verdict::NotBuilt => Fault::at(Code::N1, place),
        Verdict::TooMany => Fault::at(Code::A7, place),
        Verdict::TooDeep => Fault::at(Code::A5, place),
    }
}

/// The fault at the first token that fits nothing, by what was due there: out of profile where the
/// token is listed as a form of MLIR that is not supported, not built where another reader's form
/// stands, too many where it is one item or operation too many or too long, too deep where it opens a
/// region inside as many as may be open, and else of the syntax.
pub fn due_fault(tokens: &[Token], at: usize, due: Expected) -> Fault
    ensures { result ≡ due_fault tokens.now at due }
{
    judged(judge(tokens, at, due), stop_place(tokens, at))
}
