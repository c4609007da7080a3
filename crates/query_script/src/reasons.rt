//! Why a line of a script or of a mesh is refused, in words.

ghost use Rattle.std.specs.Prelude.{◌≡◌};
ghost use Rattle.query_script.specs.Reasons.{fault_text, why_text};

use crate::faults::LineFault;
use obj_text::Why;

/// The reason of a refused script line, as it is written behind `line N: `.
pub fn fault_text(fault: LineFault) -> &'static str
    ensures { result.now ≡ fault_text fault }
{
    match fault {
        LineFault::UnknownWord => "unknown word",
        LineFault::WrongCount => "wrong count of words",
        LineFault::NotANumber => "not a number",
        LineFault::NumberTooLong => "number too long",
        LineFault::OutOfRange => "out of range",
        LineFault::NoSuchVertex => "no such vertex",
        LineFault::NoSuchNode => "no such node",
        LineFault::NoSuchLevel => "no such level",
        LineFault::LineTooLong => "line too long",
    }
}

/// The reason of a refused mesh line, as it is written behind `mesh line N: `.
pub fn why_text(why: Why) -> &'static str
    ensures { result.now ≡ why_text why }
{
    match why {
        Why::NotANumber => "not a number",
        Why::NumberTooLong => "number too long",
        Why::Outside => "outside the world",
        Why::TooFewWords => "too few words",
        Why::BadReference => "bad reference",
        Why::NoSuchVertex => "no such vertex",
        Why::TooManyVertices => "too many vertices",
        Why::TooManyTriangles => "too many triangles",
    }
}
