// The numbered entry point.
#![tactic(auto)]

ghost use Rattle.meaning.specs.Reply.{reply};
ghost use Rattle.answer.specs.Answer.{Replied};
ghost use Rattle.answer.specs.Refused.{answered};

use answer::{Operand, Refusal};
use shape::Shape;

// A call by its primitive's number: 11 to 15 take one operand, 21 to 31 take two, and every other number is refused. The paper and C name a primitive by its
// number, so the choice is a match on it and no enum. A primitive takes only what it looks at: a struct of the whole call would hand it a K or an L as well,
// which its contract, for every one, would have to set aside.
pub fn call(
    primitive: i32,
    g: i32,
    k: i32,
    l: &Operand<'_>,
    r: &Operand<'_>,
    out: &mut [i32],
) -> Result<Shape, Refusal>
    ensures { Replied (answered result) out.new (reply primitive g k l.now r.now out.old) }
{
    match primitive {
        11 => vectors::shape_of(g, r, out),
        12 => vectors::ravel(g, r, out),
        13 => vectors::interval(g, r, out),
        14 => turns::reverse(g, k, r, out),
        15 => transposes::transpose(g, r, out),
        21 => vectors::reshape(g, l, r, out),
        22 => joins::catenate(g, k, l, r, out),
        23 => cuts::take(g, l, r, out),
        24 => cuts::drop(g, l, r, out),
        25 => turns::rotate(g, k, l, r, out),
        26 => transposes::transpose_by(g, l, r, out),
        27 => masks::compress(g, k, l, r, out),
        28 => masks::expand(g, k, l, r, out),
        29 => lookups::index_of(g, l, r, out),
        30 => lookups::member(g, l, r, out),
        31 => selects::select(g, k, l, r, out),
        _ => Err(Refusal::Number),
    }
}
