// The leading item: one item of R's first axis, and its sister call. Both take an origin, a number and R: a struct of the three would be made at each call
// and taken apart in `found` alone.
#![tactic(auto)]

ghost use Rattle.std.specs.Prelude.{◌≡◌, IfOk};
ghost use Rattle.meaning.specs.Item.{item_refusal, leading_item};
ghost use Rattle.meaning.specs.Terms.{from_zero};
ghost use Rattle.answer.specs.Answer.{lent};
ghost use Rattle.answer.specs.Refused.{asked, answered};
ghost use Rattle.items.specs.Part.{item_part};
ghost use Rattle.items.specs.Sister.{item_answer};

use answer::{Formed, Operand, Refusal};
use shape::Shape;

// A part of a buffer: where it starts, and how many elements it has. C reads both, and 0 and 0 for a refusal, so no Option or slice stands for it.
#[repr(C)]
#[derive(Clone, Copy, Default)]
pub struct Part {
    pub start: usize,
    pub length: usize,
}

// The item's elements where they stand in R. A refusal gives an empty part, as it does to C, and as an item without elements does: the sister call
// tells them apart, so no Option does.
pub fn leading_item<'a>(g: i32, i: i32, r: &Operand<'a>) -> &'a [i32]
    ensures { result.now ≡ (leading_item r.now g i).part }
{
    let part = leading_part(g, i, r);
    &r.elements[part.start..part.start + part.length]
}

// Where the item's elements stand in R; 0 and 0 for a refusal.
pub fn leading_part(g: i32, i: i32, r: &Operand<'_>) -> Part
    ensures { result ≡ item_part r.now g i }
{
    let Ok((r, at)) = found(g, i, r) else {
        return Part::default();
    };
    let length = r.shape.around(0).inner;
    let start = at * length;
    Part { start, length }
}

// The sister call: the refusal, or the item's shape.
pub fn item_shape(g: i32, i: i32, r: &Operand<'_>) -> Result<Shape, Refusal>
    ensures { answered result ≡ item_answer (leading_item r.now g i) }
{
    let (r, _) = found(g, i, r)?;
    let shape = r.shape.without_axis(0);
    Ok(shape)
}

// FORM, ORIGIN, RANK and INDEX, in this order, or else R and the item's position on its first axis.
fn found<'a>(g: i32, i: i32, r: &Operand<'a>) -> Result<(Formed<'a>, usize), Refusal>
    ensures number { asked result ≡ item_refusal r.now g i }
    ensures item { IfOk result (λ t. (t.0 ≡ r.now) × (t.1 ≡ from_zero g i)) }
{
    let r = answer::early_one(g, r)?;
    if r.rank() == 0 {
        return Err(Refusal::Rank);
    }
    let Some(at) = signed::position(i, g, r.shape.lens[0]) else {
        return Err(Refusal::Index);
    };
    Ok((r, at))
}
