// What the calls share: the operands, the answer, the refusals, and the tests before a primitive's own and after them. Each primitive writes their order
// out, in four lines or so with `?`: one function of it would take closures for its refusals, its shape and its elements, and a type for what the first
// finds and the others need.
#![tactic(auto)]

mod refusal;

ghost use Rattle.std.specs.Prelude.{◌≡◌, ◌&&◌, true, not, cond, ◌<◌, ◌-ℤ◌, length, IfOk};
ghost use Rattle.meaning.specs.Array.{Operand, array_of, good_form};
ghost use Rattle.meaning.specs.Terms.{rank, is_list, as_vector, within, from_zero};
ghost use Rattle.meaning.specs.Refusal.{number};
ghost use Rattle.meaning.specs.Refusal.Refusal.{AXIS};
ghost use Rattle.answer.specs.Answer.{lent, WellFormed, early, late, accepted, refused};
ghost use Rattle.answer.specs.Refused.{answered, asked};

pub use refusal::{Refusal, numbers};
use shape::Shape;
use std::marker::Model;

// A number, 0 for a success, and a shape, the scalar's for a refusal: a call's answer as C has it.
#[repr(C)]
#[derive(Clone, Copy)]
pub struct Answer {
    pub number: usize,
    pub shape: Shape,
}

impl Answer {
    pub fn refused(number: usize) -> Answer
        ensures { result ≡ refused number }
    {
        let shape = Shape::scalar();
        Answer { number, shape }
    }

    // A success.
    pub fn given(shape: Shape) -> Answer
        ensures { result ≡ accepted shape }
    {
        Answer { number: 0, shape }
    }
}

#[tactic(auto, unfolding(crate::specs::Refused::answered))]
impl From<Result<Shape, Refusal>> for Answer {
    ghost from_gives = { λ r a. a ≡ answered r };

    fn from(outcome: Result<Shape, Refusal>) -> Answer {
        match outcome {
            Ok(shape) => Answer::given(shape),
            Err(refusal) => Answer::refused(refusal.number()),
        }
    }
}

// An operand of a call: a shape by value and a lent slice.
#[derive(Drop)]
pub struct Operand<'a> {
    pub shape: Shape,
    pub elements: &'a [i32],
}

impl<'a> Model for Operand<'a> {
    ghost Value = { Operand };

    ghost view = { λ o. lent o.shape o.elements.now };
}

// An operand of good form: a good shape, and as many elements as it counts. Two fields of its own, since the primitives would read each shape and each
// buffer through an Operand in it.
#[derive(Drop)]
pub struct Formed<'a> {
    pub shape: Shape,
    pub elements: &'a [i32],
}

impl<'a> Model for Formed<'a> {
    ghost Value = { Operand };

    ghost view = { λ o. lent o.shape o.elements.now };

    ghost invariant = { λ o. WellFormed o.shape o.elements.now };
}

impl<'a> Formed<'a> {
    pub fn count(&self) -> usize
        ensures { result ≡ length (array_of self.now).elements }
    {
        self.shape.count()
    }

    // Only the elements that the shape counts.
    pub fn elements(&self) -> &'a [i32]
        ensures { result.now ≡ (array_of self.now).elements }
    {
        &self.elements[..self.shape.count()]
    }

    pub fn rank(&self) -> usize
        ensures { result ≡ rank (array_of self.now) }
    {
        self.shape.rank
    }

    // The axes that a number may name: a scalar is read as a vector of one.
    pub fn axes(&self) -> usize
        ensures { result ≡ rank (as_vector (array_of self.now)) }
    {
        self.rank().max(1)
    }

    // A scalar or a vector.
    pub fn is_list(&self) -> bool
        ensures { result ≡ is_list (array_of self.now) }
    {
        self.rank() <= 1
    }
}

impl<'a> Operand<'a> {
    // A good shape, and as many elements as it counts. C has the count of a bad shape as a number above the limit, which is tested here.
    pub fn good_form(&self) -> bool
        ensures { result ≡ good_form self.now }
    {
        let count = self.shape.count();
        count <= Shape::MAX_COUNT && count <= self.elements.len()
    }

    // The same as an operand of good form. No Result of it: with the copies of it that `?` makes calls of 1,500 elements took up to 1.1 times as long.
    fn formed(&self) -> Formed<'a>
        requires { good_form self.now ≡ true }
        ensures { result ≡ self.now }
    {
        Formed {
            shape: self.shape,
            elements: self.elements,
        }
    }
}

// FORM and ORIGIN with one operand, which then is of good form.
#[inline(always)]
pub fn early_one<'a>(g: i32, r: &Operand<'a>) -> Result<Formed<'a>, Refusal>
    ensures number { asked result ≡ early (good_form r.now) g }
    ensures operand { IfOk result (λ f. f ≡ r.now) }
{
    if !r.good_form() {
        return Err(Refusal::Form);
    }
    if !signed::is_origin(g) {
        return Err(Refusal::Origin);
    }
    Ok(r.formed())
}

// FORM and ORIGIN with two operands. FORM of either comes before ORIGIN, so L is asked first, and all else is early_one's. Inlined: as a function of its
// own it hands both back through memory, and calls of 1,500 elements took up to a quarter longer.
#[inline(always)]
pub fn early_two<'a>(
    g: i32,
    l: &Operand<'a>,
    r: &Operand<'a>,
) -> Result<(Formed<'a>, Formed<'a>), Refusal>
    ensures number { asked result ≡ early (good_form l.now && good_form r.now) g }
    ensures operands { IfOk result (λ f. (f.0 ≡ l.now) × (f.1 ≡ r.now)) }
{
    if !l.good_form() {
        return Err(Refusal::Form);
    }
    let right = early_one(g, r)?;
    Ok((l.formed(), right))
}

// AXIS, or else the axis of n that K names. Its clause says which, here and where it is handed on: a type for it would keep the same two facts, of K and of
// n, and its number would be taken out at once.
pub fn axis(g: i32, k: i32, n: usize) -> Result<usize, Refusal>
    ensures number { asked result ≡ cond (not (within (k -ℤ g) n)) (number AXIS) 0 }
    ensures axis { IfOk result (λ axis. (axis < n) × (axis ≡ from_zero g k)) }
{
    signed::position(k, g, n).ok_or(Refusal::Axis)
}

// LIMIT and SPACE of a result, by the count of its shape and the room for it.
pub fn late(count: usize, room: usize) -> Result<(), Refusal>
    ensures { asked result ≡ late count room }
{
    if Shape::MAX_COUNT < count {
        return Err(Refusal::Limit);
    }
    if room < count {
        return Err(Refusal::Space);
    }
    Ok(())
}
