// Results that are vectors or take R's elements in their order: shape, ravel, interval, reshape.
#![tactic(auto)]

ghost use Rattle.std.specs.Prelude.{◌≡◌, true, not, map, ◌≤◌, ◌<◌, length, get_or, ℤ, pos, nat_abs, ◌+ℤ◌, IfOk};
ghost use Rattle.std.specs.List.{list_all};
ghost use Rattle.shape.specs.Shape.{max_rank, max_count};
ghost use Rattle.meaning.specs.Array.{Operand, Array, array_of, tab};
ghost use Rattle.meaning.specs.Terms.{negative};
ghost use Rattle.meaning.specs.Primitives.{interval, reshape};
ghost use Rattle.meaning.specs.Reply.{reply, is_origin};
ghost use Rattle.answer.specs.Answer.{own, Replied};
ghost use Rattle.answer.specs.Refused.{asked, answered};
ghost use Rattle.vectors.specs.Steps.{cycled, element_of, shape_or_limit};

use answer::{Formed, Operand, Refusal};
use shape::Shape;

// 11, whatever K and L are: they are not looked at.
pub fn shape_of(g: i32, r: &Operand<'_>, out: &mut [i32]) -> Result<Shape, Refusal>
    ensures { (K : ℤ) (L : Operand) → Replied (answered result) out.new (reply (pos 11) g K L r.now out.old) }
{
    let r = answer::early_one(g, r)?;
    let rank = r.shape.rank; // Read three times.
    answer::late(rank, out.len())?;
    put_lengths(r.shape.lens, &mut out[..rank]);
    Ok(Shape::vector(rank))
}

// Lengths as elements: `shape_from` goes the other way, into eight places, and may refuse. By value: of a slice of the lengths, or a `Formed`, the whole
// call took 30 ns for 25.
fn put_lengths(lens: [usize; Shape::MAX_RANK], out: &mut [i32])
    requires { length out.old ≤ max_rank }
    ensures { out.new ≡ tab (length out.old) (λ i. element_of (get_or lens i 0)) }
{
    for i in 0..out.len() {
        out[i] = signed::element(lens[i]);
    }
}

// 12, whatever K and L are: they are not looked at.
pub fn ravel(g: i32, r: &Operand<'_>, out: &mut [i32]) -> Result<Shape, Refusal>
    ensures { (K : ℤ) (L : Operand) → Replied (answered result) out.new (reply (pos 12) g K L r.now out.old) }
{
    let r = answer::early_one(g, r)?;
    let elements = r.elements();
    let count = elements.len();
    answer::late(count, out.len())?;
    copying::copy_run(elements, out);
    Ok(Shape::vector(count))
}

// 13, whatever K and L are: they are not looked at.
pub fn interval(g: i32, r: &Operand<'_>, out: &mut [i32]) -> Result<Shape, Refusal>
    ensures { (K : ℤ) (L : Operand) → Replied (answered result) out.new (reply (pos 13) g K L r.now out.old) }
{
    let r = answer::early_one(g, r)?;
    let n = interval_length(&r)?;
    answer::late(n, out.len())?;
    count_up(g, &mut out[..n]);
    Ok(Shape::vector(n))
}

// RANK, LENGTH and DOMAIN, which G does not touch, or else R's one element as a length.
fn interval_length(r: &Formed<'_>) -> Result<usize, Refusal>
    ensures number { (G : ℤ) → asked result ≡ own 13 (interval G (array_of r.now)).refusals }
    ensures length { IfOk result (λ n. n ≡ nat_abs (get_or (array_of r.now).elements 0 (pos 0))) }
{
    if !r.is_list() {
        return Err(Refusal::Rank);
    }
    let [z] = r.elements() else {
        return Err(Refusal::Length);
    };
    if *z < 0 {
        return Err(Refusal::Domain);
    }
    let length = signed::magnitude(*z);
    Ok(length)
}

// The numbers from `first` up; the limit on their count keeps them elements.
fn count_up(first: i32, out: &mut [i32])
    requires { (is_origin first ≡ true) × (length out.old ≤ max_count) }
    ensures { out.new ≡ tab (length out.old) (λ i. first +ℤ pos i) }
{
    // The number is counted up beside the place, and not made of it: i32 has no From<usize>.
    let mut x = first;
    for o in out.iter_mut() {
        *o = x;
        x += 1;
    }
}

// 21, whatever K is: it is not looked at.
pub fn reshape(g: i32, l: &Operand<'_>, r: &Operand<'_>, out: &mut [i32]) -> Result<Shape, Refusal>
    ensures { (K : ℤ) → Replied (answered result) out.new (reply (pos 21) g K l.now r.now out.old) }
{
    let (l, r) = answer::early_two(g, l, r)?;
    let lengths = reshaped(&l)?;
    let shape = shape_from(lengths)?;
    let total = shape.count();
    answer::late(total, out.len())?;
    let elements = r.elements();
    let out = &mut out[..total];
    // One element is a fill too: `cycle_run` would copy it in a dozen runs. One arm for both would take it as an Option, with 0 in its place.
    match elements {
        [] => copying::fill_run(0, out),
        [x] => copying::fill_run(*x, out),
        _ => cycle_run(elements, out),
    }
    Ok(shape)
}

// RANK and DOMAIN, which R does not touch, or else L's elements, which are lengths then.
fn reshaped<'a>(l: &Formed<'a>) -> Result<&'a [i32], Refusal>
    ensures number { (R : Array) → asked result ≡ own 21 (reshape (array_of l.now) R).refusals }
    ensures lengths { IfOk result (λ zs. zs.now ≡ (array_of l.now).elements) }
{
    if !l.is_list() {
        return Err(Refusal::Rank);
    }
    let lengths = l.elements();
    if !none_negative(lengths) {
        return Err(Refusal::Domain);
    }
    Ok(lengths)
}

fn none_negative(l: &[i32]) -> bool
    ensures { result ≡ list_all (λ z. not (negative z)) l.now }
{
    l.iter().all(|z| 0 <= *z)
}

// LIMIT for more elements than a shape has lengths, or else the shape whose lengths they are. The loop is that of `cuts::cut_shape` but for the length:
// a function of both would take it as a closure with a contract, which is longer than the loop.
fn shape_from(l: &[i32]) -> Result<Shape, Refusal>
    ensures { result ≡ shape_or_limit (map nat_abs l.now) }
{
    let rank = l.len();
    if Shape::MAX_RANK < rank {
        return Err(Refusal::Limit);
    }
    let mut lens = [0; Shape::MAX_RANK];
    for i in 0..rank {
        lens[i] = signed::magnitude(l[i]);
    }
    Ok(Shape { rank, lens })
}

// `src`, and then what is written already, twice as much each time: a while, since no two steps are alike. Run by run, in runs of 30 it took 2.2
// times as long. It may end within `src`, which the whole rows of `masks::rows::repeat_row` do not.
fn cycle_run(src: &[i32], out: &mut [i32])
    requires { 0 < length src.now }
    ensures { out.new ≡ tab (length out.old) (cycled src.now) }
{
    copying::copy_run(src, out);
    let n = out.len();
    let mut done = src.len().min(n);
    while done < n {
        let (front, rest) = out.split_at_mut(done);
        copying::copy_run(front, rest);
        done += done.min(n - done);
    }
}
