// Transpositions: 15 and 26. R's axis i goes to result axis t, and axes sent together give the diagonal.
#![tactic(auto)]

ghost use Rattle.std.specs.Prelude.{◌≡◌, [], ◌∷◌, map, not, cond, ◌≤◌, ◌<◌, length, ℤ, pos};
ghost use Rattle.shape.specs.Shape.{max_rank, count, shape_of};
ghost use Rattle.meaning.specs.Array.{Operand, array_of, tab};
ghost use Rattle.meaning.specs.Refusal.{number};
ghost use Rattle.meaning.specs.Refusal.Refusal.{DOMAIN};
ghost use Rattle.meaning.specs.Terms.{rank, from_zero, every};
ghost use Rattle.meaning.specs.Primitives.{backwards, sent_lengths, occurs_in, transpose_by};
ghost use Rattle.meaning.specs.Reply.{reply};
ghost use Rattle.answer.specs.Answer.{own, Replied};
ghost use Rattle.answer.specs.Refused.{answered};
ghost use Rattle.transposes.specs.Steps.Strides.{strides, sent_strides, LineIn, strided, walked, Walk};
ghost use Rattle.transposes.specs.Steps.Placed.{Reach, Placed, row_axes, Blocked};
ghost use Rattle.transposes.specs.Steps.Sent.{route, in_domain, sent_elements, Moves};
ghost use Rattle.transposes.specs.Steps.Outcome.{Sending, Moved};

use answer::{Formed, Operand, Refusal};
use shape::Shape;
use std::marker::Model;

// 15: axes in reverse order, whatever K and L are. Neither is handed over, nor K to 26: a struct of a whole call would have both, and what is promised
// would still be said for every one.
pub fn transpose(g: i32, r: &Operand<'_>, out: &mut [i32]) -> Result<Shape, Refusal>
    ensures { (K : ℤ) (L : Operand) → Replied (answered result) out.new (reply (pos 15) g K L r.now out.old) }
{
    let r = answer::early_one(g, r)?;
    let sent = backwards(&r);
    transposed(&sent, out)
}

// 26: axis i goes to L's element i less G, whatever K is.
pub fn transpose_by(
    g: i32,
    l: &Operand<'_>,
    r: &Operand<'_>,
    out: &mut [i32],
) -> Result<Shape, Refusal>
    ensures { (K : ℤ) → Replied (answered result) out.new (reply (pos 26) g K l.now r.now out.old) }
{
    let (l, r) = answer::early_two(g, l, r)?;
    let sent = sent_by(g, &l, &r)?;
    transposed(&sent, out)
}

// R, and where its axes are sent: axis i to axis `to[i]`, of `axes` axes in all. There is no heap, so `to` is an array as R's lengths are, and R's rank
// says how many count. What reads a field of R more than once, or at each axis, gives R or the field a name.
#[derive(Drop)]
struct Sent<'r, 'a> {
    r: &'r Formed<'a>,
    axes: usize,
    to: [usize; Shape::MAX_RANK],
}

impl<'r, 'a> Model for Sent<'r, 'a> {
    ghost use Rattle.transposes.specs.Steps.Sent.{Route, route, sent_axes, Transposes};

    ghost Value = { Route };

    ghost view = { λ s. route s.r.now (sent_axes s.r.now s.to) };

    ghost invariant = { λ s. Transposes s.r.now s.axes s.to };
}

// What 15 and 26 have alike: LIMIT and SPACE, or else the elements and the shape.
fn transposed(sent: &Sent<'_, '_>, out: &mut [i32]) -> Result<Shape, Refusal>
    ensures { Moved sent.now out.old out.new result }
{
    let shape = sent_shape(sent);
    let count = shape.count();
    answer::late(count, out.len())?;
    transpose_into(sent, shape, &mut out[0..count]);
    Ok(shape)
}

// 15 sends axis i to rank - 1 - i.
fn backwards<'r, 'a>(r: &'r Formed<'a>) -> Sent<'r, 'a>
    ensures { result ≡ route r.now (backwards (rank (array_of r.now))) }
{
    let axes = r.shape.rank;
    let mut to = [0; Shape::MAX_RANK];
    for i in 0..axes {
        to[i] = axes - 1 - i;
    }
    Sent { r, axes, to }
}

// 26 sends axis i to L's element i less G: RANK, LENGTH and DOMAIN.
fn sent_by<'r, 'a>(g: i32, l: &Formed<'_>, r: &'r Formed<'a>) -> Result<Sent<'r, 'a>, Refusal>
    ensures { Sending result (own 26 (transpose_by g (array_of l.now) (array_of r.now)).refusals) (route r.now (map (from_zero g) (array_of l.now).elements)) }
{
    if !l.is_list() {
        return Err(Refusal::Rank);
    }
    let elements = l.elements();
    let count = elements.len();
    if count != r.shape.rank {
        return Err(Refusal::Length);
    }
    chosen(g, elements, r)
}

// DOMAIN: each element names an axis, and all of 0 to the largest occur. The origin and the list are together in this one call: a struct of both would
// be made for it and taken apart in it.
fn chosen<'r, 'a>(g: i32, l: &[i32], r: &'r Formed<'a>) -> Result<Sent<'r, 'a>, Refusal>
    requires { length l.now ≡ r.now.shape.rank }
    ensures { Sending result (cond (not (in_domain g (length l.now) l.now)) (number DOMAIN) 0) (route r.now (map (from_zero g) l.now)) }
{
    let rank = r.shape.rank;
    let mut to = [0; Shape::MAX_RANK];
    let mut axes: usize = 0;
    for (i, z) in l.iter().enumerate() {
        let Some(axis) = signed::position(*z, g, rank) else {
            return Err(Refusal::Domain);
        };
        to[i] = axis;
        axes = axes.max(axis + 1);
    }
    if all_used(&to[0..rank], axes) {
        Ok(Sent { r, axes, to })
    } else {
        Err(Refusal::Domain)
    }
}

// Whether some axis is sent to each of so many.
fn all_used(to: &[usize], axes: usize) -> bool
    ensures { result ≡ every (occurs_in to.now) (tab axes (λ j. j)) }
{
    (0..axes).all(|axis| to.contains(&axis))
}

// The result's shape: of the lengths sent to each axis the smallest. None is above the limit. The loops here, in `backwards` and in `strides` write other
// numbers at other places: one function for them would take both as closures, and each is two or three lines.
fn sent_shape(sent: &Sent<'_, '_>) -> Shape
    ensures { result ≡ shape_of (sent_lengths sent.now.to (array_of sent.now.operand).lengths) }
{
    let r = sent.r;
    let mut lens = [Shape::MAX_COUNT; Shape::MAX_RANK];
    for i in (0..r.shape.rank).rev() {
        let t = sent.to[i];
        lens[t] = lens[t].min(r.shape.lens[i]);
    }
    Shape::of_lengths(sent.axes, lens)
}

// The elements of the result, of that shape. Where there are none R has none either, and its strides need not fit. R has a name for its invariant's sake.
fn transpose_into(sent: &Sent<'_, '_>, shape: Shape, out: &mut [i32])
    requires { Moves sent.now shape (length out.old) }
    ensures { out.new ≡ sent_elements sent.now.to (array_of sent.now.operand) }
{
    if out.is_empty() {
        return;
    }
    let r = sent.r;
    let elements = r.elements;
    let axes = shape.rank;
    let steps = strides(sent);
    walk(&shape.lens[0..axes], &steps[0..axes], elements, out);
}

// The strides in R of the axes sent to each axis, added up. No length of R is 0, so that no product is above R's count. The table of cuts has a stride for
// each axis of its own, and another product beside it: the two passes share the line of the product alone.
fn strides(sent: &Sent<'_, '_>) -> [usize; Shape::MAX_RANK]
    requires { 0 < count (array_of sent.now.operand).lengths }
    ensures { result ≡ sent_strides max_rank sent.now.to (strides (array_of sent.now.operand).lengths) }
{
    let r = sent.r;
    let mut sums = [0; Shape::MAX_RANK];
    let mut step = 1;
    for i in (0..r.shape.rank).rev() {
        let t = sent.to[i];
        sums[t] += step;
        step *= r.shape.lens[i];
    }
    sums
}

// From here on each function takes the lengths and strides of some axes, R from some element on, and the part of the result to be written. What it needs of
// them (LineIn, Reach, Blocked, Walk) joins all three, which are others at each call: a type that held it would be made anew at each, for one use.

// Elements of r that stand `stride` apart, from the first on, one after the other.
fn spread(stride: usize, r: &[i32], out: &mut [i32])
    requires { (0 < length out.old) × LineIn (length out.old) stride (length r.now) }
    ensures { out.new ≡ strided (length out.old) stride r.now }
{
    let axis = Axis {
        length: out.len(),
        stride,
        step: 1,
    };
    put_line(axis, r, out);
}

// The same, by a run where they are neighbours, which shows only from the operand.
fn line(stride: usize, r: &[i32], out: &mut [i32])
    requires { (0 < length out.old) × LineIn (length out.old) stride (length r.now) }
    ensures { out.new ≡ strided (length out.old) stride r.now }
{
    if stride == 1 {
        let end = out.len();
        copying::copy_run(&r[0..end], out);
    } else {
        spread(stride, r, out);
    }
}

// A strip's width: as many lines of R are read side by side. They are few enough to stay in the cache until they are read to their end.
const TILE: usize = 8;

// An axis: its length, and how far apart its neighbours stand in R and in the result.
#[derive(Clone, Copy)]
struct Axis {
    length: usize,
    stride: usize,
    step: usize,
}

// The elements of r along an axis, each to its place in the result.
fn put_line(axis: Axis, r: &[i32], out: &mut [i32])
    requires { Reach (axis ∷ []) (length r.now) (length out.old) }
    ensures { Placed (axis ∷ []) r.now out.old out.new }
{
    for i in 0..axis.length {
        let from = i * axis.stride;
        let place = i * axis.step;
        out[place] = r[from];
    }
}

// The same along two axes, line by line. One loop for elements, lines, planes and parts would take its body as a closure, and say of it what Reach and
// Placed say of the axes that are left: more than the five lines that it saves.
fn put_plane(axis: Axis, line: Axis, r: &[i32], out: &mut [i32])
    requires { Reach (axis ∷ (line ∷ [])) (length r.now) (length out.old) }
    ensures { Placed (axis ∷ (line ∷ [])) r.now out.old out.new }
{
    for i in 0..axis.length {
        let from = i * axis.stride;
        let place = i * axis.step;
        put_line(line, &r[from..], &mut out[place..]);
    }
}

// The same along the last axis and another, strip by strip of the last. The last strip may overlap the one before it.
fn put_strips(last: Axis, near: Axis, r: &[i32], out: &mut [i32])
    requires { (TILE ≤ last.length) × Reach (last ∷ (near ∷ [])) (length r.now) (length out.old) }
    ensures { Placed (last ∷ (near ∷ [])) r.now out.old out.new }
{
    let strip = Axis {
        length: TILE,
        ..last
    };
    let end = last.length - TILE;
    for i in (0..end).step_by(TILE) {
        let from = i * last.stride;
        let place = i * last.step;
        put_plane(near, strip, &r[from..], &mut out[place..]);
    }
    let from = end * last.stride;
    let place = end * last.step;
    put_plane(near, strip, &r[from..], &mut out[place..]);
}

// The same, however long the last axis is: which way to go depends on its numbers alone. A short one is done line by line of the other. One with a short
// stride in R needs no strips.
fn put_block(near: Axis, last: Axis, r: &[i32], out: &mut [i32])
    requires { Reach (near ∷ (last ∷ [])) (length r.now) (length out.old) }
    ensures { Placed (near ∷ (last ∷ [])) r.now out.old out.new }
{
    if last.length < TILE {
        put_plane(last, near, r, out);
    } else if last.stride < TILE {
        put_plane(near, last, r, out);
    } else {
        put_strips(last, near, r, out);
    }
}

// The same along an axis and those in `lens`, which have `size` places and stand row by row in the result. Unlike the parts of `walk`, which are runs of the
// result, those here lie among each other, so that each recursion has its own slices and its own promise.
fn put_blocks(
    near: Axis,
    lens: &[usize],
    strides: &[usize],
    size: usize,
    r: &[i32],
    out: &mut [i32],
)
    requires { Blocked near lens.now strides.now size (length r.now) (length out.old) }
    ensures { Placed (near ∷ row_axes lens.now strides.now) r.now out.old out.new }
{
    let rank = lens.len();
    let n = lens[0];
    let apart = strides[0];
    if rank == 1 {
        let last = Axis {
            length: n,
            stride: apart,
            step: 1,
        };
        put_block(near, last, r, out);
        return;
    }
    let step = size / n;
    for i in 0..n {
        let from = i * apart;
        let place = i * step;
        put_blocks(
            near,
            &lens[1..rank],
            &strides[1..rank],
            step,
            &r[from..],
            &mut out[place..],
        );
    }
}

// Whether neighbours on the first axis are neighbours in R and those on the last are not, so that a line reads its elements from far apart.
fn blocks_pay(lens: &[usize], strides: &[usize]) -> bool
    requires { (0 < length lens.now) × (length strides.now ≡ length lens.now) }
{
    1 < strides[lens.len() - 1] && 1 < lens[0] && strides[0] == 1
}

// What `walk` gives of two axes or more, by blocks along the first and the last.
fn walk_blocks(lens: &[usize], strides: &[usize], r: &[i32], out: &mut [i32])
    requires { (1 < length lens.now) × Walk lens.now strides.now (length r.now) (length out.old) }
    ensures { out.new ≡ walked lens.now strides.now r.now }
{
    let rank = lens.len();
    let length = lens[0];
    let apart = strides[0];
    let step = out.len() / length;
    let near = Axis {
        length,
        stride: apart,
        step,
    };
    put_blocks(near, &lens[1..rank], &strides[1..rank], step, r, out);
}

// The part of the result for the axes in `lens`, whose first element is r's first: a line, blocks, or part by part. Which, the lengths and strides that are
// left say, so that no caller could choose. The lengths are a part of the shape, whose form the C interface fixes: pairs of a length and a stride would be a
// third array, and a loop that fills it. By `split_first` of both lists there would be an else for lists of two lengths, which never comes.
fn walk(lens: &[usize], strides: &[usize], r: &[i32], out: &mut [i32])
    requires { Walk lens.now strides.now (length r.now) (length out.old) }
    ensures { out.new ≡ walked lens.now strides.now r.now }
{
    let rank = lens.len();
    if rank == 0 {
        line(1, r, out);
        return;
    }
    let n = lens[0];
    let stride = strides[0];
    if rank == 1 {
        line(stride, r, out);
        return;
    }
    if blocks_pay(lens, strides) {
        walk_blocks(lens, strides, r, out);
        return;
    }
    let size = out.len() / n;
    for i in 0..n {
        let from = i * stride;
        let start = i * size;
        let end = start + size;
        walk(
            &lens[1..rank],
            &strides[1..rank],
            &r[from..],
            &mut out[start..end],
        );
    }
}
