// Turning the lines along an axis: reverse and rotate.
#![tactic(auto)]

ghost use Rattle.std.specs.Prelude.{◌≡◌, List, ◌++◌, true, ◌+◌, ◌*◌, ◌≤◌, ◌<◌, max, length, drop, get_or, ℤ, pos, IfOk};
ghost use Rattle.shape.specs.Shape.{count, counted, good_shape};
ghost use Rattle.meaning.specs.Array.{Operand, array_of, tab, build, good_form};
ghost use Rattle.meaning.specs.Terms.{along, from_zero};
ghost use Rattle.meaning.specs.Primitives.{rotate};
ghost use Rattle.meaning.specs.Reply.{reply};
ghost use Rattle.copying.specs.Steps.{filled};
ghost use Rattle.answer.specs.Answer.{lent, own, Replied};
ghost use Rattle.answer.specs.Refused.{asked, answered};
ghost use Rattle.turns.specs.Steps.{turn_position, Turns, Lie, turned_at, back_at, cut_blocks, Shifts};

use answer::{Formed, Operand, Refusal};
use shape::{Around, Shape};

// 14, whatever L is: it is not looked at. A call's parts stand apart in the primitives, as C hands them over, and so do the lines with `?`: a function
// around them would take the rest as a closure, under a contract as long as this one.
pub fn reverse(g: i32, k: i32, r: &Operand<'_>, out: &mut [i32]) -> Result<Shape, Refusal>
    ensures { (L : Operand) → Replied (answered result) out.new (reply (pos 14) g k L r.now out.old) }
{
    let r = answer::early_one(g, r)?;
    let axis = answer::axis(g, k, r.axes())?;
    let count = r.shape.count();
    answer::late(count, out.len())?;
    turn_into(Turn::Back, r.shape, axis, count, r.elements, out);
    Ok(r.shape.as_result())
}

// 25. It differs from reverse in what is asked of L, and shares the rest.
pub fn rotate(
    g: i32,
    k: i32,
    l: &Operand<'_>,
    r: &Operand<'_>,
    out: &mut [i32],
) -> Result<Shape, Refusal>
    ensures { Replied (answered result) out.new (reply (pos 25) g k l.now r.now out.old) }
{
    let (l, r) = answer::early_two(g, l, r)?;
    let (axis, amount) = rotation(g, k, &l, &r)?;
    let total = r.shape.count();
    answer::late(total, out.len())?;
    turn_into(Turn::By(amount), r.shape, axis, total, r.elements, out);
    Ok(r.shape.as_result())
}

// RANK, AXIS and LENGTH, or else the axis and the amount. That the axis is K's number from 0 is said by each function that finds one, in one word.
fn rotation(g: i32, k: i32, l: &Formed<'_>, r: &Formed<'_>) -> Result<(usize, i32), Refusal>
    ensures number { asked result ≡ own 25 (rotate g k (array_of l.now) (array_of r.now)).refusals }
    ensures found { IfOk result (λ t. (t.0 ≡ from_zero g k) × (t.1 ≡ get_or (array_of l.now).elements 0 (pos 0))) }
{
    if !l.is_list() {
        return Err(Refusal::Rank);
    }
    let axis = answer::axis(g, k, r.axes())?;
    let elements = l.elements();
    if elements.len() != 1 {
        return Err(Refusal::Length);
    }
    let amount = elements[0];
    Ok((axis, amount))
}

// How the positions of an axis move: backwards, or by an amount. An enum and no Option, whose None would stand for backwards; and not a closure: the
// contracts speak of it, and which loops run is asked once.
#[derive(Clone, Copy)]
enum Turn {
    Back,
    By(i32),
}

// Turns an axis of R, `total` elements in all, which were counted for LIMIT and SPACE. R's shape and buffer come apart: from the counts around the axis on
// only the buffer is read, and a Formed would be taken apart here at once. A scalar has no axis to go around, and without elements there is no block.
fn turn_into(turn: Turn, s: Shape, axis: usize, total: usize, r: &[i32], out: &mut [i32])
    requires { Turns s axis total r.now (length out.old) }
    ensures { out.new
        ≡ (build (counted s) (along (array_of (lent s r.now)) axis (turn_position turn (get_or (counted s) axis 0)))).elements
        ++ drop (count (counted s)) out.old }
{
    if s.rank == 0 {
        copying::copy_run(&r[0..total], out);
        return;
    }
    if total == 0 {
        return;
    }
    let w = s.around(axis);
    turn_blocks(turn, r, w, out);
}

// Turns the rows of each block.
// `Lie` stands in the contracts and in no type from here on: it is of both buffers, and of the output another part is lent at each step.
fn turn_blocks(turn: Turn, r: &[i32], w: Around, out: &mut [i32])
    requires { (0 < w.length) × Lie w.outer (w.length * w.inner) (length r.now) (length out.old) }
    ensures { out.new ≡ filled (turned_at turn r.now w.length w.inner) (w.outer * w.length * w.inner) out.old }
{
    match turn {
        Turn::Back => reverse_blocks(r, w, out),
        Turn::By(z) => {
            let rows = signed::modulo(z, w.length);
            rotate_groups(r, w, rows * w.inner, out);
        }
    }
}

// The place of each block is counted beside: std does not say what a buffer holds after its `chunks_exact_mut`. A function of its own: as a part of
// `turn_into` it moves the loops of a rotation, of which that over runs of 8 takes up to 1.27 of the time where its jumps fall on borders of 32 bytes.
#[inline(never)]
fn reverse_blocks(r: &[i32], w: Around, out: &mut [i32])
    requires { Lie w.outer (w.length * w.inner) (length r.now) (length out.old) }
    ensures { out.new ≡ filled (turned_at Turn.Back r.now w.length w.inner) (w.outer * w.length * w.inner) out.old }
{
    let size = w.length * w.inner;
    let mut at = 0;
    for _ in 0..w.outer {
        let end = at + size;
        reverse_block(&r[at..end], w, &mut out[at..end]);
        at = end;
    }
}

// Elements of a group of blocks, few enough that both buffers' parts stay in the first-level cache until the blocks' shorter parts are written.
const GROUP: usize = 1024;

// How many blocks a group has. A block may be larger than a group, or empty.
fn blocks_in_group(size: usize) -> usize
    ensures { 0 < result }
{
    (GROUP / size.max(1)).max(1)
}

// By groups of blocks, the last of which may be smaller. A group is an Around of fewer blocks. That the cut lies in a block is asked by this and by
// rotate_group alone.
fn rotate_groups(r: &[i32], w: Around, cut: usize, out: &mut [i32])
    requires { (cut ≤ w.length * w.inner) × Lie w.outer (w.length * w.inner) (length r.now) (length out.old) }
    ensures { out.new ≡ filled (cut_blocks r.now (w.length * w.inner) cut) (w.outer * (w.length * w.inner)) out.old }
{
    let size = w.length * w.inner;
    let group = blocks_in_group(size);
    let mut at = 0;
    let mut o = 0;
    // A while: the last step is smaller, and the start goes with it; a for by step_by would count o alone, with the start beside it as here.
    while o < w.outer {
        let some = group.min(w.outer - o);
        let end = at + some * size;
        let blocks = Around { outer: some, ..w };
        rotate_group(&r[at..end], blocks, cut, &mut out[at..end]);
        at = end;
        o += some;
    }
}

// A group of blocks is shifted as a whole by the shorter part of a block: one run, and then that part of each block.
fn rotate_group(r: &[i32], w: Around, cut: usize, out: &mut [i32])
    requires { (cut ≤ w.length * w.inner) × Lie w.outer (w.length * w.inner) (length r.now) (length out.old) }
    ensures { out.new ≡ filled (cut_blocks r.now (w.length * w.inner) cut) (w.outer * (w.length * w.inner)) out.old }
{
    let rest = w.length * w.inner - cut;
    if cut <= rest {
        shift(r, w, cut, 0, 0, rest, out);
    } else {
        shift(r, w, 0, rest, cut, 0, out);
    }
}

// All goes down by `from` or up by `to`, of which one is 0. Then the part of each block that the run has not brought, from `before` on to `after`:
// what stands before the cut goes to the block's end, or what stands from the cut on to its front.
// Four numbers, not an enum or two functions: an enum would be taken apart into these four, and of two functions the loops would be twins. Inlined:
// as a call, rotate of 32 x 16 x 32 along the middle axis by 5 took 1.06 times as long, and missed 1.3 copies.
#[inline(always)]
fn shift(r: &[i32], w: Around, from: usize, to: usize, before: usize, after: usize, out: &mut [i32])
    requires { Shifts (w.length * w.inner) from to before after × Lie w.outer (w.length * w.inner) (length r.now) (length out.old) }
    ensures { out.new ≡ filled (cut_blocks r.now (w.length * w.inner) (from + before)) (w.outer * (w.length * w.inner)) out.old }
{
    let size = w.length * w.inner;
    let part = from + to;
    let run = w.outer * size - part;
    let stop = from + run;
    let end = to + run;
    copying::copy_run(&r[from..stop], &mut out[to..end]);
    let mut at = 0;
    for _ in 0..w.outer {
        let source = at + before;
        let target = at + after;
        let source_end = source + part;
        let target_end = target + part;
        copying::copy_run(&r[source..source_end], &mut out[target..target_end]);
        at += size;
    }
}

// A row of one element makes a line, whose elements go backwards; those of a longer row keep their order, so that one function for both would ask the
// same. Both promise what a block does, of parts that are lent: their lengths are facts of those parts, and of no type.
fn reverse_block(r: &[i32], w: Around, out: &mut [i32])
    requires { (length r.now ≡ w.length * w.inner) × (length out.old ≡ w.length * w.inner) }
    ensures { out.new ≡ tab (w.length * w.inner) (back_at r.now w.length w.inner) }
{
    if w.inner == 1 {
        copying::reverse_run(r, out);
    } else {
        reverse_rows(r, w, out);
    }
}

fn reverse_rows(r: &[i32], w: Around, out: &mut [i32])
    requires { (length r.now ≡ w.length * w.inner) × (length out.old ≡ w.length * w.inner) }
    ensures { out.new ≡ tab (w.length * w.inner) (back_at r.now w.length w.inner) }
{
    let mut to = 0;
    for i in (0..w.length).rev() {
        let from = i * w.inner;
        let stop = from + w.inner;
        let end = to + w.inner;
        copying::copy_row(&r[from..stop], &mut out[to..end]);
        to = end;
    }
}
