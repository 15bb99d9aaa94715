// Select: chosen positions of one axis.
#![tactic(auto)]

ghost use Rattle.std.specs.Prelude.{◌≡◌, ◌++◌, false, ◌*◌, ◌<◌, length, set, drop, pos, ◌-ℤ◌, IfOk};
ghost use Rattle.shape.specs.Shape.{counted, shape_of};
ghost use Rattle.meaning.specs.Array.{array_of, build};
ghost use Rattle.meaning.specs.Terms.{negative, rank, within, from_zero, every, along};
ghost use Rattle.meaning.specs.Primitives.{select};
ghost use Rattle.meaning.specs.Reply.{reply};
ghost use Rattle.copying.specs.Steps.{filled};
ghost use Rattle.answer.specs.Answer.{own, Replied};
ghost use Rattle.answer.specs.Refused.{asked, answered};
ghost use Rattle.selects.specs.Steps.{chosen_by, position_at, Known, Chosen, selected_lengths, Chooses, BlocksFit, RowsFit, blocks_at, rows_at};

use answer::{Formed, Operand, Refusal};
use shape::{Around, Shape};
use std::marker::Model;

// 31. A vector L replaces the axis, a scalar L removes it. The steps stand written out: each needs what the ones before it found, so a frame that takes
// them would take three closures. And the arguments stand apart, as in the paper: a struct of them would be made for this call alone.
pub fn select(
    g: i32,
    k: i32,
    l: &Operand<'_>,
    r: &Operand<'_>,
    out: &mut [i32],
) -> Result<Shape, Refusal>
    ensures { Replied (answered result) out.new (reply (pos 31) g k l.now r.now out.old) }
{
    let (l, r) = answer::early_two(g, l, r)?;
    let axis = chosen_axis(g, k, &l, &r)?;
    let shape = selected(&l, &r, axis);
    let count = shape.count();
    answer::late(count, out.len())?;
    let choice = Choice::of(g, &l);
    select_into(choice, axis, count, &r, out);
    Ok(shape)
}

// RANK, AXIS and INDEX, or else the axis. No element of R is looked at. G and K name the axis here alone, so what the contract says of them is in no type.
fn chosen_axis(g: i32, k: i32, l: &Formed<'_>, r: &Formed<'_>) -> Result<usize, Refusal>
    ensures number { asked result ≡ own 31 (select g k (array_of l.now) (array_of r.now)).refusals }
    ensures axis { IfOk result (λ axis. Chosen g k r.now axis) }
{
    if r.rank() == 0 {
        return Err(Refusal::Rank);
    }
    if !l.is_list() {
        return Err(Refusal::Rank);
    }
    let axis = answer::axis(g, k, r.rank())?;
    let choice = Choice::of(g, l);
    if !choice.all_within(r.shape.lens[axis]) {
        return Err(Refusal::Index);
    }
    Ok(axis)
}

// Positions of an axis, each named by a number, which is as far above the origin.
#[derive(Drop)]
struct Choice<'a> {
    origin: i32,
    numbers: &'a [i32],
}

impl<'a> Model for Choice<'a> {
    ghost use Rattle.selects.specs.Steps.{Named};

    ghost Value = { Named };

    ghost view = { λ c. record { origin = c.origin; numbers = c.numbers.now } };
}

impl<'a> Choice<'a> {
    fn of(g: i32, l: &Formed<'a>) -> Choice<'a>
        ensures { result ≡ chosen_by g l.now }
    {
        let numbers = l.elements();
        Choice { origin: g, numbers }
    }

    fn len(&self) -> usize
        ensures { result ≡ length self.now.numbers }
    {
        self.numbers.len()
    }

    // Whether each names a position of an axis of length n.
    fn all_within(&self, n: usize) -> bool
        ensures { result ≡ every (λ z. within (z -ℤ self.now.origin) n) self.now.numbers }
    {
        let g = self.origin;
        self.numbers.iter().all(|&z| names_one(z, g, n))
    }

    // Position i, which is known to be one.
    fn at(&self, i: usize) -> usize
        requires { Known self.now i }
        ensures { result ≡ position_at self.now i }
    {
        // The list has a name, since of an index into the field itself the proof did not close.
        let numbers = self.numbers;
        known_position(numbers[i], self.origin)
    }
}

// Whether z less g is a position of an axis of length n.
fn names_one(z: i32, g: i32, n: usize) -> bool
    ensures { result ≡ within (z -ℤ g) n }
{
    if z < g {
        return false;
    }
    known_position(z, g) < n
}

// z less g, which is known not to be negative: a cast from 64 bits, where the difference fits, since a `try_from` tests it again for each element. By
// `signed::from_zero`, which also takes the difference's size, rows of one element took up to 1.5 times as long.
fn known_position(z: i32, g: i32) -> usize
    requires { negative (z -ℤ g) ≡ false }
    ensures { result ≡ from_zero g z }
{
    let d = i64::from(z) - i64::from(g);
    d as usize
}

// The result's shape. One `if`: an axis goes, or has another length, and Shape has a method for each.
fn selected(l: &Formed<'_>, r: &Formed<'_>, axis: usize) -> Shape
    requires { axis < rank (array_of r.now) }
    ensures { result
        ≡ shape_of (selected_lengths (rank (array_of l.now)) (length (array_of l.now).elements) axis (counted r.now.shape)) }
{
    if l.rank() == 0 {
        r.shape.without_axis(axis)
    } else {
        r.shape.with_length(axis, l.count())
    }
}

// The result's elements, `total` in number. A function of its own: within `select` rows of one element took up to 1.4 times as long. Where there are none,
// the counts around the axis are not read: they are held, and need not fit. It is shared with no other primitive: what another crate can call asks
// nothing, and the blocks of each need something else to fit.
#[inline(never)]
fn select_into(choice: Choice<'_>, axis: usize, total: usize, r: &Formed<'_>, out: &mut [i32])
    requires { Chooses choice axis total r.now (length out.old) }
    ensures { out.new
        ≡ (build (set (counted r.now.shape) axis (length choice.entry.numbers)) (along (array_of r.now) axis (position_at choice.entry))).elements
        ++ drop total out.old }
{
    if total == 0 {
        return;
    }
    let a = r.shape.around(axis);
    select_blocks(choice, a, r.elements, out);
}

// Every block of R gives its chosen rows. What fits stands in the contracts and in no type: it is of both buffers, and of the output another part is lent
// at each step. Not by `chunks_exact_mut`: std says how long its parts are, and not what the buffer holds after them.
fn select_blocks(choice: Choice<'_>, a: Around, r: &[i32], out: &mut [i32])
    requires { BlocksFit choice a (length r.now) (length out.old) }
    ensures { out.new ≡ filled (blocks_at choice.entry a r.now) (a.outer * (length choice.entry.numbers * a.inner)) out.old }
{
    let taken = a.length * a.inner;
    let made = choice.len() * a.inner;
    // The place is counted up beside o: computed from it, blocks of a few rows of one element took up to 2.6 times as long.
    let mut at = 0;
    for o in 0..a.outer {
        let from = o * taken;
        let to = from + taken;
        let end = at + made;
        select_block(&choice, a.inner, &r[from..to], &mut out[at..end]);
        at = end;
    }
}

// Where a row is one element, one loop over the line: by select_rows it took up to 1.7 times as long. Neither goes by `copying::gather`: positions would be
// noted there as u16, and tested once more, since what another crate can call asks nothing.
fn select_block(choice: &Choice<'_>, inner: usize, r: &[i32], out: &mut [i32])
    requires { RowsFit choice.now inner (length r.now) (length out.old) }
    ensures { out.new ≡ filled (rows_at choice.now inner r.now) (length choice.now.numbers * inner) out.old }
{
    if inner == 1 {
        select_line(choice, r, out);
    } else {
        select_rows(choice, inner, r, out);
    }
}

fn select_line(choice: &Choice<'_>, r: &[i32], out: &mut [i32])
    requires { RowsFit choice.now 1 (length r.now) (length out.old) }
    ensures { out.new ≡ filled (rows_at choice.now 1 r.now) (length choice.now.numbers) out.old }
{
    for i in 0..choice.len() {
        out[i] = r[choice.at(i)];
    }
}

// Each row is a run from the middle of R.
fn select_rows(choice: &Choice<'_>, inner: usize, r: &[i32], out: &mut [i32])
    requires { RowsFit choice.now inner (length r.now) (length out.old) }
    ensures { out.new ≡ filled (rows_at choice.now inner r.now) (length choice.now.numbers * inner) out.old }
{
    for q in 0..choice.len() {
        let x = choice.at(q);
        let from = x * inner;
        let to = from + inner;
        let at = q * inner;
        let end = at + inner;
        copying::copy_row(&r[from..to], &mut out[at..end]);
    }
}
