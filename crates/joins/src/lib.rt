// Catenate: two operands joined along an axis.
#![tactic(auto)]

ghost use Rattle.std.specs.Prelude.{◌≡◌, List, ◌+◌, ◌*◌, ◌≤◌, ◌<◌, length, ℤ, pos, IfOk};
ghost use Rattle.shape.specs.Shape.{max_rank, max_count, counted};
ghost use Rattle.meaning.specs.Array.{array_of};
ghost use Rattle.meaning.specs.Primitives.{catenate};
ghost use Rattle.meaning.specs.Reply.{reply};
ghost use Rattle.meaning.specs.Steps.{Beside, fit, side_at};
ghost use Rattle.copying.specs.Steps.{filled};
ghost use Rattle.answer.specs.Answer.{lent, own, Replied};
ghost use Rattle.answer.specs.Refused.{asked, answered};
ghost use Rattle.joins.specs.Steps.{Joins, higher_shape, extent_of, run_of, widened, agree, RunFits, RunsFit, runs_at, joined_along, Joinable};

use answer::{Formed, Operand, Refusal};
use shape::Shape;
use std::marker::Model;

// 22, L before R. The steps stand written out: each needs what the ones before it found, so a frame that takes them would take three closures. And the
// arguments stand apart, as in the paper: a struct of them would be made for this call alone, and its promise speaks of each.
pub fn catenate(
    g: i32,
    k: i32,
    l: &Operand<'_>,
    r: &Operand<'_>,
    out: &mut [i32],
) -> Result<Shape, Refusal>
    ensures { Replied (answered result) out.new (reply (pos 22) g k l.now r.now out.old) }
{
    // Formed anew from what was lent: by the two that early_two hands back, copied three times on the way, calls of few elements took 1.4 times as long.
    answer::early_two(g, l, r)?;
    let l = Formed {
        shape: l.shape,
        elements: l.elements,
    };
    let r = Formed {
        shape: r.shape,
        elements: r.elements,
    };
    let along = joint(g, k, &l, &r)?;
    let left = Run::of(&l, along);
    let right = Run::of(&r, along);
    let shape = along
        .shape
        .with_length(along.axis, left.width + right.width);
    let count = shape.count();
    answer::late(count, out.len())?;
    join_into(&left, &right, along, count, out);
    Ok(shape)
}

// The shape against which K is read, and the axis of it that K names.
#[derive(Clone, Copy)]
struct Along {
    shape: Shape,
    axis: usize,
    ghost high: { shape.rank ≤ max_rank },
    ghost long: { length shape.lens ≡ max_rank },
    ghost has: { axis < shape.rank },
}

// RANK, AXIS and LENGTH, or else what the operands are joined along. No element is looked at. G and K name the axis here alone, so what the contract says of
// them is in no type.
#[inline(always)]
fn joint(g: i32, k: i32, l: &Formed<'_>, r: &Formed<'_>) -> Result<Along, Refusal>
    ensures number { asked result ≡ own 22 (catenate g k (array_of l.now) (array_of r.now)).refusals }
    ensures found { IfOk result (λ t. Joins g k l.now r.now t.shape t.axis) }
{
    if !ranks_fit(l.shape.rank, r.shape.rank) {
        return Err(Refusal::Rank);
    }
    let shape = higher(l.shape, r.shape);
    let axis = answer::axis(g, k, shape.rank)?;
    let along = Along { shape, axis };
    if along.agrees(&l.shape) && along.agrees(&r.shape) {
        return Ok(along);
    }
    Err(Refusal::Length)
}

// Equal, one apart, or one of them a scalar's.
fn ranks_fit(a: usize, b: usize) -> bool
    ensures { result ≡ fit a b }
{
    a == 0 || b == 0 || a.abs_diff(b) <= 1
}

// The shape of the higher rank. A scalar is read as a vector here only beside another one, so what reads every scalar so does not serve.
fn higher(ls: Shape, rs: Shape) -> Shape
    ensures { result ≡ higher_shape ls rs }
{
    if ls.rank < rs.rank {
        rs
    } else if ls.rank == 0 {
        Shape::vector(1)
    } else {
        ls
    }
}

// Each test of a rank asks something else of it, lower, equal or a scalar's: an enum of the three would be matched once in each place as well. It goes by
// value, and joint and agrees are inlined, so that the axis stays in a register: lent, and with calls, two scalars took 1.1 times as long.
impl Along {
    // The length that an operand counts as along the axis: its own, or 1 where its rank is lower.
    fn extent(self, s: &Shape) -> usize
        ensures { result ≡ extent_of s.now self.shape.rank self.axis }
    {
        if s.rank == self.shape.rank {
            s.lens[self.axis]
        } else {
            1
        }
    }

    // Whether an operand's lengths agree with the higher ones but for the axis; a scalar's always do.
    #[inline(always)]
    fn agrees(self, s: &Shape) -> bool
        requires { Beside s.now.rank self.shape.rank }
        ensures { (x : List ℤ) → result ≡ agree (counted self.shape) self.axis (array_of (lent s.now x)) }
    {
        if s.rank == 0 {
            return true;
        }
        let hs = &self.shape;
        let after = self.axis + 1;
        let from = after + s.rank - hs.rank;
        s.lens[..self.axis] == hs.lens[..self.axis]
            && s.lens[from..s.rank] == hs.lens[after..hs.rank]
    }
}

// What an operand gives, along the axis or to each block: so many of its positions or elements, or a scalar's one so often.
// A flag and no Option: the width counts for a scalar too.
#[derive(Drop)]
struct Run<'a> {
    scalar: bool,
    width: usize,
    elements: &'a [i32],
}

impl<'a> Model for Run<'a> {
    ghost use Rattle.joins.specs.Steps.{Given};

    ghost Value = { Given };

    ghost view = { λ a. record { scalar = a.scalar; width = a.width; elements = a.elements.now } };
}

impl<'a> Run<'a> {
    // Along an axis.
    fn of(o: &Formed<'a>, along: Along) -> Run<'a>
        ensures { result ≡ run_of along.shape.rank along.axis o.now }
    {
        let width = along.extent(&o.shape);
        Run {
            scalar: o.shape.rank == 0,
            width,
            elements: o.elements,
        }
    }

    // To each block, where so many elements stand after a position. The product is small for the two together, and no field of either says so.
    fn widened(&self, inner: usize) -> Run<'a>
        requires { self.now.width * inner ≤ max_count }
        ensures { result ≡ widened inner self.now }
    {
        Run {
            width: self.width * inner,
            ..*self
        }
    }
}

// The result's elements, `total` in number, by what the operands give along the axis. A function of its own: within `catenate` the loops have fewer
// registers, and runs of 16 elements take a fifth longer. Where there are none, the counts around the axis are not read: they are held, and need not fit.
// It is shared with no other primitive: what another crate can call asks nothing, and the blocks of each need something else to fit.
#[inline(never)]
fn join_into(left: &Run<'_>, right: &Run<'_>, along: Along, total: usize, out: &mut [i32])
    requires { Joinable left.now right.now along.shape along.axis total (length out.old) }
    ensures { out.new ≡ filled (joined_along along.shape along.axis left.now right.now) total out.old }
{
    if total == 0 {
        return;
    }
    let w = along.shape.around(along.axis);
    let x = left.widened(w.inner);
    let y = right.widened(w.inner);
    let first = x.width;
    let size = first + y.width;
    put_runs(&x, 0, size, w.outer, out);
    put_runs(&y, first, size, w.outer, out);
}

// Each block of `size` elements has a run of an operand, from `first` on; the block's other elements stay. Not by `chunks_exact_mut`: std says how long
// its parts are, and not what the buffer holds after them. Inlined, as put_run is: as a call, the run is read anew for each block, and runs of one element
// took 2.3 times as long.
#[inline(always)]
fn put_runs(run: &Run<'_>, first: usize, size: usize, outer: usize, out: &mut [i32])
    requires { RunsFit run.now first size outer (length out.old) }
    ensures { out.new ≡ filled (runs_at run.now first size out.old) (outer * size) out.old }
{
    // The place is counted up beside o: computed from it, runs of 16 elements take a tenth longer.
    let mut at = first;
    for o in 0..outer {
        let end = at + run.width;
        put_run(run, o, &mut out[at..end]);
        at += size;
    }
}

// The run of block o. The flag is read here alone: as a constant or a type of the run it would be chosen in `catenate`, for each of four pairs of operands.
#[inline(always)]
fn put_run(run: &Run<'_>, o: usize, out: &mut [i32])
    requires { (length out.old ≡ run.now.width) × RunFits run.now o }
    ensures { out.new ≡ filled (λ i. side_at run.now.scalar run.now.elements (o * run.now.width + i)) run.now.width out.old }
{
    if run.scalar {
        copying::fill_run(run.elements[0], out);
        return;
    }
    let from = o * run.width;
    let to = from + run.width;
    copying::copy_run(&run.elements[from..to], out);
}
