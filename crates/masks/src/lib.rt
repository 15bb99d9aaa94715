// Lines along an axis by a mask of 0 and 1: compress and expand.
#![tactic(auto)]

mod rows;

ghost use Rattle.std.specs.Prelude.{◌≡◌, ◌++◌, true, false, cond, ◌*◌, ◌≤◌, ◌<◌, length, drop, set, pos, IfOk};
ghost use Rattle.shape.specs.Shape.{counted};
ghost use Rattle.meaning.specs.Array.{array_of, tab, build};
ghost use Rattle.meaning.specs.Refusal.{number};
ghost use Rattle.meaning.specs.Terms.{every, is_bit, ones, from_zero};
ghost use Rattle.meaning.specs.Reply.{reply};
ghost use Rattle.answer.specs.Answer.{lent, own, Replied};
ghost use Rattle.answer.specs.Refused.{meant, asked, answered};
ghost use Rattle.masks.specs.Steps.Actions.{action_number, masking, vector_shape, repeats, mask_fits, mask_rules};
ghost use Rattle.masks.specs.Steps.Actions.{mask_of, width, mask_element, Masked};
ghost use Rattle.masks.specs.Steps.Rows.{rows_of, placed_in, Block, InBlocks, Noted, NotesPay, ByNotes};

use answer::{Formed, Operand, Refusal};
use copying::AxisBlocks;
use shape::Shape;

// 27: the positions at ones.
pub fn compress(
    g: i32,
    k: i32,
    l: &Operand<'_>,
    r: &Operand<'_>,
    out: &mut [i32],
) -> Result<Shape, Refusal>
    ensures { Replied (answered result) out.new (reply (pos 27) g k l.now r.now out.old) }
{
    masked::<false>(g, k, l, r, out)
}

// 28: the positions in order at ones, zeros elsewhere.
pub fn expand(
    g: i32,
    k: i32,
    l: &Operand<'_>,
    r: &Operand<'_>,
    out: &mut [i32],
) -> Result<Shape, Refusal>
    ensures { Replied (answered result) out.new (reply (pos 28) g k l.now r.now out.old) }
{
    masked::<true>(g, k, l, r, out)
}

// Both: they differ in what they ask of the mask, in the positions of the result and in what those take. EXPANDS is a constant all the way down, so that
// each has loops of its own. The frame is every primitive's: what a function of it could share are the three lines with `?`, which stop at its own return.
fn masked<const EXPANDS: bool>(
    g: i32,
    k: i32,
    l: &Operand<'_>,
    r: &Operand<'_>,
    out: &mut [i32],
) -> Result<Shape, Refusal>
    ensures { Replied (answered result) out.new (reply (pos (action_number EXPANDS)) g k l.now r.now out.old) }
{
    let (l, r) = answer::early_two(g, l, r)?;
    let (s, axis) = mask_refusal::<EXPANDS>(g, k, &l, &r)?;
    let mask = l.elements();
    let m = width_of::<EXPANDS>(mask, s.lens[axis]);
    let shape = s.with_length(axis, m);
    let count = shape.count();
    answer::late(count, out.len())?;
    let repeated = repeats::<EXPANDS>(r.shape.rank);
    mask_into::<EXPANDS>(repeated, mask, s, axis, m, count, r.elements, out);
    Ok(shape)
}

// RANK, AXIS and what the mask meets, or else the shape that R is read with, and its axis. K and G go apart, since only what is found by them goes on.
fn mask_refusal<const EXPANDS: bool>(
    g: i32,
    k: i32,
    l: &Formed<'_>,
    r: &Formed<'_>,
) -> Result<(Shape, usize), Refusal>
    ensures number { asked result ≡ own (action_number EXPANDS) (masking EXPANDS g k (array_of l.now) (array_of r.now)).refusals }
    ensures found { IfOk result (λ t. (t.0 ≡ vector_shape r.now.shape) × (t.1 ≡ from_zero g k)) }
{
    if !l.is_list() {
        return Err(Refusal::Rank);
    }
    let s = as_vector(r.shape);
    let axis = answer::axis(g, k, s.rank)?;
    mask_test::<EXPANDS>(repeats::<EXPANDS>(r.shape.rank), l.elements(), s.lens[axis])?;
    Ok((s, axis))
}

// A scalar's shape is read as that of a vector of one: the shape and not the axes, as `Formed::axes`, since the result is made from it.
fn as_vector(s: Shape) -> Shape
    ensures { result ≡ vector_shape s }
{
    if s.rank == 0 {
        return Shape::vector(1);
    }
    s
}

// Whether R is one element for every one of the mask. A flag, and no Option of the element: the tests ask it, too, and read no element.
fn repeats<const EXPANDS: bool>(rank: usize) -> bool
    ensures { result ≡ repeats EXPANDS rank }
{
    EXPANDS && rank == 0
}

// LENGTH and DOMAIN: compress asks LENGTH first, expand DOMAIN. The mask l meets R's length n along the axis, which is in no list here.
fn mask_test<const EXPANDS: bool>(repeated: bool, l: &[i32], n: usize) -> Result<(), Refusal>
    ensures { asked result ≡ own (action_number EXPANDS) (mask_rules EXPANDS repeated l.now n) }
{
    let fits = unless(mask_fits::<EXPANDS>(repeated, l, n), Refusal::Length);
    let bits = unless(all_bits(l), Refusal::Domain);
    if EXPANDS {
        bits.and(fits)
    } else {
        fits.and(bits)
    }
}

// By `then_some` and `ok_or` each of the two calls would be longer than this one.
fn unless(holds: bool, refusal: Refusal) -> Result<(), Refusal>
    ensures { asked result ≡ cond holds 0 (number (meant refusal)) }
{
    if holds { Ok(()) } else { Err(refusal) }
}

// The mask is as long as the axis, or one of both is 1; or its ones number the axis length, or R is repeated.
fn mask_fits<const EXPANDS: bool>(repeated: bool, l: &[i32], n: usize) -> bool
    ensures { result ≡ mask_fits EXPANDS repeated l.now n }
{
    if EXPANDS {
        repeated || count_ones(l) == n
    } else {
        l.len() == 1 || n == 1 || l.len() == n
    }
}

// A loop that no element ends, so that it is compiled to tests of many elements, as `copying::all_below` is (by `all` eight times as long); the proof of a
// `fold` did not close. A function of its own, whose loop the compiler lines up: as a part of its caller, where that put the loop's jump across 32 bytes,
// expand by 1000 ones took 1.2 times as long.
#[inline(never)]
fn all_bits(l: &[i32]) -> bool
    ensures { result ≡ every is_bit l.now }
{
    let mut all = true;
    for z in l {
        if !signed::is_bit(*z) {
            all = false;
        }
    }
    all
}

// A loop, which is compiled to tests of many elements: by `filter` and `count` compress of 16384 took 1.8 to 4.2 times as long, and expand 2.0 to 3.0.
// A function of its own, as `all_bits`.
#[inline(never)]
fn count_ones(l: &[i32]) -> usize
    ensures { result ≡ length (ones l.now) }
{
    let mut n: usize = 0;
    for z in l {
        if *z == 1 {
            n += 1;
        }
    }
    n
}

// How many positions the result has on an axis of length n.
fn width_of<const EXPANDS: bool>(l: &[i32], n: usize) -> usize
    ensures { result ≡ width EXPANDS (mask_of EXPANDS l.now n) }
{
    if EXPANDS { l.len() } else { kept_count(l, n) }
}

// One element serves the whole axis.
fn kept_count(l: &[i32], n: usize) -> usize
    ensures { result ≡ length (ones (mask_of false l.now n)) }
{
    let [z] = l else {
        return count_ones(l);
    };
    if *z == 1 { n } else { 0 }
}

// The lines along an axis, `total` elements of m positions: none, or one run where there are as many positions as before, or else blocks. Each primitive has
// other ways between these two tests; what is known of the nine parameters is one record, `Masked`: a struct of them would be made for this one call and taken
// apart in it.
fn mask_into<const EXPANDS: bool>(
    repeated: bool,
    l: &[i32],
    s: Shape,
    axis: usize,
    m: usize,
    total: usize,
    r: &[i32],
    out: &mut [i32],
)
    requires { Masked EXPANDS repeated l.now s axis m total r.now (length out.old) }
    ensures { out.new
        ≡ (build (set (counted s) axis m) (mask_element EXPANDS repeated l.now (array_of (lent s r.now)) axis)).elements
        ++ drop total out.old }
{
    if repeated {
        rows::spread(r[0], l, out);
        return;
    }
    if total == 0 {
        return;
    }
    let a = s.around(axis);
    if m == a.length {
        copying::copy_run(&r[0..total], out);
        return;
    }
    let b = AxisBlocks {
        outer: a.outer,
        taken: a.length,
        made: m,
        inner: a.inner,
    };
    in_blocks::<EXPANDS>(l, b, r, out);
}

// A block of up to so many elements stays in the first-level cache until the rows are written over its zeros. Not as lookups' constants of this name and
// of FEW: those count elements that are searched.
const NEAR: usize = 2048;

// Whether the ones are noted, for a mask of c places on an axis of length n, where a block of the result has `part` elements.
fn notes_pay<const EXPANDS: bool>(c: usize, n: usize, part: usize) -> bool
    ensures { result ≡ true → NotesPay EXPANDS c n }
{
    if rows::FEW < c {
        return false;
    }
    if EXPANDS { part <= NEAR } else { n != 1 }
}

// All blocks. What `InBlocks` says is of the mask, the counts and both buffers: a struct of all four would be made for each call and taken apart in it.
fn in_blocks<const EXPANDS: bool>(l: &[i32], b: AxisBlocks, r: &[i32], out: &mut [i32])
    requires { InBlocks EXPANDS l.now b (length r.now) (length out.old) }
    ensures { out.new ≡ placed_in EXPANDS l.now b r.now out.old }
{
    let part = b.made * b.inner;
    if notes_pay::<EXPANDS>(l.len(), b.taken, part) {
        noted_blocks::<EXPANDS>(l, b, r, out);
    } else {
        masked_blocks::<EXPANDS>(l, b, r, out);
    }
}

// The blocks by noted ones: to gather the rows takes 0.36 to 1.08 of the time that a loop for them in this crate took. A function of its own: as a part of
// its caller, with fewer registers, compress of lines of 4 to 64 took 1.2 to 1.6 times as long, and expand of lines of 4 and 5 1.4 to 1.7.
#[inline(never)]
fn noted_blocks<const EXPANDS: bool>(l: &[i32], b: AxisBlocks, r: &[i32], out: &mut [i32])
    requires { InBlocks EXPANDS l.now b (length r.now) (length out.old) × NotesPay EXPANDS (length l.now) b.taken }
    ensures { out.new ≡ placed_in EXPANDS l.now b r.now out.old }
{
    let at = rows::noted(l);
    if EXPANDS {
        opened_blocks(l, &at, b, r, out);
        return;
    }
    copying::gather(&at[0..b.made], 0, b, r, out);
}

// Single elements go into zeros, which are written for all lines at once: a run for each line took as long as the elements.
fn opened_blocks(l: &[i32], at: &[u16], b: AxisBlocks, r: &[i32], out: &mut [i32])
    requires { InBlocks true l.now b (length r.now) (length out.old) × (Noted l.now at.now × (length l.now ≤ length at.now)) }
    ensures { out.new ≡ placed_in true l.now b r.now out.old }
{
    if b.inner == 1 {
        let total = b.outer * b.made;
        copying::fill_run(0, &mut out[0..total]);
    }
    open_blocks(l, at, b, r, out);
}

// Each of the blocks that stand one after another. This loop, that of `masked_blocks` and those like them in other crates are no one function of a closure:
// it would say in its contract what each block needs and leaves, which is longer than the loop.
fn open_blocks(l: &[i32], at: &[u16], b: AxisBlocks, r: &[i32], out: &mut [i32])
    requires { InBlocks true l.now b (length r.now) (length out.old) × ByNotes l.now at.now b.inner (b.outer * (b.made * b.inner)) out.old }
    ensures { out.new ≡ placed_in true l.now b r.now out.old }
{
    let size = b.taken * b.inner;
    let part = b.made * b.inner;
    for o in 0..b.outer {
        let from = o * size;
        let to = o * part;
        rows::opened_rows(
            l,
            at,
            b.taken,
            b.inner,
            &r[from..from + size],
            &mut out[to..to + part],
        );
    }
}

// Each of the blocks, by the mask itself.
fn masked_blocks<const EXPANDS: bool>(l: &[i32], b: AxisBlocks, r: &[i32], out: &mut [i32])
    requires { InBlocks EXPANDS l.now b (length r.now) (length out.old) }
    ensures { out.new ≡ placed_in EXPANDS l.now b r.now out.old }
{
    let size = b.taken * b.inner;
    let part = b.made * b.inner;
    for o in 0..b.outer {
        let from = o * size;
        let stop = from + size;
        let to = o * part;
        masked_block::<EXPANDS>(l, b, &r[from..stop], &mut out[to..to + part]);
    }
}

// One block by the mask itself, by its counts; lines and rows are apart as in `rows`. A function of its own: as a part of its caller, with fewer registers,
// expand of 16384 takes 1.16 to 1.2 of the time.
#[inline(never)]
fn masked_block<const EXPANDS: bool>(l: &[i32], b: AxisBlocks, r: &[i32], out: &mut [i32])
    requires { Block EXPANDS l.now b (length r.now) (length out.old) }
    ensures { out.new ≡ tab (b.made * b.inner) (rows_of EXPANDS l.now b.taken b.inner r.now) }
{
    if EXPANDS {
        if b.inner == 1 {
            rows::expand_line(l, r, out);
        } else {
            rows::expand_rows(l, r, b.inner, out);
        }
        return;
    }
    if b.taken == 1 {
        rows::repeat_row(r, b.made, b.inner, out);
        return;
    }
    if b.inner == 1 {
        rows::compress_line(l, r, out);
    } else {
        rows::compress_rows(l, r, b.inner, out);
    }
}
