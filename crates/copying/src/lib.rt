// Runs of elements that are copied, filled and reversed, and rows that are gathered. Each is one tight loop, so that it is compiled to moves of many
// elements.
#![tactic(auto)]

ghost use Rattle.std.specs.Prelude.{◌≡◌, ◌++◌, true, cond, min, ◌+◌, ◌-◌, ◌*◌, ◌≤◌, ◌<◌, length, List, replicate, take, drop, ltb};
ghost use Rattle.shape.specs.Shape.{max_count};
ghost use Rattle.meaning.specs.Array.{tab};
ghost use Rattle.meaning.specs.Terms.{every};
ghost use Rattle.copying.specs.Runs.{copied, reversed};
ghost use Rattle.copying.specs.Steps.{filled, ordered, arranged};
ghost use Rattle.copying.specs.Gather.{small_blocks, gathers, gathered_at, gathered, rows_by, RowsBy};

use shape::Shape;

// The smaller of two lengths. Public, and so it stays; the crates here call the method.
pub fn min(a: usize, b: usize) -> usize
    ensures { result ≡ min a b }
{
    a.min(b)
}

// Runs from this length on are copied by way of a buffer.
const LONG: usize = 32;

// As many elements as both have; the rest of `out` stays. The ways to copy promise the same, and each takes the two slices apart: a struct of both
// would be made at every call and taken apart at once. Inlined: as a call, catenate of rows of 2 and 3 took 2.4 times as long.
#[inline(always)]
#[tactic(auto, using(crate::proofs::Runs::copied_front))]
pub fn copy_run(src: &[i32], out: &mut [i32])
    ensures { out.new ≡ copied src.now out.old }
{
    let n = src.len().min(out.len());
    if LONG <= n && n <= Shape::MAX_COUNT {
        copy_long(&src[..n], out);
    } else {
        copy_row(src, out);
    }
}

// The compiler knows that nothing else overlaps this buffer. So it makes one move of both copies, the C library's, and no buffer is left. Inlined:
// a call of its own keeps the buffer, and take of 1,000 elements took 11 times as long. By copy_from_slice for every run, which first asks whether the
// two overlap, catenate of rows of 2 and 3 took 1.35 times as long and compress of rows up to 1.24. The bound is the buffer's, and of this call alone.
#[inline(always)]
fn copy_long(src: &[i32], out: &mut [i32])
    requires { length src.now ≤ max_count }
    ensures { out.new ≡ copied src.now out.old }
{
    let mut held = [0; Shape::MAX_COUNT];
    copy_each::<i32, false>(src, &mut held);
    copy_each::<i32, false>(&held[..src.len()], out);
}

// The place in a run of n elements of the element that comes at i + k: in their order, or the last of them first. A constant says which, so that one
// function serves both ways and neither asks.
fn place<const BACK: bool>(n: usize, i: usize, k: usize) -> usize
    requires { i + k < n }
    ensures { result ≡ cond BACK (n - 1 - (i + k)) (i + k) }
{
    if BACK { n - i - 1 - k } else { i + k }
}

// One after another, by their places: of what a slice holds after a loop over its `iter_mut` beside another iterator std says nothing.
fn copy_each<T: Copy, const BACK: bool>(src: &[T], out: &mut [T])
    ensures { out.new ≡ arranged BACK src.now out.old }
{
    let n = src.len().min(out.len());
    for i in 0..n {
        out[i] = src[place::<BACK>(n, i, 0)];
    }
}

// Four elements from i + k on, all read before any is written, so that they are moved as one. By an array and copy_from_slice they went one by one: rows of
// 10 and more took up to 2.3 times as long. k comes beside i, a constant at each call: with i + 4 for i a reversal's second four are looked for anew, and a
// reversed vector takes 1.25 times as long.
fn move_4<T: Copy, const BACK: bool>(src: &[T], out: &mut [T], i: usize, k: usize)
    requires { (i + k + 4 ≤ length src.now) × (i + k + 4 ≤ length out.old) }
    ensures { out.new ≡ take (i + k) out.old ++ take 4 (drop (i + k) (ordered BACK src.now)) ++ drop (i + k + 4) out.old }
{
    let n = src.len();
    let a0 = src[place::<BACK>(n, i, k)];
    let a1 = src[place::<BACK>(n, i, k + 1)];
    let a2 = src[place::<BACK>(n, i, k + 2)];
    let a3 = src[place::<BACK>(n, i, k + 3)];
    out[i + k] = a0;
    out[i + k + 1] = a1;
    out[i + k + 2] = a2;
    out[i + k + 3] = a3;
}

// Eight at a time, while more than that are left: how many are copied. By a `for` over the eights select took up to twice as long. That the run fits
// is asked by this and by copy_last, which copy_moves alone calls.
fn copy_eights<T: Copy, const BACK: bool>(src: &[T], out: &mut [T]) -> usize
    requires { length src.now ≤ length out.old }
    ensures left { (result ≤ length src.now) × (length src.now ≤ result + 8) }
    ensures copied { out.new ≡ take result (ordered BACK src.now) ++ drop result out.old }
{
    let mut done = 0;
    while 8 < src.len() - done {
        move_4::<T, BACK>(src, out, done, 0);
        move_4::<T, BACK>(src, out, done, 4);
        done += 8;
    }
    done
}

// Up to eight elements that are left of four or more. The last four go as one, some of them a second time.
fn copy_last<T: Copy, const BACK: bool>(src: &[T], out: &mut [T], done: usize)
    requires { (4 ≤ length src.now) × (length src.now ≤ length out.old) × (done ≤ length src.now) × (length src.now ≤ done + 8) }
    ensures { (out₀ : List T) → out.old ≡ take done (ordered BACK src.now) ++ drop done out₀ → out.new ≡ ordered BACK src.now ++ drop (length src.now) out₀ }
{
    let last = src.len() - 4;
    if done < last {
        move_4::<T, BACK>(src, out, done, 0);
    }
    move_4::<T, BACK>(src, out, last, 0);
}

// Four elements or more by moves of four: no test whether the buffers overlap, and no loop over what is left of eight. By one loop for every
// length catenate of rows of 2 and 3 took 2.3 times as long, rotate of rows of 5 up to 2.3 and reverse of them 1.8.
#[inline(always)]
fn copy_moves<T: Copy, const BACK: bool>(src: &[T], out: &mut [T])
    ensures { out.new ≡ arranged BACK src.now out.old }
{
    let n = src.len().min(out.len());
    if n < 4 {
        copy_each::<T, BACK>(src, out);
        return;
    }
    let done = copy_eights::<T, BACK>(&src[..n], out);
    copy_last::<T, BACK>(&src[..n], out, done);
}

// As copy_run, for runs that are short.
#[inline(always)]
#[tactic(auto, unfolding(crate::specs::Runs::copied))]
pub fn copy_row<T: Copy>(src: &[T], out: &mut [T])
    ensures { out.new ≡ copied src.now out.old }
{
    copy_moves::<T, false>(src, out);
}

// By the library's fill 8 to 64 elements took up to 1.9 times as long.
pub fn fill_run<T: Copy>(x: T, out: &mut [T])
    ensures { out.new ≡ replicate (length out.old) x }
{
    for o in out.iter_mut() {
        *o = x;
    }
}

// As many elements as both have, the last of them first; the rest of `out` stays.
#[tactic(auto, unfolding(crate::specs::Runs::reversed))]
pub fn reverse_run<T: Copy>(src: &[T], out: &mut [T])
    ensures { out.new ≡ reversed src.now out.old }
{
    copy_moves::<T, true>(src, out);
}

// How many positions a caller notes at a time: a few cache lines of them. With half as many a vector takes an eighth longer.
pub const NOTED: usize = 128;

// The blocks along an axis: how many, the rows that each has in the source and in the result, and the elements of a row. Not a shape::Around with a field
// more, whose `length` would not say of which of the two it is.
#[derive(Clone, Copy)]
pub struct AxisBlocks {
    pub outer: usize,
    pub taken: usize,
    pub made: usize,
    pub inner: usize,
}

// In each block the rows at the positions `at`, to the rows from `first` on; the block's other rows stay, and all of `out` where they cannot go. No result
// says whether they can: every call has been one that cannot fail. The positions are a slice, and the place of the first is no part of them: callers may
// note some at a time. Select reads its positions from elements less the origin as it goes, so that it does not note them for this.
#[tactic(auto, unfolding(crate::specs::Gather::gathered))]
pub fn gather(at: &[u16], first: usize, b: AxisBlocks, r: &[i32], out: &mut [i32])
    ensures { out.new ≡ gathered at.now first b r.now out.old }
{
    if gathers(at, first, b, r.len(), out.len()) {
        gather_blocks(at, first, b, r, out);
    }
}

// Asked once for all blocks, so that no element is tested.
fn gathers(at: &[u16], first: usize, b: AxisBlocks, n: usize, m: usize) -> bool
    ensures { result ≡ gathers at.now first b n m }
{
    small(b)
        && b.outer * (b.taken * b.inner) <= n
        && b.outer * (b.made * b.inner) <= m
        && first <= b.made
        && at.len() <= b.made - first
        && all_below(at, b.taken)
}

// Whether no count is above the limit, so that their products are held.
#[tactic(auto, unfolding(crate::specs::Gather::small_blocks, meaning::specs::Terms::every))]
fn small(b: AxisBlocks) -> bool
    ensures { result ≡ small_blocks b }
{
    [b.outer, b.taken, b.made, b.inner]
        .iter()
        .all(|n| *n <= Shape::MAX_COUNT)
}

// No position ends the loop, so that it is compiled to tests of many positions: by `all` it took eight times as long, by a fold a fifth longer.
fn all_below(at: &[u16], n: usize) -> bool
    ensures { result ≡ every (λ x. ltb x n) at.now }
{
    let mut all = true;
    for x in at {
        if n <= usize::from(*x) {
            all = false;
        }
    }
    all
}

fn gather_blocks(at: &[u16], first: usize, b: AxisBlocks, r: &[i32], out: &mut [i32])
    requires { gathers at.now first b (length r.now) (length out.old) ≡ true }
    ensures { out.new
        ≡ filled (gathered_at at.now first b r.now out.old) (b.outer * (b.made * b.inner)) out.old }
{
    let size = b.taken * b.inner;
    let part = b.made * b.inner;
    let some = at.len() * b.inner;
    let start = first * b.inner;
    for o in 0..b.outer {
        let from = o * size;
        let to = o * part + start;
        gather_block(at, b.inner, &r[from..from + size], &mut out[to..to + some]);
    }
}

// A row of one element is no run: one loop over the line. By `gather_rows` such rows take 3.8 to 4.0 times as long.
fn gather_block(at: &[u16], inner: usize, r: &[i32], out: &mut [i32])
    requires { RowsBy at.now inner (length r.now) (length out.old) }
    ensures { out.new ≡ tab (length at.now * inner) (rows_by at.now inner r.now) }
{
    if inner == 1 {
        gather_line(at, r, out);
    } else {
        gather_rows(at, inner, r, out);
    }
}

// By the places of the result: by a for over the positions lines of 3 elements took 1.26 times as long.
fn gather_line(at: &[u16], r: &[i32], out: &mut [i32])
    requires { RowsBy at.now 1 (length r.now) (length out.old) }
    ensures { out.new ≡ tab (length at.now * 1) (rows_by at.now 1 r.now) }
{
    for q in 0..out.len() {
        let x = usize::from(at[q]);
        out[q] = r[x];
    }
}

// Each row by itself, whether or not it has neighbours among the others.
fn gather_rows(at: &[u16], inner: usize, r: &[i32], out: &mut [i32])
    requires { RowsBy at.now inner (length r.now) (length out.old) }
    ensures { out.new ≡ tab (length at.now * inner) (rows_by at.now inner r.now) }
{
    let mut to = 0;
    for x in at {
        let from = usize::from(*x) * inner;
        let end = to + inner;
        copy_run(&r[from..from + inner], &mut out[to..end]);
        to = end;
    }
}
