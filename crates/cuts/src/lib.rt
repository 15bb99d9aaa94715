// Take and drop: on each axis of the result a window of R's positions, and zeros outside it.
#![tactic(auto)]

ghost use Rattle.std.specs.Prelude.{◌≡◌, true, eqb, [], ◌∷◌, ◌+◌, ◌≤◌, ◌<◌, ℕ, ℤ, pos, length, take, drop, slice_index, IfOk};
ghost use Rattle.meaning.specs.Array.{array_of, tab};
ghost use Rattle.meaning.specs.Reply.{reply};
ghost use Rattle.answer.specs.Answer.{own, Replied};
ghost use Rattle.answer.specs.Refused.{asked, answered};
ghost use Rattle.cuts.specs.Steps.{cut_number, cut_meaning, read_lengths, cut_length, keeps_end, cut_shape, window_of, table_of, cut_at};
ghost use Rattle.cuts.specs.Steps.{Fitting, Blank, Nonempty, Parts};

use answer::{Formed, Operand, Refusal};
use shape::Shape;

// 23, whatever K is: it is not looked at.
pub fn take(g: i32, l: &Operand<'_>, r: &Operand<'_>, out: &mut [i32]) -> Result<Shape, Refusal>
    ensures { (K : ℤ) → Replied (answered result) out.new (reply (pos 23) g K l.now r.now out.old) }
{
    take_or_drop(CutKind::Take, g, l, r, out)
}

// 24, whatever K is: it is not looked at.
pub fn drop(g: i32, l: &Operand<'_>, r: &Operand<'_>, out: &mut [i32]) -> Result<Shape, Refusal>
    ensures { (K : ℤ) → Replied (answered result) out.new (reply (pos 24) g K l.now r.now out.old) }
{
    take_or_drop(CutKind::Drop, g, l, r, out)
}

fn take_or_drop(
    kind: CutKind,
    g: i32,
    l: &Operand<'_>,
    r: &Operand<'_>,
    out: &mut [i32],
) -> Result<Shape, Refusal>
    ensures { (K : ℤ) → Replied (answered result) out.new (reply (pos (cut_number kind)) g K l.now r.now out.old) }
{
    let (l, r) = answer::early_two(g, l, r)?;
    let numbers = cut_numbers(kind, &l, &r)?;
    let lens = read_lengths(r.shape);
    let call = CutCall {
        kind,
        numbers,
        lens,
    };
    let shape = call.cut_shape()?;
    let count = shape.count();
    answer::late(count, out.len())?;
    call.fill(&shape.lens[..shape.rank], r.elements(), &mut out[..count]);
    Ok(shape)
}

// RANK and LENGTH: L is a list with one number for each axis of R, and a scalar R has as many as L has numbers. Or else L's numbers. The kind is for the
// contract alone, which names the definition by it.
fn cut_numbers<'a>(kind: CutKind, l: &Formed<'a>, r: &Formed<'_>) -> Result<&'a [i32], Refusal>
    ensures number { asked result
        ≡ own (cut_number kind) (cut_meaning kind (array_of l.now) (array_of r.now)).refusals }
    ensures numbers { IfOk result (λ zs. zs.now ≡ (array_of l.now).elements) }
{
    if !l.is_list() {
        return Err(Refusal::Rank);
    }
    let numbers = l.elements();
    if r.rank() != 0 && numbers.len() != r.rank() {
        return Err(Refusal::Length);
    }
    Ok(numbers)
}

// The lengths of R, a scalar's read as ones: it has as many axes as L has numbers, and not one as for `Formed::axes`.
fn read_lengths(rs: Shape) -> [usize; Shape::MAX_RANK]
    ensures { result ≡ read_lengths rs }
{
    if rs.rank == 0 {
        return [1; Shape::MAX_RANK];
    }
    rs.lens
}

// What L's numbers say of an axis: how many positions are taken, or how many are dropped.
// An enum: what it chooses are two short lines, and a const parameter, or two types with a trait, would go through as many functions.
#[derive(Clone, Copy)]
enum CutKind {
    Take,
    Drop,
}

// Of an axis: z is L's number, n is R's length.
impl CutKind {
    // The result's length.
    fn cut_length(self, z: i32, n: usize) -> usize
        ensures { result ≡ cut_length self z n }
    {
        let magnitude = signed::magnitude(z);
        match self {
            CutKind::Take => magnitude,
            CutKind::Drop => n.saturating_sub(magnitude),
        }
    }

    fn window_on(self, z: i32, n: usize) -> Window
        ensures { result ≡ window_of self z n }
    {
        let size = self.cut_length(z, n);
        let len = size.min(n);
        let (lead, from) = if self.keeps_end(z) {
            (size - len, n - len)
        } else {
            (0, 0)
        };
        Window {
            lead,
            from,
            len,
            size,
        }
    }

    // Whether the end is kept and not the front.
    fn keeps_end(self, z: i32) -> bool
        ensures { result ≡ keeps_end self z }
    {
        match self {
            CutKind::Take => z < 0,
            CutKind::Drop => 0 <= z,
        }
    }
}

// On an axis: the zeros before, the first position that is taken, how many are taken, and the result's length.
#[derive(Clone, Copy)]
struct Window {
    lead: usize,
    from: usize,
    len: usize,
    size: usize,
}

// L's numbers, and R's lengths as they are read, the first of them on the same axes. Two lists: pairs would be copied out of both, and taken apart.
#[derive(Clone, Copy)]
struct CutCall<'a> {
    kind: CutKind,
    numbers: &'a [i32],
    lens: [usize; Shape::MAX_RANK],
}

impl CutCall<'_> {
    // The result's shape, or LIMIT: a scalar R may be read with more axes than a shape can have. The loop is that of `vectors::shape_from` but for the
    // length: a function of both would take it as a closure with a contract, which is longer than the loop.
    fn cut_shape(&self) -> Result<Shape, Refusal>
        ensures { result ≡ cut_shape self.now.kind self.now.numbers.now self.now.lens }
    {
        let rank = self.numbers.len();
        if Shape::MAX_RANK < rank {
            return Err(Refusal::Limit);
        }
        let mut lens = [0; Shape::MAX_RANK];
        for axis in 0..rank {
            lens[axis] = self.kind.cut_length(self.numbers[axis], self.lens[axis]);
        }
        Ok(Shape { rank, lens })
    }

    // The elements of a result: `res` are its lengths, `r` and `out` are R and the result, whole.
    fn fill(&self, res: &[usize], r: &[i32], out: &mut [i32])
        requires { Parts self.now.kind self.now.lens res.now self.now.numbers.now (length r.now) (length out.old) }
        ensures { out.new
            ≡ tab (length out.old)
            (cut_at (table_of self.now.kind self.now.numbers.now (take (length self.now.numbers.now) self.now.lens)) r.now) }
    {
        // Both have elements when the table is made: with a length of 0 the others' products might be above the limit.
        if out.is_empty() {
            return;
        }
        if r.is_empty() {
            copying::fill_run(0, out);
            return;
        }
        // No table where none is cut: `cut` of no axis is the same copy, and took 1.4 times as long on seven axes, since the table was made first.
        let used = cut_axes(&self.lens[..res.len()], res);
        if used == 0 {
            copying::copy_run(r, out);
            return;
        }
        let table = self.table_of();
        cut(&table[..used], r, out);
    }

    // From the last axis to the first, since a position's elements are those of the axes after it. With `transposes::strides` it shares no more than
    // a product: here are two, and the windows between them.
    fn table_of(&self) -> [Axis; Shape::MAX_RANK]
        requires { Nonempty self.now.kind self.now.lens self.now.numbers.now }
        ensures { take (length self.now.numbers.now) result
            ≡ table_of self.now.kind self.now.numbers.now (take (length self.now.numbers.now) self.now.lens) }
    {
        let mut table = [Axis::default(); Shape::MAX_RANK];
        let mut stride = 1;
        let mut block = 1;
        for axis in (0..self.numbers.len()).rev() {
            let n = self.lens[axis];
            let w = self.kind.window_on(self.numbers[axis], n);
            table[axis] = Axis {
                start: w.lead * block,
                width: w.len * block,
                first: w.from * stride,
                len: w.len,
                stride,
                block,
            };
            stride *= n;
            block *= w.size;
        }
        table
    }
}

// How many axes there are up to the last that is not taken whole.
fn cut_axes(lens: &[usize], res: &[usize]) -> usize
    requires { length lens.now ≡ length res.now }
    ensures { (result ≤ length lens.now) × ((k : ℕ) → result ≤ k → k < length lens.now → slice_index lens.now k ≡ slice_index res.now k) }
{
    (0..res.len())
        .rposition(|axis| lens[axis] != res[axis])
        .map_or(0, |axis| axis + 1)
}

// The window of an axis in elements: where it starts in the result and how many it has there, and where it starts in R. Then how many positions it has,
// and how many elements a position has in R and in the result.
#[derive(Clone, Copy, Default)]
struct Axis {
    start: usize,
    width: usize,
    first: usize,
    len: usize,
    stride: usize,
    block: usize,
}

// Rows from this length on have their zeros written one by one. Those of shorter rows are written all at once, under the runs too.
const LONG_ROW: usize = 128;

// Whether a table has two axes whose rows go in one loop: rows that are short, or rows without zeros. No Option of the two: its contract would have to say
// that they are the table's, which their places in the table say by themselves.
fn by_rows(table: &[Axis]) -> bool
    ensures { result ≡ true → length table.now ≡ 2 }
{
    let [rows, runs] = table else {
        return false;
    };
    rows.block < LONG_ROW || runs.width == rows.block
}

// Fills `out` with what the table's windows leave of `r`: the last axis is one run, the last two are rows, one before them a part for each position.
// Table, R and result stay three parameters, and `Fitting` a fact of them: each call has another part of all three, so a value of them would be made
// anew for each.
fn cut(table: &[Axis], r: &[i32], out: &mut [i32])
    requires { Fitting table.now (length r.now) (length out.old) }
    ensures { out.new ≡ tab (length out.old) (cut_at table.now r.now) }
{
    if by_rows(table) {
        cut_rows(&table[0], &table[1], r, out);
        return;
    }
    let Some((axis, rest)) = table.split_first() else {
        copying::copy_run(r, out);
        return;
    };
    clear_outside(axis, out);
    if rest.is_empty() {
        let last = axis.first + axis.width;
        let stop = axis.start + axis.width;
        copying::copy_run(&r[axis.first..last], &mut out[axis.start..stop]);
        return;
    }
    for i in 0..axis.len {
        let a = axis.first + i * axis.stride;
        let c = axis.start + i * axis.block;
        cut(rest, &r[a..a + axis.stride], &mut out[c..c + axis.block]);
    }
}

// Two axes: a run of the same length from each row of `r`, all in one loop. By `cut`, row by row, take along the last axis of 32 x 16 x 32 went from
// 3.1 us to 6.2, and the limit there is 5.2, plain Rust's time. What the loop reads of an axis again and again has a name.
fn cut_rows(rows: &Axis, runs: &Axis, r: &[i32], out: &mut [i32])
    requires { Fitting (rows.now ∷ (runs.now ∷ [])) (length r.now) (length out.old) }
    ensures { out.new ≡ tab (length out.old) (cut_at (rows.now ∷ (runs.now ∷ [])) r.now) }
{
    clear_rows(rows, runs.width, out);
    let from = rows.first + runs.first;
    let to = rows.start + runs.start;
    let width = runs.width;
    let Axis {
        len,
        stride,
        block,
        ..
    } = *rows;
    for i in 0..len {
        let a = from + i * stride;
        let c = to + i * block;
        copying::copy_run(&r[a..a + width], &mut out[c..c + width]);
    }
}

// Zeros wherever no run goes: everywhere, unless each run is a whole row. A function, so that the loop after it has one fact of both ways; that the
// window ends in the buffer is no more than each part of a slice asks.
fn clear_rows(rows: &Axis, width: usize, out: &mut [i32])
    requires { rows.now.start + rows.now.width ≤ length out.old }
    ensures { Blank (eqb width rows.now.block) rows.now (length out.old) out.new }
{
    if width == rows.block {
        clear_outside(rows, out);
    } else {
        copying::fill_run(0, out);
    }
}

// Zeros before the window and after it.
fn clear_outside(axis: &Axis, out: &mut [i32])
    requires { axis.now.start + axis.now.width ≤ length out.old }
    ensures { Blank true axis.now (length out.old) out.new }
{
    copying::fill_run(0, &mut out[..axis.start]);
    copying::fill_run(0, &mut out[axis.start + axis.width..]);
}
