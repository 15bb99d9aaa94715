// The rows of one block. Where a row is one element there is one loop over the line: by runs of one element compress takes 2.1 to 4.9 times as long, and
// expand 1.7 to 4.5. The buffers' lengths are rows of `inner` elements, and what two functions leave is one definition: a struct of both buffers and
// `inner` would be made for one call, and the loops would take it apart.
ghost use Rattle.std.specs.Prelude.{◌≡◌, true, cond, ◌*◌, ◌≤◌, ◌<◌, length, pos};
ghost use Rattle.meaning.specs.Array.{tab};
ghost use Rattle.meaning.specs.Terms.{ones};
ghost use Rattle.copying.specs.Steps.{filled};
ghost use Rattle.masks.specs.Steps.Actions.{one_at};
ghost use Rattle.masks.specs.Steps.Rows.{few, Noted, rowed, kept_rows, opened_rows, Opens, Stretch};

// A mask of up to so many positions is looked at once, and not again for each block.
pub const FEW: usize = 64;

// The positions of the ones in order; how many there are, a length along the axis says: the result's, or R's in expand. There is no heap, so the array has
// room for any mask that is noted. Every position is written, and the next over it if it is no one: a branch for each would be guessed wrong.
pub fn noted(l: &[i32]) -> [u16; FEW]
    requires { length l.now ≤ few }
    ensures { Noted l.now result }
{
    let mut at = [0; FEW];
    let mut q = 0;
    for (i, z) in l.iter().enumerate() {
        // A cast, since From goes only from u16 to usize, and what try_from refuses never comes: i is below FEW.
        at[q] = i as u16;
        if *z == 1 {
            q += 1;
        }
    }
    at
}

// The elements in order at the noted positions of a buffer of zeros. Only the contract speaks of l.
fn opened_line(l: &[i32], at: &[u16], r: &[i32], out: &mut [i32])
    requires { Opens l.now at.now 1 (length r.now) out.old }
    ensures { out.new ≡ tab (length l.now * 1) (opened_rows l.now 1 r.now) }
{
    for (q, v) in r.iter().enumerate() {
        let x = usize::from(at[q]);
        out[x] = *v;
    }
}

// The n rows in order at the noted positions, over zeros: one run of zeros for a block costs less than one for each gap.
pub fn opened_rows(l: &[i32], at: &[u16], n: usize, inner: usize, r: &[i32], out: &mut [i32])
    requires { (0 < inner) × ((length r.now ≡ n * inner) × Opens l.now at.now inner (length r.now) out.old) }
    ensures { out.new ≡ tab (length l.now * inner) (opened_rows l.now inner r.now) }
{
    if inner == 1 {
        opened_line(l, at, r, out);
        return;
    }
    copying::fill_run(0, out);
    for q in 0..n {
        let x = usize::from(at[q]);
        let from = q * inner;
        let stop = from + inner;
        let to = x * inner;
        let end = to + inner;
        copying::copy_run(&r[from..stop], &mut out[to..end]);
    }
}

// The elements at ones. Every element is written, and the next over it if it is not kept: a branch for each would be guessed wrong.
pub fn compress_line(l: &[i32], r: &[i32], out: &mut [i32])
    requires { (length r.now ≡ length l.now * 1) × (length out.old ≡ length (ones l.now) * 1) }
    ensures { out.new ≡ tab (length (ones l.now) * 1) (kept_rows (ones l.now) 1 r.now) }
{
    // A while: it ends where the buffer is full, which may be before the mask's end.
    let mut to = 0;
    let mut i = 0;
    while to < out.len() {
        out[to] = r[i];
        if l[i] == 1 {
            to += 1;
        }
        i += 1;
    }
}

// The first position from i on that is a one and should not, or is none and should; the mask's length if there is no such position, since the stretch ends
// there. An Option, as `position` gives it for the part from i on, would be added to i or become that length again.
fn past<const ONE: bool>(l: &[i32], i: usize) -> usize
    requires { i ≤ length l.now }
    ensures { Stretch ONE l.now i result }
{
    for e in i..l.len() {
        if (l[e] == 1) != ONE {
            return e;
        }
    }
    l.len()
}

// The rows at ones: those at neighbours are one run.
pub fn compress_rows(l: &[i32], r: &[i32], inner: usize, out: &mut [i32])
    requires { (length r.now ≡ length l.now * inner) × (length out.old ≡ length (ones l.now) * inner) }
    ensures { out.new ≡ tab (length (ones l.now) * inner) (kept_rows (ones l.now) inner r.now) }
{
    // A while: a turn takes a whole stretch of ones. It ends where the buffer is full, and expand's where the mask ends, with zeros for each gap.
    let mut to = 0;
    let mut i = 0;
    while to < out.len() {
        let first = past::<false>(l, i);
        i = past::<true>(l, first + 1);
        let from = first * inner;
        let stop = i * inner;
        let end = to + (stop - from);
        copying::copy_run(&r[from..stop], &mut out[to..end]);
        to = end;
    }
}

// The one row of r, m times, with no part of a row at the end as in vectors' `cycle_run`. An element alone is one fill.
pub fn repeat_row(r: &[i32], m: usize, inner: usize, out: &mut [i32])
    requires { (0 < inner) × ((length r.now ≡ inner) × (length out.old ≡ m * inner)) }
    ensures { out.new ≡ tab (m * inner) (rowed (λ i. true) (λ i. 0) inner r.now) }
{
    if inner == 1 {
        copying::fill_run(r[0], out);
        return;
    }
    for i in 0..m {
        let to = i * inner;
        let end = to + inner;
        copying::copy_run(r, &mut out[to..end]);
    }
}

// The elements in order at ones, zeros elsewhere.
pub fn expand_line(l: &[i32], r: &[i32], out: &mut [i32])
    requires { (length r.now ≡ length (ones l.now) * 1) × (length out.old ≡ length l.now * 1) }
    ensures { out.new ≡ tab (length l.now * 1) (opened_rows l.now 1 r.now) }
{
    // A while: `for` took an eighth longer for a mask that alternates.
    let mut from = 0;
    let mut i = 0;
    while i < l.len() {
        if l[i] == 1 {
            out[i] = r[from];
            from += 1;
        } else {
            out[i] = 0;
        }
        i += 1;
    }
}

// The rows in order at ones, zeros elsewhere: neighbours are one run.
pub fn expand_rows(l: &[i32], r: &[i32], inner: usize, out: &mut [i32])
    requires { (length r.now ≡ length (ones l.now) * inner) × (length out.old ≡ length l.now * inner) }
    ensures { out.new ≡ tab (length l.now * inner) (opened_rows l.now inner r.now) }
{
    // A while: a turn takes a whole gap and stretch of ones.
    let mut from = 0;
    let mut i = 0;
    while i < l.len() {
        let first = past::<false>(l, i);
        let next = past::<true>(l, first);
        let gap = i * inner;
        let start = first * inner;
        let end = next * inner;
        let stop = from + (end - start);
        copying::fill_run(0, &mut out[gap..start]);
        copying::copy_run(&r[from..stop], &mut out[start..end]);
        from = stop;
        i = next;
    }
}

// x at ones, zeros elsewhere. In one loop: with a fill of zeros first there would be the same loop after it. Apart from `expand_line`, which takes the next
// element of R at each one: a function of both would count the elements of a scalar, too.
pub fn spread(x: i32, l: &[i32], out: &mut [i32])
    requires { length l.now ≤ length out.old }
    ensures { out.new ≡ filled (λ i. cond (one_at l.now i) x (pos 0)) (length l.now) out.old }
{
    for (i, z) in l.iter().enumerate() {
        if *z == 1 {
            out[i] = x;
        } else {
            out[i] = 0;
        }
    }
}
