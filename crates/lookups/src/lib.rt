// Elements that are looked for among others: index of and member.
#![tactic(auto)]

ghost use Rattle.std.specs.Prelude.{◌≡◌, ◌*◌, ◌≤◌, false, length, ℤ, pos, MatchOption};
ghost use Rattle.shape.specs.Shape.{max_count};
ghost use Rattle.meaning.specs.Reply.{reply};
ghost use Rattle.answer.specs.Answer.{Replied};
ghost use Rattle.answer.specs.Refused.{answered};
ghost use Rattle.lookups.specs.Steps.{entry, Looks, Entered, AllEntered, Finds, Passed};

use answer::{Operand, Refusal};
use shape::Shape;

mod table;

use table::Chains;

// As each primitive, both ask what is early, their own, what is late, and put the elements. By `?` that frame is a line a step: a function for it would take
// what stands between as closures. Both take of a call what they look at: a struct of it would hand them a K as well, for every one of which they promise the
// same.

// 29, whatever K is: it is not looked at.
pub fn index_of(g: i32, l: &Operand<'_>, r: &Operand<'_>, out: &mut [i32]) -> Result<Shape, Refusal>
    ensures { (K : ℤ) → Replied (answered result) out.new (reply (pos 29) g K l.now r.now out.old) }
{
    let (l, r) = answer::early_two(g, l, r)?;
    if l.rank() != 1 {
        return Err(Refusal::Rank);
    }
    answer::late(r.count(), out.len())?;
    let first = signed::magnitude(g);
    put_each::<false>(first, l.elements(), r.elements(), out);
    Ok(r.shape.as_result())
}

// 30, whatever K is: it is not looked at.
pub fn member(g: i32, l: &Operand<'_>, r: &Operand<'_>, out: &mut [i32]) -> Result<Shape, Refusal>
    ensures { (K : ℤ) → Replied (answered result) out.new (reply (pos 30) g K l.now r.now out.old) }
{
    let (l, r) = answer::early_two(g, l, r)?;
    answer::late(l.count(), out.len())?;
    put_each::<true>(0, r.elements(), l.elements(), out);
    Ok(l.shape.as_result())
}

// What is written for each element of r, looked for in l: whether l has it, or its first position counted from `first`. The choice is a constant all
// the way down, so that the compiler makes a loop for each: one loop for both, or an enum in the constant's place, took a tenth longer.
// `Looks` is asked and `AllEntered` promised here and by both that are called: a struct of `first` and l would hold two facts of `Looks`; all else is of r
// and out, of which the second is lent the rest.
fn put_each<const BITS: bool>(first: usize, l: &[i32], r: &[i32], out: &mut [i32])
    requires { Looks first l.now r.now (length out.old) }
    ensures { AllEntered BITS first l.now r.now out.old out.new }
{
    if let Some(done) = put_searched::<BITS>(first, l, r, out) {
        let m = r.len();
        put_hashed::<BITS>(first, l, &r[done..m], &mut out[done..m]);
    }
}

// So few elements never pay for a table: three that a list of 16384 does not have take 5 us, and seventeen, with a table for all but two, 23.
const FEW: usize = 16;

// Elements that a search may pass over before a table is made. To pass over as many as a list can have takes about as long as clearing the table.
fn tests_allowed(m: usize) -> usize
    ensures { result ≤ 16 * max_count }
{
    if m <= FEW {
        FEW * Shape::MAX_COUNT
    } else {
        Shape::MAX_COUNT
    }
}

// The elements of r, each searched for by itself, until a table would have paid: then how many they are. This loop counts tests and ends early, which
// that of put_hashed does not. A function of its own: as a part of its caller, where the loop's jumps fall on borders of 32 bytes, member of a scalar takes 1.2
// to 1.7 times as long.
#[inline(never)]
fn put_searched<const BITS: bool>(
    first: usize,
    l: &[i32],
    r: &[i32],
    out: &mut [i32],
) -> Option<usize>
    requires { Looks first l.now r.now (length out.old) }
    ensures { MatchOption result (AllEntered BITS first l.now r.now out.old out.new)
        (λ n. Entered BITS first l.now r.now out.old out.new n) }
{
    let allowed = tests_allowed(r.len());
    let mut tests = 0;
    for (j, x) in r.iter().enumerate() {
        if allowed < tests {
            return Some(j);
        }
        let at = position(l, *x).unwrap_or(l.len());
        out[j] = entry::<BITS>(first, l.len(), at);
        tests += at;
    }
    None
}

// Every element of r, looked for along its bucket's chain. A function of its own: as a part of its caller its table would be on the stack of every call.
#[inline(never)]
fn put_hashed<const BITS: bool>(first: usize, l: &[i32], r: &[i32], out: &mut [i32])
    requires { Looks first l.now r.now (length out.old) }
    ensures { AllEntered BITS first l.now r.now out.old out.new }
{
    let mut heads = [table::NONE; table::BUCKETS];
    let mut links = [table::NONE; Shape::MAX_COUNT];
    let chains = Chains::link(l, &mut heads, &mut links);
    for (j, x) in r.iter().enumerate() {
        let at = chains.look(*x);
        out[j] = entry::<BITS>(first, l.len(), at);
    }
}

// What is written for an element whose first position among n is `at`, or for none where it is n, as `look` has it. The cast loses nothing, since a list
// is short: `try_from` would be a Result of what cannot fail.
fn entry<const BITS: bool>(first: usize, n: usize, at: usize) -> i32
    requires { (first ≤ 1) × (at ≤ max_count) }
    ensures { result ≡ entry BITS first n at }
{
    if BITS {
        return i32::from(at < n);
    }
    (first + at) as i32
}

// Elements at the front that are tested one by one, and elements of a block of those after them. What has these names in other crates is of other
// loops; each has one value, so that none is a parameter.
const NEAR: usize = 8;

const BLOCK: usize = 16;

// The first position that holds x. l and x stay two parameters in these: each call is of another part of l, for which a struct of both would be made
// anew, and each promises the same of its part.
fn position(l: &[i32], x: i32) -> Option<usize>
    ensures { Finds x l.now result }
{
    let Some((near, rest)) = l.split_at_checked(NEAR) else {
        return first_at(l, x);
    };
    if let Some(at) = first_at(near, x) {
        return Some(at);
    }
    Some(NEAR + position_from(rest, x)?)
}

// The same, from the first block that has x on. The sheet looks for a newline so, in bytes: one function generic over both would have the laws of `==` as
// its contract, and a proof at each call of what they mean there.
fn position_from(l: &[i32], x: i32) -> Option<usize>
    ensures { Finds x l.now result }
{
    let start = passed(l, x);
    Some(start + first_at(&l[start..], x)?)
}

// The same, element by element. A `for`, and not `position`, whose proof did not close: of the items of a chain none knows that they are numbers of 32
// bits.
fn first_at(l: &[i32], x: i32) -> Option<usize>
    ensures { Finds x l.now result }
{
    for (i, y) in l.iter().enumerate() {
        if x == *y {
            return Some(i);
        }
    }
    None
}

// Blocks that do not have x are passed over.
fn passed(l: &[i32], x: i32) -> usize
    ensures { Passed x l.now result }
{
    let mut start = 0;
    for block in l.chunks_exact(BLOCK) {
        if may_have(block, x) {
            return start;
        }
        start += BLOCK;
    }
    start
}

// Whether l has x.
fn may_have(l: &[i32], x: i32) -> bool
    ensures { result ≡ false → Passed x l.now (length l.now) }
{
    l.contains(&x)
}
