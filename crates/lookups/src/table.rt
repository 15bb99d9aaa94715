// A hash table with chains of a list's positions, so that an element is looked for among a few. Each value belongs to one bucket, and the
// positions of a bucket's chain rise: the first that holds a value is the value's first position.
ghost use Rattle.std.specs.Prelude.{◌≡◌, ◌<◌, List, ℤ};
ghost use Rattle.meaning.specs.Terms.{first_at};
ghost use Rattle.lookups.specs.Steps.{buckets, hash_of, Empty, Table, OnChain, Finds};

use shape::Shape;
use std::marker::Model;

pub const BUCKETS: usize = 65536;

// After the last position of a chain. An Option<u16> takes four bytes, so that the table would take 320 KB of the stack and not 160.
pub const NONE: u16 = 65535;

// A chain is followed for one step to so many elements of the list, which takes less time than to search the list.
const ELEMENTS_TO_A_STEP: usize = 64;

// Multiplicative hashing (Knuth, The Art of Computer Programming, vol. 3, 6.4): 2^32 divided by the golden ratio, rounded to an odd number.
const FACTOR: u32 = 2654435769;

// The bucket of a value: the upper sixteen bits of a product of 32. A cast, since usize has no From<u32>.
fn hash(x: i32) -> usize
    ensures { (result ≡ hash_of x) × (result < buckets) }
{
    let key = x.abs_diff(i32::MIN);
    (key.wrapping_mul(FACTOR) >> 16) as usize
}

// A list with each bucket's first position, and after each position the next of its chain: arrays that the caller lends, since the kernel has no heap for
// a map. `look` and `follow` give the list a name, since each reads it again and again.
#[derive(Drop)]
pub struct Chains<'a> {
    l: &'a [i32],
    heads: &'a [u16; BUCKETS],
    links: &'a [u16; Shape::MAX_COUNT],
}

impl<'a> Model for Chains<'a> {
    ghost Value = { List ℤ };

    ghost view = { λ c. c.l.now };

    ghost invariant = { λ c. Table c.l.now c.heads.now c.links.now };
}

impl<'a> Chains<'a> {
    // Every position of l is put in front of its chain, the last position first.
    pub fn link(
        l: &'a [i32],
        heads: &'a mut [u16; BUCKETS],
        links: &'a mut [u16; Shape::MAX_COUNT],
    ) -> Chains<'a>
        requires { Empty l.now heads.old links.old }
        ensures { result ≡ l.now }
    {
        for i in (0..l.len()).rev() {
            let h = hash(l[i]);
            links[i] = heads[h];
            // The cast loses nothing: a list has no position past u16's.
            heads[h] = i as u16;
        }
        Chains { l, heads, links }
    }

    // The first position that holds x, the length where none does. The one branch is for a chain with a second position whose first does not hold x: with
    // `follow` alone, whose branches are guessed wrong for random values, index of and member of 16384 of them take twice as long. An Option is made by
    // a branch, too: index of the same takes 2.1 times as long.
    pub fn look(&self, x: i32) -> usize
        ensures { result ≡ first_at x self.now }
    {
        let l = self.l;
        let n = l.len();
        if n == 0 {
            return 0;
        }
        let p = usize::from(self.heads[hash(x)]);
        let q = p.min(n - 1);
        let next = usize::from(self.links[q]);
        let found = x == l[q];
        let skip = if found { n } else { 0 };
        let at = if found { q } else { n };
        if next + skip < n {
            return self.follow(x, p).unwrap_or(n);
        }
        at
    }

    // Looks along x's chain from its first position on. Where the chain is long the list is searched instead.
    fn follow(&self, x: i32, first: usize) -> Option<usize>
        requires { OnChain self.now x first }
        ensures { Finds x self.now result }
    {
        let l = self.l;
        let n = l.len();
        let mut p = first;
        let mut left = n / ELEMENTS_TO_A_STEP;
        // A while: the next position is the chain's, and no index is counted. `left` is no range: a `for` would search where the chain ends with its last step.
        while p < n {
            if x == l[p] {
                return Some(p);
            }
            if left == 0 {
                return crate::position_from(l, x);
            }
            left -= 1;
            p = usize::from(self.links[p]);
        }
        None
    }
}
