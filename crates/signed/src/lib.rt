// Everything that looks at the sign of a number, so that callers see only numbers from 0 up.
#![tactic(auto)]

ghost use Rattle.std.specs.Prelude.{◌≡◌, cond, eqb, leb, pos, nat_abs, ◌-ℤ◌, Some, None};
ghost use Rattle.meaning.specs.Terms.{negative, within, from_zero, modulo, int_same, is_bit};
ghost use Rattle.meaning.specs.Reply.{is_origin};

// The sign by its definition's name, which its callers' proofs cite.
pub fn negative(z: i32) -> bool
    ensures { result ≡ negative z }
{
    z < 0
}

// The number without its sign. A cast, since usize has no From<u32>; so below.
pub fn magnitude(z: i32) -> usize
    ensures { result ≡ nat_abs z }
{
    z.unsigned_abs() as usize
}

// Public, as is `is_one`, and so both stay with what they promise; the crates here write the operator.
pub fn same(x: i32, y: i32) -> bool
    ensures { result ≡ int_same x y }
{
    x == y
}

pub fn is_one(z: i32) -> bool
    ensures { result ≡ int_same z (pos 1) }
{
    z == 1
}

#[tactic(auto, using(crate::proofs::Equal::bit_bits))]
pub fn is_bit(z: i32) -> bool
    ensures { result ≡ is_bit z }
{
    z == 0 || z == 1
}

// By its own name, as the definitions have it: the contracts of calls speak of origins and not of bits.
pub fn is_origin(g: i32) -> bool
    ensures { result ≡ is_origin g }
{
    is_bit(g)
}

// The axis or the position that a number names, counted from zero: z less g.
pub fn from_zero(z: i32, g: i32) -> usize
    ensures { result ≡ from_zero g z }
{
    z.abs_diff(g) as usize
}

// The position that z names, if it is one of n.
pub fn position(z: i32, g: i32, n: usize) -> Option<usize>
    ensures { result ≡ cond (within (z -ℤ g) n) (Some (from_zero g z)) None }
{
    if z < g {
        return None;
    }
    let i = from_zero(z, g);
    if i < n { Some(i) } else { None }
}

// z mod n, never negative, and 0 for n = 0. From the magnitude: n is any usize, so rem_euclid is one of 128 bits, 27 ns for 3 where it was timed alone, and a
// rotate of 1,500 elements takes 154.
pub fn modulo(z: i32, n: usize) -> usize
    ensures { result ≡ cond (eqb n 0) 0 (modulo z n) }
{
    if n == 0 {
        return 0;
    }
    let m = magnitude(z);
    let negative = z < 0;
    if negative { n - 1 - (m - 1) % n } else { m % n }
}

// A length or a position as an element; 0 for one that is too large to be an element. No Option: callers have lengths within the limit,
// and would unwrap it.
pub fn element(n: usize) -> i32
    ensures { result ≡ cond (leb n 2147483647) (pos n) (pos 0) }
{
    i32::try_from(n).unwrap_or(0)
}
