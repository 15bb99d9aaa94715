// The numbers of a line, from left to right.
ghost use Rattle.std.specs.Prelude.{◌≡◌, ◌<◌, ◌↔◌, false, Bool, List, [], ℤ, IsTrue};
ghost use Rattle.std.proofs.Math.Option.{Option, some};
ghost use Rattle.sheet_line.specs.Numbers.{and_then, Begun, digit_of, first, ended, scan, numbers};
ghost use Rattle.sheet_line.specs.Call.{next_number};
ghost use Rattle.sheet_line.specs.Steps.{left, found, with_rest, with_sign, Takes};

use std::marker::Model;

// What is left of a line, seen as the numbers there. After a blank a number must follow; after the last number nothing is left.
#[derive(Drop)]
pub struct Reader<'a> {
    pub rest: Option<&'a [u8]>,
}

impl<'a> Model for Reader<'a> {
    ghost Value = { Option (List ℤ) };

    ghost view = { λ r. left r.rest };
}

// The number of a sign and a magnitude. The least number has no opposite in 32 bits. The sign comes as a bool, since the text says it: as a
// const parameter it would be chosen in `number` all the same, for two copies of `from_digit`.
fn whole(negative: bool, magnitude: u32) -> Option<i32>
    ensures { ended (Begun.magnitude negative magnitude) ≡ found result }
{
    if negative {
        0i32.checked_sub_unsigned(magnitude)
    } else {
        0i32.checked_add_unsigned(magnitude)
    }
}

fn digit_value(b: u8) -> Option<u32>
    ensures { digit_of b ≡ found result }
{
    if b.is_ascii_digit() {
        Some(u32::from(b - b'0'))
    } else {
        None
    }
}

impl<'a> Reader<'a> {
    pub fn new(line: &'a [u8]) -> Reader<'a>
        ensures { result ≡ numbers line.now }
    {
        Reader { rest: Some(line) }
    }

    pub fn at_end(&self) -> bool
        ensures { IsTrue result ↔ (self.now ≡ some []) }
    {
        self.rest.is_none()
    }

    // What follows a 0: the number ends here. `rest` stands beside the Reader here and below: in it, it is an Option, which each would take apart again.
    fn after_zero(&mut self, rest: &'a [u8]) -> Option<i32>
        ensures { and_then (scan (Begun.magnitude false 0) rest.now) next_number ≡ with_rest self.new result }
    {
        let Some((next, more)) = rest.split_first() else {
            self.rest = None;
            return Some(0);
        };
        if *next != b' ' {
            return None;
        }
        self.rest = Some(more);
        Some(0)
    }

    // The magnitude from the digits after the first one, which is not 0. One that is too large stays so.
    fn after_digit(&mut self, first: u32, rest: &'a [u8]) -> Option<u32>
        requires { 0 < first }
        ensures { (negative : Bool)
            → and_then (scan (Begun.magnitude negative first) rest.now) next_number ≡ with_sign negative self.new result }
    {
        let mut n = first;
        for (i, b) in rest.iter().enumerate() {
            let Some(d) = digit_value(*b) else {
                if *b != b' ' {
                    return None;
                }
                self.rest = Some(&rest[i + 1..]);
                return Some(n);
            };
            // One test a digit; `checked_mul` and `checked_add` are two.
            n = u32::try_from(u64::from(n) * 10 + u64::from(d)).ok()?;
        }
        self.rest = None;
        Some(n)
    }

    // A number from its first digit on, whose byte is b. Inlined: where its code ends is where `operand` begins, and 16 bytes further the loop's jumps end
    // on borders of 32 bytes, so that a line of zeros takes 1.6 times as long.
    #[inline(always)]
    fn from_digit(&mut self, negative: bool, b: u8, rest: &'a [u8]) -> Option<i32>
        ensures { and_then (and_then (first negative b) (λ t. scan t rest.now)) next_number ≡ with_rest self.new result }
    {
        let d = digit_value(b)?;
        if 0 < d {
            let magnitude = self.after_digit(d, rest)?;
            return whole(negative, magnitude);
        }
        if negative {
            return None;
        }
        self.after_zero(rest)
    }

    // The next number, digit by digit: `parse` asks for a str, and takes `+7`, `007` and `-0`, too, where a sheet has one text for each number.
    // Inlined: with a call for each number a line of two-digit numbers takes 1.6 times as long.
    #[inline(always)]
    pub fn number(&mut self) -> Option<i32>
        ensures { Takes next_number self.old self.new result }
    {
        let (b, rest) = self.rest?.split_first()?;
        // A 0 needs no value as a digit: by `from_digit` a line of zeros takes 1.28 of the instructions.
        if *b == b'0' {
            return self.after_zero(rest);
        }
        if *b != b'-' {
            return self.from_digit(false, *b, rest);
        }
        let (b, rest) = rest.split_first()?;
        self.from_digit(true, *b, rest)
    }
}
