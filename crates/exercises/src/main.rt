// Paper 01's exercises through the numbered entry point, and the leading item, its sister and the successor, printed.
#![tactic(auto)]

use answer::{Answer, Operand, Refusal};
use shape::{Place, Shape};
use std::io;

// An operand of any lengths, in an array of eight as C has a shape.
fn array<'a>(lengths: &[usize], elements: &'a [i32]) -> Operand<'a> {
    let mut lens = [0; Shape::MAX_RANK];
    for (length, given) in lens.iter_mut().zip(lengths) {
        *length = *given;
    }
    let rank = lengths.len();
    Operand {
        shape: Shape { rank, lens },
        elements,
    }
}

fn scalar<'a>(elements: &'a [i32]) -> Operand<'a> {
    array(&[], elements)
}

fn vector<'a>(elements: &'a [i32]) -> Operand<'a> {
    array(&[elements.len()], elements)
}

// A call of a primitive, and how many elements its output buffer has.
#[derive(Drop)]
struct Call<'a> {
    primitive: i32,
    g: i32,
    k: i32,
    left: Operand<'a>,
    right: Operand<'a>,
    room: usize,
}

impl<'a> Call<'a> {
    // Of one operand, with G 1. L is not looked at, but `kernel::call` takes two operands as C's call does: an empty vector stands there.
    fn one(primitive: i32, k: i32, right: Operand<'a>, room: usize) -> Call<'a> {
        Call {
            primitive,
            g: 1,
            k,
            left: vector(&[]),
            right,
            room,
        }
    }

    // Of two operands with G and K 1, L a vector.
    fn two(primitive: i32, l: &'a [i32], right: Operand<'a>, room: usize) -> Call<'a> {
        Call {
            primitive,
            g: 1,
            k: 1,
            left: vector(l),
            right,
            room,
        }
    }

    // Of two vectors.
    fn vectors(primitive: i32, l: &'a [i32], r: &'a [i32], room: usize) -> Call<'a> {
        Call::two(primitive, l, vector(r), room)
    }

    // With G 0.
    fn from_zero(self) -> Call<'a> {
        Call { g: 0, ..self }
    }

    // Makes the call and prints the reply as line `line`.
    fn show(&self, rt: &impl Print, line: u64) -> io::Result<()> {
        let mut held = [0i32; Shape::MAX_COUNT];
        let out = &mut held[..self.room.min(Shape::MAX_COUNT)];
        let reply = kernel::call(self.primitive, self.g, self.k, &self.left, &self.right, out);
        print(rt, line, reply, out)
    }
}

// Prints a reply; of a result too long to print only the count. `print_reply` takes any number and shape, where a Result would ask more of its callers, and
// writes to a buffer of theirs, since it has no heap: so the reply is an answer again here, and the text has its length beside it.
fn print(rt: &impl Print, line: u64, reply: Result<Shape, Refusal>, out: &[i32]) -> io::Result<()> {
    let answer = Answer::from(reply);
    let mut text = [0u8; 256];
    match sheet_answer::print_reply(line, answer.number, answer.shape, out, &mut text) {
        Some(n) => rt.write_all(&text[..n]),
        None => {
            let count = answer.shape.count();
            println!(rt; "{line} accepted, elements {count}")
        }
    }
}

// The exercises of the paper, and from 22 on the primitives that none of them names.
fn calls(rt: &impl Print) -> io::Result<()> {
    let four = || vector(&[1, 2, 3, 4]);
    let five = || scalar(&[5]);
    let block = || array(&[2, 3], &[1, 2, 3, 4, 5, 6]);
    let calls = [
        Call::vectors(25, &[-1], &[1, 2, 3, 4], 4),
        Call::vectors(25, &[-2147483648], &[1, 2, 3], 3),
        Call::one(14, 1, four(), 4),
        Call::vectors(23, &[-3], &[5, 6], 3),
        Call::vectors(24, &[-1], &[5, 6, 7], 3),
        Call::vectors(24, &[9], &[5, 6, 7], 3),
        Call::one(15, 1, block(), 6),
        Call::two(26, &[0, 0], block(), 6).from_zero(),
        Call::two(26, &[1, 1], block(), 6).from_zero(),
        Call::two(27, &[1, 1, 0, 1, 0], five(), 5),
        Call::two(28, &[1, 0, 1], five(), 3),
        Call::vectors(28, &[1, 0, 1], &[5], 3),
        Call::two(21, &[2, 2], array(&[0], &[9]), 4),
        Call::vectors(29, &[7, 8, 7], &[7, 9], 2),
        Call::one(13, 1, scalar(&[16384]), Shape::MAX_COUNT),
        Call::one(13, 1, scalar(&[16385]), Shape::MAX_COUNT),
        Call::one(14, -2147483648, vector(&[1, 2]), 2),
        Call::one(12, 1, four(), 3),
        Call::one(12, 1, four(), 4),
        Call::one(12, 1, array(&[1; Shape::MAX_RANK], &[7]), 1),
        Call::one(12, 1, array(&[1; Shape::MAX_RANK + 1], &[7]), 1),
        Call::one(11, 1, block(), 2),
        Call::vectors(22, &[1, 2], &[3], 3),
        Call::vectors(30, &[7, 9], &[7, 8, 7], 2),
        Call::vectors(31, &[3, 1], &[5, 6, 7], 2),
        Call::vectors(99, &[1], &[5, 6, 7], 3),
    ];
    for (line, call) in (1..).zip(calls.iter()) {
        call.show(rt, line)?;
    }
    Ok(())
}

fn items(rt: &impl Print) -> io::Result<()> {
    let block = array(&[2, 3], &[1, 2, 3, 4, 5, 6]);
    let part = items::leading_item(1, 2, &block);
    print(rt, 27, items::item_shape(1, 2, &block), part)?;
    print(rt, 28, items::item_shape(1, 3, &block), part)
}

// The places of lengths 2 3 from the first on, each by its two positions. A place is as C has it: eight positions, and a flag for the end.
fn places(rt: &impl Print) -> io::Result<()> {
    let shape = array(&[2, 3], &[]).shape;
    let mut place = Place {
        positions: [0; Shape::MAX_RANK],
        end: false,
    };
    for _ in 0..8 {
        if place.end {
            return println!(rt; "end");
        }
        let row = place.positions[0];
        let column = place.positions[1];
        println!(rt; "{row} {column}")?;
        place = place.successor(shape);
    }
    Ok(())
}

fn main(rt: HostRuntime) -> io::Result<()> {
    calls(&rt)?;
    items(&rt)?;
    places(&rt)
}
