// One line of a sheet, read as a call.
#![tactic(auto)]

mod numbers;
mod operand;

ghost use Rattle.std.specs.Prelude.{◌≡◌, length, option_map, IsSome};
ghost use Rattle.sheet_line.specs.Call.{head, line_call, read_of, left_of, right_of, front, room};
ghost use Rattle.sheet_line.specs.Steps.{Takes, head_of};

use numbers::Reader;
use shape::Shape;

// The longest line, in bytes, without its newline.
pub const MAX_LINE: usize = 16384;

// The largest length and count on a line.
pub const MAX_HELD: usize = 1024;

// Primitive, origin and axis number K.
#[derive(Clone, Copy)]
struct Head {
    primitive: i32,
    origin: i32,
    k: i32,
}

impl<'a> Reader<'a> {
    fn head(&mut self) -> Option<Head>
        ensures { Takes head self.old self.new (option_map head_of result) }
    {
        let primitive = self.number()?;
        let origin = self.number()?;
        let k = self.number()?;
        Some(Head {
            primitive,
            origin,
            k,
        })
    }
}

// What a line says: a call's primitive, origin, K and the shapes of its operands.
#[derive(Clone, Copy)]
pub struct Call {
    pub primitive: i32,
    pub origin: i32,
    pub k: i32,
    pub left: Shape,
    pub right: Shape,
}

// The elements of L go to the front of l, those of R to the front of r. What l and r hold after a bad line is not decided.
pub fn read_line(line: &[u8], l: &mut [i32], r: &mut [i32]) -> Option<Call>
    ensures answer { result ≡ read_of (line_call (room l.old) (room r.old) line.now) }
    ensures left { IsSome result
        → l.new ≡ front (left_of (line_call (room l.old) (room r.old) line.now)) l.old }
    ensures right { IsSome result
        → r.new ≡ front (right_of (line_call (room l.old) (room r.old) line.now)) r.old }
    ensures lengths { (length l.new ≡ length l.old) × (length r.new ≡ length r.old) }
{
    if MAX_LINE < line.len() {
        return None;
    }
    let mut reader = Reader::new(line);
    let Head {
        primitive,
        origin,
        k,
    } = reader.head()?;
    let left = reader.operand(l)?;
    let right = reader.operand(r)?;
    if !reader.at_end() {
        return None;
    }
    Some(Call {
        primitive,
        origin,
        k,
        left,
        right,
    })
}
