// An operand of a line: rank, lengths, elements.
ghost use Rattle.std.specs.Prelude.{◌≡◌, ◌≤◌, true, length, take, option_map, IfSome};
ghost use Rattle.shape.specs.Shape.{counted, shape_of, small};
ghost use Rattle.sheet_line.specs.Call.{max_held, next_number, natural, many, operand, front, room};
ghost use Rattle.sheet_line.specs.Steps.{Takes, held_in};

use crate::MAX_HELD;
use crate::numbers::Reader;
use shape::Shape;

impl<'a> Reader<'a> {
    // A number from 0 to `most`.
    fn natural(&mut self, most: usize) -> Option<usize>
        ensures taken { Takes (natural most) self.old self.new result }
        ensures bound { IfSome result (λ n. n ≤ most) }
    {
        let n = usize::try_from(self.number()?).ok()?;
        if n <= most { Some(n) } else { None }
    }

    fn lengths(&mut self, lens: &mut [usize]) -> Option<()>
        ensures taken { Takes (many (natural max_held) (length lens.old)) self.old self.new (option_map (λ u. lens.new) result) }
        ensures bound { IfSome result (λ u. small lens.new ≡ true) }
    {
        for n in lens.iter_mut() {
            *n = self.natural(MAX_HELD)?;
        }
        Some(())
    }

    // A loop beside that of `lengths`: one over both types takes a trait with two impls, which is longer.
    fn elements(&mut self, out: &mut [i32]) -> Option<()>
        ensures { Takes (many next_number (length out.old)) self.old self.new (option_map (λ u. out.new) result) }
    {
        // One of its own, since what is behind a reference stays in memory: so a line of zeros takes 1.16 of the instructions.
        let mut reader = Reader { rest: self.rest };
        for z in out.iter_mut() {
            *z = reader.number()?;
        }
        *self = reader;
        Some(())
    }

    // The elements go to the front of `out`; what it holds where there is no operand is not decided. The shape says how many they are: a part of `out`
    // as the result would be lent as long as the call is, and `read_line` could not say what the buffers hold when it returns.
    pub fn operand(&mut self, out: &mut [i32]) -> Option<Shape>
        ensures taken { Takes (operand (room out.old)) self.old self.new (option_map (held_in out.new) result) }
        ensures shape { IfSome result (λ s. s ≡ shape_of (counted s)) }
        ensures stored { IfSome result (λ s. out.new ≡ front (held_in out.new s).elements out.old) }
    {
        let rank = self.natural(Shape::MAX_RANK)?;
        let mut lens = [0; Shape::MAX_RANK];
        self.lengths(&mut lens[..rank])?;
        let shape = Shape::of_lengths(rank, lens);
        let count = shape.count();
        if MAX_HELD.min(out.len()) < count {
            return None;
        }
        self.elements(&mut out[..count])?;
        Some(shape)
    }
}
