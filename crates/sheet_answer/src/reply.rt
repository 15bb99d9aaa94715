// The output for a line: written only if all of it fits. The functions take the line's number and the text apart, since a struct of the two would be made
// for one call each; and they give how many bytes are written and not those bytes, as the public functions promise. What is printed stands in each
// contract, by `count` and `text`, and by `room` that it is no longer than the longest line: it is another line each time, so that no type holds it.
ghost use Rattle.std.specs.Prelude.{◌≡◌, ◌≤◌, ◌<◌, length};
ghost use Rattle.shape.specs.Shape.{max_rank, max_count};
ghost use Rattle.sheet_line.specs.Call.{max_line, max_held};
ghost use Rattle.sheet_answer.specs.Answer.{ok_line, no_line, result_in, reply_line, CountIfFits, printed_to};

use crate::print::{Part, Writer, parts_width, width};
use shape::Shape;

// A refusal, by its number, which may be any.
pub fn print_no(line: usize, refusal: usize, text: &mut [u8]) -> Option<usize>
    ensures count { CountIfFits result (no_line line refusal) text.old }
    ensures text { text.new ≡ printed_to (no_line line refusal) text.old }
{
    let need = width(line) + width(refusal) + 5;
    if text.len() < need {
        return None;
    }
    let mut answer = Writer::new(text, need);
    answer.put_byte(b'\n');
    answer.put_part(refusal);
    answer.put_word(b" no");
    answer.put_digits(line);
    Some(need)
}

// A success: its lengths and its elements. The type `Formed` of `answer` would hold the limits on both, but for this one call from `print_ok` it would be
// made and taken apart again.
fn print_array(line: usize, lens: &[usize], out: &[i32], text: &mut [u8]) -> Option<usize>
    requires { (length lens.now ≤ max_rank) × (length out.now ≤ max_count) }
    ensures count { CountIfFits result (ok_line line (record { lengths = lens.now; elements = out.now })) text.old }
    ensures text { text.new ≡ printed_to (ok_line line (record { lengths = lens.now; elements = out.now })) text.old }
    ensures room { length out.now ≤ max_held → length (ok_line line (record { lengths = lens.now; elements = out.now })) ≤ max_line }
{
    let rank = lens.len();
    let need = width(line) + width(rank) + parts_width(lens) + parts_width(out) + 5;
    if text.len() < need {
        return None;
    }
    let mut answer = Writer::new(text, need);
    answer.put_byte(b'\n');
    answer.put_parts(out);
    answer.put_parts(lens);
    answer.put_part(rank);
    answer.put_word(b" ok");
    answer.put_digits(line);
    Some(need)
}

// A success: nothing for a shape or a buffer that no reply has, whose line has no bytes. That is Some(0), since None says that a line is too long. A bad
// shape is told by its count, as `Shape::count` tells it. It goes on to `print_array` with slices, of which that one's contract speaks.
pub fn print_ok(line: usize, shape: Shape, out: &[i32], text: &mut [u8]) -> Option<usize>
    ensures count { CountIfFits result (reply_line line 0 (result_in shape out.now)) text.old }
    ensures text { text.new ≡ printed_to (reply_line line 0 (result_in shape out.now)) text.old }
    ensures room { length out.now ≤ max_held → length (reply_line line 0 (result_in shape out.now)) ≤ max_line }
{
    let count = shape.count();
    if Shape::MAX_COUNT < count || out.len() < count {
        return Some(0);
    }
    print_array(line, &shape.lens[..shape.rank], &out[..count], text)
}
