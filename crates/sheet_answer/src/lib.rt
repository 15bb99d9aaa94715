// The answer to one line of a sheet, printed.
#![tactic(auto)]

mod print;
mod reply;

ghost use Rattle.std.specs.Prelude.{◌≡◌, ◌≤◌, length};
ghost use Rattle.sheet_line.specs.Call.{max_line, max_held};
ghost use Rattle.sheet_answer.specs.Answer.{bad_line, result_in, reply_line, CountIfFits, printed_to};

use print::{Writer, width};
use reply::{print_no, print_ok};
use shape::Shape;

// The answer to a bad line: how many bytes were written, or None where it does not fit the text.
pub fn print_bad(line_number: u64, text: &mut [u8]) -> Option<usize>
    ensures count { CountIfFits result (bad_line line_number) text.old }
    ensures text { text.new ≡ printed_to (bad_line line_number) text.old }
{
    let line = line_number as usize; // usize has no From<u64>.
    let need = width(line) + 5;
    if text.len() < need {
        return None;
    }
    let mut answer = Writer::new(text, need);
    answer.put_word(b" bad\n");
    answer.put_digits(line);
    Some(need)
}

// The answer to a call's reply. `number` is the reply's, not the line's: 0 for a success, of that shape and with its elements in `out`, else the refusal's.
// A number and no Result or Refusal: it may be any, and a Result would ask more of callers. With a buffer of no more elements than the program's the
// answer is no longer than the longest line.
pub fn print_reply(
    line_number: u64,
    number: usize,
    shape: Shape,
    out: &[i32],
    text: &mut [u8],
) -> Option<usize>
    ensures count { CountIfFits result (reply_line line_number number (result_in shape out.now)) text.old }
    ensures text { text.new ≡ printed_to (reply_line line_number number (result_in shape out.now)) text.old }
    ensures room { length out.now ≤ max_held → length (reply_line line_number number (result_in shape out.now)) ≤ max_line }
{
    let line = line_number as usize; // usize has no From<u64>.
    if number == 0 {
        return print_ok(line, shape, out, text);
    }
    print_no(line, number, text)
}
