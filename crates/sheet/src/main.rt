// The sheet program: reads lines from standard input and answers each on standard output.
#![tactic(auto)]

ghost use Rattle.std.specs.Prelude.{◌≡◌, ◌==◌, List, [], ◌∷◌, ◌++◌, ℕ, Some, ◌+◌, ◌-◌, ◌≤◌, length, option_map, IsTrue, ◌↔◌, OnOk, IfErr};
ghost use Rattle.std.specs.List.{position};
ghost use Rattle.std.specs.Io.KnownBytes.{Appends, Consumes};
ghost use Rattle.sheet_line.specs.Text.{newline};
ghost use Rattle.sheet_line.specs.Call.{max_line};
ghost use Rattle.sheet_answer.specs.Answer.{bad_line, reply_line, result_in};
ghost use Rattle.sheet_answer.specs.Sheet.{sheet_answer};
ghost use Rattle.sheet.specs.Lines.{next, lines_from};
ghost use Rattle.sheet.specs.Waiting.{Holds, Took};
ghost use Rattle.sheet.specs.Steps.{newlines};
ghost use Rattle.sheet.specs.Sent.{Sent, Short};
ghost use Rattle.sheet.specs.Run.{last_answer, ShortIn, Ends};
ghost use Rattle.sheet.specs.declared.Failure.TheVariants.{Unwritten};

use answer::{Answer, Operand};
use sheet_line::{MAX_HELD, MAX_LINE};
use std::io::{ErrorKind, Read, Write};
use std::marker::Model;
use std::process::ExitCode;

// A write failed, after which nothing is answered or written: the last line whose answer was handed over whole, and whether the reader of the answers
// went away. A flag, and no enum of the two: `whole` counts in both ways, and each contract speaks of it, so that each variant would have to give it.
#[derive(Clone, Copy)]
struct Stopped {
    whole: u64,
    gone: bool,
}

// Why a run ends before each line is answered: a read failed, with the last line whose answer was handed over whole, or a write.
#[derive(Clone, Copy)]
enum Failure {
    Unread(u64),
    Unwritten(Stopped),
}

impl From<Stopped> for Failure {
    ghost from_gives = { λ s f. f ≡ Unwritten s };

    fn from(stopped: Stopped) -> Failure {
        Failure::Unwritten(stopped)
    }
}

fn count_newlines(text: &[u8]) -> u64
    ensures { result ≡ newlines text.now }
{
    text.iter().filter(|b| **b == b'\n').count() as u64 // u64 has no From<usize>.
}

// The last line whose answer was handed over whole, where line `line` is not yet answered and `unsent` is what was not handed over of the
// answers before it: each ends in a newline and has no other. 0 where there is none, and no Option: the message prints that number.
fn last_whole(line: u64, unsent: &[u8]) -> u64
    ensures { result ≡ line - 1 - newlines unsent.now }
{
    let answered = line.saturating_sub(1);
    answered.saturating_sub(count_newlines(unsent))
}

// Hands over a text that ends with the answer to the line before `line`. Where a write fails the rest is given up. The sink is a parameter here and
// below, and no part of a struct with the text: such a struct would borrow it, and each contract would have to say what the borrow leaves in the sink.
// `all` or `sent`, and `short`, stand in each contract for that reason too: they say what one call did to the sink.
fn handed_over<W: Write>(sink: &mut W, text: &[u8], line: u64) -> Result<(), Stopped>
    ensures all { OnOk result (Appends (W.contents sink.old) (W.contents sink.new) text.now) }
    ensures short { IfErr result (λ s. Short (W.contents sink.old) (W.contents sink.new) text.now line s.whole) }
{
    // A while: each write takes as many bytes as it will; and not `write_all`, which does not say how many it took before it failed.
    let mut rest = text;
    while !rest.is_empty() {
        let gone = match sink.write(rest) {
            Ok(n) if 0 < n => {
                rest = &rest[n..];
                continue;
            }
            Ok(_) => false,
            Err(e) => e.kind() == ErrorKind::BrokenPipe,
        };
        let whole = last_whole(line, rest);
        return Err(Stopped { whole, gone });
    }
    Ok(())
}

// So many bytes of answers wait at most.
const ROOM: usize = 65536;

// The text that waits to be written. An array and a length, here and below, and no Vec: a Vec could fail for want of memory, which no run does.
#[derive(Drop)]
struct Text {
    bytes: [u8; ROOM],
    len: usize,
}

impl Model for Text {
    ghost use Rattle.std.specs.Prelude.{List, ℕ, ◌≤◌, take};

    ghost Value = { List ℕ };

    ghost view = { λ t. take t.len t.bytes };

    ghost invariant = { λ t. t.len ≤ 65536 };
}

impl Text {
    // Writes what waits, up to the answer to the line before `line`.
    fn written<W: Write>(&mut self, sink: &mut W, line: u64) -> Result<(), Stopped>
        ensures none { OnOk result (self.new ≡ []) }
        ensures sent { OnOk result (Appends (W.contents sink.old) (W.contents sink.new) self.old) }
        ensures short { IfErr result (λ s. Short (W.contents sink.old) (W.contents sink.new) self.old line s.whole) }
    {
        handed_over(sink, &self.bytes[..self.len], line)?;
        self.len = 0;
        Ok(())
    }

    // Writes what waits, unless there is still room for the longest answer, which is no longer than the longest line. An `if` of its own: where a chunk
    // ends, what waits is written whatever the room is.
    fn flushed<W: Write>(&mut self, sink: &mut W, line: u64) -> Result<(), Stopped>
        ensures room { OnOk result (length self.new + max_line ≤ ROOM) }
        ensures sent { OnOk result (Sent (W.contents sink.old) (W.contents sink.new) self.old [] self.new) }
        ensures short { IfErr result (λ s. Short (W.contents sink.old) (W.contents sink.new) self.old line s.whole) }
    {
        if MAX_LINE <= ROOM - self.len {
            return Ok(());
        }
        self.written(sink, line)
    }

    // The answer to a bad line. That there is room holds from `flushed` to the next answer only, so the contracts ask for it, and no invariant does.
    fn put_bad(&mut self, line: u64)
        requires { length self.old + max_line ≤ ROOM }
        ensures { self.new ≡ self.old ++ bad_line line }
    {
        let start = self.len;
        let n = sheet_answer::print_bad(line, &mut self.bytes[start..ROOM]).unwrap();
        self.len += n;
    }

    // The answer to a call's reply. It is put as that to a bad line: one function for both would take the call that prints as a closure, of whose contract
    // its own would have to speak.
    fn put_reply(&mut self, line: u64, reply: Answer, out: &[i32; MAX_HELD])
        requires { length self.old + max_line ≤ ROOM }
        ensures { self.new ≡ self.old ++ reply_line line reply.number (result_in reply.shape out.now) }
    {
        let start = self.len;
        let n = sheet_answer::print_reply(
            line,
            reply.number,
            reply.shape,
            out,
            &mut self.bytes[start..ROOM],
        )
        .unwrap();
        self.len += n;
    }
}

// The bytes so far of the line that has begun; no length where they are too many for a line. Which bytes those were no field says then, so `Holds`
// stands in the contracts below, and in no invariant.
#[derive(Drop)]
struct Begun {
    bytes: [u8; MAX_LINE],
    len: Option<usize>,
}

impl Model for Begun {
    ghost use Rattle.std.specs.Prelude.{List, ℕ, ◌≤◌, take, Option, option_map, IfSome};
    ghost use Rattle.sheet_line.specs.Call.{max_line};

    ghost Value = { Option (List ℕ) };

    ghost view = { λ b. option_map (λ n. take n b.bytes) b.len };

    ghost invariant = { λ b. IfSome b.len (λ n. n ≤ max_line) };
}

impl Begun {
    fn is_empty(&self) -> bool
        ensures { IsTrue result ↔ (self.now ≡ Some []) }
    {
        matches!(self.len, Some(0))
    }

    fn bytes(&self) -> Option<&[u8]>
        ensures { option_map (λ bytes. bytes.now) result ≡ self.now }
    {
        let len = self.len?;
        Some(&self.bytes[..len])
    }

    // A run of bytes more.
    fn hold_run(&mut self, run: &[u8])
        ensures { (bytes : List ℕ) → Holds self.old bytes → Holds self.new (bytes ++ run.now) }
    {
        let Some(len) = self.len else {
            return;
        };
        if MAX_LINE - len < run.len() {
            self.len = None;
            return;
        }
        self.bytes[len..len + run.len()].copy_from_slice(run);
        self.len = Some(len + run.len());
    }

    fn clear(&mut self)
        ensures { self.new ≡ Some [] }
    {
        self.len = Some(0);
    }
}

// The next line's number, the answers that wait, and the buffers for a call's operands and its result.
#[derive(Drop)]
struct Answers {
    line: u64,
    text: Text,
    l: [i32; MAX_HELD],
    r: [i32; MAX_HELD],
    out: [i32; MAX_HELD],
}

impl Answers {
    // Writes what waits.
    fn write<W: Write>(&mut self, sink: &mut W) -> Result<(), Stopped>
        ensures none { OnOk result ((self.new.text ≡ []) × (self.new.line ≡ self.old.line)) }
        ensures sent { OnOk result (Appends (W.contents sink.old) (W.contents sink.new) self.old.text) }
        ensures short { IfErr result (λ s. Short (W.contents sink.old) (W.contents sink.new) self.old.text self.old.line s.whole) }
    {
        self.text.written(sink, self.line)
    }

    // The answer to a line follows the text that waits. A line that was too long to be held is bad.
    fn answer_line(&mut self, bytes: Option<&[u8]>)
        requires { length self.old.text + max_line ≤ ROOM }
        ensures line { self.new.line ≡ self.old.line }
        ensures text { (whole : List ℕ) → Holds (option_map (λ b. b.now) bytes.entry) whole
            → self.new.text ≡ self.old.text ++ sheet_answer self.old.line whole }
    {
        let Some(held) = bytes else {
            return self.text.put_bad(self.line);
        };
        let Some(read) = sheet_line::read_line(held, &mut self.l, &mut self.r) else {
            return self.text.put_bad(self.line);
        };
        let left = Operand {
            shape: read.left,
            elements: &self.l,
        };
        let right = Operand {
            shape: read.right,
            elements: &self.r,
        };
        let reply = kernel::call(
            read.primitive,
            read.origin,
            read.k,
            &left,
            &right,
            &mut self.out,
        );
        self.text
            .put_reply(self.line, Answer::from(reply), &self.out);
    }

    // A line is at its end, and the next one starts.
    fn end_line<W: Write>(&mut self, sink: &mut W, bytes: Option<&[u8]>) -> Result<(), Stopped>
        ensures line { OnOk result (self.new.line ≡ next self.old.line) }
        ensures sent { OnOk result ((whole : List ℕ) → Holds (option_map (λ b. b.now) bytes.entry) whole
            → Sent (W.contents sink.old) (W.contents sink.new) self.old.text (sheet_answer self.old.line whole) self.new.text) }
        ensures short { IfErr result (λ s. Short (W.contents sink.old) (W.contents sink.new) self.old.text self.old.line s.whole) }
    {
        self.text.flushed(sink, self.line)?;
        self.answer_line(bytes);
        self.line = self.line % 1000000000000000000 + 1;
        Ok(())
    }
}

// So many bytes are tested at a time.
const BLOCK: usize = 64;

// The place of the first newline. The block that has it is found first, since `contains` tests many bytes at a time: without, a sheet of long lines
// takes 1.08 of the time.
fn newline_in(bytes: &[u8]) -> Option<usize>
    ensures { result ≡ position (λ b. b == newline) bytes.now }
{
    let block = bytes
        .chunks(BLOCK)
        .position(|block| block.contains(&b'\n'))?;
    let rest = &bytes[block * BLOCK..];
    let place = rest.iter().position(|b| *b == b'\n')?;
    Some(block * BLOCK + place)
}

// A sheet that is read: the line that has begun, and the answers to those before it.
#[derive(Drop)]
struct Sheet {
    begun: Begun,
    answers: Answers,
}

impl Sheet {
    // Before the first line. No Default: that of an Option is None, which is a line too long here, and the first line is number 1.
    fn new() -> Sheet
        ensures { (result.begun ≡ Some []) × (result.answers.line ≡ 1) × (result.answers.text ≡ []) }
    {
        Sheet {
            begun: Begun {
                bytes: [0; MAX_LINE],
                len: Some(0),
            },
            answers: Answers {
                line: 1,
                text: Text {
                    bytes: [0; ROOM],
                    len: 0,
                },
                l: [0; MAX_HELD],
                r: [0; MAX_HELD],
                out: [0; MAX_HELD],
            },
        }
    }

    // The last run of a line. Where nothing is held of the line, as of most, it is answered where it lies, without a copy: an `if`, since the other way
    // has the same end.
    fn take_line<W: Write>(&mut self, sink: &mut W, run: &[u8]) -> Result<(), Stopped>
        ensures taken { OnOk result ((self.new.begun ≡ Some []) × (self.new.answers.line ≡ next self.old.answers.line)) }
        ensures sent { OnOk result ((bytes : List ℕ) → Holds self.old.begun bytes → Sent (W.contents sink.old) (W.contents sink.new)
            self.old.answers.text (sheet_answer self.old.answers.line (bytes ++ run.now)) self.new.answers.text) }
        ensures short { IfErr result
            (λ s. Short (W.contents sink.old) (W.contents sink.new) self.old.answers.text self.old.answers.line s.whole) }
    {
        if self.begun.is_empty() {
            return self.answers.end_line(sink, Some(run));
        }
        self.begun.hold_run(run);
        self.answers.end_line(sink, self.begun.bytes())?;
        self.begun.clear();
        Ok(())
    }

    // Answers each line that ends in the chunk, and holds the bytes after the last newline; stops where a write fails.
    fn take_chunk<W: Write>(&mut self, sink: &mut W, chunk: &[u8]) -> Result<(), Stopped>
        ensures taken { OnOk result ((bytes : List ℕ) → Holds self.old.begun bytes
            → Took self.new (lines_from self.old.answers.line bytes chunk.now)) }
        ensures sent { OnOk result ((bytes : List ℕ) → Holds self.old.begun bytes → Sent (W.contents sink.old) (W.contents sink.new)
            self.old.answers.text (lines_from self.old.answers.line bytes chunk.now).printed self.new.answers.text) }
        ensures short { IfErr result (λ s. (bytes : List ℕ) → Holds self.old.begun bytes
            → ShortIn (W.contents sink.old) (W.contents sink.new) self.old.answers.line bytes self.old.answers.text chunk.now s.whole) }
    {
        let mut rest = chunk;
        // A while: a line is as long as it is, and the last, which has only begun, is held.
        while let Some(end) = newline_in(rest) {
            self.take_line(sink, &rest[..end])?;
            rest = &rest[end + 1..];
        }
        self.begun.hold_run(rest);
        Ok(())
    }

    // The sheet ends; its last line may lack its newline.
    fn end<W: Write>(&mut self, sink: &mut W) -> Result<(), Stopped>
        requires { self.old.answers.text ≡ [] }
        ensures sent { OnOk result ((bytes : List ℕ) → Holds self.old.begun bytes
            → Appends (W.contents sink.old) (W.contents sink.new) (last_answer self.old.answers.line bytes)) }
        ensures short { IfErr result (λ s. (bytes : List ℕ) → Holds self.old.begun bytes
            → ShortIn (W.contents sink.old) (W.contents sink.new) self.old.answers.line bytes [] (newline ∷ []) s.whole) }
    {
        if self.begun.is_empty() {
            return Ok(());
        }
        let last = self.begun.bytes();
        self.answers.end_line(sink, last)?;
        self.answers.write(sink)
    }
}

// Answers each line that is read. What waits is written after each chunk, so that a person at a terminal sees each answer at once. The input's last
// line may lack its newline; where a read fails it has only begun, and is not answered.
fn answer_all<R: Read, W: Write>(source: &mut R, sink: &mut W) -> Result<(), Failure>
    ensures { (bytes : List ℕ) × Consumes (R.remaining source.old) (R.remaining source.new) bytes
        × Ends result bytes (R.remaining source.new) (W.contents sink.old) (W.contents sink.new) }
{
    let mut chunk = [0u8; 65536];
    let mut sheet = Sheet::new();
    // A `for` with an end, since each loop must have one, and no reader says how often it can be read.
    for _ in 0..u64::MAX {
        let n = match source.read(&mut chunk) {
            Ok(n) => n,
            Err(_) => return Err(Failure::Unread(last_whole(sheet.answers.line, &[]))),
        };
        if n == 0 {
            break;
        }
        sheet.take_chunk(sink, &chunk[..n])?;
        sheet.answers.write(sink)?;
    }
    sheet.end(sink)?;
    Ok(())
}

// One line on standard error; where that fails too there is nobody left to tell.
fn tell(rt: &impl Eprint, failure: &str, last: u64) {
    let _ = eprintln!(rt; "sheet: {failure}; answered whole up to line {last}");
}

// The status of a program that SIGPIPE ends.
const READER_GONE: u8 = 141;

// The status is 0 where every line was answered; 1 where a read or a write failed, which is told; and where the reader of the answers went away, who
// did not want the others, the program ends quietly. A match here, and no From or Termination: each failure is told too, so that a From would match it
// again, and Termination would tell it as `Error: ..`.
fn main(rt: HostRuntime) -> ExitCode {
    match answer_all(&mut rt.stdin(), &mut rt.stdout()) {
        Ok(()) => ExitCode::SUCCESS,
        Err(Failure::Unread(last)) => {
            tell(&rt, "standard input could not be read", last);
            ExitCode::FAILURE
        }
        Err(Failure::Unwritten(stopped)) if stopped.gone => ExitCode::from(READER_GONE),
        Err(Failure::Unwritten(stopped)) => {
            tell(&rt, "standard output could not be written", stopped.whole);
            ExitCode::FAILURE
        }
    }
}
