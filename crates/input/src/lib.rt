// Lines of an input, one at a time, in two buffers that the program lends: a chunk to read into, and one for a line. A program hands a closure to
// `for_each_line`, which calls it at each line. The input is a reader that the program lends too: the standard input, or any other.
#![tactic(auto)]

ghost use Rattle.std.specs.Prelude.{◌≡◌, length};
ghost use Rattle.std.specs.Fn.{CalledAt};
ghost use Rattle.input.specs.Input.{AllFed, FoundNext, NextLine, Pieced, Refilled, Stepped, Waited, Written, failed_of, found_of, lines_after, no_more, start_input, start_lines, turn_after_read, waits_of};

use console::lines;
use console::lines::{Line, Partial};
use std::io::{Read, Write};

// Where the input stands.
#[derive(Clone, Copy)]
pub enum Input {
    // Some of a line may be held, and the bytes of the chunk from index at up to index filled are left to take.
    Open {
        partial: Partial,
        at: usize,
        filled: usize,
    },
    // The last read found the end.
    Ended,
    // The last read failed, which ends the input too.
    Failed,
}

// What a step makes: no line yet, a line at the front of the buffer, or a bad one; and where the input stands then.
#[derive(Clone, Copy)]
struct Turn {
    input: Input,
    line: Line,
}

// The line at hand, and where the input stands.
#[derive(Clone, Copy)]
pub struct Lines {
    pub input: Input,
    // How many bytes the line has at the front of the buffer, none where it is a bad line. There is no line at the end.
    pub line: Option<usize>,
    // How many lines may still come, with the one at hand: none at the end. A proved loop has to end, and nothing says that the input does, so they are
    // counted down, from a number that no run uses up.
    pub left: u64,
}

// What steps find: a line, or none at the end, and where the input stands then.
#[derive(Clone, Copy)]
struct LineOrEnd {
    input: Input,
    line: Option<usize>,
}

// Nothing is held and nothing is left to take.
fn start_input() -> Input
    ensures { result ≡ start_input }
{
    Input::Open {
        partial: lines::start(),
        at: 0,
        filled: 0,
    }
}

// No line is at hand yet.
pub fn start() -> Lines
    ensures { result ≡ start_lines }
{
    Lines {
        input: start_input(),
        line: None,
        left: u64::MAX,
    }
}

// Takes the next piece of the chunk.
fn next_piece(partial: Partial, at: usize, filled: usize, chunk: &[u8], line: &mut [u8]) -> Turn
    ensures { Pieced partial at filled chunk.now line.old result line.new }
{
    let piece = lines::take(octets::front(chunk, filled), at, line, partial);
    Turn {
        input: Input::Open {
            partial: piece.partial,
            at: piece.next,
            filled,
        },
        line: piece.line,
    }
}

// What a read makes of so many bytes, or of none where it failed. No bytes are the end of the input, and a read that fails ends it too.
#[tactic(auto, unfolding(crate::specs::Input::turn_after_read))]
fn after_read(partial: Partial, count: Option<usize>) -> Turn
    ensures { result ≡ turn_after_read partial count }
{
    match count {
        Some(0) => Turn {
            input: Input::Ended,
            line: lines::last(partial),
        },
        Some(filled) => Turn {
            input: Input::Open {
                partial,
                at: 0,
                filled,
            },
            line: Line::More,
        },
        None => Turn {
            input: Input::Failed,
            line: lines::last(partial),
        },
    }
}

// Reads once. What a reader answers is open, and these lines are all that depends on it.
fn refill<R: Read>(reader: &mut R, partial: Partial, chunk: &mut [u8]) -> Turn
    ensures { Refilled partial (length chunk.old) result }
{
    match reader.read(chunk) {
        Ok(n) => after_read(partial, Some(n)),
        Err(_) => after_read(partial, None),
    }
}

// Takes the next piece of the chunk where some of it is left, and reads once where none is. What is read is open: the contract says nothing of
// the bytes, and of their number that the chunk has room for them and that none are the end. At the end nothing is read.
fn step<R: Read>(reader: &mut R, i: Input, chunk: &mut [u8], line: &mut [u8]) -> Turn
    ensures { Stepped i chunk.old line.old result chunk.new line.new }
{
    match i {
        Input::Open {
            partial,
            at,
            filled,
        } => {
            if (at < filled) & (at < chunk.len()) {
                next_piece(partial, at, filled, chunk, line)
            } else {
                refill(reader, partial, chunk)
            }
        }
        Input::Ended | Input::Failed => Turn {
            input: i,
            line: Line::More,
        },
    }
}

// Whether a step is to be followed by another: it made no line and did not find the end.
fn waits(t: Turn) -> bool
    ensures { result ≡ waits_of t }
{
    match (t.line, t.input) {
        (Line::More, Input::Open { .. }) => true,
        _ => false,
    }
}

// Takes steps until there is a line or the end.
fn steps<R: Read>(reader: &mut R, i: Input, chunk: &mut [u8], line: &mut [u8]) -> Turn
    ensures { Waited i chunk.old line.old result chunk.new line.new }
{
    let mut t = Turn {
        input: i,
        line: Line::More,
    };
    for _ in 0..u64::MAX {
        if !waits(t) {
            return t;
        }
        t = step(reader, t.input, chunk, line);
    }
    t
}

// How many bytes there are of the line that a step made. A bad line has none.
fn found(line: Line) -> Option<usize>
    ensures { result ≡ found_of line }
{
    match line {
        Line::More => None,
        Line::Whole(n) => Some(n),
        Line::Bad => Some(0),
    }
}

// Finds the next line, by as many steps as it takes. At the end there is none, and nothing is read.
fn find<R: Read>(reader: &mut R, i: Input, chunk: &mut [u8], line: &mut [u8]) -> LineOrEnd
    ensures { FoundNext i chunk.old line.old result chunk.new line.new }
{
    let t = steps(reader, i, chunk, line);
    LineOrEnd {
        input: t.input,
        line: found(t.line),
    }
}

// No line is at hand, and none may come.
fn no_more(input: Input) -> Lines
    ensures { result ≡ no_more input }
{
    Lines {
        input,
        line: None,
        left: 0,
    }
}

// The lines after one was found, or none, where so many may still come with it.
fn after_find(left: u64, f: LineOrEnd) -> Lines
    ensures { result ≡ lines_after left f }
{
    match f.line {
        Some(_) if left > 0 => Lines {
            input: f.input,
            line: f.line,
            left,
        },
        _ => no_more(f.input),
    }
}

// The next line. At the end there is none, and nothing is read.
pub fn next<R: Read>(reader: &mut R, l: Lines, chunk: &mut [u8], line: &mut [u8]) -> Lines
    ensures { NextLine l chunk.old line.old result chunk.new line.new }
{
    if l.left == 0 {
        return no_more(l.input);
    }
    let f = find(reader, l.input, chunk, line);
    after_find(l.left - 1, f)
}

// Whether a read failed.
fn has_failed(i: Input) -> bool
    ensures { result ≡ failed_of i }
{
    match i {
        Input::Failed => true,
        Input::Open { .. } | Input::Ended => false,
    }
}

// Calls f at each line, one after the other, and answers whether a read failed. A bad line comes as no bytes at all.
pub fn for_each_line<R: Read, F: FnMut(&[u8])>(
    reader: &mut R,
    chunk: &mut [u8],
    line: &mut [u8],
    mut f: F,
) -> bool
    requires { F.IsAlwaysCallable f }
    ensures { AllFed (λ p x q. CalledAt F.FnMut p x tt q) f chunk.old line.old result chunk.new line.new }
{
    let mut i = start_input();
    for _ in 0..u64::MAX {
        let l = find(reader, i, chunk, line);
        let Some(n) = l.line else {
            return has_failed(l.input);
        };
        f(octets::front(line, n));
        i = l.input;
    }
    has_failed(i)
}

// Writes the bytes of an answer and says whether they were written. Where they were not, that is told on the standard error, by the name of the program.
pub fn print_bytes<W: Write>(out: &mut W, rt: &impl Eprint, name: &str, bytes: &[u8]) -> bool
    ensures { Written W.contents out.old bytes.now result out.new }
{
    match out.write_all(bytes) {
        Ok(()) => true,
        Err(_) => {
            let _ = eprintln!(rt; "{name}: can't write to the standard output");
            false
        }
    }
}
