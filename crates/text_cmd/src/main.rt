// text_cmd: writes labels and ranges as text and reads them back, by the names of a table, with requests read from standard input. docs/PROGRAMS.md
// has what it reads and prints.
#![tactic(auto)]

mod answer;
mod call;
mod kept;
mod request;
mod session;

ghost use Rattle.std.specs.Prelude.{◌≡◌, ◌-◌, ◌≤◌, ◌<◌, Some, ℕ};

use crate::kept::MAX_CAPACITY;
use crate::session::Session;
use input::{Input, Lines};
use std::io::Read;

// The next line, in the buffer that it is for. Which one it is changes only between two lines, when nothing is held of a line.
fn next(
    reader: &mut impl Read,
    s: Session,
    l: Lines,
    chunk: &mut [u8],
    line: &mut [u8],
    text: &mut [u8],
) -> Lines
    ensures fewer { result.left ≤ l.left - 1 }
    ensures at_hand { (n : ℕ) → result.line ≡ Some n → 0 < result.left }
{
    if session::takes_text(s) {
        input::next(reader, l, chunk, text)
    } else {
        input::next(reader, l, chunk, line)
    }
}

// Does what the line of that length asks for, in the buffer that it is in.
fn take(
    rt: &(impl Print + Eprint),
    s: Session,
    length: usize,
    line: &[u8],
    text: &[u8],
    table: &mut [u8],
    out: &mut [u8],
) -> Session {
    let at_hand = if session::takes_text(s) { text } else { line };
    session::take_line(rt, s, octets::front(at_hand, length), table, out)
}

// Answers the requests of the input, which is read into the chunk. The line at hand is in the second buffer, or in the third if it is a line of
// text; the fourth keeps the table, and the last has the text that is written.
fn run(
    rt: &(impl Print + Eprint),
    reader: &mut impl Read,
    chunk: &mut [u8],
    line: &mut [u8],
    text: &mut [u8],
    table: &mut [u8],
    out: &mut [u8],
) {
    let mut session = session::start();
    let mut lines = next(reader, session, input::start(), chunk, line, text);
    while let Some(length) = lines.line {
        session = take(rt, session, length, line, text, table, out);
        lines = next(reader, session, lines, chunk, line, text);
    }
    let failed = matches!(lines.input, Input::Failed);
    session::finish(rt, session, failed, table, out);
}

fn main(rt: HostRuntime) {
    let mut reader = rt.stdin();
    let mut chunk = [0u8; 4096];
    let mut line = [0u8; 512];
    let mut text = [0u8; 16454];
    let mut table = [0u8; 65536];
    let mut out = [0u8; MAX_CAPACITY];
    run(
        &rt,
        &mut reader,
        &mut chunk,
        &mut line,
        &mut text,
        &mut table,
        &mut out,
    );
}
