// Command lines: a word and numbers, one blank between, and LF.
ghost use Rattle.std.specs.Prelude.{◌≡◌, take};
ghost use Rattle.console.specs.Command.{body_command_of, command_of, field_number, skipped_of};

use octets::{BLANK, LF};

// How many numbers a command has at most.
pub const MAX_NUMBERS: usize = 6;

// The word of a command line, which is so many bytes at the line's front, and its numbers. The numbers past count are zeros: there is an array and a
// count, since no memory is allocated.
#[derive(Clone, Copy)]
pub struct Command {
    pub word: usize,
    pub count: usize,
    pub numbers: [u64; MAX_NUMBERS],
}

impl Command {
    // The numbers that the command has.
    pub fn numbers(&self) -> &[u64]
        ensures { result.now ≡ take self.now.count self.now.numbers }
    {
        &self.numbers[..self.count.min(MAX_NUMBERS)]
    }
}

// One or more decimal digits, with a value below 2^64.
fn read_number(text: &[u8]) -> Option<u64>
    ensures { result ≡ field_number text.now }
{
    if text.is_empty() {
        return None;
    }
    let mut value: u64 = 0;
    for b in text {
        if !b.is_ascii_digit() {
            return None;
        }
        value = value.checked_mul(10)?.checked_add((*b - b'0') as u64)?;
    }
    Some(value)
}

// The word up to the first blank, and the numbers after it.
fn parse_body(body: &[u8]) -> Option<Command>
    ensures { result ≡ body_command_of body.now }
{
    let word = octets::index_of(BLANK, body);
    let mut count = 0;
    let mut numbers = [0u64; MAX_NUMBERS];
    // From the word's end on, what `split` gives first is nothing.
    for field in octets::rest(body, word).split(|b| *b == BLANK).skip(1) {
        if count == MAX_NUMBERS {
            return None;
        }
        numbers[count] = read_number(field)?;
        count += 1;
    }
    Some(Command {
        word,
        count,
        numbers,
    })
}

// Reads a command line.
pub fn parse(line: &[u8]) -> Option<Command>
    ensures { result ≡ command_of line.now }
{
    let end = octets::index_of(LF, line);
    if end + 1 != line.len() {
        return None;
    }
    parse_body(&line[..end])
}

// Whether a line between requests gets no answer: an empty line or a comment. A bad line, which comes as no bytes at all, gets one.
pub fn is_skipped(line: &[u8]) -> bool
    ensures { result ≡ skipped_of line.now }
{
    match line.first() {
        Some(first) => (*first == LF) | (*first == b'#'),
        None => false,
    }
}
