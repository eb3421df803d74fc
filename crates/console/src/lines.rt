// Lines out of chunks: a line is kept in a lent buffer until its LF comes. A line that does not fit with its LF is skipped to its LF, and is
// answered as one bad line.
ghost use Rattle.std.specs.Prelude.{◌≡◌};
ghost use Rattle.console.specs.declared.lines.Partial.TheVariants.{Held};
ghost use Rattle.console.specs.Lines.{Taken, line_at_end};
ghost use Rattle.console.specs.Internal.Place.{place_of};

use octets::LF;

// What the bytes so far make.
#[derive(Clone, Copy)]
pub enum Line {
    // No line yet.
    More,
    // A line of that many bytes, its LF the last of them, at the front of the buffer.
    Whole(usize),
    // A line that did not fit, or that has no LF.
    Bad,
}

// What is held of a line between chunks.
#[derive(Clone, Copy)]
pub enum Partial {
    // That many bytes, at the front of the buffer.
    Held(usize),
    // The line does not fit: its other bytes are skipped.
    Skipped,
}

#[derive(Clone, Copy)]
pub struct Piece {
    // The index of the chunk to go on from.
    pub next: usize,
    pub partial: Partial,
    pub line: Line,
}

// Nothing is held.
pub fn start() -> Partial
    ensures { result ≡ Held 0 }
{
    Partial::Held(0)
}

// Where the next n bytes of the line go in a buffer of that size, if they fit.
fn place(partial: Partial, n: usize, size: usize) -> Option<usize>
    ensures { result ≡ place_of partial n size }
{
    match partial {
        Partial::Held(at) if octets::fits(size, at, n) => Some(at),
        Partial::Held(_) | Partial::Skipped => None,
    }
}

// Takes bytes of the chunk from index from on, up to and with the first LF. Where there is no LF it takes them all.
pub fn take(chunk: &[u8], from: usize, buffer: &mut [u8], partial: Partial) -> Piece
    ensures { Taken chunk.now from buffer.old partial result buffer.new }
{
    let rest = octets::rest(chunk, from);
    let n = octets::index_of(LF, rest);
    match place(partial, n + 1, buffer.len()) {
        Some(at) => {
            let length = octets::append(buffer, at, octets::front(rest, n + 1));
            if n < rest.len() {
                Piece {
                    next: from + n + 1,
                    partial: start(),
                    line: Line::Whole(length),
                }
            } else {
                Piece {
                    next: from + n,
                    partial: Partial::Held(length),
                    line: Line::More,
                }
            }
        }
        None => {
            if n < rest.len() {
                Piece {
                    next: from + n + 1,
                    partial: start(),
                    line: Line::Bad,
                }
            } else {
                Piece {
                    next: from + n,
                    partial: Partial::Skipped,
                    line: Line::More,
                }
            }
        }
    }
}

// At the end of the input: a line that has no LF is bad.
pub fn last(partial: Partial) -> Line
    ensures { result ≡ line_at_end partial }
{
    match partial {
        Partial::Held(0) => Line::More,
        Partial::Held(_) | Partial::Skipped => Line::Bad,
    }
}
