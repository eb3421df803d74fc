// Hex lines: one frame a line, in `frame`, and what stands in its body. A writer takes contents and a lent buffer, a reader one whole line
// with its LF; each refuses what document 01 refuses, and a refusal writes nothing.
#![tactic(auto)]

pub mod accept;
pub mod codec;
mod contents;
pub mod entry;
pub mod parts;

ghost use Rattle.std.specs.Prelude.{◌≡◌};
ghost use Rattle.common.specs.Answer.{answer_by, answer_of};
ghost use Rattle.common.specs.Buffer.{WrittenTo};
ghost use Rattle.hexline.specs.Line.{entry_line_of, kind_number, kind_numbered, line_kind_of, label_line_of, range_line_of, read_entry_line, read_label_line, read_range_line, read_tuple_line, tuple_line_of};

use crate::contents::TUPLE_BODY;
use alias_entry::Entry;
use common::errno::Errno;
use label::Label;
use label_codec::byte;
use range::Range;
use range::tuple::Tuple;

// The kind that a line says it has.
#[derive(Clone, Copy, PartialEq, Eq)]
pub enum Kind {
    Label = 1,
    Range = 2,
    Tuple = 3,
    Entry = 4,
}

// A number that is no kind's is refused.
impl TryFrom<u8> for Kind {
    type Error = Errno;

    ghost try_from_gives = { λ number r. answer_by kind_number r ≡ kind_numbered number };

    fn try_from(number: u8) -> Result<Kind, Errno> {
        match number {
            1 => Ok(Kind::Label),
            2 => Ok(Kind::Range),
            3 => Ok(Kind::Tuple),
            4 => Ok(Kind::Entry),
            _ => Err(Errno::Invalid),
        }
    }
}

// Which reader a line is for.
pub fn kind_of(line: &[u8]) -> Result<Kind, Errno>
    ensures { answer_by kind_number result ≡ line_kind_of line.now }
{
    let mut bytes = [0u8; TUPLE_BODY];
    let n = frame::decode(line, &mut bytes);
    Kind::try_from(byte(octets::front(&bytes, n), 0))
}

// The line of a label, kind 01.
#[tactic(auto, unfolding(crate::specs::Line::label_body))]
pub fn write_label(l: Label, out: &mut [u8]) -> Result<usize, Errno>
    ensures { WrittenTo result (label_line_of l) out.old out.new }
{
    contents::write(l, out)
}

// The line of a range, kind 02.
#[tactic(auto, unfolding(crate::specs::Line::range_body))]
pub fn write_range(x: Range, out: &mut [u8]) -> Result<usize, Errno>
    ensures { WrittenTo result (range_line_of x) out.old out.new }
{
    contents::write(x, out)
}

// The line of a tuple, kind 03.
#[tactic(auto, unfolding(crate::specs::Line::tuple_body))]
pub fn write_tuple(t: Tuple, out: &mut [u8]) -> Result<usize, Errno>
    ensures { WrittenTo result (tuple_line_of t) out.old out.new }
{
    contents::write(t, out)
}

// The line of an alias entry, kind 04.
#[tactic(auto, unfolding(crate::specs::Line::entry_body))]
pub fn write_entry(e: Entry, out: &mut [u8]) -> Result<usize, Errno>
    ensures { WrittenTo result (entry_line_of e) out.old out.new }
{
    contents::write(e, out)
}

// The label of a line of kind 01.
pub fn read_label(line: &[u8]) -> Result<Label, Errno>
    ensures { answer_of result ≡ read_label_line line.now }
{
    contents::read(line)
}

// The range of a line of kind 02.
pub fn read_range(line: &[u8]) -> Result<Range, Errno>
    ensures { answer_of result ≡ read_range_line line.now }
{
    contents::read(line)
}

// The tuple of a line of kind 03.
pub fn read_tuple(line: &[u8]) -> Result<Tuple, Errno>
    ensures { answer_of result ≡ read_tuple_line line.now }
{
    contents::read(line)
}

// The alias entry of a line of kind 04.
pub fn read_entry(line: &[u8]) -> Result<Entry, Errno>
    ensures { answer_of result ≡ read_entry_line line.now }
{
    contents::read(line)
}
