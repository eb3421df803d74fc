// The parts of the alias entry that stands in a line, read where they stand: for a table of lines that were tested, which is then walked without
// making entries. These functions are total: in any bytes something stands.
ghost use Rattle.std.specs.Prelude.{◌≡◌, ◌+◌, ◌<◌, ◌≤◌, length};
ghost use Rattle.common.specs.Index.{tabulate};
ghost use Rattle.frame.specs.Frame.{body_of};
ghost use Rattle.label_codec.specs.Body.{byte_at, line_words};
ghost use Rattle.alias_entry.specs.Entry.{abbreviation_size, at_most, layout_of, name_size, span_of};
ghost use Rattle.hexline.specs.Line.{abbreviation_in, name_in, standing_in};

use alias_entry::bytes::{Bytes, Span, layout_behind, value_from};
use alias_entry::{ABBREVIATION_BYTES, NAME_BYTES, Value};
use label::Label;
use label_codec::LINE_WORDS;
use label_codec::labels::{LABEL_BYTES, label_at};

// Where the texts of an entry stand in its line's body.
#[derive(Clone, Copy)]
pub struct TextSpans {
    pub name: Span,
    pub abbreviation: Span,
}

// A span of so many bytes at most.
fn at_most(most: usize, s: Span) -> Span
    ensures { result ≡ at_most most s }
{
    Span {
        at: s.at,
        length: s.length.min(most),
    }
}

// The bytes of a line's body, read where their digits stand.
#[derive(Clone, Copy)]
struct BodyOf<'a> {
    line: &'a [u8],
}

impl<'a> Bytes for BodyOf<'a> {
    ghost bytes = { λ b. body_of b.line.now };

    fn byte(&self, i: usize) -> u8 {
        frame::byte(self.line, i)
    }
}

// What the entry stands for; of a whole label, `label` has the label.
#[tactic(auto, unfolding(crate::specs::Line::standing_in, alias_entry::specs::Entry::entry_from, alias_entry::specs::Entry::layout_of))]
pub fn value(line: &[u8]) -> Value
    ensures { result ≡ (standing_in line.now).value }
{
    value_from(
        u64::from(frame::byte(line, 1)),
        u64::from(frame::byte(line, 2)),
    )
}

// Bytes of a line's body from index at on, in all of out.
#[tactic(auto, using(common::proofs::IndexLaws::fill_all, common::proofs::IndexLaws::fill_none))]
fn bytes_from(line: &[u8], at: usize, out: &mut [u8])
    requires { at + length out.old < 1024 }
    ensures { out.new ≡ tabulate (λ k. byte_at (body_of line.now) (at + k)) (length out.old) }
{
    for (k, b) in out.iter_mut().enumerate() {
        *b = frame::byte(line, at + k);
    }
}

// The hierarchy of that label.
#[tactic(auto, unfolding(crate::specs::Line::standing_in, alias_entry::specs::Entry::entry_from, alias_entry::specs::Entry::layout_of, alias_entry::specs::Entry::label_from, label_codec::specs::Body::label_at))]
pub fn hierarchy(line: &[u8]) -> u64
    ensures { result ≡ (standing_in line.now).label.hierarchy }
{
    if frame::byte(line, 1) == 3 {
        return frame::byte(line, 2) as u64;
    }
    0
}

// The label of the entry, zeros where its class has none.
#[tactic(auto, unfolding(crate::specs::Line::standing_in, alias_entry::specs::Entry::entry_from, alias_entry::specs::Entry::layout_of, alias_entry::specs::Entry::label_from))]
pub fn label(line: &[u8]) -> Label
    ensures { result ≡ (standing_in line.now).label }
{
    if frame::byte(line, 1) == 3 {
        let mut bytes = [0u8; LABEL_BYTES];
        bytes_from(line, 2, &mut bytes);
        return label_at(&bytes, 0, LINE_WORDS);
    }
    label::zero()
}

// Where the texts of the entry stand in the line's body. The second clause follows, and is stated for callers.
#[tactic(auto, unfolding(crate::specs::Line::name_in, crate::specs::Line::abbreviation_in))]
pub fn texts(line: &[u8]) -> TextSpans
    ensures name_value { (result.name ≡ name_in line.now) × (result.abbreviation ≡ abbreviation_in line.now) }
    ensures length_bound { (result.name.at + result.name.length < 1024) × (result.name.length ≤ name_size) × (result.abbreviation.at + result.abbreviation.length < 1024) × (result.abbreviation.length ≤ abbreviation_size) }
{
    let p = layout_behind(&BodyOf { line }, LINE_WORDS);
    TextSpans {
        name: at_most(NAME_BYTES, p.name),
        abbreviation: at_most(ABBREVIATION_BYTES, p.abbreviation),
    }
}
