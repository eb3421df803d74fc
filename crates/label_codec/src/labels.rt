// Labels and ranges as bytes: the hierarchy, then the words of the set, the lowest byte first. A number above 255 has no byte, and a byte that
// stood for it would be read as another number. So a value with such a hierarchy has no bytes at all: nothing is put, and the index that was given
// is answered, as where there is no room.
ghost use Rattle.std.specs.Prelude.{◌≡◌, ◌+◌, ◌*◌, ◌/◌, ◌%◌, ◌≤◌, ◌^◌, length};
ghost use Rattle.common.specs.Index.{tabulate};
ghost use Rattle.label.specs.Words.{words as set_words};
ghost use Rattle.octets.specs.Bytes.{Appended};
ghost use Rattle.octets.specs.Internal.Put.{Put};
ghost use Rattle.label_codec.specs.Body.{byte_at, label_at, label_bytes, label_size, base_number, range_at, range_bytes, range_size, word_from};
ghost use Rattle.label_codec.specs.Codec as codecs;
ghost use Rattle.label_codec.specs.Codec.{label_code, label_fits, range_code, range_fits};

use crate::LINE_WORDS;
use crate::width::Width;
use crate::writing::{Coded, append};
use label::Label;
use label::words::WORDS;
use range::Range;
use std::array;

// How many bytes a label and a range have in lines of kinds 01 to 04.
pub const LABEL_BYTES: usize = 1 + 8 * LINE_WORDS;

pub const RANGE_BYTES: usize = 2 * LABEL_BYTES;

// How many bytes a label has. The second clause of this and the next follows, and is stated for callers.
pub fn label_size(words: usize) -> usize
    ensures value { result ≡ label_size (codecs.width words) }
    ensures upper_bound { result ≤ label_size set_words }
{
    Width::of(words).label_size()
}

// How many bytes a range has.
pub fn range_size(words: usize) -> usize
    ensures value { result ≡ range_size (codecs.width words) }
    ensures upper_bound { result ≤ range_size set_words }
{
    Width::of(words).range_size()
}

// The eight bytes of a word at index at, the lowest first. With the word at hand, and not the set, they are stored at once.
fn put_word(out: &mut [u8], at: usize, w: u64)
    requires { at + 8 ≤ length out.old }
    ensures { Put out.old at (tabulate (λ k. w / 256 ^ k % 256) 8) (at + 8) out.new }
{
    out[at..at + 8].copy_from_slice(&w.to_le_bytes());
}

impl Coded for Label {
    ghost fitting = { label_fits };

    ghost bytes = { label_bytes };

    fn fits(&self) -> bool {
        self.hierarchy <= 255
    }

    fn size(&self, width: Width) -> usize {
        width.label_size()
    }

    fn put(&self, out: &mut [u8], at: usize, width: Width) -> usize {
        out[at] = self.hierarchy as u8;
        let mut next = at + 1;
        for w in &self.categories[..width.words] {
            put_word(out, next, *w);
            next += 8;
        }
        next
    }
}

impl Coded for Range {
    ghost fitting = { range_fits };

    ghost bytes = { range_bytes };

    fn fits(&self) -> bool {
        self.low.fits() & self.high.fits()
    }

    fn size(&self, width: Width) -> usize {
        width.range_size()
    }

    fn put(&self, out: &mut [u8], at: usize, width: Width) -> usize {
        let next = self.low.put(out, at, width);
        self.high.put(out, next, width)
    }
}

// Appends the bytes of a label to out at index at, and answers the index past them.
#[tactic(auto, unfolding(crate::specs::Codec::label_code))]
pub fn append_label(out: &mut [u8], at: usize, l: Label, words: usize) -> usize
    ensures { Appended out.old at (label_code (codecs.width words) l) result out.new }
{
    append(out, at, &l, words)
}

// Appends the bytes of a range to out at index at, and answers the index past them.
#[tactic(auto, unfolding(crate::specs::Codec::range_code))]
pub fn append_range(out: &mut [u8], at: usize, x: Range, words: usize) -> usize
    ensures { Appended out.old at (range_code (codecs.width words) x) result out.new }
{
    append(out, at, &x, words)
}

// The word whose eight bytes begin at index at, the lowest first.
fn word_at(bytes: &[u8], at: usize) -> u64
    requires { at + 8 ≤ length bytes.now }
    ensures { result ≡ base_number 256 (byte_at bytes.now) at 8 }
{
    let mut own = [0u8; 8];
    own.copy_from_slice(&bytes[at..at + 8]);
    u64::from_le_bytes(own)
}

// Word j of the set of the label at the front of some bytes.
#[tactic(auto, unfolding(crate::specs::Body::word_from))]
fn set_word(bytes: &[u8], j: usize, words: usize) -> u64
    requires { label_size words ≤ length bytes.now }
    ensures { result ≡ word_from words bytes.now (0 + 1) j }
{
    if j < words {
        return word_at(bytes, 1 + 8 * j);
    }
    0
}

// The label at the front of some bytes, which are all there.
fn label_in(bytes: &[u8], words: usize) -> Label
    requires { label_size words ≤ length bytes.now }
    ensures { result ≡ label_at words bytes.now 0 }
{
    Label {
        hierarchy: u64::from(bytes[0]),
        categories: array::from_fn(|j| set_word(bytes, j, words)),
    }
}

// The label whose bytes begin at index at of any bytes. Only bytes that are cut off are copied first.
pub fn label_at(bytes: &[u8], at: usize, words: usize) -> Label
    ensures { result ≡ label_at (codecs.width words) bytes.now at }
{
    let own = octets::rest(bytes, at);
    let width = Width::of(words);
    if width.label_size() <= own.len() {
        return label_in(own, width.words);
    }
    let mut padded = [0u8; 1 + 8 * WORDS];
    padded[..own.len()].copy_from_slice(own);
    label_in(&padded, width.words)
}

// The range whose bytes begin at index at of any bytes.
pub fn range_at(bytes: &[u8], at: usize, words: usize) -> Range
    ensures { result ≡ range_at (codecs.width words) bytes.now at }
{
    let own = octets::rest(bytes, at);
    Range {
        low: label_at(own, 0, words),
        high: label_at(own, label_size(words), words),
    }
}
