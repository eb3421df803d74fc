// Labels, ranges and tuples as bytes of a lent buffer, and read from any bytes, with the words that a set has in lines of kinds 01 to 04: for a crate
// that has bodies of its own, with any value of the types, an invalid one too. A value with a number above 255 has no bytes at all: nothing is put, and
// the index that was given is answered, as where there is no room. The crate `label_codec` has these for any number of words.
ghost use Rattle.std.specs.Prelude.{◌≡◌};
ghost use Rattle.octets.specs.Bytes.{Appended};
ghost use Rattle.label_codec.specs.Body.{label_at, line_words, range_at};
ghost use Rattle.label_codec.specs.Codec.{label_code, range_code, tuple_code, tuple_from};

use label::Label;
use label_codec::{LINE_WORDS, labels, tuples};
use range::Range;
use range::tuple::Tuple;

// Puts a label's bytes in out at index at, and answers the index past them.
pub fn put_label(out: &mut [u8], at: usize, l: Label) -> usize
    ensures { Appended out.old at (label_code line_words l) result out.new }
{
    labels::append_label(out, at, l, LINE_WORDS)
}

// Puts a range's bytes in out at index at, and answers the index past them.
pub fn put_range(out: &mut [u8], at: usize, x: Range) -> usize
    ensures { Appended out.old at (range_code line_words x) result out.new }
{
    labels::append_range(out, at, x, LINE_WORDS)
}

// Puts a tuple's bytes in out at index at, and answers the index past them.
pub fn put_tuple(out: &mut [u8], at: usize, t: Tuple) -> usize
    ensures { Appended out.old at (tuple_code line_words t) result out.new }
{
    tuples::append_tuple(out, at, t, LINE_WORDS)
}

// The label whose bytes begin at index at of any bytes.
pub fn label_at(bytes: &[u8], at: usize) -> Label
    ensures { result ≡ label_at line_words bytes.now at }
{
    labels::label_at(bytes, at, LINE_WORDS)
}

// The range whose bytes begin at index at of any bytes.
pub fn range_at(bytes: &[u8], at: usize) -> Range
    ensures { result ≡ range_at line_words bytes.now at }
{
    labels::range_at(bytes, at, LINE_WORDS)
}

// The tuple whose byte of presence is at index at of any bytes.
pub fn tuple_at(bytes: &[u8], at: usize) -> Tuple
    ensures { result ≡ tuple_from line_words bytes.now at }
{
    tuples::tuple_at(bytes, at, LINE_WORDS)
}
