// Labels, ranges and tuples as bytes: any value of the types that fits its bytes, an invalid one too, is put in a lent buffer, and
// any bytes are read. The lines of kinds 01 to 04 stand on these, and so can a crate that has bodies of its own. Each function takes the number of
// words that a set of categories has in the bytes; more than a set has are as many as it has.
#![tactic(auto)]

pub mod labels;
pub mod tuples;
mod width;
mod writing;

ghost use Rattle.std.specs.Prelude.{◌∷◌, [], ◌≡◌};
ghost use Rattle.octets.specs.Bytes.{Appended};
ghost use Rattle.label_codec.specs.Body.{byte_at};

// How many words a set has in lines of kinds 01 to 04.
pub const LINE_WORDS: usize = 4;

// Byte i of some bytes, and 0 past their end.
pub fn byte(bytes: &[u8], i: usize) -> u8
    ensures { result ≡ byte_at bytes.now i }
{
    bytes.get(i).copied().unwrap_or(0)
}

// Appends a byte to out at index at, and answers the index past it.
pub fn append_byte(out: &mut [u8], at: usize, b: u8) -> usize
    ensures { Appended out.old at (b ∷ []) result out.new }
{
    octets::append(out, at, &[b])
}
