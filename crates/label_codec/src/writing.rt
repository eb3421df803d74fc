// What is put as bytes, and how it is appended: a label, a range, a region's range and a tuple are appended by one function.
ghost use Rattle.std.specs.Prelude.{◌≡◌, Bool, true, cond, List, [], ℕ, ◌+◌, ◌≤◌, length};
ghost use Rattle.octets.specs.Bytes.{Appended};
ghost use Rattle.octets.specs.Internal.Put.{Put};
ghost use Rattle.label_codec.specs.Codec as codecs;

use crate::width::Width;

// A value that has bytes, where each of its numbers has one.
pub(crate) trait Coded {
    ghost fitting: { Self → Bool };

    // The bytes, with so many words of a set.
    ghost bytes: { ℕ → Self → List ℕ };

    // Whether each number of the value has a byte.
    fn fits(&self) -> bool
        ensures { result ≡ fitting self.now };

    // How many bytes there are.
    fn size(&self, width: Width) -> usize
        ensures { result ≡ length (bytes width.words self.now) };

    // The bytes of a value that fits them, at index at where there is room, and the index past them.
    fn put(&self, out: &mut [u8], at: usize, width: Width) -> usize
        requires { (at + length (bytes width.words self.now) ≤ length out.old) × (fitting self.now ≡ true) }
        ensures { Put out.old at (bytes width.words self.now) result out.new };
}

// Appends the bytes of a value to out at index at, and answers the index past them.
pub(crate) fn append<T: Coded>(out: &mut [u8], at: usize, value: &T, words: usize) -> usize
    ensures { Appended out.old at (cond (T.fitting value.now) (T.bytes (codecs.width words) value.now) []) result out.new }
{
    let width = Width::of(words);
    let room = value.fits() & octets::fits(out.len(), at, value.size(width));
    if !room {
        return at;
    }
    value.put(out, at, width)
}
