// Bytes: a part of them, where a byte stands, whether two slices are the same, and bytes appended to a lent buffer at an index. Each
// function takes any value of its types.
#![tactic(auto)]

ghost use Rattle.std.specs.Prelude.{◌≡◌, ◌+◌, ◌≤◌, leb, drop, length, take};
ghost use Rattle.octets.specs.Bytes.{Appended, FirstIndex, same_bytes};
ghost use Rattle.octets.specs.Internal.Put.{Put};

pub const LF: u8 = 10;

pub const BLANK: u8 = 32;

// The bytes from index from on: none where it is past the end.
pub fn rest(xs: &[u8], from: usize) -> &[u8]
    ensures { result.now ≡ drop from xs.now }
{
    &xs[from.min(xs.len())..]
}

// The first n bytes: all where there are fewer.
pub fn front(xs: &[u8], n: usize) -> &[u8]
    ensures { result.now ≡ take n xs.now }
{
    &xs[..n.min(xs.len())]
}

// The index of the first b in xs, or its length where there is none.
pub fn index_of(b: u8, xs: &[u8]) -> usize
    ensures { FirstIndex b xs.now result }
{
    xs.iter().position(|x| *x == b).unwrap_or(xs.len())
}

// Whether two slices have the same bytes.
pub fn same(xs: &[u8], ys: &[u8]) -> bool
    ensures { result ≡ same_bytes xs.now ys.now }
{
    xs == ys
}

// Whether n bytes fit at index at of size bytes. A difference is compared, since the sum may not fit a usize.
pub fn fits(size: usize, at: usize, n: usize) -> bool
    ensures { result ≡ leb (at + n) size }
{
    size.checked_sub(at).is_some_and(|left| n <= left)
}

// Puts xs in out at index at, and answers the index past it.
fn put(out: &mut [u8], at: usize, xs: &[u8]) -> usize
    requires { at + length xs.now ≤ length out.old }
    ensures { Put out.old at xs.now result out.new }
{
    let end = at + xs.len();
    out[at..end].copy_from_slice(xs);
    end
}

// Appends the bytes of a text, and answers the index past them. What does not fit whole is not written.
pub fn append(out: &mut [u8], at: usize, text: &[u8]) -> usize
    ensures { Appended out.old at text.now result out.new }
{
    if fits(out.len(), at, text.len()) {
        return put(out, at, text);
    }
    at
}
