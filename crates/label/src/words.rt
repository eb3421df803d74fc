// A set of categories as an array of words, by value. These functions are total: any words are a set.
ghost use Rattle.std.specs.Prelude.{◌≡◌, length};
ghost use Rattle.label.specs.Words.{includes_of, intersection_of, members_of, next_category_from, same_of, single_of, union_of};

use std::array;

// How many words a set has. Category c is bit c % 64 of word c / 64.
pub const WORDS: usize = 4;

// The set that has category c alone, or none where there is no such category.
#[tactic(auto, using(crate::proofs::SingleLaws::shifted_one, crate::proofs::SingleLaws::single_past), unfolding(crate::specs::Words::single_of))]
pub fn single(c: u64) -> [u64; WORDS]
    ensures { result ≡ single_of c }
{
    let mut r = [0u64; WORDS];
    let i = (c / 64) as usize;
    if i < WORDS {
        r[i] = 1 << (c % 64);
    }
    r
}

// The categories that are in a or in b.
pub fn union(a: [u64; WORDS], b: [u64; WORDS]) -> [u64; WORDS]
    ensures { result ≡ union_of a b }
{
    array::from_fn(|i| a[i] | b[i])
}

// The categories that are in a and in b.
pub fn intersection(a: [u64; WORDS], b: [u64; WORDS]) -> [u64; WORDS]
    ensures { result ≡ intersection_of a b }
{
    array::from_fn(|i| a[i] & b[i])
}

// Whether every category of b is in a.
pub fn includes(a: [u64; WORDS], b: [u64; WORDS]) -> bool
    ensures { result ≡ includes_of a b }
{
    a.iter().zip(&b).all(|(x, y)| x & y == *y)
}

// Whether a and b have the same categories.
#[tactic(auto, using(crate::proofs::WordLaws::equal_words))]
pub fn same(a: [u64; WORDS], b: [u64; WORDS]) -> bool
    ensures { result ≡ same_of a b }
{
    a == b
}

// How many categories a has.
pub fn count(a: [u64; WORDS]) -> u64
    ensures { result ≡ length (members_of a) }
{
    a.iter().map(|w| u64::from(w.count_ones())).sum()
}

// The least category of a at or above from. It goes from word to word, and in a word to its lowest set bit.
pub fn next(a: [u64; WORDS], from: u64) -> Option<u64>
    ensures { result ≡ next_category_from a from }
{
    let first = (from / 64) as usize;
    // How many bits of word i stand for categories below from: none after the first word.
    let mut below = from % 64;
    for i in first..WORDS {
        let w = a[i] >> below;
        if w != 0 {
            return Some(i as u64 * 64 + below + u64::from(w.trailing_zeros()));
        }
        below = 0;
    }
    None
}
