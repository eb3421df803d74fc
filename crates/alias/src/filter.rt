// A bitmap filter of the hashes so far: a hash whose bit is not set is none of them. Hashes are compared only where it is.
ghost use Rattle.std.specs.Prelude.{◌≡◌, false, ◌<◌, ◌/◌, ◌%◌};
ghost use Rattle.alias.specs.Internal.Hash.{Filtered, NoneCollide, in_filter, filter_words, with_hash, collides_before};
ghost use Rattle.alias.specs.Lines.{max_lines};
ghost use Rattle.alias.specs.declared.hash.Hashes.{Hashes};

use crate::MAX_LINES;
use crate::hash::Hashes;

const FILTER_WORDS: usize = 256;

#[derive(Drop)]
struct Filter {
    words: [u64; FILTER_WORDS],
}

// The word that has the bit of a hash.
fn word_of(hash: u32) -> usize
    ensures { result ≡ hash / 64 % filter_words }
{
    (hash / 64) as usize % FILTER_WORDS
}

impl Filter {
    // The filter of no hash.
    fn new() -> Filter
        ensures { (h : Hashes) → Filtered h 0 result }
    {
        Filter {
            words: [0; FILTER_WORDS],
        }
    }

    fn contains(&self, hash: u32) -> bool
        ensures { result ≡ in_filter self.now hash }
    {
        (self.words[word_of(hash)] >> (hash % 64)) % 2 == 1
    }

    fn insert(&mut self, hash: u32)
        ensures { self.new ≡ with_hash self.old hash }
    {
        self.words[word_of(hash)] |= 1 << (hash % 64);
    }
}

// Whether entry k, by its hashes, may have a name in common with an earlier entry, where the hashes of these are in the filter.
fn collides(hashes: &Hashes, filter: &Filter, k: usize) -> bool
    requires { (k < max_lines) × Filtered hashes.now k filter.now }
    ensures { result ≡ collides_before hashes.now k }
{
    (filter.contains(hashes.names[k]) | filter.contains(hashes.others[k]))
        && hashes.collides_before(k)
}

// Whether one of n entries, by its hashes, may have a name in common with an earlier one.
pub(crate) fn some_collide(hashes: &Hashes, n: usize) -> bool
    ensures { result ≡ false → NoneCollide hashes.now n }
{
    if MAX_LINES < n {
        return true;
    }
    let mut filter = Filter::new();
    for k in 0..n {
        if collides(hashes, &filter, k) {
            return true;
        }
        filter.insert(hashes.names[k]);
        filter.insert(hashes.others[k]);
    }
    false
}
