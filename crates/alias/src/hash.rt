// Hashes of the names in a table: names that have different hashes differ.
ghost use Rattle.std.specs.Prelude.{◌≡◌, ◌+◌, ◌<◌, List, IfSome, cond, is_some, leb, length};
ghost use Rattle.common.specs.Answer.{is_granted};
ghost use Rattle.hexline.specs.Accept.{accepted_body};
ghost use Rattle.label_codec.specs.Body.{line_words};
ghost use Rattle.alias_entry.specs.Entry.{abbreviation_bytes, name_bytes};
ghost use Rattle.hexline.specs.Line.{entry_in, read_entry_line, standing_in};
ghost use Rattle.alias_entry.specs.declared.Entry.{Entry};
ghost use Rattle.alias.specs.Internal.Hash.{HashesKept, HashesOf, folded_hash, hash_of, collides_before};
ghost use Rattle.alias.specs.Lines.{entry_at, max_lines};

use crate::MAX_LINES;
use alias_entry::bytes::layout_in;
use hexline::accept;
use hexline::accept::ENTRY_BODY;
use label_codec::LINE_WORDS;

// What a hash is made with; the definitions say why these numbers.
const MODULUS: u64 = 281474976710656;

const MULTIPLIER: u64 = 65491;

const FOLDED_MODULUS: u64 = 4294967296;

// The hashes of the name and of the other name of an entry, and whether its name may be its abbreviation too.
#[derive(Clone, Copy)]
pub(crate) struct LineHashes {
    name: u32,
    other: u32,
    unclear: bool,
}

// The hashes of the names and of the other names of a table's entries, and whether one of these may have its name as its abbreviation too. They lie
// in two arrays (no heap), so that a loop compares several of one kind at a time.
#[derive(Drop)]
pub(crate) struct Hashes {
    pub names: [u32; MAX_LINES],
    pub others: [u32; MAX_LINES],
    pub unclear: bool,
}

// The halves of a word in one.
fn folded(hash: u64) -> u32
    ensures { result ≡ folded_hash hash }
{
    ((hash / FOLDED_MODULUS + hash % FOLDED_MODULUS) % FOLDED_MODULUS) as u32
}

// The hash of bytes.
fn hash_of(bytes: &[u8]) -> u32
    ensures { result ≡ hash_of bytes.now }
{
    let size = bytes.len() as u64;
    folded(
        bytes.iter().fold(size, |hash, b| {
            hash % MODULUS * MULTIPLIER + u64::from(*b)
        }),
    )
}

// The hash of an entry's other name, from its abbreviation and the hash of its name.
fn other_hash(abbreviation: &[u8], name: u32) -> u32
    ensures { result ≡ cond (leb 1 (length abbreviation.now)) (hash_of abbreviation.now) name }
{
    if abbreviation.is_empty() {
        name
    } else {
        hash_of(abbreviation)
    }
}

// The hashes of an entry with these texts.
fn text_hashes(name: &[u8], abbreviation: &[u8]) -> LineHashes
    ensures { (e : Entry) → name.now ≡ name_bytes e → abbreviation.now ≡ abbreviation_bytes e → HashesOf e result }
{
    let hash = hash_of(name);
    let other = other_hash(abbreviation, hash);
    LineHashes {
        name: hash,
        other,
        unclear: (name.len() == abbreviation.len()) & (hash == other),
    }
}

// The hashes of the entry that a body is of, where it is that of an accepted line of kind 04.
fn body_hashes(body: &[u8]) -> Option<LineHashes>
    ensures accepted { is_some result ≡ accepted_body body.now }
    ensures hashes_of { IfSome result (λ h. HashesOf (entry_in line_words body.now) h) }
{
    if !accept::accepts(body) {
        return None;
    }
    let p = layout_in(body, LINE_WORDS);
    Some(text_hashes(p.name.bytes(body), p.abbreviation.bytes(body)))
}

// The same of a line: it is decoded once, and judged by the bytes of its body.
pub(crate) fn line_hashes(line: &[u8]) -> Option<LineHashes>
    ensures accepted { is_some result ≡ is_granted (read_entry_line line.now) }
    ensures hashes_of { IfSome result (λ h. HashesOf (standing_in line.now) h) }
{
    let mut bytes = [0u8; ENTRY_BODY];
    let n = frame::decode(line, &mut bytes);
    body_hashes(octets::front(&bytes, n))
}

impl Hashes {
    // Those of no entry.
    pub(crate) fn new() -> Hashes
        ensures { (es : List Entry) → HashesKept es 0 result }
    {
        Hashes {
            names: [0; MAX_LINES],
            others: [0; MAX_LINES],
            unclear: false,
        }
    }

    // Keeps those of entry k.
    pub(crate) fn keep(&mut self, k: usize, entry: LineHashes)
        requires { k < max_lines }
        ensures { (es : List Entry) → HashesKept es k self.old → HashesOf (entry_at es k) entry → HashesKept es (k + 1) self.new }
    {
        self.names[k] = entry.name;
        self.others[k] = entry.other;
        self.unclear = self.unclear | entry.unclear;
    }

    // Whether entry k, by its hashes, may have a name in common with an earlier entry. The loop has no early exit, so that it can take several hashes
    // at a time.
    pub(crate) fn collides_before(&self, k: usize) -> bool
        ensures { result ≡ collides_before self.now k }
    {
        if MAX_LINES <= k {
            return true;
        }
        let c = self.names[k];
        let d = self.others[k];
        self.names[..k]
            .iter()
            .zip(&self.others[..k])
            .fold(false, |met, (&a, &b)| {
                met | (((a == c) | (b == c)) | ((a == d) | (b == d)))
            })
    }
}
