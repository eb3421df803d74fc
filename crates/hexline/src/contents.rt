// What stands in a line behind its kind. One writer and one reader of lines serve all four kinds.
ghost use Rattle.std.specs.Prelude.{◌≡◌, ◌∷◌, ◌+◌, ◌≤◌, [], Bool, List, ℕ, false, true, length};
ghost use Rattle.common.specs.Answer.{answer_of, granted, require};
ghost use Rattle.common.specs.Buffer.{WrittenTo};
ghost use Rattle.frame.specs.Frame.{max_body, read_body};
ghost use Rattle.octets.specs.Bytes.{Appended};
ghost use Rattle.label.specs.Label as labels;
ghost use Rattle.range.specs.Range as ranges;
ghost use Rattle.range.specs.Tuple as tuples;
ghost use Rattle.label_codec.specs.Body.{label_bytes, line_words, range_bytes};
ghost use Rattle.alias_entry.specs.Entry as entries;
ghost use Rattle.alias_entry.specs.Entry.{entry_bytes};
ghost use Rattle.std.proofs.Common.{rules};
ghost use Rattle.hexline.specs.Internal.Contents.{entry_form_fits, label_form_fits, range_form_fits, tuple_bytes, tuple_form_fits};
ghost use Rattle.hexline.specs.Line.{body_form, contents_of, entry_form, entry_in, label_form, label_in_body, line_of, range_form, range_in, tuple_form, tuple_in};

use crate::Kind;
use crate::accept::{ENTRY_BODY, accepts};
use alias_entry::Entry;
use alias_entry::bytes::{append_entry, entry_at};
use common::errno::Errno;
use label::Label;
use label_codec::labels::{
    LABEL_BYTES, RANGE_BYTES, append_label, append_range, label_at, range_at,
};
use label_codec::tuples::{TUPLE_BYTES, append_tuple, tuple_at, tuple_size};
use label_codec::{LINE_WORDS, byte};
use range::tuple::Tuple;
use range::{Range, tuple};

// The longest body of a label, of a range, and of a tuple, which is the longest of all.
const LABEL_BODY: usize = 1 + LABEL_BYTES;

const RANGE_BODY: usize = 1 + RANGE_BYTES;

pub(crate) const TUPLE_BODY: usize = 1 + TUPLE_BYTES;

// Contents whose bodies have N bytes at most.
pub(crate) trait Contents<const N: usize>: Copy {
    // Their kind, which of them are valid, and their bytes behind the kind.
    ghost KIND: { ℕ };

    ghost valid_of: { Self → Bool };

    ghost bytes: { Self → List ℕ };

    // Which bodies have the form of this kind's, and what stands in a body.
    ghost form: { List ℕ → Bool };

    ghost inside: { List ℕ → Self };

    const KIND: u8;

    fn valid(self) -> bool
        ensures { result ≡ valid_of self };

    // Puts the bytes of valid contents behind the kind, and answers the index past them.
    fn append(self, body: &mut [u8]) -> usize
        requires { valid_of self ≡ true }
        ensures written { Appended body.old 1 (bytes self) result body.new }
        ensures short { 1 + length (bytes self) ≤ N };

    // What is read of a body. Each kind has its own form, so each has a function, also where two read alike.
    fn of_body(body: &[u8]) -> Result<Self, Errno>
        ensures { answer_of result ≡ contents_of form inside valid_of body.now };

    // The contents themselves, where they are valid.
    fn tested(self) -> Result<Self, Errno>
        ensures { answer_of result ≡ require (valid_of self) 22 (granted self) }
    {
        if !self.valid() {
            return Err(Errno::Invalid);
        }
        Ok(self)
    }

    // The kind's byte fits the buffer, and a buffer's bytes a line; so does each body of the form, and none of them is empty.
    ghost fits_buffers: { (1 ≤ N) × (N ≤ max_body) };

    ghost form_fits: { (bs : List ℕ) → form bs ≡ true → (1 ≤ length bs) × (length bs ≤ N) };
}

// Whether a body has that many bytes, and that kind.
#[tactic(auto, unfolding(crate::specs::Line::body_form))]
fn has_form(body: &[u8], bytes: usize, kind: u8) -> bool
    ensures { result ≡ body_form body.now bytes kind }
{
    (body.len() == bytes) & (byte(body, 0) == kind)
}

impl Contents<LABEL_BODY> for Label {
    ghost KIND = { 1 };

    ghost valid_of = { labels.valid_of };

    ghost bytes = { label_bytes line_words };

    ghost form = { label_form 1 line_words };

    ghost inside = { label_in_body line_words };

    ghost fits_buffers = { Prim.search rules };

    ghost form_fits = { label_form_fits };

    const KIND: u8 = Kind::Label as u8;

    fn valid(self) -> bool {
        label::valid(self)
    }

    #[tactic(auto, using(label_codec::proofs::BodyLaws::label_length, label_codec::proofs::BodyLoops::label_coded))]
    fn append(self, body: &mut [u8]) -> usize {
        append_label(body, 1, self, LINE_WORDS)
    }

    #[tactic(auto, using(crate::proofs::LineLaws::body_formless, crate::proofs::LineLaws::body_tested), unfolding(crate::specs::Line::label_form))]
    fn of_body(body: &[u8]) -> Result<Label, Errno> {
        if !has_form(body, LABEL_BODY, Self::KIND) {
            return Err(Errno::Invalid);
        }
        label_at(body, 1, LINE_WORDS).tested()
    }
}

impl Contents<RANGE_BODY> for Range {
    ghost KIND = { 2 };

    ghost valid_of = { ranges.valid_of };

    ghost bytes = { range_bytes line_words };

    ghost form = { range_form 2 line_words };

    ghost inside = { range_in line_words };

    ghost fits_buffers = { Prim.search rules };

    ghost form_fits = { range_form_fits };

    const KIND: u8 = Kind::Range as u8;

    fn valid(self) -> bool {
        range::valid(self)
    }

    #[tactic(auto, using(label_codec::proofs::BodyLaws::range_length, label_codec::proofs::BodyLoops::range_coded))]
    fn append(self, body: &mut [u8]) -> usize {
        append_range(body, 1, self, LINE_WORDS)
    }

    #[tactic(auto, using(crate::proofs::LineLaws::body_formless, crate::proofs::LineLaws::body_tested), unfolding(crate::specs::Line::range_form))]
    fn of_body(body: &[u8]) -> Result<Range, Errno> {
        if !has_form(body, RANGE_BODY, Self::KIND) {
            return Err(Errno::Invalid);
        }
        range_at(body, 1, LINE_WORDS).tested()
    }
}

// Whether a body has a tuple's form: as many ranges as the byte of presence says, which has no bit but those of the regions.
#[tactic(auto, unfolding(crate::specs::Line::tuple_form))]
fn has_tuple_form(body: &[u8]) -> bool
    ensures { result ≡ tuple_form 3 line_words body.now }
{
    let p = byte(body, 1);
    (p < 8) & has_form(body, 1 + tuple_size(p, LINE_WORDS), Tuple::KIND)
}

impl Contents<TUPLE_BODY> for Tuple {
    ghost KIND = { 3 };

    ghost valid_of = { tuples.valid_of };

    ghost bytes = { tuple_bytes line_words };

    ghost form = { tuple_form 3 line_words };

    ghost inside = { tuple_in line_words };

    ghost fits_buffers = { Prim.search rules };

    ghost form_fits = { tuple_form_fits };

    const KIND: u8 = Kind::Tuple as u8;

    fn valid(self) -> bool {
        tuple::valid(self)
    }

    #[tactic(auto, using(label_codec::proofs::TupleBytesLaws::regions_size, label_codec::proofs::TupleBytesLaws::tuple_coded))]
    fn append(self, body: &mut [u8]) -> usize {
        append_tuple(body, 1, self, LINE_WORDS)
    }

    #[tactic(auto, using(crate::proofs::LineLaws::body_formless, crate::proofs::LineLaws::body_tested))]
    fn of_body(body: &[u8]) -> Result<Tuple, Errno> {
        if !has_tuple_form(body) {
            return Err(Errno::Invalid);
        }
        tuple_at(body, 1, LINE_WORDS).tested()
    }
}

impl Contents<ENTRY_BODY> for Entry {
    ghost KIND = { 4 };

    ghost valid_of = { entries.valid_of };

    ghost bytes = { entry_bytes line_words };

    ghost form = { entry_form 4 line_words };

    ghost inside = { entry_in line_words };

    ghost fits_buffers = { Prim.search rules };

    ghost form_fits = { entry_form_fits };

    const KIND: u8 = Kind::Entry as u8;

    fn valid(self) -> bool {
        alias_entry::valid(self)
    }

    #[tactic(auto, using(alias_entry::proofs::EntryLaws::entry_coded))]
    fn append(self, body: &mut [u8]) -> usize {
        append_entry(body, 1, self, LINE_WORDS)
    }

    // Judged by its bytes: a read takes a quarter longer where the entry is made first and then tested.
    #[tactic(auto, using(crate::proofs::LineLaws::body_granted, crate::proofs::LineLaws::body_refused))]
    fn of_body(body: &[u8]) -> Result<Entry, Errno> {
        if !accepts(body) {
            return Err(Errno::Invalid);
        }
        Ok(entry_at(body, 1, LINE_WORDS))
    }
}

// The line of some contents.
pub(crate) fn write<const N: usize, T: Contents<N>>(
    contents: T,
    out: &mut [u8],
) -> Result<usize, Errno>
    ensures { WrittenTo result (line_of (T.valid_of contents) (T.KIND ∷ T.bytes contents)) out.old out.new }
{
    // Not by `tested` and `?`, which copies the contents: a tuple took a third longer so.
    if !contents.valid() {
        return Err(Errno::Invalid);
    }
    let mut body = [0u8; N];
    body[0] = T::KIND;
    let n = contents.append(&mut body);
    frame::write(octets::front(&body, n), out)
}

// The contents of a line of their kind.
pub(crate) fn read<const N: usize, T: Contents<N>>(line: &[u8]) -> Result<T, Errno>
    ensures { answer_of result ≡ read_body (contents_of T.form T.inside T.valid_of) line.now }
{
    let mut body = [0u8; N];
    let n = frame::decode(line, &mut body);
    T::of_body(octets::front(&body, n))
}
