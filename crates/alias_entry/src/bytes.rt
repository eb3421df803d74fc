// Alias entries as bytes: the class, the value, and two texts, each with its length before it. An entry with a number above 255, or with a text that
// is longer than the array that holds it, has no bytes.
ghost use Rattle.std.specs.Prelude.{◌≡◌, true, ◌+◌, ◌<◌, ◌≤◌, drop, length, take, List, ℕ};
ghost use Rattle.label.specs.Words.{words as set_words};
ghost use Rattle.octets.specs.Bytes.{Appended};
ghost use Rattle.octets.specs.Internal.Put.{Put};
ghost use Rattle.label_codec.specs.Body.{byte_at, label_size};
ghost use Rattle.label_codec.specs.Codec as codecs;
ghost use Rattle.alias_entry.specs.Codec.{entry_in_bytes, entry_code, entry_fits, value_fits};
ghost use Rattle.alias_entry.specs.Entry.{entry_bytes, label_from, layout_of, span_of, text_bytes, text_from, value_bytes, value_by_class, value_size};

use crate::{
    ABBREVIATION_BYTES, Abbreviation, Entry, MAX_ABBREVIATION, MAX_NAME, NAME_BYTES, Name, Value,
};
use label::Label;
use label_codec::labels::{LABEL_BYTES, append_label, label_at, label_size};
use label_codec::{append_byte, byte};

// The most bytes of an entry in a line of kind 04: class, label, and two lengths with their texts.
pub const ENTRY_BYTES: usize = 1 + LABEL_BYTES + (1 + MAX_NAME) + (1 + MAX_ABBREVIATION);

// How many bytes a value of a class has. The second clause follows, and is stated for callers.
#[tactic(auto, unfolding(crate::specs::Entry::value_size))]
pub fn value_size(class: u8, words: usize) -> usize
    ensures value { result ≡ value_size (codecs.width words) class }
    ensures upper_bound { result ≤ label_size set_words }
{
    if class == 3 { label_size(words) } else { 1 }
}

impl Value {
    // Whether the value of an entry with a label has bytes.
    fn fits(self, l: &Label) -> bool
        ensures { result ≡ value_fits self l.now }
    {
        match self {
            Value::Hierarchy(h) => h <= 255,
            Value::Category(c) => c <= 255,
            Value::WholeLabel => l.hierarchy <= 255,
        }
    }

    // The bytes of a value that fits them, at index at, and the index past them.
    fn put(self, out: &mut [u8], at: usize, l: Label, words: usize) -> usize
        requires { (at + length (value_bytes (codecs.width words) self l) ≤ length out.old) × (value_fits self l ≡ true) }
        ensures { Put out.old at (value_bytes (codecs.width words) self l) result out.new }
    {
        match self {
            Value::Hierarchy(h) => append_byte(out, at, h as u8),
            Value::Category(c) => append_byte(out, at, c as u8),
            Value::WholeLabel => append_label(out, at, l, words),
        }
    }
}

// A length and that many bytes of a text at index at, and the index past them.
fn put_text(out: &mut [u8], at: usize, text: &[u8], n: usize) -> usize
    requires { (n ≤ length text.now) × (n < 256) × (at + length (text_bytes text.now n) ≤ length out.old) }
    ensures { Put out.old at (text_bytes text.now n) result out.new }
{
    let next = append_byte(out, at, n as u8);
    octets::append(out, next, octets::front(text, n))
}

impl Entry {
    // Whether each number of the entry has a byte, and its texts are no longer than their arrays.
    fn fits(&self) -> bool
        ensures { result ≡ entry_fits self.now }
    {
        self.value.fits(&self.label)
            & (self.name.length <= NAME_BYTES)
            & (self.abbreviation.length <= ABBREVIATION_BYTES)
    }

    // How many bytes an entry has that fits them.
    fn size(&self, words: usize) -> usize
        requires { entry_fits self.now ≡ true }
        ensures { result ≡ length (entry_bytes (codecs.width words) self.now) }
    {
        1 + value_size(self.value.class(), words)
            + (1 + self.name.length)
            + (1 + self.abbreviation.length)
    }

    // The bytes of an entry that fits them, at index at, and the index past them.
    fn put(&self, out: &mut [u8], at: usize, words: usize) -> usize
        requires { (at + length (entry_bytes (codecs.width words) self.now) ≤ length out.old) × (entry_fits self.now ≡ true) }
        ensures { Put out.old at (entry_bytes (codecs.width words) self.now) result out.new }
    {
        let value_at = append_byte(out, at, self.value.class());
        let name_at = self.value.put(out, value_at, self.label, words);
        let abbreviation_at = put_text(out, name_at, &self.name.bytes, self.name.length);
        put_text(
            out,
            abbreviation_at,
            &self.abbreviation.bytes,
            self.abbreviation.length,
        )
    }
}

// Appends the bytes of an entry to out at index at, and answers the index past them. That is not done by the trait by which the crate `label_codec`
// appends labels, ranges and tuples: its methods ask for room, and what another crate may call asks for nothing.
pub fn append_entry(out: &mut [u8], at: usize, e: Entry, words: usize) -> usize
    ensures { Appended out.old at (entry_code (codecs.width words) e) result out.new }
{
    if e.fits() && octets::fits(out.len(), at, e.size(words)) {
        return e.put(out, at, words);
    }
    at
}

// A text in a line's body: the index of its first byte, and its length.
#[derive(Clone, Copy)]
pub struct Span {
    pub at: usize,
    pub length: usize,
}

impl Span {
    // The bytes of a body at the span: fewer, where the body ends before.
    pub fn bytes(self, body: &[u8]) -> &[u8]
        ensures { result.now ≡ take self.length (drop self.at body.now) }
    {
        octets::front(octets::rest(body, self.at), self.length)
    }
}

// The class of an entry, and where its texts stand in a line's body. The class is the byte that stands there, which may be the number of none: so
// `layout_of` has it, and who reads a line refuses it. How far the texts go stands in the contracts of what finds a layout, and not in the type: the
// definitions make layouts of any bytes.
#[derive(Clone, Copy)]
pub struct Layout {
    pub class: u8,
    pub name: Span,
    pub abbreviation: Span,
}

// Bytes that are read by their index, with 0 past the last: those of a body, or those that stand as digits in a line.
pub trait Bytes {
    ghost bytes: { Self → List ℕ };

    fn byte(&self, i: usize) -> u8
        ensures { result ≡ byte_at (bytes self.now) i };
}

impl Bytes for &[u8] {
    ghost bytes = { λ s. s.now };

    fn byte(&self, i: usize) -> u8 {
        byte(self, i)
    }
}

// The text whose length is at index at. The second clause of this and the next three follows, and is stated for callers.
fn span_in<B: Bytes>(bytes: &B, at: usize) -> Span
    requires { at < 1024 }
    ensures value { result ≡ span_of (B.bytes bytes.now) at }
    ensures at_value { (result.at ≡ at + 1) × (result.length < 256) }
{
    Span {
        at: at + 1,
        length: usize::from(bytes.byte(at)),
    }
}

// The layout of the entry whose class is at index at.
#[tactic(auto, unfolding(crate::specs::Entry::layout_of))]
fn layout_from<B: Bytes>(bytes: &B, at: usize, words: usize) -> Layout
    requires { at ≤ 1 }
    ensures value { result ≡ layout_of (codecs.width words) (B.bytes bytes.now) at }
    ensures at_bound { (result.name.at < 512) × (result.name.length < 256) × (result.abbreviation.at < 768) × (result.abbreviation.length < 256) }
{
    let class = bytes.byte(at);
    let name = span_in(bytes, at + 1 + value_size(class, words));
    let abbreviation = span_in(bytes, name.at + name.length);
    Layout {
        class,
        name,
        abbreviation,
    }
}

// The layout of the entry in the bytes of a body, behind the kind.
pub fn layout_behind<B: Bytes>(body: &B, words: usize) -> Layout
    ensures value { result ≡ layout_of (codecs.width words) (B.bytes body.now) 1 }
    ensures at_bound { (result.name.at < 512) × (result.name.length < 256) × (result.abbreviation.at < 768) × (result.abbreviation.length < 256) }
{
    layout_from(body, 1, words)
}

// The layout of the entry in a body, behind the kind.
pub fn layout_in(body: &[u8], words: usize) -> Layout
    ensures value { result ≡ layout_of (codecs.width words) body.now 1 }
    ensures at_bound { (result.name.at < 512) × (result.name.length < 256) × (result.abbreviation.at < 768) × (result.abbreviation.length < 256) }
{
    layout_behind(&body, words)
}

// The value of a class, with its number, which a whole label has not.
#[tactic(auto, unfolding(crate::specs::Entry::value_by_class))]
pub fn value_from(class: u64, number: u64) -> Value
    ensures { result ≡ value_by_class class number }
{
    match class {
        1 => Value::Hierarchy(number),
        2 => Value::Category(number),
        _ => Value::WholeLabel,
    }
}

// The label of an entry of a class, its value at index at.
#[tactic(auto, unfolding(crate::specs::Entry::label_from))]
fn label_from(bytes: &[u8], class: u8, at: usize, words: usize) -> Label
    ensures { result ≡ label_from (codecs.width words) bytes.now class at }
{
    if class == 3 {
        return label_at(bytes, at, words);
    }
    label::zero()
}

// The text at a span in an array of N bytes, with zeros past its end.
fn read_text<const N: usize>(bytes: &[u8], s: Span) -> [u8; N]
    ensures { result ≡ text_from N bytes.now s.at s.length }
{
    let text = octets::front(s.bytes(bytes), N);
    let mut own = [0; N];
    own[..text.len()].copy_from_slice(text);
    own
}

// The entry whose class is at index at of any bytes.
#[tactic(auto, unfolding(crate::specs::Entry::entry_from))]
pub fn entry_at(bytes: &[u8], at: usize, words: usize) -> Entry
    ensures { result ≡ entry_in_bytes (codecs.width words) bytes.now at }
{
    let own = octets::rest(bytes, at);
    let p = layout_from(&own, 0, words);
    Entry {
        value: value_from(u64::from(p.class), u64::from(byte(own, 1))),
        label: label_from(own, p.class, 1, words),
        name: Name {
            bytes: read_text(own, p.name),
            length: p.name.length,
        },
        abbreviation: Abbreviation {
            bytes: read_text(own, p.abbreviation),
            length: p.abbreviation.length,
        },
    }
}
