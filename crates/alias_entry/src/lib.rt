// Alias entries, and which are valid. An entry holds its name and abbreviation in arrays of their own with lengths, so that it can be handed over
// by value; bytes past a length are zeros, and so is the label where the class has none.
#![tactic(auto)]

pub mod bytes;

ghost use Rattle.std.specs.Prelude.{◌≡◌, length};
ghost use Rattle.common.specs.Index.{every};
ghost use Rattle.label_codec.specs.Body.{byte_at};
ghost use Rattle.alias_entry.specs.Entry.{TypedEntry, is_letter, is_name_byte, name_byte_at, name_byte_ok, name_of, text_ok, valid_of, value_class, value_ok, zero_entry};

use label::{Label, MAX_HIERARCHY};
use label_codec::byte;

pub const MAX_NAME: usize = 31;

pub const MAX_ABBREVIATION: usize = 15;

// The arrays that hold them have room for a zero past the last byte, so that they are C strings.
pub const NAME_BYTES: usize = MAX_NAME + 1;

pub const ABBREVIATION_BYTES: usize = MAX_ABBREVIATION + 1;

// What an alias stands for. A label stands beside it.
#[derive(Clone, Copy, PartialEq, Eq)]
pub enum Value {
    Hierarchy(u64),
    Category(u64),
    WholeLabel,
}

impl Value {
    // The number of its class, as bytes have it.
    pub fn class(self) -> u8
        ensures { result ≡ value_class self }
    {
        match self {
            Value::Hierarchy(_) => 1,
            Value::Category(_) => 2,
            Value::WholeLabel => 3,
        }
    }

    // Whether the value of an entry with a label is valid.
    #[tactic(auto, unfolding(crate::specs::Entry::value_ok, label::specs::Label::valid_of))]
    fn is_valid(self, l: Label) -> bool
        ensures { result ≡ value_ok self l }
    {
        match self {
            Value::Hierarchy(h) => (h <= MAX_HIERARCHY) & l.is_zero(),
            Value::Category(c) => (c < 256) & l.is_zero(),
            Value::WholeLabel => label::valid(l),
        }
    }
}

// Two structs that differ in a size, since C has both by value in an entry, and no exported function may take a struct with a const parameter. What
// is done with them takes the bytes and the length.
#[repr(C)]
#[derive(Clone, Copy)]
pub struct Name {
    pub bytes: [u8; NAME_BYTES],
    pub length: usize,
}

#[repr(C)]
#[derive(Clone, Copy)]
pub struct Abbreviation {
    pub bytes: [u8; ABBREVIATION_BYTES],
    pub length: usize,
}

#[derive(Clone, Copy)]
pub struct Entry {
    pub value: Value,
    pub label: Label,
    pub name: Name,
    pub abbreviation: Abbreviation,
}

// The entry of zeros.
pub fn zero() -> Entry
    ensures { result ≡ zero_entry }
{
    Entry {
        value: Value::Hierarchy(0),
        label: label::zero(),
        name: Name {
            bytes: [0; NAME_BYTES],
            length: 0,
        },
        abbreviation: Abbreviation {
            bytes: [0; ABBREVIATION_BYTES],
            length: 0,
        },
    }
}

#[tactic(auto, unfolding(crate::specs::Entry::is_letter))]
fn is_letter(c: u8) -> bool
    ensures { result ≡ is_letter c }
{
    c.is_ascii_alphabetic()
}

#[tactic(auto, unfolding(crate::specs::Entry::is_name_byte))]
fn is_name_byte(c: u8) -> bool
    ensures { result ≡ is_name_byte c }
{
    is_letter(c) | c.is_ascii_digit() | (c == b'_') | (c == b'-') | (c == b'.')
}

// Whether c may stand at index i where a name has n bytes.
#[tactic(auto, unfolding(crate::specs::Entry::name_byte_ok))]
fn name_byte_ok(n: usize, i: usize, c: u8) -> bool
    ensures { result ≡ name_byte_ok n i c }
{
    if i < n { is_name_byte(c) } else { c == 0 }
}

// Whether each byte may stand where it does. A fold has no early exit, so that it can take several bytes at a time.
fn all_name_bytes(bytes: &[u8], n: usize) -> bool
    ensures { result ≡ every (name_byte_at bytes.now n) (length bytes.now) }
{
    bytes
        .iter()
        .enumerate()
        .fold(true, |good, (i, c)| good & name_byte_ok(n, i, *c))
}

// Whether the first n bytes are a name or nothing, and the rest are zeros, of which there is one at least.
#[tactic(auto, unfolding(crate::specs::Entry::name_of))]
fn is_name(bytes: &[u8], n: usize) -> bool
    ensures { result ≡ name_of bytes.now n }
{
    (n < bytes.len()) & ((n == 0) | is_letter(byte(bytes, 0))) & all_name_bytes(bytes, n)
}

#[tactic(auto, unfolding(crate::specs::Entry::valid_of))]
pub fn valid(e: Entry) -> bool
    ensures { result ≡ valid_of e }
{
    e.value.is_valid(e.label)
        & (1 <= e.name.length)
        & is_name(&e.name.bytes, e.name.length)
        & is_name(&e.abbreviation.bytes, e.abbreviation.length)
}

// Whether all bytes are name bytes, by a fold too.
fn all_of_name(text: &[u8]) -> bool
    ensures { result ≡ every (λ k. is_name_byte (byte_at text.now k)) (length text.now) }
{
    text.iter().fold(true, |good, c| good & is_name_byte(*c))
}

// Whether a text is a name or nothing.
#[tactic(auto, unfolding(crate::specs::Entry::text_ok))]
pub fn text_ok(text: &[u8]) -> bool
    ensures { result ≡ text_ok text.now }
{
    ((text.len() == 0) | is_letter(byte(text, 0))) & all_of_name(text)
}

// Every entry has what its type says.
pub(crate) fn typed(e: Entry)
    ensures { TypedEntry e }
{}
