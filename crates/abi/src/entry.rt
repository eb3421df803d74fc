// Alias entries: what an entry names is a number of its own, 1 a hierarchy, 2 a category, 3 a label.
ghost use Rattle.std.specs.Prelude.{◌≡◌};
ghost use Rattle.common.specs.Answer.{answer_of, granted, require};
ghost use Rattle.abi.specs.Entry.{decoded_of, encoded_of, formed_of, value_number, zero_c_entry};

use alias_entry::bytes::value_from;
use alias_entry::{Abbreviation, Entry, Name, Value};
use common::errno::Errno;
use label::Label;

#[repr(C)]
#[derive(Clone, Copy)]
pub struct CEntry {
    pub names: u64,
    pub number: u64,
    pub label: Label,
    pub name: Name,
    pub abbreviation: Abbreviation,
}

// The entry of any numbers, where what names nothing names a label: for what was tested. The conversion refuses it.
pub fn decode(e: CEntry) -> Entry
    ensures { result ≡ decoded_of e }
{
    let (names, number) = (e.names, e.number);
    Entry {
        value: value_from(names, number),
        label: e.label,
        name: e.name,
        abbreviation: e.abbreviation,
    }
}

// An entry names what can be named: a label has no number.
impl TryFrom<CEntry> for Entry {
    type Error = Errno;

    ghost try_from_gives = { λ e r. answer_of r ≡ require (formed_of e) 22 (granted (decoded_of e)) };

    #[tactic(auto, unfolding(crate::specs::Entry::formed_of))]
    fn try_from(e: CEntry) -> Result<Entry, Errno> {
        match (e.names, e.number) {
            (1, _) | (2, _) | (3, 0) => Ok(Entry {
                value: value_from(e.names, e.number),
                label: e.label,
                name: e.name,
                abbreviation: e.abbreviation,
            }),
            _ => Err(Errno::Invalid),
        }
    }
}

// The number of what an entry names.
fn number(v: Value) -> u64
    ensures { result ≡ value_number v }
{
    match v {
        Value::Hierarchy(h) => h,
        Value::Category(c) => c,
        Value::WholeLabel => 0,
    }
}

impl From<Entry> for CEntry {
    ghost from_gives = { λ e r. r ≡ encoded_of e };

    fn from(e: Entry) -> CEntry {
        CEntry {
            names: e.value.class() as u64,
            number: number(e.value),
            label: e.label,
            name: e.name,
            abbreviation: e.abbreviation,
        }
    }
}

// The entry of zeros: it names nothing.
pub fn zero() -> CEntry
    ensures { result ≡ zero_c_entry }
{
    let none = alias_entry::zero();
    CEntry {
        names: 0,
        number: 0,
        label: none.label,
        name: none.name,
        abbreviation: none.abbreviation,
    }
}
