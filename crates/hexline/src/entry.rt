// Alias entries, for a crate that knows them by their lines: what the crate `alias_entry` has, under this crate's name.
ghost use Rattle.std.specs.Prelude.{◌≡◌};
ghost use Rattle.alias_entry.specs.Entry.{valid_of, zero_entry};

pub use alias_entry::bytes::{Layout, Span};
pub use alias_entry::{
    ABBREVIATION_BYTES, Abbreviation, Entry, MAX_ABBREVIATION, MAX_NAME, NAME_BYTES, Name, Value,
};

// The entry of zeros.
pub fn zero() -> Entry
    ensures { result ≡ zero_entry }
{
    alias_entry::zero()
}

pub fn valid(e: Entry) -> bool
    ensures { result ≡ valid_of e }
{
    alias_entry::valid(e)
}
