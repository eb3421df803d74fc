// Labels and ranges as text, by the names of an alias table. Each function tests the table that it is lent, then the rest of what it is handed; a
// refusal writes nothing. `more` says that the table is cut off, and more follows.
#![tactic(auto)]

mod name;
pub mod numbers;
pub mod read;
pub mod write;

// Whether hierarchy and categories are named, or a whole label where it has a name.
#[derive(Clone, Copy)]
pub enum Form {
    Definition,
    Alias,
}

// Which name of an entry is written: the abbreviation only where it is not empty.
#[derive(Clone, Copy)]
pub enum Variant {
    Names,
    Abbreviations,
}

#[derive(Clone, Copy)]
pub struct Style {
    pub form: Form,
    pub variant: Variant,
}

// What was written of a range: its length, and its status, a number as programs and C have it: 0 with both ends, and 1 with the low end only.
#[derive(Clone, Copy)]
pub struct RangeWritten {
    pub length: usize,
    pub status: u8,
}
