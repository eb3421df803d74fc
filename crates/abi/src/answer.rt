// Answers. A grant and a refusal are told apart by `refusal`, which no grant has and no refusal lacks, and a refusal that carries one more number
// from one that does not by `carries`.
ghost use Rattle.std.specs.Prelude.{ℕ, ◌≡◌};
ghost use Rattle.common.specs.Answer.{answer_by, answer_of};
ghost use Rattle.label.specs.Region.{region_number};
ghost use Rattle.hexline.specs.Line.{kind_number};
ghost use Rattle.monitor.specs.Monitor as monitors;
ghost use Rattle.abi.specs.Answer.{bare_answer, entry_answer, grant, label_answer, line_count, next_number, number_answer, numbered, range_answer, range_written, refusal_by, same, tuple_answer};
ghost use Rattle.abi.specs.Flag.{encoded_of};

use crate::entry;
use crate::entry::CEntry;
use alias::LineStarts;
use alias_entry::Entry;
use common::errno::Errno;
use hexline::Kind;
use label::Label;
use label::region::Region;
use label::words::WORDS;
use monitor::Grant;
use range::tuple::Tuple;
use range::{Range, tuple};
use text::RangeWritten;

// A refusal's number, or 0 for a grant; whether a refusal carries one more number, 1 or 0; and the number that a grant answers or a refusal
// carries, else 0.
#[repr(C)]
#[derive(Clone, Copy)]
pub struct CAnswer {
    pub refusal: u32,
    pub carries: u32,
    pub value: u64,
}

// An answer with the value that is granted; beside a refusal stand zeros. There is a struct for each type: what C is handed has no type parameters.
#[repr(C)]
#[derive(Clone, Copy)]
pub struct CLabelAnswer {
    pub answer: CAnswer,
    pub label: Label,
}

#[repr(C)]
#[derive(Clone, Copy)]
pub struct CRangeAnswer {
    pub answer: CAnswer,
    pub range: Range,
}

#[repr(C)]
#[derive(Clone, Copy)]
pub struct CTupleAnswer {
    pub answer: CAnswer,
    pub tuple: Tuple,
}

#[repr(C)]
#[derive(Clone, Copy)]
pub struct CEntryAnswer {
    pub answer: CAnswer,
    pub entry: CEntry,
}

// The status of a range that was written, beside the length.
#[repr(C)]
#[derive(Clone, Copy)]
pub struct CRangeWritten {
    pub answer: CAnswer,
    pub status: u64,
}

// What a grant answers where C has a number for it.
pub trait Numbered {
    ghost number_of: { Self → ℕ };

    fn number(self) -> u64
        ensures { result ≡ number_of self };
}

// Nothing more: 0.
impl Numbered for () {
    ghost number_of = { λ u. 0 };

    fn number(self) -> u64 {
        0
    }
}

impl Numbered for bool {
    ghost number_of = { encoded_of };

    fn number(self) -> u64 {
        if self { 1 } else { 0 }
    }
}

impl Numbered for u64 {
    ghost number_of = { same };

    fn number(self) -> u64 {
        self
    }
}

impl Numbered for usize {
    ghost number_of = { same };

    fn number(self) -> u64 {
        self as u64
    }
}

impl Numbered for Region {
    ghost number_of = { region_number };

    fn number(self) -> u64 {
        self as u64
    }
}

// The category that is next; where there is none, the number of categories, which is none of them.
impl Numbered for Option<u64> {
    ghost number_of = { next_number };

    fn number(self) -> u64 {
        self.unwrap_or((WORDS * 64) as u64)
    }
}

impl Numbered for Kind {
    ghost number_of = { kind_number };

    fn number(self) -> u64 {
        self as u64
    }
}

impl Numbered for Grant {
    ghost number_of = { monitors.grant_number };

    fn number(self) -> u64 {
        self as u64
    }
}

// How many lines a table has.
impl Numbered for LineStarts {
    ghost number_of = { line_count };

    fn number(self) -> u64 {
        self.count as u64
    }
}

pub fn granted(value: u64) -> CAnswer
    ensures { result ≡ grant value }
{
    CAnswer {
        refusal: 0,
        carries: 0,
        value,
    }
}

pub fn refused(e: Errno) -> CAnswer
    ensures { result ≡ refusal_by e }
{
    match e.detail() {
        Some(n) => CAnswer {
            refusal: e.number() as u32,
            carries: 1,
            value: n as u64,
        },
        None => CAnswer {
            refusal: e.number() as u32,
            carries: 0,
            value: 0,
        },
    }
}

// An answer that C has as a number. The second clause says the same of the number that the definitions answer.
pub fn of<T: Numbered>(r: Result<T, Errno>) -> CAnswer
    ensures value { result ≡ numbered T.number_of (answer_of r) }
    ensures number { result ≡ number_answer (answer_by T.number_of r) }
{
    match r {
        Ok(x) => granted(x.number()),
        Err(e) => refused(e),
    }
}

// The answer that stands beside what is granted.
fn bare<T: Copy>(r: Result<T, Errno>) -> CAnswer
    ensures { result ≡ bare_answer (answer_of r) }
{
    match r {
        Ok(_) => granted(0),
        Err(e) => refused(e),
    }
}

// One for each struct that C has: see there.
impl From<Result<Label, Errno>> for CLabelAnswer {
    ghost from_gives = { λ r x. x ≡ label_answer (answer_of r) };

    fn from(r: Result<Label, Errno>) -> CLabelAnswer {
        CLabelAnswer {
            answer: bare(r),
            label: r.unwrap_or(label::zero()),
        }
    }
}

impl From<Result<Range, Errno>> for CRangeAnswer {
    ghost from_gives = { λ r x. x ≡ range_answer (answer_of r) };

    fn from(r: Result<Range, Errno>) -> CRangeAnswer {
        CRangeAnswer {
            answer: bare(r),
            range: r.unwrap_or(range::zero()),
        }
    }
}

impl From<Result<Tuple, Errno>> for CTupleAnswer {
    ghost from_gives = { λ r x. x ≡ tuple_answer (answer_of r) };

    fn from(r: Result<Tuple, Errno>) -> CTupleAnswer {
        CTupleAnswer {
            answer: bare(r),
            tuple: r.unwrap_or(tuple::empty()),
        }
    }
}

impl From<Result<Entry, Errno>> for CEntryAnswer {
    ghost from_gives = { λ r x. x ≡ entry_answer (answer_of r) };

    fn from(r: Result<Entry, Errno>) -> CEntryAnswer {
        CEntryAnswer {
            answer: bare(r),
            entry: r.map_or(entry::zero(), CEntry::from),
        }
    }
}

impl From<Result<RangeWritten, Errno>> for CRangeWritten {
    ghost from_gives = { λ r x. x ≡ range_written r };

    fn from(r: Result<RangeWritten, Errno>) -> CRangeWritten {
        match r {
            Ok(w) => CRangeWritten {
                answer: granted(w.length as u64),
                status: w.status as u64,
            },
            Err(e) => CRangeWritten {
                answer: refused(e),
                status: 0,
            },
        }
    }
}
