// Labels for mandatory access control: a hierarchy number and a set of categories. Each function tests the labels that it is handed and
// refuses an invalid one with 22; only `valid` answers a bare yes or no. The methods of a label are for labels that were tested: they test nothing, and
// answer what their definitions say of any numbers.
#![tactic(auto)]

pub mod caller;
pub mod region;
pub mod words;

ghost use Rattle.std.specs.Prelude.{◌≡◌, ◌&&◌, ltb, length};
ghost use Rattle.common.specs.Answer.{answer_by, answer_of, granted, require};
ghost use Rattle.label.specs.Label.{dominates_of, equal_of, lower_bound_of, upper_bound_of, valid_of, with_category_of, zero_label, Typed};
ghost use Rattle.label.specs.Region.{region_number, region_of};
ghost use Rattle.label.specs.Words.{categories, has, members_of, next_category_from};

use crate::region::Region;
use crate::words::WORDS;
use common::errno::{Errno, require};

// The largest hierarchy number of a valid label.
pub const MAX_HIERARCHY: u64 = 199;

#[repr(C)]
#[derive(Clone, Copy, PartialEq, Eq, Default)]
pub struct Label {
    pub hierarchy: u64,
    pub categories: [u64; WORDS],
}

// Functions of labels that were tested: each takes any numbers.
impl Label {
    // Whether a label dominates another.
    #[tactic(auto, unfolding(crate::specs::Label::dominates_of))]
    pub fn dominates(&self, other: &Label) -> bool
        ensures { result ≡ dominates_of self.now other.now }
    {
        (other.hierarchy <= self.hierarchy) & words::includes(self.categories, other.categories)
    }

    // Whether two labels are equal.
    #[tactic(auto, using(crate::proofs::WordLaws::equal_words), unfolding(crate::specs::Label::equal_of))]
    pub fn equals(&self, other: &Label) -> bool
        ensures { result ≡ equal_of self.now other.now }
    {
        self == other
    }

    // Whether a label is the label of zeros, as is held where there is none.
    pub fn is_zero(&self) -> bool
        ensures { result ≡ equal_of self.now zero_label }
    {
        self.equals(&zero())
    }

    // The larger hierarchy, and the union.
    #[tactic(auto, unfolding(crate::specs::Label::upper_bound_of))]
    pub fn upper_bound(&self, other: &Label) -> Label
        ensures { result ≡ upper_bound_of self.now other.now }
    {
        Label {
            hierarchy: self.hierarchy.max(other.hierarchy),
            categories: words::union(self.categories, other.categories),
        }
    }

    // The smaller hierarchy, and the intersection.
    #[tactic(auto, unfolding(crate::specs::Label::lower_bound_of))]
    pub fn lower_bound(&self, other: &Label) -> Label
        ensures { result ≡ lower_bound_of self.now other.now }
    {
        Label {
            hierarchy: self.hierarchy.min(other.hierarchy),
            categories: words::intersection(self.categories, other.categories),
        }
    }
}

// The label of zeros: hierarchy 0, no categories.
pub fn zero() -> Label
    ensures { result ≡ zero_label }
{
    Label::default()
}

#[tactic(auto, unfolding(crate::specs::Label::valid_of))]
pub fn valid(a: Label) -> bool
    ensures { result ≡ valid_of a }
{
    a.hierarchy <= MAX_HIERARCHY
}

// Whether each of two labels is valid.
fn both_valid(a: Label, b: Label) -> bool
    ensures { result ≡ (valid_of a && valid_of b) }
{
    valid(a) & valid(b)
}

// Whether a dominates b.
pub fn dominates(a: Label, b: Label) -> Result<bool, Errno>
    ensures { answer_of result ≡ require (valid_of a && valid_of b) 22 (granted (dominates_of a b)) }
{
    require(both_valid(a, b), Errno::Invalid)?;
    Ok(a.dominates(&b))
}

// Whether a and b are equal.
pub fn equal(a: Label, b: Label) -> Result<bool, Errno>
    ensures { answer_of result ≡ require (valid_of a && valid_of b) 22 (granted (equal_of a b)) }
{
    require(both_valid(a, b), Errno::Invalid)?;
    Ok(a.equals(&b))
}

// The least label that dominates a and b.
pub fn upper_bound(a: Label, b: Label) -> Result<Label, Errno>
    ensures { answer_of result ≡ require (valid_of a && valid_of b) 22 (granted (upper_bound_of a b)) }
{
    require(both_valid(a, b), Errno::Invalid)?;
    Ok(a.upper_bound(&b))
}

// The greatest label that a and b dominate.
pub fn lower_bound(a: Label, b: Label) -> Result<Label, Errno>
    ensures { answer_of result ≡ require (valid_of a && valid_of b) 22 (granted (lower_bound_of a b)) }
{
    require(both_valid(a, b), Errno::Invalid)?;
    Ok(a.lower_bound(&b))
}

// How many categories a has.
pub fn category_count(a: Label) -> Result<u64, Errno>
    ensures { answer_of result ≡ require (valid_of a) 22 (granted (length (members_of a.categories))) }
{
    require(valid(a), Errno::Invalid)?;
    Ok(words::count(a.categories))
}

// Whether a is valid, and c is a category.
fn valid_with(a: Label, c: u64) -> bool
    ensures { result ≡ (valid_of a && ltb c categories) }
{
    valid(a) & (c < (WORDS * 64) as u64)
}

// Whether a has the category c.
#[tactic(auto, using(crate::proofs::LabelLaws::category_told))]
pub fn has_category(a: Label, c: u64) -> Result<bool, Errno>
    ensures { answer_of result ≡ require (valid_of a && ltb c categories) 22 (granted (has a.categories c)) }
{
    require(valid_with(a, c), Errno::Invalid)?;
    Ok(words::includes(a.categories, words::single(c)))
}

// a with the category c, which it may have already.
#[tactic(auto, unfolding(crate::specs::Label::with_category_of))]
pub fn with_category(a: Label, c: u64) -> Result<Label, Errno>
    ensures { answer_of result ≡ require (valid_of a && ltb c categories) 22 (granted (with_category_of a c)) }
{
    require(valid_with(a, c), Errno::Invalid)?;
    Ok(Label {
        categories: words::union(a.categories, words::single(c)),
        ..a
    })
}

// The least category of a at or above from.
pub fn next_category(a: Label, from: u64) -> Result<Option<u64>, Errno>
    ensures { answer_of result ≡ require (valid_of a) 22 (granted (next_category_from a.categories from)) }
{
    require(valid(a), Errno::Invalid)?;
    Ok(words::next(a.categories, from))
}

// The region of a.
pub fn region_of(a: Label) -> Result<Region, Errno>
    ensures { answer_by region_number result ≡ require (valid_of a) 22 (granted (region_of a.hierarchy)) }
{
    require(valid(a), Errno::Invalid)?;
    Ok(region::of_hierarchy(a.hierarchy))
}

// Every label has what its type says: the law of `Typed`, for the laws that name it.
fn typed(a: Label)
    ensures { Typed a }
{}
