// Ranges of labels, and in `tuple` a range for each region. Each function tests what it is handed and refuses an invalid label, range or
// tuple with 22 before its other checks; only the two functions `valid` answer a bare yes or no. The methods are for what was tested: but for `is_valid`,
// which is the test, they test nothing, and answer what their definitions say of any numbers.
#![tactic(auto)]

pub mod tuple;

ghost use Rattle.std.specs.Prelude.{◌≡◌, ◌&&◌};
ghost use Rattle.common.specs.Answer.{answer_of, granted, require};
ghost use Rattle.label.specs.Label as labels;
ghost use Rattle.range.specs.Range.{TypedRange, common_of, contains_of, meet_answer_of, meet_of, valid_of, zero_range};

use common::errno::{Errno, require};
use label::Label;

// The labels that low is dominated by and high dominates.
#[repr(C)]
#[derive(Clone, Copy, PartialEq, Eq, Default)]
pub struct Range {
    pub low: Label,
    pub high: Label,
}

// Functions of ranges and labels that were tested: each takes any numbers.
impl Range {
    // Whether a label is in a range.
    #[tactic(auto, unfolding(crate::specs::Range::contains_of))]
    pub fn holds(&self, l: &Label) -> bool
        ensures { result ≡ contains_of self.now l.now }
    {
        self.high.dominates(l) & l.dominates(&self.low)
    }

    // The upper bound of the lows and the lower bound of the highs: the labels that are in both ranges, if there are any.
    #[tactic(auto, unfolding(crate::specs::Range::meet_of))]
    pub(crate) fn bounds(&self, other: &Range) -> Range
        ensures { result ≡ meet_of self.now other.now }
    {
        Range {
            low: self.low.upper_bound(&other.low),
            high: self.high.lower_bound(&other.high),
        }
    }

    // Whether some label is in both ranges.
    #[tactic(auto, unfolding(crate::specs::Range::common_of))]
    pub(crate) fn overlaps(&self, other: &Range) -> bool
        ensures { result ≡ common_of self.now other.now }
    {
        let m = self.bounds(other);
        m.high.dominates(&m.low)
    }
}

// The range of zeros.
pub fn zero() -> Range
    ensures { result ≡ zero_range }
{
    Range {
        low: label::zero(),
        high: label::zero(),
    }
}

#[tactic(auto, unfolding(crate::specs::Range::valid_of))]
pub fn valid(x: Range) -> bool
    ensures { result ≡ valid_of x }
{
    label::valid(x.low) & label::valid(x.high) & x.high.dominates(&x.low)
}

// Whether l is in x.
pub fn contains(x: Range, l: Label) -> Result<bool, Errno>
    ensures { answer_of result ≡ require (valid_of x && labels.valid_of l) 22 (granted (contains_of x l)) }
{
    require(valid(x) & label::valid(l), Errno::Invalid)?;
    Ok(x.holds(&l))
}

// The range of the labels that are in x and in y; 33 if there is none.
pub fn meet(x: Range, y: Range) -> Result<Range, Errno>
    ensures { answer_of result ≡ meet_answer_of x y }
{
    require(valid(x) & valid(y), Errno::Invalid)?;
    require(x.overlaps(&y), Errno::Domain)?;
    Ok(x.bounds(&y))
}

// Every range has what its type says.
pub(crate) fn typed(x: Range)
    ensures { TypedRange x }
{}
