// Tuples: for each region a range whose ends lie in it, or none. A region's range is at the region's number.
ghost use Rattle.std.specs.Prelude.{◌≡◌, ◌&&◌, ◌<◌};
ghost use Rattle.common.specs.Answer.{answer_of, granted, require};
ghost use Rattle.label.specs.Label as labels;
ghost use Rattle.label.specs.Region.{regions};
ghost use Rattle.range.specs.Range as ranges;
ghost use Rattle.range.specs.Tuple.{is_there, TypedTuple, absent, contains_at, contains_of, cut_of, empty_of, empty_tuple, meet_at, meet_of, region_range_at, split_of, valid_at, valid_of, within_at, within_of};

use crate::Range;
use common::errno::{Errno, require};
use label::region::REGIONS;
use label::{Label, region};
use std::array;

// The range of one region: `present` is 1. Where there is none it holds zeros, `present` too; no other number is valid. It passes to C as it is,
// so it is no `Option`.
#[repr(C)]
#[derive(Clone, Copy, PartialEq, Eq, Default)]
pub struct RegionRange {
    pub present: u64,
    pub range: Range,
}

#[repr(C)]
#[derive(Clone, Copy, PartialEq, Eq)]
pub struct Tuple {
    pub ranges: [RegionRange; REGIONS],
}

// What a tuple has for a region. `holds`, `meet` and `is_within` are for tuples and labels that were tested.
impl RegionRange {
    // Whether there is a range.
    pub fn is_present(&self) -> bool
        ensures { result ≡ is_there self.now }
    {
        self.present == 1
    }

    // Whether a tuple may hold it for a region.
    #[tactic(auto, unfolding(crate::specs::Tuple::valid_at))]
    fn is_valid(self, region: usize) -> bool
        ensures { result ≡ valid_at region self }
    {
        if self.is_present() {
            return crate::valid(self.range)
                & (region::of_hierarchy(self.range.low.hierarchy) as usize == region)
                & (region::of_hierarchy(self.range.high.hierarchy) as usize == region);
        }
        self == no_range()
    }

    // Whether a label is in the range, if there is one.
    #[tactic(auto, unfolding(crate::specs::Tuple::contains_at))]
    pub fn holds(&self, l: &Label) -> bool
        ensures { result ≡ contains_at self.now l.now }
    {
        self.is_present() & self.range.holds(l)
    }

    // The range of the labels that are in both, if there are any.
    #[tactic(auto, unfolding(crate::specs::Tuple::meet_at))]
    fn meet(&self, other: &RegionRange) -> RegionRange
        ensures { result ≡ meet_at self.now other.now }
    {
        if self.is_present() & other.is_present() & self.range.overlaps(&other.range) {
            return RegionRange {
                present: 1,
                range: self.range.bounds(&other.range),
            };
        }
        no_range()
    }

    // Whether each label in it is in the other.
    #[tactic(auto, unfolding(crate::specs::Tuple::within_at))]
    fn is_within(&self, other: &RegionRange) -> bool
        ensures { result ≡ within_at self.now other.now }
    {
        !self.is_present()
            | (other.is_present()
                & other.range.high.dominates(&self.range.high)
                & self.range.low.dominates(&other.range.low))
    }
}

// `holds`, `is_empty`, `meet` and `is_within` are for tuples and labels that were tested.
impl Tuple {
    // Whether a tuple is valid: what `valid` answers, with no copy of the tuple.
    pub fn is_valid(&self) -> bool
        ensures { result ≡ valid_of self.now }
    {
        self.ranges.iter().enumerate().all(|(r, e)| e.is_valid(r))
    }

    // Whether a label is in a tuple.
    #[tactic(auto, unfolding(crate::specs::Tuple::contains_of))]
    pub fn holds(&self, l: &Label) -> bool
        ensures { result ≡ contains_of self.now l.now }
    {
        self.ranges[region::of_hierarchy(l.hierarchy) as usize].holds(l)
    }

    // Whether there is no range.
    fn is_empty(&self) -> bool
        ensures { result ≡ empty_of self.now }
    {
        self.ranges.iter().all(|e| !e.is_present())
    }

    // The meet, region by region.
    fn meet(&self, other: &Tuple) -> Tuple
        ensures { result ≡ meet_of self.now other.now }
    {
        Tuple {
            ranges: array::from_fn(|r| self.ranges[r].meet(&other.ranges[r])),
        }
    }

    // Whether each label of a tuple is in another, region by region.
    fn is_within(&self, other: &Tuple) -> bool
        ensures { result ≡ within_of self.now other.now }
    {
        self.ranges
            .iter()
            .zip(&other.ranges)
            .all(|(e, f)| e.is_within(f))
    }
}

// No range: zeros.
pub fn no_range() -> RegionRange
    ensures { result ≡ absent }
{
    RegionRange {
        present: 0,
        range: crate::zero(),
    }
}

// The tuple that has no range.
pub fn empty() -> Tuple
    ensures { result ≡ empty_tuple }
{
    Tuple {
        ranges: [no_range(); REGIONS],
    }
}

pub fn valid(t: Tuple) -> bool
    ensures { result ≡ valid_of t }
{
    t.is_valid()
}

// Whether t has no range.
pub fn is_empty(t: Tuple) -> Result<bool, Errno>
    ensures { answer_of result ≡ require (valid_of t) 22 (granted (empty_of t)) }
{
    require(t.is_valid(), Errno::Invalid)?;
    Ok(t.is_empty())
}

// Whether l is in t.
pub fn contains(t: Tuple, l: Label) -> Result<bool, Errno>
    ensures { answer_of result ≡ require (valid_of t && labels.valid_of l) 22 (granted (contains_of t l)) }
{
    require(t.is_valid() & label::valid(l), Errno::Invalid)?;
    Ok(t.holds(&l))
}

// The tuple of the labels that are in t and in u; it may be empty.
pub fn meet(t: Tuple, u: Tuple) -> Result<Tuple, Errno>
    ensures { answer_of result ≡ require (valid_of t && valid_of u) 22 (granted (meet_of t u)) }
{
    require(t.is_valid() & u.is_valid(), Errno::Invalid)?;
    Ok(t.meet(&u))
}

// Whether each label of t is in u.
pub fn within(t: Tuple, u: Tuple) -> Result<bool, Errno>
    ensures { answer_of result ≡ require (valid_of t && valid_of u) 22 (granted (within_of t u)) }
{
    require(t.is_valid() & u.is_valid(), Errno::Invalid)?;
    Ok(t.is_within(&u))
}

// The part of x in a region: its hierarchies cut at the region's borders, both ends' categories kept.
#[tactic(auto, unfolding(crate::specs::Tuple::cut_of))]
fn cut(x: &Range, region: usize) -> RegionRange
    ensures { result ≡ cut_of x.now region }
{
    let first = region::first(region);
    let last = region::last(region);
    if (first <= x.high.hierarchy) & (x.low.hierarchy <= last) {
        return RegionRange {
            present: 1,
            range: Range {
                low: Label {
                    hierarchy: x.low.hierarchy.max(first),
                    ..x.low
                },
                high: Label {
                    hierarchy: x.high.hierarchy.min(last),
                    ..x.high
                },
            },
        };
    }
    no_range()
}

// The tuple that has the same labels as the range x.
pub fn split(x: Range) -> Result<Tuple, Errno>
    ensures { answer_of result ≡ require (ranges.valid_of x) 22 (granted (split_of x)) }
{
    require(crate::valid(x), Errno::Invalid)?;
    Ok(Tuple {
        ranges: array::from_fn(|r| cut(&x, r)),
    })
}

// Every tuple has what its type says: each range has.
fn typed(t: Tuple)
    ensures { TypedTuple t }
{
    for e in &t.ranges {
        crate::typed(e.range);
    }
}
