// Tuples as bytes: a byte of presence, then the ranges that are there.
ghost use Rattle.std.specs.Prelude.{◌≡◌, cond, true, ◌+◌, ◌*◌, ◌<◌, ◌≤◌, length};
ghost use Rattle.label.specs.Region.{regions};
ghost use Rattle.label.specs.Words.{bit, words as set_words};
ghost use Rattle.octets.specs.Bytes.{Appended};
ghost use Rattle.octets.specs.Internal.Put.{Put};
ghost use Rattle.range.specs.Tuple as tuples;
ghost use Rattle.label_codec.specs.Codec as codecs;
ghost use Rattle.label_codec.specs.Codec.{region_fits, tuple_code, tuple_fits, tuple_from};
ghost use Rattle.label_codec.specs.Tuples.{presence_of, present_at, present_below, region_at, region_bytes, tuple_bytes, tuple_size};
ghost use Rattle.label_codec.specs.Body.{range_size};

use crate::byte;
use crate::labels::{RANGE_BYTES, range_at};
use crate::width::Width;
use crate::writing::{Coded, append};
use label::region::REGIONS;
use range::tuple;
use range::tuple::{RegionRange, Tuple};
use std::array;

// The most bytes of a tuple in a line of kind 03.
pub const TUPLE_BYTES: usize = 1 + REGIONS * RANGE_BYTES;

// The byte of presence.
fn presence(t: &Tuple) -> u8
    ensures { result ≡ presence_of t.now }
{
    t.ranges
        .iter()
        .rev()
        .fold(0, |p, e| p << 1 | u8::from(e.is_present()))
}

impl Coded for RegionRange {
    ghost fitting = { region_fits };

    ghost bytes = { region_bytes };

    fn fits(&self) -> bool {
        !self.is_present() | self.range.fits()
    }

    fn size(&self, width: Width) -> usize {
        if self.is_present() {
            return self.range.size(width);
        }
        0
    }

    fn put(&self, out: &mut [u8], at: usize, width: Width) -> usize {
        if self.is_present() {
            return self.range.put(out, at, width);
        }
        at
    }
}

impl Coded for Tuple {
    ghost fitting = { tuple_fits };

    ghost bytes = { tuple_bytes };

    fn fits(&self) -> bool {
        self.ranges.iter().all(RegionRange::fits)
    }

    fn size(&self, width: Width) -> usize {
        1 + self.ranges.iter().map(|e| e.size(width)).sum::<usize>()
    }

    fn put(&self, out: &mut [u8], at: usize, width: Width) -> usize {
        out[at] = presence(self);
        let mut next = at + 1;
        for e in &self.ranges {
            next = e.put(out, next, width);
        }
        next
    }
}

// Appends the bytes of a tuple to out at index at, and answers the index past them.
#[tactic(auto, unfolding(crate::specs::Codec::tuple_code))]
pub fn append_tuple(out: &mut [u8], at: usize, t: Tuple, words: usize) -> usize
    ensures { Appended out.old at (tuple_code (codecs.width words) t) result out.new }
{
    append(out, at, &t, words)
}

// Whether the byte of presence p has region r.
#[tactic(auto, unfolding(label::specs::Words::bit))]
fn has_region(p: u8, r: usize) -> bool
    requires { r < 8 }
    ensures { result ≡ bit p r }
{
    (p >> r) % 2 == 1
}

// How many of the first n regions the byte of presence p has.
fn present_below(p: u8, n: usize) -> usize
    requires { n ≤ 8 }
    ensures value { result ≡ present_below p n }
    ensures upper_bound { result ≤ n }
{
    (0..n).filter(|r| has_region(p, *r)).count()
}

// How many bytes the first n regions of a tuple with the byte of presence p have, with the byte itself. The second clause of this and the next
// follows, and is stated for callers.
fn size_below(p: u8, n: usize, width: Width) -> usize
    requires { n ≤ 8 }
    ensures value { result ≡ 1 + present_below p n * range_size width.words }
    ensures upper_bound { result ≤ 1 + 8 * range_size set_words }
{
    1 + present_below(p, n) * width.range_size()
}

// How many bytes a tuple has whose byte of presence is p.
pub fn tuple_size(p: u8, words: usize) -> usize
    ensures value { result ≡ tuple_size (codecs.width words) p }
    ensures upper_bound { result ≤ 1 + 8 * range_size set_words }
{
    size_below(p, REGIONS, Width::of(words))
}

// Region r of the tuple at the front of some bytes, whose byte of presence is p.
#[tactic(auto, unfolding(crate::specs::Tuples::region_at))]
fn region_at(bytes: &[u8], p: u8, r: usize, words: usize) -> RegionRange
    requires { r < regions }
    ensures { result ≡ region_at (codecs.width words) bytes.now p (0 + 1) r }
{
    if has_region(p, r) {
        return RegionRange {
            present: 1,
            range: range_at(bytes, size_below(p, r, Width::of(words)), words),
        };
    }
    tuple::no_range()
}

// The tuple whose byte of presence is at index at of any bytes.
pub fn tuple_at(bytes: &[u8], at: usize, words: usize) -> Tuple
    ensures { result ≡ tuple_from (codecs.width words) bytes.now at }
{
    let own = octets::rest(bytes, at);
    let p = byte(own, 0);
    Tuple {
        ranges: array::from_fn(|r| region_at(own, p, r, words)),
    }
}
