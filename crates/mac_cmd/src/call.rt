// What a request does once its operand lines are there: they are read, and where one is bad no call is made.
use crate::answer::{put_bool, put_next, put_number, put_region};
use crate::request::Request;
use common::errno::Errno;
use hexline::{Kind, read_entry, read_label, read_range, read_tuple};
use range::tuple;

// Whether H is a valid hierarchy: whether a label with it is valid.
fn is_valid(hierarchy: u64) -> bool {
    let mut l = label::zero();
    l.hierarchy = hierarchy;
    label::valid(l)
}

// The first operand's kind says which of the two is meant.
fn contains(a: &[u8], b: &[u8]) -> Result<bool, Errno> {
    match hexline::kind_of(a)? {
        Kind::Range => range::contains(read_range(a)?, read_label(b)?),
        Kind::Tuple => tuple::contains(read_tuple(a)?, read_label(b)?),
        Kind::Label | Kind::Entry => Err(Errno::Invalid),
    }
}

fn meet(a: &[u8], b: &[u8], out: &mut [u8]) -> Result<usize, Errno> {
    match hexline::kind_of(a)? {
        Kind::Range => hexline::write_range(range::meet(read_range(a)?, read_range(b)?)?, out),
        Kind::Tuple => hexline::write_tuple(tuple::meet(read_tuple(a)?, read_tuple(b)?)?, out),
        Kind::Label | Kind::Entry => Err(Errno::Invalid),
    }
}

// The line of any kind, as it is written of what was read.
fn echo(a: &[u8], out: &mut [u8]) -> Result<usize, Errno> {
    match hexline::kind_of(a)? {
        Kind::Label => hexline::write_label(read_label(a)?, out),
        Kind::Range => hexline::write_range(read_range(a)?, out),
        Kind::Tuple => hexline::write_tuple(read_tuple(a)?, out),
        Kind::Entry => hexline::write_entry(read_entry(a)?, out),
    }
}

// Puts the answer's line at the front of the buffer and gives its length. A request with one operand has it in a.
pub(crate) fn answer(r: Request, a: &[u8], b: &[u8], out: &mut [u8]) -> Result<usize, Errno> {
    Ok(match r {
        Request::Dominates => put_bool(label::dominates(read_label(a)?, read_label(b)?)?, out),
        Request::Equal => put_bool(label::equal(read_label(a)?, read_label(b)?)?, out),
        Request::Upper => {
            hexline::write_label(label::upper_bound(read_label(a)?, read_label(b)?)?, out)?
        }
        Request::Lower => {
            hexline::write_label(label::lower_bound(read_label(a)?, read_label(b)?)?, out)?
        }
        Request::Valid(hierarchy) => put_bool(is_valid(hierarchy), out),
        Request::Count => put_number(label::category_count(read_label(a)?)?, out),
        Request::Next(from) => put_next(label::next_category(read_label(a)?, from)?, out),
        Request::Region => put_region(label::region_of(read_label(a)?)?, out),
        Request::Contains => put_bool(contains(a, b)?, out),
        Request::Meet => meet(a, b, out)?,
        Request::Within => put_bool(tuple::within(read_tuple(a)?, read_tuple(b)?)?, out),
        Request::Empty => put_bool(tuple::is_empty(read_tuple(a)?)?, out),
        Request::Split => hexline::write_tuple(tuple::split(read_range(a)?)?, out)?,
        Request::Echo => echo(a, out)?,
    })
}
