// Ranges and tuples.
ghost use Rattle.std.specs.Prelude.{◌≡◌, ◌&&◌};
ghost use Rattle.common.specs.Answer.{granted, require};
ghost use Rattle.label.specs.Label as labels;
ghost use Rattle.range.specs.Range as ranges;
ghost use Rattle.range.specs.Tuple as tuples;
ghost use Rattle.abi.specs.Answer.{range_answer, test_answer, tuple_answer};

use abi::answer;
use abi::answer::{CAnswer, CRangeAnswer, CTupleAnswer};
use label::Label;
use range::tuple::Tuple;
use range::{Range, tuple};

#[unsafe(no_mangle)]
pub extern "C" fn lurm_range_contains(x: Range, l: Label) -> CAnswer
    ensures { result ≡ test_answer (require (ranges.valid_of x && labels.valid_of l) 22 (granted (ranges.contains_of x l))) }
{
    answer::of(range::contains(x, l))
}

#[unsafe(no_mangle)]
pub extern "C" fn lurm_range_meet(x: Range, y: Range) -> CRangeAnswer
    ensures { result ≡ range_answer (ranges.meet_answer_of x y) }
{
    range::meet(x, y).into()
}

#[unsafe(no_mangle)]
pub extern "C" fn lurm_range_split(x: Range) -> CTupleAnswer
    ensures { result ≡ tuple_answer (require (ranges.valid_of x) 22 (granted (tuples.split_of x))) }
{
    tuple::split(x).into()
}

#[unsafe(no_mangle)]
pub extern "C" fn lurm_tuple_is_empty(t: Tuple) -> CAnswer
    ensures { result ≡ test_answer (require (tuples.valid_of t) 22 (granted (tuples.empty_of t))) }
{
    answer::of(tuple::is_empty(t))
}

#[unsafe(no_mangle)]
pub extern "C" fn lurm_tuple_contains(t: Tuple, l: Label) -> CAnswer
    ensures { result ≡ test_answer (require (tuples.valid_of t && labels.valid_of l) 22 (granted (tuples.contains_of t l))) }
{
    answer::of(tuple::contains(t, l))
}

#[unsafe(no_mangle)]
pub extern "C" fn lurm_tuple_within(t: Tuple, u: Tuple) -> CAnswer
    ensures { result ≡ test_answer (require (tuples.valid_of t && tuples.valid_of u) 22 (granted (tuples.within_of t u))) }
{
    answer::of(tuple::within(t, u))
}

#[unsafe(no_mangle)]
pub extern "C" fn lurm_tuple_meet(t: Tuple, u: Tuple) -> CTupleAnswer
    ensures { result ≡ tuple_answer (require (tuples.valid_of t && tuples.valid_of u) 22 (granted (tuples.meet_of t u))) }
{
    tuple::meet(t, u).into()
}
