// What a call on a state hands back.
ghost use Rattle.std.specs.Prelude.{◌≡◌, ◌<◌, IfOk};
ghost use Rattle.common.specs.Answer.{answer_of};
ghost use Rattle.segment_table.specs.Segments.{slot_total};
ghost use Rattle.segments.specs.Calls.{applied};
ghost use Rattle.abi.specs.Answer.{numbered};
ghost use Rattle.abi.specs.Outcome.{applied_to, grant_number, handed_back, outcome, shown_of};

use crate::answer;
use crate::answer::{CAnswer, Numbered};
use common::errno::Errno;
use segment_table::state::{with_segment, zero_segment};
use segment_table::{Reply, Segment, SegmentTable};
use segments::Change;

// The state that a call leaves, its answer, and what a look shows: zeros beside any other.
#[repr(C)]
#[derive(Clone, Copy)]
pub struct COutcome {
    pub state: SegmentTable,
    pub answer: CAnswer,
    pub shown: Segment,
}

// An open answers its slot; the others have no number to answer.
impl Numbered for Reply {
    ghost number_of = { grant_number };

    fn number(self) -> u64 {
        match self {
            Reply::Opened(p) => p.0,
            Reply::Done | Reply::Shown(_) => 0,
        }
    }
}

fn shown(r: Result<Reply, Errno>) -> Segment
    ensures { result ≡ shown_of (answer_of r) }
{
    match r {
        Ok(Reply::Shown(x)) => x,
        _ => zero_segment(),
    }
}

// A state with what is answered.
fn beside(state: SegmentTable, r: Result<Reply, Errno>) -> COutcome
    ensures { result ≡ outcome state (numbered grant_number (answer_of r)) (shown_of (answer_of r)) }
{
    COutcome {
        state,
        answer: answer::of(r),
        shown: shown(r),
    }
}

// What a call of the state hands back.
pub fn hand_back(o: segment_table::CallOutcome) -> COutcome
    ensures { result ≡ handed_back o }
{
    beside(o.table, o.answer)
}

// What a call hands back that changes the state so; no slot that is not there is changed.
pub fn apply(state: SegmentTable, change: Result<Change, Errno>) -> COutcome
    ensures applied { result ≡ applied_to state change }
    ensures slot_in_range { IfOk change (λ c. c.slot.0 < slot_total) → result ≡ handed_back (applied state change) }
    ensures handed_back { result ≡ handed_back (applied state change) }
{
    match change {
        Ok(c) => beside(with_segment(state, c.slot, c.segment), Ok(c.reply)),
        Err(e) => beside(state, Err(e)),
    }
}
