// The call that a request makes: its operand line is read, and where it is bad no call is made.
ghost use Rattle.segment_table.specs.Operator.{make_of};
ghost use Rattle.segment_table.specs.Replies.{Results};
ghost use Rattle.segments_cmd.specs.Session.{admit_on, call_on, invalid_step, made_in};

use common::errno::Errno;
use segment_table::{CallOutcome, SegmentTable, TenantId, operator};
use segments::{Action, Call, calls};

// The outcome of a request that makes no call.
pub(crate) fn refused(table: SegmentTable) -> CallOutcome
    ensures { Results result (invalid_step table) }
{
    CallOutcome {
        table,
        answer: Err(Errno::Invalid),
    }
}

// A granted make leaves its new state in the place of the old one. A refused one leaves the old one, and not the zeros that it hands back.
pub(crate) fn make(table: SegmentTable, pool: u64) -> CallOutcome
    ensures { Results result (made_in table (make_of pool)) }
{
    let made = operator::make(pool);
    match made.answer {
        Ok(_) => made,
        Err(e) => CallOutcome {
            table,
            answer: Err(e),
        },
    }
}

pub(crate) fn admit(table: SegmentTable, tenant: TenantId, ceiling: u64, line: &[u8]) -> CallOutcome
    ensures { Results result (admit_on table tenant ceiling line.now) }
{
    match hexline::read_tuple(line) {
        Ok(clearance) => operator::admit(table, tenant, ceiling, clearance),
        Err(_) => refused(table),
    }
}

pub(crate) fn of_tenant(
    table: SegmentTable,
    tenant: TenantId,
    action: Action,
    line: &[u8],
) -> CallOutcome
    ensures { Results result (call_on table tenant action line.now) }
{
    match hexline::read_label(line) {
        Ok(label) => calls::step(
            table,
            Call {
                tenant,
                label,
                action,
            },
        ),
        Err(_) => refused(table),
    }
}
