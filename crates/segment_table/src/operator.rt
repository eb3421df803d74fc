// The operator's calls.
ghost use Rattle.std.specs.Prelude.{◌≡◌, true, not, ◌&&◌, ◌<◌};
ghost use Rattle.range.specs.Tuple as tuples;
ghost use Rattle.segment_table.specs.Operator.{admit_of, make_of, set_ceiling_of};
ghost use Rattle.segment_table.specs.Internal.TableParts.{pool_answer, Left};
ghost use Rattle.segment_table.specs.Replies.{Results, leaving};
ghost use Rattle.segment_table.specs.Segments.{empty_table, tenant_total, with_tenant};
ghost use Rattle.segment_table.specs.Sound.{sound};

use crate::{CallOutcome, Reply, SLOTS, SegmentTable, TENANTS, Tenant, TenantId, slots, state};
use common::errno::{Errno, require};
use range::tuple;
use range::tuple::Tuple;

// The state with no tenants.
fn empty_table(pool: u64) -> SegmentTable
    ensures { result ≡ empty_table pool }
{
    let tenant = Tenant {
        ceiling: 0,
        clearance: tuple::empty(),
    };
    SegmentTable {
        pool,
        tenants: [tenant; TENANTS],
        segments: [state::zero_segment(); SLOTS],
    }
}

// A state with this pool and no tenants. A refused make hands back a state of zeros.
#[tactic(auto, unfolding(crate::specs::Operator::make_of, crate::specs::Operator::make_answer))]
pub fn make(pool: u64) -> CallOutcome
    ensures { Results result (make_of pool) }
{
    if state::pages_valid(pool) {
        return CallOutcome {
            table: empty_table(pool),
            answer: Ok(Reply::Done),
        };
    }
    CallOutcome {
        table: empty_table(0),
        answer: Err(Errno::Invalid),
    }
}

// Whether a tuple can be a clearance.
fn clearance_valid(t: Tuple) -> bool
    ensures { result ≡ (tuples.valid_of t && not (tuples.empty_of t)) }
{
    tuple::is_empty(t).is_ok_and(|empty| !empty)
}

impl SegmentTable {
    // Gives a tenant another record, if the pool has room for its ceiling in place of the old one. A refusal leaves the state as it was, as
    // those of the two methods below do.
    #[tactic(auto, using(crate::proofs::ResultsLaws::refused_so, crate::proofs::SoundLaws::room))]
    fn set_record(&mut self, tenant: TenantId, x: Tenant) -> Result<Reply, Errno>
        requires state_sound { sound self.old ≡ true }
        requires tenant_inside { tenant.0 < tenant_total }
        ensures { Left self.new result (leaving self.old (with_tenant self.old tenant x) (pool_answer self.old tenant x.ceiling)) }
    {
        let old = self.tenants[tenant.0 as usize].ceiling;
        require(slots::fits(self.pool_left(), old, x.ceiling), Errno::NoMem)?;
        self.tenants[tenant.0 as usize] = x;
        Ok(Reply::Done)
    }

    // The checks of an admission in document 01's order, then the record.
    #[tactic(auto, using(crate::proofs::ResultsLaws::refused_so), unfolding(crate::specs::Operator::admit_of, crate::specs::Operator::admit_answer))]
    fn admit(&mut self, tenant: TenantId, x: Tenant) -> Result<Reply, Errno>
        ensures { Left self.new result (admit_of self.old tenant x.ceiling x.clearance) }
    {
        require(state::sound(self), Errno::Invalid)?;
        require(
            (tenant.0 < TENANTS as u64) & clearance_valid(x.clearance) & (1 <= x.ceiling),
            Errno::Invalid,
        )?;
        require(!self.admitted(tenant), Errno::Busy)?;
        self.set_record(tenant, x)
    }

    // The checks of another ceiling in document 01's order, then the record.
    #[tactic(auto, using(crate::proofs::ResultsLaws::refused_so, crate::proofs::SoundLaws::admitted_tenant), unfolding(crate::specs::Operator::set_ceiling_of, crate::specs::Operator::set_ceiling_answer))]
    fn set_ceiling(&mut self, tenant: TenantId, ceiling: u64) -> Result<Reply, Errno>
        ensures { Left self.new result (set_ceiling_of self.old tenant ceiling) }
    {
        require(state::sound(self), Errno::Invalid)?;
        require(self.admitted(tenant) & (1 <= ceiling), Errno::Invalid)?;
        require(self.pages_left(tenant, ceiling).is_some(), Errno::Busy)?;
        let clearance = self.tenants[tenant.0 as usize].clearance;
        self.set_record(tenant, Tenant { ceiling, clearance })
    }
}

// Admits a tenant, with a ceiling on its pages and a clearance.
pub fn admit(
    mut table: SegmentTable,
    tenant: TenantId,
    ceiling: u64,
    clearance: Tuple,
) -> CallOutcome
    ensures { Results result (admit_of table tenant ceiling clearance) }
{
    let answer = table.admit(tenant, Tenant { ceiling, clearance });
    CallOutcome { table, answer }
}

// Gives an admitted tenant another ceiling.
pub fn set_ceiling(mut table: SegmentTable, tenant: TenantId, ceiling: u64) -> CallOutcome
    ensures { Results result (set_ceiling_of table tenant ceiling) }
{
    let answer = table.set_ceiling(tenant, ceiling);
    CallOutcome { table, answer }
}
