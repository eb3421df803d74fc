// Calls on a state that is passed and handed back.
ghost use Rattle.std.specs.Prelude.{◌≡◌};
ghost use Rattle.common.specs.Answer.{granted, require};
ghost use Rattle.segments.specs.Calls.{Decides, call_of, close_call, look_call, open_call, post_call, size_call, step_of};
ghost use Rattle.segment_table.specs.Operator.{admit_of, make_of, set_ceiling_of};
ghost use Rattle.segment_table.specs.Slots.{pages_of};
ghost use Rattle.segment_table.specs.Sound.{admitted, sound};
ghost use Rattle.abi.specs.Answer.{number_answer, test_answer};
ghost use Rattle.abi.specs.Outcome.{step_outcome};

use abi::answer::CAnswer;
use abi::outcome::COutcome;
use abi::{answer, outcome};
use common::errno::Errno;
use label::Label;
use range::tuple::Tuple;
use segment_table::{SegmentTable, Slot, TenantId, operator};
use segments::{Action, Call, Change, CloseCall, LookCall, OpenCall, PostCall, SizeCall, calls};

#[unsafe(no_mangle)]
pub extern "C" fn lurm_make(pool: u64) -> COutcome
    ensures { result ≡ step_outcome (make_of pool) }
{
    outcome::hand_back(operator::make(pool))
}

#[unsafe(no_mangle)]
pub extern "C" fn lurm_admit(
    state: SegmentTable,
    tenant: TenantId,
    ceiling: u64,
    clearance: Tuple,
) -> COutcome
    ensures { result ≡ step_outcome (admit_of state tenant ceiling clearance) }
{
    outcome::hand_back(operator::admit(state, tenant, ceiling, clearance))
}

#[unsafe(no_mangle)]
pub extern "C" fn lurm_set_ceiling(state: SegmentTable, tenant: TenantId, ceiling: u64) -> COutcome
    ensures { result ≡ step_outcome (set_ceiling_of state tenant ceiling) }
{
    outcome::hand_back(operator::set_ceiling(state, tenant, ceiling))
}

// What a tenant's call changes and answers. It hands back no state: each exported function makes the change to the one that it was passed.
fn decided(
    state: SegmentTable,
    tenant: TenantId,
    label: Label,
    action: Action,
) -> Result<Change, Errno>
    ensures { Decides state (call_of tenant label action) result }
{
    let call = Call {
        tenant,
        label,
        action,
    };
    calls::decide(&state, call)
}

#[unsafe(no_mangle)]
pub extern "C" fn lurm_open(
    state: SegmentTable,
    tenant: TenantId,
    label: Label,
    pages: u64,
) -> COutcome
    ensures { result ≡ step_outcome (step_of state (open_call tenant label pages)) }
{
    let action = Action::Open(OpenCall { pages });
    outcome::apply(state, decided(state, tenant, label, action))
}

#[unsafe(no_mangle)]
pub extern "C" fn lurm_size(
    state: SegmentTable,
    tenant: TenantId,
    label: Label,
    slot: Slot,
    pages: u64,
) -> COutcome
    ensures { result ≡ step_outcome (step_of state (size_call tenant label slot pages)) }
{
    let action = Action::Size(SizeCall { slot, pages });
    outcome::apply(state, decided(state, tenant, label, action))
}

#[unsafe(no_mangle)]
pub extern "C" fn lurm_post(
    state: SegmentTable,
    tenant: TenantId,
    label: Label,
    slot: Slot,
    version: u64,
) -> COutcome
    ensures { result ≡ step_outcome (step_of state (post_call tenant label slot version)) }
{
    let action = Action::Post(PostCall { slot, version });
    outcome::apply(state, decided(state, tenant, label, action))
}

#[unsafe(no_mangle)]
pub extern "C" fn lurm_close(
    state: SegmentTable,
    tenant: TenantId,
    label: Label,
    slot: Slot,
) -> COutcome
    ensures { result ≡ step_outcome (step_of state (close_call tenant label slot)) }
{
    let action = Action::Close(CloseCall { slot });
    outcome::apply(state, decided(state, tenant, label, action))
}

#[unsafe(no_mangle)]
pub extern "C" fn lurm_look(
    state: SegmentTable,
    tenant: TenantId,
    label: Label,
    slot: Slot,
) -> COutcome
    ensures { result ≡ step_outcome (step_of state (look_call tenant label slot)) }
{
    let action = Action::Look(LookCall { slot });
    outcome::apply(state, decided(state, tenant, label, action))
}

// Whether a state is sound.
#[unsafe(no_mangle)]
pub extern "C" fn lurm_sound(state: SegmentTable) -> CAnswer
    ensures { result ≡ test_answer (granted (sound state)) }
{
    answer::of(Ok(segment_table::state::sound(&state)))
}

#[unsafe(no_mangle)]
pub extern "C" fn lurm_pages_in_use(state: SegmentTable, tenant: TenantId) -> CAnswer
    ensures { result ≡ number_answer (require (sound state) 22 (require (admitted state tenant) 22 (granted (pages_of state tenant)))) }
{
    answer::of(segment_table::state::pages_in_use(&state, tenant))
}
