// The tenant calls. `step` makes document 01's checks in its order; a refusal hands the state back as it was.
ghost use Rattle.std.specs.Prelude.{◌≡◌, true};
ghost use Rattle.segments.specs.Calls as rules;
ghost use Rattle.segments.specs.Calls.{Decides, applied, call_of, call_row, close_call, look_call, open_call, post_call, size_call, slot_for, slot_valid, step_of};
ghost use Rattle.segments.specs.Internal.CallParts.{Started};
ghost use Rattle.segment_table.specs.Replies.{Results};

use crate::{Action, Call, Change, CloseCall, LookCall, OpenCall, PostCall, SizeCall};
use common::errno::{Errno, require};
use label::Label;
use segment_table::{CallOutcome, Reply, SLOTS, Segment, SegmentTable, Slot, TenantId, state};

// Whether a slot is one of the state's.
fn slot_valid(slot: Slot) -> bool
    ensures { result ≡ slot_valid slot }
{
    slot.0 < SLOTS as u64
}

// ---- what each action asks, writes and answers

impl Action {
    // Whether the numbers that it carries are in bounds.
    fn numbers_valid(&self) -> bool
        ensures { result ≡ (call_row self.now).numbers_valid }
    {
        match *self {
            Action::Open(OpenCall { pages }) => state::pages_valid(pages),
            Action::Size(SizeCall { slot, pages }) => slot_valid(slot) & state::pages_valid(pages),
            Action::Post(PostCall { slot, .. })
            | Action::Look(LookCall { slot })
            | Action::Close(CloseCall { slot }) => slot_valid(slot),
        }
    }

    // The slot that it names. An open names none.
    fn named(&self) -> Option<Slot>
        ensures { result ≡ (call_row self.now).named }
    {
        match *self {
            Action::Open(_) => None,
            Action::Size(SizeCall { slot, .. })
            | Action::Post(PostCall { slot, .. })
            | Action::Look(LookCall { slot })
            | Action::Close(CloseCall { slot }) => Some(slot),
        }
    }

    // What the slot holds after the call, by what it held and the subject's label.
    fn written(&self, held: &Segment, label: Label) -> Segment
        ensures { result ≡ (call_row self.now).written held.now label }
    {
        match *self {
            Action::Open(OpenCall { pages }) => Segment {
                label,
                pages,
                version: 0,
            },
            Action::Size(SizeCall { pages, .. }) => Segment { pages, ..*held },
            Action::Post(PostCall { version, .. }) => Segment { version, ..*held },
            Action::Look(_) => *held,
            Action::Close(_) => state::zero_segment(),
        }
    }

    // What a granted call answers: the slot of an open, what a look found, or that it is done.
    fn answered(&self, slot: Slot, held: &Segment) -> Reply
        ensures { result ≡ (call_row self.now).answered slot held.now }
    {
        match *self {
            Action::Open(_) => Reply::Opened(slot),
            Action::Look(_) => Reply::Shown(*held),
            Action::Size(_) | Action::Post(_) | Action::Close(_) => Reply::Done,
        }
    }
}

// ---- the checks

impl Call {
    // Whether the tenant is admitted, the label valid, and the numbers are in bounds.
    #[tactic(auto, unfolding(crate::specs::Calls::call_valid))]
    fn valid(&self, table: &SegmentTable) -> bool
        ensures { result ≡ rules.call_valid table.now self.now }
    {
        table.admitted(self.tenant) & label::valid(self.label) & self.action.numbers_valid()
    }

    // Whether the subject's label is in its tenant's clearance.
    #[tactic(auto, using(crate::proofs::CallsLaws::call_tenant), unfolding(crate::specs::Calls::cleared))]
    fn cleared(&self, table: &SegmentTable) -> bool
        requires { rules.call_valid table.now self.now ≡ true }
        ensures { result ≡ rules.cleared table.now self.now }
    {
        table.tenants[self.tenant.0 as usize]
            .clearance
            .holds(&self.label)
    }

    // Whether the slot is the tenant's own, filled, and its label the subject's.
    #[tactic(auto, unfolding(crate::specs::Calls::writable, segment_table::specs::Slots::filled))]
    fn may_write(&self, table: &SegmentTable, slot: Slot) -> bool
        requires { slot_valid slot ≡ true }
        ensures { result ≡ rules.writable table.now self.now.tenant self.now.label slot }
    {
        let x = &table.segments[slot.0 as usize];
        table.owns(self.tenant, slot) & (1 <= x.pages) & self.label.equals(&x.label)
    }

    // Whether the slot is filled and the subject's label dominates the label there.
    #[tactic(auto, unfolding(crate::specs::Calls::visible, segment_table::specs::Slots::filled))]
    fn may_look(&self, table: &SegmentTable, slot: Slot) -> bool
        requires { slot_valid slot ≡ true }
        ensures { result ≡ rules.visible table.now self.now.label slot }
    {
        let x = &table.segments[slot.0 as usize];
        (1 <= x.pages) & self.label.dominates(&x.label)
    }

    // Whether the subject may do that to the slot that it names. An open names none.
    #[tactic(auto, using(crate::proofs::CallsLaws::named_slot))]
    fn permitted(&self, table: &SegmentTable) -> bool
        requires { rules.call_valid table.now self.now ≡ true }
        ensures { result ≡ (call_row self.now.action).permitted table.now self.now.tenant self.now.label }
    {
        match self.action {
            Action::Open(_) => true,
            Action::Look(LookCall { slot }) => self.may_look(table, slot),
            Action::Size(SizeCall { slot, .. })
            | Action::Post(PostCall { slot, .. })
            | Action::Close(CloseCall { slot }) => self.may_write(table, slot),
        }
    }

    // The slot that it is about, if there is one: the one that it names, else the tenant's lowest empty one.
    fn slot(&self, table: &SegmentTable) -> Option<Slot>
        ensures { result ≡ slot_for table.now self.now.tenant (call_row self.now.action).named }
    {
        self.action
            .named()
            .or_else(|| table.lowest_empty(self.tenant))
    }

    // Whether the tenant's pages would then be at most its ceiling.
    #[tactic(auto, using(crate::proofs::CallsLaws::call_tenant, crate::proofs::CallsLaws::named_slot, crate::proofs::DecidesLaws::open_room, crate::proofs::DecidesLaws::size_room))]
    fn fits(&self, table: &SegmentTable) -> bool
        requires started { Started table.now self.now }
        requires permitted { (call_row self.now.action).permitted table.now self.now.tenant self.now.label ≡ true }
        ensures { result ≡ (call_row self.now.action).pages_fit table.now self.now.tenant }
    {
        let ceiling = table.tenants[self.tenant.0 as usize].ceiling;
        match self.action {
            Action::Open(OpenCall { pages }) => table.has_room(self.tenant, ceiling, 0, pages),
            Action::Size(SizeCall { slot, pages }) => {
                let replaced = table.segments[slot.0 as usize].pages;
                table.has_room(self.tenant, ceiling, replaced, pages)
            }
            Action::Post(_) | Action::Look(_) | Action::Close(_) => true,
        }
    }
}

// ---- the calls

// What a call changes and answers.
#[tactic(auto, using(crate::proofs::CallsLaws::call_slot), unfolding(crate::specs::Calls::decision_on, crate::specs::Calls::access_of))]
pub fn decide(table: &SegmentTable, call: Call) -> Result<Change, Errno>
    ensures { Decides table.now call result }
{
    require(state::sound(table), Errno::Invalid)?;
    require(call.valid(table), Errno::Invalid)?;
    require(call.cleared(table), Errno::Perm)?;
    require(call.permitted(table), Errno::Access)?;
    let slot = call.slot(table).ok_or(Errno::NoSpace)?;
    require(call.fits(table), Errno::NoMem)?;
    let held = &table.segments[slot.0 as usize];
    Ok(Change {
        slot,
        segment: call.action.written(held, call.label),
        reply: call.action.answered(slot, held),
    })
}

// Makes a change to the state that was passed. A refused call changes nothing.
fn apply(mut table: SegmentTable, change: Result<Change, Errno>) -> CallOutcome
    ensures { result ≡ applied table change }
{
    if let Ok(c) = change {
        table = state::with_segment(table, c.slot, c.segment);
    }
    let answer = change.map(|c| c.reply);
    CallOutcome { table, answer }
}

// What a call answers, and the state that it leaves.
#[tactic(auto, using(crate::proofs::DecidesLaws::decides_results))]
pub fn step(table: SegmentTable, call: Call) -> CallOutcome
    ensures { Results result (step_of table call) }
{
    apply(table, decide(&table, call))
}

// The same, of an action.
fn act(table: SegmentTable, tenant: TenantId, label: Label, action: Action) -> CallOutcome
    ensures { Results result (step_of table (call_of tenant label action)) }
{
    step(
        table,
        Call {
            tenant,
            label,
            action,
        },
    )
}

// The tenant's lowest empty slot gets the label and the pages; the slot is answered.
pub fn open(table: SegmentTable, tenant: TenantId, label: Label, pages: u64) -> CallOutcome
    ensures { Results result (step_of table (open_call tenant label pages)) }
{
    let action = Action::Open(OpenCall { pages });
    act(table, tenant, label, action)
}

// The slot gets another number of pages.
pub fn size(
    table: SegmentTable,
    tenant: TenantId,
    label: Label,
    slot: Slot,
    pages: u64,
) -> CallOutcome
    ensures { Results result (step_of table (size_call tenant label slot pages)) }
{
    let action = Action::Size(SizeCall { slot, pages });
    act(table, tenant, label, action)
}

// The slot gets another version.
pub fn post(
    table: SegmentTable,
    tenant: TenantId,
    label: Label,
    slot: Slot,
    version: u64,
) -> CallOutcome
    ensures { Results result (step_of table (post_call tenant label slot version)) }
{
    let action = Action::Post(PostCall { slot, version });
    act(table, tenant, label, action)
}

// What the slot holds is shown: its label, pages and version.
pub fn look(table: SegmentTable, tenant: TenantId, label: Label, slot: Slot) -> CallOutcome
    ensures { Results result (step_of table (look_call tenant label slot)) }
{
    let action = Action::Look(LookCall { slot });
    act(table, tenant, label, action)
}

// The slot is zeros, and its pages are free.
pub fn close(table: SegmentTable, tenant: TenantId, label: Label, slot: Slot) -> CallOutcome
    ensures { Results result (step_of table (close_call tenant label slot)) }
{
    let action = Action::Close(CloseCall { slot });
    act(table, tenant, label, action)
}
