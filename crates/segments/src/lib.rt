// The tenant calls on a table of shared memory segments.
#![tactic(auto)]

pub mod calls;

use label::Label;
use segment_table::{Reply, Segment, Slot, TenantId};

// ---- the tenant calls, each with its numbers

#[derive(Clone, Copy)]
pub struct OpenCall {
    pub pages: u64,
}

#[derive(Clone, Copy)]
pub struct SizeCall {
    pub slot: Slot,
    pub pages: u64,
}

#[derive(Clone, Copy)]
pub struct PostCall {
    pub slot: Slot,
    pub version: u64,
}

#[derive(Clone, Copy)]
pub struct LookCall {
    pub slot: Slot,
}

#[derive(Clone, Copy)]
pub struct CloseCall {
    pub slot: Slot,
}

#[derive(Clone, Copy)]
pub enum Action {
    Open(OpenCall),
    Size(SizeCall),
    Post(PostCall),
    Look(LookCall),
    Close(CloseCall),
}

// A tenant's call, with the label of its subject.
#[derive(Clone, Copy)]
pub struct Call {
    pub tenant: TenantId,
    pub label: Label,
    pub action: Action,
}

// What a granted call does: the slot gets the segment, and the reply is answered.
#[derive(Clone, Copy)]
pub struct Change {
    pub slot: Slot,
    pub segment: Segment,
    pub reply: Reply,
}
