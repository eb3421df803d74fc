// The table of shared memory segments: who holds which slot, with how many pages, under which label; when it is sound; and the operator's calls.
#![tactic(auto)]

pub mod operator;
pub mod slots;
pub mod state;

use common::errno::Errno;
use label::Label;
use range::tuple::Tuple;

// How many tenants, and how many slots, a machine has.
pub const TENANTS: usize = 8;

pub const SLOTS: usize = 64;

// The greatest pool, and the most pages that a call may name.
pub const MAX_PAGES: u64 = 1048576;

// A tenant's number, and a slot's (document 01: place): two kinds, so that neither is taken for the other.
#[repr(C)]
#[derive(Clone, Copy)]
pub struct TenantId(pub u64);

#[repr(C)]
#[derive(Clone, Copy)]
pub struct Slot(pub u64);

// A tenant's record: zeros where the tenant is not admitted, since C has the same struct.
#[repr(C)]
#[derive(Clone, Copy)]
pub struct Tenant {
    pub ceiling: u64,
    pub clearance: Tuple,
}

// What a slot holds (version is document 01's edition): zeros where the slot is empty, since C has the same struct.
#[repr(C)]
#[derive(Clone, Copy, PartialEq, Eq, Default)]
pub struct Segment {
    pub label: Label,
    pub pages: u64,
    pub version: u64,
}

// The state (document 01: the board). Its arrays are as long as the machine has tenants and slots: C has the same struct, and no memory is asked
// for.
#[repr(C)]
#[derive(Clone, Copy)]
pub struct SegmentTable {
    pub pool: u64,
    pub tenants: [Tenant; TENANTS],
    pub segments: [Segment; SLOTS],
}

// ---- what a call answers

// What a grant answers: an open its slot, a look what the slot holds, the others nothing more.
#[derive(Clone, Copy)]
pub enum Reply {
    Done,
    Opened(Slot),
    Shown(Segment),
}

// The state that a call leaves, and its answer.
#[derive(Clone, Copy)]
pub struct CallOutcome {
    pub table: SegmentTable,
    pub answer: Result<Reply, Errno>,
}
