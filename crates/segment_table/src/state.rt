// The state as a whole (document 01: the board): when it is sound, who is admitted, and what a change leaves.
ghost use Rattle.std.specs.Prelude.{◌≡◌, ◌<◌};
ghost use Rattle.common.specs.Answer.{answer_of, granted, require};
ghost use Rattle.segment_table.specs.Internal.SoundParts.{ceilings_kept, held, slots_sound, tenants_sound};
ghost use Rattle.segment_table.specs.Segments.{pages_valid, tenant_total, with_segment, zero_segment};
ghost use Rattle.segment_table.specs.Slots.{pages_of};
ghost use Rattle.segment_table.specs.Sound as rules;

use crate::{MAX_PAGES, SLOTS, Segment, SegmentTable, Slot, Tenant, TenantId};
use common::errno::{Errno, require};
use range::tuple;

// Whether a number of pages is one that a pool or a call may have.
pub fn pages_valid(pages: u64) -> bool
    ensures { result ≡ pages_valid pages }
{
    (1..=MAX_PAGES).contains(&pages)
}

impl Tenant {
    // Whether a record is that of a tenant admitted, with a valid clearance that is not empty, or holds zeros.
    #[tactic(auto, unfolding(crate::specs::Sound::tenant_sound))]
    fn is_sound(&self) -> bool
        ensures { result ≡ rules.tenant_sound self.now }
    {
        let admitted = 1 <= self.ceiling;
        tuple::is_empty(self.clearance).is_ok_and(|empty| admitted != empty)
    }
}

impl Segment {
    // Whether it is zeros, as an empty slot holds.
    fn is_zero(self) -> bool
        ensures { result ≡ rules.is_zero_segment self }
    {
        self == zero_segment()
    }
}

impl SegmentTable {
    // Whether t is admitted.
    #[tactic(auto, unfolding(crate::specs::Sound::admitted))]
    pub fn admitted(&self, t: TenantId) -> bool
        ensures { result ≡ rules.admitted self.now t }
    {
        self.tenants
            .get(t.0 as usize)
            .is_some_and(|x| 1 <= x.ceiling)
    }

    fn tenants_sound(&self) -> bool
        ensures { result ≡ tenants_sound self.now }
    {
        self.tenants.iter().all(|x| x.is_sound())
    }

    // Whether slot p may hold x: a filled one a label in its owner's clearance, an empty one zeros.
    #[tactic(auto, using(crate::proofs::SoundLaws::held_owned, crate::proofs::SoundLaws::held_unowned))]
    fn may_hold(&self, p: Slot, x: &Segment) -> bool
        ensures { result ≡ held self.now p x.now }
    {
        if x.pages == 0 {
            return x.is_zero();
        }
        self.owner_of(p)
            .is_some_and(|t| self.tenants[t.0 as usize].clearance.holds(&x.label))
    }

    fn slots_sound(&self) -> bool
        ensures { result ≡ slots_sound self.now }
    {
        self.segments
            .iter()
            .enumerate()
            .all(|(p, x)| self.may_hold(Slot(p as u64), x))
    }

    // Whether each tenant's pages are at most its ceiling.
    fn ceilings_kept(&self) -> bool
        ensures { result ≡ ceilings_kept self.now }
    {
        self.tenants.iter().enumerate().all(|(t, x)| self
            .pages_left(TenantId(t as u64), x.ceiling)
            .is_some())
    }
}

// Whether the state keeps document 01's rules. Every call tests this first and refuses an unsound state with 22.
#[tactic(auto, using(crate::proofs::LimitLaws::kept_exact), unfolding(crate::specs::Sound::sound))]
pub fn sound(s: &SegmentTable) -> bool
    ensures { result ≡ rules.sound s.now }
{
    pages_valid(s.pool)
        & s.tenants_sound()
        & s.slots_sound()
        & s.pool_left().is_some()
        & s.ceilings_kept()
}

// The pages that a tenant has in use, for an operator to see.
#[tactic(auto, using(crate::proofs::SoundLaws::admitted_tenant, crate::proofs::SoundLaws::pages_kept))]
pub fn pages_in_use(s: &SegmentTable, t: TenantId) -> Result<u64, Errno>
    ensures { answer_of result ≡ require (rules.sound s.now) 22 (require (rules.admitted s.now t) 22 (granted (pages_of s.now t))) }
{
    require(sound(s), Errno::Invalid)?;
    require(s.admitted(t), Errno::Invalid)?;
    let ceiling = s.tenants[t.0 as usize].ceiling;
    let left = s.pages_left(t, ceiling).ok_or(Errno::Invalid)?;
    Ok(ceiling - left)
}

// What an empty slot holds.
pub fn zero_segment() -> Segment
    ensures { result ≡ zero_segment }
{
    Segment::default()
}

// The state with another segment in p, if there is such a slot.
pub fn with_segment(mut s: SegmentTable, p: Slot, x: Segment) -> SegmentTable
    ensures { result ≡ with_segment s p x }
{
    if p.0 < SLOTS as u64 {
        s.segments[p.0 as usize] = x;
    }
    s
}
