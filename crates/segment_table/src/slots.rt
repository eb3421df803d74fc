// Whose a slot is (document 01: place), which slots are filled, and how many pages are taken.
ghost use Rattle.std.specs.Prelude.{◌&&◌, ◌≡◌, cond, ltb, option_map};
ghost use Rattle.segment_table.specs.Limits.{fits_in, limit_left};
ghost use Rattle.segment_table.specs.Internal.Owners.{Owned, own_range, own_segments};
ghost use Rattle.segment_table.specs.Segments.{tenant_total};
ghost use Rattle.segment_table.specs.Slots as rules;

use crate::{Segment, SegmentTable, Slot, TENANTS, TenantId};
use std::ops::Range;

// Whether what is wanted is in what is left of a limit and what it replaces.
pub(crate) fn fits(left: Option<u64>, replaced: u64, wanted: u64) -> bool
    ensures { result ≡ fits_in left replaced wanted }
{
    left.is_some_and(|n| wanted.saturating_sub(n) <= replaced)
}

impl SegmentTable {
    // The slots of t's own, by number. This function alone knows which slots a tenant owns: t owns 8t to 8t+7. A number that is no tenant's owns none.
    #[tactic(auto, unfolding(crate::specs::Slots::first_slot, crate::specs::Slots::slot_count))]
    fn own_slots(&self, t: TenantId) -> Option<Range<u64>>
        ensures { result ≡ own_range self.now t }
    {
        if TENANTS as u64 <= t.0 {
            return None;
        }
        let first = 8 * t.0;
        Some(first..first + 8)
    }

    // Whether p is t's own.
    #[tactic(auto, unfolding(crate::specs::Slots::owns))]
    pub fn owns(&self, t: TenantId, p: Slot) -> bool
        ensures { result ≡ rules.owns self.now t p }
    {
        self.own_slots(t).is_some_and(|own| own.contains(&p.0))
    }

    // Whose p is, if anybody's.
    pub(crate) fn owner_of(&self, p: Slot) -> Option<TenantId>
        ensures { Owned self.now p result }
    {
        let t = (0..TENANTS as u64).find(|t| self.owns(TenantId(*t), p))?;
        Some(TenantId(t))
    }

    // What t's own slots hold.
    #[tactic(auto, using(crate::proofs::SlotsLaws::own_from, crate::proofs::SlotsLaws::own_within))]
    fn own_segments(&self, t: TenantId) -> Option<&[Segment]>
        ensures { option_map (λ x. x.now) result ≡ own_segments self.now t }
    {
        let own = self.own_slots(t)?;
        Some(&self.segments[own.start as usize..own.end as usize])
    }

    // The lowest slot of t's own without pages, if there is one.
    pub fn lowest_empty(&self, t: TenantId) -> Option<Slot>
        ensures { result ≡ rules.lowest_empty self.now t }
    {
        let k = self.own_segments(t)?.iter().position(|x| x.pages == 0)?;
        Some(Slot(self.own_slots(t)?.start + k as u64))
    }

    // What is left of a limit when t's pages are taken from it, if they are at most the limit. It counts down, so that no sum wraps, whatever the
    // state holds. For a number that is no tenant's there is none.
    pub(crate) fn pages_left(&self, t: TenantId, limit: u64) -> Option<u64>
        ensures { result ≡ cond (ltb t.0 tenant_total) (limit_left limit (rules.pages_of self.now t)) None }
    {
        let mut left = limit;
        for x in self.own_segments(t)? {
            left = left.checked_sub(x.pages)?;
        }
        Some(left)
    }

    // What is left of the pool when every tenant's ceiling is taken from it. One function for this loop and the one above would take a closure and say
    // in its contract what it takes of each element, which is longer than the two.
    pub(crate) fn pool_left(&self) -> Option<u64>
        ensures { result ≡ limit_left self.now.pool (rules.ceilings_of self.now) }
    {
        let mut left = self.pool;
        for x in &self.tenants {
            left = left.checked_sub(x.ceiling)?;
        }
        Some(left)
    }

    // Whether a limit on t's pages has room for more, which take the place of others. One that is no tenant has no room.
    pub fn has_room(&self, t: TenantId, limit: u64, replaced: u64, pages: u64) -> bool
        ensures { result ≡ (ltb t.0 tenant_total && fits_in (limit_left limit (rules.pages_of self.now t)) replaced pages) }
    {
        fits(self.pages_left(t, limit), replaced, pages)
    }
}
