// Regions: each is a run of hierarchy numbers, and is known by its number in document 01's order.
ghost use Rattle.std.specs.Prelude.{◌≡◌, get_or};
ghost use Rattle.label.specs.Region.{first_hierarchy, last_hierarchy, region_number, region_of};

pub const REGIONS: usize = 3;

#[derive(Clone, Copy, PartialEq, Eq)]
pub enum Region {
    VirusPrevention,
    User,
    Administrative,
}

const FIRST: [u64; REGIONS] = [0, 20, 180];

const LAST: [u64; REGIONS] = [19, 179, 199];

// The least hierarchy number of the region of a number; 0 where there is no such region.
pub fn first(region: usize) -> u64
    ensures { result ≡ first_hierarchy region }
{
    FIRST.get(region).copied().unwrap_or(0)
}

// The greatest hierarchy number of the region of a number; 0 where there is no such region.
pub fn last(region: usize) -> u64
    ensures { result ≡ last_hierarchy region }
{
    LAST.get(region).copied().unwrap_or(0)
}

// The region of a valid hierarchy number. Others count as administrative here: whoever asks has tested the label.
#[tactic(auto, unfolding(crate::specs::Region::region_of))]
pub fn of_hierarchy(hierarchy: u64) -> Region
    ensures { region_number result ≡ region_of hierarchy }
{
    if hierarchy <= LAST[Region::VirusPrevention as usize] {
        return Region::VirusPrevention;
    }
    if hierarchy <= LAST[Region::User as usize] {
        return Region::User;
    }
    Region::Administrative
}
