// Refusals, by their POSIX names. A refusal becomes a number here and nowhere else.
ghost use Rattle.std.specs.Prelude.{◌≡◌, cond};
ghost use Rattle.common.specs.Errno.{detail_of, errno_number};

#[derive(Clone, Copy, PartialEq, Eq)]
pub enum Errno {
    // No privilege or clearance.
    Perm,
    // No name.
    NoEnt,
    // Buffer short: the length that is needed.
    TooBig(usize),
    // No pages.
    NoMem,
    // Denied.
    Access,
    // In use.
    Busy,
    // Invalid.
    Invalid,
    // A bad alias table: the number of its first bad line.
    BadLine(usize),
    // No place.
    NoSpace,
    // No common label.
    Domain,
}

impl Errno {
    pub fn number(self) -> u8
        ensures { result ≡ errno_number self }
    {
        match self {
            Errno::Perm => 1,
            Errno::NoEnt => 2,
            Errno::TooBig(_) => 7,
            Errno::NoMem => 12,
            Errno::Access => 13,
            Errno::Busy => 16,
            Errno::Invalid => 22,
            Errno::BadLine(_) => 22,
            Errno::NoSpace => 28,
            Errno::Domain => 33,
        }
    }

    // The number that 7 and the table's 22 carry. Each case is listed, so that a new one has to say what it carries.
    pub fn detail(self) -> Option<usize>
        ensures { result ≡ detail_of self }
    {
        match self {
            Errno::TooBig(length) => Some(length),
            Errno::BadLine(line) => Some(line),
            Errno::Perm
            | Errno::NoEnt
            | Errno::NoMem
            | Errno::Access
            | Errno::Busy
            | Errno::Invalid
            | Errno::NoSpace
            | Errno::Domain => None,
        }
    }
}

// A check: a refusal where it is not passed.
pub fn require(passed: bool, refusal: Errno) -> Result<(), Errno>
    ensures { result ≡ cond passed (Ok tt) (Err refusal) }
{
    if passed { Ok(()) } else { Err(refusal) }
}
