// Who asks, of a text and of the monitor.
ghost use Rattle.std.specs.Prelude.{◌≡◌};
ghost use Rattle.common.specs.Answer.{answer_of, granted, require};
ghost use Rattle.abi.specs.Caller.{caller_formed, caller_of};

use common::errno::Errno;
use label::Label;
use label::caller::Caller;

#[repr(C)]
#[derive(Clone, Copy)]
pub struct CCaller {
    pub label: Label,
    pub read_override: u64,
}

impl CCaller {
    // Whether the flag is one that there is.
    pub fn formed(&self) -> bool
        ensures { result ≡ caller_formed self.now }
    {
        self.read_override <= 1
    }
}

// The caller of any numbers, where what is no flag counts as 0: for what was tested. The conversion refuses it.
pub fn decode(c: CCaller) -> Caller
    ensures { result ≡ caller_of c }
{
    Caller {
        label: c.label,
        read_override: c.read_override == 1,
    }
}

impl TryFrom<CCaller> for Caller {
    type Error = Errno;

    ghost try_from_gives = { λ c r. answer_of r ≡ require (caller_formed c) 22 (granted (caller_of c)) };

    fn try_from(c: CCaller) -> Result<Caller, Errno> {
        if !c.formed() {
            return Err(Errno::Invalid);
        }
        Ok(decode(c))
    }
}
