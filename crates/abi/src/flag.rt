// Flags: 0 is false, 1 is true, and there is no other.
ghost use Rattle.std.specs.Prelude.{◌≡◌};
ghost use Rattle.common.specs.Answer.{answer_of, granted, require};
ghost use Rattle.abi.specs.Flag.{decoded_of, formed_of};

use common::errno::Errno;

pub fn decode(n: u64) -> Result<bool, Errno>
    ensures { answer_of result ≡ require (formed_of n) 22 (granted (decoded_of n)) }
{
    match n {
        0 => Ok(false),
        1 => Ok(true),
        _ => Err(Errno::Invalid),
    }
}
