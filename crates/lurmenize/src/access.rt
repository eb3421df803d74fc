// The monitor.
ghost use Rattle.std.specs.Prelude.{◌≡◌, ◌&&◌};
ghost use Rattle.common.specs.Answer.{require};
ghost use Rattle.monitor.specs.Monitor.{decision_for, decision_of};
ghost use Rattle.abi.specs.Answer.{number_answer};
ghost use Rattle.abi.specs.Caller.{caller_formed};
ghost use Rattle.abi.specs.Request.{credentials_formed, object_formed, monitor_request};

use abi::answer::CAnswer;
use abi::caller::CCaller;
use abi::request::{CCredentials, CObject};
use abi::{answer, caller, request};
use common::errno::Errno;
use monitor::{Grant, Request};

#[unsafe(no_mangle)]
pub extern "C" fn lurm_check(
    caller: CCaller,
    credentials: CCredentials,
    object: CObject,
    intents: u64,
    attribute: u64,
) -> CAnswer
    ensures { result ≡ number_answer (require (caller_formed caller && credentials_formed credentials && object_formed object) 22 (decision_for (monitor_request caller credentials object intents attribute))) }
{
    answer::of(check(caller, credentials, object, intents, attribute))
}

fn check(
    caller: CCaller,
    credentials: CCredentials,
    object: CObject,
    intents: u64,
    attribute: u64,
) -> Result<Grant, Errno>
    ensures { decision_of result ≡ require (caller_formed caller && credentials_formed credentials && object_formed object) 22 (decision_for (monitor_request caller credentials object intents attribute)) }
{
    // Not by the conversions and `?`, which copy the object: a check took a quarter longer so. The object is decoded first, since what stands before it is
    // copied once more.
    if !(caller.formed() & credentials.formed() & object.formed()) {
        return Err(Errno::Invalid);
    }
    monitor::check(Request {
        object: request::decode_object(object),
        credentials: request::decode_credentials(credentials),
        intents,
        attribute,
        caller: caller::decode(caller),
    })
}
