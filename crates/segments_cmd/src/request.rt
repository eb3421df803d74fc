// A command line as a request: which call it asks for, with its numbers. The library tests the numbers.
ghost use Rattle.std.specs.Prelude.{◌≡◌};
ghost use Rattle.segments_cmd.specs.Request.{of_none, of_one, of_three, of_two, request_of_line, takes_operand};

use console::command;
use segment_table::{Slot, TenantId};
use segments::{Action, CloseCall, LookCall, OpenCall, PostCall, SizeCall};

#[derive(Clone, Copy)]
pub(crate) enum Request {
    Make(u64),
    // The tenant and its ceiling. The clearance is the operand.
    Admit(TenantId, u64),
    SetCeiling(TenantId, u64),
    // A tenant's call. The label that the tenant acts under is the operand.
    Call(TenantId, Action),
    Show,
}

// The command of that word with no number.
fn of_none(word: &[u8]) -> Option<Request>
    ensures { result ≡ of_none word.now }
{
    if octets::same(word, b"show") {
        return Some(Request::Show);
    }
    None
}

// The command of that word with one number.
fn of_one(word: &[u8], n: u64) -> Option<Request>
    ensures { result ≡ of_one word.now n }
{
    if octets::same(word, b"make") {
        return Some(Request::Make(n));
    }
    None
}

// The command of that word with a tenant and one number more.
fn of_two(word: &[u8], tenant: TenantId, n: u64) -> Option<Request>
    ensures { result ≡ of_two word.now tenant n }
{
    if octets::same(word, b"admit") {
        return Some(Request::Admit(tenant, n));
    }
    if octets::same(word, b"ceiling") {
        return Some(Request::SetCeiling(tenant, n));
    }
    if octets::same(word, b"open") {
        return Some(Request::Call(tenant, Action::Open(OpenCall { pages: n })));
    }
    if octets::same(word, b"look") {
        return Some(Request::Call(tenant, Action::Look(LookCall { slot: Slot(n) })));
    }
    if octets::same(word, b"close") {
        return Some(Request::Call(tenant, Action::Close(CloseCall { slot: Slot(n) })));
    }
    None
}

// The command of that word with a tenant, a slot and one number more.
fn of_three(word: &[u8], tenant: TenantId, slot: Slot, n: u64) -> Option<Request>
    ensures { result ≡ of_three word.now tenant slot n }
{
    if octets::same(word, b"size") {
        return Some(Request::Call(tenant, Action::Size(SizeCall { slot, pages: n })));
    }
    if octets::same(word, b"post") {
        return Some(Request::Call(tenant, Action::Post(PostCall { slot, version: n })));
    }
    None
}

// None where the line is bad, the word unknown, or the numbers of the wrong count or form.
pub(crate) fn of_line(line: &[u8]) -> Option<Request>
    ensures { result ≡ request_of_line line.now }
{
    let c = command::parse(line)?;
    let word = octets::front(line, c.word);
    let numbers = c.numbers;
    match c.count {
        0 => of_none(word),
        1 => of_one(word, numbers[0]),
        2 => of_two(word, TenantId(numbers[0]), numbers[1]),
        3 => of_three(word, TenantId(numbers[0]), Slot(numbers[1]), numbers[2]),
        _ => None,
    }
}

impl Request {
    // Whether a request has an operand line.
    pub(crate) fn takes_operand(self) -> bool
        ensures { result ≡ takes_operand self }
    {
        match self {
            Request::Admit(_, _) | Request::Call(_, _) => true,
            Request::Make(_) | Request::SetCeiling(_, _) | Request::Show => false,
        }
    }
}
