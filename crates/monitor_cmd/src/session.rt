// The lines of the input as requests: a command line, then its operand lines, then one answer.
use crate::request::{NUMBERS, Operand};
use crate::{answer, request};
use common::errno::Errno;
use console::command;
use monitor::Request;

// A request, as far as it is good, and the operand line that is due.
#[derive(Clone, Copy)]
pub(crate) struct Pending {
    request: Result<Request, Errno>,
    due: Operand,
}

// A line where a command line is due. A bad line comes as no bytes at all.
fn take_command(rt: &(impl Print + Eprint), line: &[u8]) -> Option<Pending> {
    if command::is_skipped(line) {
        return None;
    }
    if let Some(c) = command::parse(line)
        && octets::front(line, c.word) == b"check".as_slice()
        && c.count == NUMBERS
    {
        return Some(Pending {
            request: request::of_numbers(c.numbers()),
            due: Operand::SubjectLabel,
        });
    }
    answer::print(rt, Err(Errno::Invalid));
    None
}

// A line where an operand line is due. The last one makes the request whole, and it is answered.
fn take_operand(rt: &(impl Print + Eprint), p: Pending, line: &[u8]) -> Option<Pending> {
    let request = p
        .request
        .and_then(|r| request::with_operand(r, p.due, line));
    if let Some(due) = p.due.next() {
        return Some(Pending { request, due });
    }
    answer::print(rt, request.and_then(monitor::check));
    None
}

pub(crate) fn take_line(
    rt: &(impl Print + Eprint),
    pending: Option<Pending>,
    line: &[u8],
) -> Option<Pending> {
    match pending {
        Some(p) => take_operand(rt, p, line),
        None => take_command(rt, line),
    }
}

// The end of the input: a request that lacks operand lines is refused, and a read that failed is told.
pub(crate) fn finish(rt: &(impl Print + Eprint), pending: Option<Pending>, failed: bool) {
    if pending.is_some() {
        answer::print(rt, Err(Errno::Invalid));
    }
    if failed {
        let _ = rt.eprintln("monitor_cmd: can't read the standard input");
    }
}
