// The lines of the input as requests: a command line, then as many operand lines as it takes, then one answer.
use crate::request::Request;
use crate::{call, request};
use common::errno::Errno;
use console::{command, format};
use std::io;

// The size of the buffer for an answer.
const ANSWER_BYTES: usize = 512;

// A request whose operand lines are due. Of two, the first is kept until the second is there: that many bytes.
#[derive(Clone, Copy)]
pub(crate) struct Pending {
    request: Request,
    kept: Option<usize>,
}

// Prints the answer to a request with its operand lines, or the refusal of one that makes no call.
fn respond(rt: &(impl Print + Eprint), r: Option<Request>, a: &[u8], b: &[u8]) {
    let mut out = [0u8; ANSWER_BYTES];
    let answered = match r {
        Some(r) => call::answer(r, a, b, &mut out),
        None => Err(Errno::Invalid),
    };
    let n = match answered {
        Ok(n) => n,
        Err(e) => format::append_error(&mut out, 0, e),
    };
    print_bytes(rt, octets::front(&out, n));
}

// Prints an answer. A write that fails is told on the standard error, and the requests go on.
fn print_bytes(rt: &(impl Print + Eprint), bytes: &[u8]) {
    input::print_bytes(&mut io::writer(rt), rt, "mac_cmd", bytes);
}

// A line where a command line is due. A bad line comes as no bytes at all.
fn take_command(rt: &(impl Print + Eprint), line: &[u8]) -> Option<Pending> {
    if command::is_skipped(line) {
        return None;
    }
    let request = request::of_line(line);
    if let Some(r) = request
        && r.operand_count() > 0
    {
        return Some(Pending {
            request: r,
            kept: None,
        });
    }
    respond(rt, request, b"", b"");
    None
}

// A line where an operand line is due.
fn take_operand(
    rt: &(impl Print + Eprint),
    p: Pending,
    line: &[u8],
    operand: &mut [u8],
) -> Option<Pending> {
    match p.kept {
        Some(n) => respond(rt, Some(p.request), octets::front(operand, n), line),
        None => {
            if p.request.operand_count() > 1 {
                return Some(Pending {
                    request: p.request,
                    kept: Some(octets::append(operand, 0, line)),
                });
            }
            respond(rt, Some(p.request), line, b"");
        }
    }
    None
}

pub(crate) fn take_line(
    rt: &(impl Print + Eprint),
    pending: Option<Pending>,
    line: &[u8],
    operand: &mut [u8],
) -> Option<Pending> {
    match pending {
        Some(p) => take_operand(rt, p, line, operand),
        None => take_command(rt, line),
    }
}

// The end of the input: a request that lacks operand lines is refused, and a read that failed is told.
pub(crate) fn finish(rt: &(impl Print + Eprint), pending: Option<Pending>, failed: bool) {
    if pending.is_some() {
        respond(rt, None, b"", b"");
    }
    if failed {
        let _ = rt.eprintln("mac_cmd: can't read the standard input");
    }
}
