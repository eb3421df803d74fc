// Decisions as text.
use common::errno::Errno;
use console::format;
use monitor::Grant;
use std::io;

// The size of the buffer for an answer.
const ANSWER_BYTES: usize = 512;

fn put_decision(decision: Result<Grant, Errno>, out: &mut [u8]) -> usize {
    match decision {
        Ok(Grant::Plain) => octets::append(out, 0, b"0\n"),
        Ok(Grant::Privileged) => octets::append(out, 0, b"1\n"),
        Err(e) => format::append_error(out, 0, e),
    }
}

// Prints an answer. A write that fails is told on the standard error, and the requests go on.
fn print_bytes(rt: &(impl Print + Eprint), bytes: &[u8]) {
    input::print_bytes(&mut io::writer(rt), rt, "monitor_cmd", bytes);
}

pub(crate) fn print(rt: &(impl Print + Eprint), decision: Result<Grant, Errno>) {
    let mut out = [0u8; ANSWER_BYTES];
    let n = put_decision(decision, &mut out);
    print_bytes(rt, octets::front(&out, n));
}
