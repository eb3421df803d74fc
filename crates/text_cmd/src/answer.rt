// Answers, as they are printed.
use common::errno::Errno;
use console::format;
use label::Label;
use range::Range;
use std::io;

// The size of the buffer for an answer that is no text.
const ANSWER_BYTES: usize = 512;

// Prints an answer. A write that fails is told on the standard error, and the requests go on.
fn print_bytes(rt: &(impl Print + Eprint), bytes: &[u8]) {
    input::print_bytes(&mut io::writer(rt), rt, "text_cmd", bytes);
}

pub(crate) fn print_ok(rt: &(impl Print + Eprint)) {
    print_bytes(rt, b"ok\n");
}

pub(crate) fn print_refusal(rt: &(impl Print + Eprint), e: Errno) {
    let mut out = [0u8; ANSWER_BYTES];
    let n = format::append_error(&mut out, 0, e);
    print_bytes(rt, octets::front(&out, n));
}

// Prints how many entries a table has.
pub(crate) fn print_count(rt: &(impl Print + Eprint), n: usize) {
    let mut out = [0u8; ANSWER_BYTES];
    let digits = format::append_field(&mut out, 0, b"table ", n as u64);
    let end = octets::append(&mut out, digits, b"\n");
    print_bytes(rt, octets::front(&out, end));
}

// Prints a text that stands at the front of the buffer, and LF. The longest text has 16,453 bytes, so that LF fits behind it.
pub(crate) fn print_text(rt: &(impl Print + Eprint), length: usize, out: &mut [u8]) {
    let end = octets::append(out, length, b"\n");
    print_bytes(rt, octets::front(out, end));
}

// Prints the status of a range that was written, which stands before its text.
pub(crate) fn print_status(rt: &(impl Print + Eprint), status: u8) {
    print_bytes(rt, if status == 0 { b"0 " } else { b"1 " });
}

// Prints the hex line of a label that was read. A function over a closure for this and the next was longer, since it needs a clause for the closure.
pub(crate) fn print_label(rt: &(impl Print + Eprint), l: Label) -> Result<(), Errno> {
    let mut out = [0u8; ANSWER_BYTES];
    let n = hexline::write_label(l, &mut out)?;
    print_bytes(rt, octets::front(&out, n));
    Ok(())
}

// Prints the hex line of a range that was read.
pub(crate) fn print_range(rt: &(impl Print + Eprint), x: Range) -> Result<(), Errno> {
    let mut out = [0u8; ANSWER_BYTES];
    let n = hexline::write_range(x, &mut out)?;
    print_bytes(rt, octets::front(&out, n));
    Ok(())
}
