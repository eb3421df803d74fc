// The answer of a call as text.
ghost use Rattle.std.specs.Prelude.{◌+◌, ◌≤◌, length};
ghost use Rattle.octets.specs.Bytes.{Appended};
ghost use Rattle.console.specs.Format.{field};
ghost use Rattle.console.specs.Internal.Numbers.{number_bytes};
ghost use Rattle.octets.specs.Internal.Put.{PutWithin};
ghost use Rattle.segments_cmd.specs.Answer.{answer_text, grant_text, line_text, place_text, shown_numbers, shown_text};
ghost use Rattle.segments_cmd.specs.Internal.Sizes.{answer_bytes, hexline_bytes, numbers_bytes};

use common::errno::Errno;
use console::format;
use label::Label;
use segment_table::{Reply, Segment, Slot};
use std::io;

// The size of the buffer for an answer.
const ANSWER_BYTES: usize = 512;

// Puts a word and a number where there is room for them.
pub(crate) fn put_field(out: &mut [u8], at: usize, word: &[u8], n: u64) -> usize
    requires { at + length word.now + number_bytes ≤ length out.old }
    ensures { PutWithin (at + length word.now + number_bytes) out.old at (field word.now n) result out.new }
{
    format::append_field(out, at, word, n)
}

fn put_place(out: &mut [u8], slot: Slot) -> usize
    requires { answer_bytes ≤ length out.old }
    ensures { PutWithin answer_bytes out.old 0 (place_text slot) result out.new }
{
    let at = put_field(out, 0, b"place ", slot.0);
    octets::append(out, at, b"\n")
}

// The numbers that a look shows.
fn put_numbers(out: &mut [u8], x: Segment) -> usize
    requires { answer_bytes ≤ length out.old }
    ensures { PutWithin numbers_bytes out.old 0 (shown_numbers x) result out.new }
{
    let pages = put_field(out, 0, b"shown ", x.pages);
    let version = put_field(out, pages, b" ", x.version);
    octets::append(out, version, b"\n")
}

// Appends the hex line of a label. A label that has none, which no sound state holds, adds nothing.
fn put_label(out: &mut [u8], at: usize, label: Label) -> usize
    requires { at + hexline_bytes ≤ length out.old }
    ensures { PutWithin (at + hexline_bytes) out.old at (line_text label) result out.new }
{
    match hexline::write_label(label, &mut out[at..]) {
        Ok(n) => at + n,
        Err(_) => at,
    }
}

fn put_shown(out: &mut [u8], x: Segment) -> usize
    requires { answer_bytes ≤ length out.old }
    ensures { PutWithin answer_bytes out.old 0 (shown_text x) result out.new }
{
    let at = put_numbers(out, x);
    put_label(out, at, x.label)
}

// Puts what is granted at the front of the buffer, where it is shown to fit.
fn put_grant(out: &mut [u8], reply: Reply) -> usize
    requires { answer_bytes ≤ length out.old }
    ensures { Appended out.old 0 (grant_text reply) result out.new }
{
    match reply {
        Reply::Done => octets::append(out, 0, b"ok\n"),
        Reply::Opened(slot) => put_place(out, slot),
        Reply::Shown(x) => put_shown(out, x),
    }
}

// Puts an answer at the front of the buffer. A refusal's line is written whole or not at all.
fn put_answer(out: &mut [u8], answer: Result<Reply, Errno>) -> usize
    requires { answer_bytes ≤ length out.old }
    ensures { Appended out.old 0 (answer_text answer) result out.new }
{
    match answer {
        Ok(reply) => put_grant(out, reply),
        Err(e) => format::append_error(out, 0, e),
    }
}

// Prints an answer. A write that fails is told on the standard error, and the requests go on.
pub(crate) fn print_bytes(rt: &(impl Print + Eprint), bytes: &[u8]) {
    input::print_bytes(&mut io::writer(rt), rt, "segments_cmd", bytes);
}

pub(crate) fn print(rt: &(impl Print + Eprint), answer: Result<Reply, Errno>) {
    let mut out = [0u8; ANSWER_BYTES];
    let n = put_answer(&mut out, answer);
    print_bytes(rt, octets::front(&out, n));
}
