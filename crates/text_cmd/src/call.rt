// What a request does once its operand is there: the numbers, the table and the operand are tested in that order, and where one is bad no call is
// made. A bad operand is also one that the end of the input cut off: it comes as no bytes at all.
ghost use Rattle.std.specs.Prelude.{◌≡◌, ◌≤◌, length, take};

use crate::kept::{Kept, MAX_CAPACITY};
use common::errno::Errno;
use label::Label;
use label::caller::Caller;
use range::Range;
use text::{RangeWritten, numbers, read, write};

// Tests a table that is complete, and answers how many entries it has.
pub(crate) fn entry_count(k: Kept, table: &[u8]) -> Result<usize, Errno> {
    let lines = alias::check(octets::front(table, k.length), k.more)?;
    Ok(lines.count)
}

// The refusal of a bad operand, or of the table where that is bad too: document 01 has it before everything else.
fn operand_refusal(k: Kept, table: &[u8]) -> Errno {
    match alias::check(octets::front(table, k.length), k.more) {
        Ok(_) => Errno::Invalid,
        Err(e) => e,
    }
}

// A subject, with read override where the number is 1.
pub(crate) fn subject(read_override: u64, line: &[u8]) -> Result<Caller, Errno> {
    if read_override > 1 {
        return Err(Errno::Invalid);
    }
    Ok(Caller {
        label: hexline::read_label(line)?,
        read_override: read_override == 1,
    })
}

pub(crate) fn capacity(n: u64) -> Result<usize, Errno> {
    if n > MAX_CAPACITY as u64 {
        return Err(Errno::Invalid);
    }
    Ok(n as usize)
}

// How many bytes of the buffer a text may take.
fn room(k: Kept, out: &[u8]) -> usize
    ensures in_bounds { result ≤ length out.now }
    ensures prefix { result ≡ length (take result out.now) }
{
    octets::front(out, k.capacity).len()
}

// Writes a label at the front of the buffer, and answers the length of the text.
pub(crate) fn write_label(
    k: Kept,
    form: u64,
    variant: u64,
    line: &[u8],
    table: &[u8],
    out: &mut [u8],
) -> Result<usize, Errno> {
    let style = numbers::style_of(form, variant).ok_or(Errno::Invalid)?;
    let Ok(l) = hexline::read_label(line) else {
        return Err(operand_refusal(k, table));
    };
    let n = room(k, out);
    write::write_label(
        octets::front(table, k.length),
        k.more,
        k.subject,
        style,
        l,
        &mut out[..n],
    )
}

// The same of a range, with the status.
pub(crate) fn write_range(
    k: Kept,
    form: u64,
    variant: u64,
    line: &[u8],
    table: &[u8],
    out: &mut [u8],
) -> Result<RangeWritten, Errno> {
    let style = numbers::style_of(form, variant).ok_or(Errno::Invalid)?;
    let Ok(x) = hexline::read_range(line) else {
        return Err(operand_refusal(k, table));
    };
    let n = room(k, out);
    write::write_range(
        octets::front(table, k.length),
        k.more,
        k.subject,
        style,
        x,
        &mut out[..n],
    )
}

// Reads a label from a line of text. A bad line, which comes as no bytes at all, has no text. For this and the next it is as for the two writers: a
// function over a closure would need a clause for it, and be longer.
pub(crate) fn read_label(k: Kept, line: &[u8], table: &[u8]) -> Result<Label, Errno> {
    let [text @ .., _] = line else {
        return Err(operand_refusal(k, table));
    };
    read::read_label(octets::front(table, k.length), k.more, k.subject, text)
}

pub(crate) fn read_range(k: Kept, line: &[u8], table: &[u8]) -> Result<Range, Errno> {
    let [text @ .., _] = line else {
        return Err(operand_refusal(k, table));
    };
    read::read_range(octets::front(table, k.length), k.more, k.subject, text)
}
