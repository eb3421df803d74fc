// What is printed, appended to a lent buffer at an index. What does not fit whole is not written.
ghost use Rattle.std.specs.Prelude.{◌+◌, ◌≤◌, length};
ghost use Rattle.octets.specs.Bytes.{Appended};
ghost use Rattle.octets.specs.Internal.Put.{Put};
ghost use Rattle.console.specs.Format.{carried_text, decimal_of, error_text, field, refusal_text};
ghost use Rattle.console.specs.Internal.Numbers.{ByteCount};

use common::errno::Errno;

// How many decimal digits n has.
fn decimal_length(n: u64) -> usize
    ensures { ByteCount 20 (decimal_of n) result }
{
    match n.checked_ilog10() {
        Some(k) => k as usize + 1,
        None => 1,
    }
}

// Puts the decimal digits of n in out, from the last to the first, and answers the index past them. The library prints numbers to a String, which is
// memory of its own, or by one more crate, whose statements would have to be trusted too.
fn put_decimal(out: &mut [u8], at: usize, n: u64) -> usize
    requires { at + length (decimal_of n) ≤ length out.old }
    ensures { Put out.old at (decimal_of n) result out.new }
{
    let end = at + decimal_length(n);
    let mut left = n;
    for i in (at..end).rev() {
        out[i] = b'0' + (left % 10) as u8;
        left /= 10;
    }
    end
}

// Appends the decimal digits of n.
pub fn append_decimal(out: &mut [u8], at: usize, n: u64) -> usize
    ensures { Appended out.old at (decimal_of n) result out.new }
{
    if octets::fits(out.len(), at, decimal_length(n)) {
        return put_decimal(out, at, n);
    }
    at
}

// Appends a word and the decimal digits of n.
pub fn append_field(out: &mut [u8], at: usize, word: &[u8], n: u64) -> usize
    ensures { Appended out.old at (field word.now n) result out.new }
{
    let size = word.len() + decimal_length(n);
    if octets::fits(out.len(), at, size) {
        let next = octets::append(out, at, word);
        return put_decimal(out, next, n);
    }
    at
}

// How many bytes a blank and the carried number take.
fn carried_length(carried: Option<usize>) -> usize
    ensures { ByteCount 21 (carried_text carried) result }
{
    match carried {
        Some(n) => 1 + decimal_length(n as u64),
        None => 0,
    }
}

// Puts a blank and the carried number.
fn put_carried(out: &mut [u8], at: usize, carried: Option<usize>) -> usize
    requires { at + length (carried_text carried) ≤ length out.old }
    ensures { Put out.old at (carried_text carried) result out.new }
{
    match carried {
        Some(n) => {
            let next = octets::append(out, at, b" ");
            put_decimal(out, next, n as u64)
        }
        None => at,
    }
}

// Puts a refusal's line.
fn put_refusal(out: &mut [u8], at: usize, number: u64, carried: Option<usize>) -> usize
    requires { at + length (refusal_text number carried) ≤ length out.old }
    ensures { Put out.old at (refusal_text number carried) result out.new }
{
    let word = octets::append(out, at, b"error ");
    let digits = put_decimal(out, word, number);
    let end = put_carried(out, digits, carried);
    octets::append(out, end, b"\n")
}

// Appends a refusal's line: `error N`, or `error N M` where it carries one more number, and LF.
pub fn append_error(out: &mut [u8], at: usize, e: Errno) -> usize
    ensures { Appended out.old at (error_text e) result out.new }
{
    let number = e.number() as u64;
    let carried = e.detail();
    let size = 6 + decimal_length(number) + carried_length(carried) + 1;
    if octets::fits(out.len(), at, size) {
        return put_refusal(out, at, number, carried);
    }
    at
}
