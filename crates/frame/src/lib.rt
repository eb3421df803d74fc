// The frame of a hex line, for a body of any bytes: two lower-case hex digits a byte, a last byte that makes the sum of all a multiple of
// 256, and LF.
#![tactic(auto)]

ghost use Rattle.std.specs.Prelude.{◌≡◌, ◌+◌, ◌-◌, ◌*◌, ◌/◌, ◌%◌, ◌<◌, ◌≤◌, true, length, take, ◌==◌, slice_index, slice_set};
ghost use Rattle.common.specs.Buffer.{WrittenTo, overlay};
ghost use Rattle.std.specs.List.{list_all};
ghost use Rattle.frame.specs.Frame.{body_of, bytes_of, decoded_in, digit_of, digits_of, frame_answer_of, framed_of, is_digit, sound_body, spelled_of, sum_of, digit_value};

use common::errno::Errno;

// A longer body is not written.
pub const MAX_BODY: usize = 65536;

const LINE_FEED: u8 = b'\n';

// Letters stand 39 past where the decimal digits would go on. This takes fewer instructions than a choice.
#[tactic(auto, using(crate::proofs::FrameLaws::digit_by))]
fn digit(n: u8) -> u8
    requires { n < 16 }
    ensures { result ≡ digit_of n }
{
    48 + n + 39 * (n / 10)
}

#[tactic(auto, unfolding(crate::specs::Frame::is_digit))]
fn is_digit(c: u8) -> bool
    ensures { result ≡ is_digit c }
{
    ((b'0' <= c) & (c <= b'9')) | ((b'a' <= c) & (c <= b'f'))
}

// The two digits of byte i as one number, the first one lowest: a loop that reads them so takes several bytes at once.
fn pair(line: &[u8], i: usize) -> u16
    requires { i < length line.now / 2 }
    ensures { (result % 256 ≡ slice_index line.now (2 * i)) × (result / 256 ≡ slice_index line.now (2 * i + 1)) }
{
    u16::from_le_bytes([line[2 * i], line[2 * i + 1]])
}

// The byte of two digits, by arithmetic that takes fewer instructions than a choice.
#[tactic(auto, unfolding(crate::specs::Frame::digit_value))]
fn pair_value(p: u16) -> u16
    ensures { result ≡ digit_value (p % 256) * 16 + digit_value (p / 256) }
{
    let h = p % 256;
    let l = p / 256;
    (h + 9 * (h / 64)) % 16 * 16 + (l + 9 * (l / 64)) % 16
}

// Byte i of a line, the last one, which makes the sum, among them.
fn byte_at(line: &[u8], i: usize) -> u8
    requires { i < length line.now / 2 }
    ensures { result ≡ slice_index (bytes_of line.now) i }
{
    pair_value(pair(line, i)) as u8
}

// Byte i of a line's body, and 0 past its end. No Option: the contract says 0, by `slice_index`.
pub fn byte(line: &[u8], i: usize) -> u8
    ensures { result ≡ slice_index (body_of line.now) i }
{
    if i < (line.len() / 2).saturating_sub(1) {
        byte_at(line, i)
    } else {
        0
    }
}

// Whether each byte is a digit. A fault does not end the fold, which tests several at once without a way out.
fn digits(text: &[u8]) -> bool
    ensures { result ≡ list_all is_digit text.now }
{
    text.iter().fold(true, |good, c| good & is_digit(*c))
}

// Whether each byte is a digit. The last eight are tested together, some for the second time, so that none is tested alone.
fn all_digits(text: &[u8]) -> bool
    ensures { result ≡ list_all is_digit text.now }
{
    let n = text.len();
    if n < 8 {
        return digits(text);
    }
    digits(&text[..n / 8 * 8]) & digits(&text[n - 8..])
}

// Whether a line is pairs of digits, then LF and nothing after it.
fn spelled(line: &[u8]) -> bool
    ensures { result ≡ spelled_of line.now }
{
    let Some((last, pairs)) = line.split_last() else {
        return false;
    };
    if pairs.len() % 2 != 0 {
        return false;
    }
    all_digits(pairs) & (*last == LINE_FEED)
}

// Fills out with the first bytes of a line. Nothing in the loop ends it, so that the compiler makes several bytes at once.
fn fill(line: &[u8], out: &mut [u8])
    requires { length out.old ≤ length line.now / 2 }
    ensures { out.new ≡ take (length out.old) (bytes_of line.now) }
{
    for (i, b) in out.iter_mut().enumerate() {
        *b = byte_at(line, i);
    }
}

// Whether the sum of the bytes and of one more is a multiple of 256: a sum that wraps is 0 then.
fn sums_up(bytes: &[u8], check: u8) -> bool
    ensures { result ≡ ((sum_of bytes.now + check) % 256 == 0) }
{
    bytes.iter().fold(check, |s, b| s.wrapping_add(*b)) == 0
}

// Decodes a line that is spelled, its body in all of out, and answers whether it is a frame.
fn decode_spelled(line: &[u8], out: &mut [u8]) -> bool
    requires { (spelled_of line.now ≡ true) × (length out.old + 1 ≡ length line.now / 2) }
    ensures value { result ≡ framed_of line.now }
    ensures out_after { out.new ≡ body_of line.now }
{
    fill(line, out);
    sums_up(out, byte_at(line, out.len()))
}

// Tests a line and decodes it, its body at the front of out: how many bytes that is, 0 where the line is no frame or has no room. Digits are
// tested first; then the bytes are made, and added up where they were put. No Option: the contract says 0, as the length of `sound_body`.
pub fn decode(line: &[u8], out: &mut [u8]) -> usize
    ensures value { result ≡ length (sound_body line.now (length out.old)) }
    ensures out_after { out.new ≡ decoded_in line.now out.old }
{
    let Some(n) = (line.len() / 2).checked_sub(1) else {
        return 0;
    };
    if out.len() < n {
        return 0;
    }
    if !spelled(line) {
        return 0;
    }
    if decode_spelled(line, &mut out[..n]) {
        n
    } else {
        0
    }
}

// The two digits of b at index at.
fn put(out: &mut [u8], at: usize, b: u8)
    requires { at + 1 < length out.old }
    ensures { out.new ≡ slice_set (slice_set out.old at (digit_of (b / 16))) (at + 1) (digit_of (b % 16)) }
{
    out[at] = digit(b / 16);
    out[at + 1] = digit(b % 16);
}

// The digits of the body's bytes at the front of out, and the sum of these bytes, modulo 256.
fn spell(body: &[u8], out: &mut [u8]) -> u8
    requires { 2 * length body.now ≤ length out.old }
    ensures value { result ≡ sum_of body.now % 256 }
    ensures out_after { out.new ≡ overlay (digits_of body.now) out.old }
{
    let mut s: u8 = 0;
    for (i, b) in body.iter().enumerate() {
        put(out, 2 * i, *b);
        s = s.wrapping_add(*b);
    }
    s
}

// The line of a body, at the front of out.
pub fn write(body: &[u8], out: &mut [u8]) -> Result<usize, Errno>
    ensures { WrittenTo result (frame_answer_of body.now) out.old out.new }
{
    let n = body.len();
    if MAX_BODY < n {
        return Err(Errno::Invalid);
    }
    let length = 2 * n + 3;
    if out.len() < length {
        return Err(Errno::TooBig(length));
    }
    let s = spell(body, out);
    put(out, 2 * n, s.wrapping_neg());
    out[2 * n + 2] = LINE_FEED;
    Ok(length)
}
