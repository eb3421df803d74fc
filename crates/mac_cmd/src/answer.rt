// Answers as text. Each function puts an answer's line at the front of a buffer and gives its length.
use console::format;
use label::region::Region;

pub(crate) fn put_bool(b: bool, out: &mut [u8]) -> usize {
    octets::append(
        out,
        0,
        if b {
            b"yes\n".as_slice()
        } else {
            b"no\n".as_slice()
        },
    )
}

pub(crate) fn put_number(n: u64, out: &mut [u8]) -> usize {
    let at = format::append_decimal(out, 0, n);
    octets::append(out, at, b"\n")
}

pub(crate) fn put_next(category: Option<u64>, out: &mut [u8]) -> usize {
    match category {
        Some(c) => put_number(c, out),
        None => octets::append(out, 0, b"none\n"),
    }
}

pub(crate) fn put_region(region: Region, out: &mut [u8]) -> usize {
    match region {
        Region::VirusPrevention => octets::append(out, 0, b"virus\n"),
        Region::User => octets::append(out, 0, b"user\n"),
        Region::Administrative => octets::append(out, 0, b"admin\n"),
    }
}
