// What is kept from one request to the next.
use label::caller::Caller;

// The most that a capacity can be.
pub(crate) const MAX_CAPACITY: usize = 20000;

#[derive(Clone, Copy)]
pub(crate) struct Kept {
    // How many bytes of the table's buffer are the table, and whether it is cut off there, with more to follow.
    pub length: usize,
    pub more: bool,
    pub subject: Caller,
    // How many bytes a text may have.
    pub capacity: usize,
}

pub(crate) fn start() -> Kept {
    Kept {
        length: 0,
        more: false,
        subject: Caller {
            label: label::zero(),
            read_override: false,
        },
        capacity: MAX_CAPACITY,
    }
}

pub(crate) fn without_table(mut k: Kept) -> Kept {
    k.length = 0;
    k.more = false;
    k
}

// The first line that does not fit cuts the table off: neither it nor any line after it is appended.
fn append(mut k: Kept, table: &mut [u8], line: &[u8]) -> Kept {
    if k.more | !octets::fits(table.len(), k.length, line.len()) {
        k.more = true;
        return k;
    }
    k.length = octets::append(table, k.length, line);
    k
}

// The table with one more line. A bad line, which comes as no bytes at all, is appended as an empty line, since that is no entry either.
pub(crate) fn with_line(k: Kept, table: &mut [u8], line: &[u8]) -> Kept {
    if line.len() == 0 {
        return append(k, table, b"\n");
    }
    append(k, table, line)
}
