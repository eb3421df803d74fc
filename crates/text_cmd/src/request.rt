// A command line as a request: what it asks for, with its numbers. The numbers are tested once the operand is there.
use console::command;

#[derive(Clone, Copy)]
pub(crate) enum Request {
    Table,
    // Whether the subject has read override. Its label is the operand.
    Subject(u64),
    Capacity(u64),
    // The form and the variant. The label, or the range, is the operand.
    Label(u64, u64),
    Range(u64, u64),
    ReadLabel,
    ReadRange,
}

// What is due after a command line.
#[derive(Clone, Copy, PartialEq, Eq)]
pub(crate) enum Operand {
    // A hex line.
    Hex,
    // A line of text.
    Text,
    // Lines up to an empty one.
    Lines,
}

// None where the line is bad, the word unknown, or the numbers of the wrong count or form.
pub(crate) fn of_line(line: &[u8]) -> Option<Request> {
    let c = command::parse(line)?;
    let request = match (octets::front(line, c.word), c.numbers()) {
        (b"table", []) => Request::Table,
        (b"subject", [read_override]) => Request::Subject(*read_override),
        (b"capacity", [n]) => Request::Capacity(*n),
        (b"label", [form, variant]) => Request::Label(*form, *variant),
        (b"range", [form, variant]) => Request::Range(*form, *variant),
        (b"read-label", []) => Request::ReadLabel,
        (b"read-range", []) => Request::ReadRange,
        _ => return None,
    };
    Some(request)
}

impl Request {
    // What is due, if anything is.
    pub(crate) fn operand(self) -> Option<Operand> {
        match self {
            Request::Capacity(_) => None,
            Request::Table => Some(Operand::Lines),
            Request::Subject(_) | Request::Label(_, _) | Request::Range(_, _) => Some(Operand::Hex),
            Request::ReadLabel | Request::ReadRange => Some(Operand::Text),
        }
    }
}
