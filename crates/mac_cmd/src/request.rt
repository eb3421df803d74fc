// A command line as a request: what it asks for, with its number if it has one.
use console::command;

#[derive(Clone, Copy)]
pub(crate) enum Request {
    Dominates,
    Equal,
    Upper,
    Lower,
    // The hierarchy.
    Valid(u64),
    Count,
    // The number at or above which the category is to be.
    Next(u64),
    Region,
    Contains,
    Meet,
    Within,
    Empty,
    Split,
    Echo,
}

// None where the line is bad, the word unknown, or the numbers of the wrong count or form.
pub(crate) fn of_line(line: &[u8]) -> Option<Request> {
    let c = command::parse(line)?;
    let request = match (octets::front(line, c.word), c.numbers()) {
        (b"dominates", []) => Request::Dominates,
        (b"equal", []) => Request::Equal,
        (b"upper", []) => Request::Upper,
        (b"lower", []) => Request::Lower,
        (b"valid", [hierarchy]) => Request::Valid(*hierarchy),
        (b"count", []) => Request::Count,
        (b"next", [from]) => Request::Next(*from),
        (b"region", []) => Request::Region,
        (b"contains", []) => Request::Contains,
        (b"meet", []) => Request::Meet,
        (b"within", []) => Request::Within,
        (b"empty", []) => Request::Empty,
        (b"split", []) => Request::Split,
        (b"echo", []) => Request::Echo,
        _ => return None,
    };
    Some(request)
}

impl Request {
    // How many operand lines a request has.
    pub(crate) fn operand_count(self) -> usize {
        match self {
            Request::Valid(_) => 0,
            Request::Count
            | Request::Next(_)
            | Request::Region
            | Request::Empty
            | Request::Split
            | Request::Echo => 1,
            Request::Dominates
            | Request::Equal
            | Request::Upper
            | Request::Lower
            | Request::Contains
            | Request::Meet
            | Request::Within => 2,
        }
    }
}
