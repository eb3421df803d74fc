// A request as it is put together: the numbers of its command line, then one operand line after the other.
use common::errno::Errno;
use label::caller::Caller;
use monitor::{Credentials, Object, Presence, Request, numbers};
use range::tuple;

// The operand lines, in their order.
#[derive(Clone, Copy)]
pub(crate) enum Operand {
    SubjectLabel,
    SubjectRange,
    ObjectLabel,
    ObjectTuple,
    CallerLabel,
}

impl Operand {
    // The operand line after it, if it is not the last.
    pub(crate) fn next(self) -> Option<Operand> {
        match self {
            Operand::SubjectLabel => Some(Operand::SubjectRange),
            Operand::SubjectRange => Some(Operand::ObjectLabel),
            Operand::ObjectLabel => Some(Operand::ObjectTuple),
            Operand::ObjectTuple => Some(Operand::CallerLabel),
            Operand::CallerLabel => None,
        }
    }
}

// How many numbers a request has: privileges, class, kind, intents, attribute type, the caller's read override.
pub(crate) const NUMBERS: usize = 6;

// A request with its numbers and no operand yet, where privileges, class, a file's kind and override are some that there are.
pub(crate) fn of_numbers(numbers: &[u64]) -> Result<Request, Errno> {
    let [privileges, class, kind, intents, attribute, read_override] = numbers else {
        return Err(Errno::Invalid);
    };
    let privileges = numbers::privileges_of(*privileges).ok_or(Errno::Invalid)?;
    let named = numbers::type_of(*class, *kind).ok_or(Errno::Invalid)?;
    if *read_override > 1 {
        return Err(Errno::Invalid);
    }
    Ok(Request {
        credentials: Credentials {
            label: label::zero(),
            range: range::zero(),
            privileges,
        },
        object: Object {
            class: named.class,
            kind: named.kind,
            present: Presence {
                label: false,
                tuple: false,
            },
            label: label::zero(),
            tuple: tuple::empty(),
        },
        intents: *intents,
        attribute: *attribute,
        caller: Caller {
            label: label::zero(),
            read_override: *read_override == 1,
        },
    })
}

// The request with an operand line. The object's two may be left out: their line is then `-`.
pub(crate) fn with_operand(
    mut r: Request,
    operand: Operand,
    line: &[u8],
) -> Result<Request, Errno> {
    match operand {
        Operand::SubjectLabel => r.credentials.label = hexline::read_label(line)?,
        Operand::SubjectRange => r.credentials.range = hexline::read_range(line)?,
        Operand::ObjectLabel => {
            if line != b"-\n".as_slice() {
                r.object.label = hexline::read_label(line)?;
                r.object.present.label = true;
            }
        }
        Operand::ObjectTuple => {
            if line != b"-\n".as_slice() {
                r.object.tuple = hexline::read_tuple(line)?;
                r.object.present.tuple = true;
            }
        }
        Operand::CallerLabel => r.caller.label = hexline::read_label(line)?,
    }
    Ok(r)
}
