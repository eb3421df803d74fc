// The lines of the input as requests: a command line, then its operand if it has one, then one answer.
use crate::kept::Kept;
use crate::request::{Operand, Request};
use crate::{answer, call, kept, request};
use common::errno::Errno;
use console::command;

// What is kept, and the request whose operand is due. Between two requests none is.
#[derive(Clone, Copy)]
pub(crate) struct Session {
    kept: Kept,
    due: Option<Request>,
}

fn between(kept: Kept) -> Session {
    Session { kept, due: None }
}

pub(crate) fn start() -> Session {
    between(kept::start())
}

// Whether the next line is a line of text.
pub(crate) fn takes_text(s: Session) -> bool {
    match s.due {
        Some(r) => r.operand() == Some(Operand::Text),
        None => false,
    }
}

// Makes the call of a request, with its operand line if it has one, and prints what is granted.
fn answer(
    rt: &(impl Print + Eprint),
    kept: &mut Kept,
    r: Request,
    line: &[u8],
    table: &[u8],
    out: &mut [u8],
) -> Result<(), Errno> {
    match r {
        Request::Table => answer::print_count(rt, call::entry_count(*kept, table)?),
        Request::Subject(read_override) => {
            kept.subject = call::subject(read_override, line)?;
            answer::print_ok(rt);
        }
        Request::Capacity(n) => {
            kept.capacity = call::capacity(n)?;
            answer::print_ok(rt);
        }
        Request::Label(form, variant) => {
            let length = call::write_label(*kept, form, variant, line, table, out)?;
            answer::print_text(rt, length, out);
        }
        Request::Range(form, variant) => {
            let written = call::write_range(*kept, form, variant, line, table, out)?;
            answer::print_status(rt, written.status);
            answer::print_text(rt, written.length, out);
        }
        Request::ReadLabel => answer::print_label(rt, call::read_label(*kept, line, table)?)?,
        Request::ReadRange => answer::print_range(rt, call::read_range(*kept, line, table)?)?,
    }
    Ok(())
}

// Answers a request, with its operand line if it has one.
fn respond(
    rt: &(impl Print + Eprint),
    mut kept: Kept,
    r: Request,
    line: &[u8],
    table: &[u8],
    out: &mut [u8],
) -> Session {
    if let Err(e) = answer(rt, &mut kept, r, line, table, out) {
        answer::print_refusal(rt, e);
    }
    between(kept)
}

// A line where a command line is due. A bad line comes as no bytes at all.
fn take_command(
    rt: &(impl Print + Eprint),
    kept: Kept,
    line: &[u8],
    table: &[u8],
    out: &mut [u8],
) -> Session {
    if command::is_skipped(line) {
        return between(kept);
    }
    let Some(r) = request::of_line(line) else {
        answer::print_refusal(rt, Errno::Invalid);
        return between(kept);
    };
    match r.operand() {
        None => respond(rt, kept, r, line, table, out),
        Some(Operand::Lines) => Session {
            kept: kept::without_table(kept),
            due: Some(r),
        },
        Some(_) => Session { kept, due: Some(r) },
    }
}

// A line where one of the table is due. An empty line ends the table.
fn take_table_line(
    rt: &(impl Print + Eprint),
    kept: Kept,
    line: &[u8],
    table: &mut [u8],
    out: &mut [u8],
) -> Session {
    if line == b"\n".as_slice() {
        return respond(rt, kept, Request::Table, line, table, out);
    }
    Session {
        kept: kept::with_line(kept, table, line),
        due: Some(Request::Table),
    }
}

pub(crate) fn take_line(
    rt: &(impl Print + Eprint),
    s: Session,
    line: &[u8],
    table: &mut [u8],
    out: &mut [u8],
) -> Session {
    match s.due {
        None => take_command(rt, s.kept, line, table, out),
        Some(Request::Table) => take_table_line(rt, s.kept, line, table, out),
        Some(r) => respond(rt, s.kept, r, line, table, out),
    }
}

// The end of the input: it ends a table, a request that lacks its operand has a bad one, and a read that failed is told.
pub(crate) fn finish(
    rt: &(impl Print + Eprint),
    s: Session,
    failed: bool,
    table: &[u8],
    out: &mut [u8],
) {
    if failed {
        let _ = rt.eprintln("text_cmd: can't read the standard input");
    }
    if let Some(r) = s.due {
        respond(rt, s.kept, r, b"", table, out);
    }
}
