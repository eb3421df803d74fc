// The lines of the input as requests: a command line, then its operand line if it has one, then its answer.
ghost use Rattle.std.specs.Prelude.{◌≡◌};
ghost use Rattle.segment_table.specs.Segments.{empty_table};
ghost use Rattle.segments_cmd.specs.Session.{after_command, after_line, between, table_after};

use crate::request::Request;
use crate::{answer, call, request, show};
use console::command;
use segment_table::{CallOutcome, SegmentTable, operator, state};

// The state, and the request whose operand line is due. Between two requests none is. It is handed on by `&mut`: a function clears its locals when
// it is entered, so a copy of the state there would cost as much at a line that is skipped as at one that makes a call.
#[derive(Clone, Copy)]
pub(crate) struct Session {
    pub table: SegmentTable,
    pub due: Option<Request>,
}

fn between(table: SegmentTable) -> Session
    ensures { result ≡ between table }
{
    Session { table, due: None }
}

// The state of zeros, which is what a refused make hands back.
pub(crate) fn start() -> Session
    ensures { result ≡ between (empty_table 0) }
{
    between(operator::make(0).table)
}

// Prints what a call answers. The state that it leaves takes the old one's place.
fn reply(rt: &(impl Print + Eprint), o: CallOutcome, s: &mut Session)
    ensures { s.new ≡ between o.table }
{
    answer::print(rt, o.answer);
    s.table = o.table;
    s.due = None;
}

fn show(rt: &(impl Print + Eprint), s: &mut Session)
    ensures { s.new ≡ between s.old.table }
{
    if state::sound(&s.table) {
        show::print(rt, &s.table);
        s.due = None;
        return;
    }
    reply(rt, call::refused(s.table), s)
}

// Answers a request, with its operand line if it has one, or refuses a line that asks for nothing that there is.
fn respond(rt: &(impl Print + Eprint), s: &mut Session, r: Option<Request>, line: &[u8])
    ensures { s.new ≡ between (table_after s.old.table r line.now) }
{
    match r {
        None => reply(rt, call::refused(s.table), s),
        Some(Request::Make(pool)) => reply(rt, call::make(s.table, pool), s),
        Some(Request::Admit(tenant, ceiling)) => {
            reply(rt, call::admit(s.table, tenant, ceiling, line), s)
        }
        Some(Request::SetCeiling(tenant, ceiling)) => {
            reply(rt, operator::set_ceiling(s.table, tenant, ceiling), s)
        }
        Some(Request::Call(tenant, action)) => {
            reply(rt, call::of_tenant(s.table, tenant, action, line), s)
        }
        Some(Request::Show) => show(rt, s),
    }
}

// A line where a command line is due. A bad line comes as no bytes at all.
fn take_command(rt: &(impl Print + Eprint), s: &mut Session, line: &[u8])
    ensures { s.new ≡ after_command s.old.table line.now }
{
    s.due = None;
    if command::is_skipped(line) {
        return;
    }
    let due = request::of_line(line);
    match due {
        Some(r) if r.takes_operand() => s.due = due,
        _ => respond(rt, s, due, line),
    }
}

pub(crate) fn take_line(rt: &(impl Print + Eprint), s: &mut Session, line: &[u8])
    ensures { s.new ≡ after_line s.old line.now }
{
    if s.due.is_some() {
        let due = s.due;
        return respond(rt, s, due, line);
    }
    take_command(rt, s, line)
}

// The end of the input: a request that lacks its operand line is refused, and a read that failed is told.
pub(crate) fn finish(rt: &(impl Print + Eprint), s: &mut Session, failed: bool) {
    if s.due.is_some() {
        reply(rt, call::refused(s.table), s);
    }
    if failed {
        let _ = rt.eprintln("segments_cmd: can't read the standard input");
    }
}
