// mac_cmd: answers what holds of labels, ranges, tuples and hex lines, with requests read from standard input. docs/PROGRAMS.md has what it reads and
// prints.
#![tactic(auto)]

mod answer;
mod call;
mod request;
mod session;

fn main(rt: HostRuntime) {
    let mut reader = rt.stdin();
    let mut chunk = [0u8; 4096];
    let mut line = [0u8; 512];
    // A request's first operand line, where it has two.
    let mut operand = [0u8; 512];
    let mut pending = None;
    let failed = input::for_each_line(&mut reader, &mut chunk, &mut line, |line| {
        pending = session::take_line(&rt, pending, line, &mut operand);
    });
    session::finish(&rt, pending, failed);
}
