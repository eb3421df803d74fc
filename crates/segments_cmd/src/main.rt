// segments_cmd: the operator's console of the account of segments, with requests read from standard input. docs/PROGRAMS.md has what it reads and
// prints.
#![tactic(auto)]

mod answer;
mod call;
mod request;
mod session;
mod show;

fn main(rt: HostRuntime) {
    let mut reader = rt.stdin();
    let mut chunk = [0u8; 4096];
    let mut line = [0u8; 512];
    let mut session = session::start();
    let failed = input::for_each_line(&mut reader, &mut chunk, &mut line, |line| {
        session::take_line(&rt, &mut session, line);
    });
    session::finish(&rt, &mut session, failed);
}
