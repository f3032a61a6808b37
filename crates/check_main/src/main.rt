// The program `check`: reads a network file from standard input and prints the environments of its services, or the refusal. Its status is
// 0, 1 where the file is refused, 2 where reading or writing failed.
#![tactic(auto)]

use console::Status;
use std::io;
use std::io::{Read, Write};
use std::process::ExitCode;

// One byte more than a file may have tells a long one.
fn run<R: Read, W: Write, E: Write>(
    reader: &mut R,
    out: &mut W,
    errors: &mut E,
) -> io::Result<Status> {
    let mut buf = [0u8; 32769];
    let file = console::read(reader, &mut buf);
    if let Some(error) = file.failed {
        return Ok(console::unreadable(errors, error));
    }
    report::answer(out, controller::check(&buf[..file.len]))
}

fn main(rt: HostRuntime) -> ExitCode {
    let mut errors = rt.stderr();
    let ended = run(&mut rt.stdin(), &mut rt.stdout(), &mut errors);
    console::finish(&mut errors, ended)
}
