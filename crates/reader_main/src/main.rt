// The program `part`: the message reader on vectors. Each line of the input is a vector in hexadecimal, a path's four ids as in a row of
// section P and then the bytes of a message; blanks may stand between bytes, and a # starts a comment. For each vector the program writes
// the line's number, the length of the part that the reader gives, and the part. Its status is 0, or 2 where a line is no vector or
// reading or writing failed.
#![tactic(auto)]

use console::{Status, What};
use lines::Fault;
use std::io;
use std::io::{Read, Write};
use std::process::ExitCode;

// The part of the message after the row's four ids.
fn show<W: Write>(out: &mut W, number: u64, row: &[u8]) -> io::Result<()> {
    if row.len() < 8 {
        return Ok(());
    }
    let a = wire::u16_at(row, 0);
    let b = wire::u16_at(row, 2);
    let c = wire::u16_at(row, 4);
    let d = wire::u16_at(row, 6);
    let p = controller::part(&row[8..], [a, b, c, d]);
    console::number(out, number)?;
    console::write(out, b" ")?;
    console::number(out, p.len() as u64)?;
    console::write(out, b" ")?;
    console::bytes(out, p)?;
    console::write(out, b"\n")
}

// Answers the vector of a line, if there is one. A line that fits its buffer has at most half as many bytes.
fn answer<W: Write>(out: &mut W, number: u64, line: &[u8]) -> io::Result<Result<(), Fault>> {
    let mut row = [0u8; 2048];
    let end = lines::without_return(line);
    let end = lines::find(line, 0, end, b'#');
    match lines::read_bytes(&line[0..end], &mut row) {
        Err(why) => Ok(Err(why)),
        Ok(0) => Ok(Ok(())),
        Ok(1..8) => Ok(Err(Fault::Short)),
        Ok(n) => {
            show(out, number, &row[0..n])?;
            Ok(Ok(()))
        }
    }
}

// The status after a line, which was `Done` or `Failed` before it.
fn judge<E: Write>(
    errors: &mut E,
    status: Status,
    number: u64,
    judged: Result<(), Fault>,
) -> Status {
    match judged {
        Ok(()) => status,
        Err(why) => {
            console::wrong(errors, number, why);
            Status::Failed
        }
    }
}

fn run<R: Read, W: Write, E: Write>(
    reader: &mut R,
    out: &mut W,
    errors: &mut E,
) -> io::Result<Status> {
    let mut buf = [0u8; 65536];
    let mut input = console::start();
    let mut status = Status::Done;
    for _ in 0..console::TURNS {
        let event = console::next(reader, &mut buf, input);
        input = event.input;
        match event.what {
            What::End => return Ok(status),
            What::Failed(error) => return Ok(console::unreadable(errors, error)),
            What::More => {},
            What::Long => status = judge(errors, status, input.lines, Err(Fault::Long)),
            What::Line => {
                let judged = answer(out, input.lines, &buf[event.from..event.to])?;
                status = judge(errors, status, input.lines, judged);
            }
        }
    }
    Ok(console::spent(errors))
}

fn main(rt: HostRuntime) -> ExitCode {
    let mut errors = rt.stderr();
    let ended = run(&mut rt.stdin(), &mut rt.stdout(), &mut errors);
    console::finish(&mut errors, ended)
}
