// The program `counterexample`: of the network file on standard input, the message that fits the type of the row that the first argument names
// and not that of the second. It prints `none`, or the message in hexadecimal and then a line for each node; otherwise `refused N P`. Its
// status is 0, 1 where it is refused, 2 where an argument is no row number or reading or writing failed.
#![tactic(auto)]

mod message;

use console::Status;
use std::io;
use std::io::{Read, Write};
use std::process::ExitCode;
use std::rt::Env;

// A word as the number of a row: decimal digits and nothing else.
fn row_of(word: &[u8]) -> Option<u16> {
    if lines::word(word) < word.len() {
        return None;
    }
    let (n, _) = lines::read_number(word, 65535).ok()?;
    u16::try_from(n).ok()
}

fn no_row<E: Write>(errors: &mut E, word: &[u8]) -> Option<u16> {
    let _ = errors.write_all(b"'");
    let _ = errors.write_all(word);
    let _ = errors.write_all(b"' is no row number, 0 to 65535\n");
    None
}

// The row that an argument names; says what is wrong, without repeating an argument that is too long.
fn argument<V: Env, E: Write>(env: &V, errors: &mut E, i: usize) -> Option<u16> {
    let mut word = [0u8; 4096];
    let Ok(n) = env.arg(i, &mut word) else {
        return no_row(errors, b"..");
    };
    match row_of(&word[..n]) {
        Some(row) => Some(row),
        None => no_row(errors, &word[..n]),
    }
}

fn answer<W: Write>(out: &mut W, file: &[u8], first: u16, second: u16) -> io::Result<Status> {
    let mut message = [0u8; 512];
    let o = controller::counterexample(file, first, second, &mut message);
    let number = refusal::number(o);
    if 0 < number {
        report::refused(out, number, refusal::place(o))?;
        return Ok(Status::Refused);
    }
    let n = o.bytes;
    if 512 < n {
        return Ok(Status::Failed);
    }
    if n == 0 {
        console::write(out, b"none\n")?;
        return Ok(Status::Done);
    }
    message::print(out, &message[..n])?;
    Ok(Status::Done)
}

// One byte more than a file may have tells a long one.
fn with_rows<R: Read, W: Write, E: Write>(
    reader: &mut R,
    out: &mut W,
    errors: &mut E,
    first: u16,
    second: u16,
) -> io::Result<Status> {
    let mut buf = [0u8; 32769];
    let file = console::read(reader, &mut buf);
    if let Some(error) = file.failed {
        return Ok(console::unreadable(errors, error));
    }
    answer(out, &buf[..file.len], first, second)
}

fn run<V: Env, R: Read, W: Write, E: Write>(
    env: &V,
    reader: &mut R,
    out: &mut W,
    errors: &mut E,
) -> io::Result<Status> {
    if !console::is_given(env, 2) || console::is_given(env, 3) {
        let _ = errors.write_all(b"usage: counterexample FIRST SECOND < NETWORK\n");
        return Ok(Status::Failed);
    }
    let Some(first) = argument(env, errors, 1) else {
        return Ok(Status::Failed);
    };
    let Some(second) = argument(env, errors, 2) else {
        return Ok(Status::Failed);
    };
    with_rows(reader, out, errors, first, second)
}

fn main(rt: HostRuntime) -> ExitCode {
    let mut errors = rt.stderr();
    let ended = run(&rt, &mut rt.stdin(), &mut rt.stdout(), &mut errors);
    console::finish(&mut errors, ended)
}
