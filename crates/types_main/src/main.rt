// The program `types`: reads a text of type declarations from standard input. It prints `accepted`, then `id N NAME` for each child name and
// `row R NAME` for each declaration; with the argument `rows` it writes the T rows themselves; otherwise `refused N P` and, on standard error,
// line, column and a sentence. Its status is 0, 1 where the text is refused, 2 where reading or writing failed.
#![tactic(auto)]

mod listing;
mod refused;

use console::Status;
use refusal::Refusal;
use std::io;
use std::io::{Read, Write};
use std::process::ExitCode;

// One byte more than a text may have tells a long one.
fn answer<W: Write, E: Write>(
    out: &mut W,
    errors: &mut E,
    text: &[u8],
    rows: bool,
) -> io::Result<Status> {
    let mut table = [0u8; 2048];
    let done = controller::write_types(text, &mut table);
    if let Err(why) = done.verdict {
        refused::say(out, errors, text, why)?;
        return Ok(Status::Refused);
    }
    if 2048 < done.bytes {
        return Ok(Status::Failed);
    }
    if rows {
        console::write(out, &table[..done.bytes])?;
        return Ok(Status::Done);
    }
    listing::print(out, text)?;
    Ok(Status::Done)
}

fn run<R: Read, W: Write, E: Write>(
    reader: &mut R,
    out: &mut W,
    errors: &mut E,
    rows: bool,
) -> io::Result<Status> {
    let mut buf = [0u8; 8193];
    let text = console::read(reader, &mut buf);
    if let Some(error) = text.failed {
        return Ok(console::unreadable(errors, error));
    }
    answer(out, errors, &buf[..text.len], rows)
}

fn main(rt: HostRuntime) -> ExitCode {
    let rows = console::is_given(&rt, 1);
    let mut errors = rt.stderr();
    let ended = run(&mut rt.stdin(), &mut rt.stdout(), &mut errors, rows);
    console::finish(&mut errors, ended)
}
