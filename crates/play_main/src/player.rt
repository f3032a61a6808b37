// The script's lines, one after the other: each move is made and its result printed.
ghost use Rattle.std.specs.Prelude.{◌≡◌, length};

use crate::printing::{print_outcome, print_state};
use crate::script::{Asked, read_line};
use console::{Status, What, write};
use lines::Fault;
use std::io;
use std::io::{Read, Write};

// Makes the move of a line, or prints the state, and prints the line before what comes of it.
fn play_line<W: Write>(
    out: &mut W,
    file: &[u8],
    state: &mut [u8],
    sent: &mut [u8],
    line: &[u8],
) -> io::Result<Result<(), Fault>>
    requires { length state.old ≡ 65536 }
    ensures { length state.new ≡ 65536 }
{
    let mut outside = [0u8; 1024];
    let read = match read_line(line, &mut outside) {
        Ok(read) => read,
        Err(why) => return Ok(Err(why)),
    };
    write(out, line)?;
    match read.asked {
        Asked::Move(m) => {
            let o = controller::step(file, state, sent, m, &outside[0..read.len]);
            print_outcome(out, o, sent)?;
        }
        Asked::State => {
            write(out, b"\n")?;
            print_state(out, file, state)?;
        }
    }
    Ok(Ok(()))
}

// Plays a line unless it is blank or a comment.
fn play<W: Write>(
    out: &mut W,
    file: &[u8],
    state: &mut [u8],
    sent: &mut [u8],
    line: &[u8],
) -> io::Result<Result<(), Fault>>
    requires { length state.old ≡ 65536 }
    ensures { length state.new ≡ 65536 }
{
    let end = lines::without_return(line);
    let start = lines::blanks(&line[0..end]);
    if end <= start || line[start] == b'#' {
        return Ok(Ok(()));
    }
    play_line(out, file, state, sent, &line[0..end])
}

fn stopped<E: Write>(errors: &mut E, line: u64, why: Fault) -> Option<Status> {
    console::wrong(errors, line, why);
    Some(Status::Failed)
}

// What standard input gave: a line with its number is played. Gives the status once the run is over.
fn turn<W: Write, E: Write>(
    out: &mut W,
    errors: &mut E,
    file: &[u8],
    state: &mut [u8],
    sent: &mut [u8],
    what: What,
    line: &[u8],
    number: u64,
) -> io::Result<Option<Status>>
    requires { length state.old ≡ 65536 }
    ensures { length state.new ≡ 65536 }
{
    match what {
        What::More => Ok(None),
        What::End => Ok(Some(Status::Done)),
        What::Failed(error) => Ok(Some(console::unreadable(errors, error))),
        What::Long => Ok(stopped(errors, number, Fault::Long)),
        What::Line => match play(out, file, state, sent, line)? {
            Ok(()) => Ok(None),
            Err(why) => Ok(stopped(errors, number, why)),
        },
    }
}

// Plays standard input's lines, up to the first that is none of a script, and gives the status.
pub(crate) fn play_all<R: Read, W: Write, E: Write>(
    reader: &mut R,
    out: &mut W,
    errors: &mut E,
    file: &[u8],
    state: &mut [u8],
) -> io::Result<Status>
    requires { length state.old ≡ 65536 }
{
    let mut buf = [0u8; 65536];
    let mut sent = [0u8; 512];
    let mut input = console::start();
    for _ in 0..console::TURNS {
        let event = console::next(reader, &mut buf, input);
        input = event.input;
        let over = turn(
            out,
            errors,
            file,
            state,
            &mut sent,
            event.what,
            &buf[event.from..event.to],
            input.lines,
        )?;
        if let Some(status) = over {
            return Ok(status);
        }
    }
    Ok(console::spent(errors))
}
