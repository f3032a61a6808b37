// The program `play`: runs a script of moves over the network file that its argument names, from the fresh state, and prints each result.
// A line of the script is a move in 01's words with its numbers in decimal and outside bytes in hexadecimal, or `state`; a # starts a
// comment. README, "Run a network", has the forms. The first line that is none of these ends the run. The status is 0, 1 where the network
// is refused, 2 where a line is none of these or reading or writing failed.
#![tactic(auto)]

mod player;
mod printing;
mod script;

use console::Status;
use std::io;
use std::io::{ErrorKind, Read, Write};
use std::process::ExitCode;
use std::rt::{Env, Files};

fn run<R: Read, W: Write, E: Write>(
    reader: &mut R,
    out: &mut W,
    errors: &mut E,
    file: &[u8],
) -> io::Result<Status> {
    let mut state = [0u8; 65536];
    let o = controller::fresh(file, &mut state);
    let n = refusal::number(o);
    if 0 < n {
        report::refused(out, n, refusal::place(o))?;
        return Ok(Status::Refused);
    }
    player::play_all(reader, out, errors, file, &mut state)
}

// One byte more than a file may have tells a long one.
fn with_file<F: Read, R: Read, W: Write, E: Write>(
    network: &mut F,
    reader: &mut R,
    out: &mut W,
    errors: &mut E,
    path: &[u8],
) -> io::Result<Status> {
    let mut buf = [0u8; 32769];
    let file = console::read(network, &mut buf);
    if let Some(error) = file.failed {
        return Ok(console::fail(errors, path, error));
    }
    run(reader, out, errors, &buf[..file.len])
}

// Plays over the network of this name.
fn with_path<F: Files, R: Read, W: Write, E: Write>(
    files: &F,
    reader: &mut R,
    out: &mut W,
    errors: &mut E,
    path: &[u8],
) -> io::Result<Status> {
    match console::open(files, path) {
        Ok(mut network) => { with_file(&mut network, reader, out, errors, path) }
        Err(error) => Ok(console::fail(errors, path, error)),
    }
}

// Plays over the network that the argument names.
fn with_argument<V: Env + Files, R: Read, W: Write, E: Write>(
    rt: &V,
    reader: &mut R,
    out: &mut W,
    errors: &mut E,
) -> io::Result<Status> {
    if !console::is_given(rt, 1) || console::is_given(rt, 2) {
        let _ = errors.write_all(b"usage: play NETWORK < SCRIPT\n");
        return Ok(Status::Failed);
    }
    let mut path = [0u8; 4096];
    match rt.arg(1, &mut path) {
        Ok(length) => with_path(rt, reader, out, errors, &path[..length]),
        Err(_) => {
            let error = io::Error::new(ErrorKind::InvalidInput, "the name is too long");
            Ok(console::fail(errors, b"network file", error))
        }
    }
}

fn main(rt: HostRuntime) -> ExitCode {
    let mut errors = rt.stderr();
    let ended = with_argument(&rt, &mut rt.stdin(), &mut rt.stdout(), &mut errors);
    console::finish(&mut errors, ended)
}
