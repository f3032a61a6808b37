// Prints what refusals 2 to 5 say of each network file that its arguments name: name, number, place. A file that cannot be opened is named
// on standard error, and the others are answered.
#![tactic(auto)]

use console::Status;
use refusal::Refusal;
use std::env::FillError;
use std::io;
use std::io::{Read, Write};
use std::process::ExitCode;
use std::rt::{Env, Files};

fn print<W: Write>(out: &mut W, number: u64, place: usize) -> io::Result<()> {
    writeln!(out, " {number} {place}")
}

fn answer<W: Write>(out: &mut W, s: &[u8]) -> io::Result<()> {
    match network_form::form_of(s) {
        Ok(()) => print(out, 0, 0),
        Err(why) => print(
            out,
            u64::from(refusal::number_of(why)),
            refusal::place_of(why),
        ),
    }
}

// One byte more than a file may have tells a long one.
fn judge<R: Read, W: Write>(reader: &mut R, out: &mut W) -> io::Result<()> {
    let mut buf = [0u8; 32769];
    let file = console::read(reader, &mut buf);
    answer(out, &buf[..file.len])
}

// The file of a name that is an argument.
fn named<F: Files, W: Write, E: Write>(
    files: &F,
    out: &mut W,
    errors: &mut E,
    name: &[u8],
) -> io::Result<()> {
    match console::open(files, name) {
        Ok(mut file) => {
            out.write_all(name)?;
            judge(&mut file, out)
        }
        Err(error) => {
            console::fail(errors, name, error);
            Ok(())
        }
    }
}

fn run<R: Env + Files, W: Write, E: Write>(
    rt: &R,
    out: &mut W,
    errors: &mut E,
) -> io::Result<Status> {
    for i in 1..usize::MAX {
        let mut name = [0u8; 4096];
        match rt.arg(i, &mut name) {
            Ok(n) => named(rt, out, errors, &name[..n])?,
            Err(FillError::TooLong) => named(rt, out, errors, &name)?,
            Err(FillError::NotPresent) => break,
        }
    }
    Ok(Status::Done)
}

fn main(rt: HostRuntime) -> ExitCode {
    let mut errors = rt.stderr();
    let ended = run(&rt, &mut rt.stdout(), &mut errors);
    console::finish(&mut errors, ended)
}
