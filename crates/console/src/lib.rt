// A program's input and output: standard input by lines or a file whole, what is printed, errors on standard error, and the status. What
// prints gives the error of the first write that fails, and each caller passes it up to `finish`.
#![tactic(auto)]

ghost use Rattle.std.specs.Prelude.{◌≡◌, ◌≤◌, length, IfOk, OnOk, OnErr};
ghost use Rattle.std.specs.Io.KnownBytes.{Appends};
ghost use Rattle.std.specs.Process.{exit_status};
ghost use Rattle.console.specs.Console.{IsFront, status_number};

mod input;

pub use input::{Event, Input, What, next, start};
use lines::Fault;
use std::env::FillError;
use std::io::{ErrorKind, Read, Write};
use std::process::ExitCode;
use std::rt::{Env, Files};
use std::{fs, io, str};

// A loop over input takes at most so many turns; it then ends with an error.
pub const TURNS: u64 = 9223372036854775808;

// What a program ends with: all is done, its network or text is refused, or it was used wrongly, or reading or writing failed.
#[derive(Clone, Copy)]
pub enum Status {
    Done,
    Refused,
    Failed,
}

// A file that was read whole, as far as the buffer goes, or up to the error.
#[derive(Clone, Copy)]
pub struct File {
    pub failed: Option<io::Error>,
    pub len: usize,
}

// The status as the process gives it.
pub fn number_of(status: Status) -> u8
    ensures { result ≡ status_number status }
{
    match status {
        Status::Done => 0,
        Status::Refused => 1,
        Status::Failed => 2,
    }
}

pub fn write<W: Write>(out: &mut W, text: &[u8]) -> io::Result<()>
    ensures { OnOk result (Appends (W.contents out.old) (W.contents out.new) text.now) }
{
    out.write_all(text)
}

pub fn number<W: Write>(out: &mut W, n: u64) -> io::Result<()> {
    write!(out, "{n}")
}

// Bytes in hexadecimal.
pub fn bytes<W: Write>(out: &mut W, p: &[u8]) -> io::Result<()> {
    for x in p {
        byte(out, *x)?;
    }
    Ok(())
}

fn byte<W: Write>(out: &mut W, x: u8) -> io::Result<()> {
    write(out, &[digit(x / 16), digit(x % 16)])
}

// The hexadecimal digit of a number.
fn digit(x: u8) -> u8 {
    match x {
        0..=9 => 48 + x,
        10..=15 => 87 + x,
        _ => 63,
    }
}

// Says what is wrong with a line.
pub fn wrong<E: Write>(errors: &mut E, line: u64, why: Fault) {
    let _ = writeln!(errors, "line {line}: {why}");
}

// Says why something, named as the user knows it, cannot be read or written, and gives the status.
pub fn fail<E: Write>(errors: &mut E, what: &[u8], error: io::Error) -> Status
    ensures { result ≡ Status.Failed }
{
    let _ = errors.write_all(what);
    let _ = writeln!(errors, ": {error}");
    Status::Failed
}

// Says why standard input cannot be read, and gives the status.
pub fn unreadable<E: Write>(errors: &mut E, error: io::Error) -> Status
    ensures { result ≡ Status.Failed }
{
    fail(errors, b"standard input", error)
}

// Says that the turns are used up, and gives the status.
pub fn spent<E: Write>(errors: &mut E) -> Status
    ensures { result ≡ Status.Failed }
{
    let _ = writeln!(errors, "standard input: too long");
    Status::Failed
}

// Whether the program was given an argument of this number, from 1.
pub fn is_given<V: Env>(env: &V, i: usize) -> bool {
    !matches!(env.arg(i, &mut []), Err(FillError::NotPresent))
}

// Opens the file of this name, which is UTF-8.
pub fn open<F: Files>(files: &F, name: &[u8]) -> io::Result<F::File> {
    match str::from_utf8(name) {
        Ok(path) => fs::open(files, path),
        Err(_) => Err(io::Error::new(ErrorKind::InvalidInput, "the name is not UTF-8")),
    }
}

// Reads a file to its end or until the buffer is full.
pub fn read<R: Read>(reader: &mut R, buf: &mut [u8]) -> File
    ensures { IsFront result.len buf.new }
{
    let mut done: usize = 0;
    while done < buf.len() {
        match reader.read(&mut buf[done..]) {
            Err(error) => {
                return File {
                    failed: Some(error),
                    len: done,
                };
            }
            Ok(0) => break,
            Ok(more) => done += more,
        }
    }
    File {
        failed: None,
        len: done,
    }
}

// What a program's `main` returns, its last act: a write to standard output that failed makes the status 2.
pub fn finish<E: Write>(errors: &mut E, ended: io::Result<Status>) -> ExitCode
    ensures ended { IfOk ended (λ status. exit_status result ≡ status_number status) }
    ensures failed { OnErr ended (exit_status result ≡ 2) }
{
    let status = match ended {
        Ok(status) => status,
        Err(error) => fail(errors, b"standard output", error),
    };
    ExitCode::from(number_of(status))
}
