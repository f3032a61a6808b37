// A measurement, to be timed from outside. The first argument is how many times each network file that the others name is checked; prints
// for each file its name and the sum of the refusals' numbers and places and of the environments' bytes. Before each time the last byte of
// D changes, so that no answer stands for another.
#![tactic(auto)]

use check_network::Pair;
use console::Status;
use controller::Answer;
use refusal::Refusal;
use std::env::FillError;
use std::io;
use std::io::{Read, Write};
use std::process::ExitCode;
use std::rt::{Env, Files};

fn bytes(p: Pair) -> u64 {
    (p.starter.len as u64).wrapping_add(p.client.len as u64)
}

fn refused(v: Result<(), Refusal>) -> u64 {
    match v {
        Ok(()) => 0,
        Err(why) => u64::from(refusal::number_of(why)).wrapping_add(refusal::place_of(why) as u64),
    }
}

fn number(x: Answer) -> u64 {
    let front = bytes(x.first).wrapping_add(bytes(x.second));
    let back = bytes(x.third).wrapping_add(bytes(x.fourth));
    refused(x.verdict).wrapping_add(front.wrapping_add(back))
}

fn touch(s: &mut [u8], value: u8) {
    if s.len() < 29 {
        return;
    }
    let at = s.len() - 29;
    s[at] = value;
}

fn repeat(s: &mut [u8], times: u32) -> u64 {
    let mut sum: u64 = 0;
    for i in 0..times {
        touch(s, (i % 2) as u8);
        sum = sum.wrapping_add(number(controller::check(s)));
    }
    sum
}

// The decimal number of the digits at the start of the text, below 1,000,000,000.
fn decimal(text: &[u8]) -> u32 {
    let mut n: u32 = 0;
    for x in text {
        if !x.is_ascii_digit() || 99999999 < n {
            return n;
        }
        n = 10 * n + u32::from(*x - b'0');
    }
    n
}

fn measure<R: Read, W: Write>(reader: &mut R, out: &mut W, times: u32) -> io::Result<()> {
    let mut buf = [0u8; 32769];
    let file = console::read(reader, &mut buf);
    let sum = repeat(&mut buf[..file.len], times);
    writeln!(out, " {sum}")
}

// The file of a name that is an argument.
fn named<F: Files, W: Write, E: Write>(
    files: &F,
    out: &mut W,
    errors: &mut E,
    name: &[u8],
    times: u32,
) -> io::Result<()> {
    match console::open(files, name) {
        Ok(mut file) => {
            out.write_all(name)?;
            measure(&mut file, out, times)
        }
        Err(error) => {
            console::fail(errors, name, error);
            Ok(())
        }
    }
}

// How many times the first argument says.
fn times_of<V: Env>(env: &V) -> u32 {
    let mut count = [0u8; 4096];
    match env.arg(1, &mut count) {
        Ok(n) => decimal(&count[..n]),
        Err(_) => 0,
    }
}

fn run<R: Env + Files, W: Write, E: Write>(
    rt: &R,
    out: &mut W,
    errors: &mut E,
) -> io::Result<Status> {
    let times = times_of(rt);
    for i in 2..usize::MAX {
        let mut name = [0u8; 4096];
        match rt.arg(i, &mut name) {
            Ok(n) => named(rt, out, errors, &name[..n], times)?,
            Err(FillError::TooLong) => named(rt, out, errors, &name, times)?,
            Err(FillError::NotPresent) => break,
        }
    }
    Ok(Status::Done)
}

fn main(rt: HostRuntime) -> ExitCode {
    let mut errors = rt.stderr();
    let ended = run(&rt, &mut rt.stdout(), &mut errors);
    console::finish(&mut errors, ended)
}
