// Standard input by lines: a buffer keeps what was read and not yet taken.
ghost use Rattle.std.specs.Prelude.{ℕ, ◌+◌, ◌-◌, ◌≤◌, ◌<◌, ◌≡◌, length, get_or};

use std::io;
use std::io::{ErrorKind, Read};

// The most bytes of a line, its line feed not counted.
const BOUND: usize = 4096;

// The bytes of the buffer that are not yet taken are those from `from` to `to`. `skip`: they continue a line that was too long.
#[derive(Clone, Copy)]
pub struct Input {
    pub from: usize,
    pub to: usize,
    pub skip: bool,
    pub ended: bool,
    pub lines: u64,
}

// `More`: nothing yet.
#[derive(Clone, Copy)]
pub enum What {
    Line,
    Long,
    More,
    End,
    Failed(io::Error),
}

// What is next. A line is the bytes of the buffer from `from` to `to`, without its line feed; its number is the input's count of lines.
#[derive(Clone, Copy)]
pub struct Event {
    pub what: What,
    pub from: usize,
    pub to: usize,
    pub input: Input,
}

pub fn start() -> Input {
    Input {
        from: 0,
        to: 0,
        skip: false,
        ended: false,
        lines: 0,
    }
}

fn without_line(what: What, input: Input) -> Event
    ensures { (result.from ≤ result.to) × (result.to ≤ 0) }
{
    Event {
        what: what,
        from: 0,
        to: 0,
        input: input,
    }
}

fn counted(lines: u64) -> u64 {
    lines.saturating_add(1)
}

// Moves the bytes from `from` to `to` to the front.
fn shift(buf: &mut [u8], from: usize, to: usize)
    requires { (from ≤ to) × (to ≤ length buf.old) }
    ensures { (k : ℕ) → k < to - from → get_or buf.new k 0 ≡ get_or buf.old (from + k) 0 }
{
    buf.copy_within(from..to, 0);
}

// The line that ends at `end`, which has a line feed there.
fn taken(input: Input, end: usize) -> Event
    requires { (input.from ≤ end) × (end + 1 ≤ input.to) }
    ensures { (result.from ≤ result.to) × (result.to ≤ input.to) }
{
    let mut rest = input;
    rest.from = end + 1;
    rest.skip = false;
    if input.skip {
        return without_line(What::More, rest);
    }
    rest.lines = counted(input.lines);
    if BOUND < end - input.from {
        return without_line(What::Long, rest);
    }
    Event {
        what: What::Line,
        from: input.from,
        to: end,
        input: rest,
    }
}

// The last line, without a line feed, or the end.
fn last(input: Input, n: usize) -> Event
    ensures { (result.from ≤ result.to) × (result.to ≤ n) }
{
    let mut rest = input;
    rest.from = 0;
    rest.to = 0;
    rest.ended = true;
    if n == 0 {
        return without_line(What::End, rest);
    }
    rest.lines = counted(input.lines);
    Event {
        what: What::Line,
        from: 0,
        to: n,
        input: rest,
    }
}

// Reads behind the n bytes at the front, which start a line.
fn read_on<R: Read>(reader: &mut R, buf: &mut [u8], input: Input, n: usize) -> Event
    requires { n ≤ length buf.old }
    ensures { (result.from ≤ result.to) × (result.to ≤ length buf.new) }
{
    let more = match reader.read(&mut buf[n..]) {
        Ok(more) => more,
        Err(error) => return without_line(What::Failed(error), input),
    };
    if more == 0 {
        return last(input, n);
    }
    let mut rest = input;
    rest.from = 0;
    rest.to = n + more;
    without_line(What::More, rest)
}

// No line feed is between `from` and `to`.
fn unfinished<R: Read>(reader: &mut R, buf: &mut [u8], input: Input) -> Event
    requires { (input.from ≤ input.to) × (input.to ≤ length buf.old) }
    ensures { (result.from ≤ result.to) × (result.to ≤ length buf.new) }
{
    if input.skip {
        return read_on(reader, buf, input, 0);
    }
    let n = input.to - input.from;
    if n <= BOUND && n < buf.len() {
        shift(buf, input.from, input.to);
        return read_on(reader, buf, input, n);
    }
    let mut rest = input;
    rest.from = 0;
    rest.to = 0;
    rest.skip = true;
    rest.lines = counted(input.lines);
    without_line(What::Long, rest)
}

// The input was changed by other hands than these functions.
fn misplaced(input: Input) -> Event
    ensures { (result.from ≤ result.to) × (result.to ≤ 0) }
{
    let error = io::Error::new(ErrorKind::InvalidInput, "no place of the buffer");
    without_line(What::Failed(error), input)
}

// Takes the next line, or reads once.
pub fn next<R: Read>(reader: &mut R, buf: &mut [u8], input: Input) -> Event
    ensures { (result.from ≤ result.to) × (result.to ≤ length buf.new) }
{
    if input.ended {
        return without_line(What::End, input);
    }
    if input.to < input.from || buf.len() < input.to {
        return misplaced(input);
    }
    let end = lines::find(buf, input.from, input.to, b'\n');
    if end < input.to {
        return taken(input, end);
    }
    unfinished(reader, buf, input)
}
