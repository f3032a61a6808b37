// The text of a line: blanks, words, decimal numbers, and bytes in hexadecimal. Every function is total.
#![tactic(auto)]

ghost use Rattle.std.specs.Prelude.{◌+◌, ◌≤◌, ◌≡◌, true, false, length, IfOk, IfSome};
ghost use Rattle.lines.specs.Text.{FirstAt, HexDigit, HexPair, Longer, TextRun, blank};

use std::error::Error;
use std::fmt;

// Why a line is no line of its program.
#[derive(Clone, Copy, Debug, PartialEq, Eq)]
pub enum Fault {
    Word,
    Number,
    Large,
    Trailing,
    Digits,
    Full,
    Short,
    Long,
}

impl fmt::Display for Fault {
    fn fmt<W: fmt::Write>(&self, f: &mut fmt::Formatter<W>) -> fmt::Result {
        f.write_str(match self {
            Fault::Word => "not a move",
            Fault::Number => "a number is missing or not decimal",
            Fault::Large => "a number is too large",
            Fault::Trailing => "words after the move",
            Fault::Digits => "not pairs of hexadecimal digits",
            Fault::Full => "too many bytes",
            Fault::Short => "fewer than 8 bytes",
            Fault::Long => "longer than 4096 bytes",
        })
    }
}

impl Error for Fault {}

fn is_blank(x: u8) -> bool
    ensures { result ≡ blank x }
{
    x == b' ' || x == b'\t'
}

// How many bytes at the start are all blanks, or all others.
fn run(s: &[u8], blanks: bool) -> usize
    ensures { TextRun s.now blanks result }
{
    for i in 0..s.len() {
        if is_blank(s[i]) != blanks {
            return i;
        }
    }
    s.len()
}

// How many blanks are at the start.
pub fn blanks(s: &[u8]) -> usize
    ensures { TextRun s.now true result }
{
    run(s, true)
}

// The length of the word at the start.
pub fn word(s: &[u8]) -> usize
    ensures { TextRun s.now false result }
{
    run(s, false)
}

// The line's length without a carriage return at its end.
pub fn without_return(line: &[u8]) -> usize
    ensures { result ≤ length line.now }
{
    let n = line.len();
    if 0 < n && line[n - 1] == b'\r' {
        return n - 1;
    }
    n
}

// The place of the first byte x from `from` on and before `to`, or `to` where none is.
pub fn find(s: &[u8], from: usize, to: usize, x: u8) -> usize
    requires { (from ≤ to) × (to ≤ length s.now) }
    ensures { FirstAt s.now from to x result }
{
    for i in from..to {
        if s[i] == x {
            return i;
        }
    }
    to
}

// The value of a hexadecimal digit.
fn digit(x: u8) -> Option<u8>
    ensures { HexDigit x result }
{
    match x {
        48..=57 => Some(x - 48),
        65..=70 => Some(x - 55),
        97..=102 => Some(x - 87),
        _ => None,
    }
}

// The byte of two hexadecimal digits.
fn pair(x: u8, y: u8) -> Option<u8>
    ensures { HexPair x y result }
{
    let high = digit(x)?;
    let low = digit(y)?;
    Some(16 * high + low)
}

// The byte of the two hexadecimal digits at `at`.
fn pair_at(s: &[u8], at: usize) -> Option<u8>
    ensures { IfSome result (λ _. at + 2 ≤ length s.now) }
{
    if s.len() < 2 || s.len() - 2 < at {
        return None;
    }
    pair(s[at], s[at + 1])
}

// The value with one more digit, if it and that fit 32 bits.
fn longer(value: Option<u32>, digit: u8) -> Option<u32>
    ensures { Longer value digit result }
{
    value?.checked_mul(10)?.checked_add(u32::from(digit))
}

// The value of the word's decimal digits.
fn decimal(word: &[u8]) -> Result<u32, Fault> {
    if word.is_empty() {
        return Err(Fault::Number);
    }
    let mut value = Some(0);
    for x in word {
        let Some(d) = digit(*x) else {
            return Err(Fault::Number);
        };
        if 9 < d {
            return Err(Fault::Number);
        }
        value = longer(value, d);
    }
    value.ok_or(Fault::Large)
}

// The number after the blanks at the start, which is at most `most`, and the place past it.
pub fn read_number(s: &[u8], most: u32) -> Result<(u32, usize), Fault>
    ensures { IfOk result (λ read. read.1 ≤ length s.now) }
{
    let start = blanks(s);
    let end = start + word(&s[start..]);
    let value = decimal(&s[start..end])?;
    if most < value {
        return Err(Fault::Large);
    }
    Ok((value, end))
}

// Reads bytes in hexadecimal, with blanks before, between and after them, and gives how many there are. More of them than there is room
// for are a fault.
pub fn read_bytes(s: &[u8], bytes: &mut [u8]) -> Result<usize, Fault>
    ensures { IfOk result (λ len. len ≤ length bytes.new) }
{
    let mut i = blanks(s);
    let mut n: usize = 0;
    while i < s.len() {
        let Some(x) = pair_at(s, i) else {
            return Err(Fault::Digits);
        };
        if bytes.len() <= n {
            return Err(Fault::Full);
        }
        bytes[n] = x;
        n += 1;
        i = i + 2 + blanks(&s[i + 2..]);
    }
    Ok(n)
}
