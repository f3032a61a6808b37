// What is printed of a refused text: `refused N P`; on standard error line, column and a sentence.
ghost use Rattle.std.specs.Prelude.{◌≤◌};

use refusal::Refusal;
use std::io;
use std::io::Write;

// 1 for a line's end.
fn ends(b: u8) -> u64
    ensures { result ≤ 1 }
{
    u64::from(b == b'\n')
}

// The line of a place, from 1.
fn line_of(text: &[u8], p: usize) -> u64 {
    let mut line: u64 = 1;
    for i in 0..p {
        if 8192 < i {
            return line;
        }
        line += ends(wire::byte_at(text, i));
    }
    line
}

// The column of a place, from 1.
fn column_of(text: &[u8], p: usize) -> u64 {
    if 8192 < p {
        return 1;
    }
    let mut column: u64 = 1;
    for i in (0..p).rev() {
        if wire::byte_at(text, i) == 10 {
            return column;
        }
        column += 1;
    }
    column
}

fn at<E: Write>(errors: &mut E, text: &[u8], p: usize) {
    let line = line_of(text, p);
    let column = column_of(text, p);
    let _ = write!(errors, "line {line}, column {column}: ");
}

// The name of the declaration that has the row, or the last one.
fn declared_at(text: &[u8], row: usize) -> usize {
    if 8192 < text.len() {
        return 0;
    }
    let mut table = [0u8; 16384];
    let mut stack = [0u8; 8192];
    let Ok(n) = type_reading::read_rest(text, 0, &mut table, 0, &mut stack) else {
        return 0;
    };
    let mut rows: usize = 0;
    for i in 0..n {
        if 2730 < i {
            return 0;
        }
        rows += 1 + wire::index(wire::u16_at(&table, 6 * i + 2));
        if row < rows {
            return wire::index(wire::u16_at(&table, 6 * i));
        }
    }
    0
}

// Byte 13 is what some editors put before the end of a line.
fn unknown_byte<E: Write>(errors: &mut E, text: &[u8], p: usize) {
    at(errors, text, p);
    let b = wire::byte_at(text, p);
    if b == 13 {
        say_line(
            errors,
            "byte 13 stands nowhere in a text of types; save it with line ends of byte 10",
        );
        return;
    }
    let _ = writeln!(errors, "byte {b} stands nowhere in a text of types");
}

fn say_line<E: Write>(errors: &mut E, line: &str) {
    let _ = writeln!(errors, "{line}");
}

fn sentence<E: Write>(errors: &mut E, text: &[u8], why: Refusal) {
    match why {
        Refusal::UnknownByte(p) => unknown_byte(errors, text, p),
        Refusal::BrokenText(p) => {
            at(errors, text, p);
            say_line(
                errors,
                "a declaration is broken here, or a name is unknown or declared twice",
            );
        }
        Refusal::FileLayout => {
            at(errors, text, 8192);
            say_line(errors, "the text is longer than 8,192 bytes");
        }
        Refusal::SectionCount => {
            at(errors, text, declared_at(text, 256));
            say_line(errors, "with this type there are more than 256 rows");
        }
        Refusal::TooLarge(p) => {
            at(errors, text, declared_at(text, p / 8));
            say_line(errors, "the type has more than 16 nodes or 4 levels");
        }
        _ => say_line(errors, "the rows have no room"),
    }
}

pub fn say<W: Write, E: Write>(
    out: &mut W,
    errors: &mut E,
    text: &[u8],
    why: Refusal,
) -> io::Result<()> {
    report::refused(out, refusal::number_of(why), refusal::place_of(why))?;
    sentence(errors, text, why);
    Ok(())
}
