// What is printed of an accepted text: the ids of its child names, and the first row of each declaration.
use console::{number, write};
use std::io;
use std::io::Write;

// The word at a place.
pub fn name<W: Write>(out: &mut W, text: &[u8], p: usize) -> io::Result<()> {
    if text.len() < p {
        return Ok(());
    }
    let q = type_words::word_end(text, p);
    if q < p {
        return Ok(());
    }
    write(out, &text[p..q])
}

fn line<W: Write>(out: &mut W, what: &[u8], n: usize, text: &[u8], p: usize) -> io::Result<()> {
    write(out, what)?;
    number(out, n as u64)?;
    write(out, b" ")?;
    name(out, text, p)?;
    write(out, b"\n")
}

fn ids<W: Write>(out: &mut W, text: &[u8]) -> io::Result<()> {
    if 8192 < text.len() {
        return Ok(());
    }
    let mut names = [0u8; 16384];
    let n = type_trees::gather(text, &mut names);
    for i in 0..n {
        if 8191 < i {
            return Ok(());
        }
        line(
            out,
            b"id ",
            i + 1,
            text,
            wire::index(wire::u16_at(&names, 2 * i)),
        )?;
    }
    Ok(())
}

fn rows<W: Write>(out: &mut W, text: &[u8], table: &[u8], n: usize) -> io::Result<()> {
    let mut row: usize = 0;
    for i in 0..n {
        if 256 < i {
            return Ok(());
        }
        if 256 < row {
            return Ok(());
        }
        line(
            out,
            b"row ",
            row,
            text,
            wire::index(wire::u16_at(table, 6 * i)),
        )?;
        row += 1 + wire::index(wire::u16_at(table, 6 * i + 2));
    }
    Ok(())
}

pub fn print<W: Write>(out: &mut W, text: &[u8]) -> io::Result<()> {
    if 8192 < text.len() {
        return Ok(());
    }
    let mut table = [0u8; 16384];
    let mut stack = [0u8; 8192];
    let Ok(n) = type_reading::read_rest(text, 0, &mut table, 0, &mut stack) else {
        return Ok(());
    };
    write(out, b"accepted\n")?;
    ids(out, text)?;
    rows(out, text, &table, n)
}
